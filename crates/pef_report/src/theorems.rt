//! Laws of the text of an inspection. The functions do nothing.
ghost use Rattle.pef_report.specs.Judged.{JudgesRight};
ghost use Rattle.pef_report.specs.Places.{PrintsInPlace};
ghost use Rattle.pef_report.specs.States.{VerdictsAreRight};
ghost use Rattle.pef_report.specs.Theorems.{JoinsRows, PrintsEachOnce};

/// Without the lines of the rows, the text of an inspection is the lines of all its errors and notes, in order. So each of them
/// is printed once, whichever rows can be read.
#[tactic(auto, using(crate::proofs::Merging::each_once))]
pub fn each_finding_is_printed_once()
    ensures { PrintsEachOnce }
{}

/// Each error and note is printed after the row or the instruction that it is about, and before the next one.
#[tactic(auto, using(crate::proofs::InPlace::prints_in_place))]
pub fn each_finding_is_in_its_place()
    ensures { PrintsInPlace }
{}

/// An inspection without errors, in which nothing is left unverified, is that of a sound container, and an inspection of a sound
/// container has no errors, whatever the limits are.
#[tactic(auto, using(crate::proofs::Judging::judges_right))]
pub fn inspections_are_right()
    ensures { JudgesRight }
{}

/// The verdict is `whole` exactly if no error is counted, as of each sound container, and then it is so of each part, and the container
/// has the bytes that it needs. It is `cut` exactly if a container that isn't unlikely has fewer bytes than it needs. Of a stub library
/// and of a container for CFM-68K it says so only if no other error is counted.
#[tactic(auto, using(crate::proofs::StateLemmas::verdicts_are_right))]
pub fn verdicts_are_right()
    ensures { VerdictsAreRight }
{}

/// Rows that are printed in parts are those of the whole object.
#[tactic(auto, using(crate::proofs::Merging::joined_rows))]
pub fn rows_join()
    ensures { JoinsRows }
{}
