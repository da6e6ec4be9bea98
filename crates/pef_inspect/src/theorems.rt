//! Laws of the errors of a container. The functions do nothing.
ghost use Rattle.pef_inspect.specs.Complete.{FindsEach};
ghost use Rattle.pef_inspect.specs.First.{FirstIsReported, FirstIsReportedWithin};
ghost use Rattle.pef_inspect.specs.Sound.{FindsAll, FindsAllWithin, NoFalseAlarm, TellsApart};

/// A container in which no error is found, and nothing is left unverified, is sound: nothing of it is refused when it is read,
/// expanded or relocated.
#[tactic(auto, using(crate::proofs::Soundness::no_errors_sound))]
pub fn no_errors_are_sound()
    ensures { FindsAll }
{}

/// The first error is the one that reading the container, its loader section and its relocation programs in turn reports. If
/// the programs before that error have too many bytes to be verified, the note that says so comes first.
#[tactic(auto, using(crate::proofs::FirstLemmas::first_is_reported))]
pub fn first_error_is_reported()
    ensures { FirstIsReported }
{}

/// The law [`no_errors_are_sound`] holds within any limits.
#[tactic(auto, using(crate::proofs::Soundness::no_errors_within_sound))]
pub fn no_errors_within_are_sound()
    ensures { FindsAllWithin }
{}

/// The law [`first_error_is_reported`] holds within any limits.
#[tactic(auto, using(crate::proofs::FirstLemmas::first_within_is_reported))]
pub fn first_error_within_is_reported()
    ensures { FirstIsReportedWithin }
{}

/// All that is wrong with a container is found, also if much of it is damaged. Each rule that is broken by a field of a header, a
/// section, a library, an import, an entry point, a relocation header or an export has its error, at its place. So has each packed
/// image that doesn't expand, and each program that isn't readable or is refused in its section, as far as the limits go. If the rows
/// of a table aren't looked at, that has an error itself.
#[tactic(auto, using(crate::proofs::CompleteLemmas::finds_each))]
pub fn each_broken_rule_has_its_error()
    ensures { FindsEach }
{}

/// No error is found in a sound container, whatever the limits are. If they allow its programs and its packed data, nothing is
/// left unverified either.
#[tactic(auto, using(crate::proofs::Soundness::no_false_alarm))]
pub fn sound_containers_have_no_errors()
    ensures { NoFalseAlarm }
{}

/// What is found among the errors is an error, or the note that something wasn't verified. No note is an error.
#[tactic(auto, using(crate::proofs::Apart::tells_apart))]
pub fn errors_and_notes_are_apart()
    ensures { TellsApart }
{}
