//! A law of the names of rows. The function does nothing.
ghost use Rattle.pef_rows.specs.Theorems.{PrintsNames};

/// A row is printed as if all of its name were looked at, but for the length of a name of more than 4,096 bytes.
#[tactic(auto, using(crate::proofs::NameLemmas::prints_names))]
pub fn names_are_printed()
    ensures { PrintsNames }
{}
