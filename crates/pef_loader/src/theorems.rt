//! Laws of all faults of a loader section. The functions do nothing.
ghost use Rattle.pef_loader.specs.Refused.{RefusalsHavePlaces};
ghost use Rattle.pef_loader.specs.Theorems.{FirstIsReported, OpensLoaders};

/// The first of all faults of a loader section is the one that [`Loader::read`](crate::Loader::read) reports, and there is
/// none exactly if it reports none.
#[tactic(auto, using(crate::proofs::FindingLemmas::first_is_reported))]
pub fn first_fault_is_reported()
    ensures { FirstIsReported }
{}

/// If a loader section breaks no rule, what can be read of it as of a damaged one is that loader section.
#[tactic(auto, using(crate::proofs::FindingLemmas::whole_loader))]
pub fn loaders_open()
    ensures { OpensLoaders }
{}

/// The place of an error of a loader section is that of what is refused: a field of its header, or of the first row of a table that
/// breaks a rule. The number at its offset is the value of that field.
#[tactic(auto, using(crate::proofs::RefusedLemmas::refusals_have_places))]
pub fn refusals_have_places()
    ensures { RefusalsHavePlaces }
{}
