//! Laws of all faults of a container. The functions do nothing.
ghost use Rattle.pef_views.specs.Extents.{KeepsContainers};
ghost use Rattle.pef_views.specs.Refused.{RefusalsHavePlaces};
ghost use Rattle.pef_views.specs.Theorems.{FirstIsReported, OpensContainers};

/// The first of all faults of some bytes is the one that [`Container::read`](crate::Container::read) reports, and there is
/// none exactly if it reports none.
#[tactic(auto, using(crate::proofs::FindingLemmas::first_is_reported))]
pub fn first_fault_is_reported()
    ensures { FirstIsReported }
{}

/// If some bytes are a container, what can be read of them as of a damaged one is that container.
#[tactic(auto, using(crate::proofs::FindingLemmas::whole_container))]
pub fn containers_open()
    ensures { OpensContainers }
{}

/// The [own bytes](crate::Container::own_bytes) of a container are the same container, with the same header, sections, loader
/// section and names.
#[tactic(auto, using(crate::proofs::ExtentLemmas::kept_whole))]
pub fn containers_are_kept()
    ensures { KeepsContainers }
{}

/// The place of an error of a container is that of what is refused: a field of the header, or of the first section that breaks a
/// rule. The number at its offset is the value of that field.
#[tactic(auto, using(crate::proofs::RefusedLemmas::refusals_have_places))]
pub fn refusals_have_places()
    ensures { RefusalsHavePlaces }
{}
