//! Laws: the number of each refusal and of each note has its name, and the calls that find containers find all. The functions do
//! nothing.
ghost use Rattle.std.specs.Prelude.{◌≡◌, Some};
ghost use Rattle.cfm_memory.specs.Faults.{granule_fault_name, granule_fault_number};
ghost use Rattle.cfm_prepare.specs.Faults.{add_fault_name, add_fault_number, close_fault_name, close_fault_number, remove_fault_name, remove_fault_number};
ghost use Rattle.pef_inspect.specs.Findings.{finding_name, finding_number};
ghost use Rattle.pef_listing.specs.Faults as listing;
ghost use Rattle.pef_loader.specs.Faults as loader;
ghost use Rattle.pef_pidata.specs.Faults as pidata;
ghost use Rattle.pef_refusals.specs.Names.{name_of};
ghost use Rattle.pef_script.specs.Text.Faults as script;
ghost use Rattle.pef_views.specs.Faults as views;
ghost use Rattle.pef_c.specs.Reports.Found.{FoundFollow};

use cfm_memory::GranuleFault;
use cfm_prepare::{AddFault, CloseFault, RemoveFault};
use pef_inspect::Finding;
use pef_listing::ListFault;
use pef_loader::LoaderFault;
use pef_pidata::PackFault;
use pef_script::LineFault;
use pef_views::ViewFault;

/// The number of a container's refusal has its name.
#[tactic(auto, unfolding(pef_refusals::specs::Names::container_name))]
pub fn container_names(fault: ViewFault)
    ensures { name_of (views.fault_number fault) ≡ Some (views.fault_name fault) }
{}

/// The number of a loader section's refusal has its name.
#[tactic(auto, unfolding(pef_refusals::specs::Names::loader_name))]
pub fn loader_names(fault: LoaderFault)
    ensures { name_of (loader.fault_number fault) ≡ Some (loader.fault_name fault) }
{}

/// The number of the refusal of packed bytes has its name.
#[tactic(auto, unfolding(pef_refusals::specs::Names::packed_name, pef_refusals::specs::Names::port_name))]
pub fn packed_names(fault: PackFault)
    ensures { name_of (pidata.fault_number fault) ≡ Some (pidata.fault_name fault) }
{}

/// The number of a listing's refusal has its name.
#[tactic(auto, unfolding(pef_refusals::specs::Names::container_name, pef_refusals::specs::Names::loader_name, pef_refusals::specs::Names::relocation_name, pef_refusals::specs::Names::port_name))]
pub fn listing_names(fault: ListFault)
    ensures { name_of (listing.fault_number fault) ≡ Some (listing.fault_name fault) }
{}

/// The number of the refusal of a script's line has its name.
#[tactic(auto, unfolding(pef_refusals::specs::Names::script_name))]
pub fn script_names(fault: LineFault)
    ensures { name_of (script.fault_number fault) ≡ Some (script.fault_name fault) }
{}

/// The number of each finding has its name.
#[tactic(auto, unfolding(pef_refusals::specs::Names::container_name, pef_refusals::specs::Names::loader_name, pef_refusals::specs::Names::packed_name, pef_refusals::specs::Names::relocation_name, pef_refusals::specs::Names::port_name, pef_refusals::specs::Names::note_name))]
pub fn finding_names(finding: Finding)
    ensures { name_of (finding_number finding) ≡ Some (finding_name finding) }
{}

/// The number of a fragment's refusal by a context has its name.
#[tactic(auto, unfolding(pef_refusals::specs::Names::port_name, pef_refusals::specs::Names::library_name))]
pub fn add_names(fault: AddFault)
    ensures { name_of (add_fault_number fault) ≡ Some (add_fault_name fault) }
{}

/// The number of the refusal of a fragment that isn't removed has its name.
#[tactic(auto, unfolding(pef_refusals::specs::Names::closure_name, pef_refusals::specs::Names::port_name, pef_refusals::specs::Names::library_name))]
pub fn remove_names(fault: RemoveFault)
    ensures { name_of (remove_fault_number fault) ≡ Some (remove_fault_name fault) }
{}

/// The number of a refused closing has its name.
#[tactic(auto, unfolding(pef_refusals::specs::Names::closure_name))]
pub fn close_names(fault: CloseFault)
    ensures { name_of (close_fault_number fault) ≡ Some (close_fault_name fault) }
{}

/// The number of what is no granule has its name.
#[tactic(auto, unfolding(pef_refusals::specs::Names::library_name))]
pub fn granule_names(fault: GranuleFault)
    ensures { name_of (granule_fault_number fault) ≡ Some (granule_fault_name fault) }
{}

/// The containers that are found one after the other are all that a search finds, in its order.
#[tactic(auto, using(crate::proofs::FoundLemmas::found_follow))]
pub fn found_containers_follow()
    ensures { FoundFollow }
{}
