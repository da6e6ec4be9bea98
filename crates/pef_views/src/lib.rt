//! Reads PEF containers in place, or reports the first rule that the bytes break.
//!
//! The format is that of Mac OS Runtime Architectures, "PEF Structure", and of PEFBinaryFormat.h.
//! [`Container::read`] judges the bytes once. The views that it gives are slices of those bytes, so
//! nothing is copied and nothing is allocated.
#![tactic(auto)]

mod container;
mod extent;
mod fault;
mod header;
mod partial;
mod section;
mod theorems;

pub use container::Container;
pub use fault::ViewFault;
pub use header::Header;
pub use partial::PartialContainer;
pub use section::{SectionHeader, SectionView};
pub use theorems::{
    containers_are_kept, containers_open, first_fault_is_reported, refusals_have_places,
};
