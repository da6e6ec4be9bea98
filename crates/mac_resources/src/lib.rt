//! The resources of a resource fork of the classic Mac OS, read in place.
//!
//! The format is that of *Inside Macintosh: More Macintosh Toolbox*, "Resource Manager". [`ResourceFork::read`] reads the
//! header and the map. Each type and each resource is read when it is asked for, so damage in one hides no other. All
//! bytes are slices of the fork. Nothing is copied and nothing is allocated.
#![tactic(auto)]

mod fault;
mod fork;
mod layout;
mod reference;
mod resource;
mod resources;

pub use fault::ResourceFault;
pub use fork::{ResourceFork, ResourceHeader, ResourceMap};
pub use reference::{Reference, ResourceType};
pub use resource::Resource;
pub use resources::Resources;
