//! Contexts: fragments that are prepared in one memory, shared by the connections that need them, and
//! released when the last of these is closed.
//!
//! The new fragments of a closure take each of three steps together: their sections are placed, filled with
//! their images, and relocated, as `cfm_sections` says. If one is refused, all that were placed are released.
//!
//! That fragments are shared is the Code Fragment Manager's rule (Mac OS Runtime Architectures, "Code Fragment
//! Manager"). How connections are numbered, and which of several refusals comes first, are this project's own.
#![tactic(auto)]

mod add_fault;
mod addresses;
mod bounds;
mod connections;
mod context;
mod exports;
mod fault;
mod fragment_fault;
mod fragments;
mod imports;
mod locations;
mod new_sections;
mod open_connection;
mod options;
mod place_fault;
mod preparation;
mod remove_fault;
mod sections;
mod slots;
pub mod theorems;
mod users;

pub use add_fault::AddFault;
pub use cfm_closure::{
    BindFault, Closure, Definition, Implementation, MissingLibrary, Store, StoreFault, Target,
};
pub use cfm_memory::{Granule, GranuleFault, MemoryFault};
pub use cfm_sections::{Entries, ImageFault};
pub use context::{Connection, Context};
pub use exports::FragmentExport;
pub use fault::{CloseFault, PrepareFault};
pub use fragment_fault::FragmentFault;
pub use imports::ImportTarget;
pub use locations::Location;
pub use new_sections::NewSection;
pub use options::Options;
pub use pef_format::{SectionKind, Share};
pub use pef_loader::LoaderFault;
pub use pef_pidata::PackFault;
pub use pef_reloc::RelocFault;
pub use pef_views::{SectionHeader, ViewFault};
pub use place_fault::PlaceFault;
pub use remove_fault::RemoveFault;
pub use sections::Sections;
