//! The tables of a container's loader section, read in place, or the first rule that they break.
//!
//! The format is that of Mac OS Runtime Architectures, "PEF Structure", and of PEFBinaryFormat.h.
//! [`Loader::read`] checks the section once. Its views are slices of the section, so nothing is copied and
//! nothing is allocated.
#![tactic(auto)]

mod block;
mod cursor;
mod cut_name;
mod cut_rows;
mod export;
mod fault;
mod header;
mod import;
mod import_names;
mod import_reader;
mod library;
mod marks;
mod name_reader;
mod names;
mod owners;
mod painting;
mod partial;
mod place;
mod program_fault;
mod ranges;
mod reloc;
mod tables;
mod theorems;

pub use cut_name::{CutName, Names};
pub use cut_rows::{CutExport, CutImport, CutLibrary};
pub use fault::{LoaderFault, NamedRow};
pub use header::{EntryKind, LoaderHeader};
pub use import_names::import_named;
pub use import_reader::ImportReader;
pub use library::LibraryView;
pub use partial::{
    PartialExport, PartialImport, PartialImports, PartialLibrary, PartialLoader, PartialRelocation,
};
pub use place::{partial_place, place_in};
pub use program_fault::ProgramFault;
pub use tables::Loader;
pub use theorems::{first_fault_is_reported, loaders_open, refusals_have_places};
