//! The linker, which writes the container of a script.
//!
//! The format is that of Mac OS Runtime Architectures, "PEF Structure", and of PEFBinaryFormat.h.
//! [`link`] takes a script and returns its container, with a shortest relocation program for each
//! section that has fixups, and a certificate for each section. [`link_container`] returns the container
//! alone, and takes far less memory; [`link_certificates`] returns the certificates alone. The container is read back
//! as the script: see [`linked_containers`],
//! [`linked_programs`] and [`linked_programs_are_least`]. For every script there is one: see
//! [`every_script_links`].
#![tactic(auto)]

mod container;
mod entries;
mod export_table;
mod exports;
mod fault;
mod field;
mod linking;
mod loader;
mod program;
mod relocations;
mod sections;
mod theorems;

pub use exports::link_exports;
pub use fault::LinkFault;
pub use linking::{Linked, LinkedContainer, link, link_certificates, link_container};
pub use theorems::{
    every_script_links, exports_are_read_back, linked_containers, linked_programs,
    linked_programs_are_least, scripts_have_one_link,
};
