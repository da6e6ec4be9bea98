//! Data of tests in several crates: scripts, containers written by hand and changed, and fixups in tables.
#![tactic(auto)]

pub mod changes;
pub mod containers;
pub mod lists;
pub mod mac_files;
pub mod refusals;
pub mod scripts;
