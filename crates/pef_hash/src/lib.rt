//! The export hash table of a PEF loader section (Mac OS Runtime Architectures, "PEF Structure",
//! "Export Hash Table"): hash words and slots, the export of a name, and the table of some names.
#![tactic(auto)]

mod builder;
mod chain;
mod exports;
mod fault;
mod regular;
mod word;

pub use builder::{Table, build};
pub use exports::{Entry, Exports, export_place};
pub use fault::HashFault;
pub use regular::{built_tables_are_regular, regular_slots_end_inside};
pub use word::{hash_word, power_for, slot};
