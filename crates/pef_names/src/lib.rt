//! A name as a key of a table.
#![tactic(auto)]

mod name_key;

pub use name_key::NameKey;
