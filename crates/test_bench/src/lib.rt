//! The base of the tests of the commands, beside `test_data`: files, an input and an output in memory, and runs of the
//! tool over them.
//!
//! The ports expose their bytes, so the contracts of `run` on bytes apply to them. They give and take bytes in parts,
//! and fail at one call, after which they would continue.
#![tactic(auto)]

pub mod ports;
pub mod runs;

pub use test_data::{changes, containers, mac_files, scripts};
