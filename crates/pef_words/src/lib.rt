//! Borrowed parts of a byte string, and the big-endian numbers and zero-ended names in it.
//!
//! The readers of containers, loader sections, export tables and relocation programs take their numbers,
//! tables and names through a [`Cut`].
#![tactic(auto)]

mod cut;
mod tests;

pub use cut::Cut;
pub use tests::first_met;
