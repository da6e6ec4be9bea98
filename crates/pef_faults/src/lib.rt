//! Any error of the product: its number, its name, the names of fragments, libraries and symbols that it gives, and what
//! is known of it beyond these.
//!
//! [`Fault`] holds what the other crates report. Commands and the library for C ask it alone. A [`Explanation`] is what is known
//! beyond the line of an error, and [`print_note`] says it.
#![tactic(auto)]

mod fault;
mod names;
mod notes;
mod place;
pub mod theorems;

pub use fault::Fault;
pub use names::Names;
pub use notes::{Excerpt, Explanation, Reason, ScriptNote, note_of, print_note};
