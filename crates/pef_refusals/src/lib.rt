//! The name of a refusal, and its meaning: a number gives its name and one or two sentences of help.
//!
//! A number means the same in every crate. The crate that finds a refusal declares it. docs/ERRORS.md has the whole
//! list.
#![tactic(auto)]

mod explanations;
mod names;
mod theorems;

pub use explanations::help;
pub use names::name;
pub use theorems::named_are_explained;
