//! Fixups along a program: the fixups that a relocation program makes, and its length.

mod additions;
mod walk;

pub use additions::{WORD, adds_at, after_first, after_import};
pub use walk::{makes, program_length};
