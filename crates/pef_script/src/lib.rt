//! Link scripts: the parts of a container, and the memory that a script describes.
//!
//! [`Script::read`] makes a [`Script`] from a text, or reports the [`ScriptFault`] of the first line that breaks a
//! rule. A script keeps the limits, and refers only to sections, libraries, imports and offsets that exist.
#![tactic(auto)]

mod parts;
mod script;
mod text;
mod theorems;
mod views;

pub use parts::{ExportData, ImportData, LibraryData, Parts, Section, SectionHeader, Versions};
pub use script::Script;
pub use text::{
    Form, LineFault, Names, Oddity, ScriptFault, Word, WordKind, form_in, kind_in, line_at,
    line_in, oddity_of, places_are_inside, scripts_hold, word_range,
};
pub use theorems::described_bytes;
pub use views::LibraryView;
