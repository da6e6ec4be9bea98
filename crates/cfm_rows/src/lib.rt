//! What is printed of prepared memory and of stubs: lines, and objects of JSON.
#![tactic(auto)]

mod encoded;
mod entries;
mod exports;
mod fragments;
mod imports;
mod lines;
mod place;
mod relocations;
mod sections;
mod symbols;

pub use fragments::{FragmentRow, print_fragment_object};
pub use lines::{print_source_line, print_stub_line, print_symbol_line};
pub use sections::SectionBytes;
pub use symbols::{print_stub_lines, print_stub_object, print_symbol_lines};
