//! Listings of containers: a line for each section, library, import, entry, relocation instruction and
//! export.
//!
//! [`Listing::read`] reads all parts to be listed, and reports the first refusal. [`Listing::print`]
//! prints the lines, [`LineReader`] prints them one after the other, and [`ListingReader`] gives their text in parts.
#![tactic(auto)]

mod fault;
mod instructions;
mod line_reader;
mod lines;
mod listing;
mod reader;
mod words;

pub use fault::ListFault;
pub use instructions::print_instr;
pub use line_reader::{LineReader, ListingCursor};
pub use listing::Listing;
pub use pef_reloc::{InstrNumbers, instr_numbers, kind_name};
pub use reader::ListingReader;
pub use words::{ExportWords, ImportWords, LibraryWords, magnitude, sign};
