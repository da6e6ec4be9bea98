//! The lines of a text, their words, and what words spell: numbers, and bytes in hex.
//!
//! A line ends with a line feed. The words of a script's line are bytes 21 to 7E (hex), with one space between two of
//! them (docs/SCRIPTS.md, "Text"): [`next_word`] and [`last_word`] return them. The words of a certificate's line are
//! the parts between its spaces: [`Words`] takes them one by one. Nothing is copied: lines and words are slices of the
//! text.
#![tactic(auto)]

mod cursor;
mod head;
mod numbers;
mod pairs;
mod words;

pub use cursor::Words;
pub use head::Head;
pub use numbers::{decimal_number, hex_number};
pub use pairs::Pairs;
pub use words::{LINE_FEED, cut_at, last_word, next_word};
