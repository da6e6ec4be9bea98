//! The ports of the tool, which are its files, its input and its output. Also reading a whole input, and
//! the printing that commands share: text through a page, lines, names, and memory in hex.
#![tactic(auto)]

mod chain;
mod dump;
mod input;
mod line;
mod name;
mod page;
mod pieces;
mod ports;
pub mod system;
mod text;

pub use chain::{Decimal, Escaped, Hex, HexByte, Joined, Printed, Verbatim};
pub use dump::print_memory;
pub use input::{InputFault, read_input};
pub use line::{Line, push_hex};
pub use name::print_name;
pub use page::{Page, flush, send};
pub use pieces::{Piece, print_pieces};
pub use ports::{FileFault, FileReason, Files, Sink, Source, StreamFault};
pub use text::Text;
