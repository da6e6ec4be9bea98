//! Which command the words of a command line ask for, with its operands, or what is wrong with them.
//!
//! [`read_request`] gives the request, and [`words_help`] the help or the error that is shown. `clap` reads the words.
#![tactic(auto)]

mod arguments;
mod command_line;
mod files;
mod prepare;
mod stubs;
mod theorems;
mod usage;

pub use command_line::{Request, WordsFault, read_request};
pub use files::{FileOperand, NamedFile};
pub use prepare::{PrepareRequest, PreparedForm, Stubbing};
pub use stubs::{StubSymbols, StubsRequest};
pub use theorems::plain_words;
pub use usage::words_help;
