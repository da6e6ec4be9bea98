//! The commands of `pef`, over any files, input and output.
//!
//! Each command has one file. Its function reads its files or input, delivers one `Reply` while all borrowed data is
//! alive, and returns the outcome. The function's contract states the answer. [`run`] chooses the command by the words,
//! and [`explain`] explains the outcome.
#![tactic(auto)]

mod answers;
mod check;
mod commands;
mod companion;
mod distances;
mod explanation;
mod extract;
mod fragment;
mod gathering;
mod inspect;
mod link;
mod linking;
mod list;
mod load;
mod loaded;
mod prepare;
mod reading;
mod show;
mod spelling;
mod supplied;
pub mod theorems;
mod version;
mod write_stubs;
mod writing;

pub use answers::Outcome;
pub use commands::{out_of_memory, perform, run};
pub use explanation::explain;
pub use pef_faults::{Excerpt, Explanation, Reason, ScriptNote};
pub use pef_ports::{FileFault, Files, Sink, Source, StreamFault};
pub use pef_request::plain_words;
