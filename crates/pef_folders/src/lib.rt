//! Folders on the command line: `pef prepare .. -L FOLDER` takes each file of a folder as one with libraries.
//!
//! [`expanded`] replaces each folder among the words of a command line by its files, before a command reads the words. It reads folders
//! through the port [`Folders`], which a system implements.
#![tactic(auto)]

mod expansion;
mod folders;
mod system;
mod theorems;

pub use expansion::expanded;
pub use folders::{FolderFault, Folders};
