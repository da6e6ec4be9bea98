//! The files that get stubs and the sections of prepared memory: their paths, what each gets, and how they are written.
#![tactic(auto)]

mod paths;
mod sections;
mod writing;

pub use paths::{file_byte, section_path, stub_path};
pub use sections::{SectionFile, name_of, section_files};
pub use writing::{FileToWrite, write_files};
