//! What is found in a file besides its containers, and how it is printed: its forks, what it says of itself, its resources, its
//! fragments, and their errors and notes. Also what is printed of a file that wasn't read.
#![tactic(auto)]

mod data_file;
mod faults;
mod file_error;
mod file_finding;
mod file_notes;
mod forks;
mod fragments;
mod member_table;
mod output_format;
mod record;
mod resource_row;
mod unread;
mod wrapping;

pub use data_file::{
    DataFile, PairedHead, is_data_fork, is_resource_file, print_paired_line, print_paired_object,
};
pub use faults::find_faults;
pub use file_finding::{FileFinding, OtherFormat, none_of, print_findings};
pub use file_notes::find_notes;
pub use fragments::print_members;
pub use member_table::FileError;
pub use output_format::OutputFormat;
pub use record::{print_record_line, print_record_member};
pub use resource_row::{print_resources, resource_rows};
pub use unread::{UNREAD_COUNTS, UnreadFile};
pub use wrapping::{print_fork_lines, print_fork_objects};
