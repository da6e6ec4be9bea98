//! The report on a file: what it is, what is found in it, and all its containers, each with all errors. It is lines of text or an
//! object of JSON, in one piece or in parts.
#![tactic(auto)]

mod containers;
mod file;
mod in_memory;
mod parts;
mod row;
mod tally;
mod theorems;
mod turn;

pub use file::FileReport;
pub use parts::ReportPart;
pub use theorems::{parts_join, reports_without_errors_are_right};
pub use turn::Turn;
