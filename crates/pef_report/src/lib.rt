//! The inspection of a container that may be damaged: its rows with all errors and notes about each, as lines of text and as JSON.
#![tactic(auto)]

mod found;
mod inspection;
mod members;
mod object;
mod order;
mod reading;
mod theorems;
mod verdict;
mod walk;

pub use inspection::Inspection;
pub use object::{RowRange, print_row_range};
pub use theorems::{
    each_finding_is_in_its_place, each_finding_is_printed_once, inspections_are_right, rows_join,
    verdicts_are_right,
};
