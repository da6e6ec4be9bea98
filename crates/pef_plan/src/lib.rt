//! Plans: a relocation program of the fewest halfwords for given fixups, with a certificate that proves it.
#![tactic(auto)]

mod direct;
mod fault;
mod moves;
mod planner;
mod program;
mod reading;
mod registers;
mod rows;
mod runs;
mod section_runs;
mod skips;
mod tables;
mod theorems;
mod windows;

pub use fault::PlanFault;
pub use planner::{counted_plan, least_program, plan};
pub use theorems::{
    certificates_exist, least_programs_are_short, least_programs_name_what_is_used,
    planned_programs_are_one, reached_labels_are_least,
};
pub use windows::Looks;
