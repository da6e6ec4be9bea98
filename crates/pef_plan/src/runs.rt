//! The values of instructions that add a run of fixups: one halfword, plus the extension of the labels after
//! the run's end. A run may end after each of its units. There are two ways to find the best end: a run is
//! followed from its first unit, or its ends are kept in windows while the tables are filled from the last
//! fixup to the first.

mod ahead;
mod ends;
mod run;
mod state;
mod suffix;

pub use ends::RunEnds;
pub(crate) use ends::line_of;
pub use run::Run;
pub use state::{Choice, FixupState, OpenState, PlanState, Sought, Step};
pub use suffix::SolvedSuffix;
