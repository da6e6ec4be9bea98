//! Rows of labels, as they are kept and packed. Here a label is a number.
//!
//! [`LabelRows`] has rows of one width, and keeps equal neighbours once. [`LabelRuns`] iterates over them.
//! [`PackedRows`] has them in less memory, where they are read in order.
#![tactic(auto)]

mod packed;
mod rows;

pub use packed::{NumbersLeft, PackedKept, PackedRows};
pub use rows::{KeptRows, LabelRows, LabelRun, LabelRuns};
