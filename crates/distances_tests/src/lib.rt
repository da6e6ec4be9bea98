//! Tests of `distances` and `check` through `run`, over files, an input and an output in memory.
//!
//! Expected values come from the documents and from worked examples, never from the program.
#![tactic(auto)]

#[cfg(test)]
mod check;
#[cfg(test)]
mod distances;
#[cfg(test)]
mod large;
