//! Tests of the findings of containers: notes, limits, and calls that no command makes. They go through public calls. The
//! places of all notes were written down by hand. `conformance/inspect` and `cases/` have errors.
#![tactic(auto)]

#[cfg(test)]
mod inspection;
#[cfg(test)]
mod limits;
#[cfg(test)]
mod notes;
