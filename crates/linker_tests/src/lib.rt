//! Worked rows of scripts and of the linker, and calls in which an allocation fails. They go through public calls. The expected
//! values come from the format's documents and worked examples, never from the program. `cases/` has many more.
#![tactic(auto)]

#[cfg(test)]
mod refused;
#[cfg(test)]
mod script;
#[cfg(test)]
mod write;
