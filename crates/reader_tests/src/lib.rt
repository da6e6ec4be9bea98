//! Worked rows of the readers of containers, a file for each library, a table for each call. They go through public calls. The
//! expected values come from the format's documents and worked examples, never from the program. `cases/` and `conformance/`
//! have many more.
#![tactic(auto)]

#[cfg(test)]
mod hash;
#[cfg(test)]
mod loader;
#[cfg(test)]
mod pidata;
#[cfg(test)]
mod views;
