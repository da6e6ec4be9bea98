//! Worked rows of closures, and the calls of stores that can lack memory. They go through public calls. The containers are linked
//! from scripts. The expected values come from the rules of binding and its worked examples, never from the program.
//! `conformance` and `cases/library` have many more.
#![tactic(auto)]

#[cfg(test)]
mod bound;
#[cfg(test)]
mod many;
#[cfg(test)]
mod stores;
#[cfg(test)]
mod versions;
