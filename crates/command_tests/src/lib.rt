//! Tests of the commands through `run`, and of the explanations of outcomes, over files, an input and an output in
//! memory: worked examples, and what happens if an allocation or a port fails. The tests of `distances` and `check` are in a
//! crate of their own, except those of failed allocations. `cases/commands` has what the program prints of other files.
//!
//! Expected values come from the documents and from worked examples, never from the program.
#![tactic(auto)]

#[cfg(test)]
mod calls;
#[cfg(test)]
mod companions;
#[cfg(test)]
mod explained;
#[cfg(test)]
mod failures;
#[cfg(test)]
mod inspect;
#[cfg(test)]
mod refused;
#[cfg(test)]
mod streams;
#[cfg(test)]
mod worked;
