//! Why a fragment's own bytes can't stop a preparation if no error is found in them, and why none is found in what was placed or
//! linked. They are laws of the definitions in which the crates below state their contracts. The functions do nothing.
#![tactic(auto)]

pub mod theorems;
