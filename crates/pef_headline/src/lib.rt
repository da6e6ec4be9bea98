//! The headline: every container that the linker writes prepares to exactly the memory that its script describes, and
//! its relocation programs are least. The laws of linker and loader together, without commands, files and texts.
#![tactic(auto)]

pub mod theorems;
