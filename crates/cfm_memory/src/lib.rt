//! Placed memory: where the instances of sections lie, and their bytes.
//!
//! An instance is a section that was given memory. [`Memory::place`] finds the lowest free address for
//! one. The format says how a section is aligned (Mac OS Runtime Architectures, "PEF Structure", section
//! headers), but not where it lies.
#![tactic(auto)]

mod granule;
mod hints;
mod memory;
mod place;

pub use granule::{Granule, GranuleFault};
pub use memory::Memory;
pub use place::{MemoryFault, Place, Reserved};
