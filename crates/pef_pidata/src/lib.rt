//! Pattern-initialized data: packed bytes that spell out the image of a data section, read and written.
//!
//! The instructions are those of Mac OS Runtime Architectures, "PEF Structure", pattern-initialized data, and
//! of PEFBinaryFormat.h (kPEFPkDataZero and those after it).
#![tactic(auto)]

mod argument;
mod fault;
mod instruction;
mod packed;
mod packing;
mod theorems;
mod write;

pub use fault::PackFault;
pub use packed::{expand, verify};
pub use packing::pack;
pub use theorems::{packed_images_expand, refusals_have_places};
