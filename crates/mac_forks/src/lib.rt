//! The forks of a file of the classic Mac OS, read in place: MacBinary, AppleSingle and AppleDouble.
//!
//! The formats are MacBinary I, II and III, and those of RFC 1740. [`MacFile::read`] finds out which one a file has.
//! The parts that it gives are slices of the file, so nothing is copied and nothing is allocated.
#![tactic(auto)]

mod apple;
mod crc;
mod fault;
mod finder;
mod fork_bytes;
mod layout;
mod mac_binary;
mod mac_file;

pub use apple::{AppleDates, AppleEntry, AppleFile, AppleHeader};
pub use crc::crc_16;
pub use fault::ForkFault;
pub use finder::FinderInfo;
pub use fork_bytes::ForkBytes;
pub use mac_binary::{MacBinary, MacBinaryCuts, MacBinaryExtension, MacBinaryHeader};
pub use mac_file::{ForkFormat, MacFile, NO_CUTS};
