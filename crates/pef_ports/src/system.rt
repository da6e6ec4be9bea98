//! Files and streams of the system, as ports of the tool. The files count their failures, and report which calls of a
//! disk were made. The streams report the bytes of the reader or writer that they have, if that reports them.

mod disk;
mod streams;

pub use disk::{Disk, DiskFiles};
pub use streams::{Input, Output};
