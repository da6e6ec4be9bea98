//! Copies of containers with other bytes in some places.

use std::alloc::Global;

/// A place in a container.
#[derive(Clone, Copy, Debug)]
pub enum At {
    /// At this offset from the front.
    Front(usize),
    /// At this distance from the end.
    End(usize),
}

impl At {
    /// Returns the offset of this place in a container of this length, or `None` if it is outside.
    fn within(self, len: usize) -> Option<usize> {
        match self {
            At::Front(before) => Some(before),
            At::End(behind) => len.checked_sub(behind),
        }
    }
}

/// Bytes to write, and the place to write them at.
pub type Change = (At, &'static [u8]);

/// Writes bytes at a place. `None` if the container ends before their end.
pub fn change(bytes: &mut [u8], at: At, other: &[u8]) -> Option<()> {
    let len = bytes.len();
    match at.within(len) {
        Some(from) if from <= len && other.len() <= len - from => {
            bytes[from..from + other.len()].copy_from_slice(other);
            Some(())
        }
        _ => None,
    }
}

/// Returns a copy of a container, with other bytes at a place. `None` if it ends before their end, or an allocation
/// fails.
pub fn changed(alloc: Global, container: &[u8], at: At, other: &[u8]) -> Option<Vec<u8>> {
    let mut bytes = Vec::from_slice(alloc, container).ok()?;
    change(&mut bytes, at, other)?;
    Some(bytes)
}

/// Writes words at some offsets. `None` if the container ends before the end of one.
fn change_words(bytes: &mut [u8], words: &[(usize, u32)]) -> Option<()> {
    for (at, word) in words {
        change(bytes, At::Front(*at), &word.to_be_bytes())?;
    }
    Some(())
}

/// Returns a copy of a container, with other words at some offsets. `None` if it ends before the end of one, or an
/// allocation fails.
pub fn with_words(alloc: Global, container: &[u8], words: &[(usize, u32)]) -> Option<Vec<u8>> {
    let mut bytes = Vec::from_slice(alloc, container).ok()?;
    change_words(&mut bytes, words)?;
    Some(bytes)
}
