//! A text that C reads part by part.
ghost use Rattle.std.specs.Prelude.{◌≡◌, ◌≤◌, drop, false, length, OnErr};
ghost use Rattle.pef_listing.specs.Left.{Reads};

use pef_listing::ListingReader;
use std::alloc::{AllocError, Global};

/// What is left of a text.
#[derive(Drop)]
pub enum Unread<'a> {
    /// Lines of a container, which are made when they are read.
    Lines(ListingReader<'a>),
    /// Bytes that are there already.
    Bytes(MadeBytes),
}

/// Bytes of which the first ones were read.
#[derive(Drop)]
pub struct MadeBytes {
    bytes: Vec<u8, Global>,
    read: usize,
    ghost within: { read ≤ length bytes.items },
}

impl<'a> Unread<'a> {
    ghost use Rattle.pef_c.specs.Reports.Unread.{is_made, unread_text};

    /// Reads the next bytes into the front of `buffer`, as many as it has, or all that are left. Returns how many.
    ///
    /// # Errors
    ///
    /// If an allocation fails, nothing is read. Bytes that are there already are read without one.
    pub(crate) fn read(&mut self, alloc: Global, buffer: &mut [u8]) -> Result<usize, AllocError>
        ensures read { Reads result (unread_text self.old) (unread_text self.new) buffer.old buffer.new }
        ensures kind { is_made self.new ≡ is_made self.old }
        ensures lacks { OnErr result (is_made self.old ≡ false) }
    {
        match self {
            Unread::Lines(reader) => reader.read(alloc, buffer),
            Unread::Bytes(made) => Ok(made.read(buffer)),
        }
    }
}

impl MadeBytes {
    ghost use Rattle.std.specs.Prelude.{Ok, ℕ};
    ghost use Rattle.pef_c.specs.Reports.Unread.{made_left};

    /// Returns bytes of which none was read.
    pub(crate) fn new(bytes: Vec<u8, Global>) -> MadeBytes
        ensures { made_left result ≡ bytes.items }
    {
        MadeBytes { bytes, read: 0 }
    }

    /// Reads the next bytes into the front of `buffer`, as many as it has, or all that are left. Returns how many.
    fn read(&mut self, buffer: &mut [u8]) -> usize
        ensures { Reads {E = ℕ} (Ok result) (made_left self.old) (made_left self.new) buffer.old buffer.new }
    {
        let (_, waiting) = self.bytes.as_slice().split_at(self.read);
        let count = waiting.len().min(buffer.len());
        if count == 0 {
            // The buffer may be null.
            return 0;
        }
        let (next, _) = waiting.split_at(count);
        let (front, _) = buffer.split_at_mut(count);
        front.copy_from_slice(next);
        self.read += count;
        count
    }
}
