ghost use Rattle.std.specs.Prelude.{◌≡◌, ◌≤◌, length};

use crate::line_reader::LineReader;
use pef_ports::Text;
use std::alloc::{AllocError, Global};
use std::mem::replace;

/// A reader of the text of a listing, part by part. Each line is made once, however small the parts are.
#[derive(Drop)]
pub struct ListingReader<'a> {
    lines: LineReader<'a>,
    /// Lines that were made and not yet read whole.
    made: Vec<u8>,
    /// How many bytes of them were read.
    read: usize,
    ghost inside: { read ≤ length made.items },
}

impl<'a> ListingReader<'a> {
    ghost use Rattle.std.specs.Prelude.{ℕ, ◌-◌, ◌⊎◌, [], OnErr, OnOk, drop};
    ghost use Rattle.pef_listing.specs.Left.{Reads, lines_left, text_left};

    /// Returns a reader of the text of these lines.
    pub fn new(alloc: Global, lines: LineReader<'a>) -> ListingReader<'a>
        ensures { text_left result ≡ lines_left lines.entry }
    {
        ListingReader {
            lines,
            made: Vec::new(alloc),
            read: 0,
        }
    }

    /// Reads the next bytes into the front of `buffer`, as many as it has, or all that are left. Returns how many. The
    /// lines after them aren't made.
    ///
    /// # Errors
    ///
    /// If an allocation fails, nothing is read.
    pub fn read(&mut self, alloc: Global, buffer: &mut [u8]) -> Result<usize, AllocError>
        ensures { Reads result (text_left self.old) (text_left self.new) buffer.old buffer.new }
    {
        self.make(alloc, buffer.len())?;
        let (_, waiting) = self.made.split_at(self.read);
        let count = waiting.len().min(buffer.len());
        if count == 0 {
            return Ok(0);
        }
        let (next, _) = waiting.split_at(count);
        let (front, _) = buffer.split_at_mut(count);
        front.copy_from_slice(next);
        self.read += count;
        Ok(count)
    }

    /// Makes lines until `wanted` bytes wait to be read, or all that are left.
    fn make(&mut self, alloc: Global, wanted: usize) -> Result<(), AllocError>
        ensures same { text_left self.new ≡ text_left self.old }
        ensures enough { OnOk result ((wanted ≤ length self.new.made.items - self.new.read) ⊎ (lines_left self.new.lines ≡ [])) }
    {
        if self.made.len() - self.read >= wanted {
            return Ok(());
        }
        self.forget();
        let waiting = self.made.len();
        let place = self.lines.place();
        let mut text = Text::new(replace(&mut self.made, Vec::new(alloc)));
        let printed = self.lines.print_up_to(&mut text, wanted);
        self.made = text.into_bytes();
        if printed.is_err() {
            self.made.truncate(waiting);
            self.lines.go_to(place);
            return Err(AllocError);
        }
        Ok(())
    }

    /// Forgets the bytes that were read.
    fn forget(&mut self)
        ensures made { self.new.made.items ≡ drop self.old.read self.old.made.items }
        ensures read { self.new.read ≡ 0 }
        ensures lines { self.new.lines ≡ self.old.lines }
    {
        let left = self.made.len() - self.read;
        self.made.copy_within(self.read.., 0);
        self.made.truncate(left);
        self.read = 0;
    }
}
