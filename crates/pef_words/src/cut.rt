ghost use Rattle.std.specs.Prelude.{◌≡◌, ◌==◌, length, option_map};
ghost use Rattle.std.specs.Int.{w16, w32};
ghost use Rattle.std.specs.Option.{option_copied};
ghost use Rattle.pef_words.specs.Bytes.{before_zero, name_at, number_at, part_of, signed_at};

use byteorder::{BigEndian, ByteOrder};
use memchr::memchr;

/// A view of some bytes, which it borrows.
///
/// Numbers are big-endian, as in all of a PEF container (Mac OS Runtime Architectures, "PEF
/// Structure"). Offsets and lengths count bytes. If they exceed the end, the result is `None`, and
/// nothing wraps.
#[derive(Clone, Copy, Debug)]
pub struct Cut<'a> {
    bytes: &'a [u8],
}

impl<'a> Cut<'a> {
    /// Returns a view of all of `bytes`.
    pub fn new(bytes: &'a [u8]) -> Cut<'a>
        ensures { result.bytes.now ≡ bytes.entry.now }
    {
        Cut { bytes }
    }

    /// Returns the bytes of the view, for as long as the source lives.
    pub fn bytes(self) -> &'a [u8]
        ensures { result.now ≡ self.entry.bytes.now }
    {
        self.bytes
    }

    /// Returns how many bytes there are.
    pub fn len(self) -> usize
        ensures { result ≡ length self.entry.bytes.now }
    {
        self.bytes.len()
    }

    /// Returns whether there are no bytes.
    pub fn is_empty(self) -> bool
        ensures { result ≡ (length self.entry.bytes.now == 0) }
    {
        self.bytes.is_empty()
    }

    /// Returns the byte at `at`, or `None` past the end.
    #[tactic(auto, using(crate::proofs::Numbers::number_in_part), unfolding(crate::specs::Bytes::number_at, crate::specs::Bytes::part_of))]
    pub fn u8_at(self, at: usize) -> Option<u8>
        ensures { result ≡ number_at 1 self.entry.bytes.now at }
    {
        self.bytes.get(at).copied()
    }

    /// Returns the unsigned number in the two bytes from `at`, or `None` if they pass the end.
    #[tactic(auto, using(crate::proofs::Numbers::number_in_part), unfolding(crate::specs::Bytes::number_at, crate::specs::Bytes::part_of))]
    pub fn u16_at(self, at: usize) -> Option<u16>
        ensures { result ≡ number_at 2 self.entry.bytes.now at }
    {
        let bytes = self.part(at, 2)?.bytes;
        Some(BigEndian::read_u16(bytes))
    }

    /// Returns the two's complement number in the two bytes from `at`, or `None` if they pass the end.
    pub fn i16_at(self, at: usize) -> Option<i16>
        ensures { result ≡ signed_at w16 2 self.entry.bytes.now at }
    {
        Some(self.u16_at(at)?.cast_signed())
    }

    /// Returns the unsigned number in the four bytes from `at`, or `None` if they pass the end.
    #[tactic(auto, using(crate::proofs::Numbers::number_in_part), unfolding(crate::specs::Bytes::number_at, crate::specs::Bytes::part_of))]
    pub fn u32_at(self, at: usize) -> Option<u32>
        ensures { result ≡ number_at 4 self.entry.bytes.now at }
    {
        let bytes = self.part(at, 4)?.bytes;
        Some(BigEndian::read_u32(bytes))
    }

    /// Returns the two's complement number in the four bytes from `at`, or `None` if they pass the end.
    pub fn i32_at(self, at: usize) -> Option<i32>
        ensures { result ≡ signed_at w32 4 self.entry.bytes.now at }
    {
        Some(self.u32_at(at)?.cast_signed())
    }

    /// Returns the `len` bytes from `from`, or `None` if they pass the end.
    #[tactic(auto, unfolding(crate::specs::Bytes::part_of))]
    pub fn part(self, from: usize, len: usize) -> Option<Cut<'a>>
        ensures { option_map (λ c. c.bytes.now) result ≡ part_of self.entry.bytes.now from len }
    {
        if from > self.bytes.len() || len > self.bytes.len() - from {
            return None;
        }
        Some(Cut {
            bytes: &self.bytes[from..from + len],
        })
    }

    /// Returns the zero-ended name at `from`: the bytes up to the first zero byte at or after it,
    /// without that byte. `None` if there is no such byte.
    pub fn name_at(self, from: usize) -> Option<&'a [u8]>
        ensures { option_copied result ≡ name_at self.entry.bytes.now from }
    {
        if from > self.bytes.len() {
            return None;
        }
        let (_, rest) = self.bytes.split_at(from);
        zero_ended(rest)
    }
}

/// Returns the bytes before the first zero byte.
fn zero_ended(bytes: &[u8]) -> Option<&[u8]>
    ensures { option_copied result ≡ before_zero bytes.now }
{
    let end = memchr(0, bytes)?;
    let (name, _) = bytes.split_at(end);
    Some(name)
}
