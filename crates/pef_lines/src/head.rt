ghost use Rattle.std.specs.Prelude.{◌≡◌, ◌+◌, ◌*◌, ◌^◌, ◌<◌, ◌≤◌, IfSome, Some, length, take};
ghost use Rattle.pef_lines.specs.Cursor.{first_number, words_of};
ghost use Rattle.pef_lines.specs.Kept.Numbers.{AreBytes, IsHead, key_of};
ghost use Rattle.pef_lines.specs.Numbers.{decimal_number};

use byteorder::{BigEndian, ByteOrder};

/// The most digits of a head: with one more digit and a space they are as many bytes as one load reads.
const MAX_DIGITS: usize = 6;

/// How many bytes one load reads.
pub(crate) const LOAD: usize = 8;

/// A digit 0 and a space.
const ZERO_AND_SPACE: u64 = 0x3020;

/// The digits of a number but its last one. In a row of numbers near each other most have the head of the number before, and are
/// read by one load and one comparison.
#[derive(Clone, Copy, Debug)]
pub struct Head<'a> {
    digits: &'a [u8],
    /// The bytes of the digits, a digit 0 and a space, as a number.
    key: u64,
    /// How many bits of a load are after these bytes.
    shift: u32,
    /// Ten times the number that the digits spell.
    tens: u32,
    ghost bytes: { AreBytes digits.now },
    ghost few: { length digits.now ≤ 6 },
    ghost key_is: { key ≡ key_of digits.now },
    ghost shift_is: { shift + 8 * length digits.now ≡ 48 },
    ghost room: { tens + 9 < 2 ^ 32 },
    ghost spelled: { IsHead digits.now tens },
}

impl<'a> Head<'a> {
    /// Returns the head of 10, to begin with.
    pub fn new() -> Head<'a> {
        Head {
            digits: b"1",
            key: 0x31_3020,
            shift: 40,
            tens: 10,
        }
    }

    /// Returns the head of the first word of a line, which spells a number, or this head if the word is too short or too
    /// long.
    #[inline(always)]
    pub(crate) fn after(self, line: &'a [u8], word: &'a [u8], number: u32) -> Head<'a>
        requires long { 8 ≤ length line.now }
        requires begins { take (length word.now) line.now ≡ word.now }
        requires spells { decimal_number word.now ≡ Some number }
    {
        let Some((_, digits)) = word.split_last() else {
            return self;
        };
        if digits.is_empty() || digits.len() > MAX_DIGITS || number > u32::MAX - 9 {
            return self;
        }
        let shift = 48 - 8 * digits.len() as u32;
        Head {
            digits,
            key: (BigEndian::read_u64(line) >> (shift + 16)) * 0x1_0000 + ZERO_AND_SPACE,
            shift,
            tens: number / 10 * 10,
        }
    }

    /// Returns the number that the first word of a line spells, and what follows the space after it, if the word is this
    /// head and one more digit.
    #[inline(always)]
    pub(crate) fn first_number<'l>(&self, line: &'l [u8]) -> Option<(u32, &'l [u8])>
        requires { 8 ≤ length line.now }
        ensures { IfSome result (λ p. first_number (words_of line.entry.now) ≡ Some (p.0, words_of p.1.now)) }
    {
        let front = BigEndian::read_u64(line) >> self.shift;
        if front < self.key {
            return None;
        }
        let above = front - self.key;
        if above % 256 != 0 || above / 256 > 9 {
            return None;
        }
        let (_, rest) = line.split_at(self.digits.len() + 2);
        Some((self.tens + (above / 256) as u32, rest))
    }
}
