ghost use Rattle.std.specs.Prelude.{◌≡◌, ◌++◌, ◌*◌, ◌%◌, ◌≤◌, length, OnOk};
ghost use Rattle.std.specs.List.{list_all};
ghost use Rattle.pef_lines.specs.Kept.Pairs.{is_hex};
ghost use Rattle.pef_lines.specs.Views.{bytes_of_pairs, digit_value};
ghost use Rattle.pef_lines.specs.Pairs.{hex_bytes};

use crate::numbers::hex_digit;
use std::alloc::AllocError;
use std::marker::Model;

/// Pairs of hex digits, of either case, each of which spells a byte.
#[derive(Debug, Drop)]
pub struct Pairs<'a> {
    digits: &'a [u8],
}

impl<'a> Model for Pairs<'a> {
    ghost use Rattle.std.specs.Prelude.{◌≡◌, ◌%◌, length, List, ℕ};
    ghost use Rattle.pef_lines.specs.Views.{bytes_of_pairs};

    ghost Value = { List ℕ };

    ghost view = { λ p. bytes_of_pairs p.digits.now };

    ghost invariant = { λ p. length p.digits.now % 2 ≡ 0 };
}

impl<'a> Pairs<'a> {
    /// Returns the pairs of a word, if it has nothing else.
    pub fn read(word: &'a [u8]) -> Option<Pairs<'a>>
        ensures { result ≡ hex_bytes word.entry.now }
    {
        if word.len() % 2 != 0 {
            return None;
        }
        if !all_hex(word) {
            return None;
        }
        Some(Pairs { digits: word })
    }

    /// Returns how many bytes they spell.
    pub fn count(&self) -> usize
        ensures { result ≡ length self.now }
    {
        self.digits.len() / 2
    }

    /// Appends the bytes that they spell.
    pub fn append_to(&self, bytes: &mut Vec<u8>) -> Result<(), AllocError>
        ensures { OnOk result (bytes.new.items ≡ bytes.old.items ++ self.now) }
    {
        append_spelled(self.digits, bytes)
    }
}

/// Appends the bytes that pairs of hex digits spell.
fn append_spelled(digits: &[u8], bytes: &mut Vec<u8>) -> Result<(), AllocError>
    requires { length digits.now % 2 ≡ 0 }
    ensures { OnOk result (bytes.new.items ≡ bytes.old.items ++ bytes_of_pairs digits.now) }
{
    let start = bytes.len();
    bytes.resize(start + digits.len() / 2, 0)?;
    let (_, added) = bytes.split_at_mut(start);
    spell(digits, added);
    Ok(())
}

// The loops below look at every digit, so that the compiler makes them test many at a time.

fn all_hex(digits: &[u8]) -> bool
    ensures { result ≡ list_all is_hex digits.now }
{
    let mut all = true;
    for digit in digits {
        all &= hex_digit(*digit).is_some();
    }
    all
}

/// Returns the value of a hex digit, and 0 for another byte.
fn digit_value(digit: u8) -> u8
    ensures value { result ≡ digit_value digit }
    ensures most { result ≤ 15 }
{
    hex_digit(digit).unwrap_or(0)
}

/// Writes the bytes that pairs of hex digits spell.
fn spell(digits: &[u8], bytes: &mut [u8])
    requires { length digits.now ≡ 2 * length bytes.old }
    ensures { bytes.new ≡ bytes_of_pairs digits.now }
{
    for i in 0..bytes.len() {
        bytes[i] = digit_value(digits[2 * i]) * 16 + digit_value(digits[2 * i + 1]);
    }
}
