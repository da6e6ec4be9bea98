ghost use Rattle.std.specs.Prelude.{◌≡◌, ◌≤◌, IfOk};
ghost use Rattle.pef_script.specs.Text.Words.{number_spelled, number_up_to};

use crate::text::LineFault;
use pef_lines::{decimal_number, hex_number};

/// Returns the number that a word spells: decimal without a leading zero, or `0x` and hex digits.
pub fn number_in(word: &[u8]) -> Option<u32>
    ensures { result ≡ number_spelled word.now }
{
    match word {
        [b'0', b'x', digits @ ..] => hex_number(digits),
        _ => decimal_number(word),
    }
}

/// Returns the number that a word spells, at most `greatest`. The word has the number `at` in its line.
#[tactic(auto, unfolding(crate::specs::Text::Words::number_up_to))]
pub fn read_number(greatest: u32, at: u8, word: &[u8]) -> Result<u32, LineFault>
    ensures number { result ≡ number_up_to greatest at word.now }
    ensures most { IfOk result (λ number. number ≤ greatest) }
{
    match number_in(word) {
        Some(number) if number <= greatest => Ok(number),
        _ => Err(LineFault::BadNumber { word: at }),
    }
}
