ghost use Rattle.std.specs.Prelude.{◌≡◌, ◌≤◌, length, option_copied};
ghost use Rattle.pef_script.specs.Text.Places.{after_cuts, first_part, line_at, line_in, text_from, word_at, word_in, word_range};

use pef_lines::{LINE_FEED, cut_at};

/// A word of a line in a text.
#[derive(Clone, Copy, Debug, PartialEq, Eq)]
pub struct Word {
    /// Its number in the line. The first word is word 0.
    pub number: u8,
    /// Where it begins in the text.
    pub from: usize,
    /// Where it ends. A word that is missing is at the end of the line, and empty.
    pub to: usize,
}

/// Returns what follows the first `count` such bytes, or nothing if there are fewer.
fn after_cuts(byte: u8, count: usize, bytes: &[u8]) -> &[u8]
    ensures cut { result.now ≡ after_cuts byte count bytes.now }
    ensures shorter { length result.now ≤ length bytes.now }
{
    let mut rest = bytes;
    let mut left = count;
    'cuts: while left > 0 {
        match cut_at(byte, rest) {
            Some((_, behind)) => rest = behind,
            None => return &[],
        }
        left -= 1;
    }
    rest
}

/// Returns what is before the first such byte, or all if there is none.
fn first_part(byte: u8, bytes: &[u8]) -> &[u8]
    ensures part { result.now ≡ first_part byte bytes.now }
    ensures shorter { length result.now ≤ length bytes.now }
{
    match cut_at(byte, bytes) {
        Some((part, _)) => part,
        None => bytes,
    }
}

/// Returns a word of a line by its number, and no bytes if the line has fewer words.
#[tactic(auto, unfolding(crate::specs::Text::Places::word_in))]
pub fn word_in(number: u8, line: &[u8]) -> &[u8]
    ensures { result.now ≡ word_in number line.now }
{
    first_part(b' ', after_cuts(b' ', usize::from(number), line))
}

/// Returns where a word of a line begins in the line, and where it ends. A word that is missing is at the end, and empty.
#[tactic(auto, unfolding(crate::specs::Text::Places::word_range, crate::specs::Text::Places::word_in))]
pub fn word_range(line: &[u8], number: u8) -> (usize, usize)
    ensures { result ≡ word_range line.now number }
{
    let left = after_cuts(b' ', usize::from(number), line);
    let from = line.len() - left.len();
    (from, from + first_part(b' ', left).len())
}

/// Returns the text from a line on, by the line's number from 1.
fn text_from(text: &[u8], number: usize) -> &[u8]
    ensures rest { result.now ≡ text_from text.now number }
    ensures shorter { length result.now ≤ length text.now }
{
    after_cuts(LINE_FEED, number.saturating_sub(1), text)
}

/// Returns a line of a text by its number from 1, and no bytes if the text has fewer lines.
#[tactic(auto, unfolding(crate::specs::Text::Places::line_in))]
pub fn line_in(text: &[u8], number: usize) -> &[u8]
    ensures { result.now ≡ line_in text.now number }
{
    first_part(LINE_FEED, text_from(text, number))
}

/// Returns the bytes of a word of a line, by the line's number from 1 and the word's number from 0.
#[tactic(auto, unfolding(crate::specs::Text::Places::line_in, crate::specs::Text::Places::word_in, crate::specs::Text::Places::word_at))]
pub fn word_at(text: &[u8], line: usize, number: u8) -> Word
    ensures { result ≡ word_at text.now line number }
{
    let rest = text_from(text, line);
    let line = first_part(LINE_FEED, rest);
    let left = after_cuts(b' ', usize::from(number), line);
    let from = text.len() - rest.len() + (line.len() - left.len());
    let to = from + first_part(b' ', left).len();
    Word { number, from, to }
}

/// Returns a line of a text by its number from 1, or `None` if the text has fewer lines.
pub fn line_at(text: &[u8], number: usize) -> Option<&[u8]>
    ensures { option_copied result ≡ line_at text.now number }
{
    if number == 0 {
        return None;
    }
    let mut rest = text;
    let mut left = number - 1;
    'lines: while left > 0 {
        let (_, behind) = cut_at(LINE_FEED, rest)?;
        rest = behind;
        left -= 1;
    }
    Some(first_part(LINE_FEED, rest))
}
