ghost use Rattle.std.specs.Prelude.{◌≡◌, ◌≤◌, ◌==◌, if◌then◌else◌, length, option_copied};
ghost use Rattle.pef_lines.specs.Cursor.{words_of};
ghost use Rattle.pef_words.specs.Refusals.{first_met};
ghost use Rattle.pef_script.specs.Text.Oddities.{byte_oddity, has_two_spaces, is_space, is_text, odd_byte, odd_count, odd_words, oddity_of, space_tests};

use crate::text::earlier::form_in;
use crate::text::form::Form;

/// What is wrong with a line that no form of lines fits.
#[derive(Clone, Copy, Debug, PartialEq, Eq)]
pub enum Oddity {
    /// It has a carriage return.
    CarriageReturn,
    /// It has a tab.
    Tab,
    /// It has another byte that isn't printing ASCII.
    Byte,
    /// It begins with a space.
    SpaceAtStart,
    /// It ends with a space.
    SpaceAtEnd,
    /// It has two spaces in a row.
    TwoSpaces,
    /// Its first word begins no line of a script.
    FirstWord,
    /// It has this many words, and a line with its first word should have that many.
    Words { has: usize, wants: usize },
    /// It has the right number of words, but a name is too long or hex digits aren't pairs.
    Spelling,
}

/// Returns what is wrong with a line that is refused as `BadLine`. Its bytes are looked at first, then its spaces, then
/// its words.
#[tactic(auto, unfolding(crate::specs::Text::Oddities::oddity_of))]
pub fn oddity_of(line: &[u8]) -> Oddity
    ensures { result ≡ oddity_of line.now }
{
    if let Some(oddity) = odd_byte(line) {
        return oddity;
    }
    if let Some(oddity) = odd_space(line) {
        return oddity;
    }
    odd_words(count_words(line), form_in(line))
}

/// Returns what is wrong with the first byte that isn't allowed in a line.
fn odd_byte(line: &[u8]) -> Option<Oddity>
    ensures { result ≡ odd_byte line.now }
{
    for byte in line {
        if !is_text(*byte) {
            return Some(byte_oddity(*byte));
        }
    }
    None
}

/// Returns whether a byte is a space or printing.
fn is_text(byte: u8) -> bool
    ensures { result ≡ is_text byte }
{
    matches!(byte, b' '..=b'~')
}

/// Returns what is wrong with a byte that is neither a space nor printing.
fn byte_oddity(byte: u8) -> Oddity
    ensures { result ≡ byte_oddity byte }
{
    match byte {
        b'\r' => Oddity::CarriageReturn,
        b'\t' => Oddity::Tab,
        _ => Oddity::Byte,
    }
}

/// Returns what is wrong with a space that isn't allowed.
fn odd_space(line: &[u8]) -> Option<Oddity>
    ensures { result ≡ first_met (space_tests line.now) }
{
    if is_space(line.get(0)) {
        return Some(Oddity::SpaceAtStart);
    }
    if is_space(line.get(line.len().saturating_sub(1))) {
        return Some(Oddity::SpaceAtEnd);
    }
    if has_two_spaces(line) {
        return Some(Oddity::TwoSpaces);
    }
    None
}

/// Returns whether a byte is there and is a space.
fn is_space(byte: Option<&u8>) -> bool
    ensures { result ≡ is_space (option_copied byte.entry) }
{
    match byte {
        Some(byte) => *byte == b' ',
        None => false,
    }
}

fn has_two_spaces(line: &[u8]) -> bool
    ensures { result ≡ has_two_spaces line.now }
{
    for (at, byte) in line.iter().enumerate() {
        if *byte == b' ' && is_space(line.get(at + 1)) {
            return true;
        }
    }
    false
}

/// Returns the number of words in a line: one more than its spaces.
fn count_words(line: &[u8]) -> usize
    ensures { result ≡ length (words_of line.now) }
{
    let mut spaces: usize = 0;
    for byte in line {
        spaces += spaces_of(*byte);
    }
    spaces + 1
}

/// Returns 1 for a space, 0 for another byte.
fn spaces_of(byte: u8) -> usize
    ensures value { result ≡ (if byte == 0x20 then 1 else 0) }
    ensures most { result ≤ 1 }
{
    if byte == b' ' { 1 } else { 0 }
}

/// Returns what is wrong with a line of a form that has this many words.
fn odd_words(has: usize, form: Option<Form>) -> Oddity
    ensures { result ≡ odd_words has form }
{
    match form {
        Some(form) => odd_count(has, form.words().len() + 1),
        None => Oddity::FirstWord,
    }
}

/// Returns what is wrong with a line that should have `wants` words.
fn odd_count(has: usize, wants: usize) -> Oddity
    ensures { result ≡ odd_count has wants }
{
    if has == wants {
        Oddity::Spelling
    } else {
        Oddity::Words { has, wants }
    }
}
