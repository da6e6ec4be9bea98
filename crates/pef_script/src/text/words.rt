ghost use Rattle.std.specs.Prelude.{◌≡◌, ◌<◌, ◌++◌, IfSome};
ghost use Rattle.pef_words.specs.Refusals.{result_map};
ghost use Rattle.pef_script.specs.Text.Words.{image_of, last_name, last_name_and_word, last_two_words, last_word, next_name, next_name_and_word, next_word, unread};

use crate::text::LineFault;
use crate::text::kinds::spells;
use crate::text::limits::MAX_NAME;
use pef_lines::Pairs;

/// Returns what follows a text that a line begins with, or `None` if it begins with another.
#[tactic(auto, using(crate::proofs::TextProofs::KindLemmas::begins_so))]
#[inline(always)]
pub fn rest_after<'l>(text: &str, line: &'l [u8]) -> Option<&'l [u8]>
    ensures { IfSome result (λ rest. line.entry.now ≡ text.now ++ rest.now) }
{
    if line.len() < text.len() {
        return None;
    }
    let (front, rest) = line.split_at(text.len());
    if !spells(front, text) {
        return None;
    }
    Some(rest)
}

/// Returns the fault of word `at`, which can't be read, by what is left of the line from there.
#[cold]
fn unread(at: u8, line: &[u8]) -> LineFault
    requires { at < 8 }
    ensures { result ≡ unread at line.now }
{
    if pef_lines::last_word(line).is_some() {
        LineFault::BadLine { word: at + 1 }
    } else {
        LineFault::BadLine { word: at }
    }
}

// Each of these is given the number of the word that it reads, for its fault.

/// Returns the only word that is left of a line.
#[tactic(auto, unfolding(crate::specs::Text::Words::last_word))]
pub fn last_word(at: u8, line: &[u8]) -> Result<&[u8], LineFault>
    ensures { result_map (λ word. word.now) result ≡ last_word at line.now }
{
    pef_lines::last_word(line).ok_or(LineFault::BadLine { word: at })
}

/// Returns the next word of a line, and the rest after its space.
#[tactic(auto, unfolding(crate::specs::Text::Words::next_word))]
pub fn next_word(at: u8, line: &[u8]) -> Result<(&[u8], &[u8]), LineFault>
    requires { at < 8 }
    ensures { result_map (λ p. (p.0.now, p.1.now)) result ≡ next_word at line.now }
{
    match pef_lines::next_word(line) {
        Some((word, rest)) => Ok((word, rest)),
        None => Err(unread(at, line)),
    }
}

/// Returns the next word of a line if it is a name, and the rest after its space.
#[tactic(auto, unfolding(crate::specs::Text::Words::next_name, crate::specs::Text::Words::next_word))]
pub fn next_name(at: u8, line: &[u8]) -> Result<(&[u8], &[u8]), LineFault>
    requires { at < 8 }
    ensures { result_map (λ p. (p.0.now, p.1.now)) result ≡ next_name at line.now }
{
    match pef_lines::next_word(line) {
        Some((name, rest)) if name.len() <= MAX_NAME => Ok((name, rest)),
        Some(_) => Err(LineFault::BadLine { word: at }),
        None => Err(unread(at, line)),
    }
}

/// Returns the name that is left of a line.
#[tactic(auto, unfolding(crate::specs::Text::Words::last_name, crate::specs::Text::Words::last_word))]
pub fn last_name(at: u8, line: &[u8]) -> Result<&[u8], LineFault>
    ensures { result_map (λ name. name.now) result ≡ last_name at line.now }
{
    match pef_lines::last_word(line) {
        Some(name) if name.len() <= MAX_NAME => Ok(name),
        _ => Err(LineFault::BadLine { word: at }),
    }
}

/// Returns the next two words of a line, of which the first is a name, and the rest after the second's
/// space.
#[tactic(auto, unfolding(crate::specs::Text::Words::next_name_and_word))]
pub fn next_name_and_word(at: u8, line: &[u8]) -> Result<(&[u8], &[u8], &[u8]), LineFault>
    requires { at < 7 }
    ensures { result_map (λ p. (p.0.now, p.1.now, p.2.now)) result ≡ next_name_and_word at line.now }
{
    let (name, rest) = next_name(at, line)?;
    let (word, rest) = next_word(at + 1, rest)?;
    Ok((name, word, rest))
}

/// Returns the name and the word after it, which are all that is left of a line.
#[tactic(auto, unfolding(crate::specs::Text::Words::last_name_and_word))]
pub fn last_name_and_word(at: u8, line: &[u8]) -> Result<(&[u8], &[u8]), LineFault>
    requires { at < 8 }
    ensures { result_map (λ p. (p.0.now, p.1.now)) result ≡ last_name_and_word at line.now }
{
    let (name, rest) = next_name(at, line)?;
    let word = last_word(at + 1, rest)?;
    Ok((name, word))
}

/// Returns the two words that are left of a line.
#[tactic(auto, unfolding(crate::specs::Text::Words::last_two_words))]
pub fn last_two_words(at: u8, line: &[u8]) -> Result<(&[u8], &[u8]), LineFault>
    requires { at < 8 }
    ensures { result_map (λ p. (p.0.now, p.1.now)) result ≡ last_two_words at line.now }
{
    let (first, rest) = next_word(at, line)?;
    let second = last_word(at + 1, rest)?;
    Ok((first, second))
}

/// Returns the pairs of hex digits that a word has.
#[tactic(auto, unfolding(crate::specs::Text::Words::image_of))]
pub fn read_pairs(at: u8, word: &[u8]) -> Result<Pairs<'_>, LineFault>
    ensures { result ≡ image_of at word.now }
{
    Pairs::read(word).ok_or(LineFault::BadLine { word: at })
}
