ghost use Rattle.std.specs.Prelude.{◌≡◌, option_map};
ghost use Rattle.pef_lines.specs.Cursor.{behind, first_number, first_of, none_left, words_of};
ghost use Rattle.pef_lines.specs.Views.{words_left};

use crate::head::{Head, LOAD};
use crate::numbers::{decimal_number, first_number};
use crate::words::cut_near;

/// The words that are left of a line: the parts between its spaces.
///
/// A word may have any bytes but spaces. It is empty if two spaces are adjacent, or a space begins or ends the line.
/// After a call that returned `None` it isn't specified which words are left.
#[derive(Clone, Copy, Debug)]
pub struct Words<'a> {
    /// The part of the line after the last word that was taken, if there is more.
    rest: Option<&'a [u8]>,
}

impl<'a> Words<'a> {
    /// Returns the words of a line, of which there is at least one.
    pub fn new(line: &'a [u8]) -> Words<'a>
        ensures { words_left result ≡ words_of line.entry.now }
    {
        Words { rest: Some(line) }
    }

    /// Returns whether no word is left.
    pub fn is_empty(&self) -> bool
        ensures { result ≡ none_left (words_left self.now) }
    {
        self.rest.is_none()
    }

    /// Takes the next word.
    #[inline(always)]
    pub fn next_word(&mut self) -> Option<&'a [u8]>
        ensures { option_map (λ word. (word.now, words_left self.new)) result ≡ first_of (words_left self.old) }
    {
        let Some(rest) = self.rest else {
            return None;
        };
        match cut_near(b' ', rest) {
            Some((word, behind)) => {
                self.rest = Some(behind);
                Some(word)
            }
            None => {
                self.rest = None;
                Some(rest)
            }
        }
    }

    /// Takes the next word, and returns the number that it spells: decimal digits without a leading zero, below 2^32.
    /// It looks at each byte once.
    #[inline(always)]
    pub fn next_number(&mut self) -> Option<u32>
        ensures { option_map (λ number. (number, words_left self.new)) result ≡ first_number (words_left self.old) }
    {
        let Some(line) = self.rest else {
            return None;
        };
        let (number, rest) = first_number(line)?;
        self.rest = rest;
        Some(number)
    }

    /// Returns the same as [`Words::next_number`], in fewer steps if the number differs from the last one that was read
    /// with this head in its last digit alone.
    #[inline(always)]
    pub fn next_near(&mut self, head: &mut Head<'a>) -> Option<u32>
        ensures { option_map (λ number. (number, words_left self.new)) result ≡ first_number (words_left self.old) }
    {
        let Some(line) = self.rest else {
            return None;
        };
        if line.len() < LOAD {
            return self.next_number();
        }
        if let Some((number, rest)) = head.first_number(line) {
            self.rest = Some(rest);
            return Some(number);
        }
        let Some((word, rest)) = cut_near(b' ', line) else {
            return self.next_number();
        };
        let number = decimal_number(word)?;
        *head = head.after(line, word, number);
        self.rest = Some(rest);
        Some(number)
    }

    /// Takes the next word, if it is `wanted`.
    pub fn expect(&mut self, wanted: &[u8]) -> Option<()>
        ensures { option_map (λ _. words_left self.new) result ≡ behind wanted.now (words_left self.old) }
    {
        if self.next_word()? != wanted {
            return None;
        }
        Some(())
    }
}
