ghost use Rattle.std.specs.Prelude.{◌≡◌, ◌+◌, ◌≤◌, ◌==◌, ◌^◌, length, IfSome};

use crate::text::CertFault;
use pef_lines::{LINE_FEED, cut_at};

/// A line of a text, without its line feed.
#[derive(Clone, Copy)]
pub struct Line<'a> {
    /// Its number, from 1.
    pub number: usize,
    pub bytes: &'a [u8],
}

impl<'a> Line<'a> {
    ghost use Rattle.pef_cert.specs.Text.Kept.Reading.{Says};
    ghost use Rattle.pef_cert.specs.declared.text.fault.CertFault.TheVariants.{BadCertificate};

    /// Returns the fault that the line breaks a rule.
    pub fn fault(self) -> CertFault
        ensures { result ≡ BadCertificate self.entry.number }
    {
        CertFault::BadCertificate { line: self.number }
    }

    /// Returns the value of the line, or the fault if it has none.
    pub fn says<T>(self, value: Option<T>) -> Result<T, CertFault>
        ensures { Says result self.entry.number value }
    {
        match value {
            Some(value) => Ok(value),
            None => Err(self.fault()),
        }
    }
}

/// The lines that are left of a text.
#[derive(Clone, Copy)]
pub struct Lines<'a> {
    /// The number of the first of them.
    number: usize,
    rest: &'a [u8],
    ghost small: { number + length rest.now ≤ 2 ^ 63 },
}

impl<'a> Lines<'a> {
    ghost use Rattle.pef_cert.specs.Text.Kept.Reading.{NextLine, left};
    ghost use Rattle.pef_cert.specs.declared.text.fault.CertFault.TheVariants.{BadCertificate};

    /// Returns the lines of a text.
    pub fn new(text: &'a [u8]) -> Lines<'a>
        ensures { left result ≡ record { number = 1; text = text.entry.now } }
    {
        Lines {
            number: 1,
            rest: text,
        }
    }

    /// Returns whether no line is left.
    pub fn is_empty(&self) -> bool
        ensures { result ≡ (length (left self.now).text == 0) }
    {
        self.rest.is_empty()
    }

    /// Returns the fault that the current line breaks a rule, or is missing.
    pub fn fault(&self) -> CertFault
        ensures { result ≡ BadCertificate (left self.now).number }
    {
        CertFault::BadCertificate { line: self.number }
    }

    /// Takes the next line, which ends with a line feed.
    pub fn next_line(&mut self) -> Option<Line<'a>>
        ensures takes { NextLine result (left self.old) (left self.new) }
        ensures less { IfSome result (λ _. length (left self.new).text + 1 ≤ length (left self.old).text) }
        ensures no_more { length (left self.new).text ≤ length (left self.old).text }
    {
        let (bytes, rest) = cut_at(LINE_FEED, self.rest)?;
        let number = self.number;
        *self = Lines {
            number: number + 1,
            rest,
        };
        Some(Line { number, bytes })
    }
}
