//! Tokens that depend on a condition.
ghost use Rattle.std.specs.Prelude.{◌≡◌, decimal};
ghost use Rattle.pef_rows.specs.Lines.{is_none_entry};
ghost use Rattle.pef_rows.specs.Findings.{at_digits, at_word, shown};
ghost use Rattle.pef_rows.specs.Tokens.{at_or_dash, number_or_null, token_text, truth};

use crate::tokens::Token;
use pef_format::layout::NO_SECTION;

/// Returns a text, or nothing.
pub fn text_if<'a>(is_shown: bool, text: &'a [u8]) -> Token<'a>
    ensures { token_text result ≡ shown is_shown text.entry.now }
{
    Token::Text(if is_shown { text } else { b"" })
}

/// Returns a number, or nothing.
pub fn number_if(is_shown: bool, n: u64) -> Token<'static>
    ensures { token_text result ≡ shown is_shown (decimal n) }
{
    if is_shown {
        Token::Number(n)
    } else {
        Token::Text(b"")
    }
}

/// Returns a number as a value of JSON, or `null`.
pub fn number_or_null(n: Option<u64>) -> Token<'static>
    ensures { token_text result ≡ number_or_null n }
{
    match n {
        Some(n) => Token::Number(n),
        None => Token::Text(b"null"),
    }
}

/// Returns a truth value of JSON.
pub fn truth(holds: bool) -> &'static [u8]
    ensures { result.now ≡ truth holds }
{
    if holds { b"true" } else { b"false" }
}

/// Returns an offset in the file, or `-` if there is none.
pub fn at_or_dash(at: Option<u64>) -> Token<'static>
    ensures { token_text result ≡ at_or_dash at }
{
    match at {
        Some(at) => Token::At(at),
        None => Token::Text(b"-"),
    }
}

/// Returns the word before an offset, if there is one.
pub fn at_word(at: Option<u64>) -> &'static [u8]
    ensures { result.now ≡ at_word at }
{
    match at {
        Some(_) => b" at ",
        None => b"",
    }
}

/// Returns an offset, if there is one.
pub fn at_digits(at: Option<u64>) -> Token<'static>
    ensures { token_text result ≡ at_digits at }
{
    match at {
        Some(at) => Token::At(at),
        None => Token::Text(b""),
    }
}

/// Returns whether an entry point isn't there.
pub fn is_none_entry(section: i32) -> bool
    ensures { result ≡ is_none_entry section }
{
    section == NO_SECTION
}
