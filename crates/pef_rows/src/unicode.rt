//! Text in UTF-8 as a value of JSON.
ghost use Rattle.std.specs.Prelude.{◌≡◌};
ghost use Rattle.std.specs.Char.Escape.{encode_utf16};
ghost use Rattle.std.specs.Str.{chars};
ghost use Rattle.pef_ports.specs.Sent.{Sends};
ghost use Rattle.pef_rows.specs.Unicode.{characters_string, quoted, text_value, unit_string, units_string};

use crate::strings::print_byte;
use pef_ports::{Page, Piece, Sink, StreamFault, print_pieces, send};
use std::str;

/// Prints a text as a string of JSON, or `null` if its bytes aren't UTF-8.
pub(crate) fn print_text_value<W: Sink>(
    out: &mut W,
    page: &mut Page,
    bytes: &[u8],
) -> Result<(), StreamFault>
    ensures { Sends result (W.stream out.old) (W.stream out.new) page.old.items page.new.items (text_value bytes.now) }
{
    match str::from_utf8(bytes) {
        Ok(text) => print_quoted(out, page, text),
        Err(_) => send(out, page, b"null"),
    }
}

/// Prints a text as a string of JSON.
fn print_quoted<W: Sink>(out: &mut W, page: &mut Page, text: &str) -> Result<(), StreamFault>
    ensures { Sends result (W.stream out.old) (W.stream out.new) page.old.items page.new.items (quoted text.now) }
{
    send(out, page, b"\"")?;
    print_characters(out, page, text)?;
    send(out, page, b"\"")
}

/// Prints the inside of a string.
fn print_characters<W: Sink>(out: &mut W, page: &mut Page, text: &str) -> Result<(), StreamFault>
    ensures { Sends result (W.stream out.old) (W.stream out.new) page.old.items page.new.items (characters_string (chars text.now)) }
{
    for c in text.chars() {
        print_character(out, page, c)?;
    }
    Ok(())
}

/// Prints a character of a string.
fn print_character<W: Sink>(out: &mut W, page: &mut Page, c: char) -> Result<(), StreamFault>
    ensures { Sends result (W.stream out.old) (W.stream out.new) page.old.items page.new.items (units_string (encode_utf16 c)) }
{
    let mut units = [0; 2];
    let units = c.encode_utf16(&mut units);
    print_units(out, page, units)
}

/// Prints the units of a character.
fn print_units<W: Sink>(out: &mut W, page: &mut Page, units: &[u16]) -> Result<(), StreamFault>
    ensures { Sends result (W.stream out.old) (W.stream out.new) page.old.items page.new.items (units_string units.now) }
{
    for unit in units {
        print_unit(out, page, *unit)?;
    }
    Ok(())
}

/// Prints a unit of a string.
fn print_unit<W: Sink>(out: &mut W, page: &mut Page, unit: u16) -> Result<(), StreamFault>
    ensures { Sends result (W.stream out.old) (W.stream out.new) page.old.items page.new.items (unit_string unit) }
{
    if unit < 128 {
        print_byte(out, page, unit as u8)
    } else {
        print_pieces(out, page, &[Piece::Text(b"\\u"), Piece::Halfword(unit)])
    }
}
