ghost use Rattle.std.specs.Prelude.{◌≡◌, ◌≤◌, ◌∷◌, [], decimal, length};
ghost use Rattle.pef_ports.specs.Pieces.{piece_text, pieces_text};
ghost use Rattle.pef_ports.specs.Sent.{Sends};
ghost use Rattle.pef_ports.specs.Text.{digits_text, hex_text, offset_text, without_zeros, word_text};

use crate::line::{Line, byte_digits, push_hex, word_digits};
use crate::name::print_name;
use crate::page::{Page, send};
use crate::ports::{Sink, StreamFault};
use itoa::Buffer;

/// A piece of a line.
#[derive(Clone, Copy)]
pub enum Piece<'a> {
    /// A number in decimal.
    Number(u64),
    /// Text, printed unchanged.
    Text(&'a [u8]),
    /// A name. Bytes that could break a line are escaped.
    Name(&'a [u8]),
    /// A number of 32 bits in eight hex digits.
    Word(u32),
    /// A number of 16 bits in four hex digits.
    Halfword(u16),
    /// A number of 8 bits in two hex digits.
    Byte(u8),
    /// A number as `0x` and its hex digits, without leading zeros.
    Offset(u64),
}

/// Prints pieces one after the other.
pub fn print_pieces<W: Sink>(
    out: &mut W,
    page: &mut Page,
    pieces: &[Piece<'_>],
) -> Result<(), StreamFault>
    ensures { Sends result (W.stream out.old) (W.stream out.new) page.old.items page.new.items (pieces_text pieces.now) }
{
    for piece in pieces {
        print_piece(out, page, *piece)?;
    }
    Ok(())
}

/// Prints a piece.
fn print_piece<W: Sink>(out: &mut W, page: &mut Page, piece: Piece<'_>) -> Result<(), StreamFault>
    ensures { Sends result (W.stream out.old) (W.stream out.new) page.old.items page.new.items (piece_text piece.entry) }
{
    match piece {
        Piece::Text(text) => send(out, page, text),
        Piece::Name(name) => print_name(out, page, name),
        Piece::Number(n) => print_number(out, page, n),
        Piece::Word(n) => print_word(out, page, n),
        Piece::Halfword(n) => print_hex(out, page, &n.to_be_bytes()),
        Piece::Byte(n) => print_byte(out, page, n),
        Piece::Offset(n) => print_offset(out, page, n),
    }
}

/// Prints a number in decimal. One digit needs no buffer.
#[inline(always)]
#[tactic(auto, using(std::proofs::lemmas::Fmt::decimal_digit))]
pub(crate) fn print_number<W: Sink>(out: &mut W, page: &mut Page, n: u64) -> Result<(), StreamFault>
    ensures { Sends result (W.stream out.old) (W.stream out.new) page.old.items page.new.items (decimal n) }
{
    if n < 10 {
        return send(out, page, &[b'0' + n as u8]);
    }
    let mut buffer = Buffer::new();
    send(out, page, buffer.format(n).as_bytes())
}

/// Prints a number of 32 bits in eight digits.
#[inline(always)]
pub(crate) fn print_word<W: Sink>(out: &mut W, page: &mut Page, n: u32) -> Result<(), StreamFault>
    ensures { Sends result (W.stream out.old) (W.stream out.new) page.old.items page.new.items (word_text n) }
{
    send(out, page, &word_digits(&n.to_be_bytes()))
}

/// Prints a number of 8 bits in two digits.
#[inline(always)]
pub(crate) fn print_byte<W: Sink>(out: &mut W, page: &mut Page, n: u8) -> Result<(), StreamFault>
    ensures { Sends result (W.stream out.old) (W.stream out.new) page.old.items page.new.items (hex_text (n ∷ [])) }
{
    send(out, page, &byte_digits(n))
}

/// Prints `0x` and the digits of a number.
fn print_offset<W: Sink>(out: &mut W, page: &mut Page, n: u64) -> Result<(), StreamFault>
    ensures { Sends result (W.stream out.old) (W.stream out.new) page.old.items page.new.items (offset_text n) }
{
    send(out, page, b"0x")?;
    print_digits(out, page, n)
}

/// Prints the hex digits of a number, without leading zeros.
#[tactic(auto, unfolding(crate::specs::Text::digits_text))]
fn print_digits<W: Sink>(out: &mut W, page: &mut Page, n: u64) -> Result<(), StreamFault>
    ensures { Sends result (W.stream out.old) (W.stream out.new) page.old.items page.new.items (digits_text n) }
{
    let mut digits = Line::new();
    push_hex(&mut digits, &n.to_be_bytes());
    send(out, page, without_zeros(digits.as_slice()))
}

/// Returns digits without the zeros at their start, but for the last digit.
fn without_zeros(digits: &[u8]) -> &[u8]
    ensures { result.now ≡ without_zeros digits.now }
{
    match digits {
        [b'0', rest @ ..] if !rest.is_empty() => without_zeros(rest),
        _ => digits,
    }
}

/// Prints the two digits of each byte.
fn print_hex<W: Sink>(out: &mut W, page: &mut Page, bytes: &[u8]) -> Result<(), StreamFault>
    requires { length bytes.now ≤ 48 }
    ensures { Sends result (W.stream out.old) (W.stream out.new) page.old.items page.new.items (hex_text bytes.now) }
{
    let mut line = Line::new();
    push_hex(&mut line, bytes);
    send(out, page, line.as_slice())
}
