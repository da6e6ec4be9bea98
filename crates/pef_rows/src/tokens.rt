ghost use Rattle.std.specs.Prelude.{◌≡◌, ◌≤◌, ◌/◌, ◌%◌, ◌^◌, ◌++◌, length};
ghost use Rattle.std.specs.Option.{option_copied};
ghost use Rattle.pef_ports.specs.Sent.{Sends};
ghost use Rattle.pef_ports.specs.Text.{hex_text, word_text};
ghost use Rattle.pef_loader.specs.PartialViews.{cut_seen};
ghost use Rattle.pef_rows.specs.Tokens.{at_text, cut_member, column_text, hex_bytes, hex_member, label_column, label_member, label_text, length_member, name_length, name_mark, name_member, no_name, path_byte, path_text, tag_text, token_text, tokens_text};

use crate::dates::print_date;
use crate::strings::{is_ascii, print_string};
use crate::unicode::print_text_value;
use crate::versions::print_version;
use pef_loader::CutName;
use pef_ports::{
    Decimal, Escaped, Hex, Joined, Page, Piece, Printed, Sink, StreamFault, Verbatim, print_name,
    print_pieces, send,
};

/// How many bytes of the name of a row are printed.
const MAX_NAME_BYTES: usize = 1024;

/// A token of a line or of a JSON text.
#[derive(Clone, Copy)]
pub enum Token<'a> {
    /// A number in decimal.
    Number(u64),
    /// Text, printed unchanged.
    Text(&'a [u8]),
    /// A number of 32 bits in eight hex digits.
    Word(u32),
    /// A number of 16 bits in four hex digits.
    Halfword(u16),
    /// A number of 8 bits in two hex digits.
    Byte(u8),
    /// A name. Bytes that could break a line are escaped.
    Name(&'a [u8]),
    /// The first 1,024 bytes of the name of a row, and `%..` if it is longer.
    CutName(&'a [u8]),
    /// A path, with the bytes escaped as in a line, inside a JSON string.
    Path(&'a [u8]),
    /// A text as a string of JSON, or `null` if it isn't UTF-8.
    Unicode(&'a [u8]),
    /// An offset in a file.
    At(u64),
    /// A version as people write it.
    Version(u32),
    /// A date in seconds since 1904.
    Date(u32),
    /// Four characters, such as `pwpc`, inside a JSON string.
    Tag(u32),
    /// Bytes in hex digits.
    Octets(&'a [u8]),
    /// A member of a JSON object, with its key: a name, or `null` if there is none.
    NameMember(&'a [u8], Option<&'a [u8]>),
    /// The same for the name of a row: its first 1,024 bytes, and how many it has if it is longer.
    CutNameMember(&'a [u8], Option<CutName<'a>>),
}

impl<'a> Printed for Token<'a> {
    ghost use Rattle.pef_rows.specs.Tokens.{token_text};

    ghost text = { token_text };

    fn print<W: Sink>(&self, out: &mut W, page: &mut Page) -> Result<(), StreamFault> {
        print_token(out, page, *self)
    }
}

/// Prints tokens one after the other.
pub fn print_tokens<W: Sink>(
    out: &mut W,
    page: &mut Page,
    tokens: &[Token<'_>],
) -> Result<(), StreamFault>
    ensures { Sends result (W.stream out.old) (W.stream out.new) page.old.items page.new.items (tokens_text tokens.now) }
{
    for token in tokens {
        print_token(out, page, *token)?;
    }
    Ok(())
}

/// Prints a token.
fn print_token<W: Sink>(out: &mut W, page: &mut Page, token: Token<'_>) -> Result<(), StreamFault>
    ensures { Sends result (W.stream out.old) (W.stream out.new) page.old.items page.new.items (token_text token.entry) }
{
    match token {
        Token::Text(text) => send(out, page, text),
        Token::Number(n) => Decimal(n).print(out, page),
        Token::Word(n) => Hex(n).print(out, page),
        Token::Halfword(n) => print_pieces(out, page, &[Piece::Halfword(n)]),
        Token::Byte(n) => print_pieces(out, page, &[Piece::Byte(n)]),
        Token::Name(name) => print_name(out, page, name),
        Token::CutName(name) => print_label(out, page, name),
        Token::Path(path) => print_path(out, page, path),
        Token::Unicode(text) => print_text_value(out, page, text),
        Token::At(n) => print_at(out, page, n),
        Token::Version(n) => print_version(out, page, n),
        Token::Date(n) => print_date(out, page, n),
        Token::Tag(tag) => print_tag(out, page, tag),
        Token::Octets(bytes) => print_octets(out, page, bytes),
        Token::NameMember(key, None) | Token::CutNameMember(key, None) => print_no_name(
            out, page, key,
        ),
        Token::NameMember(key, Some(name)) => print_member(out, page, key, name),
        Token::CutNameMember(key, Some(name)) => print_label_member(out, page, key, name),
    }
}

/// Prints an offset in a file.
#[tactic(auto, unfolding(crate::specs::Tokens::at_text))]
#[inline(always)]
pub(crate) fn print_at<W: Sink>(out: &mut W, page: &mut Page, n: u64) -> Result<(), StreamFault>
    ensures { Sends result (W.stream out.old) (W.stream out.new) page.old.items page.new.items (at_text n) }
{
    if n < 0x1_0000_0000 {
        return Hex(n as u32).print(out, page);
    }
    print_far(out, page, n)
}

/// Prints an offset past 4 gigabytes. It isn't part of `print_at`, so that the short form stays fast.
#[inline(never)]
fn print_far<W: Sink>(out: &mut W, page: &mut Page, n: u64) -> Result<(), StreamFault>
    ensures { Sends result (W.stream out.old) (W.stream out.new) page.old.items page.new.items (word_text (n / 2 ^ 32) ++ word_text (n % 2 ^ 32)) }
{
    let high = Hex((n / 0x1_0000_0000) as u32);
    let low = Hex((n % 0x1_0000_0000) as u32);
    Joined(high, low).print(out, page)
}

/// Prints the four characters of a number, inside a JSON string.
#[tactic(auto, unfolding(crate::specs::Tokens::tag_text))]
fn print_tag<W: Sink>(out: &mut W, page: &mut Page, tag: u32) -> Result<(), StreamFault>
    ensures { Sends result (W.stream out.old) (W.stream out.new) page.old.items page.new.items (tag_text tag) }
{
    print_string(out, page, &tag.to_be_bytes())
}

/// Prints the two digits of each byte.
fn print_octets<W: Sink>(out: &mut W, page: &mut Page, bytes: &[u8]) -> Result<(), StreamFault>
    ensures { Sends result (W.stream out.old) (W.stream out.new) page.old.items page.new.items (hex_text bytes.now) }
{
    for b in bytes {
        print_pieces(out, page, &[Piece::Byte(*b)])?;
    }
    Ok(())
}

/// Prints the name of a row: its first 1,024 bytes, and `%..` if it is longer.
#[tactic(auto, unfolding(crate::specs::Tokens::label_text))]
#[inline(always)]
pub(crate) fn print_label<W: Sink>(
    out: &mut W,
    page: &mut Page,
    name: &[u8],
) -> Result<(), StreamFault>
    ensures { Sends result (W.stream out.old) (W.stream out.new) page.old.items page.new.items (label_text name.now) }
{
    if name.len() <= MAX_NAME_BYTES {
        return print_name(out, page, name);
    }
    let (front, _) = name.split_at(MAX_NAME_BYTES);
    Joined(Escaped(front), Verbatim(b"%..")).print(out, page)
}

/// Returns what is printed in place of a name, so that it has its column and doesn't look like one that can't be read.
pub fn name_mark(name: &[u8]) -> Option<&'static [u8]>
    ensures { option_copied result ≡ name_mark name.now }
{
    match name {
        [] => Some(b"%-"),
        name => {
            if name == b"?".as_slice() {
                Some(b"%3F")
            } else {
                None
            }
        }
    }
}

/// Returns a name as a column of a line.
pub fn name_column<'a>(name: &'a [u8]) -> Token<'a>
    ensures { token_text result ≡ column_text name.entry.now }
{
    match name_mark(name) {
        Some(mark) => Token::Text(mark),
        None => Token::Name(name),
    }
}

/// Returns the name of a row as a column of a line.
pub(crate) fn label_column<'a>(name: &'a [u8]) -> Token<'a>
    ensures { token_text result ≡ label_column name.entry.now }
{
    match name_mark(name) {
        Some(mark) => Token::Text(mark),
        None => Token::CutName(name),
    }
}

/// Prints the name of a row as a column of a line.
#[inline(always)]
pub(crate) fn print_label_column<W: Sink>(
    out: &mut W,
    page: &mut Page,
    name: &[u8],
) -> Result<(), StreamFault>
    ensures { Sends result (W.stream out.old) (W.stream out.new) page.old.items page.new.items (label_column name.now) }
{
    match name_mark(name) {
        Some(mark) => send(out, page, mark),
        None => print_label(out, page, name),
    }
}

/// Prints a member of a JSON object that has no name.
pub(crate) fn print_no_name<W: Sink>(
    out: &mut W,
    page: &mut Page,
    key: &[u8],
) -> Result<(), StreamFault>
    ensures { Sends result (W.stream out.old) (W.stream out.new) page.old.items page.new.items (no_name key.now) }
{
    print_pieces(
        out,
        page,
        &[
            Piece::Text(b"\""),
            Piece::Text(key),
            Piece::Text(b"\":null"),
        ],
    )
}

/// Prints the name of a row as a member of a JSON object.
#[tactic(auto, unfolding(crate::specs::Tokens::label_member))]
#[inline(always)]
pub(crate) fn print_label_member<W: Sink>(
    out: &mut W,
    page: &mut Page,
    key: &[u8],
    name: CutName<'_>,
) -> Result<(), StreamFault>
    ensures { Sends result (W.stream out.old) (W.stream out.new) page.old.items page.new.items (label_member key.now (cut_seen name.entry)) }
{
    if name.bytes.len() <= MAX_NAME_BYTES {
        print_member(out, page, key, name.bytes)
    } else {
        print_cut_member(out, page, key, name)
    }
}

/// Prints the first bytes of a long name as a member of a JSON object, and the length of the name.
#[tactic(auto, unfolding(crate::specs::Tokens::cut_member))]
fn print_cut_member<W: Sink>(
    out: &mut W,
    page: &mut Page,
    key: &[u8],
    name: CutName<'_>,
) -> Result<(), StreamFault>
    requires { 1024 ≤ length name.bytes.now }
    ensures { Sends result (W.stream out.old) (W.stream out.new) page.old.items page.new.items (cut_member key.now (cut_seen name.entry)) }
{
    let (front, _) = name.bytes.split_at(MAX_NAME_BYTES);
    print_member(out, page, key, front)?;
    print_length_member(out, page, key, name_length(name))
}

/// Returns how many bytes a name has, if all were looked at.
fn name_length(name: CutName<'_>) -> Option<u64>
    ensures { result ≡ name_length (cut_seen name.entry) }
{
    if name.whole {
        Some(name.bytes.len() as u64)
    } else {
        None
    }
}

/// Prints the length of a name as another member.
#[tactic(auto, unfolding(crate::specs::Tokens::length_member))]
fn print_length_member<W: Sink>(
    out: &mut W,
    page: &mut Page,
    key: &[u8],
    len: Option<u64>,
) -> Result<(), StreamFault>
    ensures { Sends result (W.stream out.old) (W.stream out.new) page.old.items page.new.items (length_member key.now len) }
{
    let (front, key, colon) = (
        Piece::Text(b",\""),
        Piece::Text(key),
        Piece::Text(b"_length\":"),
    );
    match len {
        Some(len) => print_pieces(out, page, &[front, key, colon, Piece::Number(len)]),
        None => print_pieces(out, page, &[front, key, colon, Piece::Text(b"null")]),
    }
}

/// Prints a name as a member of a JSON object.
#[tactic(auto, unfolding(crate::specs::Tokens::name_member))]
fn print_member<W: Sink>(
    out: &mut W,
    page: &mut Page,
    key: &[u8],
    name: &[u8],
) -> Result<(), StreamFault>
    ensures { Sends result (W.stream out.old) (W.stream out.new) page.old.items page.new.items (name_member key.now name.now) }
{
    let quoted = Joined(Verbatim(b"\""), Verbatim(key));
    Joined(quoted, Verbatim(b"\":\"")).print(out, page)?;
    print_string(out, page, name)?;
    print_hex_member(out, page, key, name)?;
    send(out, page, b"\"")
}

/// If a name isn't ASCII, prints the quote that ends the string before, and the bytes of the name as another member. The quote
/// that ends this member is left out.
#[tactic(auto, unfolding(crate::specs::Tokens::hex_member))]
fn print_hex_member<W: Sink>(
    out: &mut W,
    page: &mut Page,
    key: &[u8],
    name: &[u8],
) -> Result<(), StreamFault>
    ensures { Sends result (W.stream out.old) (W.stream out.new) page.old.items page.new.items (hex_member key.now name.now) }
{
    if is_ascii(name) {
        print_pieces(out, page, &[])
    } else {
        print_hex_bytes(out, page, key, name)
    }
}

/// Prints the quote that ends a string, and the bytes of a name as another member without its last quote.
#[tactic(auto, unfolding(crate::specs::Tokens::hex_bytes))]
fn print_hex_bytes<W: Sink>(
    out: &mut W,
    page: &mut Page,
    key: &[u8],
    name: &[u8],
) -> Result<(), StreamFault>
    ensures { Sends result (W.stream out.old) (W.stream out.new) page.old.items page.new.items (hex_bytes key.now name.now) }
{
    print_pieces(
        out,
        page,
        &[
            Piece::Text(b"\",\""),
            Piece::Text(key),
            Piece::Text(b"_hex\":\""),
        ],
    )?;
    print_octets(out, page, name)
}

/// Prints a path as other commands do, inside a JSON string.
fn print_path<W: Sink>(out: &mut W, page: &mut Page, path: &[u8]) -> Result<(), StreamFault>
    ensures { Sends result (W.stream out.old) (W.stream out.new) page.old.items page.new.items (path_text path.now) }
{
    for b in path {
        print_path_byte(out, page, *b)?;
    }
    Ok(())
}

/// Prints a byte of a path.
#[tactic(auto, unfolding(crate::specs::Tokens::path_byte))]
fn print_path_byte<W: Sink>(out: &mut W, page: &mut Page, b: u8) -> Result<(), StreamFault>
    ensures { Sends result (W.stream out.old) (W.stream out.new) page.old.items page.new.items (path_byte b) }
{
    match b {
        b'"' => print_pieces(out, page, &[Piece::Text(b"\\\"")]),
        b'\\' => print_pieces(out, page, &[Piece::Text(b"\\\\")]),
        b => print_pieces(out, page, &[Piece::Name(&[b])]),
    }
}
