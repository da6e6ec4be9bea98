ghost use Rattle.std.specs.Prelude.{◌≡◌, ◌<◌, ◌≤◌, ◌++◌, drop, length, take};
ghost use Rattle.pef_ports.specs.Sent.{Sends};
ghost use Rattle.pef_rows.specs.Kept.Plain.{are_plain};
ghost use Rattle.pef_rows.specs.Strings.{byte_string, character_of, is_ascii, is_plain, string_text};

use pef_ports::{Page, Piece, Sink, StreamFault, print_pieces, send};

/// The characters of the bytes 80 to FF of Mac Roman (Apple's ROMAN.TXT of the Unicode Consortium).
const MAC_ROMAN: [u16; 128] = [
    0x00C4, 0x00C5, 0x00C7, 0x00C9, 0x00D1, 0x00D6, 0x00DC, 0x00E1, 0x00E0, 0x00E2, 0x00E4, 0x00E3,
    0x00E5, 0x00E7, 0x00E9, 0x00E8, 0x00EA, 0x00EB, 0x00ED, 0x00EC, 0x00EE, 0x00EF, 0x00F1, 0x00F3,
    0x00F2, 0x00F4, 0x00F6, 0x00F5, 0x00FA, 0x00F9, 0x00FB, 0x00FC, 0x2020, 0x00B0, 0x00A2, 0x00A3,
    0x00A7, 0x2022, 0x00B6, 0x00DF, 0x00AE, 0x00A9, 0x2122, 0x00B4, 0x00A8, 0x2260, 0x00C6, 0x00D8,
    0x221E, 0x00B1, 0x2264, 0x2265, 0x00A5, 0x00B5, 0x2202, 0x2211, 0x220F, 0x03C0, 0x222B, 0x00AA,
    0x00BA, 0x03A9, 0x00E6, 0x00F8, 0x00BF, 0x00A1, 0x00AC, 0x221A, 0x0192, 0x2248, 0x2206, 0x00AB,
    0x00BB, 0x2026, 0x00A0, 0x00C0, 0x00C3, 0x00D5, 0x0152, 0x0153, 0x2013, 0x2014, 0x201C, 0x201D,
    0x2018, 0x2019, 0x00F7, 0x25CA, 0x00FF, 0x0178, 0x2044, 0x20AC, 0x2039, 0x203A, 0xFB01, 0xFB02,
    0x2021, 0x00B7, 0x201A, 0x201E, 0x2030, 0x00C2, 0x00CA, 0x00C1, 0x00CB, 0x00C8, 0x00CD, 0x00CE,
    0x00CF, 0x00CC, 0x00D3, 0x00D4, 0xF8FF, 0x00D2, 0x00DA, 0x00DB, 0x00D9, 0x0131, 0x02C6, 0x02DC,
    0x00AF, 0x02D8, 0x02D9, 0x02DA, 0x00B8, 0x02DD, 0x02DB, 0x02C7,
];

/// Prints the inside of a JSON string: the text of a name in Mac Roman.
pub fn print_string<W: Sink>(out: &mut W, page: &mut Page, name: &[u8]) -> Result<(), StreamFault>
    ensures { Sends result (W.stream out.old) (W.stream out.new) page.old.items page.new.items (string_text name.now) }
{
    if is_plain_string(name) {
        return send(out, page, name);
    }
    print_escaped(out, page, name)
}

/// Returns whether no byte of a name needs an escape. The loop has no early end, so that the compiler can test many bytes at once.
fn is_plain_string(name: &[u8]) -> bool
    ensures { result ≡ are_plain name.now }
{
    let mut plain = true;
    for b in name {
        plain &= is_plain(*b);
    }
    plain
}

/// Prints the inside of a JSON string. Characters that need no escape are sent together.
#[inline(never)]
fn print_escaped<W: Sink>(out: &mut W, page: &mut Page, name: &[u8]) -> Result<(), StreamFault>
    ensures { Sends result (W.stream out.old) (W.stream out.new) page.old.items page.new.items (string_text name.now) }
{
    let mut rest = name;
    while !rest.is_empty() {
        let (plain, others) = rest.split_at(plain_len(rest));
        send(out, page, plain)?;
        let Some((b, after)) = others.split_first() else {
            return Ok(());
        };
        print_byte(out, page, *b)?;
        rest = after;
    }
    Ok(())
}

/// Returns how many bytes at the front of a name need no escape in a string.
#[tactic(auto, using(crate::proofs::StringLemmas::plain_more))]
fn plain_len(name: &[u8]) -> usize
    ensures inside { result ≤ length name.now }
    ensures text { string_text name.now ≡ take result name.now ++ string_text (drop result name.now) }
{
    for (i, b) in name.iter().enumerate() {
        if !is_plain(*b) {
            return i;
        }
    }
    name.len()
}

/// Returns whether a byte needs no escape in a string.
fn is_plain(b: u8) -> bool
    ensures { result ≡ is_plain b }
{
    b >= 0x20 && b <= 0x7E && (b != b'"' && b != b'\\')
}

/// Prints a character of a JSON string.
#[tactic(auto, unfolding(crate::specs::Strings::byte_string))]
pub(crate) fn print_byte<W: Sink>(out: &mut W, page: &mut Page, b: u8) -> Result<(), StreamFault>
    ensures { Sends result (W.stream out.old) (W.stream out.new) page.old.items page.new.items (byte_string b) }
{
    match b {
        b'"' => print_pieces(out, page, &[Piece::Text(b"\\\"")]),
        b'\\' => print_pieces(out, page, &[Piece::Text(b"\\\\")]),
        0x20..=0x7E => print_pieces(out, page, &[Piece::Text(&[b])]),
        _ => print_pieces(
            out,
            page,
            &[Piece::Text(b"\\u"), Piece::Halfword(character_of(b))],
        ),
    }
}

/// Returns the character of a byte of Mac Roman.
#[tactic(auto, unfolding(crate::specs::Strings::mac_roman))]
pub fn character_of(b: u8) -> u16
    ensures { result ≡ character_of b }
{
    if b < 128 {
        u16::from(b)
    } else {
        MAC_ROMAN[usize::from(b - 128)]
    }
}

/// Returns whether all bytes of a name are ASCII. The loop has no early end, as that of [`is_plain_string`].
pub fn is_ascii(name: &[u8]) -> bool
    ensures { result ≡ is_ascii name.now }
{
    let mut ascii = true;
    for b in name {
        ascii &= *b < 128;
    }
    ascii
}
