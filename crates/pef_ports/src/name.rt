ghost use Rattle.std.specs.Prelude.{◌≡◌, ◌≤◌, ◌++◌, ◌/◌, ◌*◌, drop, length, take};
ghost use Rattle.pef_ports.specs.Kept.Plain.{are_plain};
ghost use Rattle.pef_ports.specs.Names.{byte_text, is_plain_byte, name_text};
ghost use Rattle.pef_ports.specs.Sent.{Sends};

use crate::line::{Line, push_hex};
use crate::page::{Page, send};
use crate::ports::{Sink, StreamFault};

/// Prints a name or a path. A byte that could break a line is printed as `%` and two digits.
pub fn print_name<W: Sink>(out: &mut W, page: &mut Page, name: &[u8]) -> Result<(), StreamFault>
    ensures { Sends result (W.stream out.old) (W.stream out.new) page.old.items page.new.items (name_text name.now) }
{
    if is_plain_name(name) {
        return send(out, page, name);
    }
    print_escaped(out, page, name)
}

/// Returns whether all bytes of a name are printed unchanged. The bytes of an array are tested at once: those at the front of the
/// name, array by array, and those at its end, of which some may be tested twice.
fn is_plain_name(name: &[u8]) -> bool
    ensures { result ≡ are_plain name.now }
{
    if let Some(last) = name.last_chunk::<16>() {
        return is_plain_front(name) && are_plain(last);
    }
    match (name.first_chunk::<8>(), name.last_chunk::<8>()) {
        (Some(first), Some(last)) => are_plain(first) && are_plain(last),
        _ => are_plain(name),
    }
}

/// Returns whether all bytes of the arrays at the front of a name are printed unchanged. Fewer than 16 bytes come after them.
fn is_plain_front(name: &[u8]) -> bool
    ensures { result ≡ are_plain (take (length name.now / 16 * 16) name.now) }
{
    let mut rest = name;
    let mut plain = true;
    while let Some((chunk, after)) = rest.split_first_chunk::<16>() {
        plain &= are_plain(chunk);
        rest = after;
    }
    plain
}

/// Returns whether all bytes are printed unchanged. All are tested, so that the compiler tests many at once.
#[inline(always)]
fn are_plain(bytes: &[u8]) -> bool
    ensures { result ≡ are_plain bytes.now }
{
    let mut plain = true;
    for b in bytes {
        plain &= is_plain(*b);
    }
    plain
}

/// Prints a name. Bytes that are printed unchanged are sent together.
#[inline(never)]
fn print_escaped<W: Sink>(out: &mut W, page: &mut Page, name: &[u8]) -> Result<(), StreamFault>
    ensures { Sends result (W.stream out.old) (W.stream out.new) page.old.items page.new.items (name_text name.now) }
{
    let mut rest = name;
    while !rest.is_empty() {
        let (plain, others) = rest.split_at(plain_len(rest));
        send(out, page, plain)?;
        let Some((b, after)) = others.split_first() else {
            return Ok(());
        };
        send(out, page, byte_text(*b).as_slice())?;
        rest = after;
    }
    Ok(())
}

/// Returns how many bytes at the front of a name are printed unchanged.
#[tactic(auto, using(crate::proofs::NameLemmas::plain_more))]
fn plain_len(name: &[u8]) -> usize
    ensures inside { result ≤ length name.now }
    ensures text { name_text name.now ≡ take result name.now ++ name_text (drop result name.now) }
{
    for (i, b) in name.iter().enumerate() {
        if !is_plain(*b) {
            return i;
        }
    }
    name.len()
}

/// Returns whether a byte is printed unchanged.
fn is_plain(b: u8) -> bool
    ensures { result ≡ is_plain_byte b }
{
    b.is_ascii_graphic() && b != b'%'
}

/// Returns a byte of a name as it is printed.
#[tactic(auto, unfolding(crate::specs::Names::byte_text))]
fn byte_text(b: u8) -> Line
    ensures { result.items ≡ byte_text b }
{
    let mut text = Line::new();
    if is_plain(b) {
        text.push(b);
    } else {
        text.push(b'%');
        push_hex(&mut text, &[b]);
    }
    text
}
