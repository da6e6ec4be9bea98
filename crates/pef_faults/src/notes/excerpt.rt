//! A line of a text as it is shown, with the word at fault marked under it.
ghost use Rattle.std.specs.Prelude.{◌≡◌, ◌≤◌, drop, length, take};
ghost use Rattle.pef_ports.specs.Sent.{Sends};
ghost use Rattle.pef_faults.specs.Notes.Excerpts.{excerpt_of, excerpt_text, mark_text, shown_bytes, visible};

use pef_ports::{Page, Sink, StreamFault, send};

/// The most bytes of a line that are shown.
const WIDTH: usize = 72;

/// The most of them that are before the word at fault.
const BEFORE: usize = 32;

/// As many spaces as an excerpt can have bytes.
const BLANKS: &[u8] = b"                                                                        ";

/// As many marks as an excerpt can have bytes.
const MARKS: &[u8] = b"^^^^^^^^^^^^^^^^^^^^^^^^^^^^^^^^^^^^^^^^^^^^^^^^^^^^^^^^^^^^^^^^^^^^^^^^";

/// A part of a line that has the beginning of a word. A byte that isn't printing is a question mark.
#[derive(Clone, Copy, Debug, PartialEq, Eq)]
pub struct Excerpt {
    /// The bytes, of which the first `len` are the part.
    bytes: [u8; WIDTH],
    len: usize,
    /// How many bytes are before the word.
    column: usize,
    /// How many bytes of the word are marked, at least one.
    marked: usize,
}

impl Excerpt {
    /// Returns the part of a line around the word from a byte to another.
    #[tactic(auto, unfolding(crate::specs::Notes::Excerpts::excerpt_of))]
    pub fn of(line: &[u8], from: usize, to: usize) -> Excerpt
        ensures { result ≡ excerpt_of line.now from to }
    {
        let start = from.saturating_sub(BEFORE);
        let window = window(line, start);
        let column = from - start;
        Excerpt {
            bytes: shown_bytes(window),
            len: window.len(),
            column,
            marked: to.saturating_sub(from).max(1).min(WIDTH - column),
        }
    }
}

/// Returns as many bytes of a line as are shown, from one on.
fn window(line: &[u8], start: usize) -> &[u8]
    ensures part { result.now ≡ take 72 (drop start line.now) }
    ensures small { length result.now ≤ 72 }
{
    let (_, rest) = line.split_at(start.min(line.len()));
    front(rest, WIDTH)
}

/// Returns the first `count` bytes, or all if there are fewer.
fn front(bytes: &[u8], count: usize) -> &[u8]
    ensures part { result.now ≡ take count bytes.now }
    ensures small { length result.now ≤ count }
{
    match bytes.split_at_checked(count) {
        Some((front, _)) => front,
        None => bytes,
    }
}

/// Returns bytes as they are shown, and zeros up to the width.
fn shown_bytes(window: &[u8]) -> [u8; WIDTH]
    requires { length window.now ≤ 72 }
    ensures { result ≡ shown_bytes window.now }
{
    let mut bytes = [0; WIDTH];
    for (i, byte) in window.iter().enumerate() {
        bytes[i] = visible(*byte);
    }
    bytes
}

/// Returns a byte as it is shown.
fn visible(byte: u8) -> u8
    ensures { result ≡ visible byte }
{
    match byte {
        b' '..=b'~' => byte,
        _ => b'?',
    }
}

/// Prints a line with the word marked under it.
pub(crate) fn print_excerpt<W: Sink>(
    out: &mut W,
    page: &mut Page,
    excerpt: &Excerpt,
) -> Result<(), StreamFault>
    ensures { Sends result (W.stream out.old) (W.stream out.new) page.old.items page.new.items (excerpt_text excerpt.now) }
{
    send(out, page, b"    ")?;
    send(out, page, front(&excerpt.bytes, excerpt.len))?;
    print_mark(out, page, excerpt)
}

/// Prints the line of the mark.
fn print_mark<W: Sink>(out: &mut W, page: &mut Page, excerpt: &Excerpt) -> Result<(), StreamFault>
    ensures { Sends result (W.stream out.old) (W.stream out.new) page.old.items page.new.items (mark_text excerpt.now) }
{
    send(out, page, b"\n    ")?;
    send(out, page, front(BLANKS, excerpt.column))?;
    send(out, page, front(MARKS, excerpt.marked))?;
    send(out, page, b"\n")
}
