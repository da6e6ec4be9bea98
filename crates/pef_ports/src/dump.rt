ghost use Rattle.std.specs.Prelude.{◌≡◌, ◌≤◌, ◌<◌, ◌+◌, ◌^◌, ◌++◌, ◌⊎◌, length};
ghost use Rattle.arrayvec.specs.ArrayVec.{array_vec_len};
ghost use Rattle.pef_ports.specs.Sent.{Sends};
ghost use Rattle.pef_ports.specs.Text.{dump_text, group_text, row_text};

use crate::line::{Line, push_hex, push_word, word_digits};
use crate::page::{Page, send};
use crate::ports::{Sink, StreamFault};

/// How many bytes of memory a line shows.
const ROW: usize = 16;

/// How many bytes of memory four lines show.
const FOUR_ROWS: usize = 64;

/// How many bytes of memory a group of a line shows.
const GROUP: usize = 4;

/// Prints `bytes`, which begin at `address`, in lines of sixteen.
pub fn print_memory<W: Sink>(
    out: &mut W,
    page: &mut Page,
    address: u32,
    bytes: &[u8],
) -> Result<(), StreamFault>
    requires { address + length bytes.now ≤ 2 ^ 32 }
    ensures { Sends result (W.stream out.old) (W.stream out.new) page.old.items page.new.items (dump_text address bytes.now) }
{
    let mut rest = bytes;
    while rest.len() >= ROW {
        let here = address + (bytes.len() - rest.len()) as u32;
        let (rows, others) = rest.split_at(next_rows(rest.len()));
        print_rows(out, page, here, rows)?;
        rest = others;
    }
    if rest.is_empty() {
        return Ok(());
    }
    let here = address + (bytes.len() - rest.len()) as u32;
    send(out, page, short_row(here, rest).as_slice())
}

/// Returns how many of `len` bytes are printed next: those of four lines, or of one.
#[inline(always)]
fn next_rows(len: usize) -> usize
    requires { 16 ≤ len }
    ensures rows { (result ≡ 16) ⊎ (result ≡ 64) }
    ensures inside { result ≤ len }
{
    if len >= FOUR_ROWS { FOUR_ROWS } else { ROW }
}

/// Prints one line of sixteen bytes, or four.
#[inline(always)]
fn print_rows<W: Sink>(
    out: &mut W,
    page: &mut Page,
    address: u32,
    bytes: &[u8],
) -> Result<(), StreamFault>
    requires rows { (length bytes.now ≡ 16) ⊎ (length bytes.now ≡ 64) }
    requires room { address + length bytes.now ≤ 2 ^ 32 }
    ensures { Sends result (W.stream out.old) (W.stream out.new) page.old.items page.new.items (dump_text address bytes.now) }
{
    if bytes.len() == FOUR_ROWS {
        print_four(out, page, address, bytes)
    } else {
        send(out, page, &full_row(address, bytes))
    }
}

/// Prints four lines of sixteen bytes. All four are made before the first one is sent, since bytes that were written just
/// before are slow to copy.
#[inline(always)]
fn print_four<W: Sink>(
    out: &mut W,
    page: &mut Page,
    address: u32,
    bytes: &[u8],
) -> Result<(), StreamFault>
    requires rows { length bytes.now ≡ 64 }
    requires room { address + 64 ≤ 2 ^ 32 }
    ensures { Sends result (W.stream out.old) (W.stream out.new) page.old.items page.new.items (dump_text address bytes.now) }
{
    let (first, rest) = bytes.split_at(ROW);
    let (second, rest) = rest.split_at(ROW);
    let (third, fourth) = rest.split_at(ROW);
    let a = full_row(address, first);
    let b = full_row(address + 16, second);
    let c = full_row(address + 16 + 16, third);
    let d = full_row(address + 16 + 16 + 16, fourth);
    send_both(out, page, &a, &b)?;
    send_both(out, page, &c, &d)
}

/// Sends some bytes, and then others.
#[inline(always)]
fn send_both<W: Sink>(
    out: &mut W,
    page: &mut Page,
    first: &[u8],
    second: &[u8],
) -> Result<(), StreamFault>
    ensures { Sends result (W.stream out.old) (W.stream out.new) page.old.items page.new.items (first.now ++ second.now) }
{
    send(out, page, first)?;
    send(out, page, second)
}

/// Returns the line of sixteen bytes. It is made as one array, because the compiler then makes many digits at once.
#[inline(always)]
fn full_row(address: u32, bytes: &[u8]) -> [u8; 45]
    requires { length bytes.now ≡ 16 }
    ensures { result ≡ row_text address bytes.now }
{
    let (front, back) = bytes.split_at(2 * GROUP);
    let (first, second) = front.split_at(GROUP);
    let (third, fourth) = back.split_at(GROUP);
    let at = word_digits(&address.to_be_bytes());
    let a = word_digits(first);
    let b = word_digits(second);
    let c = word_digits(third);
    let d = word_digits(fourth);
    [
        at[0], at[1], at[2], at[3], at[4], at[5], at[6], at[7], b' ', a[0], a[1], a[2], a[3], a[4],
        a[5], a[6], a[7], b' ', b[0], b[1], b[2], b[3], b[4], b[5], b[6], b[7], b' ', c[0], c[1],
        c[2], c[3], c[4], c[5], c[6], c[7], b' ', d[0], d[1], d[2], d[3], d[4], d[5], d[6], d[7],
        b'\n',
    ]
}

/// Returns the line of at most sixteen bytes.
fn short_row(address: u32, bytes: &[u8]) -> Line
    requires { length bytes.now ≤ 16 }
    ensures { result.items ≡ row_text address bytes.now }
{
    let mut line = Line::new();
    push_word(&mut line, address);
    push_groups(&mut line, bytes);
    line.push(b'\n');
    line
}

/// Appends bytes in groups of four.
fn push_groups(line: &mut Line, bytes: &[u8])
    requires few { length bytes.now ≤ 16 }
    requires room { array_vec_len line.old ≤ 8 }
    ensures text { line.new.items ≡ line.old.items ++ group_text bytes.now }
    ensures len { array_vec_len line.new ≤ 44 }
{
    let mut rest = bytes;
    while !rest.is_empty() {
        let (group, others) = rest.split_at(GROUP.min(rest.len()));
        line.push(b' ');
        push_hex(line, group);
        rest = others;
    }
}
