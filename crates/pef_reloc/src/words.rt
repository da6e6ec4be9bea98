ghost use Rattle.std.specs.Prelude.{◌≡◌, ◌+◌, ◌*◌, ◌^◌, ◌≤◌, ◌<◌, length};
ghost use Rattle.std.specs.Result.{result_err};
ghost use Rattle.pef_reloc.specs.Applied.{added_at};
ghost use Rattle.pef_reloc.specs.Kept.Rows.{word_added};
ghost use Rattle.pef_reloc.specs.Kept.Rows.{DoesPairs, DoesRow};

use crate::fixup::WORD;
use crate::stop::Stop;
use byteorder::{BigEndian, ByteOrder};

/// The distance to the next word, in bytes.
pub(crate) const NEXT: u64 = WORD as u64;

/// Places of words at equal distances.
#[derive(Clone, Copy)]
pub(crate) struct Row {
    /// Where the first one is, in bytes.
    pub from: u64,
    /// How many bytes lie from each to the next.
    pub stride: u64,
    pub count: u32,
}

impl Row {
    pub fn new(from: u64, stride: u64, count: u32) -> Row
        ensures { result ≡ record { from = from; stride = stride; count = count } }
    {
        Row {
            from,
            stride,
            count,
        }
    }
}

/// Adds `address` to the words of a row, up to the first that passes the end.
pub(crate) fn add_row(memory: &mut [u8], row: Row, address: u32) -> Result<(), Stop>
    requires { row.from + row.stride * row.count + 4 < 2 ^ 64 }
    ensures { DoesRow memory.old memory.new row address (result_err result) }
{
    let mut at = row.from;
    'words: for _ in 0..row.count {
        add_word(memory, at, address)?;
        at += row.stride;
    }
    Ok(())
}

/// Adds `first` to the words of a row and `second` to the word after each, up to the first word that
/// passes the end.
pub(crate) fn add_pairs(memory: &mut [u8], row: Row, first: u32, second: u32) -> Result<(), Stop>
    requires { row.from + row.stride * row.count + 8 < 2 ^ 64 }
    ensures { DoesPairs memory.old memory.new row first second (result_err result) }
{
    let mut at = row.from;
    'words: for _ in 0..row.count {
        add_word(memory, at, first)?;
        add_word(memory, at + NEXT, second)?;
        at += row.stride;
    }
    Ok(())
}

/// Adds an address to the word at a place, modulo 2^32.
///
/// # Errors
///
/// `PastEnd` if the word passes the end; memory is then unchanged.
pub(crate) fn add_word(memory: &mut [u8], at: u64, address: u32) -> Result<(), Stop>
    requires { at + 4 < 2 ^ 64 }
    ensures { word_added memory.old at address ≡ record { memory = memory.new; fault = result_err result } }
{
    if at + NEXT > memory.len() as u64 {
        return Err(Stop::PastEnd(at));
    }
    add_at(memory, at as usize, address);
    Ok(())
}

#[tactic(auto, unfolding(crate::specs::Applied::added_at))]
fn add_at(memory: &mut [u8], at: usize, address: u32)
    requires { at + 4 ≤ length memory.old }
    ensures { memory.new ≡ added_at memory.old at address }
{
    let word = BigEndian::read_u32(&memory[at..]);
    BigEndian::write_u32(&mut memory[at..], word.wrapping_add(address));
}
