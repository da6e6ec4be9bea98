ghost use Rattle.std.specs.Prelude.{◌≡◌, ◌⊎◌, ◌+◌, ◌^◌, ◌<◌, ◌≤◌, ◌++◌, ◌∷◌, length, take, drop, IfOk, IfErr, OnOk};
ghost use Rattle.pef_pidata.specs.Packing.{argument_bytes, counted_bytes, leading_byte, packed_of, part_bytes, parts_of};
ghost use Rattle.pef_pidata.specs.Kept.Runs.{IsCopiedTo, part_len, zeros_first};
ghost use Rattle.pef_pidata.specs.Kept.Views.{piece_seen};
ghost use Rattle.pef_pidata.specs.declared.fault.PackFault.TheVariants.{OutOfMemory};

use crate::fault::PackFault;
use crate::instruction::{BLOCK, COUNTS, ZERO};
use std::alloc::{AllocError, Global};

/// Returns the packed bytes of an image of up to 16,777,216 bytes. `expand` turns them back into the image.
///
/// Each longest run of three or more zeros is one instruction. The bytes between two such runs, or at an
/// end, are one instruction that copies them. The time is linear in the image's length.
///
/// # Errors
///
/// Only `OutOfMemory`.
pub fn pack(alloc: Global, image: &[u8]) -> Result<Vec<u8>, PackFault>
    requires { length image.now ≤ 2 ^ 24 }
    ensures packed { IfOk result (λ v. v.items ≡ packed_of image.now) }
    ensures memory { IfErr result (λ e. e ≡ OutOfMemory) }
{
    // Enough: a block with the run after it grows by at most one byte in 131, and a last block by five.
    let room = image.len() + image.len() / 128 + 5;
    let mut packed = Vec::with_capacity(alloc, room)?;
    let mut rest = image;
    while !rest.is_empty() {
        let (piece, behind) = first_piece(rest);
        append(&mut packed, piece)?;
        rest = behind;
    }
    Ok(packed)
}

/// A part of an image.
#[derive(Clone, Copy)]
enum Piece<'a> {
    /// A longest run of zeros, by its length.
    Zeros(usize),
    /// The bytes between two runs, or at an end.
    Block(&'a [u8]),
}

/// Returns the first part of an image that has bytes, and the bytes after the part.
fn first_piece(image: &[u8]) -> (Piece<'_>, &[u8])
    requires { 0 < length image.now }
    ensures parts { parts_of image.now ≡ piece_seen result.0 ∷ parts_of result.1.now }
    ensures shorter { length result.1.now < length image.now }
    ensures within { part_len (piece_seen result.0) ≤ length image.now }
{
    let block = block_len(image);
    if block == 0 {
        let zeros = zeros_len(image);
        let (_, rest) = image.split_at(zeros);
        return (Piece::Zeros(zeros), rest);
    }
    let (bytes, rest) = image.split_at(block);
    (Piece::Block(bytes), rest)
}

/// Returns how many bytes there are before the first three zeros in a row.
fn block_len(image: &[u8]) -> usize
    ensures within { result ≤ length image.now }
    ensures copied { IsCopiedTo image.now result }
    ensures end { (result ≡ length image.now) ⊎ (3 ≤ zeros_first (drop result image.now)) }
{
    let mut at = 0;
    while at + 2 < image.len() {
        if image[at + 2] != 0 {
            // No run begins at these three bytes.
            at += 3;
        } else if image[at] == 0 && image[at + 1] == 0 {
            return at;
        } else {
            at += 1;
        }
    }
    image.len()
}

/// Returns how many zeros an image begins with.
fn zeros_len(image: &[u8]) -> usize
    ensures { result ≡ zeros_first image.now }
{
    for (i, byte) in image.iter().enumerate() {
        if *byte != 0 {
            return i;
        }
    }
    image.len()
}

/// Appends the instruction that spells a part.
#[tactic(auto, unfolding(crate::specs::Packing::part_bytes))]
fn append(packed: &mut Vec<u8>, piece: Piece<'_>) -> Result<(), AllocError>
    requires { part_len (piece_seen piece) < 2 ^ 32 }
    ensures { OnOk result (packed.new.items ≡ packed.old.items ++ part_bytes (piece_seen piece.entry)) }
{
    match piece {
        Piece::Zeros(count) => append_count(packed, ZERO, count as u32),
        Piece::Block(bytes) => {
            append_count(packed, BLOCK, bytes.len() as u32)?;
            packed.extend_from_slice(bytes)
        }
    }
}

/// Appends an instruction's first byte, and the argument for a count above 31.
#[tactic(auto, unfolding(crate::specs::Packing::counted_bytes))]
fn append_count(packed: &mut Vec<u8>, opcode: u8, count: u32) -> Result<(), AllocError>
    requires { opcode ≤ 1 }
    ensures { OnOk result (packed.new.items ≡ packed.old.items ++ counted_bytes opcode count) }
{
    let first = opcode * COUNTS;
    if count < u32::from(COUNTS) {
        packed.push(first + count as u8)?;
        return Ok(());
    }
    packed.push(first)?;
    append_argument(packed, count)
}

/// Appends an argument in its fewest bytes.
#[tactic(auto, unfolding(crate::specs::Packing::argument_bytes))]
fn append_argument(packed: &mut Vec<u8>, value: u32) -> Result<(), AllocError>
    ensures { OnOk result (packed.new.items ≡ packed.old.items ++ argument_bytes value) }
{
    append_leading(packed, 1 << 28, value)?;
    append_leading(packed, 1 << 21, value)?;
    append_leading(packed, 1 << 14, value)?;
    append_leading(packed, 1 << 7, value)?;
    packed.push((value % 128) as u8)?;
    Ok(())
}

/// Appends the byte of an argument with the seven bits from `unit` on, if the value has bits there.
fn append_leading(packed: &mut Vec<u8>, unit: u32, value: u32) -> Result<(), AllocError>
    requires { 0 < unit }
    ensures { OnOk result (packed.new.items ≡ packed.old.items ++ leading_byte unit value) }
{
    if value >= unit {
        packed.push(0x80 + (value / unit % 128) as u8)?;
    }
    Ok(())
}
