ghost use Rattle.std.specs.Prelude.{◌≡◌, ◌≤◌, ◌*◌, ◌++◌, option_map, IfOk, IfSome};
ghost use Rattle.pef_lines.specs.Views.{words_left};
ghost use Rattle.pef_words.specs.Refusals.{result_map};
ghost use Rattle.pef_reloc.specs.Unrolled.{instrs_of};
ghost use Rattle.pef_reloc.specs.Views.{program_bytes};
ghost use Rattle.pef_cert.specs.Text.Kept.Reading.{Says};
ghost use Rattle.pef_cert.specs.Text.Lines.{bytes_spelled, program_in, program_line};
ghost use Rattle.pef_cert.specs.Text.Words.{digit_in, halfword_in, halfwords_in};

use crate::text::CertFault;
use crate::text::lines::Line;
use pef_lines::Words;
use pef_reloc::{Instr, Program};
use std::alloc::{AllocError, Global};

/// Returns the value of an upper-case hex digit.
fn digit_in(digit: u8) -> Option<u8>
    ensures value { result ≡ digit_in digit }
    ensures most { IfSome result (λ value. value ≤ 15) }
{
    match digit {
        b'0'..=b'9' => Some(digit - b'0'),
        b'A'..=b'F' => Some(digit - b'A' + 10),
        _ => None,
    }
}

/// Returns the bytes of a halfword, which a word of four digits spells.
fn halfword_in(word: &[u8]) -> Option<[u8; 2]>
    ensures { result ≡ halfword_in word.now }
{
    if word.len() != 4 {
        return None;
    }
    let high = digit_in(word[0])? * 16 + digit_in(word[1])?;
    let low = digit_in(word[2])? * 16 + digit_in(word[3])?;
    Some([high, low])
}

/// Appends the bytes of the halfwords that words spell.
fn append_halfwords(line: Line<'_>, words: Words<'_>, bytes: &mut Vec<u8>) -> Result<(), CertFault>
    ensures { Says (result_map (λ _. bytes.new.items) result) line.entry.number (option_map (λ more. bytes.old.items ++ more) (halfwords_in (words_left words.entry))) }
{
    let mut words = words;
    while let Some(word) = words.next_word() {
        let Some(halfword) = halfword_in(word) else {
            return Err(line.fault());
        };
        bytes.extend_from_slice(&halfword)?;
    }
    Ok(())
}

/// Returns the bytes that the words of a `program` line spell: none for `-`.
fn bytes_spelled(alloc: Global, line: Line<'_>, words: Words<'_>) -> Result<Vec<u8>, CertFault>
    ensures { Says (result_map (λ v. v.items) result) line.entry.number (bytes_spelled (words_left words.entry)) }
{
    let mut bytes = Vec::new(alloc);
    let mut behind = words;
    let Some(first) = behind.next_word() else {
        return Err(line.fault());
    };
    if first == b"-".as_slice() {
        if !behind.is_empty() {
            return Err(line.fault());
        }
        return Ok(bytes);
    }
    append_halfwords(line, words, &mut bytes)?;
    Ok(bytes)
}

/// Returns the instructions of a program.
fn list(alloc: Global, program: &Program<'_>) -> Result<Vec<Instr>, AllocError>
    ensures { IfOk result (λ v. v.items ≡ instrs_of (program_bytes program.now)) }
{
    let mut walk = program.instrs();
    let mut instrs = Vec::new(alloc);
    while let Some(instr) = walk.next_instr() {
        instrs.push(instr)?;
    }
    Ok(instrs)
}

/// Returns the program in some bytes, if they are readable and have this many halfwords.
fn program_in(
    alloc: Global,
    line: Line<'_>,
    halfwords: u32,
    bytes: &[u8],
) -> Result<Vec<Instr>, CertFault>
    ensures { Says (result_map (λ v. v.items) result) line.entry.number (program_in halfwords bytes.now) }
{
    if bytes.len() != 2 * halfwords as usize {
        return Err(line.fault());
    }
    let Ok(program) = Program::read(bytes) else {
        return Err(line.fault());
    };
    Ok(list(alloc, &program)?)
}

/// Returns the program of a `program` line, which has this many halfwords.
#[tactic(auto, unfolding(crate::specs::Text::Lines::program_line))]
pub fn program_line(alloc: Global, line: Line<'_>, halfwords: u32) -> Result<Vec<Instr>, CertFault>
    ensures { Says (result_map (λ v. v.items) result) line.entry.number (program_line halfwords line.entry.bytes.now) }
{
    let mut words = Words::new(line.bytes);
    let Some(()) = words.expect(b"program") else {
        return Err(line.fault());
    };
    let bytes = bytes_spelled(alloc, line, words)?;
    program_in(alloc, line, halfwords, &bytes)
}
