ghost use Rattle.std.specs.Prelude.{◌≡◌, ◌<◌, ◌≤◌, ◌++◌, option_map, vec_len, IfOk, OnOk};
ghost use Rattle.pef_lines.specs.Views.{words_left};
ghost use Rattle.pef_words.specs.Refusals.{result_map};
ghost use Rattle.pef_cert.specs.Text.Kept.Reading.{Says};
ghost use Rattle.pef_cert.specs.Text.Lines.{range_line, registers_in, registers_line, row_line};
ghost use Rattle.pef_cert.specs.Text.Words.{numbers_in};

use crate::are_rising;
use crate::text::CertFault;
use crate::text::lines::Line;
use pef_lines::{Head, Words, decimal_number};
use std::alloc::Global;

/// The most sections that count as values of a register.
const MAX_REGISTERS: usize = 16;

/// Appends the numbers that words spell.
fn append_numbers(line: Line<'_>, words: Words<'_>, numbers: &mut Vec<u32>) -> Result<(), CertFault>
    ensures { Says (result_map (λ _. numbers.new.items) result) line.entry.number (option_map (λ more. numbers.old.items ++ more) (numbers_in (words_left words.entry))) }
{
    let mut words = words;
    let mut head = Head::new();
    'words: while !words.is_empty() {
        let Some(number) = words.next_near(&mut head) else {
            return Err(line.fault());
        };
        numbers.push(number)?;
    }
    Ok(())
}

/// Returns the numbers in front of a last word `*`.
fn registers_in(alloc: Global, line: Line<'_>, words: Words<'_>) -> Result<Vec<u32>, CertFault>
    ensures { Says (result_map (λ v. v.items) result) line.entry.number (registers_in (words_left words.entry)) }
{
    let mut words = words;
    let mut registers = Vec::new(alloc);
    while let Some(word) = words.next_word() {
        if word == b"*".as_slice() {
            if !words.is_empty() {
                return Err(line.fault());
            }
            return Ok(registers);
        }
        let Some(number) = decimal_number(word) else {
            return Err(line.fault());
        };
        registers.push(number)?;
    }
    Err(line.fault())
}

/// Returns the registers of a `registers` line, which rise.
#[tactic(auto, unfolding(crate::specs::Text::Lines::registers_line))]
pub fn registers_line(alloc: Global, line: Line<'_>) -> Result<Vec<u32>, CertFault>
    ensures registers { Says (result_map (λ v. v.items) result) line.entry.number (registers_line line.entry.bytes.now) }
    ensures most { IfOk result (λ v. vec_len v ≤ 16) }
{
    let mut words = Words::new(line.bytes);
    let Some(()) = words.expect(b"registers") else {
        return Err(line.fault());
    };
    let registers = registers_in(alloc, line, words)?;
    if !are_rising(&registers) || registers.len() > MAX_REGISTERS {
        return Err(line.fault());
    }
    Ok(registers)
}

/// Writes the labels of an `at` line, which has this index and this many labels, to a row.
#[tactic(auto, unfolding(crate::specs::Text::Lines::row_line))]
pub fn row_line(line: Line<'_>, width: usize, at: u32, row: &mut Vec<u32>) -> Result<(), CertFault>
    ensures labels { Says (result_map (λ _. row.new.items) result) line.entry.number (row_line width at line.entry.bytes.now) }
    ensures wide { OnOk result (vec_len row.new ≡ width) }
{
    row.clear();
    let mut words = Words::new(line.bytes);
    let Some(()) = words.expect(b"at") else {
        return Err(line.fault());
    };
    let Some(index) = words.next_word() else {
        return Err(line.fault());
    };
    let Some(index) = decimal_number(index) else {
        return Err(line.fault());
    };
    append_numbers(line, words, row)?;
    if index != at || row.len() != width {
        return Err(line.fault());
    }
    Ok(())
}

/// The requirements for a range.
#[derive(Clone, Copy)]
pub struct WantedRange<'a> {
    /// The index of its first row.
    pub first: u32,
    /// How many rows there are in all.
    pub count: u32,
    /// How many labels a row has.
    pub width: usize,
    /// The labels of the row before it, which must differ from its own; none at the first row.
    pub before: &'a [u32],
}

/// Writes the labels of an `at` line of version 2 to a row, and returns the index of its last row.
#[tactic(auto, unfolding(crate::specs::Text::Lines::range_line))]
pub fn range_line(
    line: Line<'_>,
    wanted: WantedRange<'_>,
    row: &mut Vec<u32>,
) -> Result<u32, CertFault>
    ensures range { Says (result_map (λ last. record { first = wanted.entry.first; last = last; labels = row.new.items }) result) line.entry.number (range_line wanted.entry.width wanted.entry.count wanted.entry.first wanted.entry.before.now line.entry.bytes.now) }
    ensures wide { OnOk result (vec_len row.new ≡ wanted.entry.width) }
    ensures forward { IfOk result (λ last. wanted.entry.first ≤ last) }
    ensures inside { IfOk result (λ last. last < wanted.entry.count) }
{
    row.clear();
    let mut words = Words::new(line.bytes);
    let Some(()) = words.expect(b"at") else {
        return Err(line.fault());
    };
    let Some(first) = words.next_number() else {
        return Err(line.fault());
    };
    let Some(last) = words.next_number() else {
        return Err(line.fault());
    };
    append_numbers(line, words, row)?;
    if first != wanted.first || last < first || last >= wanted.count {
        return Err(line.fault());
    }
    if row.len() != wanted.width || row.as_slice() == wanted.before {
        return Err(line.fault());
    }
    Ok(last)
}
