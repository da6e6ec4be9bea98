//! Rows that take little memory, and are read in order.
ghost use Rattle.std.specs.Prelude.{◌≡◌, ◌≢◌, ◌++◌, ◌∷◌, ◌≤◌, [], IfOk, MatchOption, OnOk, length};
ghost use Rattle.pef_labels.specs.Kept.Packed.{AddsNumber, far_after, number_after, numbers_at, stepped};
ghost use Rattle.pef_labels.specs.Rows.{RowsFull, rows_from};

use crate::rows::LabelRows;
use std::alloc::{AllocError, Global};
use std::marker::Model;

/// The step of a number that is far from the one before it.
const FAR: u8 = 255;

/// The step of a number that equals the one before it.
const SAME: u32 = 127;

/// Numbers. One that is near the number before it takes one byte.
#[derive(Drop)]
struct PackedNumbers {
    /// For each number, its step from the one before it. The first has 0 before it.
    steps: Vec<u8>,
    /// The numbers that are far from the one before them, in order.
    far: Vec<u32>,
}

impl PackedNumbers {
    /// Packs numbers.
    fn pack(alloc: Global, numbers: &[u32]) -> Result<PackedNumbers, AllocError>
        ensures { IfOk result (λ packed. numbers_at 0 packed.steps.items packed.far.items ≡ numbers.now) }
    {
        let mut packed = PackedNumbers {
            steps: Vec::with_capacity(alloc, numbers.len())?,
            far: Vec::new(alloc),
        };
        let mut before = 0;
        for number in numbers {
            packed.push(before, *number)?;
            before = *number;
        }
        Ok(packed)
    }

    /// Puts a number after the others, of which the last is `before`.
    fn push(&mut self, before: u32, number: u32) -> Result<(), AllocError>
        ensures { OnOk result (AddsNumber before number self.old.steps.items self.old.far.items self.new.steps.items self.new.far.items) }
    {
        let step = step_to(before, number);
        if step == FAR {
            self.far.push(number)?;
        }
        self.steps.push(step)?;
        Ok(())
    }
}

/// Returns the number at a step from another one.
fn step_from(before: u32, step: u8) -> u32
    ensures { result ≡ stepped before step }
{
    before.saturating_add(u32::from(step)).saturating_sub(SAME)
}

/// Returns the step to a number.
fn step_to(before: u32, number: u32) -> u8
    ensures { result ≢ 255 → stepped before result ≡ number }
{
    let step = number.saturating_add(SAME).saturating_sub(before);
    if step < u32::from(FAR) && step_from(before, step as u8) == number {
        step as u8
    } else {
        FAR
    }
}

/// Returns the number of a step from another one, and the numbers that are far away after it.
fn number_after(before: u32, step: u8, far: &[u32]) -> (u32, &[u32])
    ensures number { result.0 ≡ number_after before step far.entry.now }
    ensures far { result.1.now ≡ far_after step far.entry.now }
{
    if step != FAR {
        return (step_from(before, step), far);
    }
    match far.split_first() {
        Some((number, others)) => (*number, others),
        None => (0, far),
    }
}

/// The packed numbers that weren't read yet. They are read in order.
#[derive(Drop)]
pub struct NumbersLeft<'a> {
    before: u32,
    steps: &'a [u8],
    far: &'a [u32],
}

impl<'a> Model for NumbersLeft<'a> {
    ghost use Rattle.std.specs.Prelude.{List, ℕ};
    ghost use Rattle.pef_labels.specs.Kept.Packed.{numbers_at};

    ghost Value = { List ℕ };

    ghost view = { λ left. numbers_at left.before left.steps.now left.far.now };
}

impl<'a> NumbersLeft<'a> {
    /// Reads the next number.
    fn next(&mut self) -> Option<u32>
        ensures { MatchOption result (self.old ≡ []) (λ number. self.old ≡ number ∷ self.new) }
    {
        let (step, steps) = self.steps.split_first()?;
        let (number, far) = number_after(self.before, *step, self.far);
        self.before = number;
        self.steps = steps;
        self.far = far;
        Some(number)
    }

    /// Fills `room` with the next numbers. At least as many must be left.
    pub fn read(&mut self, room: &mut [u32])
        requires { length room.old ≤ length self.old }
        ensures len { length room.new ≡ length room.old }
        ensures read { self.old ≡ room.new ++ self.new }
    {
        for place in 0..room.len() {
            room[place] = self.next().unwrap_or(0);
        }
    }
}

/// Labels in rows, all of one width, in little memory. A label that is near the one before it takes one byte, and equal
/// neighbouring rows are kept once. They are read in order.
#[derive(Drop)]
pub struct PackedRows {
    width: usize,
    /// For each kept row, how many rows there are up to its last one.
    ends: Vec<usize>,
    /// The kept rows, one after the other.
    values: PackedNumbers,
}

impl Model for PackedRows {
    ghost use Rattle.pef_labels.specs.Kept.Packed.{numbers_at};
    ghost use Rattle.pef_labels.specs.Rows.{LaidRows, RowsFull, rows_from};

    ghost Value = { LaidRows };

    ghost view = { λ r. record { width = r.width; rows = rows_from r.width 0 r.ends.items (numbers_at 0 r.values.steps.items r.values.far.items) } };

    ghost invariant = { λ r. RowsFull r.width r.ends.items (numbers_at 0 r.values.steps.items r.values.far.items) };
}

/// Rows in their packed form, of which none was read yet.
#[derive(Drop)]
pub struct PackedKept<'a> {
    /// How many labels a row has.
    pub width: usize,
    /// For each kept row, how many rows there are up to its last one.
    pub ends: &'a [usize],
    /// The kept rows, one after the other.
    pub numbers: NumbersLeft<'a>,
}

impl PackedRows {
    /// Packs rows, so that they take little memory.
    ///
    /// # Errors
    ///
    /// If an allocation fails.
    pub fn pack(alloc: Global, rows: LabelRows) -> Result<PackedRows, AllocError>
        ensures { IfOk result (λ packed. packed ≡ rows) }
    {
        let width = rows.width();
        let (ends, values) = rows.into_kept();
        let values = PackedNumbers::pack(alloc, &values)?;
        Ok(PackedRows {
            width,
            ends,
            values,
        })
    }

    /// Returns how many rows there are.
    pub fn rows(&self) -> usize
        ensures { result ≡ length self.now.rows }
    {
        match self.ends.last() {
            Some(end) => *end,
            None => 0,
        }
    }

    /// Returns the rows in their packed form, in which no two neighbours are equal.
    pub fn kept(&self) -> PackedKept<'_>
        ensures width { result.width ≡ self.now.width }
        ensures rows { self.now.rows ≡ rows_from result.width 0 result.ends.now result.numbers }
        ensures full { RowsFull result.width result.ends.now result.numbers }
    {
        PackedKept {
            width: self.width,
            ends: &self.ends,
            numbers: NumbersLeft {
                before: 0,
                steps: &self.values.steps,
                far: &self.values.far,
            },
        }
    }
}
