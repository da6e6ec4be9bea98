ghost use Rattle.std.specs.Prelude.{◌≡◌, ◌+◌, ◌*◌, ◌^◌, ◌<◌, ◌≤◌, ◌++◌, ◌∷◌, [], ℕ, IfOk, OnOk, length, map, reverse, slice_index, slice_index_or, take};
ghost use Rattle.pef_plan.specs.Kept.Rows.{SmallLine};
ghost use Rattle.pef_plan.specs.Windows.Tables.{Close};

use crate::windows::table::zeros;
use pef_cert::LabelRows;
use std::alloc::{AllocError, Global};
use std::marker::Model;

/// How much two numbers of a row can differ.
const APART: u32 = 2;

/// Rows of numbers of the same width, one after the other. Two numbers of a row differ by at most 2, so that each
/// takes one byte.
#[derive(Drop)]
pub struct CloseRows {
    width: usize,
    /// For each row, a number that none of its numbers is below.
    lows: Vec<u32>,
    /// The numbers of the rows, less those of `lows`.
    steps: Vec<u8>,
}

impl Model for CloseRows {
    ghost use Rattle.pef_labels.specs.Rows.{LaidRows};
    ghost use Rattle.pef_plan.specs.Windows.Kept.{CloseFull};
    ghost use Rattle.pef_plan.specs.Windows.Tables.{close_rows};

    ghost Value = { LaidRows };

    ghost view = { λ r. record { width = r.width; rows = close_rows r.width r.lows.items r.steps.items } };

    ghost invariant = { λ r. CloseFull r.width r.lows.items r.steps.items };
}

impl CloseRows {
    /// Returns no rows, with this width and with room for a number of rows.
    ///
    /// # Errors
    ///
    /// `AllocError`, if an allocation failed.
    pub fn with_capacity(alloc: Global, width: usize, rows: usize) -> Result<CloseRows, AllocError>
        requires room { rows * width < 2 ^ 64 }
        ensures { IfOk result (λ r. r ≡ record { width = width; rows = [] }) }
    {
        let lows = Vec::with_capacity(alloc, rows)?;
        let steps = Vec::with_capacity(alloc, rows * width)?;
        Ok(CloseRows { width, lows, steps })
    }

    /// Adds a row after the last one.
    ///
    /// # Errors
    ///
    /// `AllocError`, if an allocation failed.
    #[inline(always)]
    pub fn push(&mut self, row: &[u32]) -> Result<(), AllocError>
        requires wide { length row.now ≡ self.old.width }
        requires small { SmallLine (length row.now) row.now }
        requires close { Close row.now }
        ensures { OnOk result (self.new ≡ record { width = self.old.width; rows = self.old.rows ++ row.now ∷ [] }) }
    {
        let low = low_of(row);
        self.lows.reserve(1)?;
        let start = self.steps.len();
        self.steps.resize(start + row.len(), 0)?;
        let (_, steps) = self.steps.split_at_mut(start);
        fill_steps(row, low, steps);
        self.lows.push(low)?;
        Ok(())
    }

    /// Returns the number at a place of a row.
    #[inline(always)]
    pub fn number(&self, index: usize, place: usize) -> u32
        requires index { index < length self.now.rows }
        requires place { place < self.now.width }
        ensures { result ≡ slice_index (slice_index_or self.now.rows index []) place }
    {
        self.lows[index] + u32::from(self.steps[index * self.width + place])
    }

    /// Copies the row at an index.
    #[inline(always)]
    pub fn copy_row(&self, index: usize, row: &mut [u32])
        requires index { index < length self.now.rows }
        requires wide { length row.old ≡ self.now.width }
        ensures { row.new ≡ slice_index_or self.now.rows index [] }
    {
        let (_, steps) = self.steps.split_at(index * self.width);
        raise(self.lows[index], steps, row);
    }

    /// Returns the rows from the last to the first.
    ///
    /// # Errors
    ///
    /// `AllocError`, if an allocation failed.
    pub fn reversed(&self, alloc: Global) -> Result<LabelRows, AllocError>
        ensures { IfOk result (λ rows. rows ≡ record { width = self.now.width; rows = reverse self.now.rows }) }
    {
        let mut row = zeros(alloc, self.width)?;
        let mut rows = LabelRows::new(alloc, self.width);
        let mut left = self.lows.len();
        'rows: while left > 0 {
            left -= 1;
            self.copy_row(left, &mut row);
            rows.push(&row)?;
        }
        Ok(rows)
    }
}

/// Returns a number that none of a row is below.
#[inline(always)]
fn low_of(row: &[u32]) -> u32
    requires small { SmallLine (length row.now) row.now }
    requires close { Close row.now }
    ensures small { result ≤ 1048576 }
    ensures low { (i : ℕ) → i < length row.now → result ≤ slice_index row.now i }
    ensures near { (i : ℕ) → i < length row.now → slice_index row.now i ≤ result + 4 }
{
    match row.first() {
        Some(first) => first.saturating_sub(APART),
        None => 0,
    }
}

/// Fills in the numbers of a row, less `low`.
#[inline(always)]
fn fill_steps(row: &[u32], low: u32, steps: &mut [u8])
    requires len { length steps.old ≡ length row.now }
    requires low { (i : ℕ) → i < length row.now → low ≤ slice_index row.now i }
    requires near { (i : ℕ) → i < length row.now → slice_index row.now i ≤ low + 4 }
    ensures len { length steps.new ≡ length steps.old }
    ensures are { map (λ step. low + step) steps.new ≡ row.now }
{
    'places: for place in 0..steps.len() {
        steps[place] = (row[place] - low) as u8;
    }
}

/// Fills in the numbers of a row: those of `steps` plus `low`.
#[inline(always)]
fn raise(low: u32, steps: &[u8], row: &mut [u32])
    requires small { low ≤ 1048576 }
    requires len { length row.old ≤ length steps.now }
    ensures { row.new ≡ map (λ step. low + step) (take (length row.old) steps.now) }
{
    'places: for place in 0..row.len() {
        row[place] = low + u32::from(steps[place]);
    }
}
