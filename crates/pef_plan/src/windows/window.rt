ghost use Rattle.std.specs.Prelude.{◌≡◌, ◌+◌, ◌-◌, ◌*◌, ◌<◌, ◌≤◌, ◌∷◌, ℕ, [], List, OnOk, length, min, slice_index, take};
ghost use Rattle.pef_plan.specs.Windows.Windows.{BestOf, LesserOf, LowToNext, RowAdded, WindowOf, rows_brought};

use crate::windows::looks::Looks;
use std::alloc::{AllocError, Global};
use std::marker::Model;

/// The newest rows of numbers, up to a maximum count, with the least number at each place.
///
/// The rows are kept in two parts. The newer rows are kept unchanged. In place of each older row, the minimum
/// of it and all later older rows is kept. So the oldest row can be removed, and the other minima stay correct.
#[derive(Debug, Drop)]
pub struct Window {
    width: usize,
    limit: usize,
    /// The number of older rows.
    older: usize,
    /// The number of newer rows.
    newer: usize,
    /// The numbers of up to `limit` rows. The newer rows are the first ones, the newest last. The minima in place
    /// of the older rows are the last ones, the oldest first.
    values: Vec<u32>,
    /// The least number of the newer rows at each place, if there are any.
    low: Vec<u32>,
}

impl Model for Window {
    ghost use Rattle.pef_plan.specs.Windows.Windows.{Windowed};
    ghost use Rattle.pef_plan.specs.Windows.Kept.{WindowFull};

    ghost Value = { Windowed };

    ghost view = { λ w. record { width = w.width; limit = w.limit; older = w.older; newer = w.newer; values = w.values.items; low = w.low.items } };

    ghost invariant = { λ w. WindowFull w.width w.limit w.older w.newer w.values.items w.low.items };
}

impl Window {
    /// Returns a window without rows, for up to `limit` rows of a width.
    pub fn new(alloc: Global, width: usize, limit: usize) -> Window
        requires { 0 < limit }
        ensures { WindowOf width limit [] result }
    {
        Window {
            width,
            limit,
            older: 0,
            newer: 0,
            values: Vec::new(alloc),
            low: Vec::new(alloc),
        }
    }

    /// Removes all rows.
    #[inline(always)]
    pub fn clear(&mut self)
        ensures width { self.new.width ≡ self.old.width }
        ensures gone { (width limit : ℕ) (rows : List (List ℕ)) → WindowOf width limit rows self.old → WindowOf width limit [] self.new }
    {
        self.older = 0;
        self.newer = 0;
    }

    /// Moves the window to a place at which a run begins. Older rows stay only if the run goes on after its first
    /// unit.
    ///
    /// # Errors
    ///
    /// `AllocError`, if an allocation failed. The window's rows are unspecified then.
    #[inline(always)]
    pub fn bring(&mut self, goes_on: bool, row: &[u32], looks: Looks<'_>) -> Result<(), AllocError>
        requires { length row.now ≡ self.old.width }
        ensures { OnOk result ((width limit : ℕ) (rows : List (List ℕ)) → WindowOf width limit rows self.old → WindowOf width limit (rows_brought goes_on limit rows row.now) self.new) }
    {
        if !goes_on {
            self.clear();
        }
        self.add(row, looks)
    }

    /// Adds a row, and removes the oldest one if there are too many. Each number of a row is looked at when the
    /// row is added, which the caller counts, and once more when it becomes an older row. Reading a kept minimum is
    /// no look.
    ///
    /// # Errors
    ///
    /// `AllocError`, if an allocation failed. The window's rows are unspecified then.
    #[inline(always)]
    pub fn add(&mut self, row: &[u32], looks: Looks<'_>) -> Result<(), AllocError>
        requires { length row.now ≡ self.old.width }
        ensures { OnOk result ((width limit : ℕ) (rows : List (List ℕ)) → WindowOf width limit rows self.old → WindowOf width limit (row.now ∷ take (limit - 1) rows) self.new) }
    {
        self.make_room(looks);
        let start = self.newer * self.width;
        self.reserve(start, row)?;
        self.write(start, row);
        Ok(())
    }

    /// Removes the oldest row if the window is full.
    #[inline(always)]
    fn make_room(&mut self, looks: Looks<'_>)
        ensures width { self.new.width ≡ self.old.width }
        ensures free { self.new.older + self.new.newer < self.new.limit }
        ensures room { (width limit : ℕ) (rows : List (List ℕ)) → WindowOf width limit rows self.old → WindowOf width limit (take (limit - 1) rows) self.new }
    {
        if self.older + self.newer < self.limit {
            return;
        }
        if self.older == 0 {
            self.age(looks);
        }
        self.older -= 1;
    }

    /// Turns the newer rows into older ones. All rows of the full window are newer ones.
    #[inline(never)]
    fn age(&mut self, looks: Looks<'_>)
        requires full { self.old.newer ≡ self.old.limit }
        ensures width { self.new.width ≡ self.old.width }
        ensures limit { self.new.limit ≡ self.old.limit }
        ensures older { self.new.older ≡ self.old.limit }
        ensures newer { self.new.newer ≡ 0 }
        ensures same { (width limit : ℕ) (rows : List (List ℕ)) → WindowOf width limit rows self.old → WindowOf width limit rows self.new }
    {
        let count = self.limit * self.width;
        looks.add(count as u64);
        lower_to_next(&mut self.values, self.width, count);
        self.older = self.limit;
        self.newer = 0;
    }

    /// Ensures that the numbers have room for one more newer row.
    #[inline(always)]
    fn reserve(&mut self, start: usize, row: &[u32]) -> Result<(), AllocError>
        requires start { start ≡ self.old.newer * self.old.width }
        requires wide { length row.now ≡ self.old.width }
        requires free { self.old.older + self.old.newer < self.old.limit }
        ensures width { self.new.width ≡ self.old.width }
        ensures limit { self.new.limit ≡ self.old.limit }
        ensures older { self.new.older ≡ self.old.older }
        ensures newer { self.new.newer ≡ self.old.newer }
        ensures room { OnOk result (self.old.newer * self.old.width + self.old.width ≤ length self.new.values) }
        ensures low { OnOk result (self.old.width ≤ length self.new.low) }
        ensures same { OnOk result ((width limit : ℕ) (rows : List (List ℕ)) → WindowOf width limit rows self.old → WindowOf width limit rows self.new) }
    {
        if self.values.len() - start < row.len() {
            return self.grow(start + row.len());
        }
        Ok(())
    }

    /// Lengthens the list of numbers to a count. The rows stay the same.
    #[inline(never)]
    fn grow(&mut self, count: usize) -> Result<(), AllocError>
        requires some { 0 < self.old.width }
        requires more { length self.old.values < count }
        ensures width { self.new.width ≡ self.old.width }
        ensures limit { self.new.limit ≡ self.old.limit }
        ensures older { self.new.older ≡ self.old.older }
        ensures newer { self.new.newer ≡ self.old.newer }
        ensures count { OnOk result (length self.new.values ≡ count) }
        ensures low { OnOk result (length self.new.low ≡ self.old.width) }
        ensures same { OnOk result ((width limit : ℕ) (rows : List (List ℕ)) → WindowOf width limit rows self.old → WindowOf width limit rows self.new) }
    {
        self.low.resize(self.width, 0)?;
        self.values.resize(count, 0)
    }

    /// Writes a newer row into the numbers.
    #[inline(always)]
    fn write(&mut self, start: usize, row: &[u32])
        requires start { start ≡ self.old.newer * self.old.width }
        requires wide { length row.now ≡ self.old.width }
        requires free { self.old.older + self.old.newer < self.old.limit }
        requires room { self.old.newer * self.old.width + self.old.width ≤ length self.old.values }
        requires low { self.old.width ≤ length self.old.low }
        ensures { (width limit : ℕ) (rows : List (List ℕ)) → WindowOf width limit rows self.old → WindowOf width limit (row.now ∷ rows) self.new }
    {
        if self.newer == 0 {
            write_first(row, &mut self.values, &mut self.low);
        } else {
            write_next(row, start, &mut self.values, &mut self.low);
        }
        self.newer += 1;
    }

    /// Lowers each number of a line to 1 plus the least number at its place.
    #[inline(always)]
    pub fn lower(&self, line: &mut [u32])
        requires { length line.old ≡ self.now.width }
        ensures len { length line.new ≡ length line.old }
        ensures best { (width limit : ℕ) (rows : List (List ℕ)) (place : ℕ) → WindowOf width limit rows self.now → place < length line.old → BestOf (slice_index line.old place) rows place (slice_index line.new place) }
    {
        self.lower_older(line);
        if self.newer == 0 {
            return;
        }
        lower_line(line, &self.low);
    }

    /// Does the same with the older rows alone.
    #[inline(always)]
    fn lower_older(&self, line: &mut [u32])
        requires { length line.old ≡ self.now.width }
        ensures len { length line.new ≡ length line.old }
        ensures best { (width limit : ℕ) (rows : List (List ℕ)) (place : ℕ) → (window : WindowOf width limit rows self.now) → place < length line.old → BestOf (slice_index line.old place) window.older place (slice_index line.new place) }
    {
        if self.older == 0 {
            return;
        }
        let (_, oldest) = self.values.split_at((self.limit - self.older) * self.width);
        lower_line(line, oldest);
    }

    /// Returns the least of a number and, for each row, 1 plus its number at a place.
    #[inline(always)]
    pub fn best(&self, first: u64, place: usize) -> u64
        requires { place < self.now.width }
        ensures { (width limit : ℕ) (rows : List (List ℕ)) → WindowOf width limit rows self.now → BestOf first rows place result }
    {
        let best = self.older_best(first, place);
        if self.newer == 0 {
            best
        } else {
            best.min(1 + u64::from(self.low[place]))
        }
    }

    /// Returns the least of a number and, for each older row, 1 plus its number at a place.
    #[inline(always)]
    fn older_best(&self, first: u64, place: usize) -> u64
        requires { place < self.now.width }
        ensures { (width limit : ℕ) (rows : List (List ℕ)) → (window : WindowOf width limit rows self.now) → BestOf first window.older place result }
    {
        if self.older == 0 {
            return first;
        }
        let oldest = (self.limit - self.older) * self.width;
        first.min(1 + u64::from(self.values[oldest + place]))
    }
}

/// Lowers each number of a line to 1 plus the number at its place in another one.
#[inline(always)]
fn lower_line(line: &mut [u32], others: &[u32])
    requires { length line.old ≤ length others.now }
    ensures len { length line.new ≡ length line.old }
    ensures lower { (i : ℕ) → i < length line.old → slice_index line.new i ≡ min (slice_index line.old i) (1 + slice_index others.now i) }
{
    'places: for place in 0..line.len() {
        line[place] = line[place].min(others[place].saturating_add(1));
    }
}

/// Lowers each of the first `count` numbers to the least one at its place in its row and all later rows.
fn lower_to_next(values: &mut [u32], width: usize, count: usize)
    requires some { width ≤ count }
    requires inside { count ≤ length values.old }
    ensures len { length values.new ≡ length values.old }
    ensures lower { LowToNext width count values.old values.new }
{
    let mut place = count - width;
    'places: while place > 0 {
        place -= 1;
        values[place] = values[place].min(values[place + width]);
    }
}

/// Writes a row at the front of the numbers, and also as the least numbers.
#[inline(always)]
fn write_first(row: &[u32], values: &mut [u32], low: &mut [u32])
    requires values { length row.now ≤ length values.old }
    requires low { length row.now ≤ length low.old }
    ensures values_len { length values.new ≡ length values.old }
    ensures low_len { length low.new ≡ length low.old }
    ensures added { RowAdded row.now 0 values.old values.new }
    ensures first { (i : ℕ) → i < length row.now → slice_index low.new i ≡ slice_index row.now i }
{
    'places: for place in 0..row.len() {
        values[place] = row[place];
        low[place] = row[place];
    }
}

/// Writes a row at an index of the numbers, and lowers the least numbers to include the row.
#[inline(always)]
fn write_next(row: &[u32], start: usize, values: &mut [u32], low: &mut [u32])
    requires values { start + length row.now ≤ length values.old }
    requires low { length row.now ≤ length low.old }
    ensures values_len { length values.new ≡ length values.old }
    ensures low_len { length low.new ≡ length low.old }
    ensures added { RowAdded row.now start values.old values.new }
    ensures lesser { LesserOf (length row.now) low.old row.now low.new }
{
    'places: for place in 0..row.len() {
        let number = row[place];
        values[start + place] = number;
        if number < low[place] {
            low[place] = number;
        }
    }
}
