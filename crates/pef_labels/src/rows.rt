ghost use Rattle.std.specs.Prelude.{◌≡◌, ◌≢◌, ◌↔◌, ℕ, ◌+◌, ◌*◌, ◌^◌, ◌<◌, ◌≤◌, ◌++◌, IfSome, IsSome, IsTrue, List, MatchOption, OnErr, OnOk, [], ◌∷◌, drop, false, length, replicate, slice_index_or, take, true};
ghost use Rattle.pef_labels.specs.Kept.RowsKept.{EndsWith, PlaceOf};
ghost use Rattle.pef_labels.specs.Rising.{above_all};
ghost use Rattle.pef_labels.specs.Rows.{NeighboursDiffer, RowsFull, rows_from};

use std::alloc::{AllocError, Global};
use std::marker::Model;

/// Labels in rows, all of one width. Equal neighbouring rows are kept once.
#[derive(Debug, Drop)]
pub struct LabelRows {
    width: usize,
    /// For each kept row, how many rows there are up to its last one.
    ends: Vec<usize>,
    /// The kept rows, one after the other.
    values: Vec<u32>,
}

impl Model for LabelRows {
    ghost use Rattle.pef_labels.specs.Rows.{LaidRows, RowsFull, rows_from};

    ghost Value = { LaidRows };

    ghost view = { λ r. record { width = r.width; rows = rows_from r.width 0 r.ends.items r.values.items } };

    ghost invariant = { λ r. RowsFull r.width r.ends.items r.values.items };
}

/// Rows as they are kept.
#[derive(Clone, Copy, Debug)]
pub struct KeptRows<'a> {
    /// How many labels a row has.
    pub width: usize,
    /// For each kept row, how many rows there are up to its last one.
    pub ends: &'a [usize],
    /// The kept rows, one after the other.
    pub values: &'a [u32],
}

impl LabelRows {
    /// Returns no rows, with this width.
    pub fn new(alloc: Global, width: usize) -> LabelRows
        ensures { result ≡ record { width = width; rows = [] } }
    {
        LabelRows {
            width,
            ends: Vec::new(alloc),
            values: Vec::new(alloc),
        }
    }

    /// Returns rows with this width from their kept form: for each kept row, how many rows there are up to its
    /// last one; and the kept rows, one after the other. `None` if this isn't the kept form of any rows.
    pub fn from_kept(width: usize, ends: Vec<usize>, values: Vec<u32>) -> Option<LabelRows>
        ensures kept { IsSome result ↔ RowsFull width ends.items values.items }
        ensures rows { IfSome result (λ rows. rows ≡ record { width = width; rows = rows_from width 0 ends.items values.items }) }
    {
        if !are_kept(width, &ends, &values) {
            return None;
        }
        Some(LabelRows {
            width,
            ends,
            values,
        })
    }

    /// Returns the kept form of the rows, from which `from_kept` makes them again.
    pub fn into_kept(self) -> (Vec<usize>, Vec<u32>)
        ensures rows { self.rows ≡ rows_from self.width 0 result.0.items result.1.items }
        ensures full { RowsFull self.width result.0.items result.1.items }
    {
        (self.ends, self.values)
    }

    /// Returns how many labels a row has.
    pub fn width(&self) -> usize
        ensures { result ≡ self.now.width }
    {
        self.width
    }

    /// Returns how many rows there are.
    #[inline(always)]
    pub fn rows(&self) -> usize
        ensures { result ≡ length self.now.rows }
    {
        match self.ends.last() {
            Some(end) => *end,
            None => 0,
        }
    }

    /// Puts a row after the others. A row that equals the last one allocates nothing.
    ///
    /// # Errors
    ///
    /// If an allocation fails, the rows are unchanged.
    #[inline(always)]
    pub fn push(&mut self, row: &[u32]) -> Result<(), AllocError>
        requires wide { length row.now ≡ self.old.width }
        requires room { length self.old.rows + 1 < 2 ^ 64 }
        ensures ok { OnOk result (self.new ≡ record { width = self.old.width; rows = self.old.rows ++ row.now ∷ [] }) }
        ensures err { OnErr result (self.new ≡ self.old) }
    {
        self.push_many(row, 1)
    }

    /// Puts a row after the others, this many times. It is kept once, and allocates nothing if it equals the
    /// last one.
    ///
    /// # Errors
    ///
    /// If an allocation fails, the rows are unchanged.
    #[inline(always)]
    pub fn push_many(&mut self, row: &[u32], count: usize) -> Result<(), AllocError>
        requires wide { length row.now ≡ self.old.width }
        requires room { length self.old.rows + count < 2 ^ 64 }
        ensures ok { OnOk result (self.new ≡ record { width = self.old.width; rows = self.old.rows ++ replicate count row.now }) }
        ensures err { OnErr result (self.new ≡ self.old) }
    {
        if count == 0 {
            return Ok(());
        }
        let end = self.rows() + count;
        if end_with(&self.ends, &self.values, row) {
            let last = self.ends.len() - 1;
            self.ends[last] = end;
            return Ok(());
        }
        self.ends.reserve(1)?;
        self.values.extend_from_slice(row)?;
        self.ends.push(end)?;
        Ok(())
    }

    /// Returns an iterator over the rows that takes equal neighbours together.
    pub fn runs(&self) -> LabelRuns<'_>
        ensures { result ≡ self.now.rows }
    {
        LabelRuns {
            width: self.width,
            passed: 0,
            ends: self.ends.as_slice(),
            values: self.values.as_slice(),
        }
    }

    /// Returns the row at an index. This takes steps by the logarithm of the number of kept rows.
    #[inline(always)]
    pub fn row(&self, index: usize) -> &[u32]
        requires { index < length self.now.rows }
        ensures is { result.now ≡ slice_index_or self.now.rows index [] }
        ensures wide { length result.now ≡ self.now.width }
    {
        let kept = self.kept();
        kept.row(kept.place_of(index))
    }

    /// Returns the rows in their kept form, in which no two neighbours are equal.
    #[inline(always)]
    pub fn kept(&self) -> KeptRows<'_>
        ensures width { result.width ≡ self.now.width }
        ensures rows { self.now.rows ≡ rows_from result.width 0 result.ends.now result.values.now }
        ensures full { RowsFull result.width result.ends.now result.values.now }
    {
        KeptRows {
            width: self.width,
            ends: self.ends.as_slice(),
            values: self.values.as_slice(),
        }
    }
}

impl<'a> KeptRows<'a> {
    /// Returns the place of the kept row that the row at an index equals.
    #[inline(always)]
    fn place_of(self, index: usize) -> usize
        requires full { RowsFull self.width self.ends.now self.values.now }
        requires inside { index < length (rows_from self.width 0 self.ends.now self.values.now) }
        ensures { PlaceOf self.entry.ends.now index result }
    {
        self.ends.partition_point(|end| *end <= index)
    }

    /// Returns a kept row.
    #[inline(always)]
    fn row(self, place: usize) -> &'a [u32]
        requires full { RowsFull self.width self.ends.now self.values.now }
        requires inside { place < length self.ends.now }
        ensures is { result.now ≡ take self.entry.width (drop (place * self.entry.width) self.entry.values.now) }
        ensures wide { length result.now ≡ self.entry.width }
    {
        let (_, rest) = self.values.split_at(place * self.width);
        let (row, _) = rest.split_at(self.width);
        row
    }
}

/// Returns whether there are kept rows, and their values end with those of a row.
#[inline(always)]
fn end_with(ends: &[usize], values: &[u32], row: &[u32]) -> bool
    ensures yes { result ≡ true → EndsWith ends.now values.now row.now }
    ensures no { result ≡ false → 0 < length ends.now → (front : List ℕ) → values.now ≢ front ++ row.now }
{
    !ends.is_empty() && values.ends_with(row)
}

/// Returns whether these ends and values are the kept form of rows.
fn are_kept(width: usize, ends: &[usize], values: &[u32]) -> bool
    ensures { IsTrue result ↔ RowsFull width ends.now values.now }
{
    ends_rise(ends)
        && width.checked_mul(ends.len()) == Some(values.len())
        && neighbours_differ(width, ends.len().saturating_sub(1), values)
}

/// Returns whether ends rise, from above 0.
fn ends_rise(ends: &[usize]) -> bool
    ensures { result ≡ above_all 0 ends.now }
{
    let mut low = 0;
    for end in ends {
        if *end <= low {
            return false;
        }
        low = *end;
    }
    true
}

/// Returns whether each of the first `count` rows differs from the one after it.
fn neighbours_differ(width: usize, count: usize, values: &[u32]) -> bool
    requires { width * count ≤ length values.now }
    ensures { IsTrue result ↔ NeighboursDiffer width count values.now }
{
    let mut rest = values;
    let mut left = count;
    'rows: while left > 0 {
        let (row, others) = rest.split_at(width);
        if others.starts_with(row) {
            return false;
        }
        rest = others;
        left -= 1;
    }
    true
}

/// An iterator over rows.
#[derive(Debug, Drop)]
pub struct LabelRuns<'a> {
    width: usize,
    /// How many rows were passed.
    passed: usize,
    ends: &'a [usize],
    values: &'a [u32],
}

impl<'a> Model for LabelRuns<'a> {
    ghost use Rattle.std.specs.Prelude.{List, ℕ};
    ghost use Rattle.pef_labels.specs.Rows.{RunsFull, rows_from};

    ghost Value = { List (List ℕ) };

    ghost view = { λ r. rows_from r.width r.passed r.ends.now r.values.now };

    ghost invariant = { λ r. RunsFull r.width r.passed r.ends.now r.values.now };
}

/// Equal rows, one after another.
#[derive(Clone, Copy, Debug)]
pub struct LabelRun<'a> {
    /// How many there are.
    pub rows: usize,
    /// The labels of each.
    pub labels: &'a [u32],
}

impl<'a> LabelRuns<'a> {
    /// Returns the next equal rows: one or more, and all that follow one another. `None` after the last.
    pub fn next_run(&mut self) -> Option<LabelRun<'a>>
        ensures run { MatchOption result (self.old ≡ []) (λ run. (0 < run.rows) × (self.old ≡ replicate run.rows run.labels.now ++ self.new)) }
        ensures whole { IfSome result (λ run. (others : List (List ℕ)) → self.new ≢ run.labels.now ∷ others) }
    {
        let (end, ends) = self.ends.split_first()?;
        let (labels, values) = self.values.split_at(self.width);
        let rows = *end - self.passed;
        self.passed = *end;
        self.ends = ends;
        self.values = values;
        Some(LabelRun { rows, labels })
    }
}
