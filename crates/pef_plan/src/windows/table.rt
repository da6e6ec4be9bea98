ghost use Rattle.std.specs.Prelude.{◌≡◌, ◌+◌, ◌^◌, ◌<◌, ◌++◌, ◌∷◌, [], IfOk, OnErr, OnOk, length, replicate, slice_index_or};

use std::alloc::{AllocError, Global};
use std::marker::Model;

/// Rows of numbers of the same width, one after the other.
#[derive(Debug, Drop)]
pub struct Table {
    width: usize,
    rows: usize,
    /// The numbers of the rows.
    values: Vec<u32>,
}

impl Model for Table {
    ghost use Rattle.std.specs.Prelude.{◌≡◌, ◌*◌, length};
    ghost use Rattle.pef_labels.specs.Rows.{LaidRows};
    ghost use Rattle.pef_plan.specs.Windows.Tables.{rows_of};

    ghost Value = { LaidRows };

    ghost view = { λ t. record { width = t.width; rows = rows_of t.rows t.width t.values.items } };

    ghost invariant = { λ t. t.rows * t.width ≡ length t.values.items };
}

impl Table {
    /// Returns a table without rows, for rows of a width.
    pub fn new(alloc: Global, width: usize) -> Table
        ensures { result ≡ record { width = width; rows = [] } }
    {
        Table {
            width,
            rows: 0,
            values: Vec::new(alloc),
        }
    }

    /// Adds a row after the last one.
    ///
    /// # Errors
    ///
    /// `AllocError`, if the allocation failed. The rows are unchanged then.
    #[inline(always)]
    pub fn push(&mut self, row: &[u32]) -> Result<(), AllocError>
        requires wide { length row.now ≡ self.old.width }
        requires room { length self.old.rows + 1 < 2 ^ 64 }
        ensures ok { OnOk result (self.new ≡ record { width = self.old.width; rows = self.old.rows ++ row.now ∷ [] }) }
        ensures err { OnErr result (self.new ≡ self.old) }
    {
        self.values.extend_from_slice(row)?;
        self.rows += 1;
        Ok(())
    }

    /// Returns the row at an index.
    #[inline(always)]
    pub fn row(&self, index: usize) -> &[u32]
        requires { index < length self.now.rows }
        ensures is { result.now ≡ slice_index_or self.now.rows index [] }
        ensures wide { length result.now ≡ self.now.width }
    {
        let (_, rest) = self.values.split_at(index * self.width);
        let (row, _) = rest.split_at(self.width);
        row
    }
}

/// Returns `count` zeros.
///
/// # Errors
///
/// `AllocError`, if the allocation failed.
pub fn zeros(alloc: Global, count: usize) -> Result<Vec<u32>, AllocError>
    ensures are { IfOk result (λ numbers. numbers.items ≡ replicate count 0) }
    ensures len { IfOk result (λ numbers. length numbers.items ≡ count) }
{
    let mut numbers = Vec::new(alloc);
    numbers.resize(count, 0)?;
    Ok(numbers)
}
