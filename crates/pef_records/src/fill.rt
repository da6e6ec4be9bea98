//! Rows, and the caller's places that are filled with them.
ghost use Rattle.std.specs.Prelude.{◌≡◌, ◌∷◌, ℕ, [], List, MatchOption, Option, drop, length, map, option_map};
ghost use Rattle.pef_records.specs.Buffers.{FillsPart, filled, fitting};

/// A table whose rows are read by their numbers.
pub trait Table<R: Drop> {
    /// What a row holds.
    ghost Held: { Type 0 };

    ghost shown: { R → Held };

    /// The row with a number, if it is there.
    ghost row_at: { Self → ℕ → Option Held };

    /// Returns the row with a number.
    fn row(&mut self, i: usize) -> Option<R>
        ensures value { option_map shown result ≡ row_at self.old i }
        ensures same { row_at self.new ≡ row_at self.old };
}

/// Fills the first places with the first `many` rows of a table from number `from` on, and returns how many they are. The place
/// of a row that isn't there stays as it is.
pub fn fill_table<R: Drop, T: Table<R>>(
    table: &mut T,
    many: usize,
    from: usize,
    places: &mut [R],
) -> usize
    ensures count { result ≡ fitting many from (length places.old) }
    ensures rows { map T.shown places.new ≡ filled (T.row_at table.old) from result (map T.shown places.old) }
{
    let count = places.len().min(many.saturating_sub(from));
    for k in 0..count {
        match table.row(from + k) {
            Some(row) => places[k] = row,
            None => {}
        }
    }
    count
}

/// Rows that are read one after the other.
pub trait Rows<R: Drop> {
    /// What a row holds.
    ghost Held: { Type 0 };

    ghost shown: { R → Held };

    /// The rows that are left.
    ghost left: { Self → List Held };

    /// Returns the next row, or `None` if none is left.
    fn take_row(&mut self) -> Option<R>
        ensures { MatchOption result ((left self.old ≡ []) × (left self.new ≡ [])) (λ r. left self.old ≡ shown r ∷ left self.new) };
}

/// Fills the first places with the rows from number `from` on, and returns how many they are.
pub fn fill_rows<R: Drop, I: Rows<R>>(rows: &mut I, from: usize, places: &mut [R]) -> usize
    ensures { FillsPart (I.left rows.old) from (map I.shown places.old) (map I.shown places.new) result }
{
    pass(rows, from);
    fill(rows, places)
}

/// Passes the next `count` rows, or all if there are fewer.
fn pass<R: Drop, I: Rows<R>>(rows: &mut I, count: usize)
    ensures { I.left rows.new ≡ drop count (I.left rows.old) }
{
    'passed: for _ in 0..count {
        match rows.take_row() {
            Some(_) => {}
            None => return,
        }
    }
}

/// Fills the first places with the next rows, and returns how many they are.
fn fill<R: Drop, I: Rows<R>>(rows: &mut I, places: &mut [R]) -> usize
    ensures { FillsPart (I.left rows.old) 0 (map I.shown places.old) (map I.shown places.new) result }
{
    let mut count = 0;
    'filled: while count < places.len() {
        match rows.take_row() {
            Some(row) => {
                places[count] = row;
                count += 1;
            }
            None => return count,
        }
    }
    count
}
