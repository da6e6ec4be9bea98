ghost use Rattle.std.specs.Prelude.{◌≡◌, ◌+◌, ◌<◌, ◌≤◌, ◌^◌, length};
ghost use Rattle.pef_loader.specs.Kept.Blocks.{AreEmpty, AreOwners, AreSteps, IsPainted, IsStep, cell_library};

use crate::header::LoaderTables;
use crate::ranges::imports_of;
use pef_words::Cut;
use std::ops::Range;

/// The cell of an import without a library. No library has this number.
pub(crate) const NO_LIBRARY: u32 = u32::MAX;

/// Returns the number of the library that a cell holds.
pub(crate) fn library_in(cell: u32) -> Option<usize>
    ensures { result ≡ cell_library cell }
{
    if cell == NO_LIBRARY {
        return None;
    }
    Some(cell as usize)
}

/// Paints the cells of the imports from number `from` on, each with the first library that has its import.
///
/// At first each cell is empty. The step of a cell leads to a later cell, and all cells between the two are
/// painted. At first each step is 1.
pub(crate) fn paint_owners(
    tables: LoaderTables<'_>,
    from: usize,
    cells: &mut [u32],
    steps: &mut [u16],
)
    requires few { length cells.old < 2 ^ 16 }
    requires empty { AreEmpty cells.old }
    requires steps { AreSteps cells.old steps.old }
    ensures owners { AreOwners tables.entry.cut.bytes.now tables.entry.header from cells.new }
    ensures len { length cells.new ≡ length cells.old }
{
    for i in 0..tables.header.library_count as usize {
        let imports = imports_of(tables.cut, i);
        let start = imports.start.saturating_sub(from).min(cells.len());
        let end = imports.end.saturating_sub(from).min(cells.len());
        paint(cells, steps, start..end, i as u32);
    }
}

/// Writes a library into the cells of its imports that are still empty.
fn paint(cells: &mut [u32], steps: &mut [u16], imports: Range<usize>, library: u32)
    requires few { length cells.old < 2 ^ 16 }
    requires order { imports.start ≤ imports.end }
    requires within { imports.end ≤ length cells.old }
    requires steps { AreSteps cells.old steps.old }
    ensures painted { IsPainted cells.old cells.new imports.start imports.end library }
    ensures steps { AreSteps cells.new steps.new }
{
    let mut k = imports.start;
    while k < imports.end {
        k = paint_cell(cells, steps, k, library);
    }
}

/// Writes a library into a cell if the cell is empty, and returns the next cell to look at.
fn paint_cell(cells: &mut [u32], steps: &mut [u16], k: usize, library: u32) -> usize
    requires few { length cells.old < 2 ^ 16 }
    requires within { k < length cells.old }
    requires steps { AreSteps cells.old steps.old }
    ensures painted { IsPainted cells.old cells.new k (k + 1) library }
    ensures steps { AreSteps cells.new steps.new }
    ensures next { IsStep cells.new k result }
{
    if cells[k] == NO_LIBRARY {
        cells[k] = library;
    } else {
        lengthen(cells, steps, k);
    }
    k + steps[k] as usize
}

/// Adds to the step of a cell that of the cell it leads to, if that one is painted. Each walk over painted cells
/// halves the number of steps of the next one, so libraries that share imports don't walk over them in full.
fn lengthen(cells: &[u32], steps: &mut [u16], k: usize)
    requires few { length cells.now < 2 ^ 16 }
    requires within { k < length cells.now }
    requires steps { AreSteps cells.now steps.old }
    ensures { AreSteps cells.now steps.new }
{
    let next = k + steps[k] as usize;
    if next < cells.len() && cells[next] != NO_LIBRARY {
        steps[k] += steps[next];
    }
}
