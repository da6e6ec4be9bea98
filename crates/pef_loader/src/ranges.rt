ghost use Rattle.std.specs.Prelude.{◌≡◌, ◌<◌, ◌≤◌, ◌^◌, ◌↔◌, IsTrue, option_map};
ghost use Rattle.pef_loader.specs.Library.{library_at};
ghost use Rattle.pef_loader.specs.Kept.Ranges.{AreInOrder, end_of, first_of};

use crate::header::{LoaderTables, library_place};
use pef_format::layout::{FIRST_IMPORTED_SYMBOL_AT, IMPORTED_SYMBOL_COUNT_AT, LIBRARY_OPTIONS_AT};
use pef_words::Cut;
use std::ops::Range;

/// Returns the imports of library `i`, from its first one up to its end.
pub(crate) fn imports_of(cut: Cut<'_>, i: usize) -> Range<usize>
    requires { i < 2 ^ 32 }
    ensures start { result.start ≡ first_of cut.entry.bytes.now i }
    ensures end { result.end ≡ end_of cut.entry.bytes.now i }
    ensures order { result.start ≤ result.end }
{
    match read_range(cut, i) {
        Some((first, count)) => {
            let first = first as usize;
            first..first + count as usize
        }
        None => 0..0,
    }
}

/// Returns the first import of library `i` and how many it has, or `None` if the library passes the end. Walks over the libraries
/// read these two fields alone.
#[tactic(auto, unfolding(crate::specs::Library::library_at, pef_words::specs::Bytes::number_at))]
fn read_range(cut: Cut<'_>, i: usize) -> Option<(u32, u32)>
    requires { i < 2 ^ 32 }
    ensures { result ≡ option_map (λ e. (e.fields.first, e.fields.count)) (library_at cut.entry.bytes.now i) }
{
    let at = library_place(i);
    // If the last field is there, all are.
    cut.u8_at(at + LIBRARY_OPTIONS_AT)?;
    let count = cut.u32_at(at + IMPORTED_SYMBOL_COUNT_AT)?;
    let first = cut.u32_at(at + FIRST_IMPORTED_SYMBOL_AT)?;
    Some((first, count))
}

/// Returns whether the imports of each library follow those of the one before it.
pub(crate) fn are_in_order(tables: LoaderTables<'_>) -> bool
    ensures { IsTrue result ↔ AreInOrder tables.entry.cut.bytes.now tables.entry.header.library_count }
{
    let mut end = 0;
    for i in 0..tables.header.library_count as usize {
        let imports = imports_of(tables.cut, i);
        if imports.start < end {
            return false;
        }
        end = imports.end;
    }
    true
}

/// Returns whether all libraries are in the loader section, and in order. No more of them are looked at than the section has
/// bytes for, whatever their number is said to be.
pub(crate) fn are_whole_and_in_order(tables: LoaderTables<'_>) -> bool
    ensures { IsTrue result → AreInOrder tables.entry.cut.bytes.now tables.entry.header.library_count }
{
    tables.header.import(0) <= tables.cut.len() && are_in_order(tables)
}
