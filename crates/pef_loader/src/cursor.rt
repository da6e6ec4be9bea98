ghost use Rattle.std.specs.Prelude.{◌≡◌, ◌<◌};
ghost use Rattle.pef_loader.specs.Import.{owner_of};
ghost use Rattle.pef_loader.specs.Kept.Cursors.{AreWithout, HasRange};
ghost use Rattle.pef_loader.specs.Kept.Ranges.{AreInOrder};

use crate::header::LoaderTables;
use crate::ranges::imports_of;
use pef_words::Cut;
use std::ops::Range;

/// One of the libraries, with the range of its imports. It moves on to the library that has an import.
///
/// If the libraries are in the order of their imports, one cursor finds the library of each import. It passes
/// each library once if the imports are asked for in rising order. If the libraries are in any other order, a
/// cursor at the first library finds the library of one import.
#[derive(Drop)]
pub(crate) struct OwnerCursor {
    library: usize,
    imports: Range<usize>,
}

impl OwnerCursor {
    /// Returns a cursor at the first library.
    pub(crate) fn new(cut: Cut<'_>) -> OwnerCursor
        ensures range { HasRange cut.entry.bytes.now result }
        ensures first { result.library ≡ 0 }
    {
        OwnerCursor {
            library: 0,
            imports: imports_of(cut, 0),
        }
    }

    /// Returns the first library that has import `j`.
    #[inline(always)]
    pub(crate) fn owner(&mut self, tables: LoaderTables<'_>, j: usize) -> Option<usize>
        requires range { HasRange tables.cut.bytes.now self.old }
        requires order { 0 < self.old.library → AreInOrder tables.cut.bytes.now tables.header.library_count }
        ensures range { HasRange tables.entry.cut.bytes.now self.new }
        ensures value { result ≡ owner_of tables.entry.cut.bytes.now tables.entry.header j }
    {
        if self.library >= tables.header.library_count as usize || j < self.imports.start {
            *self = OwnerCursor::new(tables.cut);
        }
        self.advance(tables, j)
    }

    /// Moves on to the first library that has import `j`. No library before this one has it.
    fn advance(&mut self, tables: LoaderTables<'_>, j: usize) -> Option<usize>
        requires range { HasRange tables.cut.bytes.now self.old }
        requires passed { AreWithout tables.cut.bytes.now self.old.library j }
        ensures range { HasRange tables.entry.cut.bytes.now self.new }
        ensures value { result ≡ owner_of tables.entry.cut.bytes.now tables.entry.header j }
    {
        let count = tables.header.library_count as usize;
        while self.library < count {
            if self.imports.contains(&j) {
                return Some(self.library);
            }
            self.library += 1;
            self.imports = imports_of(tables.cut, self.library);
        }
        None
    }
}
