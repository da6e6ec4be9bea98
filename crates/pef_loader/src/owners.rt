ghost use Rattle.std.specs.Prelude.{◌≡◌, ◌<◌, ◌^◌, IsTrue};
ghost use Rattle.pef_loader.specs.Import.{owner_of};
ghost use Rattle.pef_loader.specs.Kept.Blocks.{AreOwnersIf};
ghost use Rattle.pef_loader.specs.Kept.Cursors.{HasRange};
ghost use Rattle.pef_loader.specs.Kept.Ranges.{AreInOrder};

use crate::block::OwnerBlock;
use crate::cursor::OwnerCursor;
use crate::header::LoaderTables;

/// Finds the libraries of many imports, and allocates nothing.
#[derive(Drop)]
pub(crate) struct Owners<'a> {
    tables: LoaderTables<'a>,
    in_order: bool,
    /// Finds an import's library if the libraries are in order.
    cursor: OwnerCursor,
    /// The last block that was painted. Libraries in order need none.
    block: OwnerBlock,
    ghost ordered: { IsTrue in_order → AreInOrder tables.cut.bytes.now tables.header.library_count },
    ghost range: { HasRange tables.cut.bytes.now cursor },
    ghost painted: { AreOwnersIf block.painted tables.cut.bytes.now tables.header block.from block.cells },
}

impl<'a> Owners<'a> {
    /// Returns what finds the libraries of some tables' imports. `in_order` says that the imports of each library follow
    /// those of the one before it.
    pub(crate) fn new(tables: LoaderTables<'a>, in_order: bool) -> Owners<'a>
        requires { IsTrue in_order → AreInOrder tables.cut.bytes.now tables.header.library_count }
        ensures { result.tables ≡ tables.entry }
    {
        Owners {
            tables,
            in_order,
            cursor: OwnerCursor::new(tables.cut),
            block: OwnerBlock::new(),
        }
    }

    /// Returns the first library that has import `j`. Inlining makes it one comparison for most imports: they have the library of
    /// the one before.
    #[inline(always)]
    pub(crate) fn owner(&mut self, j: usize) -> Option<usize>
        ensures value { result ≡ owner_of self.old.tables.cut.bytes.now self.old.tables.header j }
        ensures same { self.new.tables ≡ self.old.tables }
    {
        let tables = self.tables;
        if self.in_order {
            return self.cursor.owner(tables, j);
        }
        self.block.owner(tables, j)
    }
}
