ghost use Rattle.std.specs.Prelude.{◌≡◌, false, length, true};
ghost use Rattle.pef_loader.specs.Import.{owner_of};
ghost use Rattle.pef_loader.specs.Kept.Blocks.{AreEmpty, AreOwners, AreOwnersIf};

use crate::header::LoaderTables;
use crate::painting::{NO_LIBRARY, library_in, paint_owners};

/// How many imports a block has. It is on the stack, and no call may take more than 64 KB of that.
const BLOCK: usize = 2_048;

/// The first libraries of the imports from number `from` on, in a cell for each import. One walk over the
/// libraries finds them all.
#[derive(Drop)]
pub(crate) struct OwnerBlock {
    from: usize,
    painted: bool,
    cells: [u32; BLOCK],
}

impl OwnerBlock {
    /// Returns a block that isn't painted yet. The first import that is asked for is then its first.
    #[inline(always)]
    pub(crate) fn new() -> OwnerBlock
        ensures { result.painted ≡ false }
    {
        OwnerBlock {
            from: 0,
            painted: false,
            cells: [NO_LIBRARY; BLOCK],
        }
    }

    /// Returns the first library that has import `j`. If `j` isn't in this block, the block is painted anew, from
    /// `j` on.
    pub(crate) fn owner(&mut self, tables: LoaderTables<'_>, j: usize) -> Option<usize>
        requires owners { AreOwnersIf self.old.painted tables.cut.bytes.now tables.header self.old.from self.old.cells }
        ensures owners { AreOwnersIf self.new.painted tables.entry.cut.bytes.now tables.entry.header self.new.from self.new.cells }
        ensures value { result ≡ owner_of tables.entry.cut.bytes.now tables.entry.header j }
    {
        if !self.painted || j < self.from || j - self.from >= BLOCK {
            self.paint(tables, j);
        }
        library_in(self.cells[j - self.from])
    }

    /// Paints the block with the owners of the imports from number `from` on, in its place: a second block would take as much of
    /// the stack. Kept out of `owner`: it is rare.
    #[inline(never)]
    fn paint(&mut self, tables: LoaderTables<'_>, from: usize)
        ensures from { self.new.from ≡ from }
        ensures painted { self.new.painted ≡ true }
        ensures owners { AreOwners tables.entry.cut.bytes.now tables.entry.header self.new.from self.new.cells }
    {
        clear(&mut self.cells);
        let mut steps = [1; BLOCK];
        paint_owners(tables, from, &mut self.cells, &mut steps);
        self.from = from;
        self.painted = true;
    }
}

/// Makes all cells empty.
fn clear(cells: &mut [u32])
    ensures empty { AreEmpty cells.new }
    ensures len { length cells.new ≡ length cells.old }
{
    for k in 0..cells.len() {
        cells[k] = NO_LIBRARY;
    }
}
