ghost use Rattle.std.specs.Prelude.{◌≡◌, ◌<◌, ◌↔◌, IfSome, IsSome, option_map};
ghost use Rattle.pef_loader.specs.Import.{owner_of};
ghost use Rattle.pef_loader.specs.Kept.Blocks.{AreOwnersIf};
ghost use Rattle.pef_loader.specs.Kept.Cursors.{HasRange};
ghost use Rattle.pef_loader.specs.Loader.{import_of};

use crate::block::OwnerBlock;
use crate::cursor::OwnerCursor;
use crate::import::read_import;
use crate::name_reader::NameReader;
use crate::tables::Loader;
use pef_format::{ImportView, Imported};

/// Reads many imports of a loader section, each with its library, and allocates nothing.
///
/// For imports in rising order, one walk over the libraries finds the libraries of all imports if the libraries
/// are in the order of their imports, and those of 2,048 imports if not. In any other order the answers are the
/// same, and each may need a walk.
#[derive(Drop)]
pub struct ImportReader<'a> {
    loader: Loader<'a>,
    /// Finds an import's library if the libraries are in order.
    cursor: OwnerCursor,
    /// The last block that was painted. Libraries in order need none.
    block: OwnerBlock,
    names: NameReader<'a>,
    ghost range: { HasRange loader.tables.cut.bytes.now cursor },
    ghost painted: { AreOwnersIf block.painted loader.tables.cut.bytes.now loader.tables.header block.from block.cells },
    ghost named: { names.names.cut.bytes.now ≡ loader.tables.cut.bytes.now },
}

impl<'a> ImportReader<'a> {
    ghost use Rattle.pef_format.specs.Symbols.{import_seen};
    ghost use Rattle.pef_loader.specs.Views.{loaded};

    /// Returns a reader of the imports of a loader section.
    pub fn new(loader: Loader<'a>) -> ImportReader<'a>
        ensures { result.loader ≡ loader.entry }
    {
        ImportReader {
            loader,
            cursor: OwnerCursor::new(loader.tables.cut),
            block: OwnerBlock::new(),
            names: NameReader::new(loader.names),
        }
    }

    /// Returns import `j`, or `None` past the last one, as [`Loader::import`] does.
    #[tactic(auto, unfolding(crate::specs::Loader::import_of, crate::specs::Import::import_in))]
    pub fn import(&mut self, j: usize) -> Option<ImportView<'a>>
        ensures value { option_map import_seen result ≡ import_of (loaded self.old.loader) j }
        ensures there { IsSome result ↔ (j < (loaded self.old.loader).header.import_count) }
        ensures library { IfSome result (λ v. v.library < (loaded self.old.loader).header.library_count) }
        ensures same { self.new.loader ≡ self.old.loader }
    {
        let loader = self.loader;
        if j >= loader.imports() {
            return None;
        }
        let library = self.owner(j)?;
        let import = read_import(loader.tables, j)?;
        let name = self.names.name(loader.tables.header.name(import.name))?;
        Some(Imported {
            fields: import.fields,
            name,
            library,
        })
    }

    /// Returns the first library that has import `j`.
    fn owner(&mut self, j: usize) -> Option<usize>
        ensures value { result ≡ owner_of self.old.loader.tables.cut.bytes.now self.old.loader.tables.header j }
        ensures same { self.new.loader ≡ self.old.loader }
    {
        let loader = self.loader;
        if loader.in_order {
            return self.cursor.owner(loader.tables, j);
        }
        self.block.owner(loader.tables, j)
    }
}
