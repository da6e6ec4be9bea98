ghost use Rattle.std.specs.Prelude.{◌≡◌, ◌<◌, IfOk, IfSome, length, option_map};
ghost use Rattle.pef_loader.specs.Loader.{import_of};
ghost use Rattle.pef_loader.specs.Views.{loaded};
ghost use Rattle.cfm_closure.specs.Kept.Imports.{AreImports};

use pef_format::ImportView;
use pef_loader::{ImportReader, Loader};
use std::alloc::{AllocError, Global};
use std::marker::Model;

/// All imports of a loader section, each with its library.
#[derive(Drop)]
pub(crate) struct ImportTable<'a> {
    loader: Loader<'a>,
    imports: Vec<ImportView<'a>>,
    ghost all: { length imports.items ≡ (loaded loader).header.import_count },
    ghost read: { AreImports (loaded loader) imports.items },
}

impl<'a> Model for ImportTable<'a> {
    ghost use Rattle.pef_loader.specs.Loader.{Loaded};
    ghost use Rattle.pef_loader.specs.Views.{loaded};

    ghost Value = { Loaded };

    ghost view = { λ s. loaded s.loader };
}

impl<'a> ImportTable<'a> {
    ghost use Rattle.pef_format.specs.Symbols.{import_seen};

    /// Reads the imports of a loader section.
    pub fn read(alloc: Global, loader: Loader<'a>) -> Result<ImportTable<'a>, AllocError>
        ensures { IfOk result (λ table. table ≡ loaded loader.entry) }
    {
        let mut reader = ImportReader::new(loader);
        let mut imports = Vec::with_capacity(alloc, loader.imports())?;
        for j in 0..loader.imports() {
            let Some(import) = reader.import(j) else {
                unreachable!()
            };
            imports.push(import)?;
        }
        Ok(ImportTable { loader, imports })
    }

    /// Returns import `j`, or `None` past the last one.
    pub fn get(&self, j: usize) -> Option<ImportView<'a>>
        ensures value { option_map import_seen result ≡ import_of self.now j }
        ensures library { IfSome result (λ v. v.library < self.now.header.library_count) }
    {
        self.imports.get(j).copied()
    }
}
