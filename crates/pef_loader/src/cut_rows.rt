//! Rows of a loader section that may be damaged, with their names cut. Many rows can share one long name, so that a search for
//! its end for each of them would take very long.
ghost use Rattle.std.specs.Prelude.{◌≡◌, option_map};
ghost use Rattle.pef_loader.specs.Import.{owner_of};
ghost use Rattle.pef_loader.specs.Partial.{cut_import_row, cut_library_row};

use crate::cut_name::CutName;
use crate::import::read_import;
use crate::library::read_library;
use crate::partial::{PartialImports, PartialLoader};
use pef_format::{ExportFields, Imported, LibraryFields, Named};

/// An imported library of a loader section that may be damaged, as [`PartialLibrary`](crate::PartialLibrary), with its name cut.
pub type CutLibrary<'a> = Named<LibraryFields, Option<CutName<'a>>>;

/// An imported symbol of a loader section that may be damaged, as [`PartialImport`](crate::PartialImport), with its name cut.
pub type CutImport<'a> = Imported<Option<CutName<'a>>, Option<usize>>;

/// An exported symbol of a loader section that may be damaged, as [`PartialExport`](crate::PartialExport), with its name cut.
pub type CutExport<'a> = Named<ExportFields, Option<CutName<'a>>>;

impl<'a> PartialLoader<'a> {
    ghost use Rattle.pef_loader.specs.PartialViews.{cut_import_seen, cut_library_seen, partly_loaded};

    /// Returns library `i`, with at most `most` bytes of its name, or `None` past the last one that is in the loader section.
    /// It looks at no more than `most + 1` bytes of the name.
    pub fn library_cut(&self, i: usize, most: usize) -> Option<CutLibrary<'a>>
        ensures { option_map cut_library_seen result ≡ cut_library_row most (partly_loaded self.now) i }
    {
        if i >= self.tables.header.library_count as usize {
            return None;
        }
        let library = read_library(self.tables.cut, i)?;
        let at = self.tables.header.name(library.name);
        Some(Named {
            fields: library.fields,
            name: self.names.name(at, most),
        })
    }

    /// Returns import `j`, whose library was looked for, with at most `most` bytes of its name, or `None` past the last one that
    /// is in the loader section.
    fn import_cut(&self, library: Option<usize>, j: usize, most: usize) -> Option<CutImport<'a>>
        requires { library ≡ owner_of (partly_loaded self.now).bytes (partly_loaded self.now).header j }
        ensures { option_map cut_import_seen result ≡ cut_import_row most (partly_loaded self.now) j }
    {
        if j >= self.tables.header.import_count as usize {
            return None;
        }
        let import = read_import(self.tables, j)?;
        let at = self.tables.header.name(import.name);
        Some(Imported {
            fields: import.fields,
            name: self.names.name(at, most),
            library,
        })
    }
}

impl<'a> PartialImports<'a> {
    ghost use Rattle.pef_loader.specs.PartialViews.{cut_import_seen, partly_loaded};

    /// Returns import `j`, with at most `most` bytes of its name, or `None` past the last one that is in the loader section. It
    /// looks at no more than `most + 1` bytes of the name.
    pub fn import_cut(&mut self, j: usize, most: usize) -> Option<CutImport<'a>>
        ensures value { option_map cut_import_seen result ≡ cut_import_row most (partly_loaded self.old.loader) j }
        ensures same { self.new.loader ≡ self.old.loader }
    {
        let library = self.owners.owner(j);
        self.loader.import_cut(library, j, most)
    }
}
