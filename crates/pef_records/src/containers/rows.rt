//! The rows of a loader section's tables, as C sees them.
ghost use Rattle.std.specs.Prelude.{◌≡◌};
ghost use Rattle.pef_loader.specs.Views.{reloc_seen};
ghost use Rattle.pef_records.specs.Containers.Rows.{relocation_shown};

use crate::fill::Table;
use crate::structs::{PefExport, PefImport, PefLibrary, PefRelocation};
use pef_loader::{ImportReader, Loader};

impl<'a> Table<PefLibrary<'a>> for Loader<'a> {
    ghost use Rattle.pef_loader.specs.Library.{Library};
    ghost use Rattle.pef_loader.specs.Loader.{library_of};
    ghost use Rattle.pef_loader.specs.Views.{loaded};
    ghost use Rattle.pef_records.specs.Containers.Rows.{library_shown};

    ghost Held = { Library };

    ghost shown = { library_shown };

    ghost row_at = { λ l. library_of (loaded l) };

    fn row(&mut self, i: usize) -> Option<PefLibrary<'a>> {
        match self.library(i) {
            Some(row) => Some(PefLibrary::of(row)),
            None => None,
        }
    }
}

impl<'a> Table<PefImport<'a>> for ImportReader<'a> {
    ghost use Rattle.pef_format.specs.Symbols.{Import};
    ghost use Rattle.pef_loader.specs.Loader.{import_of};
    ghost use Rattle.pef_loader.specs.Views.{loaded};
    ghost use Rattle.pef_records.specs.Containers.Rows.{import_shown};

    ghost Held = { Import };

    ghost shown = { import_shown };

    ghost row_at = { λ r. import_of (loaded r.loader) };

    fn row(&mut self, i: usize) -> Option<PefImport<'a>> {
        match self.import(i) {
            Some(row) => Some(PefImport::of(row)),
            None => None,
        }
    }
}

impl<'a> Table<PefRelocation<'a>> for Loader<'a> {
    ghost use Rattle.std.specs.Prelude.{ℕ, List};
    ghost use Rattle.pef_loader.specs.Loader.{reloc_of};
    ghost use Rattle.pef_loader.specs.Views.{loaded};
    ghost use Rattle.pef_records.specs.Containers.Rows.{relocation_shown};

    ghost Held = { ℕ × List ℕ };

    ghost shown = { relocation_shown };

    ghost row_at = { λ l. reloc_of (loaded l) };

    fn row(&mut self, i: usize) -> Option<PefRelocation<'a>> {
        match self.reloc(i) {
            Some(row) => Some(relocation_given(row)),
            None => None,
        }
    }
}

impl<'a> Table<PefExport<'a>> for Loader<'a> {
    ghost use Rattle.pef_format.specs.Exports.{Export};
    ghost use Rattle.pef_loader.specs.Loader.{export_of};
    ghost use Rattle.pef_loader.specs.Views.{loaded};
    ghost use Rattle.pef_records.specs.Containers.Rows.{export_shown};

    ghost Held = { Export };

    ghost shown = { export_shown };

    ghost row_at = { λ l. export_of (loaded l) };

    fn row(&mut self, i: usize) -> Option<PefExport<'a>> {
        match self.export(i) {
            Some(row) => Some(PefExport::of(row)),
            None => None,
        }
    }
}

/// Returns a relocation header as C sees it.
fn relocation_given<'a>(relocation: (u32, &'a [u8])) -> PefRelocation<'a>
    ensures { relocation_shown result ≡ reloc_seen relocation.entry }
{
    let (section, instructions) = relocation;
    PefRelocation {
        instructions,
        section,
    }
}
