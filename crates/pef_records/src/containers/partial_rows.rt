//! The rows of a loader section that may be damaged, as C sees them. What is missing has no bytes.
ghost use Rattle.std.specs.Prelude.{◌≡◌, []};
ghost use Rattle.std.specs.Option.{option_copied, unwrap_or};
ghost use Rattle.pef_loader.specs.PartialViews.{export_seen, import_seen, library_seen, relocation_seen};
ghost use Rattle.pef_records.specs.Containers.Partial.{export_part, import_part, library_part, relocation_part};
ghost use Rattle.pef_records.specs.Containers.Rows.{export_shown, import_shown, library_shown, relocation_shown};

use crate::fill::Table;
use crate::structs::{PefExport, PefImport, PefLibrary, PefRelocation};
use pef_format::{Imported, Named};
use pef_loader::{
    PartialExport, PartialImport, PartialImports, PartialLibrary, PartialLoader, PartialRelocation,
};

/// The number of the library of an import that is in no library's range (`PEF_NO_LIBRARY`).
const NO_LIBRARY: usize = usize::MAX;

impl<'a> Table<PefLibrary<'a>> for PartialLoader<'a> {
    ghost use Rattle.pef_loader.specs.Library.{Library};
    ghost use Rattle.pef_loader.specs.PartialViews.{partly_loaded};
    ghost use Rattle.pef_records.specs.Containers.Partial.{library_in};
    ghost use Rattle.pef_records.specs.Containers.Rows.{library_shown};

    ghost Held = { Library };

    ghost shown = { library_shown };

    ghost row_at = { λ l. library_in (partly_loaded l) };

    fn row(&mut self, i: usize) -> Option<PefLibrary<'a>> {
        match self.library(i) {
            Some(row) => Some(library_given(row)),
            None => None,
        }
    }
}

impl<'a> Table<PefImport<'a>> for PartialImports<'a> {
    ghost use Rattle.pef_format.specs.Symbols.{Import};
    ghost use Rattle.pef_loader.specs.PartialViews.{partly_loaded};
    ghost use Rattle.pef_records.specs.Containers.Partial.{import_in};
    ghost use Rattle.pef_records.specs.Containers.Rows.{import_shown};

    ghost Held = { Import };

    ghost shown = { import_shown };

    ghost row_at = { λ r. import_in (partly_loaded r.loader) };

    fn row(&mut self, i: usize) -> Option<PefImport<'a>> {
        match self.import(i) {
            Some(row) => Some(import_given(row)),
            None => None,
        }
    }
}

impl<'a> Table<PefRelocation<'a>> for PartialLoader<'a> {
    ghost use Rattle.std.specs.Prelude.{ℕ, List};
    ghost use Rattle.pef_loader.specs.PartialViews.{partly_loaded};
    ghost use Rattle.pef_records.specs.Containers.Partial.{relocation_in};
    ghost use Rattle.pef_records.specs.Containers.Rows.{relocation_shown};

    ghost Held = { ℕ × List ℕ };

    ghost shown = { relocation_shown };

    ghost row_at = { λ l. relocation_in (partly_loaded l) };

    fn row(&mut self, i: usize) -> Option<PefRelocation<'a>> {
        match self.relocation(i) {
            Some(row) => Some(relocation_given(row)),
            None => None,
        }
    }
}

impl<'a> Table<PefExport<'a>> for PartialLoader<'a> {
    ghost use Rattle.pef_format.specs.Exports.{Export};
    ghost use Rattle.pef_loader.specs.PartialViews.{partly_loaded};
    ghost use Rattle.pef_records.specs.Containers.Partial.{export_in};
    ghost use Rattle.pef_records.specs.Containers.Rows.{export_shown};

    ghost Held = { Export };

    ghost shown = { export_shown };

    ghost row_at = { λ l. export_in (partly_loaded l) };

    fn row(&mut self, i: usize) -> Option<PefExport<'a>> {
        match self.export(i) {
            Some(row) => Some(export_given(row)),
            None => None,
        }
    }
}

/// Returns a library as C sees it.
fn library_given<'a>(library: PartialLibrary<'a>) -> PefLibrary<'a>
    ensures { library_shown result ≡ library_part (library_seen library.entry) }
{
    PefLibrary::of(Named {
        fields: library.fields,
        name: bytes_or_none(library.name),
    })
}

/// Returns an import as C sees it.
fn import_given<'a>(import: PartialImport<'a>) -> PefImport<'a>
    ensures { import_shown result ≡ import_part (import_seen import.entry) }
{
    PefImport::of(Imported {
        fields: import.fields,
        name: bytes_or_none(import.name),
        library: import.library.unwrap_or(NO_LIBRARY),
    })
}

/// Returns a relocation header as C sees it.
fn relocation_given<'a>(relocation: PartialRelocation<'a>) -> PefRelocation<'a>
    ensures { relocation_shown result ≡ relocation_part (relocation_seen relocation.entry) }
{
    PefRelocation {
        instructions: bytes_or_none(relocation.program),
        section: u32::from(relocation.section),
    }
}

/// Returns an export as C sees it.
fn export_given<'a>(export: PartialExport<'a>) -> PefExport<'a>
    ensures { export_shown result ≡ export_part (export_seen export.entry) }
{
    PefExport::of(Named {
        fields: export.fields,
        name: bytes_or_none(export.name),
    })
}

/// Returns bytes, or none if they are missing.
fn bytes_or_none<'a>(bytes: Option<&'a [u8]>) -> &'a [u8]
    ensures { result.now ≡ unwrap_or (option_copied bytes.entry) [] }
{
    match bytes {
        Some(bytes) => bytes,
        None => &[],
    }
}
