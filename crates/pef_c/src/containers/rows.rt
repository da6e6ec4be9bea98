//! The rows of a loader section's tables. Each call reads the whole section, and then as many rows as the caller has
//! places for, so reading n rows in one call takes time linear in n. An export and an import are also found by their names.
ghost use Rattle.pef_c.specs.Containers.Rows.{ExportsAnswer, ImportsAnswer, LibrariesAnswer, NamedAnswer, NamedImportAnswer, RelocationsAnswer};
ghost use Rattle.pef_records.specs.Containers.Rows.{export_shown, import_shown};

use crate::containers::loader::read_tables;
use pef_loader::{ImportReader, import_named};
use pef_records::{NOT_THERE, PefExport, PefImport, PefLibrary, PefRelocation, fill_table, given};

/// Reads the imported libraries from number `from` on into the first places, and counts them.
///
/// Returns 0, or the number of the first refusal.
#[unsafe(no_mangle)]
pub extern "C" fn pef_libraries<'a>(
    container: &'a [u8],
    from: usize,
    places: &mut [PefLibrary<'a>],
    count: &mut usize,
) -> u32
    ensures { LibrariesAnswer container.entry.now from places.old places.new count.old count.new result }
{
    let mut loader = match read_tables(container) {
        Ok(loader) => loader,
        Err(number) => return number,
    };
    let many = loader.libraries();
    *count = fill_table(&mut loader, many, from, places);
    0
}

/// Reads the imported symbols from number `from` on into the first places, and counts them.
///
/// Returns 0, or the number of the first refusal.
#[unsafe(no_mangle)]
pub extern "C" fn pef_imports<'a>(
    container: &'a [u8],
    from: usize,
    places: &mut [PefImport<'a>],
    count: &mut usize,
) -> u32
    ensures { ImportsAnswer container.entry.now from places.old places.new count.old count.new result }
{
    let loader = match read_tables(container) {
        Ok(loader) => loader,
        Err(number) => return number,
    };
    let mut imports = ImportReader::new(loader);
    *count = fill_table(&mut imports, loader.imports(), from, places);
    0
}

/// Reads the relocation headers from number `from` on into the first places, and counts them.
///
/// Returns 0, or the number of the first refusal.
#[unsafe(no_mangle)]
pub extern "C" fn pef_relocations<'a>(
    container: &'a [u8],
    from: usize,
    places: &mut [PefRelocation<'a>],
    count: &mut usize,
) -> u32
    ensures { RelocationsAnswer container.entry.now from places.old places.new count.old count.new result }
{
    let mut loader = match read_tables(container) {
        Ok(loader) => loader,
        Err(number) => return number,
    };
    let many = loader.relocs();
    *count = fill_table(&mut loader, many, from, places);
    0
}

/// Reads the exported symbols from number `from` on into the first places, and counts them.
///
/// Returns 0, or the number of the first refusal.
#[unsafe(no_mangle)]
pub extern "C" fn pef_exports<'a>(
    container: &'a [u8],
    from: usize,
    places: &mut [PefExport<'a>],
    count: &mut usize,
) -> u32
    ensures { ExportsAnswer container.entry.now from places.old places.new count.old count.new result }
{
    let mut loader = match read_tables(container) {
        Ok(loader) => loader,
        Err(number) => return number,
    };
    let many = loader.exports();
    *count = fill_table(&mut loader, many, from, places);
    0
}

/// Reads the first export with this name, and its number.
///
/// Returns 0, or the number of the first refusal, or 201 if no export has the name.
#[unsafe(no_mangle)]
pub extern "C" fn pef_export_named<'a>(
    container: &'a [u8],
    name: &[u8],
    number: &mut usize,
    export: &mut PefExport<'a>,
) -> u32
    ensures { NamedAnswer container.entry.now name.now number.old number.new (export_shown export.old) (export_shown export.new) result }
{
    let loader = match read_tables(container) {
        Ok(loader) => loader,
        Err(number) => return number,
    };
    let Some(place) = loader.export_named(given(name)) else {
        return NOT_THERE;
    };
    let Some(found) = loader.export(place) else {
        unreachable!()
    };
    *number = place;
    *export = PefExport::of(found);
    0
}

/// Reads the first import with this name, and its number.
///
/// Returns 0, or the number of the first refusal, or 201 if no import has the name.
#[unsafe(no_mangle)]
pub extern "C" fn pef_import_named<'a>(
    container: &'a [u8],
    name: &[u8],
    number: &mut usize,
    import: &mut PefImport<'a>,
) -> u32
    ensures { NamedImportAnswer container.entry.now name.now number.old number.new (import_shown import.old) (import_shown import.new) result }
{
    let loader = match read_tables(container) {
        Ok(loader) => loader,
        Err(number) => return number,
    };
    let Some(place) = import_named(&loader, given(name)) else {
        return NOT_THERE;
    };
    let Some(found) = loader.import(place) else {
        unreachable!()
    };
    *number = place;
    *import = PefImport::of(found);
    0
}
