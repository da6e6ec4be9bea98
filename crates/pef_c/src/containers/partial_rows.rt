//! The rows of a loader section that may be damaged. Each call reads the whole section, and then as many rows as the caller has
//! places for.
ghost use Rattle.pef_c.specs.Containers.Partial.{PartExportsAnswer, PartImportsAnswer, PartLibrariesAnswer, PartRelocationsAnswer};

use crate::containers::partial::read_part;
use pef_loader::PartialImports;
use pef_records::{PefExport, PefImport, PefLibrary, PefRelocation, fill_table};

/// Reads the imported libraries of a loader section that may be damaged, from number `from` on, into the first places, and counts them.
///
/// Returns 0, or 1, 2 or 11 if no loader header can be read.
#[unsafe(no_mangle)]
pub extern "C" fn pef_partial_libraries<'a>(
    container: &'a [u8],
    from: usize,
    places: &mut [PefLibrary<'a>],
    count: &mut usize,
) -> u32
    ensures { PartLibrariesAnswer container.entry.now from places.old places.new count.old count.new result }
{
    let mut loader = match read_part(container) {
        Ok(loader) => loader,
        Err(number) => return number,
    };
    let many = loader.libraries();
    *count = fill_table(&mut loader, many, from, places);
    0
}

/// Reads the imported symbols of a loader section that may be damaged, from number `from` on, into the first places, and counts them.
///
/// Returns 0, or 1, 2 or 11 if no loader header can be read.
#[unsafe(no_mangle)]
pub extern "C" fn pef_partial_imports<'a>(
    container: &'a [u8],
    from: usize,
    places: &mut [PefImport<'a>],
    count: &mut usize,
) -> u32
    ensures { PartImportsAnswer container.entry.now from places.old places.new count.old count.new result }
{
    let loader = match read_part(container) {
        Ok(loader) => loader,
        Err(number) => return number,
    };
    let mut imports = PartialImports::new(loader);
    *count = fill_table(&mut imports, loader.imports(), from, places);
    0
}

/// Reads the relocation headers of a loader section that may be damaged, from number `from` on, into the first places, and counts them.
///
/// Returns 0, or 1, 2 or 11 if no loader header can be read.
#[unsafe(no_mangle)]
pub extern "C" fn pef_partial_relocations<'a>(
    container: &'a [u8],
    from: usize,
    places: &mut [PefRelocation<'a>],
    count: &mut usize,
) -> u32
    ensures { PartRelocationsAnswer container.entry.now from places.old places.new count.old count.new result }
{
    let mut loader = match read_part(container) {
        Ok(loader) => loader,
        Err(number) => return number,
    };
    let many = loader.relocations();
    *count = fill_table(&mut loader, many, from, places);
    0
}

/// Reads the exported symbols of a loader section that may be damaged, from number `from` on, into the first places, and counts them.
///
/// Returns 0, or 1, 2 or 11 if no loader header can be read.
#[unsafe(no_mangle)]
pub extern "C" fn pef_partial_exports<'a>(
    container: &'a [u8],
    from: usize,
    places: &mut [PefExport<'a>],
    count: &mut usize,
) -> u32
    ensures { PartExportsAnswer container.entry.now from places.old places.new count.old count.new result }
{
    let mut loader = match read_part(container) {
        Ok(loader) => loader,
        Err(number) => return number,
    };
    let many = loader.exports();
    *count = fill_table(&mut loader, many, from, places);
    0
}
