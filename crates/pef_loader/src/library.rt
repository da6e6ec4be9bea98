ghost use Rattle.std.specs.Prelude.{◌≡◌, ◌+◌, ◌^◌, ◌<◌, option_map};
ghost use Rattle.std.specs.Result.{result_err};
ghost use Rattle.pef_loader.specs.Kept.Names.{NamesEndAt};
ghost use Rattle.pef_loader.specs.Library.{library_at, library_refusal, library_tests};

use crate::fault::{LoaderFault, NamedRow, refused_by};
use crate::header::{LoaderTables, library_place};
use pef_format::layout::{
    FIRST_IMPORTED_SYMBOL_AT, IMPORTED_SYMBOL_COUNT_AT, LIBRARY_CURRENT_VERSION_AT,
    LIBRARY_NAME_OFFSET_AT, LIBRARY_OLD_IMP_VERSION_AT, LIBRARY_OPTIONS_AT,
};
use pef_format::{LibraryFields, Named};
use pef_words::{Cut, first_met};

/// An imported library (PEFImportedLibrary), and where its name begins among the names.
pub(crate) type LibraryEntry = Named<LibraryFields, u32>;

/// An imported library with its name.
pub type LibraryView<'a> = Named<LibraryFields, &'a [u8]>;

/// Reads library `i`, or returns `None` if it passes the end.
#[tactic(auto, unfolding(crate::specs::Library::library_at))]
pub(crate) fn read_library(cut: Cut<'_>, i: usize) -> Option<LibraryEntry>
    requires { i < 2 ^ 32 }
    ensures { result ≡ library_at cut.entry.bytes.now i }
{
    let at = library_place(i);
    Some(Named {
        name: cut.u32_at(at + LIBRARY_NAME_OFFSET_AT)?,
        fields: LibraryFields {
            old_imp: cut.u32_at(at + LIBRARY_OLD_IMP_VERSION_AT)?,
            current: cut.u32_at(at + LIBRARY_CURRENT_VERSION_AT)?,
            count: cut.u32_at(at + IMPORTED_SYMBOL_COUNT_AT)?,
            first: cut.u32_at(at + FIRST_IMPORTED_SYMBOL_AT)?,
            options: cut.u8_at(at + LIBRARY_OPTIONS_AT)?,
        },
    })
}

/// Reports the first rule that library `i` breaks.
pub(crate) fn test_library(
    tables: LoaderTables<'_>,
    names_end: usize,
    i: u32,
) -> Result<(), LoaderFault>
    requires { NamesEndAt tables.cut.bytes.now names_end }
    ensures { result_err result ≡ library_refusal tables.entry.cut.bytes.now tables.entry.header i }
{
    match library_table(tables, names_end, i) {
        Some(table) => refused_by(first_met(table)),
        None => Err(LoaderFault::BadTableOffset),
    }
}

/// Returns the tests of library `i`, in order, or `None` if it passes the end.
#[tactic(auto, unfolding(crate::specs::Library::library_tests))]
pub(crate) fn library_table(
    tables: LoaderTables<'_>,
    names_end: usize,
    i: u32,
) -> Option<[(bool, LoaderFault); 2]>
    requires { NamesEndAt tables.cut.bytes.now names_end }
    ensures { result ≡ option_map (library_tests tables.entry.cut.bytes.now tables.entry.header i) (library_at tables.entry.cut.bytes.now i) }
{
    let library = read_library(tables.cut, i as usize)?;
    let end = u64::from(library.fields.first) + u64::from(library.fields.count);
    Some([
        (
            tables.header.name(library.name) >= names_end,
            LoaderFault::BadName {
                of: NamedRow::Library(i),
            },
        ),
        (
            end > u64::from(tables.header.import_count),
            LoaderFault::BadLibraryRange { library: i },
        ),
    ])
}
