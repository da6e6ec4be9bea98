ghost use Rattle.std.specs.Prelude.{◌≡◌, ◌<◌, ◌^◌, option_map};
ghost use Rattle.std.specs.Result.{result_err};
ghost use Rattle.pef_loader.specs.Kept.Names.{NamesEndAt};
ghost use Rattle.pef_loader.specs.Import.{import_at, import_refusal, import_tests, owner_of};

use crate::fault::{LoaderFault, NamedRow, refused_by};
use crate::header::LoaderTables;
use pef_format::layout::{CLASS_COUNT, CLASS_SHIFT, WEAK_IMPORT};
use pef_format::{ImportFields, Named};
use pef_words::{Cut, first_met};

/// An imported symbol (PEFImportedSymbol), and where its name begins among the names.
pub(crate) type ImportEntry = Named<ImportFields, u32>;

/// Reads import `j`, or returns `None` if it passes the end.
#[tactic(auto, unfolding(crate::specs::Import::import_at))]
pub(crate) fn read_import(tables: LoaderTables<'_>, j: usize) -> Option<ImportEntry>
    requires { j < 2 ^ 32 }
    ensures { result ≡ import_at tables.entry.cut.bytes.now tables.entry.header j }
{
    let word = tables.cut.u32_at(tables.header.import(j))?;
    let class_byte = (word >> CLASS_SHIFT) as u8;
    Some(Named {
        fields: ImportFields {
            class: class_byte % CLASS_COUNT,
            weak: class_byte & WEAK_IMPORT != 0,
        },
        name: word % (1 << CLASS_SHIFT),
    })
}

/// Reports the first rule that import `j` breaks.
pub(crate) fn test_import(
    tables: LoaderTables<'_>,
    names_end: usize,
    owner: Option<usize>,
    j: u32,
) -> Result<(), LoaderFault>
    requires names { NamesEndAt tables.cut.bytes.now names_end }
    requires owner { owner ≡ owner_of tables.cut.bytes.now tables.header j }
    ensures { result_err result ≡ import_refusal tables.entry.cut.bytes.now tables.entry.header j }
{
    match import_table(tables, names_end, owner, j) {
        Some(table) => refused_by(first_met(table)),
        None => Err(LoaderFault::BadTableOffset),
    }
}

/// Returns the tests of import `j`, in order, or `None` if it passes the end.
#[tactic(auto, unfolding(crate::specs::Import::import_tests))]
pub(crate) fn import_table(
    tables: LoaderTables<'_>,
    names_end: usize,
    owner: Option<usize>,
    j: u32,
) -> Option<[(bool, LoaderFault); 2]>
    requires names { NamesEndAt tables.cut.bytes.now names_end }
    requires owner { owner ≡ owner_of tables.cut.bytes.now tables.header j }
    ensures { result ≡ option_map (import_tests tables.entry.cut.bytes.now tables.entry.header j) (import_at tables.entry.cut.bytes.now tables.entry.header j) }
{
    let import = read_import(tables, j as usize)?;
    Some([
        (
            tables.header.name(import.name) >= names_end,
            LoaderFault::BadName {
                of: NamedRow::Import(j),
            },
        ),
        (owner.is_none(), LoaderFault::OrphanImport { import: j }),
    ])
}
