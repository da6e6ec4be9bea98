ghost use Rattle.std.specs.Prelude.{◌≡◌, drop, IsTrue, option_map};
ghost use Rattle.pef_hash.specs.Exports.{entry_of};
ghost use Rattle.std.specs.Result.{result_err};
ghost use Rattle.pef_hash.specs.Views.{table_of};
ghost use Rattle.pef_loader.specs.Export.{export_refusal, export_table, export_tests, has_exports, has_section};

use crate::fault::{LoaderFault, NamedRow, refused_by};
use crate::header::{LoaderHeader, LoaderTables};
use pef_format::{ExportValue, is_export_section};
use pef_hash::Exports;
use pef_words::{Cut, first_met};

/// Returns the bytes from an offset on, none if it passes the end.
pub(crate) fn bytes_from<'a>(cut: Cut<'a>, offset: u32) -> &'a [u8]
    ensures { result.now ≡ drop offset cut.entry.bytes.now }
{
    let at = cut.len().min(offset as usize);
    let (_, rest) = cut.bytes().split_at(at);
    rest
}

/// Returns whether there are no exports, or the section has their whole table.
pub(crate) fn has_exports(tables: LoaderTables<'_>) -> bool
    ensures { result ≡ has_exports tables.entry.cut.bytes.now tables.entry.header }
{
    let header = tables.header;
    let table = bytes_from(tables.cut, header.export_hash_offset);
    Exports::has_table(header.export_power, header.export_count, table)
}

/// Returns the view of the exports.
pub(crate) fn exports<'a>(tables: LoaderTables<'a>) -> Exports<'a>
    requires { IsTrue (has_exports tables.cut.bytes.now tables.header) }
    ensures { table_of result ≡ export_table tables.entry.cut.bytes.now tables.entry.header }
{
    let header = tables.header;
    let table = bytes_from(tables.cut, header.export_hash_offset);
    let strings = bytes_from(tables.cut, header.strings_offset);
    Exports::new(header.export_power, header.export_count, table, strings)
}

/// Returns the view of the exports for readers by number. It takes the same time however many there are.
pub(crate) fn unsearched_exports<'a>(tables: LoaderTables<'a>) -> Exports<'a>
    requires { IsTrue (has_exports tables.cut.bytes.now tables.header) }
    ensures { table_of result ≡ export_table tables.entry.cut.bytes.now tables.entry.header }
{
    let header = tables.header;
    let table = bytes_from(tables.cut, header.export_hash_offset);
    let strings = bytes_from(tables.cut, header.strings_offset);
    Exports::unsearched(header.export_power, header.export_count, table, strings)
}

/// Reports the first rule that export `i` breaks.
pub(crate) fn test_export(
    exports: Exports<'_>,
    tables: LoaderTables<'_>,
    sections: u16,
    i: u32,
) -> Result<(), LoaderFault>
    requires { table_of exports ≡ export_table tables.cut.bytes.now tables.header }
    ensures { result_err result ≡ export_refusal tables.entry.cut.bytes.now tables.entry.header sections i }
{
    match tests_of_export(exports, tables, sections, i) {
        Some(table) => refused_by(first_met(table)),
        None => Err(LoaderFault::BadExportTable),
    }
}

/// Returns the tests of export `i`, in order, or `None` past the last one.
#[tactic(auto, unfolding(crate::specs::Export::export_tests))]
pub(crate) fn tests_of_export(
    exports: Exports<'_>,
    tables: LoaderTables<'_>,
    sections: u16,
    i: u32,
) -> Option<[(bool, LoaderFault); 2]>
    requires { table_of exports ≡ export_table tables.cut.bytes.now tables.header }
    ensures { result ≡ option_map (export_tests tables.entry.cut.bytes.now tables.entry.header sections i) (entry_of (export_table tables.entry.cut.bytes.now tables.entry.header) i) }
{
    let export = exports.entry(i as usize)?;
    let nameless = tables.header.strings_offset as usize > tables.cut.len()
        || exports.name(i as usize).is_none();
    Some([
        (
            nameless,
            LoaderFault::BadName {
                of: NamedRow::Export(i),
            },
        ),
        (
            !has_section(
                export.fields.section,
                export.fields.value,
                tables.header,
                sections,
            ),
            LoaderFault::BadExportSection { export: i },
        ),
    ])
}

/// Returns whether an export's value exists: it is in an instantiated section, it is absolute, or it is that of one
/// of the imports.
fn has_section(section: i32, value: u32, header: LoaderHeader, sections: u16) -> bool
    ensures { result ≡ has_section header sections value section }
{
    is_export_section(section)
        && match ExportValue::from_fields(section, value) {
            ExportValue::InSection { section, .. } => section < u32::from(sections),
            ExportValue::Absolute(_) => true,
            ExportValue::Reexport { import } => import < header.import_count,
        }
}
