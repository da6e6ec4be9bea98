//! Rows of all kinds.
ghost use Rattle.std.specs.Prelude.{◌≡◌};
ghost use Rattle.pef_ports.specs.Sent.{Sends};
ghost use Rattle.pef_rows.specs.RowViews.{line_of, object_of};

use crate::lines::{
    print_entry, print_export, print_header, print_import, print_library, print_loader,
    print_relocation, print_section,
};
use crate::objects::{
    print_entry_object, print_export_object, print_header_object, print_import_object,
    print_library_object, print_loader_object, print_section_object,
};
use crate::programs::print_relocation_object;
use crate::rows::{
    EntryRow, ExportRow, HeaderRow, ImportRow, LibraryRow, LoaderRow, RelocationRow, SectionRow,
};
use pef_ports::{Page, Sink, StreamFault};

/// A row of a container.
#[derive(Clone, Copy)]
pub enum Row<'a> {
    Header(HeaderRow),
    Section(SectionRow<'a>),
    Loader(LoaderRow),
    Library(LibraryRow<'a>),
    Import(ImportRow<'a>),
    Main(EntryRow),
    Init(EntryRow),
    Term(EntryRow),
    Relocation(RelocationRow<'a>),
    Export(ExportRow<'a>),
}

/// Prints the line of a row.
pub fn print_row<W: Sink>(out: &mut W, page: &mut Page, row: Row<'_>) -> Result<(), StreamFault>
    ensures { Sends result (W.stream out.old) (W.stream out.new) page.old.items page.new.items (line_of row.entry) }
{
    match row {
        Row::Header(row) => print_header(out, page, row),
        Row::Section(row) => print_section(out, page, row),
        Row::Loader(row) => print_loader(out, page, row),
        Row::Library(row) => print_library(out, page, row),
        Row::Import(row) => print_import(out, page, row),
        Row::Main(row) => print_entry(out, page, b" main ", row),
        Row::Init(row) => print_entry(out, page, b" init ", row),
        Row::Term(row) => print_entry(out, page, b" term ", row),
        Row::Relocation(row) => print_relocation(out, page, row),
        Row::Export(row) => print_export(out, page, row),
    }
}

/// Prints the object of a row.
pub fn print_row_object<W: Sink>(
    out: &mut W,
    page: &mut Page,
    row: Row<'_>,
) -> Result<(), StreamFault>
    ensures { Sends result (W.stream out.old) (W.stream out.new) page.old.items page.new.items (object_of row.entry) }
{
    match row {
        Row::Header(row) => print_header_object(out, page, row),
        Row::Section(row) => print_section_object(out, page, row),
        Row::Loader(row) => print_loader_object(out, page, row),
        Row::Library(row) => print_library_object(out, page, row),
        Row::Import(row) => print_import_object(out, page, row),
        Row::Main(row) | Row::Init(row) | Row::Term(row) => {
            print_entry_object(out, page, b"", row)
        }
        Row::Relocation(row) => print_relocation_object(out, page, row),
        Row::Export(row) => print_export_object(out, page, row),
    }
}
