ghost use Rattle.std.specs.Prelude.{◌≡◌};
ghost use Rattle.std.specs.Result.{result_err};
ghost use Rattle.pef_format.specs.declared.place.Part.TheVariants.{LoaderHeader};
ghost use Rattle.pef_views.specs.PartialViews.{partly};
ghost use Rattle.pef_views.specs.Views.{contained};
ghost use Rattle.pef_loader.specs.Faults.{fault_field, fault_name, fault_number, fault_offset, fault_place, field_of, name_field};
ghost use Rattle.pef_loader.specs.Kept.Fields.{field_seen};

use crate::header::EntryKind;
use crate::place::{field_from, partial_place, place_in, start_in};
use pef_format::layout::{
    EXPORT_CLASS_AND_NAME_AT, EXPORT_HASH_OFFSET_AT, EXPORT_SECTION_AT, FIRST_IMPORTED_SYMBOL_AT,
    IMPORTED_LIBRARY_COUNT_AT, LIBRARY_NAME_OFFSET_AT, RELOC_COUNT_AT, SECTION_INDEX_AT,
};
use pef_format::{Part, Place};
use pef_views::{Container, PartialContainer};
use std::fmt;
use thiserror::Error;

/// The first rule of the format that a loader section breaks, with the number of the row that breaks it, from 0. Its
/// text is its name. `docs/ERRORS.md` describes each.
#[derive(Clone, Copy, Debug, PartialEq, Eq, Error)]
pub enum LoaderFault {
    /// The header passes the end.
    LoaderShort,

    /// The libraries, imports and relocation headers pass the end.
    BadTableOffset,

    /// The name of a library or an import has no zero byte at its end, or the name of an export passes the end.
    BadName { of: NamedRow },

    /// A library's range of imports passes the number of imports.
    BadLibraryRange { library: u32 },

    /// An import belongs to no library.
    OrphanImport { import: u32 },

    /// An entry point is in no instantiated section.
    BadEntry { entry: EntryKind },

    /// A relocation header names no instantiated section.
    BadRelocSection { header: u32 },

    /// The instructions of a relocation header pass the end.
    RelocOutside { header: u32 },

    /// There are exports, and their hash table passes the end or has more than 2^30 slots.
    BadExportTable,

    /// An export is in no instantiated section, isn't absolute, and isn't one of the imports.
    BadExportSection { export: u32 },
}

/// A row that has a name: one of the libraries, imports or exports, with its number from 0.
#[derive(Clone, Copy, Debug, PartialEq, Eq)]
pub enum NamedRow {
    Library(u32),
    Import(u32),
    Export(u32),
}

impl LoaderFault {
    /// Returns the number of the error, from 11 to 20. No error of another crate has it.
    pub fn number(&self) -> u32
        ensures { result ≡ fault_number self.now }
    {
        match self {
            LoaderFault::LoaderShort => 11,
            LoaderFault::BadTableOffset => 12,
            LoaderFault::BadName { .. } => 13,
            LoaderFault::BadLibraryRange { .. } => 14,
            LoaderFault::OrphanImport { .. } => 15,
            LoaderFault::BadEntry { .. } => 16,
            LoaderFault::BadRelocSection { .. } => 17,
            LoaderFault::RelocOutside { .. } => 18,
            LoaderFault::BadExportTable => 19,
            LoaderFault::BadExportSection { .. } => 20,
        }
    }

    /// Returns the name of the error, which is its text.
    pub fn name(&self) -> &'static str
        ensures { result.now ≡ fault_name self.now }
    {
        match self {
            LoaderFault::LoaderShort => "LoaderShort",
            LoaderFault::BadTableOffset => "BadTableOffset",
            LoaderFault::BadName { .. } => "BadName",
            LoaderFault::BadLibraryRange { .. } => "BadLibraryRange",
            LoaderFault::OrphanImport { .. } => "OrphanImport",
            LoaderFault::BadEntry { .. } => "BadEntry",
            LoaderFault::BadRelocSection { .. } => "BadRelocSection",
            LoaderFault::RelocOutside { .. } => "RelocOutside",
            LoaderFault::BadExportTable => "BadExportTable",
            LoaderFault::BadExportSection { .. } => "BadExportSection",
        }
    }

    /// Returns the offset in the loader section of the field that the broken rule is about.
    ///
    /// `loader` has the bytes of the loader section. `None` if the header passes the end and the field is after the
    /// libraries. An export has no offset if there would be more than 2^30 slots.
    /// [`Loader::read`](crate::Loader::read) reports no such fault.
    pub fn offset(&self, loader: &[u8]) -> Option<usize>
        ensures { result ≡ fault_offset loader.now self.now }
    {
        let of = self.field();
        field_from(start_in(loader, of.part, of.row), of.field)
    }

    /// Returns the place of the field that the broken rule is about, in the container of the loader
    /// section.
    pub fn place(&self, container: &Container<'_>) -> Place
        ensures { result ≡ fault_place (contained container.now) self.now }
    {
        let of = self.field();
        place_in(container, of.part, of.row, of.field)
    }

    /// Returns the place of the field that the broken rule is about, in a container that may be damaged.
    pub fn partial_place(&self, container: &PartialContainer<'_>) -> Place
        ensures { result ≡ fault_place (partly container.now) self.now }
    {
        let of = self.field();
        partial_place(container, of.part, of.row, of.field)
    }

    /// Returns the field that the broken rule is about.
    fn field(&self) -> RowField
        ensures { field_seen result ≡ fault_field self.now }
    {
        match *self {
            LoaderFault::LoaderShort => loader_field(0),
            LoaderFault::BadTableOffset => loader_field(IMPORTED_LIBRARY_COUNT_AT),
            LoaderFault::BadName { of } => name_field(of),
            LoaderFault::BadLibraryRange { library } => {
                row_field(Part::Library, library, FIRST_IMPORTED_SYMBOL_AT)
            }
            LoaderFault::OrphanImport { import } => row_field(Part::Import, import, 0),
            LoaderFault::BadEntry { entry } => row_field(entry.part(), 0, 0),
            LoaderFault::BadRelocSection { header } => {
                row_field(Part::Relocation, header, SECTION_INDEX_AT)
            }
            LoaderFault::RelocOutside { header } => {
                row_field(Part::Relocation, header, RELOC_COUNT_AT)
            }
            LoaderFault::BadExportTable => loader_field(EXPORT_HASH_OFFSET_AT),
            LoaderFault::BadExportSection { export } => {
                row_field(Part::Export, export, EXPORT_SECTION_AT)
            }
        }
    }
}

/// Returns the refusal by a fault, if there is one.
pub(crate) fn refused_by(fault: Option<LoaderFault>) -> Result<(), LoaderFault>
    ensures { result_err result ≡ fault }
{
    match fault {
        Some(fault) => Err(fault),
        None => Ok(()),
    }
}

/// A row of a loader section, and the offset of a field in it.
#[derive(Clone, Copy)]
struct RowField {
    part: Part,
    row: u32,
    field: usize,
}

/// Returns a field of a row.
fn row_field(part: Part, row: u32, field: usize) -> RowField
    ensures { field_seen result ≡ field_of part row field }
{
    RowField { part, row, field }
}

/// Returns a field of the loader header.
fn loader_field(field: usize) -> RowField
    ensures { field_seen result ≡ field_of LoaderHeader 0 field }
{
    row_field(Part::LoaderHeader, 0, field)
}

/// Returns the field that says where a row's name begins.
fn name_field(of: NamedRow) -> RowField
    ensures { field_seen result ≡ name_field of }
{
    match of {
        NamedRow::Library(i) => row_field(Part::Library, i, LIBRARY_NAME_OFFSET_AT),
        NamedRow::Import(j) => row_field(Part::Import, j, 0),
        NamedRow::Export(e) => row_field(Part::Export, e, EXPORT_CLASS_AND_NAME_AT),
    }
}

impl fmt::Display for LoaderFault {
    ghost use Rattle.std.specs.Prelude.{Some};
    ghost use Rattle.pef_loader.specs.Faults.{fault_name};

    ghost output = { λ fault. Some (fault_name fault) };

    fn fmt<W: fmt::Write>(&self, f: &mut fmt::Formatter<W>) -> fmt::Result {
        f.write_str(self.name())
    }
}
