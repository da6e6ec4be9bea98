//! The structs of `include/pef.h`, field by field.
ghost use Rattle.std.specs.Prelude.{◌≡◌};

use pef_format::{ExportView, ImportView};
use pef_loader::LibraryView;

/// A container's header.
#[repr(C)]
#[derive(Clone, Copy, Debug, PartialEq, Eq)]
pub struct PefHeader {
    pub date_time_stamp: u32,
    pub old_def_version: u32,
    pub old_imp_version: u32,
    pub current_version: u32,
    pub section_count: u16,
    pub instantiated_section_count: u16,
    pub architecture: u32,
}

/// Where an error is.
#[repr(C)]
#[derive(Clone, Copy, Debug, PartialEq, Eq)]
pub struct PefPlace {
    /// The kind of part, 0 for none.
    pub part: u32,
    pub row: usize,
    pub field: usize,
    pub offset: usize,
}

/// An error of a container, or a note on it.
#[repr(C)]
#[derive(Clone, Copy, Debug, PartialEq, Eq)]
pub struct PefFinding {
    pub place: PefPlace,
    /// The offset of a word in its section, a number of bytes, or a number of sections. 0 for others.
    pub detail: u64,
    pub number: u32,
    pub is_error: bool,
    /// The code of what the detail is, 0 for nothing.
    pub detail_kind: u8,
}

/// A container in a file, and what the containers before it leave of what the report on the file may cost.
#[repr(C)]
#[derive(Clone, Copy, Debug, PartialEq, Eq)]
pub struct PefFoundContainer {
    /// Where the container begins in the file. After the last one it is the length of the file.
    pub offset: usize,
    /// How many bytes the container can have.
    pub length: usize,
    /// How many containers are before it, and how many of these weren't inspected.
    pub number: u64,
    pub skipped: u64,
    pub budget: u64,
    pub program_bytes: u64,
    pub steps: u64,
    pub packed_bytes: u64,
    pub words: u64,
}

/// Rows of a container.
#[repr(C)]
#[derive(Clone, Copy, Debug, PartialEq, Eq)]
pub struct PefRowRange {
    /// Where the container begins in the file.
    pub offset: usize,
    /// The kind of part that a row is.
    pub part: u32,
    /// The first row, and how many. There may be fewer.
    pub from: u32,
    pub count: u32,
}

/// A section's header, without its name.
#[repr(C)]
#[derive(Clone, Copy, Debug, PartialEq, Eq)]
pub struct PefSection {
    pub default_address: u32,
    pub total_size: u32,
    pub unpacked_size: u32,
    pub packed_size: u32,
    pub container_offset: u32,
    pub kind: u8,
    pub share: u8,
    pub alignment: u8,
}

/// How many rows the tables of a loader section have, and its entry points. A section of -1 means that there is none.
#[repr(C)]
#[derive(Clone, Copy, Debug, PartialEq, Eq)]
pub struct PefLoader {
    pub main_section: i32,
    pub main_offset: u32,
    pub init_section: i32,
    pub init_offset: u32,
    pub term_section: i32,
    pub term_offset: u32,
    pub library_count: u32,
    pub import_count: u32,
    pub relocation_count: u32,
    pub export_count: u32,
}

/// An imported library.
#[repr(C)]
#[derive(Clone, Copy, Debug)]
pub struct PefLibrary<'a> {
    pub name: &'a [u8],
    pub current_version: u32,
    pub old_imp_version: u32,
    pub import_count: u32,
    pub first_import: u32,
    pub options: u8,
}

impl<'a> PefLibrary<'a> {
    ghost use Rattle.pef_loader.specs.Views.{library_seen};
    ghost use Rattle.pef_records.specs.Containers.Rows.{library_shown};

    /// Returns a library as C sees it.
    pub fn of(library: LibraryView<'a>) -> PefLibrary<'a>
        ensures { library_shown result ≡ library_seen library.entry }
    {
        let fields = library.fields;
        PefLibrary {
            name: library.name,
            current_version: fields.current,
            old_imp_version: fields.old_imp,
            import_count: fields.count,
            first_import: fields.first,
            options: fields.options,
        }
    }
}

/// An imported symbol.
#[repr(C)]
#[derive(Clone, Copy, Debug)]
pub struct PefImport<'a> {
    pub name: &'a [u8],
    pub library: usize,
    pub class: u8,
    pub weak: bool,
}

impl<'a> PefImport<'a> {
    ghost use Rattle.pef_format.specs.Symbols.{import_seen};
    ghost use Rattle.pef_records.specs.Containers.Rows.{import_shown};

    /// Returns an import as C sees it.
    pub fn of(import: ImportView<'a>) -> PefImport<'a>
        ensures { import_shown result ≡ import_seen import.entry }
    {
        PefImport {
            name: import.name,
            library: import.library,
            class: import.fields.class,
            weak: import.fields.weak,
        }
    }
}

/// A relocation header: the bytes of its instructions, and the section that they relocate.
#[repr(C)]
#[derive(Clone, Copy, Debug)]
pub struct PefRelocation<'a> {
    pub instructions: &'a [u8],
    pub section: u32,
}

/// An addition of a relocation program: the word that gets an address, and which.
#[repr(C)]
#[derive(Clone, Copy, Debug, PartialEq, Eq)]
pub struct PefFixup {
    pub offset: u64,
    /// The number of the section or of the import.
    pub number: u64,
    /// 1 for a section, 2 for an import.
    pub kind: u32,
}

/// An exported symbol.
#[repr(C)]
#[derive(Clone, Copy, Debug)]
pub struct PefExport<'a> {
    pub name: &'a [u8],
    pub section: i32,
    pub value: u32,
    pub class: u8,
}

impl<'a> PefExport<'a> {
    ghost use Rattle.pef_format.specs.Exports.{export_seen};
    ghost use Rattle.pef_records.specs.Containers.Rows.{export_shown};

    /// Returns an export as C sees it.
    pub fn of(export: ExportView<'a>) -> PefExport<'a>
        ensures { export_shown result ≡ export_seen export.entry }
    {
        PefExport {
            name: export.name,
            section: export.fields.section,
            value: export.fields.value,
            class: export.fields.class,
        }
    }
}

/// The names that are reported with a refusal. A name that isn't reported is empty.
#[repr(C)]
#[derive(Clone, Copy, Debug)]
pub struct PefNames {
    pub fragment: &'static [u8],
    pub library: &'static [u8],
    pub symbol: &'static [u8],
}

/// A library that a context lacks.
#[repr(C)]
#[derive(Clone, Copy, Debug)]
pub struct PefMissing {
    pub name: &'static [u8],
    /// The fragment that names the library.
    pub fragment: usize,
    pub current_version: u32,
    pub old_imp_version: u32,
    /// The versions of the fragment with the library's name, 0 if there is none.
    pub found_version: u32,
    pub found_old_def_version: u32,
    pub is_weak: bool,
    /// Whether there is a fragment with the library's name, whose versions don't fit.
    pub is_found: bool,
}

/// A library that a context lacks, whichever fragment is prepared.
#[repr(C)]
#[derive(Clone, Copy, Debug)]
pub struct PefLacking {
    pub name: &'static [u8],
    /// Whether each fragment that names it can be prepared without it.
    pub is_weak: bool,
}

/// A section that a preparation would place.
#[repr(C)]
#[derive(Clone, Copy, Debug, PartialEq, Eq)]
pub struct PefNewSection {
    pub fragment: usize,
    /// Its number in the fragment's container.
    pub section: u32,
    pub kind: u8,
    pub share: u8,
    /// How many bytes it takes.
    pub size: u64,
    /// Its address has to be a multiple of this.
    pub alignment: u64,
}

/// A section of a fragment that is present.
#[repr(C)]
#[derive(Clone, Copy, Debug, PartialEq, Eq)]
pub struct PefFragmentSection {
    pub address: u32,
    pub size: usize,
    pub kind: u8,
    pub share: u8,
}

/// What an import means.
#[repr(C)]
#[derive(Clone, Copy, Debug, PartialEq, Eq)]
pub struct PefTarget {
    /// 0 if it is missing and weak, 1 for an absolute number, 2 for a place in a section.
    pub kind: u32,
    pub fragment: usize,
    pub section: u32,
    pub offset: u32,
    /// The address that was added for the import.
    pub address: u32,
}

/// The addresses of a fragment's entry points. One that isn't there has the address 0.
#[repr(C)]
#[derive(Clone, Copy, Debug, PartialEq, Eq)]
pub struct PefEntries {
    pub init: u32,
    pub main: u32,
    pub term: u32,
    pub has_init: bool,
    pub has_main: bool,
    pub has_term: bool,
}

/// An export of a fragment that is present.
#[repr(C)]
#[derive(Clone, Copy, Debug)]
pub struct PefFragmentExport {
    pub name: &'static [u8],
    pub number: usize,
    /// Where it ends, with the address.
    pub target: PefTarget,
    /// The import that it passes on, or 0.
    pub import_number: usize,
    pub class: u8,
    /// Whether it passes an import on.
    pub is_reexport: bool,
}

/// Where an address is.
#[repr(C)]
#[derive(Clone, Copy, Debug)]
pub struct PefLocation {
    pub fragment: usize,
    pub section: usize,
    /// An open connection whose closure has the fragment.
    pub connection: u32,
    pub offset: u32,
    /// Whether the section has an export at the address or before it.
    pub has_nearest: bool,
    pub nearest: PefFragmentExport,
}
