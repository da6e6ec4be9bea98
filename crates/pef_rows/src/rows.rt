//! The rows of a container as they are printed. `at` is the offset of each in the file. At most [`MAX_NAME_LENGTH`] bytes of a name
//! are looked at, since many rows can share one long name.
use pef_format::Place;
use pef_inspect::Detail;
use pef_loader::{CutExport, CutImport, CutLibrary, CutName, LoaderHeader};
use pef_reloc::Instr;
use pef_views::{Header, SectionHeader};

/// How many bytes of a row's name are looked at.
pub const MAX_NAME_LENGTH: usize = 4096;

/// A container's header.
#[derive(Clone, Copy)]
pub struct HeaderRow {
    pub at: u64,
    pub header: Header,
}

/// A section.
#[derive(Clone, Copy)]
pub struct SectionRow<'a> {
    /// The offset of its header.
    pub at: u64,
    pub number: u64,
    pub header: SectionHeader,
    pub name: Option<CutName<'a>>,
    /// The offset in the file of its raw bytes.
    pub raw: u64,
}

/// A loader header.
#[derive(Clone, Copy)]
pub struct LoaderRow {
    pub at: u64,
    pub header: LoaderHeader,
}

/// An imported library.
#[derive(Clone, Copy)]
pub struct LibraryRow<'a> {
    pub at: u64,
    pub library: CutLibrary<'a>,
}

/// An imported symbol.
#[derive(Clone, Copy)]
pub struct ImportRow<'a> {
    pub at: u64,
    pub number: u64,
    pub import: CutImport<'a>,
    /// The name of its library.
    pub library_name: Option<CutName<'a>>,
}

/// An entry point.
#[derive(Clone, Copy)]
pub struct EntryRow {
    pub at: u64,
    pub section: i32,
    pub offset: u32,
}

/// A relocation header.
#[derive(Clone, Copy)]
pub struct RelocationRow<'a> {
    pub at: u64,
    pub section: u16,
    pub count: u32,
    pub first: u32,
    /// Its program, if the instructions are printed.
    pub program: Option<ProgramRow<'a>>,
}

/// A relocation program. Its instructions are printed up to the first bytes that aren't one.
#[derive(Clone, Copy)]
pub struct ProgramRow<'a> {
    pub at: u64,
    pub bytes: &'a [u8],
}

/// A relocation instruction.
#[derive(Clone, Copy)]
pub struct InstrRow {
    pub at: u64,
    pub instr: Instr,
}

/// An exported symbol.
#[derive(Clone, Copy)]
pub struct ExportRow<'a> {
    pub at: u64,
    pub export: CutExport<'a>,
}

/// An error or a note.
#[derive(Clone, Copy)]
pub struct FindingRow {
    /// The offset in the file of the container.
    pub base: u64,
    pub number: u32,
    pub name: &'static str,
    pub is_error: bool,
    pub place: Place,
    pub detail: Detail,
}
