ghost use Rattle.std.specs.Prelude.{◌≡◌, ◌+◌, ◌<◌, ◌^◌};
ghost use Rattle.pef_loader.specs.Faults.{entry_part};
ghost use Rattle.pef_loader.specs.Header.{header_of, import_place, is_entry, library_place, reloc_place, tables_end};

use pef_format::layout::{
    EXPORT_HASH_OFFSET_AT, EXPORT_HASH_TABLE_POWER_AT, EXPORTED_SYMBOL_COUNT_AT, IMPORT_SIZE,
    IMPORTED_LIBRARY_COUNT_AT, INIT_OFFSET_AT, INIT_SECTION_AT, LIBRARY_SIZE, LOADER_HEADER_SIZE,
    LOADER_STRINGS_OFFSET_AT, MAIN_OFFSET_AT, MAIN_SECTION_AT, RELOC_INSTR_OFFSET_AT,
    RELOC_SECTION_COUNT_AT, RELOCATION_HEADER_SIZE, TERM_OFFSET_AT, TERM_SECTION_AT,
    TOTAL_IMPORTED_SYMBOL_COUNT_AT,
};
use pef_format::{EntryPoint, Part, is_entry_section};
use pef_words::Cut;

/// The loader header, field by field (PEFLoaderInfoHeader). Offsets are relative to the first byte of the loader
/// section.
#[derive(Clone, Copy, Debug)]
pub struct LoaderHeader {
    /// The section of the main entry point, or -1 for none.
    pub main_section: i32,
    pub main_offset: u32,
    /// The section of the initialization routine, or -1 for none.
    pub init_section: i32,
    pub init_offset: u32,
    /// The section of the termination routine, or -1 for none.
    pub term_section: i32,
    pub term_offset: u32,
    pub library_count: u32,
    pub import_count: u32,
    pub reloc_count: u32,
    /// The offset of the relocation instructions.
    pub reloc_instr_offset: u32,
    /// The offset of the names.
    pub strings_offset: u32,
    /// The offset of the export hash table.
    pub export_hash_offset: u32,
    /// The export hash table has 2 to this power slots.
    pub export_power: u32,
    pub export_count: u32,
}

impl LoaderHeader {
    /// Returns where import `j` begins: the imports follow the libraries.
    pub(crate) fn import(&self, j: usize) -> usize
        requires { j < 2 ^ 32 }
        ensures value { result ≡ import_place self.now j }
        ensures small { result < 2 ^ 38 }
    {
        library_place(self.library_count as usize) + IMPORT_SIZE * j
    }

    /// Returns where relocation header `k` begins: the relocation headers follow the imports.
    pub(crate) fn reloc(&self, k: usize) -> usize
        requires { k < 2 ^ 32 }
        ensures value { result ≡ reloc_place self.now k }
        ensures small { result < 2 ^ 39 }
    {
        self.import(self.import_count as usize) + RELOCATION_HEADER_SIZE * k
    }

    /// Returns where the relocation headers end.
    pub(crate) fn end(&self) -> usize
        ensures { result ≡ tables_end self.now }
    {
        self.reloc(self.reloc_count as usize)
    }

    /// Returns where the name with this offset begins.
    pub(crate) fn name(&self, offset: u32) -> usize
        ensures { result ≡ self.now.strings_offset + offset }
    {
        self.strings_offset as usize + offset as usize
    }
}

/// Which of the three entry points of a loader header.
#[derive(Clone, Copy, Debug, PartialEq, Eq)]
pub enum EntryKind {
    /// The main entry point.
    Main,

    /// The initialization routine.
    Init,

    /// The termination routine.
    Term,
}

impl EntryKind {
    /// Returns the part of a container that the entry point is.
    pub(crate) fn part(self) -> Part
        ensures { result ≡ entry_part self }
    {
        match self {
            EntryKind::Main => Part::Main,
            EntryKind::Init => Part::Init,
            EntryKind::Term => Part::Term,
        }
    }
}

/// The tables of a loader section: its bytes, and the header that says where each table is.
#[derive(Clone, Copy, Debug)]
pub(crate) struct LoaderTables<'a> {
    pub cut: Cut<'a>,
    pub header: LoaderHeader,
}

/// Returns where library `i` begins: the libraries follow the header.
pub(crate) fn library_place(i: usize) -> usize
    requires { i < 2 ^ 32 }
    ensures value { result ≡ library_place i }
    ensures small { result < 2 ^ 37 }
{
    LOADER_HEADER_SIZE + LIBRARY_SIZE * i
}

/// Reads the header of a loader section, or returns `None` if it passes the end.
#[tactic(auto, unfolding(crate::specs::Header::header_of))]
pub(crate) fn read_header(cut: Cut<'_>) -> Option<LoaderHeader>
    ensures { result ≡ header_of cut.entry.bytes.now }
{
    Some(LoaderHeader {
        main_section: cut.i32_at(MAIN_SECTION_AT)?,
        main_offset: cut.u32_at(MAIN_OFFSET_AT)?,
        init_section: cut.i32_at(INIT_SECTION_AT)?,
        init_offset: cut.u32_at(INIT_OFFSET_AT)?,
        term_section: cut.i32_at(TERM_SECTION_AT)?,
        term_offset: cut.u32_at(TERM_OFFSET_AT)?,
        library_count: cut.u32_at(IMPORTED_LIBRARY_COUNT_AT)?,
        import_count: cut.u32_at(TOTAL_IMPORTED_SYMBOL_COUNT_AT)?,
        reloc_count: cut.u32_at(RELOC_SECTION_COUNT_AT)?,
        reloc_instr_offset: cut.u32_at(RELOC_INSTR_OFFSET_AT)?,
        strings_offset: cut.u32_at(LOADER_STRINGS_OFFSET_AT)?,
        export_hash_offset: cut.u32_at(EXPORT_HASH_OFFSET_AT)?,
        export_power: cut.u32_at(EXPORT_HASH_TABLE_POWER_AT)?,
        export_count: cut.u32_at(EXPORTED_SYMBOL_COUNT_AT)?,
    })
}

/// Returns whether an entry point is missing or is in one of the instantiated sections.
pub(crate) fn is_entry(section: i32, sections: u16) -> bool
    ensures { result ≡ is_entry sections section }
{
    is_entry_section(section)
        && match EntryPoint::from_fields(section, 0) {
            Some(entry) => entry.section < u32::from(sections),
            None => true,
        }
}
