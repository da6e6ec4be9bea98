ghost use Rattle.std.specs.Prelude.{◌≡◌, ◌<◌, ◌^◌, IfSome, Some};
ghost use Rattle.pef_format.specs.Places.{field_from};
ghost use Rattle.pef_views.specs.PartialViews.{partly};
ghost use Rattle.pef_views.specs.Views.{contained};
ghost use Rattle.pef_loader.specs.Header.{header_of};
ghost use Rattle.pef_loader.specs.Places.{export_start, loader_start, place_of, program_start, start_in, start_of};

use crate::header::{LoaderHeader, LoaderTables, library_place, read_header};
use crate::reloc::read_reloc;
use pef_format::layout::{
    CONTAINER_HEADER_SIZE, INIT_SECTION_AT, MAIN_SECTION_AT, MAX_HASH_TABLE_POWER,
    SECTION_HEADER_SIZE, TERM_SECTION_AT,
};
use pef_format::{Part, Place};
use pef_hash::export_place;
use pef_views::{Container, PartialContainer};
use pef_words::Cut;

/// Returns the place of a part's field in a container, by the part's number and the field's offset in the part.
///
/// It has no offset without a loader section that has a header, for the parts in there, or without a section of this number,
/// for its packed data. The numbers of other parts aren't compared with how many there are.
pub fn place_in(container: &Container<'_>, part: Part, row: u32, field: usize) -> Place
    ensures { result ≡ place_of (contained container.now) part row field }
{
    Place {
        part,
        row: row as usize,
        field,
        offset: field_from(start_of(container, part, row), field),
    }
}

/// Returns the place of a part's field in a container that may be damaged, by the part's number and the field's offset in the
/// part.
///
/// It has no offset where [`place_in`] has none. It takes the same time however large the container is.
pub fn partial_place(container: &PartialContainer<'_>, part: Part, row: u32, field: usize) -> Place
    ensures { result ≡ place_of (partly container.now) part row field }
{
    Place {
        part,
        row: row as usize,
        field,
        offset: field_from(partial_start(container, part, row), field),
    }
}

/// Returns where a part begins in a container that may be damaged.
#[tactic(auto, unfolding(crate::specs::Places::start_of, pef_views::specs::Container::section_of))]
fn partial_start(container: &PartialContainer<'_>, part: Part, row: u32) -> Option<usize>
    ensures { result ≡ start_of (partly container.now) part row }
{
    match part {
        Part::Header => Some(0),
        Part::Section => Some(CONTAINER_HEADER_SIZE + SECTION_HEADER_SIZE * row as usize),
        Part::PackedData => {
            let section = container.section(row as usize)?;
            Some(section.container_offset as usize)
        }
        Part::LoaderHeader
        | Part::Library
        | Part::Import
        | Part::Main
        | Part::Init
        | Part::Term
        | Part::Relocation
        | Part::Export
        | Part::Program
        | Part::Line => partial_loader_start(container, part, row),
    }
}

/// Returns where a part of a loader section begins in a container that may be damaged.
fn partial_loader_start(container: &PartialContainer<'_>, part: Part, row: u32) -> Option<usize>
    ensures { result ≡ loader_start (partly container.now) part row }
{
    let from = container.loader_offset()?;
    let start = start_in(container.loader_bytes(), part, row)?;
    Some(from + start)
}

/// Returns where a field is, if its part begins somewhere.
pub(crate) fn field_from(start: Option<usize>, field: usize) -> Option<usize>
    ensures { result ≡ field_from start field }
{
    start?.checked_add(field)
}

/// Returns where a part begins in a container.
#[tactic(auto, unfolding(crate::specs::Places::start_of))]
fn start_of(container: &Container<'_>, part: Part, row: u32) -> Option<usize>
    ensures { result ≡ start_of (contained container.now) part row }
{
    match part {
        Part::Header => Some(0),
        Part::Section => Some(CONTAINER_HEADER_SIZE + SECTION_HEADER_SIZE * row as usize),
        Part::PackedData => {
            let section = container.section(row as usize)?;
            Some(section.header.container_offset as usize)
        }
        Part::LoaderHeader
        | Part::Library
        | Part::Import
        | Part::Main
        | Part::Init
        | Part::Term
        | Part::Relocation
        | Part::Export
        | Part::Program
        | Part::Line => loader_start(container, part, row),
    }
}

/// Returns where a part of a loader section begins in its container.
fn loader_start(container: &Container<'_>, part: Part, row: u32) -> Option<usize>
    ensures { result ≡ loader_start (contained container.now) part row }
{
    let from = container.loader_offset()?;
    let start = start_in(container.loader(), part, row)?;
    Some(from + start)
}

/// Returns where a part begins in a loader section.
#[tactic(auto, unfolding(crate::specs::Places::start_in))]
pub(crate) fn start_in(loader: &[u8], part: Part, row: u32) -> Option<usize>
    ensures value { result ≡ start_in loader.now part row }
    ensures small { IfSome result (λ start. start < 2 ^ 40) }
{
    let cut = Cut::new(loader);
    match part {
        Part::LoaderHeader => Some(0),
        Part::Main => Some(MAIN_SECTION_AT),
        Part::Init => Some(INIT_SECTION_AT),
        Part::Term => Some(TERM_SECTION_AT),
        Part::Library => Some(library_place(row as usize)),
        Part::Import | Part::Relocation | Part::Export | Part::Program => {
            let header = read_header(cut)?;
            tables_start(LoaderTables { cut, header }, part, row)
        }
        Part::Header | Part::Section | Part::PackedData | Part::Line => None,
    }
}

/// Returns where a part begins in a loader section whose header was read.
#[tactic(auto, unfolding(crate::specs::Places::start_in))]
fn tables_start(tables: LoaderTables<'_>, part: Part, row: u32) -> Option<usize>
    requires { header_of tables.cut.bytes.now ≡ Some tables.header }
    ensures value { result ≡ start_in tables.entry.cut.bytes.now part row }
    ensures small { IfSome result (λ start. start < 2 ^ 40) }
{
    let k = row as usize;
    match part {
        Part::LoaderHeader => Some(0),
        Part::Main => Some(MAIN_SECTION_AT),
        Part::Init => Some(INIT_SECTION_AT),
        Part::Term => Some(TERM_SECTION_AT),
        Part::Library => Some(library_place(k)),
        Part::Import => Some(tables.header.import(k)),
        Part::Relocation => Some(tables.header.reloc(k)),
        Part::Export => export_start(tables.header, row),
        Part::Program => program_start(tables, row),
        Part::Header | Part::Section | Part::PackedData | Part::Line => None,
    }
}

/// Returns where a part begins in a container whose loader header was read.
#[tactic(auto, unfolding(crate::specs::Places::start_of))]
pub(crate) fn start_with(
    container: &PartialContainer<'_>,
    tables: LoaderTables<'_>,
    part: Part,
    row: u32,
) -> Option<usize>
    requires section { tables.cut.bytes.now ≡ (partly container.now).loader }
    requires headed { header_of tables.cut.bytes.now ≡ Some tables.header }
    ensures { result ≡ start_of (partly container.now) part row }
{
    match part {
        Part::Header | Part::Section | Part::PackedData => partial_start(container, part, row),
        Part::LoaderHeader
        | Part::Library
        | Part::Import
        | Part::Main
        | Part::Init
        | Part::Term
        | Part::Relocation
        | Part::Export
        | Part::Program
        | Part::Line => {
            let from = container.loader_offset()?;
            let start = tables_start(tables, part, row)?;
            Some(from + start)
        }
    }
}

/// Returns where export `e` begins, or `None` if the table would have more than 2^30 slots.
fn export_start(header: LoaderHeader, e: u32) -> Option<usize>
    ensures value { result ≡ export_start header e }
    ensures small { IfSome result (λ start. start < 2 ^ 40) }
{
    if header.export_power > MAX_HASH_TABLE_POWER {
        return None;
    }
    let place = export_place(header.export_power, header.export_count, e as usize);
    Some(header.export_hash_offset as usize + place)
}

/// Returns where the program of relocation header `k` begins.
fn program_start(tables: LoaderTables<'_>, k: u32) -> Option<usize>
    ensures value { result ≡ program_start tables.entry.cut.bytes.now tables.entry.header k }
    ensures small { IfSome result (λ start. start < 2 ^ 40) }
{
    let reloc = read_reloc(tables, k as usize)?;
    Some(tables.header.reloc_instr_offset as usize + reloc.first as usize)
}
