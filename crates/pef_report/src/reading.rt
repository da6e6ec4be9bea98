//! The rows of a container that may be damaged, as far as each can be read.
ghost use Rattle.std.specs.Prelude.{◌≡◌, ◌<◌, ◌^◌, Some, option_map};
ghost use Rattle.std.specs.Option.{ForSome, option_copied, option_map_or};
ghost use Rattle.pef_views.specs.Container.{name_in};
ghost use Rattle.pef_views.specs.Header.{names_from};
ghost use Rattle.pef_views.specs.PartialViews.{partly};
ghost use Rattle.pef_loader.specs.CutNames.{cut_name};
ghost use Rattle.pef_loader.specs.PartialViews.{cut_seen, names_bytes, partly_loaded};
ghost use Rattle.pef_loader.specs.Places.{place_of};
ghost use Rattle.pef_rows.specs.Findings.{file_offset};
ghost use Rattle.pef_rows.specs.RowViews.{line_of, object_of, program_seen};
ghost use Rattle.pef_report.specs.Readable.{export_row_line, export_row_object, header_row_line, header_row_object, import_line_in, import_object_in, import_offset, import_row_line, import_row_object, init_row_line, init_row_object, library_name, library_row_line, library_row_object, line_at, loader_count, loader_in, loader_row_line, loader_row_object, main_row_line, main_row_object, object_at, program_in, program_of, readable_at, relocation_row_line, relocation_row_object, row_count, section_row_line, section_row_object, sections_in, term_row_line, term_row_object};
ghost use Rattle.pef_rows.specs.Tokens.{row_name};
ghost use Rattle.pef_rows.specs.declared.any_row.Row.TheVariants as row;

use pef_format::layout::{CONTAINER_HEADER_SIZE, SECTION_HEADER_SIZE};
use pef_format::{Named, Part};
use pef_loader::{CutName, Names, PartialImports, PartialLoader, partial_place};
use pef_rows::{
    EntryRow, ExportRow, HeaderRow, ImportRow, LibraryRow, LoaderRow, MAX_NAME_LENGTH, ProgramRow,
    RelocationRow, Row, SectionRow, file_offset,
};
use pef_views::PartialContainer;

/// What can be read of the bytes at an offset of a file.
#[derive(Drop)]
pub(crate) struct Reading<'a> {
    base: u64,
    container: Option<PartialContainer<'a>>,
    /// The names of sections are among those of the whole container.
    names: Names<'a>,
    loader: Option<LoaderReading<'a>>,
    programs: u32,
    ghost named: { ForSome container (λ c. names_bytes names ≡ (partly c).bytes) },
    ghost placed: { ForSome loader (λ r. container ≡ Some r.loader.container) },
}

/// A loader section, and the reader of its imports.
#[derive(Drop)]
struct LoaderReading<'a> {
    loader: PartialLoader<'a>,
    imports: PartialImports<'a>,
    owner: Owner<'a>,
    ghost same: { imports.loader ≡ loader },
    ghost owned: { option_map cut_seen owner.name ≡ library_name (partly_loaded loader) (Some owner.library) },
}

/// The library of the last import that was read, and its name. Most imports have that of the one before.
#[derive(Clone, Copy)]
struct Owner<'a> {
    library: usize,
    name: Option<CutName<'a>>,
}

impl<'a> Reading<'a> {
    ghost use Rattle.pef_report.specs.Views.{readable};

    /// Reads what can be read of `bytes`, which begin at the offset `base` of a file. The first `programs` relocation
    /// programs are printed.
    #[tactic(auto, unfolding(crate::specs::Readable::readable_at))]
    pub(crate) fn new(base: u64, bytes: &'a [u8], programs: u32) -> Reading<'a>
        ensures { readable result ≡ readable_at base bytes.entry.now programs }
    {
        match PartialContainer::read(bytes) {
            Ok(container) => Reading {
                base,
                container: Some(container),
                names: Names::new(container.bytes()),
                loader: LoaderReading::new(&container),
                programs,
            },
            Err(_) => Reading {
                base,
                container: None,
                names: Names::new(&[]),
                loader: None,
                programs,
            },
        }
    }

    /// Returns how many rows of a kind can be read.
    #[tactic(auto, unfolding(crate::specs::Readable::row_count))]
    pub(crate) fn count(&self, part: Part) -> u32
        ensures { result ≡ row_count (readable self.now) part }
    {
        match part {
            Part::Header => self.headers(),
            Part::Section => self.sections(),
            Part::LoaderHeader
            | Part::Library
            | Part::Import
            | Part::Main
            | Part::Init
            | Part::Term
            | Part::Relocation
            | Part::Export
            | Part::PackedData
            | Part::Program
            | Part::Line => self.loader_rows(part),
        }
    }

    /// Returns how many container headers there are.
    fn headers(&self) -> u32
        ensures { result ≡ option_map_or (λ c. 1) (readable self.now).container 0 }
    {
        match &self.container {
            Some(_) => 1,
            None => 0,
        }
    }

    /// Returns how many section headers are in the bytes.
    fn sections(&self) -> u32
        ensures { result ≡ option_map_or sections_in (readable self.now).container 0 }
    {
        match &self.container {
            Some(container) => sections_in(container),
            None => 0,
        }
    }

    /// Returns how many rows of a kind can be read of the loader section.
    fn loader_rows(&self, part: Part) -> u32
        ensures { result ≡ option_map_or (loader_count part) (readable self.now).loader 0 }
    {
        match &self.loader {
            Some(reading) => loader_count(&reading.loader, part),
            None => 0,
        }
    }

    /// Returns row `i` of a kind, or `None` if it can't be read.
    #[tactic(auto, unfolding(crate::specs::Readable::line_at, crate::specs::Readable::object_at))]
    pub(crate) fn row(&mut self, part: Part, i: u32) -> Option<Row<'a>>
        ensures line { option_map line_of result ≡ line_at (readable self.old) part i }
        ensures object { option_map object_of result ≡ object_at (readable self.old) part i }
        ensures same { readable self.new ≡ readable self.old }
    {
        match part {
            Part::Header => self.header_row(),
            Part::Section => self.section_row(i),
            Part::LoaderHeader => self.loader_row(),
            Part::Library => Some(Row::Library(self.library_row(i)?)),
            Part::Import => Some(Row::Import(self.import_row(i)?)),
            Part::Main => self.main_row(),
            Part::Init => self.init_row(),
            Part::Term => self.term_row(),
            Part::Relocation => self.relocation_row(i),
            Part::Export => Some(Row::Export(self.export_row(i)?)),
            Part::PackedData | Part::Program | Part::Line => None,
        }
    }

    /// Returns the offset in the file of a row.
    fn at(&self, container: &PartialContainer<'_>, part: Part, i: u32) -> u64
        ensures { result ≡ file_offset self.now.base (place_of (partly container.now) part i 0).offset }
    {
        let place = partial_place(container, part, i, 0);
        file_offset(self.base, place.offset)
    }

    /// Returns the offset in the file of a row of the loader section. Its header isn't read again.
    fn loader_at(
        &self,
        container: &PartialContainer<'_>,
        reading: &LoaderReading<'_>,
        part: Part,
        i: u32,
    ) -> u64
        requires { reading.now.loader.container ≡ container.now }
        ensures { result ≡ file_offset self.now.base (place_of (partly container.now) part i 0).offset }
    {
        let place = reading.loader.place(part, i, 0);
        file_offset(self.base, place.offset)
    }

    fn header_row(&self) -> Option<Row<'a>>
        ensures line { option_map line_of result ≡ header_row_line (readable self.now) }
        ensures object { option_map object_of result ≡ header_row_object (readable self.now) }
    {
        let container = self.container.as_ref()?;
        Some(Row::Header(HeaderRow {
            at: self.at(container, Part::Header, 0),
            header: container.header(),
        }))
    }

    fn section_row(&self, i: u32) -> Option<Row<'a>>
        ensures line { option_map line_of result ≡ section_row_line (readable self.now) i }
        ensures object { option_map object_of result ≡ section_row_object (readable self.now) i }
    {
        let container = self.container.as_ref()?;
        let header = container.section(i as usize)?;
        Some(Row::Section(SectionRow {
            at: self.at(container, Part::Section, i),
            number: i as u64,
            header,
            name: self.section_name(container, header.name_offset),
            raw: file_offset(self.base, Some(header.container_offset as usize)),
        }))
    }

    /// Returns the name of a section, as far as it is looked at.
    fn section_name(&self, container: &PartialContainer<'_>, offset: i32) -> Option<CutName<'a>>
        requires { names_bytes self.now.names ≡ (partly container.now).bytes }
        ensures { option_map cut_seen result ≡ row_name (name_in (partly container.now) offset) }
    {
        let offset = usize::try_from(offset).ok()?;
        self.names
            .name(names_start(container) + offset, MAX_NAME_LENGTH)
    }

    fn loader_row(&self) -> Option<Row<'a>>
        ensures line { option_map line_of result ≡ loader_row_line (readable self.now) }
        ensures object { option_map object_of result ≡ loader_row_object (readable self.now) }
    {
        let container = self.container.as_ref()?;
        let reading = self.loader.as_ref()?;
        Some(Row::Loader(LoaderRow {
            at: self.at(container, Part::LoaderHeader, 0),
            header: reading.loader.header(),
        }))
    }

    /// Returns library `i`.
    pub(crate) fn library_row(&self, i: u32) -> Option<LibraryRow<'a>>
        ensures line { option_map (λ r. line_of (row.Library r)) result ≡ library_row_line (readable self.now) i }
        ensures object { option_map (λ r. object_of (row.Library r)) result ≡ library_row_object (readable self.now) i }
    {
        let container = self.container.as_ref()?;
        let reading = self.loader.as_ref()?;
        let library = reading.loader.library_cut(i as usize, MAX_NAME_LENGTH)?;
        Some(LibraryRow {
            at: self.loader_at(container, reading, Part::Library, i),
            library,
        })
    }

    /// Returns import `j`.
    pub(crate) fn import_row(&mut self, j: u32) -> Option<ImportRow<'a>>
        ensures line { option_map (λ r. line_of (row.Import r)) result ≡ import_row_line (readable self.old) j }
        ensures object { option_map (λ r. object_of (row.Import r)) result ≡ import_row_object (readable self.old) j }
        ensures same { readable self.new ≡ readable self.old }
    {
        let base = self.base;
        self.container?;
        match &mut self.loader {
            Some(reading) => reading.import_row(base, j),
            None => None,
        }
    }

    fn main_row(&self) -> Option<Row<'a>>
        ensures line { option_map line_of result ≡ main_row_line (readable self.now) }
        ensures object { option_map object_of result ≡ main_row_object (readable self.now) }
    {
        let container = self.container.as_ref()?;
        let reading = self.loader.as_ref()?;
        let header = reading.loader.header();
        Some(Row::Main(EntryRow {
            at: self.loader_at(container, reading, Part::Main, 0),
            section: header.main_section,
            offset: header.main_offset,
        }))
    }

    fn init_row(&self) -> Option<Row<'a>>
        ensures line { option_map line_of result ≡ init_row_line (readable self.now) }
        ensures object { option_map object_of result ≡ init_row_object (readable self.now) }
    {
        let container = self.container.as_ref()?;
        let reading = self.loader.as_ref()?;
        let header = reading.loader.header();
        Some(Row::Init(EntryRow {
            at: self.loader_at(container, reading, Part::Init, 0),
            section: header.init_section,
            offset: header.init_offset,
        }))
    }

    fn term_row(&self) -> Option<Row<'a>>
        ensures line { option_map line_of result ≡ term_row_line (readable self.now) }
        ensures object { option_map object_of result ≡ term_row_object (readable self.now) }
    {
        let container = self.container.as_ref()?;
        let reading = self.loader.as_ref()?;
        let header = reading.loader.header();
        Some(Row::Term(EntryRow {
            at: self.loader_at(container, reading, Part::Term, 0),
            section: header.term_section,
            offset: header.term_offset,
        }))
    }

    fn relocation_row(&self, k: u32) -> Option<Row<'a>>
        ensures line { option_map line_of result ≡ relocation_row_line (readable self.now) k }
        ensures object { option_map object_of result ≡ relocation_row_object (readable self.now) k }
    {
        let container = self.container.as_ref()?;
        let reading = self.loader.as_ref()?;
        let relocation = reading.loader.relocation(k as usize)?;
        Some(Row::Relocation(RelocationRow {
            at: self.loader_at(container, reading, Part::Relocation, k),
            section: relocation.section,
            count: relocation.count,
            first: relocation.first,
            program: self.program_in(container, reading, k, relocation.program),
        }))
    }

    /// Returns the program of relocation header `k`, if it is printed and its bytes are there.
    pub(crate) fn program(&self, k: u32) -> Option<ProgramRow<'a>>
        ensures { option_map program_seen result ≡ program_of (readable self.now) k }
    {
        let container = self.container.as_ref()?;
        let reading = self.loader.as_ref()?;
        let relocation = reading.loader.relocation(k as usize)?;
        self.program_in(container, reading, k, relocation.program)
    }

    /// Returns the program of relocation header `k` with these bytes.
    fn program_in(
        &self,
        container: &PartialContainer<'_>,
        reading: &LoaderReading<'_>,
        k: u32,
        bytes: Option<&'a [u8]>,
    ) -> Option<ProgramRow<'a>>
        requires { reading.now.loader.container ≡ container.now }
        ensures { option_map program_seen result ≡ program_in (readable self.now) (partly container.now) k (option_copied bytes.entry) }
    {
        if k >= self.programs {
            return None;
        }
        let at = self.loader_at(container, reading, Part::Program, k);
        match bytes {
            Some(bytes) => Some(ProgramRow { at, bytes }),
            None => None,
        }
    }

    /// Returns export `i`.
    pub(crate) fn export_row(&self, i: u32) -> Option<ExportRow<'a>>
        ensures line { option_map (λ r. line_of (row.Export r)) result ≡ export_row_line (readable self.now) i }
        ensures object { option_map (λ r. object_of (row.Export r)) result ≡ export_row_object (readable self.now) i }
    {
        let container = self.container.as_ref()?;
        let reading = self.loader.as_ref()?;
        let export = reading.loader.export(i as usize)?;
        Some(ExportRow {
            at: self.loader_at(container, reading, Part::Export, i),
            export: Named {
                fields: export.fields,
                name: export_name(export.name),
            },
        })
    }
}

impl<'a> LoaderReading<'a> {
    /// Reads the loader section of a container.
    fn new(container: &PartialContainer<'a>) -> Option<LoaderReading<'a>>
        ensures loader { option_map (λ r. partly_loaded r.loader) result ≡ loader_in (partly container.now) }
        ensures container { ForSome result (λ r. r.loader.container ≡ container.now) }
    {
        match PartialLoader::read(container) {
            Ok(loader) => Some(LoaderReading {
                loader,
                imports: PartialImports::new(loader),
                owner: Owner::new(&loader, 0),
            }),
            Err(_) => None,
        }
    }

    /// Returns import `j` of a container that begins at the offset `base` of its file.
    fn import_row(&mut self, base: u64, j: u32) -> Option<ImportRow<'a>>
        ensures line { option_map (λ r. line_of (row.Import r)) result ≡ import_line_in (partly_loaded self.old.loader) (import_offset base (partly self.old.loader.container) j) j }
        ensures object { option_map (λ r. object_of (row.Import r)) result ≡ import_object_in (partly_loaded self.old.loader) (import_offset base (partly self.old.loader.container) j) j }
        ensures same { self.new.loader ≡ self.old.loader }
    {
        let import = self.imports.import_cut(j as usize, MAX_NAME_LENGTH)?;
        let place = self.loader.place(Part::Import, j, 0);
        Some(ImportRow {
            at: file_offset(base, place.offset),
            number: j as u64,
            import,
            library_name: self.library_name(import.library),
        })
    }

    /// Returns the name of an import's library, and keeps it for the next import.
    fn library_name(&mut self, library: Option<usize>) -> Option<CutName<'a>>
        ensures value { option_map cut_seen result ≡ library_name (partly_loaded self.old.loader) library }
        ensures same { self.new.loader ≡ self.old.loader }
    {
        let library = library?;
        if self.owner.library != library {
            self.owner = Owner::new(&self.loader, library);
        }
        self.owner.name
    }
}

impl<'a> Owner<'a> {
    /// Reads the name of a library.
    fn new(loader: &PartialLoader<'a>, library: usize) -> Owner<'a>
        ensures library { result.library ≡ library }
        ensures name { option_map cut_seen result.name ≡ library_name (partly_loaded loader.now) (Some library) }
    {
        Owner {
            library,
            name: library_name(loader, library),
        }
    }
}

/// Returns how many section headers are in the bytes of a container.
fn sections_in(container: &PartialContainer<'_>) -> u32
    ensures { result ≡ sections_in (partly container.now) }
{
    let room = container
        .bytes()
        .len()
        .saturating_sub(CONTAINER_HEADER_SIZE);
    let count = usize::from(container.header().section_count);
    (room / SECTION_HEADER_SIZE).min(count) as u32
}

/// Returns where the section name table begins.
fn names_start(container: &PartialContainer<'_>) -> usize
    ensures value { result ≡ names_from (partly container.now).header }
    ensures small { result < 2 ^ 32 }
{
    CONTAINER_HEADER_SIZE + SECTION_HEADER_SIZE * usize::from(container.header().section_count)
}

/// Returns how many rows of a kind can be read of a loader section.
fn loader_count(loader: &PartialLoader<'_>, part: Part) -> u32
    ensures { result ≡ loader_count part (partly_loaded loader.now) }
{
    match part {
        Part::LoaderHeader | Part::Main | Part::Init | Part::Term => 1,
        Part::Library => loader.libraries() as u32,
        Part::Import => loader.imports() as u32,
        Part::Relocation => loader.relocations() as u32,
        Part::Export => loader.exports() as u32,
        Part::Header | Part::Section | Part::PackedData | Part::Program | Part::Line => 0,
    }
}

/// Returns the name of a library.
fn library_name<'a>(loader: &PartialLoader<'a>, library: usize) -> Option<CutName<'a>>
    ensures { option_map cut_seen result ≡ library_name (partly_loaded loader.now) (Some library) }
{
    loader.library_cut(library, MAX_NAME_LENGTH)?.name
}

/// Returns the name of an export, cut as the names of other rows are.
fn export_name<'a>(name: Option<&'a [u8]>) -> Option<CutName<'a>>
    ensures { option_map cut_seen result ≡ row_name (option_copied name.entry) }
{
    Some(cut_name(name?))
}

/// Returns a name as far as it is looked at.
#[tactic(auto, unfolding(pef_loader::specs::CutNames::cut_name))]
fn cut_name(name: &[u8]) -> CutName<'_>
    ensures { cut_seen result ≡ cut_name 4096 name.now }
{
    if name.len() <= MAX_NAME_LENGTH {
        return CutName {
            bytes: name,
            whole: true,
        };
    }
    let (bytes, _) = name.split_at(MAX_NAME_LENGTH);
    CutName {
        bytes,
        whole: false,
    }
}
