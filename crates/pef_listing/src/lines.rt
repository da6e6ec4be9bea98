ghost use Rattle.std.specs.Prelude.{◌≡◌, ◌<◌, ℕ, List, None, Some, length};
ghost use Rattle.std.specs.Option.{ForSome};
ghost use Rattle.std.specs.Option.{option_copied};
ghost use Rattle.pef_views.specs.Views.{contained};
ghost use Rattle.pef_format.specs.Symbols.{import_seen};
ghost use Rattle.pef_loader.specs.Loader.{import_of, reloc_of};
ghost use Rattle.pef_reloc.specs.Views.{program_bytes};
ghost use Rattle.pef_loader.specs.Views.{loaded};
ghost use Rattle.pef_ports.specs.Sent.{Sends};
ghost use Rattle.pef_listing.specs.Listed.{AreReadable};
ghost use Rattle.pef_listing.specs.Listing.{container_text, each_text, entry_text, export_lines, import_lines, library_lines, library_name, reloc_header_text, reloc_lines, section_lines, section_name_text};
ghost use Rattle.pef_ports.specs.Pieces.{piece_text};

use crate::words::{ExportWords, ImportWords, LibraryWords};
use pef_format::ImportView;
use pef_loader::Loader;
use pef_ports::{Escaped, Joined, Page, Piece, Printed, Sink, StreamFault, Verbatim, print_pieces};
use pef_reloc::Program;
use pef_views::{Container, Header};

/// Parts of a container that are listed by their numbers.
pub trait Lines {
    /// The number of parts.
    ghost many: { Self → ℕ };

    /// The lines of one part, by its number.
    ghost text: { Self → ℕ → List ℕ };

    /// Returns the number of parts.
    fn len(&self) -> usize
        ensures { result ≡ many self.now };

    /// Prints the lines of part `i`, which aren't empty.
    fn print_at<W: Sink>(&self, out: &mut W, page: &mut Page, i: usize) -> Result<(), StreamFault>
        requires { i < many self.now }
        ensures some { 0 < length (text self.now i) }
        ensures sends { Sends result (W.stream out.old) (W.stream out.new) page.old.items page.new.items (text self.now i) };
}

/// Prints the line of a container's header.
#[tactic(auto, unfolding(crate::specs::Listing::container_text))]
pub fn print_header<W: Sink>(
    out: &mut W,
    page: &mut Page,
    header: Header,
) -> Result<(), StreamFault>
    ensures { Sends result (W.stream out.old) (W.stream out.new) page.old.items page.new.items (container_text header) }
{
    print_pieces(
        out,
        page,
        &[
            Piece::Text(b"container current "),
            Piece::Number(u64::from(header.current_version)),
            Piece::Text(b" olddef "),
            Piece::Number(u64::from(header.old_def_version)),
            Piece::Text(b" oldimp "),
            Piece::Number(u64::from(header.old_imp_version)),
            Piece::Text(b" date "),
            Piece::Number(u64::from(header.date_time_stamp)),
            Piece::Text(b"\n"),
        ],
    )
}

/// The sections of a container, instantiated or not.
#[derive(Clone, Copy)]
pub struct Sections<'a> {
    pub container: Container<'a>,
}

impl<'a> Lines for Sections<'a> {
    ghost many = { λ s. (contained s.container).header.section_count };

    ghost text = { λ s. section_lines (contained s.container) };

    fn len(&self) -> usize {
        usize::from(self.container.header().section_count)
    }

    #[tactic(auto, unfolding(crate::specs::Listing::section_lines, crate::specs::Listing::section_text))]
    fn print_at<W: Sink>(&self, out: &mut W, page: &mut Page, i: usize) -> Result<(), StreamFault> {
        let Some(section) = self.container.section(i) else {
            unreachable!()
        };
        let header = section.header;
        let name = name_piece(self.container.section_name(i));
        print_pieces(
            out,
            page,
            &[
                Piece::Text(b"section "),
                Piece::Number(i as u64),
                Piece::Text(b" kind "),
                Piece::Number(u64::from(header.section_kind)),
                Piece::Text(b" share "),
                Piece::Number(u64::from(header.share_kind)),
                Piece::Text(b" align "),
                Piece::Number(u64::from(header.alignment)),
                Piece::Text(b" total "),
                Piece::Number(u64::from(header.total_size)),
                Piece::Text(b" unpacked "),
                Piece::Number(u64::from(header.unpacked_size)),
                Piece::Text(b" packed "),
                Piece::Number(u64::from(header.packed_size)),
                Piece::Text(b" default "),
                Piece::Word(header.default_address),
                Piece::Text(b" name "),
                name,
                Piece::Text(b"\n"),
            ],
        )
    }
}

/// Returns a section's name as it is listed.
#[tactic(auto, unfolding(crate::specs::Listing::section_name_text))]
fn name_piece<'a>(name: Option<&'a [u8]>) -> Piece<'a>
    ensures { piece_text result ≡ section_name_text (option_copied name.entry) }
{
    match name {
        None => Piece::Text(b"-"),
        Some(name) if name == b"-".as_slice() => Piece::Text(b"%2D"),
        Some(name) => Piece::Name(name),
    }
}

/// The imported libraries of a loader section.
#[derive(Clone, Copy)]
pub struct Libraries<'a> {
    pub loader: Loader<'a>,
}

impl<'a> Lines for Libraries<'a> {
    ghost many = { λ l. (loaded l.loader).header.library_count };

    ghost text = { λ l. library_lines (loaded l.loader) };

    fn len(&self) -> usize {
        self.loader.libraries()
    }

    #[tactic(auto, unfolding(crate::specs::Listing::library_lines, crate::specs::Listing::library_text, crate::specs::Listing::library_words))]
    fn print_at<W: Sink>(&self, out: &mut W, page: &mut Page, i: usize) -> Result<(), StreamFault> {
        let Some(library) = self.loader.library(i) else {
            unreachable!()
        };
        let words = LibraryWords {
            name: Escaped(library.name),
            fields: library.fields,
        };
        Joined(words, Verbatim(b"\n")).print(out, page)
    }
}

/// Prints the line of import `j`.
pub fn print_import<'a, W: Sink>(
    out: &mut W,
    page: &mut Page,
    names: &mut LibraryName<'a>,
    j: usize,
    import: ImportView<'a>,
) -> Result<(), StreamFault>
    requires import { import_of (loaded names.old.loader) j ≡ Some (import_seen import) }
    requires library { import.library < (loaded names.old.loader).header.library_count }
    ensures some { 0 < length (import_lines (loaded names.old.loader) j) }
    ensures sends { Sends result (W.stream out.old) (W.stream out.new) page.old.items page.new.items (import_lines (loaded names.old.loader) j) }
    ensures same { names.new.loader ≡ names.old.loader }
{
    let words = ImportWords {
        number: j as u64,
        name: Escaped(import.name),
        library: Escaped(names.of(import.library)),
        fields: import.fields,
    };
    Joined(words, Verbatim(b"\n")).print(out, page)
}

/// The name of the library that was asked for last.
#[derive(Clone, Copy)]
pub struct LibraryName<'a> {
    loader: Loader<'a>,
    number: usize,
    name: Option<&'a [u8]>,
    ghost read: { ForSome name (λ n. n.now ≡ library_name (loaded loader) number) },
}

impl<'a> LibraryName<'a> {
    /// Returns an empty cache.
    pub fn new(loader: Loader<'a>) -> LibraryName<'a>
        ensures { result.loader ≡ loader.entry }
    {
        LibraryName {
            loader,
            number: 0,
            name: None,
        }
    }

    /// Returns the name of a library.
    fn of(&mut self, number: usize) -> &'a [u8]
        requires { number < (loaded self.old.loader).header.library_count }
        ensures name { result.now ≡ library_name (loaded self.old.loader) number }
        ensures same { self.new.loader ≡ self.old.loader }
    {
        match self.name {
            Some(name) if self.number == number => name,
            _ => self.read(number),
        }
    }

    /// Reads the name of a library.
    fn read(&mut self, number: usize) -> &'a [u8]
        requires { number < (loaded self.old.loader).header.library_count }
        ensures name { result.now ≡ library_name (loaded self.old.loader) number }
        ensures same { self.new.loader ≡ self.old.loader }
    {
        let Some(library) = self.loader.library(number) else {
            unreachable!()
        };
        *self = LibraryName {
            loader: self.loader,
            number,
            name: Some(library.name),
        };
        library.name
    }
}

/// The exported symbols of a loader section.
#[derive(Clone, Copy)]
pub struct Exported<'a> {
    pub loader: Loader<'a>,
}

impl<'a> Lines for Exported<'a> {
    ghost many = { λ l. (loaded l.loader).header.export_count };

    ghost text = { λ l. export_lines (loaded l.loader) };

    fn len(&self) -> usize {
        self.loader.exports()
    }

    fn print_at<W: Sink>(&self, out: &mut W, page: &mut Page, i: usize) -> Result<(), StreamFault> {
        let Some(export) = self.loader.export(i) else {
            unreachable!()
        };
        let words = ExportWords {
            name: Escaped(export.name),
            fields: export.fields,
        };
        Joined(words, Verbatim(b"\n")).print(out, page)
    }
}

/// The relocation headers of a loader section. Each program is readable.
#[derive(Clone, Copy)]
pub struct Relocations<'a> {
    pub loader: Loader<'a>,
    pub ghost readable: { AreReadable (loaded loader) },
}

impl<'a> Relocations<'a> {
    /// Returns relocation header `i`.
    pub fn at(&self, i: usize) -> Relocation<'a>
        requires { i < (loaded self.now.loader).header.reloc_count }
        ensures is { reloc_of (loaded self.now.loader) i ≡ Some (result.section, result.bytes.now) }
        ensures program { program_bytes result.program ≡ result.bytes.now }
    {
        let Some((section, bytes)) = self.loader.reloc(i) else {
            unreachable!()
        };
        let Ok(program) = Program::read(bytes) else {
            unreachable!()
        };
        Relocation {
            section,
            bytes,
            program,
        }
    }
}

/// A relocation header: its section, and its program, as bytes and as it is read.
#[derive(Clone, Copy)]
pub struct Relocation<'a> {
    pub section: u32,
    pub bytes: &'a [u8],
    pub program: Program<'a>,
}

impl<'a> Relocation<'a> {
    /// Prints the line of the header, without the program.
    pub fn print_header<W: Sink>(&self, out: &mut W, page: &mut Page) -> Result<(), StreamFault>
        ensures { Sends result (W.stream out.old) (W.stream out.new) page.old.items page.new.items (reloc_header_text (self.now.section, self.now.bytes.now)) }
    {
        let halfwords = self.bytes.len() / 2;
        print_pieces(
            out,
            page,
            &[
                Piece::Text(b"reloc section "),
                Piece::Number(u64::from(self.section)),
                Piece::Text(b" halfwords "),
                Piece::Number(halfwords as u64),
                Piece::Text(b"\n"),
            ],
        )
    }
}

/// Prints the line of an entry, if the container has it.
pub fn print_entry<W: Sink>(
    out: &mut W,
    page: &mut Page,
    label: &[u8],
    entry: Option<(u32, u32)>,
) -> Result<(), StreamFault>
    ensures { Sends result (W.stream out.old) (W.stream out.new) page.old.items page.new.items (entry_text label.now entry) }
{
    match entry {
        Some((section, offset)) => print_pieces(
            out,
            page,
            &[
                Piece::Text(label),
                Piece::Number(u64::from(section)),
                Piece::Text(b" "),
                Piece::Word(offset),
                Piece::Text(b"\n"),
            ],
        ),
        None => print_pieces(out, page, &[]),
    }
}
