ghost use Rattle.std.specs.Prelude.{◌≡◌};

use crate::instructions::print_instr;
use crate::lines::{
    Exported, Libraries, LibraryName, Lines, Relocations, Sections, print_header, print_import,
};
use crate::listing::{Listing, print_entries};
use pef_loader::ImportReader;
use pef_ports::{Page, Sink, StreamFault, Text, flush};
use pef_reloc::Instrs;
use std::alloc::Global;

/// A place in a listing: what is printed next.
#[derive(Clone, Copy, Debug)]
pub enum ListingCursor<'a> {
    /// The container's header.
    Header,
    /// The section with this number, or what comes after the sections.
    Section(usize),
    /// The library with this number, or what comes after the libraries.
    Library(usize),
    /// The import with this number, or what comes after the imports.
    Import(usize),
    /// The entries.
    Entries,
    /// The relocation header with this number, or what comes after the relocation headers.
    Relocation(usize),
    /// These instructions, and then the relocation header with this number.
    Instruction(Instrs<'a>, usize),
    /// The export with this number, or the end.
    Export(usize),
}

/// A reader of the lines of a listing, which prints them one after the other. [`Listing::print`] prints all at once.
#[derive(Drop)]
pub struct LineReader<'a> {
    listing: Listing<'a>,
    place: ListingCursor<'a>,
    imports: ImportReader<'a>,
    names: LibraryName<'a>,
    ghost imports_of: { imports.loader ≡ listing.loader },
    ghost names_of: { names.loader ≡ listing.loader },
}

impl<'a> LineReader<'a> {
    ghost use Rattle.std.specs.Prelude.{◌++◌, ◌≤◌, ◌⊎◌, [], OnErr, OnOk, length};
    ghost use Rattle.pef_views.specs.Views.{contained};
    ghost use Rattle.pef_loader.specs.Views.{loaded};
    ghost use Rattle.pef_reloc.specs.Views.{listed};
    ghost use Rattle.pef_listing.specs.Instructions.{program_text};
    ghost use Rattle.pef_listing.specs.Left.{Grows, SendsNext, from_entries, from_export, from_import, from_library, from_relocation, from_section, lines_at, lines_left};
    ghost use Rattle.pef_listing.specs.declared.line_reader.ListingCursor.TheVariants.{Header};

    /// Returns a reader at the first line.
    pub(crate) fn new(listing: Listing<'a>) -> LineReader<'a>
        ensures listing { result.listing ≡ listing.entry }
        ensures place { result.place ≡ Header }
    {
        LineReader {
            listing,
            place: ListingCursor::Header,
            imports: ImportReader::new(listing.loader),
            names: LibraryName::new(listing.loader),
        }
    }

    /// Returns the place of the next line.
    pub fn place(&self) -> ListingCursor<'a>
        ensures { result ≡ self.now.place }
    {
        self.place
    }

    /// Goes to a place in the listing.
    pub fn go_to(&mut self, place: ListingCursor<'a>)
        ensures listing { self.new.listing ≡ self.old.listing }
        ensures place { self.new.place ≡ place.entry }
    {
        self.place = place;
    }

    /// Prints the next line, or the lines of all entries. Returns whether there was one. If the output fails, the place is
    /// unchanged.
    pub fn print_next<W: Sink>(&mut self, out: &mut W, page: &mut Page) -> Result<bool, StreamFault>
        ensures same { self.new.listing ≡ self.old.listing }
        ensures next { SendsNext result (W.stream out.old) (W.stream out.new) page.old.items page.new.items self.old self.new }
    {
        match self.place {
            ListingCursor::Header => self.print_container(out, page),
            ListingCursor::Section(i) => self.print_section(out, page, i),
            ListingCursor::Library(i) => self.print_library(out, page, i),
            ListingCursor::Import(j) => self.print_import(out, page, j),
            ListingCursor::Entries => self.print_entries(out, page),
            ListingCursor::Relocation(k) => self.print_relocation(out, page, k),
            ListingCursor::Instruction(instrs, k) => self.print_instruction(out, page, instrs, k),
            ListingCursor::Export(i) => self.print_export(out, page, i),
        }
    }

    /// Prints lines until there are `wanted` bytes, or no line is left.
    pub(crate) fn print_up_to(
        &mut self,
        text: &mut Text<Global>,
        wanted: usize,
    ) -> Result<(), StreamFault>
        ensures listing { self.new.listing ≡ self.old.listing }
        ensures same { OnOk result (text.new.bytes.items ++ lines_left self.new ≡ text.old.bytes.items ++ lines_left self.old) }
        ensures enough { OnOk result ((wanted ≤ length text.new.bytes.items) ⊎ (lines_left self.new ≡ [])) }
        ensures front { OnErr result (Grows text.old.bytes.items text.new.bytes.items) }
    {
        let mut page = Page::new();
        let mut more = true;
        'lines: while more && text.len() < wanted {
            more = self.print_next(text, &mut page)?;
        }
        flush(text, &mut page)
    }

    /// Prints the line of the header.
    fn print_container<W: Sink>(
        &mut self,
        out: &mut W,
        page: &mut Page,
    ) -> Result<bool, StreamFault>
        requires { lines_left self.old ≡ lines_at (contained self.old.listing.container) (loaded self.old.listing.loader) Header }
        ensures same { self.new.listing ≡ self.old.listing }
        ensures next { SendsNext result (W.stream out.old) (W.stream out.new) page.old.items page.new.items self.old self.new }
    {
        print_header(out, page, self.listing.container.header())?;
        self.place = ListingCursor::Section(0);
        Ok(true)
    }

    /// Prints the line of section `i`, or the first line after the sections.
    fn print_section<W: Sink>(
        &mut self,
        out: &mut W,
        page: &mut Page,
        i: usize,
    ) -> Result<bool, StreamFault>
        requires { lines_left self.old ≡ from_section (contained self.old.listing.container) (loaded self.old.listing.loader) i }
        ensures same { self.new.listing ≡ self.old.listing }
        ensures next { SendsNext result (W.stream out.old) (W.stream out.new) page.old.items page.new.items self.old self.new }
    {
        let parts = Sections {
            container: self.listing.container,
        };
        if i >= parts.len() {
            return self.print_library(out, page, 0);
        }
        parts.print_at(out, page, i)?;
        self.place = ListingCursor::Section(i + 1);
        Ok(true)
    }

    /// Prints the line of library `i`, or the first line after the libraries.
    fn print_library<W: Sink>(
        &mut self,
        out: &mut W,
        page: &mut Page,
        i: usize,
    ) -> Result<bool, StreamFault>
        requires { lines_left self.old ≡ from_library (loaded self.old.listing.loader) i }
        ensures same { self.new.listing ≡ self.old.listing }
        ensures next { SendsNext result (W.stream out.old) (W.stream out.new) page.old.items page.new.items self.old self.new }
    {
        let parts = Libraries {
            loader: self.listing.loader,
        };
        if i >= parts.len() {
            return self.print_import(out, page, 0);
        }
        parts.print_at(out, page, i)?;
        self.place = ListingCursor::Library(i + 1);
        Ok(true)
    }

    /// Prints the line of import `j`, or the first line after the imports.
    fn print_import<W: Sink>(
        &mut self,
        out: &mut W,
        page: &mut Page,
        j: usize,
    ) -> Result<bool, StreamFault>
        requires { lines_left self.old ≡ from_import (loaded self.old.listing.loader) j }
        ensures same { self.new.listing ≡ self.old.listing }
        ensures next { SendsNext result (W.stream out.old) (W.stream out.new) page.old.items page.new.items self.old self.new }
    {
        if j >= self.listing.loader.imports() {
            return self.print_entries(out, page);
        }
        let Some(import) = self.imports.import(j) else {
            unreachable!()
        };
        print_import(out, page, &mut self.names, j, import)?;
        self.place = ListingCursor::Import(j + 1);
        Ok(true)
    }

    /// Prints the lines of the entries, or the first line after them if there are none.
    fn print_entries<W: Sink>(&mut self, out: &mut W, page: &mut Page) -> Result<bool, StreamFault>
        requires { lines_left self.old ≡ from_entries (loaded self.old.listing.loader) }
        ensures same { self.new.listing ≡ self.old.listing }
        ensures next { SendsNext result (W.stream out.old) (W.stream out.new) page.old.items page.new.items self.old self.new }
    {
        let loader = self.listing.loader;
        if loader.main().is_none() && loader.init().is_none() && loader.term().is_none() {
            return self.print_relocation(out, page, 0);
        }
        print_entries(out, page, loader)?;
        self.place = ListingCursor::Relocation(0);
        Ok(true)
    }

    /// Prints the line of relocation header `k`, or the first line after the relocation headers.
    fn print_relocation<W: Sink>(
        &mut self,
        out: &mut W,
        page: &mut Page,
        k: usize,
    ) -> Result<bool, StreamFault>
        requires { lines_left self.old ≡ from_relocation (loaded self.old.listing.loader) k }
        ensures same { self.new.listing ≡ self.old.listing }
        ensures next { SendsNext result (W.stream out.old) (W.stream out.new) page.old.items page.new.items self.old self.new }
    {
        let loader = self.listing.loader;
        if k >= loader.relocs() {
            return self.print_export(out, page, 0);
        }
        let relocation = Relocations { loader }.at(k);
        relocation.print_header(out, page)?;
        self.place = ListingCursor::Instruction(relocation.program.instrs(), k + 1);
        Ok(true)
    }

    /// Prints the line of the first of these instructions; or, if there are none, the next line from relocation header `k` on.
    fn print_instruction<W: Sink>(
        &mut self,
        out: &mut W,
        page: &mut Page,
        instrs: Instrs<'a>,
        k: usize,
    ) -> Result<bool, StreamFault>
        requires { lines_left self.old ≡ program_text (listed instrs) ++ from_relocation (loaded self.old.listing.loader) k }
        ensures same { self.new.listing ≡ self.old.listing }
        ensures next { SendsNext result (W.stream out.old) (W.stream out.new) page.old.items page.new.items self.old self.new }
    {
        let mut left = instrs;
        let Some(instr) = left.next_instr() else {
            return self.print_relocation(out, page, k);
        };
        print_instr(out, page, instr)?;
        self.place = ListingCursor::Instruction(left, k);
        Ok(true)
    }

    /// Prints the line of export `i`, if it isn't the end.
    fn print_export<W: Sink>(
        &mut self,
        out: &mut W,
        page: &mut Page,
        i: usize,
    ) -> Result<bool, StreamFault>
        requires { lines_left self.old ≡ from_export (loaded self.old.listing.loader) i }
        ensures same { self.new.listing ≡ self.old.listing }
        ensures next { SendsNext result (W.stream out.old) (W.stream out.new) page.old.items page.new.items self.old self.new }
    {
        let parts = Exported {
            loader: self.listing.loader,
        };
        if i >= parts.len() {
            return Ok(false);
        }
        parts.print_at(out, page, i)?;
        self.place = ListingCursor::Export(i + 1);
        Ok(true)
    }
}
