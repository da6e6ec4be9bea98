ghost use Rattle.std.specs.Prelude.{◌≡◌, ◌<◌, ◌^◌, ◌∷◌, [], Some, option_map, Ok, IfSome, length};
ghost use Rattle.std.specs.Option.{is_none, option_and_then, option_copied};
ghost use Rattle.pef_words.specs.Refusals.{result_map};
ghost use Rattle.pef_views.specs.Container.{loader_of, loader_offset_of, loader_row_of};
ghost use Rattle.pef_views.specs.Header.{field_tests, names_from};
ghost use Rattle.pef_views.specs.Partial.{found_loader, header_in, is_out_of_order, loader_tests, name_of_section, opened, partial_of, sections_allowed, tests_of_section};
ghost use Rattle.pef_views.specs.Section.{raw_of, section_at};

use crate::container::{any_loader, find_loader, loader_row};
use crate::fault::ViewFault;
use crate::header::{Header, field_table, names_at, read_header, test_tag};
use crate::section::{SectionHeader, raw_bytes, read_section, section_table};
use pef_words::Cut;

/// A container that may be damaged, seen in place: whatever can be read of it.
///
/// Only its header is there for certain. Its views are slices of the bytes that it was read from, and live as long as
/// those.
#[derive(Clone, Copy, Debug)]
pub struct PartialContainer<'a> {
    cut: Cut<'a>,
    header: Header,
    no_loader: bool,
    loader: Option<&'a [u8]>,
    loader_row: Option<u16>,
    /// Where the loader section begins. Each of its rows is placed by it.
    loader_offset: Option<u32>,
    ghost lacks: { no_loader ≡ is_none (loader_of cut.bytes.now header) },
    ghost loads: { option_copied loader ≡ found_loader cut.bytes.now header },
    ghost numbered: { loader_row ≡ loader_row_of (opened cut.bytes.now header) },
    ghost placed: { loader_offset ≡ loader_offset_of (opened cut.bytes.now header) },
}

impl<'a> PartialContainer<'a> {
    ghost use Rattle.pef_views.specs.PartialViews.{partly};

    /// Reads what can be read of `bytes`.
    ///
    /// # Errors
    ///
    /// `TooShort` if there are fewer than 40 bytes, `BadTag` if the first eight aren't `Joy!peff`.
    #[tactic(auto, unfolding(crate::specs::Partial::partial_of, crate::specs::Container::loader_row_of, crate::specs::Container::loader_offset_of))]
    pub fn read(bytes: &'a [u8]) -> Result<PartialContainer<'a>, ViewFault>
        ensures { result_map partly result ≡ partial_of bytes.entry.now }
    {
        let cut = Cut::new(bytes);
        let header = read_header(cut).ok_or(ViewFault::TooShort)?;
        test_tag(header)?;
        let behind = find_loader(cut, header);
        let loader_row = loader_row(cut, header);
        Ok(PartialContainer {
            cut,
            header,
            no_loader: behind.is_none(),
            loader: found_loader(cut, header, behind),
            loader_row,
            loader_offset: section_offset(cut, loader_row),
        })
    }

    /// Returns the bytes that it was read from.
    pub fn bytes(&self) -> &'a [u8]
        ensures { result.now ≡ (partly self.now).bytes }
    {
        self.cut.bytes()
    }

    /// Returns the container header.
    pub fn header(&self) -> Header
        ensures { result ≡ (partly self.now).header }
    {
        self.header
    }

    /// Returns the header of section `i`, or `None` past the last one and if it isn't in the bytes.
    pub fn section(&self, i: usize) -> Option<SectionHeader>
        ensures { result ≡ header_in (partly self.now) i }
    {
        if i >= usize::from(self.header.section_count) {
            return None;
        }
        read_section(self.cut, i)
    }

    /// Returns the raw bytes of section `i`, as far as they are in the container.
    ///
    /// They are fewer than the packed size if the section extends past the end.
    pub fn raw(&self, i: usize) -> Option<&'a [u8]>
        ensures { option_copied result ≡ option_map (raw_of (partly self.now).bytes) (header_in (partly self.now) i) }
    {
        let section = self.section(i)?;
        Some(raw_bytes(self.cut, section))
    }

    /// Returns the name of section `i`, without the zero byte at its end. `None` as for
    /// [`Container::section_name`](crate::Container::section_name).
    pub fn section_name(&self, i: usize) -> Option<&'a [u8]>
        ensures { option_copied result ≡ name_of_section (partly self.now) i }
    {
        let offset = usize::try_from(self.section(i)?.name_offset).ok()?;
        self.cut.name_at(names_at(self.header) + offset)
    }

    /// Returns where the section name table begins.
    pub fn names_start(&self) -> usize
        ensures { result ≡ names_from (partly self.now).header }
    {
        names_at(self.header)
    }

    /// Returns the raw bytes of the loader section, as far as they are in the container, or `None` if there is none: of the
    /// first that isn't instantiated, or if each one is, of the first of all.
    pub fn loader(&self) -> Option<&'a [u8]>
        ensures { option_copied result ≡ found_loader (partly self.now).bytes (partly self.now).header }
    {
        self.loader
    }

    /// Returns the raw bytes of the loader section, as far as they are in the container, or no bytes if
    /// there is none.
    pub fn loader_bytes(&self) -> &'a [u8]
        ensures { result.now ≡ (partly self.now).loader }
    {
        self.loader.unwrap_or(&[])
    }

    /// Returns whether the loader section counts as instantiated: then the instantiated sections aren't the first ones.
    #[tactic(auto, unfolding(crate::specs::Partial::is_out_of_order))]
    pub fn is_out_of_order(&self) -> bool
        ensures { result ≡ is_out_of_order (partly self.now) }
    {
        self.no_loader && self.loader.is_some()
    }

    /// Returns how many sections a row of the loader section may name: the instantiated ones, or if those aren't the first
    /// ones, all that there are.
    #[tactic(auto, unfolding(crate::specs::Partial::sections_allowed))]
    pub fn sections_allowed(&self) -> u16
        ensures { result ≡ sections_allowed (partly self.now) }
    {
        if self.is_out_of_order() {
            self.header.section_count
        } else {
            self.header.instantiated_section_count
        }
    }

    /// Returns the number of the loader section, which is the section whose bytes [`loader`](Self::loader)
    /// gives.
    pub fn loader_row(&self) -> Option<u16>
        ensures { result ≡ loader_row_of (partly self.now) }
    {
        self.loader_row
    }

    /// Returns the offset of the first byte of the loader section. It may be past the end of the container.
    pub fn loader_offset(&self) -> Option<usize>
        ensures value { result ≡ loader_offset_of (partly self.now) }
        ensures small { IfSome result (λ offset. offset < 2 ^ 32) }
    {
        Some(self.loader_offset? as usize)
    }

    /// Returns the tests of the fields of the header, in order: whether each rule is broken, and which it is.
    pub fn header_tests(&self) -> [(bool, ViewFault); 4]
        ensures { result ≡ field_tests (partly self.now).header (length (partly self.now).bytes) }
    {
        field_table(self.header, self.cut.len())
    }

    /// Returns the tests of section `i`, in order, or `None` if its header isn't in the bytes.
    pub fn section_tests(&self, i: u32) -> Option<[(bool, ViewFault); 4]>
        ensures { result ≡ tests_of_section (partly self.now) i }
    {
        if i >= u32::from(self.header.section_count) {
            return None;
        }
        let row = i as u16;
        let section = read_section(self.cut, usize::from(row))?;
        Some(section_table(
            row,
            section,
            row < self.header.instantiated_section_count,
            self.cut.len(),
        ))
    }

    /// Returns the test of the loader section.
    pub fn loader_tests(&self) -> [(bool, ViewFault); 1]
        ensures { result ≡ loader_tests (partly self.now) }
    {
        [(self.no_loader, ViewFault::NoLoader)]
    }
}

/// Returns the raw bytes of the loader section: those of the first that isn't instantiated, which was looked for, or of the
/// first of all.
fn found_loader<'a>(cut: Cut<'a>, header: Header, behind: Option<&'a [u8]>) -> Option<&'a [u8]>
    requires { option_copied behind ≡ loader_of cut.bytes.now header }
    ensures { option_copied result ≡ found_loader cut.entry.bytes.now header }
{
    match behind {
        Some(loader) => Some(loader),
        None => Some(raw_bytes(cut, any_loader(cut, header)?)),
    }
}

/// Returns where the raw bytes of a section begin, if its header is in the bytes.
fn section_offset(cut: Cut<'_>, row: Option<u16>) -> Option<u32>
    ensures { result ≡ option_and_then (λ i. option_map (λ s. s.container_offset) (section_at cut.entry.bytes.now i)) row }
{
    Some(read_section(cut, usize::from(row?))?.container_offset)
}
