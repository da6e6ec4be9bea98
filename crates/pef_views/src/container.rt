ghost use Rattle.std.specs.Prelude.{◌≡◌, ◌<◌, ◌≤◌, ◌↔◌, ◌^◌, Ok, IsSome, IfSome, option_map, length};
ghost use Rattle.std.specs.Result.{result_err};
ghost use Rattle.std.specs.Option.{option_copied, option_or};
ghost use Rattle.pef_words.specs.Refusals.{first_among, result_map};
ghost use Rattle.pef_views.specs.Container.{IsInstantiable, any_loader, any_row, behind_row_at, container_of, loader_here, loader_of, loader_offset_of, loader_row_at, section_refusal, section_name_of, section_of};

use crate::fault::ViewFault;
use crate::header::{Header, names_at, read_header, test_header};
use crate::section::{SectionHeader, SectionView, raw_bytes, read_section, test_section};
use pef_words::Cut;

/// A container, seen in place.
///
/// A value of this type exists only if its bytes break no rule. Its views are slices of the bytes
/// that it was read from, and live as long as those.
#[derive(Clone, Copy, Debug)]
pub struct Container<'a> {
    pub(crate) cut: Cut<'a>,
    pub(crate) header: Header,
    loader: &'a [u8],
    pub ghost accepted: { container_of cut.bytes.now ≡ Ok (record {
      bytes = cut.bytes.now;
      header = header;
      loader = loader.now;
    }) },
}

impl<'a> Container<'a> {
    ghost use Rattle.pef_views.specs.Views.{contained, seen};

    /// Reads `bytes` as a container.
    ///
    /// # Errors
    ///
    /// The first rule that they break: those of the header in the order of [`ViewFault`], then the
    /// length of all section headers, then each section in turn, then the loader section.
    #[tactic(auto, unfolding(crate::specs::Container::container_of))]
    pub fn read(bytes: &'a [u8]) -> Result<Container<'a>, ViewFault>
        ensures { result_map contained result ≡ container_of bytes.entry.now }
    {
        let cut = Cut::new(bytes);
        let header = read_header(cut).ok_or(ViewFault::TooShort)?;
        test_header(header, cut.len())?;
        test_sections(cut, header)?;
        let loader = find_loader(cut, header).ok_or(ViewFault::NoLoader)?;
        Ok(Container {
            cut,
            header,
            loader,
        })
    }

    /// Returns the container header.
    pub fn header(&self) -> Header
        ensures value { result ≡ (contained self.now).header }
        ensures counts { result.instantiated_section_count ≤ result.section_count }
    {
        self.header
    }

    /// Returns section `i`, or `None` past the last one.
    #[tactic(auto, unfolding(crate::specs::Container::section_of))]
    pub fn section(&self, i: usize) -> Option<SectionView<'a>>
        ensures value { option_map seen result ≡ section_of (contained self.now) i }
        ensures there { IsSome result ↔ (i < (contained self.now).header.section_count) }
        ensures raw { IfSome result (λ s. length s.raw.now ≡ s.header.packed_size) }
        ensures instantiated { i < (contained self.now).header.instantiated_section_count
            → IfSome result (λ s. IsInstantiable (seen s)) }
    {
        if i >= usize::from(self.header.section_count) {
            return None;
        }
        let header = read_section(self.cut, i)?;
        let raw = raw_bytes(self.cut, header);
        Some(SectionView { header, raw })
    }

    /// Returns the raw bytes of section `i`, or `None` past the last one.
    ///
    /// They have the packed size, however long the section's image is.
    pub fn raw(&self, i: usize) -> Option<&'a [u8]>
        ensures value { option_copied result ≡ option_map (λ s. s.raw) (section_of (contained self.now) i) }
        ensures there { IsSome result ↔ (i < (contained self.now).header.section_count) }
    {
        Some(self.section(i)?.raw)
    }

    /// Returns the raw bytes of the loader section: the first that isn't instantiated and is of that
    /// kind.
    pub fn loader(&self) -> &'a [u8]
        ensures { result.now ≡ (contained self.now).loader }
    {
        self.loader
    }

    /// Returns the offset in the container of the first byte of the loader section.
    ///
    /// It is looked for among the section headers.
    #[tactic(auto, unfolding(crate::specs::Container::loader_offset_of, crate::specs::Container::loader_row_of))]
    pub fn loader_offset(&self) -> Option<usize>
        ensures value { result ≡ loader_offset_of (contained self.now) }
        ensures small { IfSome result (λ offset. offset < 2 ^ 32) }
    {
        let row = loader_row(self.cut, self.header)?;
        Some(read_section(self.cut, usize::from(row))?.container_offset as usize)
    }

    /// Returns the name of section `i`, without the zero byte at its end.
    ///
    /// `None` past the last section, at a negative name offset, and if no zero byte follows in the
    /// container. A name may end anywhere in the container.
    pub fn section_name(&self, i: usize) -> Option<&'a [u8]>
        ensures { option_copied result ≡ section_name_of (contained self.now) i }
    {
        let offset = usize::try_from(self.section(i)?.header.name_offset).ok()?;
        self.cut.name_at(names_at(self.header) + offset)
    }
}

/// Tests each section in turn, and reports the first refusal.
fn test_sections(cut: Cut<'_>, header: Header) -> Result<(), ViewFault>
    ensures { result_err result
        ≡ first_among (section_refusal cut.entry.bytes.now header) 0 header.section_count }
{
    for i in 0..header.section_count {
        test_section_at(cut, header, i)?;
    }
    Ok(())
}

/// Tests section `i`.
fn test_section_at(cut: Cut<'_>, header: Header, i: u16) -> Result<(), ViewFault>
    requires { i < header.section_count }
    ensures { result_err result ≡ section_refusal cut.entry.bytes.now header i }
{
    let section = read_section(cut, usize::from(i)).ok_or(ViewFault::TooShort)?;
    let instantiated = i < header.instantiated_section_count;
    test_section(i, section, instantiated, cut.len())
}

/// Returns the raw bytes of the first loader section that isn't instantiated.
pub(crate) fn find_loader<'a>(cut: Cut<'a>, header: Header) -> Option<&'a [u8]>
    ensures { option_copied result ≡ loader_of cut.entry.bytes.now header }
{
    for i in 0..usize::from(header.section_count) {
        match loader_at(cut, header, i) {
            Some(loader) => return Some(loader),
            None => {}
        }
    }
    None
}

/// Returns the raw bytes of section `i`, if it is a loader section that isn't instantiated.
fn loader_at<'a>(cut: Cut<'a>, header: Header, i: usize) -> Option<&'a [u8]>
    requires { i < 2 ^ 16 }
    ensures { option_copied result ≡ loader_here cut.entry.bytes.now header i }
{
    if i < usize::from(header.instantiated_section_count) {
        return None;
    }
    let section = read_section(cut, i)?;
    if !section.kind().is_loader() {
        return None;
    }
    Some(raw_bytes(cut, section))
}

/// Returns the number of the loader section: the first that isn't instantiated, or the first of all.
pub(crate) fn loader_row(cut: Cut<'_>, header: Header) -> Option<u16>
    ensures { result ≡ option_or (first_among (behind_row_at cut.entry.bytes.now header) 0 header.section_count) (any_row cut.entry.bytes.now header) }
{
    match behind_row(cut, header) {
        Some(row) => Some(row),
        None => any_row(cut, header),
    }
}

/// Returns the header of the first of all loader sections.
pub(crate) fn any_loader(cut: Cut<'_>, header: Header) -> Option<SectionHeader>
    ensures { result ≡ any_loader cut.entry.bytes.now header }
{
    let row = any_row(cut, header)?;
    read_section(cut, usize::from(row))
}

/// Returns the number of the first of all loader sections.
fn any_row(cut: Cut<'_>, header: Header) -> Option<u16>
    ensures { result ≡ any_row cut.entry.bytes.now header }
{
    for i in 0..header.section_count {
        match loader_row_at(cut, i) {
            Some(row) => return Some(row),
            None => {}
        }
    }
    None
}

/// Returns the number of the first loader section that isn't instantiated.
fn behind_row(cut: Cut<'_>, header: Header) -> Option<u16>
    ensures { result ≡ first_among (behind_row_at cut.entry.bytes.now header) 0 header.section_count }
{
    for i in 0..header.section_count {
        match behind_row_at(cut, header, i) {
            Some(row) => return Some(row),
            None => {}
        }
    }
    None
}

/// Returns `i`, if section `i` is a loader section that isn't instantiated.
fn behind_row_at(cut: Cut<'_>, header: Header, i: u16) -> Option<u16>
    ensures { result ≡ behind_row_at cut.entry.bytes.now header i }
{
    if i < header.instantiated_section_count {
        return None;
    }
    loader_row_at(cut, i)
}

/// Returns `i`, if section `i` is a loader section.
fn loader_row_at(cut: Cut<'_>, i: u16) -> Option<u16>
    ensures { result ≡ loader_row_at cut.entry.bytes.now i }
{
    let section = read_section(cut, usize::from(i))?;
    if !section.kind().is_loader() {
        return None;
    }
    Some(i)
}
