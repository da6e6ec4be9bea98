ghost use Rattle.std.specs.Prelude.{◌≡◌, ◌+◌, ◌^◌, ◌<◌};
ghost use Rattle.std.specs.Result.{result_err};
ghost use Rattle.pef_words.specs.Refusals.{first_met};
ghost use Rattle.pef_format.specs.Sections.{kind_of, share_of};
ghost use Rattle.pef_views.specs.Section.{is_inside, raw_of, section_at, section_tests, sizes_fit};

use crate::fault::ViewFault;
use crate::header::section_header_at;
use pef_format::layout::{
    ALIGNMENT_AT, CONTAINER_OFFSET_AT, DEFAULT_ADDRESS_AT, MAX_ALIGNMENT, NAME_OFFSET_AT,
    PACKED_SIZE_AT, SECTION_KIND_AT, SECTION_RESERVED_AT, SHARE_KIND_AT, TOTAL_SIZE_AT,
    UNPACKED_SIZE_AT,
};
use pef_format::{SectionKind, Share};
use pef_words::{Cut, first_met};

/// A section header, field by field (PEFSectionHeader).
///
/// Lengths count bytes. The share kind and the reserved field aren't tested.
#[derive(Clone, Copy, Debug, PartialEq, Eq)]
pub struct SectionHeader {
    /// Where the name begins in the section name table, or a negative number for none.
    pub name_offset: i32,
    /// The address that the linker preferred. Nothing depends on it.
    pub default_address: u32,
    /// The length of the section's memory.
    pub total_size: u32,
    /// The length of the image at the front of that memory.
    pub unpacked_size: u32,
    /// The length of the raw bytes.
    pub packed_size: u32,
    /// Where the raw bytes begin, counted from the container's first byte.
    pub container_offset: u32,
    /// The code of the section's [`kind`](Self::kind).
    pub section_kind: u8,
    /// The code of the section's [`share`](Self::share).
    pub share_kind: u8,
    /// The memory's alignment, as an exponent of two.
    pub alignment: u8,
    pub reserved: u8,
}

impl SectionHeader {
    /// Returns what the section is for.
    pub fn kind(self) -> SectionKind
        ensures { result ≡ kind_of self.section_kind }
    {
        SectionKind::from_code(self.section_kind)
    }

    /// Returns how instances of the section are shared.
    pub fn share(self) -> Share
        ensures { result ≡ share_of self.share_kind }
    {
        Share::from_code(self.share_kind)
    }
}

/// A section: its header, and its raw bytes in the container.
#[derive(Clone, Copy, Debug)]
pub struct SectionView<'a> {
    pub header: SectionHeader,
    pub raw: &'a [u8],
}

/// Returns the header of section `i`, or `None` if it passes the end.
#[tactic(auto, unfolding(crate::specs::Section::section_at))]
pub(crate) fn read_section(cut: Cut<'_>, i: usize) -> Option<SectionHeader>
    requires { i < 2 ^ 16 }
    ensures { result ≡ section_at cut.entry.bytes.now i }
{
    let at = section_header_at(i);
    Some(SectionHeader {
        name_offset: cut.i32_at(at + NAME_OFFSET_AT)?,
        default_address: cut.u32_at(at + DEFAULT_ADDRESS_AT)?,
        total_size: cut.u32_at(at + TOTAL_SIZE_AT)?,
        unpacked_size: cut.u32_at(at + UNPACKED_SIZE_AT)?,
        packed_size: cut.u32_at(at + PACKED_SIZE_AT)?,
        container_offset: cut.u32_at(at + CONTAINER_OFFSET_AT)?,
        section_kind: cut.u8_at(at + SECTION_KIND_AT)?,
        share_kind: cut.u8_at(at + SHARE_KIND_AT)?,
        alignment: cut.u8_at(at + ALIGNMENT_AT)?,
        reserved: cut.u8_at(at + SECTION_RESERVED_AT)?,
    })
}

/// Tests section `i` in a container of `len` bytes, and reports the first rule that it breaks.
pub(crate) fn test_section(
    i: u16,
    section: SectionHeader,
    instantiated: bool,
    len: usize,
) -> Result<(), ViewFault>
    ensures { result_err result ≡ first_met (section_tests i instantiated section len) }
{
    match first_met(section_table(i, section, instantiated, len)) {
        Some(fault) => Err(fault),
        None => Ok(()),
    }
}

/// Returns the tests of section `i` in a container of `len` bytes, in order.
#[tactic(auto, unfolding(crate::specs::Section::section_tests))]
pub(crate) fn section_table(
    i: u16,
    section: SectionHeader,
    instantiated: bool,
    len: usize,
) -> [(bool, ViewFault); 4]
    ensures { result ≡ section_tests i instantiated section len }
{
    [
        (
            !lies_inside(section, len),
            ViewFault::SectionOutside { section: i },
        ),
        (
            instantiated && !section.kind().is_instantiable(),
            ViewFault::BadSectionKind { section: i },
        ),
        (
            instantiated && !has_fitting_sizes(section),
            ViewFault::BadSizes { section: i },
        ),
        (
            instantiated && section.alignment > MAX_ALIGNMENT,
            ViewFault::BadAlignment { section: i },
        ),
    ]
}

/// Returns whether the raw bytes lie in a container of `len` bytes. If the packed size is 0, they lie
/// in any container.
fn lies_inside(section: SectionHeader, len: usize) -> bool
    ensures { result ≡ is_inside section len }
{
    let end = section.container_offset as usize + section.packed_size as usize;
    section.packed_size == 0 || end <= len
}

/// Returns whether the image fits the memory, and the raw bytes are enough for it. Packed data may
/// have any length.
fn has_fitting_sizes(section: SectionHeader) -> bool
    ensures { result ≡ sizes_fit section }
{
    section.unpacked_size <= section.total_size
        && (section.kind().is_packed() || section.unpacked_size <= section.packed_size)
}

/// Returns a section's raw bytes, as far as they are in the container.
pub(crate) fn raw_bytes<'a>(cut: Cut<'a>, section: SectionHeader) -> &'a [u8]
    ensures { result.now ≡ raw_of cut.entry.bytes.now section }
{
    let bytes = cut.bytes();
    let from = bytes.len().min(section.container_offset as usize);
    let (_, rest) = bytes.split_at(from);
    let (raw, _) = rest.split_at(rest.len().min(section.packed_size as usize));
    raw
}
