ghost use Rattle.std.specs.Prelude.{◌≡◌, ◌<◌, ◌^◌};
ghost use Rattle.std.specs.Result.{result_err};
ghost use Rattle.pef_words.specs.Refusals.{first_met};
ghost use Rattle.pef_views.specs.Header.{field_tests, header_of, header_tests, names_from, section_header_from, tag_tests};

use crate::fault::ViewFault;
use pef_format::layout::{
    ARCHITECTURE_AT, CONTAINER_HEADER_SIZE, CONTAINER_RESERVED_AT, CURRENT_VERSION_AT,
    DATE_TIME_STAMP_AT, FORMAT_VERSION, FORMAT_VERSION_AT, INSTANTIATED_SECTION_COUNT_AT,
    OLD_DEF_VERSION_AT, OLD_IMP_VERSION_AT, POWERPC, SECTION_COUNT_AT, SECTION_HEADER_SIZE, TAG_1,
    TAG_1_AT, TAG_2, TAG_2_AT,
};
use pef_words::{Cut, first_met};

/// The container header, field by field (PEFContainerHeader).
///
/// Reserved fields aren't tested, nor is the time.
#[derive(Clone, Copy, Debug, PartialEq, Eq)]
pub struct Header {
    pub tag_1: u32,
    pub tag_2: u32,
    pub architecture: u32,
    pub format_version: u32,
    /// Seconds since the first of January 1904.
    pub date_time_stamp: u32,
    /// The oldest version of the library's definition that this implementation still serves.
    pub old_def_version: u32,
    /// The oldest version of the library's implementation that a client built with it still takes.
    pub old_imp_version: u32,
    /// The version of this container.
    pub current_version: u32,
    /// How many section headers follow.
    pub section_count: u16,
    /// How many sections, from the first on, get memory.
    pub instantiated_section_count: u16,
    pub reserved: u32,
}

#[tactic(auto, unfolding(crate::specs::Header::header_of))]
pub(crate) fn read_header(cut: Cut<'_>) -> Option<Header>
    ensures { result ≡ header_of cut.entry.bytes.now }
{
    Some(Header {
        tag_1: cut.u32_at(TAG_1_AT)?,
        tag_2: cut.u32_at(TAG_2_AT)?,
        architecture: cut.u32_at(ARCHITECTURE_AT)?,
        format_version: cut.u32_at(FORMAT_VERSION_AT)?,
        date_time_stamp: cut.u32_at(DATE_TIME_STAMP_AT)?,
        old_def_version: cut.u32_at(OLD_DEF_VERSION_AT)?,
        old_imp_version: cut.u32_at(OLD_IMP_VERSION_AT)?,
        current_version: cut.u32_at(CURRENT_VERSION_AT)?,
        section_count: cut.u16_at(SECTION_COUNT_AT)?,
        instantiated_section_count: cut.u16_at(INSTANTIATED_SECTION_COUNT_AT)?,
        reserved: cut.u32_at(CONTAINER_RESERVED_AT)?,
    })
}

/// Tests a header in a container of `len` bytes, and reports the first rule that it breaks.
#[tactic(auto, using(crate::proofs::Headers::tested_in_two))]
pub(crate) fn test_header(header: Header, len: usize) -> Result<(), ViewFault>
    ensures { result_err result ≡ first_met (header_tests header len) }
{
    test_tag(header)?;
    match first_met(field_table(header, len)) {
        Some(fault) => Err(fault),
        None => Ok(()),
    }
}

/// Tests the tags of a header. Bytes with other tags are no container.
pub(crate) fn test_tag(header: Header) -> Result<(), ViewFault>
    ensures { result_err result ≡ first_met (tag_tests header) }
{
    if header.tag_1 != TAG_1 || header.tag_2 != TAG_2 {
        return Err(ViewFault::BadTag);
    }
    Ok(())
}

/// Returns the tests of the other fields of a header in a container of `len` bytes, in order.
pub(crate) fn field_table(header: Header, len: usize) -> [(bool, ViewFault); 4]
    ensures { result ≡ field_tests header len }
{
    [
        (header.architecture != POWERPC, ViewFault::BadArchitecture),
        (
            header.format_version != FORMAT_VERSION,
            ViewFault::BadFormatVersion,
        ),
        (
            header.instantiated_section_count > header.section_count,
            ViewFault::BadSectionCounts,
        ),
        (len < names_at(header), ViewFault::TooShort),
    ]
}

/// Returns where the header of section `i` begins.
pub(crate) fn section_header_at(i: usize) -> usize
    requires { i < 2 ^ 16 }
    ensures { result ≡ section_header_from i }
{
    CONTAINER_HEADER_SIZE + SECTION_HEADER_SIZE * i
}

/// Returns where the section name table begins.
pub(crate) fn names_at(header: Header) -> usize
    ensures value { result ≡ names_from header }
    ensures bound { result < 2 ^ 32 }
{
    section_header_at(usize::from(header.section_count))
}
