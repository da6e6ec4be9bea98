ghost use Rattle.std.specs.Prelude.{◌≡◌, ◌<◌};
ghost use Rattle.pef_views.specs.Faults.{fault_name, fault_number, fault_offset, fault_place, header_place, section_place};

use crate::header::section_header_at;
use pef_format::layout::{
    ALIGNMENT_AT, ARCHITECTURE_AT, CONTAINER_OFFSET_AT, FORMAT_VERSION_AT,
    INSTANTIATED_SECTION_COUNT_AT, SECTION_KIND_AT, TAG_1_AT, UNPACKED_SIZE_AT,
};
use pef_format::{Part, Place};
use std::fmt;
use thiserror::Error;

/// The first rule of the format that some bytes break, with the number of the section that breaks it, from 0. The text
/// is the rule's name.
#[derive(Clone, Copy, Debug, PartialEq, Eq, Error)]
pub enum ViewFault {
    /// The container header, or the section headers that it counts, exceed the bytes.
    TooShort,

    /// The first eight bytes aren't `Joy!peff`.
    BadTag,

    /// The architecture isn't `pwpc`.
    BadArchitecture,

    /// The format's version isn't 1.
    BadFormatVersion,

    /// More sections are instantiated than there are.
    BadSectionCounts,

    /// A section's raw bytes exceed the container.
    SectionOutside { section: u16 },

    /// An instantiated section isn't code, data, a constant or executable data.
    BadSectionKind { section: u16 },

    /// An instantiated section's image doesn't fit its memory, or its raw bytes are too few for it.
    BadSizes { section: u16 },

    /// An instantiated section's alignment is above 31.
    BadAlignment { section: u16 },

    /// None of the sections that aren't instantiated is a loader section.
    NoLoader,
}

impl ViewFault {
    /// Returns the refusal's number, from 1 to 10. No refusal of another crate has it.
    pub fn number(&self) -> u32
        ensures { result ≡ fault_number self.now }
    {
        match self {
            ViewFault::TooShort => 1,
            ViewFault::BadTag => 2,
            ViewFault::BadArchitecture => 3,
            ViewFault::BadFormatVersion => 4,
            ViewFault::BadSectionCounts => 5,
            ViewFault::SectionOutside { .. } => 6,
            ViewFault::BadSectionKind { .. } => 7,
            ViewFault::BadSizes { .. } => 8,
            ViewFault::BadAlignment { .. } => 9,
            ViewFault::NoLoader => 10,
        }
    }

    /// Returns the place in the container of the field that the broken rule is about.
    ///
    /// `None` if the rule is about no field: the bytes are too short, or no section is the loader section.
    pub fn place(&self) -> Option<Place>
        ensures { result ≡ fault_place self.now }
    {
        match self {
            ViewFault::TooShort | ViewFault::NoLoader => None,
            ViewFault::BadTag => Some(header_place(TAG_1_AT)),
            ViewFault::BadArchitecture => Some(header_place(ARCHITECTURE_AT)),
            ViewFault::BadFormatVersion => Some(header_place(FORMAT_VERSION_AT)),
            ViewFault::BadSectionCounts => Some(header_place(INSTANTIATED_SECTION_COUNT_AT)),
            ViewFault::SectionOutside { section } => {
                Some(section_place(*section, CONTAINER_OFFSET_AT))
            }
            ViewFault::BadSectionKind { section } => Some(section_place(*section, SECTION_KIND_AT)),
            ViewFault::BadSizes { section } => Some(section_place(*section, UNPACKED_SIZE_AT)),
            ViewFault::BadAlignment { section } => Some(section_place(*section, ALIGNMENT_AT)),
        }
    }

    /// Returns the offset in the container of the field that the broken rule is about.
    pub fn offset(&self) -> Option<usize>
        ensures { result ≡ fault_offset self.now }
    {
        self.place()?.offset
    }

    /// Returns the refusal's name, which is its text.
    pub fn name(&self) -> &'static str
        ensures { result.now ≡ fault_name self.now }
    {
        match self {
            ViewFault::TooShort => "TooShort",
            ViewFault::BadTag => "BadTag",
            ViewFault::BadArchitecture => "BadArchitecture",
            ViewFault::BadFormatVersion => "BadFormatVersion",
            ViewFault::BadSectionCounts => "BadSectionCounts",
            ViewFault::SectionOutside { .. } => "SectionOutside",
            ViewFault::BadSectionKind { .. } => "BadSectionKind",
            ViewFault::BadSizes { .. } => "BadSizes",
            ViewFault::BadAlignment { .. } => "BadAlignment",
            ViewFault::NoLoader => "NoLoader",
        }
    }
}

/// Returns the place of a field of the container header.
fn header_place(field: usize) -> Place
    requires { field < 40 }
    ensures { Some result ≡ header_place field }
{
    Place {
        part: Part::Header,
        row: 0,
        field,
        offset: Some(field),
    }
}

/// Returns the place of a field of a section header.
fn section_place(section: u16, field: usize) -> Place
    requires { field < 28 }
    ensures { Some result ≡ section_place section field }
{
    let row = usize::from(section);
    Place {
        part: Part::Section,
        row,
        field,
        offset: Some(section_header_at(row) + field),
    }
}

impl fmt::Display for ViewFault {
    ghost use Rattle.std.specs.Prelude.{Some};
    ghost use Rattle.pef_views.specs.Faults.{fault_name};

    ghost output = { λ fault. Some (fault_name fault) };

    fn fmt<W: fmt::Write>(&self, f: &mut fmt::Formatter<W>) -> fmt::Result {
        f.write_str(self.name())
    }
}
