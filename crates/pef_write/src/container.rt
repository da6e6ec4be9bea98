ghost use Rattle.std.specs.Prelude.{◌≡◌, ◌+◌, ◌*◌, ◌-◌, ◌++◌, ◌<◌, ◌^◌, OnOk, IfOk, length};
ghost use Rattle.pef_write.specs.Fields.{padded, spelled};
ghost use Rattle.pef_write.specs.Containers.{data_from, header_fields, loader_header, raw_data, section_fields, section_header, spelled_headers, written_container, written_header, written_sections};

use crate::field::{Field, put_fields};
use crate::sections::RawSection;
use pef_format::layout::{
    CONTAINER_HEADER_SIZE, FORMAT_VERSION, NO_NAME, POWERPC, SECTION_HEADER_SIZE, TAG_1, TAG_2,
};
use pef_format::{SectionKind, Share};
use pef_script::Versions;
use pef_views::{Header, SectionHeader};
use std::alloc::{AllocError, Global};

/// The raw bytes of each section begin at a multiple of this.
const DATA_ALIGNMENT: usize = 16;

/// The alignment in the header of a loader section, as an exponent of two.
const LOADER_ALIGNMENT: u8 = 4;

/// Returns the container of `sections`, in their order, and of a loader section after them.
///
/// It has no time stamp. All raw bytes begin at a multiple of [`DATA_ALIGNMENT`].
pub(crate) fn write_container(
    alloc: Global,
    versions: Versions,
    sections: &[RawSection<'_>],
    loader: &[u8],
) -> Result<Vec<u8>, AllocError>
    requires count { length sections.now + 1 < 2 ^ 16 }
    requires fits { length (written_container versions sections.now loader.now) < 2 ^ 32 }
    ensures { IfOk result (λ bytes. bytes.items ≡ written_container versions sections.now loader.now) }
{
    let mut out = Vec::with_capacity(alloc, container_length(sections, loader))?;
    put_headers(&mut out, versions, sections, loader)?;
    let data_from = out.len().next_multiple_of(DATA_ALIGNMENT);
    out.resize(data_from, 0)?;
    for section in sections {
        put_padded(&mut out, section.bytes())?;
    }
    out.extend_from_slice(loader)?;
    Ok(out)
}

/// Returns where the raw bytes of `count` sections and of a loader section begin.
fn data_from(count: usize) -> usize
    requires { count + 1 < 2 ^ 16 }
    ensures { result ≡ data_from count }
{
    (CONTAINER_HEADER_SIZE + SECTION_HEADER_SIZE * (count + 1)).next_multiple_of(DATA_ALIGNMENT)
}

/// Returns the length of the container of `sections` and of a loader section.
fn container_length(sections: &[RawSection<'_>], loader: &[u8]) -> usize
    requires count { length sections.now + 1 < 2 ^ 16 }
    requires fits { data_from (length sections.now) + length (raw_data sections.now loader.now) < 2 ^ 32 }
    ensures { result ≡ data_from (length sections.now) + length (raw_data sections.now loader.now) }
{
    let mut at = data_from(sections.len());
    for section in sections {
        at += section.bytes().len().next_multiple_of(DATA_ALIGNMENT);
    }
    at + loader.len()
}

/// Appends the container header and all section headers.
fn put_headers(
    out: &mut Vec<u8>,
    versions: Versions,
    sections: &[RawSection<'_>],
    loader: &[u8],
) -> Result<(), AllocError>
    requires count { length sections.now + 1 < 2 ^ 16 }
    requires fits { data_from (length sections.now) + length (raw_data sections.now loader.now) < 2 ^ 32 }
    ensures { OnOk result (out.new.items ≡ out.old.items ++ (spelled (header_fields (written_header versions (length sections.now))) ++ spelled_headers (written_sections sections.now loader.now))) }
{
    let header = container_header(versions, sections.len() as u16);
    put_fields(out, &header_fields(header))?;
    put_section_headers(out, sections, loader)
}

/// Appends the headers of `sections` and of the loader section.
fn put_section_headers(
    out: &mut Vec<u8>,
    sections: &[RawSection<'_>],
    loader: &[u8],
) -> Result<(), AllocError>
    requires count { length sections.now + 1 < 2 ^ 16 }
    requires fits { data_from (length sections.now) + length (raw_data sections.now loader.now) < 2 ^ 32 }
    ensures { OnOk result (out.new.items ≡ out.old.items ++ spelled_headers (written_sections sections.now loader.now)) }
{
    let mut at = data_from(sections.len());
    for section in sections {
        put_fields(out, &section_fields(section_header(section, at as u32)))?;
        at += section.bytes().len().next_multiple_of(DATA_ALIGNMENT);
    }
    put_fields(
        out,
        &section_fields(loader_header(loader.len() as u32, at as u32)),
    )
}

/// Appends `bytes` and zeros after them, up to a multiple of [`DATA_ALIGNMENT`].
#[tactic(auto, unfolding(crate::specs::Fields::padded))]
fn put_padded(out: &mut Vec<u8>, bytes: &[u8]) -> Result<(), AllocError>
    requires { length bytes.now < 2 ^ 32 }
    ensures { OnOk result (out.new.items ≡ out.old.items ++ padded 16 bytes.now) }
{
    out.extend_from_slice(bytes)?;
    let zeros = bytes.len().next_multiple_of(DATA_ALIGNMENT) - bytes.len();
    out.resize(out.len() + zeros, 0)
}

/// Returns the header of a container of `count` sections and a loader section.
fn container_header(versions: Versions, count: u16) -> Header
    requires { count + 1 < 2 ^ 16 }
    ensures { result ≡ written_header versions count }
{
    Header {
        tag_1: TAG_1,
        tag_2: TAG_2,
        architecture: POWERPC,
        format_version: FORMAT_VERSION,
        date_time_stamp: 0,
        old_def_version: versions.old_def,
        old_imp_version: versions.old_imp,
        current_version: versions.current,
        section_count: count + 1,
        instantiated_section_count: count,
        reserved: 0,
    }
}

/// Returns the header of a section whose raw bytes lie at `at`.
fn section_header(section: &RawSection<'_>, at: u32) -> SectionHeader
    ensures { result ≡ section_header section.now at }
{
    let header = section.header();
    SectionHeader {
        name_offset: NO_NAME,
        default_address: 0,
        total_size: header.total,
        unpacked_size: section.image_len() as u32,
        packed_size: section.bytes().len() as u32,
        container_offset: at,
        section_kind: header.kind.code(),
        share_kind: header.share.code(),
        alignment: header.align,
        reserved: 0,
    }
}

/// Returns the header of a loader section of `len` bytes that lies at `at`.
fn loader_header(len: u32, at: u32) -> SectionHeader
    ensures { result ≡ loader_header len at }
{
    SectionHeader {
        name_offset: NO_NAME,
        default_address: 0,
        total_size: 0,
        unpacked_size: 0,
        packed_size: len,
        container_offset: at,
        section_kind: SectionKind::Loader.code(),
        share_kind: Share::Global.code(),
        alignment: LOADER_ALIGNMENT,
        reserved: 0,
    }
}

/// Returns the fields of the container header, in order (PEFContainerHeader).
#[tactic(auto, unfolding(crate::specs::Containers::header_fields))]
fn header_fields(header: Header) -> [Field; 11]
    ensures { result ≡ header_fields header }
{
    [
        Field::Word(header.tag_1),
        Field::Word(header.tag_2),
        Field::Word(header.architecture),
        Field::Word(header.format_version),
        Field::Word(header.date_time_stamp),
        Field::Word(header.old_def_version),
        Field::Word(header.old_imp_version),
        Field::Word(header.current_version),
        Field::Half(header.section_count),
        Field::Half(header.instantiated_section_count),
        Field::Word(header.reserved),
    ]
}

/// Returns the fields of a section header, in order (PEFSectionHeader).
#[tactic(auto, unfolding(crate::specs::Containers::section_fields))]
fn section_fields(header: SectionHeader) -> [Field; 10]
    ensures { result ≡ section_fields header }
{
    [
        Field::Word(header.name_offset.cast_unsigned()),
        Field::Word(header.default_address),
        Field::Word(header.total_size),
        Field::Word(header.unpacked_size),
        Field::Word(header.packed_size),
        Field::Word(header.container_offset),
        Field::Byte(header.section_kind),
        Field::Byte(header.share_kind),
        Field::Byte(header.alignment),
        Field::Byte(header.reserved),
    ]
}
