//! All that is odd about a file besides its containers.
ghost use Rattle.std.specs.Prelude.{◌≡◌, ◌<◌, ◌^◌, ◌++◌, IfOk, OnOk, option_map};
ghost use Rattle.std.specs.Option.{option_to_list, unwrap_or};
ghost use Rattle.pef_words.specs.Bytes.{number_at};
ghost use Rattle.mac_forks.specs.Views.{part_seen};
ghost use Rattle.cfm_members.specs.Members.{all_members, locator_of};
ghost use Rattle.cfm_members.specs.Views.{member_seen, row_seen as member_row};
ghost use Rattle.mac_rows.specs.FileNotes.{absent_notes, after_notes, agrees, all_notes, architecture_at, architecture_notes, format_notes, format_of, has_text, image_of, is_bin_hex, is_compact_pro, is_disk_copy, is_hfs, is_hfs_plus, is_iso_9660, is_partition_map, is_stuffit, is_zip, member_offset, members_notes, notes_of, number_of, placed_notes, row_notes, short_notes, table_notes, unpacked_in, usage_notes, volume_of};
ghost use Rattle.mac_rows.specs.Views.{data_file_seen, member_table_seen, place_seen};

use crate::data_file::{DataFile, member_table_in};
use crate::file_finding::{FileFinding, OtherFormat};
use crate::member_table::{ContainerPlace, MemberTable};
use crate::wrapping::Wrapping;
use cfm_members::{FileKind, Locator, Member, MemberFault, readable};
use mac_forks::ForkBytes;
use pef_format::layout::{ARCHITECTURE_AT, CONTAINER_HEADER_SIZE, POWERPC};
use pef_inspect::needed;
use pef_words::Cut;
use std::alloc::{AllocError, Allocator};

/// The architecture of CFM-68K, `m68k`.
const CFM_68K: u32 = 0x6D36_386B;

/// `????` in a table of fragments: any architecture.
const ANY: u32 = 0x3F3F_3F3F;

/// The greatest code of a usage (kWeakStubLibraryCFrag).
const GREATEST_USAGE: u8 = 4;

/// How many members are measured. A table can have 65,535, all at one container with as many sections.
const MOST_MEASURED: u16 = 256;

/// Returns all notes on a file that aren't those on its containers.
#[tactic(auto, unfolding(crate::specs::FileNotes::notes_of))]
pub fn find_notes<A: Allocator + Copy>(
    alloc: A,
    bytes: &[u8],
    data_file: Option<DataFile<'_>>,
) -> Result<Vec<FileFinding, A>, AllocError>
    ensures { IfOk result (λ notes. notes.items ≡ notes_of (option_map data_file_seen data_file.entry) bytes.now) }
{
    let wrapping = Wrapping::of(bytes);
    let mut notes = Vec::new(alloc);
    add_some(after_note(bytes.len(), wrapping.end), &mut notes)?;
    let resource_fork = readable(wrapping.resource_fork);
    add_some(
        unpacked_in(bytes, readable(wrapping.data_fork), resource_fork),
        &mut notes,
    )?;
    add_in_table(member_table_in(data_file, wrapping), &mut notes)?;
    Ok(notes)
}

/// Adds a note, if there is one.
fn add_some<A: Allocator>(
    note: Option<FileFinding>,
    notes: &mut Vec<FileFinding, A>,
) -> Result<(), AllocError>
    ensures { OnOk result (notes.new.items ≡ notes.old.items ++ option_to_list note) }
{
    match note {
        Some(note) => {
            notes.push(note)?;
            Ok(())
        }
        None => Ok(()),
    }
}

/// Returns the note on the bytes after the forks of MacBinary.
fn after_note(len: usize, end: Option<usize>) -> Option<FileFinding>
    ensures { option_to_list result ≡ after_notes len end }
{
    let end = end?;
    if end >= len {
        return None;
    }
    Some(FileFinding::BytesAfterForks {
        at: end as u64,
        length: (len - end) as u64,
    })
}

/// Returns the note on a file of another format: on its data fork, or on all bytes of a file without forks.
fn unpacked_in(
    bytes: &[u8],
    data_fork: Option<ForkBytes<'_>>,
    resource_fork: Option<ForkBytes<'_>>,
) -> Option<FileFinding>
    ensures { option_to_list result ≡ unpacked_in bytes.now (option_map part_seen data_fork.entry) (option_map part_seen resource_fork.entry) }
{
    match data_fork {
        Some(part) => format_note(part.offset as u64, format_of(part.bytes)),
        None => match resource_fork {
            Some(_) => None,
            None => format_note(0, format_of(bytes)),
        },
    }
}

/// Returns the note on a format.
fn format_note(at: u64, format: Option<OtherFormat>) -> Option<FileFinding>
    ensures { option_to_list result ≡ format_notes at format }
{
    let format = format?;
    Some(FileFinding::NotUnpacked { at, format })
}

/// Adds the notes on the members of a table of fragments, if there is one.
fn add_in_table<A: Allocator>(
    table: Option<MemberTable<'_>>,
    notes: &mut Vec<FileFinding, A>,
) -> Result<(), AllocError>
    ensures { OnOk result (notes.new.items ≡ notes.old.items ++ table_notes (option_map member_table_seen table.entry)) }
{
    match table {
        Some(table) => add_in_members(table, notes),
        None => Ok(()),
    }
}

/// Adds the notes on all members of a table of fragments.
fn add_in_members<A: Allocator>(
    table: MemberTable<'_>,
    notes: &mut Vec<FileFinding, A>,
) -> Result<(), AllocError>
    ensures { OnOk result (notes.new.items ≡ notes.old.items ++ members_notes (member_table_seen table.entry) (all_members (member_table_seen table.entry).fragments)) }
{
    for row in table.fragments.members() {
        add_in_row(table, row, notes)?;
    }
    Ok(())
}

/// Adds the notes on a row of a table of fragments.
fn add_in_row<A: Allocator>(
    table: MemberTable<'_>,
    row: Result<Member<'_>, MemberFault>,
    notes: &mut Vec<FileFinding, A>,
) -> Result<(), AllocError>
    ensures { OnOk result (notes.new.items ≡ notes.old.items ++ row_notes (member_table_seen table.entry) (member_row row.entry)) }
{
    match row {
        Ok(member) => add_placed(table, member, table.place_of(member), notes),
        Err(_) => Ok(()),
    }
}

/// Adds the notes on a member whose container is at a place.
fn add_placed<A: Allocator>(
    table: MemberTable<'_>,
    member: Member<'_>,
    place: ContainerPlace<'_>,
    notes: &mut Vec<FileFinding, A>,
) -> Result<(), AllocError>
    ensures { OnOk result (notes.new.items ≡ notes.old.items ++ all_notes (member_table_seen table.entry) (member_seen member.entry) (place_seen place.entry)) }
{
    add_some(placed_note(table, member, place), notes)?;
    add_some(
        architecture_note(table, member, architecture_at(place)),
        notes,
    )?;
    add_some(usage_note(table, member), notes)?;
    Ok(())
}

/// Returns the architecture of the container at a place, if one is there.
fn architecture_at(place: ContainerPlace<'_>) -> Option<u32>
    ensures { result ≡ architecture_at (place_seen place.entry) }
{
    match place {
        ContainerPlace::Lying { bytes, .. } => {
            if matches!(FileKind::of(bytes), FileKind::Container) {
                Cut::new(bytes).u32_at(ARCHITECTURE_AT)
            } else {
                None
            }
        }
        ContainerPlace::Elsewhere | ContainerPlace::Missing(_) => None,
    }
}

/// Returns the note on a member whose architecture isn't that of its container, or is none that there is.
fn architecture_note(
    table: MemberTable<'_>,
    member: Member<'_>,
    own: Option<u32>,
) -> Option<FileFinding>
    ensures { option_to_list result ≡ architecture_notes (member_table_seen table.entry) (member_seen member.entry) own }
{
    if agrees(member.header.architecture, own) {
        return None;
    }
    Some(FileFinding::FragmentArchitecture {
        at: member_offset(table, member),
        member: u64::from(member.member),
    })
}

/// Returns whether an architecture of a table is that of the container, or one that there is.
fn agrees(architecture: u32, own: Option<u32>) -> bool
    ensures { result ≡ agrees architecture own }
{
    match own {
        Some(own) => architecture == own || architecture == ANY,
        None => architecture == POWERPC || architecture == CFM_68K || architecture == ANY,
    }
}

/// Returns the note on a member with a usage that the format doesn't name.
fn usage_note(table: MemberTable<'_>, member: Member<'_>) -> Option<FileFinding>
    ensures { option_to_list result ≡ usage_notes (member_table_seen table.entry) (member_seen member.entry) }
{
    if member.header.usage_code <= GREATEST_USAGE {
        return None;
    }
    Some(FileFinding::FragmentUsage {
        at: member_offset(table, member),
        member: u64::from(member.member),
    })
}

/// Returns the note on a member whose container is at a place.
fn placed_note(
    table: MemberTable<'_>,
    member: Member<'_>,
    place: ContainerPlace<'_>,
) -> Option<FileFinding>
    ensures { option_to_list result ≡ placed_notes (member_table_seen table.entry) (member_seen member.entry) (place_seen place.entry) }
{
    match place {
        ContainerPlace::Elsewhere => absent_note(table, member),
        ContainerPlace::Missing(_) => None,
        ContainerPlace::Lying { bytes, .. } => {
            if member.member < MOST_MEASURED {
                short_note(table, member, needed(bytes), bytes.len() as u64)
            } else {
                None
            }
        }
    }
}

/// Returns the note on a member whose container is in a data fork that isn't there.
fn absent_note(table: MemberTable<'_>, member: Member<'_>) -> Option<FileFinding>
    ensures { option_to_list result ≡ absent_notes (member_table_seen table.entry) (member_seen member.entry) (locator_of (member_seen member.entry).header) }
{
    match member.header.locator() {
        Locator::DataFork { .. } => Some(FileFinding::DataForkElsewhere {
            at: member_offset(table, member),
            member: u64::from(member.member),
        }),
        Locator::Resource { .. } | Locator::Memory | Locator::Other(_) => None,
    }
}

/// Returns the note on a member whose container needs more bytes than it has. With fewer bytes than a header it is no container.
fn short_note(
    table: MemberTable<'_>,
    member: Member<'_>,
    needs: u64,
    has: u64,
) -> Option<FileFinding>
    ensures { option_to_list result ≡ short_notes (member_table_seen table.entry) (member_seen member.entry) needs has }
{
    if has >= CONTAINER_HEADER_SIZE as u64 && has < needs {
        Some(FileFinding::FragmentShort {
            at: member_offset(table, member),
            member: u64::from(member.member),
            length: needs - has,
        })
    } else {
        None
    }
}

/// Returns where a member begins in the file.
fn member_offset(table: MemberTable<'_>, member: Member<'_>) -> u64
    ensures { result ≡ member_offset (member_table_seen table.entry) (member_seen member.entry) }
{
    table.table_base.saturating_add(member.offset as u64)
}

/// Returns what some bytes seem to be, if they are of a format that is recognised and not read.
#[tactic(auto, unfolding(crate::specs::FileNotes::format_of))]
fn format_of(bytes: &[u8]) -> Option<OtherFormat>
    ensures { result ≡ format_of bytes.now }
{
    if is_stuffit(bytes) {
        Some(OtherFormat::StuffIt)
    } else if is_bin_hex(bytes) {
        Some(OtherFormat::BinHex)
    } else if is_zip(bytes) {
        Some(OtherFormat::Zip)
    } else {
        volume_of(bytes)
    }
}

/// Returns what some bytes seem to be that aren't an archive with a text at its beginning.
#[tactic(auto, unfolding(crate::specs::FileNotes::volume_of))]
fn volume_of(bytes: &[u8]) -> Option<OtherFormat>
    ensures { result ≡ volume_of bytes.now }
{
    if is_partition_map(bytes) {
        Some(OtherFormat::PartitionMap)
    } else if is_hfs_plus(bytes) {
        Some(OtherFormat::HfsPlus)
    } else if is_hfs(bytes) {
        Some(OtherFormat::Hfs)
    } else if is_iso_9660(bytes) {
        Some(OtherFormat::Iso9660)
    } else {
        image_of(bytes)
    }
}

/// Returns what some bytes seem to be that aren't a disk or a volume either.
#[tactic(auto, unfolding(crate::specs::FileNotes::image_of))]
fn image_of(bytes: &[u8]) -> Option<OtherFormat>
    ensures { result ≡ image_of bytes.now }
{
    if is_disk_copy(bytes) {
        Some(OtherFormat::DiskCopy)
    } else if is_compact_pro(bytes) {
        Some(OtherFormat::CompactPro)
    } else {
        None
    }
}

/// Returns whether some bytes begin as StuffIt, also of version 5.
#[tactic(auto, unfolding(crate::specs::FileNotes::is_stuffit))]
fn is_stuffit(bytes: &[u8]) -> bool
    ensures { result ≡ is_stuffit bytes.now }
{
    has_text(bytes, 0, b"SIT!") || has_text(bytes, 0, b"StuffIt (c)")
}

/// Returns whether some bytes begin as a text in BinHex.
#[tactic(auto, unfolding(crate::specs::FileNotes::is_bin_hex))]
fn is_bin_hex(bytes: &[u8]) -> bool
    ensures { result ≡ is_bin_hex bytes.now }
{
    has_text(bytes, 0, b"(This file must be converted")
}

/// Returns whether some bytes begin as a zip archive.
#[tactic(auto, unfolding(crate::specs::FileNotes::is_zip))]
fn is_zip(bytes: &[u8]) -> bool
    ensures { result ≡ is_zip bytes.now }
{
    has_text(bytes, 0, b"PK\x03\x04")
}

/// Returns whether some bytes are a disk with Apple's partition map.
#[tactic(auto, unfolding(crate::specs::FileNotes::is_partition_map))]
fn is_partition_map(bytes: &[u8]) -> bool
    ensures { result ≡ is_partition_map bytes.now }
{
    has_text(bytes, 0, b"ER") && has_text(bytes, 512, b"PM")
}

/// Returns whether some bytes are a volume of ISO 9660.
#[tactic(auto, unfolding(crate::specs::FileNotes::is_iso_9660))]
fn is_iso_9660(bytes: &[u8]) -> bool
    ensures { result ≡ is_iso_9660 bytes.now }
{
    has_text(bytes, 32_769, b"CD001")
}

/// Returns whether some bytes are a first volume of Compact Pro, with its directory in it.
#[tactic(auto, unfolding(crate::specs::FileNotes::is_compact_pro))]
fn is_compact_pro(bytes: &[u8]) -> bool
    ensures { result ≡ is_compact_pro bytes.now }
{
    let directory = number_of(bytes, 4);
    has_text(bytes, 0, b"\x01\x01") && directory >= 8 && directory + 7 <= bytes.len() as u64
}

/// Returns whether some bytes are an image by DiskCopy 4.2: its header, the data and the tags.
#[tactic(auto, unfolding(crate::specs::FileNotes::is_disk_copy))]
fn is_disk_copy(bytes: &[u8]) -> bool
    ensures { result ≡ is_disk_copy bytes.now }
{
    let length = 84 + number_of(bytes, 64) + number_of(bytes, 68);
    has_text(bytes, 82, b"\x01\x00") && length == bytes.len() as u64
}

/// Returns whether some bytes are a volume of HFS, whose name has a possible length.
#[tactic(auto, unfolding(crate::specs::FileNotes::is_hfs))]
fn is_hfs(bytes: &[u8]) -> bool
    ensures { result ≡ is_hfs bytes.now }
{
    let name_length = Cut::new(bytes).u8_at(1060).unwrap_or(0);
    has_text(bytes, 1024, b"BD") && name_length >= 1 && name_length <= 27
}

/// Returns whether some bytes are a volume of HFS+.
#[tactic(auto, unfolding(crate::specs::FileNotes::is_hfs_plus))]
fn is_hfs_plus(bytes: &[u8]) -> bool
    ensures { result ≡ is_hfs_plus bytes.now }
{
    has_text(bytes, 1024, b"H+\x00\x04") || has_text(bytes, 1024, b"HX\x00\x05")
}

/// Returns whether a text is at a place.
fn has_text(bytes: &[u8], at: usize, text: &[u8]) -> bool
    ensures { result ≡ has_text bytes.now at text.now }
{
    let (_, rest) = bytes.split_at(at.min(bytes.len()));
    rest.starts_with(text)
}

/// Returns the number of 32 bits at a place, or 0 if it passes the end.
fn number_of(bytes: &[u8], at: usize) -> u64
    ensures value { result ≡ number_of bytes.now at }
    ensures small { result < 2 ^ 32 }
{
    u64::from(Cut::new(bytes).u32_at(at).unwrap_or(0))
}
