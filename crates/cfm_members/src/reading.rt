ghost use Rattle.std.specs.Prelude.{◌≡◌, ◌+◌, ◌≤◌, length};
ghost use Rattle.std.specs.Option.{option_copied};
ghost use Rattle.cfm_members.specs.Members.{
  fields_of,
  header_at,
  member_at,
  name_in,
  name_of,
  size_fault,
  size_fits,
};
ghost use Rattle.cfm_members.specs.Views.{member_seen, name_seen};

use crate::fault::MemberFault;
use crate::layout::{
    ARCHITECTURE_AT, CURRENT_VERSION_AT, DIRECTORY_OR_FLAGS_AT, EXTENSION_COUNT_AT,
    FORK_INSTANCE_AT, LENGTH_AT, MEMBER_FIELDS_SIZE, MEMBER_SIZE_AT, NAME_AT, OFFSET_AT,
    OLD_DEF_VERSION_AT, RESERVED_1_AT, RESERVED_2_AT, SPACE_ID_AT, STACK_SIZE_AT, UPDATE_LEVEL_AT,
    USAGE_AT, WHERE_AT,
};
use crate::member::{Member, MemberHeader};
use pef_words::Cut;

/// Reads the fields of the member at `at`, or returns `None` if they pass the end.
#[tactic(auto, unfolding(crate::specs::Members::header_at))]
pub(crate) fn read_header(cut: Cut<'_>, at: usize) -> Option<MemberHeader>
    ensures { result ≡ header_at cut.entry.bytes.now at }
{
    read_fields(cut.part(at, usize::from(MEMBER_FIELDS_SIZE))?)
}

/// Reads the fields of a member, or returns `None` if they pass the end.
#[tactic(auto, unfolding(crate::specs::Members::fields_of))]
fn read_fields(cut: Cut<'_>) -> Option<MemberHeader>
    ensures { result ≡ fields_of cut.entry.bytes.now }
{
    Some(MemberHeader {
        architecture: cut.u32_at(ARCHITECTURE_AT)?,
        reserved_1: cut.u16_at(RESERVED_1_AT)?,
        reserved_2: cut.u8_at(RESERVED_2_AT)?,
        update_level: cut.u8_at(UPDATE_LEVEL_AT)?,
        current_version: cut.u32_at(CURRENT_VERSION_AT)?,
        old_def_version: cut.u32_at(OLD_DEF_VERSION_AT)?,
        stack_size: cut.u32_at(STACK_SIZE_AT)?,
        directory_or_flags: cut.u16_at(DIRECTORY_OR_FLAGS_AT)?,
        usage_code: cut.u8_at(USAGE_AT)?,
        where_code: cut.u8_at(WHERE_AT)?,
        offset: cut.u32_at(OFFSET_AT)?,
        length: cut.u32_at(LENGTH_AT)?,
        space_id: cut.u32_at(SPACE_ID_AT)?,
        fork_instance: cut.u16_at(FORK_INSTANCE_AT)?,
        extension_count: cut.u16_at(EXTENSION_COUNT_AT)?,
        size: cut.u16_at(MEMBER_SIZE_AT)?,
    })
}

/// Returns the member with some fields.
pub(crate) fn member_at<'a>(
    cut: Cut<'a>,
    at: usize,
    member: u16,
    header: MemberHeader,
) -> Member<'a>
    requires { at + 42 ≤ length cut.bytes.now }
    ensures { member_seen result ≡ member_at cut.entry.bytes.now at member header }
{
    Member {
        member,
        offset: at,
        header,
        name: read_name(cut, at, member, header),
        fault: size_fault(cut, at, member, header),
    }
}

/// Returns the name of a member, or its error.
fn read_name<'a>(
    cut: Cut<'a>,
    at: usize,
    member: u16,
    header: MemberHeader,
) -> Result<&'a [u8], MemberFault>
    requires { at + 42 ≤ length cut.bytes.now }
    ensures { name_seen result ≡ name_of cut.entry.bytes.now at member header }
{
    match name_in(cut, at, header.size) {
        Some(name) => Ok(name),
        None => Err(MemberFault::MemberNameCut {
            member,
            offset: at + NAME_AT,
        }),
    }
}

/// Returns the name of a member of `size` bytes, or `None` if it passes the end of the member or of the table.
#[tactic(auto, unfolding(crate::specs::Members::name_in))]
fn name_in<'a>(cut: Cut<'a>, at: usize, size: u16) -> Option<&'a [u8]>
    requires { at + 42 ≤ length cut.bytes.now }
    ensures { option_copied result ≡ name_in cut.entry.bytes.now at size }
{
    let len = usize::from(cut.u8_at(at + NAME_AT)?);
    if NAME_AT + 1 + len > usize::from(size) {
        return None;
    }
    Some(cut.part(at + NAME_AT + 1, len)?.bytes())
}

/// Returns the error of a member's size: it passes the end, or is too small for the fields.
fn size_fault(cut: Cut<'_>, at: usize, member: u16, header: MemberHeader) -> Option<MemberFault>
    requires { at + 42 ≤ length cut.bytes.now }
    ensures { result ≡ size_fault cut.entry.bytes.now at member header }
{
    if size_fits(cut, at, header) {
        return None;
    }
    Some(MemberFault::MemberCut {
        member,
        offset: at + MEMBER_SIZE_AT,
    })
}

/// Returns whether a member's size holds its fields and doesn't pass the end.
pub(crate) fn size_fits(cut: Cut<'_>, at: usize, header: MemberHeader) -> bool
    requires { at ≤ length cut.bytes.now }
    ensures { result ≡ size_fits cut.entry.bytes.now at header }
{
    header.size >= MEMBER_FIELDS_SIZE && usize::from(header.size) <= cut.len() - at
}
