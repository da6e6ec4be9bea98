//! The members of a table of fragments, and the places of containers, as C sees them.
ghost use Rattle.std.specs.Prelude.{◌≡◌, [], Ok, Err, Some, map, option_map};
ghost use Rattle.pef_words.specs.Refusals.{result_map};
ghost use Rattle.mac_forks.specs.Views.{part_seen};
ghost use Rattle.cfm_members.specs.Views.{left, member_seen, name_seen, places_left, row_seen};
ghost use Rattle.pef_records.specs.Buffers.{FillsRows};
ghost use Rattle.pef_records.specs.Files.Rows.{container_error, container_error_offset, container_given, member_row, member_shown, name_error, name_error_offset, name_given, size_error, size_error_offset};

use crate::answers::NOT_THERE;
use crate::files::errors::member_number;
use crate::files::structs::PefMember;
use crate::fill::{Rows, fill_rows};
use crate::place::NO_OFFSET;
use cfm_members::{Containers, Member, MemberFault, Members};
use mac_forks::ForkBytes;

/// Fills the first places with the members from number `from` on, and returns how many they are.
pub fn fill_members<'a>(
    rows: Members<'a>,
    data_fork: &'a [u8],
    from: usize,
    places: &mut [PefMember<'a>],
) -> usize
    ensures { FillsRows (member_row data_fork.entry.now) (left rows.entry) from (map member_shown places.old) (map member_shown places.new) result }
{
    fill_rows(&mut MemberRows { rows, data_fork }, from, places)
}

/// Fills the first places with the places of containers from number `from` on, and returns how many they are.
pub fn fill_places(found: Containers<'_>, from: usize, places: &mut [usize]) -> usize
    ensures { FillsRows (λ at. at) (places_left found.entry) from places.old places.new result }
{
    let mut rest = found;
    fill_rows(&mut rest, from, places)
}

/// The members of a table, and the data fork that their containers are in.
#[derive(Drop)]
struct MemberRows<'a> {
    rows: Members<'a>,
    data_fork: &'a [u8],
}

impl<'a> Rows<PefMember<'a>> for MemberRows<'a> {
    ghost use Rattle.std.specs.Prelude.{map};
    ghost use Rattle.cfm_members.specs.Views.{left};
    ghost use Rattle.pef_records.specs.Files.Rows.{MemberRow, member_row, member_shown};

    ghost Held = { MemberRow };

    ghost shown = { member_shown };

    ghost left = { λ r. map (member_row r.data_fork.now) (left r.rows) };

    fn take_row(&mut self) -> Option<PefMember<'a>> {
        match self.rows.next() {
            Some(row) => Some(row_given(row, self.data_fork)),
            None => None,
        }
    }
}

impl<'a> Rows<usize> for Containers<'a> {
    ghost use Rattle.std.specs.Prelude.{ℕ};
    ghost use Rattle.cfm_members.specs.Views.{places_left};

    ghost Held = { ℕ };

    ghost shown = { λ at. at };

    ghost left = { places_left };

    fn take_row(&mut self) -> Option<usize> {
        self.next()
    }
}

/// Returns a row as C sees it.
fn row_given<'a>(row: Result<Member<'a>, MemberFault>, data_fork: &'a [u8]) -> PefMember<'a>
    ensures { member_shown result ≡ member_row data_fork.entry.now (row_seen row.entry) }
{
    match row {
        Ok(member) => member_given(&member, data_fork),
        Err(fault) => fault_given(fault),
    }
}

/// Returns a member as C sees it.
fn member_given<'a>(member: &Member<'a>, data_fork: &'a [u8]) -> PefMember<'a>
    ensures { member_shown result ≡ member_row data_fork.entry.now (Ok (member_seen member.now)) }
{
    let header = member.header;
    let container = member.container(data_fork);
    PefMember {
        name: name_given(member.name),
        container: container_given(container),
        container_error: container_error(container),
        container_error_offset: container_error_offset(container),
        place: member.offset,
        error_offset: size_error_offset(member.fault),
        name_error_offset: name_error_offset(member.name),
        error: size_error(member.fault),
        name_error: name_error(member.name),
        architecture: header.architecture,
        current_version: header.current_version,
        old_def_version: header.old_def_version,
        stack_size: header.stack_size,
        offset: header.offset,
        length: header.length,
        space_id: header.space_id,
        directory_or_flags: header.directory_or_flags,
        fork_instance: header.fork_instance,
        extension_count: header.extension_count,
        size: header.size,
        update_level: header.update_level,
        usage: header.usage_code,
        locator: header.where_code,
    }
}

/// Returns the error of a row as C sees it.
fn fault_given<'a>(fault: MemberFault) -> PefMember<'a>
    ensures { member_shown result ≡ member_row [] (Err fault) }
{
    PefMember {
        name: &[],
        container: &[],
        container_error: NOT_THERE,
        container_error_offset: NO_OFFSET,
        place: fault.offset(),
        error_offset: fault.offset(),
        name_error_offset: NO_OFFSET,
        error: member_number(fault),
        name_error: NOT_THERE,
        architecture: 0,
        current_version: 0,
        old_def_version: 0,
        stack_size: 0,
        offset: 0,
        length: 0,
        space_id: 0,
        directory_or_flags: 0,
        fork_instance: 0,
        extension_count: 0,
        size: 0,
        update_level: 0,
        usage: 0,
        locator: 0,
    }
}

/// Returns the container of a member in a data fork, or no bytes.
fn container_given<'a>(container: Option<Result<ForkBytes<'a>, MemberFault>>) -> &'a [u8]
    ensures { result.now ≡ container_given (option_map (result_map part_seen) container.entry) }
{
    match container {
        Some(container) => container_or_none(container),
        None => &[],
    }
}

/// Returns a container, or no bytes.
fn container_or_none<'a>(container: Result<ForkBytes<'a>, MemberFault>) -> &'a [u8]
    ensures { result.now ≡ container_given (Some (result_map part_seen container.entry)) }
{
    match container {
        Ok(part) => part.bytes,
        Err(_) => &[],
    }
}

/// Returns the number of the error of a container, or 201 if it isn't in the data fork.
fn container_error(container: Option<Result<ForkBytes<'_>, MemberFault>>) -> u32
    ensures { result ≡ container_error (option_map (result_map part_seen) container.entry) }
{
    match container {
        Some(Ok(_)) => 0,
        Some(Err(fault)) => member_number(fault),
        None => NOT_THERE,
    }
}

/// Returns the offset of the error of a container.
fn container_error_offset(container: Option<Result<ForkBytes<'_>, MemberFault>>) -> usize
    ensures { result ≡ container_error_offset (option_map (result_map part_seen) container.entry) }
{
    match container {
        Some(Err(fault)) => fault.offset(),
        Some(Ok(_)) | None => NO_OFFSET,
    }
}

/// Returns the name of a member, or no bytes.
fn name_given<'a>(name: Result<&'a [u8], MemberFault>) -> &'a [u8]
    ensures { result.now ≡ name_given (name_seen name.entry) }
{
    match name {
        Ok(name) => name,
        Err(_) => &[],
    }
}

/// Returns the number of the error of a name, or 0.
fn name_error(name: Result<&[u8], MemberFault>) -> u32
    ensures { result ≡ name_error (name_seen name.entry) }
{
    match name {
        Ok(_) => 0,
        Err(fault) => member_number(fault),
    }
}

/// Returns the offset of the error of a name.
fn name_error_offset(name: Result<&[u8], MemberFault>) -> usize
    ensures { result ≡ name_error_offset (name_seen name.entry) }
{
    match name {
        Ok(_) => NO_OFFSET,
        Err(fault) => fault.offset(),
    }
}

/// Returns the number of the error of a size, or 0.
fn size_error(fault: Option<MemberFault>) -> u32
    ensures { result ≡ size_error fault }
{
    match fault {
        Some(fault) => member_number(fault),
        None => 0,
    }
}

/// Returns the offset of the error of a size.
fn size_error_offset(fault: Option<MemberFault>) -> usize
    ensures { result ≡ size_error_offset fault }
{
    match fault {
        Some(fault) => fault.offset(),
        None => NO_OFFSET,
    }
}
