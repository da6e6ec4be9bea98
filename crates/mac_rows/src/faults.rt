//! All errors of the wrapping of a file, of its resources and of its fragments.
ghost use Rattle.std.specs.Prelude.{◌≡◌, ◌++◌, IfOk, OnOk, option_map};
ghost use Rattle.std.specs.Option.{option_to_list};
ghost use Rattle.pef_words.specs.Refusals.{result_map};
ghost use Rattle.mac_forks.specs.Views.{part_seen};
ghost use Rattle.mac_resources.specs.Resources.{all_resources};
ghost use Rattle.mac_resources.specs.Views.{fork_seen, name_seen, row_seen as resource_row};
ghost use Rattle.cfm_members.specs.Members.{all_members};
ghost use Rattle.cfm_members.specs.Views.{member_seen, row_seen as member_row};
ghost use Rattle.mac_rows.specs.Faults.{
  entry_faults,
  faults_of,
  fork_faults,
  head_faults,
  header_faults,
  member_fault_list,
  member_faults,
  members_faults,
  name_fault,
  parts_faults,
  place_faults,
  resource_fault_list,
  resource_faults,
  resources_faults,
  row_faults,
  table_faults,
};
ghost use Rattle.mac_rows.specs.Views.{data_file_seen, member_table_seen, place_seen, wrapping_seen};

use crate::data_file::{DataFile, members_fork};
use crate::file_finding::FileFinding;
use crate::member_table::{ContainerPlace, FileError, MemberTable};
use crate::wrapping::{Wrapping, resources_in};
use cfm_members::{FileKind, Member, MemberFault, MemberLookupFault, readable};
use mac_forks::{ForkBytes, ForkFault};
use mac_resources::{Resource, ResourceFault, ResourceFork};
use std::alloc::{AllocError, Allocator};

/// Returns all errors of a file that aren't those of its containers: of the wrapping, of the resources, of the fragments.
pub fn find_faults<A: Allocator + Copy>(
    alloc: A,
    bytes: &[u8],
    data_file: Option<DataFile<'_>>,
) -> Result<Vec<FileFinding, A>, AllocError>
    ensures { IfOk result (λ found. found.items ≡ faults_of (option_map data_file_seen data_file.entry) bytes.now) }
{
    let wrapping = Wrapping::of(bytes);
    let mut found = Vec::new(alloc);
    find_in_head(wrapping, &mut found)?;
    find_in_entry(wrapping.data_fork, &mut found)?;
    find_in_entry(wrapping.resource_fork, &mut found)?;
    find_in_parts(
        members_fork(data_file, wrapping.data_fork),
        readable(wrapping.resource_fork),
        &mut found,
    )?;
    Ok(found)
}

/// Adds the errors of a file's header, of the parts of MacBinary that pass the end, and of the rows of entries.
fn find_in_head<A: Allocator>(
    wrapping: Wrapping<'_>,
    found: &mut Vec<FileFinding, A>,
) -> Result<(), AllocError>
    ensures { OnOk result (found.new.items ≡ found.old.items ++ head_faults (wrapping_seen wrapping.entry)) }
{
    find_in_header(wrapping.fault, found)?;
    find_in_header(wrapping.cuts.data_fork, found)?;
    find_in_header(wrapping.cuts.resource_fork, found)?;
    find_in_header(wrapping.cuts.comment, found)?;
    find_in_header(wrapping.cut, found)?;
    Ok(())
}

/// Adds the error of a file's header, of a part that passes the end, or of its rows of entries.
fn find_in_header<A: Allocator>(
    fault: Option<ForkFault>,
    found: &mut Vec<FileFinding, A>,
) -> Result<(), AllocError>
    ensures { OnOk result (found.new.items ≡ found.old.items ++ header_faults fault) }
{
    if let Some(fault) = fault {
        found.push(FileFinding::Error(FileError {
            fault: MemberLookupFault::Fork(fault),
            base: 0,
            member: None,
        }))?;
    }
    Ok(())
}

/// Adds the error of the entry of a fork.
fn find_in_entry<A: Allocator>(
    fork: Option<Result<ForkBytes<'_>, ForkFault>>,
    found: &mut Vec<FileFinding, A>,
) -> Result<(), AllocError>
    ensures { OnOk result (found.new.items ≡ found.old.items ++ entry_faults (option_map (result_map part_seen) fork.entry)) }
{
    match fork {
        Some(Err(fault)) => find_in_header(Some(fault), found),
        Some(Ok(_)) | None => Ok(()),
    }
}

/// Adds the errors of the resources and the fragments of a file with these forks.
fn find_in_parts<A: Allocator>(
    data_fork: Option<ForkBytes<'_>>,
    resource: Option<ForkBytes<'_>>,
    found: &mut Vec<FileFinding, A>,
) -> Result<(), AllocError>
    ensures { OnOk result (found.new.items ≡ found.old.items ++ parts_faults (option_map part_seen data_fork.entry) (option_map part_seen resource.entry)) }
{
    let Some(part) = resource else {
        return Ok(());
    };
    let base = part.offset as u64;
    match resources_in(part) {
        Some(Ok(fork)) => find_in_fork(data_fork, base, fork, found),
        Some(Err(fault)) => add_resource_fault(Some(fault), base, found),
        None => Ok(()),
    }
}

/// Adds an error of a resource fork, which begins at an offset of the file.
fn add_resource_fault<A: Allocator>(
    fault: Option<ResourceFault>,
    base: u64,
    found: &mut Vec<FileFinding, A>,
) -> Result<(), AllocError>
    ensures { OnOk result (found.new.items ≡ found.old.items ++ resource_fault_list base fault) }
{
    if let Some(fault) = fault {
        found.push(FileFinding::Error(FileError {
            fault: MemberLookupFault::Resource(fault),
            base,
            member: None,
        }))?;
    }
    Ok(())
}

/// Adds the errors of a resource fork, which begins at an offset of the file, and of its table of fragments.
fn find_in_fork<A: Allocator>(
    data_fork: Option<ForkBytes<'_>>,
    base: u64,
    fork: ResourceFork<'_>,
    found: &mut Vec<FileFinding, A>,
) -> Result<(), AllocError>
    ensures { OnOk result (found.new.items ≡ found.old.items ++ fork_faults (option_map part_seen data_fork.entry) base (fork_seen fork.entry)) }
{
    add_resource_fault(fork.fault(), base, found)?;
    find_in_resources(base, fork, found)?;
    find_in_table(MemberTable::read(data_fork, base, fork), found)?;
    Ok(())
}

/// Adds the errors of all resources.
fn find_in_resources<A: Allocator>(
    base: u64,
    fork: ResourceFork<'_>,
    found: &mut Vec<FileFinding, A>,
) -> Result<(), AllocError>
    ensures { OnOk result (found.new.items ≡ found.old.items ++ resources_faults base (all_resources (fork_seen fork.entry))) }
{
    for row in fork.resources() {
        find_in_resource(base, row, found)?;
    }
    Ok(())
}

/// Adds the errors of a resource: of its row, of its name and of its bytes.
fn find_in_resource<A: Allocator>(
    base: u64,
    row: Result<Resource<'_>, ResourceFault>,
    found: &mut Vec<FileFinding, A>,
) -> Result<(), AllocError>
    ensures { OnOk result (found.new.items ≡ found.old.items ++ resource_faults base (resource_row row.entry)) }
{
    match row {
        Ok(resource) => {
            add_resource_fault(name_fault(resource.name), base, found)?;
            add_resource_fault(resource.contents.err(), base, found)?;
            Ok(())
        }
        Err(fault) => add_resource_fault(Some(fault), base, found),
    }
}

/// Returns the error of a resource's name.
fn name_fault(name: Option<Result<&[u8], ResourceFault>>) -> Option<ResourceFault>
    ensures { result ≡ name_fault (option_map name_seen name.entry) }
{
    match name {
        Some(Err(fault)) => Some(fault),
        Some(Ok(_)) | None => None,
    }
}

/// Adds the error of a table of fragments, or those of its members.
fn find_in_table<A: Allocator>(
    table: Option<Result<MemberTable<'_>, FileError>>,
    found: &mut Vec<FileFinding, A>,
) -> Result<(), AllocError>
    ensures { OnOk result (found.new.items ≡ found.old.items ++ table_faults (option_map (result_map member_table_seen) table.entry)) }
{
    match table {
        Some(Ok(table)) => find_in_members(table, found),
        Some(Err(fault)) => {
            found.push(FileFinding::Error(fault))?;
            Ok(())
        }
        None => Ok(()),
    }
}

/// Adds the errors of all members of a table of fragments.
fn find_in_members<A: Allocator>(
    table: MemberTable<'_>,
    found: &mut Vec<FileFinding, A>,
) -> Result<(), AllocError>
    ensures { OnOk result (found.new.items ≡ found.old.items ++ members_faults (member_table_seen table.entry) (all_members (member_table_seen table.entry).fragments)) }
{
    for row in table.fragments.members() {
        find_in_row(table, row, found)?;
    }
    Ok(())
}

/// Adds the errors of a row of a table of fragments.
fn find_in_row<A: Allocator>(
    table: MemberTable<'_>,
    row: Result<Member<'_>, MemberFault>,
    found: &mut Vec<FileFinding, A>,
) -> Result<(), AllocError>
    ensures { OnOk result (found.new.items ≡ found.old.items ++ row_faults (member_table_seen table.entry) (member_row row.entry)) }
{
    match row {
        Ok(member) => find_in_member(table, member, found),
        Err(fault) => add_member_fault(Some(fault), table.table_base, found),
    }
}

/// Adds an error of a table of fragments, which begins at an offset of the file.
fn add_member_fault<A: Allocator>(
    fault: Option<MemberFault>,
    base: u64,
    found: &mut Vec<FileFinding, A>,
) -> Result<(), AllocError>
    ensures { OnOk result (found.new.items ≡ found.old.items ++ member_fault_list base fault) }
{
    if let Some(fault) = fault {
        found.push(FileFinding::Error(FileError {
            fault: MemberLookupFault::Member(fault),
            base,
            member: None,
        }))?;
    }
    Ok(())
}

/// Adds the errors of a member: of its name, of its size and of its container.
fn find_in_member<A: Allocator>(
    table: MemberTable<'_>,
    member: Member<'_>,
    found: &mut Vec<FileFinding, A>,
) -> Result<(), AllocError>
    ensures { OnOk result (found.new.items ≡ found.old.items ++ member_faults (member_table_seen table.entry) (member_seen member.entry)) }
{
    add_member_fault(member.name.err(), table.table_base, found)?;
    add_member_fault(member.fault, table.table_base, found)?;
    find_at_place(table, member, table.place_of(member), found)?;
    Ok(())
}

/// Adds the error of a member at whose place no container begins.
fn find_at_place<A: Allocator>(
    table: MemberTable<'_>,
    member: Member<'_>,
    place: ContainerPlace<'_>,
    found: &mut Vec<FileFinding, A>,
) -> Result<(), AllocError>
    ensures { OnOk result (found.new.items ≡ found.old.items ++ place_faults (member_table_seen table.entry) (member_seen member.entry) (place_seen place.entry)) }
{
    match place_fault(table, member, place) {
        Some(finding) => {
            found.push(finding)?;
            Ok(())
        }
        None => Ok(()),
    }
}

/// Returns the error of a member at whose place no container begins.
fn place_fault(
    table: MemberTable<'_>,
    member: Member<'_>,
    place: ContainerPlace<'_>,
) -> Option<FileFinding>
    ensures { option_to_list result ≡ place_faults (member_table_seen table.entry) (member_seen member.entry) (place_seen place.entry) }
{
    match place {
        ContainerPlace::Elsewhere => None,
        ContainerPlace::Missing(found) => Some(FileFinding::Error(found)),
        ContainerPlace::Lying { bytes, .. } => {
            if matches!(FileKind::of(bytes), FileKind::Container) {
                return None;
            }
            Some(FileFinding::Error(table.no_container(member)))
        }
    }
}
