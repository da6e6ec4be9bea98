ghost use Rattle.std.specs.Prelude.{◌≡◌, option_map};
ghost use Rattle.std.specs.List.{slice_get};
ghost use Rattle.std.specs.Option.{option_copied};
ghost use Rattle.pef_words.specs.Refusals.{result_map};
ghost use Rattle.mac_forks.specs.MacFile.{mac_file_of};
ghost use Rattle.mac_forks.specs.Views.{mac_file_seen, part_seen};
ghost use Rattle.mac_resources.specs.Views.{fork_seen, resource_seen};
ghost use Rattle.cfm_members.specs.Fragments.{
  and_then,
  container_in_pair,
  container_named,
  container_numbered,
  contents_bytes,
  data_bytes,
  fork_bytes,
  is_named,
  lying_in,
  named_beside,
  named_here,
  named_in,
  named_in_forks,
  resource_bytes,
  resources_of,
  table_in_file,
  table_in_fork,
  table_read,
};
ghost use Rattle.std.specs.Prelude.{◌+◌};
ghost use Rattle.cfm_members.specs.Fragments.{first_named};
ghost use Rattle.cfm_members.specs.declared.fault.MemberFault.TheVariants.{FragmentOutside};
ghost use Rattle.cfm_members.specs.declared.member_lookup_fault.MemberLookupFault.TheVariants.{Member as MemberIs};
ghost use Rattle.cfm_members.specs.Search.{containers_in};
ghost use Rattle.cfm_members.specs.Members.{all_members, locator_of, table_of};
ghost use Rattle.cfm_members.specs.Views.{member_seen, row_seen, table_seen};

use crate::contents::Contents;
use crate::fault::MemberFault;
use crate::forks::Forks;
use crate::layout::{CFM_68K, FRAGMENT_TABLE_ID, FRAGMENT_TABLE_TYPE, OFFSET_AT};
use crate::member::{Locator, Member, lying_part};
use crate::member_lookup_fault::MemberLookupFault;
use crate::search::Containers;
use crate::table::FragmentTable;
use mac_forks::{ForkBytes, ForkFault, MacFile};
use mac_resources::{Resource, ResourceFork};

/// Returns the container of the fragment with a name: of the first member of the resource `cfrg` 0 with this name that
/// isn't for CFM-68K. One in the data fork has the length of the member, or reaches to the end of the fork if that is 0.
///
/// # Errors
///
/// The first error of the file's header, of the resource fork's entry, of the fork's header and map, of the table's
/// bytes and header, and of the container: no fragment has the name, or its bytes aren't there.
#[tactic(auto, unfolding(crate::specs::Fragments::container_named))]
pub fn named_container<'a>(bytes: &'a [u8], name: &[u8]) -> Result<&'a [u8], MemberLookupFault>
    ensures { result_map (λ container. container.now) result ≡ container_named bytes.entry.now name.now }
{
    container_in_pair(bytes, bytes, name)
}

/// Returns the container of the fragment with a name, as [`named_container`] does, of a file whose resource fork is in another
/// file.
///
/// # Errors
///
/// The error of the file's header, or those of [`named_container`] for the other file.
#[tactic(auto, unfolding(crate::specs::Fragments::container_in_pair))]
pub fn container_in_pair<'a>(
    bytes: &'a [u8],
    resources: &'a [u8],
    name: &[u8],
) -> Result<&'a [u8], MemberLookupFault>
    ensures { result_map (λ container. container.now) result ≡ container_in_pair bytes.entry.now resources.entry.now name.now }
{
    match MacFile::read(bytes) {
        Ok(file) => container_beside(Forks::of(bytes, &file).data_fork, resources, name),
        Err(fault) => Err(MemberLookupFault::Fork(fault)),
    }
}

/// Returns the container of the fragment with a name, by a data fork and a file with the resource fork.
fn container_beside<'a>(
    data_fork: Option<Result<ForkBytes<'a>, ForkFault>>,
    resources: &'a [u8],
    name: &[u8],
) -> Result<&'a [u8], MemberLookupFault>
    ensures { result_map (λ container. container.now) result ≡ named_beside name.now (option_map (result_map part_seen) data_fork.entry) resources.entry.now (mac_file_of resources.entry.now) }
{
    let file = match MacFile::read(resources) {
        Ok(file) => file,
        Err(fault) => return Err(MemberLookupFault::Fork(fault)),
    };
    match fork_bytes(Forks::of(resources, &file).resource_fork) {
        Ok(resources) => container_in_forks(data_fork, resources, name),
        Err(fault) => Err(fault),
    }
}

/// Returns the container of the fragment with a name, as [`named_container`] does, by the forks that it is in.
///
/// # Errors
///
/// Those of [`named_container`], from the resource fork's header on.
#[tactic(auto, unfolding(crate::specs::Fragments::named_in_forks))]
pub fn container_in_forks<'a>(
    data_fork: Option<Result<ForkBytes<'a>, ForkFault>>,
    resources: &'a [u8],
    name: &[u8],
) -> Result<&'a [u8], MemberLookupFault>
    ensures { result_map (λ container. container.now) result ≡ named_in_forks name.now (option_map (result_map part_seen) data_fork.entry) resources.entry.now }
{
    let resources = match read_resources(resources) {
        Ok(resources) => resources,
        Err(fault) => return Err(fault),
    };
    let table = match resource_bytes(resources.find(FRAGMENT_TABLE_TYPE, FRAGMENT_TABLE_ID)) {
        Ok(table) => table,
        Err(fault) => return Err(fault),
    };
    match member_named(table, name) {
        Ok(member) => member_container(&member, data_fork, resources),
        Err(fault) => Err(fault),
    }
}

/// Returns the table of fragments of a file: its resource `cfrg` 0.
///
/// # Errors
///
/// The first error of the file's header, of the resource fork's entry, of the fork's header and map, and of the table's bytes and
/// header. Without a resource fork or the resource it is [`MemberLookupFault::NoContainer`]. An empty fork is none.
#[tactic(auto, unfolding(crate::specs::Fragments::table_in_file))]
pub fn fragment_table<'a>(bytes: &'a [u8]) -> Result<FragmentTable<'a>, MemberLookupFault>
    ensures { result_map table_seen result ≡ table_in_file bytes.entry.now }
{
    let file = match MacFile::read(bytes) {
        Ok(file) => file,
        Err(fault) => return Err(MemberLookupFault::Fork(fault)),
    };
    match fork_bytes(Forks::of(bytes, &file).resource_fork) {
        Ok(resources) => table_in_fork(resources),
        Err(fault) => Err(fault),
    }
}

/// Returns the table of fragments of a resource fork.
fn table_in_fork<'a>(resources: &'a [u8]) -> Result<FragmentTable<'a>, MemberLookupFault>
    ensures { result_map table_seen result ≡ and_then (resources_of resources.entry.now) table_in_fork }
{
    let resources = match read_resources(resources) {
        Ok(resources) => resources,
        Err(fault) => return Err(fault),
    };
    match resource_bytes(resources.find(FRAGMENT_TABLE_TYPE, FRAGMENT_TABLE_ID)) {
        Ok(table) => read_table(table),
        Err(fault) => Err(fault),
    }
}

/// Reads a table of fragments.
fn read_table<'a>(table: &'a [u8]) -> Result<FragmentTable<'a>, MemberLookupFault>
    ensures { result_map table_seen result ≡ table_read (table_of table.entry.now) }
{
    match FragmentTable::read(table) {
        Ok(table) => Ok(table),
        Err(fault) => Err(MemberLookupFault::Member(fault)),
    }
}

/// Returns the container with a number, from 0, among all places where one begins, with all bytes after it up to the end of its
/// fork. `None` past the last one.
#[tactic(auto, unfolding(crate::specs::Fragments::container_numbered))]
pub fn numbered_container<'a>(bytes: &'a [u8], number: usize) -> Option<&'a [u8]>
    ensures { option_copied result ≡ container_numbered bytes.entry.now number }
{
    let place = numbered_place(bytes, number)?;
    Some(Contents::of(bytes).rest_from(place))
}

/// Returns the place with a number among those where a container begins.
fn numbered_place(bytes: &[u8], number: usize) -> Option<usize>
    ensures { result ≡ slice_get (containers_in bytes.now 0) number }
{
    Containers::new(bytes).nth(number)
}

/// Returns the bytes of a fork.
fn fork_bytes<'a>(
    fork: Option<Result<ForkBytes<'a>, ForkFault>>,
) -> Result<&'a [u8], MemberLookupFault>
    ensures { result_map (λ bytes. bytes.now) result ≡ fork_bytes (option_map (result_map part_seen) fork.entry) }
{
    match fork {
        Some(Ok(part)) => Ok(part.bytes),
        Some(Err(fault)) => Err(MemberLookupFault::Fork(fault)),
        None => Err(MemberLookupFault::NoContainer),
    }
}

/// Returns the resource fork with some bytes. An empty one is none.
///
/// # Errors
///
/// The fork's header and map can't be read, or it is empty: [`MemberLookupFault::NoContainer`].
#[tactic(auto, unfolding(crate::specs::Fragments::resources_of))]
pub fn read_resources<'a>(bytes: &'a [u8]) -> Result<ResourceFork<'a>, MemberLookupFault>
    ensures { result_map fork_seen result ≡ resources_of bytes.entry.now }
{
    if bytes.is_empty() {
        return Err(MemberLookupFault::NoContainer);
    }
    match ResourceFork::read(bytes) {
        Ok(resources) => Ok(resources),
        Err(fault) => Err(MemberLookupFault::Resource(fault)),
    }
}

/// Returns the bytes of a resource.
fn resource_bytes<'a>(resource: Option<Resource<'a>>) -> Result<&'a [u8], MemberLookupFault>
    ensures { result_map (λ bytes. bytes.now) result ≡ resource_bytes (option_map resource_seen resource.entry) }
{
    match resource {
        Some(resource) => match resource.contents {
            Ok(part) => Ok(part.bytes),
            Err(fault) => Err(MemberLookupFault::Resource(fault)),
        },
        None => Err(MemberLookupFault::NoContainer),
    }
}

/// Returns the first member of a table with a name that isn't for CFM-68K.
fn member_named<'a>(table: &'a [u8], name: &[u8]) -> Result<Member<'a>, MemberLookupFault>
    ensures { result_map member_seen result ≡ named_in name.now (table_of table.entry.now) }
{
    match FragmentTable::read(table) {
        Ok(table) => match first_named(table, name) {
            Some(member) => Ok(member),
            None => Err(MemberLookupFault::NoContainer),
        },
        Err(fault) => Err(MemberLookupFault::Member(fault)),
    }
}

/// Returns the first member with a name that isn't for CFM-68K.
fn first_named<'a>(table: FragmentTable<'a>, name: &[u8]) -> Option<Member<'a>>
    ensures { option_map member_seen result ≡ first_named name.now (all_members (table_seen table.entry)) }
{
    for row in table.members() {
        match named_here(row, name) {
            Some(member) => return Some(member),
            None => {}
        }
    }
    None
}

/// Returns the member of a row if it has a name and isn't for CFM-68K.
fn named_here<'a>(row: Result<Member<'a>, MemberFault>, name: &[u8]) -> Option<Member<'a>>
    ensures { option_map member_seen result ≡ named_here name.now (row_seen row.entry) }
{
    match row {
        Ok(member) => {
            if is_named(&member, name) {
                Some(member)
            } else {
                None
            }
        }
        Err(_) => None,
    }
}

/// Returns whether a member has a name and isn't for CFM-68K.
fn is_named(member: &Member<'_>, name: &[u8]) -> bool
    ensures { result ≡ is_named name.now (member_seen member.now) }
{
    match member.name {
        Ok(own) => own == name && member.header.architecture != CFM_68K,
        Err(_) => false,
    }
}

/// Returns the container of a member.
fn member_container<'a>(
    member: &Member<'_>,
    data_fork: Option<Result<ForkBytes<'a>, ForkFault>>,
    resources: ResourceFork<'a>,
) -> Result<&'a [u8], MemberLookupFault>
    ensures { result_map (λ container. container.now) result ≡ lying_in (member_seen member.now) (option_map (result_map part_seen) data_fork.entry) (fork_seen resources.entry) (locator_of member.now.header) }
{
    match member.header.locator() {
        Locator::DataFork { offset, length } => {
            let fork = match data_bytes(member, data_fork) {
                Ok(fork) => fork,
                Err(fault) => return Err(fault),
            };
            match lying_part(fork, offset as usize, length as usize) {
                Some(part) => Ok(part.bytes),
                None => Err(outside(member)),
            }
        }
        Locator::Resource { type_code, id } => {
            let id = ((id % 0x1_0000) as u16).cast_signed();
            resource_bytes(resources.find(type_code, id))
        }
        Locator::Memory | Locator::Other(_) => Err(MemberLookupFault::NoContainer),
    }
}

/// Returns the bytes of the data fork that a member's container is in.
fn data_bytes<'a>(
    member: &Member<'_>,
    data_fork: Option<Result<ForkBytes<'a>, ForkFault>>,
) -> Result<&'a [u8], MemberLookupFault>
    ensures { result_map (λ bytes. bytes.now) result ≡ data_bytes (member_seen member.now) (option_map (result_map part_seen) data_fork.entry) }
{
    match data_fork {
        Some(Ok(part)) => Ok(part.bytes),
        Some(Err(fault)) => Err(MemberLookupFault::Fork(fault)),
        None => Err(outside(member)),
    }
}

/// Returns the error of a member whose container isn't in the data fork.
fn outside(member: &Member<'_>) -> MemberLookupFault
    ensures { result ≡ MemberIs (FragmentOutside member.now.member (member.now.offset + 24)) }
{
    MemberLookupFault::Member(MemberFault::FragmentOutside {
        member: member.member,
        offset: member.offset + OFFSET_AT,
    })
}
