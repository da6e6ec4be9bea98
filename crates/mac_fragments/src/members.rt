//! Fragments that the table of fragments names.
ghost use Rattle.std.specs.Prelude.{◌≡◌, option_map};
ghost use Rattle.pef_words.specs.Refusals.{result_map};
ghost use Rattle.mac_forks.specs.Views.{part_seen};
ghost use Rattle.mac_resources.specs.Views.{fork_seen, resource_seen};
ghost use Rattle.cfm_members.specs.Fragments.{and_then, data_bytes, fork_bytes, resource_bytes};
ghost use Rattle.cfm_members.specs.Members.{all_members, container_in};
ghost use Rattle.cfm_members.specs.Views.{member_seen, row_seen, table_seen};
ghost use Rattle.mac_fragments.specs.Faults.{Gives};
ghost use Rattle.mac_fragments.specs.Fragments.{all_listed, container_of_member, fork_in_file, fragment_here, fragment_of, member_fragments, read_fork};
ghost use Rattle.mac_fragments.specs.Kept.Parts.{part_bytes};
ghost use Rattle.mac_fragments.specs.Views.{forks_seen, fragment_seen, fragments_seen};

use crate::fault::FragmentsFault;
use crate::fragment::FileFragment;
use crate::unnamed::some_of;
use cfm_members::{
    Forks, FragmentTable, Locator, Member, MemberFault, MemberLookupFault, read_resources,
};
use mac_forks::{ForkBytes, ForkFault, MacFile};
use mac_resources::{Resource, ResourceFork};
use std::alloc::Global;

/// The architecture of members that aren't for PowerPC: `m68k`.
const CFM_68K: u32 = 0x6D36_386B;

/// Where a member says at which offset its container begins.
const OFFSET_AT: usize = 24;

/// The forks that the containers of members are in.
#[derive(Clone, Copy)]
pub(crate) struct MemberForks<'a> {
    pub data_fork: Option<Result<ForkBytes<'a>, ForkFault>>,
    pub resources: ResourceFork<'a>,
}

/// Returns the fragments of a table, by the data fork and the file with the resource fork.
pub(crate) fn member_fragments<'a>(
    alloc: Global,
    table: FragmentTable<'a>,
    data_fork: Option<Result<ForkBytes<'a>, ForkFault>>,
    resources: &'a [u8],
) -> Result<Vec<FileFragment<'a>>, FragmentsFault>
    ensures { Gives (result_map fragments_seen result) (member_fragments (table_seen table.entry) (option_map (result_map part_seen) data_fork.entry) (fork_in_file resources.entry.now)) }
{
    match fork_in_file(resources) {
        Ok(resources) => listed_in(
            alloc,
            table,
            MemberForks {
                data_fork,
                resources,
            },
        ),
        Err(fault) => Err(FragmentsFault::Lookup(fault)),
    }
}

/// Returns the resource fork of a file.
#[tactic(auto, unfolding(crate::specs::Fragments::fork_in_file))]
fn fork_in_file<'a>(bytes: &'a [u8]) -> Result<ResourceFork<'a>, MemberLookupFault>
    ensures { result_map fork_seen result ≡ fork_in_file bytes.entry.now }
{
    match MacFile::read(bytes) {
        Ok(file) => fork_bytes_in(Forks::of(bytes, &file).resource_fork),
        Err(fault) => Err(MemberLookupFault::Fork(fault)),
    }
}

/// Returns a resource fork that a file has.
fn fork_bytes_in<'a>(
    fork: Option<Result<ForkBytes<'a>, ForkFault>>,
) -> Result<ResourceFork<'a>, MemberLookupFault>
    ensures { result_map fork_seen result ≡ read_fork (fork_bytes (option_map (result_map part_seen) fork.entry)) }
{
    match fork {
        Some(Ok(part)) => read_resources(part.bytes),
        Some(Err(fault)) => Err(MemberLookupFault::Fork(fault)),
        None => Err(MemberLookupFault::NoContainer),
    }
}

/// Returns the fragments of a table's members.
fn listed_in<'a>(
    alloc: Global,
    table: FragmentTable<'a>,
    forks: MemberForks<'a>,
) -> Result<Vec<FileFragment<'a>>, FragmentsFault>
    ensures { Gives (result_map fragments_seen result) (all_listed (forks_seen forks.entry) (all_members (table_seen table.entry))) }
{
    let mut found = Vec::new(alloc);
    for row in table.members() {
        match fragment_here(forks, row) {
            Ok(Some(fragment)) => found.push(fragment)?,
            Ok(None) => {}
            Err(fault) => return Err(FragmentsFault::Lookup(fault)),
        }
    }
    some_of(found)
}

/// Returns the fragment of a row of a table: none for a member for CFM-68K, or whose container isn't in the file.
fn fragment_here<'a>(
    forks: MemberForks<'a>,
    row: Result<Member<'a>, MemberFault>,
) -> Result<Option<FileFragment<'a>>, MemberLookupFault>
    ensures { result_map (option_map fragment_seen) result ≡ fragment_here (forks_seen forks.entry) (row_seen row.entry) }
{
    match row {
        Ok(member) => {
            if member.header.architecture == CFM_68K {
                Ok(None)
            } else {
                fragment_of(forks, &member)
            }
        }
        Err(fault) => Err(MemberLookupFault::Member(fault)),
    }
}

/// Returns the fragment of a member, or `None` if its container isn't in the file.
fn fragment_of<'a>(
    forks: MemberForks<'a>,
    member: &Member<'a>,
) -> Result<Option<FileFragment<'a>>, MemberLookupFault>
    ensures { result_map (option_map fragment_seen) result ≡ fragment_of (forks_seen forks.entry) (member_seen member.now) }
{
    let name = match member.name {
        Ok(name) => name,
        Err(fault) => return Err(MemberLookupFault::Member(fault)),
    };
    match member_container(forks, member) {
        Ok(bytes) => Ok(Some(FileFragment {
            name: Some(name),
            usage: member.header.usage_code,
            bytes,
        })),
        Err(MemberLookupFault::NoContainer) => Ok(None),
        Err(fault) => Err(fault),
    }
}

/// Returns the container of a member.
fn member_container<'a>(
    forks: MemberForks<'a>,
    member: &Member<'a>,
) -> Result<&'a [u8], MemberLookupFault>
    ensures { result_map (λ container. container.now) result ≡ container_of_member (forks_seen forks.entry) (member_seen member.now) }
{
    match member.header.locator() {
        Locator::DataFork { .. } => in_data_fork(forks.data_fork, member),
        Locator::Resource { type_code, id } => {
            let id = ((id % 0x1_0000) as u16).cast_signed();
            resource_bytes(forks.resources.find(type_code, id))
        }
        Locator::Memory | Locator::Other(_) => Err(MemberLookupFault::NoContainer),
    }
}

/// Returns the container of a member that is in the data fork.
fn in_data_fork<'a>(
    data_fork: Option<Result<ForkBytes<'a>, ForkFault>>,
    member: &Member<'a>,
) -> Result<&'a [u8], MemberLookupFault>
    ensures { result_map (λ container. container.now) result ≡ and_then (data_bytes (member_seen member.now) (option_map (result_map part_seen) data_fork.entry)) (λ fork. part_bytes (container_in (member_seen member.now) fork)) }
{
    match data_fork {
        Some(Ok(part)) => part_bytes(member.container(part.bytes)),
        Some(Err(fault)) => Err(MemberLookupFault::Fork(fault)),
        None => Err(MemberLookupFault::Member(MemberFault::FragmentOutside {
            member: member.member,
            offset: member.offset + OFFSET_AT,
        })),
    }
}

/// Returns the bytes of a container that a member has in the data fork.
fn part_bytes<'a>(
    part: Option<Result<ForkBytes<'a>, MemberFault>>,
) -> Result<&'a [u8], MemberLookupFault>
    ensures { result_map (λ container. container.now) result ≡ part_bytes (option_map (result_map part_seen) part.entry) }
{
    match part {
        Some(Ok(part)) => Ok(part.bytes),
        Some(Err(fault)) => Err(MemberLookupFault::Member(fault)),
        None => Err(MemberLookupFault::NoContainer),
    }
}

/// Returns the bytes of a resource.
fn resource_bytes<'a>(resource: Option<Resource<'a>>) -> Result<&'a [u8], MemberLookupFault>
    ensures { result_map (λ bytes. bytes.now) result ≡ resource_bytes (option_map resource_seen resource.entry) }
{
    match resource {
        Some(resource) => match resource.contents {
            Ok(part) => Ok(part.bytes),
            Err(fault) => Err(MemberLookupFault::Resource(fault)),
        },
        None => Err(MemberLookupFault::NoContainer),
    }
}
