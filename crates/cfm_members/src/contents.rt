//! The bytes of a file, and which of them a container in it can have.
ghost use Rattle.std.specs.Prelude.{◌≡◌, option_map};
ghost use Rattle.std.specs.Option.{option_copied};
ghost use Rattle.pef_words.specs.Refusals.{result_map};
ghost use Rattle.mac_forks.specs.Views.{part_seen};
ghost use Rattle.mac_resources.specs.Resources.{all_resources};
ghost use Rattle.mac_resources.specs.Views.{fork_seen, row_seen as resource_row_seen};
ghost use Rattle.cfm_members.specs.Contents.{
  all_from,
  data_fork_rest,
  file_forks,
  first_member_rest,
  first_resource_rest,
  member_rest,
  member_row_rest,
  place_in,
  readable,
  resource_fork_rest,
  resource_rest,
  resource_row_rest,
  resources_of,
  rest_from,
  rest_in_data,
  rest_in_resources,
  table_among,
  table_here,
};
ghost use Rattle.cfm_members.specs.Members.{all_members};
ghost use Rattle.cfm_members.specs.Views.{row_seen, table_seen};

use crate::fault::MemberFault;
use crate::forks::Forks;
use crate::layout::{FRAGMENT_TABLE_ID, FRAGMENT_TABLE_TYPE};
use crate::member::Member;
use crate::table::FragmentTable;
use mac_forks::{ForkBytes, ForkFault, MacFile};
use mac_resources::{Resource, ResourceFault, ResourceFork};

/// How many rows of the resources are looked at for the one that has a place: more than the Resource Manager takes. With a limit
/// the work for all containers is linear.
const MOST_RESOURCES: u32 = 4_096;

/// How many members are looked at for the one whose container begins at a place.
const MOST_MEMBERS: u32 = 256;

/// The bytes of a file, with the forks of it that can be read, its resources and its table of fragments.
#[derive(Clone, Copy, Debug)]
pub struct Contents<'a> {
    pub bytes: &'a [u8],
    data_fork: Option<ForkBytes<'a>>,
    resource_fork: Option<ForkBytes<'a>>,
    resources: Option<ResourceFork<'a>>,
    table: Option<FragmentTable<'a>>,
    ghost data: { option_map part_seen data_fork ≡ (file_forks bytes.now).data_fork },
    ghost resource: { option_map part_seen resource_fork ≡ (file_forks bytes.now).resource_fork },
    ghost read: { option_map fork_seen resources ≡ resources_of (file_forks bytes.now).resource_fork },
    ghost members: { option_map table_seen table ≡ table_among (resources_of (file_forks bytes.now).resource_fork) },
}

impl<'a> Contents<'a> {
    /// Returns the contents of a file with these bytes.
    #[tactic(auto, unfolding(crate::specs::Contents::file_forks))]
    pub fn of(bytes: &'a [u8]) -> Contents<'a>
        ensures { result.bytes.now ≡ bytes.entry.now }
    {
        match MacFile::read(bytes) {
            Ok(file) => {
                let forks = Forks::of(bytes, &file);
                Contents::with_forks(
                    bytes,
                    readable(forks.data_fork),
                    readable(forks.resource_fork),
                )
            }
            Err(_) => Contents::with_forks(bytes, None, None),
        }
    }

    /// Returns the contents of a file with these bytes, of which these are the forks that can be read.
    fn with_forks(
        bytes: &'a [u8],
        data_fork: Option<ForkBytes<'a>>,
        resource_fork: Option<ForkBytes<'a>>,
    ) -> Contents<'a>
        requires data { option_map part_seen data_fork ≡ (file_forks bytes.now).data_fork }
        requires resource { option_map part_seen resource_fork ≡ (file_forks bytes.now).resource_fork }
        ensures { result.bytes.now ≡ bytes.entry.now }
    {
        let resources = resources_of(resource_fork);
        Contents {
            bytes,
            data_fork,
            resource_fork,
            resources,
            table: table_among(resources),
        }
    }

    /// Returns the bytes that a container at a place can have: those up to the end of its member, its resource or its fork, or of
    /// a file without such a fork.
    #[tactic(auto, unfolding(crate::specs::Contents::rest_from))]
    pub fn rest_from(self, place: usize) -> &'a [u8]
        ensures { result.now ≡ rest_from self.entry.bytes.now place }
    {
        let rest = match rest_in_data(self.data_fork, self.table, place) {
            Some(rest) => Some(rest),
            None => rest_in_resources(self.resource_fork, self.resources, place),
        };
        match rest {
            Some(rest) => rest,
            None => all_from(self.bytes, place),
        }
    }
}

/// Returns a fork without its error.
pub fn readable<'a>(fork: Option<Result<ForkBytes<'a>, ForkFault>>) -> Option<ForkBytes<'a>>
    ensures { option_map part_seen result ≡ readable (option_map (result_map part_seen) fork.entry) }
{
    match fork {
        Some(Ok(part)) => Some(part),
        Some(Err(_)) | None => None,
    }
}

/// Returns the resources of a resource fork, if its header and its map can be read.
fn resources_of<'a>(fork: Option<ForkBytes<'a>>) -> Option<ResourceFork<'a>>
    ensures { option_map fork_seen result ≡ resources_of (option_map part_seen fork.entry) }
{
    match fork {
        Some(part) => match ResourceFork::read(part.bytes) {
            Ok(resources) => Some(resources),
            Err(_) => None,
        },
        None => None,
    }
}

/// Returns the table of fragments among some resources, if it can be read.
fn table_among<'a>(resources: Option<ResourceFork<'a>>) -> Option<FragmentTable<'a>>
    ensures { option_map table_seen result ≡ table_among (option_map fork_seen resources.entry) }
{
    match resources {
        Some(fork) => match fork.find(FRAGMENT_TABLE_TYPE, FRAGMENT_TABLE_ID) {
            Some(resource) => table_here(resource.contents),
            None => None,
        },
        None => None,
    }
}

/// Returns the table of fragments that the bytes of a resource are, if it can be read.
fn table_here<'a>(contents: Result<ForkBytes<'a>, ResourceFault>) -> Option<FragmentTable<'a>>
    ensures { option_map table_seen result ≡ table_here (result_map part_seen contents.entry) }
{
    match contents {
        Ok(part) => match FragmentTable::read(part.bytes) {
            Ok(table) => Some(table),
            Err(_) => None,
        },
        Err(_) => None,
    }
}

/// Returns the bytes of the data fork from a place of the file on, if the fork has the place: those up to the end of the member
/// whose container begins there, or of the fork.
fn rest_in_data<'a>(
    fork: Option<ForkBytes<'a>>,
    table: Option<FragmentTable<'_>>,
    place: usize,
) -> Option<&'a [u8]>
    ensures { option_copied result ≡ rest_in_data (option_map part_seen fork.entry) (option_map table_seen table.entry) place }
{
    match fork {
        Some(part) => match place_in(part, place) {
            Some(at) => Some(data_fork_rest(part.bytes, table, at)),
            None => None,
        },
        None => None,
    }
}

/// Returns the bytes of the resource fork from a place of the file on, if the fork has the place: those up to the end of the
/// resource that has the place, or of the fork.
fn rest_in_resources<'a>(
    fork: Option<ForkBytes<'a>>,
    resources: Option<ResourceFork<'a>>,
    place: usize,
) -> Option<&'a [u8]>
    ensures { option_copied result ≡ rest_in_resources (option_map part_seen fork.entry) (option_map fork_seen resources.entry) place }
{
    match fork {
        Some(part) => match place_in(part, place) {
            Some(at) => Some(resource_fork_rest(part.bytes, resources, at)),
            None => None,
        },
        None => None,
    }
}

/// Returns where a place of a file is in some of its bytes, or `None` if it isn't in them.
fn place_in(part: ForkBytes<'_>, place: usize) -> Option<usize>
    ensures { result ≡ place_in (part_seen part.entry) place }
{
    if place >= part.offset && place - part.offset < part.bytes.len() {
        Some(place - part.offset)
    } else {
        None
    }
}

/// Returns the bytes of a data fork from a place of it on.
fn data_fork_rest<'a>(fork: &'a [u8], table: Option<FragmentTable<'_>>, place: usize) -> &'a [u8]
    ensures { result.now ≡ data_fork_rest fork.entry.now (option_map table_seen table.entry) place }
{
    match table {
        Some(table) => match first_member_rest(fork, table, place) {
            Some(rest) => rest,
            None => all_from(fork, place),
        },
        None => all_from(fork, place),
    }
}

/// Returns the bytes of the first member whose container begins at a place of the data fork.
fn first_member_rest<'a>(fork: &'a [u8], table: FragmentTable<'_>, place: usize) -> Option<&'a [u8]>
    ensures { option_copied result ≡ first_member_rest fork.entry.now 256 place (all_members (table_seen table.entry)) }
{
    let mut most = MOST_MEMBERS;
    for row in table.members() {
        if most == 0 {
            return None;
        }
        most -= 1;
        match member_row_rest(fork, row, place) {
            Some(rest) => return Some(rest),
            None => {}
        }
    }
    None
}

/// Returns the bytes of the container of a row, if it begins at a place of the data fork.
fn member_row_rest<'a>(
    fork: &'a [u8],
    row: Result<Member<'_>, MemberFault>,
    place: usize,
) -> Option<&'a [u8]>
    ensures { option_copied result ≡ member_row_rest fork.entry.now place (row_seen row.entry) }
{
    match row {
        Ok(member) => member_rest(member.container(fork), place),
        Err(_) => None,
    }
}

/// Returns the bytes of a member's container, if it begins at a place of the data fork.
fn member_rest<'a>(
    container: Option<Result<ForkBytes<'a>, MemberFault>>,
    place: usize,
) -> Option<&'a [u8]>
    ensures { option_copied result ≡ member_rest place (option_map (result_map part_seen) container.entry) }
{
    match container {
        Some(Ok(part)) => {
            if part.offset == place {
                Some(part.bytes)
            } else {
                None
            }
        }
        Some(Err(_)) | None => None,
    }
}

/// Returns the bytes of a resource fork from a place of it on.
fn resource_fork_rest<'a>(
    fork: &'a [u8],
    resources: Option<ResourceFork<'a>>,
    place: usize,
) -> &'a [u8]
    ensures { result.now ≡ resource_fork_rest fork.entry.now (option_map fork_seen resources.entry) place }
{
    match resources {
        Some(resources) => match first_resource_rest(resources, place) {
            Some(rest) => rest,
            None => all_from(fork, place),
        },
        None => all_from(fork, place),
    }
}

/// Returns the bytes of the first resource that has a place of the fork, from there on.
fn first_resource_rest<'a>(resources: ResourceFork<'a>, place: usize) -> Option<&'a [u8]>
    ensures { option_copied result ≡ first_resource_rest 4096 place (all_resources (fork_seen resources.entry)) }
{
    let mut most = MOST_RESOURCES;
    for row in resources.resources() {
        if most == 0 {
            return None;
        }
        most -= 1;
        match resource_row_rest(row, place) {
            Some(rest) => return Some(rest),
            None => {}
        }
    }
    None
}

/// Returns the bytes of the resource in a row from a place of the fork on, if it has the place.
fn resource_row_rest<'a>(row: Result<Resource<'a>, ResourceFault>, place: usize) -> Option<&'a [u8]>
    ensures { option_copied result ≡ resource_row_rest place (resource_row_seen row.entry) }
{
    match row {
        Ok(resource) => resource_rest(resource.contents, place),
        Err(_) => None,
    }
}

/// Returns the bytes of a resource from a place of the fork on, if it has the place.
fn resource_rest<'a>(
    contents: Result<ForkBytes<'a>, ResourceFault>,
    place: usize,
) -> Option<&'a [u8]>
    ensures { option_copied result ≡ resource_rest place (result_map part_seen contents.entry) }
{
    match contents {
        Ok(part) => match place_in(part, place) {
            Some(at) => Some(all_from(part.bytes, at)),
            None => None,
        },
        Err(_) => None,
    }
}

/// Returns all bytes from a place on.
fn all_from<'a>(bytes: &'a [u8], place: usize) -> &'a [u8]
    ensures { result.now ≡ all_from bytes.entry.now place }
{
    let (_, rest) = bytes.split_at(place.min(bytes.len()));
    rest
}
