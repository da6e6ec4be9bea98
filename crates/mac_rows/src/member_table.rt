//! The table of fragments of a file, and where the containers of its members are in the file.
ghost use Rattle.std.specs.Prelude.{◌≡◌, option_map};
ghost use Rattle.pef_words.specs.Refusals.{result_map};
ghost use Rattle.mac_forks.specs.Views.{part_seen};
ghost use Rattle.mac_resources.specs.Views.{fork_seen, resource_seen};
ghost use Rattle.cfm_members.specs.Views.{member_seen};
ghost use Rattle.mac_rows.specs.MacParts.{data_place, member_table_of, no_container, place_of, resource_place, table_part};
ghost use Rattle.mac_rows.specs.Sums.{up_to};
ghost use Rattle.mac_rows.specs.Views.{member_table_seen, place_seen};

use cfm_members::{FragmentTable, Locator, Member, MemberLookupFault};
use mac_forks::ForkBytes;
use mac_resources::{Resource, ResourceFork};

/// The resource of a table of fragments: `cfrg` 0.
const TABLE_TYPE: u32 = 0x6366_7267;

const TABLE_ID: i16 = 0;

/// An error of the wrapping of a file, of its resources or of its fragments.
#[derive(Clone, Copy, Debug, PartialEq, Eq)]
pub struct FileError {
    pub fault: MemberLookupFault,
    /// The offset in the file from which the error's offset counts.
    pub base: u64,
    /// The number of the member whose container isn't there.
    pub member: Option<u64>,
}

/// The table of fragments of a file, with the forks that its members are looked up in.
#[derive(Clone, Copy)]
pub(crate) struct MemberTable<'a> {
    /// The data fork, which may be in another file.
    pub data_fork: Option<ForkBytes<'a>>,
    /// Where the resource fork begins in the file.
    pub fork_base: u64,
    pub fork: ResourceFork<'a>,
    /// Where the table begins in the file.
    pub table_base: u64,
    pub fragments: FragmentTable<'a>,
}

/// Where the container of a member is.
#[derive(Clone, Copy)]
pub(crate) enum ContainerPlace<'a> {
    /// The table doesn't say where, or it is in a file that isn't known, or in a resource with an error of
    /// its own.
    Elsewhere,
    /// It isn't there.
    Missing(FileError),
    /// It is at an offset of the file that has its fork, with these bytes.
    Lying { at: u64, bytes: &'a [u8] },
}

impl<'a> MemberTable<'a> {
    /// Reads the table of fragments of a resource fork, which begins at an offset of the file. `None` if there is none.
    pub(crate) fn read(
        data_fork: Option<ForkBytes<'a>>,
        fork_base: u64,
        fork: ResourceFork<'a>,
    ) -> Option<Result<MemberTable<'a>, FileError>>
        ensures { option_map (result_map member_table_seen) result ≡ member_table_of (option_map part_seen data_fork.entry) fork_base (fork_seen fork.entry) }
    {
        let part = table_part(fork)?;
        let table_base = fork_base.saturating_add(part.offset as u64);
        match FragmentTable::read(part.bytes) {
            Ok(fragments) => Some(Ok(MemberTable {
                data_fork,
                fork_base,
                fork,
                table_base,
                fragments,
            })),
            Err(fault) => Some(Err(FileError {
                fault: MemberLookupFault::Member(fault),
                base: table_base,
                member: None,
            })),
        }
    }

    /// Returns where the container of a member is.
    pub(crate) fn place_of(self, member: Member<'_>) -> ContainerPlace<'a>
        ensures { place_seen result ≡ place_of (member_table_seen self.entry) (member_seen member.entry) }
    {
        match member.header.locator() {
            Locator::DataFork { .. } => self.data_place(member),
            Locator::Resource { type_code, id } => {
                let id = ((id % 0x1_0000) as u16).cast_signed();
                self.resource_place(member, self.fork.find(type_code, id))
            }
            Locator::Memory | Locator::Other(_) => ContainerPlace::Elsewhere,
        }
    }

    /// Returns the error of a member whose container isn't there. It is at the member.
    pub(crate) fn no_container(self, member: Member<'_>) -> FileError
        ensures { result ≡ no_container (member_table_seen self.entry) (member_seen member.entry) }
    {
        FileError {
            fault: MemberLookupFault::NoContainer,
            base: self.table_base.saturating_add(member.offset as u64),
            member: Some(u64::from(member.member)),
        }
    }

    /// Returns where the container of a member is, which is in the data fork.
    fn data_place(self, member: Member<'_>) -> ContainerPlace<'a>
        ensures { place_seen result ≡ data_place (member_table_seen self.entry) (member_seen member.entry) (member_table_seen self.entry).data_fork }
    {
        let Some(fork) = self.data_fork else {
            return ContainerPlace::Elsewhere;
        };
        match member.container(fork.bytes) {
            Some(Ok(part)) => ContainerPlace::Lying {
                at: (fork.offset as u64).saturating_add(part.offset as u64),
                bytes: part.bytes,
            },
            Some(Err(fault)) => ContainerPlace::Missing(FileError {
                fault: MemberLookupFault::Member(fault),
                base: self.table_base,
                member: None,
            }),
            None => ContainerPlace::Elsewhere,
        }
    }

    /// Returns where the container of a member is, which is in a resource.
    fn resource_place(
        self,
        member: Member<'_>,
        resource: Option<Resource<'a>>,
    ) -> ContainerPlace<'a>
        ensures { place_seen result ≡ resource_place (member_table_seen self.entry) (member_seen member.entry) (option_map resource_seen resource.entry) }
    {
        let Some(resource) = resource else {
            return ContainerPlace::Missing(self.no_container(member));
        };
        match resource.contents {
            Ok(part) => ContainerPlace::Lying {
                at: self.fork_base.saturating_add(part.offset as u64),
                bytes: part.bytes,
            },
            Err(_) => ContainerPlace::Elsewhere,
        }
    }
}

/// Returns the bytes of the resource `cfrg` 0.
fn table_part<'a>(fork: ResourceFork<'a>) -> Option<ForkBytes<'a>>
    ensures { option_map part_seen result ≡ table_part (fork_seen fork.entry) }
{
    match fork.find(TABLE_TYPE, TABLE_ID)?.contents {
        Ok(part) => Some(part),
        Err(_) => None,
    }
}
