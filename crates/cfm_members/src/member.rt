ghost use Rattle.std.specs.Prelude.{◌≡◌, ◌<◌, ◌^◌, option_map};
ghost use Rattle.pef_words.specs.Refusals.{result_map};
ghost use Rattle.mac_forks.specs.Views.{part_seen};
ghost use Rattle.cfm_members.specs.Members.{container_in, lies, locator_of, usage_of};

use crate::fault::MemberFault;
use crate::layout::{
    APPLICATION, DROP_IN_ADDITION, IMPORT_LIBRARY, IN_DATA_FORK, IN_MEMORY, IN_RESOURCE, OFFSET_AT,
    STUB_LIBRARY, WEAK_STUB_LIBRARY,
};
use mac_forks::ForkBytes;
use pef_words::Cut;

/// The fields of a member (CFragResourceMember). The name follows.
#[derive(Clone, Copy, Debug, PartialEq, Eq)]
pub struct MemberHeader {
    /// `pwpc`, `m68k`, or `????` for any: four characters, as a number.
    pub architecture: u32,
    pub reserved_1: u16,
    pub reserved_2: u8,
    /// 0 for a full container.
    pub update_level: u8,
    pub current_version: u32,
    pub old_def_version: u32,
    /// The stack that an application asks for.
    pub stack_size: u32,
    /// The directory of an application's libraries, or a library's flags.
    pub directory_or_flags: u16,
    /// The code of the [`usage`](Self::usage).
    pub usage_code: u8,
    /// The code of the [`locator`](Self::locator).
    pub where_code: u8,
    pub offset: u32,
    pub length: u32,
    pub space_id: u32,
    pub fork_instance: u16,
    /// How many extensions follow the name.
    pub extension_count: u16,
    /// The length of the member with its name, its extensions and padding.
    pub size: u16,
}

/// What a member is for.
#[derive(Clone, Copy, Debug, PartialEq, Eq)]
pub enum Usage {
    ImportLibrary,
    Application,
    DropInAddition,
    StubLibrary,
    WeakStubLibrary,
    /// Another code.
    Other(u8),
}

/// Where a member's container is.
#[derive(Clone, Copy, Debug, PartialEq, Eq)]
pub enum Locator {
    Memory,
    /// In the data fork of the file. A length of 0 reaches to the end of the fork.
    DataFork { offset: u32, length: u32 },
    /// In a resource of the file.
    Resource { type_code: u32, id: u32 },
    /// Another code.
    Other(u8),
}

/// A member of a table of fragments.
#[derive(Clone, Copy, Debug)]
pub struct Member<'a> {
    /// The number of the member, from 0.
    pub member: u16,
    /// Where it begins in the table.
    pub offset: usize,
    pub header: MemberHeader,
    /// The name of the fragment.
    pub name: Result<&'a [u8], MemberFault>,
    /// The error of its size: it passes the end, or is too small for the fields.
    pub fault: Option<MemberFault>,
    ghost within: { offset < 2 ^ 63 },
}

impl MemberHeader {
    /// Returns what the member is for.
    pub fn usage(self) -> Usage
        ensures { result ≡ usage_of self.usage_code }
    {
        match self.usage_code {
            IMPORT_LIBRARY => Usage::ImportLibrary,
            APPLICATION => Usage::Application,
            DROP_IN_ADDITION => Usage::DropInAddition,
            STUB_LIBRARY => Usage::StubLibrary,
            WEAK_STUB_LIBRARY => Usage::WeakStubLibrary,
            other => Usage::Other(other),
        }
    }

    /// Returns where the member's container is.
    pub fn locator(self) -> Locator
        ensures { result ≡ locator_of self }
    {
        match self.where_code {
            IN_MEMORY => Locator::Memory,
            IN_DATA_FORK => Locator::DataFork {
                offset: self.offset,
                length: self.length,
            },
            IN_RESOURCE => Locator::Resource {
                type_code: self.offset,
                id: self.length,
            },
            other => Locator::Other(other),
        }
    }
}

impl<'a> Member<'a> {
    ghost use Rattle.cfm_members.specs.Views.{member_seen};

    /// Returns the member's container in the data fork of its file, with its offset there. `None` if it is elsewhere.
    ///
    /// # Errors
    ///
    /// The container passes the end of the fork.
    pub fn container<'f>(self, data_fork: &'f [u8]) -> Option<Result<ForkBytes<'f>, MemberFault>>
        ensures { option_map (result_map part_seen) result ≡ container_in (member_seen self.entry) data_fork.entry.now }
    {
        match self.header.locator() {
            Locator::DataFork { offset, length } => {
                match lying_part(data_fork, offset as usize, length as usize) {
                    Some(part) => Some(Ok(part)),
                    None => Some(Err(MemberFault::FragmentOutside {
                        member: self.member,
                        offset: self.offset + OFFSET_AT,
                    })),
                }
            }
            Locator::Memory | Locator::Resource { .. } | Locator::Other(_) => None,
        }
    }
}

/// Returns the `len` bytes from `offset`, or if `len` is 0 all bytes from there. `None` if they pass the end.
pub(crate) fn lying_part<'f>(fork: &'f [u8], offset: usize, len: usize) -> Option<ForkBytes<'f>>
    ensures { option_map part_seen result ≡ lies fork.entry.now offset len }
{
    let len = if len == 0 {
        fork.len().saturating_sub(offset)
    } else {
        len
    };
    let bytes = Cut::new(fork).part(offset, len)?.bytes();
    Some(ForkBytes { offset, bytes })
}
