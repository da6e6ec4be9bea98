//! What the errors of the wrapping of a file, of its resources and of its fragments are about.
ghost use Rattle.std.specs.Prelude.{◌≡◌};
ghost use Rattle.mac_rows.specs.FileErrors.{entry_of, error_offset, error_row, member_of, part_key};

use crate::member_table::FileError;
use cfm_members::{MemberFault, MemberLookupFault};
use mac_forks::ForkFault;

impl FileError {
    /// Returns the word for the part of the file that the error is about.
    pub(crate) fn part(self) -> &'static [u8]
        ensures { result.now ≡ part_key self.fault }
    {
        match self.fault {
            MemberLookupFault::Fork(_) => b"fork",
            MemberLookupFault::Resource(_) => b"resource",
            MemberLookupFault::Member(_) | MemberLookupFault::NoContainer => b"fragment",
        }
    }

    /// Returns the number of the entry or the member that the error is about.
    pub(crate) fn row(self) -> Option<u64>
        ensures { result ≡ error_row self }
    {
        match self.fault {
            MemberLookupFault::Fork(fault) => entry_of(fault),
            MemberLookupFault::Member(fault) => member_of(fault),
            MemberLookupFault::Resource(_) => None,
            MemberLookupFault::NoContainer => self.member,
        }
    }

    /// Returns the offset in the file of the field that the error is about.
    pub(crate) fn offset(self) -> Option<u64>
        ensures { result ≡ error_offset self }
    {
        match self.fault {
            MemberLookupFault::Fork(fault) => Some(fault.offset()? as u64),
            MemberLookupFault::Resource(fault) => Some(
                self.base.saturating_add(fault.offset() as u64),
            ),
            MemberLookupFault::Member(fault) => Some(
                self.base.saturating_add(fault.offset() as u64),
            ),
            MemberLookupFault::NoContainer => Some(self.base),
        }
    }
}

/// Returns the number of the entry that an error is about.
fn entry_of(fault: ForkFault) -> Option<u64>
    ensures { result ≡ entry_of fault }
{
    match fault {
        ForkFault::BadMacBinaryCrc
        | ForkFault::AppleHeaderCut
        | ForkFault::BadAppleVersion
        | ForkFault::DataForkCut
        | ForkFault::ResourceForkCut
        | ForkFault::CommentCut => None,
        ForkFault::AppleEntryCut { entry }
        | ForkFault::AppleEntryOutside { entry }
        | ForkFault::AppleEntryShort { entry } => Some(u64::from(entry)),
    }
}

/// Returns the number of the member that an error is about.
fn member_of(fault: MemberFault) -> Option<u64>
    ensures { result ≡ member_of fault }
{
    match fault {
        MemberFault::FragmentTableCut | MemberFault::BadFragmentTable => None,
        MemberFault::MemberCut { member, .. }
        | MemberFault::MemberNameCut { member, .. }
        | MemberFault::FragmentOutside { member, .. } => Some(u64::from(member)),
    }
}
