ghost use Rattle.std.specs.Prelude.{◌≡◌, ◌<◌, ◌+◌, ◌^◌};
ghost use Rattle.mac_forks.specs.Apple.{entry_from};
ghost use Rattle.mac_forks.specs.Faults.{fault_name, fault_number, fault_offset};

use crate::layout::{
    APPLE_ENTRIES_AT, APPLE_ENTRY_SIZE, APPLE_VERSION_AT, COMMENT_LENGTH_AT, CRC_AT,
    DATA_LENGTH_AT, ENTRY_LENGTH_AT, ENTRY_OFFSET_AT, RESOURCE_LENGTH_AT,
};
use std::fmt;
use thiserror::Error;

/// What is wrong with the wrapping of a file, with the number of the entry, from 0. The text is the name of the error.
#[derive(Clone, Copy, Debug, PartialEq, Eq, Error)]
pub enum ForkFault {
    /// The CRC of a MacBinary header isn't that of its bytes. The forks are still read.
    BadMacBinaryCrc,

    /// The header of AppleSingle or AppleDouble passes the end.
    AppleHeaderCut,

    /// The version of AppleSingle or AppleDouble isn't 1 or 2.
    BadAppleVersion,

    /// The row of an entry passes the end.
    AppleEntryCut { entry: u16 },

    /// The bytes of an entry pass the end.
    AppleEntryOutside { entry: u16 },

    /// The bytes of an entry are too few for its fields.
    AppleEntryShort { entry: u16 },

    /// The data fork of MacBinary passes the end. It is read as far as it goes.
    DataForkCut,

    /// The resource fork of MacBinary passes the end. It is read as far as it goes.
    ResourceForkCut,

    /// The comment of MacBinary passes the end.
    CommentCut,
}

impl ForkFault {
    /// Returns the number of the error, from 76 to 78 or 81 to 86. No error of another crate has it.
    pub fn number(&self) -> u32
        ensures { result ≡ fault_number self.now }
    {
        match self {
            ForkFault::BadMacBinaryCrc => 81,
            ForkFault::AppleHeaderCut => 82,
            ForkFault::BadAppleVersion => 83,
            ForkFault::AppleEntryCut { .. } => 84,
            ForkFault::AppleEntryOutside { .. } => 85,
            ForkFault::AppleEntryShort { .. } => 86,
            ForkFault::DataForkCut => 76,
            ForkFault::ResourceForkCut => 77,
            ForkFault::CommentCut => 78,
        }
    }

    /// Returns the offset in the file of the field that the error is about: the CRC, the version, a length, or a field
    /// of the entry's row. `None` if the header passes the end.
    pub fn offset(&self) -> Option<usize>
        ensures { result ≡ fault_offset self.now }
    {
        match self {
            ForkFault::BadMacBinaryCrc => Some(CRC_AT),
            ForkFault::AppleHeaderCut => None,
            ForkFault::BadAppleVersion => Some(APPLE_VERSION_AT),
            ForkFault::AppleEntryCut { entry } => Some(entry_at(*entry)),
            ForkFault::AppleEntryOutside { entry } => Some(entry_at(*entry) + ENTRY_OFFSET_AT),
            ForkFault::AppleEntryShort { entry } => Some(entry_at(*entry) + ENTRY_LENGTH_AT),
            ForkFault::DataForkCut => Some(DATA_LENGTH_AT),
            ForkFault::ResourceForkCut => Some(RESOURCE_LENGTH_AT),
            ForkFault::CommentCut => Some(COMMENT_LENGTH_AT),
        }
    }

    /// Returns the name of the error, which is its text.
    pub fn name(&self) -> &'static str
        ensures { result.now ≡ fault_name self.now }
    {
        match self {
            ForkFault::BadMacBinaryCrc => "BadMacBinaryCrc",
            ForkFault::AppleHeaderCut => "AppleHeaderCut",
            ForkFault::BadAppleVersion => "BadAppleVersion",
            ForkFault::AppleEntryCut { .. } => "AppleEntryCut",
            ForkFault::AppleEntryOutside { .. } => "AppleEntryOutside",
            ForkFault::AppleEntryShort { .. } => "AppleEntryShort",
            ForkFault::DataForkCut => "DataForkCut",
            ForkFault::ResourceForkCut => "ResourceForkCut",
            ForkFault::CommentCut => "CommentCut",
        }
    }
}

/// Returns where the row of an entry begins.
pub(crate) fn entry_at(entry: u16) -> usize
    ensures value { result ≡ entry_from entry }
    ensures small { result < 2 ^ 20 }
{
    APPLE_ENTRIES_AT + APPLE_ENTRY_SIZE * usize::from(entry)
}

impl fmt::Display for ForkFault {
    ghost use Rattle.std.specs.Prelude.{Some};
    ghost use Rattle.mac_forks.specs.Faults.{fault_name};

    ghost output = { λ fault. Some (fault_name fault) };

    fn fmt<W: fmt::Write>(&self, f: &mut fmt::Formatter<W>) -> fmt::Result {
        f.write_str(self.name())
    }
}
