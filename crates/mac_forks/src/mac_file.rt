ghost use Rattle.std.specs.Prelude.{◌≡◌, option_map};
ghost use Rattle.pef_words.specs.Refusals.{result_map};
ghost use Rattle.mac_forks.specs.MacFile.{
  comment_in,
  cuts_of,
  data_fork_in,
  end_in,
  fault_in,
  finder_of_file,
  format_of,
  mac_binary_format,
  mac_file_of,
  name_in,
  resource_fork_in,
};
ghost use Rattle.mac_forks.specs.Views.{mac_binary_seen, mac_file_seen, part_seen};

use crate::apple::AppleFile;
use crate::fault::ForkFault;
use crate::finder::FinderInfo;
use crate::fork_bytes::ForkBytes;
use crate::layout::{COMMENT, DATA_FORK, MAC_BINARY_3, REAL_NAME, RESOURCE_FORK};
use crate::mac_binary::{MacBinary, MacBinaryCuts};

/// No part of MacBinary passes the end.
pub const NO_CUTS: MacBinaryCuts = MacBinaryCuts {
    data_fork: None,
    resource_fork: None,
    comment: None,
};

/// How a file has the forks of a Macintosh file.
#[derive(Clone, Copy, Debug, PartialEq, Eq)]
pub enum ForkFormat {
    /// The file is one fork, or something else.
    Bare,
    MacBinary1,
    MacBinary2,
    MacBinary3,
    /// Both forks.
    AppleSingle,
    /// All but the data fork, which is a file of its own.
    AppleDouble,
}

/// A file, with what it says of the forks of a Macintosh file.
#[derive(Clone, Copy, Debug)]
pub enum MacFile<'a> {
    /// None of the formats. All of it is the data fork.
    Bare(&'a [u8]),
    MacBinary(MacBinary<'a>),
    Apple(AppleFile<'a>),
}

impl<'a> MacFile<'a> {
    /// Finds out which of the formats a file has.
    ///
    /// # Errors
    ///
    /// The file begins as AppleSingle or AppleDouble, and its header passes the end or has an unknown version.
    #[tactic(auto, unfolding(crate::specs::MacFile::mac_file_of))]
    pub fn read(bytes: &'a [u8]) -> Result<MacFile<'a>, ForkFault>
        ensures { result_map mac_file_seen result ≡ mac_file_of bytes.entry.now }
    {
        if AppleFile::has_signature(bytes) {
            return Ok(MacFile::Apple(AppleFile::read(bytes)?));
        }
        match MacBinary::read(bytes) {
            Some(file) => Ok(MacFile::MacBinary(file)),
            None => Ok(MacFile::Bare(bytes)),
        }
    }

    /// Returns the format.
    pub fn format(&self) -> ForkFormat
        ensures { result ≡ format_of (mac_file_seen self.now) }
    {
        match self {
            MacFile::Bare(_) => ForkFormat::Bare,
            MacFile::MacBinary(file) => mac_binary_format(file),
            MacFile::Apple(file) => {
                if file.header().is_double() {
                    ForkFormat::AppleDouble
                } else {
                    ForkFormat::AppleSingle
                }
            }
        }
    }

    /// Returns the error of a MacBinary header whose CRC is wrong.
    pub fn fault(&self) -> Option<ForkFault>
        ensures { result ≡ fault_in (mac_file_seen self.now) }
    {
        match self {
            MacFile::MacBinary(file) => file.fault,
            MacFile::Bare(_) | MacFile::Apple(_) => None,
        }
    }

    /// Returns the errors of the parts of MacBinary that pass the end.
    pub fn cuts(&self) -> MacBinaryCuts
        ensures { result ≡ cuts_of (mac_file_seen self.now) }
    {
        match self {
            MacFile::MacBinary(file) => file.cuts,
            MacFile::Bare(_) | MacFile::Apple(_) => NO_CUTS,
        }
    }

    /// Returns where the parts of MacBinary end, with the zeros that follow the last one. The other formats have no end.
    pub fn end(&self) -> Option<usize>
        ensures { result ≡ end_in (mac_file_seen self.now) }
    {
        match self {
            MacFile::MacBinary(file) => Some(file.end()),
            MacFile::Bare(_) | MacFile::Apple(_) => None,
        }
    }

    /// Returns the data fork, or the error of its entry. `None` if the file doesn't have it. In MacBinary it is as far as it goes.
    pub fn data_fork(&self) -> Option<Result<ForkBytes<'a>, ForkFault>>
        ensures { option_map (result_map part_seen) result ≡ data_fork_in (mac_file_seen self.now) }
    {
        match self {
            MacFile::Bare(bytes) => Some(Ok(ForkBytes {
                offset: 0,
                bytes: *bytes,
            })),
            MacFile::MacBinary(file) => Some(Ok(file.data_fork)),
            MacFile::Apple(file) => file.find(DATA_FORK),
        }
    }

    /// Returns the resource fork, or the error of its entry. `None` if the file doesn't have it. In MacBinary it is as far as it goes.
    pub fn resource_fork(&self) -> Option<Result<ForkBytes<'a>, ForkFault>>
        ensures { option_map (result_map part_seen) result ≡ resource_fork_in (mac_file_seen self.now) }
    {
        match self {
            MacFile::Bare(_) => None,
            MacFile::MacBinary(file) => Some(Ok(file.resource_fork)),
            MacFile::Apple(file) => file.find(RESOURCE_FORK),
        }
    }

    /// Returns the name that the file had, or the error of its entry. `None` if there is none.
    pub fn name(&self) -> Option<Result<ForkBytes<'a>, ForkFault>>
        ensures { option_map (result_map part_seen) result ≡ name_in (mac_file_seen self.now) }
    {
        match self {
            MacFile::Bare(_) => None,
            MacFile::MacBinary(file) => Some(Ok(file.name)),
            MacFile::Apple(file) => file.find(REAL_NAME),
        }
    }

    /// Returns the comment, or the error of its entry. `None` if there is none, or it passes the end of MacBinary.
    pub fn comment(&self) -> Option<Result<ForkBytes<'a>, ForkFault>>
        ensures { option_map (result_map part_seen) result ≡ comment_in (mac_file_seen self.now) }
    {
        match self {
            MacFile::Bare(_) => None,
            MacFile::MacBinary(file) => Some(Ok(file.comment?)),
            MacFile::Apple(file) => file.find(COMMENT),
        }
    }

    /// Returns the type, the creator and the other Finder information, or the error of its entry. `None` if there is
    /// none.
    pub fn finder(&self) -> Option<Result<FinderInfo, ForkFault>>
        ensures { result ≡ finder_of_file (mac_file_seen self.now) }
    {
        match self {
            MacFile::Bare(_) => None,
            MacFile::MacBinary(file) => Some(Ok(file.finder())),
            MacFile::Apple(file) => file.finder(),
        }
    }
}

/// Returns which MacBinary a file is.
fn mac_binary_format(file: &MacBinary<'_>) -> ForkFormat
    ensures { result ≡ mac_binary_format (mac_binary_seen file.now) }
{
    if file.header.extension.signature == MAC_BINARY_3 {
        ForkFormat::MacBinary3
    } else if file.is_first_version {
        ForkFormat::MacBinary1
    } else {
        ForkFormat::MacBinary2
    }
}
