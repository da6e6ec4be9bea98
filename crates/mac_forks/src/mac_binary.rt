ghost use Rattle.std.specs.Prelude.{◌≡◌, ◌+◌, ◌<◌, ◌^◌, ◌≤◌, length, option_map};
ghost use Rattle.mac_forks.specs.MacBinary.{
  all_zero,
  comment_from,
  crc_is_right,
  cut_of,
  cuts_in,
  data_fork_from,
  end_of,
  extension_of,
  fault_among,
  finder_in,
  has_forks,
  has_shape,
  header_of,
  is_marked,
  mac_binary_of,
  padded,
  resource_fork_from,
};
ghost use Rattle.mac_forks.specs.Parts.{part_in};
ghost use Rattle.mac_forks.specs.Views.{mac_binary_seen, part_seen};

use crate::crc::crc_16;
use crate::fault::ForkFault;
use crate::finder::FinderInfo;
use crate::fork_bytes::{ForkBytes, part_in, part_within};
use crate::layout::{
    COMMENT_LENGTH_AT, CRC_AT, CREATED_AT, CREATOR_AT, DATA_LENGTH_AT, EXTENDED_FLAGS_AT,
    FILE_TYPE_AT, FINDER_FLAGS_HIGH_AT, FINDER_FLAGS_LOW_AT, FORK_LENGTH_LIMIT, HORIZONTAL_AT,
    LEAST_VERSION_AT, MAC_BINARY_3, MAC_BINARY_BLOCK, MAX_NAME_LENGTH, MODIFIED_AT, NAME_AT,
    NAME_LENGTH_AT, PROTECTED_AT, RESERVED_AT, RESOURCE_LENGTH_AT, SCRIPT_AT,
    SECOND_HEADER_LENGTH_AT, SIGNATURE_AT, UNPACKED_LENGTH_AT, VERSION_2, VERSION_3, VERSION_AT,
    VERTICAL_AT, WINDOW_AT, ZERO_1_AT, ZERO_2_AT, ZERO_3_AT,
};
use pef_words::Cut;

/// A MacBinary header up to the dates, field by field, and the fields that versions II and III added.
///
/// Dates are seconds since the first of January 1904. The three bytes that have to be 0 are fields too.
#[derive(Clone, Copy, Debug, PartialEq, Eq)]
pub struct MacBinaryHeader {
    pub zero_1: u8,
    pub name_length: u8,
    /// Four characters, as a number.
    pub file_type: u32,
    /// Four characters, as a number.
    pub creator: u32,
    pub finder_flags_high: u8,
    pub zero_2: u8,
    /// The place of the icon in its window.
    pub vertical: i16,
    pub horizontal: i16,
    /// The window or folder of the icon.
    pub window: u16,
    pub protected: u8,
    pub zero_3: u8,
    pub data_length: u32,
    pub resource_length: u32,
    pub created: u32,
    pub modified: u32,
    pub extension: MacBinaryExtension,
}

/// The fields of a MacBinary header after the dates. In MacBinary I they are all 0.
#[derive(Clone, Copy, Debug, PartialEq, Eq)]
pub struct MacBinaryExtension {
    pub comment_length: u16,
    pub finder_flags_low: u8,
    /// `mBIN` in MacBinary III, as a number.
    pub signature: u32,
    /// The script of the name.
    pub script: u8,
    pub extended_flags: u8,
    /// The length of all files when unpacked. It isn't used.
    pub unpacked_length: u32,
    /// The length of a second header, which follows this one.
    pub second_header_length: u16,
    /// The version that the file was written by: 129 for MacBinary II, 130 for III.
    pub version: u8,
    /// The oldest version that can read the file.
    pub least_version: u8,
    /// The CRC of the 124 bytes before it.
    pub crc: u16,
    pub reserved: u16,
}

/// A file in MacBinary: its header and its parts.
#[derive(Clone, Copy, Debug)]
pub struct MacBinary<'a> {
    pub header: MacBinaryHeader,
    /// All bytes from 99 to 127 are 0, so there is no CRC.
    pub is_first_version: bool,
    /// The error of a header whose CRC is wrong.
    pub fault: Option<ForkFault>,
    pub name: ForkBytes<'a>,
    /// The forks, as far as they are there.
    pub data_fork: ForkBytes<'a>,
    pub resource_fork: ForkBytes<'a>,
    /// `None` if it passes the end.
    pub comment: Option<ForkBytes<'a>>,
    pub cuts: MacBinaryCuts,
}

/// The errors of the parts of a file in MacBinary that pass the end.
#[derive(Clone, Copy, Debug, PartialEq, Eq)]
pub struct MacBinaryCuts {
    pub data_fork: Option<ForkFault>,
    pub resource_fork: Option<ForkFault>,
    pub comment: Option<ForkFault>,
}

impl<'a> MacBinary<'a> {
    /// Reads a file in MacBinary, or returns `None` if it is none.
    #[tactic(auto, unfolding(crate::specs::MacBinary::mac_binary_of))]
    pub fn read(bytes: &'a [u8]) -> Option<MacBinary<'a>>
        ensures { option_map mac_binary_seen result ≡ mac_binary_of bytes.entry.now }
    {
        let cut = Cut::new(bytes);
        let header = read_header(cut)?;
        if !has_shape(header) {
            return None;
        }
        let is_first_version = all_zero(cut.part(COMMENT_LENGTH_AT, 29)?.bytes());
        let crc_is_right = crc_is_right(cut.part(0, CRC_AT)?.bytes(), header);
        let cuts = cuts_in(cut, header);
        if !(crc_is_right || is_marked(header) || is_first_version && has_forks(cuts)) {
            return None;
        }
        Some(MacBinary {
            header,
            is_first_version,
            fault: fault_among(crc_is_right, is_first_version),
            name: part_in(cut, NAME_AT, usize::from(header.name_length))?,
            data_fork: part_within(bytes, data_fork_at(header), header.data_length as usize),
            resource_fork: part_within(
                bytes,
                resource_fork_at(header),
                header.resource_length as usize,
            ),
            comment: comment_in(cut, header),
            cuts,
        })
    }

    /// Returns where the last part of the file ends, with the zeros that follow it.
    pub fn end(&self) -> usize
        ensures { result ≡ end_of self.now.header }
    {
        end_of(self.header)
    }

    /// Returns the fields of the header that are the Finder's.
    pub fn finder(&self) -> FinderInfo
        ensures { result ≡ finder_in self.now.header }
    {
        finder_in(self.header)
    }
}

/// Returns the fields of a header that are the Finder's.
fn finder_in(header: MacBinaryHeader) -> FinderInfo
    ensures { result ≡ finder_in header }
{
    let high = u16::from(header.finder_flags_high);
    FinderInfo {
        file_type: header.file_type,
        creator: header.creator,
        flags: high * 256 + u16::from(header.extension.finder_flags_low),
        vertical: header.vertical,
        horizontal: header.horizontal,
        window: header.window,
    }
}

/// Reads a header, or returns `None` if it passes the end.
#[tactic(auto, unfolding(crate::specs::MacBinary::header_of))]
fn read_header(cut: Cut<'_>) -> Option<MacBinaryHeader>
    ensures { result ≡ header_of cut.entry.bytes.now }
{
    Some(MacBinaryHeader {
        zero_1: cut.u8_at(ZERO_1_AT)?,
        name_length: cut.u8_at(NAME_LENGTH_AT)?,
        file_type: cut.u32_at(FILE_TYPE_AT)?,
        creator: cut.u32_at(CREATOR_AT)?,
        finder_flags_high: cut.u8_at(FINDER_FLAGS_HIGH_AT)?,
        zero_2: cut.u8_at(ZERO_2_AT)?,
        vertical: cut.i16_at(VERTICAL_AT)?,
        horizontal: cut.i16_at(HORIZONTAL_AT)?,
        window: cut.u16_at(WINDOW_AT)?,
        protected: cut.u8_at(PROTECTED_AT)?,
        zero_3: cut.u8_at(ZERO_3_AT)?,
        data_length: cut.u32_at(DATA_LENGTH_AT)?,
        resource_length: cut.u32_at(RESOURCE_LENGTH_AT)?,
        created: cut.u32_at(CREATED_AT)?,
        modified: cut.u32_at(MODIFIED_AT)?,
        extension: read_extension(cut)?,
    })
}

/// Reads the fields after the dates, or returns `None` if they pass the end.
#[tactic(auto, unfolding(crate::specs::MacBinary::extension_of))]
fn read_extension(cut: Cut<'_>) -> Option<MacBinaryExtension>
    ensures { result ≡ extension_of cut.entry.bytes.now }
{
    Some(MacBinaryExtension {
        comment_length: cut.u16_at(COMMENT_LENGTH_AT)?,
        finder_flags_low: cut.u8_at(FINDER_FLAGS_LOW_AT)?,
        signature: cut.u32_at(SIGNATURE_AT)?,
        script: cut.u8_at(SCRIPT_AT)?,
        extended_flags: cut.u8_at(EXTENDED_FLAGS_AT)?,
        unpacked_length: cut.u32_at(UNPACKED_LENGTH_AT)?,
        second_header_length: cut.u16_at(SECOND_HEADER_LENGTH_AT)?,
        version: cut.u8_at(VERSION_AT)?,
        least_version: cut.u8_at(LEAST_VERSION_AT)?,
        crc: cut.u16_at(CRC_AT)?,
        reserved: cut.u16_at(RESERVED_AT)?,
    })
}

/// Returns whether the three bytes that have to be 0 are, and the name and each fork have a possible
/// length.
fn has_shape(header: MacBinaryHeader) -> bool
    ensures { result ≡ has_shape header }
{
    header.zero_1 == 0
        && header.zero_2 == 0
        && header.zero_3 == 0
        && header.name_length >= 1
        && header.name_length <= MAX_NAME_LENGTH
        && header.data_length < FORK_LENGTH_LIMIT
        && header.resource_length < FORK_LENGTH_LIMIT
}

/// Returns whether all of some bytes are 0.
fn all_zero(bytes: &[u8]) -> bool
    ensures { result ≡ all_zero bytes.now }
{
    for byte in bytes {
        if *byte != 0 {
            return false;
        }
    }
    true
}

/// Returns whether the header has the CRC of the bytes before it.
fn crc_is_right(bytes: &[u8], header: MacBinaryHeader) -> bool
    ensures { result ≡ crc_is_right bytes.now header }
{
    crc_16(bytes) == header.extension.crc
}

/// Returns whether the header says that it is of MacBinary II or III.
fn is_marked(header: MacBinaryHeader) -> bool
    ensures { result ≡ is_marked header }
{
    let extension = header.extension;
    extension.signature == MAC_BINARY_3
        || extension.version == VERSION_2
        || extension.version == VERSION_3
}

/// Returns the errors of the parts of a file that pass the end.
fn cuts_in(cut: Cut<'_>, header: MacBinaryHeader) -> MacBinaryCuts
    ensures { result ≡ cuts_in cut.entry.bytes.now header }
{
    let data_fork = part_in(cut, data_fork_at(header), header.data_length as usize);
    let resource_fork = part_in(
        cut,
        resource_fork_at(header),
        header.resource_length as usize,
    );
    MacBinaryCuts {
        data_fork: cut_of(ForkFault::DataForkCut, data_fork),
        resource_fork: cut_of(ForkFault::ResourceForkCut, resource_fork),
        comment: cut_of(ForkFault::CommentCut, comment_in(cut, header)),
    }
}

/// Returns the error of a part, if it passes the end.
fn cut_of(fault: ForkFault, part: Option<ForkBytes<'_>>) -> Option<ForkFault>
    ensures { result ≡ cut_of fault (option_map part_seen part.entry) }
{
    match part {
        Some(_) => None,
        None => Some(fault),
    }
}

/// Returns whether both forks are there.
fn has_forks(cuts: MacBinaryCuts) -> bool
    ensures { result ≡ has_forks cuts }
{
    cuts.data_fork.is_none() && cuts.resource_fork.is_none()
}

/// Returns the comment, or `None` if it passes the end.
fn comment_in<'a>(cut: Cut<'a>, header: MacBinaryHeader) -> Option<ForkBytes<'a>>
    ensures { option_map part_seen result ≡ part_in cut.entry.bytes.now (comment_from header) header.extension.comment_length }
{
    part_in(
        cut,
        comment_at(header),
        usize::from(header.extension.comment_length),
    )
}

/// Returns the error of a CRC that is there and wrong.
fn fault_among(crc_is_right: bool, is_first_version: bool) -> Option<ForkFault>
    ensures { result ≡ fault_among crc_is_right is_first_version }
{
    if crc_is_right || is_first_version {
        None
    } else {
        Some(ForkFault::BadMacBinaryCrc)
    }
}

/// Returns a length with the zeros that follow it.
fn padded(len: usize) -> usize
    requires { len < 2 ^ 32 }
    ensures value { result ≡ padded len }
    ensures small { result < len + 128 }
{
    (len + MAC_BINARY_BLOCK - 1) / MAC_BINARY_BLOCK * MAC_BINARY_BLOCK
}

/// Returns where the data fork begins: after both headers.
fn data_fork_at(header: MacBinaryHeader) -> usize
    ensures value { result ≡ data_fork_from header }
    ensures small { result < 2 ^ 17 }
{
    MAC_BINARY_BLOCK + padded(usize::from(header.extension.second_header_length))
}

/// Returns where the resource fork begins.
fn resource_fork_at(header: MacBinaryHeader) -> usize
    ensures value { result ≡ resource_fork_from header }
    ensures small { result < 2 ^ 33 }
{
    data_fork_at(header) + padded(header.data_length as usize)
}

/// Returns where the comment begins.
fn comment_at(header: MacBinaryHeader) -> usize
    ensures value { result ≡ comment_from header }
    ensures small { result < 2 ^ 34 }
{
    resource_fork_at(header) + padded(header.resource_length as usize)
}

/// Returns where the comment ends, with the zeros that follow it.
fn end_of(header: MacBinaryHeader) -> usize
    ensures { result ≡ end_of header }
{
    comment_at(header) + padded(usize::from(header.extension.comment_length))
}
