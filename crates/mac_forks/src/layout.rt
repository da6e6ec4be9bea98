//! Numbers of the formats: sizes and offsets in bytes, signatures and ids.

/// The length of a MacBinary header. Its parts begin at multiples of this.
pub(crate) const MAC_BINARY_BLOCK: usize = 128;

pub(crate) const ZERO_1_AT: usize = 0;

pub(crate) const NAME_LENGTH_AT: usize = 1;

pub(crate) const NAME_AT: usize = 2;

pub(crate) const FILE_TYPE_AT: usize = 65;

pub(crate) const CREATOR_AT: usize = 69;

pub(crate) const FINDER_FLAGS_HIGH_AT: usize = 73;

pub(crate) const ZERO_2_AT: usize = 74;

pub(crate) const VERTICAL_AT: usize = 75;

pub(crate) const HORIZONTAL_AT: usize = 77;

pub(crate) const WINDOW_AT: usize = 79;

pub(crate) const PROTECTED_AT: usize = 81;

pub(crate) const ZERO_3_AT: usize = 82;

pub(crate) const DATA_LENGTH_AT: usize = 83;

pub(crate) const RESOURCE_LENGTH_AT: usize = 87;

pub(crate) const CREATED_AT: usize = 91;

pub(crate) const MODIFIED_AT: usize = 95;

/// From here on, a header of MacBinary I has only zeros.
pub(crate) const COMMENT_LENGTH_AT: usize = 99;

pub(crate) const FINDER_FLAGS_LOW_AT: usize = 101;

pub(crate) const SIGNATURE_AT: usize = 102;

pub(crate) const SCRIPT_AT: usize = 106;

pub(crate) const EXTENDED_FLAGS_AT: usize = 107;

pub(crate) const UNPACKED_LENGTH_AT: usize = 116;

pub(crate) const SECOND_HEADER_LENGTH_AT: usize = 120;

pub(crate) const VERSION_AT: usize = 122;

pub(crate) const LEAST_VERSION_AT: usize = 123;

/// The CRC is that of the bytes before it.
pub(crate) const CRC_AT: usize = 124;

pub(crate) const RESERVED_AT: usize = 126;

/// The longest name.
pub(crate) const MAX_NAME_LENGTH: u8 = 63;

/// The lengths of forks are below this.
pub(crate) const FORK_LENGTH_LIMIT: u32 = 0x8000_0000;

/// The signature of MacBinary III, `mBIN`.
pub(crate) const MAC_BINARY_3: u32 = 0x6D42_494E;

/// The versions that MacBinary II and III write.
pub(crate) const VERSION_2: u8 = 129;

pub(crate) const VERSION_3: u8 = 130;

/// The signatures of AppleSingle and AppleDouble.
pub(crate) const APPLE_SINGLE: u32 = 0x0005_1600;

pub(crate) const APPLE_DOUBLE: u32 = 0x0005_1607;

/// The versions of these two formats.
pub(crate) const APPLE_VERSION_1: u32 = 0x0001_0000;

pub(crate) const APPLE_VERSION_2: u32 = 0x0002_0000;

pub(crate) const APPLE_SIGNATURE_AT: usize = 0;

pub(crate) const APPLE_VERSION_AT: usize = 4;

pub(crate) const APPLE_FILLER_AT: usize = 8;

pub(crate) const APPLE_FILLER_SIZE: usize = 16;

pub(crate) const APPLE_ENTRY_COUNT_AT: usize = 24;

pub(crate) const APPLE_ENTRIES_AT: usize = 26;

pub(crate) const APPLE_ENTRY_SIZE: usize = 12;

pub(crate) const ENTRY_ID_AT: usize = 0;

pub(crate) const ENTRY_OFFSET_AT: usize = 4;

pub(crate) const ENTRY_LENGTH_AT: usize = 8;

/// The ids of entries.
pub(crate) const DATA_FORK: u32 = 1;

pub(crate) const RESOURCE_FORK: u32 = 2;

pub(crate) const REAL_NAME: u32 = 3;

pub(crate) const COMMENT: u32 = 4;

pub(crate) const FILE_DATES: u32 = 8;

pub(crate) const FINDER_INFORMATION: u32 = 9;

pub(crate) const MACINTOSH_INFORMATION: u32 = 10;
