//! Numbers of the format: sizes and offsets in bytes, and codes. The names in brackets are those of `CodeFragments.h`.

/// The length of the table's header (CFragResource). The first member follows.
pub(crate) const TABLE_HEADER_SIZE: usize = 32;

pub(crate) const TABLE_VERSION_AT: usize = 10;

pub(crate) const MEMBER_COUNT_AT: usize = 30;

/// The only version of the table (kCurrCFragResourceVersion).
pub(crate) const TABLE_VERSION: u16 = 1;

/// The length of a member's fields (CFragResourceMember). Its name follows.
pub(crate) const MEMBER_FIELDS_SIZE: u16 = 42;

pub(crate) const ARCHITECTURE_AT: usize = 0;

pub(crate) const RESERVED_1_AT: usize = 4;

pub(crate) const RESERVED_2_AT: usize = 6;

pub(crate) const UPDATE_LEVEL_AT: usize = 7;

pub(crate) const CURRENT_VERSION_AT: usize = 8;

pub(crate) const OLD_DEF_VERSION_AT: usize = 12;

pub(crate) const STACK_SIZE_AT: usize = 16;

pub(crate) const DIRECTORY_OR_FLAGS_AT: usize = 20;

pub(crate) const USAGE_AT: usize = 22;

pub(crate) const WHERE_AT: usize = 23;

pub(crate) const OFFSET_AT: usize = 24;

pub(crate) const LENGTH_AT: usize = 28;

pub(crate) const SPACE_ID_AT: usize = 32;

pub(crate) const FORK_INSTANCE_AT: usize = 36;

pub(crate) const EXTENSION_COUNT_AT: usize = 38;

pub(crate) const MEMBER_SIZE_AT: usize = 40;

pub(crate) const NAME_AT: usize = 42;

/// What a member is for (kImportLibraryCFrag and the four after it).
pub(crate) const IMPORT_LIBRARY: u8 = 0;

pub(crate) const APPLICATION: u8 = 1;

pub(crate) const DROP_IN_ADDITION: u8 = 2;

pub(crate) const STUB_LIBRARY: u8 = 3;

pub(crate) const WEAK_STUB_LIBRARY: u8 = 4;

/// Where a member's container is (kMemoryCFragLocator, kDataForkCFragLocator, kResourceCFragLocator).
pub(crate) const IN_MEMORY: u8 = 0;

pub(crate) const IN_DATA_FORK: u8 = 1;

pub(crate) const IN_RESOURCE: u8 = 2;

/// The first eight bytes of a container, and the length of its header.
pub(crate) const CONTAINER_TAGS: [u8; 8] = [0x4A, 0x6F, 0x79, 0x21, 0x70, 0x65, 0x66, 0x66];

pub(crate) const CONTAINER_HEADER_SIZE: usize = 40;

/// The resource of a table of fragments: `cfrg` 0 (kCFragResourceType, kCFragResourceID).
pub(crate) const FRAGMENT_TABLE_TYPE: u32 = 0x6366_7267;

pub(crate) const FRAGMENT_TABLE_ID: i16 = 0;

/// The architecture of CFM-68K, `m68k` (kMotorola68KCFragArch).
pub(crate) const CFM_68K: u32 = 0x6D36_386B;
