//! Numbers of the format: sizes and offsets in bytes.

/// The length of the header.
pub(crate) const HEADER_SIZE: u32 = 16;

pub(crate) const DATA_OFFSET_AT: usize = 0;

pub(crate) const MAP_OFFSET_AT: usize = 4;

pub(crate) const DATA_LENGTH_AT: usize = 8;

pub(crate) const MAP_LENGTH_AT: usize = 12;

/// The length of the map's fields.
pub(crate) const MAP_FIELDS_SIZE: u16 = 28;

/// A map without types: its fields, and the number of types.
pub(crate) const LEAST_MAP_SIZE: u32 = 30;

/// Offsets in the map. It begins with a copy of the header.
pub(crate) const MAP_HANDLE_AT: usize = 16;

pub(crate) const FILE_NUMBER_AT: usize = 20;

pub(crate) const MAP_ATTRIBUTES_AT: usize = 22;

pub(crate) const TYPE_LIST_AT: usize = 24;

pub(crate) const NAME_LIST_AT: usize = 26;

/// The first type's row is this far from the start of the type list.
pub(crate) const TYPES_AT: usize = 2;

/// The length of a type's row, and offsets in it.
pub(crate) const TYPE_SIZE: usize = 8;

pub(crate) const CODE_AT: usize = 0;

pub(crate) const LAST_AT: usize = 4;

pub(crate) const REFERENCE_LIST_AT: usize = 6;

/// The length of a reference, and offsets in it.
pub(crate) const REFERENCE_SIZE: usize = 12;

pub(crate) const ID_AT: usize = 0;

pub(crate) const NAME_OFFSET_AT: usize = 2;

/// A byte of attributes, and three bytes of an offset.
pub(crate) const ATTRIBUTES_AT: usize = 4;

pub(crate) const REFERENCE_HANDLE_AT: usize = 8;

/// The offset of a name that says that there is none.
pub(crate) const NO_NAME: u16 = 0xFFFF;

/// A resource's bytes follow their length.
pub(crate) const LENGTH_SIZE: usize = 4;
