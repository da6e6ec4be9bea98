//! The structs of `include/pef.h` for files of the classic Mac OS, field by field.

/// A part of a file, or its error. An error is 0 if the part is there, and 201 if the file doesn't have it.
#[repr(C)]
#[derive(Clone, Copy, Debug)]
pub struct PefPart<'a> {
    pub bytes: &'a [u8],
    pub offset: usize,
    pub error_offset: usize,
    pub error: u32,
}

/// What the Finder knows of a file, or the error of its entry.
#[repr(C)]
#[derive(Clone, Copy, Debug, PartialEq, Eq)]
pub struct PefFinder {
    pub error_offset: usize,
    pub error: u32,
    pub file_type: u32,
    pub creator: u32,
    pub flags: u16,
    pub vertical: i16,
    pub horizontal: i16,
    pub window: u16,
}

/// The parts of a file of the classic Mac OS, and the error of its header.
#[repr(C)]
#[derive(Clone, Copy, Debug)]
pub struct PefForks<'a> {
    pub data_fork: PefPart<'a>,
    pub resource_fork: PefPart<'a>,
    pub name: PefPart<'a>,
    pub comment: PefPart<'a>,
    pub finder: PefFinder,
    pub error_offset: usize,
    pub error: u32,
    pub kind: u32,
}

/// The header and the map of a resource fork, and the error of a map that passes its end.
#[repr(C)]
#[derive(Clone, Copy, Debug, PartialEq, Eq)]
pub struct PefResourceMap {
    pub error_offset: usize,
    pub error: u32,
    pub data_offset: u32,
    pub map_offset: u32,
    pub data_length: u32,
    pub map_length: u32,
    pub attributes: u16,
    pub type_count: u16,
}

/// A resource, or its error.
#[repr(C)]
#[derive(Clone, Copy, Debug)]
pub struct PefResource<'a> {
    pub name: &'a [u8],
    pub bytes: &'a [u8],
    pub offset: usize,
    pub error_offset: usize,
    pub name_error_offset: usize,
    pub error: u32,
    pub name_error: u32,
    pub type_code: u32,
    pub id: i16,
    pub type_row: u16,
    pub row: u16,
    pub attributes: u8,
}

/// A member of a table of fragments and its container in a data fork, or their errors.
#[repr(C)]
#[derive(Clone, Copy, Debug)]
pub struct PefMember<'a> {
    pub name: &'a [u8],
    pub container: &'a [u8],
    pub place: usize,
    pub error_offset: usize,
    pub name_error_offset: usize,
    pub container_error_offset: usize,
    pub error: u32,
    pub name_error: u32,
    pub container_error: u32,
    pub architecture: u32,
    pub current_version: u32,
    pub old_def_version: u32,
    pub stack_size: u32,
    pub offset: u32,
    pub length: u32,
    pub space_id: u32,
    pub directory_or_flags: u16,
    pub fork_instance: u16,
    pub extension_count: u16,
    pub size: u16,
    pub update_level: u8,
    pub usage: u8,
    pub locator: u8,
}
