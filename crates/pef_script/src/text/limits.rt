//! The limits of a script, and the groups of its lines (docs/SCRIPTS.md).

/// How many sections a script can have: those that a fixup can name.
pub const MAX_SECTIONS: usize = pef_reloc::MAX_SECTIONS as usize;

/// How many imports a script can have: those that a fixup can name.
pub const MAX_IMPORTS: usize = pef_reloc::MAX_IMPORTS as usize;

/// How many libraries a script can have.
pub const MAX_LIBRARIES: usize = 4096;

/// How many exports a script can have.
pub const MAX_EXPORTS: usize = 16_383;

/// How many bytes the names of libraries, imports and exports can have, counting one more for each.
pub const MAX_NAME_BYTES: usize = 8_388_608;

/// How many bytes a name can have.
pub const MAX_NAME: usize = 255;

/// The greatest alignment of a section, as an exponent of two.
pub const MAX_ALIGN: u32 = 12;

/// The most bytes of a section.
pub const MAX_TOTAL: u32 = 0x0100_0000;

/// The greatest number in a script.
pub const MAX_NUMBER: u32 = u32::MAX;

// The groups of lines. No line comes after one of a later group.

pub const VERSIONS_GROUP: u8 = 1;

pub const LIBRARY_GROUP: u8 = 2;

pub const SECTION_GROUP: u8 = 3;

pub const CONTENT_GROUP: u8 = 4;

pub const EXPORT_GROUP: u8 = 5;

pub const MAIN_GROUP: u8 = 6;

pub const INIT_GROUP: u8 = 7;

pub const TERM_GROUP: u8 = 8;
