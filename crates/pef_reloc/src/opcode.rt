//! The opcodes of the relocation instructions (`PEFBinaryFormat.h`, `kPEFRelocBySectDWithSkip` and those
//! after it), grouped by how many high bits of the first halfword they take.

/// Four bits. The opcodes below `SKIP_END` are a skip's two bits, with two bits of its number.
pub(crate) const SKIP_END: u16 = 0x4;

pub(crate) const INCR_POSITION: u16 = 0x8;

pub(crate) const SM_REPEAT: u16 = 0x9;

/// Seven bits, with a nine-bit number after them.
pub(crate) const BY_SECT_C: u16 = 0x20;

pub(crate) const BY_SECT_D: u16 = 0x21;

pub(crate) const T_VECTOR_12: u16 = 0x22;

pub(crate) const T_VECTOR_8: u16 = 0x23;

pub(crate) const V_TABLE_8: u16 = 0x24;

pub(crate) const IMPORT_RUN: u16 = 0x25;

pub(crate) const SM_BY_IMPORT: u16 = 0x30;

pub(crate) const SM_SET_SECT_C: u16 = 0x31;

pub(crate) const SM_SET_SECT_D: u16 = 0x32;

pub(crate) const SM_BY_SECTION: u16 = 0x33;

/// Six bits, of instructions of two halfwords.
pub(crate) const SET_POSITION: u16 = 0x28;

pub(crate) const LG_BY_IMPORT: u16 = 0x29;

pub(crate) const LG_REPEAT: u16 = 0x2C;

pub(crate) const LG_SET_OR_BY_SECTION: u16 = 0x2D;

/// The four bits after the last of them.
pub(crate) const LG_BY_SECTION: u16 = 0;

pub(crate) const LG_SET_SECT_C: u16 = 1;

pub(crate) const LG_SET_SECT_D: u16 = 2;

/// How many numbers can follow this many high bits of a halfword. So a halfword divided by this gives
/// these bits, and the remainder is the number after them.
pub(crate) const BEHIND_FOUR_BITS: u16 = 0x1000;

pub(crate) const BEHIND_SIX_BITS: u16 = 0x400;

pub(crate) const BEHIND_SEVEN_BITS: u16 = 0x200;

pub(crate) const BEHIND_EIGHT_BITS: u16 = 0x100;

pub(crate) const BEHIND_TEN_BITS: u16 = 0x40;

/// How many numbers four bits can hold.
pub(crate) const FOUR_BITS: u16 = 16;
