use mac_forks::{ForkBytes, ForkFault};
use std::alloc::Global;
use test_data::changes::{At, change};

/// Bytes, and the offset in a file that they are written at.
pub(crate) type Written = (usize, &'static [u8]);

/// Returns a file of zeros with some bytes written, one after another. `None` if one passes the end, or an allocation fails.
pub(crate) fn written(alloc: Global, len: usize, parts: &[Written]) -> Option<Vec<u8>> {
    let mut file = vec![in alloc; 0u8; len].ok()?;
    write(&mut file, parts)?;
    Some(file)
}

/// Writes bytes into a file. `None` if one passes the end.
pub(crate) fn write(file: &mut [u8], parts: &[Written]) -> Option<()> {
    for (at, bytes) in parts {
        change(file, At::Front(*at), bytes)?;
    }
    Some(())
}

/// Returns a file with other bytes written over it.
pub(crate) fn rewritten(
    alloc: Global,
    len: usize,
    parts: &[Written],
    changes: &[Written],
) -> Option<Vec<u8>> {
    let mut file = written(alloc, len, parts)?;
    write(&mut file, changes)?;
    Some(file)
}

/// Returns whether a part is there, begins at an offset and has some bytes.
pub(crate) fn is_part(
    part: Option<Result<ForkBytes<'_>, ForkFault>>,
    offset: usize,
    bytes: &[u8],
) -> bool {
    match part {
        Some(Ok(part)) => part.offset == offset && part.bytes == bytes,
        _ => false,
    }
}

/// Returns the error of a part, or `None` if it is there or there is none.
pub(crate) fn part_fault(part: Option<Result<ForkBytes<'_>, ForkFault>>) -> Option<ForkFault> {
    match part {
        Some(Err(fault)) => Some(fault),
        _ => None,
    }
}

/// A file in MacBinary III of 512 bytes. The CRC is that of the 124 bytes before it, as Python's `binascii.crc_hqx` has it.
pub(crate) const MAC_BINARY: &[Written] = &[
    (1, b"\x04Calc"),
    (65, b"APPLCalc"),
    (73, b"\x21"),
    (75, b"\xFF\xFE\x00\x14\x00\x07"),
    (81, b"\x01"),
    (83, b"\x00\x00\x00\x05\x00\x00\x00\x03"),
    (91, b"\xB0\x00\x00\x01\xB0\x00\x00\x02"),
    (99, b"\x00\x02"),
    (101, b"\x40"),
    (102, b"mBIN\x01\x80"),
    (116, b"\x00\x00\x01\x00"),
    (120, b"\x00\x00\x82\x81"),
    (124, b"\x9B\xDF"),
    (128, b"DATA!"),
    (256, b"RES"),
    (384, b"Hi"),
];

pub(crate) const MAC_BINARY_LEN: usize = 512;

/// A file in AppleSingle of 201 bytes with nine entries: the name, Finder information, the data fork, the resource fork, a
/// second data fork, an entry of an unknown id, dates, attributes and the comment. The rows end at 134.
pub(crate) const APPLE: &[Written] = &[
    (
        0,
        b"\x00\x05\x16\x00\x00\x02\x00\x00Macintosh       \x00\x09",
    ),
    (26, b"\x00\x00\x00\x03\x00\x00\x00\x86\x00\x00\x00\x04"),
    (38, b"\x00\x00\x00\x09\x00\x00\x00\x8A\x00\x00\x00\x20"),
    (50, b"\x00\x00\x00\x01\x00\x00\x00\xAA\x00\x00\x00\x05"),
    (62, b"\x00\x00\x00\x02\x00\x00\x00\xAF\x00\x00\x00\x03"),
    (74, b"\x00\x00\x00\x01\x00\x00\x00\xB2\x00\x00\x00\x01"),
    (86, b"\x00\x00\x00\x0F\xFF\xFF\xFF\xFF\x00\x00\x00\x00"),
    (98, b"\x00\x00\x00\x08\x00\x00\x00\xB3\x00\x00\x00\x10"),
    (110, b"\x00\x00\x00\x0A\x00\x00\x00\xC3\x00\x00\x00\x04"),
    (122, b"\x00\x00\x00\x04\x00\x00\x00\xC7\x00\x00\x00\x02"),
    (134, b"Calc"),
    (138, b"APPLCalc\x21\x40\xFF\xFE\x00\x14\x00\x07"),
    (170, b"DATA!"),
    (175, b"RES"),
    (178, b"?"),
    (
        179,
        b"\x00\x00\x00\x01\xFF\xFF\xFF\xFE\x80\x00\x00\x00\x00\x00\x01\x00",
    ),
    (195, b"\x80\x00\x00\x01"),
    (199, b"Hi"),
];

pub(crate) const APPLE_LEN: usize = 201;

/// A resource fork of 127 bytes. The data are at 16, 19 bytes, and the map is at 40, 87 bytes. The type list is at 28 of the
/// map: `CODE` has one resource, whose reference is at 46, and `TEXT` has two, at 58 and 70. The names are at 82.
pub(crate) const RESOURCES: &[Written] = &[
    (
        0,
        b"\x00\x00\x00\x10\x00\x00\x00\x28\x00\x00\x00\x13\x00\x00\x00\x57",
    ),
    (
        16,
        b"\x00\x00\x00\x04abcd\x00\x00\x00\x00\x00\x00\x00\x03xyz",
    ),
    (
        40,
        b"\x00\x00\x00\x10\x00\x00\x00\x28\x00\x00\x00\x13\x00\x00\x00\x57",
    ),
    (56, b"\x01\x02\x03\x04\x00\x05\x00\x80\x00\x1C\x00\x52"),
    (68, b"\x00\x01CODE\x00\x00\x00\x12TEXT\x00\x01\x00\x1E"),
    (86, b"\x00\x00\xFF\xFF\x00\x00\x00\x00\x00\x00\x00\x09"),
    (98, b"\xFF\xFF\x00\x00\x01\x00\x00\x08\x00\x00\x00\x00"),
    (110, b"\x00\x80\x00\x04\x20\x00\x00\x0C\x00\x00\x00\x00"),
    (122, b"\x03one\x00"),
];

pub(crate) const RESOURCES_LEN: usize = 127;

/// A table of three fragments, 242 bytes: `Calc` at 32 with an extension of 8 bytes and a byte of padding, `Lib` at 88 over
/// the same bytes of the data fork, and one of 63 letters at 136 in a resource.
pub(crate) const FRAGMENTS: &[Written] = &[
    (10, b"\x00\x01"),
    (30, b"\x00\x03"),
    (
        32,
        b"pwpc\x12\x34\x56\x07\x01\x20\x60\x03\x01\x00\x80\x00\x00\x01\x00\x00",
    ),
    (
        52,
        b"\x00\x05\x01\x01\x00\x00\x00\x00\x00\x00\x00\x00\x00\x00\x00\x09\x00\x08",
    ),
    (70, b"\x00\x01\x00\x38\x04Calc"),
    (88, b"pwpc"),
    (108, b"\x00\x00\x00\x01"),
    (128, b"\x00\x30\x03Lib"),
    (136, b"m68k"),
    (158, b"\x02\x02ndrv\x00\x00\x00\x80"),
    (176, b"\x00\x6A\x3F"),
    (
        179,
        b"ABCDEFGHIJKLMNOPQRSTUVWXYZABCDEFGHIJKLMNOPQRSTUVWXYZABCDEFGHIJK",
    ),
];

pub(crate) const FRAGMENTS_LEN: usize = 242;
