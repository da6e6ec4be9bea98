//! A resource fork with three fragments, from the tables of the formats.

use crate::changes::{At, change};
use std::alloc::Global;

/// A resource fork of 273 bytes. The data are at 16: a table of fragments of 176 bytes, and a resource `ndrv` 128 of three
/// bytes. The table has `Calc` for CFM-68K at 52 and for PowerPC at 100, the 250 bytes from 8 of the data fork, and `Drv` at
/// 148, the resource `ndrv` 128. The map is at 203.
const FRAGMENT_FORK: &[(usize, &[u8])] = &[
    (
        0,
        b"\x00\x00\x00\x10\x00\x00\x00\xCB\x00\x00\x00\xBB\x00\x00\x00\x46",
    ),
    (16, b"\x00\x00\x00\xB0"),
    (30, b"\x00\x01"),
    (50, b"\x00\x03"),
    (52, b"m68k"),
    (75, b"\x01"),
    (92, b"\x00\x30\x04Calc"),
    (100, b"pwpc"),
    (123, b"\x01\x00\x00\x00\x08\x00\x00\x00\xFA"),
    (140, b"\x00\x30\x04Calc"),
    (148, b"pwpc"),
    (171, b"\x02ndrv\x00\x00\x00\x80"),
    (188, b"\x00\x30\x03Drv"),
    (196, b"\x00\x00\x00\x03drv"),
    (227, b"\x00\x1C\x00\x46"),
    (231, b"\x00\x01cfrg\x00\x00\x00\x12ndrv\x00\x00\x00\x1E"),
    (249, b"\x00\x00\xFF\xFF\x00\x00\x00\x00\x00\x00\x00\x00"),
    (261, b"\x00\x80\xFF\xFF\x00\x00\x00\xB4\x00\x00\x00\x00"),
];

const FRAGMENT_FORK_LEN: usize = 273;

/// Returns the resource fork with other bytes at some offsets. `None` if an allocation fails, or an offset is outside.
pub fn fragment_fork(alloc: Global, changes: &[(usize, &'static [u8])]) -> Option<Vec<u8>> {
    let mut fork = vec![in alloc; 0u8; FRAGMENT_FORK_LEN].ok()?;
    write(&mut fork, FRAGMENT_FORK)?;
    write(&mut fork, changes)?;
    Some(fork)
}

/// Writes bytes at some offsets.
fn write(bytes: &mut [u8], changes: &[(usize, &'static [u8])]) -> Option<()> {
    for (at, other) in changes {
        change(bytes, At::Front(*at), other)?;
    }
    Some(())
}
