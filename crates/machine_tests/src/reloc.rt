use pef_reloc::{Base, Fixup, Instr, Program, apply, encode, fixups_fit};
use std::process::Abort;

/// The bytes of a program, and the number of its refusal when it is read, 0 for none.
const READ: &[(&[u8], u32)] = &[
    (&[0x42, 0x00, 0x90, 0x01, 0x90, 0x01], 35),
    (&[0x42, 0x00, 0x91, 0x00], 33),
    (&[0xA0, 0x00, 0x00, 0x00, 0x90, 0x00], 34),
    (&[0xA0, 0x00], 32),
    (&[0x4C, 0x00], 31),
    (&[0xB4, 0xC0, 0x00, 0x00], 31),
    // Four instructions, 4,194,303 times four more, and the repeat itself: 16,777,217 steps.
    (
        &[
            0x80, 0x00, 0x80, 0x00, 0x80, 0x00, 0x80, 0x00, 0xB0, 0xFF, 0xFF, 0xFF,
        ],
        36,
    ),
    (MOST_STEPS, 0),
];

/// Four instructions, 4,194,302 times four more, and the repeat itself: 16,777,213 steps.
const MOST_STEPS: &[u8] = &[
    0x80, 0x00, 0x80, 0x00, 0x80, 0x00, 0x80, 0x00, 0xB0, 0xFF, 0xFF, 0xFE,
];

fn read_refusal(bytes: &[u8]) -> u32 {
    match Program::read(bytes) {
        Ok(_) => 0,
        Err(fault) => fault.number(),
    }
}

#[test]
fn programs_read(rt: HostRuntime) {
    for (bytes, number) in READ {
        assert!(rt; read_refusal(bytes) == *number, "{bytes:?}");
    }
}

/// A program's bytes, memory, the addresses of sections, and then the number of the refusal, 0 for none, and the memory after it.
/// There are no imports.
type Applied = (
    &'static [u8],
    &'static [u8],
    &'static [u32],
    u32,
    &'static [u8],
);

const ZEROS: &[u8] = &[0; 4];

const SECTIONS: &[u32] = &[0x100, 0x200];

const APPLIED: &[Applied] = &[
    (
        &[0x42, 0x00, 0x90, 0x01],
        &[0; 12],
        SECTIONS,
        0,
        &[0, 0, 2, 0, 0, 0, 2, 0, 0, 0, 2, 0],
    ),
    (
        &[0x42, 0x00, 0xB0, 0x00, 0x00, 0x00],
        ZEROS,
        SECTIONS,
        0,
        &[0, 0, 2, 0],
    ),
    // The additions before a refusal are kept.
    (
        &[0x42, 0x00, 0xB0, 0x3F, 0xFF, 0xFF],
        ZEROS,
        SECTIONS,
        37,
        &[0, 0, 2, 0],
    ),
    (&[0x66, 0x07], ZEROS, SECTIONS, 39, ZEROS),
    (&[0x40, 0x00], &[0; 3], SECTIONS, 37, &[0; 3]),
    (&[0x4A, 0x00], ZEROS, SECTIONS, 38, ZEROS),
    (&[0x62, 0x07], ZEROS, SECTIONS, 39, ZEROS),
    // A register with its start value adds 0 if there is no such section.
    (&[0x42, 0x00], &[1, 2, 3, 4], &[], 0, &[1, 2, 3, 4]),
    (MOST_STEPS, &[], &[], 0, &[]),
];

/// Reads a program and applies it.
fn applied(bytes: &[u8], memory: &mut [u8], sections: &[u32]) -> u32 {
    match Program::read(bytes) {
        Ok(program) => match apply(&program, memory, sections, &[]) {
            Ok(()) => 0,
            Err(fault) => fault.number(),
        },
        Err(fault) => fault.number(),
    }
}

/// Tests what a program makes of memory.
fn test_applied(rt: &impl Abort, row: Applied) {
    let (bytes, before, sections, number, after) = row;
    let mut room = [0; 12];
    assert!(rt; before.len() <= 12);
    let memory = &mut room[..before.len()];
    memory.copy_from_slice(before);
    assert!(rt; applied(bytes, memory, sections) == number, "{bytes:?}");
    assert!(rt; &*memory == after, "{bytes:?}");
}

#[test]
fn programs_applied(rt: HostRuntime) {
    for row in APPLIED {
        test_applied(&rt, *row);
    }
}

#[test]
fn encoded(rt: HostRuntime) {
    let instr = Instr::TVector8(2);
    assert!(rt; instr.fits());
    let bytes = encode(rt.alloc(), &[instr]).expect(&rt, "memory");
    assert!(rt; bytes.as_slice() == [0x46, 0x01].as_slice());
}

/// Appends fixups of section 1 in a row.
fn push_fixups(rt: &impl Abort, fixups: &mut Vec<Fixup>, count: u32) {
    for i in 0..count {
        let fixup = Fixup {
            offset: i.wrapping_mul(4),
            base: Base::Section(1),
        };
        fixups.push(fixup).expect(rt, "memory");
    }
}

/// There may be 65,536 fixups, and not one more.
#[test]
fn most_fixups(rt: HostRuntime) {
    for (count, fit) in [(65_536, true), (65_537, false)] {
        let mut fixups = Vec::new(rt.alloc());
        push_fixups(&rt, &mut fixups, count);
        assert!(rt; fixups_fit(&fixups) == fit);
    }
}
