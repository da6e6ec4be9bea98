use pef_inspect::{
    Finding, Limits, find_errors, find_errors_within, find_more_notes_within, find_notes_within,
    left_after,
};
use pef_report::Inspection;
use std::alloc::{AllocError, Global};

/// A container with a data section of 16 bytes and a loader section, from 96 on, with five relocation headers. They are 12
/// bytes each, from 152 on, and have one program, at 212: four instructions that add nothing and a repeat of them, which
/// take 16,777,213 steps. The first one names a section that doesn't exist.
const STEPS: &[u8] = b"\
      \x4A\x6F\x79\x21\x70\x65\x66\x66\x70\x77\x70\x63\x00\x00\x00\x01\
      \x00\x00\x00\x00\x00\x00\x00\x00\x00\x00\x00\x00\x00\x00\x00\x00\
      \x00\x02\x00\x01\x00\x00\x00\x00\xFF\xFF\xFF\xFF\x00\x00\x00\x00\
      \x00\x00\x00\x10\x00\x00\x00\x00\x00\x00\x00\x00\x00\x00\x00\x00\
      \x01\x01\x04\x00\xFF\xFF\xFF\xFF\x00\x00\x00\x00\x00\x00\x00\x00\
      \x00\x00\x00\x00\x00\x00\x00\x80\x00\x00\x00\x60\x04\x04\x04\x00\
      \xFF\xFF\xFF\xFF\x00\x00\x00\x00\xFF\xFF\xFF\xFF\x00\x00\x00\x00\
      \xFF\xFF\xFF\xFF\x00\x00\x00\x00\x00\x00\x00\x00\x00\x00\x00\x00\
      \x00\x00\x00\x05\x00\x00\x00\x74\x00\x00\x00\x80\x00\x00\x00\x80\
      \x00\x00\x00\x00\x00\x00\x00\x00\x00\x00\x00\x00\x00\x00\x00\x06\
      \x00\x00\x00\x00\x00\x00\x00\x00\x00\x00\x00\x06\x00\x00\x00\x00\
      \x00\x00\x00\x00\x00\x00\x00\x06\x00\x00\x00\x00\x00\x00\x00\x00\
      \x00\x00\x00\x06\x00\x00\x00\x00\x00\x00\x00\x00\x00\x00\x00\x06\
      \x00\x00\x00\x00\x62\x09\x62\x00\x62\x00\x62\x00\xB0\xFF\xFF\xFE";

/// How many sections have the whole container as their packed data, in 40 + 28 * 3,100 = 86,840 bytes.
const SECTIONS: u16 = 3_100;

/// Returns the header of a container with these sections, and the section headers.
fn packed_sections(alloc: Global) -> Result<Vec<u8>, AllocError> {
    let mut bytes = Vec::from_slice(alloc, b"Joy!peffpwpc\x00\x00\x00\x01")?;
    bytes.extend_from_slice(&[0; 16])?;
    bytes.extend_from_slice(&SECTIONS.to_be_bytes())?;
    bytes.extend_from_slice(&SECTIONS.to_be_bytes())?;
    bytes.extend_from_slice(&[0; 4])?;
    for _ in 0..SECTIONS {
        bytes.extend_from_slice(&[0xFF; 4])?;
        bytes.extend_from_slice(&[0; 12])?;
        bytes.extend_from_slice(&86_840_u32.to_be_bytes())?;
        bytes.extend_from_slice(b"\x00\x00\x00\x00\x02\x01\x00\x00")?;
    }
    Ok(bytes)
}

fn are_at(found: &[Finding], number: u32, offset: usize) -> bool {
    for finding in found {
        if finding.number() != number || finding.place.offset != Some(offset) {
            return false;
        }
    }
    true
}

fn is_last(found: &[Finding], number: u32, offset: usize) -> bool {
    match found.last() {
        Some(finding) => finding.number() == number && finding.place.offset == Some(offset),
        None => false,
    }
}

/// Four programs ask for 67,108,852 of 67,108,864 steps, and the fifth isn't verified.
#[test]
fn programs_with_too_many_steps_are_noted(rt: HostRuntime) {
    let mut found = Vec::new(rt.alloc());
    find_errors(STEPS, &mut found).expect(&rt, "memory");
    assert!(rt;
        found.len() == 5 && are_at(&found[..4], 39, 212) && is_last(&found, 110, 152 + 4 * 12)
    );
}

/// 3,091 times 86,840 bytes are within 2^28, and the data of the next section isn't verified.
#[test]
fn too_many_packed_bytes_are_noted(rt: HostRuntime) {
    let bytes = packed_sections(rt.alloc()).expect(&rt, "memory");
    let mut found = Vec::new(rt.alloc());
    find_errors(&bytes, &mut found).expect(&rt, "memory");
    assert!(rt; is_last(&found, 111, 40 + 28 * 3_091 + 16));
}

/// Returns limits that are enough for two of the five programs, and for one word.
fn two_programs() -> Limits {
    Limits {
        program_bytes: 36,
        steps: 33_554_427,
        packed_bytes: 0,
        words: 1,
    }
}

/// Two programs have 33,554,426 steps, and the third isn't verified. All are read, with 60 bytes, if there are so many.
#[test]
fn programs_past_other_limits_are_noted(rt: HostRuntime) {
    let mut found = Vec::new(rt.alloc());
    find_errors_within(STEPS, two_programs(), &mut found).expect(&rt, "memory");
    assert!(rt;
        found.len() == 4
            && are_at(&found[1..3], 39, 212)
            && found[0].place.offset == Some(152 + 3 * 12)
            && is_last(&found, 110, 152 + 2 * 12)
    );
    found.clear();
    find_notes_within(STEPS, two_programs(), &mut found).expect(&rt, "memory");
    assert!(rt; found.len() == 0);
    let more = find_more_notes_within(rt.alloc(), STEPS, two_programs()).expect(&rt, "memory");
    assert!(rt; more.len() == 0);
}

/// Three programs of 12 bytes are read, and one step is left of those of two programs. No program adds to a word.
#[test]
fn limits_are_left(rt: HostRuntime) {
    let left = left_after(two_programs(), STEPS);
    assert!(rt;
        left.program_bytes == 0 && left.steps == 1 && left.packed_bytes == 0 && left.words == 1
    );
    let left = left_after(Limits::for_container(), STEPS);
    assert!(rt; left.program_bytes == 0x0400_0000 - 60 && left.steps == 12);
    assert!(rt; left.packed_bytes == 0x1000_0000 && left.words == 0x0010_0000);
}

/// Returns how many notes an inspection of the five programs has within limits.
fn notes_within(alloc: Global, limits: Limits) -> Result<u64, AllocError> {
    Ok(Inspection::read_within(alloc, 0, STEPS, limits)?.note_count())
}

#[test]
fn inspections_keep_limits(rt: HostRuntime) {
    let some = notes_within(rt.alloc(), two_programs()).expect(&rt, "memory");
    assert!(rt; some == 2);
    let more = Limits {
        program_bytes: 60,
        steps: 83_886_065,
        packed_bytes: 0,
        words: 0,
    };
    let none = notes_within(rt.alloc(), more).expect(&rt, "memory");
    assert!(rt; none == 0);
}
