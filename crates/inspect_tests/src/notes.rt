use pef_inspect::{Cause, Finding, Note, find_more_notes, find_notes};
use test_data::changes::with_words;
use test_data::containers::{RICH, SPELLED, TWICE, VECTORS_LEAST};

/// A note: its number, its offset, and the length or the word that it has.
type Noted = (u32, usize, u64);

/// What is changed of a container, the notes that `find_notes` then finds, and those of `find_more_notes`.
type Oddity = (
    &'static [u8],
    &'static [(usize, u32)],
    &'static [Noted],
    &'static [Noted],
);

const ODDITIES: &[Oddity] = &[
    (VECTORS_LEAST, &[], &[], &[]),
    (VECTORS_LEAST, &[(36, 1)], &[(101, 36, 0)], &[]),
    // Both oldest versions.
    (
        VECTORS_LEAST,
        &[(20, 2), (24, 3)],
        &[(104, 20, 0), (104, 24, 0)],
        &[],
    ),
    // The kind, the share and the reserved byte of the code.
    (
        VECTORS_LEAST,
        &[(64, 0x0902_0401)],
        &[(102, 64, 0), (103, 65, 0), (101, 67, 0)],
        &[],
    ),
    // The end of a section isn't past it.
    (VECTORS_LEAST, &[(164, 16)], &[], &[]),
    (
        VECTORS_LEAST,
        &[(164, 17), (168, 1), (172, 17), (176, 0), (180, 9)],
        &[(105, 164, 0), (105, 172, 0), (105, 180, 0)],
        &[],
    ),
    // The relocation header.
    (VECTORS_LEAST, &[(216, 0x0001_0005)], &[(101, 218, 0)], &[]),
    (VECTORS_LEAST, &[(244, 17)], &[(106, 244, 0)], &[]),
    // An image of 8 bytes, and words up to 16.
    (VECTORS_LEAST, &[(80, 8)], &[(107, 228, 8)], &[]),
    // A key that isn't the hash word of its name.
    (VECTORS_LEAST, &[(236, 0x0002_00A2)], &[(108, 204, 0)], &[]),
    // The loader section ends before the container, and in its exports, so that nothing has the name at 230.
    (
        VECTORS_LEAST,
        &[(112, 80)],
        &[],
        &[(109, 240, 10), (113, 230, 2)],
    ),
    // The code's raw bytes are 24, and those of the data begin 16 bytes after theirs.
    (VECTORS_LEAST, &[(56, 24)], &[], &[(112, 88, 8)]),
    // A byte between the images that isn't 0.
    (VECTORS_LEAST, &[(136, 0x0100_0000)], &[], &[(113, 136, 8)]),
    (SPELLED, &[], &[(107, 190, 12)], &[]),
    // Both additions are to the word at 4.
    (SPELLED, &[(188, 0x0004_6600)], &[], &[(114, 180, 4)]),
    // The second program adds to the words at 0 and 4, the first one to that at 4.
    (TWICE, &[], &[], &[(114, 198, 4)]),
    // 512 words, and 2,048 times 512 more. The last three halfwords are no program's.
    (
        SPELLED,
        &[(172, 3), (180, 0x41FF_B000), (184, 0x0800_0000)],
        &[(107, 180, 8)],
        &[(113, 186, 6), (110, 168, 0)],
    ),
    // The two sections at 219 share three bytes, and the program goes back to the word at 4. The nameOffset of section 5 is 7FFFFFFF (hex).
    (
        RICH,
        &[],
        &[(121, 180, 0), (107, 377, 4)],
        &[(112, 172, 3), (114, 377, 4)],
    ),
    // The first library's current version, and its reserved bytes.
    (
        RICH,
        &[(301, 1), (313, 7)],
        &[(121, 180, 0), (104, 297, 0), (101, 314, 0), (107, 377, 4)],
        &[(112, 172, 3), (114, 377, 4)],
    ),
];

fn value(finding: &Finding) -> u64 {
    match finding.cause {
        Cause::Note(note) => match note {
            Note::WordOutsideImage { word } | Note::WordRelocatedTwice { word } => word,
            Note::TrailingBytes { length }
            | Note::Overlap { length }
            | Note::UnownedBytes { length } => length as u64,
            _ => 0,
        },
        _ => 0,
    }
}

fn are_noted(found: &[Finding], wanted: &[Noted]) -> bool {
    if found.len() != wanted.len() {
        return false;
    }
    for (finding, (number, offset, wanted)) in found.iter().zip(wanted) {
        if finding.is_error()
            || finding.number() != *number
            || finding.place.offset != Some(*offset)
            || value(finding) != *wanted
        {
            return false;
        }
    }
    true
}

#[test]
fn oddities_are_noted(rt: HostRuntime) {
    for (container, words, notes, _) in ODDITIES {
        let bytes = with_words(rt.alloc(), container, words).expect(&rt, "a change");
        let mut found = Vec::new(rt.alloc());
        find_notes(&bytes, &mut found).expect(&rt, "memory");
        assert!(rt; are_noted(&found, notes));
    }
}

#[test]
fn oddities_of_more_memory_are_noted(rt: HostRuntime) {
    for (container, words, _, notes) in ODDITIES {
        let bytes = with_words(rt.alloc(), container, words).expect(&rt, "a change");
        let found = find_more_notes(rt.alloc(), &bytes).expect(&rt, "memory");
        assert!(rt; are_noted(&found, notes));
    }
}
