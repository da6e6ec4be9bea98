use pef_views::{Container, ViewFault};
use test_data::changes::with_words;
use test_data::containers::VECTORS_BYTES as BYTES;

/// Returns the fault of a container, or `None` if it is read.
fn container_fault(bytes: &[u8]) -> Option<ViewFault> {
    match Container::read(bytes) {
        Ok(_) => None,
        Err(fault) => Some(fault),
    }
}

#[test]
fn read_beginnings(rt: HostRuntime) {
    for len in 0..=BYTES.len() {
        let want = match len {
            0..124 => Some(ViewFault::TooShort),
            124..136 => Some(ViewFault::SectionOutside { section: 0 }),
            136..160 => Some(ViewFault::SectionOutside { section: 1 }),
            160..250 => Some(ViewFault::SectionOutside { section: 2 }),
            _ => None,
        };
        assert!(rt;
            container_fault(&BYTES[..len]) == want,
            "the first {len} bytes"
        );
    }
}

/// Words at some places, and the fault.
const WORKED: &[(&[(usize, u32)], Option<ViewFault>)] = &[
    (&[(8, 0x6D36_386B)], Some(ViewFault::BadArchitecture)),
    (&[(32, 0x0003_0004)], Some(ViewFault::BadSectionCounts)),
    (
        &[(60, 0xFFFF_FFFF)],
        Some(ViewFault::SectionOutside { section: 0 }),
    ),
    (&[(112, 0)], None),
    // Section 1 as pattern-initialized data, and with an image that is longer than its memory.
    (&[(92, 0x0201_0400)], None),
    (
        &[(92, 0x0201_0400), (80, 17)],
        Some(ViewFault::BadSizes { section: 1 }),
    ),
];

#[test]
fn worked(rt: HostRuntime) {
    for row in WORKED {
        let (words, want) = *row;
        let bytes = with_words(rt.alloc(), &BYTES, words).expect(&rt, "a changed container");
        assert!(rt; container_fault(&bytes) == want, "{words:?}");
    }
}
