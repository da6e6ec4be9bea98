use pef_write::LinkedContainer;
use std::alloc::Global;
use std::process::Abort;
use test_data::changes::{At, changed};
use test_data::containers::VECTORS_LEAST;
use test_data::scripts::VECTORS;
use test_links::link_text;

/// Tests a container, and how many halfwords the programs have.
fn test_linked(rt: &impl Abort, linked: &LinkedContainer, bytes: &[u8], lengths: &[u32]) {
    assert!(rt; linked.bytes() == bytes);
    assert!(rt; linked.sections() == lengths.len());
    for (k, length) in lengths.iter().enumerate() {
        assert!(rt; linked.length(k) == Some(*length), "section {k}");
    }
}

/// Section 0 has no fixups, and no relocation header.
#[test]
fn linked(rt: HostRuntime) {
    let linked = link_text(rt.alloc(), VECTORS).expect(&rt, "a container");
    test_linked(&rt, &linked, VECTORS_LEAST, &[0, 1]);
}

/// Two scripts, and bytes at a place: the container of the first script with these is that of the second.
type Pair = (&'static [u8], At, &'static [u8], &'static [u8]);

const PAIRS: &[Pair] = &[
    // An export whose section is another one, so that it passes on an import.
    (
        b"versions 1 0 0\nlibrary L 1 0 -\nimport v data strong\nsection m data process 4 4\nexport u data m 0\n",
        At::End(2),
        b"\xFF\xFD",
        b"versions 1 0 0\nlibrary L 1 0 -\nimport v data strong\nsection m data process 4 4\nreexport u data v\n",
    ),
    // The same with another value, so that it is a number.
    (
        b"section m data process 4 4\nexport k data m 0\n",
        At::End(6),
        b"\0\0\0\x2A\xFF\xFE",
        b"section m data process 4 4\nabsolute k data 0x2A\n",
    ),
];

fn test_pair(rt: &impl Abort, alloc: Global, pair: &Pair) {
    let (script, at, other, second) = *pair;
    let linked = link_text(alloc, script).expect(rt, "a container");
    let bytes = changed(alloc, linked.bytes(), at, other).expect(rt, "a changed container");
    let wanted = link_text(alloc, second).expect(rt, "a container");
    assert!(rt; wanted.bytes() == bytes.as_slice());
}

#[test]
fn exported(rt: HostRuntime) {
    for pair in PAIRS {
        test_pair(&rt, rt.alloc(), pair);
    }
}

/// The raw data of a packed section, at 96.
const PACKED: &[u8] = &[0x24, 0x11, 0x22, 0x33, 0x44, 0x03, 0x23, 0x08, 1, 2];

#[test]
fn packed(rt: HostRuntime) {
    let text =
        b"section d pattern process 4 16\nbytes d 11223344000000080102\nfix d 4 section d\nfix d 12 section d\n";
    let linked = link_text(rt.alloc(), text).expect(&rt, "a container");
    assert!(rt; linked.bytes().get(96..106) == Some(PACKED));
}
