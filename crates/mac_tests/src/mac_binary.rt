use crate::fixture::{MAC_BINARY, MAC_BINARY_LEN, Written, is_part, rewritten, written};
use mac_forks::{ForkFault, ForkFormat, MacBinary, MacFile, crc_16};

const CRCS: &[(&[u8], u16)] = &[
    (b"123456789", 0x31C3),
    (b"A", 0x58E5),
    (b"", 0),
    (b"\x00\x00", 0),
];

#[test]
fn crc(rt: HostRuntime) {
    for (bytes, want) in CRCS {
        assert!(rt; crc_16(bytes) == *want, "{want}");
    }
}

#[test]
fn fields(rt: HostRuntime) {
    let file = written(rt.alloc(), MAC_BINARY_LEN, MAC_BINARY).expect(&rt, "a file");
    let binary = MacBinary::read(&file).expect(&rt, "MacBinary");
    let header = binary.header;
    assert!(rt; header.zero_1 == 0 && header.zero_2 == 0 && header.zero_3 == 0);
    assert!(rt; header.name_length == 4 && header.protected == 1);
    assert!(rt; header.file_type == 0x4150_504C && header.creator == 0x4361_6C63);
    assert!(rt; header.finder_flags_high == 0x21);
    assert!(rt; header.vertical == -2 && header.horizontal == 20 && header.window == 7);
    assert!(rt; header.data_length == 5 && header.resource_length == 3);
    assert!(rt; header.created == 0xB000_0001 && header.modified == 0xB000_0002);
    let extension = header.extension;
    assert!(rt; extension.comment_length == 2 && extension.finder_flags_low == 0x40);
    assert!(rt; extension.signature == 0x6D42_494E);
    assert!(rt; extension.script == 1 && extension.extended_flags == 0x80);
    assert!(rt; extension.unpacked_length == 256 && extension.second_header_length == 0);
    assert!(rt; extension.version == 130 && extension.least_version == 129);
    assert!(rt; extension.crc == 0x9BDF && extension.reserved == 0);
    assert!(rt; !binary.is_first_version && binary.fault == None);
}

#[test]
fn parts(rt: HostRuntime) {
    let file = written(rt.alloc(), MAC_BINARY_LEN, MAC_BINARY).expect(&rt, "a file");
    let mac = MacFile::read(&file).expect(&rt, "a file that is read");
    assert!(rt; mac.format() == ForkFormat::MacBinary3 && mac.fault() == None);
    assert!(rt; is_part(mac.data_fork(), 128, b"DATA!"));
    assert!(rt; is_part(mac.resource_fork(), 256, b"RES"));
    assert!(rt; is_part(mac.name(), 2, b"Calc"));
    assert!(rt; is_part(mac.comment(), 384, b"Hi"));
    let finder = mac
        .finder()
        .expect(&rt, "Finder information")
        .expect(&rt, "no error");
    assert!(rt; finder.file_type == 0x4150_504C && finder.creator == 0x4361_6C63);
    assert!(rt; finder.flags == 0x2140 && finder.window == 7);
    assert!(rt; finder.vertical == -2 && finder.horizontal == 20);
}

/// What is changed, and the format and the error. The right CRCs are those of Python's `binascii.crc_hqx`.
const FORMATS: &[(&[Written], ForkFormat, Option<ForkFault>)] = &[
    (&[(102, b"mBIO")], ForkFormat::MacBinary2, DAMAGED),
    (
        &[(102, b"mBIO"), (122, b"\x81\x81\x10\x93")],
        ForkFormat::MacBinary2,
        None,
    ),
    (
        &[(102, b"\x00\x00\x00\x00"), (122, b"\x00\x81\xED\x7E")],
        ForkFormat::MacBinary2,
        None,
    ),
    (
        &[
            (99, b"\x00\x00\x00\x00\x00\x00\x00\x00\x00\x00"),
            (116, b"\x00\x00\x00\x00\x00\x00\x00\x00\x00\x00\x00\x00"),
        ],
        ForkFormat::MacBinary1,
        None,
    ),
    (&[(102, b"mBIO"), (122, b"\x80")], ForkFormat::Bare, None),
];

const DAMAGED: Option<ForkFault> = Some(ForkFault::BadMacBinaryCrc);

#[test]
fn formats(rt: HostRuntime) {
    for (i, (changes, format, fault)) in FORMATS.iter().enumerate() {
        let file = rewritten(rt.alloc(), MAC_BINARY_LEN, MAC_BINARY, changes).expect(&rt, "a file");
        let mac = MacFile::read(&file).expect(&rt, "a file that is read");
        assert!(rt; mac.format() == *format && mac.fault() == *fault, "row {i}");
    }
}
