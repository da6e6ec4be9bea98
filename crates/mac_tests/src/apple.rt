use crate::fixture::{APPLE, APPLE_LEN, Written, is_part, part_fault, rewritten, written};
use mac_forks::{AppleFile, ForkFault, ForkFormat, MacFile};

#[test]
fn parts(rt: HostRuntime) {
    let file = written(rt.alloc(), APPLE_LEN, APPLE).expect(&rt, "a file");
    let mac = MacFile::read(&file).expect(&rt, "a file that is read");
    assert!(rt; mac.format() == ForkFormat::AppleSingle && mac.fault() == None);
    // The first of two entries with the id of the data fork counts.
    assert!(rt; is_part(mac.data_fork(), 170, b"DATA!"));
    assert!(rt; is_part(mac.resource_fork(), 175, b"RES"));
    assert!(rt; is_part(mac.name(), 134, b"Calc"));
    assert!(rt; is_part(mac.comment(), 199, b"Hi"));
    let finder = mac
        .finder()
        .expect(&rt, "Finder information")
        .expect(&rt, "no error");
    assert!(rt; finder.file_type == 0x4150_504C && finder.creator == 0x4361_6C63);
    assert!(rt; finder.flags == 0x2140 && finder.window == 7);
    assert!(rt; finder.vertical == -2 && finder.horizontal == 20);
}

#[test]
fn fields(rt: HostRuntime) {
    let file = written(rt.alloc(), APPLE_LEN, APPLE).expect(&rt, "a file");
    let apple = AppleFile::read(&file).expect(&rt, "AppleSingle");
    let header = apple.header();
    assert!(rt; header.signature == 0x0005_1600 && header.version == 0x0002_0000);
    assert!(rt; header.entry_count == 9 && !header.is_double());
    assert!(rt; apple.filler() == b"Macintosh       ".as_slice());
    let entry = apple
        .entry(5)
        .expect(&rt, "an entry")
        .expect(&rt, "no error");
    assert!(rt; entry.id == 15 && entry.offset == 0xFFFF_FFFF && entry.length == 0);
    assert!(rt; apple.entry(9).is_none() && apple.contents(9).is_none());
    assert!(rt; is_part(apple.contents(4), 178, b"?"));
    assert!(rt; is_part(apple.contents(5), 0xFFFF_FFFF, b""));
    assert!(rt; apple.position(1) == Some(2) && apple.position(15) == Some(5));
    assert!(rt; apple.position(7) == None && apple.find(7).is_none());
    let dates = apple.dates().expect(&rt, "dates").expect(&rt, "no error");
    assert!(rt; dates.created == 1 && dates.modified == -2);
    assert!(rt; dates.backed_up == -0x8000_0000 && dates.accessed == 256);
    assert!(rt; apple.attributes() == Some(Ok(0x8000_0001)));
}

#[test]
fn double(rt: HostRuntime) {
    let changes: &[Written] = &[(3, b"\x07"), (5, b"\x01"), (53, b"\x0F"), (77, b"\x0F")];
    let file = rewritten(rt.alloc(), APPLE_LEN, APPLE, changes).expect(&rt, "a file");
    let mac = MacFile::read(&file).expect(&rt, "a file that is read");
    assert!(rt; mac.format() == ForkFormat::AppleDouble);
    assert!(rt; mac.data_fork().is_none());
    assert!(rt; is_part(mac.resource_fork(), 175, b"RES"));
}

#[test]
fn damaged_entries(rt: HostRuntime) {
    // 100 entries: row 14 ends at 206, past the end. The data fork ends at 202. Finder information has 15 bytes, dates
    // have 15, and attributes 3.
    let changes: &[Written] = &[
        (25, b"\x64"),
        (61, b"\x20"),
        (49, b"\x0F"),
        (109, b"\x0F"),
        (121, b"\x03"),
    ];
    let file = rewritten(rt.alloc(), APPLE_LEN, APPLE, changes).expect(&rt, "a file");
    let apple = AppleFile::read(&file).expect(&rt, "AppleSingle");
    assert!(rt; apple.entry(14) == Some(Err(ForkFault::AppleEntryCut { entry: 14 })));
    assert!(rt; part_fault(apple.contents(99)) == Some(ForkFault::AppleEntryCut { entry: 99 }));
    assert!(rt; apple.entry(100) == None);
    assert!(rt; part_fault(apple.find(1)) == Some(ForkFault::AppleEntryOutside { entry: 2 }));
    assert!(rt; apple.dates() == Some(Err(ForkFault::AppleEntryShort { entry: 6 })));
    assert!(rt; apple.attributes() == Some(Err(ForkFault::AppleEntryShort { entry: 7 })));
    assert!(rt; apple.finder() == Some(Err(ForkFault::AppleEntryShort { entry: 1 })));
    assert!(rt; is_part(apple.find(2), 175, b"RES"));
    assert!(rt; is_part(apple.find(3), 134, b"Calc"));
    assert!(rt; apple.position(99) == None);
}
