use crate::fixture::{FRAGMENTS, FRAGMENTS_LEN, written};
use cfm_members::{FragmentTable, Locator, Member, NumVersion, Stage, Usage};
use std::process::Abort;

/// Returns member `i` of a table.
fn member<'a>(rt: &impl Abort, file: &'a [u8], i: usize) -> Member<'a> {
    let table = FragmentTable::read(file).expect(rt, "a table");
    table
        .members()
        .nth(i)
        .expect(rt, "a member")
        .expect(rt, "no error")
}

/// Returns whether a member has a name.
fn is_named(member: Member<'_>, name: &[u8]) -> bool {
    match member.name {
        Ok(other) => other == name,
        Err(_) => false,
    }
}

#[test]
fn fields(rt: HostRuntime) {
    let file = written(rt.alloc(), FRAGMENTS_LEN, FRAGMENTS).expect(&rt, "a table");
    let table = FragmentTable::read(&file).expect(&rt, "a table that is read");
    assert!(rt; table.version() == 1 && table.member_count() == 3);
    let calc = member(&rt, &file, 0);
    assert!(rt;
        calc.member == 0 && calc.offset == 32 && calc.fault == None && is_named(calc, b"Calc")
    );
    let header = calc.header;
    assert!(rt; header.architecture == 0x7077_7063);
    assert!(rt;
        header.reserved_1 == 0x1234 && header.reserved_2 == 0x56 && header.update_level == 7
    );
    assert!(rt; header.current_version == 0x0120_6003 && header.old_def_version == 0x0100_8000);
    assert!(rt; header.stack_size == 0x0001_0000 && header.directory_or_flags == 5);
    assert!(rt; header.usage() == Usage::Application);
    assert!(rt;
        header.locator()
            == Locator::DataFork {
                offset: 0,
                length: 0
            }
    );
    assert!(rt; header.space_id == 9 && header.fork_instance == 8);
    assert!(rt; header.extension_count == 1 && header.size == 56);
}

/// A number, and its parts: major, minor, bug, stage and release.
const VERSIONS: &[(u32, (u8, u8, u8, Stage, u8))] = &[
    (0x0120_6003, (1, 2, 0, Stage::Beta, 3)),
    (0x1098_8000, (10, 9, 8, Stage::Final, 0)),
    (0x0000_20FF, (0, 0, 0, Stage::Development, 255)),
    (0x9900_4001, (99, 0, 0, Stage::Alpha, 1)),
    (0xFFFF_FFFF, (165, 15, 15, Stage::Other(255), 255)),
];

#[test]
fn versions(rt: HostRuntime) {
    for (number, want) in VERSIONS {
        let parts = NumVersion::from_number(*number);
        let seen = (
            parts.major,
            parts.minor,
            parts.bug,
            parts.stage,
            parts.release,
        );
        assert!(rt; seen == *want, "{number}");
    }
}
