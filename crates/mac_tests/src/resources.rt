use crate::fixture::{RESOURCES, RESOURCES_LEN, Written, rewritten, written};
use mac_resources::{Resource, ResourceFork};

const CODE: u32 = 0x434F_4445;

const TEXT: u32 = 0x5445_5854;

#[test]
fn fields(rt: HostRuntime) {
    let file = written(rt.alloc(), RESOURCES_LEN, RESOURCES).expect(&rt, "a fork");
    let fork = ResourceFork::read(&file).expect(&rt, "a fork that is read");
    let header = fork.header();
    assert!(rt; header.data_offset == 16 && header.map_offset == 40);
    assert!(rt; header.data_length == 19 && header.map_length == 87);
    let map = fork.map();
    assert!(rt; map.copy == header);
    assert!(rt; map.handle == 0x0102_0304 && map.file_number == 5 && map.attributes == 128);
    assert!(rt; map.type_list == 28 && map.name_list == 82);
    assert!(rt; fork.fault() == None && fork.type_count() == 2);
    let kind = fork
        .resource_type(1)
        .expect(&rt, "a type")
        .expect(&rt, "no error");
    assert!(rt; kind.code == TEXT && kind.last == 1 && kind.list_offset == 30 && kind.count() == 2);
    assert!(rt; fork.resource_type(2) == None);
}

/// Returns whether a resource is that of a row, with an id, and has some bytes at an offset.
fn is_resource(
    resource: Resource<'_>,
    row: (u16, u16),
    id: i16,
    offset: usize,
    bytes: &[u8],
) -> bool {
    (resource.type_row, resource.row) == row
        && resource.reference.id == id
        && match resource.contents {
            Ok(part) => part.offset == offset && part.bytes == bytes,
            Err(_) => false,
        }
}

/// Returns whether a resource has a name.
fn is_named(resource: Resource<'_>, name: &[u8]) -> bool {
    match resource.name {
        Some(Ok(other)) => other == name,
        _ => false,
    }
}

#[test]
fn by_row(rt: HostRuntime) {
    let file = written(rt.alloc(), RESOURCES_LEN, RESOURCES).expect(&rt, "a fork");
    let fork = ResourceFork::read(&file).expect(&rt, "a fork that is read");
    let code = fork
        .resource(0, 0)
        .expect(&rt, "a row")
        .expect(&rt, "no error");
    assert!(rt; code.type_code == CODE && code.name.is_none());
    assert!(rt; is_resource(code, (0, 0), 0, 20, b"abcd"));
    assert!(rt; code.reference.handle == 9 && !code.reference.is_compressed());
    let last = fork
        .resource(1, 1)
        .expect(&rt, "a row")
        .expect(&rt, "no error");
    assert!(rt; last.type_code == TEXT && is_named(last, b""));
    assert!(rt; is_resource(last, (1, 1), 128, 32, b"xyz"));
    assert!(rt; last.reference.attributes == 0x20 && last.reference.data_offset == 12);
    assert!(rt; fork.resource(0, 1).is_none() && fork.resource(2, 0).is_none());
}

#[test]
fn by_id(rt: HostRuntime) {
    let file = written(rt.alloc(), RESOURCES_LEN, RESOURCES).expect(&rt, "a fork");
    let fork = ResourceFork::read(&file).expect(&rt, "a fork that is read");
    let one = fork.find(TEXT, -1).expect(&rt, "a resource");
    assert!(rt; is_resource(one, (1, 0), -1, 28, b"") && is_named(one, b"one"));
    assert!(rt; one.reference.is_compressed());
    assert!(rt; fork.find(TEXT, 128).is_some() && fork.find(CODE, 0).is_some());
    assert!(rt; fork.find(TEXT, 1).is_none() && fork.find(CODE, 128).is_none());
    assert!(rt; fork.find(0, 0).is_none());
}

#[test]
fn first_counts(rt: HostRuntime) {
    // Both references of `TEXT` have the id 128, and both types are `TEXT`.
    let both: &[Written] = &[(98, b"\x00\x80")];
    let file = rewritten(rt.alloc(), RESOURCES_LEN, RESOURCES, both).expect(&rt, "a fork");
    let fork = ResourceFork::read(&file).expect(&rt, "a fork that is read");
    let first = fork.find(TEXT, 128).expect(&rt, "a resource");
    assert!(rt; (first.type_row, first.row) == (1, 0));
    let types: &[Written] = &[(70, b"TEXT")];
    let file = rewritten(rt.alloc(), RESOURCES_LEN, RESOURCES, types).expect(&rt, "a fork");
    let fork = ResourceFork::read(&file).expect(&rt, "a fork that is read");
    assert!(rt; fork.find(TEXT, 0).is_some() && fork.find(TEXT, 128).is_none());
}
