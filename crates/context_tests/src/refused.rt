//! Calls in which an allocation fails. To test this, run it with one allocation failing after another, as
//! `tools/refuse-memory` does.

use crate::contexts::{A, B, L, LIMIT, USERS, context_of, prepared, test_firsts};
use cfm_memory::{Memory, MemoryFault, Place};
use cfm_prepare::{AddFault, Connection, Context, Store};
use std::alloc::Global;
use std::process::Abort;
use std::test::Fail;
use test_data::refusals::{say_answered, say_begins};
use test_data::scripts::LIBRARY;
use test_links::fragments::{Fragment, containers};

/// Two fragments that need a library, with so much in them that each reader has something to report.
const RICH_FRAGMENTS: &[Fragment] = &[("A", RICH, &[]), ("B", RICH, &[]), ("L", LIBRARY, &[])];

const RICH: &str =
    "library L 1 0 before\nimport v data strong\nsection a data process 4 4\nfix a 0 import v\nexport own data a 0\nmain a 0\ninit a 2\nterm a 3\n";

/// Returns what each reader of a context reports about the first two connections and about all fragments, as numbers.
fn reported(rt: &impl Abort, alloc: Global, context: &Context<'_>) -> Vec<usize> {
    let mut notes = Vec::new(alloc);
    for number in 0..2 {
        note_connection(rt, &mut notes, context, Connection(number));
    }
    for position in 0..3 {
        note_fragment(rt, &mut notes, context, position);
    }
    notes
}

fn note_connection(
    rt: &impl Abort,
    notes: &mut Vec<usize>,
    context: &Context<'_>,
    connection: Connection,
) {
    note_address(rt, notes, context.symbol(connection, b"own"));
    note_address(rt, notes, context.main(connection));
    note_section(rt, notes, context.section(connection, 0));
    note_order(rt, notes, context.init_order(connection));
    note_order(rt, notes, context.fragments(connection));
}

/// Notes what is reported about a fragment, and about its entry points in the first connection.
fn note_fragment(rt: &impl Abort, notes: &mut Vec<usize>, context: &Context<'_>, position: usize) {
    note(rt, notes, context.section_count(position));
    note_section(rt, notes, context.fragment_section(position, 0));
    let Some(entries) = context.fragment_entries(Connection(0), position) else {
        return;
    };
    for entry in [entries.init, entries.main, entries.term] {
        note_address(rt, notes, entry);
    }
}

fn note_section(rt: &impl Abort, notes: &mut Vec<usize>, section: Option<(u32, &[u8])>) {
    let Some((address, bytes)) = section else {
        return;
    };
    note(rt, notes, address as usize);
    for byte in bytes {
        note(rt, notes, usize::from(*byte));
    }
}

fn note_order(rt: &impl Abort, notes: &mut Vec<usize>, order: Option<&[usize]>) {
    for position in order.unwrap_or(&[]) {
        note(rt, notes, *position);
    }
}

fn note_address(rt: &impl Abort, notes: &mut Vec<usize>, address: Option<u32>) {
    note(rt, notes, address.unwrap_or(0) as usize);
}

fn note(rt: &impl Abort, notes: &mut Vec<usize>, number: usize) {
    notes.push(number).expect(rt, "memory");
}

/// Prepares the second of two fragments after the first, and once more if an allocation fails.
fn prepare_again(
    rt: &(impl Abort + Print),
    alloc: Global,
    fragments: &[Fragment],
) -> Result<(), Fail> {
    let containers = containers(alloc, fragments).ok_or("no containers")?;
    let mut context = context_of(rt, alloc, fragments, &containers, LIMIT);
    assert!(rt; prepared(&mut context, b"A") == Ok(0));
    prepare_second(rt, alloc, &mut context)
}

/// Prepares the second fragment. It lies after the first one.
fn prepare_second(
    rt: &(impl Abort + Print),
    alloc: Global,
    context: &mut Context<'_>,
) -> Result<(), Fail> {
    let before = reported(rt, alloc, context);
    say_begins(rt)?;
    let refused = prepare_until_answered(rt, alloc, context, &before);
    say_answered(rt, refused)?;
    test_firsts(rt, context, &[A, B, L]);
    Ok(())
}

/// Prepares it, and once more if an allocation fails, which changes nothing. Returns whether one failed.
fn prepare_until_answered(
    rt: &impl Abort,
    alloc: Global,
    context: &mut Context<'_>,
    before: &[usize],
) -> bool {
    let mut answer = prepared(context, b"B");
    let refused = answer == Err(99);
    if refused {
        assert!(rt; reported(rt, alloc, context).as_slice() == before);
        answer = prepared(context, b"B");
    }
    assert!(rt; answer == Ok(1));
    refused
}

/// If an allocation fails in `prepare`, the readers return the same as before, and the next `prepare` returns what
/// this one would have returned.
#[test]
fn prepared_again(rt: HostRuntime) -> Result<(), Fail> {
    prepare_again(&rt, rt.alloc(), USERS)
}

#[test]
fn rich_prepared_again(rt: HostRuntime) -> Result<(), Fail> {
    prepare_again(&rt, rt.alloc(), RICH_FRAGMENTS)
}

/// A fragment that names a library, a weak one and another one, of which the first alone is there.
const LACKING: &[Fragment] = &[
    (
        "A",
        "library L 1 0 -\nlibrary M 1 0 weak\nlibrary N 1 0 -\n",
        &[],
    ),
    ("L", LIBRARY, &[]),
];

/// If an allocation fails in `missing`, the next call returns what this one would have returned.
#[test]
fn asked_again(rt: HostRuntime) -> Result<(), Fail> {
    let containers = containers(rt.alloc(), LACKING).ok_or("no containers")?;
    let mut context = context_of(&rt, rt.alloc(), LACKING, &containers, LIMIT);
    say_begins(&rt)?;
    let refused = ask_until_answered(&rt, &mut context);
    say_answered(&rt, refused)?;
    assert!(rt; lacking(&mut context, b"M") == Err(60));
    Ok(())
}

/// Asks how many libraries are missing, and once more if an allocation fails. Returns whether one failed.
fn ask_until_answered(rt: &impl Abort, context: &mut Context<'_>) -> bool {
    let mut answer = lacking(context, b"A");
    let refused = answer == Err(99);
    if refused {
        answer = lacking(context, b"A");
    }
    assert!(rt; answer == Ok(2));
    refused
}

/// Returns how many libraries are missing, or the number of the refusal.
fn lacking(context: &mut Context<'_>, name: &[u8]) -> Result<usize, u32> {
    match context.missing(name) {
        Ok(libraries) => Ok(libraries.len()),
        Err(fault) => Err(fault.number()),
    }
}

/// The first address of memory, and what is placed there in the tests below.
const FIRST: Place = Place {
    address: 0x0001_0000,
    size: 8,
};

/// Returns whether the first instance has its bytes, and nothing is placed right after it.
fn has_first_alone(memory: &Memory) -> bool {
    memory.holds(FIRST)
        && memory.part(FIRST) == b"\0\0\0\0\0\0\0\x2A".as_slice()
        && memory.at(0x0001_0007, 1) == Some(b"\x2A".as_slice())
        && memory.at(0x0001_0010, 1).is_none()
}

/// Places twenty bytes, right after the first ones, and once more if the allocation fails, which changes nothing.
/// Returns whether it failed.
fn place_until_answered(rt: &impl Abort, memory: &mut Memory) -> bool {
    let mut answer = memory.place(20, 4);
    let refused = answer == Err(MemoryFault::OutOfMemory);
    if refused {
        assert!(rt; has_first_alone(memory));
        answer = memory.place(20, 4);
    }
    assert!(rt; answer.map(|place| (place.address, place.size)) == Ok((0x0001_0010, 20)));
    refused
}

/// Places eight bytes, of which the last is 2A, and an instance of no bytes at 00020000.
fn place_first(rt: &impl Abort, memory: &mut Memory) {
    assert!(rt; memory.place(8, 4) == Ok(FIRST));
    assert!(rt; memory.holds(FIRST));
    if let Some(byte) = memory.part_mut(FIRST).last_mut() {
        *byte = 0x2A;
    }
    let second = memory.place(0, 17).expect(rt, "a place");
    assert!(rt; second.address == 0x0002_0000);
    assert!(rt; has_first_alone(memory));
}

/// If an allocation fails in `place`, nothing is placed, and the next `place` returns what this one would have
/// returned.
#[test]
fn placed_again(rt: HostRuntime) -> Result<(), Fail> {
    let mut memory = Memory::new(rt.alloc(), 0x0100_0000);
    place_first(&rt, &mut memory);
    say_begins(&rt)?;
    let refused = place_until_answered(&rt, &mut memory);
    say_answered(&rt, refused)?;
    assert!(rt; memory.holds(FIRST));
    Ok(())
}

/// The names of the first fragments. A context has room for so many before its list grows.
const FIRST_NAMES: [&[u8]; 4] = [b"A", b"C", b"D", b"E"];

/// Adds a fragment after the first ones, and once more if an allocation fails, which adds nothing. Returns whether
/// one failed.
fn add_until_answered(rt: &impl Abort, context: &mut Context<'_>) -> bool {
    let mut answer = context.add(b"B", b"b");
    let refused = answer == Err(AddFault::OutOfMemory);
    if refused {
        assert!(rt; context.name(3) == Some(b"E".as_slice()) && context.name(4).is_none());
        answer = context.add(b"B", b"b");
    }
    assert!(rt; answer.is_ok());
    refused
}

/// If an allocation fails in `add`, the context is unchanged.
#[test]
fn added_again(rt: HostRuntime) -> Result<(), Fail> {
    let mut context = Context::new(rt.alloc(), Store::new(rt.alloc()), LIMIT);
    for name in FIRST_NAMES {
        assert!(rt; context.add(name, b"a").is_ok());
    }
    say_begins(&rt)?;
    let refused = add_until_answered(&rt, &mut context);
    say_answered(&rt, refused)?;
    assert!(rt; context.name(4) == Some(b"B".as_slice()));
    Ok(())
}
