use crate::contexts::{A, B, First, L, LIMIT, USERS, context_of, prepared, test_firsts};
use crate::steps::Step::{Close, Prepare};
use cfm_prepare::{Connection, Context};
use std::alloc::Global;
use std::process::Abort;
use test_data::changes::At;
use test_data::scripts::USER;
use test_links::fragments::{Fragment, containers};

/// A step: prepare a fragment, or close a connection.
#[derive(Clone, Copy)]
enum Step {
    Prepare(&'static str),
    Close(u32),
}

/// A step, its connection or the number of its refusal, and the first section of each fragment after it.
type Row = (Step, Result<u32, u32>, &'static [First]);

/// A library that is shared keeps its address and its bytes until no connection needs it.
const SHARED: &[Row] = &[
    (Prepare("A"), Ok(0), &[A, None, L]),
    (Prepare("B"), Ok(1), &[A, B, L]),
    (Close(0), Ok(0), &[None, B, L]),
    (Prepare("A"), Ok(2), &[A, B, L]),
    (Close(0), Err(68), &[A, B, L]),
    (Prepare("C"), Err(60), &[A, B, L]),
    (Close(1), Ok(1), &[A, None, L]),
    (Close(2), Ok(2), &[None, None, None]),
    (Close(2), Err(68), &[None, None, None]),
];

/// The same users of a library whose word is its own address.
const USERS_OF_RELOCATED: &[Fragment] = &[
    ("A", USER, &[]),
    ("B", USER, &[]),
    (
        "L",
        "versions 1 0 0\nsection l data process 4 4\nbytes l 0000002A\nfix l 0 section l\nexport v data l 0\n",
        &[],
    ),
];

const RELOCATED: First = Some((0x1_0000, &[0, 1, 0, 0x2A]));

/// A fragment that is present isn't relocated again.
const RELOCATED_ONCE: &[Row] = &[
    (Prepare("A"), Ok(0), &[A, None, RELOCATED]),
    (Prepare("B"), Ok(1), &[A, B, RELOCATED]),
];

/// A fragment that finds no room leaves nothing in memory.
const NO_ROOM: &[Row] = &[
    (Prepare("A"), Err(67), &[None, None, None]),
    (Prepare("L"), Ok(0), &[None, None, L]),
];

/// Code, and data with two transition vectors.
const VECTORS: &str =
    "versions 1 0 0\nsection code code global 4 8\nsection data data process 4 16\nbytes code 0011223344556677\nbytes data 00000000000000000000000400000000\ntvector data 0 code data\ntvector data 8 code data\nexport go tvector data 0\nmain data 0\n";

/// With one halfword more, the program names a section that doesn't exist.
const LONGER: &[Fragment] = &[
    ("x", VECTORS, &[(At::Front(223), b"\x02")]),
    ("y", VECTORS, &[]),
];

const CODE: First = Some((0x1_0000, b"\0\x11\x22\x33\x44\x55\x66\x77"));

/// A program that is refused leaves nothing in memory.
const BAD_PROGRAM: &[Row] = &[
    (Prepare("x"), Err(39), &[None, None]),
    (Prepare("y"), Ok(0), &[None, CODE]),
];

/// Fragments, the limit of memory, and steps in a context over them.
const WORKED: &[(&[Fragment], u32, &[Row])] = &[
    (USERS, LIMIT, SHARED),
    (USERS_OF_RELOCATED, LIMIT, RELOCATED_ONCE),
    (USERS, 0x1_0010, NO_ROOM),
    (LONGER, LIMIT, BAD_PROGRAM),
];

#[test]
fn worked(rt: HostRuntime) {
    for row in WORKED {
        let (fragments, limit, steps) = *row;
        take_steps(&rt, rt.alloc(), fragments, limit, steps);
    }
}

/// Takes steps in a context over some fragments.
fn take_steps(rt: &impl Abort, alloc: Global, fragments: &[Fragment], limit: u32, steps: &[Row]) {
    let containers = containers(alloc, fragments).expect(rt, "containers");
    let mut context = context_of(rt, alloc, fragments, &containers, limit);
    test_steps(rt, &mut context, steps);
}

fn test_steps(rt: &impl Abort, context: &mut Context<'_>, steps: &[Row]) {
    for row in steps {
        let (step, answer, firsts) = *row;
        assert!(rt; take_step(rt, context, step) == answer);
        test_firsts(rt, context, firsts);
    }
}

/// Takes a step, and returns the number of the connection or of the refusal.
fn take_step(rt: &impl Abort, context: &mut Context<'_>, step: Step) -> Result<u32, u32> {
    match step {
        Prepare(name) => prepared(context, name.as_bytes()),
        Close(number) => closed(rt, context, number),
    }
}

/// Closes a connection, which has no symbols then.
fn closed(rt: &impl Abort, context: &mut Context<'_>, number: u32) -> Result<u32, u32> {
    let answer = context.close(Connection(number));
    assert!(rt; context.symbol(Connection(number), b"v").is_none());
    match answer {
        Ok(()) => Ok(number),
        Err(fault) => Err(fault.number()),
    }
}

const EMPTY: &[Fragment] = &[("E", "", &[])];

/// Prepares and closes a fragment until no number is left, since no number is used twice.
fn use_all_numbers(rt: &impl Abort, context: &mut Context<'_>) {
    for number in 0..65_536 {
        assert!(rt; prepared(context, b"E") == Ok(number));
        assert!(rt; context.close(Connection(number)).is_ok());
    }
    assert!(rt; prepared(context, b"E") == Err(69));
}

#[test]
fn all_numbers(rt: HostRuntime) {
    let containers = containers(rt.alloc(), EMPTY).expect(&rt, "containers");
    let mut context = context_of(&rt, rt.alloc(), EMPTY, &containers, LIMIT);
    use_all_numbers(&rt, &mut context);
}
