//! A range that is reserved, and what closing a connection releases. Both calls allocate.

use crate::contexts::{First, LIMIT, USERS, context_of, prepared, test_firsts};
use cfm_prepare::{Connection, Context};
use std::process::Abort;
use test_links::fragments::containers;

/// The library is placed after the range.
const AFTER: &[First] = &[
    Some((0x1_0020, &[0, 1, 0, 0x10])),
    None,
    Some((0x1_0010, &[0, 0, 0, 0x2A])),
];

/// A is fragment 0, and its library is 2.
fn test_reserved(rt: &impl Abort, context: &mut Context<'_>) {
    assert!(rt; context.reserve(0x1_0001, 0x000E).is_ok());
    assert!(rt; prepared(context, b"A") == Ok(0));
    test_firsts(rt, context, AFTER);
    let Some(released) = context.released_by(Connection(0)).expect(rt, "memory") else {
        panic!(rt; "not open");
    };
    assert!(rt; released.as_slice() == [0usize, 2].as_slice());
}

#[test]
fn reserved_and_released(rt: HostRuntime) {
    let containers = containers(rt.alloc(), USERS).expect(&rt, "containers");
    let mut context = context_of(&rt, rt.alloc(), USERS, &containers, LIMIT);
    test_reserved(&rt, &mut context);
}
