//! Contexts over linked fragments.

use cfm_prepare::Context;
use std::alloc::Global;
use std::process::Abort;
use test_data::scripts::{LIBRARY, USER};
use test_links::fragments::{Fragment, store_of};

/// The limit of the command's memory.
pub(crate) const LIMIT: u32 = 0x1000_0000;

/// Two fragments that need a library.
pub(crate) const USERS: &[Fragment] = &[("A", USER, &[]), ("B", USER, &[]), ("L", LIBRARY, &[])];

/// The first section of a fragment that is present: its address and its bytes.
pub(crate) type First = Option<(u32, &'static [u8])>;

/// The first sections of these fragments, if all are present.
pub(crate) const A: First = Some((0x1_0010, &[0, 1, 0, 0]));

pub(crate) const B: First = Some((0x1_0020, &[0, 1, 0, 0]));

pub(crate) const L: First = Some((0x1_0000, &[0, 0, 0, 0x2A]));

/// Returns a context over some fragments, which have these containers.
pub(crate) fn context_of<'a>(
    rt: &impl Abort,
    alloc: Global,
    fragments: &[Fragment],
    containers: &'a [Vec<u8>],
    limit: u32,
) -> Context<'a> {
    let store = store_of(alloc, fragments, containers).expect(rt, "a store");
    Context::new(alloc, store, limit)
}

/// Returns the number of a connection to a fragment, or that of its refusal.
pub(crate) fn prepared(context: &mut Context<'_>, name: &[u8]) -> Result<u32, u32> {
    match context.prepare(name) {
        Ok(connection) => Ok(connection.0),
        Err(fault) => Err(fault.number()),
    }
}

/// Tests the first section of each fragment.
pub(crate) fn test_firsts(rt: &impl Abort, context: &Context<'_>, firsts: &[First]) {
    for (position, first) in firsts.iter().enumerate() {
        assert!(rt;
            context.fragment_section(position, 0) == *first,
            "{position}"
        );
    }
}
