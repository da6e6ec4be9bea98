//! The calls of stores that can lack memory: each answers.

use cfm_closure::{CachedStore, Store};
use std::alloc::Global;
use std::process::Abort;
use test_data::scripts::LIBRARY;
use test_links::fragments::{Fragment, containers};

#[test]
fn removed(rt: HostRuntime) {
    let mut store = Store::new(rt.alloc());
    store.add(b"one", b"1").expect(&rt, "memory");
    store.remove(0).expect(&rt, "memory");
    assert!(rt; store.pair(0).is_none());
    assert!(rt; store.has_room(b"two"));
    store.put(b"two", b"2").expect(&rt, "memory");
    assert!(rt; store.pair(0) == Some((b"two", b"2")));
}

/// A fragment with a library, and with one that isn't there.
const FRAGMENTS: &[Fragment] = &[
    ("A", "library L 1 0 -\nlibrary W 1 0 weak\n", &[]),
    ("L", LIBRARY, &[]),
];

#[test]
fn cached(rt: HostRuntime) {
    let containers = containers(rt.alloc(), FRAGMENTS).expect(&rt, "containers");
    let mut store = CachedStore::new(rt.alloc(), Store::new(rt.alloc()));
    test_cached(&rt, rt.alloc(), &mut store, &containers);
}

/// Adds the containers of the fragments, and asks for the first.
fn test_cached<'a>(
    rt: &impl Abort,
    alloc: Global,
    store: &mut CachedStore<'a>,
    containers: &'a [Vec<u8>],
) {
    for (fragment, bytes) in FRAGMENTS.iter().zip(containers) {
        assert!(rt; !store.is_full());
        store.add(fragment.0.as_bytes(), bytes).expect(rt, "memory");
    }
    test_closure(rt, alloc, store);
    test_missing(rt, alloc, store);
}

fn test_closure(rt: &impl Abort, alloc: Global, store: &mut CachedStore<'_>) {
    assert!(rt; store.len() == 2);
    match store.closure(alloc, 0) {
        Ok(closure) => assert!(rt; closure.order() == [1usize, 0].as_slice()),
        Err(fault) => panic!(rt; "{fault}"),
    }
}

fn test_missing(rt: &impl Abort, alloc: Global, store: &mut CachedStore<'_>) {
    assert!(rt; store.len() == 2);
    match store.missing(alloc, 0) {
        Ok(libraries) => assert!(rt; libraries.len() == 1),
        Err(fault) => panic!(rt; "{fault}"),
    }
}
