//! Closures of as many fragments as a store may have. Each needs the next one by a name of two letters.

use cfm_closure::{Closure, Store, closure};
use std::alloc::Global;
use std::process::Abort;
use test_data::changes::{At, changed};
use test_links::fragments::container;

/// As many fragments as a store may have.
const FRAGMENTS: usize = 256;

/// The names of the fragments, one after the other, and a name that the last one needs.
type Names = [u8; 514];

/// Writes the names. Each letter is one of 17.
fn fill_names(names: &mut Names) {
    for (i, letter) in names.iter_mut().enumerate() {
        let number = i / 2;
        let digit = if i % 2 == 0 {
            (number / 16) as u8
        } else {
            (number % 16) as u8
        };
        *letter = b'a'.wrapping_add(digit);
    }
}

/// Returns the containers of all fragments.
fn containers(rt: &impl Abort, alloc: Global, names: &Names) -> Vec<Vec<u8>> {
    let mut containers = Vec::new(alloc);
    let first = container(alloc, "library aa 0 0 weak\n", &[]).expect(rt, "a container");
    for next in names[2..].chunks(2) {
        // the name is followed by two zeros and by the only slot
        let bytes = changed(alloc, &first, At::End(8), next).expect(rt, "a place for the name");
        containers.push(bytes).expect(rt, "memory");
    }
    containers
}

/// Returns the store of these fragments.
fn store_of_all<'a>(
    rt: &impl Abort,
    alloc: Global,
    names: &'a Names,
    containers: &'a [Vec<u8>],
) -> Store<'a> {
    let mut store = Store::new(alloc);
    for (name, bytes) in names.chunks(2).zip(containers) {
        assert!(rt; !store.is_full());
        store.add(name, bytes).expect(rt, "memory");
    }
    store
}

/// Tests that the last fragment comes first.
fn test_reversed(rt: &impl Abort, closure: &Closure<'_>) {
    let order = closure.order();
    assert!(rt; order.len() == FRAGMENTS);
    for (i, p) in order.iter().enumerate() {
        assert!(rt; p.wrapping_add(i) == 255);
    }
}

/// Tests the closure of the first of 256 fragments.
fn test_first(rt: &impl Abort, alloc: Global, store: &Store<'_>) {
    assert!(rt; store.len() == FRAGMENTS);
    match closure(alloc, store, 0) {
        Ok(closure) => test_reversed(rt, &closure),
        Err(fault) => panic!(rt; "{fault}"),
    }
}

/// Tests the closure of the fragments with these names.
fn test_names(rt: &impl Abort, alloc: Global, names: &Names) {
    let containers = containers(rt, alloc, names);
    let store = store_of_all(rt, alloc, names, &containers);
    test_first(rt, alloc, &store);
}

/// No fragment has the name that the last one needs; or it needs the first.
#[test]
fn chain_and_ring(rt: HostRuntime) {
    let mut names = [0; 514];
    fill_names(&mut names);
    test_names(&rt, rt.alloc(), &names);
    names[512] = b'a';
    names[513] = b'a';
    test_names(&rt, rt.alloc(), &names);
}
