//! Fragments from scripts, and stores of them.

use crate::link_text;
use cfm_closure::Store;
use std::alloc::Global;
use test_data::changes::{Change, change};

/// A fragment: its name, its script, and the bytes written over some bytes of its container.
///
/// If a script has one export, that export's section is the last two bytes, and its value the four before them.
pub type Fragment = (&'static str, &'static str, &'static [Change]);

/// Returns the container of a script, with some changes. `None` if the script is refused, a change doesn't fit, or
/// an allocation fails.
pub fn container(alloc: Global, script: &str, changes: &[Change]) -> Option<Vec<u8>> {
    let linked = link_text(alloc, script.as_bytes())?;
    let mut bytes = Vec::from_slice(alloc, linked.bytes()).ok()?;
    for (at, other) in changes {
        change(&mut bytes, *at, other)?;
    }
    Some(bytes)
}

/// Returns the containers of some fragments.
pub fn containers(alloc: Global, fragments: &[Fragment]) -> Option<Vec<Vec<u8>>> {
    let mut containers = Vec::new(alloc);
    for (_, script, changes) in fragments {
        let bytes = container(alloc, script, changes)?;
        containers.push(bytes).ok()?;
    }
    Some(containers)
}

/// Adds a pair to a store. `None` if the store is full, or an allocation fails.
pub fn add<'a>(store: &mut Store<'a>, name: &'a str, bytes: &'a [u8]) -> Option<()> {
    if store.is_full() {
        return None;
    }
    store.add(name.as_bytes(), bytes).ok()
}

/// Returns a store of some fragments, which have these containers.
pub fn store_of<'a>(
    alloc: Global,
    fragments: &[Fragment],
    containers: &'a [Vec<u8>],
) -> Option<Store<'a>> {
    let mut store = Store::new(alloc);
    for (fragment, bytes) in fragments.iter().zip(containers) {
        add(&mut store, fragment.0, bytes)?;
    }
    Some(store)
}
