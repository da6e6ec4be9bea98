//! The store of fragments and stubs.
ghost use Rattle.std.specs.Prelude.{◌≡◌, ◌+◌, ◌≤◌, ◌++◌, OnOk, length, map};
ghost use Rattle.cfm_store.specs.Limits.{most_pairs};
ghost use Rattle.pef_gather.specs.Seen.{found_seen};
ghost use Rattle.pef_gather.specs.Stores.{Stores, found_pair, stub_pair};

use crate::fault::GatherFault;
use crate::files::Found;
use cfm_store::{MAX_PAIRS, Store, StoreFault};
use cfm_stubs::Stub;
use std::alloc::Global;

/// Returns the store of some fragments, and of stubs after them.
///
/// # Errors
///
/// `StoreFull` if they are more than a store can have, and `OutOfMemory` if an allocation fails.
pub fn store_with<'r, 'a: 'r>(
    alloc: Global,
    found: &[Found<'a>],
    stubs: &'r [Stub<'a>],
) -> Result<Store<'r>, GatherFault<'r>>
    ensures { Stores result (map found_seen found.now) stubs.entry.now }
{
    if found.len() > MAX_PAIRS || stubs.len() > MAX_PAIRS - found.len() {
        return Err(GatherFault::StoreFull);
    }
    let mut store = Store::new(alloc);
    add_found(&mut store, found)?;
    add_stubs(&mut store, stubs)?;
    Ok(store)
}

/// Adds fragments to a store that has place for them.
fn add_found<'r, 'a: 'r>(store: &mut Store<'r>, found: &[Found<'a>]) -> Result<(), StoreFault>
    requires { length store.old + length found.now ≤ most_pairs }
    ensures { OnOk result (store.new ≡ store.old ++ map found_pair (map found_seen found.now)) }
{
    for fragment in found {
        store.add(fragment.candidate.name, fragment.candidate.bytes)?;
    }
    Ok(())
}

/// Adds stubs to a store that has place for them.
fn add_stubs<'r, 'a: 'r>(store: &mut Store<'r>, stubs: &'r [Stub<'a>]) -> Result<(), StoreFault>
    requires { length store.old + length stubs.now ≤ most_pairs }
    ensures { OnOk result (store.new ≡ store.old ++ map stub_pair stubs.entry.now) }
{
    for stub in stubs {
        store.add(stub.name(), stub.bytes())?;
    }
    Ok(())
}
