//! Where refusals are in containers that were written by hand. The offsets are counted by the format.
//! `cases/library/places.py` has more of them.

use cfm_closure::{BindFault, Definition, Implementation, Store, closure};
use pef_format::{Part, Place};
use pef_listing::Listing;
use test_data::changes::{At, changed};
use test_data::containers::{RICH, VECTORS_LEAST};

/// The relocation header 1 is at 365, and names a section that isn't there.
#[test]
fn place_of_a_listing(rt: HostRuntime) {
    let bytes = changed(rt.alloc(), RICH, At::Front(366), b"\x09").expect(&rt, "a change");
    let (number, place) = match Listing::read(&bytes) {
        Err(fault) => (fault.number(), fault.place()),
        Ok(_) => return assert!(&rt; false),
    };
    let wanted = Place {
        part: Part::Relocation,
        row: 1,
        field: 0,
        offset: Some(365),
    };
    assert!(&rt; number == 17 && place == Some(wanted));
}

/// The entry of the library is at 293. It needs version 3, or 2 at least. The versions that don't fit are carried.
#[test]
fn place_of_a_closure(rt: HostRuntime) {
    let mut store = Store::new(rt.alloc());
    store.add(b"r", RICH).expect(&rt, "memory");
    store.add(b"Tools", VECTORS_LEAST).expect(&rt, "memory");
    assert!(&rt; !store.is_empty());
    let fault = match closure(rt.alloc(), &store, 0) {
        Err(fault) => fault,
        Ok(_) => return assert!(&rt; false),
    };
    let wanted = Place {
        part: Part::Library,
        row: 0,
        field: 4,
        offset: Some(297),
    };
    assert!(&rt; fault.number() == 63 && fault.place() == Some(wanted));
    let (needed, found) = match fault {
        BindFault::ImplementationTooOld { needed, found, .. } => (needed, found),
        _ => return assert!(&rt; false),
    };
    let wanted = Definition {
        current: 3,
        old_imp: 2,
    };
    assert!(&rt; needed == wanted);
    let wanted = Implementation {
        current: 1,
        old_def: 0,
    };
    assert!(&rt; found == wanted);
}
