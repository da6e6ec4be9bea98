//! Closures of linked scripts: the worked examples of binding.
use cfm_closure::{BindFault, Closure, Target, closure};
use std::alloc::Global;
use std::process::Abort;
use test_data::changes::{At, Change};
use test_data::scripts::{LIBRARY, USER};
use test_links::fragments::{Fragment, containers, store_of};

/// A closure: its order, the order of initialization, and the targets of imports by fragment and number.
type Found = (
    &'static [usize],
    &'static [usize],
    &'static [(usize, usize, Option<Target>)],
);

/// The fragment, the library and the symbol in a refusal.
type Names<'a> = (&'a [u8], &'a [u8], &'a [u8]);

/// A refusal: its number, and its names.
type Refusal = (u32, Names<'static>);

/// The first byte of section 0 of fragment 2.
const AT_LIBRARY: Option<Target> = Some(Target::At {
    fragment: 2,
    section: 0,
    offset: 0,
});

/// Bytes written over the section of the only export, so that the export is absolute or passes on an import.
const ABSOLUTE: &[Change] = &[(At::End(2), b"\xFF\xFE")];

const REEXPORT: &[Change] = &[(At::End(2), b"\xFF\xFD")];

/// A fragment whose export `u` can be made to pass on `v` of `L`.
const M: &str =
    "versions 1 0 0\nlibrary L 1 0 -\nimport v data strong\nsection m data process 4 4\nexport u data m 0\n";

/// Fragments, and the closure of the first.
const BOUND: &[(&[Fragment], Result<Found, Refusal>)] = &[
    (
        &[("A", USER, &[]), ("B", USER, &[]), ("L", LIBRARY, &[])],
        Ok((&[2, 0], &[2, 0], &[(0, 0, AT_LIBRARY)])),
    ),
    (&[("A", USER, &[])], Err((61, (b"A", b"L", b"")))),
    (
        &[("A", "library L 1 0 weak\nimport v data strong\n", &[])],
        Ok((&[0], &[0], &[(0, 0, None)])),
    ),
    (
        &[
            ("A", "library L 1 0 -\nimport w data strong\n", &[]),
            ("L", LIBRARY, &[]),
        ],
        Err((62, (b"A", b"L", b"w"))),
    ),
    // Two fragments that need one another.
    (
        &[
            ("A", "library B 0 0 -\n", &[]),
            ("B", "library A 0 0 -\n", &[]),
        ],
        Ok((&[1, 0], &[1, 0], &[])),
    ),
    (
        &[
            ("A", "library B 0 0 -\n", &[]),
            ("B", "library A 0 0 before\n", &[]),
        ],
        Ok((&[1, 0], &[0, 1], &[])),
    ),
    (
        &[
            ("A", "library B 0 0 before\n", &[]),
            ("B", "library A 0 0 before\n", &[]),
        ],
        Err((66, (b"B", b"", b""))),
    ),
    // An import of that export, which passes on an import or is absolute; and one that leads to itself.
    (
        &[
            ("A", "library M 1 0 -\nimport u data strong\n", &[]),
            ("M", M, REEXPORT),
            ("L", LIBRARY, &[]),
        ],
        Ok((
            &[2, 1, 0],
            &[2, 1, 0],
            &[(1, 0, AT_LIBRARY), (0, 0, AT_LIBRARY)],
        )),
    ),
    (
        &[
            ("A", "library M 1 0 -\nimport u data strong\n", &[]),
            ("M", M, ABSOLUTE),
            ("L", LIBRARY, &[]),
        ],
        Ok((
            &[2, 1, 0],
            &[2, 1, 0],
            &[(1, 0, AT_LIBRARY), (0, 0, Some(Target::Absolute(0)))],
        )),
    ),
    (
        &[(
            "P",
            "versions 1 0 0\nlibrary P 1 0 -\nimport u data strong\nsection m data process 4 4\nexport u data m 0\n",
            REEXPORT,
        )],
        Err((65, (b"P", b"", b"u"))),
    ),
];

#[test]
fn closures(rt: HostRuntime) {
    for row in BOUND {
        let (fragments, wanted) = *row;
        test_closure(&rt, rt.alloc(), fragments, wanted);
    }
}

/// Tests the closure of the first of some fragments.
fn test_closure(
    rt: &impl Abort,
    alloc: Global,
    fragments: &[Fragment],
    wanted: Result<Found, Refusal>,
) {
    let containers = containers(alloc, fragments).expect(rt, "containers");
    let store = store_of(alloc, fragments, &containers).expect(rt, "a store");
    assert!(rt; !store.is_empty());
    match closure(alloc, &store, 0) {
        Ok(closure) => test_found(rt, &closure, wanted),
        Err(fault) => test_refused(rt, fault, wanted),
    }
}

fn test_found(rt: &impl Abort, closure: &Closure<'_>, wanted: Result<Found, Refusal>) {
    let Ok((order, init_order, targets)) = wanted else {
        panic!(rt; "a closure");
    };
    assert!(rt; (closure.order(), closure.init_order()) == (order, init_order));
    for p in closure.order() {
        for j in 0..closure.loader(*p).imports() {
            assert!(rt; targets.contains(&(*p, j, closure.target(*p, j))));
        }
    }
}

fn test_refused(rt: &impl Abort, fault: BindFault<'_>, wanted: Result<Found, Refusal>) {
    let Err((number, names)) = wanted else {
        panic!(rt; "{fault}");
    };
    assert!(rt;
        fault.number() == number && names_in(fault) == names,
        "{fault}"
    );
}

/// Returns the fragment, the library and the symbol in a refusal of one of the rows.
fn names_in<'a>(fault: BindFault<'a>) -> Names<'a> {
    match fault {
        BindFault::LibraryMissing {
            fragment,
            library,
            ..
        } => (fragment, library, b""),
        BindFault::SymbolMissing {
            fragment,
            library,
            symbol,
            ..
        } => (fragment, library, symbol),
        BindFault::ReexportLoop {
            fragment,
            symbol,
            ..
        } => (fragment, b"", symbol),
        BindFault::InitLoop { fragment, .. } => (fragment, b"", b""),
        _ => (b"", b"", b""),
    }
}
