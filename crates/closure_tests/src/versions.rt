use cfm_closure::{Definition, Fit, Implementation, versions_fit};

/// Versions: the current definition version and the oldest implementation version of the definition, then
/// the current implementation version and the oldest definition version of the implementation.
const VERSIONS: &[(u32, u32, u32, u32, Fit)] = &[
    (5, 3, 3, 0, Fit::Fits),
    (5, 3, 2, 0, Fit::TooOld),
    (2, 0, 5, 3, Fit::TooNew),
    (5, 9, 5, 9, Fit::Fits),
    (0xFFFF_FFFF, 0, 0, 0, Fit::Fits),
];

#[test]
fn versions(rt: HostRuntime) {
    for row in VERSIONS {
        let (current, old_imp, found, old_def, wanted) = *row;
        let definition = Definition { current, old_imp };
        let implementation = Implementation {
            current: found,
            old_def,
        };
        assert!(rt;
            versions_fit(definition, implementation) == wanted,
            "{current} and {found}"
        );
    }
}
