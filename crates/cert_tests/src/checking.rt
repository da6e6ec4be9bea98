use crate::texts::{TOO_HIGH, WORDS};
use pef_cert::{Certificate, check};
use pef_reloc::fixups_fit;
use std::alloc::Global;
use std::process::Abort;
use test_data::lists::{Listed, S2, fixups};

const THREE: Listed = &[(0, S2), (4, S2), (8, S2)];

/// Returns whether the first certificate of a text is accepted for these fixups.
fn is_yes(rt: &impl Abort, alloc: Global, text: &str, listed: Listed) -> bool {
    let certificates = Certificate::read(alloc, text.as_bytes()).expect(rt, "certificates");
    let first = certificates.first().expect(rt, "a certificate");
    let fixups = fixups(alloc, listed).expect(rt, "memory");
    assert!(rt; fixups_fit(&fixups));
    check(&fixups, first)
}

#[test]
fn checked(rt: HostRuntime) {
    for (text, want) in [(WORDS, true), (TOO_HIGH, false)] {
        assert!(rt; is_yes(&rt, rt.alloc(), text, THREE) == want, "{text}");
    }
}
