use pef_cert::{Certificate, CertificateReader};
use std::alloc::Global;
use std::process::Abort;

/// Returns the line of a refusal, or `None` if the text is read. Stops if an allocation fails.
fn refused_line(rt: &impl Abort, alloc: Global, text: &str) -> Option<usize> {
    match Certificate::read(alloc, text.as_bytes()) {
        Ok(_) => None,
        Err(fault) => Some(fault.line().expect(rt, "memory")),
    }
}

/// Texts, and the number of the line that is refused.
const TEXTS: &[(&str, usize)] = &[
    ("pefcert 3", 1),
    ("pefcert 1\nsection 0\nfixups 65537\n", 3),
    ("pefcert 2\nsection 0\nfixups 65537\n", 3),
    (
        "pefcert 1\nsection 0\nfixups 0\nlength 0\nprogram -\nregisters 0 1 2 3 4 5 6 7 8 9 10 11 12 13 14 15 16 *\n",
        6,
    ),
    (
        "pefcert 2\nsection 0\nfixups 0\nlength 0\nprogram -\nregisters 0 1 2 3 4 5 6 7 8 9 10 11 12 13 14 15 16 *\n",
        6,
    ),
];

#[test]
fn texts(rt: HostRuntime) {
    for row in TEXTS {
        let (text, line) = *row;
        assert!(rt; refused_line(&rt, rt.alloc(), text) == Some(line), "{text}");
    }
}

/// The lines before the ranges of a certificate with three fixups, of which the last is line 6.
const BEFORE_RANGES: &str =
    "pefcert 2\nsection 2\nfixups 3\nlength 2\nprogram 6402 4202\nregisters 2 *\n";

/// Lines after these, and the number of the line that is refused.
const RANGES: &[(&str, usize)] = &[
    // equal neighbours
    (
        "at 0 0 1 1 1 2\nat 1 1 1 1 1 2\nat 2 2 1 1 1 1\nat 3 3 0 0 0 0\nend\n",
        8,
    ),
    // a range that ends before it begins
    ("at 0 1 1 1 1 2\nat 2 1 1 1 1 1\nat 2 3 0 0 0 0\nend\n", 8),
    // a gap, and an index twice
    ("at 0 1 1 1 1 2\nat 3 3 0 0 0 0\nend\n", 8),
    ("at 0 1 1 1 1 2\nat 1 2 1 1 1 1\nat 3 3 0 0 0 0\nend\n", 8),
    // a range that ends above the number of fixups, and a last one that ends early
    ("at 0 4 0 0 0 0\nend\n", 7),
    ("at 0 2 0 0 0 0\nend\n", 8),
];

#[test]
fn ranges(rt: HostRuntime) {
    for row in RANGES {
        let (lines, line) = *row;
        let text = format!(in rt.alloc(); "{BEFORE_RANGES}{lines}").expect(&rt, "memory");
        assert!(rt;
            refused_line(&rt, rt.alloc(), &text) == Some(line),
            "{lines}"
        );
    }
}

/// A text without certificates, read one by one.
#[test]
fn none_left(rt: HostRuntime) {
    let mut reader = CertificateReader::new(b"pefcert 2\nend\n").expect(&rt, "version");
    let next = reader.next_certificate(rt.alloc()).expect(&rt, "lines");
    assert!(rt; next.is_none());
}
