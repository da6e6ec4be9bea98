use pef_tool::FileFault;
use std::test::Fail;
use test_bench::runs::{Handed, assert_cut_output, assert_prints};
use test_bench::scripts::{VECTORS, VECTORS_CERTIFIED};

const WORDS: [&str; 3] = ["check", "a", "b"];

/// What is printed of the certificates of both sections.
const CHECKED: &[u8] = b"section 0 yes 0\nsection 1 yes 1\n";

/// Certificates with a label of section 1 that is too small, and one with a label that is too great.
const LABELS_BELOW: &[u8] = b"\
      pefcert 1\nsection 0\nfixups 0\nlength 0\nprogram -\nregisters *\nat 0 0\n\
      section 1\nfixups 4\nlength 1\nprogram 4601\nregisters 0 1 *\n\
      at 0 2 0 2 3 2 3 3 2 3\nat 1 3 2 3 2 3 3 3 3 3\nat 2 2 1 2 2 2 2 2 2 2\n\
      at 3 1 1 1 1 1 1 1 1 1\nat 4 0 0 0 0 0 0 0 0 0\nend\n";

const LABELS_ABOVE: &[u8] = b"\
      pefcert 1\nsection 0\nfixups 0\nlength 0\nprogram -\nregisters *\nat 0 0\n\
      section 1\nfixups 4\nlength 1\nprogram 4601\nregisters 0 1 *\n\
      at 0 9 1 2 3 2 3 3 2 3\nat 1 3 2 3 2 3 3 3 3 3\nat 2 2 1 2 2 2 2 2 2 2\n\
      at 3 1 1 1 1 1 1 1 1 1\nat 4 0 0 0 0 0 0 0 0 0\nend\n";

/// Scripts and certificates, the output, and the status.
const CHECKS: &[(&[u8], &[u8], &[u8], u8)] = &[
    (VECTORS, VECTORS_CERTIFIED, CHECKED, 0),
    (VECTORS, LABELS_BELOW, b"section 0 yes 0\nsection 1 no\n", 1),
    (VECTORS, LABELS_ABOVE, b"section 0 yes 0\nsection 1 no\n", 1),
    (
        VECTORS,
        b"pefcert 1\nend\n",
        b"refused 52 SectionsDiffer\n",
        1,
    ),
];

#[test]
fn check(rt: HostRuntime) -> Result<(), Fail> {
    for row in CHECKS {
        let (script, certificates, printed, status) = *row;
        let handed = Handed::files(&WORDS, script, certificates);
        let outcome = assert_prints(rt.alloc(), handed, printed, status)?;
        outcome.assert_calls((2, 0))?;
        assert!(rt; outcome.has(b"a", script) && outcome.has(b"b", certificates));
    }
    Ok(())
}

/// The call that fails, how it fails, the output, and the calls.
const FAILING: &[(u32, FileFault, &[u8], (u64, u64))] = &[
    (
        1,
        FileFault::Failed,
        b"refused 71 FileUnreadable a\n",
        (1, 0),
    ),
    (
        2,
        FileFault::Failed,
        b"refused 71 FileUnreadable b\n",
        (2, 0),
    ),
    (
        1,
        FileFault::OutOfMemory,
        b"refused 99 OutOfMemory\n",
        (1, 0),
    ),
    (
        2,
        FileFault::OutOfMemory,
        b"refused 99 OutOfMemory\n",
        (2, 0),
    ),
];

#[test]
fn check_unreadable(rt: HostRuntime) -> Result<(), Fail> {
    for row in FAILING {
        let (files_fail_at, fault, printed, calls) = *row;
        let handed = Handed {
            step: 1000,
            files_fail_at,
            fault,
            ..Handed::files(&WORDS, b"no line\n", b"")
        };
        assert_prints(rt.alloc(), handed, printed, 1)?.assert_calls(calls)?;
    }
    Ok(())
}

#[test]
fn check_output_fails(rt: HostRuntime) -> Result<(), Fail> {
    let handed = Handed::files(&WORDS, VECTORS, VECTORS_CERTIFIED);
    assert_cut_output(rt.alloc(), handed, CHECKED)
}
