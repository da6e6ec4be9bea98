use std::test::Fail;
use test_bench::runs::{Handed, assert_cut_output, assert_prints, assert_unreadable};
use test_bench::scripts::{VECTORS, VECTORS_CERTIFIED};

const WORDS: [&str; 2] = ["distances", "a"];

/// Two imports in turn.
const IMPORTS: &[u8] =
    b"library l 0 0 -\nimport i data strong\nimport j data strong\nsection a data process 4 8\nfix a 0 import i\nfix a 4 import j\n";

/// Their certificate, of which the first two rows are equal.
const IMPORTS_CERTIFIED: &[u8] =
    b"pefcert 2\nsection 0\nfixups 2\nlength 1\nprogram 4A01\nregisters *\nat 0 1 1\nat 2 2 0\nend\n";

#[test]
fn distances(rt: HostRuntime) -> Result<(), Fail> {
    for (script, printed) in [(VECTORS, VECTORS_CERTIFIED), (IMPORTS, IMPORTS_CERTIFIED)] {
        let handed = Handed::file(&WORDS, script);
        let outcome = assert_prints(rt.alloc(), handed, printed, 0)?;
        assert!(rt; outcome.has(b"a", script));
        outcome.assert_calls((1, 0))?;
    }
    Ok(())
}

#[test]
fn distances_unreadable(rt: HostRuntime) -> Result<(), Fail> {
    assert_unreadable(rt.alloc(), "distances", VECTORS)
}

#[test]
fn distances_output_fails(rt: HostRuntime) -> Result<(), Fail> {
    assert_cut_output(rt.alloc(), Handed::file(&WORDS, VECTORS), VECTORS_CERTIFIED)
}
