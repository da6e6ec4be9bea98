//! How often commands read and write files, also if a call fails, and outputs that fail.
use crate::worked::{VECTORS_LISTED, VECTORS_LOADED};
use pef_tool::FileFault::{self, Failed, OutOfMemory};
use std::test::Fail;
use test_bench::containers::VECTORS_LEAST;
use test_bench::runs::{Handed, assert_cut_output, assert_prints};
use test_bench::scripts::EXAMPLE;

/// Words over two files with the same container; the call of the files that fails, if it isn't 0, and its fault; what is
/// printed, the status, and the numbers of calls that read and write.
type Calls = (
    &'static [&'static str],
    u32,
    FileFault,
    &'static [u8],
    u8,
    (u64, u64),
);

const LIST: &[&str] = &["list", "a"];

const EXTRACT: &[&str] = &["extract", "a", "#0", "out"];

const EXTRACTED: &[u8] = b"extracted 250 bytes\n";

const UNWRITTEN: &[u8] = b"refused 72 FileUnwritable out\n";

const LOAD: &[&str] = &["load", "x=a", "y=b", "x=a"];

const UNREAD: &[u8] = b"refused 71 FileUnreadable a\n";

const NO_MEMORY: &[u8] = b"refused 99 OutOfMemory\n";

const CALLS: &[Calls] = &[
    (LIST, 0, Failed, VECTORS_LISTED, 0, (1, 0)),
    (LIST, 1, Failed, UNREAD, 1, (1, 0)),
    (LIST, 1, OutOfMemory, NO_MEMORY, 1, (1, 0)),
    (EXTRACT, 0, Failed, EXTRACTED, 0, (1, 1)),
    (EXTRACT, 1, Failed, UNREAD, 1, (1, 0)),
    (EXTRACT, 1, OutOfMemory, NO_MEMORY, 1, (1, 0)),
    (EXTRACT, 2, Failed, UNWRITTEN, 1, (1, 1)),
    (EXTRACT, 2, OutOfMemory, NO_MEMORY, 1, (1, 1)),
    // each file is read, in order, also one whose name was given before
    (LOAD, 0, Failed, VECTORS_LOADED, 0, (3, 0)),
    (LOAD, 1, Failed, UNREAD, 1, (1, 0)),
    (LOAD, 2, Failed, b"refused 71 FileUnreadable b\n", 1, (2, 0)),
    (LOAD, 3, Failed, UNREAD, 1, (3, 0)),
    (LOAD, 1, OutOfMemory, NO_MEMORY, 1, (1, 0)),
    (LOAD, 2, OutOfMemory, NO_MEMORY, 1, (2, 0)),
    (LOAD, 3, OutOfMemory, NO_MEMORY, 1, (3, 0)),
    // no port is used if the command line is invalid, or asks for the version
    (&["show", "it"], 0, Failed, b"usage\n", 2, (0, 0)),
    (&["list", "a", "b"], 0, Failed, b"usage\n", 2, (0, 0)),
    (&["load", "x=a", "b"], 0, Failed, b"usage\n", 2, (0, 0)),
    (&["--version"], 0, Failed, b"pef 0.1.0\n", 0, (0, 0)),
];

/// Nothing is read from the input.
#[test]
fn calls(rt: HostRuntime) -> Result<(), Fail> {
    for row in CALLS {
        let (words, files_fail_at, fault, printed, status, calls) = *row;
        let handed = Handed {
            input: EXAMPLE,
            files_fail_at,
            fault,
            ..Handed::files(words, VECTORS_LEAST, VECTORS_LEAST)
        };
        let outcome = assert_prints(rt.alloc(), handed, printed, status)?;
        outcome.assert_calls(calls)?;
        assert!(rt; outcome.has(b"a", VECTORS_LEAST) && outcome.left == EXAMPLE.len());
    }
    Ok(())
}

/// A prefix of the answer is written, up to the call that fails. The last answer is an error with names, which is written byte
/// by byte.
#[test]
fn output_fails(rt: HostRuntime) -> Result<(), Fail> {
    let script = b"library it 0 0 -\nimport a%b data strong\n";
    let rows: [(Handed<'_>, &[u8]); 3] = [
        (Handed::file(LIST, VECTORS_LEAST), VECTORS_LISTED),
        (Handed::file(EXTRACT, VECTORS_LEAST), EXTRACTED),
        (
            Handed::input(&["show"], script),
            b"refused 62 SymbolMissing in it library it symbol a%25b\n",
        ),
    ];
    for (handed, printed) in rows {
        assert_cut_output(rt.alloc(), handed, printed)?;
    }
    Ok(())
}
