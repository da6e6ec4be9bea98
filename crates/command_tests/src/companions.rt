//! The calls on files by which `inspect`, `extract`, `prepare` and `stubs` look for a resource fork in another file, and what they report if
//! reading it lacks memory.

use pef_tool::FileFault;
use std::alloc::Global;
use std::test::Fail;
use test_bench::mac_files::fragment_fork;
use test_bench::ports::Papers;
use test_bench::runs::{assert_prints_over, put_file, run_over};

/// A data fork of 264 bytes without a container.
const DATA_FORK: &[u8] = &[0; 264];

/// Paths and bytes. The bytes `r` are a resource fork.
type Contents = &'static [(&'static str, &'static [u8])];

/// Files beside the file `d/a`, the words, and the numbers of `read` calls, of calls that fail, and of `write` calls.
const CALLS: &[(Contents, &[&str], u64, u64, u64)] = &[
    (&[("d/._a", b"r")], &["inspect", "d/a"], 2, 0, 0),
    (&[("d/__MACOSX/._a", b"r")], &["inspect", "d/a"], 3, 1, 0),
    (&[("d/.AppleDouble/a", b"r")], &["inspect", "d/a"], 4, 2, 0),
    (&[("d/.rsrc/a", b"r")], &["inspect", "d/a"], 5, 3, 0),
    (&[("d/a.rsrc", b"r")], &["inspect", "d/a"], 6, 4, 0),
    (&[("d/%a", b"r")], &["inspect", "d/a"], 7, 5, 0),
    (&[("d/resource.frk/a", b"r")], &["inspect", "d/a"], 8, 6, 0),
    (&[("d/.resource/a", b"r")], &["inspect", "d/a"], 9, 7, 0),
    (
        &[("d/%a", b"r"), ("d/a.rsrc", b"r")],
        &["inspect", "d/a"],
        6,
        4,
        0,
    ),
    (
        &[("d/._a", b"text"), ("d/.rsrc/a", b"r")],
        &["inspect", "d/a"],
        5,
        2,
        0,
    ),
    // folders above, the nearest first
    (&[("__MACOSX/d/._a", b"r")], &["inspect", "d/a"], 10, 8, 0),
    (
        &[("x/y/a", DATA_FORK), ("x/__MACOSX/y/._a", b"r")],
        &["inspect", "x/y/a"],
        10,
        8,
        0,
    ),
    (
        &[("x/y/a", DATA_FORK), ("__MACOSX/x/y/._a", b"r")],
        &["inspect", "x/y/a"],
        11,
        9,
        0,
    ),
    (
        &[("/x/a", DATA_FORK), ("/__MACOSX/x/._a", b"r")],
        &["inspect", "/x/a"],
        10,
        8,
        0,
    ),
    (&[("d/._a", b"")], &["inspect", "d/a"], 10, 8, 0),
    // up to a folder without a name
    (&[("../a", DATA_FORK)], &["inspect", "../a"], 9, 8, 0),
    (&[("./d/a", DATA_FORK)], &["inspect", "./d/a"], 10, 9, 0),
    (&[("/a", DATA_FORK)], &["inspect", "/a"], 9, 8, 0),
    (&[("x//a", DATA_FORK)], &["inspect", "x//a"], 9, 8, 0),
    // No other file is looked for.
    (&[("._b", b"text")], &["inspect", "._b"], 1, 0, 0),
    (&[("d/._b", b"text")], &["inspect", "d/._b"], 1, 0, 0),
    (
        &[("cut", b"\x00\x05\x16\x07\x00\x02")],
        &["inspect", "cut"],
        1,
        0,
        0,
    ),
    (&[], &["inspect", "-"], 0, 0, 0),
    (
        &[("t", b"text")],
        &["inspect", "--resources", "t", "d/a"],
        2,
        0,
        0,
    ),
    (&[], &["inspect", "d/a", "--resources=none"], 2, 1, 0),
    (
        &[("r", b"r")],
        &["inspect", "--resources", "r", "none"],
        1,
        1,
        0,
    ),
    (
        &[("d/._a", b"r")],
        &["extract", "d/a", "Calc", "out"],
        2,
        0,
        1,
    ),
    (
        &[("d/%a", b"r")],
        &["extract", "d/a", "Drv", "out"],
        7,
        5,
        1,
    ),
    (
        &[("d/._a", b"r")],
        &["extract", "d/a", "calc", "out"],
        2,
        0,
        0,
    ),
    (
        &[("._a", b"r")],
        &["extract", "d/a", "Calc", "out"],
        10,
        9,
        0,
    ),
    (
        &[("d/._a", b"r")],
        &["extract", "d/a", "#0", "out"],
        1,
        0,
        0,
    ),
    (&[("d/._a", b"r")], &["prepare", "d/a"], 2, 0, 0),
    (&[("d/%a", b"r")], &["prepare", "N=d/a"], 7, 5, 0),
    (&[("d/._a", b"r")], &["stubs", "d/a"], 2, 0, 0),
    (&[], &["prepare", "d/a", "none"], 11, 10, 0),
    (
        &[("d/._a", b"r")],
        &["prepare", "d/a", "--library", "none"],
        3,
        1,
        0,
    ),
];

#[test]
fn calls_of_companions(rt: HostRuntime) -> Result<(), Fail> {
    for row in CALLS {
        let (others, words, reads, failures, writes) = *row;
        let mut papers = papers(rt.alloc(), others)?;
        run_over(rt.alloc(), &mut papers, words)?;
        assert!(rt; papers.calls() == (reads, writes), "{words:?}");
        assert!(rt; papers.failures() == failures, "{words:?}");
    }
    Ok(())
}

/// Returns the file `d/a` with others beside it.
fn papers(alloc: Global, others: Contents) -> Result<Papers, Fail> {
    let mut papers = Papers::new(alloc, 0, FileFault::Failed);
    put_file(&mut papers, "d/a", DATA_FORK)?;
    for other in others {
        let (path, bytes) = *other;
        if bytes == b"r".as_slice() {
            let fork = fragment_fork(alloc, &[]).ok_or("no fork")?;
            put_file(&mut papers, path, fork.as_slice())?;
        } else {
            put_file(&mut papers, path, bytes)?;
        }
    }
    Ok(papers)
}

/// What is printed if reading the first place lacks memory: no further place is looked at, and that is an error of the
/// data fork.
const LACKING: &[(&[&str], &[u8])] = &[
    (
        &["inspect", "d/a"],
        b"file d/a size 264 format other\ntotal containers 0 errors 0 notes 0\nfile d/a\nerror 99 OutOfMemory\ntotal containers 0 errors 1 notes 0\n",
    ),
    (
        &["extract", "d/a", "Calc", "out"],
        b"refused 99 OutOfMemory\n",
    ),
];

#[test]
fn lacking_companions(rt: HostRuntime) -> Result<(), Fail> {
    for row in LACKING {
        let (words, printed) = *row;
        let mut papers = Papers::new(rt.alloc(), 2, FileFault::OutOfMemory);
        put_file(&mut papers, "d/a", DATA_FORK)?;
        put_file(&mut papers, "d/._a", b"text")?;
        assert_prints_over(rt.alloc(), &mut papers, words, printed, 1)?;
        assert!(rt; papers.calls() == (2, 0));
    }
    Ok(())
}
