use pef_tool::FileFault;
use std::test::Fail;
use test_bench::runs::{Handed, assert_cut_output, assert_prints};

/// The number of places at which the resource fork of a file is looked for, if its path has no folder.
const PLACES: u64 = 8;

/// A file that can't be read, or whose reading lacks memory, is an error of that file.
const UNREAD: &[(FileFault, &[u8])] = &[
    (
        FileFault::Failed,
        b"file a\nerror 71 FileUnreadable\ntotal containers 0 errors 1 notes 0\nfile b size 1 format other\ntotal containers 0 errors 0 notes 0\n",
    ),
    (
        FileFault::OutOfMemory,
        b"file a\nerror 99 OutOfMemory\ntotal containers 0 errors 1 notes 0\nfile b size 1 format other\ntotal containers 0 errors 0 notes 0\n",
    ),
];

#[test]
fn inspect_unread(rt: HostRuntime) -> Result<(), Fail> {
    for row in UNREAD {
        let (fault, printed) = *row;
        let words = ["inspect", "a", "b"];
        let handed = Handed {
            files_fail_at: 1,
            fault,
            looks: PLACES,
            ..Handed::files(&words, b"a", b"b")
        };
        assert_prints(rt.alloc(), handed, printed, 1)?.assert_calls((2 + PLACES, 0))?;
    }
    Ok(())
}

#[test]
fn inspect_output_fails(rt: HostRuntime) -> Result<(), Fail> {
    let words = ["inspect", "a"];
    let handed = Handed {
        looks: PLACES,
        ..Handed::file(&words, b"")
    };
    assert_cut_output(
        rt.alloc(),
        handed,
        b"file a size 0 format other\ntotal containers 0 errors 0 notes 0\n",
    )
}
