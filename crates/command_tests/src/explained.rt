//! Explanations of runs whose ports fail, on an output of their own, which may fail, too.
use pef_tool::FileFault;
use std::test::Fail;
use test_bench::runs::{Handed, assert_explains, run_explained, show_endless};
use test_bench::scripts::{EXAMPLE, VECTORS};

/// An input, an allocation and an output that fail: the text that is printed, and how the explanation begins.
#[test]
fn ports(rt: HostRuntime) -> Result<(), Fail> {
    let show = Handed::input(&["show"], EXAMPLE);
    let input_fails = Handed {
        input_fails_at: 1,
        ..show
    };
    let lacks_memory = Handed {
        files_fail_at: 1,
        fault: FileFault::OutOfMemory,
        ..Handed::file(&["list", "a"], EXAMPLE)
    };
    let cut = Handed {
        out_fails_at: 3,
        ..show
    };
    let rows: [(Handed<'_>, &[u8], &[u8]); 3] = [
        (
            input_fails,
            b"refused 73 InputUnreadable\n",
            b"Reading the standard input failed. Check the program at the other end of the pipe, and run the command again.\n",
        ),
        (
            lacks_memory,
            b"refused 99 OutOfMemory\n",
            b"An allocation failed. Give the program more memory.\n",
        ),
        (
            cut,
            b"fr",
            b"The standard output failed, so a part of the answer may be missing.\n",
        ),
    ];
    for (handed, printed, begins) in rows {
        assert_explains(rt.alloc(), handed, printed, 1, begins)?;
    }
    Ok(())
}

/// An input that is longer than the limit.
#[test]
fn long_input(rt: HostRuntime) -> Result<(), Fail> {
    let (printed, explained) = show_endless(rt.alloc())?;
    assert!(rt; printed.as_slice() == b"refused 74 InputTooLong\n".as_slice());
    let begins =
        b"The standard input has more than 536,870,912 bytes. Check what was piped in: a script isn't that long.\n";
    assert!(rt; explained.as_slice().starts_with(begins));
    Ok(())
}

/// If the explanation's output fails at a call, a prefix is written, and the answer and the status are the same.
#[test]
fn notes_fail(rt: HostRuntime) -> Result<(), Fail> {
    let rows: [(Handed<'_>, &[u8], u8); 2] = [
        (
            Handed::file(&["list", "a"], b"Joy!"),
            b"refused 1 TooShort\n",
            1,
        ),
        (Handed::input(&["frob"], VECTORS), b"usage\n", 2),
    ];
    for (handed, printed, status) in rows {
        let (_, explained) = run_explained(rt.alloc(), handed, 0)?;
        for k in 0..explained.len() {
            let (outcome, cut) = run_explained(rt.alloc(), handed, k + 1)?;
            assert!(rt; outcome.printed.as_slice() == printed && outcome.status == status);
            assert!(rt; cut.as_slice() == &explained.as_slice()[..k]);
        }
    }
    Ok(())
}
