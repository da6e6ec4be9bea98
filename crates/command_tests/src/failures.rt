use crate::worked::{VECTORS_LISTED, VECTORS_LOADED};
use pef_ports::{InputFault, read_input};
use pef_tool::FileFault;
use std::alloc::Global;
use std::fmt::Write;
use std::test::Fail;
use test_bench::containers::VECTORS_LEAST;
use test_bench::ports::Text;
use test_bench::runs::{Handed, assert_cut_output, assert_cut_writes, assert_prints};
use test_bench::scripts::{EXAMPLE, EXAMPLE_SHOWN, VECTORS, VECTORS_CERTIFIED, VECTORS_LINKED};

#[test]
fn show_output_fails(rt: HostRuntime) -> Result<(), Fail> {
    let show = Handed {
        step: 1,
        ..Handed::input(&["show"], EXAMPLE)
    };
    assert_prints(rt.alloc(), show, EXAMPLE_SHOWN, 0)?;
    assert_cut_output(rt.alloc(), show, EXAMPLE_SHOWN)
}

/// An output that takes one byte a call and fails at call k: k - 1 bytes are written, and the whole container was
/// written before.
#[test]
fn link_output_fails(rt: HostRuntime) -> Result<(), Fail> {
    for k in 1..=VECTORS_LINKED.len() {
        let handed = Handed {
            step: 1,
            out_fails_at: k,
            ..Handed::file(&["link", "a", "out"], VECTORS)
        };
        let outcome = assert_prints(rt.alloc(), handed, &VECTORS_LINKED[..k - 1], 1)?;
        assert!(rt; outcome.has(b"out", VECTORS_LEAST));
    }
    Ok(())
}

#[test]
fn load_output_fails(rt: HostRuntime) -> Result<(), Fail> {
    let handed = Handed::file(&["load", "x=a"], VECTORS_LEAST);
    assert_cut_output(rt.alloc(), handed, VECTORS_LOADED)
}

/// Short answers are written by one call. If it fails, nothing is written.
#[test]
fn only_write_fails(rt: HostRuntime) -> Result<(), Fail> {
    let checked = b"section 0 yes 0\nsection 1 yes 1\n".as_slice();
    let rows = [
        (Handed::input(&["show"], EXAMPLE), EXAMPLE_SHOWN),
        (Handed::file(&["link", "a", "out"], VECTORS), VECTORS_LINKED),
        (Handed::file(&["list", "a"], VECTORS_LEAST), VECTORS_LISTED),
        (
            Handed::file(&["load", "x=a"], VECTORS_LEAST),
            VECTORS_LOADED,
        ),
        (
            Handed::file(&["distances", "a"], VECTORS),
            VECTORS_CERTIFIED,
        ),
        (
            Handed::files(&["check", "a", "b"], VECTORS, VECTORS_CERTIFIED),
            checked,
        ),
    ];
    for (handed, printed) in rows {
        assert!(rt; assert_cut_writes(rt.alloc(), handed, printed)? == 1);
    }
    Ok(())
}

/// The whole container is written before the only write fails.
#[test]
fn link_writes_first(rt: HostRuntime) -> Result<(), Fail> {
    let handed = Handed {
        step: 1000,
        out_fails_at: 1,
        ..Handed::file(&["link", "a", "out"], VECTORS)
    };
    let outcome = assert_prints(rt.alloc(), handed, b"", 1)?;
    assert!(rt; outcome.has(b"out", VECTORS_LEAST));
    Ok(())
}

/// Returns the text that `show` prints of a section of 20,000 zero bytes.
fn shown_zeros(alloc: Global) -> Result<String, Fail> {
    let mut text = String::from_str(alloc, "fragment it\nsection 0 at 00010000 size 20000\n")?;
    for row in 0..1250u32 {
        let address = row.wrapping_mul(16).wrapping_add(0x0001_0000);
        writeln!(text, "{address:08X} 00000000 00000000 00000000 00000000")?;
    }
    Ok(text)
}

/// A long answer is written by several calls.
#[test]
fn each_write_fails(rt: HostRuntime) -> Result<(), Fail> {
    let shown = shown_zeros(rt.alloc())?;
    let handed = Handed::input(&["show"], b"section d data process 4 20000\n");
    assert!(rt; assert_cut_writes(rt.alloc(), handed, shown.as_bytes())? > 1);
    Ok(())
}

/// An input that gives seven bytes a call and fails at call k. It isn't read after that, though it would continue.
#[test]
fn input_fails(rt: HostRuntime) -> Result<(), Fail> {
    for k in 1..=EXAMPLE.len() / 7 + 1 {
        let handed = Handed {
            step: 7,
            input_fails_at: k as u32,
            ..Handed::input(&["show"], EXAMPLE)
        };
        let printed = b"refused 73 InputUnreadable\n";
        let outcome = assert_prints(rt.alloc(), handed, printed, 1)?;
        assert!(rt; outcome.left == EXAMPLE.len() - 7 * (k - 1));
    }
    Ok(())
}

/// Inputs that are read with a limit, and the answer to each.
#[test]
fn input_with_limit(rt: HostRuntime) {
    let rows: [(&[u8], u32, usize, Result<usize, InputFault>); 6] = [
        (b"12345", 0, 5, Ok(5)),
        (b"12345", 0, 4, Err(InputFault::TooLong)),
        (b"12345", 0, 0, Err(InputFault::TooLong)),
        (b"", 0, 0, Ok(0)),
        (b"12345", 2, 5, Err(InputFault::Unreadable)),
        (b"12345", 3, 4, Err(InputFault::TooLong)),
    ];
    for (bytes, fails_at, limit, answer) in rows {
        let mut input = Text::new(bytes, 3, fails_at);
        let read = read_input(rt.alloc(), &mut input, limit).map(|text| text.len());
        assert!(rt; read == answer, "{limit} of {bytes:?}");
    }
}

/// Files that fail at a call, or whose allocation fails at it: the text that `link` prints, and the calls that it made.
const FAILING: &[(u32, FileFault, &[u8], (u64, u64))] = &[
    (
        1,
        FileFault::Failed,
        b"refused 71 FileUnreadable a\n",
        (1, 0),
    ),
    (
        2,
        FileFault::Failed,
        b"refused 72 FileUnwritable out\n",
        (1, 1),
    ),
    (
        1,
        FileFault::OutOfMemory,
        b"refused 99 OutOfMemory\n",
        (1, 0),
    ),
    (
        2,
        FileFault::OutOfMemory,
        b"refused 99 OutOfMemory\n",
        (1, 1),
    ),
];

#[test]
fn files_fail(rt: HostRuntime) -> Result<(), Fail> {
    for row in FAILING {
        let (files_fail_at, fault, printed, calls) = *row;
        let handed = Handed {
            step: 1000,
            files_fail_at,
            fault,
            ..Handed::file(&["link", "a", "out"], EXAMPLE)
        };
        let outcome = assert_prints(rt.alloc(), handed, printed, 1)?;
        outcome.assert_calls(calls)?;
        assert!(rt; outcome.has(b"a", EXAMPLE));
        assert!(rt; outcome.papers.bytes(b"out").is_none());
    }
    Ok(())
}
