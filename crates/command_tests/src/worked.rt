//! Worked examples of `show`, `link`, `list` and `load`.
use pef_tool::FileFault;
use std::alloc::Global;
use std::test::Fail;
use test_bench::changes::{At, changed};
use test_bench::containers::{RICH, SPELLED, VECTORS_LEAST};
use test_bench::ports::Papers;
use test_bench::runs::{
    Handed, assert_prints, assert_prints_over, assert_shows, put_file, put_linked, run_over,
    run_tool,
};
use test_bench::scripts::{EXAMPLE, EXAMPLE_SHOWN, LIBRARY, USER, VECTORS, VECTORS_LINKED};

/// Scripts on the input, the text that `show` prints of them, and its status. The last ones are their own library.
const SHOWN: &[(&[u8], &[u8], u8)] = &[
    (EXAMPLE, EXAMPLE_SHOWN, 0),
    (b"", b"fragment it\n", 0),
    (
        VECTORS,
        b"fragment it\nsection 0 at 00010000 size 8\n00010000 00112233 44556677\nsection 1 at 00010010 size 16\n00010010 00010000 00010010 00010004 00010010\nmain 00010010\n",
        0,
    ),
    (
        b"section d pattern process 4 16\nbytes d 11223344000000080102\nfix d 4 section d\nfix d 12 section d\n",
        EXAMPLE_SHOWN,
        0,
    ),
    (
        b"versions 1 0 0\nlibrary it 1 0 -\nimport u data strong\nsection m data process 4 4\nbytes m 00000001\nfix m 0 import u\nexport u data m 0\n",
        b"fragment it\nsection 0 at 00010000 size 4\n00010000 00010001\n",
        0,
    ),
    (
        b"versions 1 0 0\nlibrary it 1 0 before\nimport u data strong\nsection m data process 4 4\nbytes m 00000001\nfix m 0 import u\nexport u data m 0\n",
        b"refused 66 InitLoop in it\n",
        1,
    ),
];

/// The whole input is read, and no file.
#[test]
fn show(rt: HostRuntime) -> Result<(), Fail> {
    for row in SHOWN {
        let (script, printed, status) = *row;
        assert_shows(rt.alloc(), script, printed, status)?;
    }
    Ok(())
}

/// The script is read and the container written, each by one call, and nothing is read from the input.
#[test]
fn link(rt: HostRuntime) -> Result<(), Fail> {
    let handed = Handed {
        input: EXAMPLE,
        ..Handed::file(&["link", "a", "out"], VECTORS)
    };
    let outcome = assert_prints(rt.alloc(), handed, VECTORS_LINKED, 0)?;
    assert!(rt; outcome.has(b"out", VECTORS_LEAST) && outcome.left == EXAMPLE.len());
    outcome.assert_calls((1, 1))
}

/// The listing of the container of the script with two transition vectors.
pub(crate) const VECTORS_LISTED: &[u8] = b"\
container current 1 olddef 0 oldimp 0 date 0
section 0 kind 0 share 4 align 4 total 8 unpacked 8 packed 8 default 00000000 name -
section 1 kind 1 share 1 align 4 total 16 unpacked 16 packed 16 default 00000000 name -
section 2 kind 4 share 4 align 4 total 0 unpacked 0 packed 90 default 00000000 name -
main 1 00000000
reloc section 1 halfwords 1
4601 TVector8 2
export go class 2 section 1 value 00000000
";

/// Lines of the listing of the container with each kind of instruction.
const LINES: &[&str] = &[
    "\n0041 BySectDWithSkip 1 1\n",
    "\n8FFF IncrPosition 4096\n",
    "\n9001 SmRepeat 1 2\n",
    "\nB000 0003 LgRepeat 1 3\n",
    "\nA000 0004 SetPosition 4\n",
    "\nA400 0258 LgByImport 600\n",
    "\nB440 0002 LgSetSectC 2\n",
    "\n61FF SmByImport 511\n",
];

#[test]
fn list_instructions(rt: HostRuntime) -> Result<(), Fail> {
    let outcome = run_tool(rt.alloc(), Handed::file(&["list", "a"], RICH))?;
    let Ok(text) = str::from_utf8(outcome.printed.as_slice()) else {
        return Err(Fail::new("no text"));
    };
    for line in LINES {
        assert!(rt; text.contains(line), "{line}");
    }
    Ok(())
}

/// The text that `load x=` prints of the container of the script with two transition vectors.
pub(crate) const VECTORS_LOADED: &[u8] =
    b"fragment x\nsection 0 at 00010000 size 8\n00010000 00112233 44556677\nsection 1 at 00010010 size 16\n00010010 00010000 00010010 00010004 00010010\nmain 00010010\n";

/// Scripts, and the paths of their containers.
const SCRIPTS: &[(&str, &str)] = &[
    ("user", USER),
    ("library", LIBRARY),
    (
        "weak-symbol",
        "library L 1 0 -\nimport w data weak\nsection a data process 4 4\nbytes a 00000007\nfix a 0 import w\n",
    ),
    (
        "strong-symbol",
        "library L 1 0 -\nimport w data strong\nsection a data process 4 4\nbytes a 00000007\nfix a 0 import w\n",
    ),
    (
        "weak-library",
        "library L 1 0 weak\nimport v data strong\nsection a data process 4 4\nbytes a 00000007\nfix a 0 import v\n",
    ),
    ("before-a", "library A 0 0 before\n"),
    ("before-b", "library B 0 0 before\n"),
    (
        "again",
        "versions 1 0 0\nlibrary L 1 0 -\nimport v data strong\nsection m data process 4 4\nreexport u data v\n",
    ),
];

/// Words over their containers, what is printed, and the status.
const LOADS: &[(&[&str], &[u8], u8)] = &[
    (&["load", "x=vectors"], VECTORS_LOADED, 0),
    (
        &["load", "A=weak-symbol", "L=library"],
        b"fragment L\nsection 0 at 00010000 size 4\n00010000 0000002A\nfragment A\nsection 0 at 00010010 size 4\n00010010 00000007\n",
        0,
    ),
    (
        &["load", "A=weak-library"],
        b"fragment A\nsection 0 at 00010000 size 4\n00010000 00000007\n",
        0,
    ),
    (
        &["load", "A=strong-symbol", "L=library"],
        b"refused 62 SymbolMissing in A library L symbol w\n",
        1,
    ),
    (
        &["load", "A=user"],
        b"refused 61 LibraryMissing in A library L\n",
        1,
    ),
    (
        &["load", "A=before-b", "B=before-a"],
        b"refused 66 InitLoop in B\n",
        1,
    ),
    (&["load", "x=steps"], b"refused 36 TooManySteps in x\n", 1),
    (
        &["load", "x=missing"],
        b"refused 71 FileUnreadable missing\n",
        1,
    ),
    (&["load"], b"usage\n", 2),
];

/// Puts these containers, and others, at their paths.
fn put_files(alloc: Global, papers: &mut Papers) -> Result<(), Fail> {
    for (path, script) in SCRIPTS {
        put_linked(alloc, papers, path, script.as_bytes())?;
    }
    put_file(papers, "vectors", VECTORS_LEAST)?;
    let program = b"\x80\x00\x80\x00\x80\x00\x80\x00\xB0\xFF\xFF\xFF";
    let steps = changed(alloc, SPELLED, At::Front(180), program).ok_or("no such place")?;
    put_file(papers, "steps", &steps)
}

fn test_loads(alloc: Global, papers: &mut Papers) -> Result<(), Fail> {
    for row in LOADS {
        let (words, printed, status) = *row;
        assert_prints_over(alloc, papers, words, printed, status)?;
    }
    Ok(())
}

#[test]
fn load(rt: HostRuntime) -> Result<(), Fail> {
    let mut papers = Papers::new(rt.alloc(), 0, FileFault::Failed);
    put_files(rt.alloc(), &mut papers)?;
    test_loads(rt.alloc(), &mut papers)?;
    let (listed, _) = run_over(rt.alloc(), &mut papers, &["list", "again"])?;
    assert!(rt;
        listed
            .as_slice()
            .ends_with(b"\nexport u class 1 section -3 value 00000000\n")
    );
    Ok(())
}
