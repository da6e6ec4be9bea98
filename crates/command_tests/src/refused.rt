//! Runs each command with failing allocations. These tests show this if they are run with one allocation after another
//! refused, as by `tools/refuse-memory`.

use crate::worked::VECTORS_LISTED;
use pef_ports::system::DiskFiles;
use pef_tool::{FileFault, Files};
use std::alloc::Global;
use std::fs;
use std::test::Fail;
use test_bench::containers::VECTORS_LEAST;
use test_bench::mac_files::fragment_fork;
use test_bench::ports::Papers;
use test_bench::runs::{assert_prints_or_lacks_memory, put_file, put_linked};
use test_bench::scripts::{
    EXAMPLE, EXAMPLE_SHOWN, LIBRARY, USER, VECTORS, VECTORS_CERTIFIED, VECTORS_LINKED,
};

/// Returns a file `a`, and nothing else.
fn papers(alloc: Global, file: &[u8]) -> Result<Papers, Fail> {
    let mut papers = Papers::new(alloc, 0, FileFault::Failed);
    put_file(&mut papers, "a", file)?;
    Ok(papers)
}

#[test]
fn show(rt: HostRuntime) -> Result<(), Fail> {
    let mut papers = papers(rt.alloc(), b"")?;
    assert_prints_or_lacks_memory(
        &rt,
        rt.alloc(),
        &mut papers,
        &["show"],
        EXAMPLE,
        EXAMPLE_SHOWN,
    )
}

/// The whole container is written, or none.
#[test]
fn link(rt: HostRuntime) -> Result<(), Fail> {
    let mut papers = papers(rt.alloc(), VECTORS)?;
    let words = ["link", "a", "out"];
    assert_prints_or_lacks_memory(&rt, rt.alloc(), &mut papers, &words, b"", VECTORS_LINKED)?;
    let written = papers.bytes(b"out");
    assert!(rt; written.is_none() || written == Some(VECTORS_LEAST));
    Ok(())
}

#[test]
fn distances(rt: HostRuntime) -> Result<(), Fail> {
    let mut papers = papers(rt.alloc(), VECTORS)?;
    assert_prints_or_lacks_memory(
        &rt,
        rt.alloc(),
        &mut papers,
        &["distances", "a"],
        b"",
        VECTORS_CERTIFIED,
    )
}

#[test]
fn check(rt: HostRuntime) -> Result<(), Fail> {
    let mut papers = papers(rt.alloc(), VECTORS)?;
    put_file(&mut papers, "b", VECTORS_CERTIFIED)?;
    let checked = b"section 0 yes 0\nsection 1 yes 1\n";
    let words = ["check", "a", "b"];
    assert_prints_or_lacks_memory(&rt, rt.alloc(), &mut papers, &words, b"", checked)
}

#[test]
fn list(rt: HostRuntime) -> Result<(), Fail> {
    let mut papers = papers(rt.alloc(), VECTORS_LEAST)?;
    assert_prints_or_lacks_memory(
        &rt,
        rt.alloc(),
        &mut papers,
        &["list", "a"],
        b"",
        VECTORS_LISTED,
    )
}

#[test]
fn load(rt: HostRuntime) -> Result<(), Fail> {
    let mut papers = papers(rt.alloc(), b"")?;
    put_linked(rt.alloc(), &mut papers, "user", USER.as_bytes())?;
    put_linked(rt.alloc(), &mut papers, "library", LIBRARY.as_bytes())?;
    let loaded =
        b"fragment L\nsection 0 at 00010000 size 4\n00010000 0000002A\nfragment A\nsection 0 at 00010010 size 4\n00010010 00010000\n";
    let words = ["load", "A=user", "B=user", "L=library"];
    assert_prints_or_lacks_memory(&rt, rt.alloc(), &mut papers, &words, b"", loaded)
}

/// The whole container is written, or none.
#[test]
fn extract(rt: HostRuntime) -> Result<(), Fail> {
    let mut papers = papers(rt.alloc(), VECTORS_LEAST)?;
    let words = ["extract", "a", "#0", "out"];
    assert_prints_or_lacks_memory(
        &rt,
        rt.alloc(),
        &mut papers,
        &words,
        b"",
        b"extracted 250 bytes\n",
    )?;
    let written = papers.bytes(b"out");
    assert!(rt; written.is_none() || written == Some(VECTORS_LEAST));
    Ok(())
}

/// The fragment is found in two files, or an allocation failed in one of them.
#[test]
fn extract_beside(rt: HostRuntime) -> Result<(), Fail> {
    let mut papers = papers(rt.alloc(), &[0; 264])?;
    let fork = fragment_fork(rt.alloc(), &[]).ok_or("no fork")?;
    put_file(&mut papers, "._a", fork.as_slice())?;
    assert_prints_or_lacks_memory(
        &rt,
        rt.alloc(),
        &mut papers,
        &["extract", "a", "Calc", "out"],
        b"",
        b"extracted 250 bytes\n",
    )
}

/// What is printed of the container `VECTORS_LEAST`, from its fields.
const INSPECTED: &[u8] = b"file a size 250 format container
00000000 container current 1 olddef 0 oldimp 0 date 0 versions - - - time 1904-01-01T00:00:00 sections 3 instantiated 2 architecture pwpc
00000028 section 0 kind 0 share 4 align 4 total 8 unpacked 8 packed 8 default 00000000 name - raw 00000080
00000044 section 1 kind 1 share 1 align 4 total 16 unpacked 16 packed 16 default 00000000 name - raw 00000090
00000060 section 2 kind 4 share 4 align 4 total 0 unpacked 0 packed 90 default 00000000 name - raw 000000A0
000000A0 loader libraries 0 imports 0 relocs 1 programs 00000044 strings 00000046 hash 00000048 power 0 exports 1
000000A0 main 1 00000000
000000D8 reloc section 1 halfwords 1 first 0
000000E4 4601 TVector8 2
000000F0 export go class 2 section 1 value 00000000
verdict whole needs 250 has 250 sections whole imports whole exports whole relocations whole
total containers 1 errors 0 notes 0
";

/// A failed allocation is an error of the file or of the container, and nothing is left out.
#[test]
fn inspect(rt: HostRuntime) -> Result<(), Fail> {
    let mut papers = papers(rt.alloc(), VECTORS_LEAST)?;
    assert_prints_or_lacks_memory(
        &rt,
        rt.alloc(),
        &mut papers,
        &["inspect", "a"],
        b"",
        INSPECTED,
    )
}

/// A real file is read whole, or an allocation fails, which isn't a failure of the file.
#[test]
fn read_file(rt: HostRuntime) -> Result<(), Fail> {
    let bytes = [7; 40_000];
    let mut files = DiskFiles::new(&rt);
    files.write(b"read with little memory", &bytes)?;
    println!(rt; "begins")?;
    let found = files.read(rt.alloc(), b"read with little memory");
    let refused = matches!(found, Err(FileFault::OutOfMemory));
    assert!(rt; refused || found.is_ok_and(|found| found.as_slice() == bytes.as_slice()));
    println!(rt; "{}", if refused { "refused" } else { "answered" })?;
    fs::remove_file(&rt, "read with little memory")?;
    Ok(())
}
