//! `link` and `link_container` when an allocation fails. To test this, run them with one allocation failing after
//! another, as `tools/refuse-memory` does.

use pef_reloc::Instr;
use pef_script::Script;
use pef_write::{LinkFault, Linked, LinkedContainer, link, link_container};
use std::alloc::Global;
use std::process::Abort;
use std::test::Fail;
use test_data::containers::VECTORS_LEAST;
use test_data::refusals::{say_answered, say_begins};
use test_data::scripts::VECTORS;

/// Tests the bytes of a container.
fn test_bytes(rt: &impl Abort, bytes: &[u8], container: &[u8]) {
    assert!(rt; bytes == container, "{} bytes", bytes.len());
}

/// Links a script, and once more if an allocation fails. Also returns whether one failed.
fn link_refused(rt: &impl Abort, alloc: Global, script: &Script<'_>) -> (Linked, bool) {
    match link(alloc, script) {
        Ok(linked) => (linked, false),
        Err(LinkFault::OutOfMemory) => (link(alloc, script).expect(rt, "memory"), true),
    }
}

/// Tests that the certificates have these programs.
fn test_programs(rt: &impl Abort, linked: &Linked, programs: &[&[Instr]]) {
    assert!(rt; linked.certificates().len() == programs.len());
    for (certificate, program) in linked.certificates().iter().zip(programs) {
        assert!(rt; certificate.program.as_slice() == *program);
    }
}

/// Tests that a script is linked to a container with certificates of these programs, also if an allocation fails at
/// first.
fn link_again(
    rt: &(impl Abort + Print),
    alloc: Global,
    script: &Script<'_>,
    container: &[u8],
    programs: &[&[Instr]],
) -> Result<(), Fail> {
    say_begins(rt)?;
    let (linked, refused) = link_refused(rt, alloc, script);
    test_bytes(rt, linked.bytes(), container);
    test_programs(rt, &linked, programs);
    say_answered(rt, refused)
}

/// If an allocation fails in `link`, `link` reports it, and the next `link` gives the container and the certificates.
#[test]
fn linked_again(rt: HostRuntime) -> Result<(), Fail> {
    let alloc = rt.alloc();
    let script = Script::read(alloc, VECTORS).expect(&rt, "a script");
    let programs: [&[Instr]; 2] = [&[], &[Instr::TVector8(2)]];
    link_again(&rt, alloc, &script, VECTORS_LEAST, &programs)
}

/// Links the container of a script alone, and once more if an allocation fails. Also returns whether one failed.
fn container_refused(
    rt: &impl Abort,
    alloc: Global,
    script: &Script<'_>,
) -> (LinkedContainer, bool) {
    match link_container(alloc, script) {
        Ok(linked) => (linked, false),
        Err(LinkFault::OutOfMemory) => (link_container(alloc, script).expect(rt, "memory"), true),
    }
}

/// Tests that a script is linked to a container, also if an allocation fails at first.
fn container_again(
    rt: &(impl Abort + Print),
    alloc: Global,
    script: &Script<'_>,
    container: &[u8],
) -> Result<(), Fail> {
    say_begins(rt)?;
    let (linked, refused) = container_refused(rt, alloc, script);
    test_bytes(rt, linked.bytes(), container);
    say_answered(rt, refused)
}

/// If an allocation fails in `link_container`, `link_container` reports it, and the next call gives the container.
#[test]
fn container_linked_again(rt: HostRuntime) -> Result<(), Fail> {
    let alloc = rt.alloc();
    let script = Script::read(alloc, VECTORS).expect(&rt, "a script");
    container_again(&rt, alloc, &script, VECTORS_LEAST)
}
