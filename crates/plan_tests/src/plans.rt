//! Plans of fixups.
ghost use Rattle.std.specs.Prelude.{◌≡◌, true};
ghost use Rattle.pef_reloc.specs.Fixups.{fixups_fit};

use pef_cert::{Certificate, check};
use pef_plan::{least_program, plan};
use pef_reloc::{Base, Fixup, Instr, fixups_fit};
use std::alloc::Global;
use std::process::Abort;
use test_data::lists::S1;

/// Plans fixups, and compares the length of the program, and the program if one is given. The certificate is accepted, and its
/// program is the one that is found alone.
pub fn assert_plan(
    rt: &impl Abort,
    alloc: Global,
    fixups: &[Fixup],
    length: u64,
    program: &[Instr],
) {
    assert!(rt; fixups_fit(fixups));
    let certificate = plan(alloc, 3, fixups).expect(rt, "a plan");
    assert_certified(rt, fixups, &certificate, length);
    assert!(rt; program.is_empty() || certificate.program.as_slice() == program);
    assert_alone(rt, alloc, fixups, &certificate.program);
}

fn assert_alone(rt: &impl Abort, alloc: Global, fixups: &[Fixup], program: &[Instr])
    requires { fixups_fit fixups.now ≡ true }
{
    let alone = least_program(alloc, fixups).expect(rt, "a program");
    assert!(rt; alone.as_slice() == program);
}

fn assert_certified(rt: &impl Abort, fixups: &[Fixup], certificate: &Certificate, length: u64)
    requires { fixups_fit fixups.now ≡ true }
{
    let first = fixups.get(..8).unwrap_or(fixups);
    assert!(rt; certificate.program_length() == length, "{first:?} ..");
    assert!(rt; certificate.section == 3);
    assert!(rt; check(fixups, certificate), "{first:?} ..");
}

/// Fixups in a row: how many, the offset of the first, how many bytes apart, and the base of each second one. The others are by
/// section 1.
pub type Run = (u32, u32, u32, Base);

/// Returns the fixups of a run.
pub fn in_a_row(rt: &impl Abort, alloc: Global, run: Run) -> Vec<Fixup> {
    let (count, first, step, other) = run;
    let mut fixups = Vec::new(alloc);
    for i in 0..count {
        let base = if i % 2 == 0 { other } else { S1 };
        let offset = i.wrapping_mul(step).wrapping_add(first);
        fixups.push(Fixup { offset, base }).expect(rt, "memory");
    }
    fixups
}
