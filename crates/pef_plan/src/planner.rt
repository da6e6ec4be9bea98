ghost use Rattle.std.specs.Prelude.{◌≡◌, IfErr, IfOk, length, true};
ghost use Rattle.pef_cert.specs.Valid.{RegistersOf, Valid, labels_of};
ghost use Rattle.pef_plan.specs.declared.fault.PlanFault.TheVariants.{OutOfMemory};
ghost use Rattle.pef_plan.specs.Exact.{Exact};
ghost use Rattle.pef_plan.specs.Kept.Tables.{TablesOf};
ghost use Rattle.pef_plan.specs.Planned.{Planned};
ghost use Rattle.pef_reloc.specs.Fixups.{fixups_fit};
ghost use Rattle.pef_reloc.specs.Steps.{Least};

use crate::fault::PlanFault;
use crate::program::read_program;
use crate::registers::registers_of;
use crate::runs::SolvedSuffix;
use crate::tables::{Tables, fill};
use crate::windows::Looks;
use pef_cert::Certificate;
use pef_reloc::{Fixup, Instr};
use std::alloc::{AllocError, Global};
use std::cell::Cell;

/// Returns a program of the fewest halfwords that makes the fixups of a section. It is the one that [`plan`]
/// returns: there is no other planned program. It takes far less memory: one byte for each label.
///
/// # Errors
///
/// `OutOfMemory`, if an allocation failed.
pub fn least_program(alloc: Global, fixups: &[Fixup]) -> Result<Vec<Instr>, PlanFault>
    requires fit { fixups_fit fixups.now ≡ true }
    ensures least { IfOk result (λ program. Least fixups.now program.items) }
    ensures planned { IfOk result (λ program. Planned fixups.now program.items) }
    ensures fault { IfErr result (λ fault. fault ≡ OutOfMemory) }
{
    let count = Cell::new(0);
    Ok(solve(alloc, fixups, Looks::new(&count))?.program)
}

/// Returns a program of the fewest halfwords that makes the fixups of a section, with the certificate that
/// proves it.
///
/// # Errors
///
/// `OutOfMemory`, if an allocation failed.
pub fn plan(alloc: Global, section: u32, fixups: &[Fixup]) -> Result<Certificate, PlanFault>
    requires fit { fixups_fit fixups.now ≡ true }
    ensures section { IfOk result (λ certificate. certificate.section ≡ section) }
    ensures valid { IfOk result (λ certificate. Valid fixups.now certificate) }
    ensures planned { IfOk result (λ certificate. Planned fixups.now certificate.program) }
    ensures exact { IfOk result (λ certificate. Exact (labels_of certificate (length fixups.now)) fixups.now) }
    ensures fault { IfErr result (λ fault. fault ≡ OutOfMemory) }
{
    let count = Cell::new(0);
    counted_plan(alloc, section, fixups, Looks::new(&count))
}

/// Returns what `plan` returns, and counts the looks.
///
/// # Errors
///
/// `OutOfMemory`, if an allocation failed.
pub fn counted_plan(
    alloc: Global,
    section: u32,
    fixups: &[Fixup],
    looks: Looks<'_>,
) -> Result<Certificate, PlanFault>
    requires fit { fixups_fit fixups.now ≡ true }
    ensures section { IfOk result (λ certificate. certificate.section ≡ section) }
    ensures valid { IfOk result (λ certificate. Valid fixups.now certificate) }
    ensures planned { IfOk result (λ certificate. Planned fixups.now certificate.program) }
    ensures exact { IfOk result (λ certificate. Exact (labels_of certificate (length fixups.now)) fixups.now) }
    ensures fault { IfErr result (λ fault. fault ≡ OutOfMemory) }
{
    let Solved {
        program,
        registers,
        tables,
    } = solve(alloc, fixups, looks)?;
    let labels = tables.labels.reversed(alloc)?;
    Ok(Certificate {
        section,
        program,
        registers,
        labels,
    })
}

/// The program of a plan, with the sections that the fixups use and the tables that it was read from.
#[derive(Drop)]
struct Solved {
    program: Vec<Instr>,
    registers: Vec<u32>,
    tables: Tables,
}

/// Returns the program of a plan, and counts the looks.
fn solve(alloc: Global, fixups: &[Fixup], looks: Looks<'_>) -> Result<Solved, AllocError>
    requires fit { fixups_fit fixups.now ≡ true }
    ensures registers { IfOk result (λ s. RegistersOf fixups.now s.registers.items) }
    ensures tables { IfOk result (λ s. TablesOf s.registers.items s.tables.labels s.tables.skips 0 fixups.now) }
    ensures least { IfOk result (λ s. Least fixups.now s.program.items) }
    ensures planned { IfOk result (λ s. Planned fixups.now s.program.items) }
{
    let registers = registers_of(alloc, fixups)?;
    let tables = fill(alloc, fixups, &registers, looks)?;
    let known = SolvedSuffix {
        registers: &registers,
        labels: &tables.labels,
        skips: &tables.skips,
        looks,
    };
    let program = read_program(known, alloc, fixups)?;
    Ok(Solved {
        program,
        registers,
        tables,
    })
}
