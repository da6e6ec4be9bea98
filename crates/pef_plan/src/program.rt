ghost use Rattle.std.specs.Prelude.{◌≡◌, IfOk, true};
ghost use Rattle.pef_cert.specs.Valid.{RegistersOf};
ghost use Rattle.pef_plan.specs.Kept.Firsts.{Picks};
ghost use Rattle.pef_plan.specs.Kept.Steps.{FallsOn, TrackedHere};
ghost use Rattle.pef_plan.specs.Kept.Tables.{TablesOf};
ghost use Rattle.pef_plan.specs.Planned.{Planned};
ghost use Rattle.pef_reloc.specs.Fixups.{fixups_fit};
ghost use Rattle.pef_reloc.specs.Steps.{Least};

use crate::reading::{step_at, step_to};
use crate::runs::{OpenState, PlanState, SolvedSuffix, Step};
use pef_cert::class_of;
use pef_reloc::{Fixup, Instr};
use std::alloc::{AllocError, Global};

/// Returns a program of the fewest halfwords that makes fixups, read from their tables.
pub(crate) fn read_program<'a>(
    known: SolvedSuffix<'a>,
    alloc: Global,
    fixups: &'a [Fixup],
) -> Result<Vec<Instr>, AllocError>
    requires fit { fixups_fit fixups.now ≡ true }
    requires registers { RegistersOf fixups.now known.registers.now }
    requires tables { TablesOf known.registers.now known.labels.now known.skips.now 0 fixups.now }
    ensures least { IfOk result (λ program. Least fixups.entry.now program.items) }
    ensures planned { IfOk result (λ program. Planned fixups.entry.now program.items) }
{
    let mut program = Vec::new(alloc);
    let mut place = PlanState {
        left: fixups,
        position: 0,
        import_index: 0,
        c: class_of(known.registers, 0),
        d: class_of(known.registers, 1),
    };
    'steps: while let Some((first, others)) = place.left.split_first() {
        let first = *first;
        let here = OpenState {
            place,
            first,
            others,
        };
        let step = next_step(known, here);
        program.push(step.instr)?;
        place = step.next;
    }
    Ok(program)
}

/// Returns the next step of a least program.
fn next_step<'a>(known: SolvedSuffix<'a>, here: OpenState<'a>) -> Step<'a>
    requires here { TrackedHere known here }
    ensures falls { FallsOn known.entry here.entry.place result }
    ensures first { Picks known.entry here.entry.place result }
{
    if here.place.position == u64::from(here.first.offset) {
        step_at(known, here)
    } else {
        step_to(known, here)
    }
}
