ghost use Rattle.std.specs.Prelude.{◌≡◌, ◌+◌, ◌<◌, ◌≤◌, length, slice_index_or};
ghost use Rattle.pef_cert.specs.Extension.{extension};
ghost use Rattle.pef_cert.specs.Labels.{class_of};
ghost use Rattle.pef_plan.specs.Runs.Places.{extension_in};
ghost use Rattle.pef_plan.specs.Kept.Steps.{FallsOn, Sections, Tracked, TrackedHere, labels_tabled};
ghost use Rattle.pef_reloc.specs.declared.instr.Instr.TheVariants.{IncrPosition, SetPosition, SmSetSectC, SmSetSectD};
ghost use Rattle.pef_reloc.specs.Limits.{most_sections};

use crate::runs::{OpenState, PlanState, SolvedSuffix, Step};
use pef_reloc::{Instr, MAX_SECTIONS};

/// Returns a section of a class.
#[tactic(auto, using(crate::proofs::StepFacts::number_inside, crate::proofs::StepFacts::number_past, crate::proofs::StepFacts::section_is, crate::proofs::StepFacts::section_small, crate::proofs::StepFacts::section_last))]
pub(crate) fn section_of(known: SolvedSuffix<'_>, class: usize) -> u32
    requires sections { Sections known.registers.now }
    requires class { class < length known.registers.now + 1 }
    ensures is { class_of known.entry.registers.now result ≡ class }
    ensures small { result < 512 }
    ensures number { result ≡ slice_index_or known.entry.registers.now class most_sections }
{
    if class < known.registers.len() {
        known.registers[class]
    } else {
        MAX_SECTIONS
    }
}

/// Returns the step that sets register C to a section of a class.
pub(crate) fn set_c<'a>(known: SolvedSuffix<'a>, place: PlanState<'a>, class: usize) -> Step<'a>
    requires tracked { Tracked known place }
    requires class { class < length known.registers.now + 1 }
    requires low { 1 + extension (labels_tabled known) place.left.now place.position class place.d ≤ extension_in (labels_tabled known) place }
    ensures falls { FallsOn known.entry place.entry result }
    ensures instr { result.instr ≡ SmSetSectC (slice_index_or known.entry.registers.now class most_sections) }
{
    let next = PlanState { c: class, ..place };
    let instr = Instr::SmSetSectC(section_of(known, class));
    Step { instr, next }
}

/// Returns the step that sets register D to a section of a class.
pub(crate) fn set_d<'a>(known: SolvedSuffix<'a>, place: PlanState<'a>, class: usize) -> Step<'a>
    requires tracked { Tracked known place }
    requires class { class < length known.registers.now + 1 }
    requires low { 1 + extension (labels_tabled known) place.left.now place.position place.c class ≤ extension_in (labels_tabled known) place }
    ensures falls { FallsOn known.entry place.entry result }
    ensures instr { result.instr ≡ SmSetSectD (slice_index_or known.entry.registers.now class most_sections) }
{
    let next = PlanState { d: class, ..place };
    let instr = Instr::SmSetSectD(section_of(known, class));
    Step { instr, next }
}

/// Returns the step to the offset of the next fixup. It works from any position.
pub(crate) fn set_position<'a>(known: SolvedSuffix<'a>, here: OpenState<'a>) -> Step<'a>
    requires here { TrackedHere known here }
    requires low { 2 + extension (labels_tabled known) here.place.left.now here.first.offset here.place.c here.place.d ≤ extension_in (labels_tabled known) here.place }
    requires fits { here.first.offset < 67108864 }
    ensures falls { FallsOn known.entry here.entry.place result }
    ensures instr { result.instr ≡ SetPosition here.entry.first.offset }
{
    let position = u64::from(here.first.offset);
    let next = PlanState {
        position,
        ..here.place
    };
    let instr = Instr::SetPosition(here.first.offset);
    Step { instr, next }
}

/// Returns the step that moves on by a number of bytes.
pub(crate) fn increment<'a>(known: SolvedSuffix<'a>, place: PlanState<'a>, bytes: u64) -> Step<'a>
    requires tracked { Tracked known place }
    requires some { 1 ≤ bytes }
    requires few { bytes ≤ 4096 }
    requires low { 1 + extension (labels_tabled known) place.left.now (place.position + bytes) place.c place.d ≤ extension_in (labels_tabled known) place }
    ensures falls { FallsOn known.entry place.entry result }
    ensures instr { result.instr ≡ IncrPosition bytes }
{
    let position = place.position + bytes;
    let next = PlanState { position, ..place };
    let instr = Instr::IncrPosition(bytes as u32);
    Step { instr, next }
}
