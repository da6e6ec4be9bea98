ghost use Rattle.std.specs.Prelude.{◌≡◌, ◌+◌, ◌*◌, ◌<◌, ◌≤◌, ℕ, length, true};
ghost use Rattle.pef_cert.specs.Extension.{extension};
ghost use Rattle.pef_cert.specs.Labels.{Labels};
ghost use Rattle.pef_cert.specs.LabelTests.{base_test, import_cost};
ghost use Rattle.pef_plan.specs.Kept.Firsts.{SiftedOf};
ghost use Rattle.pef_plan.specs.Planned.{additions_in_order, import_once};
ghost use Rattle.pef_plan.specs.Runs.Places.{Chosen, HereOf};
ghost use Rattle.pef_plan.specs.Runs.Tables.{Agrees};
ghost use Rattle.pef_reloc.specs.declared.fixup.Base.TheVariants.{Import, Section};
ghost use Rattle.pef_reloc.specs.declared.instr.Instr.TheVariants.{SmBySection};

use crate::runs::{Choice, OpenState, PlanState, Run, SolvedSuffix, Sought, Step};
use crate::section_runs::{Classed, best_in_c, best_in_d};
use pef_cert::{WORD, class_of};
use pef_reloc::{Base, Instr};

/// The number of imports that nine bits can name.
pub(crate) const SMALL_IMPORTS: u32 = 512;

/// Returns the place after the first fixup.
pub(crate) fn place_after<'a>(here: OpenState<'a>, import_index: u64) -> PlanState<'a>
    ensures left { result.left.now ≡ here.entry.others.now }
    ensures position { result.position ≡ here.entry.first.offset + 4 }
    ensures import_index { result.import_index ≡ import_index }
    ensures c { result.c ≡ here.entry.place.c }
    ensures d { result.d ≡ here.entry.place.d }
{
    PlanState {
        left: here.others,
        position: u64::from(here.first.offset) + WORD,
        import_index,
        ..here.place
    }
}

/// Returns the best instruction that begins by adding at a fixup, or the first one that reaches a label.
pub(crate) fn direct<'a>(known: SolvedSuffix<'a>, here: OpenState<'a>, label: u64) -> Choice<'a>
    requires here { HereOf known here }
    requires at { here.place.position ≡ here.first.offset }
    ensures chosen { Chosen known.entry here.entry result }
    ensures first { SiftedOf known.entry here.entry label (additions_in_order here.entry.first.base) result }
    ensures least { (l : Labels) (value : ℕ) → Agrees l known.entry here.entry.others.now → value ≤ result.value → label < result.value → base_test l value here.entry.place.import_index here.entry.first here.entry.others.now here.entry.place.c here.entry.place.d here.entry.first.base ≡ true }
    ensures small { result.value ≤ 4 * length here.entry.others.now + 4 }
{
    match here.first.base {
        Base::Section(section) => direct_section(known, here, section, label),
        Base::Import(import) => direct_import(known, here, import, label),
    }
}

fn direct_section<'a>(
    known: SolvedSuffix<'a>,
    here: OpenState<'a>,
    section: u32,
    label: u64,
) -> Choice<'a>
    requires here { HereOf known here }
    requires at { here.place.position ≡ here.first.offset }
    requires base { here.first.base ≡ Section section }
    ensures chosen { Chosen known.entry here.entry result }
    ensures first { SiftedOf known.entry here.entry label (additions_in_order (Section section)) result }
    ensures least { (l : Labels) (value : ℕ) → Agrees l known.entry here.entry.others.now → value ≤ result.value → label < result.value → base_test l value here.entry.place.import_index here.entry.first here.entry.others.now here.entry.place.c here.entry.place.d (Section section) ≡ true }
    ensures small { result.value ≤ 4 * length here.entry.others.now + 4 }
{
    let choice = single_section(known, here, section);
    if choice.value <= label {
        return choice;
    }
    let class = class_of(known.registers, section);
    let of = Classed { section, class };
    let one = Sought { choice, label };
    let best = best_in_c(known, here, of, one);
    best_in_d(known, here, of, best).choice
}

/// Returns the instruction that adds a section once.
fn single_section<'a>(known: SolvedSuffix<'a>, here: OpenState<'a>, section: u32) -> Choice<'a>
    requires here { HereOf known here }
    requires at { here.place.position ≡ here.first.offset }
    requires base { here.first.base ≡ Section section }
    ensures chosen { Chosen known.entry here.entry result }
    ensures instr { result.step.instr ≡ SmBySection section }
    ensures value { (l : Labels) → Agrees l known.entry here.entry.others.now → result.value ≡ 1 + extension l here.entry.others.now (here.entry.first.offset + 4) here.entry.place.c here.entry.place.d }
    ensures small { result.value ≤ 4 * length here.entry.others.now + 4 }
{
    let instr = Instr::SmBySection(section);
    let next = place_after(here, here.place.import_index);
    let value = 1 + value_after(known, here);
    let step = Step { instr, next };
    Choice { step, value }
}

/// Returns the extension after the first fixup.
#[inline(always)]
fn value_after<'a>(known: SolvedSuffix<'a>, here: OpenState<'a>) -> u64
    requires here { HereOf known here }
    ensures is { (l : Labels) → Agrees l known.entry here.entry.others.now → result ≡ extension l here.entry.others.now (here.entry.first.offset + 4) here.entry.place.c here.entry.place.d }
    ensures small { result ≤ 4 * length here.entry.others.now + 2 }
{
    let position = u64::from(here.first.offset) + WORD;
    known.value(here.others, position, here.place.c, here.place.d)
}

#[tactic(auto, using(crate::proofs::RunTests::import_met, crate::proofs::RunTests::imports_met))]
fn direct_import<'a>(
    known: SolvedSuffix<'a>,
    here: OpenState<'a>,
    import: u32,
    label: u64,
) -> Choice<'a>
    requires here { HereOf known here }
    requires at { here.place.position ≡ here.first.offset }
    requires base { here.first.base ≡ Import import }
    ensures chosen { Chosen known.entry here.entry result }
    ensures first { SiftedOf known.entry here.entry label (additions_in_order (Import import)) result }
    ensures least { (l : Labels) (value : ℕ) → Agrees l known.entry here.entry.others.now → value ≤ result.value → label < result.value → base_test l value here.entry.place.import_index here.entry.first here.entry.others.now here.entry.place.c here.entry.place.d (Import import) ≡ true }
    ensures small { result.value ≤ 4 * length here.entry.others.now + 4 }
{
    let choice = single_import(known, here, import);
    if u64::from(import) != here.place.import_index {
        return choice;
    }
    let one = Sought { choice, label };
    known.best_of_run(here, Run::Imports, here.place.position, one)
}

/// Returns the instruction that adds an import once.
fn single_import<'a>(known: SolvedSuffix<'a>, here: OpenState<'a>, import: u32) -> Choice<'a>
    requires here { HereOf known here }
    requires at { here.place.position ≡ here.first.offset }
    requires base { here.first.base ≡ Import import }
    ensures chosen { Chosen known.entry here.entry result }
    ensures instr { result.step.instr ≡ import_once import }
    ensures value { (l : Labels) → Agrees l known.entry here.entry.others.now → result.value ≡ import_cost import + extension l here.entry.others.now (here.entry.first.offset + 4) here.entry.place.c here.entry.place.d }
    ensures small { result.value ≤ 4 * length here.entry.others.now + 4 }
{
    let next = place_after(here, u64::from(import) + 1);
    let behind = value_after(known, here);
    if import < SMALL_IMPORTS {
        let instr = Instr::SmByImport(import);
        let value = 1 + behind;
        let step = Step { instr, next };
        return Choice { step, value };
    }
    let instr = Instr::LgByImport(import);
    let value = 2 + behind;
    let step = Step { instr, next };
    Choice { step, value }
}
