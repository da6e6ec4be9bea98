ghost use Rattle.std.specs.Prelude.{◌≡◌, ◌+◌, ◌*◌, ◌<◌, ◌≤◌, ◌∷◌, Some, length};
ghost use Rattle.pef_cert.specs.Extension.{extension, skips_at};
ghost use Rattle.pef_cert.specs.Labels.{Labels, class_of};
ghost use Rattle.pef_plan.specs.Runs.Ends.{EndsAt};
ghost use Rattle.pef_plan.specs.Runs.Places.{AtOf, Chosen, HereOf};
ghost use Rattle.pef_plan.specs.Kept.Firsts.{FirstSkip};
ghost use Rattle.pef_plan.specs.Kept.Rows.{SkipsOf};
ghost use Rattle.pef_plan.specs.Runs.Runs.{Holds};
ghost use Rattle.pef_plan.specs.Runs.Tables.{Agrees};
ghost use Rattle.pef_reloc.specs.declared.fixup.Base.TheVariants.{Section};
ghost use Rattle.pef_reloc.specs.declared.instr.Instr.TheVariants.{BySectDWithSkip};

use crate::direct::place_after;
use crate::runs::{Choice, FixupState, OpenState, Run, RunEnds, SolvedSuffix, Sought, Step};
use pef_cert::{WORD, class_of};
use pef_reloc::{Base, Instr};

/// Fills in the least skips at a fixup, by the class of register C.
#[inline(always)]
pub(crate) fn fill_skips(
    known: SolvedSuffix<'_>,
    at: FixupState<'_>,
    ends: &RunEnds,
    skips: &mut [u32],
)
    requires at { AtOf known at }
    requires ends { EndsAt known at.others.now (at.first ∷ at.others.now) ends.now }
    requires skips { length skips.old ≡ length known.registers.now + 1 }
    ensures len { length skips.new ≡ length skips.old }
    ensures are { SkipsOf known.entry at.entry skips.new }
{
    match at.first.base {
        Base::Section(section) => fill_section(known, at, ends, section, skips),
        Base::Import(_) => skips.fill(0),
    }
}

/// Fills the least skips of a fixup that has a section.
#[inline(always)]
fn fill_section(
    known: SolvedSuffix<'_>,
    at: FixupState<'_>,
    ends: &RunEnds,
    section: u32,
    skips: &mut [u32],
)
    requires at { AtOf known at }
    requires ends { EndsAt known at.others.now (at.first ∷ at.others.now) ends.now }
    requires base { at.first.base ≡ Section section }
    requires skips { length skips.old ≡ length known.registers.now + 1 }
    ensures len { length skips.new ≡ length skips.old }
    ensures are { SkipsOf known.entry at.entry skips.new }
{
    ends.fill_skips(known, class_of(known.registers, section), skips);
}

/// Returns the best skip that passes `words` words and then adds at the fixup. The fixup has a section.
pub(crate) fn best_skip<'a>(
    known: SolvedSuffix<'a>,
    here: OpenState<'a>,
    words: u32,
    section: u32,
) -> Choice<'a>
    requires here { HereOf known here }
    requires base { here.first.base ≡ Section section }
    requires holds { Holds known.registers.now section here.place.d }
    requires words { words ≤ 255 }
    requires from { here.first.offset ≡ here.place.position + 4 * words }
    ensures chosen { Chosen known.entry here.entry result }
    ensures first { FirstSkip known.entry here.entry words result }
    ensures is { (l : Labels) → Agrees l known.entry here.entry.others.now → skips_at l here.entry.first here.entry.others.now here.entry.place.c here.entry.place.d ≡ Some result.value }
    ensures small { result.value ≤ 4 * length here.entry.others.now + 4 }
{
    let choice = single_skip(known, here, words, section);
    let one = Sought { choice, label: 0 };
    let from = u64::from(here.first.offset);
    known.best_of_run(here, Run::Skip { words, section }, from, one)
}

/// Returns the skip that adds only at the fixup.
fn single_skip<'a>(
    known: SolvedSuffix<'a>,
    here: OpenState<'a>,
    words: u32,
    section: u32,
) -> Choice<'a>
    requires here { HereOf known here }
    requires base { here.first.base ≡ Section section }
    requires holds { Holds known.registers.now section here.place.d }
    requires words { words ≤ 255 }
    requires from { here.first.offset ≡ here.place.position + 4 * words }
    ensures chosen { Chosen known.entry here.entry result }
    ensures instr { result.step.instr ≡ BySectDWithSkip words 1 }
    ensures value { (l : Labels) → Agrees l known.entry here.entry.others.now → result.value ≡ 1 + extension l here.entry.others.now (here.entry.first.offset + 4) here.entry.place.c here.entry.place.d }
    ensures small { result.value ≤ 4 * length here.entry.others.now + 4 }
{
    let instr = Instr::BySectDWithSkip {
        skip: words,
        count: 1,
    };
    let next = place_after(here, here.place.import_index);
    let position = u64::from(here.first.offset) + WORD;
    let value = 1 + known.value(here.others, position, here.place.c, here.place.d);
    let step = Step { instr, next };
    Choice { step, value }
}
