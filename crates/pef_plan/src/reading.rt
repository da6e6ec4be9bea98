ghost use Rattle.std.specs.Prelude.{◌≡◌, ◌≢◌, ◌-◌, ◌/◌};
ghost use Rattle.pef_plan.specs.Kept.Firsts.{NoMove, Picks};
ghost use Rattle.pef_plan.specs.Kept.Steps.{FallsOn, SkipsTo, TrackedHere};
ghost use Rattle.pef_reloc.specs.declared.fixup.Base.TheVariants.{Section};

use crate::direct::direct;
use crate::moves::{increment, set_c, set_d, set_position};
use crate::runs::{OpenState, PlanState, SolvedSuffix, Step};
use crate::skips::best_skip;
use pef_cert::{REACH, SKIP_REACH, WORD, class_of};
use pef_reloc::Base;

/// Returns the next step of a least program from a position at the next fixup.
pub(crate) fn step_at<'a>(known: SolvedSuffix<'a>, here: OpenState<'a>) -> Step<'a>
    requires here { TrackedHere known here }
    requires at { here.place.position ≡ here.first.offset }
    ensures falls { FallsOn known.entry here.entry.place result }
    ensures first { Picks known.entry here.entry.place result }
{
    let PlanState { left, c, d, .. } = here.place;
    let label = known.label(left.len(), c, d);
    let best = direct(known, here, u64::from(label));
    if best.value <= u64::from(label) {
        return best.step;
    }
    for class in 0..known.classes() {
        if known.label(left.len(), class, d) < label {
            return set_c(known, here.place, class);
        }
        if known.label(left.len(), c, class) < label {
            return set_d(known, here.place, class);
        }
    }
    best.step
}

/// Returns the next step of a least program from a position before or after the next fixup.
pub(crate) fn step_to<'a>(known: SolvedSuffix<'a>, here: OpenState<'a>) -> Step<'a>
    requires here { TrackedHere known here }
    requires away { here.place.position ≢ here.first.offset }
    ensures falls { FallsOn known.entry here.entry.place result }
    ensures first { Picks known.entry here.entry.place result }
{
    let place = here.place;
    let ahead = u64::from(here.first.offset).saturating_sub(place.position);
    let label = u64::from(known.label(place.left.len(), place.c, place.d));
    let value = known.value(place.left, place.position, place.c, place.d);
    if value == 2 + label {
        return set_position(known, here);
    }
    if 1 <= ahead && ahead <= REACH && value == 1 + label {
        return increment(known, place, ahead);
    }
    if ahead > REACH {
        return increment(known, place, ahead - SKIP_REACH);
    }
    skip_to(known, here, ahead)
}

/// Returns the skip to a fixup that is `ahead` bytes away, or the change of register D that the skip needs.
fn skip_to<'a>(known: SolvedSuffix<'a>, here: OpenState<'a>, ahead: u64) -> Step<'a>
    requires here { TrackedHere known here }
    requires away { here.place.position ≢ here.first.offset }
    requires ahead { ahead ≡ here.first.offset - here.place.position }
    requires near { SkipsTo known here }
    ensures falls { FallsOn known.entry here.entry.place result }
    ensures first { NoMove known.entry here.entry → Picks known.entry here.entry.place result }
{
    match here.first.base {
        Base::Section(section) => skip_words(known, here, ahead / WORD, section),
        Base::Import(_) => set_position(known, here),
    }
}

/// Returns the same for a fixup that has a section and is `words` words away.
fn skip_words<'a>(
    known: SolvedSuffix<'a>,
    here: OpenState<'a>,
    words: u64,
    section: u32,
) -> Step<'a>
    requires here { TrackedHere known here }
    requires away { here.place.position ≢ here.first.offset }
    requires words { words ≡ (here.first.offset - here.place.position) / 4 }
    requires near { SkipsTo known here }
    requires base { here.first.base ≡ Section section }
    ensures falls { FallsOn known.entry here.entry.place result }
    ensures first { NoMove known.entry here.entry → Picks known.entry here.entry.place result }
{
    let class = class_of(known.registers, section);
    if class != here.place.d {
        return set_d(known, here.place, class);
    }
    best_skip(known, here, words as u32, section).step
}
