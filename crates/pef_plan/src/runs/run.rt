ghost use Rattle.std.specs.Prelude.{◌≡◌, ◌+◌, ◌^◌, ◌++◌, ◌<◌, ◌≤◌, ◌⊎◌, ℕ, List, MatchOption};
ghost use Rattle.std.specs.Option.{option_map};
ghost use Rattle.pef_cert.specs.Labels.{Labels};
ghost use Rattle.pef_cert.specs.Fixups.Additions.{behind};
ghost use Rattle.pef_plan.specs.Runs.Places.{Chosen, HereOf};
ghost use Rattle.pef_plan.specs.Runs.Runs.{EndOf, Ends, RunOf, imports, limit, run_instr, stride, unit};
ghost use Rattle.pef_plan.specs.Runs.Ends.{Begins};
ghost use Rattle.pef_plan.specs.Runs.Kept.Runs.{FirstEnd, Next};
ghost use Rattle.pef_plan.specs.Runs.Tables.{Agrees};
ghost use Rattle.pef_reloc.specs.declared.fixup.Base.TheVariants.{Section};
ghost use Rattle.pef_reloc.specs.declared.fixup.Fixup.{Fixup};

use crate::runs::state::{Choice, OpenState, PlanState, Sought, Step};
use crate::runs::suffix::SolvedSuffix;
use pef_cert::{WORD, after_first, after_import};
use pef_reloc::{Base, Fixup, Instr};

/// The maximum number of words, pairs or imports in a run.
pub(crate) const MAX_RUN: u32 = 512;

/// The maximum number of words that a skip adds to.
pub(crate) const MAX_SKIP_RUN: u32 = 63;

/// A run of additions that one instruction makes.
#[derive(Clone, Copy)]
pub enum Run {
    /// Words of a section that register C holds.
    WordsOfC(u32),
    /// Words of a section that register D holds.
    WordsOfD(u32),
    /// Words of a section that register D holds. They are a word apart.
    Spaced(u32),
    /// Pairs of two sections that the registers hold.
    Pairs { first: u32, second: u32 },
    /// Such pairs that are a word apart.
    SpacedPairs { first: u32, second: u32 },
    /// Consecutive imports, beginning with the next one.
    Imports,
    /// Words of a section that register D holds, after a number of words that are skipped.
    Skip { words: u32, section: u32 },
}

impl Run {
    /// Returns the number of bytes that each unit advances.
    #[inline(always)]
    pub(crate) fn stride(self) -> u64
        ensures { result ≡ stride self }
    {
        match self {
            Run::WordsOfC(_) | Run::WordsOfD(_) | Run::Imports | Run::Skip { .. } => WORD,
            Run::Spaced(_) | Run::Pairs { .. } => 2 * WORD,
            Run::SpacedPairs { .. } => 3 * WORD,
        }
    }

    /// Returns the number of imports that each unit advances.
    fn imports(self) -> u64
        ensures { result ≡ imports self }
    {
        match self {
            Run::Imports => 1,
            _ => 0,
        }
    }

    /// Returns the maximum number of units.
    fn limit(self) -> u32
        ensures { result ≡ limit self }
    {
        match self {
            Run::Skip { .. } => MAX_SKIP_RUN,
            _ => MAX_RUN,
        }
    }

    /// Returns the instruction that adds `count` units.
    fn instr(self, count: u32) -> Instr
        ensures { result ≡ run_instr self count }
    {
        match self {
            Run::WordsOfC(_) => Instr::BySectC(count),
            Run::WordsOfD(_) => Instr::BySectD(count),
            Run::Spaced(_) => Instr::VTable8(count),
            Run::Pairs { .. } => Instr::TVector8(count),
            Run::SpacedPairs { .. } => Instr::TVector12(count),
            Run::Imports => Instr::ImportRun(count),
            Run::Skip { words, .. } => Instr::BySectDWithSkip { skip: words, count },
        }
    }

    /// Returns the place after one unit, if the fixups begin with it.
    ///
    /// If the kind of run is known, inlining leaves only the test of that kind.
    #[inline(always)]
    pub(crate) fn next<'a>(self, place: PlanState<'a>) -> Option<PlanState<'a>>
        requires position { place.position < 2 ^ 60 }
        requires import_index { place.import_index < 2 ^ 60 }
        ensures { MatchOption result ((left : List Fixup) → place.entry.left.now ≡ unit self place.entry.position place.entry.import_index ++ left → ⊥) (λ next. Next self place.entry next) }
    {
        let left = self.behind(place.left, place.position, place.import_index)?;
        let position = place.position + self.stride();
        let import_index = place.import_index + self.imports();
        Some(PlanState {
            left,
            position,
            import_index,
            ..place
        })
    }

    /// Returns whether some fixups begin with one unit. The unit is at a position, and `import` is the next import.
    #[inline(always)]
    pub(crate) fn begins(self, fixups: &[Fixup], position: u64, import: u64) -> bool
        requires position { position < 2 ^ 60 }
        ensures { Begins self position import fixups.now result }
    {
        match self.behind(fixups, position, import) {
            Some(_) => true,
            None => false,
        }
    }

    /// Returns the fixups after one unit, if they begin with it. The unit is at a position, and `import` is the
    /// next import.
    #[inline(always)]
    pub(crate) fn behind<'a>(
        self,
        fixups: &'a [Fixup],
        position: u64,
        import: u64,
    ) -> Option<&'a [Fixup]>
        requires position { position < 2 ^ 60 }
        ensures { option_map (λ l. l.now) result ≡ behind (unit self position import) fixups.entry.now }
    {
        match self {
            Run::WordsOfC(section) | Run::WordsOfD(section) => {
                after_first(fixups, position, Base::Section(section))
            }
            Run::Spaced(section) | Run::Skip { section, .. } => {
                after_first(fixups, position, Base::Section(section))
            }
            Run::Pairs { first, second } | Run::SpacedPairs { first, second } => {
                let rest = after_first(fixups, position, Base::Section(first))?;
                after_first(rest, position + WORD, Base::Section(second))
            }
            Run::Imports => after_import(fixups, position, import),
        }
    }
}

impl<'a> SolvedSuffix<'a> {
    /// Returns the better of a choice and the best end of a run. The run begins at the position `from`, in
    /// bytes. It is followed unit by unit, until a choice reaches the label.
    pub fn best_of_run(
        self,
        here: OpenState<'a>,
        run: Run,
        from: u64,
        first: Sought<'a>,
    ) -> Choice<'a>
        requires here { HereOf self here }
        requires run { RunOf self.registers.now run here.place from }
        requires from { from ≤ 2 ^ 24 }
        requires first { Chosen self here first.choice }
        ensures chosen { Chosen self.entry here.entry result }
        ensures better { result.value ≤ first.entry.choice.value }
        ensures found { FirstEnd self.entry here.entry run from first.entry result }
        ensures attained { (l : Labels) → Agrees l self.entry here.entry.others.now → (result.value ≡ first.entry.choice.value) ⊎ EndOf l run here.entry from result.value }
        ensures ends { (l : Labels) (value : ℕ) → Agrees l self.entry here.entry.others.now → value ≤ result.value → first.entry.label < result.value → Ends l run here.entry from value }
    {
        let Sought { choice, label } = first;
        let mut best = choice;
        let mut next = PlanState {
            position: from,
            ..here.place
        };
        'ends: for done in 0..run.limit() {
            if best.value <= label {
                return best;
            }
            next = match run.next(next) {
                Some(next) => next,
                None => return best,
            };
            let value = 1 + self.value(next.left, next.position, next.c, next.d);
            if value < best.value {
                let instr = run.instr(done + 1);
                let step = Step { instr, next };
                best = Choice { step, value };
            }
        }
        best
    }
}
