ghost use Rattle.std.specs.Prelude.{◌≡◌, ◌==◌, ◌+◌, ◌++◌, ◌*◌, ◌<◌, ◌≤◌, ◌∷◌, ℕ, List, length, true};
ghost use Rattle.pef_cert.specs.Labels.{Labels, class_of};
ghost use Rattle.pef_plan.specs.declared.runs.state.OpenState.{OpenState};
ghost use Rattle.pef_plan.specs.declared.runs.suffix.SolvedSuffix.{SolvedSuffix};
ghost use Rattle.pef_plan.specs.Runs.Ends.{EndsAt};
ghost use Rattle.pef_plan.specs.Runs.Runs.{Ends, Holds, NextBase, RunBegins, RunOf};
ghost use Rattle.pef_plan.specs.Runs.Places.{Chosen, HereOf, Led, bound_of};
ghost use Rattle.pef_plan.specs.Kept.Firsts.{SiftedOf, run_list, with_c, with_d, with_pairs};
ghost use Rattle.pef_plan.specs.Kept.Met.{MetInC, MetInD, PairsMet};
ghost use Rattle.pef_plan.specs.Runs.Tables.{Agrees};
ghost use Rattle.pef_reloc.specs.declared.fixup.Base.TheVariants.{Section};
ghost use Rattle.pef_reloc.specs.declared.instr.Instr.{Instr};

use crate::runs::{OpenState, Run, RunEnds, SolvedSuffix, Sought};
use pef_cert::has_class;
use pef_reloc::Base;

/// The best instruction found so far at a fixup. Each type has its own way to find the best end of a run.
pub(crate) trait Best<'a>: Copy {
    /// A lower bound of all ends so far: the halfwords of the instruction plus the extension after it, or 0 if that
    /// reaches the label.
    ghost bound: { Self → ℕ };

    /// The label that ends the search, or 0.
    ghost label: { Self → ℕ };

    /// The instruction leads on from a state.
    ghost leads: { SolvedSuffix → OpenState → Self → Type 0 };

    /// The instruction is the first of those that were tried to reach the label, or none of them reaches it.
    ghost sifted: { SolvedSuffix → OpenState → List Instr → Self → Type 0 };

    /// Returns the better of the instruction and a run that begins at the fixup.
    fn or_run(self, known: SolvedSuffix<'a>, here: OpenState<'a>, run: Run) -> Self
        requires here { HereOf known here }
        requires at { here.place.position ≡ here.first.offset }
        requires run { RunOf known.registers.now run here.place here.place.position }
        requires begins { RunBegins run here.place.import_index here.first.base here.others.now }
        requires leads { leads known here self }
        ensures leads { leads known.entry here.entry result }
        ensures label { label result ≡ label self }
        ensures better { bound result ≤ bound self }
        ensures first { (before : List Instr) → sifted known.entry here.entry before self → sifted known.entry here.entry (before ++ run_list run) result }
        ensures ends { (l : Labels) (n : ℕ) → Agrees l known.entry here.entry.others.now → n ≤ bound result → Ends l run here.entry here.entry.place.position n };
}

/// Follows the run unit by unit, unless the choice reaches the label.
impl<'a> Best<'a> for Sought<'a> {
    ghost bound = { λ x. bound_of x.label x.choice.value };

    ghost label = { λ x. x.label };

    ghost leads = { λ k h x. Chosen k h x.choice × (x.choice.value ≤ 4 * length h.others.now + 4) };

    ghost sifted = { λ k h tried x. SiftedOf k h x.label tried x.choice };

    #[tactic(auto, using(crate::proofs::SiftLemmas::sift_run))]
    fn or_run(self, known: SolvedSuffix<'a>, here: OpenState<'a>, run: Run) -> Self {
        let choice = known.best_of_run(here, run, here.place.position, self);
        Sought { choice, ..self }
    }
}

/// The value of an instruction, and the windows that have the values of the runs at its fixup.
#[derive(Clone, Copy)]
pub(crate) struct LowValue<'e> {
    pub(crate) value: u64,
    pub(crate) ends: &'e RunEnds,
}

/// Asks the run's window.
impl<'a> Best<'a> for LowValue<'_> {
    ghost bound = { λ x. x.value };

    ghost label = { λ _. 0 };

    ghost leads = { λ k h x. EndsAt k h.others.now (h.first ∷ h.others.now) x.ends.now × Led k h x.value };

    ghost sifted = { λ _ _ _ _. Unit {0} };

    #[inline(always)]
    fn or_run(self, known: SolvedSuffix<'a>, here: OpenState<'a>, run: Run) -> Self {
        let value = self.ends.low_of_run(known, here, run, self.value);
        LowValue { value, ..self }
    }
}

/// A section and its class.
#[derive(Clone, Copy)]
pub(crate) struct Classed {
    pub(crate) section: u32,
    pub(crate) class: usize,
}

/// Returns the better of an instruction and a section's runs. Only runs that need the section in register C
/// are tried, and only if it holds it.
#[tactic(auto, using(crate::proofs::RunTests::words_c_met))]
pub(crate) fn best_in_c<'a, B: Best<'a>>(
    known: SolvedSuffix<'a>,
    here: OpenState<'a>,
    of: Classed,
    first: B,
) -> B
    requires here { HereOf known here }
    requires at { here.place.position ≡ here.first.offset }
    requires base { here.first.base ≡ Section of.section }
    requires class { class_of known.registers.now of.section ≡ of.class }
    requires first { B.leads known here first }
    ensures leads { B.leads known.entry here.entry result }
    ensures label { B.label result ≡ B.label first }
    ensures better { B.bound result ≤ B.bound first }
    ensures first { (before : List Instr) → B.sifted known.entry here.entry before first → B.sifted known.entry here.entry (with_c known.entry here.entry of.section of.class before) result }
    ensures least { (l : Labels) (n : ℕ) → Agrees l known.entry here.entry.others.now → n ≤ B.bound result → (class_of l.registers of.section == here.entry.place.c) ≡ true → MetInC l here.entry of.section n }
{
    let Classed { section, class } = of;
    if class != here.place.c {
        return first;
    }
    let words = first.or_run(known, here, Run::WordsOfC(section));
    match here.others.split_first() {
        Some((next, _)) => match next.base {
            Base::Section(second) => best_of_pairs(known, here, (section, second), words),
            Base::Import(_) => words,
        },
        None => words,
    }
}

/// Returns the better of an instruction and a section's runs. Only runs that need the section in register D
/// are tried, and only if it holds it.
#[tactic(auto, using(crate::proofs::RunTests::words_d_met, crate::proofs::RunTests::spaced_met))]
pub(crate) fn best_in_d<'a, B: Best<'a>>(
    known: SolvedSuffix<'a>,
    here: OpenState<'a>,
    of: Classed,
    first: B,
) -> B
    requires here { HereOf known here }
    requires at { here.place.position ≡ here.first.offset }
    requires base { here.first.base ≡ Section of.section }
    requires class { class_of known.registers.now of.section ≡ of.class }
    requires first { B.leads known here first }
    ensures leads { B.leads known.entry here.entry result }
    ensures label { B.label result ≡ B.label first }
    ensures better { B.bound result ≤ B.bound first }
    ensures first { (before : List Instr) → B.sifted known.entry here.entry before first → B.sifted known.entry here.entry (with_d known.entry here.entry of.section of.class before) result }
    ensures least { (l : Labels) (n : ℕ) → Agrees l known.entry here.entry.others.now → n ≤ B.bound result → (class_of l.registers of.section == here.entry.place.d) ≡ true → MetInD l here.entry of.section n }
{
    let Classed { section, class } = of;
    if class != here.place.d {
        return first;
    }
    let words = first.or_run(known, here, Run::WordsOfD(section));
    words.or_run(known, here, Run::Spaced(section))
}

/// Returns the better of an instruction and the runs of pairs of a section in register C and one in D.
#[tactic(auto, using(crate::proofs::RunTests::pairs_met))]
pub(crate) fn best_of_pairs<'a, B: Best<'a>>(
    known: SolvedSuffix<'a>,
    here: OpenState<'a>,
    sections: (u32, u32),
    best: B,
) -> B
    requires here { HereOf known here }
    requires at { here.place.position ≡ here.first.offset }
    requires base { here.first.base ≡ Section sections.0 }
    requires next { NextBase (Section sections.1) here.others.now }
    requires holds { Holds known.registers.now sections.0 here.place.c }
    requires counts { class_of known.registers.now sections.1 < length known.registers.now }
    requires best { B.leads known here best }
    ensures leads { B.leads known.entry here.entry result }
    ensures label { B.label result ≡ B.label best }
    ensures better { B.bound result ≤ B.bound best }
    ensures first { (before : List Instr) → B.sifted known.entry here.entry before best → B.sifted known.entry here.entry (with_pairs known.entry.registers.now here.entry.place.d sections.0 (Section sections.1) before) result }
    ensures least { (l : Labels) (n : ℕ) → Agrees l known.entry here.entry.others.now → n ≤ B.bound result → PairsMet l here.entry sections.0 sections.1 n }
{
    let (first, second) = sections;
    if !has_class(known.registers, second, here.place.d) {
        return best;
    }
    let near = best.or_run(known, here, Run::Pairs { first, second });
    near.or_run(known, here, Run::SpacedPairs { first, second })
}
