ghost use Rattle.std.specs.Prelude.{◌≡◌, ◌+◌, ◌<◌, drop, false, length, take};
ghost use Rattle.pef_cert.specs.Kept.Claims.{GoesOn, Tests, UnderTest, labels_claimed};
ghost use Rattle.pef_cert.specs.Kept.Tests.{AllSingles, AllTests, SectionRuns, adds_first, runs_of_c, runs_of_d};
ghost use Rattle.pef_cert.specs.Labels.{class_of};
ghost use Rattle.pef_cert.specs.LabelTests.{pair_test, second_test};
ghost use Rattle.pef_cert.specs.Fixups.Answers.{Says};
ghost use Rattle.pef_reloc.specs.Deliveries.{index_after};
ghost use Rattle.pef_reloc.specs.declared.fixup.Base.TheVariants.{Section};

use crate::claim::CheckedSuffix;
use crate::classes::{class_of, has_class};
use crate::feasible::TestedFixup;
use crate::fixups::WORD;
use crate::runs::{PairRun, TestedState};
use pef_reloc::Base;

impl<'a> CheckedSuffix<'a> {
    /// Tests the labels of a section's fixup against the instructions that begin by adding it.
    pub(crate) fn section_holds(self, under: TestedFixup, section: u32) -> bool
        requires under { UnderTest self under }
        requires base { under.fixup.base ≡ Section section }
        ensures { Says result (AllTests (labels_claimed self.entry.claim) (index_after (take under.at self.entry.claim.fixups.now) 0) under.fixup (drop (under.at + 1) self.entry.claim.fixups.now)) }
    {
        if self.goes_on(under, Base::Section(section)) {
            return self.same_pairs_hold(under, section);
        }
        if !self.singles_hold(under, 1) {
            return false;
        }
        self.section_runs_hold(under, section)
    }

    /// Tests the labels of a section's fixup if the next word adds the same section with the same labels.
    /// Then only the pairs of the section with itself, with both registers holding it, are left to test.
    fn same_pairs_hold(self, under: TestedFixup, section: u32) -> bool
        requires under { UnderTest self under }
        requires base { under.fixup.base ≡ Section section }
        requires on { GoesOn self under (Section section) }
        ensures { Says result (AllTests (labels_claimed self.entry.claim) (index_after (take under.at self.entry.claim.fixups.now) 0) under.fixup (drop (under.at + 1) self.entry.claim.fixups.now)) }
    {
        let class = class_of(self.claim.registers, section);
        self.second_holds(self.state(under, class, class), section)
    }

    /// Tests the labels of all states in which a register holds the section against runs of the section.
    fn section_runs_hold(self, under: TestedFixup, section: u32) -> bool
        requires under { UnderTest self under }
        requires alone { AllSingles (labels_claimed self.claim) 1 under.fixup (drop (under.at + 1) self.claim.fixups.now) }
        ensures { Says result (SectionRuns (labels_claimed self.entry.claim) section under.fixup (drop (under.at + 1) self.entry.claim.fixups.now)) }
    {
        let next = u64::from(under.fixup.offset) + WORD;
        if self.claim.adds(under.at + 1, next, Base::Section(section)) {
            return self.long_runs_hold(under, section);
        }
        self.short_runs_hold(under, section)
    }

    /// Tests the labels of all states in which a register holds the section, wherever the runs end.
    fn long_runs_hold(self, under: TestedFixup, section: u32) -> bool
        requires { UnderTest self under }
        ensures { Says result (SectionRuns (labels_claimed self.entry.claim) section under.fixup (drop (under.at + 1) self.entry.claim.fixups.now)) }
    {
        let class = class_of(self.claim.registers, section);
        for other in 0..self.claim.classes() {
            if !self.c_runs_hold(under, section, class, other) {
                return false;
            }
            if !self.d_runs_hold(under, section, other, class) {
                return false;
            }
        }
        true
    }

    /// Tests the labels of all states in which a register holds the section, if the next word doesn't add it. The run of one word
    /// was tested as an addition alone.
    fn short_runs_hold(self, under: TestedFixup, section: u32) -> bool
        requires under { UnderTest self under }
        requires alone { AllSingles (labels_claimed self.claim) 1 under.fixup (drop (under.at + 1) self.claim.fixups.now) }
        requires stops { adds_first (under.fixup.offset + 4) (Section section) (drop (under.at + 1) self.claim.fixups.now) ≡ false }
        ensures { Says result (SectionRuns (labels_claimed self.entry.claim) section under.fixup (drop (under.at + 1) self.entry.claim.fixups.now)) }
    {
        let class = class_of(self.claim.registers, section);
        let classes = self.claim.classes();
        for other in 0..classes {
            if !self.c_pairs_hold(under, section, class, other) {
                return false;
            }
            if !self.d_spaced_hold(under, section, other, class) {
                return false;
            }
        }
        true
    }

    /// Tests a label in a state in which register C holds the section.
    fn c_runs_hold(self, under: TestedFixup, section: u32, c: usize, d: usize) -> bool
        requires under { UnderTest self under }
        requires c { c ≡ class_of self.claim.registers.now section }
        requires d { d < length self.claim.registers.now + 1 }
        ensures { result ≡ runs_of_c (labels_claimed self.entry.claim) section under.fixup (drop (under.at + 1) self.entry.claim.fixups.now) c d }
    {
        let tested = self.state(under, c, d);
        let position = u64::from(under.fixup.offset);
        if !self.row_holds(tested, position, WORD, Base::Section(section)) {
            return false;
        }
        self.second_holds(tested, section)
    }

    /// Tests a label in a state in which register D holds the section.
    fn d_runs_hold(self, under: TestedFixup, section: u32, c: usize, d: usize) -> bool
        requires under { UnderTest self under }
        requires c { c < length self.claim.registers.now + 1 }
        requires d { d ≡ class_of self.claim.registers.now section }
        ensures { result ≡ runs_of_d (labels_claimed self.entry.claim) section under.fixup (drop (under.at + 1) self.entry.claim.fixups.now) c d }
    {
        let tested = self.state(under, c, d);
        let position = u64::from(under.fixup.offset);
        if !self.row_holds(tested, position, WORD, Base::Section(section)) {
            return false;
        }
        self.row_holds(tested, position, 2 * WORD, Base::Section(section))
    }

    /// Tests a label in a state in which register C holds the section, and the next word doesn't add it.
    fn c_pairs_hold(self, under: TestedFixup, section: u32, c: usize, d: usize) -> bool
        requires under { UnderTest self under }
        requires alone { AllSingles (labels_claimed self.claim) 1 under.fixup (drop (under.at + 1) self.claim.fixups.now) }
        requires stops { adds_first (under.fixup.offset + 4) (Section section) (drop (under.at + 1) self.claim.fixups.now) ≡ false }
        requires c { c ≡ class_of self.claim.registers.now section }
        requires d { d < length self.claim.registers.now + 1 }
        ensures { result ≡ runs_of_c (labels_claimed self.entry.claim) section under.fixup (drop (under.at + 1) self.entry.claim.fixups.now) c d }
    {
        self.second_holds(self.state(under, c, d), section)
    }

    /// Tests a label in a state in which register D holds the section, and the next word doesn't add it.
    fn d_spaced_hold(self, under: TestedFixup, section: u32, c: usize, d: usize) -> bool
        requires under { UnderTest self under }
        requires alone { AllSingles (labels_claimed self.claim) 1 under.fixup (drop (under.at + 1) self.claim.fixups.now) }
        requires stops { adds_first (under.fixup.offset + 4) (Section section) (drop (under.at + 1) self.claim.fixups.now) ≡ false }
        requires c { c < length self.claim.registers.now + 1 }
        requires d { d ≡ class_of self.claim.registers.now section }
        ensures { result ≡ runs_of_d (labels_claimed self.entry.claim) section under.fixup (drop (under.at + 1) self.entry.claim.fixups.now) c d }
    {
        let tested = self.state(under, c, d);
        let position = u64::from(under.fixup.offset);
        self.row_holds(tested, position, 2 * WORD, Base::Section(section))
    }

    /// Tests a label against pairs of a section in register C and the base of the next fixup.
    fn second_holds(self, tested: TestedState, section: u32) -> bool
        requires tests { Tests self tested }
        requires class { class_of self.claim.registers.now section ≡ tested.c }
        ensures { result ≡ second_test (labels_claimed self.entry.claim) tested.label section tested.c tested.d tested.fixup (drop (tested.at + 1) self.entry.claim.fixups.now) }
    {
        match self.claim.fixups.get(tested.at + 1) {
            Some(next) => self.pair_holds(tested, section, next.base),
            None => true,
        }
    }

    /// Tests a label against pairs of a section in register C and a base.
    fn pair_holds(self, tested: TestedState, section: u32, second: Base) -> bool
        requires tests { Tests self tested }
        requires class { class_of self.claim.registers.now section ≡ tested.c }
        ensures { result ≡ pair_test (labels_claimed self.entry.claim) tested.label section tested.c tested.d tested.fixup.offset (drop tested.at self.entry.claim.fixups.now) second }
    {
        match second {
            Base::Section(other) => self.sections_hold(tested, section, other),
            Base::Import(_) => true,
        }
    }

    /// Tests a label against pairs of sections in registers C and D.
    fn sections_hold(self, tested: TestedState, section: u32, other: u32) -> bool
        requires tests { Tests self tested }
        requires class { class_of self.claim.registers.now section ≡ tested.c }
        ensures { result ≡ pair_test (labels_claimed self.entry.claim) tested.label section tested.c tested.d tested.fixup.offset (drop tested.at self.entry.claim.fixups.now) (Section other) }
    {
        if has_class(self.claim.registers, other, tested.d) {
            let position = u64::from(tested.fixup.offset);
            let (first, second) = (Base::Section(section), Base::Section(other));
            let near = PairRun {
                stride: 2 * WORD,
                first,
                second,
            };
            let far = PairRun {
                stride: 3 * WORD,
                first,
                second,
            };
            return self.pairs_hold(tested, position, near)
                && self.pairs_hold(tested, position, far);
        }
        true
    }
}
