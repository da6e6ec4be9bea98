ghost use Rattle.std.specs.Prelude.{◌≡◌, ◌+◌, ◌-◌, ◌<◌, IsTrue, drop, length, take};
ghost use Rattle.pef_cert.specs.Feasible.{FeasibleAt};
ghost use Rattle.pef_cert.specs.Kept.Claims.{GoesOn, SharesRow, Tests, UnderTest, labels_claimed, row_at, state_of};
ghost use Rattle.pef_cert.specs.Kept.Sets.{RowHolds};
ghost use Rattle.pef_cert.specs.Kept.Tests.{AllTests};
ghost use Rattle.pef_cert.specs.Fixups.Answers.{Says};
ghost use Rattle.pef_reloc.specs.Deliveries.{index_after};

use crate::claim::{CheckedSuffix, WINDOW};
use crate::fixups::WORD;
use crate::runs::TestedState;
use crate::sets::sets_hold;
use pef_reloc::{Base, Fixup};

/// A fixup under test: its index, and the kept row with its labels.
#[derive(Clone, Copy)]
pub(crate) struct TestedFixup {
    pub(crate) at: usize,
    pub(crate) fixup: Fixup,
    pub(crate) row: usize,
}

impl<'a> CheckedSuffix<'a> {
    /// Returns whether the labels of a fixup are feasible.
    pub(crate) fn fixup_holds(self, under: TestedFixup) -> bool
        requires { UnderTest self under }
        ensures { Says result (FeasibleAt (labels_claimed self.entry.claim) (index_after (take under.at self.entry.claim.fixups.now) 0) under.fixup (drop (under.at + 1) self.entry.claim.fixups.now)) }
    {
        if !self.row_sets_hold(under) {
            return false;
        }
        self.all_additions_hold(under)
    }

    /// Returns whether the change of one register changes the labels of a fixup by at most 1. If the next
    /// fixup has the same kept row, that was tested there.
    fn row_sets_hold(self, under: TestedFixup) -> bool
        requires { UnderTest self under }
        ensures { Says result (RowHolds (row_at self.entry.claim under.at) (length self.entry.claim.registers.now + 1)) }
    {
        if self.shares_row(under) {
            return true;
        }
        sets_hold(self.claim.row(under.row), self.claim.classes())
    }

    /// Returns whether the next fixup has the same kept row.
    fn shares_row(self, under: TestedFixup) -> bool
        requires { UnderTest self under }
        ensures { IsTrue result → SharesRow self.entry under }
    {
        if under.at + 1 >= self.claim.fixups.len() {
            return false;
        }
        self.rows[(under.at + 1) % WINDOW] == under.row
    }

    /// Tests the labels of a fixup against all instructions that begin by adding at it.
    fn all_additions_hold(self, under: TestedFixup) -> bool
        requires { UnderTest self under }
        ensures { Says result (AllTests (labels_claimed self.entry.claim) (index_after (take under.at self.entry.claim.fixups.now) 0) under.fixup (drop (under.at + 1) self.entry.claim.fixups.now)) }
    {
        match under.fixup.base {
            Base::Section(section) => self.section_holds(under, section),
            Base::Import(import) => self.import_holds(under, import),
        }
    }

    /// Returns whether the next word adds a base, by a fixup with the same kept row. If this base
    /// continues the runs of the fixup under test, they were tested there with the same labels.
    pub(crate) fn goes_on(self, under: TestedFixup, base: Base) -> bool
        requires { UnderTest self under }
        ensures { IsTrue result → GoesOn self.entry under base }
    {
        if !self.shares_row(under) {
            return false;
        }
        self.claim
            .adds(under.at + 1, u64::from(under.fixup.offset) + WORD, base)
    }

    /// Returns the state of a fixup in two classes, with its label.
    pub(crate) fn state(self, under: TestedFixup, c: usize, d: usize) -> TestedState
        requires under { UnderTest self under }
        requires c { c < length self.claim.registers.now + 1 }
        requires d { d < length self.claim.registers.now + 1 }
        ensures tests { Tests self.entry result }
        ensures is { result ≡ state_of self.entry.claim under c d }
    {
        let label = self.claim.label(under.row, c, d);
        let (at, fixup) = (under.at, under.fixup);
        TestedState {
            at,
            fixup,
            c,
            d,
            label,
        }
    }
}
