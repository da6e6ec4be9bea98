ghost use Rattle.std.specs.Prelude.{◌≡◌, ◌+◌, ◌<◌, Some, drop, length, slice_get};
ghost use Rattle.pef_cert.specs.Kept.Claims.{UnderTest, labels_claimed};
ghost use Rattle.pef_cert.specs.Kept.Sets.{RowWithin};
ghost use Rattle.pef_cert.specs.Kept.Tests.{AllSingles, LineSingles, single_test};
ghost use Rattle.pef_cert.specs.Fixups.Answers.{Says};

use crate::claim::{CheckedSuffix, WINDOW};
use crate::feasible::TestedFixup;
use crate::fixups::WORD;
use pef_reloc::Fixup;

impl<'a> CheckedSuffix<'a> {
    /// Tests the labels of a fixup against its addition alone, in `cost` halfwords.
    pub(crate) fn singles_hold(self, under: TestedFixup, cost: u32) -> bool
        requires { UnderTest self under }
        ensures { Says result (AllSingles (labels_claimed self.entry.claim) cost under.fixup (drop (under.at + 1) self.entry.claim.fixups.now)) }
    {
        let position = u64::from(under.fixup.offset) + WORD;
        match self.claim.fixups.get(under.at + 1) {
            Some(next) if u64::from(next.offset) == position => {
                self.near_singles_hold(under, *next, cost)
            }
            _ => self.far_singles_hold(under, cost),
        }
    }

    /// Tests the labels of a fixup against its addition alone, if the next word has a fixup: the extensions
    /// after the addition are the labels of that fixup.
    fn near_singles_hold(self, under: TestedFixup, next: Fixup, cost: u32) -> bool
        requires under { UnderTest self under }
        requires next { slice_get self.claim.fixups.now (under.at + 1) ≡ Some next }
        requires near { next.offset ≡ under.fixup.offset + 4 }
        ensures { Says result (AllSingles (labels_claimed self.entry.claim) cost under.fixup (drop (under.at + 1) self.entry.claim.fixups.now)) }
    {
        let row = self.claim.row(under.row);
        let later = self.claim.row(self.rows[(under.at + 1) % WINDOW]);
        row_within(row, later, cost)
    }

    /// Tests the labels of a fixup against its addition alone, wherever the next fixup is.
    fn far_singles_hold(self, under: TestedFixup, cost: u32) -> bool
        requires { UnderTest self under }
        ensures { Says result (AllSingles (labels_claimed self.entry.claim) cost under.fixup (drop (under.at + 1) self.entry.claim.fixups.now)) }
    {
        for c in 0..self.claim.classes() {
            if !self.line_singles_hold(under, cost, c) {
                return false;
            }
        }
        true
    }

    /// Tests the labels of the states with register C in a class against the addition alone.
    fn line_singles_hold(self, under: TestedFixup, cost: u32, c: usize) -> bool
        requires under { UnderTest self under }
        requires c { c < length self.claim.registers.now + 1 }
        ensures { Says result (LineSingles (labels_claimed self.entry.claim) cost under.fixup (drop (under.at + 1) self.entry.claim.fixups.now) c) }
    {
        for d in 0..self.claim.classes() {
            if !self.single_holds(under, cost, c, d) {
                return false;
            }
        }
        true
    }

    /// Tests the label of one state against the addition alone.
    fn single_holds(self, under: TestedFixup, cost: u32, c: usize, d: usize) -> bool
        requires under { UnderTest self under }
        requires c { c < length self.claim.registers.now + 1 }
        requires d { d < length self.claim.registers.now + 1 }
        ensures { result ≡ single_test (labels_claimed self.entry.claim) cost under.fixup (drop (under.at + 1) self.entry.claim.fixups.now) c d }
    {
        let label = self.claim.label(under.row, c, d);
        let position = u64::from(under.fixup.offset) + WORD;
        u64::from(label) <= u64::from(cost) + self.value(under.at + 1, position, c, d)
    }
}

/// Returns whether each label of a row is at most `cost` above that of another row. It looks at all of them, so that
/// the compiler makes it test many at a time.
fn row_within(row: &[u32], others: &[u32], cost: u32) -> bool
    requires { length row.now ≡ length others.now }
    ensures { Says result (RowWithin cost row.now others.now) }
{
    let mut all = true;
    for place in 0..row.len() {
        all &= row[place].saturating_sub(cost) <= others[place];
    }
    all
}
