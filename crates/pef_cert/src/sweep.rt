ghost use Rattle.std.specs.Prelude.{◌≡◌, ◌+◌, ◌*◌, ◌<◌, ◌≤◌, MatchOption, ◌-◌, drop, take, slice_get, length};
ghost use Rattle.pef_cert.specs.Extension.{extension_at};
ghost use Rattle.pef_cert.specs.Feasible.{Feasible};
ghost use Rattle.pef_cert.specs.Kept.Claims.{FeasibleAfter, IsRowOf, Knows, Shaped, Skips, SkipsAre, labels_claimed, word_end};
ghost use Rattle.pef_cert.specs.Kept.Sets.{RowIsZero};
ghost use Rattle.pef_cert.specs.Fixups.Answers.{Says};
ghost use Rattle.pef_reloc.specs.Steps.{start};

use crate::claim::{CheckedSuffix, Claim, MAX_CLASSES, WINDOW};
use crate::classes::class_of;
use crate::feasible::TestedFixup;
use crate::fixups::WORD;
use pef_reloc::{Base, Fixup};

impl<'a> Claim<'a> {
    /// Returns the extension at the start, if the labels are feasible. They are tested from the last fixup
    /// to the first, with the results of the 1,024 indices after.
    pub(crate) fn start_value(self) -> Option<u64>
        requires { Shaped self }
        ensures { MatchOption result (Feasible (labels_claimed self.entry) self.entry.fixups.now → ⊥) (λ value. Feasible (labels_claimed self.entry) self.entry.fixups.now × (value ≡ extension_at (labels_claimed self.entry) self.entry.fixups.now start)) }
    {
        let mut row = self.kept.ends.len() - 1;
        if !is_zero(self.row(row)) {
            return None;
        }
        let mut at = self.fixups.len();
        let mut rows = [0; WINDOW];
        let mut skips = [[0; MAX_CLASSES]; WINDOW];
        rows[at % WINDOW] = row;
        'fixups: while at > 0 {
            at -= 1;
            row = self.row_before(row, at);
            let fixup = self.fixups[at];
            let behind = CheckedSuffix {
                claim: self,
                rows: &rows,
                skips: &skips,
            };
            if !behind.fixup_holds(TestedFixup { at, fixup, row }) {
                return None;
            }
            let least = behind.skips_after_gap(at, fixup);
            rows[at % WINDOW] = row;
            if let Some(least) = least {
                skips[at % WINDOW] = least;
            }
        }
        let behind = CheckedSuffix {
            claim: self,
            rows: &rows,
            skips: &skips,
        };
        let (c, d) = (class_of(self.registers, 0), class_of(self.registers, 1));
        Some(behind.value(0, 0, c, d))
    }

    /// Returns the kept row of an index, from that of the index after it.
    fn row_before(self, row: usize, at: usize) -> usize
        requires shaped { Shaped self }
        requires behind { IsRowOf self.kept.ends.now row (at + 1) }
        ensures { IsRowOf self.entry.kept.ends.now result at }
    {
        if row > 0 && at < self.kept.ends[row - 1] {
            row - 1
        } else {
            row
        }
    }

    /// Returns the end of the word of the fixup before index `at`, or 0 at the first.
    fn word_end(self, at: usize) -> u64
        requires { at ≤ length self.fixups.now }
        ensures { result ≡ word_end self.entry.fixups.now at }
    {
        if at == 0 {
            return 0;
        }
        u64::from(self.fixups[at - 1].offset) + WORD
    }
}

/// Returns whether all labels of a row are 0.
fn is_zero(row: &[u32]) -> bool
    ensures { Says result (RowIsZero row.now) }
{
    for label in row {
        if *label != 0 {
            return false;
        }
    }
    true
}

impl<'a> CheckedSuffix<'a> {
    /// Returns the least skips at index `at`, which has this fixup, by the class of register C. `None` if
    /// there is no gap after the previous word, because then no move leads to the fixup.
    fn skips_after_gap(self, at: usize, fixup: Fixup) -> Option<[u32; MAX_CLASSES]>
        requires knows { Knows self (at + 1) }
        requires here { slice_get self.claim.fixups.now at ≡ Some fixup }
        requires beyond { FeasibleAfter self.claim at }
        ensures { MatchOption result (fixup.offset ≤ word_end self.entry.claim.fixups.now at) (λ least. SkipsAre self.entry.claim fixup (drop (at + 1) self.entry.claim.fixups.now) least) }
    {
        if u64::from(fixup.offset) <= self.claim.word_end(at) {
            return None;
        }
        Some(self.least_skips(at, fixup))
    }

    /// Returns the least skips at index `at`, which has this fixup, by the class of register C, wherever
    /// the previous word ends.
    fn least_skips(self, at: usize, fixup: Fixup) -> [u32; MAX_CLASSES]
        requires knows { Knows self (at + 1) }
        requires here { slice_get self.claim.fixups.now at ≡ Some fixup }
        requires beyond { FeasibleAfter self.claim at }
        ensures { SkipsAre self.entry.claim fixup (drop (at + 1) self.entry.claim.fixups.now) result }
    {
        match fixup.base {
            Base::Section(section) => self.section_skips(at, fixup, section),
            Base::Import(_) => [0; MAX_CLASSES],
        }
    }

    /// Returns the least skips at index `at`, whose fixup has a section, by the class of register C.
    fn section_skips(self, at: usize, fixup: Fixup, section: u32) -> [u32; MAX_CLASSES]
        requires { Skips self at fixup section }
        ensures { SkipsAre self.entry.claim fixup (drop (at + 1) self.entry.claim.fixups.now) result }
    {
        let mut least = [0; MAX_CLASSES];
        for c in 0..self.claim.classes() {
            least[c] = self.least_skip(at, fixup, section, c) as u32;
        }
        least
    }
}
