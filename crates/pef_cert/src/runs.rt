ghost use Rattle.std.specs.Prelude.{◌≡◌, ◌+◌, ◌^◌, ◌&&◌, ◌<◌, ◌≤◌, IsTrue, drop, length, take};
ghost use Rattle.pef_cert.specs.Kept.Claims.{Covers, PairsMet, RowMet, Sees, Tests, labels_claimed, word_end};
ghost use Rattle.pef_cert.specs.Kept.Tests.{adds_first};
ghost use Rattle.pef_cert.specs.LabelTests.{numbered_test, one_from, pairs_test, row_test};
ghost use Rattle.pef_reloc.specs.Deliveries.{index_after};

use crate::claim::{CheckedSuffix, Claim};
use crate::fixups::{WORD, adds_at};
use pef_reloc::{Base, Fixup};

/// The most words, pairs or imports of a run.
const MAX_RUN: u32 = 512;

/// A state at a fixup's offset: the fixup and its index, the classes of the registers, and the label.
#[derive(Clone, Copy)]
pub(crate) struct TestedState {
    pub(crate) at: usize,
    pub(crate) fixup: Fixup,
    pub(crate) c: usize,
    pub(crate) d: usize,
    pub(crate) label: u32,
}

/// Pairs of words, one after another, to which two bases are added.
#[derive(Clone, Copy)]
pub(crate) struct PairRun {
    /// How many bytes there are from a pair to the next.
    pub(crate) stride: u64,
    /// The base of each pair's first word.
    pub(crate) first: Base,
    /// The base of each pair's second word.
    pub(crate) second: Base,
}

impl<'a> Claim<'a> {
    /// Returns whether the fixup at index `at` adds `base` at a position.
    pub(crate) fn adds(self, at: usize, position: u64, base: Base) -> bool
        ensures { result ≡ adds_first position base (drop at self.entry.fixups.now) }
    {
        match self.fixups.get(at) {
            Some(fixup) => adds_at(*fixup, position, base),
            None => false,
        }
    }

    /// Returns whether the fixups from index `at` on add two bases side by side at a position.
    fn adds_pair(self, at: usize, position: u64, first: Base, second: Base) -> bool
        requires position { position < 2 ^ 60 }
        requires at { at < length self.fixups.now + 1 }
        ensures { result ≡ (adds_first position first (drop at self.entry.fixups.now) && adds_first (position + 4) second (drop (at + 1) self.entry.fixups.now)) }
    {
        self.adds(at, position, first) && self.adds(at + 1, position + WORD, second)
    }
}

impl<'a> CheckedSuffix<'a> {
    /// Returns whether the label is at most 1 plus the extension from index `at` on.
    pub(crate) fn follows(self, tested: TestedState, at: usize, position: u64) -> bool
        requires tests { Tests self tested }
        requires sees { Sees self at }
        requires after { word_end self.claim.fixups.now at ≤ position }
        ensures { result ≡ one_from (labels_claimed self.entry.claim) tested.label (drop at self.entry.claim.fixups.now) position tested.c tested.d }
    {
        u64::from(tested.label) <= 1 + self.value(at, position, tested.c, tested.d)
    }

    /// Returns whether an index is after the fixup under test and its label in the same classes is at
    /// least the tested one. If a run continues there, the tests of that label cover every longer end.
    fn covers(self, tested: TestedState, at: usize) -> bool
        requires tests { Tests self tested }
        requires from { tested.at ≤ at }
        requires before { at < tested.at + 1024 }
        requires inside { at ≤ length self.claim.fixups.now }
        ensures { IsTrue result → Covers self.entry tested at }
    {
        if at == tested.at {
            return false;
        }
        self.label(at, tested.c, tested.d) >= tested.label
    }

    /// Tests a label after each run of a base, `stride` bytes apart, that begins at a position.
    pub(crate) fn row_holds(
        self,
        tested: TestedState,
        position: u64,
        stride: u64,
        base: Base,
    ) -> bool
        requires tests { Tests self tested }
        requires position { position < 2 ^ 32 }
        requires stride { 4 ≤ stride }
        requires stride_small { stride ≤ 12 }
        requires met { RowMet self tested stride base }
        ensures { result ≡ row_test (labels_claimed self.entry.claim) tested.label stride base tested.c tested.d 512 position (drop tested.at self.entry.claim.fixups.now) }
    {
        let mut at = tested.at;
        let mut from = position;
        'words: for _ in 0..MAX_RUN {
            if !self.claim.adds(at, from, base) {
                return true;
            }
            if self.covers(tested, at) {
                return true;
            }
            at += 1;
            from += stride;
            if !self.follows(tested, at, from) {
                return false;
            }
        }
        true
    }

    /// Tests a label after each run of pairs that begins at a position.
    pub(crate) fn pairs_hold(self, tested: TestedState, position: u64, run: PairRun) -> bool
        requires tests { Tests self tested }
        requires position { position < 2 ^ 32 }
        requires stride { 8 ≤ run.stride }
        requires stride_small { run.stride ≤ 12 }
        requires met { PairsMet self tested run.stride run.first run.second }
        ensures { result ≡ pairs_test (labels_claimed self.entry.claim) tested.label run.stride run.first run.second tested.c tested.d 512 position (drop tested.at self.entry.claim.fixups.now) }
    {
        let mut at = tested.at;
        let mut from = position;
        'pairs: for _ in 0..MAX_RUN {
            if !self.claim.adds_pair(at, from, run.first, run.second) {
                return true;
            }
            if self.covers(tested, at) {
                return true;
            }
            at += 2;
            from += run.stride;
            if !self.follows(tested, at, from) {
                return false;
            }
        }
        true
    }

    /// Tests a label after each run of imports, from one on, that begins at a position.
    pub(crate) fn imports_hold(self, tested: TestedState, position: u64, first: u32) -> bool
        requires tests { Tests self tested }
        requires position { position < 2 ^ 32 }
        requires first { first < 2 ^ 31 }
        requires index { first ≡ index_after (take tested.at self.claim.fixups.now) 0 }
        ensures { result ≡ numbered_test (labels_claimed self.entry.claim) tested.label tested.c tested.d 512 position first (drop tested.at self.entry.claim.fixups.now) }
    {
        let mut at = tested.at;
        let mut from = position;
        let mut import = first;
        'imports: for _ in 0..MAX_RUN {
            if !self.claim.adds(at, from, Base::Import(import)) {
                return true;
            }
            if self.covers(tested, at) {
                return true;
            }
            at += 1;
            from += WORD;
            import += 1;
            if !self.follows(tested, at, from) {
                return false;
            }
        }
        true
    }
}
