ghost use Rattle.std.specs.Prelude.{◌≡◌, ◌+◌, ◌-◌, ◌*◌, ◌%◌, ◌^◌, ◌<◌, ◌≤◌, ℕ, IfSome, Some, [], drop, length, slice_get, slice_index_or};
ghost use Rattle.pef_cert.specs.Extension.{change, extension, offer_at};
ghost use Rattle.pef_cert.specs.Labels.{class_of};
ghost use Rattle.pef_labels.specs.Rows.{rows_from};
ghost use Rattle.pef_cert.specs.Kept.Claims.{IsRowOf, Sees, Shaped, labels_claimed, word_end};

use crate::extension::moved_value;
use pef_labels::KeptRows;
use pef_reloc::{Base, Fixup, MAX_SECTIONS};

/// The most indices after the fixup under test that are needed: no instruction makes more fixups.
pub(crate) const WINDOW: usize = 1024;

/// The most classes: one for each section, and one more.
pub(crate) const MAX_CLASSES: usize = MAX_SECTIONS as usize + 1;

/// The labels that are claimed for fixups.
#[derive(Clone, Copy)]
pub(crate) struct Claim<'a> {
    pub(crate) fixups: &'a [Fixup],
    pub(crate) registers: &'a [u32],
    pub(crate) kept: KeptRows<'a>,
}

/// A claim, and the results for the fixups after the one under test.
#[derive(Clone, Copy)]
pub(crate) struct CheckedSuffix<'a> {
    pub(crate) claim: Claim<'a>,
    /// For each index, its kept row, at the index modulo 1,024.
    pub(crate) rows: &'a [usize],
    /// For each index at a section's fixup after a gap, the least value of a skip there, by the class of
    /// register C, at the index modulo 1,024.
    pub(crate) skips: &'a [[u32; MAX_CLASSES]],
}

/// Where a machine is: its position, and the classes of its registers.
#[derive(Clone, Copy)]
struct MachineState {
    position: u64,
    c: usize,
    d: usize,
}

impl<'a> Claim<'a> {
    /// Returns how many classes there are.
    pub(crate) fn classes(self) -> usize
        requires { Shaped self }
        ensures { result ≡ length self.entry.registers.now + 1 }
    {
        self.registers.len() + 1
    }

    /// Returns a label of a kept row.
    pub(crate) fn label(self, row: usize, c: usize, d: usize) -> u32
        requires shaped { Shaped self }
        requires row { row < length self.kept.ends.now }
        requires c { c < length self.registers.now + 1 }
        requires d { d < length self.registers.now + 1 }
        ensures { (j : ℕ) → IsRowOf self.entry.kept.ends.now row j → j ≤ length self.entry.fixups.now → result ≡ (labels_claimed self.entry).label (length self.entry.fixups.now - j) c d }
    {
        let place = c * self.classes() + d;
        self.kept.values[row * self.kept.width + place]
    }

    /// Returns 1 if a register with this class must change to hold a section that the fixups use,
    /// otherwise 0.
    fn change(self, section: u32, class: usize) -> u64
        requires shaped { Shaped self }
        requires counts { class_of self.registers.now section < length self.registers.now }
        ensures { result ≡ change class (class_of self.entry.registers.now section) }
    {
        match self.registers.get(class) {
            Some(register) => { if *register == section { 0 } else { 1 } }
            None => 1,
        }
    }

    /// Returns the labels of a kept row.
    pub(crate) fn row(self, row: usize) -> &'a [u32]
        requires shaped { Shaped self }
        requires row { row < length self.kept.ends.now }
        ensures is { (j : ℕ) → IsRowOf self.entry.kept.ends.now row j → result.now ≡ slice_index_or (rows_from self.entry.kept.width 0 self.entry.kept.ends.now self.entry.kept.values.now) j [] }
        ensures len { length result.now ≡ (length self.entry.registers.now + 1) * (length self.entry.registers.now + 1) }
    {
        let (_, rest) = self.kept.values.split_at(row * self.kept.width);
        let (row, _) = rest.split_at(self.kept.width);
        row
    }
}

impl<'a> CheckedSuffix<'a> {
    /// Returns the extension when the fixups from index `at` on are left, at a position after the word of
    /// the previous fixup and in classes of the registers.
    pub(crate) fn value(self, at: usize, position: u64, c: usize, d: usize) -> u64
        requires sees { Sees self at }
        requires after { word_end self.claim.fixups.now at ≤ position }
        requires c { c < length self.claim.registers.now + 1 }
        requires d { d < length self.claim.registers.now + 1 }
        ensures is { result ≡ extension (labels_claimed self.entry.claim) (drop at self.entry.claim.fixups.now) position c d }
        ensures small { result ≤ 2 ^ 32 + 1 }
    {
        match self.claim.fixups.get(at) {
            Some(fixup) => self.value_before(at, *fixup, MachineState { position, c, d }),
            None => 0,
        }
    }

    /// Returns the label at index `at`.
    pub(crate) fn label(self, at: usize, c: usize, d: usize) -> u32
        requires sees { Sees self at }
        requires c { c < length self.claim.registers.now + 1 }
        requires d { d < length self.claim.registers.now + 1 }
        ensures { result ≡ (labels_claimed self.entry.claim).label (length self.entry.claim.fixups.now - at) c d }
    {
        self.claim.label(self.rows[at % WINDOW], c, d)
    }

    /// Returns the extension when the fixups from index `at` on are left, of which this is the first.
    fn value_before(self, at: usize, fixup: Fixup, state: MachineState) -> u64
        requires sees { Sees self at }
        requires after { word_end self.claim.fixups.now at ≤ state.position }
        requires fixup { slice_get self.claim.fixups.now at ≡ Some fixup }
        requires c { state.c < length self.claim.registers.now + 1 }
        requires d { state.d < length self.claim.registers.now + 1 }
        ensures is { result ≡ extension (labels_claimed self.entry.claim) (drop at self.entry.claim.fixups.now) state.position state.c state.d }
        ensures small { result ≤ 2 ^ 32 + 1 }
    {
        let label = self.label(at, state.c, state.d);
        let offset = u64::from(fixup.offset);
        if state.position == offset {
            return u64::from(label);
        }
        if state.position > offset {
            return 2 + u64::from(label);
        }
        let offer = self.offer(at, fixup, state.c, state.d);
        moved_value(offset - state.position, label, offer)
    }

    /// Returns the least offer at index `at`, whose fixup begins after a gap.
    fn offer(self, at: usize, fixup: Fixup, c: usize, d: usize) -> Option<u64>
        requires sees { Sees self at }
        requires fixup { slice_get self.claim.fixups.now at ≡ Some fixup }
        requires c { c < length self.claim.registers.now + 1 }
        requires d { d < length self.claim.registers.now + 1 }
        ensures is { word_end self.entry.claim.fixups.now at < fixup.offset → result ≡ offer_at (labels_claimed self.entry.claim) fixup (drop (at + 1) self.entry.claim.fixups.now) c d }
        ensures small { IfSome result (λ x. x ≤ 2 ^ 32) }
    {
        match fixup.base {
            Base::Section(section) => {
                let change = self.claim.change(section, d);
                let skip = self.skips[at % WINDOW][c];
                Some(change + u64::from(skip))
            }
            Base::Import(_) => None,
        }
    }
}
