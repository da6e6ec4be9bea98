ghost use Rattle.std.specs.Prelude.{◌≡◌, ◌+◌, ◌*◌, ◌^◌, ◌<◌, ◌≤◌, ◌∷◌, [], ℕ, MatchOption, false, length, slice_index};
ghost use Rattle.pef_cert.specs.Extension.{extension};
ghost use Rattle.pef_cert.specs.Labels.{Labels};
ghost use Rattle.pef_plan.specs.Runs.Ends.{FarAt, NearKept, NearSmall};
ghost use Rattle.pef_plan.specs.Runs.Kept.Ahead.{IsAhead, class_ahead, value_ahead};
ghost use Rattle.pef_plan.specs.Runs.Places.{AtOf};
ghost use Rattle.pef_plan.specs.Runs.Tables.{Agrees, IsRow, Shaped, ValueIs, begin_at, label_in, number_in, place_of};
ghost use Rattle.pef_reloc.specs.declared.fixup.Base.TheVariants.{Section};
ghost use Rattle.pef_reloc.specs.Limits.{most_sections};

use crate::runs::ahead::NextFixup;
use crate::runs::state::FixupState;
use crate::windows::{CloseRows, Looks, Table};
use pef_cert::{WORD, class_of};
use pef_reloc::{Base, Fixup};

/// Tables of the values at the fixups that are solved so far. They are filled from the last fixup to the first.
/// Their numbers are in halfwords.
#[derive(Clone, Copy)]
pub struct SolvedSuffix<'a> {
    /// The sections that the fixups use, in rising order. A section's class is its index in this list. All
    /// other sections have the class after the last index.
    pub registers: &'a [u32],
    /// The labels, in one row for each number of fixups left. A row is ordered by the class of register C, then
    /// by that of D.
    pub labels: &'a CloseRows,
    /// The least value of a skip to the next fixup, by the number of fixups left and by the class of register
    /// C.
    pub skips: &'a Table,
    /// The counter of value reads.
    pub looks: Looks<'a>,
}

impl<'a> SolvedSuffix<'a> {
    /// Returns the number of classes of sections, one more than the number of `registers`.
    #[inline(always)]
    pub fn classes(self) -> usize
        requires { length self.registers.now ≤ most_sections }
        ensures { result ≡ length self.entry.registers.now + 1 }
    {
        self.registers.len() + 1
    }

    /// Returns the place of a class of C and a class of D in a row.
    #[inline(always)]
    pub fn place(self, c: usize, d: usize) -> usize
        requires few { length self.registers.now ≤ most_sections }
        requires c { c < length self.registers.now + 1 }
        requires d { d < length self.registers.now + 1 }
        ensures is { result ≡ place_of (length self.entry.registers.now + 1) c d }
        ensures inside { result < (length self.entry.registers.now + 1) * (length self.entry.registers.now + 1) }
    {
        c * self.classes() + d
    }

    /// Returns the label for a number of fixups left and the classes of the two registers.
    #[inline(always)]
    pub fn label(self, left: usize, c: usize, d: usize) -> u32
        requires shaped { Shaped self left }
        requires c { c < length self.registers.now + 1 }
        requires d { d < length self.registers.now + 1 }
        ensures is { result ≡ label_in (length self.entry.registers.now + 1) self.entry.labels.now.rows left c d }
        ensures small { result ≤ 4 * left }
    {
        self.labels.number(left, self.place(c, d))
    }

    /// Returns the extension, in halfwords, for the fixups that are left, a position in bytes and the
    /// registers' classes. Each call counts as one look.
    #[inline(always)]
    pub fn value(self, rest: &'a [Fixup], position: u64, c: usize, d: usize) -> u64
        requires shaped { Shaped self (length rest.now) }
        requires c { c < length self.registers.now + 1 }
        requires d { d < length self.registers.now + 1 }
        ensures is { (l : Labels) → Agrees l self.entry rest.entry.now → result ≡ extension l rest.entry.now position c d }
        ensures small { result ≤ 4 * length rest.entry.now + 2 }
    {
        self.looks.add(1);
        let label = self.label(rest.len(), c, d);
        if begin_at(rest, position) {
            return u64::from(label);
        }
        match self.ahead(rest, position) {
            Some(ahead) => ahead.value(label, c, d),
            None => 0,
        }
    }

    /// Returns the first of some fixups, seen from a position.
    #[inline(always)]
    fn ahead(self, rest: &'a [Fixup], position: u64) -> Option<NextFixup<'a>>
        requires shaped { Shaped self (length rest.now) }
        ensures { MatchOption result (rest.entry.now ≡ []) (λ ahead. IsAhead self.entry rest.entry.now position ahead) }
    {
        let first = rest.first()?;
        Some(NextFixup {
            bytes: u64::from(first.offset).saturating_sub(position),
            skips: self.skips.row(rest.len()),
            class: self.class_ahead(first.base),
        })
    }

    /// Returns the class of a base's section. An import has none.
    #[inline(always)]
    fn class_ahead(self, base: Base) -> Option<usize>
        ensures { result ≡ class_ahead self.entry.registers.now base }
    {
        match base {
            Base::Section(section) => Some(class_of(self.registers, section)),
            Base::Import(_) => None,
        }
    }

    /// Fills in the extension right after a fixup, for each pair of classes.
    #[inline(always)]
    pub fn fill_after(self, at: FixupState<'a>, near: &mut [u32])
        requires at { AtOf self at }
        requires len { length near.old ≡ (length self.registers.now + 1) * (length self.registers.now + 1) }
        ensures len { length near.new ≡ length near.old }
        ensures is { (l : Labels) → Agrees l self.entry at.entry.others.now → NearKept l (at.entry.first ∷ at.entry.others.now) near.new }
        ensures small { NearSmall (length self.entry.registers.now + 1) (at.entry.first ∷ at.entry.others.now) near.new }
    {
        let position = u64::from(at.first.offset) + WORD;
        self.labels.copy_row(at.others.len(), near);
        if !begin_at(at.others, position) {
            self.move_row(at.others, position, near);
        }
    }

    /// Replaces a row of labels at some fixups by the extensions at a position where none of them is.
    #[inline(always)]
    fn move_row(self, rest: &'a [Fixup], position: u64, values: &mut [u32])
        requires row { IsRow self (length rest.now) values.old }
        requires shaped { Shaped self (length rest.now) }
        requires away { begin_at position rest.now ≡ false }
        ensures len { length values.new ≡ length values.old }
        ensures are { (c d : ℕ) → c < length self.entry.registers.now + 1 → d < length self.entry.registers.now + 1 → ValueIs self.entry rest.entry.now position c d (number_in (length self.entry.registers.now + 1) values.new c d) }
    {
        match self.ahead(rest, position) {
            Some(ahead) => move_all(ahead, self.classes(), values),
            None => values.fill(0),
        }
    }

    /// Fills in the extension one word further on with the fixup's section in register D, by the class of C.
    #[inline(always)]
    pub fn fill_beyond(self, at: FixupState<'a>, section: u32, far: &mut [u32])
        requires at { AtOf self at }
        requires base { at.first.base ≡ Section section }
        requires len { length far.old ≡ length self.registers.now + 1 }
        ensures len { length far.new ≡ length far.old }
        ensures is { (l : Labels) → Agrees l self.entry at.entry.others.now → FarAt l at.entry.first.offset at.entry.others.now far.new (Section section) }
    {
        let position = u64::from(at.first.offset) + 2 * WORD;
        let class = class_of(self.registers, section);
        self.copy_labels(at.others.len(), class, far);
        if !begin_at(at.others, position) {
            self.move_column(at.others, position, class, far);
        }
    }

    /// Copies the labels with register D in a class, by the class of C.
    #[inline(always)]
    fn copy_labels(self, left: usize, class: usize, column: &mut [u32])
        requires shaped { Shaped self left }
        requires class { class < length self.registers.now + 1 }
        requires len { length column.old ≡ length self.registers.now + 1 }
        ensures len { length column.new ≡ length column.old }
        ensures are { (c : ℕ) → c < length self.entry.registers.now + 1 → slice_index column.new c ≡ label_in (length self.entry.registers.now + 1) self.entry.labels.now.rows left c class }
    {
        'classes: for c in 0..column.len() {
            column[c] = self.label(left, c, class);
        }
    }

    /// Replaces labels at some fixups by the extensions at a position where none of them is. Register D is in a class,
    /// and the numbers are by the class of C.
    #[inline(always)]
    fn move_column(self, rest: &'a [Fixup], position: u64, class: usize, values: &mut [u32])
        requires labels { (c : ℕ) → c < length self.registers.now + 1 → slice_index values.old c ≡ label_in (length self.registers.now + 1) self.labels.now.rows (length rest.now) c class }
        requires shaped { Shaped self (length rest.now) }
        requires away { begin_at position rest.now ≡ false }
        requires class { class < length self.registers.now + 1 }
        requires len { length values.old ≡ length self.registers.now + 1 }
        ensures len { length values.new ≡ length values.old }
        ensures are { (c : ℕ) → c < length self.entry.registers.now + 1 → (l : Labels) → Agrees l self.entry rest.entry.now → slice_index values.new c ≡ extension l rest.entry.now position c class }
    {
        match self.ahead(rest, position) {
            Some(ahead) => move_in_class(ahead, class, values),
            None => values.fill(0),
        }
    }

    /// Copies the numbers of a row with register D in a class, by the class of C.
    #[inline(always)]
    pub fn copy_column(self, row: &[u32], class: usize, column: &mut [u32])
        requires few { length self.registers.now ≤ most_sections }
        requires class { class < length self.registers.now + 1 }
        requires row { length row.now ≡ (length self.registers.now + 1) * (length self.registers.now + 1) }
        requires len { length column.old ≡ length self.registers.now + 1 }
        ensures len { length column.new ≡ length self.entry.registers.now + 1 }
        ensures is { (c : ℕ) → c < length self.entry.registers.now + 1 → slice_index column.new c ≡ slice_index row.now (place_of (length self.entry.registers.now + 1) c class) }
    {
        'classes: for c in 0..self.classes() {
            column[c] = row[self.place(c, class)];
        }
    }
}

/// Replaces the label of each pair of `classes` classes by the extension.
#[inline(always)]
fn move_all(ahead: NextFixup<'_>, classes: usize, values: &mut [u32])
    requires some { 0 < classes }
    requires few { classes ≤ most_sections + 1 }
    requires skips { length ahead.skips.now ≡ classes }
    requires small { (c d : ℕ) → c < classes → d < classes → number_in classes values.old c d + 2 < 2 ^ 32 }
    requires len { length values.old ≡ classes * classes }
    ensures len { length values.new ≡ length values.old }
    ensures are { (c d : ℕ) → c < classes → d < classes → number_in classes values.new c d ≡ value_ahead ahead.entry (number_in classes values.old c d) c d }
    ensures small { (c d : ℕ) → c < classes → d < classes → number_in classes values.new c d ≤ 2 + number_in classes values.old c d }
{
    let (mut c, mut d) = (0, 0);
    'places: for place in 0..values.len() {
        values[place] = ahead.value(values[place], c, d) as u32;
        d += 1;
        if d == classes {
            (c, d) = (c + 1, 0);
        }
    }
}

/// Replaces labels by the extensions. Register D is in a class, and the numbers are by the class of C.
#[inline(always)]
fn move_in_class(ahead: NextFixup<'_>, class: usize, values: &mut [u32])
    requires skips { length ahead.skips.now ≡ length values.old }
    requires small { (c : ℕ) → c < length values.old → slice_index values.old c + 2 < 2 ^ 32 }
    ensures len { length values.new ≡ length values.old }
    ensures are { (c : ℕ) → c < length values.old → slice_index values.new c ≡ value_ahead ahead.entry (slice_index values.old c) c class }
{
    'classes: for c in 0..values.len() {
        values[c] = ahead.value(values[c], c, class) as u32;
    }
}

/// Returns whether the first of some fixups is at a position.
#[inline(always)]
pub(crate) fn begin_at(fixups: &[Fixup], position: u64) -> bool
    ensures { result ≡ begin_at position fixups.now }
{
    match fixups.first() {
        Some(first) => u64::from(first.offset) == position,
        None => false,
    }
}
