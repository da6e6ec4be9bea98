ghost use Rattle.std.specs.Prelude.{◌≡◌, ◌≢◌, ◌+◌, ◌*◌, ◌^◌, ◌<◌, ◌≤◌, ◌⊎◌, ◌∷◌, ℕ, length, min, slice_index};
ghost use Rattle.pef_cert.specs.Labels.{class_of};
ghost use Rattle.pef_cert.specs.LabelTests.{import_cost};
ghost use Rattle.pef_reloc.specs.declared.fixup.Base.TheVariants.{Import, Section};
ghost use Rattle.pef_plan.specs.Runs.Ends.{EndsAt};
ghost use Rattle.pef_plan.specs.Runs.Places.{AtOf};
ghost use Rattle.pef_plan.specs.Runs.Tables.{number_in, place_of};
ghost use Rattle.pef_plan.specs.Kept.Near.{StepsBeside, StepsFrom, StepsOf};
ghost use Rattle.pef_plan.specs.Kept.Rows.{Adds, AddsInBoth, AddsInC, ClosedOf, DirectRow, EachState, LeastOf, LineLed, LowersIn, PairsInLine, RowOf, SmallLine, TopsOf, state_of};
ghost use Rattle.pef_reloc.specs.Limits.{most_sections};

use crate::direct::SMALL_IMPORTS;
use crate::runs::{FixupState, OpenState, PlanState, Run, RunEnds, SolvedSuffix, line_of};
use crate::section_runs::{Classed, LowValue, best_of_pairs};
use pef_cert::class_of;
use pef_reloc::Base;

/// The maximum number of classes: one for each section, and one for all others.
const MAX_CLASSES: usize = 17;

/// Fills in the labels at a fixup from the tables of the fixups after it.
#[inline(always)]
pub(crate) fn fill_labels(
    known: SolvedSuffix<'_>,
    at: FixupState<'_>,
    ends: &RunEnds,
    row: &mut [u32],
)
    requires at { AtOf known at }
    requires ends { EndsAt known at.others.now (at.first ∷ at.others.now) ends.now }
    requires steps { StepsFrom known at.others.now }
    requires row { length row.old ≡ (length known.registers.now + 1) * (length known.registers.now + 1) }
    ensures len { length row.new ≡ length row.old }
    ensures labels { RowOf known.entry at.entry row.new }
{
    match at.first.base {
        Base::Section(section) => {
            let class = class_of(known.registers, section);
            fill_section(known, at, ends, Classed { section, class }, row);
        }
        Base::Import(import) => fill_import(known, at, ends, import, row),
    }
}

/// Fills in the labels at a fixup that has a section. A run can begin only if a register holds the section: in one
/// line and one column of the row. If no run is better than one addition, the values of one addition are already
/// the labels, because a change of registers changes the extension by at most 1.
#[inline(always)]
fn fill_section(
    known: SolvedSuffix<'_>,
    at: FixupState<'_>,
    ends: &RunEnds,
    of: Classed,
    row: &mut [u32],
)
    requires at { AtOf known at }
    requires base { at.first.base ≡ Section of.section }
    requires class { class_of known.registers.now of.section ≡ of.class }
    requires ends { EndsAt known at.others.now (at.first ∷ at.others.now) ends.now }
    requires steps { StepsFrom known at.others.now }
    requires row { length row.old ≡ (length known.registers.now + 1) * (length known.registers.now + 1) }
    ensures len { length row.new ≡ length row.old }
    ensures labels { RowOf known.entry at.entry row.new }
{
    ends.fill_alone(1, row);
    let in_c = lower_in_c(known, at, ends, of, row);
    let in_d = lower_in_d(known, at, ends, of, row);
    if in_c > 0 || in_d > 0 {
        close_cross(row, known.classes(), of.class);
    }
}

/// Lowers the numbers in the line with the section in register C to the values of runs. Returns by how much
/// in total.
#[inline(always)]
fn lower_in_c(
    known: SolvedSuffix<'_>,
    at: FixupState<'_>,
    ends: &RunEnds,
    of: Classed,
    row: &mut [u32],
) -> u64
    requires at { AtOf known at }
    requires base { at.first.base ≡ Section of.section }
    requires class { class_of known.registers.now of.section ≡ of.class }
    requires ends { EndsAt known at.others.now (at.first ∷ at.others.now) ends.now }
    requires row { length row.old ≡ (length known.registers.now + 1) * (length known.registers.now + 1) }
    requires each { EachState known at (λ h value. Adds known h 1 value) row.old }
    ensures len { length row.new ≡ length row.old }
    ensures each { EachState known.entry at.entry (λ h value. AddsInC known.entry h of.section value) row.new }
    ensures lowers { LowersIn (length known.entry.registers.now + 1) (λ c d. c ≡ of.class) row.old row.new result }
{
    let mut room = [0; MAX_CLASSES];
    let line = &mut room[..known.classes()];
    copy_line(row, known.classes(), of.class, line);
    ends.lower_in_c(line);
    lower_by_pairs(known, at, ends, of, line);
    put_line(known, of.class, line, row)
}

/// Copies the numbers of a row with register C in a class, by the class of D.
#[inline(always)]
fn copy_line(row: &[u32], classes: usize, class: usize, line: &mut [u32])
    requires class { class < classes }
    requires row { length row.now ≡ classes * classes }
    requires line { length line.old ≡ classes }
    ensures len { length line.new ≡ classes }
    ensures are { (d : ℕ) → d < classes → slice_index line.new d ≡ number_in classes row.now class d }
{
    let numbers = line_of(row, classes, class);
    'classes: for d in 0..line.len() {
        line[d] = numbers[d];
    }
}

/// Lowers the number of a line with the section in register C and the next fixup's section in register D to the values
/// of runs of pairs.
fn lower_by_pairs(
    known: SolvedSuffix<'_>,
    at: FixupState<'_>,
    ends: &RunEnds,
    of: Classed,
    line: &mut [u32],
)
    requires at { AtOf known at }
    requires base { at.first.base ≡ Section of.section }
    requires class { class_of known.registers.now of.section ≡ of.class }
    requires ends { EndsAt known at.others.now (at.first ∷ at.others.now) ends.now }
    requires line { length line.old ≡ length known.registers.now + 1 }
    requires led { LineLed known at of.class line.old }
    ensures len { length line.new ≡ length line.old }
    ensures lower { (d : ℕ) → d < length line.old → slice_index line.new d ≤ slice_index line.old d }
    ensures led { LineLed known.entry at.entry of.class line.new }
    ensures pairs { PairsInLine known.entry at.entry of.section of.class line.new }
{
    let Some((next, _)) = at.others.split_first() else {
        return;
    };
    let Base::Section(second) = next.base else {
        return;
    };
    let d = class_of(known.registers, second);
    let here = at_classes(at, of.class, d);
    let value = u64::from(line[d]);
    let best = best_of_pairs(known, here, (of.section, second), LowValue { value, ends });
    line[d] = best.value as u32;
}

/// Writes a line of numbers to the row with register C in a class. They are no greater than those that were there. Returns
/// by how much they are less in total.
#[inline(always)]
fn put_line(known: SolvedSuffix<'_>, class: usize, line: &[u32], row: &mut [u32]) -> u64
    requires few { length known.registers.now ≤ most_sections }
    requires class { class < length known.registers.now + 1 }
    requires line { length line.now ≡ length known.registers.now + 1 }
    requires row { length row.old ≡ (length known.registers.now + 1) * (length known.registers.now + 1) }
    requires small { (d : ℕ) → d < length known.registers.now + 1 → number_in (length known.registers.now + 1) row.old class d < 2 ^ 32 }
    requires less { (d : ℕ) → d < length known.registers.now + 1 → slice_index line.now d ≤ number_in (length known.registers.now + 1) row.old class d }
    ensures len { length row.new ≡ length row.old }
    ensures are { (d : ℕ) → d < length known.entry.registers.now + 1 → number_in (length known.entry.registers.now + 1) row.new class d ≡ slice_index line.now d }
    ensures lowers { LowersIn (length known.entry.registers.now + 1) (λ c d. c ≡ class) row.old row.new result }
{
    let mut saved = 0;
    'classes: for d in 0..line.len() {
        let place = known.place(class, d);
        saved += u64::from(row[place] - line[d]);
        row[place] = line[d];
    }
    saved
}

/// Lowers the numbers in the column with the section in register D to the values of runs. Returns by how much
/// in total.
#[inline(always)]
fn lower_in_d(
    known: SolvedSuffix<'_>,
    at: FixupState<'_>,
    ends: &RunEnds,
    of: Classed,
    row: &mut [u32],
) -> u64
    requires at { AtOf known at }
    requires base { at.first.base ≡ Section of.section }
    requires class { class_of known.registers.now of.section ≡ of.class }
    requires ends { EndsAt known at.others.now (at.first ∷ at.others.now) ends.now }
    requires row { length row.old ≡ (length known.registers.now + 1) * (length known.registers.now + 1) }
    requires each { EachState known at (λ h value. AddsInC known h of.section value) row.old }
    ensures len { length row.new ≡ length row.old }
    ensures each { EachState known.entry at.entry (λ h value. AddsInBoth known.entry h of.section value) row.new }
    ensures lowers { LowersIn (length known.entry.registers.now + 1) (λ c d. d ≡ of.class) row.old row.new result }
{
    let mut room = [0; MAX_CLASSES];
    let column = &mut room[..known.classes()];
    known.copy_column(row, of.class, column);
    ends.lower_in_d(column);
    put_column(known, of.class, column, row)
}

/// Writes a column of numbers to the row with register D in a class. They are no greater than those that were there. Returns
/// by how much they are less in total.
#[inline(always)]
fn put_column(known: SolvedSuffix<'_>, class: usize, column: &[u32], row: &mut [u32]) -> u64
    requires few { length known.registers.now ≤ most_sections }
    requires class { class < length known.registers.now + 1 }
    requires column { length column.now ≡ length known.registers.now + 1 }
    requires row { length row.old ≡ (length known.registers.now + 1) * (length known.registers.now + 1) }
    requires small { (c : ℕ) → c < length known.registers.now + 1 → number_in (length known.registers.now + 1) row.old c class < 2 ^ 32 }
    requires less { (c : ℕ) → c < length known.registers.now + 1 → slice_index column.now c ≤ number_in (length known.registers.now + 1) row.old c class }
    ensures len { length row.new ≡ length row.old }
    ensures are { (c : ℕ) → c < length known.entry.registers.now + 1 → number_in (length known.entry.registers.now + 1) row.new c class ≡ slice_index column.now c }
    ensures lowers { LowersIn (length known.entry.registers.now + 1) (λ c d. d ≡ class) row.old row.new result }
{
    let mut saved = 0;
    'classes: for c in 0..column.len() {
        let place = known.place(c, class);
        saved += u64::from(row[place] - column[c]);
        row[place] = column[c];
    }
    saved
}

/// Fills in the labels at a fixup that has an import. The direct values are already the labels: runs of imports
/// need no register, and a change of registers changes the extension after an instruction by at most 1.
fn fill_import(
    known: SolvedSuffix<'_>,
    at: FixupState<'_>,
    ends: &RunEnds,
    import: u32,
    row: &mut [u32],
)
    requires at { AtOf known at }
    requires base { at.first.base ≡ Import import }
    requires ends { EndsAt known at.others.now (at.first ∷ at.others.now) ends.now }
    requires steps { StepsFrom known at.others.now }
    requires row { length row.old ≡ (length known.registers.now + 1) * (length known.registers.now + 1) }
    ensures len { length row.new ≡ length row.old }
    ensures labels { RowOf known.entry at.entry row.new }
{
    ends.fill_alone(import_cost(import), row);
    if u64::from(import) == at.import_index {
        lower_by_imports(known, at, ends, import, row);
    }
}

/// Returns the number of halfwords of the instruction that adds an import once.
fn import_cost(import: u32) -> u32
    ensures is { result ≡ import_cost import }
    ensures small { result ≤ 2 }
{
    if import < SMALL_IMPORTS { 1 } else { 2 }
}

/// Lowers the numbers to the values of the runs of imports that begin at the fixup.
fn lower_by_imports(
    known: SolvedSuffix<'_>,
    at: FixupState<'_>,
    ends: &RunEnds,
    import: u32,
    row: &mut [u32],
)
    requires at { AtOf known at }
    requires base { at.first.base ≡ Import import }
    requires next { at.import_index ≡ import }
    requires ends { EndsAt known at.others.now (at.first ∷ at.others.now) ends.now }
    requires row { length row.old ≡ (length known.registers.now + 1) * (length known.registers.now + 1) }
    requires each { EachState known at (λ h value. Adds known h (import_cost import) value) row.old }
    requires alone { StepsOf (length known.registers.now + 1) row.old }
    requires steps { StepsFrom known at.others.now }
    ensures len { length row.new ≡ length row.old }
    ensures direct { DirectRow known.entry at.entry row.new }
    ensures steps { StepsOf (length known.entry.registers.now + 1) row.new }
{
    let classes = known.classes();
    let (mut c, mut d) = (0, 0);
    'places: for place in 0..row.len() {
        let here = at_classes(at, c, d);
        row[place] = ends.low_of_run(known, here, Run::Imports, u64::from(row[place])) as u32;
        d += 1;
        if d == classes {
            (c, d) = (c + 1, 0);
        }
    }
}

/// Returns the state at a fixup with the registers in these classes.
#[inline(always)]
pub(crate) fn at_classes<'a>(at: FixupState<'a>, c: usize, d: usize) -> OpenState<'a>
    ensures is { result ≡ state_of at.entry c d }
    ensures first { result.first ≡ at.entry.first }
    ensures others { result.others.now ≡ at.entry.others.now }
    ensures left { result.place.left.now ≡ at.entry.left.now }
    ensures position { result.place.position ≡ at.entry.first.offset }
    ensures import_index { result.place.import_index ≡ at.entry.import_index }
    ensures c { result.place.c ≡ c }
    ensures d { result.place.d ≡ d }
{
    OpenState {
        place: PlanState {
            left: at.left,
            position: u64::from(at.first.offset),
            import_index: at.import_index,
            c,
            d,
        },
        first: at.first,
        others: at.others,
    }
}

/// Replaces each direct value by the least over all classes, with 1 added for each register that changes. Runs
/// lowered the values only in the line and the column of a class.
#[inline(always)]
fn close_cross(row: &mut [u32], classes: usize, class: usize)
    requires few { classes ≤ most_sections + 1 }
    requires class { class < classes }
    requires row { length row.old ≡ classes * classes }
    requires small { SmallLine (length row.old) row.old }
    requires steps { StepsBeside classes class row.old }
    ensures len { length row.new ≡ length row.old }
    ensures closed { ClosedOf classes row.old row.new }
{
    let cross = Cross {
        class,
        line: least(row, class * classes, classes),
        column: least_in_column(row, class, classes),
    };
    let mut room = [0; MAX_CLASSES];
    let tops = &mut room[..classes];
    fill_tops(row, cross, tops);
    lower_lines(row, cross, tops);
}

/// The line and the column of a class, with the least of the direct values in each.
#[derive(Clone, Copy)]
struct Cross {
    class: usize,
    line: u32,
    column: u32,
}

/// Returns the least value in the column of a class.
#[inline(always)]
fn least_in_column(row: &[u32], class: usize, classes: usize) -> u32
    requires few { classes ≤ most_sections + 1 }
    requires class { class < classes }
    requires row { length row.now ≡ classes * classes }
    ensures { LeastOf classes (λ c. number_in classes row.now c class) result }
{
    let mut low = row[class];
    'classes: for c in 1..classes {
        low = low.min(row[c * classes + class]);
    }
    low
}

/// Fills in what bounds the labels of each column: the direct value in the line of the cross plus 1, and the
/// change of both registers.
#[inline(always)]
fn fill_tops(row: &[u32], cross: Cross, tops: &mut [u32])
    requires few { length tops.old ≤ most_sections + 1 }
    requires class { cross.class < length tops.old }
    requires row { length row.now ≡ length tops.old * length tops.old }
    requires small { SmallLine (length row.now) row.now }
    requires line { cross.line ≤ 1048576 }
    requires column { cross.column ≤ 1048576 }
    ensures len { length tops.new ≡ length tops.old }
    ensures tops { TopsOf (length tops.old) row.now cross tops.new }
{
    let start = cross.class * tops.len();
    let most = cross.line.min(cross.column) + 2;
    'classes: for d in 0..tops.len() {
        tops[d] = (row[start + d] + 1).min(most);
    }
    tops[cross.class] = (cross.column + 1).min(cross.line + 2);
}

/// Replaces each direct value by the least over all classes.
#[inline(always)]
fn lower_lines(row: &mut [u32], cross: Cross, tops: &[u32])
    requires few { length tops.now ≤ most_sections + 1 }
    requires class { cross.class < length tops.now }
    requires row { length row.old ≡ length tops.now * length tops.now }
    requires small { SmallLine (length row.old) row.old }
    requires line { LeastOf (length tops.now) (λ d. number_in (length tops.now) row.old cross.class d) cross.line }
    requires column { LeastOf (length tops.now) (λ c. number_in (length tops.now) row.old c cross.class) cross.column }
    requires steps { StepsBeside (length tops.now) cross.class row.old }
    requires tops { TopsOf (length tops.now) row.old cross tops.now }
    ensures len { length row.new ≡ length row.old }
    ensures closed { ClosedOf (length tops.now) row.old row.new }
{
    'lines: for c in 0..tops.len() {
        let start = c * tops.len();
        let top = top_of_line(row[start + cross.class], c, cross);
        lower_line(row, start, tops, top);
    }
}

/// Returns what bounds the labels of a line, from its value in the column of the cross.
#[inline(always)]
fn top_of_line(number: u32, c: usize, cross: Cross) -> u32
    requires number { number ≤ 1048576 }
    requires line { cross.line ≤ 1048576 }
    requires column { cross.column ≤ 1048576 }
    ensures class { c ≡ cross.class → result ≡ min (cross.line + 1) (cross.column + 2) }
    ensures other { c ≢ cross.class → result ≡ number + 1 }
{
    if c == cross.class {
        (cross.line + 1).min(cross.column + 2)
    } else {
        number + 1
    }
}

/// Lowers each number of a line to the one of its column and to `top`. The line begins at `start`.
#[inline(always)]
fn lower_line(row: &mut [u32], start: usize, tops: &[u32], top: u32)
    requires inside { start + length tops.now ≤ length row.old }
    ensures len { length row.new ≡ length row.old }
    ensures line { (d : ℕ) → d < length tops.now → slice_index row.new (start + d) ≡ min (min (slice_index row.old (start + d)) (slice_index tops.now d)) top }
    ensures others { (i : ℕ) → (i < start) ⊎ (start + length tops.now ≤ i) → slice_index row.new i ≡ slice_index row.old i }
{
    'classes: for d in 0..tops.len() {
        row[start + d] = row[start + d].min(tops[d]).min(top);
    }
}

/// Returns the least of `count` numbers, beginning at index `from`.
#[inline(always)]
fn least(numbers: &[u32], from: usize, count: usize) -> u32
    requires some { 0 < count }
    requires inside { from + count ≤ length numbers.now }
    ensures { LeastOf count (λ d. slice_index numbers.now (from + d)) result }
{
    let mut low = numbers[from];
    'numbers: for d in 1..count {
        low = low.min(numbers[from + d]);
    }
    low
}
