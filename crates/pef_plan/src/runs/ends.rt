ghost use Rattle.std.specs.Prelude.{◌≡◌, ◌+◌, ◌*◌, ◌^◌, ◌<◌, ◌≤◌, ◌∷◌, ◌⊎◌, [], ℕ, IfOk, List, OnOk, length, slice_index};
ghost use Rattle.pef_cert.specs.Extension.{extension};
ghost use Rattle.pef_cert.specs.Labels.{Labels};
ghost use Rattle.pef_plan.specs.Runs.Places.{AtOf, HereOf, Led};
ghost use Rattle.pef_plan.specs.Runs.Runs.{EndOf, Ends, RunBegins, RunOf, stride};
ghost use Rattle.pef_plan.specs.Runs.Ends.{Begins, ColumnAt, EndsAt, EndsOf, FarAt, GoesOnAfter, GoesOnMaybe, NearKept, NearSmall, PairAfter, WordEnds, far_pairs_run, pairs_run, place_in, sections_of, window_of};
ghost use Rattle.pef_plan.specs.Runs.Tables.{Agrees, number_in, place_of};
ghost use Rattle.pef_plan.specs.declared.runs.run.Run.TheVariants.{Pairs, SpacedPairs};
ghost use Rattle.pef_plan.specs.Windows.Windows.{BestOf, Bests, BestsOfTwo, WindowOf, rows_moved};
ghost use Rattle.pef_reloc.specs.declared.fixup.Base.TheVariants.{Section};
ghost use Rattle.pef_reloc.specs.Limits.{most_sections};

use crate::runs::run::{MAX_RUN, MAX_SKIP_RUN, Run};
use crate::runs::state::{FixupState, OpenState};
use crate::runs::suffix::{SolvedSuffix, begin_at};
use crate::windows::{Looks, Window, zeros};
use pef_cert::{WORD, class_of};
use pef_reloc::{Base, Fixup};
use std::alloc::{AllocError, Global};
use std::marker::Model;

/// The extensions after the ends of the runs that begin at a fixup, in one window for each kind of run. The
/// windows move along while the tables are filled from the last fixup to the first.
#[derive(Drop)]
pub struct RunEnds {
    /// Words of a section.
    words: WordWindows,
    /// Imports. Rows have a number for each pair of classes.
    imports: Window,
    /// Pairs of the two sections that the registers hold.
    pairs: AlternatingWindows,
    /// Such pairs that are a word apart.
    far_pairs: AlternatingWindows,
    /// The extension right after the fixup, for each pair of classes.
    near: Vec<u32>,
    /// The column of `near` in which register D holds the fixup's section.
    column: Vec<u32>,
    /// The extension one word further on with the fixup's section in register D, by the class of C.
    far: Vec<u32>,
}

/// The windows of runs that begin only at a section. Rows have a number for each class of one register.
#[derive(Drop)]
struct WordWindows {
    /// Words of a section that register C holds. Rows are by the class of D.
    in_c: Window,
    /// Words of a section that register D holds. Rows are by the class of C.
    in_d: Window,
    /// The same for words that a skip adds to.
    skips: Window,
    /// The same for words that are a word apart.
    spaced: Window,
}

/// Two windows of runs that continue at every second fixup. They take turns.
#[derive(Drop)]
struct AlternatingWindows {
    even: Window,
    odd: Window,
    /// Whether `odd` is the window of the fixup and `even` that of the next one, or the reverse.
    odd_is_here: bool,
}

impl Model for AlternatingWindows {
    ghost use Rattle.pef_plan.specs.Runs.Kept.Turns.{Turns, turns};

    ghost Value = { Turns };

    ghost view = { λ w. turns w.odd_is_here w.even w.odd };
}

/// The pair of a fixup and the next one: whether the runs of pairs that begin there go on after it, and the
/// extensions after it. The registers hold the two sections.
#[derive(Clone, Copy)]
struct FirstPair {
    /// Whether the run goes on, if one begins.
    on: Option<bool>,
    /// The extension right after the pair.
    after: u32,
    /// Whether the run of pairs that are a word apart goes on, if one begins.
    far_on: Option<bool>,
    /// The extension one word further on.
    far_after: u32,
}

impl RunEnds {
    /// Returns the windows after all fixups. No run begins there.
    ///
    /// # Errors
    ///
    /// `AllocError`, if an allocation failed.
    pub fn new(alloc: Global, classes: usize) -> Result<RunEnds, AllocError>
        requires some { 0 < classes }
        requires few { classes ≤ most_sections + 1 }
        ensures { IfOk result (λ ends. EndsOf (λ l. Unit {0}) classes [] ends) }
    {
        let pairs = classes * classes;
        let near = zeros(alloc, pairs)?;
        let column = zeros(alloc, classes)?;
        let far = zeros(alloc, classes)?;
        Ok(RunEnds {
            words: WordWindows::new(alloc, classes),
            imports: Window::new(alloc, pairs, MAX_RUN as usize),
            pairs: AlternatingWindows::new(alloc),
            far_pairs: AlternatingWindows::new(alloc),
            near,
            column,
            far,
        })
    }

    /// Fills in a cost plus the extension right after the fixup, for each pair of classes.
    #[inline(always)]
    pub fn fill_alone(&self, cost: u32, row: &mut [u32])
        requires row { length row.old ≡ length self.now.near.items }
        requires small { (i : ℕ) → i < length row.old → cost + slice_index self.now.near.items i < 2 ^ 32 }
        ensures len { length row.new ≡ length row.old }
        ensures are { (i : ℕ) → i < length row.old → slice_index row.new i ≡ cost + slice_index self.now.near.items i }
    {
        let near = self.near.as_slice();
        'places: for place in 0..row.len() {
            row[place] = cost + near[place];
        }
    }

    /// Fills in the least values of a skip that adds at the fixup, by the class of register C. Register D is in the
    /// class of the fixup's section.
    #[inline(always)]
    pub fn fill_skips(&self, known: SolvedSuffix<'_>, class: usize, skips: &mut [u32])
        requires few { length known.registers.now ≤ most_sections }
        requires class { class < length known.registers.now + 1 }
        requires near { length self.now.near.items ≡ (length known.registers.now + 1) * (length known.registers.now + 1) }
        requires small { (c : ℕ) → c < length known.registers.now + 1 → 1 + number_in (length known.registers.now + 1) self.now.near.items c class < 2 ^ 32 }
        requires width { self.now.words.skips.width ≡ length known.registers.now + 1 }
        requires len { length skips.old ≡ length known.registers.now + 1 }
        ensures len { length skips.new ≡ length skips.old }
        ensures best { (c : ℕ) → c < length known.entry.registers.now + 1 → (width limit : ℕ) (rows : List (List ℕ)) → WindowOf width limit rows self.now.words.skips → BestOf (1 + number_in (length known.entry.registers.now + 1) self.now.near.items c class) rows c (slice_index skips.new c) }
    {
        let near = self.near.as_slice();
        'classes: for c in 0..skips.len() {
            skips[c] = 1 + near[known.place(c, class)];
        }
        self.words.skips.lower(skips);
    }

    /// Lowers the numbers of a line, by the class of register D, to the values of runs of words of the section that register C
    /// holds.
    #[inline(always)]
    pub fn lower_in_c(&self, line: &mut [u32])
        requires width { self.now.words.in_c.width ≡ length line.old }
        ensures len { length line.new ≡ length line.old }
        ensures best { (d : ℕ) → d < length line.old → Bests self.now.words.in_c d (slice_index line.old d) (slice_index line.new d) }
    {
        self.words.in_c.lower(line);
    }

    /// Lowers the numbers of a column, by the class of register C, to the values of runs of words, and of words a word apart, of
    /// the section that register D holds.
    #[inline(always)]
    pub fn lower_in_d(&self, column: &mut [u32])
        requires in_d { self.now.words.in_d.width ≡ length column.old }
        requires spaced { self.now.words.spaced.width ≡ length column.old }
        ensures len { length column.new ≡ length column.old }
        ensures best { (c : ℕ) → c < length column.old → BestsOfTwo self.now.words.in_d self.now.words.spaced c (slice_index column.old c) (slice_index column.new c) }
    {
        self.words.in_d.lower(column);
        self.words.spaced.lower(column);
    }

    /// Moves the windows to the previous fixup, whose tables are not filled yet.
    ///
    /// # Errors
    ///
    /// `AllocError`, if an allocation failed. The windows then belong to no fixup.
    #[inline(always)]
    pub fn pass(&mut self, known: SolvedSuffix<'_>, at: FixupState<'_>) -> Result<(), AllocError>
        requires at { AtOf known at }
        requires ends { EndsAt known at.others.now at.others.now self.old }
        ensures { OnOk result (EndsAt known.entry at.entry.others.now (at.entry.first ∷ at.entry.others.now) self.new) }
    {
        let pair = self.pair_at(known, at);
        self.pairs.pass(pair.on, pair.after, known.looks)?;
        self.far_pairs
            .pass(pair.far_on, pair.far_after, known.looks)?;
        known.fill_after(at, &mut self.near);
        known.looks.add(self.near.len() as u64);
        match at.first.base {
            Base::Section(section) => {
                self.pass_section(known, at, section)?;
                Ok(())
            }
            Base::Import(import) => {
                let imports = goes_on(Run::Imports, at, u64::from(import) + 1);
                known.looks.add(self.near.len() as u64);
                self.imports.bring(imports, &self.near, known.looks)?;
                Ok(())
            }
        }
    }

    /// Moves the windows of runs that begin only at a fixup with a section.
    #[inline(always)]
    fn pass_section(
        &mut self,
        known: SolvedSuffix<'_>,
        at: FixupState<'_>,
        section: u32,
    ) -> Result<(), AllocError>
        requires at { AtOf known at }
        requires base { at.first.base ≡ Section section }
        requires near_len { length self.old.near.items ≡ (length known.registers.now + 1) * (length known.registers.now + 1) }
        requires column_len { length self.old.column.items ≡ length known.registers.now + 1 }
        requires far_len { length self.old.far.items ≡ length known.registers.now + 1 }
        requires near { (l : Labels) → Agrees l known at.others.now → NearKept l (at.first ∷ at.others.now) self.old.near.items }
        requires near_small { NearSmall (length known.registers.now + 1) (at.first ∷ at.others.now) self.old.near.items }
        requires ends { WordEnds (λ l. Agrees l known at.others.now) (length known.registers.now + 1) at.others.now self.old.words }
        ensures imports { self.new.imports ≡ self.old.imports }
        ensures pairs { self.new.pairs ≡ self.old.pairs }
        ensures far_pairs { self.new.far_pairs ≡ self.old.far_pairs }
        ensures same_near { self.new.near.items ≡ self.old.near.items }
        ensures column_len { length self.new.column.items ≡ length known.entry.registers.now + 1 }
        ensures far_len { length self.new.far.items ≡ length known.entry.registers.now + 1 }
        ensures far { (l : Labels) → Agrees l known.entry at.entry.others.now → FarAt l at.entry.first.offset at.entry.others.now self.new.far.items (Section section) }
        ensures ends { OnOk result (WordEnds (λ l. Agrees l known.entry at.entry.others.now) (length known.entry.registers.now + 1) (at.entry.first ∷ at.entry.others.now) self.new.words) }
    {
        let looks = known.looks;
        let classes = known.classes();
        // At the extensions further on, and at the rows of four windows.
        looks.add(5 * classes as u64);
        let class = class_of(known.registers, section);
        known.copy_column(&self.near, class, &mut self.column);
        let column = all_of(&self.column, classes);
        fill_far(known, at, section, column, &mut self.far);
        let words = goes_on(Run::WordsOfD(section), at, 0);
        self.words
            .in_c
            .bring(words, line_of(&self.near, classes, class), looks)?;
        self.words.in_d.bring(words, column, looks)?;
        self.words.skips.bring(words, column, looks)?;
        let spaced = goes_on(Run::Spaced(section), at, 0);
        self.words
            .spaced
            .bring(spaced, all_of(&self.far, classes), looks)?;
        Ok(())
    }

    /// Returns the pair of a fixup and the next one.
    #[inline(always)]
    fn pair_at(&self, known: SolvedSuffix<'_>, at: FixupState<'_>) -> FirstPair
        requires at { AtOf known at }
        requires ends { EndsAt known at.others.now at.others.now self.now }
        ensures after { (l : Labels) → Agrees l known.entry at.entry.others.now → PairAfter l 4 at.entry.others.now (sections_of at.entry.first.base at.entry.others.now) result.after }
        ensures far_after { (l : Labels) → Agrees l known.entry at.entry.others.now → PairAfter l 8 at.entry.others.now (sections_of at.entry.first.base at.entry.others.now) result.far_after }
        ensures on { GoesOnMaybe (pairs_run (sections_of at.entry.first.base at.entry.others.now)) (at.entry.first ∷ at.entry.others.now) at.entry.first.offset 0 result.on }
        ensures far_on { GoesOnMaybe (far_pairs_run (sections_of at.entry.first.base at.entry.others.now)) (at.entry.first ∷ at.entry.others.now) at.entry.first.offset 0 result.far_on }
    {
        match sections_at(at) {
            Some((first, second)) => {
                let c = class_of(known.registers, first);
                let d = class_of(known.registers, second);
                let (on, far_on) = pairs_go_on(first, second, at);
                FirstPair {
                    on,
                    after: self.near[known.place(c, d)],
                    far_on,
                    far_after: self.far[c],
                }
            }
            None => FirstPair {
                on: None,
                after: 0,
                far_on: None,
                far_after: 0,
            },
        }
    }

    /// Returns the lesser of a value and the least value of a run that begins at the fixup, in halfwords.
    #[inline(always)]
    pub fn low_of_run(
        &self,
        known: SolvedSuffix<'_>,
        here: OpenState<'_>,
        run: Run,
        first: u64,
    ) -> u64
        requires here { HereOf known here }
        requires at { here.place.position ≡ here.first.offset }
        requires run { RunOf known.registers.now run here.place here.place.position }
        requires begins { RunBegins run here.place.import_index here.first.base here.others.now }
        requires ends { EndsAt known here.others.now (here.first ∷ here.others.now) self.now }
        ensures led { Led known.entry here.entry first → Led known.entry here.entry result }
        ensures better { result ≤ first }
        ensures attained { (l : Labels) → Agrees l known.entry here.entry.others.now → (result ≡ first) ⊎ EndOf l run here.entry here.entry.place.position result }
        ensures ends { (l : Labels) (value : ℕ) → Agrees l known.entry here.entry.others.now → value ≤ result → Ends l run here.entry here.entry.place.position value }
    {
        let place = place_in(run, known, here.place.c, here.place.d);
        self.window(run).best(first, place)
    }

    /// Returns the window of a run.
    #[inline(always)]
    fn window(&self, run: Run) -> &Window
        ensures { result.now ≡ window_of self.now run }
    {
        match run {
            Run::WordsOfC(_) => &self.words.in_c,
            Run::WordsOfD(_) => &self.words.in_d,
            Run::Spaced(_) => &self.words.spaced,
            Run::Pairs { .. } => self.pairs.here(),
            Run::SpacedPairs { .. } => self.far_pairs.here(),
            Run::Imports => &self.imports,
            Run::Skip { .. } => &self.words.skips,
        }
    }
}

/// Returns the place of a pair of classes in the rows of a run's window.
#[inline(always)]
fn place_in(run: Run, known: SolvedSuffix<'_>, c: usize, d: usize) -> usize
    requires few { length known.registers.now ≤ most_sections }
    requires c { c < length known.registers.now + 1 }
    requires d { d < length known.registers.now + 1 }
    ensures { result ≡ place_in (length known.entry.registers.now + 1) run c d }
{
    match run {
        Run::WordsOfC(_) => d,
        Run::WordsOfD(_) | Run::Spaced(_) | Run::Skip { .. } => c,
        Run::Imports => known.place(c, d),
        Run::Pairs { .. } | Run::SpacedPairs { .. } => 0,
    }
}

impl WordWindows {
    fn new(alloc: Global, classes: usize) -> WordWindows
        ensures { WordEnds (λ l. Unit {0}) classes [] result }
    {
        WordWindows {
            in_c: Window::new(alloc, classes, MAX_RUN as usize),
            in_d: Window::new(alloc, classes, MAX_RUN as usize),
            skips: Window::new(alloc, classes, MAX_SKIP_RUN as usize),
            spaced: Window::new(alloc, classes, MAX_RUN as usize),
        }
    }
}

impl AlternatingWindows {
    fn new(alloc: Global) -> AlternatingWindows
        ensures here { WindowOf 1 512 [] result.here }
        ensures next { WindowOf 1 512 [] result.next }
    {
        AlternatingWindows {
            even: Window::new(alloc, 1, MAX_RUN as usize),
            odd: Window::new(alloc, 1, MAX_RUN as usize),
            odd_is_here: false,
        }
    }

    /// Moves the windows to the previous fixup. `goes_on` says whether the run that begins there continues after
    /// its first unit, if one begins. `number` is the extension after that unit.
    fn pass(
        &mut self,
        goes_on: Option<bool>,
        number: u32,
        looks: Looks<'_>,
    ) -> Result<(), AllocError>
        requires next { self.old.next.width ≡ 1 }
        ensures next { OnOk result (self.new.next ≡ self.old.here) }
        ensures here { OnOk result ((width limit : ℕ) (rows : List (List ℕ)) → WindowOf width limit rows self.old.next → WindowOf width limit (rows_moved goes_on limit rows (number ∷ [])) self.new.here) }
    {
        self.odd_is_here = !self.odd_is_here;
        if self.odd_is_here {
            bring_if_any(&mut self.odd, goes_on, number, looks)
        } else {
            bring_if_any(&mut self.even, goes_on, number, looks)
        }
    }

    /// Returns the window of the fixup.
    #[inline(always)]
    fn here(&self) -> &Window
        ensures { result.now ≡ self.now.here }
    {
        if self.odd_is_here {
            &self.odd
        } else {
            &self.even
        }
    }
}

/// Moves a window to a place. `goes_on` says whether the run that begins there continues after its first unit.
/// If none begins, all rows are removed.
fn bring_if_any(
    window: &mut Window,
    goes_on: Option<bool>,
    number: u32,
    looks: Looks<'_>,
) -> Result<(), AllocError>
    requires { window.old.width ≡ 1 }
    ensures { OnOk result ((width limit : ℕ) (rows : List (List ℕ)) → WindowOf width limit rows window.old → WindowOf width limit (rows_moved goes_on limit rows (number ∷ [])) window.new) }
{
    match goes_on {
        Some(goes_on) => {
            looks.add(1);
            window.bring(goes_on, &[number], looks)
        }
        None => {
            window.clear();
            Ok(())
        }
    }
}

/// Returns whether a run of single fixups that begins at a fixup continues after the first unit. `import` is the
/// next import after that.
#[inline(always)]
fn goes_on(run: Run, at: FixupState<'_>, import: u64) -> bool
    ensures { Begins run (at.entry.first.offset + stride run) import at.entry.others.now result }
{
    run.begins(at.others, u64::from(at.first.offset) + run.stride(), import)
}

/// Fills in the extension one word further on with the fixup's section in register D, by the class of C. The
/// column has the extension right after the fixup.
#[inline(always)]
fn fill_far(
    known: SolvedSuffix<'_>,
    at: FixupState<'_>,
    section: u32,
    column: &[u32],
    far: &mut [u32],
)
    requires at { AtOf known at }
    requires base { at.first.base ≡ Section section }
    requires column_len { length column.now ≡ length known.registers.now + 1 }
    requires far_len { length far.old ≡ length known.registers.now + 1 }
    requires column { (l : Labels) → Agrees l known at.others.now → ColumnAt l at.first at.others.now column.now section }
    requires small { (c : ℕ) → c < length column.now → 2 + slice_index column.now c < 2 ^ 32 }
    ensures len { length far.new ≡ length far.old }
    ensures is { (l : Labels) → Agrees l known.entry at.entry.others.now → FarAt l at.entry.first.offset at.entry.others.now far.new (Section section) }
{
    if begin_at(at.others, u64::from(at.first.offset) + WORD) {
        // The position is past the next fixup, so moving back to it costs two halfwords.
        fill_past(column, far);
    } else {
        known.fill_beyond(at, section, far);
    }
}

/// Fills in the extensions past the next fixup, from those at the fixup.
#[inline(always)]
fn fill_past(column: &[u32], past: &mut [u32])
    requires len { length column.now ≡ length past.old }
    requires small { (c : ℕ) → c < length column.now → 2 + slice_index column.now c < 2 ^ 32 }
    ensures len { length past.new ≡ length past.old }
    ensures are { (c : ℕ) → c < length past.old → slice_index past.new c ≡ 2 + slice_index column.now c }
{
    'classes: for c in 0..column.len() {
        past[c] = 2 + column[c];
    }
}

/// Returns the same numbers. The compiler knows then how many there are.
#[inline(always)]
fn all_of(numbers: &[u32], count: usize) -> &[u32]
    requires { length numbers.now ≡ count }
    ensures { result.now ≡ numbers.now }
{
    &numbers[..count]
}

/// Returns the numbers of a row with register C in a class, by the class of D.
#[inline(always)]
pub(crate) fn line_of(row: &[u32], classes: usize, class: usize) -> &[u32]
    requires class { class < classes }
    requires row { length row.now ≡ classes * classes }
    ensures len { length result.now ≡ classes }
    ensures is { (d : ℕ) → d < classes → slice_index result.now d ≡ slice_index row.now (place_of classes class d) }
{
    let (_, rest) = row.split_at(class * classes);
    let (line, _) = rest.split_at(classes);
    line
}

/// Returns whether the run of pairs of two sections that begins at a fixup continues after the first pair, and
/// the same for pairs a word apart. `None` if none begins.
fn pairs_go_on(first: u32, second: u32, at: FixupState<'_>) -> (Option<bool>, Option<bool>)
    ensures near { GoesOnAfter (Pairs first second) at.entry.others.now at.entry.first.offset second result.0 }
    ensures far { GoesOnAfter (SpacedPairs first second) at.entry.others.now at.entry.first.offset second result.1 }
{
    let position = u64::from(at.first.offset);
    match Run::WordsOfD(second).behind(at.others, position + WORD, 0) {
        Some(rest) => {
            let near = Run::Pairs { first, second };
            let far = Run::SpacedPairs { first, second };
            (
                Some(near.begins(rest, position + near.stride(), 0)),
                Some(far.begins(rest, position + far.stride(), 0)),
            )
        }
        None => (None, None),
    }
}

/// Returns the sections of a fixup and the next one, if both have one.
fn sections_at(at: FixupState<'_>) -> Option<(u32, u32)>
    ensures { result ≡ sections_of at.entry.first.base at.entry.others.now }
{
    match at.first.base {
        Base::Section(first) => second_section(first, at.others),
        Base::Import(_) => None,
    }
}

fn second_section(first: u32, others: &[Fixup]) -> Option<(u32, u32)>
    ensures { result ≡ sections_of (Section first) others.now }
{
    match others.split_first() {
        Some((next, _)) => match next.base {
            Base::Section(second) => Some((first, second)),
            Base::Import(_) => None,
        },
        None => None,
    }
}
