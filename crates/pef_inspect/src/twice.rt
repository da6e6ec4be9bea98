ghost use Rattle.std.specs.Prelude.{◌≡◌, ◌++◌, ◌≤◌, ℕ, List, IfOk, IfSome, OnOk, Some, [], length, true};
ghost use Rattle.std.specs.Option.{option_to_list};
ghost use Rattle.pef_words.specs.Findings.{all_among};
ghost use Rattle.pef_views.specs.PartialViews.{partly};
ghost use Rattle.pef_loader.specs.PartialViews.{partly_loaded};
ghost use Rattle.pef_reloc.specs.Left.{fixups_left};
ghost use Rattle.pef_inspect.specs.Limits.{left_within, less, within};
ghost use Rattle.pef_inspect.specs.Kept.Rising.{AreBefore, Follow, rising_end};
ghost use Rattle.pef_inspect.specs.Kept.Seen.{IsSeen};
ghost use Rattle.pef_inspect.specs.Twice.{again_note, first_again, twice_in, twice_note, twice_notes, words_at, words_cost, words_in};

use crate::checked::{Costed, Reach, within};
use crate::extents::push_some;
use crate::finding::Finding;
use crate::limits::Limits;
use crate::note::Note;
use crate::programs::programs_unverified;
use crate::runs::{Run, runs_within};
use pef_format::Part;
use pef_loader::{PartialLoader, partial_place};
use pef_reloc::Fixups;
use pef_views::PartialContainer;
use std::alloc::{AllocError, Allocator};
use std::collections::BTreeSet;

/// Adds the note on the first word of each program to which it or an earlier one has already added.
#[tactic(auto, unfolding(crate::specs::Twice::twice_in))]
pub(crate) fn add_twice<A: Allocator + Copy>(
    alloc: A,
    container: &PartialContainer<'_>,
    limits: Limits,
    found: &mut Vec<Finding, A>,
) -> Result<(), AllocError>
    ensures { OnOk result (found.new.items ≡ found.old.items ++ twice_in limits (partly container.now)) }
{
    match PartialLoader::read(container) {
        Ok(loader) => add_in_loader(alloc, container, &loader, limits, found),
        Err(_) => Ok(()),
    }
}

/// Adds these notes for a loader section, and the note on programs that have too many words.
fn add_in_loader<A: Allocator + Copy>(
    alloc: A,
    container: &PartialContainer<'_>,
    loader: &PartialLoader<'_>,
    limits: Limits,
    found: &mut Vec<Finding, A>,
) -> Result<(), AllocError>
    ensures { OnOk result (found.new.items ≡ found.old.items ++ twice_notes limits (partly container.now) (partly_loaded loader.now)) }
{
    let runs = runs_within(limits, container, loader).count;
    let searched = words_within(limits, container, loader, runs).count;
    add_each(alloc, Words { container, loader }, searched, found)?;
    if searched < runs {
        found.push(programs_unverified(container, searched))?;
        return Ok(());
    }
    Ok(())
}

/// Returns how many of the first `runs` programs are searched for words that are relocated twice, and what is left of the limit.
pub(crate) fn words_within(
    limits: Limits,
    container: &PartialContainer<'_>,
    loader: &PartialLoader<'_>,
    runs: u32,
) -> Reach
    ensures value { result.count ≡ within (words_cost (partly container.now) (partly_loaded loader.now)) limits.words 0 runs }
    ensures left { result.left ≡ left_within (words_cost (partly container.now) (partly_loaded loader.now)) limits.words 0 runs }
    ensures below { result.count ≤ runs }
{
    within(&Words { container, loader }, limits.words, runs)
}

/// Adds the note on the first word to which one has already added, for each of the first `count` programs.
fn add_each<A: Allocator + Copy>(
    alloc: A,
    words: Words<'_, '_>,
    count: u32,
    found: &mut Vec<Finding, A>,
) -> Result<(), AllocError>
    ensures { OnOk result (found.new.items ≡ found.old.items ++ all_among (λ k. option_to_list (twice_note (partly words.entry.container.now) (partly_loaded words.entry.loader.now) k)) 0 count) }
{
    if all_rise(words, count) {
        return Ok(());
    }
    let mut seen = BTreeSet::new(alloc);
    for k in 0..count {
        push_some(words.twice(k, &mut seen)?, found)?;
    }
    Ok(())
}

/// Returns whether the words of the first `count` programs come in the order of their sections and offsets, so that none is
/// relocated twice. The programs of most containers do, and no set of their words is needed.
fn all_rise(words: Words<'_, '_>, count: u32) -> bool
    ensures { result ≡ true → all_among (λ k. option_to_list (twice_note (partly words.entry.container.now) (partly_loaded words.entry.loader.now) k)) 0 count ≡ [] }
{
    let mut place = (0, 0);
    for k in 0..count {
        match words.end_after(k, place) {
            Some(end) => place = end,
            None => return false,
        }
    }
    true
}

/// A word of a section: the section, and the offset in it.
type Word = (u16, u64);

/// The words that the programs of a loader section relocate.
#[derive(Clone, Copy)]
struct Words<'c, 'a> {
    container: &'c PartialContainer<'a>,
    loader: &'c PartialLoader<'a>,
}

impl<'c, 'a> Costed for Words<'c, 'a> {
    ghost use Rattle.pef_views.specs.PartialViews.{partly};
    ghost use Rattle.pef_loader.specs.PartialViews.{partly_loaded};
    ghost use Rattle.pef_inspect.specs.Twice.{words_cost};

    ghost cost = { λ words k. words_cost (partly words.container.now) (partly_loaded words.loader.now) k };

    fn rest(&self, i: u32, limit: u64) -> Option<u64> {
        match Run::at(self.container, self.loader, i) {
            Some(run) => run.program.left_after_additions(limit),
            None => Some(limit),
        }
    }
}

impl<'c, 'a> Words<'c, 'a> {
    /// Returns the place after the words of the program of relocation header `k`, if they come in order and none is before `place`.
    fn end_after(self, k: u32, place: Word) -> Option<Word>
        ensures { (before : List (ℕ × ℕ)) → AreBefore before place → IfSome result (Follow before (words_at (partly self.entry.container.now) (partly_loaded self.entry.loader.now) k)) }
    {
        let Some(run) = Run::at(self.container, self.loader, k) else {
            return Some(place);
        };
        let first = offset_after(place, run.section)?;
        let end = rising_end(first, run.program.fixups())?;
        Some((run.section, end))
    }

    /// Adds the words of the program of relocation header `k` to those seen, and returns the note on the first that was among them.
    fn twice<A: Allocator + Copy>(
        self,
        k: u32,
        seen: &mut BTreeSet<Word, A>,
    ) -> Result<Option<Finding>, AllocError>
        ensures note { (before : List (ℕ × ℕ)) → IsSeen seen.old before → IfOk result (λ note. note ≡ again_note (partly self.entry.container.now) k (first_again before (words_at (partly self.entry.container.now) (partly_loaded self.entry.loader.now) k))) }
        ensures seen { (before : List (ℕ × ℕ)) → IsSeen seen.old before → OnOk result (IsSeen seen.new (before ++ words_at (partly self.entry.container.now) (partly_loaded self.entry.loader.now) k)) }
    {
        let Some(run) = Run::at(self.container, self.loader, k) else {
            return Ok(None);
        };
        match add_words(seen, run.section, run.program.fixups())? {
            Some((_, word)) => {
                let place = partial_place(self.container, Part::Program, k, 0);
                Ok(Some(Finding::of_note(Note::WordRelocatedTwice { word }, place)))
            }
            None => Ok(None),
        }
    }
}

/// Returns the first offset in a section that isn't before a place, unless the place is in a later section.
fn offset_after(place: Word, section: u16) -> Option<u64>
    ensures { (before : List (ℕ × ℕ)) → AreBefore before place → IfSome result (λ first. AreBefore before (section, first)) }
{
    if section == place.0 {
        return Some(place.1);
    }
    if section > place.0 { Some(0) } else { None }
}

/// Returns the offset after the last word to which a program adds, if the words rise and none is before `first`.
fn rising_end(first: u64, fixups: Fixups<'_>) -> Option<u64>
    ensures { IfSome result (λ end. rising_end first (fixups_left fixups.entry) ≡ Some end) }
{
    let mut rest = fixups;
    let mut end = first;
    while let Some(addition) = rest.next() {
        if addition.offset < end {
            return None;
        }
        end = addition.offset.checked_add(1)?;
    }
    Some(end)
}

/// Adds the words of a section to which a program adds to those seen, and returns the first that was among them.
fn add_words<A: Allocator + Copy>(
    seen: &mut BTreeSet<Word, A>,
    section: u16,
    fixups: Fixups<'_>,
) -> Result<Option<Word>, AllocError>
    ensures again { (before : List (ℕ × ℕ)) → IsSeen seen.old before → IfOk result (λ word. word ≡ first_again before (words_in section (fixups_left fixups.entry))) }
    ensures seen { (before : List (ℕ × ℕ)) → IsSeen seen.old before → OnOk result (IsSeen seen.new (before ++ words_in section (fixups_left fixups.entry))) }
{
    let mut left = fixups;
    let mut again = None;
    while let Some(addition) = left.next() {
        let word = (section, addition.offset);
        let is_new = seen.insert(word)?;
        if !is_new && again.is_none() {
            again = Some(word);
        }
    }
    Ok(again)
}
