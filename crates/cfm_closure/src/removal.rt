//! What is kept of a store after a fragment is removed: all but what is about this fragment.
ghost use Rattle.std.specs.Prelude.{◌≡◌, ◌==◌, ◌<◌, ◌≤◌, ◌^◌, ℕ, false, length, if◌then◌else◌, slice_index_or, None, Some, IfOk, true};
ghost use Rattle.std.specs.Option.{option_copied};
ghost use Rattle.cfm_store.specs.Stores.{pair_of, place_of};
ghost use Rattle.cfm_closure.specs.Kept.Removal.{AreApart, IsApart, IsLeft, IsUnmarked, IsWithout, StayMarked, is_marked, left_at};
ghost use Rattle.cfm_closure.specs.Kept.Views.{AreRead};

use crate::fragment::FragmentView;
use crate::targets::SharedTargets;
use cfm_store::{PlaceTable, Store};
use std::alloc::{AllocError, Global};

/// How often all fragments are asked whether they need one that is marked. Nearly always the third time finds none.
const MOST_PASSES: usize = 16;

/// Returns the fragments that were read, without the one in a place.
pub(crate) fn views_without<'a>(
    alloc: Global,
    views: &PlaceTable<FragmentView<'a>>,
    place: usize,
) -> Result<PlaceTable<FragmentView<'a>>, AllocError>
    requires { length views.now < 2 ^ 16 }
    ensures { IfOk result (λ left. IsWithout (λ p. p == place) views.now left) }
{
    let mut left = PlaceTable::new(alloc, views.len())?;
    for p in 0..views.len() {
        match other_view(views, p, place) {
            Some(view) => left.put(p, *view)?,
            None => {}
        }
    }
    Ok(left)
}

/// Returns the fragment that was read in a place, unless it is the one that is left out.
fn other_view<'a, 'b>(
    views: &'b PlaceTable<FragmentView<'a>>,
    p: usize,
    place: usize,
) -> Option<&'b FragmentView<'a>>
    ensures { option_copied result ≡ left_at (λ p. p == place) views.now p }
{
    if p == place {
        return None;
    }
    views.get(p)
}

/// Returns the targets that the removal of the first fragment with its name leaves as they are: those of all fragments that don't need
/// it. If too many passes would be needed to find them, returns none.
pub(crate) fn rows_left<'a>(
    alloc: Global,
    store: &Store<'a>,
    views: &PlaceTable<FragmentView<'a>>,
    rows: &PlaceTable<SharedTargets>,
    place: usize,
) -> Result<PlaceTable<SharedTargets>, AllocError>
    requires place { place < length store.now }
    requires few { length rows.now ≤ length store.now }
    requires read { AreRead store.now views.now }
    ensures { IfOk result (λ left. IsLeft store.now place rows.now left) }
{
    let mut marks = marked(alloc, store.len(), place)?;
    let left = rows_unmarked(alloc, store, views, rows, &mut marks)?;
    Ok(left)
}

/// Marks the fragments that need one that is marked, and returns the targets of the others.
fn rows_unmarked<'a>(
    alloc: Global,
    store: &Store<'a>,
    views: &PlaceTable<FragmentView<'a>>,
    rows: &PlaceTable<SharedTargets>,
    marks: &mut [bool],
) -> Result<PlaceTable<SharedTargets>, AllocError>
    requires size { length marks.old ≡ length store.now }
    requires few { length rows.now < 2 ^ 16 }
    requires read { AreRead store.now views.now }
    ensures { (place : ℕ) → is_marked marks.old place ≡ true → IfOk result (λ left. IsLeft store.now place rows.now left) }
{
    if !mark_needing(store, views, rows, marks) {
        return Ok(PlaceTable::empty(alloc));
    }
    let left = rows_without(alloc, rows, marks)?;
    Ok(left)
}

/// Returns marks of so many fragments, of which the one in a place is marked.
fn marked(alloc: Global, len: usize, place: usize) -> Result<Vec<bool>, AllocError>
    requires { place < len }
    ensures len { IfOk result (λ marks. length marks.items ≡ len) }
    ensures here { IfOk result (λ marks. is_marked marks.items place ≡ true) }
{
    let mut marks = vec![in alloc; false; len]?;
    marks[place] = true;
    Ok(marks)
}

/// Returns the targets of the fragments that aren't marked.
fn rows_without(
    alloc: Global,
    rows: &PlaceTable<SharedTargets>,
    marks: &[bool],
) -> Result<PlaceTable<SharedTargets>, AllocError>
    requires { length rows.now < 2 ^ 16 }
    ensures { IfOk result (λ left. IsWithout (is_marked marks.now) rows.now left) }
{
    let mut left = PlaceTable::new(alloc, rows.len())?;
    for p in 0..rows.len() {
        match unmarked_row(rows, p, marks) {
            Some(row) => left.put(p, row.another()?)?,
            None => {}
        }
    }
    Ok(left)
}

/// Returns the targets of the fragment in a place, unless it is marked.
fn unmarked_row<'b>(
    rows: &'b PlaceTable<SharedTargets>,
    p: usize,
    marks: &[bool],
) -> Option<&'b SharedTargets>
    ensures { option_copied result ≡ left_at (is_marked marks.now) rows.now p }
{
    match marks.get(p) {
        Some(false) => rows.get(p),
        _ => None,
    }
}

/// Marks the fragments with kept targets that need one that is marked, and those that need these. Returns whether all were found:
/// only so many passes are made.
fn mark_needing<'a>(
    store: &Store<'a>,
    views: &PlaceTable<FragmentView<'a>>,
    rows: &PlaceTable<SharedTargets>,
    marks: &mut [bool],
) -> bool
    requires size { length marks.old ≡ length store.now }
    requires read { AreRead store.now views.now }
    ensures apart { result ≡ true → AreApart store.now rows.now marks.new }
    ensures stay { StayMarked marks.old marks.new }
{
    'passes: for _ in 0..MOST_PASSES {
        if !mark_more(store, views, rows, marks) {
            return true;
        }
    }
    false
}

/// Marks fragments with kept targets that need one that is marked. Returns whether there were any.
fn mark_more<'a>(
    store: &Store<'a>,
    views: &PlaceTable<FragmentView<'a>>,
    rows: &PlaceTable<SharedTargets>,
    marks: &mut [bool],
) -> bool
    requires size { length marks.old ≡ length store.now }
    requires read { AreRead store.now views.now }
    ensures apart { result ≡ false → AreApart store.now rows.now marks.new }
    ensures stay { StayMarked marks.old marks.new }
{
    let mut more = false;
    for p in 0..marks.len() {
        if needs_marked(store, views, rows, marks, p) {
            marks[p] = true;
            more = true;
        }
    }
    more
}

/// Returns whether the fragment in a place isn't marked, has kept targets, and needs a marked one. If what was read of it isn't
/// kept, the answer is yes.
fn needs_marked<'a>(
    store: &Store<'a>,
    views: &PlaceTable<FragmentView<'a>>,
    rows: &PlaceTable<SharedTargets>,
    marks: &[bool],
    p: usize,
) -> bool
    requires size { length marks.now ≡ length store.now }
    requires read { AreRead store.now views.now }
    ensures { result ≡ false → IsApart store.now rows.now marks.now p }
{
    if unmarked_row(rows, p, marks).is_none() {
        return false;
    }
    match views.get(p) {
        Some(view) => view.names_marked(store, marks),
        None => true,
    }
}

/// Returns whether the fragment in a place is the first with its name.
pub(crate) fn is_first(store: &Store<'_>, place: usize) -> bool
    requires { place < length store.now }
    ensures { result ≡ true → place_of store.now (pair_of store.now place).name ≡ Some place }
{
    let (name, _) = store.at(place);
    match store.find(name) {
        Some(first) => first == place,
        None => false,
    }
}

/// Returns whether the first fragment with a name is marked.
pub(crate) fn is_marked(store: &Store<'_>, marks: &[bool], name: &[u8]) -> bool
    requires { length marks.now ≡ length store.now }
    ensures { result ≡ false → IsUnmarked store.now marks.now name.now }
{
    match store.find(name) {
        Some(q) => marks[q],
        None => false,
    }
}
