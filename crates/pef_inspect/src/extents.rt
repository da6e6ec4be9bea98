ghost use Rattle.std.specs.Prelude.{◌≡◌, ◌++◌, ◌∷◌, ◌-◌, ℕ, [], IfOk, OnOk, Option, Some, zero};
ghost use Rattle.std.specs.Option.{option_to_list};
ghost use Rattle.pef_views.specs.PartialViews.{partly};
ghost use Rattle.pef_inspect.specs.declared.finding.Finding.{Finding};
ghost use Rattle.pef_inspect.specs.Extents.{AddsExtents, AreParts, Extent, extent_in, extents_of, gap_note, greatest_end, head_extent, is_padding, last_name, later, name_end, name_offset, names_end, overlap_note, part_note, parts_notes, raw_end, section_extent, trailing_note};

use crate::finding::{Finding, whole_place};
use crate::note::Note;
use crate::notes::name_begins;
use crate::zeros::are_zero;
use pef_format::layout::CONTAINER_OFFSET_AT;
use pef_format::{Part, Place};
use pef_loader::partial_place;
use pef_views::{PartialContainer, SectionHeader};
use pef_words::Cut;
use std::alloc::{AllocError, Allocator};

/// Bytes between two parts that only align the second one are fewer than this, and all 0.
const ALIGNED: usize = 16;

/// A run of bytes that belongs to a part: where it begins, the number of its section and 1, or 0 for the headers and the names,
/// and where it ends. Runs are sorted by their beginnings.
pub(crate) type Extent = (usize, u32, usize);

/// Adds the notes on bytes that two parts have, on bytes between parts that belong to none, and on bytes after the last part.
pub(crate) fn add_extents<A: Allocator + Copy>(
    alloc: A,
    container: &PartialContainer<'_>,
    found: &mut Vec<Finding, A>,
) -> Result<(), AllocError>
    ensures { OnOk result (AddsExtents (partly container.now) found.old.items found.new.items) }
{
    let extents = sorted_extents(alloc, container)?;
    let end = compare(&ContainerParts { container }, &extents, found)?;
    push_some(trailing_note(container, end), found)?;
    Ok(())
}

/// Returns the parts that have bytes in a container, in the order of their beginnings.
fn sorted_extents<A: Allocator + Copy>(
    alloc: A,
    container: &PartialContainer<'_>,
) -> Result<Vec<Extent, A>, AllocError>
    ensures { IfOk result (λ v. AreParts (partly container.now) v.items) }
{
    let mut extents = extents_of(alloc, container)?;
    extents.sort()?;
    Ok(extents)
}

/// Parts that are looked at in the order of their beginnings.
pub(crate) trait NotedParts {
    /// The note on a part, if the parts before it end at an offset.
    ghost note: { Self → ℕ → Extent → Option Finding };

    /// Returns the note on a part, if the parts before it end at `end`.
    fn note(&self, end: usize, part: Extent) -> Option<Finding>
        ensures { result ≡ note self.now end part };
}

/// The parts of a container.
#[derive(Clone, Copy)]
struct ContainerParts<'c, 'a> {
    container: &'c PartialContainer<'a>,
}

impl<'c, 'a> NotedParts for ContainerParts<'c, 'a> {
    ghost use Rattle.pef_views.specs.PartialViews.{partly};
    ghost use Rattle.pef_inspect.specs.Extents.{part_note};

    ghost note = { λ parts end part. part_note (partly parts.container.now) end part };

    fn note(&self, end: usize, part: Extent) -> Option<Finding> {
        part_note(self.container, end, part)
    }
}

/// Adds the notes on parts, each beside those before it, and returns where the last of them ends.
pub(crate) fn compare<P: NotedParts, A: Allocator>(
    parts: &P,
    extents: &[Extent],
    found: &mut Vec<Finding, A>,
) -> Result<usize, AllocError>
    ensures end { IfOk result (λ end. end ≡ greatest_end extents.now) }
    ensures notes { OnOk result (found.new.items ≡ found.old.items ++ parts_notes (P.note parts.now) [] extents.now) }
{
    let mut end = 0;
    for extent in extents {
        push_some(parts.note(end, *extent), found)?;
        end = end.max(extent.2);
    }
    Ok(end)
}

/// Adds an item, if there is one.
pub(crate) fn push_some<T: Drop, A: Allocator>(
    item: Option<T>,
    items: &mut Vec<T, A>,
) -> Result<(), AllocError>
    ensures { OnOk result (items.new.items ≡ items.old.items ++ option_to_list item) }
{
    match item {
        Some(item) => {
            items.push(item)?;
            Ok(())
        }
        None => Ok(()),
    }
}

/// Returns the note on a part, if the parts before it end at `end`.
fn part_note(container: &PartialContainer<'_>, end: usize, extent: Extent) -> Option<Finding>
    ensures { result ≡ part_note (partly container.now) end extent }
{
    let (from, part, to) = extent;
    if end < from {
        gap_note(container.bytes(), whole_place(end), end, from)
    } else {
        overlap_note(container, part, end.min(to).saturating_sub(from))
    }
}

/// Returns the note on bytes that belong to no part and begin at a place, unless they only align the next part.
#[tactic(auto, unfolding(crate::specs::Extents::gap_note))]
pub(crate) fn gap_note(bytes: &[u8], place: Place, from: usize, to: usize) -> Option<Finding>
    ensures { result ≡ gap_note bytes.now place from to }
{
    let length = to.saturating_sub(from);
    match Cut::new(bytes).part(from, length) {
        Some(gap) if is_padding(gap.bytes()) => None,
        _ => Some(Finding::of_note(Note::UnownedBytes { length }, place)),
    }
}

/// Returns the note on bytes that section `part - 1` shares with the parts before it, if there are any.
#[tactic(auto, unfolding(crate::specs::Extents::overlap_note))]
fn overlap_note(container: &PartialContainer<'_>, part: u32, length: usize) -> Option<Finding>
    ensures { result ≡ overlap_note (partly container.now) part length }
{
    if part == 0 || length == 0 {
        return None;
    }
    let place = partial_place(container, Part::Section, part - 1, CONTAINER_OFFSET_AT);
    Some(Finding::of_note(Note::Overlap { length }, place))
}

/// Returns the note on the bytes after all parts, if there are any.
fn trailing_note(container: &PartialContainer<'_>, end: usize) -> Option<Finding>
    ensures { result ≡ trailing_note (partly container.now) end }
{
    let len = container.bytes().len();
    if end >= len {
        return None;
    }
    let length = len - end;
    Some(Finding::of_note(Note::TrailingBytes { length }, whole_place(end)))
}

/// Returns whether bytes between two parts only align the second one.
fn is_padding(bytes: &[u8]) -> bool
    ensures { result ≡ is_padding bytes.now }
{
    bytes.len() < ALIGNED && are_zero(bytes)
}

/// Returns the parts that have bytes in a container.
#[tactic(auto, unfolding(crate::specs::Extents::extents_of))]
fn extents_of<A: Allocator + Copy>(
    alloc: A,
    container: &PartialContainer<'_>,
) -> Result<Vec<Extent, A>, AllocError>
    ensures { IfOk result (λ v. v.items ≡ extents_of (partly container.now)) }
{
    let mut extents = Vec::new(alloc);
    extents.push(head_extent(container))?;
    for i in 0..container.header().section_count {
        push_some(section_extent(container, i), &mut extents)?;
    }
    Ok(extents)
}

/// Returns the part that the headers and the names are.
fn head_extent(container: &PartialContainer<'_>) -> Extent
    ensures { result ≡ head_extent (partly container.now) }
{
    (0, 0, names_end(container).min(container.bytes().len()))
}

/// Returns the raw bytes of section `i` as a part, if it has some.
fn section_extent(container: &PartialContainer<'_>, i: u16) -> Option<Extent>
    ensures { result ≡ section_extent (partly container.now) i }
{
    let section = container.section(usize::from(i))?;
    let from = section.container_offset as usize;
    let to = raw_end(container.bytes().len(), section);
    if from < to {
        Some((from, u32::from(i) + 1, to))
    } else {
        None
    }
}

/// Returns where the raw bytes of a section end in a container of a length, and 0 if it has none.
fn raw_end(len: usize, section: SectionHeader) -> usize
    ensures { result ≡ raw_end len section }
{
    if section.packed_size == 0 {
        return 0;
    }
    (section.container_offset as usize + section.packed_size as usize).min(len)
}

/// Returns where the section name table ends: after the name that begins last in the container, and after the section headers
/// if no section has a name.
fn names_end(container: &PartialContainer<'_>) -> usize
    ensures { result ≡ names_end (partly container.now) }
{
    let start = container.names_start();
    match last_name(container) {
        Some(offset) => name_end(container.bytes(), start + offset).unwrap_or(start),
        None => start,
    }
}

/// Returns where the zero-ended name at an offset ends.
pub(crate) fn name_end(bytes: &[u8], from: usize) -> Option<usize>
    ensures { result ≡ name_end bytes.now from }
{
    let name = Cut::new(bytes).name_at(from)?;
    Some(from + name.len() + 1)
}

/// Returns the greatest offset of a name of a section.
fn last_name(container: &PartialContainer<'_>) -> Option<usize>
    ensures { result ≡ last_name (partly container.now) 0 (partly container.now).header.section_count }
{
    let mut last = None;
    for i in 0..container.header().section_count {
        last = later(last, name_offset(container, i));
    }
    last
}

/// Returns the offset of the name of section `i` in the section name table, if the name begins in the container.
fn name_offset(container: &PartialContainer<'_>, i: u16) -> Option<usize>
    ensures { result ≡ name_offset (partly container.now) i }
{
    let section = container.section(usize::from(i))?;
    name_begins(container, section.name_offset)
}

/// Returns the greater of two offsets, if there are any.
fn later(last: Option<usize>, offset: Option<usize>) -> Option<usize>
    ensures { result ≡ later last offset }
{
    match last {
        Some(x) => match offset {
            Some(y) => Some(x.max(y)),
            None => Some(x),
        },
        None => offset,
    }
}
