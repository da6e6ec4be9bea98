//! The parts of a loader section, and its bytes that belong to none.
ghost use Rattle.std.specs.Prelude.{◌≡◌, ◌++◌, ℕ, IfOk, OnOk, unwrap_or};
ghost use Rattle.std.specs.Option.{option_to_list};
ghost use Rattle.pef_words.specs.Findings.{all_among};
ghost use Rattle.pef_views.specs.Extents.{greatest};
ghost use Rattle.pef_views.specs.PartialViews.{partly};
ghost use Rattle.pef_loader.specs.Header.{relocs_from};
ghost use Rattle.pef_loader.specs.Partial.{rows_in};
ghost use Rattle.pef_loader.specs.PartialViews.{partly_loaded};
ghost use Rattle.pef_inspect.specs.LoaderParts.{AddsGaps, AreLoaderParts, end_part, ended_by, export_end, exports_end, exports_part, import_begin, last_begin, library_begin, loader_parts, name_begin, part_between, program_part, strings_end, strings_part, tables_part};

use crate::extents::{Extent, NotedParts, compare, gap_note, name_end, push_some};
use crate::finding::Finding;
use pef_format::Part;
use pef_format::layout::{EXPORT_SIZE, KEY_SIZE, MAX_HASH_TABLE_POWER, SLOT_SIZE};
use pef_loader::{PartialLoader, partial_place};
use pef_views::PartialContainer;
use std::alloc::{AllocError, Allocator};

/// Adds the notes on bytes of the loader section that belong to none of its parts.
pub(crate) fn add_gaps<A: Allocator + Copy>(
    alloc: A,
    container: &PartialContainer<'_>,
    found: &mut Vec<Finding, A>,
) -> Result<(), AllocError>
    ensures { OnOk result (AddsGaps (partly container.now) found.old.items found.new.items) }
{
    match PartialLoader::read(container) {
        Ok(loader) => {
            let extents = sorted_parts(alloc, &loader)?;
            let parts = LoaderParts {
                container,
                loader: &loader,
            };
            compare(&parts, &extents, found)?;
            Ok(())
        }
        Err(_) => Ok(()),
    }
}

/// The parts of a loader section.
#[derive(Clone, Copy)]
struct LoaderParts<'c, 'a> {
    container: &'c PartialContainer<'a>,
    loader: &'c PartialLoader<'a>,
}

impl<'c, 'a> NotedParts for LoaderParts<'c, 'a> {
    ghost use Rattle.pef_views.specs.PartialViews.{partly};
    ghost use Rattle.pef_loader.specs.PartialViews.{partly_loaded};
    ghost use Rattle.pef_inspect.specs.LoaderParts.{loader_note};

    ghost note = { λ parts end part. loader_note (partly parts.container.now) (partly_loaded parts.loader.now) end part };

    fn note(&self, end: usize, part: Extent) -> Option<Finding> {
        if end >= part.0 {
            return None;
        }
        let place = partial_place(self.container, Part::LoaderHeader, 0, end);
        gap_note(self.loader.bytes(), place, end, part.0)
    }
}

/// Returns the parts of a loader section, in the order of their beginnings.
fn sorted_parts<A: Allocator + Copy>(
    alloc: A,
    loader: &PartialLoader<'_>,
) -> Result<Vec<Extent, A>, AllocError>
    ensures { IfOk result (λ v. AreLoaderParts (partly_loaded loader.now) v.items) }
{
    let mut extents = loader_parts(alloc, loader)?;
    extents.sort()?;
    Ok(extents)
}

/// Returns the parts of a loader section, and its end.
#[tactic(auto, unfolding(crate::specs::LoaderParts::loader_parts))]
fn loader_parts<A: Allocator + Copy>(
    alloc: A,
    loader: &PartialLoader<'_>,
) -> Result<Vec<Extent, A>, AllocError>
    ensures { IfOk result (λ v. v.items ≡ loader_parts (partly_loaded loader.now)) }
{
    let mut extents = Vec::new(alloc);
    extents.push(tables_part(loader))?;
    extents.push(end_part(loader))?;
    push_some(strings_part(loader), &mut extents)?;
    push_some(exports_part(loader), &mut extents)?;
    add_programs(loader, &mut extents)?;
    Ok(extents)
}

/// Adds the programs of a loader section.
fn add_programs<A: Allocator>(
    loader: &PartialLoader<'_>,
    extents: &mut Vec<Extent, A>,
) -> Result<(), AllocError>
    ensures { OnOk result (extents.new.items ≡ extents.old.items ++ all_among (λ k. option_to_list (program_part (partly_loaded loader.now) k)) 0 (rows_in (partly_loaded loader.now) (relocs_from (partly_loaded loader.now).header) 12 (partly_loaded loader.now).header.reloc_count)) }
{
    for k in 0..loader.relocations() {
        push_some(program_part(loader, k), extents)?;
    }
    Ok(())
}

/// Returns the header and the tables after it as a part.
fn tables_part(loader: &PartialLoader<'_>) -> Extent
    ensures { result ≡ tables_part (partly_loaded loader.now) }
{
    (0, 0, loader.tables_end().min(loader.bytes().len()))
}

/// Returns the end of a loader section as a part.
fn end_part(loader: &PartialLoader<'_>) -> Extent
    ensures { result ≡ end_part (partly_loaded loader.now) }
{
    let len = loader.bytes().len();
    (len, 0, len)
}

/// Returns the bytes from a place up to an end as a part, if there are any.
fn part_between(from: usize, to: usize) -> Option<Extent>
    ensures { result ≡ part_between from to }
{
    if from < to { Some((from, 0, to)) } else { None }
}

/// Returns all names as a part.
fn strings_part(loader: &PartialLoader<'_>) -> Option<Extent>
    ensures { result ≡ strings_part (partly_loaded loader.now) }
{
    part_between(loader.header().strings_offset as usize, strings_end(loader))
}

/// Returns the slots, the keys and the exports as a part.
fn exports_part(loader: &PartialLoader<'_>) -> Option<Extent>
    ensures { result ≡ exports_part (partly_loaded loader.now) }
{
    part_between(
        loader.header().export_hash_offset as usize,
        exports_end(loader),
    )
}

/// Returns where the slots, the keys and the exports end, or 0 if there were too many slots.
fn exports_end(loader: &PartialLoader<'_>) -> usize
    ensures { result ≡ exports_end (partly_loaded loader.now) }
{
    let header = loader.header();
    if header.export_power > MAX_HASH_TABLE_POWER {
        return 0;
    }
    let slots = SLOT_SIZE << header.export_power;
    let rows = (KEY_SIZE + EXPORT_SIZE) * header.export_count as usize;
    (header.export_hash_offset as usize + slots + rows).min(loader.bytes().len())
}

/// Returns the program of relocation header `k` as a part, as far as it is there.
fn program_part(loader: &PartialLoader<'_>, k: usize) -> Option<Extent>
    ensures { result ≡ program_part (partly_loaded loader.now) k }
{
    let relocation = loader.relocation(k)?;
    let from = loader.header().reloc_instr_offset as usize + relocation.first as usize;
    let to = from + 2 * relocation.count as usize;
    part_between(from, to.min(loader.bytes().len()))
}

/// Returns where all names end.
fn strings_end(loader: &PartialLoader<'_>) -> usize
    ensures { result ≡ strings_end (partly_loaded loader.now) }
{
    let exports = greatest(&ExportNames { loader }, loader.exports());
    ended_by(loader, last_begin(loader)).max(exports)
}

/// Returns where the zero-ended name that begins last begins, or 0 if there is none.
fn last_begin(loader: &PartialLoader<'_>) -> usize
    ensures { result ≡ last_begin (partly_loaded loader.now) }
{
    let libraries = greatest(&LibraryNames { loader }, loader.libraries());
    libraries.max(greatest(&ImportNames { loader }, loader.imports()))
}

/// Returns where the zero-ended names end, by where the last one begins.
fn ended_by(loader: &PartialLoader<'_>, last: usize) -> usize
    ensures { result ≡ ended_by (partly_loaded loader.now) last }
{
    if last == 0 {
        return 0;
    }
    name_end(loader.bytes(), last).unwrap_or(loader.bytes().len())
}

/// Numbers of the rows of a table.
trait Numbers {
    ghost number: { Self → ℕ → ℕ };

    /// Returns the number of row `i`.
    fn number(&self, i: usize) -> usize
        ensures { result ≡ number self.now i };
}

/// Returns the greatest number of the first `count` rows, or 0 if there are none.
fn greatest<N: Numbers>(rows: &N, count: usize) -> usize
    ensures { result ≡ greatest (N.number rows.now) 0 count }
{
    let mut most: usize = 0;
    for i in 0..count {
        most = most.max(rows.number(i));
    }
    most
}

/// Where the names of libraries begin.
#[derive(Clone, Copy)]
struct LibraryNames<'c, 'a> {
    loader: &'c PartialLoader<'a>,
}

impl<'c, 'a> Numbers for LibraryNames<'c, 'a> {
    ghost use Rattle.pef_loader.specs.PartialViews.{partly_loaded};
    ghost use Rattle.pef_inspect.specs.LoaderParts.{library_begin};

    ghost number = { λ rows i. library_begin (partly_loaded rows.loader.now) i };

    fn number(&self, i: usize) -> usize {
        name_begin(self.loader, self.loader.library_name_at(i))
    }
}

/// Where the names of imports begin.
#[derive(Clone, Copy)]
struct ImportNames<'c, 'a> {
    loader: &'c PartialLoader<'a>,
}

impl<'c, 'a> Numbers for ImportNames<'c, 'a> {
    ghost use Rattle.pef_loader.specs.PartialViews.{partly_loaded};
    ghost use Rattle.pef_inspect.specs.LoaderParts.{import_begin};

    ghost number = { λ rows j. import_begin (partly_loaded rows.loader.now) j };

    fn number(&self, i: usize) -> usize {
        name_begin(self.loader, self.loader.import_name_at(i))
    }
}

/// Where the names of exports end.
#[derive(Clone, Copy)]
struct ExportNames<'c, 'a> {
    loader: &'c PartialLoader<'a>,
}

impl<'c, 'a> Numbers for ExportNames<'c, 'a> {
    ghost use Rattle.pef_loader.specs.PartialViews.{partly_loaded};
    ghost use Rattle.pef_inspect.specs.LoaderParts.{export_end};

    ghost number = { λ rows i. export_end (partly_loaded rows.loader.now) i };

    fn number(&self, i: usize) -> usize {
        export_end(self.loader, i).unwrap_or(0)
    }
}

/// Returns where a name begins, or 0 if it doesn't begin in the loader section.
fn name_begin(loader: &PartialLoader<'_>, at: Option<usize>) -> usize
    ensures { result ≡ name_begin (partly_loaded loader.now) at }
{
    match at {
        Some(at) => { if at < loader.bytes().len() { at } else { 0 } }
        None => 0,
    }
}

/// Returns where the name of export `i` ends, if it has one.
fn export_end(loader: &PartialLoader<'_>, i: usize) -> Option<usize>
    ensures { unwrap_or result 0 ≡ export_end (partly_loaded loader.now) i }
{
    let at = loader.export_name_at(i)?;
    let export = loader.export(i)?;
    let name = export.name?;
    Some(at.min(loader.bytes().len()) + name.len())
}
