ghost use Rattle.std.specs.Prelude.{◌≡◌, ◌+◌, ℕ, Contains, IfSome, Option, option_map};
ghost use Rattle.std.specs.Option.{IfNone};
ghost use Rattle.pef_loader.specs.Views.{loaded};
ghost use Rattle.cfm_prepare.specs.FragmentExports.{placed_seen};
ghost use Rattle.cfm_prepare.specs.Fragments.{places_of};
ghost use Rattle.cfm_prepare.specs.Locations.{IsIn, IsInNone, IsInto, IsNearestIn, IsNearestOf, export_offset};

use crate::context::Connection;
use crate::exports::{FragmentExport, placed_export};
use crate::fragments::Fragments;
use cfm_closure::Closure;
use cfm_memory::Place;
use pef_format::ExportValue;
use pef_loader::Loader;

/// Where an address is.
#[derive(Clone, Copy, Debug)]
pub struct Location<'a> {
    /// The first open connection whose closure has the fragment.
    pub connection: Connection,
    /// The fragment, by its place in the store.
    pub fragment: usize,
    /// The number of its section.
    pub section: usize,
    /// The offset in the section.
    pub offset: u32,
    /// The export in this section that has the greatest offset up to this one, the first of several.
    pub nearest: Option<FragmentExport<'a>>,
}

/// Returns the fragment and the number of the section that an address is in, and its offset there.
pub(crate) fn section_with(fragments: &Fragments, address: u32) -> Option<(usize, usize, u32)>
    ensures found { IfSome result (λ x. IsIn (places_of fragments.now.present x.0) address x.1 x.2) }
    ensures none { IfNone result ((p : ℕ) → IsInNone (places_of fragments.now.present p) address) }
{
    for position in 0..fragments.end() {
        if let Some((section, offset)) = place_with(fragments.places(position), address) {
            return Some((position, section, offset));
        }
    }
    None
}

/// Returns the number of the place that an address is in, and its offset there.
fn place_with(places: &[Place], address: u32) -> Option<(usize, u32)>
    ensures found { IfSome result (λ x. IsIn places.now address x.0 x.1) }
    ensures none { IfNone result (IsInNone places.now address) }
{
    for k in 0..places.len() {
        if let Some(offset) = offset_into(places[k], address) {
            return Some((k, offset));
        }
    }
    None
}

/// Returns how far an address is into a place, if it is in it.
fn offset_into(place: Place, address: u32) -> Option<u32>
    ensures found { IfSome result (λ offset. IsInto place address offset) }
    ensures none { IfNone result ((offset : ℕ) → IsInto place address offset → ⊥) }
{
    if address < place.address {
        return None;
    }
    let offset = address - place.address;
    if offset >= place.size {
        return None;
    }
    Some(offset)
}

/// Returns the nearest export of a fragment that a closure has, at an offset in a section or before it.
pub(crate) fn nearest_export<'a>(
    closure: &Closure<'a>,
    fragments: &Fragments,
    position: usize,
    section: usize,
    offset: u32,
) -> Option<FragmentExport<'a>>
    requires { Contains closure.now.order position }
    ensures { IsNearestIn closure.now.pairs fragments.now.present position section offset (option_map placed_seen result) }
{
    match nearest_number(&closure.loader(position), section, offset) {
        Some((number, _)) => placed_export(closure, fragments, position, number),
        None => None,
    }
}

/// Returns the number and the offset of the nearest export at an offset in a section or before it.
fn nearest_number(loader: &Loader<'_>, section: usize, offset: u32) -> Option<(usize, u32)>
    ensures { IsNearestOf (export_offset (loaded loader.now) section) (loaded loader.now).header.export_count offset result }
{
    let mut nearest = None;
    for i in 0..loader.exports() {
        let found = export_offset(loader, section, i);
        nearest = nearer_of(nearest, i, found, offset);
    }
    nearest
}

/// Returns an export's number and offset if it is nearer to an offset than the nearest one before it.
fn nearer_of(
    nearest: Option<(usize, u32)>,
    i: usize,
    found: Option<u32>,
    offset: u32,
) -> Option<(usize, u32)>
    ensures { (offsets : ℕ → Option ℕ) → offsets i ≡ found → IsNearestOf offsets i offset nearest → IsNearestOf offsets (i + 1) offset result }
{
    let Some(own) = found else {
        return nearest;
    };
    if own > offset {
        return nearest;
    }
    match nearest {
        Some((_, other)) if other >= own => nearest,
        _ => Some((i, own)),
    }
}

/// Returns the offset of export `i`, if it is in a section.
fn export_offset(loader: &Loader<'_>, section: usize, i: usize) -> Option<u32>
    ensures { result ≡ export_offset (loaded loader.now) section i }
{
    match loader.export(i)?.fields.value() {
        ExportValue::InSection {
            section: other,
            offset,
        } if other as usize == section => Some(offset),
        _ => None,
    }
}
