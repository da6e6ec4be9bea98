//! Where an address is. The call writes only into the caller's memory.
ghost use Rattle.std.specs.Prelude.{◌≡◌, option_map};
ghost use Rattle.std.specs.Option.{is_some, option_map_or};
ghost use Rattle.cfm_prepare.specs.FragmentExports.{placed_seen};
ghost use Rattle.cfm_prepare.specs.Locations.{location_seen};
ghost use Rattle.pef_c.specs.Contexts.Context.{held};
ghost use Rattle.pef_c.specs.Contexts.Exports.{AtAnswers, AtIn, export_row, export_shown, location_row, location_shown, no_export};

use crate::contexts::connections::target_given;
use crate::contexts::exports::export_given;
use crate::contexts::handle::{PefContext, put, take};
use cfm_prepare::{Context, FragmentExport, ImportTarget, Location};
use pef_records::{NOT_OPEN, NOT_THERE, PefFragmentExport, PefLocation};
use std::alloc::Global;

/// Reads in which section of which fragment an address is, and the nearest export there at it or before it.
///
/// Returns 0, or 201 if it is in no section of a fragment that is present, or 202 if the context isn't open.
#[unsafe(no_mangle)]
pub extern "C" fn pef_at(
    alloc: Global,
    context: &mut PefContext,
    address: u32,
    location: &mut PefLocation,
) -> u32
    ensures same { held context.new ≡ held context.old }
    ensures read { AtAnswers address (held context.old) (location_shown location.old) (location_shown location.new) result }
{
    let Some(boxed) = take(alloc, context) else {
        return NOT_OPEN;
    };
    let answer = at_in(&boxed, address, location);
    put(context, boxed);
    answer
}

/// Reads where an address is in a context that is open. Returns 0, or 201 if it is in no section of a fragment that is present.
fn at_in(context: &Context<'static>, address: u32, location: &mut PefLocation) -> u32
    ensures { AtIn address context.now (location_shown location.old) (location_shown location.new) result }
{
    match context.at(address) {
        Some(found) => {
            *location = location_given(found);
            0
        }
        None => NOT_THERE,
    }
}

/// Returns where an address is as C sees it.
fn location_given(found: Location<'static>) -> PefLocation
    ensures { location_shown result ≡ location_row (location_seen found.entry) }
{
    let (has_nearest, nearest) = nearest_given(found.nearest);
    PefLocation {
        fragment: found.fragment,
        section: found.section,
        connection: found.connection.0,
        offset: found.offset,
        has_nearest,
        nearest,
    }
}

/// Returns whether there is a nearest export, and the export as C sees it.
fn nearest_given(nearest: Option<FragmentExport<'static>>) -> (bool, PefFragmentExport)
    ensures there { result.0 ≡ is_some (option_map placed_seen nearest.entry) }
    ensures row { export_shown result.1 ≡ option_map_or export_row (option_map placed_seen nearest.entry) no_export }
{
    match nearest {
        Some(export) => (true, export_given(export)),
        None => (false, no_export()),
    }
}

/// Returns an empty export, for an address that has none before it.
fn no_export() -> PefFragmentExport
    ensures { export_shown result ≡ no_export }
{
    PefFragmentExport {
        name: &[],
        number: 0,
        target: target_given(ImportTarget {
            target: None,
            address: 0,
        }),
        import_number: 0,
        class: 0,
        is_reexport: false,
    }
}
