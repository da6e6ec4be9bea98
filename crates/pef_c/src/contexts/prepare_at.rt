//! A preparation at addresses that the caller chose.
ghost use Rattle.std.specs.Prelude.{◌≡◌, ◌==◌, false};
ghost use Rattle.cfm_prepare.specs.Faults.{place_fault_number};
ghost use Rattle.pef_c.specs.Contexts.Context.{held, names_shown};
ghost use Rattle.pef_c.specs.Contexts.PrepareAt.{PrepareAtAnswers, PreparesAtIn, names_at, place_at};

use crate::contexts::context::prepare_number;
use crate::contexts::handle::{PefContext, put, take};
use crate::contexts::refusal_names::{names_of, place_of};
use cfm_prepare::{Context, PlaceFault};
use pef_records::{NOT_OPEN, PefNames, PefPlace, given, place_or_nowhere};
use std::alloc::Global;

/// Opens a connection to the fragment with this name as `pef_prepare_with_place` does, but places the sections that
/// `pef_new_sections` gives at these addresses, in its order.
///
/// Returns 0, or 202 if the context isn't open, or the number of the error, whose names and place are written. The
/// context is changed only if it returns 0.
#[unsafe(no_mangle)]
pub extern "C" fn pef_prepare_at(
    alloc: Global,
    context: &mut PefContext,
    name: &[u8],
    addresses: &[u32],
    connection: &mut u32,
    names: &mut PefNames,
    place: &mut PefPlace,
) -> u32
    ensures { PrepareAtAnswers name.now addresses.now (held context.old) (held context.new) connection.old connection.new (names_shown names.old) (names_shown names.new) place.old place.new result }
{
    let Some(mut boxed) = take(alloc, context) else {
        return NOT_OPEN;
    };
    let answer = prepare_at_in(
        &mut boxed,
        given(name),
        given(addresses),
        connection,
        names,
        place,
    );
    put(context, boxed);
    answer
}

/// Prepares a fragment at some addresses in a context that is open. Returns 0, or the number of the error.
fn prepare_at_in(
    context: &mut Context<'static>,
    name: &[u8],
    addresses: &[u32],
    connection: &mut u32,
    names: &mut PefNames,
    place: &mut PefPlace,
) -> u32
    ensures { PreparesAtIn name.now addresses.now context.old context.new connection.old connection.new (names_shown names.old) (names_shown names.new) place.old place.new result }
{
    match context.prepare_at(name, addresses) {
        Ok(given) => {
            *connection = given.0;
            0
        }
        Err(fault) => {
            *names = names_at(fault);
            *place = place_at(fault);
            place_number(fault)
        }
    }
}

/// Returns the names of a fragment that isn't prepared at some addresses, of its library and of a symbol.
fn names_at(fault: PlaceFault<'static>) -> PefNames
    ensures { names_shown result ≡ names_at fault.entry }
{
    match fault {
        PlaceFault::WrongAddressCount => PefNames {
            fragment: &[],
            library: &[],
            symbol: &[],
        },
        PlaceFault::Prepare(fault) => names_of(fault),
    }
}

/// Returns the place in the container of the fragment that isn't prepared at some addresses.
fn place_at(fault: PlaceFault<'static>) -> PefPlace
    ensures { result ≡ place_at fault.entry }
{
    match fault {
        PlaceFault::WrongAddressCount => place_or_nowhere(None),
        PlaceFault::Prepare(fault) => place_of(fault),
    }
}

/// Returns the number of the refusal of a fragment that isn't prepared at some addresses, which isn't 0.
fn place_number(fault: PlaceFault<'static>) -> u32
    ensures number { result ≡ place_fault_number fault.entry }
    ensures refused { (result == 0) ≡ false }
{
    match fault {
        PlaceFault::WrongAddressCount => fault.number(),
        PlaceFault::Prepare(fault) => prepare_number(fault),
    }
}
