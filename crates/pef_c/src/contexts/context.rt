//! Contexts: fragments that are prepared in one memory. C holds a context by a handle. Each call takes the context
//! out of the handle and puts it back.
ghost use Rattle.std.specs.Prelude.{◌≡◌, ◌==◌, None, false};
ghost use Rattle.cfm_memory.specs.Faults as memory;
ghost use Rattle.cfm_prepare.specs.Faults.{add_fault_number, close_fault_number, fault_number, remove_fault_number};
ghost use Rattle.pef_c.specs.Contexts.Context.{AddAnswers, AddsIn, CloseAnswers, ClosesIn, NewAddAnswers, NewAddsIn, OpenAnswers, PlacedPrepareAnswers, PrepareAnswers, PreparesIn, RemoveAnswers, RemovesIn, ReserveAnswers, ReservesIn, UnreserveAnswers, UnreservesIn, held, names_shown};

use crate::contexts::handle::{PefContext, put, take};
use crate::contexts::refusal_names::{names_of, place_of};
use cfm_closure::Store;
use cfm_memory::MemoryFault;
use cfm_prepare::{AddFault, CloseFault, Connection, Context, PrepareFault, RemoveFault};
use pef_records::{
    NAME_TAKEN, NOT_OPEN, NOT_THERE, OUT_OF_MEMORY, PefNames, PefPlace, given, place_or_nowhere,
};
use std::alloc::Global;

/// Opens a context without fragments. No section may pass the address `limit`. A context that was open is freed.
///
/// Returns 0; or 99, and then the context isn't open.
#[unsafe(no_mangle)]
pub extern "C" fn pef_open(alloc: Global, context: &mut PefContext, limit: u32) -> u32
    ensures { OpenAnswers limit (held context.new) result }
{
    let _closed = take(alloc, context);
    match Box::new(alloc, Context::new(alloc, Store::new(alloc), limit)) {
        Ok(boxed) => {
            put(context, boxed);
            0
        }
        Err(_) => OUT_OF_MEMORY,
    }
}

/// Frees a context and all its memory. Does nothing if it isn't open.
#[unsafe(no_mangle)]
pub extern "C" fn pef_free(alloc: Global, context: &mut PefContext)
    ensures { held context.new ≡ None }
{
    let _closed = take(alloc, context);
}

/// Adds a fragment, unless an open connection was prepared without a weak library of this name.
///
/// Returns 0, or 202 if the context isn't open, or 203, 204 or 99. The context is changed only if
/// it returns 0.
#[unsafe(no_mangle)]
pub extern "C" fn pef_add(
    alloc: Global,
    context: &mut PefContext,
    name: &'static [u8],
    bytes: &'static [u8],
) -> u32
    ensures { AddAnswers name.entry.now bytes.entry.now (held context.old) (held context.new) result }
{
    let Some(mut boxed) = take(alloc, context) else {
        return NOT_OPEN;
    };
    let answer = add_in(&mut boxed, given(name), given(bytes));
    put(context, boxed);
    answer
}

/// Adds a fragment to a context that is open. Returns 0, or the number of the error.
fn add_in(context: &mut Context<'static>, name: &'static [u8], bytes: &'static [u8]) -> u32
    ensures { AddsIn name.entry.now bytes.entry.now context.old context.new result }
{
    match context.add(name, bytes) {
        Ok(()) => 0,
        Err(fault) => add_number(fault),
    }
}

/// Adds a fragment as `pef_add` does, if none has its name.
///
/// Returns 0, or 202 if the context isn't open, or 209 if a fragment has the name, or 203, 204 or 99. The context is changed
/// only if it returns 0.
#[unsafe(no_mangle)]
pub extern "C" fn pef_add_new(
    alloc: Global,
    context: &mut PefContext,
    name: &'static [u8],
    bytes: &'static [u8],
) -> u32
    ensures { NewAddAnswers name.entry.now bytes.entry.now (held context.old) (held context.new) result }
{
    let Some(mut boxed) = take(alloc, context) else {
        return NOT_OPEN;
    };
    let answer = add_new_in(&mut boxed, given(name), given(bytes));
    put(context, boxed);
    answer
}

/// Adds a fragment to a context that is open, if none has its name. Returns 0, or the number of the error.
fn add_new_in(context: &mut Context<'static>, name: &'static [u8], bytes: &'static [u8]) -> u32
    ensures { NewAddsIn name.entry.now bytes.entry.now context.old context.new result }
{
    match context.find(name) {
        Some(_) => NAME_TAKEN,
        None => add_in(context, name, bytes),
    }
}

/// Removes the first fragment with this name, unless it is present, or a fragment of an open connection names it as a library.
///
/// Returns 0, or 202 if the context isn't open, or 60, 207, 208 or 99. The context is changed only if it returns 0.
#[unsafe(no_mangle)]
pub extern "C" fn pef_remove(alloc: Global, context: &mut PefContext, name: &[u8]) -> u32
    ensures { RemoveAnswers name.now (held context.old) (held context.new) result }
{
    let Some(mut boxed) = take(alloc, context) else {
        return NOT_OPEN;
    };
    let answer = remove_in(&mut boxed, name);
    put(context, boxed);
    answer
}

/// Removes a fragment of a context that is open. Returns 0, or the number of the error.
fn remove_in(context: &mut Context<'static>, name: &[u8]) -> u32
    ensures { RemovesIn name.now context.old context.new result }
{
    match context.remove(name) {
        Ok(()) => 0,
        Err(fault) => remove_number(fault),
    }
}

/// Takes `size` addresses from `address` on out of use: no section is placed in them.
///
/// Returns 0, or 202 if the context isn't open, or 67 or 99. The context is changed only if it returns 0.
#[unsafe(no_mangle)]
pub extern "C" fn pef_reserve(
    alloc: Global,
    context: &mut PefContext,
    address: u32,
    size: u32,
) -> u32
    ensures { ReserveAnswers address size (held context.old) (held context.new) result }
{
    let Some(mut boxed) = take(alloc, context) else {
        return NOT_OPEN;
    };
    let answer = reserve_in(&mut boxed, address, size);
    put(context, boxed);
    answer
}

/// Takes addresses of a context that is open out of use. Returns 0, or the number of the error.
fn reserve_in(context: &mut Context<'static>, address: u32, size: u32) -> u32
    ensures { ReservesIn address size context.old context.new result }
{
    match context.reserve(address, size) {
        Ok(()) => 0,
        Err(fault) => memory_number(fault),
    }
}

/// Gives back a range that [`pef_reserve`] took out of use for the same numbers: sections can be placed there again.
///
/// Returns 0, or 202 if the context isn't open, or 201 if the addresses aren't exactly such a range. The context is changed
/// only if it returns 0.
#[unsafe(no_mangle)]
pub extern "C" fn pef_unreserve(
    alloc: Global,
    context: &mut PefContext,
    address: u32,
    size: u32,
) -> u32
    ensures { UnreserveAnswers address size (held context.old) (held context.new) result }
{
    let Some(mut boxed) = take(alloc, context) else {
        return NOT_OPEN;
    };
    let answer = unreserve_in(&mut boxed, address, size);
    put(context, boxed);
    answer
}

/// Gives a range of a context that is open back. Returns 0, or the number of the error.
fn unreserve_in(context: &mut Context<'static>, address: u32, size: u32) -> u32
    ensures { UnreservesIn address size context.old context.new result }
{
    if context.unreserve(address, size) {
        0
    } else {
        NOT_THERE
    }
}

/// Opens a connection to the fragment with this name.
///
/// Returns 0, or 202 if the context isn't open, or the number of the refusal, whose names are written. The
/// context is changed only if it returns 0.
#[unsafe(no_mangle)]
pub extern "C" fn pef_prepare(
    alloc: Global,
    context: &mut PefContext,
    name: &[u8],
    connection: &mut u32,
    names: &mut PefNames,
) -> u32
    ensures { PrepareAnswers name.now (held context.old) (held context.new) connection.old connection.new (names_shown names.old) (names_shown names.new) result }
{
    let mut place = place_or_nowhere(None);
    pef_prepare_with_place(alloc, context, name, connection, names, &mut place)
}

/// Opens a connection to the fragment with this name, and says where an error is.
///
/// Returns 0, or 202 if the context isn't open, or the number of the error, whose names and place are written. The
/// context is changed only if it returns 0.
#[unsafe(no_mangle)]
pub extern "C" fn pef_prepare_with_place(
    alloc: Global,
    context: &mut PefContext,
    name: &[u8],
    connection: &mut u32,
    names: &mut PefNames,
    place: &mut PefPlace,
) -> u32
    ensures { PlacedPrepareAnswers name.now (held context.old) (held context.new) connection.old connection.new (names_shown names.old) (names_shown names.new) place.old place.new result }
{
    let Some(mut boxed) = take(alloc, context) else {
        return NOT_OPEN;
    };
    let answer = prepare_in(&mut boxed, name, connection, names, place);
    put(context, boxed);
    answer
}

/// Prepares a fragment in a context that is open. Returns 0, or the number of the error.
fn prepare_in(
    context: &mut Context<'static>,
    name: &[u8],
    connection: &mut u32,
    names: &mut PefNames,
    place: &mut PefPlace,
) -> u32
    ensures { PreparesIn name.now context.old context.new connection.old connection.new (names_shown names.old) (names_shown names.new) place.old place.new result }
{
    match context.prepare(name) {
        Ok(given) => {
            *connection = given.0;
            0
        }
        Err(fault) => {
            *names = names_of(fault);
            *place = place_of(fault);
            prepare_number(fault)
        }
    }
}

/// Closes a connection. Fragments that no other open connection needs are removed from memory.
///
/// Returns 0, or 202 if the context isn't open, or 68. The context is changed only if it returns
/// 0.
#[unsafe(no_mangle)]
pub extern "C" fn pef_close(alloc: Global, context: &mut PefContext, connection: u32) -> u32
    ensures { CloseAnswers connection (held context.old) (held context.new) result }
{
    let Some(mut boxed) = take(alloc, context) else {
        return NOT_OPEN;
    };
    let answer = close_in(&mut boxed, connection);
    put(context, boxed);
    answer
}

/// Closes a connection of a context that is open. Returns 0, or the number of the error.
fn close_in(context: &mut Context<'static>, connection: u32) -> u32
    ensures { ClosesIn connection context.old context.new result }
{
    match context.close(Connection(connection)) {
        Ok(()) => 0,
        Err(fault) => close_number(fault),
    }
}

/// Returns the number of the refusal of a fragment that isn't added, which isn't 0.
fn add_number(fault: AddFault) -> u32
    ensures number { result ≡ add_fault_number fault }
    ensures refused { (result == 0) ≡ false }
{
    fault.number()
}

/// Returns the number of the refusal of a fragment that isn't removed, which isn't 0.
fn remove_number(fault: RemoveFault) -> u32
    ensures number { result ≡ remove_fault_number fault }
    ensures refused { (result == 0) ≡ false }
{
    fault.number()
}

/// Returns the number of the refusal of addresses that aren't reserved, which isn't 0.
fn memory_number(fault: MemoryFault) -> u32
    ensures number { result ≡ memory.fault_number fault }
    ensures refused { (result == 0) ≡ false }
{
    fault.number()
}

/// Returns the number of the refusal of a fragment that isn't prepared, which isn't 0.
#[tactic(auto, using(crate::proofs::ContextProofs::NumberLemmas::prepare_refused))]
pub(crate) fn prepare_number(fault: PrepareFault<'static>) -> u32
    ensures number { result ≡ fault_number fault.entry }
    ensures refused { (result == 0) ≡ false }
{
    fault.number()
}

/// Returns the number of the refusal of a connection that isn't closed, which isn't 0.
fn close_number(fault: CloseFault) -> u32
    ensures number { result ≡ close_fault_number fault }
    ensures refused { (result == 0) ≡ false }
{
    fault.number()
}
