//! Readers of a connection: which fragments it placed, which ones closing it releases, and what imports and exports
//! mean. They write only into the caller's memory.
ghost use Rattle.std.specs.Prelude.{◌≡◌, option_map};
ghost use Rattle.std.specs.Option.{option_and_then};
ghost use Rattle.cfm_prepare.specs.Contexts.{open_of};
ghost use Rattle.cfm_prepare.specs.Readers.{import_target_of, numbered_export, released_by};
ghost use Rattle.pef_c.specs.Contexts.Context.{held};
ghost use Rattle.pef_c.specs.Contexts.Reading.{CopyAnswers, MadeAnswers, MakesOut, ReadAnswers, target_given};

use crate::contexts::handle::{PefContext, put, take};
use cfm_prepare::{Connection, Context, ImportTarget, Target};
use pef_records::{NOT_OPEN, NOT_THERE, OUT_OF_MEMORY, PefTarget, copy_answer};
use std::alloc::Global;

/// The kinds of targets (`PEF_TARGET_MISSING` and the others).
const MISSING: u32 = 0;

const ABSOLUTE: u32 = 1;

const IN_SECTION: u32 = 2;

/// Copies the fragments that the preparation of a connection placed to the front of `buffer`, in the order of their
/// initialization.
///
/// Returns 0, or 200 if the buffer is too small, or 201 if the connection isn't open, or 202 if the context isn't.
#[unsafe(no_mangle)]
pub extern "C" fn pef_new_fragments(
    alloc: Global,
    context: &mut PefContext,
    connection: u32,
    buffer: &mut [usize],
    count: &mut usize,
) -> u32
    ensures same { held context.new ≡ held context.old }
    ensures copied { CopyAnswers (λ s. option_map (λ o. o.placed) (open_of s.connections connection)) (held context.old) buffer.old buffer.new count.old count.new result }
{
    let Some(boxed) = take(alloc, context) else {
        return NOT_OPEN;
    };
    let answer = copy_answer(boxed.new_fragments(Connection(connection)), buffer, count);
    put(context, boxed);
    answer
}

/// Copies the fragments that closing a connection releases to the front of `buffer`, the last to be initialized first.
///
/// Returns the same numbers as `pef_new_fragments`, or 99.
#[unsafe(no_mangle)]
pub extern "C" fn pef_released_by(
    alloc: Global,
    context: &mut PefContext,
    connection: u32,
    buffer: &mut [usize],
    count: &mut usize,
) -> u32
    ensures same { held context.new ≡ held context.old }
    ensures copied { MadeAnswers (λ s. released_by s connection) (held context.old) buffer.old buffer.new count.old count.new result }
{
    let Some(boxed) = take(alloc, context) else {
        return NOT_OPEN;
    };
    let answer = copy_released(&boxed, connection, buffer, count);
    put(context, boxed);
    answer
}

/// Copies what closing a connection of a context that is open releases.
fn copy_released(
    context: &Context<'_>,
    connection: u32,
    buffer: &mut [usize],
    count: &mut usize,
) -> u32
    ensures { MakesOut (released_by context.now connection) buffer.old buffer.new count.old count.new result }
{
    match context.released_by(Connection(connection)) {
        Ok(Some(released)) => copy_answer(Some(released.as_slice()), buffer, count),
        Ok(None) => NOT_THERE,
        Err(_) => OUT_OF_MEMORY,
    }
}

/// Reads what import `number` of a fragment of a connection's closure means.
///
/// Returns 0, or 201 if there is no such import, or 202 if the context isn't open.
#[unsafe(no_mangle)]
pub extern "C" fn pef_import_target(
    alloc: Global,
    context: &mut PefContext,
    connection: u32,
    fragment: usize,
    number: usize,
    target: &mut PefTarget,
) -> u32
    ensures same { held context.new ≡ held context.old }
    ensures read { ReadAnswers (λ s. option_map target_given (option_and_then (λ o. import_target_of s.present o fragment number) (open_of s.connections connection))) (held context.old) target.old target.new result }
{
    let Some(boxed) = take(alloc, context) else {
        return NOT_OPEN;
    };
    let answer = match boxed.import_target(Connection(connection), fragment, number) {
        Some(found) => {
            *target = target_given(found);
            0
        }
        None => NOT_THERE,
    };
    put(context, boxed);
    answer
}

/// Returns what an import means as C sees it.
pub(crate) fn target_given(import: ImportTarget) -> PefTarget
    ensures { result ≡ target_given import }
{
    let address = import.address;
    match import.target {
        None => PefTarget {
            kind: MISSING,
            fragment: 0,
            section: 0,
            offset: 0,
            address,
        },
        Some(Target::Absolute(_)) => PefTarget {
            kind: ABSOLUTE,
            fragment: 0,
            section: 0,
            offset: 0,
            address,
        },
        Some(
            Target::At {
                fragment,
                section,
                offset,
            },
        ) => PefTarget {
            kind: IN_SECTION,
            fragment,
            section,
            offset,
            address,
        },
    }
}

/// Reads the address of export `number` of a fragment of a connection's closure.
///
/// Returns 0, or 201 if there is none, or 202 if the context isn't open.
#[unsafe(no_mangle)]
pub extern "C" fn pef_export_address(
    alloc: Global,
    context: &mut PefContext,
    connection: u32,
    fragment: usize,
    number: usize,
    address: &mut u32,
) -> u32
    ensures same { held context.new ≡ held context.old }
    ensures read { ReadAnswers (λ s. option_and_then (λ o. numbered_export s.present o fragment number) (open_of s.connections connection)) (held context.old) address.old address.new result }
{
    let Some(boxed) = take(alloc, context) else {
        return NOT_OPEN;
    };
    let answer = match boxed.export_address(Connection(connection), fragment, number) {
        Some(found) => {
            *address = found;
            0
        }
        None => NOT_THERE,
    };
    put(context, boxed);
    answer
}
