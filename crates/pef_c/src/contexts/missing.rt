//! Which libraries a context lacks for a fragment. A call keeps what it read, for later ones and for the preparation.
ghost use Rattle.std.specs.Prelude.{◌≡◌, length, map};
ghost use Rattle.cfm_closure.specs.Views.{missing_seen};
ghost use Rattle.pef_c.specs.Contexts.Context.{held, names_shown};
ghost use Rattle.pef_c.specs.Contexts.Missing.{MissingAnswers, PlacedMissingAnswers, TellsIn, missing_at, missing_row, missing_shown};
ghost use Rattle.pef_records.specs.Buffers.{filled, fitting};

use crate::contexts::context::prepare_number;
use crate::contexts::handle::{PefContext, put, take};
use crate::contexts::refusal_names::{names_of, place_of};
use cfm_prepare::{Context, MissingLibrary};
use pef_records::{
    NOT_OPEN, PefMissing, PefNames, PefPlace, Table, fill_table, given, place_or_nowhere,
};
use std::alloc::Global;

/// Reads the libraries that the fragment with this name and those that it needs name and that no fragment serves, from
/// number `from` on, into the first places, and counts them.
///
/// Returns 0, or 202 if the context isn't open, or the number of the error, whose names are written.
#[unsafe(no_mangle)]
pub extern "C" fn pef_missing(
    alloc: Global,
    context: &mut PefContext,
    name: &[u8],
    from: usize,
    places: &mut [PefMissing],
    count: &mut usize,
    names: &mut PefNames,
) -> u32
    ensures same { held context.new ≡ held context.old }
    ensures told { MissingAnswers name.now (held context.old) from (map missing_shown places.old) (map missing_shown places.new) count.old count.new (names_shown names.old) (names_shown names.new) result }
{
    let mut place = place_or_nowhere(None);
    pef_missing_with_place(alloc, context, name, from, places, count, names, &mut place)
}

/// Reads the libraries that `pef_missing` reads, and says where an error is.
///
/// Returns 0, or 202 if the context isn't open, or the number of the error, whose names and place are written.
#[unsafe(no_mangle)]
pub extern "C" fn pef_missing_with_place(
    alloc: Global,
    context: &mut PefContext,
    name: &[u8],
    from: usize,
    places: &mut [PefMissing],
    count: &mut usize,
    names: &mut PefNames,
    place: &mut PefPlace,
) -> u32
    ensures same { held context.new ≡ held context.old }
    ensures told { PlacedMissingAnswers name.now (held context.old) from (map missing_shown places.old) (map missing_shown places.new) count.old count.new (names_shown names.old) (names_shown names.new) place.old place.new result }
{
    let Some(mut boxed) = take(alloc, context) else {
        return NOT_OPEN;
    };
    let answer = missing_in(&mut boxed, given(name), from, places, count, names, place);
    put(context, boxed);
    answer
}

/// Reads the libraries that an open context lacks. Returns 0, or the number of the error.
fn missing_in(
    context: &mut Context<'static>,
    name: &[u8],
    from: usize,
    places: &mut [PefMissing],
    count: &mut usize,
    names: &mut PefNames,
    place: &mut PefPlace,
) -> u32
    ensures same { context.new ≡ context.old }
    ensures told { TellsIn name.now context.old from (map missing_shown places.old) (map missing_shown places.new) count.old count.new (names_shown names.old) (names_shown names.new) place.old place.new result }
{
    match context.missing(name) {
        Ok(libraries) => {
            *count = fill_missing(&libraries, from, places);
            0
        }
        Err(fault) => {
            *names = names_of(fault);
            *place = place_of(fault);
            prepare_number(fault)
        }
    }
}

/// Fills the first places with the libraries from number `from` on, and returns how many they are.
fn fill_missing(
    libraries: &[MissingLibrary<'static>],
    from: usize,
    places: &mut [PefMissing],
) -> usize
    ensures count { result ≡ fitting (length libraries.now) from (length places.old) }
    ensures rows { map missing_shown places.new ≡ filled (missing_at (map missing_seen libraries.now)) from result (map missing_shown places.old) }
{
    fill_table(
        &mut MissingRows { libraries },
        libraries.len(),
        from,
        places,
    )
}

/// Missing libraries in memory.
#[derive(Drop)]
struct MissingRows<'b> {
    libraries: &'b [MissingLibrary<'static>],
}

impl<'b> Table<PefMissing> for MissingRows<'b> {
    ghost use Rattle.std.specs.Prelude.{map};
    ghost use Rattle.cfm_closure.specs.Views.{missing_seen};
    ghost use Rattle.pef_c.specs.Contexts.Missing.{MissingRow, missing_at, missing_shown};

    ghost Held = { MissingRow };

    ghost shown = { missing_shown };

    ghost row_at = { λ t. missing_at (map missing_seen t.libraries.now) };

    fn row(&mut self, i: usize) -> Option<PefMissing> {
        match self.libraries.get(i) {
            Some(library) => Some(missing_given(*library)),
            None => None,
        }
    }
}

/// Returns a missing library as C sees it.
fn missing_given(library: MissingLibrary<'static>) -> PefMissing
    ensures { missing_shown result ≡ missing_row (missing_seen library.entry) }
{
    let (found_version, found_old_def_version) = match library.found {
        Some(found) => (found.current, found.old_def),
        None => (0, 0),
    };
    PefMissing {
        name: library.name,
        fragment: library.fragment,
        current_version: library.needed.current,
        old_imp_version: library.needed.old_imp,
        found_version,
        found_old_def_version,
        is_weak: library.weak,
        is_found: library.found.is_some(),
    }
}
