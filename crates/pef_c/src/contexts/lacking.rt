//! Which libraries a context lacks, whichever of its fragments is prepared.
ghost use Rattle.std.specs.Prelude.{◌≡◌, length, map, slice_get};
ghost use Rattle.cfm_stubs.specs.Lacking.{lacking_in};
ghost use Rattle.cfm_stubs.specs.Views.{lacking_seen};
ghost use Rattle.pef_c.specs.Contexts.Context.{held};
ghost use Rattle.pef_c.specs.Contexts.Lacking.{LackingAnswers, TellsLackingIn, lacking_shown};
ghost use Rattle.pef_records.specs.Buffers.{filled, fitting};

use crate::contexts::handle::{PefContext, put, take};
use cfm_prepare::Context;
use cfm_stubs::{Lacking, lacking};
use pef_records::{NOT_OPEN, OUT_OF_MEMORY, PefLacking, Table, fill_table};
use std::alloc::Global;

/// Reads the libraries that fragments of a context name and that no fragment of it has the name of, from number `from` on, into
/// the first places, and counts them.
///
/// Returns 0, or 202 if the context isn't open, or 99.
#[unsafe(no_mangle)]
pub extern "C" fn pef_lacking(
    alloc: Global,
    context: &mut PefContext,
    from: usize,
    places: &mut [PefLacking],
    count: &mut usize,
) -> u32
    ensures same { held context.new ≡ held context.old }
    ensures told { LackingAnswers (held context.old) from (map lacking_shown places.old) (map lacking_shown places.new) count.old count.new result }
{
    let Some(boxed) = take(alloc, context) else {
        return NOT_OPEN;
    };
    let answer = lacking_in(alloc, &boxed, from, places, count);
    put(context, boxed);
    answer
}

/// Reads the libraries that an open context lacks. Returns 0 or 99.
fn lacking_in(
    alloc: Global,
    context: &Context<'static>,
    from: usize,
    places: &mut [PefLacking],
    count: &mut usize,
) -> u32
    ensures { TellsLackingIn (lacking_in context.now.pairs) from (map lacking_shown places.old) (map lacking_shown places.new) count.old count.new result }
{
    let Ok(libraries) = lacking(alloc, context.store()) else {
        return OUT_OF_MEMORY;
    };
    *count = fill_lacking(&libraries, from, places);
    0
}

/// Fills the first places with the libraries from number `from` on, and returns how many they are.
fn fill_lacking(libraries: &[Lacking<'static>], from: usize, places: &mut [PefLacking]) -> usize
    ensures count { result ≡ fitting (length libraries.now) from (length places.old) }
    ensures rows { map lacking_shown places.new ≡ filled (slice_get (map lacking_seen libraries.now)) from result (map lacking_shown places.old) }
{
    fill_table(
        &mut LackingRows { libraries },
        libraries.len(),
        from,
        places,
    )
}

/// Lacking libraries in memory.
#[derive(Drop)]
struct LackingRows<'b> {
    libraries: &'b [Lacking<'static>],
}

impl<'b> Table<PefLacking> for LackingRows<'b> {
    ghost use Rattle.std.specs.Prelude.{map, slice_get};
    ghost use Rattle.cfm_stubs.specs.Lacking.{LackingLibrary};
    ghost use Rattle.cfm_stubs.specs.Views.{lacking_seen};
    ghost use Rattle.pef_c.specs.Contexts.Lacking.{lacking_shown};

    ghost Held = { LackingLibrary };

    ghost shown = { lacking_shown };

    ghost row_at = { λ t. slice_get (map lacking_seen t.libraries.now) };

    fn row(&mut self, i: usize) -> Option<PefLacking> {
        match self.libraries.get(i) {
            Some(library) => Some(PefLacking {
                name: library.name,
                is_weak: library.is_weak,
            }),
            None => None,
        }
    }
}
