//! Which numbers fragments have: a removed fragment leaves its number free.
ghost use Rattle.std.specs.Prelude.{◌≡◌, map};
ghost use Rattle.cfm_store.specs.Seen.{place_seen};
ghost use Rattle.pef_c.specs.Contexts.Context.{held};
ghost use Rattle.pef_c.specs.Contexts.NextFragment.{next_number};
ghost use Rattle.pef_c.specs.Contexts.Reading.{ReadAnswers};

use crate::contexts::handle::{PefContext, put, take};
use pef_records::{NOT_OPEN, NOT_THERE};
use std::alloc::Global;

/// Reads the first number from `from` on that a fragment has.
///
/// Returns 0, or 201 if there is none, or 202 if the context isn't open.
#[unsafe(no_mangle)]
pub extern "C" fn pef_next_fragment(
    alloc: Global,
    context: &mut PefContext,
    from: usize,
    fragment: &mut usize,
) -> u32
    ensures same { held context.new ≡ held context.old }
    ensures read { ReadAnswers (λ s. next_number s.pairs from) (held context.old) fragment.old fragment.new result }
{
    let Some(boxed) = take(alloc, context) else {
        return NOT_OPEN;
    };
    let answer = match next_number(boxed.store().pairs(), from) {
        Some(number) => {
            *fragment = number;
            0
        }
        None => NOT_THERE,
    };
    put(context, boxed);
    answer
}

/// Returns the first place from a number on that has a pair.
#[tactic(auto, unfolding(crate::specs::Contexts::NextFragment::next_number))]
fn next_number(pairs: &[Option<(&[u8], &[u8])>], from: usize) -> Option<usize>
    ensures { result ≡ next_number (map place_seen pairs.now) from }
{
    for place in from..pairs.len() {
        if pairs[place].is_some() {
            return Some(place);
        }
    }
    None
}
