//! Which sections a preparation would place, and the memory that each needs. A call keeps what it read, for later ones and for
//! the preparation.
ghost use Rattle.std.specs.Prelude.{◌≡◌, length};
ghost use Rattle.pef_c.specs.Contexts.Context.{held, names_shown};
ghost use Rattle.pef_c.specs.Contexts.NewSections.{NewSectionsAnswers, PlacedNewSectionsAnswers, TellsSectionsIn, section_at, section_row};
ghost use Rattle.pef_records.specs.Buffers.{filled, fitting};

use crate::contexts::context::prepare_number;
use crate::contexts::handle::{PefContext, put, take};
use crate::contexts::refusal_names::{names_of, place_of};
use cfm_prepare::{Context, NewSection};
use pef_records::{
    NOT_OPEN, PefNames, PefNewSection, PefPlace, Table, fill_table, given, place_or_nowhere,
};
use std::alloc::Global;

/// Reads the sections that `pef_prepare` would place for this name, in its order, from number `from` on, into the first
/// places, and counts them.
///
/// Returns 0, or 202 if the context isn't open, or the number of the error, whose names are written.
#[unsafe(no_mangle)]
pub extern "C" fn pef_new_sections(
    alloc: Global,
    context: &mut PefContext,
    name: &[u8],
    from: usize,
    places: &mut [PefNewSection],
    count: &mut usize,
    names: &mut PefNames,
) -> u32
    ensures same { held context.new ≡ held context.old }
    ensures told { NewSectionsAnswers name.now (held context.old) from places.old places.new count.old count.new (names_shown names.old) (names_shown names.new) result }
{
    let mut place = place_or_nowhere(None);
    pef_new_sections_with_place(alloc, context, name, from, places, count, names, &mut place)
}

/// Reads the sections that `pef_new_sections` reads, and says where an error is.
///
/// Returns 0, or 202 if the context isn't open, or the number of the error, whose names and place are written.
#[unsafe(no_mangle)]
pub extern "C" fn pef_new_sections_with_place(
    alloc: Global,
    context: &mut PefContext,
    name: &[u8],
    from: usize,
    places: &mut [PefNewSection],
    count: &mut usize,
    names: &mut PefNames,
    place: &mut PefPlace,
) -> u32
    ensures same { held context.new ≡ held context.old }
    ensures told { PlacedNewSectionsAnswers name.now (held context.old) from places.old places.new count.old count.new (names_shown names.old) (names_shown names.new) place.old place.new result }
{
    let Some(mut boxed) = take(alloc, context) else {
        return NOT_OPEN;
    };
    let answer = new_sections_in(&mut boxed, given(name), from, places, count, names, place);
    put(context, boxed);
    answer
}

/// Reads the sections that a preparation in an open context would place. Returns 0, or the number of the error.
fn new_sections_in(
    context: &mut Context<'static>,
    name: &[u8],
    from: usize,
    places: &mut [PefNewSection],
    count: &mut usize,
    names: &mut PefNames,
    place: &mut PefPlace,
) -> u32
    ensures same { context.new ≡ context.old }
    ensures told { TellsSectionsIn name.now context.old from places.old places.new count.old count.new (names_shown names.old) (names_shown names.new) place.old place.new result }
{
    match context.new_sections(name) {
        Ok(sections) => {
            *count = fill_sections(&sections, from, places);
            0
        }
        Err(fault) => {
            *names = names_of(fault);
            *place = place_of(fault);
            prepare_number(fault)
        }
    }
}

/// Fills the first places with the sections from number `from` on, and returns how many they are.
fn fill_sections(sections: &[NewSection], from: usize, places: &mut [PefNewSection]) -> usize
    ensures count { result ≡ fitting (length sections.now) from (length places.old) }
    ensures rows { places.new ≡ filled (section_at sections.now) from result places.old }
{
    fill_table(&mut SectionRows { sections }, sections.len(), from, places)
}

/// Sections in memory.
#[derive(Drop)]
struct SectionRows<'b> {
    sections: &'b [NewSection],
}

impl<'b> Table<PefNewSection> for SectionRows<'b> {
    ghost use Rattle.pef_c.specs.Contexts.NewSections.{section_at};
    ghost use Rattle.pef_records.specs.declared.structs.PefNewSection.{PefNewSection};

    ghost Held = { PefNewSection };

    ghost shown = { λ row. row };

    ghost row_at = { λ t. section_at t.sections.now };

    fn row(&mut self, i: usize) -> Option<PefNewSection> {
        match self.sections.get(i) {
            Some(section) => Some(section_given(*section)),
            None => None,
        }
    }
}

/// Returns a section as C sees it.
fn section_given(section: NewSection) -> PefNewSection
    ensures { result ≡ section_row section }
{
    PefNewSection {
        fragment: section.fragment,
        section: section.section,
        kind: section.section_kind,
        share: section.share_kind,
        size: section.size,
        alignment: section.alignment,
    }
}
