//! The errors of a container and the notes on it, also of one that is damaged.
ghost use Rattle.std.specs.Prelude.{◌≡◌, ◌-◌, ◌++◌, [], drop, length, map};
ghost use Rattle.pef_inspect.specs.Errors.{errors_of};
ghost use Rattle.pef_inspect.specs.Oddities.{Adds, HasIrregularExports, notes_of};
ghost use Rattle.pef_records.specs.Buffers.{FillsPart};
ghost use Rattle.pef_c.specs.Containers.Findings.{FindingsAnswer, MoreNotesAnswer, detail_kind, finding_row};
ghost use Rattle.pef_c.specs.Containers.Told.{told_items};

use crate::containers::told::Told;
use pef_inspect::{Detail, Finding, Findings, find_errors, find_more_notes, find_notes};
use pef_records::{OUT_OF_MEMORY, PefFinding, place_or_nowhere};
use std::alloc::Global;
use std::convert::Infallible;

/// What a detail is (`PEF_DETAIL_NONE` and the others).
const NO_DETAIL: u8 = 0;

const WORD_DETAIL: u8 = 1;

const LENGTH_DETAIL: u8 = 2;

const SECTIONS_DETAIL: u8 = 3;

/// Reads the errors of a container and then the notes on it, from number `from` on, into the first places, and counts them.
/// Nothing is allocated.
///
/// Returns 0.
#[unsafe(no_mangle)]
pub extern "C" fn pef_findings(
    container: &[u8],
    from: usize,
    places: &mut [PefFinding],
    count: &mut usize,
) -> u32
    ensures { FindingsAnswer container.now from places.old places.new count.new result }
{
    let mut filling = Filling::new(places, from);
    filling.find(container);
    *count = filling.count();
    0
}

/// Reads the notes on a container that need memory, from number `from` on, into the first places, and counts them.
///
/// Returns 0, or 99 if an allocation fails.
#[unsafe(no_mangle)]
pub extern "C" fn pef_more_notes(
    alloc: Global,
    container: &[u8],
    from: usize,
    places: &mut [PefFinding],
    count: &mut usize,
) -> u32
    ensures { MoreNotesAnswer container.now from places.old places.new count.old count.new result }
{
    let found = match find_more_notes(alloc, container) {
        Ok(found) => found,
        Err(_) => return OUT_OF_MEMORY,
    };
    let mut filling = Filling::new(places, from);
    filling.take_each(&found);
    *count = filling.count();
    0
}

/// Places that are filled with findings, from a number on.
#[derive(Drop)]
struct Filling<'p> {
    places: &'p mut [PefFinding],
    from: usize,
    /// How many findings are still passed over.
    skip: usize,
    /// How many places are filled.
    count: usize,
    /// What was in the places that are filled.
    were: Told<PefFinding>,
    /// What was found.
    taken: Told<Finding>,
    ghost filled: { FillsPart (map finding_row (told_items taken)) from (told_items were ++ drop count places.now) places.now count },
    ghost skipped: { skip ≡ from - length (told_items taken) },
}

impl<'p> Findings for Filling<'p> {
    ghost use Rattle.std.specs.Prelude.{◌++◌};
    ghost use Rattle.pef_c.specs.Containers.Fillings.{start_of};
    ghost use Rattle.pef_c.specs.Containers.Kept.{kept};

    ghost taken = { λ rows. kept rows.places.ghost_name rows.from (start_of rows) ++ told_items rows.taken };

    type Error = Infallible;

    fn take(&mut self, finding: Finding) -> Result<(), Infallible> {
        let Filling {
            places,
            from: _,
            skip,
            count,
            were,
            taken,
        } = self;
        *taken = taken.and(&finding);
        if *skip > 0 {
            *skip -= 1;
        } else if *count < places.len() {
            *were = were.and(&places[*count]);
            places[*count] = finding_given(finding);
            *count += 1;
        }
        Ok(())
    }
}

impl<'p> Filling<'p> {
    ghost use Rattle.pef_c.specs.Containers.Fillings.{start_of};

    /// Returns places of which none is filled.
    fn new(places: &'p mut [PefFinding], from: usize) -> Filling<'p>
        ensures same_reference { result.places.ghost_name ≡ places.entry.ghost_name }
        ensures from { result.from ≡ from }
        ensures start { start_of result ≡ places.old }
        ensures none { told_items result.taken ≡ [] }
    {
        Filling {
            places,
            from,
            skip: from,
            count: 0,
            were: Told::Nothing,
            taken: Told::Nothing,
        }
    }

    /// Fills places with the errors of a container and the notes on it.
    fn find(&mut self, bytes: &[u8])
        ensures same_reference { self.new.places.ghost_name ≡ self.old.places.ghost_name }
        ensures from { self.new.from ≡ self.old.from }
        ensures start { start_of self.new ≡ start_of self.old }
        ensures found { Adds (told_items self.old.taken) (told_items self.new.taken) (λ irregular. errors_of bytes.now ++ notes_of bytes.now irregular) (HasIrregularExports bytes.now) }
    {
        match find_errors(bytes, self) {
            Ok(()) => {}
            Err(error) => match error {},
        }
        match find_notes(bytes, self) {
            Ok(()) => {}
            Err(error) => match error {},
        }
    }

    /// Fills places with these findings.
    fn take_each(&mut self, found: &[Finding])
        ensures same_reference { self.new.places.ghost_name ≡ self.old.places.ghost_name }
        ensures from { self.new.from ≡ self.old.from }
        ensures start { start_of self.new ≡ start_of self.old }
        ensures found { told_items self.new.taken ≡ told_items self.old.taken ++ found.now }
    {
        for finding in found {
            match self.take(*finding) {
                Ok(()) => {}
                Err(error) => match error {},
            }
        }
    }

    /// Returns how many places are filled.
    fn count(self) -> usize
        ensures count { result ≡ self.entry.count }
        ensures places { self.exit.0.now ≡ self.entry.places.now }
    {
        self.count
    }
}

/// Returns a finding as C sees it.
fn finding_given(finding: Finding) -> PefFinding
    ensures { result ≡ finding_row finding }
{
    PefFinding {
        place: place_or_nowhere(Some(finding.place)),
        detail: finding.detail().value(),
        number: finding.number(),
        is_error: finding.is_error(),
        detail_kind: detail_kind(finding.detail()),
    }
}

/// Returns the code of what a detail is.
fn detail_kind(detail: Detail) -> u8
    ensures { result ≡ detail_kind detail }
{
    match detail {
        Detail::None => NO_DETAIL,
        Detail::Word(_) => WORD_DETAIL,
        Detail::Length(_) => LENGTH_DETAIL,
        Detail::Sections(_) => SECTIONS_DETAIL,
    }
}
