//! The containers of a file, one after the other, with what each leaves to the next one. Nothing is allocated.
ghost use Rattle.std.specs.Prelude.{◌≡◌, ◌≤◌, length, slice_get};
ghost use Rattle.pef_c.specs.Reports.Found.{FirstFound, NextFound, StoresFound, found_at, places_from, turn_of};

use cfm_members::Containers;
use mac_report::Turn;
use pef_inspect::Limits;
use pef_records::{NOT_THERE, PefFoundContainer, given};

/// Finds the first container of a file.
///
/// Returns 0; or 201 if there is none, and writes the end of the file.
#[unsafe(no_mangle)]
pub extern "C" fn pef_first_container(file: &[u8], found: &mut PefFoundContainer) -> u32
    ensures { FirstFound file.now found.new result }
{
    let file = given(file);
    store(file, 0, Turn::first(file), found)
}

/// Goes on to the next container of a file.
///
/// Returns 0; or 201 if there is none, and writes the end of the file. At the end nothing is written.
#[unsafe(no_mangle)]
pub extern "C" fn pef_next_container(file: &[u8], found: &mut PefFoundContainer) -> u32
    ensures { NextFound file.now found.old found.new result }
{
    if found.offset >= file.len() {
        return NOT_THERE;
    }
    let before = turn_of(*found);
    let turn = before.after(before.rest(file, found.offset));
    store(file, found.offset + 1, turn, found)
}

/// Returns what the containers before one leave.
pub(crate) fn turn_of(found: PefFoundContainer) -> Turn
    ensures { result ≡ turn_of found }
{
    Turn {
        budget: found.budget,
        limits: Limits {
            program_bytes: found.program_bytes,
            steps: found.steps,
            packed_bytes: found.packed_bytes,
            words: found.words,
        },
        containers: found.number,
        skipped: found.skipped,
    }
}

/// Writes the first container from a place on, or the end of the file.
fn store(file: &[u8], from: usize, turn: Turn, found: &mut PefFoundContainer) -> u32
    requires { from ≤ length file.now }
    ensures { StoresFound file.now turn (slice_get (places_from file.now from) 0) found.new result }
{
    match first_from(file, from) {
        Some(place) => {
            *found = found_at(file, place, turn);
            0
        }
        None => {
            *found = found_at(file, file.len(), turn);
            NOT_THERE
        }
    }
}

/// Returns the first place from one on where a container begins.
fn first_from(bytes: &[u8], from: usize) -> Option<usize>
    requires { from ≤ length bytes.now }
    ensures { result ≡ slice_get (places_from bytes.now from) 0 }
{
    let (_, rest) = bytes.split_at(from);
    match Containers::new(rest).next() {
        Some(place) => Some(from + place),
        None => None,
    }
}

/// Returns the container at a place.
fn found_at(file: &[u8], place: usize, turn: Turn) -> PefFoundContainer
    ensures { result ≡ found_at file.now place turn }
{
    PefFoundContainer {
        offset: place,
        length: turn.rest(file, place).len(),
        number: turn.containers,
        skipped: turn.skipped,
        budget: turn.budget,
        program_bytes: turn.limits.program_bytes,
        steps: turn.limits.steps,
        packed_bytes: turn.limits.packed_bytes,
        words: turn.limits.words,
    }
}
