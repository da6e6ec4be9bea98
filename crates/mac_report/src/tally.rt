ghost use Rattle.std.specs.Prelude.{◌≡◌};
ghost use Rattle.mac_report.specs.Containers.{fresh_tally, tallied, total};
ghost use Rattle.mac_report.specs.Views.{row_seen};

use crate::row::Row;
use crate::turn::Turn;
use pef_rows::Counts;
use std::alloc::Allocator;

/// What was counted of the containers of a file so far. The counts stay at the greatest number of 64 bits.
#[derive(Clone, Copy, Debug)]
pub(crate) struct Tally {
    pub turn: Turn,
    pub errors: u64,
    pub notes: u64,
}

impl Tally {
    /// Returns the tally before the first container of a file.
    pub(crate) fn new(bytes: &[u8]) -> Tally
        ensures { result ≡ fresh_tally bytes.now }
    {
        Tally {
            turn: Turn::first(bytes),
            errors: 0,
            notes: 0,
        }
    }

    /// Returns the tally after one more container, which begins some bytes.
    pub(crate) fn with_row<A: Allocator + Copy>(self, rest: &[u8], row: &Row<'_, A>) -> Tally
        ensures { result ≡ tallied self rest.now (row_seen row.now) }
    {
        Tally {
            turn: self.turn.after(rest),
            errors: self.errors.saturating_add(row.error_count()),
            notes: self.notes.saturating_add(row.note_count()),
        }
    }

    /// Returns the counts of a file with so many errors and notes besides those of its containers. Containers that weren't
    /// inspected are one more note together.
    pub(crate) fn total(self, errors: u64, notes: u64) -> Counts
        ensures { result ≡ total self errors notes }
    {
        Counts {
            containers: self.turn.containers,
            errors: self.errors.saturating_add(errors),
            notes: self
                .notes
                .saturating_add(notes)
                .saturating_add(u64::from(self.turn.skipped > 0)),
            unverified: self.turn.skipped,
        }
    }
}
