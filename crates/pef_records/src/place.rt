//! The places of errors.
ghost use Rattle.std.specs.Prelude.{◌≡◌};
ghost use Rattle.pef_records.specs.Places.{place_or_nowhere};

use crate::structs::PefPlace;
use pef_format::Place;

/// The offset of what has none (`PEF_NO_OFFSET`).
pub(crate) const NO_OFFSET: usize = usize::MAX;

/// Returns a place as C has it.
pub fn place_or_nowhere(place: Option<Place>) -> PefPlace
    ensures { result ≡ place_or_nowhere place }
{
    match place {
        Some(place) => PefPlace {
            part: place.part.code(),
            row: place.row,
            field: place.field,
            offset: place.offset.unwrap_or(NO_OFFSET),
        },
        None => PefPlace {
            part: 0,
            row: 0,
            field: 0,
            offset: NO_OFFSET,
        },
    }
}
