//! The place of the first error of a container.
ghost use Rattle.std.specs.Prelude.{◌≡◌};
ghost use Rattle.pef_c.specs.Containers.Place.{ContainerPlaces};

use pef_faults::Fault;
use pef_listing::Listing;
use pef_records::{PefPlace, list_number, place_or_nowhere};

/// Finds the first error of a container: of its header and its sections, of its loader section, and of its relocation
/// programs, in the order in which `pef_list` reports them.
///
/// Returns 0 if there is none, or the number of the error, and writes its place.
#[unsafe(no_mangle)]
pub extern "C" fn pef_container_place(container: &[u8], place: &mut PefPlace) -> u32
    ensures { ContainerPlaces container.now place.new result }
{
    match Listing::read(container) {
        Ok(_) => {
            *place = place_or_nowhere(None);
            0
        }
        Err(fault) => {
            *place = place_or_nowhere(Fault::Listing(fault).place());
            list_number(fault)
        }
    }
}
