ghost use Rattle.std.specs.Prelude.{◌≡◌};
ghost use Rattle.pef_loader.specs.Loader.{init_of, main_of, term_of};
ghost use Rattle.pef_loader.specs.Views.{loaded};
ghost use Rattle.cfm_sections.specs.Prepared.{entry_address};

use crate::addresses::section_address;
use cfm_memory::Place;
use pef_loader::Loader;

/// The addresses of a fragment's entry points, as far as it has them.
#[derive(Clone, Copy, Debug, PartialEq, Eq)]
pub struct Entries {
    pub init: Option<u32>,
    pub main: Option<u32>,
    pub term: Option<u32>,
}

/// Returns the addresses of a loader section's entry points, in a fragment whose sections have
/// these places.
pub fn find_entries(loader: &Loader<'_>, places: &[Place]) -> Entries
    ensures init { result.init ≡ entry_address places.now (init_of (loaded loader.now)) }
    ensures main { result.main ≡ entry_address places.now (main_of (loaded loader.now)) }
    ensures term { result.term ≡ entry_address places.now (term_of (loaded loader.now)) }
{
    Entries {
        init: entry_address(places, loader.init()),
        main: entry_address(places, loader.main()),
        term: entry_address(places, loader.term()),
    }
}

/// Returns the address of an entry, given by its section and the offset in it.
fn entry_address(places: &[Place], entry: Option<(u32, u32)>) -> Option<u32>
    ensures { result ≡ entry_address places.now entry }
{
    let (section, offset) = entry?;
    Some(section_address(places, section).wrapping_add(offset))
}
