//! The names and the place that are reported with the error of a preparation.
ghost use Rattle.std.specs.Prelude.{◌≡◌, option_map};
ghost use Rattle.pef_c.specs.Contexts.Context.{fault_names, name_or_none, names_shown};
ghost use Rattle.pef_records.specs.Places.{place_or_nowhere};
ghost use Rattle.pef_faults.specs.Places.{fault_place};
ghost use Rattle.pef_faults.specs.declared.fault.Fault.TheVariants.{Prepare};

use cfm_prepare::PrepareFault;
use pef_faults::Fault;
use pef_records::{PefNames, PefPlace, place_or_nowhere};

/// Returns the names of a fragment that isn't prepared, of its library and of a symbol.
pub(crate) fn names_of(fault: PrepareFault<'static>) -> PefNames
    ensures { names_shown result ≡ fault_names fault.entry }
{
    let names = Fault::Prepare(fault).names();
    PefNames {
        fragment: name_or_none(names.fragment),
        library: name_or_none(names.library),
        symbol: name_or_none(names.symbol),
    }
}

/// Returns the place in the container of the fragment that isn't prepared.
pub(crate) fn place_of(fault: PrepareFault<'static>) -> PefPlace
    ensures { result ≡ place_or_nowhere (fault_place (Prepare fault.entry)) }
{
    place_or_nowhere(Fault::Prepare(fault).place())
}

/// Returns a name, or no bytes if there is none.
fn name_or_none(name: Option<&'static [u8]>) -> &'static [u8]
    ensures { result.now ≡ name_or_none (option_map (λ name. name.now) name.entry) }
{
    match name {
        Some(name) => name,
        None => &[],
    }
}
