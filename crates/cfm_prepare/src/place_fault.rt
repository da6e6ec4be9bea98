ghost use Rattle.std.specs.Prelude.{◌≡◌};
ghost use Rattle.cfm_prepare.specs.Faults.{place_fault_name, place_fault_number, place_fault_place};

use crate::fault::PrepareFault;
use pef_format::Place;
use std::fmt;
use thiserror::Error;

/// Why a fragment isn't prepared at some addresses. The text is the refusal's name.
#[derive(Clone, Copy, Debug, PartialEq, Eq, Error)]
pub enum PlaceFault<'a> {
    /// There are more or fewer addresses than new sections.
    WrongAddressCount,

    /// The fragment isn't prepared.
    Prepare(PrepareFault<'a>),
}

impl<'a> PlaceFault<'a> {
    /// Returns the refusal's number: 210, or that of [`PrepareFault`].
    pub fn number(&self) -> u32
        ensures { result ≡ place_fault_number self.now }
    {
        match self {
            PlaceFault::WrongAddressCount => 210,
            PlaceFault::Prepare(fault) => fault.number(),
        }
    }

    /// Returns the refusal's name, which is its text.
    pub fn name(&self) -> &'static str
        ensures { result.now ≡ place_fault_name self.now }
    {
        match self {
            PlaceFault::WrongAddressCount => "WrongAddressCount",
            PlaceFault::Prepare(fault) => fault.name(),
        }
    }

    /// Returns the place of the refusal in a fragment's container, if it is about a field.
    pub fn place(&self) -> Option<Place>
        ensures { result ≡ place_fault_place self.now }
    {
        match self {
            PlaceFault::WrongAddressCount => None,
            PlaceFault::Prepare(fault) => fault.place(),
        }
    }
}

impl<'a> fmt::Display for PlaceFault<'a> {
    ghost use Rattle.std.specs.Prelude.{Some};
    ghost use Rattle.cfm_prepare.specs.Faults.{place_fault_name};

    ghost output = { λ fault. Some (place_fault_name fault) };

    fn fmt<W: fmt::Write>(&self, f: &mut fmt::Formatter<W>) -> fmt::Result {
        f.write_str(self.name())
    }
}

impl<'a> From<PrepareFault<'a>> for PlaceFault<'a> {
    ghost use Rattle.std.specs.Prelude.{◌≡◌};
    ghost use Rattle.cfm_prepare.specs.declared.place_fault.PlaceFault.TheVariants as place_fault;

    ghost from_gives = { λ fault e. e ≡ place_fault.Prepare fault };

    fn from(fault: PrepareFault<'a>) -> PlaceFault<'a> {
        PlaceFault::Prepare(fault)
    }
}
