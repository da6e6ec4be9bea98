ghost use Rattle.std.specs.Prelude.{◌≡◌};
ghost use Rattle.pef_listing.specs.Faults.{fault_name, fault_number, fault_place};

use pef_format::Place;
use pef_loader::{LoaderFault, ProgramFault};
use pef_views::ViewFault;
use std::fmt;
use thiserror::Error;

/// Why bytes can't be listed: the first refusal of their readers.
#[derive(Clone, Copy, Debug, PartialEq, Eq, Error)]
pub enum ListFault {
    /// They aren't a container.
    View(ViewFault),
    /// The container's loader section breaks a rule.
    Loader { fault: LoaderFault, place: Place },
    /// A relocation program isn't readable.
    Reloc(ProgramFault),
}

impl ListFault {
    /// Returns the number of the refusal.
    pub fn number(&self) -> u32
        ensures { result ≡ fault_number self.now }
    {
        match self {
            ListFault::View(fault) => fault.number(),
            ListFault::Loader { fault, .. } => fault.number(),
            ListFault::Reloc(program) => program.fault.number(),
        }
    }

    /// Returns the refusal's name, which is its text.
    pub fn name(&self) -> &'static str
        ensures { result.now ≡ fault_name self.now }
    {
        match self {
            ListFault::View(fault) => fault.name(),
            ListFault::Loader { fault, .. } => fault.name(),
            ListFault::Reloc(program) => program.fault.name(),
        }
    }

    /// Returns the place of the refusal in the container, if it is about a field.
    pub fn place(&self) -> Option<Place>
        ensures { result ≡ fault_place self.now }
    {
        match self {
            ListFault::View(fault) => fault.place(),
            ListFault::Loader { place, .. } => Some(*place),
            ListFault::Reloc(program) => Some(program.place),
        }
    }
}

impl fmt::Display for ListFault {
    ghost use Rattle.std.specs.Prelude.{Some};
    ghost use Rattle.pef_listing.specs.Faults.{fault_name};

    ghost output = { λ fault. Some (fault_name fault) };

    fn fmt<W: fmt::Write>(&self, f: &mut fmt::Formatter<W>) -> fmt::Result {
        f.write_str(self.name())
    }
}
