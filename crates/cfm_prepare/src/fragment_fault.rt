ghost use Rattle.std.specs.Prelude.{◌≡◌};
ghost use Rattle.cfm_prepare.specs.FragmentFaults.{fault_name, fault_number, fault_place};

use pef_format::Place;
use pef_pidata::PackFault;
use pef_reloc::RelocFault;
use std::alloc::{AllocError, AllocFailed};
use std::fmt;
use thiserror::Error;

/// Why the new fragments of a closure aren't prepared. The text is the refusal's name. `fragment` is the
/// name of the fragment that is refused, and `place` is in its container.
#[derive(Clone, Copy, Debug, PartialEq, Eq, Error)]
pub enum FragmentFault<'a> {
    /// A section finds no room in memory.
    NoRoom {
        fragment: &'a [u8],
        place: Place,
    },

    /// The raw bytes of a section of pattern-initialized data don't spell its image.
    Pack {
        fragment: &'a [u8],
        fault: PackFault,
        place: Place,
    },

    /// A relocation program isn't readable, or can't be applied.
    Reloc {
        fragment: &'a [u8],
        fault: RelocFault,
        /// The number of the section that the program relocates.
        section: u32,
        place: Place,
    },

    /// An allocation failed.
    OutOfMemory,
}

impl<'a> FragmentFault<'a> {
    /// Returns the refusal's number: 67, 21 to 25, 31 to 39, or 99.
    pub fn number(&self) -> u32
        ensures { result ≡ fault_number self.now }
    {
        match self {
            FragmentFault::NoRoom { .. } => 67,
            FragmentFault::Pack { fault, .. } => fault.number(),
            FragmentFault::Reloc { fault, .. } => fault.number(),
            FragmentFault::OutOfMemory => 99,
        }
    }

    /// Returns the refusal's name, which is its text.
    pub fn name(&self) -> &'static str
        ensures { result.now ≡ fault_name self.now }
    {
        match self {
            FragmentFault::NoRoom { .. } => "NoRoom",
            FragmentFault::Pack { fault, .. } => fault.name(),
            FragmentFault::Reloc { fault, .. } => fault.name(),
            FragmentFault::OutOfMemory => "OutOfMemory",
        }
    }

    /// Returns the place of the refusal in the fragment's container: the size of the section that finds no room, or an
    /// instruction. `None` if an allocation failed.
    pub fn place(&self) -> Option<Place>
        ensures { result ≡ fault_place self.now }
    {
        match *self {
            FragmentFault::NoRoom { place, .. }
            | FragmentFault::Pack { place, .. }
            | FragmentFault::Reloc { place, .. } => Some(place),
            FragmentFault::OutOfMemory => None,
        }
    }
}

impl<'a> fmt::Display for FragmentFault<'a> {
    ghost use Rattle.std.specs.Prelude.{Some};
    ghost use Rattle.cfm_prepare.specs.FragmentFaults.{fault_name};

    ghost output = { λ fault. Some (fault_name fault) };

    fn fmt<W: fmt::Write>(&self, f: &mut fmt::Formatter<W>) -> fmt::Result {
        f.write_str(self.name())
    }
}

impl<'a> From<AllocError> for FragmentFault<'a> {
    ghost use Rattle.std.specs.Prelude.{◌≡◌};
    ghost use Rattle.cfm_prepare.specs.declared.fragment_fault.FragmentFault.TheVariants.{OutOfMemory};

    ghost from_gives = { λ _ e. e ≡ OutOfMemory };

    fn from(_error: AllocError) -> FragmentFault<'a> {
        FragmentFault::OutOfMemory
    }
}

impl<'a, T: Drop> From<AllocFailed<T>> for FragmentFault<'a> {
    ghost use Rattle.std.specs.Prelude.{◌≡◌};
    ghost use Rattle.cfm_prepare.specs.declared.fragment_fault.FragmentFault.TheVariants.{OutOfMemory};

    ghost from_gives = { λ _ e. e ≡ OutOfMemory };

    fn from(_error: AllocFailed<T>) -> FragmentFault<'a> {
        FragmentFault::OutOfMemory
    }
}
