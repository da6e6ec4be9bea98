ghost use Rattle.std.specs.Prelude.{◌≡◌};
ghost use Rattle.cfm_closure.specs.Faults.{fault_name, fault_number, fault_place};

use crate::versions::{Definition, Implementation};
use pef_format::Place;
use pef_loader::LoaderFault;
use pef_views::ViewFault;
use std::alloc::{AllocError, AllocFailed};
use std::fmt;
use thiserror::Error;

/// Why a fragment has no closure. The text is the refusal's name. The fields are the names of fragments,
/// of their libraries and of their symbols, and the place in the fragment's container.
///
/// A closure order is refused for the first two, for a missing library, and for versions. The targets of
/// its imports and the order of initialization are refused for the others.
#[derive(Clone, Copy, Debug, PartialEq, Eq, Error)]
pub enum BindFault<'a> {
    /// The fragment's bytes aren't a container.
    Container {
        fragment: &'a [u8],
        fault: ViewFault,
    },

    /// The fragment's loader section breaks a rule.
    Loader {
        fragment: &'a [u8],
        fault: LoaderFault,
        place: Place,
    },

    /// The fragment needs a library that the store doesn't have.
    LibraryMissing {
        fragment: &'a [u8],
        library: &'a [u8],
        place: Place,
    },

    /// The fragment needs a symbol that the library doesn't export.
    SymbolMissing {
        fragment: &'a [u8],
        library: &'a [u8],
        symbol: &'a [u8],
        place: Place,
    },

    /// The library that was found is older than the fragment accepts.
    ImplementationTooOld {
        fragment: &'a [u8],
        library: &'a [u8],
        place: Place,
        needed: Definition,
        found: Implementation,
    },

    /// The library that was found no longer serves a fragment that was linked with so old a library.
    ImplementationTooNew {
        fragment: &'a [u8],
        library: &'a [u8],
        place: Place,
        needed: Definition,
        found: Implementation,
    },

    /// The symbol leads from one re-exported import to the next, without end.
    ReexportLoop {
        fragment: &'a [u8],
        symbol: &'a [u8],
        place: Place,
    },

    /// The fragment must be initialized after a library that must be initialized after it.
    InitLoop {
        fragment: &'a [u8],
        place: Place,
    },

    /// An allocation failed.
    OutOfMemory,
}

impl<'a> BindFault<'a> {
    /// Returns the refusal's number, which no refusal of another meaning has: that of the container or
    /// the loader section, or from 61 to 66, or 99.
    pub fn number(&self) -> u32
        ensures { result ≡ fault_number self.now }
    {
        match self {
            BindFault::Container { fault, .. } => fault.number(),
            BindFault::Loader { fault, .. } => fault.number(),
            BindFault::LibraryMissing { .. } => 61,
            BindFault::SymbolMissing { .. } => 62,
            BindFault::ImplementationTooOld { .. } => 63,
            BindFault::ImplementationTooNew { .. } => 64,
            BindFault::ReexportLoop { .. } => 65,
            BindFault::InitLoop { .. } => 66,
            BindFault::OutOfMemory => 99,
        }
    }

    /// Returns the refusal's name, which is its text.
    pub fn name(&self) -> &'static str
        ensures { result.now ≡ fault_name self.now }
    {
        match self {
            BindFault::Container { fault, .. } => fault.name(),
            BindFault::Loader { fault, .. } => fault.name(),
            BindFault::LibraryMissing { .. } => "LibraryMissing",
            BindFault::SymbolMissing { .. } => "SymbolMissing",
            BindFault::ImplementationTooOld { .. } => "ImplementationTooOld",
            BindFault::ImplementationTooNew { .. } => "ImplementationTooNew",
            BindFault::ReexportLoop { .. } => "ReexportLoop",
            BindFault::InitLoop { .. } => "InitLoop",
            BindFault::OutOfMemory => "OutOfMemory",
        }
    }

    /// Returns the place of the refusal in the container of the fragment that it names.
    ///
    /// It is the entry's field of the library or the import. `None` if an allocation failed, or if the container breaks
    /// a rule that is about no field.
    pub fn place(&self) -> Option<Place>
        ensures { result ≡ fault_place self.now }
    {
        match *self {
            BindFault::Container { fault, .. } => fault.place(),
            BindFault::Loader { place, .. }
            | BindFault::LibraryMissing { place, .. }
            | BindFault::SymbolMissing { place, .. }
            | BindFault::ImplementationTooOld { place, .. }
            | BindFault::ImplementationTooNew { place, .. }
            | BindFault::ReexportLoop { place, .. }
            | BindFault::InitLoop { place, .. } => Some(place),
            BindFault::OutOfMemory => None,
        }
    }
}

impl<'a> fmt::Display for BindFault<'a> {
    ghost use Rattle.std.specs.Prelude.{Some};
    ghost use Rattle.cfm_closure.specs.Faults.{fault_name};

    ghost output = { λ fault. Some (fault_name fault) };

    fn fmt<W: fmt::Write>(&self, f: &mut fmt::Formatter<W>) -> fmt::Result {
        f.write_str(self.name())
    }
}

impl<'a> From<AllocError> for BindFault<'a> {
    ghost use Rattle.std.specs.Prelude.{◌≡◌};
    ghost use Rattle.cfm_closure.specs.declared.fault.BindFault.TheVariants.{OutOfMemory};

    ghost from_gives = { λ _ e. e ≡ OutOfMemory };

    fn from(_error: AllocError) -> BindFault<'a> {
        BindFault::OutOfMemory
    }
}

impl<'a, T: Drop> From<AllocFailed<T>> for BindFault<'a> {
    ghost use Rattle.std.specs.Prelude.{◌≡◌};
    ghost use Rattle.cfm_closure.specs.declared.fault.BindFault.TheVariants.{OutOfMemory};

    ghost from_gives = { λ _ e. e ≡ OutOfMemory };

    fn from(_error: AllocFailed<T>) -> BindFault<'a> {
        BindFault::OutOfMemory
    }
}
