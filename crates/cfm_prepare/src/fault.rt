ghost use Rattle.std.specs.Prelude.{◌≡◌};
ghost use Rattle.cfm_prepare.specs.Faults.{close_fault_name, close_fault_number, fault_name, fault_number, fault_place};

use crate::fragment_fault::FragmentFault;
use cfm_closure::BindFault;
use pef_format::Place;
use std::alloc::{AllocError, AllocFailed};
use std::fmt;
use thiserror::Error;

/// Why a fragment isn't prepared. The text is the refusal's name.
#[derive(Clone, Copy, Debug, PartialEq, Eq, Error)]
pub enum PrepareFault<'a> {
    /// All numbers of connections were given.
    TooManyConnections,

    /// The store has no fragment with this name.
    RootMissing,

    /// The fragment has no closure.
    Bind(BindFault<'a>),

    /// With this fragment the new fragments of the closure take more bytes than the context allows.
    TooManyBytes { fragment: &'a [u8] },

    /// With this fragment their relocation programs take more steps than the context allows.
    TooManyStepsInAll { fragment: &'a [u8] },

    /// The new fragments of the closure can't be prepared.
    Fragment(FragmentFault<'a>),

    /// An allocation failed.
    OutOfMemory,
}

impl<'a> PrepareFault<'a> {
    /// Returns the refusal's number: 69, 60, 75, 70, that of the closure's or of a fragment's refusal,
    /// or 99.
    pub fn number(&self) -> u32
        ensures { result ≡ fault_number self.now }
    {
        match self {
            PrepareFault::TooManyConnections => 69,
            PrepareFault::RootMissing => 60,
            PrepareFault::Bind(fault) => fault.number(),
            PrepareFault::TooManyBytes { .. } => 75,
            PrepareFault::TooManyStepsInAll { .. } => 70,
            PrepareFault::Fragment(fault) => fault.number(),
            PrepareFault::OutOfMemory => 99,
        }
    }

    /// Returns the refusal's name, which is its text.
    pub fn name(&self) -> &'static str
        ensures { result.now ≡ fault_name self.now }
    {
        match self {
            PrepareFault::TooManyConnections => "TooManyConnections",
            PrepareFault::RootMissing => "RootMissing",
            PrepareFault::Bind(fault) => fault.name(),
            PrepareFault::TooManyBytes { .. } => "TooManyBytes",
            PrepareFault::TooManyStepsInAll { .. } => "TooManyStepsInAll",
            PrepareFault::Fragment(fault) => fault.name(),
            PrepareFault::OutOfMemory => "OutOfMemory",
        }
    }

    /// Returns the place of the refusal in a fragment's container, if it is about a field.
    pub fn place(&self) -> Option<Place>
        ensures { result ≡ fault_place self.now }
    {
        match self {
            PrepareFault::Bind(fault) => fault.place(),
            PrepareFault::Fragment(fault) => fault.place(),
            PrepareFault::TooManyConnections
            | PrepareFault::RootMissing
            | PrepareFault::TooManyBytes { .. }
            | PrepareFault::TooManyStepsInAll { .. }
            | PrepareFault::OutOfMemory => None,
        }
    }
}

impl<'a> fmt::Display for PrepareFault<'a> {
    ghost use Rattle.std.specs.Prelude.{Some};
    ghost use Rattle.cfm_prepare.specs.Faults.{fault_name};

    ghost output = { λ fault. Some (fault_name fault) };

    fn fmt<W: fmt::Write>(&self, f: &mut fmt::Formatter<W>) -> fmt::Result {
        f.write_str(self.name())
    }
}

impl<'a> From<BindFault<'a>> for PrepareFault<'a> {
    ghost use Rattle.std.specs.Prelude.{◌≡◌};
    ghost use Rattle.cfm_prepare.specs.declared.fault.PrepareFault.TheVariants as prepare_fault;

    ghost from_gives = { λ fault e. e ≡ prepare_fault.Bind fault };

    fn from(fault: BindFault<'a>) -> PrepareFault<'a> {
        PrepareFault::Bind(fault)
    }
}

impl<'a> From<FragmentFault<'a>> for PrepareFault<'a> {
    ghost use Rattle.std.specs.Prelude.{◌≡◌};
    ghost use Rattle.cfm_prepare.specs.declared.fault.PrepareFault.TheVariants as prepare_fault;

    ghost from_gives = { λ fault e. e ≡ prepare_fault.Fragment fault };

    fn from(fault: FragmentFault<'a>) -> PrepareFault<'a> {
        PrepareFault::Fragment(fault)
    }
}

impl<'a> From<AllocError> for PrepareFault<'a> {
    ghost use Rattle.std.specs.Prelude.{◌≡◌};
    ghost use Rattle.cfm_prepare.specs.declared.fault.PrepareFault.TheVariants.{OutOfMemory};

    ghost from_gives = { λ _ e. e ≡ OutOfMemory };

    fn from(_error: AllocError) -> PrepareFault<'a> {
        PrepareFault::OutOfMemory
    }
}

impl<'a, T: Drop> From<AllocFailed<T>> for PrepareFault<'a> {
    ghost use Rattle.std.specs.Prelude.{◌≡◌};
    ghost use Rattle.cfm_prepare.specs.declared.fault.PrepareFault.TheVariants.{OutOfMemory};

    ghost from_gives = { λ _ e. e ≡ OutOfMemory };

    fn from(_error: AllocFailed<T>) -> PrepareFault<'a> {
        PrepareFault::OutOfMemory
    }
}

/// Why a connection isn't closed. The text is the refusal's name.
#[derive(Clone, Copy, Debug, PartialEq, Eq, Error)]
pub enum CloseFault {
    /// No open connection has this number.
    BadConnection,
}

impl CloseFault {
    /// Returns the refusal's number.
    pub fn number(&self) -> u32
        ensures { result ≡ close_fault_number self.now }
    {
        match self {
            CloseFault::BadConnection => 68,
        }
    }

    /// Returns the refusal's name, which is its text.
    pub fn name(&self) -> &'static str
        ensures { result.now ≡ close_fault_name self.now }
    {
        match self {
            CloseFault::BadConnection => "BadConnection",
        }
    }
}

impl fmt::Display for CloseFault {
    ghost use Rattle.std.specs.Prelude.{Some};
    ghost use Rattle.cfm_prepare.specs.Faults.{close_fault_name};

    ghost output = { λ fault. Some (close_fault_name fault) };

    fn fmt<W: fmt::Write>(&self, f: &mut fmt::Formatter<W>) -> fmt::Result {
        f.write_str(self.name())
    }
}
