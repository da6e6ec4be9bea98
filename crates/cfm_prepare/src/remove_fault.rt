ghost use Rattle.std.specs.Prelude.{◌≡◌};
ghost use Rattle.cfm_prepare.specs.Faults.{remove_fault_name, remove_fault_number};

use std::fmt;
use thiserror::Error;

/// Why a fragment isn't removed from a context. The text is the refusal's name.
#[derive(Clone, Copy, Debug, PartialEq, Eq, Error)]
pub enum RemoveFault {
    /// The store has no fragment with this name.
    RootMissing,

    /// The fragment is present: the closure of an open connection has it.
    StillPresent,

    /// A fragment of an open connection's closure has a library entry with this name.
    StillNamed,

    /// An allocation failed.
    OutOfMemory,
}

impl RemoveFault {
    /// Returns the refusal's number.
    pub fn number(&self) -> u32
        ensures { result ≡ remove_fault_number self.now }
    {
        match self {
            RemoveFault::RootMissing => 60,
            RemoveFault::StillPresent => 207,
            RemoveFault::StillNamed => 208,
            RemoveFault::OutOfMemory => 99,
        }
    }

    /// Returns the refusal's name, which is its text.
    pub fn name(&self) -> &'static str
        ensures { result.now ≡ remove_fault_name self.now }
    {
        match self {
            RemoveFault::RootMissing => "RootMissing",
            RemoveFault::StillPresent => "StillPresent",
            RemoveFault::StillNamed => "StillNamed",
            RemoveFault::OutOfMemory => "OutOfMemory",
        }
    }
}

impl fmt::Display for RemoveFault {
    ghost use Rattle.std.specs.Prelude.{Some};
    ghost use Rattle.cfm_prepare.specs.Faults.{remove_fault_name};

    ghost output = { λ fault. Some (remove_fault_name fault) };

    fn fmt<W: fmt::Write>(&self, f: &mut fmt::Formatter<W>) -> fmt::Result {
        f.write_str(self.name())
    }
}
