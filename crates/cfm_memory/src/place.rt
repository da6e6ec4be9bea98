ghost use Rattle.std.specs.Prelude.{◌≡◌};
ghost use Rattle.cfm_memory.specs.Faults.{fault_name, fault_number};

use std::alloc::{AllocError, AllocFailed};
use std::fmt;
use thiserror::Error;

/// The place of an instance.
#[derive(Clone, Copy, Debug, PartialEq, Eq)]
pub struct Place {
    /// The address of its first byte.
    pub address: u32,
    /// The number of its readable bytes, which may be less than it takes.
    pub size: u32,
}

/// A range of addresses in which no instance is placed.
#[derive(Clone, Copy, Debug, PartialEq, Eq)]
pub struct Reserved {
    /// Its first address.
    pub from: u64,
    /// The address after its last one.
    pub to: u64,
}

/// Why an instance isn't placed, or a range isn't reserved. The text is the refusal's name.
#[derive(Clone, Copy, Debug, PartialEq, Eq, Error)]
pub enum MemoryFault {
    /// No address below the limit has room for the instance, or an address of the range is taken.
    NoRoom,
    /// An address has room, but an allocation failed.
    OutOfMemory,
}

impl MemoryFault {
    /// Returns the refusal's number: 67, which no refusal of another crate has, or 99, a failed
    /// allocation in all crates.
    pub fn number(&self) -> u32
        ensures { result ≡ fault_number self.now }
    {
        match self {
            MemoryFault::NoRoom => 67,
            MemoryFault::OutOfMemory => 99,
        }
    }

    /// Returns the refusal's name, which is its text.
    pub fn name(&self) -> &'static str
        ensures { result.now ≡ fault_name self.now }
    {
        match self {
            MemoryFault::NoRoom => "NoRoom",
            MemoryFault::OutOfMemory => "OutOfMemory",
        }
    }
}

impl fmt::Display for MemoryFault {
    ghost use Rattle.std.specs.Prelude.{Some};
    ghost use Rattle.cfm_memory.specs.Faults.{fault_name};

    ghost output = { λ fault. Some (fault_name fault) };

    fn fmt<W: fmt::Write>(&self, f: &mut fmt::Formatter<W>) -> fmt::Result {
        f.write_str(self.name())
    }
}

impl From<AllocError> for MemoryFault {
    ghost use Rattle.std.specs.Prelude.{◌≡◌};
    ghost use Rattle.cfm_memory.specs.declared.place.MemoryFault.TheVariants.{OutOfMemory};

    ghost from_gives = { λ _ e. e ≡ OutOfMemory };

    fn from(_error: AllocError) -> MemoryFault {
        MemoryFault::OutOfMemory
    }
}

impl<T: Drop> From<AllocFailed<T>> for MemoryFault {
    ghost use Rattle.std.specs.Prelude.{◌≡◌};
    ghost use Rattle.cfm_memory.specs.declared.place.MemoryFault.TheVariants.{OutOfMemory};

    ghost from_gives = { λ _ e. e ≡ OutOfMemory };

    fn from(_error: AllocFailed<T>) -> MemoryFault {
        MemoryFault::OutOfMemory
    }
}
