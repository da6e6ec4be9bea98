ghost use Rattle.std.specs.Prelude.{◌≡◌};
ghost use Rattle.pef_hash.specs.Faults.{fault_name, fault_number};

use std::alloc::{AllocError, AllocFailed};
use std::fmt;
use thiserror::Error;

/// Why no table was built.
#[derive(Clone, Copy, Debug, PartialEq, Eq, Error)]
pub enum HashFault {
    /// An allocation failed.
    OutOfMemory,
}

impl HashFault {
    /// Returns the number of the refusal.
    pub fn number(&self) -> u32
        ensures { result ≡ fault_number self.now }
    {
        match self {
            HashFault::OutOfMemory => 99,
        }
    }

    /// Returns the refusal's name, which is its text.
    pub fn name(&self) -> &'static str
        ensures { result.now ≡ fault_name self.now }
    {
        match self {
            HashFault::OutOfMemory => "OutOfMemory",
        }
    }
}

impl fmt::Display for HashFault {
    ghost use Rattle.std.specs.Prelude.{Some};
    ghost use Rattle.pef_hash.specs.Faults.{fault_name};

    ghost output = { λ fault. Some (fault_name fault) };

    fn fmt<W: fmt::Write>(&self, f: &mut fmt::Formatter<W>) -> fmt::Result {
        f.write_str(self.name())
    }
}

impl From<AllocError> for HashFault {
    fn from(_error: AllocError) -> HashFault {
        HashFault::OutOfMemory
    }
}

impl<T: Drop> From<AllocFailed<T>> for HashFault {
    fn from(_error: AllocFailed<T>) -> HashFault {
        HashFault::OutOfMemory
    }
}
