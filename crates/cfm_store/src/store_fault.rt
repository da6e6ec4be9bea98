ghost use Rattle.std.specs.Prelude.{◌≡◌};
ghost use Rattle.cfm_store.specs.StoreFaults.{fault_name, fault_number};

use std::alloc::{AllocError, AllocFailed};
use std::fmt;
use thiserror::Error;

/// Why a pair isn't added to a store.
#[derive(Clone, Copy, Debug, PartialEq, Eq, Error)]
pub enum StoreFault {
    /// An allocation failed.
    OutOfMemory,
}

impl StoreFault {
    /// Returns the refusal's number.
    pub fn number(&self) -> u32
        ensures { result ≡ fault_number self.now }
    {
        match self {
            StoreFault::OutOfMemory => 99,
        }
    }

    /// Returns the refusal's name, which is its text.
    pub fn name(&self) -> &'static str
        ensures { result.now ≡ fault_name self.now }
    {
        match self {
            StoreFault::OutOfMemory => "OutOfMemory",
        }
    }
}

impl fmt::Display for StoreFault {
    ghost use Rattle.std.specs.Prelude.{Some};
    ghost use Rattle.cfm_store.specs.StoreFaults.{fault_name};

    ghost output = { λ fault. Some (fault_name fault) };

    fn fmt<W: fmt::Write>(&self, f: &mut fmt::Formatter<W>) -> fmt::Result {
        f.write_str(self.name())
    }
}

impl From<AllocError> for StoreFault {
    fn from(_error: AllocError) -> StoreFault {
        StoreFault::OutOfMemory
    }
}

impl<T: Drop> From<AllocFailed<T>> for StoreFault {
    fn from(_error: AllocFailed<T>) -> StoreFault {
        StoreFault::OutOfMemory
    }
}
