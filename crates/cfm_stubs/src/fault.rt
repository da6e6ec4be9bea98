ghost use Rattle.std.specs.Prelude.{◌≡◌};
ghost use Rattle.cfm_stubs.specs.Faults.{fault_name};

use pef_write::LinkFault;
use std::alloc::{AllocError, AllocFailed};
use std::fmt;
use thiserror::Error;

/// Why there is no stub with some symbols. The text is the name.
#[derive(Clone, Copy, Debug, PartialEq, Eq, Error)]
pub enum StubFault {
    /// There are more than 16,383 symbols.
    TooManySymbols,
    /// The name of a symbol has more than 65,535 bytes, which no export can have.
    LongName,
    /// The names have 2^24 bytes or more together. With memory they have more than 2^23 together, counting one more for each.
    TooManyNameBytes,
    /// The number of a symbol has more than 32 bits.
    PastLastNumber,
    /// With memory: the name of a symbol isn't one that a script can have.
    UnspellableName,
    /// With memory: the symbols have more than 2^24 bytes.
    TooManyBytes,
    /// An allocation failed.
    OutOfMemory,
}

impl StubFault {
    /// Returns the fault's name, which is its text.
    pub fn name(&self) -> &'static str
        ensures { result.now ≡ fault_name self.now }
    {
        match self {
            StubFault::TooManySymbols => "TooManySymbols",
            StubFault::LongName => "LongName",
            StubFault::TooManyNameBytes => "TooManyNameBytes",
            StubFault::PastLastNumber => "PastLastNumber",
            StubFault::UnspellableName => "UnspellableName",
            StubFault::TooManyBytes => "TooManyBytes",
            StubFault::OutOfMemory => "OutOfMemory",
        }
    }
}

impl fmt::Display for StubFault {
    ghost use Rattle.std.specs.Prelude.{Some};
    ghost use Rattle.cfm_stubs.specs.Faults.{fault_name};

    ghost output = { λ fault. Some (fault_name fault) };

    fn fmt<W: fmt::Write>(&self, f: &mut fmt::Formatter<W>) -> fmt::Result {
        f.write_str(self.name())
    }
}

impl From<AllocError> for StubFault {
    ghost use Rattle.std.specs.Prelude.{◌≡◌};
    ghost use Rattle.cfm_stubs.specs.declared.fault.StubFault.TheVariants.{OutOfMemory};

    ghost from_gives = { λ _ e. e ≡ OutOfMemory };

    fn from(_error: AllocError) -> StubFault {
        StubFault::OutOfMemory
    }
}

impl<T: Drop> From<AllocFailed<T>> for StubFault {
    ghost use Rattle.std.specs.Prelude.{◌≡◌};
    ghost use Rattle.cfm_stubs.specs.declared.fault.StubFault.TheVariants.{OutOfMemory};

    ghost from_gives = { λ _ e. e ≡ OutOfMemory };

    fn from(_error: AllocFailed<T>) -> StubFault {
        StubFault::OutOfMemory
    }
}

impl From<LinkFault> for StubFault {
    ghost use Rattle.std.specs.Prelude.{◌≡◌};
    ghost use Rattle.cfm_stubs.specs.declared.fault.StubFault.TheVariants.{OutOfMemory};

    ghost from_gives = { λ _ e. e ≡ OutOfMemory };

    fn from(_error: LinkFault) -> StubFault {
        StubFault::OutOfMemory
    }
}
