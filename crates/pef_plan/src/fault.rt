ghost use Rattle.std.specs.Prelude.{◌≡◌};
ghost use Rattle.pef_plan.specs.Faults.{fault_name, fault_number};

use std::alloc::{AllocError, AllocFailed};
use std::fmt;
use thiserror::Error;

/// The reason why planning failed.
#[derive(Clone, Copy, Debug, PartialEq, Eq, Error)]
pub enum PlanFault {
    /// An allocation failed.
    OutOfMemory,
}

impl PlanFault {
    /// Returns the error's number.
    pub fn number(&self) -> u32
        ensures { result ≡ fault_number self.now }
    {
        match self {
            PlanFault::OutOfMemory => 99,
        }
    }

    /// Returns the error's name, which is also its text.
    pub fn name(&self) -> &'static str
        ensures { result.now ≡ fault_name self.now }
    {
        match self {
            PlanFault::OutOfMemory => "OutOfMemory",
        }
    }
}

impl fmt::Display for PlanFault {
    ghost use Rattle.std.specs.Prelude.{Some};
    ghost use Rattle.pef_plan.specs.Faults.{fault_name};

    ghost output = { λ fault. Some (fault_name fault) };

    fn fmt<W: fmt::Write>(&self, f: &mut fmt::Formatter<W>) -> fmt::Result {
        f.write_str(self.name())
    }
}

impl From<AllocError> for PlanFault {
    fn from(_error: AllocError) -> PlanFault {
        PlanFault::OutOfMemory
    }
}

impl<T: Drop> From<AllocFailed<T>> for PlanFault {
    fn from(_error: AllocFailed<T>) -> PlanFault {
        PlanFault::OutOfMemory
    }
}
