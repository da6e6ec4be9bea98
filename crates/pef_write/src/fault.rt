ghost use Rattle.std.specs.Prelude.{◌≡◌, codes};

use pef_hash::HashFault;
use pef_pidata::PackFault;
use pef_plan::PlanFault;
use std::alloc::{AllocError, AllocFailed};
use std::fmt;
use thiserror::Error;

/// Why a script was not linked.
#[derive(Clone, Copy, Debug, PartialEq, Eq, Error)]
pub enum LinkFault {
    /// An allocation failed.
    OutOfMemory,
}

impl LinkFault {
    /// Returns the number of the refusal.
    pub fn number(&self) -> u32
        ensures { result ≡ 99 }
    {
        match self {
            LinkFault::OutOfMemory => 99,
        }
    }

    /// Returns the refusal's name, which is its text.
    pub fn name(&self) -> &'static str
        ensures { result.now ≡ codes "OutOfMemory" }
    {
        match self {
            LinkFault::OutOfMemory => "OutOfMemory",
        }
    }
}

impl fmt::Display for LinkFault {
    ghost use Rattle.std.specs.Prelude.{Some, codes};

    ghost output = { λ _. Some (codes "OutOfMemory") };

    fn fmt<W: fmt::Write>(&self, f: &mut fmt::Formatter<W>) -> fmt::Result {
        f.write_str(self.name())
    }
}

impl From<AllocError> for LinkFault {
    fn from(_error: AllocError) -> LinkFault {
        LinkFault::OutOfMemory
    }
}

impl<T: Drop> From<AllocFailed<T>> for LinkFault {
    fn from(_error: AllocFailed<T>) -> LinkFault {
        LinkFault::OutOfMemory
    }
}

impl From<HashFault> for LinkFault {
    fn from(_error: HashFault) -> LinkFault {
        LinkFault::OutOfMemory
    }
}

impl From<PackFault> for LinkFault {
    fn from(_error: PackFault) -> LinkFault {
        LinkFault::OutOfMemory
    }
}

impl From<PlanFault> for LinkFault {
    fn from(_error: PlanFault) -> LinkFault {
        LinkFault::OutOfMemory
    }
}
