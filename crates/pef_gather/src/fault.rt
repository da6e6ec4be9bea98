use cfm_members::MemberLookupFault;
use cfm_store::StoreFault;
use std::alloc::{AllocError, AllocFailed};

/// Why there is nothing to prepare in some files.
#[derive(Clone, Copy, Debug, PartialEq, Eq)]
pub enum GatherFault<'a> {
    /// The fragments of the file at this path can't be told.
    Untold {
        path: &'a [u8],
        fault: MemberLookupFault,
    },
    /// No fragment that may be the root has its name.
    RootMissing,
    /// The fragments and their stubs are more than a store can have.
    StoreFull,
    /// An allocation failed.
    OutOfMemory,
}

impl<'a> From<AllocError> for GatherFault<'a> {
    ghost use Rattle.std.specs.Prelude.{◌≡◌};
    ghost use Rattle.pef_gather.specs.declared.fault.GatherFault.TheVariants.{OutOfMemory};

    ghost from_gives = { λ _ e. e ≡ OutOfMemory };

    fn from(_error: AllocError) -> GatherFault<'a> {
        GatherFault::OutOfMemory
    }
}

impl<'a, T: Drop> From<AllocFailed<T>> for GatherFault<'a> {
    ghost use Rattle.std.specs.Prelude.{◌≡◌};
    ghost use Rattle.pef_gather.specs.declared.fault.GatherFault.TheVariants.{OutOfMemory};

    ghost from_gives = { λ _ e. e ≡ OutOfMemory };

    fn from(_error: AllocFailed<T>) -> GatherFault<'a> {
        GatherFault::OutOfMemory
    }
}

impl<'a> From<StoreFault> for GatherFault<'a> {
    ghost use Rattle.std.specs.Prelude.{◌≡◌};
    ghost use Rattle.pef_gather.specs.declared.fault.GatherFault.TheVariants.{OutOfMemory};

    ghost from_gives = { λ _ e. e ≡ OutOfMemory };

    fn from(fault: StoreFault) -> GatherFault<'a> {
        match fault {
            StoreFault::OutOfMemory => GatherFault::OutOfMemory,
        }
    }
}
