use cfm_members::MemberLookupFault;
use std::alloc::{AllocError, AllocFailed};
use thiserror::Error;

/// Why there are no fragments of a file.
#[derive(Clone, Copy, Debug, PartialEq, Eq, Error)]
pub enum FragmentsFault {
    /// The file's forks, its table of fragments or a member of it can't be read, or it has no fragment.
    #[error(transparent)]
    Lookup(MemberLookupFault),
    /// An allocation failed.
    #[error("OutOfMemory")]
    OutOfMemory,
}

impl From<AllocError> for FragmentsFault {
    ghost use Rattle.std.specs.Prelude.{◌≡◌};
    ghost use Rattle.mac_fragments.specs.declared.fault.FragmentsFault.TheVariants.{OutOfMemory};

    ghost from_gives = { λ _ e. e ≡ OutOfMemory };

    fn from(_error: AllocError) -> FragmentsFault {
        FragmentsFault::OutOfMemory
    }
}

impl<T: Drop> From<AllocFailed<T>> for FragmentsFault {
    ghost use Rattle.std.specs.Prelude.{◌≡◌};
    ghost use Rattle.mac_fragments.specs.declared.fault.FragmentsFault.TheVariants.{OutOfMemory};

    ghost from_gives = { λ _ e. e ≡ OutOfMemory };

    fn from(_error: AllocFailed<T>) -> FragmentsFault {
        FragmentsFault::OutOfMemory
    }
}
