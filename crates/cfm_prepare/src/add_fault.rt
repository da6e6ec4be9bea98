ghost use Rattle.std.specs.Prelude.{◌≡◌};
ghost use Rattle.cfm_prepare.specs.Faults.{add_fault_name, add_fault_number};

use std::fmt;
use thiserror::Error;

/// Why a fragment isn't added to a context. The text is the refusal's name.
#[derive(Clone, Copy, Debug, PartialEq, Eq, Error)]
pub enum AddFault {
    /// A fragment of an open connection was prepared without a library of this name, which is weak and was
    /// missing.
    AddedTooLate,

    /// The store has as many fragments as it may have.
    StoreFull,

    /// An allocation failed.
    OutOfMemory,
}

impl AddFault {
    /// Returns the refusal's number.
    pub fn number(&self) -> u32
        ensures { result ≡ add_fault_number self.now }
    {
        match self {
            AddFault::AddedTooLate => 203,
            AddFault::StoreFull => 204,
            AddFault::OutOfMemory => 99,
        }
    }

    /// Returns the refusal's name, which is its text.
    pub fn name(&self) -> &'static str
        ensures { result.now ≡ add_fault_name self.now }
    {
        match self {
            AddFault::AddedTooLate => "AddedTooLate",
            AddFault::StoreFull => "StoreFull",
            AddFault::OutOfMemory => "OutOfMemory",
        }
    }
}

impl fmt::Display for AddFault {
    ghost use Rattle.std.specs.Prelude.{Some};
    ghost use Rattle.cfm_prepare.specs.Faults.{add_fault_name};

    ghost output = { λ fault. Some (add_fault_name fault) };

    fn fmt<W: fmt::Write>(&self, f: &mut fmt::Formatter<W>) -> fmt::Result {
        f.write_str(self.name())
    }
}
