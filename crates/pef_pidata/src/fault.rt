ghost use Rattle.std.specs.Prelude.{◌≡◌};
ghost use Rattle.pef_pidata.specs.Faults.{fault_name, fault_number, fault_offset};

use std::alloc::AllocError;
use std::fmt;
use thiserror::Error;

/// Why packed bytes don't expand, or an image can't be packed. The text is the refusal's name.
///
/// `at` is the offset in the packed bytes of the first byte of the instruction that has the fault.
#[derive(Clone, Copy, Debug, PartialEq, Eq, Error)]
pub enum PackFault {
    /// The packed bytes end inside an instruction.
    Truncated { at: usize },
    /// An instruction has an unknown opcode.
    BadOpcode { at: usize },
    /// An argument has more than 32 bits, or more than five bytes.
    CountTooLarge { at: usize },
    /// An instruction spells more bytes than are left to write.
    TooLong { at: usize },
    /// The packed bytes end before all bytes are written; `at` is their length.
    TooShort { at: usize },
    /// An allocation failed.
    OutOfMemory,
}

impl PackFault {
    /// Returns the refusal's number: 21 to 25, which no refusal of another crate has, or 99.
    pub fn number(&self) -> u32
        ensures { result ≡ fault_number self.now }
    {
        match self {
            PackFault::Truncated { .. } => 21,
            PackFault::BadOpcode { .. } => 22,
            PackFault::CountTooLarge { .. } => 23,
            PackFault::TooLong { .. } => 24,
            PackFault::TooShort { .. } => 25,
            PackFault::OutOfMemory => 99,
        }
    }

    /// Returns the refusal's name, which is its text.
    pub fn name(&self) -> &'static str
        ensures { result.now ≡ fault_name self.now }
    {
        match self {
            PackFault::Truncated { .. } => "Truncated",
            PackFault::BadOpcode { .. } => "BadOpcode",
            PackFault::CountTooLarge { .. } => "CountTooLarge",
            PackFault::TooLong { .. } => "TooLong",
            PackFault::TooShort { .. } => "TooShort",
            PackFault::OutOfMemory => "OutOfMemory",
        }
    }

    /// Returns the offset in the packed bytes at which the fault is.
    pub fn offset(&self) -> Option<usize>
        ensures { result ≡ fault_offset self.now }
    {
        match *self {
            PackFault::Truncated { at } => Some(at),
            PackFault::BadOpcode { at } => Some(at),
            PackFault::CountTooLarge { at } => Some(at),
            PackFault::TooLong { at } => Some(at),
            PackFault::TooShort { at } => Some(at),
            PackFault::OutOfMemory => None,
        }
    }
}

impl fmt::Display for PackFault {
    ghost use Rattle.std.specs.Prelude.{Some};
    ghost use Rattle.pef_pidata.specs.Faults.{fault_name};

    ghost output = { λ fault. Some (fault_name fault) };

    fn fmt<W: fmt::Write>(&self, f: &mut fmt::Formatter<W>) -> fmt::Result {
        f.write_str(self.name())
    }
}

impl From<AllocError> for PackFault {
    ghost use Rattle.std.specs.Prelude.{◌≡◌};
    ghost use Rattle.pef_pidata.specs.declared.fault.PackFault.TheVariants.{OutOfMemory};

    ghost from_gives = { λ _ e. e ≡ OutOfMemory };

    fn from(_error: AllocError) -> PackFault {
        PackFault::OutOfMemory
    }
}
