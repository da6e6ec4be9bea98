ghost use Rattle.std.specs.Prelude.{◌≡◌};
ghost use Rattle.pef_reloc.specs.Faults.{fault_halfword, fault_name, fault_number, fault_offset, fault_word};

use std::alloc::AllocError;
use std::fmt;
use thiserror::Error;

/// Why a relocation program is refused, or stopped.
///
/// `at` is the offset in the program's bytes of the instruction that is refused, and not of a repeat that runs it again. `word`
/// is the offset in the section of the word that the instruction asks to add to; for an instruction that only names a section it
/// is the position.
#[derive(Clone, Copy, Debug, PartialEq, Eq, Error)]
pub enum RelocFault {
    /// A halfword begins no instruction.
    BadOpcode { at: usize },
    /// The program ends inside an instruction, or inside a halfword.
    CutInstruction { at: usize },
    /// A repeat reaches back past the program's start.
    RepeatTooFar { at: usize },
    /// The halfwords that a repeat reaches back to start inside an instruction.
    RepeatCuts { at: usize },
    /// The halfwords that a repeat reaches back to include a repeat.
    NestedRepeat { at: usize },
    /// More instructions would be executed than a program may execute.
    TooManySteps { at: usize },
    /// A word would pass the end of the section.
    WordOutside { at: usize, word: u64 },
    /// An import doesn't exist.
    ImportOutside { at: usize, word: u64 },
    /// A section doesn't exist.
    SectionOutside { at: usize, word: u64 },
    /// An allocation failed.
    OutOfMemory,
}

impl RelocFault {
    /// Returns the number of the error: 31 to 39, or 99 for a failed allocation.
    pub fn number(&self) -> u32
        ensures { result ≡ fault_number self.now }
    {
        match self {
            RelocFault::BadOpcode { .. } => 31,
            RelocFault::CutInstruction { .. } => 32,
            RelocFault::RepeatTooFar { .. } => 33,
            RelocFault::RepeatCuts { .. } => 34,
            RelocFault::NestedRepeat { .. } => 35,
            RelocFault::TooManySteps { .. } => 36,
            RelocFault::WordOutside { .. } => 37,
            RelocFault::ImportOutside { .. } => 38,
            RelocFault::SectionOutside { .. } => 39,
            RelocFault::OutOfMemory => 99,
        }
    }

    /// Returns the refusal's name, which is its text.
    pub fn name(&self) -> &'static str
        ensures { result.now ≡ fault_name self.now }
    {
        match self {
            RelocFault::BadOpcode { .. } => "BadOpcode",
            RelocFault::CutInstruction { .. } => "CutInstruction",
            RelocFault::RepeatTooFar { .. } => "RepeatTooFar",
            RelocFault::RepeatCuts { .. } => "RepeatCuts",
            RelocFault::NestedRepeat { .. } => "NestedRepeat",
            RelocFault::TooManySteps { .. } => "TooManySteps",
            RelocFault::WordOutside { .. } => "WordOutside",
            RelocFault::ImportOutside { .. } => "ImportOutside",
            RelocFault::SectionOutside { .. } => "SectionOutside",
            RelocFault::OutOfMemory => "OutOfMemory",
        }
    }

    /// Returns the offset in the program's bytes of the instruction that is refused.
    pub fn offset(&self) -> Option<usize>
        ensures { result ≡ fault_offset self.now }
    {
        match *self {
            RelocFault::BadOpcode { at } => Some(at),
            RelocFault::CutInstruction { at } => Some(at),
            RelocFault::RepeatTooFar { at } => Some(at),
            RelocFault::RepeatCuts { at } => Some(at),
            RelocFault::NestedRepeat { at } => Some(at),
            RelocFault::TooManySteps { at } => Some(at),
            RelocFault::WordOutside { at, .. } => Some(at),
            RelocFault::ImportOutside { at, .. } => Some(at),
            RelocFault::SectionOutside { at, .. } => Some(at),
            RelocFault::OutOfMemory => None,
        }
    }

    /// Returns the offset in the section of the word that was to be added to.
    pub fn word(&self) -> Option<u64>
        ensures { result ≡ fault_word self.now }
    {
        match *self {
            RelocFault::WordOutside { word, .. } => Some(word),
            RelocFault::ImportOutside { word, .. } => Some(word),
            RelocFault::SectionOutside { word, .. } => Some(word),
            _ => None,
        }
    }

    /// Returns the number of the first halfword of the instruction that is refused.
    pub fn halfword(&self) -> Option<usize>
        ensures { result ≡ fault_halfword self.now }
    {
        Some(self.offset()? / 2)
    }
}

impl fmt::Display for RelocFault {
    ghost use Rattle.std.specs.Prelude.{Some};
    ghost use Rattle.pef_reloc.specs.Faults.{fault_name};

    ghost output = { λ fault. Some (fault_name fault) };

    fn fmt<W: fmt::Write>(&self, f: &mut fmt::Formatter<W>) -> fmt::Result {
        f.write_str(self.name())
    }
}

impl From<AllocError> for RelocFault {
    ghost use Rattle.std.specs.Prelude.{◌≡◌};
    ghost use Rattle.pef_reloc.specs.declared.fault.RelocFault.TheVariants.{OutOfMemory};

    ghost from_gives = { λ _ e. e ≡ OutOfMemory };

    fn from(_error: AllocError) -> RelocFault {
        RelocFault::OutOfMemory
    }
}
