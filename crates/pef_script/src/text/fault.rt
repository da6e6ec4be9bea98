ghost use Rattle.std.specs.Prelude.{◌≡◌};
ghost use Rattle.pef_script.specs.Text.Faults.{fault_name, fault_number, fault_word, script_fault_earlier, script_fault_line, script_fault_name, script_fault_number, script_fault_word};
ghost use Rattle.pef_script.specs.Text.Kept.Steps.{placed_in, stopped_at};

use crate::text::earlier::earlier_of;
use crate::text::places::{Word, word_at};
use std::alloc::{AllocError, AllocFailed};
use std::fmt;
use thiserror::Error;

/// What is wrong with a line of a script, and the number of the word that is at fault. The first word of a line, such as
/// `section`, is word 0.
#[derive(Clone, Copy, Debug, PartialEq, Eq, Error)]
pub enum LineFault {
    /// No line of the grammar has this form: its words, their bytes, a name or hex digits are wrong. The word is the
    /// first that can't be read, a missing one, or the last one that is allowed if there are more.
    BadLine { word: u8 },
    /// A number is spelled in another way, or is too large here.
    BadNumber { word: u8 },
    /// A section or an import has not been declared.
    UnknownName { word: u8 },
    /// Another one of its kind has the name already.
    RepeatedName { word: u8 },
    /// The line comes after a line that must follow it. The word is the line's first.
    OutOfOrder { word: u8 },
    /// A fixup's word overlaps that of an earlier line. The word is the offset.
    Overlap { word: u8 },
    /// An image, a fixup's word or an offset passes the end of its section. The word is the hex digits or the offset.
    OutsideSection { word: u8 },
    /// There are already as many of these as a script may have. The word is the new name, or that of the section that
    /// has too many fixups.
    TooMany { word: u8 },
    /// A word isn't one of those that are allowed in its place.
    BadKind { word: u8 },
}

impl LineFault {
    /// Returns the number of the refusal.
    pub fn number(&self) -> u32
        ensures { result ≡ fault_number self.now }
    {
        match self {
            LineFault::BadLine { .. } => 41,
            LineFault::BadNumber { .. } => 42,
            LineFault::UnknownName { .. } => 43,
            LineFault::RepeatedName { .. } => 44,
            LineFault::OutOfOrder { .. } => 45,
            LineFault::Overlap { .. } => 46,
            LineFault::OutsideSection { .. } => 47,
            LineFault::TooMany { .. } => 48,
            LineFault::BadKind { .. } => 49,
        }
    }

    /// Returns the refusal's name, which is its text.
    pub fn name(&self) -> &'static str
        ensures { result.now ≡ fault_name self.now }
    {
        match self {
            LineFault::BadLine { .. } => "BadLine",
            LineFault::BadNumber { .. } => "BadNumber",
            LineFault::UnknownName { .. } => "UnknownName",
            LineFault::RepeatedName { .. } => "RepeatedName",
            LineFault::OutOfOrder { .. } => "OutOfOrder",
            LineFault::Overlap { .. } => "Overlap",
            LineFault::OutsideSection { .. } => "OutsideSection",
            LineFault::TooMany { .. } => "TooMany",
            LineFault::BadKind { .. } => "BadKind",
        }
    }

    /// Returns the number of the word that is at fault. The first word of the line is word 0.
    pub fn word(&self) -> u8
        ensures { result ≡ fault_word self.now }
    {
        match self {
            LineFault::BadLine { word }
            | LineFault::BadNumber { word }
            | LineFault::UnknownName { word }
            | LineFault::RepeatedName { word }
            | LineFault::OutOfOrder { word }
            | LineFault::Overlap { word }
            | LineFault::OutsideSection { word }
            | LineFault::TooMany { word }
            | LineFault::BadKind { word } => *word,
        }
    }
}

impl fmt::Display for LineFault {
    ghost use Rattle.std.specs.Prelude.{Some};
    ghost use Rattle.pef_script.specs.Text.Faults.{fault_name};

    ghost output = { λ fault. Some (fault_name fault) };

    fn fmt<W: fmt::Write>(&self, f: &mut fmt::Formatter<W>) -> fmt::Result {
        f.write_str(self.name())
    }
}

/// Why a text isn't a script.
#[derive(Clone, Copy, Debug, PartialEq, Eq, Error)]
pub enum ScriptFault {
    /// The first fault of the first line that has one.
    Refused {
        fault: LineFault,
        /// The number of the line, from 1.
        line: usize,
        /// The word that is at fault.
        word: Word,
        /// The number of the earlier line that the fault is about, if there is one.
        earlier: Option<usize>,
    },
    /// An allocation failed.
    OutOfMemory,
}

impl ScriptFault {
    /// Returns the number of the refusal.
    pub fn number(&self) -> u32
        ensures { result ≡ script_fault_number self.now }
    {
        match self {
            ScriptFault::Refused { fault, .. } => fault.number(),
            ScriptFault::OutOfMemory => 99,
        }
    }

    /// Returns the refusal's name.
    pub fn name(&self) -> &'static str
        ensures { result.now ≡ script_fault_name self.now }
    {
        match self {
            ScriptFault::Refused { fault, .. } => fault.name(),
            ScriptFault::OutOfMemory => "OutOfMemory",
        }
    }

    /// Returns the number of the line that was refused, from 1.
    pub fn line(&self) -> Option<usize>
        ensures { result ≡ script_fault_line self.now }
    {
        match self {
            ScriptFault::Refused { line, .. } => Some(*line),
            ScriptFault::OutOfMemory => None,
        }
    }

    /// Returns the word that is at fault, with its bytes in the text.
    pub fn word(&self) -> Option<Word>
        ensures { result ≡ script_fault_word self.now }
    {
        match self {
            ScriptFault::Refused { word, .. } => Some(*word),
            ScriptFault::OutOfMemory => None,
        }
    }

    /// Returns the number of the earlier line that the fault is about, if there is one. For `Overlap` it has the fixup
    /// that is overlapped, for `OutOfOrder` it must not come first, for `RepeatedName` it declares the name, and for
    /// `UnknownName` it declares nearly the name.
    pub fn earlier(&self) -> Option<usize>
        ensures { result ≡ script_fault_earlier self.now }
    {
        match self {
            ScriptFault::Refused { earlier, .. } => *earlier,
            ScriptFault::OutOfMemory => None,
        }
    }
}

impl fmt::Display for ScriptFault {
    ghost use Rattle.std.specs.Prelude.{Some};
    ghost use Rattle.pef_script.specs.Text.Faults.{script_fault_text};

    ghost output = { λ fault. Some (script_fault_text fault) };

    fn fmt<W: fmt::Write>(&self, f: &mut fmt::Formatter<W>) -> fmt::Result {
        match self {
            ScriptFault::Refused { fault, line, .. } => write!(f, "{fault} line {line}"),
            ScriptFault::OutOfMemory => f.write_str(self.name()),
        }
    }
}

impl From<AllocError> for ScriptFault {
    ghost use Rattle.std.specs.Prelude.{◌≡◌};
    ghost use Rattle.pef_script.specs.declared.text.fault.ScriptFault.TheVariants.{OutOfMemory};

    ghost from_gives = { λ _ e. e ≡ OutOfMemory };

    fn from(_error: AllocError) -> ScriptFault {
        ScriptFault::OutOfMemory
    }
}

/// Why a line was not read: it was refused, or an allocation failed.
#[derive(Clone, Copy)]
pub enum Stop {
    Refused(LineFault),
    OutOfMemory,
}

impl Stop {
    /// Adds the number of the line.
    pub fn at(self, line: usize) -> Stopped
        ensures { result ≡ stopped_at line self }
    {
        match self {
            Stop::Refused(fault) => Stopped::Refused { fault, line },
            Stop::OutOfMemory => Stopped::OutOfMemory,
        }
    }
}

/// Why lines were not read: one was refused, or an allocation failed.
#[derive(Clone, Copy)]
pub enum Stopped {
    Refused { fault: LineFault, line: usize },
    OutOfMemory,
}

impl Stopped {
    /// Adds the places in the text of these lines: the word at fault, and the earlier line.
    pub fn in_text(self, text: &[u8]) -> ScriptFault
        ensures { result ≡ placed_in text.now self }
    {
        match self {
            Stopped::Refused { fault, line } => ScriptFault::Refused {
                fault,
                line,
                word: word_at(text, line, fault.word()),
                earlier: earlier_of(text, line, fault),
            },
            Stopped::OutOfMemory => ScriptFault::OutOfMemory,
        }
    }
}

impl From<LineFault> for Stop {
    ghost use Rattle.std.specs.Prelude.{◌≡◌};
    ghost use Rattle.pef_script.specs.declared.text.fault.Stop.TheVariants.{Refused};

    ghost from_gives = { λ fault e. e ≡ Refused fault };

    fn from(fault: LineFault) -> Stop {
        Stop::Refused(fault)
    }
}

impl From<AllocError> for Stop {
    ghost use Rattle.std.specs.Prelude.{◌≡◌};
    ghost use Rattle.pef_script.specs.declared.text.fault.Stop.TheVariants.{OutOfMemory};

    ghost from_gives = { λ _ e. e ≡ OutOfMemory };

    fn from(_error: AllocError) -> Stop {
        Stop::OutOfMemory
    }
}

impl<T: Drop> From<AllocFailed<T>> for Stop {
    ghost use Rattle.std.specs.Prelude.{◌≡◌};
    ghost use Rattle.pef_script.specs.declared.text.fault.Stop.TheVariants.{OutOfMemory};

    ghost from_gives = { λ _ e. e ≡ OutOfMemory };

    fn from(_error: AllocFailed<T>) -> Stop {
        Stop::OutOfMemory
    }
}
