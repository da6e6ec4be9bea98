ghost use Rattle.std.specs.Prelude.{◌≡◌};
ghost use Rattle.pef_reloc.specs.Applied.{fault_at};

use crate::fault::RelocFault;

/// Why an instruction is stopped, with the offset in the section of the word that it asks to add to.
#[derive(Clone, Copy, Debug, PartialEq, Eq)]
pub enum Stop {
    /// The word would pass the end of the section.
    PastEnd(u64),
    /// The import to be added to it doesn't exist.
    NoImport(u64),
    /// The section doesn't exist.
    NoSection(u64),
}

impl Stop {
    /// Returns the fault of the instruction at `at`.
    pub fn fault(self, at: usize) -> RelocFault
        ensures { result ≡ fault_at at self }
    {
        match self {
            Stop::PastEnd(word) => RelocFault::WordOutside { at, word },
            Stop::NoImport(word) => RelocFault::ImportOutside { at, word },
            Stop::NoSection(word) => RelocFault::SectionOutside { at, word },
        }
    }
}
