//! Instructions in words and numbers.
ghost use Rattle.std.specs.Prelude.{◌≡◌, ◌∷◌, None, Some};
ghost use Rattle.std.specs.Option.{option_to_list};
ghost use Rattle.pef_reloc.specs.Meanings.{kind_name, numbers_of};

use crate::instr::Instr;

/// The numbers of an instruction.
#[derive(Clone, Copy, Debug, PartialEq, Eq)]
pub struct InstrNumbers {
    pub first: u32,
    pub second: Option<u32>,
}

impl InstrNumbers {
    /// Returns the only number of an instruction.
    fn one(first: u32) -> InstrNumbers
        ensures { result ≡ record { first = first; second = None } }
    {
        InstrNumbers {
            first,
            second: None,
        }
    }

    /// Returns the two numbers of an instruction.
    fn two(first: u32, second: u32) -> InstrNumbers
        ensures { result ≡ record { first = first; second = Some second } }
    {
        InstrNumbers {
            first,
            second: Some(second),
        }
    }
}

/// Returns the numbers of an instruction, by their meanings.
pub fn instr_numbers(instr: Instr) -> InstrNumbers
    ensures { result.first ∷ option_to_list result.second ≡ numbers_of instr }
{
    match instr {
        Instr::BySectDWithSkip { skip, count } => InstrNumbers::two(skip, count),
        Instr::SmRepeat { blocks, count } | Instr::LgRepeat { blocks, count } => {
            InstrNumbers::two(blocks, count)
        }
        Instr::BySectC(n)
        | Instr::BySectD(n)
        | Instr::TVector12(n)
        | Instr::TVector8(n)
        | Instr::VTable8(n)
        | Instr::ImportRun(n)
        | Instr::SmByImport(n)
        | Instr::SmSetSectC(n)
        | Instr::SmSetSectD(n)
        | Instr::SmBySection(n)
        | Instr::IncrPosition(n)
        | Instr::SetPosition(n)
        | Instr::LgByImport(n)
        | Instr::LgBySection(n)
        | Instr::LgSetSectC(n)
        | Instr::LgSetSectD(n) => InstrNumbers::one(n),
    }
}

/// Returns the name of an instruction's kind.
pub fn kind_name(instr: Instr) -> &'static [u8]
    ensures { result.now ≡ kind_name instr }
{
    match instr {
        Instr::BySectDWithSkip { .. } => b"BySectDWithSkip",
        Instr::BySectC(_) => b"BySectC",
        Instr::BySectD(_) => b"BySectD",
        Instr::TVector12(_) => b"TVector12",
        Instr::TVector8(_) => b"TVector8",
        Instr::VTable8(_) => b"VTable8",
        Instr::ImportRun(_) => b"ImportRun",
        Instr::SmByImport(_) => b"SmByImport",
        Instr::SmSetSectC(_) => b"SmSetSectC",
        Instr::SmSetSectD(_) => b"SmSetSectD",
        Instr::SmBySection(_) => b"SmBySection",
        Instr::IncrPosition(_) => b"IncrPosition",
        Instr::SmRepeat { .. } => b"SmRepeat",
        Instr::SetPosition(_) => b"SetPosition",
        Instr::LgByImport(_) => b"LgByImport",
        Instr::LgRepeat { .. } => b"LgRepeat",
        Instr::LgBySection(_) => b"LgBySection",
        Instr::LgSetSectC(_) => b"LgSetSectC",
        Instr::LgSetSectD(_) => b"LgSetSectD",
    }
}
