ghost use Rattle.std.specs.Prelude.{◌≡◌, ◌<◌, ◌+◌, ◌*◌, ◌/◌, ◌%◌, ◌∷◌, ◌++◌, IfOk, None, Some, true};
ghost use Rattle.std.specs.Option.{option_to_list};
ghost use Rattle.std.specs.Result.{IfErr, OnOk};
ghost use Rattle.pef_reloc.specs.Instrs.{halfword_bytes, halfwords_of, instr_fits, instrs_fit, spelled};
ghost use Rattle.pef_reloc.specs.declared.fault.RelocFault.TheVariants.{OutOfMemory};

use crate::fault::RelocFault;
use crate::instr::Instr;
use crate::opcode::{
    BEHIND_EIGHT_BITS, BEHIND_FOUR_BITS, BEHIND_SEVEN_BITS, BEHIND_SIX_BITS, BEHIND_TEN_BITS,
    BY_SECT_C, BY_SECT_D, IMPORT_RUN, INCR_POSITION, LG_BY_IMPORT, LG_BY_SECTION, LG_REPEAT,
    LG_SET_OR_BY_SECTION, LG_SET_SECT_C, LG_SET_SECT_D, SET_POSITION, SM_BY_IMPORT, SM_BY_SECTION,
    SM_REPEAT, SM_SET_SECT_C, SM_SET_SECT_D, T_VECTOR_8, T_VECTOR_12, V_TABLE_8,
};
use std::alloc::{AllocError, Global};

/// The halfwords of an instruction. Each is written with its high byte first.
#[derive(Clone, Copy, Debug, PartialEq, Eq)]
pub struct Spelling {
    pub first: u16,
    /// Only for instructions of two halfwords.
    pub second: Option<u16>,
}

impl Spelling {
    fn one(halfword: u32) -> Spelling
        requires { halfword < 0x10000 }
        ensures { result ≡ record { first = halfword; second = None } }
    {
        Spelling {
            first: halfword as u16,
            second: None,
        }
    }

    /// Returns the halfword of a seven-bit opcode and a nine-bit number.
    fn small(opcode: u16, number: u32) -> Spelling
        requires opcode { opcode < 128 }
        requires number { number < 512 }
        ensures { result ≡ record { first = opcode * 512 + number; second = None } }
    {
        Spelling::one(u32::from(opcode * BEHIND_SEVEN_BITS) + number)
    }

    /// Returns the halfwords of a six-bit opcode and a number of 26 bits.
    fn large(opcode: u16, number: u32) -> Spelling
        requires opcode { opcode < 64 }
        requires number { number < 0x4000000 }
        ensures { result ≡ record { first = opcode * 1024 + number / 0x10000; second = Some (number % 0x10000) } }
    {
        Spelling {
            first: opcode * BEHIND_SIX_BITS + (number / 0x1_0000) as u16,
            second: Some((number % 0x1_0000) as u16),
        }
    }

    /// Returns the halfwords of a six-bit opcode, four more bits of opcode, and a number of 22 bits.
    fn parted(opcode: u16, four: u32, number: u32) -> Spelling
        requires opcode { opcode < 64 }
        requires four { four < 16 }
        requires number { number < 0x400000 }
        ensures { result ≡ record { first = opcode * 1024 + four * 64 + number / 0x10000; second = Some (number % 0x10000) } }
    {
        Spelling::large(opcode, four * 0x40_0000 + number)
    }

    /// Returns the halfwords of an instruction on a section, by its four bits of opcode and the section.
    fn section(four: u16, section: u32) -> Spelling
        requires four { four < 16 }
        requires section { section < 0x400000 }
        ensures { result ≡ record { first = 0xB400 + four * 64 + section / 0x10000; second = Some (section % 0x10000) } }
    {
        Spelling::parted(LG_SET_OR_BY_SECTION, u32::from(four), section)
    }
}

impl Instr {
    /// Returns the halfwords that spell it, if its numbers fit.
    #[tactic(auto, unfolding(crate::specs::Instrs::halfwords_of))]
    pub fn spelling(self) -> Spelling
        requires { instr_fits self ≡ true }
        ensures { result.first ∷ option_to_list result.second ≡ halfwords_of self }
    {
        match self {
            Instr::BySectDWithSkip { skip, count } => {
                Spelling::one(skip * u32::from(BEHIND_TEN_BITS) + count)
            }
            Instr::BySectC(count) => Spelling::small(BY_SECT_C, count - 1),
            Instr::BySectD(count) => Spelling::small(BY_SECT_D, count - 1),
            Instr::TVector12(count) => Spelling::small(T_VECTOR_12, count - 1),
            Instr::TVector8(count) => Spelling::small(T_VECTOR_8, count - 1),
            Instr::VTable8(count) => Spelling::small(V_TABLE_8, count - 1),
            Instr::ImportRun(count) => Spelling::small(IMPORT_RUN, count - 1),
            Instr::SmByImport(index) => Spelling::small(SM_BY_IMPORT, index),
            Instr::SmSetSectC(index) => Spelling::small(SM_SET_SECT_C, index),
            Instr::SmSetSectD(index) => Spelling::small(SM_SET_SECT_D, index),
            Instr::SmBySection(index) => Spelling::small(SM_BY_SECTION, index),
            Instr::IncrPosition(bytes) => {
                Spelling::one(u32::from(INCR_POSITION * BEHIND_FOUR_BITS) + (bytes - 1))
            }
            Instr::SmRepeat { blocks, count } => {
                Spelling::one(
                    u32::from(SM_REPEAT * BEHIND_FOUR_BITS)
                        + (blocks - 1) * u32::from(BEHIND_EIGHT_BITS)
                        + (count - 1),
                )
            }
            Instr::SetPosition(offset) => Spelling::large(SET_POSITION, offset),
            Instr::LgByImport(index) => Spelling::large(LG_BY_IMPORT, index),
            Instr::LgRepeat { blocks, count } => Spelling::parted(LG_REPEAT, blocks - 1, count),
            Instr::LgBySection(index) => Spelling::section(LG_BY_SECTION, index),
            Instr::LgSetSectC(index) => Spelling::section(LG_SET_SECT_C, index),
            Instr::LgSetSectD(index) => Spelling::section(LG_SET_SECT_D, index),
        }
    }
}

/// Returns the bytes of some instructions, in order.
///
/// # Errors
///
/// Only `OutOfMemory`.
pub fn encode(alloc: Global, instrs: &[Instr]) -> Result<Vec<u8>, RelocFault>
    requires { instrs_fit instrs.now ≡ true }
    ensures bytes { IfOk result (λ v. v.items ≡ spelled instrs.now) }
    ensures memory { IfErr result (λ e. e ≡ OutOfMemory) }
{
    let mut bytes = Vec::new(alloc);
    for instr in instrs {
        append(&mut bytes, instr.spelling())?;
    }
    Ok(bytes)
}

/// Appends the bytes of an instruction.
fn append(bytes: &mut Vec<u8>, spelling: Spelling) -> Result<(), AllocError>
    ensures { OnOk result (bytes.new.items ≡ bytes.old.items ++ halfword_bytes (spelling.first ∷ option_to_list spelling.second)) }
{
    bytes.extend_from_slice(&spelling.first.to_be_bytes())?;
    if let Some(second) = spelling.second {
        bytes.extend_from_slice(&second.to_be_bytes())?;
    }
    Ok(())
}
