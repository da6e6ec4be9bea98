ghost use Rattle.std.specs.Prelude.{◌≡◌, ◌<◌, ◌≤◌, ◌+◌, ◌*◌, ◌^◌, IfOk, IfSome, drop, length, true};
ghost use Rattle.pef_reloc.specs.Instrs.{instr_fits, instr_length};
ghost use Rattle.pef_reloc.specs.Decoding.{first_instr, long_instr, opcode_instr, section_instr, short_instr};

use crate::fault::RelocFault;
use crate::instr::Instr;
use crate::opcode::{
    BEHIND_EIGHT_BITS, BEHIND_FOUR_BITS, BEHIND_SEVEN_BITS, BEHIND_SIX_BITS, BEHIND_TEN_BITS,
    BY_SECT_C, BY_SECT_D, FOUR_BITS, IMPORT_RUN, INCR_POSITION, LG_BY_IMPORT, LG_BY_SECTION,
    LG_REPEAT, LG_SET_OR_BY_SECTION, LG_SET_SECT_C, LG_SET_SECT_D, SET_POSITION, SKIP_END,
    SM_BY_IMPORT, SM_BY_SECTION, SM_REPEAT, SM_SET_SECT_C, SM_SET_SECT_D, T_VECTOR_8, T_VECTOR_12,
    V_TABLE_8,
};
use pef_words::Cut;

/// Returns the instruction at the start of the bytes, which are those of a program from `at` on.
///
/// # Errors
///
/// `BadOpcode` if its first halfword begins no instruction, and `CutInstruction` if the bytes end
/// inside it.
#[inline(always)]
#[tactic(auto, using(crate::proofs::Halfwords::number_inside, crate::proofs::Beginnings::begins_with), unfolding(crate::specs::Decoding::first_instr))]
pub(crate) fn first_instr(at: usize, bytes: &[u8]) -> Result<Instr, RelocFault>
    ensures value { result ≡ first_instr at bytes.now }
    ensures fits { IfOk result (λ x. instr_fits x ≡ true) }
    ensures inside { IfOk result (λ x. 2 * instr_length x ≤ length bytes.now) }
{
    let cut = Cut::new(bytes);
    let first = cut.u16_at(0).ok_or(RelocFault::CutInstruction { at })?;
    if let Some(instr) = short_instr(first) {
        return Ok(instr);
    }
    // The first halfword alone decides whether there is an instruction.
    let second = cut.u16_at(2);
    let instr = long_instr(first, second.unwrap_or(0)).ok_or(RelocFault::BadOpcode { at })?;
    match second {
        Some(_) => Ok(instr),
        None => Err(RelocFault::CutInstruction { at }),
    }
}

/// Returns the instruction that begins the bytes from `at`.
///
/// Inlined with its callees, so that a loop over instructions finds the kind of each by one jump.
#[inline(always)]
pub(crate) fn instr_from(bytes: &[u8], at: usize) -> Result<Instr, RelocFault>
    requires { at ≤ length bytes.now }
    ensures value { result ≡ first_instr at (drop at bytes.now) }
    ensures fits { IfOk result (λ x. instr_fits x ≡ true) }
    ensures inside { IfOk result (λ x. at + 2 * instr_length x ≤ length bytes.now) }
{
    let (_, rest) = bytes.split_at(at);
    first_instr(at, rest)
}

/// Returns the instruction of one halfword, if that is one.
#[inline(always)]
#[tactic(auto, unfolding(crate::specs::Decoding::short_instr))]
fn short_instr(halfword: u16) -> Option<Instr>
    ensures value { result ≡ short_instr halfword }
    ensures fits { IfSome result (λ x. instr_fits x ≡ true) }
    ensures length { IfSome result (λ x. instr_length x ≡ 1) }
{
    match halfword / BEHIND_FOUR_BITS {
        0..SKIP_END => Some(Instr::BySectDWithSkip {
            skip: u32::from(halfword / BEHIND_TEN_BITS),
            count: u32::from(halfword % BEHIND_TEN_BITS),
        }),
        INCR_POSITION => Some(Instr::IncrPosition(u32::from(halfword % BEHIND_FOUR_BITS) + 1)),
        SM_REPEAT => Some(Instr::SmRepeat {
            blocks: u32::from(halfword / BEHIND_EIGHT_BITS % FOUR_BITS) + 1,
            count: u32::from(halfword % BEHIND_EIGHT_BITS) + 1,
        }),
        _ => opcode_instr(
            halfword / BEHIND_SEVEN_BITS,
            u32::from(halfword % BEHIND_SEVEN_BITS),
        ),
    }
}

/// Returns the instruction of a seven-bit opcode and a nine-bit number.
#[inline(always)]
fn opcode_instr(opcode: u16, number: u32) -> Option<Instr>
    requires { number < 512 }
    ensures value { result ≡ opcode_instr opcode number }
    ensures fits { IfSome result (λ x. instr_fits x ≡ true) }
    ensures length { IfSome result (λ x. instr_length x ≡ 1) }
{
    match opcode {
        BY_SECT_C => Some(Instr::BySectC(number + 1)),
        BY_SECT_D => Some(Instr::BySectD(number + 1)),
        T_VECTOR_12 => Some(Instr::TVector12(number + 1)),
        T_VECTOR_8 => Some(Instr::TVector8(number + 1)),
        V_TABLE_8 => Some(Instr::VTable8(number + 1)),
        IMPORT_RUN => Some(Instr::ImportRun(number + 1)),
        SM_BY_IMPORT => Some(Instr::SmByImport(number)),
        SM_SET_SECT_C => Some(Instr::SmSetSectC(number)),
        SM_SET_SECT_D => Some(Instr::SmSetSectD(number)),
        SM_BY_SECTION => Some(Instr::SmBySection(number)),
        _ => None,
    }
}

/// Returns the instruction of two halfwords, if the first one begins one.
#[tactic(auto, unfolding(crate::specs::Decoding::long_instr))]
fn long_instr(first: u16, second: u16) -> Option<Instr>
    ensures value { result ≡ long_instr first second }
    ensures fits { IfSome result (λ x. instr_fits x ≡ true) }
    ensures length { IfSome result (λ x. instr_length x ≡ 2) }
{
    let low = u32::from(second);
    let number = u32::from(first % BEHIND_SIX_BITS) * 0x1_0000 + low;
    let index = u32::from(first % BEHIND_TEN_BITS) * 0x1_0000 + low;
    let four = first / BEHIND_TEN_BITS % FOUR_BITS;
    match first / BEHIND_SIX_BITS {
        SET_POSITION => Some(Instr::SetPosition(number)),
        LG_BY_IMPORT => Some(Instr::LgByImport(number)),
        LG_REPEAT => Some(Instr::LgRepeat {
            blocks: u32::from(four) + 1,
            count: index,
        }),
        LG_SET_OR_BY_SECTION => section_instr(four, index),
        _ => None,
    }
}

/// Returns the instruction on a section of a four-bit opcode.
fn section_instr(opcode: u16, section: u32) -> Option<Instr>
    requires { section < 2 ^ 22 }
    ensures value { result ≡ section_instr opcode section }
    ensures fits { IfSome result (λ x. instr_fits x ≡ true) }
    ensures length { IfSome result (λ x. instr_length x ≡ 2) }
{
    match opcode {
        LG_BY_SECTION => Some(Instr::LgBySection(section)),
        LG_SET_SECT_C => Some(Instr::LgSetSectC(section)),
        LG_SET_SECT_D => Some(Instr::LgSetSectD(section)),
        _ => None,
    }
}
