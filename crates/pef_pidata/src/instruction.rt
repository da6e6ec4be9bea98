ghost use Rattle.std.specs.Prelude.{◌≡◌, ◌+◌, ◌*◌, ◌<◌, ◌≤◌, ◌^◌, length, IfOk};
ghost use Rattle.pef_words.specs.Refusals.{result_map};
ghost use Rattle.pef_pidata.specs.Pattern.{copied_len, spelled_len, woven_len};
ghost use Rattle.pef_pidata.specs.Instructions.{by_opcode, next_instruction, woven_arguments};
ghost use Rattle.pef_pidata.specs.Kept.Views.{instruction_seen};

use crate::argument::{read_argument, read_count};
use crate::fault::PackFault;

/// An instruction's first byte has its opcode in the high three bits, and a count below this one in the low.
pub(crate) const COUNTS: u8 = 32;

// The opcodes (kPEFPkDataZero, kPEFPkDataBlock, kPEFPkDataRepeat, kPEFPkDataRepeatBlock and
// kPEFPkDataRepeatZero).
pub(crate) const ZERO: u8 = 0;

pub(crate) const BLOCK: u8 = 1;

const REPEAT: u8 = 2;

const REPEAT_BLOCK: u8 = 3;

const REPEAT_ZERO: u8 = 4;

/// Custom parts, with a common part before each and after the last.
#[derive(Clone, Copy)]
pub(crate) struct Woven {
    /// How many bytes the common part has.
    pub common: u32,
    /// How many bytes each custom part has.
    pub custom: u32,
    /// How many custom parts there are.
    pub parts: u32,
}

/// An instruction with its arguments, each below 2^32.
#[derive(Clone, Copy)]
pub(crate) enum Instruction {
    /// This many zero bytes.
    Zeros(u32),
    /// This many bytes, which follow.
    Block(u32),
    /// `count` bytes, which follow, and the same bytes `repeats` more times.
    Repeat { count: u32, repeats: u32 },
    /// The common part follows, and the custom parts after it.
    Weave(Woven),
    /// The custom parts follow, and the common part is zeros.
    WeaveZeros(Woven),
}

/// An instruction, and the bytes after its arguments.
#[derive(Clone, Copy)]
pub(crate) struct Decoded<'a> {
    pub instruction: Instruction,
    pub rest: &'a [u8],
}

/// Reads the instruction at `at`, of the packed bytes from there on.
#[inline(always)]
#[tactic(auto, unfolding(crate::specs::Instructions::next_instruction))]
pub(crate) fn read_instruction(at: usize, packed: &[u8]) -> Result<Decoded<'_>, PackFault>
    ensures read { result_map instruction_seen result ≡ next_instruction at packed.now }
    ensures shorter { IfOk result (λ d. length d.rest.now < length packed.now) }
{
    match packed.split_first() {
        Some((first, rest)) => read_arguments(at, *first / COUNTS, *first % COUNTS, rest),
        None => Err(PackFault::TooShort { at }),
    }
}

#[inline(always)]
#[tactic(auto, unfolding(crate::specs::Instructions::by_opcode))]
fn read_arguments(at: usize, opcode: u8, low: u8, packed: &[u8]) -> Result<Decoded<'_>, PackFault>
    ensures read { result_map instruction_seen result ≡ by_opcode at opcode low packed.now }
    ensures shorter { IfOk result (λ d. length d.rest.now ≤ length packed.now) }
{
    match opcode {
        ZERO => {
            let count = read_count(at, low, packed)?;
            Ok(with_rest(Instruction::Zeros(count.value), count.rest))
        }
        BLOCK => {
            let count = read_count(at, low, packed)?;
            Ok(with_rest(Instruction::Block(count.value), count.rest))
        }
        REPEAT => {
            let count = read_count(at, low, packed)?;
            let repeats = read_argument(at, count.rest)?;
            let instruction = Instruction::Repeat {
                count: count.value,
                repeats: repeats.value,
            };
            Ok(with_rest(instruction, repeats.rest))
        }
        REPEAT_BLOCK => {
            let (woven, rest) = read_woven(at, low, packed)?;
            Ok(with_rest(Instruction::Weave(woven), rest))
        }
        REPEAT_ZERO => {
            let (woven, rest) = read_woven(at, low, packed)?;
            Ok(with_rest(Instruction::WeaveZeros(woven), rest))
        }
        _ => Err(PackFault::BadOpcode { at }),
    }
}

fn with_rest(instruction: Instruction, rest: &[u8]) -> Decoded<'_>
    ensures { (result.instruction ≡ instruction) × (result.rest.now ≡ rest.now) }
{
    Decoded { instruction, rest }
}

/// Reads the arguments of an instruction with parts.
#[tactic(auto, unfolding(crate::specs::Instructions::woven_arguments))]
fn read_woven(at: usize, low: u8, packed: &[u8]) -> Result<(Woven, &[u8]), PackFault>
    ensures read { result_map (λ w. (w.0, w.1.now)) result ≡ woven_arguments at low packed.now }
    ensures shorter { IfOk result (λ w. length w.1.now ≤ length packed.now) }
{
    let common = read_count(at, low, packed)?;
    let custom = read_argument(at, common.rest)?;
    let parts = read_argument(at, custom.rest)?;
    let woven = Woven {
        common: common.value,
        custom: custom.value,
        parts: parts.value,
    };
    Ok((woven, parts.rest))
}

impl Instruction {
    /// Returns how many bytes the instruction spells: less than 2^65.
    pub fn spelled_len(&self) -> u128
        ensures { result ≡ spelled_len self.now }
    {
        match *self {
            Instruction::Zeros(count) => u128::from(count),
            Instruction::Block(count) => u128::from(count),
            Instruction::Repeat { count, repeats } => u128::from(count) * (u128::from(repeats) + 1),
            Instruction::Weave(woven) => woven.len(),
            Instruction::WeaveZeros(woven) => woven.len(),
        }
    }

    /// Returns how many packed bytes it copies: less than 2^64.
    pub fn copied_len(&self) -> u64
        ensures { result ≡ copied_len self.now }
    {
        match *self {
            Instruction::Zeros(_) => 0,
            Instruction::Block(count) => u64::from(count),
            Instruction::Repeat { count, .. } => u64::from(count),
            Instruction::Weave(woven) => woven.copied_len(),
            Instruction::WeaveZeros(woven) => woven.custom_len(),
        }
    }
}

impl Woven {
    fn len(&self) -> u128
        ensures { result ≡ woven_len self.now }
    {
        let common = u128::from(self.common) * (u128::from(self.parts) + 1);
        common + u128::from(self.custom_len())
    }

    fn copied_len(&self) -> u64
        ensures { result ≡ self.now.common + self.now.custom * self.now.parts }
    {
        let common = u64::from(self.common);
        common + self.custom_len()
    }

    fn custom_len(&self) -> u64
        ensures len { result ≡ self.now.custom * self.now.parts }
        ensures bound { result + 2 ^ 32 ≤ 2 ^ 64 }
    {
        u64::from(self.custom) * u64::from(self.parts)
    }
}
