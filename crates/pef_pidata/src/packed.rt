ghost use Rattle.std.specs.Prelude.{◌≡◌, ◌<◌, ◌≤◌, ℕ, length, IfOk, IfSome, Ok};
ghost use Rattle.std.specs.Result.{result_err};
ghost use Rattle.pef_words.specs.Refusals.{result_map};
ghost use Rattle.pef_pidata.specs.Pattern.{copied_len, next_output, output_of, pattern_text, spelled_len};
ghost use Rattle.pef_pidata.specs.Kept.Views.{instruction_seen, step_seen};

use crate::argument::read_short_count;
use crate::fault::PackFault;
use crate::instruction::{BLOCK, COUNTS, Decoded, Instruction, ZERO, read_instruction};

/// An instruction whose output has room, with the bytes that it copies and those after it.
#[derive(Clone, Copy)]
struct Step<'a> {
    instruction: Instruction,
    len: usize,
    bytes: &'a [u8],
    rest: &'a [u8],
}

/// Expands packed bytes until `out` is full.
///
/// The rest of the packed bytes is then ignored; if `out` is empty, all of them are. After a refusal
/// the contents of `out` are unspecified.
///
/// # Errors
///
/// The first of these that an instruction has, in this order: `TooShort` if no packed byte is left,
/// `BadOpcode`, then `Truncated` or `CountTooLarge` at the first argument that has it, `TooLong` if it
/// spells more bytes than are left of `out`, and `Truncated` if fewer bytes are left than it copies.
pub fn expand(packed: &[u8], out: &mut [u8]) -> Result<(), PackFault>
    ensures { result_map (λ _. out.new) result ≡ pattern_text packed.now (length out.old) }
{
    let mut rest = packed;
    let mut at = 0;
    while at < out.len() {
        let step = next_step(packed.len() - rest.len(), rest, out.len() - at)?;
        step.instruction
            .write(step.bytes, &mut out[at..at + step.len]);
        at += step.len;
        rest = step.rest;
    }
    Ok(())
}

/// Tests what packed bytes expand to, and keeps none of it: whether [`expand`] fills `len` bytes with them.
///
/// # Errors
///
/// Those of `expand`.
pub fn verify(packed: &[u8], len: usize) -> Result<(), PackFault>
    ensures { result_err result ≡ result_err (pattern_text packed.now len) }
{
    let mut rest = packed;
    let mut at = 0;
    while at < len {
        let step = next_step(packed.len() - rest.len(), rest, len - at)?;
        at += step.len;
        rest = step.rest;
    }
    Ok(())
}

/// Reads the instruction at `at`, to be written if `room` bytes are left.
///
/// Inlining keeps the step in registers: packed bytes have an instruction for every ten of them or so. Most of them are short.
#[inline(always)]
#[tactic(auto, unfolding(crate::specs::Pattern::next_output))]
fn next_step(at: usize, packed: &[u8], room: usize) -> Result<Step<'_>, PackFault>
    ensures step { result_map step_seen result ≡ next_output at room packed.now }
    ensures target { IfOk result (λ s. (s.len ≡ spelled_len s.instruction) × (s.len ≤ room)) }
    ensures bytes { IfOk result (λ s. length s.bytes.now ≡ copied_len s.instruction) }
    ensures shorter { IfOk result (λ s. length s.rest.now < length packed.now) }
{
    if let Some(step) = short_step(packed, room) {
        return Ok(step);
    }
    let decoded = read_instruction(at, packed)?;
    step_of(at, decoded, room)
}

/// Reads an instruction that spells zeros or the bytes that follow, if its count is in one byte or two, the bytes are there, and the
/// output has room. Returns `None` for all others.
#[inline(always)]
#[tactic(auto, unfolding(crate::specs::Pattern::next_output, crate::specs::Pattern::output_of, crate::specs::Instructions::next_instruction, crate::specs::Instructions::by_opcode))]
fn short_step(packed: &[u8], room: usize) -> Option<Step<'_>>
    ensures step { IfSome result (λ s. (at : ℕ) → Ok (step_seen s) ≡ next_output at room packed.now) }
    ensures target { IfSome result (λ s. (s.len ≡ spelled_len s.instruction) × (s.len ≤ room)) }
    ensures bytes { IfSome result (λ s. length s.bytes.now ≡ copied_len s.instruction) }
    ensures shorter { IfSome result (λ s. length s.rest.now < length packed.now) }
{
    let (first, rest) = packed.split_first()?;
    let count = read_short_count(*first % COUNTS, rest)?;
    let len = count.value as usize;
    let (instruction, copied) = match *first / COUNTS {
        ZERO => (Instruction::Zeros(count.value), 0),
        BLOCK => (Instruction::Block(count.value), len),
        _ => return None,
    };
    if len > room || copied > count.rest.len() {
        return None;
    }
    let (bytes, rest) = count.rest.split_at(copied);
    Some(Step {
        instruction,
        len,
        bytes,
        rest,
    })
}

#[tactic(auto, unfolding(crate::specs::Pattern::output_of))]
fn step_of(at: usize, decoded: Decoded<'_>, room: usize) -> Result<Step<'_>, PackFault>
    ensures step { result_map step_seen result ≡ output_of at room (instruction_seen decoded.entry) }
    ensures target { IfOk result (λ s. (s.len ≡ spelled_len s.instruction) × (s.len ≤ room)) }
    ensures bytes { IfOk result (λ s. length s.bytes.now ≡ copied_len s.instruction) }
    ensures shorter { IfOk result (λ s. length s.rest.now ≤ length decoded.entry.rest.now) }
{
    let instruction = decoded.instruction;
    let spelled = instruction.spelled_len();
    if spelled > room as u128 {
        return Err(PackFault::TooLong { at });
    }
    let copied = instruction.copied_len();
    if copied > decoded.rest.len() as u64 {
        return Err(PackFault::Truncated { at });
    }
    let (bytes, rest) = decoded.rest.split_at(copied as usize);
    let len = spelled as usize;
    Ok(Step {
        instruction,
        len,
        bytes,
        rest,
    })
}
