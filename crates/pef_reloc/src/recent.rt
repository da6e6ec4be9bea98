ghost use Rattle.std.specs.Prelude.{◌≡◌, ◌≤◌, ◌<◌, ◌+◌, ◌*◌, IfOk, List, [], ◌∷◌, Ok, Some, length, true};
ghost use Rattle.std.specs.Result.{result_err};
ghost use Rattle.pef_words.specs.Refusals.{unless};
ghost use Rattle.pef_reloc.specs.Instrs.{instr_fits, program_length};
ghost use Rattle.pef_reloc.specs.Kept.Places.{Before, Spans};
ghost use Rattle.pef_reloc.specs.Kept.Readers.{Marks, Passes, flat_count};
ghost use Rattle.pef_reloc.specs.Limits.{step_limit};
ghost use Rattle.pef_reloc.specs.Unrolled.{repeat_fault, steps_as};
ghost use Rattle.pef_reloc.specs.declared.instr.Instr.{Instr};

use crate::decode::instr_from;
use crate::fault::RelocFault;
use crate::instr::{Instr, MAX_BLOCKS, Repeat};

/// How many instructions a program may execute. Each pass and each repeat counts.
pub const MAX_STEPS: u32 = 0x0100_0000;

/// How many halfwords a repeat can reach back over.
const WINDOW: usize = MAX_BLOCKS as usize;

/// What a reader knows before it reads an instruction: which of the halfwords that a repeat can reach
/// begin an instruction, and how many instructions would have been executed.
///
/// Halfword h of the program is at h % `WINDOW`. The instructions themselves aren't kept: if a repeat
/// reaches them, they are decoded again, each at most once, since a repeat that reaches a repeat ends the
/// reading.
#[derive(Clone, Copy)]
pub(crate) struct Reader {
    begins: [bool; WINDOW],
    pub steps: u32,
}

impl Reader {
    pub(crate) fn new() -> Reader
        ensures marks { Marks result.begins [] }
        ensures steps { result.steps ≡ 0 }
    {
        Reader {
            begins: [false; WINDOW],
            steps: 0,
        }
    }

    /// Returns how many steps the instructions so far take.
    pub(crate) fn steps(&self) -> u32
        ensures { result ≡ self.now.steps }
    {
        self.steps
    }

    /// Passes the instruction at a place of the bytes, unless it is refused for its block or for the
    /// steps so far.
    #[inline(always)]
    pub(crate) fn pass(&mut self, instr: Instr, bytes: &[u8], at: usize) -> Result<(), RelocFault>
        requires under { self.old.steps ≤ step_limit }
        requires inside { at < length bytes.now }
        requires fits { instr_fits instr ≡ true }
        ensures { (before : List Instr) → Before bytes.now before at → Marks self.old.begins before → Passes self.old self.new before instr (result_err result) }
    {
        let steps = match instr.repeat() {
            Some(repeat) => self.repeat_steps(repeat, bytes, at)?,
            None => 1,
        };
        if self.steps + steps > MAX_STEPS {
            return Err(RelocFault::TooManySteps { at });
        }
        self.steps += steps;
        self.mark(instr, at);
        Ok(())
    }

    /// Returns the steps of a repeat at a place of the bytes, including itself.
    fn repeat_steps(&self, repeat: Repeat, bytes: &[u8], at: usize) -> Result<u32, RelocFault>
        requires inside { at ≤ length bytes.now }
        requires some { 1 ≤ repeat.blocks }
        requires blocks { repeat.blocks ≤ 16 }
        requires passes { repeat.passes < 0x400000 }
        ensures value { (before : List Instr) → Before bytes.now before at → Marks self.now.begins before → result ≡ unless (repeat_fault before (Some repeat)) (Ok (steps_as before (Some repeat))) }
        ensures small { IfOk result (λ n. n ≤ 0x4000000) }
    {
        let reach = 2 * repeat.blocks as usize;
        if reach > at {
            return Err(RelocFault::RepeatTooFar { at });
        }
        let from = at - reach;
        if !self.begins[from / 2 % WINDOW] {
            return Err(RelocFault::RepeatCuts { at });
        }
        let count = flat_count(bytes, from, at)?;
        Ok(repeat.passes * count + 1)
    }

    /// Marks where an instruction begins, and that none begins inside it.
    #[inline(always)]
    fn mark(&mut self, instr: Instr, at: usize)
        ensures marks { (before : List Instr) → at ≡ 2 * program_length before → Marks self.old.begins before → Marks self.new.begins (instr ∷ before) }
        ensures steps { self.new.steps ≡ self.old.steps }
    {
        let halfword = at / 2;
        self.begins[halfword % WINDOW] = true;
        if instr.length() > 1 {
            self.begins[(halfword + 1) % WINDOW] = false;
        }
    }
}

/// Returns the number of instructions in the bytes from one place to another, where a repeat of them is.
///
/// # Errors
///
/// `NestedRepeat` if one of them is a repeat.
fn flat_count(bytes: &[u8], from: usize, to: usize) -> Result<u32, RelocFault>
    requires inside { to ≤ length bytes.now }
    requires order { from ≤ to }
    requires short { to ≤ from + 32 }
    ensures value { (block : List Instr) → Spans bytes.now from block to → result ≡ flat_count to block }
    ensures small { IfOk result (λ n. n ≤ 16) }
{
    let mut at = from;
    let mut count = 0;
    while at < to {
        let instr = instr_from(bytes, at)?;
        if instr.repeat().is_some() {
            return Err(RelocFault::NestedRepeat { at: to });
        }
        count += 1;
        at += 2 * instr.length();
    }
    Ok(count)
}
