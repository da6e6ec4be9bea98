ghost use Rattle.std.specs.Prelude.{◌≡◌, IfSome, None, true};
ghost use Rattle.pef_reloc.specs.Decoding.{starting};
ghost use Rattle.pef_reloc.specs.Instrs.{instr_fits, repeat_free};
ghost use Rattle.pef_reloc.specs.Unrolled.{instrs_of, program_fault, steps_of};

use crate::counting::additions_at;
use crate::decode::instr_from;
use crate::fault::RelocFault;
use crate::fixups::Fixups;
use crate::instr::Instr;
use crate::recent::Reader;

/// A relocation program that was read, with its bytes borrowed.
#[derive(Clone, Copy, Debug)]
pub struct Program<'a> {
    bytes: &'a [u8],
    steps: u32,
    ghost readable: { program_fault bytes.now ≡ None },
    ghost counted: { steps ≡ steps_of bytes.now },
}

impl<'a> Program<'a> {
    ghost use Rattle.std.specs.Prelude.{◌<◌, ◌+◌, MatchOption, Ok, length};
    ghost use Rattle.pef_words.specs.Refusals.{result_map, unless};
    ghost use Rattle.pef_reloc.specs.Left.{fixups_left};
    ghost use Rattle.pef_reloc.specs.Traces.{fixups_of};
    ghost use Rattle.pef_reloc.specs.Views.{listed, program_bytes};

    /// Reads a program, in time linear in its bytes: no pass of a repeat is run.
    ///
    /// # Errors
    ///
    /// The fault of the first instruction that has one: `BadOpcode`, `CutInstruction` (also for an odd
    /// last byte), `RepeatTooFar`, `RepeatCuts`, `NestedRepeat`, `TooManySteps`.
    pub fn read(bytes: &'a [u8]) -> Result<Program<'a>, RelocFault>
        ensures { result_map program_bytes result ≡ unless (program_fault bytes.entry.now) (Ok bytes.entry.now) }
    {
        let mut reader = Reader::new();
        let mut at = 0;
        while at < bytes.len() {
            let instr = instr_from(bytes, at)?;
            reader.pass(instr, bytes, at)?;
            at += 2 * instr.length();
        }
        let steps = reader.steps();
        Ok(Program { bytes, steps })
    }

    /// Returns the bytes that it was read from.
    pub fn bytes(&self) -> &'a [u8]
        ensures { result.now ≡ program_bytes self.now }
    {
        self.bytes
    }

    /// Returns how many steps it takes: one for each instruction that it executes, in each pass anew, and one for each
    /// repeat. They were counted when it was read.
    pub fn steps(&self) -> u32
        ensures { result ≡ steps_of (program_bytes self.now) }
    {
        self.steps
    }

    /// Returns an iterator over its instructions, from the first one on.
    #[tactic(auto, unfolding(crate::specs::Unrolled::instrs_of))]
    pub fn instrs(&self) -> Instrs<'a>
        ensures { listed result ≡ instrs_of (program_bytes self.now) }
    {
        self.whole()
    }

    /// Returns an iterator at the first instruction.
    pub(crate) fn whole(self) -> Instrs<'a>
        ensures { result ≡ record { bytes = self.entry.bytes; at = 0 } }
    {
        Instrs {
            bytes: self.bytes,
            at: 0,
        }
    }

    /// Returns the instruction that starts at a halfword, or `None` if none starts there. The time is
    /// linear in the halfwords before it.
    pub fn instr_at(&self, halfword: usize) -> Option<Instr>
        ensures value { result ≡ starting (instrs_of (program_bytes self.now)) halfword }
        ensures fits { IfSome result (λ instr. instr_fits instr ≡ true) }
    {
        let mut instrs = self.instrs();
        let mut ahead = halfword;
        while let Some(instr) = instrs.next_instr() {
            if ahead == 0 {
                return Some(instr);
            }
            if ahead < instr.length() {
                return None;
            }
            ahead -= instr.length();
        }
        None
    }

    /// Returns an iterator over its additions, in the order in which it makes them. Nothing is allocated, and each
    /// addition takes constant time; so does each instruction that adds nothing.
    ///
    /// Words, sections and imports aren't tested: they need not exist.
    pub fn fixups(&self) -> Fixups<'a>
        ensures { fixups_left result ≡ fixups_of (program_bytes self.now) }
    {
        Fixups::new(*self)
    }

    /// Returns what is left of a limit after all its additions, unless it makes more of them. The time is linear in the bytes of the
    /// program: no pass of a repeat is run.
    pub fn left_after_additions(&self, limit: u64) -> Option<u64>
        ensures { MatchOption result (limit < length (fixups_of (program_bytes self.now))) (λ left. left + length (fixups_of (program_bytes self.now)) ≡ limit) }
    {
        let mut instrs = self.whole();
        let mut left = limit;
        while let Some((at, instr)) = instrs.next_placed() {
            left = left.checked_sub(additions_at(instrs, at, instr))?;
        }
        Some(left)
    }

    /// Returns whether it has no repeats.
    pub fn flat(&self) -> bool
        ensures { result ≡ repeat_free (instrs_of (program_bytes self.now)) }
    {
        let mut instrs = self.instrs();
        while let Some(instr) = instrs.next_instr() {
            if instr.repeat().is_some() {
                return false;
            }
        }
        true
    }
}

/// An iterator over the instructions of a program.
#[derive(Clone, Copy, Debug)]
pub struct Instrs<'a> {
    bytes: &'a [u8],
    at: usize,
}

impl<'a> Instrs<'a> {
    ghost use Rattle.std.specs.Prelude.{◌≤◌, ◌+◌, ◌*◌, ◌∷◌, MatchOption, [], length};
    ghost use Rattle.pef_reloc.specs.Kept.Executions.{IsPassed, behind};
    ghost use Rattle.pef_reloc.specs.Unrolled.{steps_from};
    ghost use Rattle.pef_reloc.specs.Views.{TakesFirst, listed, placed};

    /// Returns an iterator over the instructions of a program that may be damaged. It ends before the first bytes that
    /// aren't an instruction.
    #[tactic(auto, unfolding(crate::specs::Unrolled::instrs_of))]
    pub fn new(bytes: &'a [u8]) -> Instrs<'a>
        ensures { placed result ≡ steps_from 0 (instrs_of bytes.entry.now) }
    {
        Instrs { bytes, at: 0 }
    }

    /// Returns the next instruction and moves past it, or returns `None` at the end.
    pub fn next_instr(&mut self) -> Option<Instr>
        ensures takes { TakesFirst (listed self.old) result (listed self.new) }
        ensures fits { IfSome result (λ instr. instr_fits instr ≡ true) }
        ensures passes { IfSome result (λ instr. IsPassed self.old instr self.new) }
    {
        if self.at >= self.bytes.len() {
            return None;
        }
        match instr_from(self.bytes, self.at) {
            Ok(instr) => {
                self.at += 2 * instr.length();
                Some(instr)
            }
            Err(_) => None,
        }
    }

    /// Returns the next instruction and the offset in the program at which it begins, and moves past it, or returns
    /// `None` at the end.
    pub fn next_placed(&mut self) -> Option<(usize, Instr)>
        ensures takes { MatchOption result ((placed self.old ≡ []) × (placed self.new ≡ [])) (λ step. placed self.old ≡ step ∷ placed self.new) }
        ensures fits { IfSome result (λ step. instr_fits step.1 ≡ true) }
        ensures passes { IfSome result (λ step. IsPassed self.old step.1 self.new) }
        ensures place { IfSome result (λ step. step.0 ≡ self.old.at) }
    {
        let at = self.place();
        match self.next_instr() {
            Some(instr) => Some((at, instr)),
            None => None,
        }
    }

    /// Returns the place of the next instruction.
    pub(crate) fn place(&self) -> usize
        ensures { result ≡ self.now.at }
    {
        self.at
    }

    /// Returns an iterator over no instructions.
    pub(crate) fn none(self) -> Instrs<'a>
        ensures { listed result ≡ [] }
    {
        Instrs {
            bytes: self.bytes,
            at: self.bytes.len(),
        }
    }

    /// Returns an iterator over the instructions of the last `blocks` halfwords before a place.
    #[tactic(auto, unfolding(crate::specs::Kept::Executions::behind))]
    pub(crate) fn behind(self, place: usize, blocks: u32) -> Instrs<'a>
        requires { place ≤ length self.bytes.now }
        ensures listed { listed result ≡ behind self.entry.bytes.now place blocks }
        ensures short { length result.bytes.now ≤ result.at + 2 * blocks }
    {
        let (front, _) = self.bytes.split_at(place);
        Instrs {
            bytes: front,
            at: place.saturating_sub(2 * blocks as usize),
        }
    }
}
