ghost use Rattle.std.specs.Prelude.{◌≡◌, ◌≤◌, IfSome, length, true};
ghost use Rattle.pef_reloc.specs.Instrs.{instr_fits};
ghost use Rattle.pef_reloc.specs.Kept.Additions.{executed_left};
ghost use Rattle.pef_reloc.specs.Limits.{step_limit};
ghost use Rattle.pef_reloc.specs.Unrolled.{instrs_in, instrs_of, unrolled};
ghost use Rattle.pef_reloc.specs.Views.{TakesFirst, program_bytes};

use crate::instr::Instr;
use crate::program::{Instrs, Program};

/// An iterator over the instructions that a program executes: a repeat gives those of its block once more for each
/// pass.
#[derive(Clone, Copy, Debug)]
pub(crate) struct Executed<'a> {
    program: Instrs<'a>,
    /// The block of the last repeat, and what is left of this pass.
    block: Instrs<'a>,
    pass: Instrs<'a>,
    /// The passes after this one.
    passes: u32,
}

impl<'a> Executed<'a> {
    /// Returns an iterator over what a program executes.
    pub(crate) fn new(program: Program<'a>) -> Executed<'a>
        ensures all { executed_left result ≡ instrs_in (unrolled (instrs_of (program_bytes program.entry))) }
        ensures few { length (executed_left result) ≤ step_limit }
    {
        let whole = program.whole();
        let nothing = whole.none();
        Executed {
            program: whole,
            block: nothing,
            pass: nothing,
            passes: 0,
        }
    }

    /// Returns the next instruction and moves past it, or returns `None` at the end.
    pub(crate) fn next_instr(&mut self) -> Option<Instr>
        ensures takes { TakesFirst (executed_left self.old) result (executed_left self.new) }
        ensures fits { IfSome result (λ instr. instr_fits instr ≡ true) }
    {
        'blocks: loop {
            match self.pass.next_instr() {
                Some(instr) => return Some(instr),
                None => {}
            }
            if self.passes > 0 {
                self.passes -= 1;
                self.pass = self.block;
            } else {
                let place = self.program.place();
                match self.program.next_instr() {
                    Some(instr) => match instr.repeat() {
                        Some(repeat) => {
                            self.block = self.program.behind(place, repeat.blocks);
                            self.passes = repeat.passes;
                        }
                        None => return Some(instr),
                    },
                    None => return None,
                }
            }
        }
    }
}
