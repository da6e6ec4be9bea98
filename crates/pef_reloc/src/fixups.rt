ghost use Rattle.std.specs.Prelude.{◌≡◌, ◌+◌, ◌*◌, ◌^◌, ◌≤◌, ◌<◌, MatchOption, [], length};
ghost use Rattle.pef_reloc.specs.Kept.Additions.{executed_left};

use crate::addition::Addition;
use crate::executed::Executed;
use crate::program::Program;
use crate::registers::Registers;
use crate::run::Run;

/// An iterator over the additions of a program. [`Program::fixups`] makes it.
#[derive(Clone, Copy)]
pub struct Fixups<'a> {
    executed: Executed<'a>,
    registers: Registers,
    run: Run,
    ghost few: { length (executed_left executed) ≤ 2 ^ 24 },
    ghost position: { registers.position + 6144 * length (executed_left executed) ≤ 2 ^ 60 },
    ghost imports: { registers.import_index + 6144 * length (executed_left executed) ≤ 2 ^ 60 },
}

impl<'a> Fixups<'a> {
    ghost use Rattle.pef_reloc.specs.Left.{Executes, fixups_left};
    ghost use Rattle.pef_reloc.specs.Traces.{fixups_of};
    ghost use Rattle.pef_reloc.specs.Views.{program_bytes};

    /// Returns an iterator over the additions of a program.
    pub(crate) fn new(program: Program<'a>) -> Fixups<'a>
        ensures { fixups_left result ≡ fixups_of (program_bytes program.entry) }
    {
        Fixups {
            executed: Executed::new(program),
            registers: Registers::new(),
            run: Run::none(),
        }
    }

    /// Executes the next instruction, whose additions come next. Returns `None` if there is none.
    fn execute_next(&mut self) -> Option<()>
        ensures { MatchOption result ((executed_left self.old.executed ≡ []) × (self.new ≡ self.old)) (λ _. Executes self.old self.new) }
    {
        let mut executed = self.executed;
        let instr = executed.next_instr()?;
        *self = Fixups {
            executed,
            registers: self.registers.after(instr),
            run: self.registers.run(instr),
        };
        Some(())
    }
}

impl<'a> Iterator for Fixups<'a> {
    ghost use Rattle.std.specs.Iterator.{YieldsFirstBy, item_count};
    ghost use Rattle.pef_reloc.specs.Left.{fixups_left};
    ghost use Rattle.pef_reloc.specs.Traces.{addition_seen};

    type Item = Addition;

    ghost next_gives = { YieldsFirstBy addition_seen fixups_left };

    ghost remaining = { item_count fixups_left };

    fn next(&mut self) -> Option<Addition> {
        'instrs: loop {
            match self.run.next_addition() {
                Some(addition) => return Some(addition),
                None => {}
            }
            match self.execute_next() {
                Some(()) => {}
                None => return None,
            }
        }
    }
}
