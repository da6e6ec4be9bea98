ghost use Rattle.std.specs.Prelude.{◌≡◌, ◌≤◌, ◌+◌, ◌^◌, length, true};
ghost use Rattle.pef_reloc.specs.Instrs.{instr_fits, repeat_of};
ghost use Rattle.pef_reloc.specs.Kept.Counts.{additions_in};
ghost use Rattle.pef_reloc.specs.Kept.Executions.{executed_at};
ghost use Rattle.pef_reloc.specs.Views.{listed};

use crate::instr::Instr;
use crate::program::Instrs;

/// Returns how many additions the instruction at a place makes, which an iterator was moved past. A repeat makes those of its block in
/// each pass.
pub(crate) fn additions_at(after: Instrs<'_>, at: usize, instr: Instr) -> u64
    requires inside { at ≤ length after.bytes.now }
    requires fits { instr_fits instr ≡ true }
    ensures { result ≡ additions_in (executed_at after.entry.bytes.now at instr (repeat_of instr)) }
{
    match instr.repeat() {
        Some(repeat) => {
            let block = after.behind(at, repeat.blocks);
            u64::from(repeat.passes) * additions_of(block)
        }
        None => instr.additions(),
    }
}

/// Returns how many additions the instructions of a block make.
fn additions_of(block: Instrs<'_>) -> u64
    requires short { length block.bytes.now ≤ block.at + 32 }
    ensures value { result ≡ additions_in (listed block.entry) }
    ensures small { result ≤ 2 ^ 15 }
{
    let mut rest = block;
    let mut count = 0;
    while let Some(instr) = rest.next_instr() {
        count += instr.additions();
    }
    count
}
