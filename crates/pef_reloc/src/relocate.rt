ghost use Rattle.std.specs.Prelude.{◌≡◌, None};
ghost use Rattle.std.specs.Result.{result_err};
ghost use Rattle.pef_reloc.specs.Applied.{relocation};
ghost use Rattle.pef_reloc.specs.Kept.Machines.{known};
ghost use Rattle.pef_reloc.specs.Unrolled.{program_fault};
ghost use Rattle.pef_reloc.specs.Views.{program_bytes};

use crate::decode::instr_from;
use crate::fault::RelocFault;
use crate::machine::{Block, Machine, Targets};
use crate::program::Program;

/// Relocates a section's memory in place.
///
/// `sections` are the addresses of the fragment's instantiated sections, and `imports` those of its
/// imports' targets. A repeat is run by a counter, and nothing is allocated.
///
/// # Errors
///
/// At one addition `SectionOutside`, `ImportOutside` and `WordOutside`, in this order. The additions
/// before a refusal are kept, and no others are made. A register that still has its start value adds
/// 0 if there is no such section.
pub fn apply(
    program: &Program,
    memory: &mut [u8],
    sections: &[u32],
    imports: &[u32],
) -> Result<(), RelocFault>
    ensures { relocation (program_bytes program.now) (record { sections = sections.now; imports = imports.now }) memory.old ≡ record { memory = memory.new; fault = result_err result } }
{
    run(program.bytes(), memory, Targets::new(sections, imports))
}

/// Relocates memory by the bytes of a readable program.
fn run(bytes: &[u8], memory: &mut [u8], targets: Targets) -> Result<(), RelocFault>
    requires { program_fault bytes.now ≡ None }
    ensures { relocation bytes.now (known targets.entry) memory.old ≡ record { memory = memory.new; fault = result_err result } }
{
    let mut machine = Machine::new(targets);
    let mut at = 0;
    while at < bytes.len() {
        let instr = instr_from(bytes, at)?;
        let earlier = Block {
            bytes,
            from: 0,
            to: at,
        };
        machine.execute(instr, earlier, memory, targets)?;
        at += 2 * instr.length();
    }
    Ok(())
}
