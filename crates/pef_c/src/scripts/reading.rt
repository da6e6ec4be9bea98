//! A script as C passes it, for the calls that link it.
ghost use Rattle.pef_c.specs.Scripts.Link.{ReadsScript};

use pef_records::{OUT_OF_MEMORY, given, line_number};
use pef_script::{Script, ScriptFault};
use std::alloc::Global;

/// Reads a script.
///
/// # Errors
///
/// The number of the first refusal, and its line is written to `line`; or 99. In all other cases `line` becomes 0.
pub(crate) fn read_script<'a>(
    alloc: Global,
    script: &'a [u8],
    line: &mut usize,
) -> Result<Script<'a>, u32>
    ensures { ReadsScript script.entry.now line.new result }
{
    *line = 0;
    match Script::read(alloc, given(script)) {
        Ok(script) => Ok(script),
        Err(
            ScriptFault::Refused {
                fault,
                line: at,
                ..
            },
        ) => {
            *line = at;
            Err(line_number(fault))
        }
        Err(ScriptFault::OutOfMemory) => Err(OUT_OF_MEMORY),
    }
}
