ghost use Rattle.pef_c.specs.Scripts.Link.{LinkAnswers};

use crate::scripts::reading::read_script;
use pef_records::{OUT_OF_MEMORY, ROOM_TOO_SMALL, copy_out};
use pef_write::link_container;
use std::alloc::Global;

/// Links the script of a text, and copies its container to the front of `buffer`.
///
/// Returns 0; or 200 if the buffer is too small, and writes the container's length to `written`; or the number of the
/// script's first refusal, and writes its line to `line`; or 99. In all other cases `line` becomes 0.
#[unsafe(no_mangle)]
pub extern "C" fn pef_link(
    alloc: Global,
    script: &[u8],
    buffer: &mut [u8],
    written: &mut usize,
    line: &mut usize,
) -> u32
    ensures { LinkAnswers script.now buffer.old buffer.new written.old written.new line.new result }
{
    let script = match read_script(alloc, script, line) {
        Ok(script) => script,
        Err(number) => return number,
    };
    let Ok(linked) = link_container(alloc, &script) else {
        return OUT_OF_MEMORY;
    };
    match copy_out(linked.bytes(), buffer, written) {
        Some(()) => 0,
        None => ROOM_TOO_SMALL,
    }
}
