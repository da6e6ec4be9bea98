ghost use Rattle.pef_c.specs.Scripts.Distances.{DistancesAnswers};

use crate::scripts::reading::read_script;
use pef_certify::ScriptCertificates;
use pef_records::{OUT_OF_MEMORY, ROOM_TOO_SMALL, copy_out};
use std::alloc::Global;

/// Makes the certificates of the script of a text, and copies the lines that `pef distances` prints to the front of
/// `buffer`.
///
/// Returns 0; or 200 if the buffer is too small, and writes the length of the lines to `written`; or the number of the
/// script's first refusal, and writes its line to `line`; or 99. In all other cases `line` becomes 0.
#[unsafe(no_mangle)]
pub extern "C" fn pef_distances(
    alloc: Global,
    script: &[u8],
    buffer: &mut [u8],
    written: &mut usize,
    line: &mut usize,
) -> u32
    ensures { DistancesAnswers script.now buffer.old buffer.new written.old written.new line.new result }
{
    let script = match read_script(alloc, script, line) {
        Ok(script) => script,
        Err(number) => return number,
    };
    let Ok(certificates) = ScriptCertificates::of(alloc, &script) else {
        return OUT_OF_MEMORY;
    };
    let Ok(text) = certificates.to_bytes(alloc) else {
        return OUT_OF_MEMORY;
    };
    match copy_out(text.as_slice(), buffer, written) {
        Some(()) => 0,
        None => ROOM_TOO_SMALL,
    }
}
