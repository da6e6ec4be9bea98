ghost use Rattle.pef_c.specs.Containers.Packed.{ExpandAnswers};

use pef_pidata::expand;
use pef_records::{given, pack_number};

/// Expands packed bytes until `out` is full.
///
/// Returns 0, or the number of the first refusal. After a refusal `out` may have any bytes.
#[unsafe(no_mangle)]
pub extern "C" fn pef_expand(packed: &[u8], out: &mut [u8]) -> u32
    ensures { ExpandAnswers packed.now out.old out.new result }
{
    match expand(given(packed), out) {
        Ok(()) => 0,
        Err(fault) => pack_number(fault),
    }
}
