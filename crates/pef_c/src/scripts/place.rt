//! The place of the first error of a script.
ghost use Rattle.std.specs.Prelude.{◌≡◌};
ghost use Rattle.pef_c.specs.Scripts.Place.{ScriptPlaces, word_place};

use pef_format::Part;
use pef_records::{OUT_OF_MEMORY, PefPlace, given, line_number, place_or_nowhere};
use pef_script::{Script, ScriptFault, Word};
use std::alloc::Global;

/// Finds the first error of a script.
///
/// Returns 0 if there is none, or the number of the error, and writes the place of the word, and to `earlier` the
/// number of the earlier line that the error is about, or 0. Returns 99 if an allocation fails.
#[unsafe(no_mangle)]
pub extern "C" fn pef_script_place(
    alloc: Global,
    script: &[u8],
    place: &mut PefPlace,
    earlier: &mut usize,
) -> u32
    ensures { ScriptPlaces script.now place.new earlier.new result }
{
    *place = place_or_nowhere(None);
    *earlier = 0;
    let _script = match Script::read(alloc, given(script)) {
        Ok(script) => script,
        Err(ScriptFault::OutOfMemory) => return OUT_OF_MEMORY,
        Err(
            ScriptFault::Refused {
                fault,
                line,
                word,
                earlier: other,
            },
        ) => {
            *place = word_place(line, word);
            *earlier = other.unwrap_or(0);
            return line_number(fault);
        }
    };
    0
}

/// Returns the place of a word of a line.
fn word_place(line: usize, word: Word) -> PefPlace
    ensures { result ≡ word_place line word }
{
    PefPlace {
        part: Part::Line.code(),
        row: line,
        field: usize::from(word.number),
        offset: word.from,
    }
}
