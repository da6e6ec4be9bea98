//! The names of errors, of notes and of this library's own answers, and a sentence or two of help on each.
ghost use Rattle.std.specs.Prelude.{◌≡◌, option_map};
ghost use Rattle.pef_refusals.specs.Help.{help_of};
ghost use Rattle.pef_refusals.specs.Names.{name_of};
ghost use Rattle.pef_c.specs.Names.{TextAnswers};

use pef_records::NOT_THERE;

/// Gives the name of an error, of a note, or of an answer of this library, by its number.
///
/// Returns 0; or 201 if nothing has the number, and leaves `name` unchanged.
#[unsafe(no_mangle)]
pub extern "C" fn pef_name(number: u32, name: &mut &'static [u8]) -> u32
    ensures { TextAnswers (name_of number) name.old.now name.new.now result }
{
    give(pef_refusals::name(number), name)
}

/// Gives one or two sentences on an error, a note, or an answer of this library, by its number: what it means, and what to do.
///
/// Returns 0; or 201 if nothing has the number, and leaves `help` unchanged.
#[unsafe(no_mangle)]
pub extern "C" fn pef_help(number: u32, help: &mut &'static [u8]) -> u32
    ensures { TextAnswers (help_of number) help.old.now help.new.now result }
{
    give(pef_refusals::help(number), help)
}

/// Writes a text and returns 0, or returns 201 if there is none.
fn give(text: Option<&'static str>, place: &mut &'static [u8]) -> u32
    ensures { TextAnswers (option_map (λ text. text.now) text.entry) place.old.now place.new.now result }
{
    match text {
        Some(text) => {
            *place = text.as_bytes();
            0
        }
        None => NOT_THERE,
    }
}
