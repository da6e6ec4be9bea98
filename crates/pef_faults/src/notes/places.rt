//! The place of an error in words, such as "It is the name of import 41, counted from 0, at byte 0x3A2 of the file."
ghost use Rattle.std.specs.Prelude.{◌≡◌};
ghost use Rattle.pef_ports.specs.Sent.{Sends};
ghost use Rattle.pef_faults.specs.Notes.Places.{export_words, field_sentence, field_words, has_rows, header_words, instruction_sentence, library_words, loader_words, offset_sentence, place_text, program_text, relocation_words, row_sentence, section_words, word_sentence};

use pef_format::{Part, Place};
use pef_ports::{Page, Piece, Sink, StreamFault, print_pieces, send};

/// Prints the sentence on a place.
#[tactic(auto, unfolding(crate::specs::Notes::Places::place_text))]
pub(crate) fn print_place<W: Sink>(
    out: &mut W,
    page: &mut Page,
    place: Place,
) -> Result<(), StreamFault>
    ensures { Sends result (W.stream out.old) (W.stream out.new) page.old.items page.new.items (place_text place) }
{
    send(out, page, b"It is ")?;
    print_field(out, page, place)?;
    print_row(out, page, place)?;
    print_offset(out, page, place.offset)
}

/// Prints the words for the part and its field.
#[tactic(auto, unfolding(crate::specs::Notes::Places::field_sentence))]
fn print_field<W: Sink>(out: &mut W, page: &mut Page, place: Place) -> Result<(), StreamFault>
    ensures { Sends result (W.stream out.old) (W.stream out.new) page.old.items page.new.items (field_sentence place) }
{
    match place.part {
        Part::PackedData => print_pieces(
            out,
            page,
            &[
                Piece::Text(b"at byte "),
                Piece::Number(place.field as u64),
                Piece::Text(b" of the packed data of section"),
            ],
        ),
        _ => send(out, page, field_words(place.part, place.field)),
    }
}

/// Ends the line of the help, and prints the sentences on an instruction of a relocation program.
#[tactic(auto, unfolding(crate::specs::Notes::Places::program_text))]
pub(crate) fn print_program<W: Sink>(
    out: &mut W,
    page: &mut Page,
    place: Place,
    section: u32,
    word: Option<u64>,
) -> Result<(), StreamFault>
    ensures { Sends result (W.stream out.old) (W.stream out.new) page.old.items page.new.items (program_text place section word) }
{
    print_instruction(out, page, place, section)?;
    print_offset(out, page, place.offset)?;
    print_word(out, page, word)
}

/// Prints the instruction's halfword, its header and the section.
#[tactic(auto, unfolding(crate::specs::Notes::Places::instruction_sentence))]
fn print_instruction<W: Sink>(
    out: &mut W,
    page: &mut Page,
    place: Place,
    section: u32,
) -> Result<(), StreamFault>
    ensures { Sends result (W.stream out.old) (W.stream out.new) page.old.items page.new.items (instruction_sentence place section) }
{
    print_pieces(
        out,
        page,
        &[
            Piece::Text(b"\nIt is at halfword "),
            Piece::Number(place.field as u64 / 2),
            Piece::Text(b" of the program of relocation header "),
            Piece::Number(place.row as u64),
            Piece::Text(b", both counted from 0, which is for section "),
            Piece::Number(u64::from(section)),
        ],
    )
}

/// Prints the offset of the word that was to be added to, if there is one.
fn print_word<W: Sink>(out: &mut W, page: &mut Page, word: Option<u64>) -> Result<(), StreamFault>
    ensures { Sends result (W.stream out.old) (W.stream out.new) page.old.items page.new.items (word_sentence word) }
{
    match word {
        Some(word) => print_pieces(
            out,
            page,
            &[
                Piece::Text(b"The word is at offset "),
                Piece::Offset(word),
                Piece::Text(b" of the section.\n"),
            ],
        ),
        None => Ok(()),
    }
}

/// Prints the number of the part, if there are several.
#[tactic(auto, unfolding(crate::specs::Notes::Places::row_sentence))]
fn print_row<W: Sink>(out: &mut W, page: &mut Page, place: Place) -> Result<(), StreamFault>
    ensures { Sends result (W.stream out.old) (W.stream out.new) page.old.items page.new.items (row_sentence place) }
{
    if !has_rows(place.part) {
        return Ok(());
    }
    print_pieces(
        out,
        page,
        &[
            Piece::Text(b" "),
            Piece::Number(place.row as u64),
            Piece::Text(b", counted from 0"),
        ],
    )
}

/// Prints the offset in the file, if there is one, and ends the sentence.
#[tactic(auto, unfolding(crate::specs::Notes::Places::offset_sentence))]
fn print_offset<W: Sink>(
    out: &mut W,
    page: &mut Page,
    offset: Option<usize>,
) -> Result<(), StreamFault>
    ensures { Sends result (W.stream out.old) (W.stream out.new) page.old.items page.new.items (offset_sentence offset) }
{
    match offset {
        Some(offset) => print_pieces(
            out,
            page,
            &[
                Piece::Text(b", at byte "),
                Piece::Offset(offset as u64),
                Piece::Text(b" of the file.\n"),
            ],
        ),
        None => send(out, page, b".\n"),
    }
}

/// Returns whether a container can have several parts of a kind.
fn has_rows(part: Part) -> bool
    ensures { result ≡ has_rows part }
{
    match part {
        Part::Header | Part::LoaderHeader | Part::Main | Part::Init | Part::Term | Part::Line => {
            false
        }
        Part::Section
        | Part::Library
        | Part::Import
        | Part::Relocation
        | Part::Export
        | Part::PackedData
        | Part::Program => true,
    }
}

/// Returns the words for a part's field, by its offset in the part.
#[tactic(auto, unfolding(crate::specs::Notes::Places::field_words))]
fn field_words(part: Part, field: usize) -> &'static [u8]
    ensures { result.now ≡ field_words part field }
{
    match part {
        Part::Header => header_words(field),
        Part::Section => section_words(field),
        Part::LoaderHeader => loader_words(field),
        Part::Library => library_words(field),
        Part::Import => b"the name of import",
        Part::Main => b"the section of the main entry point",
        Part::Init => b"the section of the initialization routine",
        Part::Term => b"the section of the termination routine",
        Part::Relocation => relocation_words(field),
        Part::Export => export_words(field),
        Part::PackedData => b"in the packed data of section",
        Part::Program => b"in the program of relocation header",
        Part::Line => b"in a line",
    }
}

/// Returns the words for the container header's field.
fn header_words(field: usize) -> &'static [u8]
    ensures { result.now ≡ header_words field }
{
    match field {
        0 => b"the tag of the container header",
        8 => b"the architecture in the container header",
        12 => b"the version of the format in the container header",
        34 => b"the number of instantiated sections in the container header",
        _ => b"the container header",
    }
}

/// Returns the words for a section's field.
fn section_words(field: usize) -> &'static [u8]
    ensures { result.now ≡ section_words field }
{
    match field {
        8 => b"the size in memory of section",
        12 => b"the size of the image of section",
        20 => b"the offset of the raw data of section",
        24 => b"the kind of section",
        26 => b"the alignment of section",
        _ => b"section",
    }
}

/// Returns the words for the loader header's field.
fn loader_words(field: usize) -> &'static [u8]
    ensures { result.now ≡ loader_words field }
{
    match field {
        24 => b"the number of libraries in the loader header",
        44 => b"the offset of the export hash table in the loader header",
        _ => b"the loader header",
    }
}

/// Returns the words for a library's field.
fn library_words(field: usize) -> &'static [u8]
    ensures { result.now ≡ library_words field }
{
    match field {
        0 => b"the name of library",
        4 => b"the oldest version that is taken of library",
        16 => b"the first import of library",
        20 => b"the option byte of library",
        _ => b"library",
    }
}

/// Returns the words for a relocation header's field.
fn relocation_words(field: usize) -> &'static [u8]
    ensures { result.now ≡ relocation_words field }
{
    match field {
        0 => b"the section of relocation header",
        4 => b"the number of halfwords of relocation header",
        _ => b"relocation header",
    }
}

/// Returns the words for an export's field.
fn export_words(field: usize) -> &'static [u8]
    ensures { result.now ≡ export_words field }
{
    match field {
        0 => b"the name of export",
        8 => b"the section of export",
        _ => b"export",
    }
}
