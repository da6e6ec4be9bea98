//! The instructions of relocation programs as they are printed.
ghost use Rattle.std.specs.Prelude.{◌≡◌, ◌∷◌, ◌++◌, [], option_map, true};
ghost use Rattle.std.specs.Option.{option_to_list};
ghost use Rattle.pef_ports.specs.Sent.{Sends};
ghost use Rattle.pef_reloc.specs.Instrs.{instr_fits};
ghost use Rattle.pef_rows.specs.Objects.{relocation_front, separator};
ghost use Rattle.pef_rows.specs.Programs.{instr_front, instr_line, instr_meaning, instr_object, program_list, program_or_null, relocation_object, step_objects, steps_in};
ghost use Rattle.pef_rows.specs.RowViews.{program_seen};

use crate::finding::file_offset;
use crate::objects::print_separator;
use crate::rows::{InstrRow, ProgramRow, RelocationRow};
use crate::tokens::{Token, print_tokens};
use pef_listing::{InstrNumbers, instr_numbers, kind_name, print_instr};
use pef_ports::{Page, Piece, Sink, StreamFault, print_pieces, send};
use pef_reloc::{Instrs, Spelling};

/// Prints the line of an instruction: its offset, and the words of a listing.
#[tactic(auto, unfolding(crate::specs::Programs::instr_line))]
pub fn print_instr_line<W: Sink>(
    out: &mut W,
    page: &mut Page,
    row: InstrRow,
) -> Result<(), StreamFault>
    requires { instr_fits row.instr ≡ true }
    ensures { Sends result (W.stream out.old) (W.stream out.new) page.old.items page.new.items (instr_line row.at row.instr) }
{
    print_tokens(out, page, &[Token::At(row.at), Token::Text(b" ")])?;
    print_instr(out, page, row.instr)
}

/// Prints the object of an instruction.
#[tactic(auto, unfolding(crate::specs::Programs::instr_object))]
pub fn print_instr_object<W: Sink>(
    out: &mut W,
    page: &mut Page,
    row: InstrRow,
) -> Result<(), StreamFault>
    requires { instr_fits row.instr ≡ true }
    ensures { Sends result (W.stream out.old) (W.stream out.new) page.old.items page.new.items (instr_object row.at row.instr) }
{
    print_front(out, page, row.at, row.instr.spelling())?;
    print_meaning(out, page, kind_name(row.instr), instr_numbers(row.instr))?;
    send(out, page, b"]}")
}

/// Prints the offset and the halfwords of an instruction.
#[tactic(auto, unfolding(crate::specs::Programs::instr_front))]
fn print_front<W: Sink>(
    out: &mut W,
    page: &mut Page,
    at: u64,
    spelling: Spelling,
) -> Result<(), StreamFault>
    ensures { Sends result (W.stream out.old) (W.stream out.new) page.old.items page.new.items (instr_front at (spelling.first ∷ option_to_list spelling.second)) }
{
    let (offset, at) = (Piece::Text(b"{\"offset\":"), Piece::Number(at));
    let (code, first) = (
        Piece::Text(b",\"code\":\""),
        Piece::Halfword(spelling.first),
    );
    match spelling.second {
        None => print_pieces(out, page, &[offset, at, code, first]),
        Some(second) => {
            print_pieces(
                out,
                page,
                &[offset, at, code, first, Piece::Halfword(second)],
            )
        }
    }
}

/// Prints the kind and the numbers of an instruction.
#[tactic(auto, unfolding(crate::specs::Programs::instr_meaning))]
fn print_meaning<W: Sink>(
    out: &mut W,
    page: &mut Page,
    kind: &[u8],
    numbers: InstrNumbers,
) -> Result<(), StreamFault>
    ensures { Sends result (W.stream out.old) (W.stream out.new) page.old.items page.new.items (instr_meaning kind.now (numbers.first ∷ option_to_list numbers.second)) }
{
    let (label, kind) = (Piece::Text(b"\",\"kind\":\""), Piece::Text(kind));
    let (list, comma) = (Piece::Text(b"\",\"numbers\":["), Piece::Text(b","));
    let first = Piece::Number(u64::from(numbers.first));
    match numbers.second {
        None => print_pieces(out, page, &[label, kind, list, first]),
        Some(second) => {
            let second = Piece::Number(u64::from(second));
            print_pieces(out, page, &[label, kind, list, first, comma, second])
        }
    }
}

/// Prints a relocation header, with the instructions of its program.
#[tactic(auto, unfolding(crate::specs::Programs::relocation_object))]
pub fn print_relocation_object<W: Sink>(
    out: &mut W,
    page: &mut Page,
    row: RelocationRow<'_>,
) -> Result<(), StreamFault>
    ensures { Sends result (W.stream out.old) (W.stream out.new) page.old.items page.new.items (relocation_object row.entry.at row.entry.section row.entry.count row.entry.first (option_map program_seen row.entry.program)) }
{
    print_relocation_front(out, page, row)?;
    print_program_or_null(out, page, row.program)?;
    send(out, page, b"}")
}

/// Prints a relocation header up to its instructions.
#[tactic(auto, unfolding(crate::specs::Objects::relocation_front))]
fn print_relocation_front<W: Sink>(
    out: &mut W,
    page: &mut Page,
    row: RelocationRow<'_>,
) -> Result<(), StreamFault>
    ensures { Sends result (W.stream out.old) (W.stream out.new) page.old.items page.new.items (relocation_front row.entry.at row.entry.section row.entry.count row.entry.first) }
{
    print_tokens(
        out,
        page,
        &[
            Token::Text(b"{\"offset\":"),
            Token::Number(row.at),
            Token::Text(b",\"section\":"),
            Token::Number(u64::from(row.section)),
            Token::Text(b",\"halfwords\":"),
            Token::Number(u64::from(row.count)),
            Token::Text(b",\"first\":"),
            Token::Number(u64::from(row.first)),
            Token::Text(b",\"instructions\":"),
        ],
    )
}

/// Prints the list of a program's instructions, or `null` if there is no program.
fn print_program_or_null<W: Sink>(
    out: &mut W,
    page: &mut Page,
    program: Option<ProgramRow<'_>>,
) -> Result<(), StreamFault>
    ensures { Sends result (W.stream out.old) (W.stream out.new) page.old.items page.new.items (program_or_null (option_map program_seen program.entry)) }
{
    match program {
        Some(program) => print_program_list(out, page, program),
        None => send(out, page, b"null"),
    }
}

/// Prints the list of a program's instructions.
#[tactic(auto, unfolding(crate::specs::Programs::program_list))]
fn print_program_list<W: Sink>(
    out: &mut W,
    page: &mut Page,
    program: ProgramRow<'_>,
) -> Result<(), StreamFault>
    ensures { Sends result (W.stream out.old) (W.stream out.new) page.old.items page.new.items (program_list (program_seen program.entry)) }
{
    send(out, page, b"[")?;
    print_instr_objects(out, page, program)?;
    send(out, page, b"]")
}

/// Prints the objects of the instructions of a program, with commas between them.
fn print_instr_objects<W: Sink>(
    out: &mut W,
    page: &mut Page,
    program: ProgramRow<'_>,
) -> Result<(), StreamFault>
    ensures { Sends result (W.stream out.old) (W.stream out.new) page.old.items page.new.items (step_objects program.entry.at true (steps_in (program_seen program.entry))) }
{
    let mut instrs = Instrs::new(program.bytes);
    let mut is_first = true;
    while let Some(step) = instrs.next_placed() {
        let row = InstrRow {
            at: file_offset(program.at, Some(step.0)),
            instr: step.1,
        };
        print_instr_element(out, page, is_first, row)?;
        is_first = false;
    }
    Ok(())
}

/// Prints the object of an instruction in a list.
fn print_instr_element<W: Sink>(
    out: &mut W,
    page: &mut Page,
    is_first: bool,
    row: InstrRow,
) -> Result<(), StreamFault>
    requires { instr_fits row.instr ≡ true }
    ensures { Sends result (W.stream out.old) (W.stream out.new) page.old.items page.new.items (separator is_first ++ instr_object row.at row.instr) }
{
    print_separator(out, page, is_first)?;
    print_instr_object(out, page, row)
}
