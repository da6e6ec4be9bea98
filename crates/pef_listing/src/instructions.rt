ghost use Rattle.std.specs.Prelude.{◌≡◌, [], ◌∷◌, None, Some, true};
ghost use Rattle.std.specs.Option.{option_to_list};
ghost use Rattle.pef_reloc.specs.Instrs.{instr_fits};
ghost use Rattle.pef_reloc.specs.Unrolled.{instrs_of};
ghost use Rattle.pef_reloc.specs.Views.{program_bytes};
ghost use Rattle.pef_reloc.specs.Meanings.{numbers_of};
ghost use Rattle.pef_listing.specs.Instructions.{halfwords_text, instr_text, numbers_text, program_text};
ghost use Rattle.pef_ports.specs.Sent.{Sends};

use pef_ports::{Page, Piece, Sink, StreamFault, print_pieces, send};
use pef_reloc::{Instr, Spelling, instr_numbers, kind_name};

/// Prints the line of an instruction.
#[tactic(auto, unfolding(crate::specs::Instructions::instr_text))]
pub fn print_instr<W: Sink>(out: &mut W, page: &mut Page, instr: Instr) -> Result<(), StreamFault>
    requires { instr_fits instr ≡ true }
    ensures { Sends result (W.stream out.old) (W.stream out.new) page.old.items page.new.items (instr_text instr) }
{
    print_halfwords(out, page, instr.spelling())?;
    send(out, page, kind_name(instr))?;
    print_numbers(out, page, instr)?;
    send(out, page, b"\n")
}

/// Prints one or two halfwords, each before a space.
fn print_halfwords<W: Sink>(
    out: &mut W,
    page: &mut Page,
    spelling: Spelling,
) -> Result<(), StreamFault>
    ensures { Sends result (W.stream out.old) (W.stream out.new) page.old.items page.new.items (halfwords_text (spelling.first ∷ option_to_list spelling.second)) }
{
    let (first, space) = (Piece::Halfword(spelling.first), Piece::Text(b" "));
    match spelling.second {
        None => print_pieces(out, page, &[first, space]),
        Some(second) => print_pieces(out, page, &[first, space, Piece::Halfword(second), space]),
    }
}

/// Prints the numbers of an instruction.
fn print_numbers<W: Sink>(out: &mut W, page: &mut Page, instr: Instr) -> Result<(), StreamFault>
    ensures { Sends result (W.stream out.old) (W.stream out.new) page.old.items page.new.items (numbers_text (numbers_of instr)) }
{
    let numbers = instr_numbers(instr);
    match numbers.second {
        None => print_one(out, page, numbers.first),
        Some(second) => print_two(out, page, numbers.first, second),
    }
}

/// Prints a number after a space.
fn print_one<W: Sink>(out: &mut W, page: &mut Page, n: u32) -> Result<(), StreamFault>
    ensures { Sends result (W.stream out.old) (W.stream out.new) page.old.items page.new.items (numbers_text (n ∷ [])) }
{
    print_pieces(out, page, &[Piece::Text(b" "), Piece::Number(u64::from(n))])
}

/// Prints two numbers, each after a space.
fn print_two<W: Sink>(
    out: &mut W,
    page: &mut Page,
    first: u32,
    second: u32,
) -> Result<(), StreamFault>
    ensures { Sends result (W.stream out.old) (W.stream out.new) page.old.items page.new.items (numbers_text (first ∷ second ∷ [])) }
{
    let space = Piece::Text(b" ");
    let (first, second) = (
        Piece::Number(u64::from(first)),
        Piece::Number(u64::from(second)),
    );
    print_pieces(out, page, &[space, first, space, second])
}
