ghost use Rattle.std.specs.Prelude.{◌≡◌, option_map};
ghost use Rattle.pef_ports.specs.Sent.{Sends};
ghost use Rattle.pef_faults.specs.Faults.{fault_line, fault_path};
ghost use Rattle.pef_faults.specs.Names.{fault_names};
ghost use Rattle.pef_tool.specs.Answers.Faults.{fault_answer, line_text, name_end, names_text, path_text, refused_text, reported_text};

use crate::answers::outcome::Outcome;
use crate::answers::reply::Reply;
use pef_faults::{Fault, note_of};
use pef_ports::{Page, Piece, Sink, StreamFault, print_pieces, send};

impl<'a> Reply for Fault<'a> {
    ghost answer = { fault_answer };

    #[tactic(auto, unfolding(crate::specs::Answers::Faults::fault_answer))]
    fn outcome(&self) -> Outcome {
        Outcome::Refused {
            number: self.number(),
            note: note_of(self),
        }
    }

    fn print<W: Sink>(&self, out: &mut W, page: &mut Page) -> Result<(), StreamFault> {
        print_refused(out, page, self.number(), self.name())?;
        print_line(out, page, self)?;
        print_names(out, page, self)?;
        print_path(out, page, self)?;
        send(out, page, b"\n")
    }
}

/// Prints the start of an error's line: its number and its name.
fn print_refused<W: Sink>(
    out: &mut W,
    page: &mut Page,
    number: u32,
    name: &str,
) -> Result<(), StreamFault>
    ensures { Sends result (W.stream out.old) (W.stream out.new) page.old.items page.new.items (refused_text number name.now) }
{
    print_pieces(
        out,
        page,
        &[
            Piece::Text(b"refused "),
            Piece::Number(u64::from(number)),
            Piece::Text(b" "),
            Piece::Text(name.as_bytes()),
        ],
    )
}

/// Prints the number of the line that is refused, if there is one.
fn print_line<W: Sink>(out: &mut W, page: &mut Page, fault: &Fault<'_>) -> Result<(), StreamFault>
    ensures { Sends result (W.stream out.old) (W.stream out.new) page.old.items page.new.items (line_text (fault_line fault.now)) }
{
    match fault.line() {
        Some(line) => print_pieces(
            out,
            page,
            &[Piece::Text(b" line "), Piece::Number(line as u64)],
        ),
        None => Ok(()),
    }
}

/// Prints the names that the error gives.
fn print_names<W: Sink>(out: &mut W, page: &mut Page, fault: &Fault<'_>) -> Result<(), StreamFault>
    ensures { Sends result (W.stream out.old) (W.stream out.new) page.old.items page.new.items (names_text (fault_names fault.now)) }
{
    let names = fault.names();
    print_reported(out, page, b" in ", names.fragment)?;
    print_reported(out, page, b" library ", names.library)?;
    print_reported(out, page, b" symbol ", names.symbol)
}

/// Prints the path of the file that couldn't be read or written, if there is one.
fn print_path<W: Sink>(out: &mut W, page: &mut Page, fault: &Fault<'_>) -> Result<(), StreamFault>
    ensures { Sends result (W.stream out.old) (W.stream out.new) page.old.items page.new.items (path_text (fault_path fault.now)) }
{
    print_reported(out, page, b" ", fault.path())
}

/// Prints a word and then a name, if there is a name.
fn print_reported<W: Sink>(
    out: &mut W,
    page: &mut Page,
    word: &[u8],
    name: Option<&[u8]>,
) -> Result<(), StreamFault>
    ensures { Sends result (W.stream out.old) (W.stream out.new) page.old.items page.new.items (reported_text word.now (option_map (λ name. name.now) name.entry)) }
{
    match name {
        Some(name) => print_pieces(out, page, &[Piece::Text(word), Piece::Name(name)]),
        None => Ok(()),
    }
}

/// Prints a name and ends its line.
pub fn print_name_end<W: Sink>(out: &mut W, page: &mut Page, name: &[u8]) -> Result<(), StreamFault>
    ensures { Sends result (W.stream out.old) (W.stream out.new) page.old.items page.new.items (name_end name.now) }
{
    print_pieces(out, page, &[Piece::Name(name), Piece::Text(b"\n")])
}
