//! The lines of stubs, and of the files that fragments come from.
ghost use Rattle.std.specs.Prelude.{◌≡◌};
ghost use Rattle.pef_ports.specs.Sent.{Sends};
ghost use Rattle.cfm_rows.specs.Lines.{source_line, stub_line, symbol_line};

use pef_ports::{Page, Piece, Sink, StreamFault, print_pieces};

/// Prints the line of a stub: the name of its library.
#[tactic(auto, unfolding(crate::specs::Lines::stub_line))]
pub fn print_stub_line<W: Sink>(
    out: &mut W,
    page: &mut Page,
    library: &[u8],
) -> Result<(), StreamFault>
    ensures { Sends result (W.stream out.old) (W.stream out.new) page.old.items page.new.items (stub_line library.now) }
{
    print_pieces(
        out,
        page,
        &[
            Piece::Text(b"stub "),
            Piece::Name(library),
            Piece::Text(b"\n"),
        ],
    )
}

/// Prints the line of a stub's symbol: its number, and its name.
#[tactic(auto, unfolding(crate::specs::Lines::symbol_line))]
pub fn print_symbol_line<W: Sink>(
    out: &mut W,
    page: &mut Page,
    address: u32,
    name: &[u8],
) -> Result<(), StreamFault>
    ensures { Sends result (W.stream out.old) (W.stream out.new) page.old.items page.new.items (symbol_line address name.now) }
{
    print_pieces(
        out,
        page,
        &[
            Piece::Text(b"symbol "),
            Piece::Word(address),
            Piece::Text(b" "),
            Piece::Name(name),
            Piece::Text(b"\n"),
        ],
    )
}

/// Prints the line of a fragment's source: its name, and the path of the file that it comes from.
#[tactic(auto, unfolding(crate::specs::Lines::source_line))]
pub fn print_source_line<'t, W: Sink>(
    out: &mut W,
    page: &mut Page,
    fragment: &'t [u8],
    path: &'t [u8],
) -> Result<(), StreamFault>
    ensures { Sends result (W.stream out.old) (W.stream out.new) page.old.items page.new.items (source_line fragment.now path.now) }
{
    print_pieces(
        out,
        page,
        &[
            Piece::Text(b"source "),
            Piece::Name(fragment),
            Piece::Text(b" "),
            Piece::Name(path),
            Piece::Text(b"\n"),
        ],
    )
}
