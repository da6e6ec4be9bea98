ghost use Rattle.std.specs.Prelude.{◌≡◌, ◌+◌, ◌≤◌, ◌^◌, length};
ghost use Rattle.pef_ports.specs.Sent.{Sends};
ghost use Rattle.pef_tool.specs.Fragment.{heading_text, section_text};

use pef_ports::{Page, Piece, Sink, StreamFault, print_memory, print_pieces};

/// Prints a section with its number: its address and its bytes.
pub fn print_bytes<W: Sink>(
    out: &mut W,
    page: &mut Page,
    i: usize,
    address: u32,
    bytes: &[u8],
) -> Result<(), StreamFault>
    requires { address + length bytes.now ≤ 2 ^ 32 }
    ensures { Sends result (W.stream out.old) (W.stream out.new) page.old.items page.new.items (section_text i (record { address = address; bytes = bytes.now })) }
{
    print_heading(out, page, i, address, bytes.len())?;
    print_memory(out, page, address, bytes)
}

/// Prints the line above a section's memory.
#[tactic(auto, unfolding(crate::specs::Fragment::heading_text))]
fn print_heading<W: Sink>(
    out: &mut W,
    page: &mut Page,
    i: usize,
    address: u32,
    size: usize,
) -> Result<(), StreamFault>
    ensures { Sends result (W.stream out.old) (W.stream out.new) page.old.items page.new.items (heading_text i address size) }
{
    print_pieces(
        out,
        page,
        &[
            Piece::Text(b"section "),
            Piece::Number(i as u64),
            Piece::Text(b" at "),
            Piece::Word(address),
            Piece::Text(b" size "),
            Piece::Number(size as u64),
            Piece::Text(b"\n"),
        ],
    )
}
