//! Bytes as a string of JSON.
ghost use Rattle.std.specs.Prelude.{◌≡◌, ◌≤◌, length};
ghost use Rattle.pef_ports.specs.Sent.{Sends};
ghost use Rattle.cfm_rows.specs.Encoded.{base64_text};

use base64::engine::general_purpose::STANDARD;
use pef_ports::{Page, Sink, StreamFault, send};

/// How many bytes are encoded at once: whole groups of three.
const CHUNK: usize = 192;

/// How many characters these bytes have in base64.
const ENCODED: usize = CHUNK / 3 * 4;

/// Prints bytes in base64.
pub(crate) fn print_base64<W: Sink>(
    out: &mut W,
    page: &mut Page,
    bytes: &[u8],
) -> Result<(), StreamFault>
    ensures { Sends result (W.stream out.old) (W.stream out.new) page.old.items page.new.items (base64_text bytes.now) }
{
    let mut rest = bytes;
    while let Some((chunk, after)) = rest.split_first_chunk::<CHUNK>() {
        print_chunk(out, page, chunk)?;
        rest = after;
    }
    print_chunk(out, page, rest)
}

/// Prints at most as many bytes as are encoded at once.
#[tactic(auto, unfolding(crate::specs::Encoded::base64_text))]
fn print_chunk<W: Sink>(out: &mut W, page: &mut Page, bytes: &[u8]) -> Result<(), StreamFault>
    requires { length bytes.now ≤ 192 }
    ensures { Sends result (W.stream out.old) (W.stream out.new) page.old.items page.new.items (base64_text bytes.now) }
{
    let mut text = [0; ENCODED];
    match STANDARD.encode_slice(bytes, &mut text) {
        Ok(len) => send(out, page, &text[..len]),
        Err(_) => unreachable!(),
    }
}
