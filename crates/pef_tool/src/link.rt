ghost use Rattle.std.specs.Prelude.{◌≡◌};
ghost use Rattle.pef_ports.specs.Sent.{Sends};
ghost use Rattle.pef_tool.specs.Answers.Answers.{Answer, IsDelivered, answer_done};
ghost use Rattle.pef_tool.specs.Link.{LinkAnswers, length_text, lengths_text, linked_text, size_text};

use crate::answers::{Outcome, Reply, deliver};
use crate::linking::link_text;
use crate::reading::read_file;
use pef_faults::Fault;
use pef_ports::{FileFault, Files, Page, Piece, Sink, StreamFault, print_pieces};
use pef_write::LinkedContainer;
use std::alloc::Global;

/// Links the script at a path and writes the container to the path `target`.
///
/// The script is read and linked before anything is written, so both may be the same path.
pub fn link_files<F: Files, W: Sink>(
    alloc: Global,
    files: &mut F,
    script: &[u8],
    target: &[u8],
    out: &mut W,
) -> Outcome
    ensures { (answer : Answer)
        × LinkAnswers (record { state = F.state; reason = F.reason; was_read = F.was_read; was_written = F.was_written }) files.old files.new script.now target.now answer
        × IsDelivered (W.stream out.old) (W.stream out.new) answer result }
{
    let text = match read_file(alloc, files, script) {
        Ok(text) => text,
        Err(fault) => return deliver(out, &fault),
    };
    let linked = match link_text(alloc, text.as_slice()) {
        Ok(linked) => linked,
        Err(fault) => return deliver(out, &fault),
    };
    match files.write(target, linked.bytes()) {
        Ok(()) => deliver(out, &LinkedReply { linked: &linked }),
        Err(FileFault::Failed) => {
            let reason = files.reason();
            deliver(
                out,
                &Fault::Unwritable {
                    path: target,
                    reason,
                },
            )
        }
        Err(FileFault::OutOfMemory) => deliver(out, &Fault::OutOfMemory),
    }
}

/// Returns the answer of `link` for a container that it wrote.
#[derive(Clone, Copy)]
struct LinkedReply<'a> {
    linked: &'a LinkedContainer,
}

impl<'a> Reply for LinkedReply<'a> {
    ghost answer = { λ reply. answer_done (linked_text reply.linked.now) };

    fn outcome(&self) -> Outcome {
        Outcome::Done
    }

    fn print<W: Sink>(&self, out: &mut W, page: &mut Page) -> Result<(), StreamFault> {
        print_linked(out, page, self.linked)
    }
}

/// Prints the number of bytes that were linked, and the number of halfwords of each section's program.
fn print_linked<W: Sink>(
    out: &mut W,
    page: &mut Page,
    linked: &LinkedContainer,
) -> Result<(), StreamFault>
    ensures { Sends result (W.stream out.old) (W.stream out.new) page.old.items page.new.items (linked_text linked.now) }
{
    print_size(out, page, linked.bytes().len())?;
    print_lengths(out, page, linked)
}

/// Prints the lengths of the sections' programs, numbered from 0.
fn print_lengths<W: Sink>(
    out: &mut W,
    page: &mut Page,
    linked: &LinkedContainer,
) -> Result<(), StreamFault>
    ensures { Sends result (W.stream out.old) (W.stream out.new) page.old.items page.new.items (lengths_text 0 linked.now.lengths) }
{
    for k in 0..linked.sections() {
        let Some(length) = linked.length(k) else {
            unreachable!()
        };
        print_length(out, page, k, length)?;
    }
    Ok(())
}

/// Prints the line of a container's size.
#[tactic(auto, unfolding(crate::specs::Link::size_text))]
fn print_size<W: Sink>(out: &mut W, page: &mut Page, size: usize) -> Result<(), StreamFault>
    ensures { Sends result (W.stream out.old) (W.stream out.new) page.old.items page.new.items (size_text size) }
{
    print_pieces(
        out,
        page,
        &[
            Piece::Text(b"linked "),
            Piece::Number(size as u64),
            Piece::Text(b" bytes\n"),
        ],
    )
}

/// Prints the line of the length of section k's program.
#[tactic(auto, unfolding(crate::specs::Link::length_text))]
fn print_length<W: Sink>(
    out: &mut W,
    page: &mut Page,
    k: usize,
    length: u32,
) -> Result<(), StreamFault>
    ensures { Sends result (W.stream out.old) (W.stream out.new) page.old.items page.new.items (length_text k length) }
{
    print_pieces(
        out,
        page,
        &[
            Piece::Text(b"section "),
            Piece::Number(k as u64),
            Piece::Text(b" length "),
            Piece::Number(u64::from(length)),
            Piece::Text(b"\n"),
        ],
    )
}
