ghost use Rattle.std.specs.Prelude.{◌≡◌, List, Ok, length, option_map, ℕ};
ghost use Rattle.pef_words.specs.Refusals.{result_map};
ghost use Rattle.pef_ports.specs.Sent.{Sends};
ghost use Rattle.pef_views.specs.Container.{container_of};
ghost use Rattle.pef_views.specs.Extents.{own_part};
ghost use Rattle.pef_tool.specs.Answers.Answers.{Answer, IsDelivered, answer_done};
ghost use Rattle.pef_tool.specs.Companions.{LooksIf};
ghost use Rattle.pef_tool.specs.Extract.{ExtractAnswers, as_fault, extracted_text, found_in, found_with, is_looked_for, number_of, numbered};
ghost use Rattle.pef_tool.specs.Kept.Extracting.{EndsWith, ReadEnds};
ghost use Rattle.pef_tool.specs.Kept.Inspecting.{companion_seen};

use crate::answers::{Outcome, Reply, deliver};
use crate::companion::{Companion, find_companion, may_have_companion};
use crate::reading::read_file;
use crate::spelling::container_asked;
use cfm_members::{MemberLookupFault, numbered_container};
use pef_faults::Fault;
use pef_lines::decimal_number;
use pef_ports::{FileFault, Files, Page, Piece, Sink, StreamFault, print_pieces};
use pef_views::Container;
use std::alloc::Global;

/// What `extract` is asked for: the container with a name in the file at a path, for the file at another.
#[derive(Clone, Copy, Debug)]
pub struct Extraction<'a> {
    pub path: &'a [u8],
    pub name: &'a [u8],
    pub target: &'a [u8],
}

/// Finds a container in the file at a path, and writes it to another path. If a fragment's name is asked for and the file can be
/// a data fork, its companion is looked for, which has the table of fragments.
///
/// The container is found before anything is written, so the paths may be the same.
pub fn extract_file<F: Files, W: Sink>(
    alloc: Global,
    files: &mut F,
    asked: Extraction<'_>,
    out: &mut W,
) -> Outcome
    ensures { (answer : Answer)
        × ExtractAnswers (record { state = F.state; reason = F.reason; was_read = F.was_read; was_written = F.was_written }) files.old files.new asked.entry.path.now asked.entry.name.now asked.entry.target.now answer
        × IsDelivered (W.stream out.old) (W.stream out.new) answer result }
{
    match read_file(alloc, files, asked.path) {
        Ok(bytes) => extract_read(alloc, files, asked, bytes.as_slice(), out),
        Err(fault) => deliver(out, &fault),
    }
}

/// Finds a container in a file that was read, and writes it.
fn extract_read<F: Files, W: Sink>(
    alloc: Global,
    files: &mut F,
    asked: Extraction<'_>,
    bytes: &[u8],
    out: &mut W,
) -> Outcome
    ensures { (answer : Answer)
        × ReadEnds (record { state = F.state; reason = F.reason; was_read = F.was_read; was_written = F.was_written }) files.old files.new asked.entry.path.now asked.entry.name.now asked.entry.target.now bytes.now answer
        × IsDelivered (W.stream out.old) (W.stream out.new) answer result }
{
    let companion = companion_for(alloc, files, asked, bytes);
    match find_with(bytes, &companion, asked.name) {
        Ok(container) => write_container(files, asked.target, container, out),
        Err(fault) => deliver(out, &fault),
    }
}

/// Returns the companion of a file, if a fragment's name is looked for in it.
fn companion_for<'a, F: Files>(
    alloc: Global,
    files: &mut F,
    asked: Extraction<'_>,
    bytes: &[u8],
) -> Option<Companion<'a>>
    ensures { LooksIf (is_looked_for asked.entry.path.now asked.entry.name.now bytes.now) (record { state = F.state; reason = F.reason; was_read = F.was_read; was_written = F.was_written }) files.old files.new asked.entry.path.now (option_map (companion_seen asked.entry.path.now) result) }
{
    if number_of(asked.name).is_none() && may_have_companion(asked.path, bytes) {
        find_companion(alloc, files, asked.path)
    } else {
        None
    }
}

/// Returns the container that is asked for, in a file and its companion.
fn find_with<'a>(
    bytes: &'a [u8],
    companion: &'a Option<Companion<'_>>,
    name: &[u8],
) -> Result<&'a [u8], Fault<'a>>
    ensures { (own : List ℕ) → result_map (λ container. container.now) result ≡ found_with bytes.entry.now name.now (option_map (companion_seen own) companion.now) }
{
    match companion {
        Some(companion) => match companion.resources() {
            Ok(resources) => as_fault(container_asked(bytes, resources, name)),
            Err(fault) => Err(fault),
        },
        None => as_fault(find(bytes, name)),
    }
}

/// Returns what was found, with the error as one of a command.
fn as_fault<'a>(found: Result<&'a [u8], MemberLookupFault>) -> Result<&'a [u8], Fault<'a>>
    ensures { result_map (λ container. container.now) result ≡ as_fault (result_map (λ container. container.now) found.entry) }
{
    match found {
        Ok(container) => Ok(container),
        Err(fault) => Err(Fault::Fragment(fault)),
    }
}

/// Writes a container to the file at a path, and says so.
fn write_container<F: Files, W: Sink>(
    files: &mut F,
    target: &[u8],
    container: &[u8],
    out: &mut W,
) -> Outcome
    ensures { (answer : Answer)
        × EndsWith (record { state = F.state; reason = F.reason; was_read = F.was_read; was_written = F.was_written }) files.old files.new target.now (Ok container.now) answer
        × IsDelivered (W.stream out.old) (W.stream out.new) answer result }
{
    match files.write(target, container) {
        Ok(()) => deliver(
            out,
            &ExtractedReply {
                size: container.len(),
            },
        ),
        Err(FileFault::Failed) => {
            let reason = files.reason();
            deliver(
                out,
                &Fault::Unwritable {
                    path: target,
                    reason,
                },
            )
        }
        Err(FileFault::OutOfMemory) => deliver(out, &Fault::OutOfMemory),
    }
}

/// Returns the container of a file with a number, if the name is `#` and a decimal number, else that of the fragment with
/// the name.
#[tactic(auto, unfolding(crate::specs::Extract::found_in))]
fn find<'a>(bytes: &'a [u8], name: &[u8]) -> Result<&'a [u8], MemberLookupFault>
    ensures { result_map (λ container. container.now) result ≡ found_in bytes.entry.now name.now }
{
    match number_of(name) {
        Some(number) => find_numbered(bytes, number as usize),
        None => container_asked(bytes, bytes, name),
    }
}

/// Returns the container with a number, without the bytes after it.
fn find_numbered<'a>(bytes: &'a [u8], number: usize) -> Result<&'a [u8], MemberLookupFault>
    ensures { result_map (λ container. container.now) result ≡ numbered bytes.entry.now number }
{
    match numbered_container(bytes, number) {
        Some(rest) => Ok(own_part(rest)),
        None => Err(MemberLookupFault::NoContainer),
    }
}

/// Returns the bytes of a container without those after it. Other bytes are all kept.
fn own_part<'a>(rest: &'a [u8]) -> &'a [u8]
    ensures { result.now ≡ own_part rest.entry.now (container_of rest.entry.now) }
{
    match Container::read(rest) {
        Ok(container) => container.own_bytes(),
        Err(_) => rest,
    }
}

/// Returns the number that a name is, after `#`.
fn number_of(name: &[u8]) -> Option<u32>
    ensures { result ≡ number_of name.now }
{
    match name {
        [b'#', digits @ ..] => decimal_number(digits),
        _ => None,
    }
}

/// Returns the answer of `extract` for a container that it wrote.
#[derive(Clone, Copy)]
struct ExtractedReply {
    size: usize,
}

impl Reply for ExtractedReply {
    ghost answer = { λ reply. answer_done (extracted_text reply.size) };

    fn outcome(&self) -> Outcome {
        Outcome::Done
    }

    #[tactic(auto, unfolding(crate::specs::Extract::extracted_text))]
    fn print<W: Sink>(&self, out: &mut W, page: &mut Page) -> Result<(), StreamFault> {
        print_pieces(
            out,
            page,
            &[
                Piece::Text(b"extracted "),
                Piece::Number(self.size as u64),
                Piece::Text(b" bytes\n"),
            ],
        )
    }
}
