//! Makes stubs of the libraries that the fragments of some files lack, and writes them.
ghost use Rattle.std.specs.Prelude.{◌≡◌, ◌++◌, IfErr, IfOk, [], map, option_map};
ghost use Rattle.cfm_rows.specs.Symbols.{symbol_lines};
ghost use Rattle.pef_gather.specs.Seen.{found_seen, given_seen};
ghost use Rattle.pef_gather.specs.Stores.{supplied};
ghost use Rattle.pef_ports.specs.Sent.{Sends};
ghost use Rattle.pef_request.specs.Requests.{stubs_of};
ghost use Rattle.pef_tool.specs.Answers.Answers.{Answer, IsDelivered, answer_done};
ghost use Rattle.pef_tool.specs.WriteStubs.{AreFound, StubsAnswers, StubsGiven, WritesStubs, folder_in, stub_file, stub_written, values_of, written_line, written_text};
ghost use Rattle.pef_tool.specs.Kept.StubFiles.{PlacesStubs, StubsFound, UnmadeStubs, file_seen};

use crate::answers::{Outcome, Reply, deliver};
use crate::gathering::{given_files, read_wanted, wanted_roots};
use crate::prepare::gather_fault;
use crate::writing::write_then_deliver;
use cfm_files::{FileToWrite, stub_path};
use cfm_rows::print_symbol_lines;
use cfm_stubs::{Stub, StubValues, stubs};
use pef_faults::Fault;
use pef_gather::{Found, GivenFile, fragments_in, store_with};
use pef_ports::{Files, Page, Piece, Sink, StreamFault, print_pieces};
use pef_request::{StubSymbols, StubsRequest};
use std::alloc::{AllocError, Global};

/// The instruction `sc`, which an emulator catches.
const SYSTEM_CALL: u32 = 0x4400_0002;

/// How many zeros the data of a symbol are in memory.
const DATA_SIZE: u32 = 16;

/// Makes stubs of the libraries that the fragments of some files lack, and writes each to a file that is named after its library. Prints
/// a line for each, and what its numbers mean.
///
/// All files are read before any of them is parsed, and all stubs are made before one is written.
pub fn stub_files<F: Files, W: Sink>(
    alloc: Global,
    files: &mut F,
    asked: &StubsRequest<'_>,
    out: &mut W,
) -> Outcome
    ensures { (answer : Answer)
        × StubsAnswers (record { state = F.state; reason = F.reason; was_read = F.was_read; was_written = F.was_written }) files.old files.new (stubs_of asked.now) answer
        × IsDelivered (W.stream out.old) (W.stream out.new) answer result }
{
    let Ok(wanted) = wanted_roots(alloc, asked.files.as_slice()) else {
        return deliver(out, &Fault::OutOfMemory);
    };
    let read = match read_wanted(alloc, files, wanted.as_slice()) {
        Ok(read) => read,
        Err(fault) => return deliver(out, &fault),
    };
    let Ok(given) = given_files(alloc, read.as_slice()) else {
        return deliver(out, &Fault::OutOfMemory);
    };
    stub_given(alloc, files, given.as_slice(), asked, out)
}

/// Makes stubs of the libraries that the fragments of files that were read lack, and writes them.
fn stub_given<F: Files, W: Sink>(
    alloc: Global,
    files: &mut F,
    given: &[GivenFile<'_>],
    asked: &StubsRequest<'_>,
    out: &mut W,
) -> Outcome
    ensures { (answer : Answer)
        × StubsGiven (record { state = F.state; reason = F.reason; was_read = F.was_read; was_written = F.was_written }) files.old files.new (stubs_of asked.now) (map given_seen given.now) answer
        × IsDelivered (W.stream out.old) (W.stream out.new) answer result }
{
    let found = match fragments_in(alloc, given) {
        Ok(found) => found,
        Err(fault) => return deliver(out, &gather_fault(fault)),
    };
    stub_found(alloc, files, found.as_slice(), asked, out)
}

/// Makes stubs of the libraries that some fragments lack, and writes them.
fn stub_found<F: Files, W: Sink>(
    alloc: Global,
    files: &mut F,
    found: &[Found<'_>],
    asked: &StubsRequest<'_>,
    out: &mut W,
) -> Outcome
    ensures { (answer : Answer)
        × StubsFound (record { state = F.state; reason = F.reason; was_read = F.was_read; was_written = F.was_written }) files.old files.new (stubs_of asked.now) (map found_seen found.now) answer
        × IsDelivered (W.stream out.old) (W.stream out.new) answer result }
{
    match make_stubs(alloc, found, asked) {
        Ok(stubs) => place_stubs(alloc, files, folder_in(asked), stubs.as_slice(), out),
        Err(fault) => deliver(out, &fault),
    }
}

/// Writes stubs to files in a folder.
fn place_stubs<F: Files, W: Sink>(
    alloc: Global,
    files: &mut F,
    folder: &[u8],
    stubs: &[Stub<'_>],
    out: &mut W,
) -> Outcome
    ensures { (answer : Answer)
        × PlacesStubs (record { state = F.state; reason = F.reason; was_read = F.was_read; was_written = F.was_written }) files.old files.new (map (stub_file folder.now) stubs.now) answer
        × IsDelivered (W.stream out.old) (W.stream out.new) answer result }
{
    match stub_files_in(alloc, folder, stubs) {
        Ok(placed) => write_stubs(files, placed.as_slice(), out),
        Err(AllocError) => deliver(out, &Fault::OutOfMemory),
    }
}

/// Returns the stubs of the libraries that some fragments lack.
fn make_stubs<'a>(
    alloc: Global,
    found: &[Found<'a>],
    asked: &StubsRequest<'_>,
) -> Result<Vec<Stub<'a>>, Fault<'a>>
    ensures made { IfOk result (λ stubs. AreFound (stubs_of asked.now) (supplied (map found_seen found.now) []) stubs.items) }
    ensures refused { IfErr result (λ fault. UnmadeStubs (stubs_of asked.now) (map found_seen found.now) fault) }
{
    let store = match store_with(alloc, found, &[]) {
        Ok(store) => store,
        Err(fault) => return Err(gather_fault(fault)),
    };
    match stubs(alloc, &store, values_of(asked.symbols), asked.weak) {
        Ok(stubs) => Ok(stubs),
        Err(fault) => Err(Fault::Stub(fault)),
    }
}

/// Returns what the symbols of stubs are.
fn values_of(symbols: StubSymbols) -> StubValues
    ensures { result ≡ values_of symbols }
{
    match symbols {
        StubSymbols::Numbers { first, step } => StubValues::Numbers { first, step },
        StubSymbols::Memory => StubValues::Memory {
            word: SYSTEM_CALL,
            size: DATA_SIZE,
        },
    }
}

/// Returns the folder that gets the stubs.
fn folder_in<'a>(asked: &StubsRequest<'a>) -> &'a [u8]
    ensures { result.now ≡ folder_in (option_map (λ folder. folder.now) asked.now.out) }
{
    match asked.out {
        Some(folder) => folder.as_bytes(),
        None => b".",
    }
}

/// Returns stubs with the paths of their files in a folder.
fn stub_files_in<'r, 'a>(
    alloc: Global,
    folder: &[u8],
    stubs: &'r [Stub<'a>],
) -> Result<Vec<StubFile<'r, 'a>>, AllocError>
    ensures { IfOk result (λ found. map file_seen found.items ≡ map (stub_file folder.now) stubs.entry.now) }
{
    let mut found = Vec::with_capacity(alloc, stubs.len())?;
    for stub in stubs {
        let path = stub_path(alloc, folder, stub.name())?;
        found.push(StubFile { path, stub })?;
    }
    Ok(found)
}

/// A stub with the path of its file.
#[derive(Drop)]
pub(crate) struct StubFile<'r, 'a> {
    path: Vec<u8>,
    stub: &'r Stub<'a>,
}

impl<'r, 'a> FileToWrite for StubFile<'r, 'a> {
    ghost file = { λ it. stub_written (file_seen it) };

    fn path(&self) -> &[u8] {
        self.path.as_slice()
    }

    fn bytes(&self) -> &[u8] {
        self.stub.bytes()
    }
}

/// Writes stubs, and prints them, or why one isn't written.
fn write_stubs<F: Files, W: Sink>(files: &mut F, stubs: &[StubFile<'_, '_>], out: &mut W) -> Outcome
    ensures { (answer : Answer)
        × WritesStubs (record { state = F.state; reason = F.reason; was_read = F.was_read; was_written = F.was_written }) files.old files.new (map file_seen stubs.now) answer
        × IsDelivered (W.stream out.old) (W.stream out.new) answer result }
{
    write_then_deliver(files, stubs, &WrittenStubs { stubs }, out)
}

/// The answer of `stubs` for those that were written.
#[derive(Clone, Copy)]
struct WrittenStubs<'r, 'a> {
    stubs: &'r [StubFile<'r, 'a>],
}

impl<'r, 'a> Reply for WrittenStubs<'r, 'a> {
    ghost answer = { λ reply. answer_done (written_text (map file_seen reply.stubs.now)) };

    fn outcome(&self) -> Outcome {
        Outcome::Done
    }

    fn print<W: Sink>(&self, out: &mut W, page: &mut Page) -> Result<(), StreamFault> {
        print_written_stubs(out, page, self.stubs)
    }
}

/// Prints stubs that were written.
fn print_written_stubs<W: Sink>(
    out: &mut W,
    page: &mut Page,
    stubs: &[StubFile<'_, '_>],
) -> Result<(), StreamFault>
    ensures { Sends result (W.stream out.old) (W.stream out.new) page.old.items page.new.items (written_text (map file_seen stubs.now)) }
{
    for file in stubs {
        print_written(out, page, file)?;
    }
    Ok(())
}

/// Prints a stub that was written, and its symbols that are numbers.
fn print_written<W: Sink>(
    out: &mut W,
    page: &mut Page,
    file: &StubFile<'_, '_>,
) -> Result<(), StreamFault>
    ensures { Sends result (W.stream out.old) (W.stream out.new) page.old.items page.new.items (written_line (file_seen file.now) ++ symbol_lines (file_seen file.now).stub.exports) }
{
    print_written_line(out, page, file)?;
    print_symbol_lines(out, page, file.stub)
}

/// Prints the line of a stub that was written.
#[tactic(auto, unfolding(crate::specs::WriteStubs::written_line))]
fn print_written_line<W: Sink>(
    out: &mut W,
    page: &mut Page,
    file: &StubFile<'_, '_>,
) -> Result<(), StreamFault>
    ensures { Sends result (W.stream out.old) (W.stream out.new) page.old.items page.new.items (written_line (file_seen file.now)) }
{
    print_pieces(
        out,
        page,
        &[
            Piece::Text(b"stub "),
            Piece::Name(file.stub.name()),
            Piece::Text(b" "),
            Piece::Number(file.stub.len() as u64),
            Piece::Text(b" "),
            Piece::Name(file.path.as_slice()),
            Piece::Text(b"\n"),
        ],
    )
}
