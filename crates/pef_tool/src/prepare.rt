ghost use Rattle.std.specs.Option.{option_copied};
ghost use Rattle.std.specs.Prelude.{◌≡◌, IfErr, IfOk, MatchResult, Some, [], map};
ghost use Rattle.pef_gather.specs.Seen.{found_seen, given_seen};
ghost use Rattle.pef_gather.specs.Stores.{supplied};
ghost use Rattle.pef_request.specs.Requests.{form_of, preparation_of};
ghost use Rattle.pef_tool.specs.Answers.Answers.{Answer, IsDelivered};
ghost use Rattle.pef_tool.specs.Kept.Gathering.{wanted_seen};
ghost use Rattle.pef_tool.specs.Kept.Supplying.{FoundEnds, SuppliedEnds, gather_fault, supplied_text};
ghost use Rattle.pef_tool.specs.Prepare.{AnswersPrepared, AreMade, AreNotMade, PrepareAnswers, PreparesGiven, StopsStubs, files_folder, root_name, wanted_files};

use crate::answers::{Outcome, deliver};
use crate::gathering::{
    WantedFile, add_libraries, bytes_of, given_files, read_wanted, wanted_roots,
};
use crate::loaded::{order_of, prepare_root};
use crate::supplied::Supplied;
use crate::writing::write_then_deliver;
use cfm_files::section_files;
use cfm_prepare::PrepareFault;
use cfm_store::Store;
use cfm_stubs::{Stub, StubFault, StubValues, stubs};
use pef_faults::Fault;
use pef_gather::{Found, GatherFault, GivenFile, gather, store_with};
use pef_ports::{Files, Sink};
use pef_request::{PrepareRequest, PreparedForm, Stubbing};
use std::alloc::{AllocError, Global};

/// The numbers of the symbols of stubs.
const STUB_NUMBERS: StubValues = StubValues::Numbers {
    first: 0xF000_0000,
    step: 16,
};

/// Prepares the root of some files, with the libraries of all of them and stubs of those that are missing. Writes the bytes of its
/// closure's sections to files, if it is asked for them. Prints the memory of the closure, what the stubs' numbers mean, and the file that
/// each fragment comes from.
///
/// All files are read, in order and each with its companion, before any of them is parsed.
pub fn prepare_files<F: Files, W: Sink>(
    alloc: Global,
    files: &mut F,
    asked: &PrepareRequest<'_>,
    out: &mut W,
) -> Outcome
    ensures { (answer : Answer)
        × PrepareAnswers (record { state = F.state; reason = F.reason; was_read = F.was_read; was_written = F.was_written }) files.old files.new (preparation_of asked.now) answer
        × IsDelivered (W.stream out.old) (W.stream out.new) answer result }
{
    let Ok(wanted) = wanted_files(alloc, asked) else {
        return deliver(out, &Fault::OutOfMemory);
    };
    let read = match read_wanted(alloc, files, wanted.as_slice()) {
        Ok(read) => read,
        Err(fault) => return deliver(out, &fault),
    };
    let Ok(given) = given_files(alloc, read.as_slice()) else {
        return deliver(out, &Fault::OutOfMemory);
    };
    deliver_given(alloc, files, given.as_slice(), asked, out)
}

/// Returns the files that `prepare` reads, in order.
fn wanted_files<'a>(
    alloc: Global,
    asked: &PrepareRequest<'a>,
) -> Result<Vec<WantedFile<'a>>, AllocError>
    ensures { IfOk result (λ wanted. map wanted_seen wanted.items ≡ wanted_files (preparation_of asked.now)) }
{
    let mut wanted = wanted_roots(alloc, asked.files.as_slice())?;
    add_libraries(&mut wanted, asked.libraries.as_slice())?;
    add_libraries(&mut wanted, asked.folders.as_slice())?;
    Ok(wanted)
}

/// Prepares the root of files that were read, and prints its closure or the reason why it isn't prepared.
fn deliver_given<F: Files, W: Sink>(
    alloc: Global,
    files: &mut F,
    given: &[GivenFile<'_>],
    asked: &PrepareRequest<'_>,
    out: &mut W,
) -> Outcome
    ensures { (answer : Answer)
        × PreparesGiven (record { state = F.state; reason = F.reason; was_read = F.was_read; was_written = F.was_written }) files.old files.new (preparation_of asked.now) (map given_seen given.now) answer
        × IsDelivered (W.stream out.old) (W.stream out.new) answer result }
{
    let found = match gather(alloc, given, bytes_of(asked.root)) {
        Ok(found) => found,
        Err(fault) => return deliver(out, &gather_fault(fault)),
    };
    deliver_found(alloc, files, found.as_slice(), asked, out)
}

/// Prepares the root of some fragments, and prints its closure or the reason why it isn't prepared.
fn deliver_found<F: Files, W: Sink>(
    alloc: Global,
    files: &mut F,
    found: &[Found<'_>],
    asked: &PrepareRequest<'_>,
    out: &mut W,
) -> Outcome
    ensures { (answer : Answer)
        × FoundEnds (record { state = F.state; reason = F.reason; was_read = F.was_read; was_written = F.was_written }) files.old files.new (preparation_of asked.now) (map found_seen found.now) answer
        × IsDelivered (W.stream out.old) (W.stream out.new) answer result }
{
    match stubs_for(alloc, found, asked.stubs) {
        Ok(stubs) => {
            let supply = Supply {
                found,
                stubs: stubs.as_slice(),
                form: asked.form,
            };
            deliver_supplied(alloc, files, &supply, out)
        }
        Err(fault) => deliver(out, &fault),
    }
}

/// Returns the error of a command whose fragments weren't gathered.
pub(crate) fn gather_fault<'a>(fault: GatherFault<'a>) -> Fault<'a>
    ensures { result ≡ gather_fault fault.entry }
{
    match fault {
        GatherFault::Untold { path, fault } => Fault::Untold { path, fault },
        GatherFault::RootMissing => Fault::Prepare(PrepareFault::RootMissing),
        GatherFault::StoreFull => Fault::StoreFull,
        GatherFault::OutOfMemory => Fault::OutOfMemory,
    }
}

/// Returns the stubs of the libraries that some fragments lack.
fn stubs_for<'a>(
    alloc: Global,
    found: &[Found<'a>],
    stubbing: Stubbing,
) -> Result<Vec<Stub<'a>>, Fault<'a>>
    ensures made { IfOk result (λ stubs. AreMade stubbing (supplied (map found_seen found.now) []) stubs.items) }
    ensures refused { IfErr result (λ fault. StopsStubs stubbing (map found_seen found.now) fault) }
{
    let store = match store_with(alloc, found, &[]) {
        Ok(store) => store,
        Err(fault) => return Err(gather_fault(fault)),
    };
    match make_stubs(alloc, &store, stubbing) {
        Ok(stubs) => Ok(stubs),
        Err(fault) => Err(Fault::Stub(fault)),
    }
}

/// Returns the stubs of the libraries that a store lacks.
fn make_stubs<'a>(
    alloc: Global,
    store: &Store<'a>,
    stubbing: Stubbing,
) -> Result<Vec<Stub<'a>>, StubFault>
    ensures { MatchResult result (λ made. AreMade stubbing store.now made.items) (λ fault. AreNotMade stubbing store.now fault) }
{
    match stubbing {
        Stubbing::Nothing => Ok(Vec::new(alloc)),
        Stubbing::Required => stubs(alloc, store, STUB_NUMBERS, false),
        Stubbing::All => stubs(alloc, store, STUB_NUMBERS, true),
    }
}

/// The fragments of some files, with the stubs of what these lack, and how they are printed.
#[derive(Clone, Copy)]
struct Supply<'r, 'a> {
    found: &'r [Found<'a>],
    stubs: &'r [Stub<'a>],
    form: PreparedForm<'r>,
}

/// Prepares the root of some fragments with stubs, and prints its closure or the reason why it isn't prepared.
fn deliver_supplied<'r, 'a: 'r, F: Files, W: Sink>(
    alloc: Global,
    files: &mut F,
    supply: &Supply<'r, 'a>,
    out: &mut W,
) -> Outcome
    ensures { (answer : Answer)
        × SuppliedEnds (record { state = F.state; reason = F.reason; was_read = F.was_read; was_written = F.was_written }) files.old files.new (form_of supply.now.form) (map found_seen supply.now.found.now) supply.now.stubs.now answer
        × IsDelivered (W.stream out.old) (W.stream out.new) answer result }
{
    let store = match store_with(alloc, supply.found, supply.stubs) {
        Ok(store) => store,
        Err(fault) => return deliver(out, &gather_fault(fault)),
    };
    match prepare_root(alloc, store, root_name(supply.found)) {
        Ok(loaded) => {
            let shown = Supplied {
                loaded,
                found: supply.found,
                stubs: supply.stubs,
                form: supply.form,
            };
            deliver_prepared(alloc, files, &shown, out)
        }
        Err(fault) => deliver(out, &Fault::Prepare(fault)),
    }
}

/// Writes the files of a connection's sections, if they are asked for, and prints the connection.
fn deliver_prepared<F: Files, W: Sink>(
    alloc: Global,
    files: &mut F,
    shown: &Supplied<'_, '_>,
    out: &mut W,
) -> Outcome
    ensures { (answer : Answer)
        × AnswersPrepared (record { state = F.state; reason = F.reason; was_read = F.was_read; was_written = F.was_written }) files.old files.new (files_folder (form_of shown.now.form)) shown.now.loaded.context shown.now.loaded.connection.0 (supplied_text shown.now) answer
        × IsDelivered (W.stream out.old) (W.stream out.new) answer result }
{
    match files_folder(shown.form) {
        Some(folder) => deliver_with_files(alloc, files, folder, shown, out),
        None => deliver(out, shown),
    }
}

/// Returns the folder that gets the files of sections, if they are asked for.
fn files_folder<'a>(form: PreparedForm<'a>) -> Option<&'a [u8]>
    ensures { option_copied result ≡ files_folder (form_of form.entry) }
{
    match form {
        PreparedForm::JsonWithFiles { folder } => Some(folder.as_bytes()),
        PreparedForm::Lines | PreparedForm::Json | PreparedForm::JsonWithBytes => None,
    }
}

/// Writes the files of a connection's sections to a folder, and prints the connection.
fn deliver_with_files<F: Files, W: Sink>(
    alloc: Global,
    files: &mut F,
    folder: &[u8],
    shown: &Supplied<'_, '_>,
    out: &mut W,
) -> Outcome
    ensures { (answer : Answer)
        × AnswersPrepared (record { state = F.state; reason = F.reason; was_read = F.was_read; was_written = F.was_written }) files.old files.new (Some folder.now) shown.now.loaded.context shown.now.loaded.connection.0 (supplied_text shown.now) answer
        × IsDelivered (W.stream out.old) (W.stream out.new) answer result }
{
    let context = &shown.loaded.context;
    let order = order_of(context, shown.loaded.connection);
    match section_files(alloc, context, folder, order) {
        Ok(planned) => write_then_deliver(files, planned.as_slice(), shown, out),
        Err(AllocError) => deliver(out, &Fault::OutOfMemory),
    }
}

/// Returns the name of the root, which is the first of some fragments.
fn root_name<'a>(found: &[Found<'a>]) -> &'a [u8]
    ensures { result.now ≡ root_name (map found_seen found.now) }
{
    match found.first() {
        Some(fragment) => fragment.candidate.name,
        None => b"",
    }
}
