ghost use Rattle.std.specs.Prelude.{◌≡◌, ◌≤◌, IfErr, IfOk, length, map};
ghost use Rattle.pef_request.specs.Requests.{named_path};
ghost use Rattle.pef_tool.specs.Answers.Answers.{Answer, IsDelivered};
ghost use Rattle.pef_tool.specs.Kept.Loading.{StopsReading};
ghost use Rattle.pef_tool.specs.Limits.{most_files};
ghost use Rattle.pef_tool.specs.Load.{LoadAnswers, WereRead, paired};

use crate::answers::{Outcome, Usage, deliver};
use crate::loaded::deliver_root;
use crate::reading::read_file;
use cfm_closure::{MAX_PAIRS, Store, StoreFault};
use pef_faults::Fault;
use pef_ports::{Files, Sink};
use pef_request::NamedFile;
use std::alloc::Global;

/// Prepares the first of some files and prints the memory of its closure. Libraries are found among the files by their
/// names.
///
/// All files are read, in order, before any of them is parsed.
pub fn load_files<F: Files, W: Sink>(
    alloc: Global,
    files: &mut F,
    named: &[NamedFile<'_>],
    out: &mut W,
) -> Outcome
    ensures { (answer : Answer)
        × LoadAnswers (record { state = F.state; reason = F.reason; was_read = F.was_read; was_written = F.was_written }) files.old files.new (map named_path named.now) answer
        × IsDelivered (W.stream out.old) (W.stream out.new) answer result }
{
    if named.is_empty() || named.len() > MAX_PAIRS {
        return deliver(out, &Usage);
    }
    let read = match read_files(alloc, files, named) {
        Ok(contents) => contents,
        Err(fault) => return deliver(out, &fault),
    };
    let contents = read.as_slice();
    let Ok(store) = store_of(alloc, named, contents) else {
        return deliver(out, &Fault::OutOfMemory);
    };
    deliver_root(alloc, store, named[0].name.as_bytes(), out)
}

/// Returns the bytes of some files, read in order.
fn read_files<'a, F: Files>(
    alloc: Global,
    files: &mut F,
    named: &[NamedFile<'a>],
) -> Result<Vec<Vec<u8>>, Fault<'a>>
    ensures read { IfOk result (λ contents. WereRead (record { state = F.state; reason = F.reason; was_read = F.was_read; was_written = F.was_written }) files.old files.new (map named_path named.now) (map (λ bytes. bytes.items) contents.items)) }
    ensures refused { IfErr result (λ fault. StopsReading (record { state = F.state; reason = F.reason; was_read = F.was_read; was_written = F.was_written }) files.old files.new (map named_path named.now) fault) }
{
    let mut contents = Vec::new(alloc);
    for file in named {
        let bytes = match read_file(alloc, files, file.path.as_bytes()) {
            Ok(bytes) => bytes,
            Err(fault) => return Err(fault),
        };
        let Ok(()) = contents.push(bytes) else {
            return Err(Fault::OutOfMemory);
        };
    }
    Ok(contents)
}

/// Returns the store of files that were read.
fn store_of<'a>(
    alloc: Global,
    named: &'a [NamedFile<'_>],
    contents: &'a [Vec<u8>],
) -> Result<Store<'a>, StoreFault>
    requires few { length named.now ≤ most_files }
    requires each { length contents.now ≡ length named.now }
    ensures { IfOk result (λ store. store ≡ paired (map named_path named.now) (map (λ bytes. bytes.items) contents.now)) }
{
    let mut store = Store::new(alloc);
    for (i, file) in named.iter().enumerate() {
        store.add(file.name.as_bytes(), contents[i].as_slice())?;
    }
    Ok(store)
}
