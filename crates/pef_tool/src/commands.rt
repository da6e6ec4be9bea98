ghost use Rattle.std.specs.Prelude.{◌≡◌, Some, map, string_bytes};
ghost use Rattle.pef_request.specs.CommandLine.{request_by};
ghost use Rattle.pef_request.specs.Requests.{asked_of};
ghost use Rattle.pef_tool.specs.Answers.Answers.{Answer, IsDelivered, status_of};
ghost use Rattle.pef_tool.specs.Answers.Faults.{fault_answer};
ghost use Rattle.pef_faults.specs.declared.fault.Fault.TheVariants.{OutOfMemory};
ghost use Rattle.pef_tool.specs.declared.answers.outcome.Outcome.{Outcome};
ghost use Rattle.pef_tool.specs.Run.{RunAnswers};

use crate::answers::{Outcome, Usage, deliver};
use crate::check::check_files;
use crate::distances::print_distances;
use crate::extract::{Extraction, extract_file};
use crate::inspect::{Inspected, InspectedPair, inspect_files, inspect_listed, inspect_pair};
use crate::link::link_files;
use crate::list::list_file;
use crate::load::load_files;
use crate::prepare::prepare_files;
use crate::show::show_input;
use crate::version::print_version;
use crate::write_stubs::stub_files;
use pef_faults::Fault;
use pef_ports::{Files, Sink, Source};
use pef_request::{Request, WordsFault, read_request};
use std::alloc::Global;

/// Runs the command that the words ask for, and returns the status. The first word is the program's name.
///
/// The status is 0 if the command is done. It is 1 if the command is refused, `check` answers no or the output fails.
/// It is 2 if the command line is invalid.
pub fn run<F: Files, R: Source, W: Sink>(
    alloc: Global,
    words: &[String],
    files: &mut F,
    input: &mut R,
    out: &mut W,
) -> u8
    ensures { (answer : Answer)
        × (outcome : Outcome)
        × RunAnswers (record { state = F.state; reason = F.reason; was_read = F.was_read; was_written = F.was_written }) R.stream (request_by (map string_bytes words.now)) files.old files.new input.old input.new answer
        × IsDelivered (W.stream out.old) (W.stream out.new) answer outcome
        × (result ≡ status_of outcome) }
{
    perform(alloc, words, files, input, out).status()
}

/// Runs a command as [`run`] does, and returns the outcome, which [`explain`](crate::explain) takes.
pub fn perform<F: Files, R: Source, W: Sink>(
    alloc: Global,
    words: &[String],
    files: &mut F,
    input: &mut R,
    out: &mut W,
) -> Outcome
    ensures { (answer : Answer)
        × RunAnswers (record { state = F.state; reason = F.reason; was_read = F.was_read; was_written = F.was_written }) R.stream (request_by (map string_bytes words.now)) files.old files.new input.old input.new answer
        × IsDelivered (W.stream out.old) (W.stream out.new) answer result }
{
    match read_request(alloc, words) {
        Ok(request) => run_request(alloc, request, files, input, out),
        Err(WordsFault::Usage) => deliver(out, &Usage),
        Err(WordsFault::OutOfMemory) => deliver(out, &Fault::OutOfMemory),
    }
}

/// Prints that an allocation failed before the words were parsed.
pub fn out_of_memory<W: Sink>(out: &mut W) -> Outcome
    ensures { IsDelivered (W.stream out.old) (W.stream out.new) (fault_answer OutOfMemory) result }
{
    deliver(out, &Fault::OutOfMemory)
}

/// Runs the command of a request.
fn run_request<F: Files, R: Source, W: Sink>(
    alloc: Global,
    request: Request<'_>,
    files: &mut F,
    input: &mut R,
    out: &mut W,
) -> Outcome
    ensures { (answer : Answer)
        × RunAnswers (record { state = F.state; reason = F.reason; was_read = F.was_read; was_written = F.was_written }) R.stream (Some (asked_of request.entry)) files.old files.new input.old input.new answer
        × IsDelivered (W.stream out.old) (W.stream out.new) answer result }
{
    match request {
        Request::Show => show_input(alloc, input, out),
        Request::Link {
            script,
            out: target,
        } => link_files(alloc, files, script.as_bytes(), target.as_bytes(), out),
        Request::List { file } => list_file(alloc, files, file.as_bytes(), out),
        Request::Check { script, cert } => {
            check_files(alloc, files, script.as_bytes(), cert.as_bytes(), out)
        }
        Request::Load { files: named } => load_files(alloc, files, named.as_slice(), out),
        Request::Distances { script } => print_distances(alloc, files, script.as_bytes(), out),
        Request::Version => print_version(out),
        Request::Extract {
            file,
            name,
            out: target,
        } => extract_file(
            alloc,
            files,
            Extraction {
                path: file.as_bytes(),
                name: name.as_bytes(),
                target: target.as_bytes(),
            },
            out,
        ),
        Request::Inspect { json, files: paths } => inspect_files(
            alloc,
            files,
            input,
            Inspected {
                json,
                paths: paths.as_slice(),
            },
            out,
        ),
        Request::Prepare(asked) => prepare_files(alloc, files, &asked, out),
        Request::Stubs(asked) => stub_files(alloc, files, &asked, out),
        Request::InspectListed { json } => inspect_listed(alloc, files, input, json, out),
        Request::InspectPair {
            json,
            resources,
            file,
        } => inspect_pair(
            alloc,
            files,
            input,
            InspectedPair {
                json,
                resources: resources.as_bytes(),
                path: file.as_bytes(),
            },
            out,
        ),
    }
}
