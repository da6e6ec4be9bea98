ghost use Rattle.std.specs.Prelude.{◌≡◌, ◌<◌, ◌∷◌, IfOk, List, [], ℕ, None, Ok, Some, length, map, option_map};
ghost use Rattle.pef_ports.specs.Sent.{Sends};
ghost use Rattle.pef_tool.specs.Answers.Answers.{Answer, IsDelivered};
ghost use Rattle.pef_tool.specs.Inspect.{InspectAnswers, InspectListedAnswers, InspectPairAnswers, Inspects, IsPairPrinted, IsPrinted, IsPrintedBeside, LooksFor, ReadsBy, ReadsGiven, ReadsPair, ReadsPath, ReadsStandard, Reported, form_of, is_input, listed_paths, outcome_of};
ghost use Rattle.mac_rows.specs.Unread.{unread_because};
ghost use Rattle.mac_rows.specs.Views.{data_file_seen};
ghost use Rattle.pef_tool.specs.Kept.Inspecting.{companion_seen, read_seen};

use crate::answers::{Outcome, deliver};
use crate::companion::{Companion, find_companion, may_have_companion};
use crate::reading::read_file;
use mac_report::FileReport;
use mac_rows::{DataFile, OutputFormat, UnreadFile};
use pef_faults::Fault;
use pef_ports::{FileReason, Files, Page, Sink, Source, StreamFault, flush, read_input};
use pef_rows::print_tokens;
use std::alloc::{AllocError, Global};

/// The most bytes of an input that are read.
const INPUT_LIMIT: usize = 536_870_912;

/// What `inspect` is asked for: the files with these paths, as text or as JSON.
#[derive(Clone, Copy, Debug)]
pub struct Inspected<'a> {
    pub json: bool,
    pub paths: &'a [&'a [u8]],
}

/// What `inspect --resources` is asked for: the file at a path, with the file that has its resource fork, as text or as JSON.
#[derive(Clone, Copy, Debug)]
pub struct InspectedPair<'a> {
    pub json: bool,
    pub resources: &'a [u8],
    pub path: &'a [u8],
}

/// Prints a report on each file, one after the other, each with its companion: another file that has its resource fork. No
/// more than one file and one that may be its companion are in memory at a time.
///
/// A file that can't be read is reported as an error of that file. The outcome is `SaidNo` if a file has an error.
pub fn inspect_files<F: Files, R: Source, W: Sink>(
    alloc: Global,
    files: &mut F,
    input: &mut R,
    asked: Inspected<'_>,
    out: &mut W,
) -> Outcome
    ensures { (answer : Answer)
        × InspectAnswers (record { state = F.state; reason = F.reason; was_read = F.was_read; was_written = F.was_written }) R.stream asked.entry.json files.old files.new input.old input.new (map (λ path. path.now) asked.entry.paths.now) answer
        × IsDelivered (W.stream out.old) (W.stream out.new) answer result }
{
    match print_reports(alloc, files, input, asked, out) {
        Ok(errors) => outcome_of(errors),
        Err(StreamFault) => Outcome::OutputFailed,
    }
}

/// Prints a report on each file whose path is on the standard input, as [`inspect_files`] does. A zero byte ends each path.
pub fn inspect_listed<F: Files, R: Source, W: Sink>(
    alloc: Global,
    files: &mut F,
    input: &mut R,
    json: bool,
    out: &mut W,
) -> Outcome
    ensures { (answer : Answer)
        × InspectListedAnswers (record { state = F.state; reason = F.reason; was_read = F.was_read; was_written = F.was_written }) R.stream json files.old files.new input.old input.new answer
        × IsDelivered (W.stream out.old) (W.stream out.new) answer result }
{
    let list = match read_standard(alloc, input) {
        Ok(list) => list,
        Err(fault) => return deliver(out, &fault),
    };
    match listed_paths(alloc, list.as_slice()) {
        Ok(paths) => {
            let asked = Inspected {
                json,
                paths: paths.as_slice(),
            };
            inspect_files(alloc, files, input, asked, out)
        }
        Err(AllocError) => deliver(out, &Fault::OutOfMemory),
    }
}

/// Prints a report on a file, and one on the file that has its resource fork.
pub fn inspect_pair<F: Files, R: Source, W: Sink>(
    alloc: Global,
    files: &mut F,
    input: &mut R,
    asked: InspectedPair<'_>,
    out: &mut W,
) -> Outcome
    ensures { (answer : Answer)
        × InspectPairAnswers (record { state = F.state; reason = F.reason; was_read = F.was_read; was_written = F.was_written }) R.stream asked.entry.json files.old files.new input.old input.new asked.entry.resources.now asked.entry.path.now answer
        × IsDelivered (W.stream out.old) (W.stream out.new) answer result }
{
    match print_given(alloc, files, input, asked, out) {
        Ok(errors) => outcome_of(errors),
        Err(StreamFault) => Outcome::OutputFailed,
    }
}

/// Returns the paths in a list, each ended by a zero byte or by the end of the list.
fn listed_paths<'a>(alloc: Global, list: &'a [u8]) -> Result<Vec<&'a [u8]>, AllocError>
    ensures { IfOk result (λ paths. map (λ path. path.now) paths.items ≡ listed_paths list.entry.now) }
{
    let mut paths = Vec::new(alloc);
    let mut rest = list;
    while !rest.is_empty() {
        let (path, others) = first_path(rest);
        paths.push(path)?;
        rest = others;
    }
    Ok(paths)
}

/// Returns the first path of a list that isn't empty, and the list after it.
fn first_path<'a>(list: &'a [u8]) -> (&'a [u8], &'a [u8])
    requires { 0 < length list.now }
    ensures paths { listed_paths list.entry.now ≡ result.0.now ∷ listed_paths result.1.now }
    ensures shorter { length result.1.now < length list.entry.now }
{
    for (i, b) in list.iter().enumerate() {
        if *b == 0 {
            let (path, _) = list.split_at(i);
            let (_, others) = list.split_at(i + 1);
            return (path, others);
        }
    }
    (list, &[])
}

/// Returns the outcome of reports with this number of errors.
fn outcome_of(errors: u64) -> Outcome
    ensures { result ≡ outcome_of errors }
{
    if errors == 0 {
        Outcome::Done
    } else {
        Outcome::SaidNo
    }
}

/// Prints the reports, and returns the number of all errors, up to the greatest number of 64 bits.
fn print_reports<F: Files, R: Source, W: Sink>(
    alloc: Global,
    files: &mut F,
    input: &mut R,
    asked: Inspected<'_>,
    out: &mut W,
) -> Result<u64, StreamFault>
    ensures { (text : List ℕ) × (errors : ℕ)
        × Inspects (record { state = F.state; reason = F.reason; was_read = F.was_read; was_written = F.was_written }) R.stream (form_of asked.entry.json) files.old files.new input.old input.new (map (λ path. path.now) asked.entry.paths.now) 0 text errors
        × Sends result (W.stream out.old) (W.stream out.new) [] [] text
        × IfOk result (λ n. n ≡ errors) }
{
    let mut page = Page::new();
    let form = form_of(asked.json);
    let mut errors: u64 = 0;
    for path in asked.paths {
        let pair = find_pair(alloc, files, input, *path);
        let more = print_pair(alloc, out, &mut page, form, &pair)?;
        errors = errors.saturating_add(more);
    }
    flush(out, &mut page)?;
    Ok(errors)
}

/// Prints the reports on a file and on the one that has its resource fork, and returns the number of all errors.
fn print_given<F: Files, R: Source, W: Sink>(
    alloc: Global,
    files: &mut F,
    input: &mut R,
    asked: InspectedPair<'_>,
    out: &mut W,
) -> Result<u64, StreamFault>
    ensures { (text : List ℕ) × (errors : ℕ)
        × Reported (record { state = F.state; reason = F.reason; was_read = F.was_read; was_written = F.was_written }) R.stream (Some asked.entry.resources.now) (form_of asked.entry.json) files.old files.new input.old input.new asked.entry.path.now text errors
        × Sends result (W.stream out.old) (W.stream out.new) [] [] text
        × IfOk result (λ n. n ≡ errors) }
{
    let mut page = Page::new();
    let pair = given_pair(alloc, files, input, asked);
    let errors = print_pair(alloc, out, &mut page, form_of(asked.json), &pair)?;
    flush(out, &mut page)?;
    Ok(errors)
}

/// Returns how reports are printed.
fn form_of(json: bool) -> OutputFormat
    ensures { result ≡ form_of json }
{
    if json {
        OutputFormat::Json
    } else {
        OutputFormat::Text
    }
}

/// A path, and the bytes that were read there.
#[derive(Drop)]
pub(crate) struct Named<'a> {
    pub path: &'a [u8],
    pub bytes: Result<Vec<u8>, Fault<'a>>,
}

/// A file, and its companion if it has one.
#[derive(Drop)]
struct Pair<'a> {
    named: Named<'a>,
    companion: Option<Companion<'a>>,
}

/// Reads the file at a path, and looks for its companion.
fn find_pair<'a, F: Files, R: Source>(
    alloc: Global,
    files: &mut F,
    input: &mut R,
    path: &'a [u8],
) -> Pair<'a>
    ensures path { result.named.path.now ≡ path.entry.now }
    ensures pair { ReadsPair (record { state = F.state; reason = F.reason; was_read = F.was_read; was_written = F.was_written }) R.stream None files.old files.new input.old input.new path.entry.now (read_seen result.named.bytes) (option_map (companion_seen path.entry.now) result.companion) }
{
    let named = read_named(alloc, files, input, path);
    let companion = companion_of(alloc, files, &named);
    Pair { named, companion }
}

/// Looks for the companion of a file.
fn companion_of<'a, F: Files>(
    alloc: Global,
    files: &mut F,
    named: &Named<'a>,
) -> Option<Companion<'a>>
    ensures { LooksFor (record { state = F.state; reason = F.reason; was_read = F.was_read; was_written = F.was_written }) files.old files.new named.now.path.now (read_seen named.now.bytes) (option_map (companion_seen named.now.path.now) result) }
{
    match &named.bytes {
        Ok(bytes) => {
            if !is_input(named.path) && may_have_companion(named.path, bytes.as_slice()) {
                find_companion(alloc, files, named.path)
            } else {
                None
            }
        }
        Err(_) => None,
    }
}

/// Reads a file, and the one that has its resource fork.
fn given_pair<'a, F: Files, R: Source>(
    alloc: Global,
    files: &mut F,
    input: &mut R,
    asked: InspectedPair<'a>,
) -> Pair<'a>
    ensures path { result.named.path.now ≡ asked.entry.path.now }
    ensures pair { ReadsPair (record { state = F.state; reason = F.reason; was_read = F.was_read; was_written = F.was_written }) R.stream (Some asked.entry.resources.now) files.old files.new input.old input.new asked.entry.path.now (read_seen result.named.bytes) (option_map (companion_seen asked.entry.path.now) result.companion) }
{
    let named = read_named(alloc, files, input, asked.path);
    let companion = read_given(alloc, files, input, asked.resources, &named);
    Pair { named, companion }
}

/// Reads the companion of a file at a path, if the file was read.
fn read_given<'a, F: Files, R: Source>(
    alloc: Global,
    files: &mut F,
    input: &mut R,
    resources: &'a [u8],
    named: &Named<'_>,
) -> Option<Companion<'a>>
    ensures { (own : List ℕ) → ReadsGiven resources.entry.now (record { state = F.state; reason = F.reason; was_read = F.was_read; was_written = F.was_written }) R.stream files.old files.new input.old input.new (read_seen named.now.bytes) (option_map (companion_seen own) result) }
{
    match &named.bytes {
        Ok(_) => Some(Companion::Given(read_named(alloc, files, input, resources))),
        Err(_) => None,
    }
}

/// Reads the file at a path, or the standard input, which `-` names.
fn read_named<'a, F: Files, R: Source>(
    alloc: Global,
    files: &mut F,
    input: &mut R,
    path: &'a [u8],
) -> Named<'a>
    ensures path { result.path.now ≡ path.entry.now }
    ensures read { ReadsBy (is_input path.entry.now) (record { state = F.state; reason = F.reason; was_read = F.was_read; was_written = F.was_written }) R.stream files.old files.new input.old input.new path.entry.now (read_seen result.bytes) }
{
    if is_input(path) {
        Named {
            path,
            bytes: read_standard(alloc, input),
        }
    } else {
        Named {
            path,
            bytes: read_path(alloc, files, path),
        }
    }
}

/// Returns whether a path names the standard input.
fn is_input(path: &[u8]) -> bool
    ensures { result ≡ is_input path.now }
{
    path == b"-".as_slice()
}

/// Reads the standard input.
fn read_standard<R: Source>(alloc: Global, input: &mut R) -> Result<Vec<u8>, Fault<'static>>
    ensures { ReadsStandard (R.stream input.old) (R.stream input.new) (read_seen result) }
{
    match read_input(alloc, input, INPUT_LIMIT) {
        Ok(bytes) => Ok(bytes),
        Err(fault) => Err(Fault::Input(fault)),
    }
}

/// Reads the file at a path.
fn read_path<'a, F: Files>(
    alloc: Global,
    files: &mut F,
    path: &'a [u8],
) -> Result<Vec<u8>, Fault<'a>>
    ensures { ReadsPath (record { state = F.state; reason = F.reason; was_read = F.was_read; was_written = F.was_written }) files.old files.new path.entry.now (read_seen result) }
{
    read_file(alloc, files, path)
}

/// Prints the report on a file and that on its companion, and returns the number of their errors.
fn print_pair<W: Sink>(
    alloc: Global,
    out: &mut W,
    page: &mut Page,
    form: OutputFormat,
    pair: &Pair<'_>,
) -> Result<u64, StreamFault>
    ensures { (text : List ℕ) × (errors : ℕ)
        × IsPairPrinted form pair.now.named.path.now (read_seen pair.now.named.bytes) (option_map (companion_seen pair.now.named.path.now) pair.now.companion) text errors
        × Sends result (W.stream out.old) (W.stream out.new) page.old.items page.new.items text
        × IfOk result (λ n. n ≡ errors) }
{
    let shown = Shown {
        form,
        data_file: None,
    };
    let errors = print_report(alloc, out, page, shown, &pair.named)?;
    let more = print_companion(alloc, out, page, form, pair)?;
    Ok(errors.saturating_add(more))
}

/// Prints the report on the companion of a file, if there is one, and returns the number of its errors.
fn print_companion<W: Sink>(
    alloc: Global,
    out: &mut W,
    page: &mut Page,
    form: OutputFormat,
    pair: &Pair<'_>,
) -> Result<u64, StreamFault>
    ensures { (text : List ℕ) × (errors : ℕ)
        × IsPrintedBeside form pair.now.named.path.now (read_seen pair.now.named.bytes) (option_map (companion_seen pair.now.named.path.now) pair.now.companion) text errors
        × Sends result (W.stream out.old) (W.stream out.new) page.old.items page.new.items text
        × IfOk result (λ n. n ≡ errors) }
{
    match &pair.named.bytes {
        Ok(bytes) => {
            let data_file = DataFile {
                path: pair.named.path,
                bytes: bytes.as_slice(),
            };
            print_beside(
                alloc,
                out,
                page,
                Beside { form, data_file },
                &pair.companion,
            )
        }
        Err(_) => print_nothing(out, page),
    }
}

/// Prints the report on the companion of a file that was read, if there is one, and returns the number of its errors.
fn print_beside<'x, W: Sink>(
    alloc: Global,
    out: &mut W,
    page: &mut Page,
    beside: Beside<'x>,
    companion: &'x Option<Companion<'_>>,
) -> Result<u64, StreamFault>
    ensures { (text : List ℕ) × (errors : ℕ)
        × IsPrintedBeside beside.entry.form beside.entry.data_file.path.now (Ok beside.entry.data_file.bytes.now) (option_map (companion_seen beside.entry.data_file.path.now) companion.now) text errors
        × Sends result (W.stream out.old) (W.stream out.new) page.old.items page.new.items text
        × IfOk result (λ n. n ≡ errors) }
{
    match companion {
        Some(companion) => print_found(alloc, out, page, beside, companion),
        None => print_nothing(out, page),
    }
}

/// Prints the report on a companion, and returns the number of its errors.
fn print_found<'x, W: Sink>(
    alloc: Global,
    out: &mut W,
    page: &mut Page,
    beside: Beside<'x>,
    companion: &'x Companion<'_>,
) -> Result<u64, StreamFault>
    ensures { (text : List ℕ) × (errors : ℕ)
        × IsPrinted beside.entry.form (companion_seen beside.entry.data_file.path.now companion.now).path (Some (data_file_seen beside.entry.data_file)) (companion_seen beside.entry.data_file.path.now companion.now).read text errors
        × Sends result (W.stream out.old) (W.stream out.new) page.old.items page.new.items text
        × IfOk result (λ n. n ≡ errors) }
{
    let form = beside.form;
    let data_file = Some(beside.data_file);
    match companion {
        Companion::Found { path, bytes } => {
            let report = FileReport {
                form,
                path: path.as_slice(),
                bytes: bytes.as_slice(),
                data_file,
            };
            print_read(alloc, out, page, report)
        }
        Companion::Given(named) => {
            print_report(alloc, out, page, Shown { form, data_file }, named)
        }
        Companion::Lacking => {
            let report = UnreadFile {
                form,
                path: beside.data_file.path,
                number: 99,
                name: b"OutOfMemory",
                reason: FileReason::Other,
            };
            print_unread(out, page, report)
        }
    }
}

/// Prints nothing, and returns that there is no error.
fn print_nothing<W: Sink>(out: &mut W, page: &mut Page) -> Result<u64, StreamFault>
    ensures sent { Sends result (W.stream out.old) (W.stream out.new) page.old.items page.new.items [] }
    ensures none { IfOk result (λ n. n ≡ 0) }
{
    print_tokens(out, page, &[])?;
    Ok(0)
}

/// How a report is printed, and which file has the data fork, if it is another.
#[derive(Clone, Copy)]
struct Shown<'a> {
    form: OutputFormat,
    data_file: Option<DataFile<'a>>,
}

/// How the report on a companion is printed, and the file that it belongs to.
#[derive(Clone, Copy)]
struct Beside<'a> {
    form: OutputFormat,
    data_file: DataFile<'a>,
}

/// Prints the report on a file, and returns the number of its errors.
fn print_report<'x, W: Sink>(
    alloc: Global,
    out: &mut W,
    page: &mut Page,
    shown: Shown<'x>,
    named: &'x Named<'_>,
) -> Result<u64, StreamFault>
    ensures { (text : List ℕ) × (errors : ℕ)
        × IsPrinted shown.entry.form named.now.path.now (option_map data_file_seen shown.entry.data_file) (read_seen named.now.bytes) text errors
        × Sends result (W.stream out.old) (W.stream out.new) page.old.items page.new.items text
        × IfOk result (λ n. n ≡ errors) }
{
    let form = shown.form;
    let path = named.path;
    match &named.bytes {
        Ok(bytes) => {
            let report = FileReport {
                form,
                path,
                bytes: bytes.as_slice(),
                data_file: shown.data_file,
            };
            print_read(alloc, out, page, report)
        }
        Err(fault) => {
            let report = UnreadFile {
                form,
                path,
                number: fault.number(),
                name: fault.name().as_bytes(),
                reason: fault.reason(),
            };
            print_unread(out, page, report)
        }
    }
}

/// Prints the report on a file that was read, and returns the number of its errors and of containers that weren't inspected.
fn print_read<W: Sink>(
    alloc: Global,
    out: &mut W,
    page: &mut Page,
    report: FileReport<'_>,
) -> Result<u64, StreamFault>
    ensures { (text : List ℕ) × (errors : ℕ)
        × IsPrinted report.entry.form report.entry.path.now (option_map data_file_seen report.entry.data_file) (Ok report.entry.bytes.now) text errors
        × Sends result (W.stream out.old) (W.stream out.new) page.old.items page.new.items text
        × IfOk result (λ n. n ≡ errors) }
{
    let counts = report.print(alloc, out, page)?;
    Ok(counts.errors.saturating_add(counts.unverified))
}

/// Prints the report on a file that wasn't read. It has one error.
fn print_unread<W: Sink>(
    out: &mut W,
    page: &mut Page,
    report: UnreadFile<'_>,
) -> Result<u64, StreamFault>
    ensures sent { Sends result (W.stream out.old) (W.stream out.new) page.old.items page.new.items (unread_because report.entry.form report.entry.path.now report.entry.number report.entry.name.now report.entry.reason) }
    ensures one { IfOk result (λ n. n ≡ 1) }
{
    report.print(out, page)?;
    Ok(1)
}
