ghost use Rattle.std.specs.Prelude.{◌≡◌, IfOk, false, map, option_map, string_bytes};
ghost use Rattle.clap.specs.Words.{app_of, found_of, rows_of};
ghost use Rattle.clap.specs.declared.builder.command.Command.TheViews.{out-Command};
ghost use Rattle.pef_request.specs.CommandLine.{asked_by, asks_version, check_asked, check_command, command_asked, distances_asked, distances_command, extract_asked, extract_command, inspect_asked, inspect_command, inspected, inspected_files, inspected_listed, link_asked, link_command, list_asked, list_command, load_asked, load_command, pef, request_by};
ghost use Rattle.pef_request.specs.Kept.Commands.{HasOneMore};
ghost use Rattle.pef_request.specs.Kept.Kinds.{fault_of_kind};
ghost use Rattle.pef_request.specs.Requests.{AnswersWords};

use crate::arguments::{described, files_operand, flag, is_set, operand, optional_operand, valued};
use crate::files::{NamedFile, named_files, paths_of};
use crate::prepare::{PrepareRequest, prepare_command, prepare_request};
use crate::stubs::{StubsRequest, stubs_command, stubs_request};
use clap::error::ErrorKind;
use clap::{ArgMatches, Command};
use std::alloc::{AllocError, AllocFailed, Global};

/// The help for SCRIPT.
const SCRIPT_HELP: &str = "A script (docs/SCRIPTS.md)";

/// The maximum number of files of `inspect`.
const MOST_INSPECTED: usize = 65_536;

/// The request of a command line.
#[derive(Debug, Drop, PartialEq, Eq)]
pub enum Request<'a> {
    /// Link the script on the input, prepare it, and print its memory.
    Show,
    /// Link the script at a path, and write the container to another.
    Link {
        script: &'a str,
        out: &'a str,
    },
    /// Prepare the first of these 1 to 256 containers and print the memory. A library is found among the containers by
    /// its name.
    Load {
        files: Vec<NamedFile<'a>>,
    },
    /// List the container at a path.
    List {
        file: &'a str,
    },
    /// Print the certificates of the sections of the script at a path.
    Distances {
        script: &'a str,
    },
    /// Check the certificates at a path for the sections of the script at another.
    Check {
        script: &'a str,
        cert: &'a str,
    },
    /// Print the version of the program.
    Version,
    /// Find a container by its name or number in the file at a path, and write it to another.
    Extract {
        file: &'a str,
        name: &'a str,
        out: &'a str,
    },
    /// Report everything that can be known of the files at 1 to 65,536 paths, as text or as JSON.
    Inspect {
        json: bool,
        files: Vec<&'a [u8]>,
    },
    /// Report everything that can be known of the files whose paths are on the standard input, each ended
    /// by a zero byte.
    InspectListed {
        json: bool,
    },
    /// Report everything that can be known of the file at a path, and of the one that has its resource
    /// fork.
    InspectPair {
        json: bool,
        resources: &'a str,
        file: &'a str,
    },
    /// Prepare a fragment of some files with its libraries, and print the memory.
    Prepare(PrepareRequest<'a>),
    /// Make stubs of the libraries that the fragments of some files lack.
    Stubs(StubsRequest<'a>),
}

/// The reason why a command line has no request.
#[derive(Clone, Copy, Debug, PartialEq, Eq)]
pub enum WordsFault {
    /// The command line is invalid.
    Usage,
    /// An allocation failed.
    OutOfMemory,
}

impl From<AllocError> for WordsFault {
    ghost use Rattle.std.specs.Prelude.{◌≡◌};
    ghost use Rattle.pef_request.specs.declared.command_line.WordsFault.TheVariants.{OutOfMemory};

    ghost from_gives = { λ _ e. e ≡ OutOfMemory };

    fn from(_error: AllocError) -> WordsFault {
        WordsFault::OutOfMemory
    }
}

impl<T: Drop> From<AllocFailed<T>> for WordsFault {
    ghost use Rattle.std.specs.Prelude.{◌≡◌};
    ghost use Rattle.pef_request.specs.declared.command_line.WordsFault.TheVariants.{OutOfMemory};

    ghost from_gives = { λ _ e. e ≡ OutOfMemory };

    fn from(_error: AllocFailed<T>) -> WordsFault {
        WordsFault::OutOfMemory
    }
}

/// Parses a command line, whose first word is the program's name.
pub fn read_request<'a>(alloc: Global, words: &'a [String]) -> Result<Request<'a>, WordsFault>
    ensures { AnswersWords result (request_by (map string_bytes words.entry.now)) }
{
    if asks_version(words) {
        return Ok(Request::Version);
    }
    read_words(alloc, words)
}

/// Returns whether the words are `--version` alone, after the program's name.
#[tactic(auto, unfolding(crate::specs::CommandLine::asks_version))]
fn asks_version(words: &[String]) -> bool
    ensures { result ≡ asks_version (map string_bytes words.now) }
{
    match words {
        [_, word] => word.as_str() == "--version",
        _ => false,
    }
}

/// Parses the words of a command.
fn read_words<'a>(alloc: Global, words: &'a [String]) -> Result<Request<'a>, WordsFault>
    ensures { AnswersWords result (asked_by (map string_bytes words.entry.now)) }
{
    let command = command(alloc)?;
    let matches = match command.try_get_matches_from(words) {
        Ok(matches) => matches,
        Err(error) => return Err(words_fault(error.kind())),
    };
    match matches.subcommand() {
        Some((name, operands)) => command_request(alloc, name, operands),
        None => Err(WordsFault::Usage),
    }
}

/// Returns the program's commands.
pub(crate) fn command<'a>(alloc: Global) -> Result<Command<'a>, AllocError>
    ensures app { IfOk result (λ c. app_of c ≡ pef) }
{
    let with_show = Command::new(alloc, "pef")
        .subcommand_required(true)
        .disable_help_flag(true)
        .disable_help_subcommand(true)
        .subcommand(described(
            alloc,
            "show",
            "Prints the memory that the script on the standard input becomes",
        ))?;
    let with_link = with_command(with_show, link_command(alloc))?;
    let with_list = with_command(with_link, list_command(alloc))?;
    let with_check = with_command(with_list, check_command(alloc))?;
    let with_load = with_command(with_check, load_command(alloc))?;
    let with_distances = with_command(with_load, distances_command(alloc))?;
    let with_extract = with_command(with_distances, extract_command(alloc))?;
    let with_inspect = with_command(with_extract, inspect_command(alloc))?;
    let with_prepare = with_command(with_inspect, prepare_command(alloc))?;
    with_command(with_prepare, stubs_command(alloc))
}

/// Returns a command with one more subcommand, if allocating that one succeeded.
fn with_command<'a>(
    top: Command<'a>,
    more: Result<Command<'a>, AllocError>,
) -> Result<Command<'a>, AllocError>
    ensures { IfOk result (HasOneMore (app_of top.entry) more.entry) }
{
    top.subcommand(more?)
}

/// Returns the command `link SCRIPT OUT`.
fn link_command<'a>(alloc: Global) -> Result<Command<'a>, AllocError>
    ensures app { IfOk result (λ c. app_of c ≡ link_command) }
    ensures local { IfOk result (λ c. (out-Command c).has_globals ≡ false) }
{
    let script = operand(alloc, "SCRIPT", SCRIPT_HELP);
    let out = operand(alloc, "OUT", "The file that gets the container");
    described(alloc, "link", "Links a script to a container")
        .arg(script)?
        .arg(out)
}

/// Returns the command `list FILE`.
fn list_command<'a>(alloc: Global) -> Result<Command<'a>, AllocError>
    ensures app { IfOk result (λ c. app_of c ≡ list_command) }
    ensures local { IfOk result (λ c. (out-Command c).has_globals ≡ false) }
{
    let file = operand(alloc, "FILE", "A container");
    described(alloc, "list", "Lists what a container declares").arg(file)
}

/// Returns the command `check SCRIPT CERT`.
fn check_command<'a>(alloc: Global) -> Result<Command<'a>, AllocError>
    ensures app { IfOk result (λ c. app_of c ≡ check_command) }
    ensures local { IfOk result (λ c. (out-Command c).has_globals ≡ false) }
{
    let script = operand(alloc, "SCRIPT", SCRIPT_HELP);
    let cert = operand(
        alloc,
        "CERT",
        "The certificates of its sections, as `distances` prints them",
    );
    described(
        alloc,
        "check",
        "Checks the certificates of a script's sections",
    )
    .arg(script)?
    .arg(cert)
}

/// Returns the command `load NAME=FILE ..`.
pub(crate) fn load_command<'a>(alloc: Global) -> Result<Command<'a>, AllocError>
    ensures app { IfOk result (λ c. app_of c ≡ load_command) }
    ensures local { IfOk result (λ c. (out-Command c).has_globals ≡ false) }
{
    let files = files_operand(
        alloc,
        "NAME=FILE",
        "Containers, each with the name of its fragment: the first is loaded, the others are its libraries",
    );
    described(alloc, "load", "Prints the memory that containers become").arg(files)
}

/// Returns the command `distances SCRIPT`.
fn distances_command<'a>(alloc: Global) -> Result<Command<'a>, AllocError>
    ensures app { IfOk result (λ c. app_of c ≡ distances_command) }
    ensures local { IfOk result (λ c. (out-Command c).has_globals ≡ false) }
{
    let script = operand(alloc, "SCRIPT", SCRIPT_HELP);
    described(
        alloc,
        "distances",
        "Prints certificates that no relocation program without repeats is shorter than that of `link`",
    )
    .arg(script)
}

/// Returns the command `extract FILE NAME OUT`.
fn extract_command<'a>(alloc: Global) -> Result<Command<'a>, AllocError>
    ensures app { IfOk result (λ c. app_of c ≡ extract_command) }
    ensures local { IfOk result (λ c. (out-Command c).has_globals ≡ false) }
{
    let file = operand(
        alloc,
        "FILE",
        "A file of the classic Mac OS, or any file that has containers in it",
    );
    let name = operand(
        alloc,
        "NAME",
        "The name of a fragment, or `#` and the number of a container from 0",
    );
    let out = operand(alloc, "OUT", "The file that gets the container");
    described(
        alloc,
        "extract",
        "Writes a container of a file to a file of its own",
    )
    .arg(file)?
    .arg(name)?
    .arg(out)
}

/// Returns the command `inspect [--json] FILE ..`, which is also `inspect [--json] --files0` and
/// `inspect [--json] --resources RESOURCES FILE`.
pub(crate) fn inspect_command<'a>(alloc: Global) -> Result<Command<'a>, AllocError>
    ensures app { IfOk result (λ c. app_of c ≡ inspect_command) }
    ensures local { IfOk result (λ c. (out-Command c).has_globals ≡ false) }
{
    let json = flag(
        alloc,
        "json",
        "Print an object of JSON for each file, on a line of its own",
    );
    let listed = flag(
        alloc,
        "files0",
        "Read the paths of the files from the standard input, each ended by a zero byte",
    );
    let resources = valued(
        alloc,
        "resources",
        "RESOURCES",
        "The file that has the resource fork of the one FILE",
    );
    let files = optional_operand(
        alloc,
        "FILE",
        "Files of the classic Mac OS, or any files that have containers in them: `-` is the standard input",
    )
    .num_args(1..=MOST_INSPECTED);
    described(
        alloc,
        "inspect",
        "Prints everything that can be known of files, with all errors, each at its place",
    )
    .arg(json)?
    .arg(listed)?
    .arg(resources)?
    .arg(files)
}

/// Returns the request that a command's name and operands make.
fn command_request<'a>(
    alloc: Global,
    name: &str,
    operands: &ArgMatches<'a>,
) -> Result<Request<'a>, WordsFault>
    ensures { AnswersWords result (command_asked name.now (rows_of (found_of operands.now))) }
{
    match name {
        "show" => Ok(Request::Show),
        "link" => link_request(operands),
        "list" => list_request(operands),
        "check" => check_request(operands),
        "load" => load_request(alloc, operands),
        "distances" => distances_request(operands),
        "extract" => extract_request(operands),
        "inspect" => inspect_request(alloc, operands),
        "prepare" => prepare_request(alloc, operands),
        "stubs" => stubs_request(alloc, operands),
        _ => Err(WordsFault::Usage),
    }
}

/// Returns the request that the operands of `link` make.
#[tactic(auto, using(crate::proofs::LineLemmas::first_in_rows))]
fn link_request<'a>(operands: &ArgMatches<'a>) -> Result<Request<'a>, WordsFault>
    ensures { AnswersWords result (link_asked (rows_of (found_of operands.now))) }
{
    let Some(script) = operands.get_str("SCRIPT") else {
        return Err(WordsFault::Usage);
    };
    let Some(out) = operands.get_str("OUT") else {
        return Err(WordsFault::Usage);
    };
    Ok(Request::Link { script, out })
}

/// Returns the request that the operands of `list` make.
#[tactic(auto, using(crate::proofs::LineLemmas::first_in_rows))]
fn list_request<'a>(operands: &ArgMatches<'a>) -> Result<Request<'a>, WordsFault>
    ensures { AnswersWords result (list_asked (rows_of (found_of operands.now))) }
{
    let Some(file) = operands.get_str("FILE") else {
        return Err(WordsFault::Usage);
    };
    Ok(Request::List { file })
}

/// Returns the request that the operands of `check` make.
#[tactic(auto, using(crate::proofs::LineLemmas::first_in_rows))]
fn check_request<'a>(operands: &ArgMatches<'a>) -> Result<Request<'a>, WordsFault>
    ensures { AnswersWords result (check_asked (rows_of (found_of operands.now))) }
{
    let Some(script) = operands.get_str("SCRIPT") else {
        return Err(WordsFault::Usage);
    };
    let Some(cert) = operands.get_str("CERT") else {
        return Err(WordsFault::Usage);
    };
    Ok(Request::Check { script, cert })
}

/// Returns the request that the operands of `load` make.
#[tactic(auto, using(crate::proofs::LineLemmas::all_in_rows))]
fn load_request<'a>(alloc: Global, operands: &ArgMatches<'a>) -> Result<Request<'a>, WordsFault>
    ensures { AnswersWords result (load_asked (rows_of (found_of operands.now))) }
{
    let Some(words) = operands.get_strs("NAME=FILE") else {
        return Err(WordsFault::Usage);
    };
    let files = named_files(alloc, words)?;
    Ok(Request::Load { files })
}

/// Returns the request that the operands of `distances` make.
#[tactic(auto, using(crate::proofs::LineLemmas::first_in_rows))]
fn distances_request<'a>(operands: &ArgMatches<'a>) -> Result<Request<'a>, WordsFault>
    ensures { AnswersWords result (distances_asked (rows_of (found_of operands.now))) }
{
    let Some(script) = operands.get_str("SCRIPT") else {
        return Err(WordsFault::Usage);
    };
    Ok(Request::Distances { script })
}

/// Returns the request that the operands of `extract` make.
#[tactic(auto, using(crate::proofs::LineLemmas::first_in_rows))]
fn extract_request<'a>(operands: &ArgMatches<'a>) -> Result<Request<'a>, WordsFault>
    ensures { AnswersWords result (extract_asked (rows_of (found_of operands.now))) }
{
    let Some(file) = operands.get_str("FILE") else {
        return Err(WordsFault::Usage);
    };
    let Some(name) = operands.get_str("NAME") else {
        return Err(WordsFault::Usage);
    };
    let Some(out) = operands.get_str("OUT") else {
        return Err(WordsFault::Usage);
    };
    Ok(Request::Extract { file, name, out })
}

/// Returns the request that the operands of `inspect` make.
#[tactic(auto, using(crate::proofs::LineLemmas::first_in_rows, crate::proofs::LineLemmas::all_in_rows))]
fn inspect_request<'a>(alloc: Global, operands: &ArgMatches<'a>) -> Result<Request<'a>, WordsFault>
    ensures { AnswersWords result (inspect_asked (rows_of (found_of operands.now))) }
{
    let json = is_set(operands.get_str("json"));
    let listed = is_set(operands.get_str("files0"));
    let resources = operands.get_str("resources");
    inspected(alloc, json, listed, resources, operands.get_strs("FILE"))
}

/// Returns the request of `inspect`, by its options and its operands.
fn inspected<'a>(
    alloc: Global,
    json: bool,
    listed: bool,
    resources: Option<&'a str>,
    words: Option<&[&'a str]>,
) -> Result<Request<'a>, WordsFault>
    ensures { AnswersWords result (inspected json listed (option_map (λ r. r.now) resources.entry) (option_map (λ ws. map (λ w. w.now) ws.now) words.entry)) }
{
    match (listed, words) {
        (false, Some(words)) => inspected_files(alloc, json, resources, words),
        (true, None) => inspected_listed(json, resources),
        (false, None) | (true, Some(_)) => Err(WordsFault::Usage),
    }
}

/// Returns the request of `inspect` of some files.
fn inspected_files<'a>(
    alloc: Global,
    json: bool,
    resources: Option<&'a str>,
    words: &[&'a str],
) -> Result<Request<'a>, WordsFault>
    ensures { AnswersWords result (inspected_files json (option_map (λ r. r.now) resources.entry) (map (λ w. w.now) words.now)) }
{
    match (resources, words) {
        (None, words) => {
            let files = paths_of(alloc, words)?;
            Ok(Request::Inspect { json, files })
        }
        (Some(resources), [file]) => Ok(Request::InspectPair {
            json,
            resources,
            file: *file,
        }),
        (Some(_), _) => Err(WordsFault::Usage),
    }
}

/// Returns the request of `inspect` of the files that the standard input lists.
fn inspected_listed<'a>(json: bool, resources: Option<&str>) -> Result<Request<'a>, WordsFault>
    ensures { AnswersWords result (inspected_listed json (option_map (λ r. r.now) resources.entry)) }
{
    match resources {
        None => Ok(Request::InspectListed { json }),
        Some(_) => Err(WordsFault::Usage),
    }
}

/// Returns the reason why `clap` refused a command line.
fn words_fault(kind: ErrorKind) -> WordsFault
    ensures { result ≡ fault_of_kind kind }
{
    match kind {
        ErrorKind::OutOfMemory => WordsFault::OutOfMemory,
        _ => WordsFault::Usage,
    }
}
