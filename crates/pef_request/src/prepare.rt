//! What `prepare` is asked for.
ghost use Rattle.std.specs.Prelude.{◌≡◌, IfOk, false, option_map};
ghost use Rattle.clap.specs.Words.{app_of, found_of, rows_of};
ghost use Rattle.clap.specs.declared.builder.command.Command.TheViews.{out-Command};
ghost use Rattle.pef_request.specs.Kept.Commands.{HasRules};
ghost use Rattle.pef_request.specs.Prepare.{form_rules, libraries_rules, prepare_asked, prepare_command, prepared_form, stubbed};
ghost use Rattle.pef_request.specs.Requests.{AnswersWords, form_of};

use crate::arguments::{described, files_operand, flag, is_set, lettered, repeated, valued};
use crate::command_line::{Request, WordsFault};
use crate::files::{FileOperand, file_operands, texts_of};
use clap::{ArgMatches, Command};
use std::alloc::{AllocError, Global};

/// What `prepare` is asked for.
#[derive(Debug, Drop, PartialEq, Eq)]
pub struct PrepareRequest<'a> {
    /// The 1 to 256 files whose fragments are prepared. The root is among them.
    pub files: Vec<FileOperand<'a>>,
    /// The paths of files whose fragments are libraries only.
    pub libraries: Vec<&'a str>,
    /// The paths of folders of libraries that no one has read: their files aren't in `libraries`.
    pub folders: Vec<&'a str>,
    /// The name of the root, if it isn't the first fragment of the first file.
    pub root: Option<&'a str>,
    /// The missing libraries that get a stub.
    pub stubs: Stubbing,
    /// What is printed.
    pub form: PreparedForm<'a>,
}

/// The missing libraries that get a stub.
#[derive(Clone, Copy, Debug, PartialEq, Eq)]
pub enum Stubbing {
    /// None of them.
    Nothing,
    /// Those that a fragment can't do without.
    Required,
    /// All of them, also those that are weak for each fragment that names them.
    All,
}

/// The form of what `prepare` prints.
#[derive(Clone, Copy, Debug, PartialEq, Eq)]
pub enum PreparedForm<'a> {
    /// Lines, as `load` prints them.
    Lines,
    /// An object of JSON a line.
    Json,
    /// The same, with the bytes of each section.
    JsonWithBytes,
    /// Objects with the path of a file for each section, which gets its bytes.
    JsonWithFiles { folder: &'a str },
}

/// The help for the operand of commands whose files may have several fragments.
pub(crate) const FILES_HELP: &str =
    "Containers, files of the classic Mac OS, or any files that have containers in them: NAME names the first fragment of FILE";

/// Returns the command `prepare [NAME=]FILE ..`.
pub(crate) fn prepare_command<'a>(alloc: Global) -> Result<Command<'a>, AllocError>
    ensures app { IfOk result (λ c. app_of c ≡ prepare_command) }
    ensures local { IfOk result (λ c. (out-Command c).has_globals ≡ false) }
{
    let about = "Prints the memory that an application and its libraries become";
    let with_libraries = with_libraries(alloc, described(alloc, "prepare", about))?;
    let with_form = with_form(alloc, with_libraries)?;
    with_form.arg(files_operand(alloc, "[NAME=]FILE", FILES_HELP))
}

/// Returns the command `prepare` with the options that say which fragments it takes.
fn with_libraries<'a>(alloc: Global, command: Command<'a>) -> Result<Command<'a>, AllocError>
    ensures { IfOk result (HasRules command.entry libraries_rules) }
{
    let library = "A file whose fragments are libraries only";
    let folder = "A folder: its files are libraries";
    command
        .arg(valued(
            alloc,
            "root",
            "NAME",
            "The fragment that is prepared, if it isn't the first one of the first FILE",
        ))?
        .arg(repeated(valued(alloc, "library", "FILE", library)))?
        .arg(repeated(lettered(alloc, "folder", 'L', "FOLDER", folder)))?
        .arg(flag(
            alloc,
            "no-stubs",
            "Make no stubs of missing libraries: report the first that is missing",
        ))?
        .arg(flag(
            alloc,
            "no-weak",
            "Make no stubs of libraries that every fragment can do without",
        ))
}

/// Returns the command `prepare` with the options that say what is printed.
fn with_form<'a>(alloc: Global, command: Command<'a>) -> Result<Command<'a>, AllocError>
    ensures { IfOk result (HasRules command.entry form_rules) }
{
    command
        .arg(flag(alloc, "json", "Print an object of JSON a line"))?
        .arg(flag(
            alloc,
            "bytes",
            "With `--json`: also print the bytes of each section, in base64",
        ))?
        .arg(lettered(
            alloc,
            "out",
            'o',
            "FOLDER",
            "With `--json`: write the bytes of each section to a file of its own in this folder",
        ))
}

/// Returns the request that the operands of `prepare` make.
#[tactic(auto, using(crate::proofs::LineLemmas::first_in_rows, crate::proofs::LineLemmas::all_in_rows))]
pub(crate) fn prepare_request<'a>(
    alloc: Global,
    operands: &ArgMatches<'a>,
) -> Result<Request<'a>, WordsFault>
    ensures { AnswersWords result (prepare_asked (rows_of (found_of operands.now))) }
{
    let Some(words) = operands.get_strs("[NAME=]FILE") else {
        return Err(WordsFault::Usage);
    };
    let json = is_set(operands.get_str("json"));
    let bytes = is_set(operands.get_str("bytes"));
    let out = operands.get_str("out");
    let Some(form) = prepared_form(json, bytes, out) else {
        return Err(WordsFault::Usage);
    };
    let no_stubs = is_set(operands.get_str("no-stubs"));
    let no_weak = is_set(operands.get_str("no-weak"));
    let files = file_operands(alloc, words)?;
    let libraries = texts_of(alloc, operands.get_strs("library"))?;
    let folders = texts_of(alloc, operands.get_strs("folder"))?;
    Ok(Request::Prepare(PrepareRequest {
        files,
        libraries,
        folders,
        root: operands.get_str("root"),
        stubs: stubbed(no_stubs, no_weak),
        form,
    }))
}

/// Returns the form that the flags `--json` and `--bytes` and the folder of `-o` ask for. Bytes are printed in JSON only, or are in files
/// beside it.
fn prepared_form<'a>(json: bool, bytes: bool, out: Option<&'a str>) -> Option<PreparedForm<'a>>
    ensures { option_map form_of result ≡ prepared_form json bytes (option_map (λ folder. folder.now) out.entry) }
{
    match (json, bytes, out) {
        (false, false, None) => Some(PreparedForm::Lines),
        (true, false, None) => Some(PreparedForm::Json),
        (true, true, None) => Some(PreparedForm::JsonWithBytes),
        (true, false, Some(folder)) => Some(PreparedForm::JsonWithFiles { folder }),
        (false, true, None) | (false, _, Some(_)) | (true, true, Some(_)) => None,
    }
}

/// Returns which missing libraries get a stub, by the flags `--no-stubs` and `--no-weak`.
fn stubbed(no_stubs: bool, no_weak: bool) -> Stubbing
    ensures { result ≡ stubbed no_stubs no_weak }
{
    match (no_stubs, no_weak) {
        (true, _) => Stubbing::Nothing,
        (false, true) => Stubbing::Required,
        (false, false) => Stubbing::All,
    }
}
