use crate::command_line::{command, inspect_command, load_command};
use crate::prepare::prepare_command;
use crate::stubs::stubs_command;
use clap::error::ErrorKind;
use clap::{Arg, ArgAction, ArgMatches, Command, Error};
use std::alloc::{AllocError, Global};

/// The text that is printed if the system provides no command line.
const NOT_UTF_8: &str = "error: an argument isn't UTF-8

Give the file or folder another name, for example by a symbolic link.
";

/// What `clap` says last of an error.
const TRY_HELP: &str = "\nFor more information, try '--help'.\n";

/// Returns the error in a command line, or the help that it asks for, as `clap` words it. The help for a command has an example.
///
/// The words are those of a command line that has no command. If the system's words aren't UTF-8, the list is empty.
pub fn words_help(alloc: Global, words: &[String]) -> Result<String, AllocError> {
    if words.is_empty() {
        return String::from_str(alloc, NOT_UTF_8);
    }
    match helpful_command(alloc)?.try_get_matches_from(words) {
        Ok(matches) if matches.get_flag("version") => version_error(alloc)?.to_string(alloc),
        Ok(matches) => accepted_error(alloc, &matches)?.to_string(alloc),
        Err(error) => match error.kind() {
            ErrorKind::DisplayHelp => help_text(alloc, &error, asked_command(words)),
            _ => error_text(alloc, &error),
        },
    }
}

/// Returns the word that names the command whose help is asked for, if there is one.
fn asked_command(words: &[String]) -> &str {
    match words {
        [_, first, second, ..] if first.as_str() == "help" => second.as_str(),
        [_, first, ..] => first.as_str(),
        _ => "",
    }
}

/// Returns a text of help, with an example if it is that for a command.
fn help_text(alloc: Global, help: &Error, command: &str) -> Result<String, AllocError> {
    let mut text = help.to_string(alloc)?;
    let example = example_of(command);
    if !example.is_empty() {
        text.push_str("\nExample:\n  ")?;
        text.push_str(example)?;
        text.push_str("\n")?;
    }
    Ok(text)
}

/// Returns an example of a command, or nothing for other words.
fn example_of(command: &str) -> &'static str {
    match command {
        "show" => "pef show < app.pefscript",
        "link" => "pef link app.pefscript app.pef",
        "list" => "pef list app.pef",
        "load" => "pef load app=app.pef Tools=tools.pef",
        "distances" => "pef distances app.pefscript > app.cert",
        "check" => "pef check app.pefscript app.cert",
        "extract" => "pef extract Calculator.bin '#0' calculator.pef",
        "inspect" => "pef inspect Calculator.bin",
        "prepare" => "pef prepare Calculator.bin",
        "stubs" => "pef stubs -o stubs Calculator.bin",
        _ => "",
    }
}

/// Returns the program's commands, with help for each, and the option `--version`.
fn helpful_command<'a>(alloc: Global) -> Result<Command<'a>, AllocError> {
    let version = Arg::new(alloc, "version")
        .long("version")
        .action(ArgAction::SetTrue)
        .help("Print version");
    command(alloc)?
        .about("Links, lists and loads PEF containers")
        .disable_help_flag(false)
        .disable_help_subcommand(false)
        .arg(version)
}

/// Returns the text of an error. If the command is missing or unknown, the list of all commands follows, in place of the advice to
/// ask for it.
fn error_text(alloc: Global, error: &Error) -> Result<String, AllocError> {
    let said = error.to_string(alloc)?;
    if !matches!(
        error.kind(),
        ErrorKind::MissingSubcommand | ErrorKind::InvalidSubcommand
    ) {
        return Ok(said);
    }
    let own = said
        .as_str()
        .strip_suffix(TRY_HELP)
        .unwrap_or(said.as_str());
    let mut text = String::from_str(alloc, own)?;
    text.push_str("\n")?;
    text.push_str(helpful_command(alloc)?.render_help()?.as_str())?;
    Ok(text)
}

/// Returns the error of `--version` with a command, which `clap` accepts.
fn version_error(alloc: Global) -> Result<Error, AllocError> {
    let mut command = command(alloc)?.bin_name("pef")?;
    command.error(ErrorKind::ArgumentConflict, "`--version` is used alone")
}

/// Returns the error of words that `clap` accepts, and that are no request.
fn accepted_error(alloc: Global, matches: &ArgMatches<'_>) -> Result<Error, AllocError> {
    match matches.subcommand() {
        Some(("inspect", _)) => inspected_error(alloc),
        Some(("prepare", _)) => prepared_error(alloc),
        Some(("stubs", _)) => stubs_error(alloc),
        Some(_) | None => files_error(alloc),
    }
}

/// Returns the error of an `inspect` without files, or with options that don't go with them.
fn inspected_error(alloc: Global) -> Result<Error, AllocError> {
    let mut command = inspect_command(alloc)?.bin_name("pef inspect")?;
    command.error(
        ErrorKind::ArgumentConflict,
        "give either FILEs or `--files0`, and `--resources` only with one FILE",
    )
}

/// Returns the error of a `prepare` with options that don't go together.
fn prepared_error(alloc: Global) -> Result<Error, AllocError> {
    let mut command = prepare_command(alloc)?.bin_name("pef prepare")?;
    command.error(
        ErrorKind::ArgumentConflict,
        "give `--bytes` or `-o FOLDER` only with `--json`, and not both",
    )
}

/// Returns the error of a `stubs` whose numbers aren't numbers, or with options that don't go together.
fn stubs_error(alloc: Global) -> Result<Error, AllocError> {
    let mut command = stubs_command(alloc)?.bin_name("pef stubs")?;
    command.error(
        ErrorKind::InvalidValue,
        "ADDRESS is one to eight hexadecimal digits, BYTES a decimal number that isn't 0, and `--memory` has neither",
    )
}

/// Returns the error of a `load` whose words `clap` accepts, since `clap` doesn't check the form NAME=FILE.
fn files_error(alloc: Global) -> Result<Error, AllocError> {
    let mut command = load_command(alloc)?.bin_name("pef load")?;
    command.error(
        ErrorKind::InvalidValue,
        "each file is written NAME=FILE: the name of its fragment, `=`, and its path",
    )
}
