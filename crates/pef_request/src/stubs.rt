//! What `stubs` is asked for.
ghost use Rattle.std.specs.Prelude.{◌≡◌, IfOk, false, option_map};
ghost use Rattle.clap.specs.Words.{app_of, found_of, rows_of};
ghost use Rattle.clap.specs.declared.builder.command.Command.TheViews.{out-Command};
ghost use Rattle.pef_request.specs.Kept.Commands.{HasRules};
ghost use Rattle.pef_request.specs.Requests.{AnswersWords};
ghost use Rattle.pef_request.specs.Stubs.{first_number, some_number, step_number, stub_symbols, stubs_asked, stubs_command, stubs_rules};

use crate::arguments::{described, files_operand, flag, is_set, lettered, valued};
use crate::command_line::{Request, WordsFault};
use crate::files::{FileOperand, file_operands};
use crate::prepare::FILES_HELP;
use clap::{ArgMatches, Command};
use pef_lines::{decimal_number, hex_number};
use std::alloc::{AllocError, Global};

/// The first number, if the command line gives none.
const FIRST_NUMBER: u32 = 0xF000_0000;

/// The distance of the numbers, if the command line gives none.
const STEP: u32 = 16;

/// What `stubs` is asked for.
#[derive(Debug, Drop, PartialEq, Eq)]
pub struct StubsRequest<'a> {
    /// The 1 to 256 files with the fragments whose missing libraries get stubs.
    pub files: Vec<FileOperand<'a>>,
    /// What the symbols of the stubs are.
    pub symbols: StubSymbols,
    /// Whether libraries that are weak for each fragment that names them get stubs, too.
    pub weak: bool,
    /// The path of the folder that gets the stubs, if it isn't the current one.
    pub out: Option<&'a str>,
}

/// What the symbols of stubs are.
#[derive(Clone, Copy, Debug, PartialEq, Eq)]
pub enum StubSymbols {
    /// Absolute numbers: the first symbol of the first stub has `first`, and each later one `step` more.
    Numbers { first: u32, step: u32 },
    /// Code and data of their own.
    Memory,
}

/// Returns the command `stubs [NAME=]FILE ..`.
pub(crate) fn stubs_command<'a>(alloc: Global) -> Result<Command<'a>, AllocError>
    ensures app { IfOk result (λ c. app_of c ≡ stubs_command) }
    ensures local { IfOk result (λ c. (out-Command c).has_globals ≡ false) }
{
    let about = "Makes stubs of the libraries that fragments lack";
    let with_options = with_options(alloc, described(alloc, "stubs", about))?;
    with_options.arg(files_operand(alloc, "[NAME=]FILE", FILES_HELP))
}

/// Returns the command `stubs` with its options.
fn with_options<'a>(alloc: Global, command: Command<'a>) -> Result<Command<'a>, AllocError>
    ensures { IfOk result (HasRules command.entry stubs_rules) }
{
    let first = "The number of the first symbol, in hexadecimal: F0000000 if it isn't given";
    let step = "How far the numbers are from each other: 16 if it isn't given";
    let memory = "Give the symbols code and data of their own in place of numbers";
    command
        .arg(valued(alloc, "first", "ADDRESS", first))?
        .arg(valued(alloc, "step", "BYTES", step))?
        .arg(flag(
            alloc,
            "no-weak",
            "Make no stubs of libraries that every fragment can do without",
        ))?
        .arg(flag(alloc, "memory", memory))?
        .arg(lettered(
            alloc,
            "out",
            'o',
            "FOLDER",
            "The folder that gets the stubs",
        ))
}

/// Returns the request that the operands of `stubs` make.
#[tactic(auto, using(crate::proofs::LineLemmas::first_in_rows, crate::proofs::LineLemmas::all_in_rows))]
pub(crate) fn stubs_request<'a>(
    alloc: Global,
    operands: &ArgMatches<'a>,
) -> Result<Request<'a>, WordsFault>
    ensures { AnswersWords result (stubs_asked (rows_of (found_of operands.now))) }
{
    let Some(words) = operands.get_strs("[NAME=]FILE") else {
        return Err(WordsFault::Usage);
    };
    let memory = is_set(operands.get_str("memory"));
    let first = operands.get_str("first");
    let step = operands.get_str("step");
    let Some(symbols) = stub_symbols(memory, first, step) else {
        return Err(WordsFault::Usage);
    };
    let no_weak = is_set(operands.get_str("no-weak"));
    let files = file_operands(alloc, words)?;
    Ok(Request::Stubs(StubsRequest {
        files,
        symbols,
        weak: !no_weak,
        out: operands.get_str("out"),
    }))
}

/// Returns what the symbols of stubs are, by the options: numbers, or memory, for which no number is given.
fn stub_symbols(memory: bool, first: Option<&str>, step: Option<&str>) -> Option<StubSymbols>
    ensures { result ≡ stub_symbols memory (option_map (λ word. word.now) first.entry) (option_map (λ word. word.now) step.entry) }
{
    match (memory, first, step) {
        (true, None, None) => Some(StubSymbols::Memory),
        (true, _, _) => None,
        (false, first, step) => Some(StubSymbols::Numbers {
            first: first_number(first)?,
            step: step_number(step)?,
        }),
    }
}

/// Returns the first number, by the word in hexadecimal that gives it.
fn first_number(word: Option<&str>) -> Option<u32>
    ensures { result ≡ first_number (option_map (λ word. word.now) word.entry) }
{
    match word {
        Some(word) => hex_number(word.as_bytes()),
        None => Some(FIRST_NUMBER),
    }
}

/// Returns the distance of the numbers, by the word that gives it, which isn't 0.
fn step_number(word: Option<&str>) -> Option<u32>
    ensures { result ≡ step_number (option_map (λ word. word.now) word.entry) }
{
    match word {
        Some(word) => some_number(decimal_number(word.as_bytes())),
        None => Some(STEP),
    }
}

/// Returns a number, unless it is 0.
fn some_number(number: Option<u32>) -> Option<u32>
    ensures { result ≡ some_number number }
{
    match number {
        Some(0) | None => None,
        Some(number) => Some(number),
    }
}
