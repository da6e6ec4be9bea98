//! The arguments of commands, for `clap`, and what their values say.
ghost use Rattle.std.specs.Prelude.{◌≡◌, IfOk, false, option_map};
ghost use Rattle.clap.specs.Walk.{rule_of};
ghost use Rattle.clap.specs.Words.{app_of, new_app, new_rule};
ghost use Rattle.clap.specs.declared.builder.command.Command.TheViews.{out-Command};
ghost use Rattle.pef_request.specs.Arguments.{files_operand, flag, is_set, lettered, operand, repeated, valued};

use clap::{Arg, ArgAction, Command};
use std::alloc::Global;

/// The maximum number of files of a command that prepares them.
const MOST_FILES: usize = 256;

/// Returns a command without operands, with its help.
pub(crate) fn described<'a>(alloc: Global, name: &'a str, about: &'a str) -> Command<'a>
    ensures app { app_of result ≡ new_app name.entry.now }
    ensures local { (out-Command result).has_globals ≡ false }
{
    Command::new(alloc, name).about(about)
}

/// Returns a required operand, with its help.
pub(crate) fn operand<'a>(alloc: Global, name: &'a str, help: &'a str) -> Arg<'a>
    ensures rule { rule_of result ≡ operand name.entry.now }
    ensures local { result.global ≡ false }
{
    Arg::new(alloc, name).required(true).help(help)
}

/// Returns an operand that may be missing, with its help.
pub(crate) fn optional_operand<'a>(alloc: Global, name: &'a str, help: &'a str) -> Arg<'a>
    ensures rule { rule_of result ≡ new_rule name.entry.now }
    ensures local { result.global ≡ false }
{
    Arg::new(alloc, name).help(help)
}

/// Returns the operand of a command that prepares containers, with its help: 1 to 256 words.
pub(crate) fn files_operand<'a>(alloc: Global, name: &'a str, help: &'a str) -> Arg<'a>
    ensures rule { rule_of result ≡ files_operand name.entry.now }
    ensures local { result.global ≡ false }
{
    operand(alloc, name, help).num_args(1..=MOST_FILES)
}

/// Returns a flag, with its help.
pub(crate) fn flag<'a>(alloc: Global, name: &'a str, help: &'a str) -> Arg<'a>
    ensures rule { rule_of result ≡ flag name.entry.now }
    ensures local { result.global ≡ false }
{
    Arg::new(alloc, name)
        .long(name)
        .action(ArgAction::SetTrue)
        .help(help)
}

/// Returns an option with a value, with its help.
pub(crate) fn valued<'a>(alloc: Global, name: &'a str, value: &'a str, help: &'a str) -> Arg<'a>
    ensures rule { rule_of result ≡ valued name.entry.now }
    ensures local { result.global ≡ false }
{
    Arg::new(alloc, name)
        .long(name)
        .value_name(value)
        .help(help)
}

/// Returns an option of one letter with a value, with its help.
pub(crate) fn lettered<'a>(
    alloc: Global,
    name: &'a str,
    letter: char,
    value: &'a str,
    help: &'a str,
) -> Arg<'a>
    ensures rule { rule_of result ≡ lettered name.entry.now letter }
    ensures local { result.global ≡ false }
{
    Arg::new(alloc, name)
        .short(letter)
        .value_name(value)
        .help(help)
}

/// Returns an option that may be given several times.
pub(crate) fn repeated<'a>(option: Arg<'a>) -> Arg<'a>
    ensures rule { rule_of result ≡ repeated (rule_of option.entry) }
    ensures local { result.global ≡ option.entry.global }
{
    option.action(ArgAction::Append)
}

/// Returns whether a flag was given, by its value.
pub(crate) fn is_set(value: Option<&str>) -> bool
    ensures { result ≡ is_set (option_map (λ v. v.now) value.entry) }
{
    match value {
        Some(value) => value == "true",
        None => false,
    }
}
