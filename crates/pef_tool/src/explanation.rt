ghost use Rattle.std.specs.Prelude.{◌++◌, ℕ, List, codes, decimal, option_map};
ghost use Rattle.pef_tool.specs.Answers.Answers.{answer_done};
ghost use Rattle.pef_tool.specs.Explain.{Explains, IsNoted, NotesHelp};
ghost use Rattle.pef_faults.specs.Notes.Notes.{note_text};

use crate::answers::{Outcome, Reply, deliver};
use pef_faults::{Explanation, print_note};
use pef_lines::decimal_number;
use pef_ports::{Page, Piece, Sink, StreamFault, print_pieces, send};
use pef_refusals::{help, name};
use pef_request::words_help;
use std::alloc::Global;

/// The text that is printed if the output failed.
const OUTPUT_FAILED: &str = "The standard output failed, so a part of the answer may be missing.\n";

/// The text that is printed if allocating the help fails.
const NO_HELP: &str = "An allocation failed, so there is no help.\n";

/// Explains the outcome of a run with these words, on an output of its own: the meaning of a refusal and its remedy, or
/// the error in the command line.
///
/// A run that is done isn't explained. If this output fails, nothing else changes.
pub fn explain<W: Sink>(alloc: Global, words: &[String], outcome: Outcome, notes: &mut W)
    ensures { Explains outcome (W.stream notes.old) (W.stream notes.new) }
{
    match outcome {
        Outcome::Done | Outcome::SaidNo => {}
        Outcome::Refused { number, note } => note_help(notes, help(number), note),
        Outcome::Usage => note_usage(alloc, words, notes),
        Outcome::OutputFailed => write_note(notes, OUTPUT_FAILED.as_bytes()),
    }
}

/// Writes the help for an error, if there is some, and what else is known.
fn note_help<W: Sink>(notes: &mut W, text: Option<&'static str>, note: Explanation)
    ensures { NotesHelp (option_map (λ text. text.now) text.entry) note (W.stream notes.old) (W.stream notes.new) }
{
    match text {
        Some(text) => {
            deliver(
                notes,
                &HelpNote {
                    text: text.as_bytes(),
                    note,
                },
            );
        }
        None => {}
    }
}

/// Writes the error in the command line, or the help that it asks for: that for a command, or with the number of an error its meaning.
fn note_usage<W: Sink>(alloc: Global, words: &[String], notes: &mut W)
    ensures { (text : List ℕ) × IsNoted (W.stream notes.old) (W.stream notes.new) text }
{
    match asked_number(words) {
        Some(number) => note_number(alloc, words, number, notes),
        None => note_words(alloc, words, notes),
    }
}

/// Returns the number whose meaning is asked for, if one is.
fn asked_number(words: &[String]) -> Option<u32> {
    match words {
        [_, first, second] if first.as_str() == "help" => decimal_number(second.as_bytes()),
        _ => None,
    }
}

/// Writes what an error or a note with a number is called and means, or the error in the command line if there is no such number.
fn note_number<W: Sink>(alloc: Global, words: &[String], number: u32, notes: &mut W)
    ensures { (text : List ℕ) × IsNoted (W.stream notes.old) (W.stream notes.new) text }
{
    match (name(number), help(number)) {
        (Some(name), Some(text)) => write_number(notes, number, name.as_bytes(), text.as_bytes()),
        _ => note_words(alloc, words, notes),
    }
}

/// Writes a number, its name and its meaning.
fn write_number<'a, W: Sink>(notes: &mut W, number: u32, name: &'a [u8], text: &'a [u8])
    ensures { IsNoted (W.stream notes.old) (W.stream notes.new) (decimal number ++ codes " " ++ name.entry.now ++ codes "\n" ++ text.entry.now ++ codes "\n") }
{
    deliver(notes, &NumberNote { number, name, text });
}

/// Writes what `clap` says of the command line.
fn note_words<W: Sink>(alloc: Global, words: &[String], notes: &mut W)
    ensures { (text : List ℕ) × IsNoted (W.stream notes.old) (W.stream notes.new) text }
{
    match words_help(alloc, words) {
        Ok(text) => write_note(notes, text.as_bytes()),
        Err(_) => write_note(notes, NO_HELP.as_bytes()),
    }
}

/// Writes a text.
fn write_note<W: Sink>(notes: &mut W, text: &[u8])
    ensures { IsNoted (W.stream notes.old) (W.stream notes.new) text.now }
{
    deliver(notes, &TextNote { text });
}

/// A text.
#[derive(Clone, Copy)]
struct TextNote<'a> {
    text: &'a [u8],
}

impl<'a> Reply for TextNote<'a> {
    ghost answer = { λ note. answer_done note.text.now };

    fn outcome(&self) -> Outcome {
        Outcome::Done
    }

    fn print<W: Sink>(&self, out: &mut W, page: &mut Page) -> Result<(), StreamFault> {
        send(out, page, self.text)
    }
}

/// A number, its name and its meaning.
#[derive(Clone, Copy)]
struct NumberNote<'a> {
    number: u32,
    name: &'a [u8],
    text: &'a [u8],
}

impl<'a> Reply for NumberNote<'a> {
    ghost answer = { λ note. answer_done (decimal note.number ++ codes " " ++ note.name.now ++ codes "\n" ++ note.text.now ++ codes "\n") };

    fn outcome(&self) -> Outcome {
        Outcome::Done
    }

    fn print<W: Sink>(&self, out: &mut W, page: &mut Page) -> Result<(), StreamFault> {
        print_pieces(
            out,
            page,
            &[
                Piece::Number(u64::from(self.number)),
                Piece::Text(b" "),
                Piece::Text(self.name),
                Piece::Text(b"\n"),
                Piece::Text(self.text),
                Piece::Text(b"\n"),
            ],
        )
    }
}

/// The help for an error, and what else is known.
#[derive(Clone, Copy)]
struct HelpNote<'a> {
    text: &'a [u8],
    note: Explanation,
}

impl<'a> Reply for HelpNote<'a> {
    ghost answer = { λ note. answer_done (note.text.now ++ note_text note.note) };

    fn outcome(&self) -> Outcome {
        Outcome::Done
    }

    fn print<W: Sink>(&self, out: &mut W, page: &mut Page) -> Result<(), StreamFault> {
        send(out, page, self.text)?;
        print_note(out, page, &self.note)
    }
}
