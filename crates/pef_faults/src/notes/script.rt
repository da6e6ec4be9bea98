//! What is known of a script's line that is refused.
ghost use Rattle.std.specs.Prelude.{◌≡◌, map};
ghost use Rattle.pef_ports.specs.Sent.{Sends};
ghost use Rattle.pef_faults.specs.Notes.Scripts.{about_text, choices_text, each_text, group_of, kind_reason, near_reason, oddity_text, order_reason, overlap_reason, reason_of, reason_text, repeated_reason, script_note, script_text, words_text};

use crate::notes::excerpt::{Excerpt, print_excerpt};
use pef_ports::{Page, Piece, Sink, StreamFault, print_pieces, send};
use pef_script::{LineFault, Oddity, WordKind, form_in, kind_in, line_in, oddity_of, word_range};

/// What is known of a line that is refused: the reason, if the error's number doesn't say it, and the line.
#[derive(Clone, Copy, Debug, PartialEq, Eq)]
pub struct ScriptNote {
    pub reason: Reason,
    pub excerpt: Excerpt,
}

/// Why a line is refused, beyond the number of the error. Lines count from 1.
#[derive(Clone, Copy, Debug, PartialEq, Eq)]
pub enum Reason {
    /// No more than the number says.
    Number,
    /// The line has this oddity, which no line may have.
    Odd(Oddity),
    /// The word has to be one of the choices for its kind.
    Choices(WordKind),
    /// The line with this number declares nearly the name.
    Near { line: usize },
    /// The line with this number has the same name.
    Repeated { line: usize },
    /// This line, of a later group, comes before it.
    Later { line: usize },
    /// This line, of the same kind, comes before it, and only one is allowed.
    Again { line: usize },
    /// No library comes before an import.
    NoLibrary,
    /// The word overlaps one of this line.
    Overlaps { line: usize },
}

/// Returns what is known of the line of a text that is refused.
pub(crate) fn script_note(
    fault: LineFault,
    number: usize,
    earlier: Option<usize>,
    text: &[u8],
) -> ScriptNote
    ensures { result ≡ script_note fault number earlier text.now }
{
    let line = line_in(text, number);
    let (from, to) = word_range(line, fault.word());
    ScriptNote {
        reason: reason_of(fault, line, earlier, text),
        excerpt: Excerpt::of(line, from, to),
    }
}

/// Returns why a line of a text is refused.
fn reason_of(fault: LineFault, line: &[u8], earlier: Option<usize>, text: &[u8]) -> Reason
    ensures { result ≡ reason_of fault line.now earlier text.now }
{
    match fault {
        LineFault::BadLine { .. } => Reason::Odd(oddity_of(line)),
        LineFault::BadKind { word } => kind_reason(kind_in(word, line)),
        LineFault::UnknownName { .. } => near_reason(earlier),
        LineFault::RepeatedName { .. } => repeated_reason(earlier),
        LineFault::Overlap { .. } => overlap_reason(earlier),
        LineFault::OutOfOrder { .. } => order_reason(line, earlier, text),
        LineFault::BadNumber { .. }
        | LineFault::OutsideSection { .. }
        | LineFault::TooMany { .. } => Reason::Number,
    }
}

/// Returns the reason for a word of a kind that isn't one of the choices.
fn kind_reason(kind: Option<WordKind>) -> Reason
    ensures { result ≡ kind_reason kind }
{
    match kind {
        Some(kind) => Reason::Choices(kind),
        None => Reason::Number,
    }
}

/// Returns the reason for a name that isn't declared.
fn near_reason(earlier: Option<usize>) -> Reason
    ensures { result ≡ near_reason earlier }
{
    match earlier {
        Some(line) => Reason::Near { line },
        None => Reason::Number,
    }
}

/// Returns the reason for a name that is declared again.
fn repeated_reason(earlier: Option<usize>) -> Reason
    ensures { result ≡ repeated_reason earlier }
{
    match earlier {
        Some(line) => Reason::Repeated { line },
        None => Reason::Number,
    }
}

/// Returns the reason for a fixup's word that overlaps another.
fn overlap_reason(earlier: Option<usize>) -> Reason
    ensures { result ≡ overlap_reason earlier }
{
    match earlier {
        Some(line) => Reason::Overlaps { line },
        None => Reason::Number,
    }
}

/// Returns the reason for a line that comes too late.
fn order_reason(line: &[u8], earlier: Option<usize>, text: &[u8]) -> Reason
    ensures { result ≡ order_reason line.now earlier text.now }
{
    match earlier {
        Some(number) if group_of(line) == group_of(line_in(text, number)) => {
            Reason::Again { line: number }
        }
        Some(number) => Reason::Later { line: number },
        None => Reason::NoLibrary,
    }
}

/// Returns the group of a line, 0 if it has none.
fn group_of(line: &[u8]) -> u8
    ensures { result ≡ group_of line.now }
{
    match form_in(line) {
        Some(form) => form.group(),
        None => 0,
    }
}

/// Ends the line of the help, and prints the reason and the line of the text.
pub(crate) fn print_script_note<W: Sink>(
    out: &mut W,
    page: &mut Page,
    note: &ScriptNote,
) -> Result<(), StreamFault>
    ensures { Sends result (W.stream out.old) (W.stream out.new) page.old.items page.new.items (script_text note.now) }
{
    print_reason(out, page, note.reason)?;
    print_excerpt(out, page, &note.excerpt)
}

/// Ends the line of the help, and prints the reason.
#[tactic(auto, unfolding(crate::specs::Notes::Scripts::reason_text))]
fn print_reason<W: Sink>(out: &mut W, page: &mut Page, reason: Reason) -> Result<(), StreamFault>
    ensures { Sends result (W.stream out.old) (W.stream out.new) page.old.items page.new.items (reason_text reason) }
{
    match reason {
        Reason::Number => send(out, page, b"\n"),
        Reason::Odd(oddity) => print_oddity(out, page, oddity),
        Reason::Choices(kind) => print_choices(out, page, kind),
        Reason::NoLibrary => send(out, page, b"\nNo library comes before this import.\n"),
        Reason::Near { line } => {
            print_about(
                out,
                page,
                b"\nLine ",
                line,
                b" declares a name that is nearly this one.\n",
            )
        }
        Reason::Repeated { line } => print_about(
            out,
            page,
            b"\nLine ",
            line,
            b" has the same name.\n",
        ),
        Reason::Later { line } => print_about(
            out,
            page,
            b"\nIt has to come before line ",
            line,
            b", which is of a later group.\n",
        ),
        Reason::Again { line } => print_about(
            out,
            page,
            b"\nLine ",
            line,
            b" is of the same kind, and a script has one such line.\n",
        ),
        Reason::Overlaps { line } => {
            print_about(
                out,
                page,
                b"\nIt overlaps a word that line ",
                line,
                b" fills.\n",
            )
        }
    }
}

/// Prints a sentence with the number of a line.
fn print_about<'t, W: Sink>(
    out: &mut W,
    page: &mut Page,
    before: &'t [u8],
    line: usize,
    after: &'t [u8],
) -> Result<(), StreamFault>
    ensures { Sends result (W.stream out.old) (W.stream out.new) page.old.items page.new.items (about_text before.now line after.now) }
{
    print_pieces(
        out,
        page,
        &[
            Piece::Text(before),
            Piece::Number(line as u64),
            Piece::Text(after),
        ],
    )
}

/// Prints what is odd in a line.
fn print_oddity<W: Sink>(out: &mut W, page: &mut Page, oddity: Oddity) -> Result<(), StreamFault>
    ensures { Sends result (W.stream out.old) (W.stream out.new) page.old.items page.new.items (oddity_text oddity) }
{
    match oddity {
        Oddity::CarriageReturn => send(
            out,
            page,
            b"\nThe line has a carriage return. Save the script with line feeds alone.\n",
        ),
        Oddity::Tab => send(
            out,
            page,
            b"\nThe line has a tab. Write one space in its place.\n",
        ),
        Oddity::Byte => send(
            out,
            page,
            b"\nThe line has a byte that isn't printing ASCII.\n",
        ),
        Oddity::SpaceAtStart => send(out, page, b"\nThe line begins with a space.\n"),
        Oddity::SpaceAtEnd => send(out, page, b"\nThe line ends with a space.\n"),
        Oddity::TwoSpaces => send(out, page, b"\nThe line has two spaces in a row.\n"),
        Oddity::FirstWord => {
            send(
                out,
                page,
                b"\nNo line of a script begins with its first word.\n",
            )
        }
        Oddity::Words { has, wants } => print_words(out, page, has, wants),
        Oddity::Spelling => send(
            out,
            page,
            b"\nA name has more than 255 bytes, or the hex digits aren't pairs.\n",
        ),
    }
}

/// Prints how many words a line has, and how many it should have.
#[tactic(auto, unfolding(crate::specs::Notes::Scripts::words_text))]
fn print_words<W: Sink>(
    out: &mut W,
    page: &mut Page,
    has: usize,
    wants: usize,
) -> Result<(), StreamFault>
    ensures { Sends result (W.stream out.old) (W.stream out.new) page.old.items page.new.items (words_text has wants) }
{
    print_pieces(
        out,
        page,
        &[
            Piece::Text(b"\nA line with this first word has "),
            Piece::Number(wants as u64),
            Piece::Text(b" words. This one has "),
            Piece::Number(has as u64),
            Piece::Text(b".\n"),
        ],
    )
}

/// Prints the words that a word of a kind can be.
#[tactic(auto, unfolding(crate::specs::Notes::Scripts::choices_text))]
fn print_choices<W: Sink>(out: &mut W, page: &mut Page, kind: WordKind) -> Result<(), StreamFault>
    ensures { Sends result (W.stream out.old) (W.stream out.new) page.old.items page.new.items (choices_text kind) }
{
    send(out, page, b"\nThe word has to be one of these:")?;
    print_each(out, page, kind.choices())?;
    send(out, page, b"\n")
}

/// Prints words, each after a space.
fn print_each<W: Sink>(out: &mut W, page: &mut Page, words: &[&str]) -> Result<(), StreamFault>
    ensures { Sends result (W.stream out.old) (W.stream out.new) page.old.items page.new.items (each_text (map (λ word. word.now) words.now)) }
{
    for word in words {
        print_pieces(
            out,
            page,
            &[Piece::Text(b" "), Piece::Text(word.as_bytes())],
        )?;
    }
    Ok(())
}
