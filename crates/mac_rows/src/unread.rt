ghost use Rattle.std.specs.Prelude.{◌≡◌};
ghost use Rattle.pef_ports.specs.Sent.{Sends};
ghost use Rattle.mac_rows.specs.Unread.{reason_word, unread_because, unread_error_end, unread_error_line, unread_json, unread_lines};

use crate::output_format::OutputFormat;
use pef_ports::{FileReason, Page, Sink, StreamFault};
use pef_rows::{
    Counts, Token, print_counts, print_error_end, print_file_error, print_tokens,
    print_unread_line, print_unread_object,
};

/// The counts of a file that wasn't read: its one error.
pub const UNREAD_COUNTS: Counts = Counts {
    containers: 0,
    errors: 1,
    notes: 0,
    unverified: 0,
};

/// The report on a file that wasn't read, with the number and the name of the error, and why it wasn't.
#[derive(Clone, Copy, Debug)]
pub struct UnreadFile<'a> {
    pub form: OutputFormat,
    pub path: &'a [u8],
    pub number: u32,
    pub name: &'a [u8],
    pub reason: FileReason,
}

impl<'a> UnreadFile<'a> {
    /// Prints the report. It counts one error.
    ///
    /// # Errors
    ///
    /// Only those of the output.
    #[tactic(auto, unfolding(crate::specs::Unread::unread_because))]
    pub fn print<W: Sink>(self, out: &mut W, page: &mut Page) -> Result<(), StreamFault>
        ensures { Sends result (W.stream out.old) (W.stream out.new) page.old.items page.new.items (unread_because self.entry.form self.entry.path.now self.entry.number self.entry.name.now self.entry.reason) }
    {
        match self.form {
            OutputFormat::Text => self.print_lines(out, page),
            OutputFormat::Json => self.print_object(out, page),
        }
    }

    /// Prints the report as text.
    fn print_lines<W: Sink>(self, out: &mut W, page: &mut Page) -> Result<(), StreamFault>
        ensures { Sends result (W.stream out.old) (W.stream out.new) page.old.items page.new.items (unread_lines self.entry.path.now self.entry.number self.entry.name.now self.entry.reason) }
    {
        print_unread_line(out, page, self.path)?;
        print_error_line(out, page, self.number, self.name, reason_word(self.reason))?;
        print_counts(out, page, UNREAD_COUNTS)
    }

    /// Prints the report as an object of JSON.
    fn print_object<W: Sink>(self, out: &mut W, page: &mut Page) -> Result<(), StreamFault>
        ensures { Sends result (W.stream out.old) (W.stream out.new) page.old.items page.new.items (unread_json self.entry.path.now self.entry.number self.entry.name.now self.entry.reason) }
    {
        print_unread_object(out, page, self.path)?;
        print_object_end(out, page, self.number, self.name, reason_word(self.reason))
    }
}

/// Returns the word for why a file wasn't read, which is empty if no reason is known.
fn reason_word(reason: FileReason) -> &'static [u8]
    ensures { result.now ≡ reason_word reason }
{
    match reason {
        FileReason::Missing => b"missing",
        FileReason::Folder => b"folder",
        FileReason::Forbidden => b"forbidden",
        FileReason::Full => b"full",
        FileReason::NotUtf8 => b"path",
        FileReason::TooLong => b"long",
        FileReason::Other => b"",
    }
}

/// Prints the line of the error, with the word if it isn't empty.
#[tactic(auto, unfolding(crate::specs::Unread::unread_error_line))]
fn print_error_line<W: Sink>(
    out: &mut W,
    page: &mut Page,
    number: u32,
    name: &[u8],
    word: &'static [u8],
) -> Result<(), StreamFault>
    ensures { Sends result (W.stream out.old) (W.stream out.new) page.old.items page.new.items (unread_error_line number name.now word.entry.now) }
{
    match word {
        [] => print_file_error(out, page, number, name),
        _ => print_tokens(
            out,
            page,
            &[
                Token::Text(b"error "),
                Token::Number(u64::from(number)),
                Token::Text(b" "),
                Token::Text(name),
                Token::Text(b" reason "),
                Token::Text(word),
                Token::Text(b"\n"),
            ],
        ),
    }
}

/// Prints the end of the file's object with the error, which has the word if it isn't empty.
#[tactic(auto, unfolding(crate::specs::Unread::unread_error_end))]
fn print_object_end<W: Sink>(
    out: &mut W,
    page: &mut Page,
    number: u32,
    name: &[u8],
    word: &'static [u8],
) -> Result<(), StreamFault>
    ensures { Sends result (W.stream out.old) (W.stream out.new) page.old.items page.new.items (unread_error_end number name.now word.entry.now) }
{
    match word {
        [] => print_error_end(out, page, number, name),
        _ => print_tokens(
            out,
            page,
            &[
                Token::Text(b"],\"errors\":[{\"number\":"),
                Token::Number(u64::from(number)),
                Token::Text(b",\"name\":\""),
                Token::Text(name),
                Token::Text(
                    b"\",\"part\":null,\"row\":null,\"field\":null,\"offset\":null,\"reason\":\"",
                ),
                Token::Text(word),
                Token::Text(b"\"}],\"notes\":[]}\n"),
            ],
        ),
    }
}
