//! What is printed of a file around its containers.
ghost use Rattle.std.specs.Prelude.{◌≡◌};
ghost use Rattle.pef_ports.specs.Sent.{Sends};
ghost use Rattle.pef_rows.specs.Frames.{counts_line, error_end, file_error_line, file_line, file_object, unread_line, unread_object};

use crate::tokens::{Token, print_tokens};
use pef_ports::{Page, Sink, StreamFault};

/// What was found in a file.
#[derive(Clone, Copy, Debug, PartialEq, Eq)]
pub struct Counts {
    pub containers: u64,
    pub errors: u64,
    pub notes: u64,
    /// How many containers weren't inspected. A note says it, and the line of the counts doesn't.
    pub unverified: u64,
}

/// Prints the first line of a file: its path, its length and what it is.
#[tactic(auto, unfolding(crate::specs::Frames::file_line))]
pub fn print_file_line<W: Sink>(
    out: &mut W,
    page: &mut Page,
    path: &[u8],
    size: u64,
    format: &'static [u8],
) -> Result<(), StreamFault>
    ensures { Sends result (W.stream out.old) (W.stream out.new) page.old.items page.new.items (file_line path.now size format.entry.now) }
{
    print_tokens(
        out,
        page,
        &[
            Token::Text(b"file "),
            Token::Name(path),
            Token::Text(b" size "),
            Token::Number(size),
            Token::Text(b" format "),
            Token::Text(format),
            Token::Text(b"\n"),
        ],
    )
}

/// Prints the first line of a file that wasn't read.
#[tactic(auto, unfolding(crate::specs::Frames::unread_line))]
pub fn print_unread_line<W: Sink>(
    out: &mut W,
    page: &mut Page,
    path: &[u8],
) -> Result<(), StreamFault>
    ensures { Sends result (W.stream out.old) (W.stream out.new) page.old.items page.new.items (unread_line path.now) }
{
    print_tokens(
        out,
        page,
        &[Token::Text(b"file "), Token::Name(path), Token::Text(b"\n")],
    )
}

/// Prints the line of an error that is about a file as a whole.
#[tactic(auto, unfolding(crate::specs::Frames::file_error_line))]
pub fn print_file_error<W: Sink>(
    out: &mut W,
    page: &mut Page,
    number: u32,
    name: &[u8],
) -> Result<(), StreamFault>
    ensures { Sends result (W.stream out.old) (W.stream out.new) page.old.items page.new.items (file_error_line number name.now) }
{
    print_tokens(
        out,
        page,
        &[
            Token::Text(b"error "),
            Token::Number(u64::from(number)),
            Token::Text(b" "),
            Token::Text(name),
            Token::Text(b"\n"),
        ],
    )
}

/// Prints the last line of a file.
#[tactic(auto, unfolding(crate::specs::Frames::counts_line))]
pub fn print_counts<W: Sink>(
    out: &mut W,
    page: &mut Page,
    counts: Counts,
) -> Result<(), StreamFault>
    ensures { Sends result (W.stream out.old) (W.stream out.new) page.old.items page.new.items (counts_line counts) }
{
    print_tokens(
        out,
        page,
        &[
            Token::Text(b"total containers "),
            Token::Number(counts.containers),
            Token::Text(b" errors "),
            Token::Number(counts.errors),
            Token::Text(b" notes "),
            Token::Number(counts.notes),
            Token::Text(b"\n"),
        ],
    )
}

/// Prints the beginning of a file's object of JSON. Its forks follow.
#[tactic(auto, unfolding(crate::specs::Frames::file_object))]
pub fn print_file_object<W: Sink>(
    out: &mut W,
    page: &mut Page,
    path: &[u8],
    size: u64,
    format: &'static [u8],
) -> Result<(), StreamFault>
    ensures { Sends result (W.stream out.old) (W.stream out.new) page.old.items page.new.items (file_object path.now size format.entry.now) }
{
    print_tokens(
        out,
        page,
        &[
            Token::Text(b"{\"file\":"),
            Token::Unicode(path),
            Token::Text(b",\"file_bytes\":\""),
            Token::Path(path),
            Token::Text(b"\",\"size\":"),
            Token::Number(size),
            Token::Text(b",\"format\":\""),
            Token::Text(format),
            Token::Text(b"\",\"forks\":["),
        ],
    )
}

/// Prints the beginning of the object of a file that wasn't read.
#[tactic(auto, unfolding(crate::specs::Frames::unread_object))]
pub fn print_unread_object<W: Sink>(
    out: &mut W,
    page: &mut Page,
    path: &[u8],
) -> Result<(), StreamFault>
    ensures { Sends result (W.stream out.old) (W.stream out.new) page.old.items page.new.items (unread_object path.now) }
{
    print_tokens(
        out,
        page,
        &[
            Token::Text(b"{\"file\":"),
            Token::Unicode(path),
            Token::Text(b",\"file_bytes\":\""),
            Token::Path(path),
            Token::Text(
                b"\",\"size\":null,\"format\":null,\"forks\":[],\"mac\":null,\"resources\":[],\"fragments\":[],\"containers\":[",
            ),
        ],
    )
}

/// Prints the end of a file's object, with an error that is about the file as a whole.
#[tactic(auto, unfolding(crate::specs::Frames::error_end))]
pub fn print_error_end<W: Sink>(
    out: &mut W,
    page: &mut Page,
    number: u32,
    name: &[u8],
) -> Result<(), StreamFault>
    ensures { Sends result (W.stream out.old) (W.stream out.new) page.old.items page.new.items (error_end number name.now) }
{
    print_tokens(
        out,
        page,
        &[
            Token::Text(b"],\"errors\":[{\"number\":"),
            Token::Number(u64::from(number)),
            Token::Text(b",\"name\":\""),
            Token::Text(name),
            Token::Text(
                b"\",\"part\":null,\"row\":null,\"field\":null,\"offset\":null}],\"notes\":[]}\n",
            ),
        ],
    )
}
