ghost use Rattle.std.specs.Prelude.{option_map};
ghost use Rattle.pef_ports.specs.Sent.{Sends};
ghost use Rattle.mac_forks.specs.Views.{part_seen};
ghost use Rattle.mac_rows.specs.Forks.{between, fork_line, fork_object, forks_json, forks_lines, maybe_line, maybe_object};

use mac_forks::ForkBytes;
use pef_ports::{Page, Sink, StreamFault, send};
use pef_rows::{Token, print_tokens};

/// The forks of a file.
#[derive(Clone, Copy)]
pub(crate) struct ForkPair<'a> {
    pub data_fork: Option<ForkBytes<'a>>,
    pub resource_fork: Option<ForkBytes<'a>>,
}

impl<'a> ForkPair<'a> {
    /// Prints a line for each fork.
    pub(crate) fn print_lines<W: Sink>(
        self,
        out: &mut W,
        page: &mut Page,
    ) -> Result<(), StreamFault>
        ensures { Sends result (W.stream out.old) (W.stream out.new) page.old.items page.new.items (forks_lines (option_map part_seen self.entry.data_fork) (option_map part_seen self.entry.resource_fork)) }
    {
        print_line(out, page, b"data", self.data_fork)?;
        print_line(out, page, b"resource", self.resource_fork)
    }

    /// Prints an object for each fork, with a comma between them.
    pub(crate) fn print_objects<W: Sink>(
        self,
        out: &mut W,
        page: &mut Page,
    ) -> Result<(), StreamFault>
        ensures { Sends result (W.stream out.old) (W.stream out.new) page.old.items page.new.items (forks_json (option_map part_seen self.entry.data_fork) (option_map part_seen self.entry.resource_fork)) }
    {
        print_object(out, page, b"data", self.data_fork)?;
        self.print_between(out, page)?;
        print_object(out, page, b"resource", self.resource_fork)
    }

    /// Prints a comma if there are two forks.
    fn print_between<W: Sink>(self, out: &mut W, page: &mut Page) -> Result<(), StreamFault>
        ensures { Sends result (W.stream out.old) (W.stream out.new) page.old.items page.new.items (between (option_map part_seen self.entry.data_fork) (option_map part_seen self.entry.resource_fork)) }
    {
        match (self.data_fork, self.resource_fork) {
            (Some(_), Some(_)) => send(out, page, b","),
            (Some(_), None) | (None, Some(_)) | (None, None) => send(out, page, b""),
        }
    }
}

/// Prints the line of a fork, if there is one.
fn print_line<W: Sink>(
    out: &mut W,
    page: &mut Page,
    word: &[u8],
    fork: Option<ForkBytes<'_>>,
) -> Result<(), StreamFault>
    ensures { Sends result (W.stream out.old) (W.stream out.new) page.old.items page.new.items (maybe_line word.now (option_map part_seen fork.entry)) }
{
    match fork {
        Some(part) => print_fork_line(out, page, word, part),
        None => print_tokens(out, page, &[]),
    }
}

/// Prints the line of a fork.
#[tactic(auto, unfolding(crate::specs::Forks::fork_line))]
fn print_fork_line<W: Sink>(
    out: &mut W,
    page: &mut Page,
    word: &[u8],
    part: ForkBytes<'_>,
) -> Result<(), StreamFault>
    ensures { Sends result (W.stream out.old) (W.stream out.new) page.old.items page.new.items (fork_line word.now (part_seen part.entry)) }
{
    print_tokens(
        out,
        page,
        &[
            Token::At(part.offset as u64),
            Token::Text(b" fork "),
            Token::Text(word),
            Token::Text(b" size "),
            Token::Number(part.bytes.len() as u64),
            Token::Text(b"\n"),
        ],
    )
}

/// Prints the object of a fork, if there is one.
fn print_object<W: Sink>(
    out: &mut W,
    page: &mut Page,
    word: &[u8],
    fork: Option<ForkBytes<'_>>,
) -> Result<(), StreamFault>
    ensures { Sends result (W.stream out.old) (W.stream out.new) page.old.items page.new.items (maybe_object word.now (option_map part_seen fork.entry)) }
{
    match fork {
        Some(part) => print_fork_object(out, page, word, part),
        None => print_tokens(out, page, &[]),
    }
}

/// Prints the object of a fork.
#[tactic(auto, unfolding(crate::specs::Forks::fork_object))]
fn print_fork_object<W: Sink>(
    out: &mut W,
    page: &mut Page,
    word: &[u8],
    part: ForkBytes<'_>,
) -> Result<(), StreamFault>
    ensures { Sends result (W.stream out.old) (W.stream out.new) page.old.items page.new.items (fork_object word.now (part_seen part.entry)) }
{
    print_tokens(
        out,
        page,
        &[
            Token::Text(b"{\"kind\":\""),
            Token::Text(word),
            Token::Text(b"\",\"offset\":"),
            Token::Number(part.offset as u64),
            Token::Text(b",\"length\":"),
            Token::Number(part.bytes.len() as u64),
            Token::Text(b"}"),
        ],
    )
}
