ghost use Rattle.std.specs.Prelude.{◌≡◌, []};
ghost use Rattle.pef_ports.specs.Sent.{Sends};
ghost use Rattle.pef_tool.specs.Answers.Answers.{Answer, IsDelivered, answer_usage};

use crate::answers::outcome::Outcome;
use pef_ports::{Page, Sink, StreamFault, flush, send};

/// An answer of a command: a text that ends the run, and the outcome.
pub trait Reply {
    /// The text and the outcome.
    ghost answer: { Self → Answer };

    /// Returns the outcome after the text was written.
    fn outcome(&self) -> Outcome
        ensures { result ≡ (answer self.now).outcome };

    /// Prints the text through the page.
    fn print<W: Sink>(&self, out: &mut W, page: &mut Page) -> Result<(), StreamFault>
        ensures { Sends result (W.stream out.old) (W.stream out.new) page.old.items page.new.items (answer self.now).text };
}

/// Sends a whole reply and returns the outcome.
pub fn deliver<A: Reply, W: Sink>(out: &mut W, reply: &A) -> Outcome
    ensures { IsDelivered (W.stream out.old) (W.stream out.new) (A.answer reply.now) result }
{
    match print_whole(out, reply) {
        Ok(()) => reply.outcome(),
        Err(StreamFault) => Outcome::OutputFailed,
    }
}

/// Prints a reply and empties the page.
fn print_whole<A: Reply, W: Sink>(out: &mut W, reply: &A) -> Result<(), StreamFault>
    ensures { Sends result (W.stream out.old) (W.stream out.new) [] [] (A.answer reply.now).text }
{
    let mut page = Page::new();
    reply.print(out, &mut page)?;
    flush(out, &mut page)
}

/// The command line is invalid.
#[derive(Clone, Copy, Debug)]
pub struct Usage;

impl Reply for Usage {
    ghost answer = { λ _. answer_usage };

    fn outcome(&self) -> Outcome {
        Outcome::Usage
    }

    fn print<W: Sink>(&self, out: &mut W, page: &mut Page) -> Result<(), StreamFault> {
        send(out, page, b"usage\n")
    }
}
