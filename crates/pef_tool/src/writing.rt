ghost use Rattle.std.specs.Prelude.{map};
ghost use Rattle.pef_tool.specs.Answers.Answers.{Answer, IsDelivered};
ghost use Rattle.pef_tool.specs.Writing.{WritesThenAnswers};

use crate::answers::{Outcome, Reply, deliver};
use cfm_files::{FileToWrite, write_files};
use pef_ports::{Files, Sink};

/// Writes files, one after the other, and then sends a reply, or the reason why one of them isn't written.
pub(crate) fn write_then_deliver<F: Files, T: FileToWrite, A: Reply, W: Sink>(
    files: &mut F,
    written: &[T],
    reply: &A,
    out: &mut W,
) -> Outcome
    ensures { (answer : Answer)
        × WritesThenAnswers (record { state = F.state; reason = F.reason; was_read = F.was_read; was_written = F.was_written }) files.old files.new (map T.file written.now) (A.answer reply.now) answer
        × IsDelivered (W.stream out.old) (W.stream out.new) answer result }
{
    match write_files(files, written) {
        Ok(()) => deliver(out, reply),
        Err(fault) => deliver(out, &fault),
    }
}
