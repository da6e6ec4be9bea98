ghost use Rattle.std.specs.Prelude.{◌≡◌, codes};
ghost use Rattle.pef_tool.specs.Answers.Answers.{Answer, IsDelivered, answer_done};
ghost use Rattle.pef_tool.specs.Version.{VersionAnswers};

use crate::answers::{Outcome, Reply, deliver};
use pef_ports::{Page, Sink, StreamFault, send};

/// The line that `--version` prints: the version is that of `include/pef.h`.
const VERSION_LINE: &[u8] = b"pef 0.1.0\n";

/// Prints the version of the program.
pub fn print_version<W: Sink>(out: &mut W) -> Outcome
    ensures { (answer : Answer)
        × VersionAnswers answer
        × IsDelivered (W.stream out.old) (W.stream out.new) answer result }
{
    deliver(out, &Version)
}

/// The program's name and its version.
#[derive(Clone, Copy, Debug)]
struct Version;

impl Reply for Version {
    ghost answer = { λ _. answer_done (codes "pef 0.1.0\n") };

    fn outcome(&self) -> Outcome {
        Outcome::Done
    }

    fn print<W: Sink>(&self, out: &mut W, page: &mut Page) -> Result<(), StreamFault> {
        send(out, page, VERSION_LINE)
    }
}
