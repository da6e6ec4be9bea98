ghost use Rattle.pef_cert.specs.Text.Printed.{certificates_text};
ghost use Rattle.pef_tool.specs.Answers.Answers.{Answer, IsDelivered, answer_done};
ghost use Rattle.pef_tool.specs.Distances.{DistancesAnswers};

use crate::answers::{Outcome, Reply, deliver};
use crate::linking::certify_text;
use crate::reading::read_file;
use pef_certify::ScriptCertificates;
use pef_ports::{Files, Page, Sink, StreamFault};
use std::alloc::Global;

/// Prints the certificates of the sections of the script at a path. Each has a program for its section, and proves that no
/// program without repeats is shorter.
///
/// All certificates are made before the first line is printed.
pub fn print_distances<F: Files, W: Sink>(
    alloc: Global,
    files: &mut F,
    script: &[u8],
    out: &mut W,
) -> Outcome
    ensures { (answer : Answer)
        × DistancesAnswers (record { state = F.state; reason = F.reason; was_read = F.was_read; was_written = F.was_written }) files.old files.new script.now answer
        × IsDelivered (W.stream out.old) (W.stream out.new) answer result }
{
    let text = match read_file(alloc, files, script) {
        Ok(text) => text,
        Err(fault) => return deliver(out, &fault),
    };
    let certificates = match certify_text(alloc, text.as_slice()) {
        Ok(certificates) => certificates,
        Err(fault) => return deliver(out, &fault),
    };
    deliver(out, &Distances { certificates })
}

/// The certificates of a script's sections, as they are printed.
#[derive(Drop)]
struct Distances {
    certificates: ScriptCertificates,
}

impl Reply for Distances {
    ghost answer = { λ distances. answer_done (certificates_text distances.certificates) };

    fn outcome(&self) -> Outcome {
        Outcome::Done
    }

    fn print<W: Sink>(&self, out: &mut W, page: &mut Page) -> Result<(), StreamFault> {
        self.certificates.print_to(out, page)
    }
}
