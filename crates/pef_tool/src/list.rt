ghost use Rattle.pef_listing.specs.Listing.{listing_text};
ghost use Rattle.pef_listing.specs.Views.{parts};
ghost use Rattle.pef_tool.specs.Answers.Answers.{Answer, IsDelivered, answer_done};
ghost use Rattle.pef_tool.specs.List.{ListAnswers};

use crate::answers::{Outcome, Reply, deliver};
use crate::reading::read_file;
use pef_faults::Fault;
use pef_listing::Listing;
use pef_ports::{Files, Page, Sink, StreamFault};
use std::alloc::Global;

/// Lists the container at a path: its sections, libraries, imports, entries, relocation programs and exports.
///
/// All of them are read before the first line is printed.
pub fn list_file<F: Files, W: Sink>(
    alloc: Global,
    files: &mut F,
    path: &[u8],
    out: &mut W,
) -> Outcome
    ensures { (answer : Answer)
        × ListAnswers (record { state = F.state; reason = F.reason; was_read = F.was_read; was_written = F.was_written }) files.old files.new path.now answer
        × IsDelivered (W.stream out.old) (W.stream out.new) answer result }
{
    let bytes = match read_file(alloc, files, path) {
        Ok(bytes) => bytes,
        Err(fault) => return deliver(out, &fault),
    };
    match Listing::read(bytes.as_slice()) {
        Ok(listing) => deliver(out, &ListedReply { listing }),
        Err(fault) => deliver(out, &Fault::Listing(fault)),
    }
}

/// Returns the answer of `list` for a container that it read.
#[derive(Clone, Copy)]
struct ListedReply<'a> {
    listing: Listing<'a>,
}

impl<'a> Reply for ListedReply<'a> {
    ghost answer = { λ reply. answer_done (listing_text (parts reply.listing).container (parts reply.listing).loader) };

    fn outcome(&self) -> Outcome {
        Outcome::Done
    }

    fn print<W: Sink>(&self, out: &mut W, page: &mut Page) -> Result<(), StreamFault> {
        self.listing.print(out, page)
    }
}
