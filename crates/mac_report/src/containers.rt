ghost use Rattle.std.specs.Prelude.{◌≡◌, IfOk, List, ℕ};
ghost use Rattle.cfm_members.specs.Search.{containers_in};
ghost use Rattle.pef_ports.specs.Sent.{Sends};
ghost use Rattle.mac_report.specs.Containers.{Walks, fresh_tally};
ghost use Rattle.mac_report.specs.declared.tally.Tally.{Tally as TallyIs};

use crate::file::FileReport;
use crate::row::read_row;
use crate::tally::Tally;
use cfm_members::{Containers, Contents};
use mac_rows::OutputFormat;
use pef_ports::{Page, Sink, StreamFault};
use std::alloc::Allocator;

/// Prints all containers of a file, one after the other, and returns what it counted.
pub(crate) fn print_containers<A: Allocator + Copy, W: Sink>(
    alloc: A,
    out: &mut W,
    page: &mut Page,
    report: FileReport<'_>,
) -> Result<Tally, StreamFault>
    ensures { (text : List ℕ) × (tally : TallyIs)
        × Walks report.entry.form report.entry.bytes.now (fresh_tally report.entry.bytes.now) (containers_in report.entry.bytes.now 0) text tally
        × Sends result (W.stream out.old) (W.stream out.new) page.old.items page.new.items text
        × IfOk result (λ r. r ≡ tally) }
{
    print_contents(alloc, out, page, report.form, &Contents::of(report.bytes))
}

/// Prints the containers of a file whose forks are known.
fn print_contents<A: Allocator + Copy, W: Sink>(
    alloc: A,
    out: &mut W,
    page: &mut Page,
    form: OutputFormat,
    contents: &Contents<'_>,
) -> Result<Tally, StreamFault>
    ensures { (text : List ℕ) × (tally : TallyIs)
        × Walks form contents.now.bytes.now (fresh_tally contents.now.bytes.now) (containers_in contents.now.bytes.now 0) text tally
        × Sends result (W.stream out.old) (W.stream out.new) page.old.items page.new.items text
        × IfOk result (λ r. r ≡ tally) }
{
    let mut tally = Tally::new(contents.bytes);
    for place in Containers::new(contents.bytes) {
        let rest = tally.turn.rest_of(contents, place);
        let row = read_row(alloc, rest, place, tally.turn);
        row.print(out, page, form, tally.turn.containers == 0)?;
        tally = tally.with_row(rest, &row);
    }
    Ok(tally)
}
