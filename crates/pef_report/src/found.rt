//! Errors and notes as they are printed.
ghost use Rattle.std.specs.Prelude.{◌≡◌, ◌++◌, true};
ghost use Rattle.pef_ports.specs.Sent.{Sends};
ghost use Rattle.pef_rows.specs.Findings.{finding_line, finding_object};
ghost use Rattle.pef_report.specs.Inspection.{count_chosen, finding_json, finding_text, findings_json, findings_text, is_chosen};
ghost use Rattle.pef_rows.specs.Objects.{separator};

use pef_inspect::Finding;
use pef_ports::{Page, Sink, StreamFault};
use pef_rows::{FindingRow, print_finding, print_finding_object, print_separator};

/// Prints the lines of errors and notes of a container that begins at an offset of the file.
pub(crate) fn print_findings<W: Sink>(
    out: &mut W,
    page: &mut Page,
    base: u64,
    findings: &[Finding],
) -> Result<(), StreamFault>
    ensures { Sends result (W.stream out.old) (W.stream out.new) page.old.items page.new.items (findings_text base findings.now) }
{
    for finding in findings {
        print_text(out, page, base, *finding)?;
    }
    Ok(())
}

/// Prints the line of an error or a note.
fn print_text<W: Sink>(
    out: &mut W,
    page: &mut Page,
    base: u64,
    finding: Finding,
) -> Result<(), StreamFault>
    ensures { Sends result (W.stream out.old) (W.stream out.new) page.old.items page.new.items (finding_text base finding) }
{
    print_finding(out, page, finding_row(base, finding))
}

/// Prints the object of an error or a note.
fn print_json<W: Sink>(
    out: &mut W,
    page: &mut Page,
    base: u64,
    finding: Finding,
) -> Result<(), StreamFault>
    ensures { Sends result (W.stream out.old) (W.stream out.new) page.old.items page.new.items (finding_json base finding) }
{
    print_finding_object(out, page, finding_row(base, finding))
}

/// The errors of a container that begins at an offset of the file, or its notes.
#[derive(Clone, Copy)]
pub(crate) struct Chosen<'f> {
    pub base: u64,
    pub findings: &'f [Finding],
    pub errors: bool,
}

/// Prints the objects of the errors or the notes, with commas between them.
pub(crate) fn print_chosen<W: Sink>(
    out: &mut W,
    page: &mut Page,
    chosen: Chosen<'_>,
) -> Result<(), StreamFault>
    ensures { Sends result (W.stream out.old) (W.stream out.new) page.old.items page.new.items (findings_json chosen.entry.base chosen.entry.errors true chosen.entry.findings.now) }
{
    let mut is_first = true;
    for finding in chosen.findings {
        if is_chosen(*finding, chosen.errors) {
            print_element(out, page, chosen.base, is_first, *finding)?;
            is_first = false;
        }
    }
    Ok(())
}

/// Prints the object of an error or a note in a list.
fn print_element<W: Sink>(
    out: &mut W,
    page: &mut Page,
    base: u64,
    is_first: bool,
    finding: Finding,
) -> Result<(), StreamFault>
    ensures { Sends result (W.stream out.old) (W.stream out.new) page.old.items page.new.items (separator is_first ++ finding_json base finding) }
{
    print_separator(out, page, is_first)?;
    print_json(out, page, base, finding)
}

/// Returns how many of the findings are errors, or how many are notes.
pub(crate) fn count_chosen(findings: &[Finding], errors: bool) -> u64
    ensures { result ≡ count_chosen errors findings.now }
{
    let mut count = 0;
    for finding in findings {
        if is_chosen(*finding, errors) {
            count += 1;
        }
    }
    count
}

/// Returns whether a finding is an error, or whether it is a note.
fn is_chosen(finding: Finding, errors: bool) -> bool
    ensures { result ≡ is_chosen errors finding }
{
    if errors {
        finding.is_error()
    } else {
        !finding.is_error()
    }
}

/// Returns a finding with its number, its name and its detail.
#[tactic(auto, unfolding(crate::specs::Inspection::finding_text, crate::specs::Inspection::finding_json))]
fn finding_row(base: u64, finding: Finding) -> FindingRow
    ensures line { finding_line result.base result.number result.name.now result.is_error result.place result.detail ≡ finding_text base finding }
    ensures object { finding_object result.base result.number result.name.now result.place result.detail ≡ finding_json base finding }
{
    FindingRow {
        base,
        number: finding.number(),
        name: finding.name(),
        is_error: finding.is_error(),
        place: finding.place,
        detail: finding.detail(),
    }
}
