//! The object of JSON of a container, and further rows of it.
ghost use Rattle.std.specs.Prelude.{◌≡◌};
ghost use Rattle.pef_ports.specs.Sent.{Sends};
ghost use Rattle.pef_report.specs.Inspection.{list_json, object_within, rows_json, rows_text};
ghost use Rattle.pef_report.specs.Views.{shown_seen};

use crate::found::{Chosen, print_chosen};
use crate::members::{Elements, print_elements, print_members, row_members};
use crate::reading::Reading;
use crate::verdict::Verdict;
use pef_format::Part;
use pef_inspect::{Finding, programs_shown};
use pef_ports::{Page, Sink, StreamFault, send};
use pef_rows::{Token, print_tokens};

/// What is shown of an inspection.
#[derive(Clone, Copy)]
pub(crate) struct Shown<'f, 'a> {
    pub base: u64,
    pub bytes: &'a [u8],
    /// How many relocation programs are printed.
    pub programs: u32,
    pub findings: &'f [Finding],
    pub verdict: Verdict,
}

/// Prints an object of JSON with at most so many rows of each kind.
#[tactic(auto, unfolding(crate::specs::Inspection::object_within))]
pub(crate) fn print_object<W: Sink>(
    out: &mut W,
    page: &mut Page,
    shown: Shown<'_, '_>,
    most: Option<u32>,
) -> Result<(), StreamFault>
    ensures { Sends result (W.stream out.old) (W.stream out.new) page.old.items page.new.items (object_within most shown.entry.verdict (shown_seen shown.entry)) }
{
    print_rows(out, page, shown, most)?;
    print_list(out, page, b"},\"errors\":[", shown, true)?;
    print_list(out, page, b"],\"notes\":[", shown, false)?;
    shown.verdict.print_member(out, page)
}

/// Prints the beginning of the object, up to its errors.
#[tactic(auto, unfolding(crate::specs::Inspection::rows_json))]
fn print_rows<W: Sink>(
    out: &mut W,
    page: &mut Page,
    shown: Shown<'_, '_>,
    most: Option<u32>,
) -> Result<(), StreamFault>
    ensures { Sends result (W.stream out.old) (W.stream out.new) page.old.items page.new.items (rows_json most (shown_seen shown.entry)) }
{
    let mut reading = Reading::new(shown.base, shown.bytes, shown.programs);
    print_tokens(
        out,
        page,
        &[Token::Text(b"{\"offset\":"), Token::Number(shown.base)],
    )?;
    print_members(out, page, &mut reading, most, &row_members())
}

/// Prints the list of errors, or of notes, after its key.
#[tactic(auto, unfolding(crate::specs::Inspection::list_json))]
fn print_list<W: Sink>(
    out: &mut W,
    page: &mut Page,
    key: &[u8],
    shown: Shown<'_, '_>,
    errors: bool,
) -> Result<(), StreamFault>
    ensures { Sends result (W.stream out.old) (W.stream out.new) page.old.items page.new.items (list_json key.now (shown_seen shown.entry) errors) }
{
    send(out, page, key)?;
    print_chosen(
        out,
        page,
        Chosen {
            base: shown.base,
            findings: shown.findings,
            errors,
        },
    )
}

/// Rows of one kind of the container that begins some bytes.
#[derive(Clone, Copy, Debug)]
pub struct RowRange<'a> {
    /// Where the bytes begin in their file.
    pub base: u64,
    pub bytes: &'a [u8],
    pub part: Part,
    pub from: u32,
    /// How many rows are wanted. There may be fewer.
    pub count: u32,
}

/// Prints the objects of rows of a kind as they are in the list of them, so that a comma is before each but row 0.
#[tactic(auto, unfolding(crate::specs::Inspection::rows_text))]
pub fn print_row_range<W: Sink>(
    out: &mut W,
    page: &mut Page,
    rows: RowRange<'_>,
) -> Result<(), StreamFault>
    ensures { Sends result (W.stream out.old) (W.stream out.new) page.old.items page.new.items (rows_text rows.entry.base rows.entry.bytes.now rows.entry.part rows.entry.from rows.entry.count) }
{
    let mut reading = Reading::new(rows.base, rows.bytes, programs_shown(rows.bytes));
    let count = reading
        .count(rows.part)
        .saturating_sub(rows.from)
        .min(rows.count);
    let elements = Elements {
        part: rows.part,
        from: rows.from,
        end: rows.from + count,
    };
    print_elements(out, page, &mut reading, elements)
}
