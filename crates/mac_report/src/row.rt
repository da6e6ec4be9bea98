//! What is known of one of the containers in a file.
ghost use Rattle.std.specs.Prelude.{◌≡◌, ◌++◌};
ghost use Rattle.pef_ports.specs.Sent.{Sends};
ghost use Rattle.pef_report.specs.Views.{inspected};
ghost use Rattle.pef_rows.specs.Objects.{separator};
ghost use Rattle.mac_report.specs.Containers.{IsInspected, IsRowOf, errors_in, inspected_object, inspected_text, lacking_line, lacking_object, lacking_text, notes_in, row_text};
ghost use Rattle.mac_report.specs.Parts.{excerpt_text, is_lacking};
ghost use Rattle.mac_report.specs.Views.{row_seen};

use crate::turn::Turn;
use mac_rows::OutputFormat;
use pef_inspect::Limits;
use pef_ports::{Page, Sink, StreamFault};
use pef_report::Inspection;
use pef_rows::{Token, print_separator, print_tokens};
use std::alloc::{AllocError, Allocator};

/// The rest of the object of a container whose inspection lacks memory.
const LACKING_REST: &[u8] =
    b",\"header\":null,\"sections\":[],\"loader\":null,\"libraries\":[],\"imports\":[],\"relocations\":[],\"exports\":[],\"entries\":{\"main\":null,\"init\":null,\"term\":null},\"errors\":[{\"number\":99,\"name\":\"OutOfMemory\",\"part\":null,\"row\":null,\"field\":null,\"offset\":null}],\"notes\":[],\"verdict\":null}";

/// What is known of a container.
#[derive(Drop)]
pub(crate) enum Row<'a, A: Allocator> {
    Inspected(Inspection<'a, A>),
    /// An allocation failed. The container begins at this offset of the file.
    Lacking(u64),
    /// The containers before it and its own headers are more than the budget of the file.
    Skipped,
}

/// Inspects the container that begins some bytes of a file, which are at a place, within what is left of the file's budget and its
/// limits.
pub(crate) fn read_row<'a, A: Allocator + Copy>(
    alloc: A,
    rest: &'a [u8],
    place: usize,
    turn: Turn,
) -> Row<'a, A>
    ensures { IsRowOf rest.entry.now turn place (row_seen result) }
{
    if turn.is_exceeded_by(rest) {
        Row::Skipped
    } else {
        inspect(alloc, rest, place as u64, turn.limits)
    }
}

/// Inspects the container that begins some bytes, which are at an offset of the file.
fn inspect<'a, A: Allocator + Copy>(alloc: A, rest: &'a [u8], at: u64, limits: Limits) -> Row<'a, A>
    ensures { IsInspected limits rest.entry.now at (row_seen result) }
{
    match Inspection::read_within(alloc, at, rest, limits) {
        Ok(inspection) => Row::Inspected(inspection),
        Err(AllocError) => Row::Lacking(at),
    }
}

impl<'a, A: Allocator + Copy> Row<'a, A> {
    /// Prints the container. In JSON a comma comes before it, unless it is the first one.
    pub(crate) fn print<W: Sink>(
        &self,
        out: &mut W,
        page: &mut Page,
        form: OutputFormat,
        is_first: bool,
    ) -> Result<(), StreamFault>
        ensures { Sends result (W.stream out.old) (W.stream out.new) page.old.items page.new.items (row_text form is_first (row_seen self.now)) }
    {
        match self {
            Row::Inspected(inspection) => print_inspected(out, page, form, is_first, inspection),
            Row::Lacking(at) => print_lacking(out, page, form, is_first, *at),
            Row::Skipped => print_tokens(out, page, &[]),
        }
    }

    /// Prints the beginning of the container's object.
    pub(crate) fn print_excerpt<W: Sink>(
        &self,
        out: &mut W,
        page: &mut Page,
        most: u32,
    ) -> Result<(), StreamFault>
        ensures { Sends result (W.stream out.old) (W.stream out.new) page.old.items page.new.items (excerpt_text most (row_seen self.now)) }
    {
        match self {
            Row::Inspected(inspection) => inspection.print_excerpt(out, page, most),
            Row::Lacking(_) | Row::Skipped => print_tokens(out, page, &[]),
        }
    }

    /// Returns whether an allocation failed.
    pub(crate) fn is_lacking(&self) -> bool
        ensures { result ≡ is_lacking (row_seen self.now) }
    {
        match self {
            Row::Lacking(_) => true,
            Row::Inspected(_) | Row::Skipped => false,
        }
    }

    /// Returns the number of the container's errors.
    pub(crate) fn error_count(&self) -> u64
        ensures { result ≡ errors_in (row_seen self.now) }
    {
        match self {
            Row::Inspected(inspection) => inspection.error_count(),
            Row::Lacking(_) => 1,
            Row::Skipped => 0,
        }
    }

    /// Returns the number of the notes on the container.
    pub(crate) fn note_count(&self) -> u64
        ensures { result ≡ notes_in (row_seen self.now) }
    {
        match self {
            Row::Inspected(inspection) => inspection.note_count(),
            Row::Lacking(_) | Row::Skipped => 0,
        }
    }
}

/// Prints a container that was inspected.
fn print_inspected<A: Allocator + Copy, W: Sink>(
    out: &mut W,
    page: &mut Page,
    form: OutputFormat,
    is_first: bool,
    inspection: &Inspection<'_, A>,
) -> Result<(), StreamFault>
    ensures { Sends result (W.stream out.old) (W.stream out.new) page.old.items page.new.items (inspected_text form is_first (inspected inspection.now)) }
{
    match form {
        OutputFormat::Text => inspection.print(out, page),
        OutputFormat::Json => print_inspected_object(out, page, is_first, inspection),
    }
}

/// Prints the object of a container that was inspected.
fn print_inspected_object<A: Allocator + Copy, W: Sink>(
    out: &mut W,
    page: &mut Page,
    is_first: bool,
    inspection: &Inspection<'_, A>,
) -> Result<(), StreamFault>
    ensures { Sends result (W.stream out.old) (W.stream out.new) page.old.items page.new.items (inspected_object is_first (inspected inspection.now)) }
{
    print_separator(out, page, is_first)?;
    inspection.print_object(out, page)
}

/// Prints the error of a container whose inspection lacks memory.
fn print_lacking<W: Sink>(
    out: &mut W,
    page: &mut Page,
    form: OutputFormat,
    is_first: bool,
    at: u64,
) -> Result<(), StreamFault>
    ensures { Sends result (W.stream out.old) (W.stream out.new) page.old.items page.new.items (lacking_text form is_first at) }
{
    match form {
        OutputFormat::Text => print_lacking_line(out, page, at),
        OutputFormat::Json => print_lacking_object(out, page, is_first, at),
    }
}

/// Prints the error of a container whose inspection lacks memory, as a line.
#[tactic(auto, unfolding(crate::specs::Containers::lacking_line))]
fn print_lacking_line<W: Sink>(out: &mut W, page: &mut Page, at: u64) -> Result<(), StreamFault>
    ensures { Sends result (W.stream out.old) (W.stream out.new) page.old.items page.new.items (lacking_line at) }
{
    print_tokens(
        out,
        page,
        &[
            Token::Text(b"error 99 OutOfMemory container at "),
            Token::At(at),
            Token::Text(b"\n"),
        ],
    )
}

/// Prints the object of a container whose only row is the error that its inspection lacks memory.
fn print_lacking_object<W: Sink>(
    out: &mut W,
    page: &mut Page,
    is_first: bool,
    at: u64,
) -> Result<(), StreamFault>
    ensures { Sends result (W.stream out.old) (W.stream out.new) page.old.items page.new.items (separator is_first ++ lacking_object at) }
{
    print_separator(out, page, is_first)?;
    print_lacking_fields(out, page, at)
}

/// Prints the fields of the object of a container whose inspection lacks memory.
#[tactic(auto, unfolding(crate::specs::Containers::lacking_object))]
fn print_lacking_fields<W: Sink>(out: &mut W, page: &mut Page, at: u64) -> Result<(), StreamFault>
    ensures { Sends result (W.stream out.old) (W.stream out.new) page.old.items page.new.items (lacking_object at) }
{
    print_tokens(
        out,
        page,
        &[
            Token::Text(b"{\"offset\":"),
            Token::Number(at),
            Token::Text(LACKING_REST),
        ],
    )
}
