//! The report on a file in parts, for programs that show it part by part.
ghost use Rattle.std.specs.Prelude.{◌≡◌, IfOk, List, OnOk, ℕ, option_map};
ghost use Rattle.pef_ports.specs.Sent.{Prints};
ghost use Rattle.mac_rows.specs.Views.{data_file_seen};
ghost use Rattle.mac_report.specs.Parts.{IsContainerText, IsExcerpt, IsKnown, IsPartText};
ghost use Rattle.mac_report.specs.Reports.{found_of, json_end};
ghost use Rattle.mac_report.specs.Views.{row_seen};

use crate::file::{FileReport, FoundIn, print_json_end};
use crate::row::{Row, read_row};
use crate::turn::Turn;
use cfm_members::Contents;
use mac_rows::{DataFile, OutputFormat};
use pef_format::Part;
use pef_ports::{Page, Sink, StreamFault, Text, flush};
use pef_report::{RowRange, print_row_range};
use std::alloc::{AllocError, Allocator};

/// A part of a file's report in JSON. The head, the containers one after the other and the end are the report. What a container leaves
/// to the next one is [`Turn::after`] of the bytes that it can have.
#[derive(Clone, Copy, Debug)]
pub enum ReportPart<'a> {
    /// What comes before the containers.
    Head {
        path: &'a [u8],
        bytes: &'a [u8],
        data_file: Option<DataFile<'a>>,
    },
    /// The object of the container at a place, after a comma if it isn't the first. It has no bytes if the containers before it
    /// and its own headers are more than the budget of the file.
    Container {
        bytes: &'a [u8],
        place: usize,
        turn: Turn,
    },
    /// The beginning of a container's object, as an object: at most so many rows of each kind, no instructions, and of the errors
    /// and notes in their order the first so many.
    Excerpt {
        bytes: &'a [u8],
        place: usize,
        turn: Turn,
        most: u32,
    },
    /// The objects of rows of a kind as they are in the list of them, so that a comma is before each but row 0.
    Rows {
        bytes: &'a [u8],
        place: usize,
        part: Part,
        from: u32,
        /// How many rows are wanted. There may be fewer.
        count: u32,
    },
    /// What comes after the containers.
    End {
        bytes: &'a [u8],
        data_file: Option<DataFile<'a>>,
        /// What the last container leaves.
        turn: Turn,
    },
}

impl<'a> ReportPart<'a> {
    /// Returns the bytes of the part.
    ///
    /// # Errors
    ///
    /// There is no memory for these bytes, to look into a container, or, at the end, for the errors of the file.
    pub fn to_bytes<A: Allocator + Copy>(self, alloc: A) -> Result<Vec<u8, A>, StreamFault>
        ensures { IfOk result (λ text. IsPartText self.entry text.items) }
    {
        let mut text = Text::new(Vec::new(alloc));
        let mut page = Page::new();
        self.print(alloc, &mut text, &mut page)?;
        flush(&mut text, &mut page)?;
        Ok(text.into_bytes())
    }

    /// Prints the part.
    fn print<A: Allocator + Copy, W: Sink>(
        self,
        alloc: A,
        out: &mut W,
        page: &mut Page,
    ) -> Result<(), StreamFault>
        ensures { OnOk result ((text : List ℕ) × IsPartText self.entry text × Prints (W.stream out.old) (W.stream out.new) page.old.items page.new.items text) }
    {
        match self {
            ReportPart::Head {
                path,
                bytes,
                data_file,
            } => {
                let report = FileReport {
                    form: OutputFormat::Json,
                    path,
                    bytes,
                    data_file,
                };
                report.print_json_head(out, page)
            }
            ReportPart::Container { bytes, place, turn } => {
                print_container(alloc, out, page, ContainerAt { bytes, place, turn })
            }
            ReportPart::Excerpt {
                bytes,
                place,
                turn,
                most,
            } => print_excerpt(alloc, out, page, ContainerAt { bytes, place, turn }, most),
            ReportPart::Rows {
                bytes,
                place,
                part,
                from,
                count,
            } => {
                let rows = RowRange {
                    base: place as u64,
                    bytes: Contents::of(bytes).rest_from(place),
                    part,
                    from,
                    count,
                };
                print_row_range(out, page, rows)
            }
            ReportPart::End {
                bytes,
                data_file,
                turn,
            } => {
                let end = Ending {
                    bytes,
                    data_file,
                    skipped: turn.skipped,
                };
                print_end(alloc, out, page, end)
            }
        }
    }
}

/// A container at a place of a file, and what the ones before leave.
#[derive(Clone, Copy)]
struct ContainerAt<'a> {
    bytes: &'a [u8],
    place: usize,
    turn: Turn,
}

/// Prints a container.
fn print_container<A: Allocator + Copy, W: Sink>(
    alloc: A,
    out: &mut W,
    page: &mut Page,
    container: ContainerAt<'_>,
) -> Result<(), StreamFault>
    ensures { OnOk result ((text : List ℕ) × IsContainerText container.entry.bytes.now container.entry.turn container.entry.place text × Prints (W.stream out.old) (W.stream out.new) page.old.items page.new.items text) }
{
    let row = known_row(alloc, container)?;
    row.print(
        out,
        page,
        OutputFormat::Json,
        container.turn.containers == 0,
    )
}

/// Prints the beginning of a container.
fn print_excerpt<A: Allocator + Copy, W: Sink>(
    alloc: A,
    out: &mut W,
    page: &mut Page,
    container: ContainerAt<'_>,
    most: u32,
) -> Result<(), StreamFault>
    ensures { OnOk result ((text : List ℕ) × IsExcerpt container.entry.bytes.now container.entry.turn container.entry.place most text × Prints (W.stream out.old) (W.stream out.new) page.old.items page.new.items text) }
{
    let row = known_row(alloc, container)?;
    row.print_excerpt(out, page, most)
}

/// Inspects a container, unless an allocation fails.
fn known_row<'a, A: Allocator + Copy>(
    alloc: A,
    container: ContainerAt<'a>,
) -> Result<Row<'a, A>, StreamFault>
    ensures { IfOk result (λ row. IsKnown container.entry.bytes.now container.entry.turn container.entry.place (row_seen row)) }
{
    let rest = container.turn.rest(container.bytes, container.place);
    let row = read_row(alloc, rest, container.place, container.turn);
    if row.is_lacking() {
        return Err(StreamFault);
    }
    Ok(row)
}

/// The end of a report.
#[derive(Clone, Copy)]
struct Ending<'a> {
    bytes: &'a [u8],
    data_file: Option<DataFile<'a>>,
    skipped: u64,
}

/// Prints what comes after the containers.
fn print_end<A: Allocator + Copy, W: Sink>(
    alloc: A,
    out: &mut W,
    page: &mut Page,
    end: Ending<'_>,
) -> Result<(), StreamFault>
    ensures { OnOk result (Prints (W.stream out.old) (W.stream out.new) page.old.items page.new.items (json_end (found_of (option_map data_file_seen end.entry.data_file) end.entry.bytes.now) end.entry.skipped)) }
{
    match FoundIn::read(alloc, end.bytes, end.data_file) {
        Ok(found) => print_json_end(out, page, found.shown(), end.skipped),
        Err(AllocError) => Err(StreamFault),
    }
}
