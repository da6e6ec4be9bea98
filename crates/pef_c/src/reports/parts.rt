//! What `pef inspect --json` prints of a file, in parts: the head, the containers one after the other, and the end. Also the beginning
//! of a container's object, and more rows of it. Each part is read like a report.
//!
//! Each call returns 0; or 99 if an allocation fails, also one for looking into a container, and then the report isn't open. A report
//! that was open is freed first.
ghost use Rattle.std.specs.Prelude.{◌≡◌, None};
ghost use Rattle.mac_report.specs.Parts.{IsContainerText, IsExcerpt, IsPartText};
ghost use Rattle.mac_report.specs.Reports.{found_of, json_end, json_head};
ghost use Rattle.pef_c.specs.Reports.Found.{turn_of};
ghost use Rattle.pef_c.specs.Reports.List.{IsReport, unread};
ghost use Rattle.pef_c.specs.Reports.Parts.{OpenPartAnswers, OpenRowsAnswers, row_part};

use crate::reports::found::turn_of;
use crate::reports::report::{keep, pef_report_free};
use crate::reports::text_handle::PefText;
use mac_report::ReportPart;
use pef_format::Part;
use pef_records::{NOT_THERE, OUT_OF_MEMORY, PefFoundContainer, PefRowRange, given};
use std::alloc::Global;

/// Makes what comes before the containers. The path is what the object calls the file.
#[unsafe(no_mangle)]
pub extern "C" fn pef_report_open_head<'a>(
    alloc: Global,
    report: &mut PefText,
    path: &'a [u8],
    file: &'a [u8],
) -> u32
    ensures text { OpenPartAnswers (λ text. text ≡ json_head path.entry.now file.entry.now None) (unread report.new) result }
    ensures report { IsReport report.new }
{
    let part = ReportPart::Head {
        path: given(path),
        bytes: given(file),
        data_file: None,
    };
    open_part(alloc, report, part)
}

/// Makes the object of a container, after a comma if it isn't the first. It has no bytes if the containers before it and its own
/// headers are more than the budget of the file.
#[unsafe(no_mangle)]
pub extern "C" fn pef_report_open_found<'a>(
    alloc: Global,
    report: &mut PefText,
    file: &'a [u8],
    found: &PefFoundContainer,
) -> u32
    ensures text { OpenPartAnswers (IsContainerText file.entry.now (turn_of found.now) found.now.offset) (unread report.new) result }
    ensures report { IsReport report.new }
{
    let part = ReportPart::Container {
        bytes: given(file),
        place: found.offset,
        turn: turn_of(*found),
    };
    open_part(alloc, report, part)
}

/// Makes the beginning of a container's object, as an object: at most `most` rows of each kind, no instructions, and of the
/// errors and notes in their order the first `most`.
#[unsafe(no_mangle)]
pub extern "C" fn pef_report_open_excerpt<'a>(
    alloc: Global,
    report: &mut PefText,
    file: &'a [u8],
    found: &PefFoundContainer,
    most: u32,
) -> u32
    ensures text { OpenPartAnswers (IsExcerpt file.entry.now (turn_of found.now) found.now.offset most) (unread report.new) result }
    ensures report { IsReport report.new }
{
    let part = ReportPart::Excerpt {
        bytes: given(file),
        place: found.offset,
        turn: turn_of(*found),
        most,
    };
    open_part(alloc, report, part)
}

/// Makes what comes after the containers, by what is left after the last one.
#[unsafe(no_mangle)]
pub extern "C" fn pef_report_open_end<'a>(
    alloc: Global,
    report: &mut PefText,
    file: &'a [u8],
    end: &PefFoundContainer,
) -> u32
    ensures text { OpenPartAnswers (λ text. text ≡ json_end (found_of None file.entry.now) end.now.skipped) (unread report.new) result }
    ensures report { IsReport report.new }
{
    let part = ReportPart::End {
        bytes: given(file),
        data_file: None,
        turn: turn_of(*end),
    };
    open_part(alloc, report, part)
}

/// Makes the objects of rows as they are in the list of them, so that a comma is before each but row 0. Returns 201 if there is no
/// such kind of rows, and then the report isn't open.
#[unsafe(no_mangle)]
pub extern "C" fn pef_report_open_rows<'a>(
    alloc: Global,
    report: &mut PefText,
    file: &'a [u8],
    rows: &PefRowRange,
) -> u32
    ensures text { OpenRowsAnswers file.entry.now rows.now (row_part rows.now.part) (unread report.new) result }
    ensures report { IsReport report.new }
{
    let Some(kind) = row_part(rows.part) else {
        pef_report_free(alloc, report);
        return NOT_THERE;
    };
    let part = ReportPart::Rows {
        bytes: given(file),
        place: rows.offset,
        part: kind,
        from: rows.from,
        count: rows.count,
    };
    open_part(alloc, report, part)
}

/// Returns the kind of rows by the number of a part.
fn row_part(number: u32) -> Option<Part>
    ensures { result ≡ row_part number }
{
    match number {
        2 => Some(Part::Section),
        4 => Some(Part::Library),
        5 => Some(Part::Import),
        9 => Some(Part::Relocation),
        10 => Some(Part::Export),
        _ => None,
    }
}

/// Makes a part of a report, to be read part by part.
fn open_part(alloc: Global, report: &mut PefText, part: ReportPart<'_>) -> u32
    ensures text { OpenPartAnswers (IsPartText part.entry) (unread report.new) result }
    ensures report { IsReport report.new }
{
    pef_report_free(alloc, report);
    match part.to_bytes(alloc) {
        Ok(text) => keep(alloc, report, text),
        Err(_) => OUT_OF_MEMORY,
    }
}
