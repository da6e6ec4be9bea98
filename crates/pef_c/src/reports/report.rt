//! What `pef inspect --json` prints of a file, or of bytes as a container, read part by part.
ghost use Rattle.std.specs.Prelude.{◌≡◌, ◌==◌, IfOk, None, false};
ghost use Rattle.pef_report.specs.Inspection.{inspection_object};
ghost use Rattle.pef_c.specs.Reports.List.{IsReport, NextAnswers, unread};
ghost use Rattle.pef_report.specs.Views.{inspected};
ghost use Rattle.pef_c.specs.Reports.Report.{KeepAnswers, OpenContainerAnswers, OpenReportAnswers};

use crate::reports::list::read_next;
use crate::reports::text_handle::{PefText, put, take};
use crate::reports::unread::{MadeBytes, Unread};
use mac_report::FileReport;
use mac_rows::OutputFormat;
use pef_ports::{Page, StreamFault, Text, flush};
use pef_records::{OUT_OF_MEMORY, given};
use pef_report::Inspection;
use std::alloc::Global;

/// Makes what `pef inspect --json` prints of a file, with the end of its line, to be read part by part. The path is what the
/// object calls the file. A report that was open is freed.
///
/// Returns 0; or 99, and then the report isn't open. If there is too little memory to look into a container, its object has the
/// error 99.
#[unsafe(no_mangle)]
pub extern "C" fn pef_report_open<'a>(
    alloc: Global,
    report: &mut PefText,
    path: &'a [u8],
    file: &'a [u8],
) -> u32
    ensures text { OpenReportAnswers path.entry.now file.entry.now (unread report.new) result }
    ensures report { IsReport report.new }
{
    let _closed = take(alloc, report);
    let made = FileReport {
        form: OutputFormat::Json,
        path: given(path),
        bytes: given(file),
        data_file: None,
    };
    match made.to_bytes(alloc) {
        Ok(text) => keep(alloc, report, text),
        Err(_) => OUT_OF_MEMORY,
    }
}

/// Makes the object of a container that begins some bytes, whatever they are, within the limits for one container.
///
/// Returns 0; or 99, and then the report isn't open.
#[unsafe(no_mangle)]
pub extern "C" fn pef_report_open_container(
    alloc: Global,
    report: &mut PefText,
    bytes: &[u8],
) -> u32
    ensures text { OpenContainerAnswers bytes.now (unread report.new) result }
    ensures report { IsReport report.new }
{
    let _closed = take(alloc, report);
    let Ok(inspection) = Inspection::read(alloc, 0, given(bytes)) else {
        return OUT_OF_MEMORY;
    };
    match object_of(alloc, &inspection) {
        Ok(text) => keep(alloc, report, text),
        Err(_) => OUT_OF_MEMORY,
    }
}

/// Copies the next bytes of a report to the front of `buffer`, as many as it has.
///
/// Returns 0, and writes the number of bytes to `written`: 0 after the last one; or 202 if the report isn't open. It allocates
/// nothing: of what the calls opened that open a report it never returns 99.
#[unsafe(no_mangle)]
pub extern "C" fn pef_report_next(
    alloc: Global,
    report: &mut PefText,
    buffer: &mut [u8],
    written: &mut usize,
) -> u32
    ensures read { NextAnswers (unread report.old) (unread report.new) buffer.old buffer.new written.old written.new result }
    ensures report { IsReport report.old → IsReport report.new }
    ensures made { IsReport report.old → (result == 99) ≡ false }
{
    read_next(alloc, report, buffer, written)
}

/// Frees a report. Does nothing if it isn't open.
#[unsafe(no_mangle)]
pub extern "C" fn pef_report_free(alloc: Global, report: &mut PefText)
    ensures text { unread report.new ≡ None }
    ensures report { IsReport report.new }
{
    let _closed = take(alloc, report);
}

/// Returns the object of a container.
fn object_of(
    alloc: Global,
    inspection: &Inspection<'_, Global>,
) -> Result<Vec<u8, Global>, StreamFault>
    ensures { IfOk result (λ text. text.items ≡ inspection_object (inspected inspection.now)) }
{
    let mut text = Text::new(Vec::new(alloc));
    let mut page = Page::new();
    inspection.print_object(&mut text, &mut page)?;
    flush(&mut text, &mut page)?;
    Ok(text.into_bytes())
}

/// Keeps a text, to be read. Returns 0; or 99, and then it isn't open.
pub(crate) fn keep(alloc: Global, report: &mut PefText, text: Vec<u8, Global>) -> u32
    requires { unread report.old ≡ None }
    ensures text { KeepAnswers text.items (unread report.new) result }
    ensures report { IsReport report.new }
{
    match Box::new(alloc, Unread::Bytes(MadeBytes::new(text))) {
        Ok(boxed) => {
            put(report, boxed);
            0
        }
        Err(_) => OUT_OF_MEMORY,
    }
}
