//! Listings: the lines of a container, at once or part by part.
ghost use Rattle.std.specs.Prelude.{◌≡◌, ◌==◌, IfOk, None, false};
ghost use Rattle.pef_listing.specs.Listing.{listing_text};
ghost use Rattle.pef_listing.specs.Views.{parts};
ghost use Rattle.pef_c.specs.Reports.List.{IsReport, ListAnswers, NextAnswers, OpenListAnswers, unread};

use crate::reports::text_handle::{PefText, put, take};
use crate::reports::unread::Unread;
use pef_listing::{Listing, ListingReader};
use pef_ports::{Page, StreamFault, Text, flush};
use pef_records::{NOT_OPEN, OUT_OF_MEMORY, ROOM_TOO_SMALL, copy_out, given, list_number};
use std::alloc::Global;

/// Lists a container, and copies the lines to the front of `buffer`.
///
/// Returns 0; or 200 if the buffer is too small, and writes the length of the lines to `written`; or the number of
/// the first refusal; or 99 if there is none and an allocation fails.
#[unsafe(no_mangle)]
pub extern "C" fn pef_list(
    alloc: Global,
    container: &[u8],
    buffer: &mut [u8],
    written: &mut usize,
) -> u32
    ensures { ListAnswers container.now buffer.old buffer.new written.old written.new result }
{
    let listing = match Listing::read(container) {
        Ok(listing) => listing,
        Err(fault) => return list_number(fault),
    };
    let Ok(text) = listing_text(alloc, &listing) else {
        return OUT_OF_MEMORY;
    };
    match copy_out(text.as_slice(), buffer, written) {
        Some(()) => 0,
        None => ROOM_TOO_SMALL,
    }
}

/// Returns the lines of a listing, or a failure if an allocation fails.
fn listing_text(alloc: Global, listing: &Listing<'_>) -> Result<Vec<u8>, StreamFault>
    ensures { IfOk result (λ text. text.items ≡ listing_text (parts listing.now).container (parts listing.now).loader) }
{
    let mut text = Text::new(Vec::new(alloc));
    let mut page = Page::new();
    listing.print(&mut text, &mut page)?;
    flush(&mut text, &mut page)?;
    Ok(text.into_bytes())
}

/// Opens a container's listing, to be read part by part. A listing that was open is freed.
///
/// Returns 0; or the number of the first refusal, or 99 if there is none and an allocation fails, and then the listing isn't open.
#[unsafe(no_mangle)]
pub extern "C" fn pef_list_open(
    alloc: Global,
    listing: &mut PefText,
    container: &'static [u8],
) -> u32
    ensures { OpenListAnswers container.entry.now (unread listing.new) result }
{
    let _closed = take(alloc, listing);
    let lines = match Listing::read(given(container)) {
        Ok(read) => read.lines(),
        Err(fault) => return list_number(fault),
    };
    match Box::new(alloc, Unread::Lines(ListingReader::new(alloc, lines))) {
        Ok(boxed) => {
            put(listing, boxed);
            0
        }
        Err(_) => OUT_OF_MEMORY,
    }
}

/// Copies the next bytes of the lines to the front of `buffer`, as many as it has.
///
/// Returns 0, and writes the number of bytes to `written`: 0 after the last line; or 202 if the listing isn't open; or
/// 99, and then nothing is read.
#[unsafe(no_mangle)]
pub extern "C" fn pef_list_next(
    alloc: Global,
    listing: &mut PefText,
    buffer: &mut [u8],
    written: &mut usize,
) -> u32
    ensures { NextAnswers (unread listing.old) (unread listing.new) buffer.old buffer.new written.old written.new result }
{
    read_next(alloc, listing, buffer, written)
}

/// Copies the next bytes of a text to the front of `buffer`, as many as it has.
///
/// Returns 0, and writes the number of bytes to `written`; or 202 if the text isn't open; or 99, and then nothing is read. Of a text
/// that was made already it never returns 99.
pub(crate) fn read_next(
    alloc: Global,
    text: &mut PefText,
    buffer: &mut [u8],
    written: &mut usize,
) -> u32
    ensures read { NextAnswers (unread text.old) (unread text.new) buffer.old buffer.new written.old written.new result }
    ensures report { IsReport text.old → IsReport text.new }
    ensures made { IsReport text.old → (result == 99) ≡ false }
{
    let Some(mut left) = take(alloc, text) else {
        return NOT_OPEN;
    };
    let answer = match left.read(alloc, buffer) {
        Ok(count) => {
            *written = count;
            0
        }
        Err(_) => OUT_OF_MEMORY,
    };
    put(text, left);
    answer
}

/// Frees a listing. Does nothing if it isn't open.
#[unsafe(no_mangle)]
pub extern "C" fn pef_list_free(alloc: Global, listing: &mut PefText)
    ensures { unread listing.new ≡ None }
{
    let _closed = take(alloc, listing);
}
