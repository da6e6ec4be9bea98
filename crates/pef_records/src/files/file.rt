//! What a file of the classic Mac OS is, and its parts, as C sees them.
ghost use Rattle.std.specs.Prelude.{◌≡◌, [], Some, option_map};
ghost use Rattle.pef_words.specs.Refusals.{result_map};
ghost use Rattle.mac_forks.specs.Views.{mac_file_seen, part_seen};
ghost use Rattle.pef_records.specs.Files.Parts.{cut_row, finder_row, finder_without, forks_row, forks_shown, header_error, header_error_offset, kind_code, part_row, part_shown};

use crate::answers::NOT_THERE;
use crate::files::errors::{fork_number, offset_or_none};
use crate::files::structs::{PefFinder, PefForks, PefPart};
use crate::place::NO_OFFSET;
use cfm_members::{FileKind, Forks};
use mac_forks::{FinderInfo, ForkBytes, ForkFault, MacFile};

/// Returns a file as C sees it.
pub fn forks_given<'a>(bytes: &'a [u8], file: &MacFile<'a>) -> PefForks<'a>
    ensures { forks_shown result ≡ forks_row bytes.entry.now (mac_file_seen file.now) }
{
    let forks = Forks::of(bytes, file);
    let cuts = file.cuts();
    PefForks {
        data_fork: with_cut(part_given(forks.data_fork), cuts.data_fork),
        resource_fork: with_cut(part_given(forks.resource_fork), cuts.resource_fork),
        name: part_given(file.name()),
        comment: with_cut(part_given(file.comment()), cuts.comment),
        finder: finder_given(file.finder()),
        error_offset: header_error_offset(file.fault()),
        error: header_error(file.fault()),
        kind: kind_code(FileKind::of(bytes)),
    }
}

/// Returns a part as C sees it.
fn part_given<'a>(part: Option<Result<ForkBytes<'a>, ForkFault>>) -> PefPart<'a>
    ensures { part_shown result ≡ part_row (option_map (result_map part_seen) part.entry) }
{
    match part {
        Some(part) => part_or_error(part),
        None => no_part(NOT_THERE, NO_OFFSET),
    }
}

/// Returns a part with the error that it passes the end, if it does.
fn with_cut<'a>(part: PefPart<'a>, cut: Option<ForkFault>) -> PefPart<'a>
    ensures { part_shown result ≡ cut_row cut (part_shown part.entry) }
{
    match cut {
        Some(fault) => PefPart {
            error_offset: offset_or_none(fault.offset()),
            error: fork_number(fault),
            ..part
        },
        None => part,
    }
}

/// Returns a part that the file has, or its error.
fn part_or_error<'a>(part: Result<ForkBytes<'a>, ForkFault>) -> PefPart<'a>
    ensures { part_shown result ≡ part_row (Some (result_map part_seen part.entry)) }
{
    match part {
        Ok(part) => PefPart {
            bytes: part.bytes,
            offset: part.offset,
            error_offset: NO_OFFSET,
            error: 0,
        },
        Err(fault) => no_part(fork_number(fault), offset_or_none(fault.offset())),
    }
}

/// Returns a part that isn't there, with its error.
fn no_part<'a>(error: u32, error_offset: usize) -> PefPart<'a>
    ensures { part_shown result ≡ record { bytes = []; offset = 0; error = error; error_offset = error_offset } }
{
    PefPart {
        bytes: &[],
        offset: 0,
        error_offset,
        error,
    }
}

/// Returns what the Finder knows as C sees it.
fn finder_given(finder: Option<Result<FinderInfo, ForkFault>>) -> PefFinder
    ensures { result ≡ finder_row finder }
{
    match finder {
        Some(Ok(finder)) => PefFinder {
            error_offset: NO_OFFSET,
            error: 0,
            file_type: finder.file_type,
            creator: finder.creator,
            flags: finder.flags,
            vertical: finder.vertical,
            horizontal: finder.horizontal,
            window: finder.window,
        },
        Some(Err(fault)) => no_finder(fork_number(fault), offset_or_none(fault.offset())),
        None => no_finder(NOT_THERE, NO_OFFSET),
    }
}

/// Returns what the Finder knows if that isn't there, with its error.
fn no_finder(error: u32, error_offset: usize) -> PefFinder
    ensures { result ≡ finder_without error error_offset }
{
    PefFinder {
        error_offset,
        error,
        file_type: 0,
        creator: 0,
        flags: 0,
        vertical: 0,
        horizontal: 0,
        window: 0,
    }
}

/// Returns the number of the error of a header, or 0.
fn header_error(fault: Option<ForkFault>) -> u32
    ensures { result ≡ header_error fault }
{
    match fault {
        Some(fault) => fork_number(fault),
        None => 0,
    }
}

/// Returns the offset of the error of a header.
fn header_error_offset(fault: Option<ForkFault>) -> usize
    ensures { result ≡ header_error_offset fault }
{
    match fault {
        Some(fault) => offset_or_none(fault.offset()),
        None => NO_OFFSET,
    }
}

/// Returns the code of what a file is.
pub fn kind_code(kind: FileKind) -> u32
    ensures { result ≡ kind_code kind }
{
    match kind {
        FileKind::Other => 0,
        FileKind::Container => 1,
        FileKind::MacBinary => 2,
        FileKind::AppleSingle => 3,
        FileKind::AppleDouble => 4,
        FileKind::DamagedApple => 5,
        FileKind::ResourceFork => 6,
    }
}
