//! What a file is wrapped in, and its forks.
ghost use Rattle.std.specs.Prelude.{◌≡◌};
ghost use Rattle.std.specs.Prelude.{option_map};
ghost use Rattle.pef_words.specs.Refusals.{first_among, result_map};
ghost use Rattle.pef_ports.specs.Sent.{Sends};
ghost use Rattle.mac_forks.specs.Views.{apple_seen, mac_file_seen, part_seen};
ghost use Rattle.mac_resources.specs.Views.{fork_seen};
ghost use Rattle.cfm_members.specs.Contents.{readable};
ghost use Rattle.mac_rows.specs.Forks.{fork_lines_of, fork_objects_of};
ghost use Rattle.mac_rows.specs.MacParts.{cut_in, resources_in, row_error_at, wrapped_data, wrapping_of};
ghost use Rattle.mac_rows.specs.Views.{wrapping_seen};

use crate::forks::ForkPair;
use cfm_members::{Forks, readable};
use mac_forks::{AppleFile, ForkBytes, ForkFault, MacBinaryCuts, MacFile, NO_CUTS};
use mac_resources::{ResourceFault, ResourceFork};
use pef_ports::{Page, Sink, StreamFault};

/// What a file is wrapped in: the error of its header, and its forks, each with the error of its entry.
#[derive(Clone, Copy)]
pub(crate) struct Wrapping<'a> {
    pub fault: Option<ForkFault>,
    /// The errors of the parts of MacBinary that pass the end.
    pub cuts: MacBinaryCuts,
    /// Where the parts of MacBinary end.
    pub end: Option<usize>,
    /// The error of the first row of an entry that passes the end.
    pub cut: Option<ForkFault>,
    pub data_fork: Option<Result<ForkBytes<'a>, ForkFault>>,
    pub resource_fork: Option<Result<ForkBytes<'a>, ForkFault>>,
}

impl<'a> Wrapping<'a> {
    /// Returns what a file is wrapped in. A file that is nothing but a data fork has no fork here.
    #[tactic(auto, unfolding(crate::specs::MacParts::wrapping_of))]
    pub(crate) fn of(bytes: &'a [u8]) -> Wrapping<'a>
        ensures { wrapping_seen result ≡ wrapping_of bytes.entry.now }
    {
        match MacFile::read(bytes) {
            Ok(file) => Wrapping {
                fault: file.fault(),
                cuts: file.cuts(),
                end: file.end(),
                cut: cut_in(&file),
                data_fork: wrapped_data(&file),
                resource_fork: Forks::of(bytes, &file).resource_fork,
            },
            Err(fault) => Wrapping {
                fault: Some(fault),
                cuts: NO_CUTS,
                end: None,
                cut: None,
                data_fork: None,
                resource_fork: None,
            },
        }
    }
}

impl<'a> Wrapping<'a> {
    /// Returns the forks without their errors.
    pub(crate) fn forks(self) -> ForkPair<'a>
        ensures data_fork { option_map part_seen result.data_fork ≡ readable (wrapping_seen self.entry).data_fork }
        ensures resource_fork { option_map part_seen result.resource_fork ≡ readable (wrapping_seen self.entry).resource_fork }
    {
        ForkPair {
            data_fork: readable(self.data_fork),
            resource_fork: readable(self.resource_fork),
        }
    }
}

/// Returns the data fork of a file, unless the file is nothing else.
fn wrapped_data<'a>(file: &MacFile<'a>) -> Option<Result<ForkBytes<'a>, ForkFault>>
    ensures { option_map (result_map part_seen) result ≡ wrapped_data (mac_file_seen file.now) }
{
    match file {
        MacFile::Bare(_) => None,
        MacFile::MacBinary(_) | MacFile::Apple(_) => file.data_fork(),
    }
}

/// Returns the error of the first row of an entry that passes the end.
fn cut_in(file: &MacFile<'_>) -> Option<ForkFault>
    ensures { result ≡ cut_in (mac_file_seen file.now) }
{
    match file {
        MacFile::Bare(_) | MacFile::MacBinary(_) => None,
        MacFile::Apple(file) => first_row_error(file),
    }
}

/// Returns the error of the first row that passes the end of a file in AppleSingle or AppleDouble.
fn first_row_error(file: &AppleFile<'_>) -> Option<ForkFault>
    ensures { result ≡ first_among (row_error_at (apple_seen file.now)) 0 (apple_seen file.now).header.entry_count }
{
    for i in 0..file.header().entry_count {
        match row_error_at(file, i) {
            Some(fault) => return Some(fault),
            None => {}
        }
    }
    None
}

/// Returns the error of the row of entry `i`.
fn row_error_at(file: &AppleFile<'_>, i: u16) -> Option<ForkFault>
    ensures { result ≡ row_error_at (apple_seen file.now) i }
{
    match file.entry(i) {
        Some(Err(fault)) => Some(fault),
        Some(Ok(_)) | None => None,
    }
}

/// Reads a resource fork. One without bytes has no resources, and no error.
pub(crate) fn resources_in<'a>(
    part: ForkBytes<'a>,
) -> Option<Result<ResourceFork<'a>, ResourceFault>>
    ensures { option_map (result_map fork_seen) result ≡ resources_in (part_seen part.entry) }
{
    if part.bytes.is_empty() {
        return None;
    }
    Some(ResourceFork::read(part.bytes))
}

/// Prints a line for each fork of a file.
pub fn print_fork_lines<W: Sink>(
    out: &mut W,
    page: &mut Page,
    bytes: &[u8],
) -> Result<(), StreamFault>
    ensures { Sends result (W.stream out.old) (W.stream out.new) page.old.items page.new.items (fork_lines_of (wrapping_of bytes.now)) }
{
    let wrapping = Wrapping::of(bytes);
    wrapping.forks().print_lines(out, page)
}

/// Prints an object for each fork of a file.
pub fn print_fork_objects<W: Sink>(
    out: &mut W,
    page: &mut Page,
    bytes: &[u8],
) -> Result<(), StreamFault>
    ensures { Sends result (W.stream out.old) (W.stream out.new) page.old.items page.new.items (fork_objects_of (wrapping_of bytes.now)) }
{
    let wrapping = Wrapping::of(bytes);
    wrapping.forks().print_objects(out, page)
}
