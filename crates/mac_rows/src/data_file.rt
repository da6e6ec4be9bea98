//! The other file that has the data fork, if a file has the resource fork alone.
ghost use Rattle.std.specs.Prelude.{◌≡◌, option_map};
ghost use Rattle.pef_words.specs.Refusals.{result_map};
ghost use Rattle.pef_ports.specs.Sent.{Sends};
ghost use Rattle.mac_forks.specs.MacFile.{mac_file_of};
ghost use Rattle.mac_forks.specs.Views.{part_seen};
ghost use Rattle.mac_rows.specs.DataFiles.{data_fork_in, has_fork, is_data_fork, is_fork_kind, is_resource_file, member_table_in, members_fork, paired_line, paired_object, whole_table};
ghost use Rattle.mac_rows.specs.Views.{data_file_seen, member_table_seen, wrapping_seen};

use crate::member_table::{FileError, MemberTable};
use crate::wrapping::{Wrapping, resources_in};
use cfm_members::{FileKind, Forks, readable};
use mac_forks::{ForkBytes, ForkFault, MacFile};
use pef_ports::{Page, Sink, StreamFault};
use pef_rows::{Token, print_tokens};

/// The file that has the data fork in which the members of another file's table of fragments are looked up.
#[derive(Clone, Copy, Debug)]
pub struct DataFile<'a> {
    pub path: &'a [u8],
    pub bytes: &'a [u8],
}

/// Returns whether a file can be a data fork whose resource fork is in another file: it is a container, or has none of the
/// formats that are known.
#[tactic(auto, unfolding(crate::specs::DataFiles::is_data_fork))]
pub fn is_data_fork(bytes: &[u8]) -> bool
    ensures { result ≡ is_data_fork bytes.now }
{
    is_fork_kind(FileKind::of(bytes))
}

/// Returns whether a file of this kind can be a data fork whose resource fork is in another file.
fn is_fork_kind(kind: FileKind) -> bool
    ensures { result ≡ is_fork_kind kind }
{
    match kind {
        FileKind::Container | FileKind::Other => true,
        FileKind::MacBinary
        | FileKind::AppleSingle
        | FileKind::AppleDouble
        | FileKind::DamagedApple
        | FileKind::ResourceFork => false,
    }
}

/// Returns whether a file has a resource fork, which may be damaged. If its header or a row of its entries is damaged, it may have
/// lost one.
#[tactic(auto, unfolding(crate::specs::DataFiles::is_resource_file))]
pub fn is_resource_file(bytes: &[u8]) -> bool
    ensures { result ≡ is_resource_file bytes.now }
{
    has_fork(Wrapping::of(bytes))
}

/// Returns whether a file that is wrapped in this has a resource fork, or may have lost one.
fn has_fork(wrapping: Wrapping<'_>) -> bool
    ensures { result ≡ has_fork (wrapping_seen wrapping.entry) (wrapping_seen wrapping.entry).resource_fork }
{
    match wrapping.resource_fork {
        Some(Ok(part)) => resources_in(part).is_some(),
        Some(Err(_)) => true,
        None => wrapping.fault.is_some() || wrapping.cut.is_some(),
    }
}

/// Returns the data fork in which the members of a file are looked up: that of the other file if there is one, else the
/// file's own.
pub(crate) fn members_fork<'a>(
    other: Option<DataFile<'a>>,
    own: Option<Result<ForkBytes<'a>, ForkFault>>,
) -> Option<ForkBytes<'a>>
    ensures { option_map part_seen result ≡ members_fork (option_map data_file_seen other.entry) (option_map (result_map part_seen) own.entry) }
{
    match other {
        Some(file) => data_fork_in(file.bytes),
        None => readable(own),
    }
}

/// Returns the data fork of a file.
fn data_fork_in<'a>(bytes: &'a [u8]) -> Option<ForkBytes<'a>>
    ensures { option_map part_seen result ≡ data_fork_in bytes.entry.now (mac_file_of bytes.entry.now) }
{
    match MacFile::read(bytes) {
        Ok(file) => readable(Forks::of(bytes, &file).data_fork),
        Err(_) => None,
    }
}

/// Returns the table of fragments of a file, if it can be read.
pub(crate) fn member_table_in<'a>(
    data_file: Option<DataFile<'a>>,
    wrapping: Wrapping<'a>,
) -> Option<MemberTable<'a>>
    ensures { option_map member_table_seen result ≡ member_table_in (option_map data_file_seen data_file.entry) (wrapping_seen wrapping.entry) }
{
    let part = readable(wrapping.resource_fork)?;
    match resources_in(part) {
        Some(Ok(fork)) => whole_table(MemberTable::read(
            members_fork(data_file, wrapping.data_fork),
            part.offset as u64,
            fork,
        )),
        Some(Err(_)) | None => None,
    }
}

/// Returns a table of fragments without its error.
fn whole_table<'a>(table: Option<Result<MemberTable<'a>, FileError>>) -> Option<MemberTable<'a>>
    ensures { option_map member_table_seen result ≡ whole_table (option_map (result_map member_table_seen) table.entry) }
{
    match table {
        Some(Ok(table)) => Some(table),
        Some(Err(_)) | None => None,
    }
}

/// Prints the first line of a file whose data fork is in another file.
#[tactic(auto, unfolding(crate::specs::DataFiles::paired_line))]
pub fn print_paired_line<W: Sink>(
    out: &mut W,
    page: &mut Page,
    head: PairedHead<'_>,
) -> Result<(), StreamFault>
    ensures { Sends result (W.stream out.old) (W.stream out.new) page.old.items page.new.items (paired_line head.entry.path.now head.entry.size head.entry.format.now head.entry.other.now) }
{
    print_tokens(
        out,
        page,
        &[
            Token::Text(b"file "),
            Token::Name(head.path),
            Token::Text(b" size "),
            Token::Number(head.size),
            Token::Text(b" format "),
            Token::Text(head.format),
            Token::Text(b" data "),
            Token::Name(head.other),
            Token::Text(b"\n"),
        ],
    )
}

/// Prints the beginning of the object of a file whose data fork is in another file.
#[tactic(auto, unfolding(crate::specs::DataFiles::paired_object))]
pub fn print_paired_object<W: Sink>(
    out: &mut W,
    page: &mut Page,
    head: PairedHead<'_>,
) -> Result<(), StreamFault>
    ensures { Sends result (W.stream out.old) (W.stream out.new) page.old.items page.new.items (paired_object head.entry.path.now head.entry.size head.entry.format.now head.entry.other.now) }
{
    print_tokens(
        out,
        page,
        &[
            Token::Text(b"{\"file\":"),
            Token::Unicode(head.path),
            Token::Text(b",\"file_bytes\":\""),
            Token::Path(head.path),
            Token::Text(b"\",\"data\":"),
            Token::Unicode(head.other),
            Token::Text(b",\"data_bytes\":\""),
            Token::Path(head.other),
            Token::Text(b"\",\"size\":"),
            Token::Number(head.size),
            Token::Text(b",\"format\":\""),
            Token::Text(head.format),
            Token::Text(b"\",\"forks\":["),
        ],
    )
}

/// What the beginning of a report says of a file whose data fork is in another file.
#[derive(Clone, Copy)]
pub struct PairedHead<'a> {
    pub path: &'a [u8],
    pub size: u64,
    pub format: &'static [u8],
    /// The path of the file that has the data fork.
    pub other: &'a [u8],
}
