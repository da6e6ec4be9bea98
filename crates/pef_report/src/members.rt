//! The rows of a container as members of its object of JSON.
ghost use Rattle.std.specs.Prelude.{◌≡◌, ◌==◌, ◌++◌, ◌-◌, codes, map};
ghost use Rattle.std.specs.Option.{unwrap_or};
ghost use Rattle.pef_ports.specs.Sent.{Sends};
ghost use Rattle.pef_report.specs.Inspection.{at_most, element, elements, members_text, object_count, row_members};
ghost use Rattle.pef_report.specs.Members.{member_seen};
ghost use Rattle.pef_report.specs.Readable.{export_row_object, import_row_object, library_row_object, object_at};
ghost use Rattle.pef_rows.specs.RowViews.{object_of};
ghost use Rattle.pef_report.specs.Views.{readable};

use crate::reading::Reading;
use pef_format::Part;
use pef_ports::{Page, Sink, StreamFault, send};
use pef_rows::{
    print_export_object, print_import_object, print_library_object, print_row_object,
    print_separator,
};

/// A member of an object: what is before its elements, and the kind of rows that they are.
#[derive(Clone, Copy)]
pub(crate) struct Member {
    pub key: &'static [u8],
    pub part: Part,
}

/// Returns the members of a container's object that have its rows.
pub(crate) fn row_members() -> [Member; 10]
    ensures { map member_seen result ≡ row_members }
{
    [
        new_member(b",\"header\":", Part::Header),
        new_member(b",\"sections\":[", Part::Section),
        new_member(b"],\"loader\":", Part::LoaderHeader),
        new_member(b",\"libraries\":[", Part::Library),
        new_member(b"],\"imports\":[", Part::Import),
        new_member(b"],\"relocations\":[", Part::Relocation),
        new_member(b"],\"exports\":[", Part::Export),
        new_member(b"],\"entries\":{\"main\":", Part::Main),
        new_member(b",\"init\":", Part::Init),
        new_member(b",\"term\":", Part::Term),
    ]
}

fn new_member(key: &'static [u8], part: Part) -> Member
    ensures { member_seen result ≡ (key.entry.now, part) }
{
    Member { key, part }
}

/// Prints members of an object, each with at most so many rows.
pub(crate) fn print_members<W: Sink>(
    out: &mut W,
    page: &mut Page,
    reading: &mut Reading<'_>,
    most: Option<u32>,
    members: &[Member],
) -> Result<(), StreamFault>
    ensures { Sends result (W.stream out.old) (W.stream out.new) page.old.items page.new.items (members_text most (readable reading.old) (map member_seen members.now)) }
{
    for member in members {
        print_member(out, page, reading, most, *member)?;
    }
    Ok(())
}

/// Prints a member of an object. If a container can have only one row of its kind, the object is `null` if it can't be read.
fn print_member<W: Sink>(
    out: &mut W,
    page: &mut Page,
    reading: &mut Reading<'_>,
    most: Option<u32>,
    member: Member,
) -> Result<(), StreamFault>
    ensures sends { Sends result (W.stream out.old) (W.stream out.new) page.old.items page.new.items (member.key.now ++ elements (readable reading.old) member.part 0 (object_count most (readable reading.old) member.part)) }
    ensures same { readable reading.new ≡ readable reading.old }
{
    send(out, page, member.key)?;
    let elements = Elements {
        part: member.part,
        from: 0,
        end: object_count(most, reading, member.part),
    };
    print_elements(out, page, reading, elements)
}

/// Rows of a kind that are printed as objects.
#[derive(Clone, Copy)]
pub(crate) struct Elements {
    pub part: Part,
    pub from: u32,
    /// The row after the last one.
    pub end: u32,
}

/// Prints the objects of rows of a kind.
pub(crate) fn print_elements<W: Sink>(
    out: &mut W,
    page: &mut Page,
    reading: &mut Reading<'_>,
    rows: Elements,
) -> Result<(), StreamFault>
    ensures sends { Sends result (W.stream out.old) (W.stream out.new) page.old.items page.new.items (elements (readable reading.old) rows.part rows.from (rows.end - rows.from)) }
    ensures same { readable reading.new ≡ readable reading.old }
{
    for i in rows.from..rows.end {
        print_element(out, page, reading, rows.part, i)?;
    }
    Ok(())
}

/// Returns how many objects are printed of a kind of row.
fn object_count(most: Option<u32>, reading: &Reading<'_>, part: Part) -> u32
    ensures { result ≡ object_count most (readable reading.now) part }
{
    match part {
        Part::Header | Part::LoaderHeader | Part::Main | Part::Init | Part::Term => 1,
        Part::Section
        | Part::Library
        | Part::Import
        | Part::Relocation
        | Part::Export
        | Part::PackedData
        | Part::Program
        | Part::Line => at_most(most, reading.count(part)),
    }
}

/// Returns a number of rows, or the most that are wanted.
fn at_most(most: Option<u32>, count: u32) -> u32
    ensures { result ≡ at_most most count }
{
    match most {
        Some(most) => count.min(most),
        None => count,
    }
}

/// Prints the object of row `i` of a kind, after a comma if it isn't the first.
fn print_element<W: Sink>(
    out: &mut W,
    page: &mut Page,
    reading: &mut Reading<'_>,
    part: Part,
    i: u32,
) -> Result<(), StreamFault>
    ensures sends { Sends result (W.stream out.old) (W.stream out.new) page.old.items page.new.items (element (readable reading.old) part i) }
    ensures same { readable reading.new ≡ readable reading.old }
{
    print_separator(out, page, i == 0)?;
    print_object_at(out, page, reading, part, i)
}

/// Prints the object of row `i` of a kind, or `null` if it can't be read.
#[tactic(auto, unfolding(crate::specs::Readable::object_at))]
fn print_object_at<W: Sink>(
    out: &mut W,
    page: &mut Page,
    reading: &mut Reading<'_>,
    part: Part,
    i: u32,
) -> Result<(), StreamFault>
    ensures sends { Sends result (W.stream out.old) (W.stream out.new) page.old.items page.new.items (unwrap_or (object_at (readable reading.old) part i) (codes "null")) }
    ensures same { readable reading.new ≡ readable reading.old }
{
    match part {
        Part::Library => print_library_at(out, page, reading, i),
        Part::Import => print_import_at(out, page, reading, i),
        Part::Export => print_export_at(out, page, reading, i),
        Part::Header
        | Part::Section
        | Part::LoaderHeader
        | Part::Main
        | Part::Init
        | Part::Term
        | Part::Relocation
        | Part::PackedData
        | Part::Program
        | Part::Line => match reading.row(part, i) {
            Some(row) => print_row_object(out, page, row),
            None => send(out, page, b"null"),
        },
    }
}

/// Prints the object of library `i`, or `null` if it can't be read. As for lines, libraries, imports and exports are read as what
/// they are.
fn print_library_at<W: Sink>(
    out: &mut W,
    page: &mut Page,
    reading: &Reading<'_>,
    i: u32,
) -> Result<(), StreamFault>
    ensures { Sends result (W.stream out.old) (W.stream out.new) page.old.items page.new.items (unwrap_or (library_row_object (readable reading.now) i) (codes "null")) }
{
    match reading.library_row(i) {
        Some(row) => print_library_object(out, page, row),
        None => send(out, page, b"null"),
    }
}

/// Prints the object of import `j`, or `null` if it can't be read.
fn print_import_at<W: Sink>(
    out: &mut W,
    page: &mut Page,
    reading: &mut Reading<'_>,
    j: u32,
) -> Result<(), StreamFault>
    ensures sends { Sends result (W.stream out.old) (W.stream out.new) page.old.items page.new.items (unwrap_or (import_row_object (readable reading.old) j) (codes "null")) }
    ensures same { readable reading.new ≡ readable reading.old }
{
    match reading.import_row(j) {
        Some(row) => print_import_object(out, page, row),
        None => send(out, page, b"null"),
    }
}

/// Prints the object of export `i`, or `null` if it can't be read.
fn print_export_at<W: Sink>(
    out: &mut W,
    page: &mut Page,
    reading: &Reading<'_>,
    i: u32,
) -> Result<(), StreamFault>
    ensures { Sends result (W.stream out.old) (W.stream out.new) page.old.items page.new.items (unwrap_or (export_row_object (readable reading.now) i) (codes "null")) }
{
    match reading.export_row(i) {
        Some(row) => print_export_object(out, page, row),
        None => send(out, page, b"null"),
    }
}
