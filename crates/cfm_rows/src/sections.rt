//! The sections of a prepared fragment as objects of JSON.
ghost use Rattle.std.specs.Prelude.{◌≡◌, ◌==◌, ◌++◌, codes, decimal};
ghost use Rattle.cfm_files.specs.Paths.{file_name, section_path};
ghost use Rattle.pef_ports.specs.Sent.{Sends};
ghost use Rattle.pef_rows.specs.Objects.{separator};
ghost use Rattle.pef_rows.specs.Tokens.{path_text};
ghost use Rattle.cfm_rows.specs.Sections.{bytes_member, bytes_shown, encoded_member, file_member, section_extent, section_kind, section_kinds, section_number, section_object, sections_list};

use crate::encoded::print_base64;
use crate::place::FragmentPlace;
use cfm_files::{file_byte, name_of};
use cfm_prepare::{Context, SectionHeader};
use itoa::Buffer;
use pef_ports::{Page, Piece, Sink, StreamFault, print_pieces, send};
use pef_rows::{Token, kind_text, print_separator, print_tokens, share_text};

/// What the objects of sections have of their bytes.
#[derive(Clone, Copy, Debug, PartialEq, Eq)]
pub enum SectionBytes<'a> {
    /// Nothing.
    Omitted,
    /// The bytes in base64.
    Encoded,
    /// The path of the file in a folder that gets them.
    Filed { folder: &'a [u8] },
}

/// A section of a fragment in memory.
#[derive(Clone, Copy)]
struct PlacedSection<'a> {
    fragment: &'a [u8],
    number: usize,
    header: Option<SectionHeader>,
    address: u32,
    bytes: &'a [u8],
}

/// Prints the sections of a fragment, with commas between them.
pub(crate) fn print_sections<W: Sink>(
    out: &mut W,
    page: &mut Page,
    context: &Context<'_>,
    place: FragmentPlace,
    shown: SectionBytes<'_>,
) -> Result<(), StreamFault>
    ensures { Sends result (W.stream out.old) (W.stream out.new) page.old.items page.new.items (sections_list context.now place.connection.0 place.position (bytes_shown shown.entry)) }
{
    let fragment = name_of(context, place.position);
    for i in 0..context.section_count(place.position) {
        let Some((address, bytes)) = context.fragment_section(place.position, i) else {
            unreachable!()
        };
        let section = PlacedSection {
            fragment,
            number: i,
            header: context.fragment_section_header(place.connection, place.position, i),
            address,
            bytes,
        };
        print_element(out, page, section, shown)?;
    }
    Ok(())
}

/// Prints a section after a comma, unless it is the first.
fn print_element<W: Sink>(
    out: &mut W,
    page: &mut Page,
    section: PlacedSection<'_>,
    shown: SectionBytes<'_>,
) -> Result<(), StreamFault>
    ensures { Sends result (W.stream out.old) (W.stream out.new) page.old.items page.new.items (separator (section.entry.number == 0) ++ section_object section.entry.fragment.now section.entry.number section.entry.header section.entry.address section.entry.bytes.now (bytes_shown shown.entry)) }
{
    print_separator(out, page, section.number == 0)?;
    print_section(out, page, section, shown)
}

/// Prints a section.
fn print_section<W: Sink>(
    out: &mut W,
    page: &mut Page,
    section: PlacedSection<'_>,
    shown: SectionBytes<'_>,
) -> Result<(), StreamFault>
    ensures { Sends result (W.stream out.old) (W.stream out.new) page.old.items page.new.items (section_object section.entry.fragment.now section.entry.number section.entry.header section.entry.address section.entry.bytes.now (bytes_shown shown.entry)) }
{
    print_number(out, page, section.number)?;
    print_kinds(out, page, section.header)?;
    print_extent(out, page, section.address, section.bytes.len())?;
    print_bytes_member(out, page, section, shown)?;
    send(out, page, b"}")
}

/// Prints the number of a section.
#[tactic(auto, unfolding(crate::specs::Sections::section_number))]
fn print_number<W: Sink>(out: &mut W, page: &mut Page, number: usize) -> Result<(), StreamFault>
    ensures { Sends result (W.stream out.old) (W.stream out.new) page.old.items page.new.items (section_number number) }
{
    print_pieces(
        out,
        page,
        &[Piece::Text(b"{\"number\":"), Piece::Number(number as u64)],
    )
}

/// Prints what a section is and how it is shared, if its header is there.
fn print_kinds<W: Sink>(
    out: &mut W,
    page: &mut Page,
    header: Option<SectionHeader>,
) -> Result<(), StreamFault>
    ensures { Sends result (W.stream out.old) (W.stream out.new) page.old.items page.new.items (section_kinds header) }
{
    match header {
        Some(header) => print_kind(out, page, header),
        None => send(out, page, b""),
    }
}

/// Prints what a section is, and how it is shared.
#[tactic(auto, unfolding(crate::specs::Sections::section_kind))]
fn print_kind<W: Sink>(
    out: &mut W,
    page: &mut Page,
    header: SectionHeader,
) -> Result<(), StreamFault>
    ensures { Sends result (W.stream out.old) (W.stream out.new) page.old.items page.new.items (section_kind header) }
{
    print_tokens(
        out,
        page,
        &[
            Token::Text(b",\"kind\":"),
            Token::Number(u64::from(header.section_kind)),
            Token::Text(b",\"kind_text\":"),
            Token::Text(kind_text(header.kind())),
            Token::Text(b",\"share\":"),
            Token::Number(u64::from(header.share_kind)),
            Token::Text(b",\"share_text\":"),
            Token::Text(share_text(header.share())),
        ],
    )
}

/// Prints where a section is, and how many bytes it has.
#[tactic(auto, unfolding(crate::specs::Sections::section_extent))]
fn print_extent<W: Sink>(
    out: &mut W,
    page: &mut Page,
    address: u32,
    size: usize,
) -> Result<(), StreamFault>
    ensures { Sends result (W.stream out.old) (W.stream out.new) page.old.items page.new.items (section_extent address size) }
{
    print_pieces(
        out,
        page,
        &[
            Piece::Text(b",\"address\":"),
            Piece::Number(u64::from(address)),
            Piece::Text(b",\"size\":"),
            Piece::Number(size as u64),
        ],
    )
}

/// Prints what is shown of the bytes of a section.
fn print_bytes_member<W: Sink>(
    out: &mut W,
    page: &mut Page,
    section: PlacedSection<'_>,
    shown: SectionBytes<'_>,
) -> Result<(), StreamFault>
    ensures { Sends result (W.stream out.old) (W.stream out.new) page.old.items page.new.items (bytes_member (bytes_shown shown.entry) section.entry.fragment.now section.entry.number section.entry.bytes.now) }
{
    match shown {
        SectionBytes::Omitted => send(out, page, b""),
        SectionBytes::Encoded => print_encoded(out, page, section.bytes),
        SectionBytes::Filed { folder } => {
            print_file(out, page, folder, section.fragment, section.number)
        }
    }
}

/// Prints the path of the file in a folder that gets the bytes of section `i` of a fragment.
fn print_file<W: Sink>(
    out: &mut W,
    page: &mut Page,
    folder: &[u8],
    fragment: &[u8],
    i: usize,
) -> Result<(), StreamFault>
    ensures { Sends result (W.stream out.old) (W.stream out.new) page.old.items page.new.items (file_member (section_path folder.now fragment.now i)) }
{
    print_folder(out, page, folder)?;
    print_file_name(out, page, fragment)?;
    print_path_end(out, page, i)
}

/// Prints the start of a path, which is in a folder.
fn print_folder<W: Sink>(out: &mut W, page: &mut Page, folder: &[u8]) -> Result<(), StreamFault>
    ensures { Sends result (W.stream out.old) (W.stream out.new) page.old.items page.new.items (codes ",\"file\":\"" ++ path_text folder.now ++ path_text (codes "/")) }
{
    print_tokens(
        out,
        page,
        &[
            Token::Text(b",\"file\":\""),
            Token::Path(folder),
            Token::Path(b"/"),
        ],
    )
}

/// Prints the name of a fragment as it is in the names of its files.
fn print_file_name<W: Sink>(
    out: &mut W,
    page: &mut Page,
    fragment: &[u8],
) -> Result<(), StreamFault>
    ensures { Sends result (W.stream out.old) (W.stream out.new) page.old.items page.new.items (path_text (file_name fragment.now)) }
{
    for b in fragment {
        print_path(out, page, file_byte(*b).as_slice())?;
    }
    Ok(())
}

/// Prints a part of a path.
fn print_path<W: Sink>(out: &mut W, page: &mut Page, path: &[u8]) -> Result<(), StreamFault>
    ensures { Sends result (W.stream out.old) (W.stream out.new) page.old.items page.new.items (path_text path.now) }
{
    print_tokens(out, page, &[Token::Path(path)])
}

/// Prints the end of the path of the file of section `i`.
fn print_path_end<W: Sink>(out: &mut W, page: &mut Page, i: usize) -> Result<(), StreamFault>
    ensures { Sends result (W.stream out.old) (W.stream out.new) page.old.items page.new.items (path_text (codes ".") ++ path_text (decimal i) ++ path_text (codes ".bin") ++ codes "\"") }
{
    let mut digits = Buffer::new();
    print_tokens(
        out,
        page,
        &[
            Token::Path(b"."),
            Token::Path(digits.format(i as u64).as_bytes()),
            Token::Path(b".bin"),
            Token::Text(b"\""),
        ],
    )
}

/// Prints the bytes of a section in base64.
fn print_encoded<W: Sink>(out: &mut W, page: &mut Page, bytes: &[u8]) -> Result<(), StreamFault>
    ensures { Sends result (W.stream out.old) (W.stream out.new) page.old.items page.new.items (encoded_member bytes.now) }
{
    send(out, page, b",\"bytes\":\"")?;
    print_base64(out, page, bytes)?;
    send(out, page, b"\"")
}
