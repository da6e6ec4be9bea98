ghost use Rattle.std.specs.Prelude.{◌≡◌, decimal};
ghost use Rattle.pef_ports.specs.Sent.{Sends};
ghost use Rattle.pef_rows.specs.Findings.{detail_key, detail_number, detail_text, detail_word, entry_field, export_field, field_number, field_value, field_word, file_offset, finding_line, finding_object, has_rows, header_field, is_whole, library_field, loader_field, offset_in_file, part_key, part_word, relocation_field, section_field, severity_word};
ghost use Rattle.pef_rows.specs.Tokens.{token_text};

use crate::optional::{at_digits, at_word, number_if, number_or_null, text_if};
use crate::rows::FindingRow;
use crate::tokens::{Token, print_tokens};
use pef_format::Part;
use pef_inspect::Detail;
use pef_ports::{Page, Sink, StreamFault};

/// Prints the line of an error or a note of a container that begins at an offset of the file.
#[tactic(auto, unfolding(crate::specs::Findings::finding_line))]
pub fn print_finding<W: Sink>(
    out: &mut W,
    page: &mut Page,
    row: FindingRow,
) -> Result<(), StreamFault>
    ensures { Sends result (W.stream out.old) (W.stream out.new) page.old.items page.new.items (finding_line row.base row.number row.name.now row.is_error row.place row.detail) }
{
    let place = row.place;
    let whole = is_whole(row.number);
    let at = offset_in_file(row.base, place.offset);
    print_tokens(
        out,
        page,
        &[
            Token::Text(severity_word(row.is_error)),
            Token::Number(u64::from(row.number)),
            Token::Text(b" "),
            Token::Text(row.name.as_bytes()),
            Token::Text(b" "),
            Token::Text(part_word(place.part)),
            text_if(has_rows(place.part), b" "),
            number_if(has_rows(place.part), place.row as u64),
            Token::Text(field_word(whole, place.part, place.field)),
            field_token(place.part, place.field as u64),
            Token::Text(at_word(at)),
            at_digits(at),
            Token::Text(detail_word(row.detail)),
            detail_token(row.detail),
            Token::Text(b"\n"),
        ],
    )
}

/// Prints an error or a note as an object of JSON.
#[tactic(auto, unfolding(crate::specs::Findings::finding_object))]
pub fn print_finding_object<W: Sink>(
    out: &mut W,
    page: &mut Page,
    row: FindingRow,
) -> Result<(), StreamFault>
    ensures { Sends result (W.stream out.old) (W.stream out.new) page.old.items page.new.items (finding_object row.base row.number row.name.now row.place row.detail) }
{
    let place = row.place;
    let whole = is_whole(row.number);
    let at = offset_in_file(row.base, place.offset);
    print_tokens(
        out,
        page,
        &[
            Token::Text(b"{\"number\":"),
            Token::Number(u64::from(row.number)),
            Token::Text(b",\"name\":\""),
            Token::Text(row.name.as_bytes()),
            Token::Text(b"\",\"part\":\""),
            Token::Text(part_key(place.part)),
            Token::Text(b"\",\"row\":"),
            Token::Number(place.row as u64),
            Token::Text(b",\"field\":"),
            field_value(whole, place.field as u64),
            Token::Text(b",\"offset\":"),
            number_or_null(at),
            Token::Text(detail_key(row.detail)),
            detail_number(row.detail),
            Token::Text(b"}"),
        ],
    )
}

/// Returns whether an error or a note is about a container as a whole, or about bytes of it, and about no field.
fn is_whole(number: u32) -> bool
    ensures { result ≡ is_whole number }
{
    matches!(number, 1 | 10 | 109 | 113 | 124)
}

/// Returns the first word of the line of a part.
fn part_word(part: Part) -> &'static [u8]
    ensures { result.now ≡ part_word part }
{
    match part {
        Part::Header => b"container",
        Part::Section | Part::PackedData => b"section",
        Part::LoaderHeader => b"loader",
        Part::Library => b"library",
        Part::Import => b"import",
        Part::Main => b"main",
        Part::Init => b"init",
        Part::Term => b"term",
        Part::Relocation | Part::Program => b"reloc",
        Part::Export => b"export",
        Part::Line => b"line",
    }
}

/// Returns the name of a part in JSON.
fn part_key(part: Part) -> &'static [u8]
    ensures { result.now ≡ part_key part }
{
    match part {
        Part::Header => b"header",
        Part::Section => b"section",
        Part::LoaderHeader => b"loader",
        Part::Library => b"library",
        Part::Import => b"import",
        Part::Main => b"main",
        Part::Init => b"init",
        Part::Term => b"term",
        Part::Relocation => b"relocation",
        Part::Export => b"export",
        Part::PackedData => b"packed",
        Part::Program => b"program",
        Part::Line => b"line",
    }
}

/// Returns whether a container can have several parts of a kind.
fn has_rows(part: Part) -> bool
    ensures { result ≡ has_rows part }
{
    match part {
        Part::Header | Part::LoaderHeader | Part::Main | Part::Init | Part::Term | Part::Line =>
            false,
        Part::Section
        | Part::Library
        | Part::Import
        | Part::Relocation
        | Part::Export
        | Part::PackedData
        | Part::Program => true,
    }
}

/// Returns the name of a field after a space, or nothing if a finding is about bytes of the container or of its loader section.
fn field_word(whole: bool, part: Part, field: usize) -> &'static [u8]
    ensures { result.now ≡ field_word whole part field }
{
    match part {
        Part::Header => { if whole { b"" } else { header_field(field) } }
        Part::Section => section_field(field),
        Part::LoaderHeader => { if whole { b"" } else { loader_field(field) } }
        Part::Library => library_field(field),
        Part::Import => b" classAndName",
        Part::Main => entry_field(field, b" mainSection", b" mainOffset"),
        Part::Init => entry_field(field, b" initSection", b" initOffset"),
        Part::Term => entry_field(field, b" termSection", b" termOffset"),
        Part::Relocation => relocation_field(field),
        Part::Export => export_field(field),
        Part::PackedData => b" packed ",
        Part::Program => b" halfword ",
        Part::Line => b"",
    }
}

/// Returns the number of a byte of packed data, or of a halfword of a program.
fn field_token(part: Part, field: u64) -> Token<'static>
    ensures { token_text result ≡ field_number part field }
{
    match part {
        Part::PackedData => Token::Number(field),
        Part::Program => Token::Number(field / 2),
        _ => Token::Text(b""),
    }
}

fn header_field(field: usize) -> &'static [u8]
    ensures { result.now ≡ header_field field }
{
    match field {
        0 => b" tag1",
        8 => b" architecture",
        12 => b" formatVersion",
        20 => b" oldDefVersion",
        24 => b" oldImpVersion",
        32 => b" sectionCount",
        34 => b" instSectionCount",
        36 => b" reservedA",
        _ => b"",
    }
}

fn section_field(field: usize) -> &'static [u8]
    ensures { result.now ≡ section_field field }
{
    match field {
        0 => b" nameOffset",
        8 => b" totalSize",
        12 => b" unpackedSize",
        16 => b" packedSize",
        20 => b" containerOffset",
        24 => b" sectionKind",
        25 => b" shareKind",
        26 => b" alignment",
        27 => b" reservedA",
        _ => b"",
    }
}

fn loader_field(field: usize) -> &'static [u8]
    ensures { result.now ≡ loader_field field }
{
    match field {
        0 => b" mainSection",
        24 => b" importedLibraryCount",
        28 => b" totalImportedSymbolCount",
        32 => b" relocSectionCount",
        44 => b" exportHashOffset",
        52 => b" exportedSymbolCount",
        _ => b"",
    }
}

fn library_field(field: usize) -> &'static [u8]
    ensures { result.now ≡ library_field field }
{
    match field {
        0 => b" nameOffset",
        4 => b" oldImpVersion",
        12 => b" importedSymbolCount",
        16 => b" firstImportedSymbol",
        20 => b" options",
        21 => b" reservedA",
        _ => b"",
    }
}

fn entry_field(field: usize, section: &'static [u8], offset: &'static [u8]) -> &'static [u8]
    ensures { result.now ≡ entry_field field section.entry.now offset.entry.now }
{
    match field {
        0 => section,
        _ => offset,
    }
}

fn relocation_field(field: usize) -> &'static [u8]
    ensures { result.now ≡ relocation_field field }
{
    match field {
        0 => b" sectionIndex",
        2 => b" reservedA",
        4 => b" relocCount",
        8 => b" firstRelocOffset",
        _ => b"",
    }
}

fn export_field(field: usize) -> &'static [u8]
    ensures { result.now ≡ export_field field }
{
    match field {
        0 => b" classAndName",
        4 => b" symbolValue",
        8 => b" sectionIndex",
        _ => b"",
    }
}

/// Returns the offset in the file of a place in a container that begins at `base`.
fn offset_in_file(base: u64, offset: Option<usize>) -> Option<u64>
    ensures { result ≡ offset_in_file base offset }
{
    match offset {
        Some(offset) => base.checked_add(offset as u64),
        None => None,
    }
}

/// Returns an offset in a container as one in the file, or that of the container if there is none.
pub fn file_offset(base: u64, offset: Option<usize>) -> u64
    ensures { result ≡ file_offset base offset }
{
    match offset_in_file(base, offset) {
        Some(at) => at,
        None => base,
    }
}

/// Returns a field as a value of JSON, or `null` if there is none.
fn field_value(whole: bool, field: u64) -> Token<'static>
    ensures { token_text result ≡ field_value whole field }
{
    if whole {
        Token::Text(b"null")
    } else {
        Token::Number(field)
    }
}

/// Returns the first word of the line.
fn severity_word(is_error: bool) -> &'static [u8]
    ensures { result.now ≡ severity_word is_error }
{
    if is_error { b"error " } else { b"note " }
}

/// Returns the word before a detail.
fn detail_word(detail: Detail) -> &'static [u8]
    ensures { result.now ≡ detail_word detail }
{
    match detail {
        Detail::Word(_) => b" word ",
        Detail::Length(_) => b" length ",
        Detail::Sections(_) => b" sections ",
        Detail::None => b"",
    }
}

/// Returns a detail as it is in a line.
fn detail_token(detail: Detail) -> Token<'static>
    ensures { token_text result ≡ detail_text detail }
{
    match detail {
        Detail::Word(word) => Token::At(word),
        Detail::Length(number) | Detail::Sections(number) => Token::Number(number),
        Detail::None => Token::Text(b""),
    }
}

/// Returns the key of a detail in JSON.
fn detail_key(detail: Detail) -> &'static [u8]
    ensures { result.now ≡ detail_key detail }
{
    match detail {
        Detail::Word(_) => b",\"word\":",
        Detail::Length(_) => b",\"length\":",
        Detail::Sections(_) => b",\"sections\":",
        Detail::None => b"",
    }
}

/// Returns a detail as a number of JSON.
fn detail_number(detail: Detail) -> Token<'static>
    ensures { token_text result ≡ detail_number detail }
{
    match detail {
        Detail::Word(n) | Detail::Length(n) | Detail::Sections(n) => Token::Number(n),
        Detail::None => Token::Text(b""),
    }
}
