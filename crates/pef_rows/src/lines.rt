//! The lines of the rows. The words of a line of a listing come first, after the offset.
ghost use Rattle.std.specs.Prelude.{◌≡◌, ◌++◌, codes, option_map};
ghost use Rattle.pef_loader.specs.PartialViews.{cut_export_seen, cut_import_seen, cut_library_seen, cut_seen};
ghost use Rattle.pef_ports.specs.Names.{name_text};
ghost use Rattle.pef_ports.specs.Sent.{Sends};
ghost use Rattle.pef_rows.specs.Tokens.{token_text};
ghost use Rattle.pef_rows.specs.Lines.{architecture_end, entry_line, export_line, header_line, header_words, section_label, import_line, library_line, loader_line, relocation_line, section_line};

use crate::optional::is_none_entry;
use crate::parts::{NameOrMark, Offset, Version};
use crate::rows::{
    EntryRow, ExportRow, HeaderRow, ImportRow, LibraryRow, LoaderRow, RelocationRow, SectionRow,
};
use crate::tokens::{Token, label_column, print_tokens};
use pef_listing::{ExportWords, ImportWords, LibraryWords, magnitude, sign};
use pef_loader::CutName;
use pef_ports::{Decimal, Joined, Page, Printed, Sink, StreamFault, Verbatim};

/// Prints the line of a container's header.
pub fn print_header<W: Sink>(
    out: &mut W,
    page: &mut Page,
    row: HeaderRow,
) -> Result<(), StreamFault>
    ensures { Sends result (W.stream out.old) (W.stream out.new) page.old.items page.new.items (header_line row.at row.header) }
{
    print_header_words(out, page, row)?;
    print_architecture(out, page, row.header.architecture)
}

/// Prints the architecture at the end of a line.
#[tactic(auto, unfolding(crate::specs::Lines::architecture_end))]
fn print_architecture<W: Sink>(out: &mut W, page: &mut Page, tag: u32) -> Result<(), StreamFault>
    ensures { Sends result (W.stream out.old) (W.stream out.new) page.old.items page.new.items (architecture_end tag) }
{
    print_characters(out, page, &tag.to_be_bytes())
}

/// Prints the characters of an architecture at the end of a line.
fn print_characters<W: Sink>(
    out: &mut W,
    page: &mut Page,
    characters: &[u8],
) -> Result<(), StreamFault>
    ensures { Sends result (W.stream out.old) (W.stream out.new) page.old.items page.new.items (codes " architecture " ++ name_text characters.now ++ codes "\n") }
{
    print_tokens(
        out,
        page,
        &[
            Token::Text(b" architecture "),
            Token::Name(characters),
            Token::Text(b"\n"),
        ],
    )
}

/// Prints the line of a container's header up to the architecture.
#[tactic(auto, unfolding(crate::specs::Lines::header_words))]
fn print_header_words<W: Sink>(
    out: &mut W,
    page: &mut Page,
    row: HeaderRow,
) -> Result<(), StreamFault>
    ensures { Sends result (W.stream out.old) (W.stream out.new) page.old.items page.new.items (header_words row.at row.header) }
{
    let header = row.header;
    print_tokens(
        out,
        page,
        &[
            Token::At(row.at),
            Token::Text(b" container current "),
            Token::Number(u64::from(header.current_version)),
            Token::Text(b" olddef "),
            Token::Number(u64::from(header.old_def_version)),
            Token::Text(b" oldimp "),
            Token::Number(u64::from(header.old_imp_version)),
            Token::Text(b" date "),
            Token::Number(u64::from(header.date_time_stamp)),
            Token::Text(b" versions "),
            Token::Version(header.current_version),
            Token::Text(b" "),
            Token::Version(header.old_def_version),
            Token::Text(b" "),
            Token::Version(header.old_imp_version),
            Token::Text(b" time "),
            Token::Date(header.date_time_stamp),
            Token::Text(b" sections "),
            Token::Number(u64::from(header.section_count)),
            Token::Text(b" instantiated "),
            Token::Number(u64::from(header.instantiated_section_count)),
        ],
    )
}

/// Prints the line of a section.
#[tactic(auto, unfolding(crate::specs::Lines::section_line))]
pub fn print_section<W: Sink>(
    out: &mut W,
    page: &mut Page,
    row: SectionRow<'_>,
) -> Result<(), StreamFault>
    ensures { Sends result (W.stream out.old) (W.stream out.new) page.old.items page.new.items (section_line row.entry.at row.entry.number row.entry.header (option_map cut_seen row.entry.name) row.entry.raw) }
{
    let header = row.header;
    print_tokens(
        out,
        page,
        &[
            Token::At(row.at),
            Token::Text(b" section "),
            Token::Number(row.number),
            Token::Text(b" kind "),
            Token::Number(u64::from(header.section_kind)),
            Token::Text(b" share "),
            Token::Number(u64::from(header.share_kind)),
            Token::Text(b" align "),
            Token::Number(u64::from(header.alignment)),
            Token::Text(b" total "),
            Token::Number(u64::from(header.total_size)),
            Token::Text(b" unpacked "),
            Token::Number(u64::from(header.unpacked_size)),
            Token::Text(b" packed "),
            Token::Number(u64::from(header.packed_size)),
            Token::Text(b" default "),
            Token::Word(header.default_address),
            Token::Text(b" name "),
            section_name(row.name),
            Token::Text(b" raw "),
            Token::At(row.raw),
            Token::Text(b"\n"),
        ],
    )
}

/// Returns a section's name as it is listed.
fn section_name<'a>(name: Option<CutName<'a>>) -> Token<'a>
    ensures { token_text result ≡ section_label (option_map cut_seen name.entry) }
{
    match name {
        None => Token::Text(b"-"),
        Some(name) if name.bytes == b"-".as_slice() => Token::Text(b"%2D"),
        Some(name) => label_column(name.bytes),
    }
}

/// Prints the line of a loader header.
#[tactic(auto, unfolding(crate::specs::Lines::loader_line))]
pub fn print_loader<W: Sink>(
    out: &mut W,
    page: &mut Page,
    row: LoaderRow,
) -> Result<(), StreamFault>
    ensures { Sends result (W.stream out.old) (W.stream out.new) page.old.items page.new.items (loader_line row.at row.header) }
{
    let header = row.header;
    print_tokens(
        out,
        page,
        &[
            Token::At(row.at),
            Token::Text(b" loader libraries "),
            Token::Number(u64::from(header.library_count)),
            Token::Text(b" imports "),
            Token::Number(u64::from(header.import_count)),
            Token::Text(b" relocs "),
            Token::Number(u64::from(header.reloc_count)),
            Token::Text(b" programs "),
            Token::Word(header.reloc_instr_offset),
            Token::Text(b" strings "),
            Token::Word(header.strings_offset),
            Token::Text(b" hash "),
            Token::Word(header.export_hash_offset),
            Token::Text(b" power "),
            Token::Number(u64::from(header.export_power)),
            Token::Text(b" exports "),
            Token::Number(u64::from(header.export_count)),
            Token::Text(b"\n"),
        ],
    )
}

/// Prints the line of an imported library.
#[tactic(auto, unfolding(crate::specs::Lines::library_line))]
pub fn print_library<W: Sink>(
    out: &mut W,
    page: &mut Page,
    row: LibraryRow<'_>,
) -> Result<(), StreamFault>
    ensures { Sends result (W.stream out.old) (W.stream out.new) page.old.items page.new.items (library_line row.entry.at (cut_library_seen row.entry.library)) }
{
    let fields = row.library.fields;
    let words = LibraryWords {
        name: NameOrMark(row.library.name),
        fields,
    };
    let start = Joined(Joined(Offset(row.at), Verbatim(b" ")), words);
    let version = Joined(
        Joined(start, Verbatim(b" versions ")),
        Version(fields.current),
    );
    let oldest = Joined(Joined(version, Verbatim(b" ")), Version(fields.old_imp));
    let count = Joined(
        Joined(oldest, Verbatim(b" imports ")),
        Decimal(u64::from(fields.count)),
    );
    let first = Joined(
        Joined(count, Verbatim(b" from ")),
        Decimal(u64::from(fields.first)),
    );
    Joined(first, Verbatim(b"\n")).print(out, page)
}

/// Prints the line of an imported symbol.
#[tactic(auto, unfolding(crate::specs::Lines::import_line))]
pub fn print_import<W: Sink>(
    out: &mut W,
    page: &mut Page,
    row: ImportRow<'_>,
) -> Result<(), StreamFault>
    ensures { Sends result (W.stream out.old) (W.stream out.new) page.old.items page.new.items (import_line row.entry.at row.entry.number (cut_import_seen row.entry.import) (option_map cut_seen row.entry.library_name)) }
{
    let words = ImportWords {
        number: row.number,
        name: NameOrMark(row.import.name),
        library: NameOrMark(row.library_name),
        fields: row.import.fields,
    };
    let start = Joined(Joined(Offset(row.at), Verbatim(b" ")), words);
    Joined(start, Verbatim(b"\n")).print(out, page)
}

/// Prints the line of an entry point, if the section isn't -1.
#[tactic(auto, unfolding(crate::specs::Lines::entry_line))]
pub fn print_entry<W: Sink>(
    out: &mut W,
    page: &mut Page,
    label: &[u8],
    row: EntryRow,
) -> Result<(), StreamFault>
    ensures { Sends result (W.stream out.old) (W.stream out.new) page.old.items page.new.items (entry_line label.now row.at row.section row.offset) }
{
    if is_none_entry(row.section) {
        return Ok(());
    }
    print_tokens(
        out,
        page,
        &[
            Token::At(row.at),
            Token::Text(label),
            Token::Text(sign(row.section)),
            Token::Number(magnitude(row.section)),
            Token::Text(b" "),
            Token::Word(row.offset),
            Token::Text(b"\n"),
        ],
    )
}

/// Prints the line of a relocation header.
#[tactic(auto, unfolding(crate::specs::Lines::relocation_line))]
pub fn print_relocation<W: Sink>(
    out: &mut W,
    page: &mut Page,
    row: RelocationRow<'_>,
) -> Result<(), StreamFault>
    ensures { Sends result (W.stream out.old) (W.stream out.new) page.old.items page.new.items (relocation_line row.entry.at row.entry.section row.entry.count row.entry.first) }
{
    print_tokens(
        out,
        page,
        &[
            Token::At(row.at),
            Token::Text(b" reloc section "),
            Token::Number(u64::from(row.section)),
            Token::Text(b" halfwords "),
            Token::Number(u64::from(row.count)),
            Token::Text(b" first "),
            Token::Number(u64::from(row.first)),
            Token::Text(b"\n"),
        ],
    )
}

/// Prints the line of an exported symbol.
#[tactic(auto, unfolding(crate::specs::Lines::export_line))]
pub fn print_export<W: Sink>(
    out: &mut W,
    page: &mut Page,
    row: ExportRow<'_>,
) -> Result<(), StreamFault>
    ensures { Sends result (W.stream out.old) (W.stream out.new) page.old.items page.new.items (export_line row.entry.at (cut_export_seen row.entry.export)) }
{
    let words = ExportWords {
        name: NameOrMark(row.export.name),
        fields: row.export.fields,
    };
    let start = Joined(Joined(Offset(row.at), Verbatim(b" ")), words);
    Joined(start, Verbatim(b"\n")).print(out, page)
}
