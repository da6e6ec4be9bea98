//! The objects of JSON of the rows.
ghost use Rattle.std.specs.Prelude.{◌≡◌, option_map};
ghost use Rattle.pef_loader.specs.PartialViews.{cut_export_seen, cut_import_seen, cut_library_seen, cut_seen};
ghost use Rattle.pef_ports.specs.Sent.{Sends};
ghost use Rattle.pef_rows.specs.Objects.{entry_object, export_object, header_counts, header_object, header_versions, import_object, library_imports, library_object, library_versions, loader_object, section_codes, section_object, section_sizes, separator};

use crate::codes::{class_member, kind_text, share_text};
use crate::optional::{is_none_entry, number_or_null, truth};
use crate::parts::{CutNameMember, Version};
use crate::rows::{EntryRow, ExportRow, HeaderRow, ImportRow, LibraryRow, LoaderRow, SectionRow};
use crate::tokens::{Token, print_tokens};
use pef_format::LibraryFields;
use pef_listing::{magnitude, sign};
use pef_ports::{Decimal, Joined, Page, Printed, Sink, StreamFault, Verbatim, send};
use pef_views::Header;

/// Prints a container's header.
pub fn print_header_object<W: Sink>(
    out: &mut W,
    page: &mut Page,
    row: HeaderRow,
) -> Result<(), StreamFault>
    ensures { Sends result (W.stream out.old) (W.stream out.new) page.old.items page.new.items (header_object row.header) }
{
    print_header_versions(out, page, row.header)?;
    print_header_counts(out, page, row.header)
}

/// Prints the architecture, the version of the format, and the versions of a header.
#[tactic(auto, unfolding(crate::specs::Objects::header_versions))]
fn print_header_versions<W: Sink>(
    out: &mut W,
    page: &mut Page,
    header: Header,
) -> Result<(), StreamFault>
    ensures { Sends result (W.stream out.old) (W.stream out.new) page.old.items page.new.items (header_versions header) }
{
    print_tokens(
        out,
        page,
        &[
            Token::Text(b"{\"architecture\":\""),
            Token::Tag(header.architecture),
            Token::Text(b"\",\"format_version\":"),
            Token::Number(u64::from(header.format_version)),
            Token::Text(b",\"current\":"),
            Token::Number(u64::from(header.current_version)),
            Token::Text(b",\"current_text\":\""),
            Token::Version(header.current_version),
            Token::Text(b"\",\"olddef\":"),
            Token::Number(u64::from(header.old_def_version)),
            Token::Text(b",\"olddef_text\":\""),
            Token::Version(header.old_def_version),
        ],
    )
}

/// Prints the last version of a header, its date, and its counts.
#[tactic(auto, unfolding(crate::specs::Objects::header_counts))]
fn print_header_counts<W: Sink>(
    out: &mut W,
    page: &mut Page,
    header: Header,
) -> Result<(), StreamFault>
    ensures { Sends result (W.stream out.old) (W.stream out.new) page.old.items page.new.items (header_counts header) }
{
    print_tokens(
        out,
        page,
        &[
            Token::Text(b"\",\"oldimp\":"),
            Token::Number(u64::from(header.old_imp_version)),
            Token::Text(b",\"oldimp_text\":\""),
            Token::Version(header.old_imp_version),
            Token::Text(b"\",\"date\":"),
            Token::Number(u64::from(header.date_time_stamp)),
            Token::Text(b",\"date_text\":\""),
            Token::Date(header.date_time_stamp),
            Token::Text(b"\",\"sections\":"),
            Token::Number(u64::from(header.section_count)),
            Token::Text(b",\"instantiated\":"),
            Token::Number(u64::from(header.instantiated_section_count)),
            Token::Text(b",\"reserved\":"),
            Token::Number(u64::from(header.reserved)),
            Token::Text(b"}"),
        ],
    )
}

/// Prints a section.
pub fn print_section_object<W: Sink>(
    out: &mut W,
    page: &mut Page,
    row: SectionRow<'_>,
) -> Result<(), StreamFault>
    ensures { Sends result (W.stream out.old) (W.stream out.new) page.old.items page.new.items (section_object row.entry.at row.entry.header (option_map cut_seen row.entry.name) row.entry.raw) }
{
    print_section_codes(out, page, row)?;
    print_section_sizes(out, page, row)
}

/// Prints where a section's header is, its kind and its share.
#[tactic(auto, unfolding(crate::specs::Objects::section_codes))]
fn print_section_codes<W: Sink>(
    out: &mut W,
    page: &mut Page,
    row: SectionRow<'_>,
) -> Result<(), StreamFault>
    ensures { Sends result (W.stream out.old) (W.stream out.new) page.old.items page.new.items (section_codes row.entry.at row.entry.header) }
{
    let header = row.header;
    print_tokens(
        out,
        page,
        &[
            Token::Text(b"{\"offset\":"),
            Token::Number(row.at),
            Token::Text(b",\"kind\":"),
            Token::Number(u64::from(header.section_kind)),
            Token::Text(b",\"kind_text\":"),
            Token::Text(kind_text(header.kind())),
            Token::Text(b",\"share\":"),
            Token::Number(u64::from(header.share_kind)),
            Token::Text(b",\"share_text\":"),
            Token::Text(share_text(header.share())),
        ],
    )
}

/// Prints a section's sizes, where its bytes are, and its name.
#[tactic(auto, unfolding(crate::specs::Objects::section_sizes))]
fn print_section_sizes<W: Sink>(
    out: &mut W,
    page: &mut Page,
    row: SectionRow<'_>,
) -> Result<(), StreamFault>
    ensures { Sends result (W.stream out.old) (W.stream out.new) page.old.items page.new.items (section_sizes row.entry.header (option_map cut_seen row.entry.name) row.entry.raw) }
{
    let header = row.header;
    print_tokens(
        out,
        page,
        &[
            Token::Text(b",\"align\":"),
            Token::Number(u64::from(header.alignment)),
            Token::Text(b",\"total\":"),
            Token::Number(u64::from(header.total_size)),
            Token::Text(b",\"unpacked\":"),
            Token::Number(u64::from(header.unpacked_size)),
            Token::Text(b",\"packed\":"),
            Token::Number(u64::from(header.packed_size)),
            Token::Text(b",\"default\":"),
            Token::Number(u64::from(header.default_address)),
            Token::Text(b",\"raw\":"),
            Token::Number(row.raw),
            Token::Text(b","),
            Token::CutNameMember(b"name", row.name),
            Token::Text(b"}"),
        ],
    )
}

/// Prints a loader header.
#[tactic(auto, unfolding(crate::specs::Objects::loader_object))]
pub fn print_loader_object<W: Sink>(
    out: &mut W,
    page: &mut Page,
    row: LoaderRow,
) -> Result<(), StreamFault>
    ensures { Sends result (W.stream out.old) (W.stream out.new) page.old.items page.new.items (loader_object row.at row.header) }
{
    let header = row.header;
    print_tokens(
        out,
        page,
        &[
            Token::Text(b"{\"offset\":"),
            Token::Number(row.at),
            Token::Text(b",\"libraries\":"),
            Token::Number(u64::from(header.library_count)),
            Token::Text(b",\"imports\":"),
            Token::Number(u64::from(header.import_count)),
            Token::Text(b",\"relocations\":"),
            Token::Number(u64::from(header.reloc_count)),
            Token::Text(b",\"programs\":"),
            Token::Number(u64::from(header.reloc_instr_offset)),
            Token::Text(b",\"strings\":"),
            Token::Number(u64::from(header.strings_offset)),
            Token::Text(b",\"hash\":"),
            Token::Number(u64::from(header.export_hash_offset)),
            Token::Text(b",\"power\":"),
            Token::Number(u64::from(header.export_power)),
            Token::Text(b",\"exports\":"),
            Token::Number(u64::from(header.export_count)),
            Token::Text(b"}"),
        ],
    )
}

/// Prints an imported library.
pub fn print_library_object<W: Sink>(
    out: &mut W,
    page: &mut Page,
    row: LibraryRow<'_>,
) -> Result<(), StreamFault>
    ensures { Sends result (W.stream out.old) (W.stream out.new) page.old.items page.new.items (library_object row.entry.at (cut_library_seen row.entry.library)) }
{
    print_library_versions(out, page, row)?;
    print_library_imports(out, page, row.library.fields)
}

/// Prints the name and the versions of a library.
#[tactic(auto, unfolding(crate::specs::Objects::library_versions))]
fn print_library_versions<W: Sink>(
    out: &mut W,
    page: &mut Page,
    row: LibraryRow<'_>,
) -> Result<(), StreamFault>
    ensures { Sends result (W.stream out.old) (W.stream out.new) page.old.items page.new.items (library_versions row.entry.at (cut_library_seen row.entry.library)) }
{
    let fields = row.library.fields;
    let start = Joined(Verbatim(b"{\"offset\":"), Decimal(row.at));
    let name = Joined(
        Joined(start, Verbatim(b",")),
        CutNameMember(row.library.name),
    );
    let key = Joined(name, Verbatim(b",\"current\":"));
    let current = Joined(
        Joined(key, Decimal(u64::from(fields.current))),
        Verbatim(b",\"current_text\":\""),
    );
    let key = Joined(
        Joined(current, Version(fields.current)),
        Verbatim(b"\",\"oldimp\":"),
    );
    let old_imp = Joined(
        Joined(key, Decimal(u64::from(fields.old_imp))),
        Verbatim(b",\"oldimp_text\":\""),
    );
    Joined(old_imp, Version(fields.old_imp)).print(out, page)
}

/// Prints the options and the imports of a library.
#[tactic(auto, unfolding(crate::specs::Objects::library_imports))]
fn print_library_imports<W: Sink>(
    out: &mut W,
    page: &mut Page,
    fields: LibraryFields,
) -> Result<(), StreamFault>
    ensures { Sends result (W.stream out.old) (W.stream out.new) page.old.items page.new.items (library_imports fields) }
{
    let options = Joined(
        Verbatim(b"\",\"options\":"),
        Decimal(u64::from(fields.options)),
    );
    let first = Joined(
        Joined(options, Verbatim(b",\"first\":")),
        Decimal(u64::from(fields.first)),
    );
    let count = Joined(
        Joined(first, Verbatim(b",\"count\":")),
        Decimal(u64::from(fields.count)),
    );
    Joined(count, Verbatim(b"}")).print(out, page)
}

/// Prints an imported symbol.
#[tactic(auto, unfolding(crate::specs::Objects::import_object))]
pub fn print_import_object<W: Sink>(
    out: &mut W,
    page: &mut Page,
    row: ImportRow<'_>,
) -> Result<(), StreamFault>
    ensures { Sends result (W.stream out.old) (W.stream out.new) page.old.items page.new.items (import_object row.entry.at (cut_import_seen row.entry.import)) }
{
    let fields = row.import.fields;
    let start = Joined(Verbatim(b"{\"offset\":"), Decimal(row.at));
    let name = Joined(
        Joined(start, Verbatim(b",")),
        CutNameMember(row.import.name),
    );
    let library = Joined(
        Joined(name, Verbatim(b",\"library\":")),
        number_or_null(library_number(row.import.library)),
    );
    let class = Joined(
        Joined(library, Verbatim(b",\"class\":")),
        Decimal(u64::from(fields.class)),
    );
    let word = Joined(class, Verbatim(class_member(fields.class())));
    let weak = Joined(
        Joined(word, Verbatim(b",\"weak\":")),
        Verbatim(truth(fields.weak)),
    );
    Joined(weak, Verbatim(b"}")).print(out, page)
}

/// Returns the number of an import's library.
fn library_number(library: Option<usize>) -> Option<u64>
    ensures { result ≡ library }
{
    match library {
        Some(number) => Some(number as u64),
        None => None,
    }
}

/// Prints an entry point, or `null` if the section is -1.
#[tactic(auto, unfolding(crate::specs::Objects::entry_object))]
pub fn print_entry_object<W: Sink>(
    out: &mut W,
    page: &mut Page,
    label: &[u8],
    row: EntryRow,
) -> Result<(), StreamFault>
    ensures { Sends result (W.stream out.old) (W.stream out.new) page.old.items page.new.items (entry_object label.now row.at row.section row.offset) }
{
    if is_none_entry(row.section) {
        return print_tokens(out, page, &[Token::Text(label), Token::Text(b"null")]);
    }
    print_tokens(
        out,
        page,
        &[
            Token::Text(label),
            Token::Text(b"{\"offset\":"),
            Token::Number(row.at),
            Token::Text(b",\"section\":"),
            Token::Text(sign(row.section)),
            Token::Number(magnitude(row.section)),
            Token::Text(b",\"value\":"),
            Token::Number(u64::from(row.offset)),
            Token::Text(b"}"),
        ],
    )
}

/// Prints an exported symbol.
#[tactic(auto, unfolding(crate::specs::Objects::export_object))]
pub fn print_export_object<W: Sink>(
    out: &mut W,
    page: &mut Page,
    row: ExportRow<'_>,
) -> Result<(), StreamFault>
    ensures { Sends result (W.stream out.old) (W.stream out.new) page.old.items page.new.items (export_object row.entry.at (cut_export_seen row.entry.export)) }
{
    let fields = row.export.fields;
    let start = Joined(Verbatim(b"{\"offset\":"), Decimal(row.at));
    let name = Joined(
        Joined(start, Verbatim(b",")),
        CutNameMember(row.export.name),
    );
    let class = Joined(
        Joined(name, Verbatim(b",\"class\":")),
        Decimal(u64::from(fields.class)),
    );
    let word = Joined(class, Verbatim(class_member(fields.class())));
    let sign = Joined(
        Joined(word, Verbatim(b",\"section\":")),
        Verbatim(sign(fields.section)),
    );
    let section = Joined(sign, Decimal(magnitude(fields.section)));
    let value = Joined(
        Joined(section, Verbatim(b",\"value\":")),
        Decimal(u64::from(fields.value)),
    );
    Joined(value, Verbatim(b"}")).print(out, page)
}

/// Prints a comma, but not before the first element of a list.
pub fn print_separator<W: Sink>(
    out: &mut W,
    page: &mut Page,
    is_first: bool,
) -> Result<(), StreamFault>
    ensures { Sends result (W.stream out.old) (W.stream out.new) page.old.items page.new.items (separator is_first) }
{
    send(out, page, if is_first { b"" } else { b"," })
}
