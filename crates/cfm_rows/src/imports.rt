//! The imports of a prepared fragment as objects of JSON.
ghost use Rattle.std.specs.Prelude.{◌≡◌, ◌++◌, option_map};
ghost use Rattle.pef_format.specs.Symbols.{import_seen};
ghost use Rattle.pef_loader.specs.PartialViews.{cut_seen};
ghost use Rattle.pef_loader.specs.Views.{loaded};
ghost use Rattle.pef_ports.specs.Sent.{Sends};
ghost use Rattle.pef_rows.specs.Objects.{separator};
ghost use Rattle.cfm_rows.specs.Imports.{address_in, import_element, import_elements, import_is, import_object, loader_imports, library_name, meant_address, whole_name};
ghost use Rattle.cfm_rows.specs.Views.{import_row_seen};

use crate::entries::address_or_null;
use crate::place::FragmentPlace;
use cfm_prepare::{Context, ImportTarget};
use pef_format::{ImportFields, ImportView};
use pef_loader::{CutName, ImportReader, Loader};
use pef_ports::{Page, Sink, StreamFault, send};
use pef_rows::{Token, class_member, print_separator, print_tokens, truth};

/// An import with the name of its library, and the address that it means.
#[derive(Clone, Copy)]
pub(crate) struct ImportRow<'a> {
    pub name: &'a [u8],
    pub library: &'a [u8],
    pub fields: ImportFields,
    pub address: Option<u32>,
}

/// Prints the imports of a fragment of a connection's closure, with commas between them. It has this loader section.
pub(crate) fn print_imports<W: Sink>(
    out: &mut W,
    page: &mut Page,
    context: &Context<'_>,
    place: FragmentPlace,
    loader: Option<Loader<'_>>,
) -> Result<(), StreamFault>
    ensures { Sends result (W.stream out.old) (W.stream out.new) page.old.items page.new.items (loader_imports context.now place.connection.0 place.position (option_map loaded loader.entry)) }
{
    match loader {
        Some(loader) => print_rows(out, page, context, place, loader),
        None => send(out, page, b""),
    }
}

/// Prints the imports of a loader section, which is that of a fragment.
fn print_rows<W: Sink>(
    out: &mut W,
    page: &mut Page,
    context: &Context<'_>,
    place: FragmentPlace,
    loader: Loader<'_>,
) -> Result<(), StreamFault>
    ensures { Sends result (W.stream out.old) (W.stream out.new) page.old.items page.new.items (import_elements context.now place.connection.0 place.position (loaded loader.entry) 0 (loaded loader.entry).header.import_count) }
{
    let mut imports = ImportReader::new(loader);
    for j in 0..loader.imports() {
        let address = address_of(context, place, j);
        let import = import_row(&loader, imports.import(j), address);
        print_row(out, page, j == 0, import)?;
    }
    Ok(())
}

/// Returns the address of what an import of a fragment means, if it isn't missing.
fn address_of(context: &Context<'_>, place: FragmentPlace, j: usize) -> Option<u32>
    ensures { result ≡ address_in context.now place.connection.0 place.position j }
{
    meant_address(context.import_target(place.connection, place.position, j))
}

/// Returns the address of what an import means, if it isn't missing.
fn meant_address(target: Option<ImportTarget>) -> Option<u32>
    ensures { result ≡ meant_address target }
{
    let meant = target?;
    match meant.target {
        Some(_) => Some(meant.address),
        None => None,
    }
}

/// Returns an import with the name of its library and the address that it means.
fn import_row<'a>(
    loader: &Loader<'a>,
    import: Option<ImportView<'a>>,
    address: Option<u32>,
) -> Option<ImportRow<'a>>
    ensures { option_map import_row_seen result ≡ import_is (loaded loader.now) address (option_map import_seen import.entry) }
{
    let import = import?;
    Some(ImportRow {
        name: import.name,
        library: library_name(loader, import.library),
        fields: import.fields,
        address,
    })
}

/// Returns the name of a library.
fn library_name<'a>(loader: &Loader<'a>, i: usize) -> &'a [u8]
    ensures { result.now ≡ library_name (loaded loader.now) i }
{
    match loader.library(i) {
        Some(library) => library.name,
        None => b"",
    }
}

/// Prints an import that was read after a comma, unless it is the first.
fn print_row<W: Sink>(
    out: &mut W,
    page: &mut Page,
    is_first: bool,
    import: Option<ImportRow<'_>>,
) -> Result<(), StreamFault>
    ensures { Sends result (W.stream out.old) (W.stream out.new) page.old.items page.new.items (import_element is_first (option_map import_row_seen import.entry)) }
{
    match import {
        Some(import) => print_next(out, page, is_first, import),
        None => send(out, page, b""),
    }
}

/// Prints an import that is there.
fn print_next<W: Sink>(
    out: &mut W,
    page: &mut Page,
    is_first: bool,
    import: ImportRow<'_>,
) -> Result<(), StreamFault>
    ensures { Sends result (W.stream out.old) (W.stream out.new) page.old.items page.new.items (separator is_first ++ import_object (import_row_seen import.entry)) }
{
    print_separator(out, page, is_first)?;
    print_import(out, page, import)
}

/// Prints an import.
#[tactic(auto, unfolding(crate::specs::Imports::import_object))]
fn print_import<W: Sink>(
    out: &mut W,
    page: &mut Page,
    import: ImportRow<'_>,
) -> Result<(), StreamFault>
    ensures { Sends result (W.stream out.old) (W.stream out.new) page.old.items page.new.items (import_object (import_row_seen import.entry)) }
{
    let fields = import.fields;
    print_tokens(
        out,
        page,
        &[
            Token::Text(b"{"),
            Token::CutNameMember(b"name", Some(whole_name(import.name))),
            Token::Text(b","),
            Token::CutNameMember(b"library", Some(whole_name(import.library))),
            Token::Text(b",\"class\":"),
            Token::Number(u64::from(fields.class)),
            Token::Text(class_member(fields.class())),
            Token::Text(b",\"weak\":"),
            Token::Text(truth(fields.weak)),
            Token::Text(b",\"address\":"),
            address_or_null(import.address),
            Token::Text(b"}"),
        ],
    )
}

/// Returns a name that is known to its end.
pub(crate) fn whole_name<'a>(name: &'a [u8]) -> CutName<'a>
    ensures { cut_seen result ≡ whole_name name.entry.now }
{
    CutName {
        bytes: name,
        whole: true,
    }
}
