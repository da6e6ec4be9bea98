//! The exports of a prepared fragment as objects of JSON.
ghost use Rattle.std.specs.Prelude.{◌≡◌, ◌++◌, option_map};
ghost use Rattle.cfm_prepare.specs.FragmentExports.{placed_seen};
ghost use Rattle.pef_loader.specs.Views.{loaded};
ghost use Rattle.pef_ports.specs.Sent.{Sends};
ghost use Rattle.pef_rows.specs.Objects.{separator};
ghost use Rattle.cfm_rows.specs.Exports.{export_address, export_element, export_elements, export_object, loader_exports};

use crate::entries::address_or_null;
use crate::imports::whole_name;
use crate::place::FragmentPlace;
use cfm_prepare::{Context, FragmentExport};
use pef_loader::Loader;
use pef_ports::{Page, Sink, StreamFault, send};
use pef_rows::{Token, class_member, print_separator, print_tokens};

/// Prints the exports of a fragment of a connection's closure, with commas between them. It has this loader section.
pub(crate) fn print_exports<W: Sink>(
    out: &mut W,
    page: &mut Page,
    context: &Context<'_>,
    place: FragmentPlace,
    loader: Option<Loader<'_>>,
) -> Result<(), StreamFault>
    ensures { Sends result (W.stream out.old) (W.stream out.new) page.old.items page.new.items (loader_exports context.now place.connection.0 place.position (option_map loaded loader.entry)) }
{
    match loader {
        Some(loader) => print_rows(out, page, context, place, &loader),
        None => send(out, page, b""),
    }
}

/// Prints as many exports of a fragment as its loader section has.
fn print_rows<W: Sink>(
    out: &mut W,
    page: &mut Page,
    context: &Context<'_>,
    place: FragmentPlace,
    loader: &Loader<'_>,
) -> Result<(), StreamFault>
    ensures { Sends result (W.stream out.old) (W.stream out.new) page.old.items page.new.items (export_elements context.now place.connection.0 place.position 0 (loaded loader.now).header.export_count) }
{
    for i in 0..loader.exports() {
        let export = context.fragment_export(place.connection, place.position, i);
        print_row(out, page, i == 0, export)?;
    }
    Ok(())
}

/// Prints an export that was read after a comma, unless it is the first.
fn print_row<W: Sink>(
    out: &mut W,
    page: &mut Page,
    is_first: bool,
    export: Option<FragmentExport<'_>>,
) -> Result<(), StreamFault>
    ensures { Sends result (W.stream out.old) (W.stream out.new) page.old.items page.new.items (export_element is_first (option_map placed_seen export.entry)) }
{
    match export {
        Some(export) => print_next(out, page, is_first, export),
        None => send(out, page, b""),
    }
}

/// Prints an export that is there.
fn print_next<W: Sink>(
    out: &mut W,
    page: &mut Page,
    is_first: bool,
    export: FragmentExport<'_>,
) -> Result<(), StreamFault>
    ensures { Sends result (W.stream out.old) (W.stream out.new) page.old.items page.new.items (separator is_first ++ export_object (placed_seen export.entry)) }
{
    print_separator(out, page, is_first)?;
    print_export(out, page, export)
}

/// Prints an export.
#[tactic(auto, unfolding(crate::specs::Exports::export_object))]
fn print_export<W: Sink>(
    out: &mut W,
    page: &mut Page,
    export: FragmentExport<'_>,
) -> Result<(), StreamFault>
    ensures { Sends result (W.stream out.old) (W.stream out.new) page.old.items page.new.items (export_object (placed_seen export.entry)) }
{
    let fields = export.export.fields;
    print_tokens(
        out,
        page,
        &[
            Token::Text(b"{"),
            Token::CutNameMember(b"name", Some(whole_name(export.export.name))),
            Token::Text(b",\"class\":"),
            Token::Number(u64::from(fields.class)),
            Token::Text(class_member(fields.class())),
            Token::Text(b",\"address\":"),
            address_or_null(export_address(export)),
            Token::Text(b"}"),
        ],
    )
}

/// Returns the address of an export; none if it passes on an import that is missing.
fn export_address(export: FragmentExport<'_>) -> Option<u32>
    ensures { result ≡ export_address (placed_seen export.entry) }
{
    match export.target {
        Some(_) => Some(export.address),
        None => None,
    }
}
