//! Prepared fragments as objects of JSON, each on a line of its own.
ghost use Rattle.std.specs.Prelude.{◌≡◌, option_map};
ghost use Rattle.std.specs.Option.{option_copied};
ghost use Rattle.pef_loader.specs.Views.{loaded};
ghost use Rattle.pef_ports.specs.Sent.{Sends};
ghost use Rattle.cfm_rows.specs.Fragments.{fragment_front, front_of_file, front_of_stub, fragment_object, loader_members};
ghost use Rattle.cfm_rows.specs.Imports.{loader_in};
ghost use Rattle.cfm_rows.specs.Sections.{bytes_shown};

use crate::entries::print_entries;
use crate::exports::print_exports;
use crate::imports::print_imports;
use crate::place::FragmentPlace;
use crate::relocations::print_relocations;
use crate::sections::{SectionBytes, print_sections};
use cfm_files::name_of;
use cfm_prepare::{Connection, Context};
use pef_loader::Loader;
use pef_ports::{Page, Sink, StreamFault, send};
use pef_rows::{Token, print_tokens};

/// A fragment of a connection's closure, and what is printed of it beside what its context has.
#[derive(Clone, Copy, Debug)]
pub struct FragmentRow<'a> {
    /// Its place in the store.
    pub position: usize,
    /// The path of the file that it comes from, or `None` for a stub.
    pub source: Option<&'a [u8]>,
    /// What is printed of the bytes of its sections.
    pub bytes: SectionBytes<'a>,
}

/// Prints a fragment of a connection's closure: its name and its file, its sections, imports and exports, the words that are relocated,
/// and its entry points.
pub fn print_fragment_object<W: Sink>(
    out: &mut W,
    page: &mut Page,
    context: &Context<'_>,
    connection: Connection,
    row: FragmentRow<'_>,
) -> Result<(), StreamFault>
    ensures { Sends result (W.stream out.old) (W.stream out.new) page.old.items page.new.items (fragment_object context.now connection.0 row.entry.position (option_copied row.entry.source) (bytes_shown row.entry.bytes)) }
{
    let place = FragmentPlace {
        connection,
        position: row.position,
    };
    print_front(out, page, name_of(context, row.position), row.source)?;
    print_sections(out, page, context, place, row.bytes)?;
    print_loader_members(out, page, context, place)?;
    print_entries(
        out,
        page,
        context.fragment_entries(connection, row.position),
    )?;
    send(out, page, b"}\n")
}

/// Prints a fragment's name, and the file that it comes from.
fn print_front<'t, W: Sink>(
    out: &mut W,
    page: &mut Page,
    name: &'t [u8],
    source: Option<&'t [u8]>,
) -> Result<(), StreamFault>
    ensures { Sends result (W.stream out.old) (W.stream out.new) page.old.items page.new.items (fragment_front name.now (option_copied source.entry)) }
{
    match source {
        Some(path) => print_front_of_file(out, page, name, path),
        None => print_front_of_stub(out, page, name),
    }
}

/// Prints the name of a fragment, and the path of its file.
#[tactic(auto, unfolding(crate::specs::Fragments::front_of_file))]
fn print_front_of_file<'t, W: Sink>(
    out: &mut W,
    page: &mut Page,
    name: &'t [u8],
    path: &'t [u8],
) -> Result<(), StreamFault>
    ensures { Sends result (W.stream out.old) (W.stream out.new) page.old.items page.new.items (front_of_file name.now path.now) }
{
    print_tokens(
        out,
        page,
        &[
            Token::Text(b"{"),
            Token::NameMember(b"fragment", Some(name)),
            Token::Text(b",\"source\":"),
            Token::Unicode(path),
            Token::Text(b",\"source_bytes\":\""),
            Token::Path(path),
            Token::Text(b"\",\"is_stub\":false,\"sections\":["),
        ],
    )
}

/// Prints the name of a stub.
#[tactic(auto, unfolding(crate::specs::Fragments::front_of_stub))]
fn print_front_of_stub<W: Sink>(
    out: &mut W,
    page: &mut Page,
    name: &[u8],
) -> Result<(), StreamFault>
    ensures { Sends result (W.stream out.old) (W.stream out.new) page.old.items page.new.items (front_of_stub name.now) }
{
    print_tokens(
        out,
        page,
        &[
            Token::Text(b"{"),
            Token::NameMember(b"fragment", Some(name)),
            Token::Text(b",\"source\":null,\"source_bytes\":null,\"is_stub\":true,\"sections\":["),
        ],
    )
}

/// Prints a fragment's imports and exports, and the words that are relocated.
#[tactic(auto, unfolding(crate::specs::Fragments::loader_members))]
fn print_loader_members<W: Sink>(
    out: &mut W,
    page: &mut Page,
    context: &Context<'_>,
    place: FragmentPlace,
) -> Result<(), StreamFault>
    ensures { Sends result (W.stream out.old) (W.stream out.new) page.old.items page.new.items (loader_members context.now place.connection.0 place.position) }
{
    let loader = loader_of(context, place);
    send(out, page, b"],\"imports\":[")?;
    print_imports(out, page, context, place, loader)?;
    send(out, page, b"],\"exports\":[")?;
    print_exports(out, page, context, place, loader)?;
    send(out, page, b"],\"relocations\":[")?;
    print_relocations(out, page, loader)?;
    send(out, page, b"],\"entries\":")
}

/// Returns the loader section of a fragment.
fn loader_of<'a>(context: &Context<'a>, place: FragmentPlace) -> Option<Loader<'a>>
    ensures { option_map loaded result ≡ loader_in context.now place.connection.0 place.position }
{
    context.fragment_loader(place.connection, place.position)
}
