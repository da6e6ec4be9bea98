//! Prints a connection whose store has stubs: as lines, or as objects of JSON.
ghost use Rattle.std.specs.Prelude.{◌≡◌, map, option_map, slice_get};
ghost use Rattle.std.specs.Option.{option_copied};
ghost use Rattle.cfm_rows.specs.Fragments.{fragment_object};
ghost use Rattle.pef_ports.specs.Sent.{Sends};
ghost use Rattle.pef_gather.specs.Seen.{found_seen};
ghost use Rattle.cfm_rows.specs.Sections.{bytes_shown};
ghost use Rattle.pef_request.specs.Requests.{form_of};
ghost use Rattle.pef_tool.specs.Answers.Answers.{answer_done};
ghost use Rattle.pef_tool.specs.Supplied.{fragment_objects, lines_text, objects_text, prepared_text, source_of, source_text, sources_text, stub_objects, stubs_text};

use crate::answers::{Outcome, Reply};
use crate::loaded::{Loaded, order_of, print_loaded};
use cfm_rows::{
    FragmentRow, SectionBytes, print_fragment_object, print_source_line, print_stub_lines,
    print_stub_object,
};
use cfm_stubs::Stub;
use pef_gather::Found;
use pef_ports::{Page, Sink, StreamFault};
use pef_request::PreparedForm;

/// A connection to a fragment of some files, with the stubs of the libraries that these lack, and how it is printed.
#[derive(Drop)]
pub struct Supplied<'r, 'a> {
    pub loaded: Loaded<'r>,
    /// The fragments of files, which the store has in these places.
    pub found: &'r [Found<'a>],
    /// The stubs, which follow them in the store.
    pub stubs: &'r [Stub<'a>],
    pub form: PreparedForm<'r>,
}

impl<'r, 'a> Reply for Supplied<'r, 'a> {
    ghost answer = { λ s. answer_done (prepared_text (form_of s.form) s.loaded.context s.loaded.connection.0 (map found_seen s.found.now) s.stubs.now) };

    fn outcome(&self) -> Outcome {
        Outcome::Done
    }

    fn print<W: Sink>(&self, out: &mut W, page: &mut Page) -> Result<(), StreamFault> {
        match self.form {
            PreparedForm::Lines => print_lines(out, page, self),
            PreparedForm::Json => print_objects(out, page, self, SectionBytes::Omitted),
            PreparedForm::JsonWithBytes => print_objects(out, page, self, SectionBytes::Encoded),
            PreparedForm::JsonWithFiles { folder } => {
                let folder = folder.as_bytes();
                print_objects(out, page, self, SectionBytes::Filed { folder })
            }
        }
    }
}

/// Prints the lines of a connection: its memory, the stubs, and the files that the fragments come from.
fn print_lines<W: Sink>(
    out: &mut W,
    page: &mut Page,
    shown: &Supplied<'_, '_>,
) -> Result<(), StreamFault>
    ensures { Sends result (W.stream out.old) (W.stream out.new) page.old.items page.new.items (lines_text shown.now.loaded.context shown.now.loaded.connection.0 (map found_seen shown.now.found.now) shown.now.stubs.now) }
{
    print_loaded(out, page, &shown.loaded)?;
    print_stubs(out, page, shown.stubs)?;
    let order = order_of(&shown.loaded.context, shown.loaded.connection);
    print_sources(out, page, shown.found, order)
}

/// Prints the lines of stubs, each with those of its symbols.
fn print_stubs<W: Sink>(out: &mut W, page: &mut Page, stubs: &[Stub<'_>]) -> Result<(), StreamFault>
    ensures { Sends result (W.stream out.old) (W.stream out.new) page.old.items page.new.items (stubs_text stubs.now) }
{
    for stub in stubs {
        print_stub_lines(out, page, stub)?;
    }
    Ok(())
}

/// Prints the files that some fragments come from, by their places in the store. Stubs come from none.
fn print_sources<W: Sink>(
    out: &mut W,
    page: &mut Page,
    found: &[Found<'_>],
    order: &[usize],
) -> Result<(), StreamFault>
    ensures { Sends result (W.stream out.old) (W.stream out.new) page.old.items page.new.items (sources_text (map found_seen found.now) order.now) }
{
    for place in order {
        print_source(out, page, found, *place)?;
    }
    Ok(())
}

/// Prints the file that the fragment in a place comes from, if it comes from one.
fn print_source<W: Sink>(
    out: &mut W,
    page: &mut Page,
    found: &[Found<'_>],
    place: usize,
) -> Result<(), StreamFault>
    ensures { Sends result (W.stream out.old) (W.stream out.new) page.old.items page.new.items (source_text (slice_get (map found_seen found.now) place)) }
{
    match found_at(found, place) {
        Some(fragment) => print_source_line(out, page, fragment.candidate.name, fragment.path),
        None => Ok(()),
    }
}

/// Returns the fragment of a file in a place of the store. Stubs come after them.
fn found_at<'a>(found: &[Found<'a>], place: usize) -> Option<Found<'a>>
    ensures { option_map found_seen result ≡ slice_get (map found_seen found.now) place }
{
    match found.get(place) {
        Some(fragment) => Some(*fragment),
        None => None,
    }
}

/// Prints the objects of a connection: one for each fragment, and then one for each stub.
fn print_objects<W: Sink>(
    out: &mut W,
    page: &mut Page,
    shown: &Supplied<'_, '_>,
    bytes: SectionBytes<'_>,
) -> Result<(), StreamFault>
    ensures { Sends result (W.stream out.old) (W.stream out.new) page.old.items page.new.items (objects_text (bytes_shown bytes.entry) shown.now.loaded.context shown.now.loaded.connection.0 (map found_seen shown.now.found.now) shown.now.stubs.now) }
{
    let order = order_of(&shown.loaded.context, shown.loaded.connection);
    print_fragment_objects(out, page, shown, order, bytes)?;
    print_stub_objects(out, page, shown.stubs)
}

/// Prints the objects of a connection's fragments in some places.
fn print_fragment_objects<W: Sink>(
    out: &mut W,
    page: &mut Page,
    shown: &Supplied<'_, '_>,
    order: &[usize],
    bytes: SectionBytes<'_>,
) -> Result<(), StreamFault>
    ensures { Sends result (W.stream out.old) (W.stream out.new) page.old.items page.new.items (fragment_objects (bytes_shown bytes.entry) shown.now.loaded.context shown.now.loaded.connection.0 (map found_seen shown.now.found.now) order.now) }
{
    for place in order {
        print_fragment(out, page, shown, *place, bytes)?;
    }
    Ok(())
}

/// Prints the object of the fragment in a place.
fn print_fragment<W: Sink>(
    out: &mut W,
    page: &mut Page,
    shown: &Supplied<'_, '_>,
    place: usize,
    bytes: SectionBytes<'_>,
) -> Result<(), StreamFault>
    ensures { Sends result (W.stream out.old) (W.stream out.new) page.old.items page.new.items (fragment_object shown.now.loaded.context shown.now.loaded.connection.0 place (source_of (map found_seen shown.now.found.now) place) (bytes_shown bytes.entry)) }
{
    let loaded = &shown.loaded;
    let row = FragmentRow {
        position: place,
        source: source_of(shown.found, place),
        bytes,
    };
    print_fragment_object(out, page, &loaded.context, loaded.connection, row)
}

/// Returns the path of the file that the fragment in a place comes from, if it comes from one.
fn source_of<'a>(found: &[Found<'a>], place: usize) -> Option<&'a [u8]>
    ensures { option_copied result ≡ source_of (map found_seen found.now) place }
{
    match found_at(found, place) {
        Some(fragment) => Some(fragment.path),
        None => None,
    }
}

/// Prints the objects of stubs.
fn print_stub_objects<W: Sink>(
    out: &mut W,
    page: &mut Page,
    stubs: &[Stub<'_>],
) -> Result<(), StreamFault>
    ensures { Sends result (W.stream out.old) (W.stream out.new) page.old.items page.new.items (stub_objects stubs.now) }
{
    for stub in stubs {
        print_stub_object(out, page, stub)?;
    }
    Ok(())
}
