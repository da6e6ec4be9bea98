//! Readers of a context: which fragments a connection has, and what these have in memory. They write only into
//! the caller's memory.
ghost use Rattle.std.specs.Prelude.{◌≡◌, Some, length, option_map};
ghost use Rattle.std.specs.Option.{option_and_then, option_copied};
ghost use Rattle.cfm_store.specs.Stores.{name_at};
ghost use Rattle.cfm_prepare.specs.Contexts.{open_of};
ghost use Rattle.cfm_prepare.specs.Fragments.{places_of};
ghost use Rattle.cfm_prepare.specs.Readers.{entries_of, has_present, symbol_of};
ghost use Rattle.cfm_prepare.specs.Sections.{section_present};
ghost use Rattle.pef_c.specs.Contexts.Context.{held};
ghost use Rattle.pef_c.specs.Contexts.Reading.{CopyAnswers, ReadAnswers, entries_given, fragment_section_of};

use crate::contexts::handle::{PefContext, put, take};
use cfm_prepare::{Connection, Context, Entries};
use pef_records::{NOT_OPEN, NOT_THERE, PefEntries, PefFragmentSection, copy_answer, given};
use std::alloc::Global;

/// Copies the fragments of a connection's closure to the front of `buffer`, in closure order.
///
/// Returns 0, or 200 if the buffer is too small, or 201 if the connection isn't open, or 202 if the context isn't.
#[unsafe(no_mangle)]
pub extern "C" fn pef_fragments(
    alloc: Global,
    context: &mut PefContext,
    connection: u32,
    buffer: &mut [usize],
    count: &mut usize,
) -> u32
    ensures same { held context.new ≡ held context.old }
    ensures copied { CopyAnswers (λ s. option_map (λ o. o.closed.order) (open_of s.connections connection)) (held context.old) buffer.old buffer.new count.old count.new result }
{
    let Some(boxed) = take(alloc, context) else {
        return NOT_OPEN;
    };
    let answer = copy_answer(boxed.fragments(Connection(connection)), buffer, count);
    put(context, boxed);
    answer
}

/// Copies the fragments of a connection's closure to the front of `buffer`, in the order of their initialization.
///
/// Returns the same numbers as `pef_fragments`.
#[unsafe(no_mangle)]
pub extern "C" fn pef_init_order(
    alloc: Global,
    context: &mut PefContext,
    connection: u32,
    buffer: &mut [usize],
    count: &mut usize,
) -> u32
    ensures same { held context.new ≡ held context.old }
    ensures copied { CopyAnswers (λ s. option_map (λ o. o.closed.init_order) (open_of s.connections connection)) (held context.old) buffer.old buffer.new count.old count.new result }
{
    let Some(boxed) = take(alloc, context) else {
        return NOT_OPEN;
    };
    let answer = copy_answer(boxed.init_order(Connection(connection)), buffer, count);
    put(context, boxed);
    answer
}

/// Reads the name of a fragment.
///
/// Returns 0, or 201 if no fragment has this number, or 202 if the context isn't open.
#[unsafe(no_mangle)]
pub extern "C" fn pef_fragment_name(
    alloc: Global,
    context: &mut PefContext,
    fragment: usize,
    name: &mut &'static [u8],
) -> u32
    ensures same { held context.new ≡ held context.old }
    ensures read { ReadAnswers (λ s. name_at s.pairs fragment) (held context.old) name.old.now name.new.now result }
{
    let Some(boxed) = take(alloc, context) else {
        return NOT_OPEN;
    };
    let answer = match boxed.name(fragment) {
        Some(found) => {
            *name = found;
            0
        }
        None => NOT_THERE,
    };
    put(context, boxed);
    answer
}

/// Tells whether the fragment with this name is present: not if there is none.
///
/// Returns 0, or 202 if the context isn't open.
#[unsafe(no_mangle)]
pub extern "C" fn pef_is_present(
    alloc: Global,
    context: &mut PefContext,
    name: &[u8],
    is_present: &mut bool,
) -> u32
    ensures same { held context.new ≡ held context.old }
    ensures read { ReadAnswers (λ s. Some (has_present s name.now)) (held context.old) is_present.old is_present.new result }
{
    let Some(boxed) = take(alloc, context) else {
        return NOT_OPEN;
    };
    *is_present = boxed.is_present(given(name));
    put(context, boxed);
    0
}

/// Counts the sections that a fragment has in memory: none if it isn't present.
///
/// Returns 0, or 202 if the context isn't open.
#[unsafe(no_mangle)]
pub extern "C" fn pef_fragment_sections(
    alloc: Global,
    context: &mut PefContext,
    fragment: usize,
    count: &mut usize,
) -> u32
    ensures same { held context.new ≡ held context.old }
    ensures read { ReadAnswers (λ s. Some (length (places_of s.present fragment))) (held context.old) count.old count.new result }
{
    let Some(boxed) = take(alloc, context) else {
        return NOT_OPEN;
    };
    *count = boxed.section_count(fragment);
    put(context, boxed);
    0
}

/// Reads the address, size, kind and share of section `index` of a fragment of a connection's closure.
///
/// Returns 0, or 201 if there is no such section, or 202 if the context isn't open.
#[unsafe(no_mangle)]
pub extern "C" fn pef_fragment_section(
    alloc: Global,
    context: &mut PefContext,
    connection: u32,
    fragment: usize,
    index: usize,
    section: &mut PefFragmentSection,
) -> u32
    ensures same { held context.new ≡ held context.old }
    ensures read { ReadAnswers (λ s. fragment_section_of s connection fragment index) (held context.old) section.old section.new result }
{
    let Some(boxed) = take(alloc, context) else {
        return NOT_OPEN;
    };
    let answer = match section_in(&boxed, Connection(connection), fragment, index) {
        Some(found) => {
            *section = found;
            0
        }
        None => NOT_THERE,
    };
    put(context, boxed);
    answer
}

/// Returns what a context that is open has of a section of a fragment: its place, its kind and its share.
fn section_in(
    context: &Context<'_>,
    connection: Connection,
    fragment: usize,
    index: usize,
) -> Option<PefFragmentSection>
    ensures { result ≡ fragment_section_of context.now connection.0 fragment index }
{
    let (address, bytes) = context.fragment_section(fragment, index)?;
    let header = context.fragment_section_header(connection, fragment, index)?;
    Some(PefFragmentSection {
        address,
        size: bytes.len(),
        kind: header.section_kind,
        share: header.share_kind,
    })
}

/// Copies the bytes of section `index` of a fragment that is present to the front of `buffer`.
///
/// Returns 0, or 200 if the buffer is too small, or 201 if there is no such section, or 202 if the context isn't
/// open.
#[unsafe(no_mangle)]
pub extern "C" fn pef_fragment_bytes(
    alloc: Global,
    context: &mut PefContext,
    fragment: usize,
    index: usize,
    buffer: &mut [u8],
    written: &mut usize,
) -> u32
    ensures same { held context.new ≡ held context.old }
    ensures copied { CopyAnswers (λ s. option_map (λ m. m.1) (section_present s.memory s.present fragment index)) (held context.old) buffer.old buffer.new written.old written.new result }
{
    let Some(boxed) = take(alloc, context) else {
        return NOT_OPEN;
    };
    let answer = copy_answer(bytes_in(&boxed, fragment, index), buffer, written);
    put(context, boxed);
    answer
}

/// Returns the bytes of section `index` of a fragment that is present.
fn bytes_in<'a>(context: &'a Context<'_>, fragment: usize, index: usize) -> Option<&'a [u8]>
    ensures { option_copied result ≡ option_map (λ m. m.1) (section_present context.now.memory context.now.present fragment index) }
{
    let (_, bytes) = context.fragment_section(fragment, index)?;
    Some(bytes)
}

/// Reads the addresses of the entry points of a fragment of a connection's closure.
///
/// Returns 0, or 201 if the closure lacks the fragment, or 202 if the context isn't open.
#[unsafe(no_mangle)]
pub extern "C" fn pef_fragment_entries(
    alloc: Global,
    context: &mut PefContext,
    connection: u32,
    fragment: usize,
    entries: &mut PefEntries,
) -> u32
    ensures same { held context.new ≡ held context.old }
    ensures read { ReadAnswers (λ s. option_map entries_given (option_and_then (λ o. entries_of s.present o fragment) (open_of s.connections connection))) (held context.old) entries.old entries.new result }
{
    let Some(boxed) = take(alloc, context) else {
        return NOT_OPEN;
    };
    let answer = match boxed.fragment_entries(Connection(connection), fragment) {
        Some(found) => {
            *entries = entries_given(found);
            0
        }
        None => NOT_THERE,
    };
    put(context, boxed);
    answer
}

/// Returns the entry points as C sees them.
fn entries_given(entries: Entries) -> PefEntries
    ensures { result ≡ entries_given entries }
{
    PefEntries {
        init: entries.init.unwrap_or(0),
        main: entries.main.unwrap_or(0),
        term: entries.term.unwrap_or(0),
        has_init: entries.init.is_some(),
        has_main: entries.main.is_some(),
        has_term: entries.term.is_some(),
    }
}

/// Reads the address of the first export with this name of a fragment of a connection's closure.
///
/// Returns 0, or 201 if there is none, or 202 if the context isn't open.
#[unsafe(no_mangle)]
pub extern "C" fn pef_fragment_symbol(
    alloc: Global,
    context: &mut PefContext,
    connection: u32,
    fragment: usize,
    name: &[u8],
    address: &mut u32,
) -> u32
    ensures same { held context.new ≡ held context.old }
    ensures read { ReadAnswers (λ s. option_and_then (λ o. symbol_of s.present o fragment name.now) (open_of s.connections connection)) (held context.old) address.old address.new result }
{
    let Some(boxed) = take(alloc, context) else {
        return NOT_OPEN;
    };
    let answer = match boxed.fragment_symbol(Connection(connection), fragment, given(name)) {
        Some(found) => {
            *address = found;
            0
        }
        None => NOT_THERE,
    };
    put(context, boxed);
    answer
}
