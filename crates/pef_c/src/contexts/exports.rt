//! Readers of a fragment's exports, each with what it means, and of its imports by their names. They use what the context keeps of
//! the fragment, so the time of one by its number doesn't depend on how many there are. They write only into the caller's memory.
ghost use Rattle.std.specs.Prelude.{◌≡◌, option_map};
ghost use Rattle.cfm_prepare.specs.FragmentExports.{placed_seen};
ghost use Rattle.pef_c.specs.Contexts.Context.{held};
ghost use Rattle.pef_c.specs.Contexts.Exports.{export_row, export_row_of, export_shown, exports_of, import_of, import_passed, is_passed, named_row_of};
ghost use Rattle.pef_c.specs.Contexts.Reading.{ReadAnswers};

use crate::contexts::connections::target_given;
use crate::contexts::handle::{PefContext, put, take};
use cfm_prepare::{Connection, Context, FragmentExport, ImportTarget};
use pef_format::ExportValue;
use pef_loader::import_named;
use pef_records::{NOT_OPEN, NOT_THERE, PefFragmentExport, given};
use std::alloc::Global;

/// Counts the exports of a fragment of a connection's closure.
///
/// Returns 0, or 201 if the connection isn't open or its closure lacks the fragment, or 202 if the context isn't open.
#[unsafe(no_mangle)]
pub extern "C" fn pef_fragment_exports(
    alloc: Global,
    context: &mut PefContext,
    connection: u32,
    fragment: usize,
    count: &mut usize,
) -> u32
    ensures same { held context.new ≡ held context.old }
    ensures read { ReadAnswers (λ s. exports_of s connection fragment) (held context.old) count.old count.new result }
{
    let Some(boxed) = take(alloc, context) else {
        return NOT_OPEN;
    };
    let answer = match count_in(&boxed, Connection(connection), fragment) {
        Some(found) => {
            *count = found;
            0
        }
        None => NOT_THERE,
    };
    put(context, boxed);
    answer
}

/// Returns how many exports a fragment has, in a context that is open.
fn count_in(context: &Context<'_>, connection: Connection, fragment: usize) -> Option<usize>
    ensures { result ≡ exports_of context.now connection.0 fragment }
{
    let loader = context.fragment_loader(connection, fragment)?;
    Some(loader.exports())
}

/// Reads export `number` of a fragment of a connection's closure, with where it ends.
///
/// Returns 0, or 201 if there is none, or 202 if the context isn't open.
#[unsafe(no_mangle)]
pub extern "C" fn pef_fragment_export(
    alloc: Global,
    context: &mut PefContext,
    connection: u32,
    fragment: usize,
    number: usize,
    export: &mut PefFragmentExport,
) -> u32
    ensures same { held context.new ≡ held context.old }
    ensures read { ReadAnswers (λ s. export_row_of s connection fragment number) (held context.old) (export_shown export.old) (export_shown export.new) result }
{
    let Some(boxed) = take(alloc, context) else {
        return NOT_OPEN;
    };
    let answer = match export_in(&boxed, Connection(connection), fragment, number) {
        Some(found) => {
            *export = found;
            0
        }
        None => NOT_THERE,
    };
    put(context, boxed);
    answer
}

/// Returns an export of a fragment as C sees it, in a context that is open.
fn export_in(
    context: &Context<'static>,
    connection: Connection,
    fragment: usize,
    number: usize,
) -> Option<PefFragmentExport>
    ensures { option_map export_shown result ≡ export_row_of context.now connection.0 fragment number }
{
    let found = context.fragment_export(connection, fragment, number)?;
    Some(export_given(found))
}

/// Reads the first export with this name of a fragment of a connection's closure, with where it ends.
///
/// Returns 0, or 201 if there is none, or 202 if the context isn't open.
#[unsafe(no_mangle)]
pub extern "C" fn pef_fragment_export_named(
    alloc: Global,
    context: &mut PefContext,
    connection: u32,
    fragment: usize,
    name: &[u8],
    export: &mut PefFragmentExport,
) -> u32
    ensures same { held context.new ≡ held context.old }
    ensures read { ReadAnswers (λ s. named_row_of s connection fragment name.now) (held context.old) (export_shown export.old) (export_shown export.new) result }
{
    let Some(boxed) = take(alloc, context) else {
        return NOT_OPEN;
    };
    let answer = match named_in(&boxed, Connection(connection), fragment, given(name)) {
        Some(found) => {
            *export = found;
            0
        }
        None => NOT_THERE,
    };
    put(context, boxed);
    answer
}

/// Returns the first export with a name of a fragment as C sees it, in a context that is open.
fn named_in(
    context: &Context<'static>,
    connection: Connection,
    fragment: usize,
    name: &[u8],
) -> Option<PefFragmentExport>
    ensures { option_map export_shown result ≡ named_row_of context.now connection.0 fragment name.now }
{
    let found = context.fragment_export_named(connection, fragment, name)?;
    Some(export_given(found))
}

/// Gives the number of the first import with this name of a fragment of a connection's closure.
///
/// Returns 0, or 201 if there is none, or 202 if the context isn't open.
#[unsafe(no_mangle)]
pub extern "C" fn pef_fragment_import_named(
    alloc: Global,
    context: &mut PefContext,
    connection: u32,
    fragment: usize,
    name: &[u8],
    number: &mut usize,
) -> u32
    ensures same { held context.new ≡ held context.old }
    ensures read { ReadAnswers (λ s. import_of s connection fragment name.now) (held context.old) number.old number.new result }
{
    let Some(boxed) = take(alloc, context) else {
        return NOT_OPEN;
    };
    let answer = match import_in(&boxed, Connection(connection), fragment, given(name)) {
        Some(found) => {
            *number = found;
            0
        }
        None => NOT_THERE,
    };
    put(context, boxed);
    answer
}

/// Returns the first import with a name of a fragment, in a context that is open.
fn import_in(
    context: &Context<'_>,
    connection: Connection,
    fragment: usize,
    name: &[u8],
) -> Option<usize>
    ensures { result ≡ import_of context.now connection.0 fragment name.now }
{
    let loader = context.fragment_loader(connection, fragment)?;
    import_named(&loader, name)
}

/// Returns an export as C sees it.
pub(crate) fn export_given(found: FragmentExport<'static>) -> PefFragmentExport
    ensures { export_shown result ≡ export_row (placed_seen found.entry) }
{
    let fields = found.export.fields;
    let (import_number, is_reexport) = import_passed(fields.value());
    PefFragmentExport {
        name: found.export.name,
        number: found.number,
        target: target_given(ImportTarget {
            target: found.target,
            address: found.address,
        }),
        import_number,
        class: fields.class,
        is_reexport,
    }
}

/// Returns the import that an export passes on, or 0, and whether it passes one on.
fn import_passed(value: ExportValue) -> (usize, bool)
    ensures number { result.0 ≡ import_passed value }
    ensures passed { result.1 ≡ is_passed value }
{
    match value {
        ExportValue::Reexport { import } => (import as usize, true),
        _ => (0, false),
    }
}
