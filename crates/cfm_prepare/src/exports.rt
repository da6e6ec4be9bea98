ghost use Rattle.std.specs.Prelude.{◌≡◌, Contains, IsTrue, Some, option_map};
ghost use Rattle.pef_loader.specs.Export.{is_there};
ghost use Rattle.pef_loader.specs.Views.{loaded};
ghost use Rattle.cfm_closure.specs.Fragments.{loader_at};
ghost use Rattle.cfm_prepare.specs.FragmentExports.{export_target, fragment_export, fragment_export_named, fragment_loader, placed_export_at, placed_export_named, placed_seen};

use crate::fragments::Fragments;
use crate::open_connection::{OpenConnection, has};
use cfm_closure::{Closure, Target};
use pef_format::{ExportValue, ExportView};
use pef_loader::Loader;

/// An export of a fragment that is present.
#[derive(Clone, Copy, Debug)]
pub struct FragmentExport<'a> {
    pub number: usize,
    /// Its name, and what it is in the fragment's container.
    pub export: ExportView<'a>,
    /// Where it ends: in a section, also one of another fragment if it passes an import on, or at a number. `None` if that
    /// import is missing and weak.
    pub target: Option<Target>,
    /// The address of the target, or 0 if there is none.
    pub address: u32,
}

/// Returns the loader section of a fragment. `None` if the closure lacks the fragment.
pub(crate) fn fragment_loader<'a>(
    connected: &OpenConnection<'a>,
    position: usize,
) -> Option<Loader<'a>>
    ensures { option_map loaded result ≡ fragment_loader connected.now position }
{
    let closure = connected.closure();
    if !has(closure.order(), position) {
        return None;
    }
    Some(closure.loader(position))
}

/// Returns export `number` of a fragment. `None` past the last one, or if the closure lacks the fragment.
pub(crate) fn fragment_export<'a>(
    connected: &OpenConnection<'a>,
    fragments: &Fragments,
    position: usize,
    number: usize,
) -> Option<FragmentExport<'a>>
    ensures { option_map placed_seen result ≡ fragment_export fragments.now.present connected.now position number }
{
    let closure = connected.closure();
    if !has(closure.order(), position) {
        return None;
    }
    placed_export(closure, fragments, position, number)
}

/// Returns the first export with a name of a fragment. `None` if there is none, or if the closure lacks the fragment.
pub(crate) fn fragment_export_named<'a>(
    connected: &OpenConnection<'a>,
    fragments: &Fragments,
    position: usize,
    name: &[u8],
) -> Option<FragmentExport<'a>>
    ensures { option_map placed_seen result ≡ fragment_export_named fragments.now.present connected.now position name.now }
{
    let closure = connected.closure();
    if !has(closure.order(), position) {
        return None;
    }
    placed_export_named(closure, fragments, position, name)
}

/// Returns the first export with a name of a fragment that a closure has.
fn placed_export_named<'a>(
    closure: &Closure<'a>,
    fragments: &Fragments,
    position: usize,
    name: &[u8],
) -> Option<FragmentExport<'a>>
    requires { Contains closure.now.order position }
    ensures { option_map placed_seen result ≡ placed_export_named closure.now.pairs fragments.now.present position name.now }
{
    let number = closure.loader(position).export_named(name)?;
    placed_export(closure, fragments, position, number)
}

/// Returns export `number` of a fragment that a closure has, or `None` past the last one.
#[tactic(auto, using(crate::proofs::ExportLemmas::ends_there))]
pub(crate) fn placed_export<'a>(
    closure: &Closure<'a>,
    fragments: &Fragments,
    position: usize,
    number: usize,
) -> Option<FragmentExport<'a>>
    requires { Contains closure.now.order position }
    ensures { option_map placed_seen result ≡ placed_export_at closure.now.pairs fragments.now.present position number }
{
    let loader = closure.loader(position);
    let export = loader.export(number)?;
    let target = export_target(closure, position, &loader, export.fields.value());
    let address = fragments.target_address(target);
    Some(FragmentExport {
        number,
        export,
        target,
        address,
    })
}

/// Returns where an export of a fragment that a closure has ends.
fn export_target(
    closure: &Closure<'_>,
    position: usize,
    loader: &Loader<'_>,
    value: ExportValue,
) -> Option<Target>
    requires place { Contains closure.now.order position }
    requires loader { loader_at closure.now.pairs position ≡ Some (loaded loader.now) }
    requires there { IsTrue (is_there (loaded loader.now).header (loaded loader.now).sections value) }
    ensures { result ≡ export_target closure.now.pairs position value }
{
    match value {
        ExportValue::InSection { section, offset } => Some(Target::At {
            fragment: position,
            section,
            offset,
        }),
        ExportValue::Absolute(number) => Some(Target::Absolute(number)),
        ExportValue::Reexport { import } => closure.target(position, import as usize),
    }
}
