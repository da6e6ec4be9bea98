ghost use Rattle.std.specs.Prelude.{◌≡◌, ◌++◌, OnOk};
ghost use Rattle.pef_views.specs.PartialViews.{partly};
ghost use Rattle.pef_loader.specs.PartialViews.{partly_loaded};
ghost use Rattle.pef_inspect.specs.Errors.{behind_errors, errors_in, errors_of, errors_within, loader_errors};

use crate::finding::Finding;
use crate::images::find_in_images;
use crate::limits::Limits;
use crate::programs::find_in_programs;
use crate::rows::{find_in_sections, find_in_tables};
use crate::runs::find_in_runs;
use crate::sink::Findings;
use crate::tables::take_views;
use pef_loader::PartialLoader;
use pef_views::PartialContainer;

/// Hands all errors of some bytes as a container to a sink, from 1 to 39.
///
/// They come in the order in which a listing and a preparation find the first one: those of the container, of the loader
/// section, of the relocation programs, of packed data, and of what the programs would do. The notes that programs or packed
/// data weren't verified are among them: they pass the limits for one container.
///
/// # Errors
///
/// Only those of the sink.
#[tactic(auto, unfolding(crate::specs::Errors::errors_of))]
pub fn find_errors<S: Findings>(bytes: &[u8], sink: &mut S) -> Result<(), S::Error>
    ensures { OnOk result (S.taken sink.new ≡ S.taken sink.old ++ errors_of bytes.now) }
{
    find_errors_within(bytes, Limits::for_container(), sink)
}

/// Hands the errors of some bytes to a sink as [`find_errors`] does, within any limits.
///
/// # Errors
///
/// Only those of the sink.
#[tactic(auto, unfolding(crate::specs::Errors::errors_within))]
pub fn find_errors_within<S: Findings>(
    bytes: &[u8],
    limits: Limits,
    sink: &mut S,
) -> Result<(), S::Error>
    ensures { OnOk result (S.taken sink.new ≡ S.taken sink.old ++ errors_within limits bytes.now) }
{
    match PartialContainer::read(bytes) {
        Ok(container) => find_in_container(&container, limits, sink),
        Err(fault) => sink.take(Finding::of_view(fault)),
    }
}

/// Hands the errors of a container to a sink.
fn find_in_container<S: Findings>(
    container: &PartialContainer<'_>,
    limits: Limits,
    sink: &mut S,
) -> Result<(), S::Error>
    ensures { OnOk result (S.taken sink.new ≡ S.taken sink.old ++ errors_in limits (partly container.now)) }
{
    take_views(&container.header_tests(), sink)?;
    find_in_sections(container, sink)?;
    take_views(&container.loader_tests(), sink)?;
    find_behind(container, limits, sink)?;
    Ok(())
}

/// Hands the errors of the loader section, of programs and of packed data to a sink.
fn find_behind<S: Findings>(
    container: &PartialContainer<'_>,
    limits: Limits,
    sink: &mut S,
) -> Result<(), S::Error>
    ensures { OnOk result (S.taken sink.new ≡ S.taken sink.old ++ behind_errors limits (partly container.now)) }
{
    if container.loader().is_none() {
        return find_in_images(container, limits, sink);
    }
    match PartialLoader::read(container) {
        Ok(loader) => find_in_loader(container, &loader, limits, sink),
        Err(fault) => {
            sink.take(Finding::of_loader(container, fault))?;
            find_in_images(container, limits, sink)?;
            Ok(())
        }
    }
}

/// Hands the errors of a container whose loader section has a header to a sink.
fn find_in_loader<S: Findings>(
    container: &PartialContainer<'_>,
    loader: &PartialLoader<'_>,
    limits: Limits,
    sink: &mut S,
) -> Result<(), S::Error>
    requires { partly loader.now.container ≡ partly container.now }
    ensures { OnOk result (S.taken sink.new ≡ S.taken sink.old ++ loader_errors limits (partly container.now) (partly_loaded loader.now)) }
{
    find_in_tables(container, loader, sink)?;
    find_in_programs(container, loader, limits, sink)?;
    find_in_images(container, limits, sink)?;
    find_in_runs(container, loader, limits, sink)?;
    Ok(())
}
