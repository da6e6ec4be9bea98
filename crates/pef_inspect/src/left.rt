ghost use Rattle.std.specs.Prelude.{◌≡◌};
ghost use Rattle.pef_views.specs.Partial.{sections_allowed};
ghost use Rattle.pef_views.specs.PartialViews.{partly};
ghost use Rattle.pef_loader.specs.PartialViews.{partly_loaded};
ghost use Rattle.pef_inspect.specs.Left.{left_after, left_in_loader, left_in_tables, left_packed, left_words};
ghost use Rattle.pef_loader.specs.Partial.{partial_of};

use crate::images::images_within;
use crate::limits::Limits;
use crate::programs::programs_within;
use crate::runs::runs_within;
use crate::twice::words_within;
use pef_loader::PartialLoader;
use pef_views::PartialContainer;

/// Returns what is left of limits after a container was verified within them: each limit less what the parts that were within it
/// cost. Of words nothing is left if a program has more of them than there were.
#[tactic(auto, unfolding(crate::specs::Left::left_after))]
pub fn left_after(limits: Limits, bytes: &[u8]) -> Limits
    ensures { result ≡ left_after limits bytes.now }
{
    match PartialContainer::read(bytes) {
        Ok(container) => left_in_container(limits, &container),
        Err(_) => limits,
    }
}

/// Returns what is left after a container with a header.
fn left_in_container(limits: Limits, container: &PartialContainer<'_>) -> Limits
    ensures { result ≡ left_in_tables limits (partly container.now) (partial_of (sections_allowed (partly container.now)) (partly container.now).loader) }
{
    match PartialLoader::read(container) {
        Ok(loader) => left_in_loader(limits, container, &loader),
        Err(_) => Limits {
            packed_bytes: left_packed(limits, container),
            ..limits
        },
    }
}

/// Returns what is left after a container whose loader section has a header.
fn left_in_loader(
    limits: Limits,
    container: &PartialContainer<'_>,
    loader: &PartialLoader<'_>,
) -> Limits
    ensures { result ≡ left_in_loader limits (partly container.now) (partly_loaded loader.now) }
{
    Limits {
        program_bytes: programs_within(limits, container, loader).left,
        steps: runs_within(limits, container, loader).left,
        packed_bytes: left_packed(limits, container),
        words: left_words(limits, container, loader),
    }
}

/// Returns how many bytes of packed data are left.
fn left_packed(limits: Limits, container: &PartialContainer<'_>) -> u64
    ensures { result ≡ left_packed limits (partly container.now) }
{
    images_within(limits, container).left
}

/// Returns how many words are left: none, if a program has more of them than are left for it.
fn left_words(limits: Limits, container: &PartialContainer<'_>, loader: &PartialLoader<'_>) -> u64
    ensures { result ≡ left_words limits (partly container.now) (partly_loaded loader.now) }
{
    let runs = runs_within(limits, container, loader).count;
    let searched = words_within(limits, container, loader, runs);
    if searched.count < runs {
        return 0;
    }
    searched.left
}
