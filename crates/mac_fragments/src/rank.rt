//! How good a fragment is for its name.
ghost use Rattle.std.specs.Prelude.{◌≡◌, ◌<◌, ◌^◌, IfOk, IfSome, map, option_map};
ghost use Rattle.std.specs.List.{list_all};
ghost use Rattle.pef_loader.specs.Views.{library_seen, loaded};
ghost use Rattle.cfm_closure.specs.Libraries.{fit_with};
ghost use Rattle.mac_fragments.specs.Choices.{fragment_of, is_fit, rank, ranked, suits, suits_entry, suits_from};
ghost use Rattle.mac_fragments.specs.Candidates.{candidate_seen};
ghost use Rattle.mac_fragments.specs.Kept.Ranks.{ranked_seen, read_seen};

use crate::candidate::Candidate;
use cfm_closure::{Definition, Fit, Implementation, versions_fit};
use pef_loader::{LibraryView, Loader};
use pef_views::Container;
use std::alloc::{AllocError, Global};

/// A candidate that can be read.
#[derive(Clone, Copy)]
pub(crate) struct ReadCandidate<'a> {
    pub name: &'a [u8],
    pub container: Container<'a>,
    pub loader: Loader<'a>,
}

/// A candidate with its rank: the greater, the better.
#[derive(Clone, Copy)]
pub(crate) struct RankedCandidate<'a> {
    pub name: &'a [u8],
    pub usage: u8,
    pub rank: u64,
}

/// Returns candidates with their ranks.
#[tactic(auto, unfolding(crate::specs::Choices::ranked))]
pub(crate) fn rank_all<'a>(
    alloc: Global,
    candidates: &[Candidate<'a>],
) -> Result<Vec<RankedCandidate<'a>>, AllocError>
    ensures { IfOk result (λ all. map ranked_seen all.items ≡ ranked (map candidate_seen candidates.now)) }
{
    let fragments = read_all(alloc, candidates)?;
    let mut all = Vec::with_capacity(alloc, candidates.len())?;
    for candidate in candidates {
        all.push(RankedCandidate {
            name: candidate.name,
            usage: candidate.usage,
            rank: rank(fragments.as_slice(), read(*candidate)),
        })?;
    }
    Ok(all)
}

/// Reads candidates.
fn read_all<'a>(
    alloc: Global,
    candidates: &[Candidate<'a>],
) -> Result<Vec<Option<ReadCandidate<'a>>>, AllocError>
    ensures { IfOk result (λ fragments. map (option_map read_seen) fragments.items ≡ map fragment_of (map candidate_seen candidates.now)) }
{
    let mut fragments = Vec::with_capacity(alloc, candidates.len())?;
    for candidate in candidates {
        fragments.push(read(*candidate))?;
    }
    Ok(fragments)
}

/// Reads a candidate, or returns `None` if its container or its loader section has an error.
#[tactic(auto, unfolding(crate::specs::Choices::fragment_of))]
fn read<'a>(candidate: Candidate<'a>) -> Option<ReadCandidate<'a>>
    ensures { option_map read_seen result ≡ fragment_of (candidate_seen candidate.entry) }
{
    match Container::read(candidate.bytes) {
        Ok(container) => match Loader::read(&container) {
            Ok(loader) => Some(ReadCandidate {
                name: candidate.name,
                container,
                loader,
            }),
            Err(_) => None,
        },
        Err(_) => None,
    }
}

/// Returns the rank of a fragment among some: 0 if it can't be read, and else by its version, and by whether it suits all.
fn rank(fragments: &[Option<ReadCandidate<'_>>], fragment: Option<ReadCandidate<'_>>) -> u64
    ensures { result ≡ rank (map (option_map read_seen) fragments.now) (option_map read_seen fragment.entry) }
{
    match fragment {
        Some(fragment) => {
            let newness = u64::from(fragment.container.header().current_version) + 1;
            if suits_all(fragment, fragments) {
                newness + SUITS_ALL
            } else {
                newness
            }
        }
        None => 0,
    }
}

/// What is added to the rank of a fragment that suits all: more than any version.
const SUITS_ALL: u64 = 0x1_0000_0000;

/// Returns whether a fragment suits all of some.
fn suits_all(fragment: ReadCandidate<'_>, fragments: &[Option<ReadCandidate<'_>>]) -> bool
    ensures { result ≡ list_all (suits (read_seen fragment.entry)) (map (option_map read_seen) fragments.now) }
{
    for other in fragments {
        if !suits(fragment, *other) {
            return false;
        }
    }
    true
}

/// Returns whether the versions of a fragment fit each entry of another one that names it.
fn suits(fragment: ReadCandidate<'_>, other: Option<ReadCandidate<'_>>) -> bool
    ensures { result ≡ suits (read_seen fragment.entry) (option_map read_seen other.entry) }
{
    match other {
        Some(other) => suits_entries(fragment, &other.loader),
        None => true,
    }
}

/// Returns whether the versions of a fragment fit each entry of a loader section that names it.
fn suits_entries(fragment: ReadCandidate<'_>, loader: &Loader<'_>) -> bool
    ensures { result ≡ suits_from (read_seen fragment.entry) (loaded loader.now) 0 (loaded loader.now).header.library_count }
{
    for k in 0..loader.libraries() {
        if !suits_entry(fragment, loader.library(k)) {
            return false;
        }
    }
    true
}

/// Returns whether the versions of a fragment fit an entry, unless that names another library.
fn suits_entry(fragment: ReadCandidate<'_>, entry: Option<LibraryView<'_>>) -> bool
    ensures { result ≡ suits_entry (read_seen fragment.entry) (option_map library_seen entry.entry) }
{
    match entry {
        Some(library) => library.name != fragment.name || is_fit(fragment, library),
        None => true,
    }
}

/// Returns whether the versions of a fragment fit an entry.
fn is_fit(fragment: ReadCandidate<'_>, library: LibraryView<'_>) -> bool
    ensures { result ≡ is_fit (fit_with (library_seen library.entry) (read_seen fragment.entry)) }
{
    let header = fragment.container.header();
    let needed = Definition {
        current: library.fields.current,
        old_imp: library.fields.old_imp,
    };
    let found = Implementation {
        current: header.current_version,
        old_def: header.old_def_version,
    };
    match versions_fit(needed, found) {
        Fit::Fits => true,
        Fit::TooOld => false,
        Fit::TooNew => false,
    }
}
