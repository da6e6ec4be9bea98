//! Which candidates the names of a preparation mean.
ghost use Rattle.std.specs.Prelude.{◌≡◌, ◌<◌, IfOk, length, map, option_map};
ghost use Rattle.mac_fragments.specs.Choices.{best, better, chosen, is_meant, name_at, own_place};
ghost use Rattle.mac_fragments.specs.Candidates.{candidate_seen};
ghost use Rattle.mac_fragments.specs.Kept.Ranks.{place_seen, ranked_seen};

use crate::candidate::Candidate;
use crate::rank::{RankedCandidate, rank_all};
use std::alloc::{AllocError, Global};

/// A library among the candidates, with its rank.
#[derive(Clone, Copy)]
pub(crate) struct RankedPlace {
    pub place: usize,
    pub rank: u64,
}

/// Returns which candidates a preparation uses: the root, which is given by its place, and then in their order, for each other name
/// that a library among them has, the one that the name means.
///
/// The root's name means the root. Any other name means a candidate with this name whose usage is 0, an import library: one that can be
/// read before one that can't, one whose versions fit all entries for the name before one whose don't, then the one with the greatest
/// current version, and then the first.
///
/// # Errors
///
/// `AllocError` if an allocation fails.
#[tactic(auto, unfolding(crate::specs::Choices::chosen))]
pub fn chosen<'a>(
    alloc: Global,
    candidates: &[Candidate<'a>],
    root: usize,
) -> Result<Vec<usize>, AllocError>
    requires { root < length candidates.now }
    ensures { IfOk result (λ places. places.items ≡ chosen (map candidate_seen candidates.now) root) }
{
    let ranked = rank_all(alloc, candidates)?;
    let name = name_at(ranked.as_slice(), root);
    let mut places = Vec::new(alloc);
    places.push(root)?;
    for place in 0..ranked.len() {
        if is_meant(ranked.as_slice(), name, place, ranked[place]) {
            places.push(place)?;
        }
    }
    Ok(places)
}

/// Returns the name of the candidate in a place.
#[tactic(auto, using(crate::proofs::RankLemmas::name_ranked))]
fn name_at<'a>(all: &[RankedCandidate<'a>], place: usize) -> &'a [u8]
    ensures { result.now ≡ name_at (map ranked_seen all.now) place }
{
    match all.get(place) {
        Some(candidate) => candidate.name,
        None => &[],
    }
}

/// Returns whether a candidate in a place is what its name means.
fn is_meant(
    all: &[RankedCandidate<'_>],
    root: &[u8],
    place: usize,
    candidate: RankedCandidate<'_>,
) -> bool
    ensures { result ≡ is_meant (map ranked_seen all.now) root.now place (ranked_seen candidate.entry) }
{
    if candidate.usage != IMPORT_LIBRARY || candidate.name == root {
        return false;
    }
    match best(all, candidate.name) {
        Some(found) => found.place == place,
        None => false,
    }
}

/// The usage of a candidate that can be a library.
const IMPORT_LIBRARY: u8 = 0;

/// Returns the best library with a name.
fn best(all: &[RankedCandidate<'_>], name: &[u8]) -> Option<RankedPlace>
    ensures { option_map place_seen result ≡ best name.now 0 (map ranked_seen all.now) }
{
    let mut found = None;
    for place in 0..all.len() {
        found = better(found, own_place(name, place, all[place]));
    }
    found
}

/// Returns the place of a candidate, if it is a library with a name.
fn own_place(name: &[u8], place: usize, candidate: RankedCandidate<'_>) -> Option<RankedPlace>
    ensures { option_map place_seen result ≡ own_place name.now place (ranked_seen candidate.entry) }
{
    if candidate.usage == IMPORT_LIBRARY && candidate.name == name {
        Some(RankedPlace {
            place,
            rank: candidate.rank,
        })
    } else {
        None
    }
}

/// Returns the better of two places: the one with the greater rank, or the first one if both have the same.
fn better(first: Option<RankedPlace>, second: Option<RankedPlace>) -> Option<RankedPlace>
    ensures { option_map place_seen result ≡ better (option_map place_seen first) (option_map place_seen second) }
{
    match first {
        Some(a) => match second {
            Some(b) => Some(if a.rank < b.rank { b } else { a }),
            None => Some(a),
        },
        None => second,
    }
}
