ghost use Rattle.std.specs.Prelude.{◌≡◌, ◌<◌, ◌++◌, IfOk, IfSome, OnOk, Some, length, map, option_map, slice_get};
ghost use Rattle.std.specs.Option.{option_to_list};
ghost use Rattle.mac_fragments.specs.Candidates.{candidate_seen};
ghost use Rattle.pef_gather.specs.Gathered.{gathered, is_root, picked, root_from, with_root};
ghost use Rattle.pef_gather.specs.Seen.{Gives, found_seen, given_seen};

use crate::fault::GatherFault;
use crate::files::{Found, GivenFile};
use crate::search::fragments_in;
use mac_fragments::{Candidate, chosen};
use std::alloc::{AllocError, Global};

/// Returns the fragments that a preparation is made of, of those that some files have: the root, and one for each other name. The root
/// is the first one with the name `root`, or the first one of all, among the files that don't have libraries only.
///
/// # Errors
///
/// `Untold` for the first file whose fragments can't be told, and `RootMissing` if no fragment has the root's name. `OutOfMemory` if
/// an allocation fails.
#[tactic(auto, unfolding(crate::specs::Gathered::gathered))]
pub fn gather<'a>(
    alloc: Global,
    files: &[GivenFile<'a>],
    root: Option<&[u8]>,
) -> Result<Vec<Found<'a>>, GatherFault<'a>>
    ensures { Gives result (gathered (map given_seen files.now) (option_map (λ name. name.now) root.entry)) }
{
    let found = match fragments_in(alloc, files) {
        Ok(found) => found,
        Err(fault) => return Err(fault),
    };
    match root_in(found.as_slice(), root) {
        Some(place) => choose(alloc, found.as_slice(), place),
        None => Err(GatherFault::RootMissing),
    }
}

/// Returns the place of the root among some fragments.
fn root_in(found: &[Found<'_>], root: Option<&[u8]>) -> Option<usize>
    ensures place { result ≡ root_from 0 (option_map (λ name. name.now) root.entry) (map found_seen found.now) }
    ensures inside { IfSome result (λ i. i < length found.now) }
{
    for (i, fragment) in found.iter().enumerate() {
        if is_root(*fragment, root) {
            return Some(i);
        }
    }
    None
}

/// Returns whether a fragment may be the root.
fn is_root(fragment: Found<'_>, root: Option<&[u8]>) -> bool
    ensures { result ≡ is_root (option_map (λ name. name.now) root.entry) (found_seen fragment.entry) }
{
    match root {
        Some(name) => !fragment.is_library && fragment.candidate.name == name,
        None => !fragment.is_library,
    }
}

/// Returns the fragments that a preparation of the root is made of.
fn choose<'a>(
    alloc: Global,
    found: &[Found<'a>],
    root: usize,
) -> Result<Vec<Found<'a>>, GatherFault<'a>>
    requires { root < length found.now }
    ensures { Gives result (with_root (map found_seen found.now) (Some root)) }
{
    let candidates = candidates_of(alloc, found)?;
    let places = chosen(alloc, candidates.as_slice(), root)?;
    let fragments = picked(alloc, found, places.as_slice())?;
    Ok(fragments)
}

/// Returns fragments as candidates for names.
fn candidates_of<'a>(alloc: Global, found: &[Found<'a>]) -> Result<Vec<Candidate<'a>>, AllocError>
    ensures { IfOk result (λ candidates. map candidate_seen candidates.items ≡ map (λ f. f.candidate) (map found_seen found.now)) }
{
    let mut candidates = Vec::with_capacity(alloc, found.len())?;
    for fragment in found {
        candidates.push(fragment.candidate)?;
    }
    Ok(candidates)
}

/// Returns the fragments in some places.
fn picked<'a>(
    alloc: Global,
    found: &[Found<'a>],
    places: &[usize],
) -> Result<Vec<Found<'a>>, AllocError>
    ensures { IfOk result (λ fragments. map found_seen fragments.items ≡ picked (map found_seen found.now) places.now) }
{
    let mut fragments = Vec::with_capacity(alloc, places.len())?;
    for place in places {
        add_at(&mut fragments, found, *place)?;
    }
    Ok(fragments)
}

/// Adds the fragment in a place, if there is one.
fn add_at<'a>(
    fragments: &mut Vec<Found<'a>>,
    found: &[Found<'a>],
    place: usize,
) -> Result<(), AllocError>
    ensures { OnOk result (map found_seen fragments.new.items ≡ map found_seen fragments.old.items ++ option_to_list (slice_get (map found_seen found.now) place)) }
{
    match found.get(place) {
        Some(fragment) => {
            fragments.push(*fragment)?;
            Ok(())
        }
        None => Ok(()),
    }
}
