//! Fragments of files that have no table of fragments.
ghost use Rattle.std.specs.Prelude.{◌≡◌, option_map};
ghost use Rattle.pef_words.specs.Refusals.{result_map};
ghost use Rattle.mac_forks.specs.Views.{part_seen};
ghost use Rattle.pef_views.specs.Container.{container_of};
ghost use Rattle.pef_views.specs.Extents.{own_part};
ghost use Rattle.cfm_members.specs.Search.{begins_container};
ghost use Rattle.mac_fragments.specs.Faults.{Gives};
ghost use Rattle.mac_fragments.specs.Fragments.{alone, some_of, first_place, unnamed_at, unnamed_fragments};
ghost use Rattle.mac_fragments.specs.Views.{fragment_seen, fragments_seen};

use crate::fault::FragmentsFault;
use crate::fragment::FileFragment;
use cfm_members::{Containers, Contents, FileKind, MemberLookupFault};
use mac_forks::ForkBytes;
use pef_views::Container;
use std::alloc::Global;

/// Returns the one fragment of a file that begins with a container.
pub(crate) fn alone<'a>(
    alloc: Global,
    bytes: &'a [u8],
) -> Result<Vec<FileFragment<'a>>, FragmentsFault>
    ensures { Gives (result_map fragments_seen result) (alone bytes.entry.now) }
{
    let mut found = Vec::new(alloc);
    found.push(unnamed_at(Contents::of(bytes), 0))?;
    Ok(found)
}

/// Returns the fragments of a file that no table names: the container that its data fork begins with, or each that a search finds.
pub(crate) fn unnamed_fragments<'a>(
    alloc: Global,
    bytes: &'a [u8],
    data_fork: Option<ForkBytes<'a>>,
) -> Result<Vec<FileFragment<'a>>, FragmentsFault>
    ensures { Gives (result_map fragments_seen result) (unnamed_fragments bytes.entry.now (option_map part_seen data_fork.entry)) }
{
    let contents = Contents::of(bytes);
    let mut found = Vec::new(alloc);
    match first_place(data_fork) {
        Some(place) => found.push(unnamed_at(contents, place))?,
        None => {
            for place in Containers::new(bytes) {
                found.push(unnamed_at(contents, place))?;
            }
        }
    }
    some_of(found)
}

/// Returns fragments if there are any.
pub(crate) fn some_of<'a>(
    found: Vec<FileFragment<'a>>,
) -> Result<Vec<FileFragment<'a>>, FragmentsFault>
    ensures { Gives (result_map fragments_seen result) (some_of (fragments_seen found.entry)) }
{
    if found.is_empty() {
        Err(FragmentsFault::Lookup(MemberLookupFault::NoContainer))
    } else {
        Ok(found)
    }
}

/// Returns where the container begins that a fork begins with.
fn first_place<'a>(fork: Option<ForkBytes<'a>>) -> Option<usize>
    ensures { result ≡ first_place (option_map part_seen fork.entry) }
{
    match fork {
        Some(part) => {
            if is_container(part.bytes) {
                Some(part.offset)
            } else {
                None
            }
        }
        None => None,
    }
}

/// Returns the fragment without a name at a place of a file.
fn unnamed_at<'a>(contents: Contents<'a>, place: usize) -> FileFragment<'a>
    ensures { fragment_seen result ≡ unnamed_at contents.entry.bytes.now place }
{
    FileFragment {
        name: None,
        usage: 0,
        bytes: own_part(contents.rest_from(place)),
    }
}

/// Returns the bytes of a container without those after it. Other bytes are all kept.
fn own_part<'a>(rest: &'a [u8]) -> &'a [u8]
    ensures { result.now ≡ own_part rest.entry.now (container_of rest.entry.now) }
{
    match Container::read(rest) {
        Ok(container) => container.own_bytes(),
        Err(_) => rest,
    }
}

/// Returns whether some bytes begin with a container.
pub(crate) fn is_container(bytes: &[u8]) -> bool
    ensures { result ≡ begins_container bytes.now }
{
    match FileKind::of(bytes) {
        FileKind::Container => true,
        _ => false,
    }
}
