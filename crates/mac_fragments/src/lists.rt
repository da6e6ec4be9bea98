//! The fragments of a file.
ghost use Rattle.std.specs.Prelude.{◌≡◌, option_map};
ghost use Rattle.std.specs.Option.{option_copied};
ghost use Rattle.pef_words.specs.Refusals.{result_map};
ghost use Rattle.mac_forks.specs.MacFile.{mac_file_of};
ghost use Rattle.mac_forks.specs.Views.{part_seen};
ghost use Rattle.mac_fragments.specs.Faults.{Gives};
ghost use Rattle.mac_fragments.specs.Fragments.{data_fork_in, file_fragments, fragments_beside};
ghost use Rattle.mac_fragments.specs.Views.{fragments_seen};

use crate::fault::FragmentsFault;
use crate::fragment::FileFragment;
use crate::members::member_fragments;
use crate::unnamed::{alone, is_container, unnamed_fragments};
use cfm_members::{Forks, MemberLookupFault, fragment_table, readable};
use mac_forks::{ForkBytes, ForkFault, MacFile};
use std::alloc::Global;

/// Returns the fragments of a file with some bytes, in order. `resources` has the resource fork, if another file has it: the file's
/// companion.
///
/// - If the resource fork has a table of fragments (the resource `cfrg` 0), they are its members, in the table's order. Members for
///   CFM-68K are passed by, as are those whose container isn't in the file.
/// - Without a table, the container that the data fork begins with is the only fragment, or else each container that a search
///   finds is one. It has no name. An empty resource fork has no table.
/// - Bytes that begin with a container and have no companion are one fragment without a name.
///
/// # Errors
///
/// The first error of the file's header, of the resource fork's entry, of the fork's header and map, of the table's bytes and header,
/// and of its members: a row or a name is cut, or a container passes the end of its fork. `NoContainer` (80) if there is no fragment,
/// also if all members are for CFM-68K.
#[tactic(auto, unfolding(crate::specs::Fragments::file_fragments))]
pub fn file_fragments<'a>(
    alloc: Global,
    bytes: &'a [u8],
    resources: Option<&'a [u8]>,
) -> Result<Vec<FileFragment<'a>>, FragmentsFault>
    ensures { Gives (result_map fragments_seen result) (file_fragments bytes.entry.now (option_copied resources.entry)) }
{
    match resources {
        Some(resources) => fragments_beside(alloc, bytes, resources),
        None => {
            if is_container(bytes) {
                alone(alloc, bytes)
            } else {
                fragments_beside(alloc, bytes, bytes)
            }
        }
    }
}

/// Returns the fragments of a file with some bytes and of a file with the resource fork.
#[tactic(auto, unfolding(crate::specs::Fragments::fragments_beside))]
fn fragments_beside<'a>(
    alloc: Global,
    bytes: &'a [u8],
    resources: &'a [u8],
) -> Result<Vec<FileFragment<'a>>, FragmentsFault>
    ensures { Gives (result_map fragments_seen result) (fragments_beside bytes.entry.now resources.entry.now) }
{
    let data_fork = match data_fork_in(bytes) {
        Ok(data_fork) => data_fork,
        Err(fault) => return Err(FragmentsFault::Lookup(MemberLookupFault::Fork(fault))),
    };
    match fragment_table(resources) {
        Ok(table) => member_fragments(alloc, table, data_fork, resources),
        Err(MemberLookupFault::NoContainer) => unnamed_fragments(alloc, bytes, readable(data_fork)),
        Err(fault) => Err(FragmentsFault::Lookup(fault)),
    }
}

/// Returns the data fork of a file, if it has one, or the error of its entry.
fn data_fork_in<'a>(bytes: &'a [u8]) -> Result<Option<Result<ForkBytes<'a>, ForkFault>>, ForkFault>
    ensures { result_map (λ fork. option_map (result_map part_seen) fork) result ≡ data_fork_in bytes.entry.now (mac_file_of bytes.entry.now) }
{
    match MacFile::read(bytes) {
        Ok(file) => Ok(Forks::of(bytes, &file).data_fork),
        Err(fault) => Err(fault),
    }
}
