//! The fragments of files.
ghost use Rattle.std.specs.Prelude.{◌≡◌, ◌++◌, OnOk, map, option_map, unwrap_or};
ghost use Rattle.mac_fragments.specs.Faults.{Gives as GivesFragments};
ghost use Rattle.mac_fragments.specs.Views.{fragment_seen, fragments_seen};
ghost use Rattle.pef_words.specs.Refusals.{result_map};
ghost use Rattle.pef_gather.specs.Gathered.{found_as, found_in, found_of, fragments_of};
ghost use Rattle.pef_gather.specs.Names.{stem};
ghost use Rattle.pef_gather.specs.Seen.{Gives, found_seen, given_seen};

use crate::fault::GatherFault;
use crate::files::{Found, GivenFile};
use crate::names::stem;
use cfm_members::MemberLookupFault;
use mac_fragments::{Candidate, FileFragment, FragmentsFault, file_fragments};
use std::alloc::{AllocError, Global};

/// Returns the fragments of some files, in the order of the files.
pub fn fragments_in<'a>(
    alloc: Global,
    files: &[GivenFile<'a>],
) -> Result<Vec<Found<'a>>, GatherFault<'a>>
    ensures { Gives result (found_in (map given_seen files.now)) }
{
    let mut found = Vec::new(alloc);
    for file in files {
        let fragments = match fragments_of(alloc, *file) {
            Ok(fragments) => fragments,
            Err(FragmentsFault::Lookup(fault)) => {
                return Err(GatherFault::Untold {
                    path: file.path,
                    fault,
                });
            }
            Err(FragmentsFault::OutOfMemory) => return Err(GatherFault::OutOfMemory),
        };
        add_fragments(&mut found, *file, fragments.as_slice())?;
    }
    Ok(found)
}

/// Returns the fragments of a file. One with libraries only may have none.
fn fragments_of<'a>(
    alloc: Global,
    file: GivenFile<'a>,
) -> Result<Vec<FileFragment<'a>>, FragmentsFault>
    ensures { GivesFragments (result_map fragments_seen result) (fragments_of (given_seen file.entry)) }
{
    match file_fragments(alloc, file.bytes, file.resources) {
        Ok(fragments) => Ok(fragments),
        Err(FragmentsFault::Lookup(MemberLookupFault::NoContainer)) => {
            if file.is_library {
                Ok(Vec::new(alloc))
            } else {
                Err(FragmentsFault::Lookup(MemberLookupFault::NoContainer))
            }
        }
        Err(fault) => Err(fault),
    }
}

/// Adds the fragments of a file. The first one gets the name that the file was given for it.
fn add_fragments<'a>(
    found: &mut Vec<Found<'a>>,
    file: GivenFile<'a>,
    fragments: &[FileFragment<'a>],
) -> Result<(), AllocError>
    ensures { OnOk result (map found_seen found.new.items ≡ map found_seen found.old.items ++ found_of (given_seen file.entry) (option_map (λ name. name.now) file.entry.name) (map fragment_seen fragments.now)) }
{
    let mut given = file.name;
    for fragment in fragments {
        found.push(found_as(file, given, *fragment))?;
        given = None;
    }
    Ok(())
}

/// Returns a fragment of a file with the name that it goes by.
fn found_as<'a>(
    file: GivenFile<'a>,
    given: Option<&'a [u8]>,
    fragment: FileFragment<'a>,
) -> Found<'a>
    ensures { found_seen result ≡ found_as (given_seen file.entry) (option_map (λ name. name.now) given.entry) (fragment_seen fragment.entry) }
{
    Found {
        candidate: Candidate {
            name: name_of(file, given, fragment),
            usage: fragment.usage,
            bytes: fragment.bytes,
        },
        path: file.path,
        is_library: file.is_library,
    }
}

/// Returns the name that a fragment goes by: the one that is given, or its member's, or its file's.
fn name_of<'a>(file: GivenFile<'a>, given: Option<&'a [u8]>, fragment: FileFragment<'a>) -> &'a [u8]
    ensures { result.now ≡ unwrap_or (option_map (λ name. name.now) given.entry) (unwrap_or (option_map (λ name. name.now) fragment.entry.name) (stem file.entry.file_name.now)) }
{
    match (given, fragment.name) {
        (Some(name), _) | (None, Some(name)) => name,
        (None, None) => stem(file.file_name),
    }
}
