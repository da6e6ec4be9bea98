//! Files of the classic Mac OS: their forks, and the containers in them. Nothing is allocated.
ghost use Rattle.std.specs.Prelude.{◌≡◌, Ok, Some};
ghost use Rattle.pef_words.specs.Refusals.{result_map};
ghost use Rattle.cfm_members.specs.Fragments.{container_named, container_numbered, named_in_forks};
ghost use Rattle.cfm_members.specs.Kinds.{kind_of};
ghost use Rattle.pef_c.specs.Files.Forks.{ForksAnswers, FoundAnswers, NumberedAnswers};
ghost use Rattle.pef_records.specs.Files.Parts.{forks_shown, kind_code};

use cfm_members::{
    FileKind, MemberLookupFault, container_in_forks, named_container, numbered_container,
};
use mac_forks::{ForkBytes, MacFile};
use pef_records::{PefForks, fork_number, forks_given, fragment_number, given, kind_code};

/// No container has the number.
const NO_CONTAINER: u32 = 80;

/// Returns what a file is.
#[unsafe(no_mangle)]
pub extern "C" fn pef_file_kind(file: &[u8]) -> u32
    ensures { result ≡ kind_code (kind_of file.now) }
{
    kind_code(FileKind::of(given(file)))
}

/// Reads the forks of a file, its name, its comment and what the Finder knows of it.
///
/// Returns 0, or the number of the error of its header.
#[unsafe(no_mangle)]
pub extern "C" fn pef_forks<'a>(file: &'a [u8], forks: &mut PefForks<'a>) -> u32
    ensures { ForksAnswers file.entry.now (forks_shown forks.old) (forks_shown forks.new) result }
{
    let file = given(file);
    match MacFile::read(file) {
        Ok(read) => {
            *forks = forks_given(file, &read);
            0
        }
        Err(fault) => fork_number(fault),
    }
}

/// Gives the container of the fragment with a name in a file: a part of the file.
///
/// Returns 0, or the number of the first error.
#[unsafe(no_mangle)]
pub extern "C" fn pef_file_container<'a>(
    file: &'a [u8],
    name: &[u8],
    container: &mut &'a [u8],
) -> u32
    ensures { FoundAnswers (container_named file.entry.now name.now) container.old.now container.new.now result }
{
    give(named_container(given(file), given(name)), container)
}

/// Gives the container of the fragment with a name, by the bytes of the forks: a part of one of them.
///
/// Returns 0, or the number of the first error.
#[unsafe(no_mangle)]
pub extern "C" fn pef_fork_container<'a>(
    data_fork: &'a [u8],
    resource_fork: &'a [u8],
    name: &[u8],
    container: &mut &'a [u8],
) -> u32
    ensures { FoundAnswers (named_in_forks name.now (Some (Ok (record { offset = 0; bytes = data_fork.entry.now }))) resource_fork.entry.now) container.old.now container.new.now result }
{
    let data_fork = ForkBytes {
        offset: 0,
        bytes: given(data_fork),
    };
    give(
        container_in_forks(Some(Ok(data_fork)), given(resource_fork), given(name)),
        container,
    )
}

/// Gives the container with a number, from 0, among all places of some bytes where one begins, with all bytes after it.
///
/// Returns 0, or 80 past the last one.
#[unsafe(no_mangle)]
pub extern "C" fn pef_numbered_container<'a>(
    bytes: &'a [u8],
    number: usize,
    container: &mut &'a [u8],
) -> u32
    ensures { NumberedAnswers (container_numbered bytes.entry.now number) container.old.now container.new.now result }
{
    match numbered_container(given(bytes), number) {
        Some(found) => {
            *container = found;
            0
        }
        None => NO_CONTAINER,
    }
}

/// Writes a container that was found, or returns the number of the error.
fn give<'a>(found: Result<&'a [u8], MemberLookupFault>, container: &mut &'a [u8]) -> u32
    ensures { FoundAnswers (result_map (λ bytes. bytes.now) found.entry) container.old.now container.new.now result }
{
    match found {
        Ok(found) => {
            *container = found;
            0
        }
        Err(fault) => fragment_number(fault),
    }
}
