//! Reads the files of `prepare` and `stubs`, each with its companion.
ghost use Rattle.std.specs.Prelude.{◌≡◌, ◌++◌, IfErr, IfOk, List, OnOk, map, option_map, ℕ};
ghost use Rattle.pef_words.specs.Refusals.{result_map};
ghost use Rattle.pef_gather.specs.Seen.{given_seen};
ghost use Rattle.pef_request.specs.Requests.{operand_path};
ghost use Rattle.pef_tool.specs.Companions.{LooksIf, may_have_companion};
ghost use Rattle.pef_tool.specs.Gathering.{IsGiven, ReadsBeside, StopsGathering, StopsGiven, WereGathered, resources_in, wanted_library, wanted_root};
ghost use Rattle.pef_tool.specs.Kept.Gathering.{read_seen, wanted_seen};
ghost use Rattle.pef_tool.specs.Kept.Inspecting.{companion_seen};

use crate::companion::{Companion, SplitPath, find_companion, may_have_companion};
use crate::inspect::Named;
use crate::reading::read_file;
use pef_faults::Fault;
use pef_gather::GivenFile;
use pef_ports::Files;
use pef_request::FileOperand;
use std::alloc::{AllocError, Global};

/// A file that is to be read.
#[derive(Clone, Copy)]
pub(crate) struct WantedFile<'a> {
    /// The name that the command line gives its first fragment.
    pub name: Option<&'a [u8]>,
    pub path: &'a [u8],
    /// Its fragments are libraries only.
    pub is_library: bool,
}

/// A file that was read.
#[derive(Drop)]
pub(crate) struct ReadFile<'a> {
    wanted: WantedFile<'a>,
    bytes: Vec<u8>,
    /// The bytes of its companion, which has the resource fork.
    resources: Option<Vec<u8>>,
}

/// Returns the files of operands, in order.
pub(crate) fn wanted_roots<'a>(
    alloc: Global,
    operands: &[FileOperand<'a>],
) -> Result<Vec<WantedFile<'a>>, AllocError>
    ensures { IfOk result (λ wanted. map wanted_seen wanted.items ≡ map wanted_root (map operand_path operands.now)) }
{
    let mut wanted = Vec::new(alloc);
    for operand in operands {
        wanted.push(wanted_root(*operand))?;
    }
    Ok(wanted)
}

/// Returns the file of an operand.
fn wanted_root<'a>(operand: FileOperand<'a>) -> WantedFile<'a>
    ensures { wanted_seen result ≡ wanted_root (operand_path operand.entry) }
{
    WantedFile {
        name: bytes_of(operand.name),
        path: operand.path.as_bytes(),
        is_library: false,
    }
}

/// Returns the bytes of a text, if there is one.
pub(crate) fn bytes_of<'a>(text: Option<&'a str>) -> Option<&'a [u8]>
    ensures { option_map (λ bytes. bytes.now) result ≡ option_map (λ text. text.now) text.entry }
{
    match text {
        Some(text) => Some(text.as_bytes()),
        None => None,
    }
}

/// Adds the files at some paths, which have libraries only.
pub(crate) fn add_libraries<'a>(
    wanted: &mut Vec<WantedFile<'a>>,
    paths: &[&'a str],
) -> Result<(), AllocError>
    ensures { OnOk result (map wanted_seen wanted.new.items ≡ map wanted_seen wanted.old.items ++ map wanted_library (map (λ path. path.now) paths.now)) }
{
    for path in paths {
        wanted.push(wanted_library(path))?;
    }
    Ok(())
}

/// Returns the file at a path, which has libraries only.
fn wanted_library<'a>(path: &'a str) -> WantedFile<'a>
    ensures { wanted_seen result ≡ wanted_library path.entry.now }
{
    WantedFile {
        name: None,
        path: path.as_bytes(),
        is_library: true,
    }
}

/// Reads some files, in order, each with its companion.
pub(crate) fn read_wanted<'a, F: Files>(
    alloc: Global,
    files: &mut F,
    wanted: &[WantedFile<'a>],
) -> Result<Vec<ReadFile<'a>>, Fault<'a>>
    ensures read { IfOk result (λ read. WereGathered (record { state = F.state; reason = F.reason; was_read = F.was_read; was_written = F.was_written }) files.old files.new (map wanted_seen wanted.now) (map read_seen read.items)) }
    ensures refused { IfErr result (λ fault. StopsGathering (record { state = F.state; reason = F.reason; was_read = F.was_read; was_written = F.was_written }) files.old files.new (map wanted_seen wanted.now) fault) }
{
    let mut read = Vec::new(alloc);
    for file in wanted {
        let more = match read_one(alloc, files, *file) {
            Ok(more) => more,
            Err(fault) => return Err(fault),
        };
        let Ok(()) = read.push(more) else {
            return Err(Fault::OutOfMemory);
        };
    }
    Ok(read)
}

/// Reads a file, and its companion if it has one.
fn read_one<'a, F: Files>(
    alloc: Global,
    files: &mut F,
    wanted: WantedFile<'a>,
) -> Result<ReadFile<'a>, Fault<'a>>
    ensures read { IfOk result (λ read. IsGiven (record { state = F.state; reason = F.reason; was_read = F.was_read; was_written = F.was_written }) files.old files.new (wanted_seen wanted.entry) (read_seen read)) }
    ensures refused { IfErr result (λ fault. StopsGiven (record { state = F.state; reason = F.reason; was_read = F.was_read; was_written = F.was_written }) files.old files.new (wanted_seen wanted.entry) fault) }
{
    let bytes = match read_file(alloc, files, wanted.path) {
        Ok(bytes) => bytes,
        Err(fault) => return Err(fault),
    };
    let companion = companion_beside(alloc, files, wanted.path, bytes.as_slice());
    match resources_in(companion) {
        Ok(resources) => Ok(ReadFile {
            wanted,
            bytes,
            resources,
        }),
        Err(fault) => Err(fault),
    }
}

/// Returns the companion of a file, if it may have one.
fn companion_beside<'a, F: Files>(
    alloc: Global,
    files: &mut F,
    path: &[u8],
    bytes: &[u8],
) -> Option<Companion<'a>>
    ensures { LooksIf (may_have_companion path.now bytes.now) (record { state = F.state; reason = F.reason; was_read = F.was_read; was_written = F.was_written }) files.old files.new path.now (option_map (companion_seen path.now) result) }
{
    if may_have_companion(path, bytes) {
        find_companion(alloc, files, path)
    } else {
        None
    }
}

/// Returns what was read of a companion, if there is one.
fn resources_in<'a>(companion: Option<Companion<'a>>) -> Result<Option<Vec<u8>>, Fault<'a>>
    ensures { (own : List ℕ) → result_map (λ bytes. option_map (λ b. b.items) bytes) result ≡ resources_in (option_map (companion_seen own) companion.entry) }
{
    match companion {
        Some(Companion::Found { bytes, .. }) => Ok(Some(bytes)),
        Some(Companion::Given(Named { bytes, .. })) => match bytes {
            Ok(bytes) => Ok(Some(bytes)),
            Err(fault) => Err(fault),
        },
        Some(Companion::Lacking) => Err(Fault::OutOfMemory),
        None => Ok(None),
    }
}

/// Returns the files that were read, as their fragments are gathered.
pub(crate) fn given_files<'a>(
    alloc: Global,
    read: &'a [ReadFile<'_>],
) -> Result<Vec<GivenFile<'a>>, AllocError>
    ensures { IfOk result (λ given. map given_seen given.items ≡ map read_seen read.entry.now) }
{
    let mut given = Vec::with_capacity(alloc, read.len())?;
    for file in read {
        given.push(given_file(file))?;
    }
    Ok(given)
}

/// Returns a file that was read, as its fragments are gathered.
fn given_file<'a>(read: &'a ReadFile<'_>) -> GivenFile<'a>
    ensures { given_seen result ≡ read_seen read.entry.now }
{
    GivenFile {
        name: read.wanted.name,
        file_name: SplitPath::of(read.wanted.path).name,
        path: read.wanted.path,
        bytes: read.bytes.as_slice(),
        resources: resources_of(read),
        is_library: read.wanted.is_library,
    }
}

/// Returns the bytes of a file's companion, if it has one.
fn resources_of<'a>(read: &'a ReadFile<'_>) -> Option<&'a [u8]>
    ensures { option_map (λ bytes. bytes.now) result ≡ option_map (λ bytes. bytes.items) read.entry.now.resources }
{
    match &read.resources {
        Some(bytes) => Some(bytes.as_slice()),
        None => None,
    }
}
