//! Looks for the companion of a file: another file that has its resource fork.
ghost use Rattle.std.specs.Prelude.{◌≡◌, ◌<◌, ◌≤◌, IfOk, IfSome, List, ℕ, codes, drop, length, map, option_map, take};
ghost use Rattle.std.specs.Str.{bytes_eq};
ghost use Rattle.pef_words.specs.Refusals.{result_map};
ghost use Rattle.pef_tool.specs.Companions.{Looks, LooksAt, companion_places, folder_of, is_start, is_unnamed, may_have_companion, mirror_of, mirrors_before, name_of, near_places, place_of};
ghost use Rattle.pef_tool.specs.Kept.Inspecting.{companion_seen, mirrors_from, place_seen};

use crate::inspect::Named;
use mac_rows::{is_data_fork, is_resource_file};
use memchr::memrchr;
use pef_faults::Fault;
use pef_ports::{FileFault, Files};
use std::alloc::{AllocError, Global};

/// The companion of a file.
#[derive(Drop)]
pub(crate) enum Companion<'a> {
    /// It was found at this path, and has these bytes.
    Found { path: Vec<u8>, bytes: Vec<u8> },
    /// The command line names it.
    Given(Named<'a>),
    /// An allocation failed while it was looked for.
    Lacking,
}

impl<'a> Companion<'a> {
    /// Returns what was read of the companion.
    pub(crate) fn resources(&self) -> Result<&[u8], Fault<'a>>
        ensures { (own : List ℕ) → result_map (λ bytes. bytes.now) result ≡ (companion_seen own self.now).read }
    {
        match self {
            Companion::Found { bytes, .. } => Ok(bytes.as_slice()),
            Companion::Given(Named { bytes, .. }) => match bytes {
                Ok(bytes) => Ok(bytes.as_slice()),
                Err(fault) => Err(*fault),
            },
            Companion::Lacking => Err(Fault::OutOfMemory),
        }
    }
}

/// What the path of a companion has before and after the file's name.
#[derive(Clone, Copy)]
pub(crate) struct CompanionPlace {
    pub before: &'static [u8],
    pub after: &'static [u8],
}

/// A path, split after its last `/`.
#[derive(Clone, Copy)]
pub(crate) struct SplitPath<'a> {
    pub folder: &'a [u8],
    pub name: &'a [u8],
}

impl<'a> SplitPath<'a> {
    /// Splits a path.
    pub(crate) fn of(path: &'a [u8]) -> SplitPath<'a>
        ensures folder { result.folder.now ≡ folder_of path.entry.now }
        ensures name { result.name.now ≡ name_of path.entry.now }
    {
        let (folder, name) = path.split_at(folder_len(path));
        SplitPath { folder, name }
    }
}

/// Returns the length of the folder of a path, up to the last `/`.
fn folder_len(path: &[u8]) -> usize
    ensures within { result ≤ length path.now }
    ensures folder { take result path.now ≡ folder_of path.now }
    ensures name { drop result path.now ≡ name_of path.now }
{
    match memrchr(b'/', path) {
        Some(last) => last + 1,
        None => 0,
    }
}

/// Returns whether a file may have a companion: it can be a data fork, and isn't the companion of another file itself.
#[tactic(auto, unfolding(crate::specs::Companions::may_have_companion))]
pub(crate) fn may_have_companion(path: &[u8], bytes: &[u8]) -> bool
    ensures { result ≡ may_have_companion path.now bytes.now }
{
    !is_companion_name(SplitPath::of(path).name) && is_data_fork(bytes)
}

/// Returns whether a name is that of a companion that macOS makes.
fn is_companion_name(name: &[u8]) -> bool
    ensures { result ≡ bytes_eq (codes "._") (take 2 name.now) }
{
    name.starts_with(b"._")
}

/// Returns the companion of the file at a path: the first file with a resource fork among those that may be its companion.
pub(crate) fn find_companion<'a, F: Files>(
    alloc: Global,
    files: &mut F,
    path: &[u8],
) -> Option<Companion<'a>>
    ensures { Looks (record { state = F.state; reason = F.reason; was_read = F.was_read; was_written = F.was_written }) path.now files.old files.new (companion_places path.now) (option_map (companion_seen path.now) result) }
{
    let split = SplitPath::of(path);
    match look_near(alloc, files, split) {
        Some(companion) => Some(companion),
        None => look_above(alloc, files, split),
    }
}

/// Returns the companion of a file that is in the same folder, or in one of the folders there.
#[tactic(auto, unfolding(crate::specs::Companions::near_places))]
fn look_near<'a, F: Files>(
    alloc: Global,
    files: &mut F,
    path: SplitPath<'_>,
) -> Option<Companion<'a>>
    ensures { (own : List ℕ) → Looks (record { state = F.state; reason = F.reason; was_read = F.was_read; was_written = F.was_written }) own files.old files.new (near_places path.entry.folder.now path.entry.name.now) (option_map (companion_seen own) result) }
{
    let places = [
        CompanionPlace {
            before: b"._",
            after: b"",
        },
        CompanionPlace {
            before: b"__MACOSX/._",
            after: b"",
        },
        CompanionPlace {
            before: b".AppleDouble/",
            after: b"",
        },
        CompanionPlace {
            before: b".rsrc/",
            after: b"",
        },
        CompanionPlace {
            before: b"",
            after: b".rsrc",
        },
        CompanionPlace {
            before: b"%",
            after: b"",
        },
        CompanionPlace {
            before: b"resource.frk/",
            after: b"",
        },
        CompanionPlace {
            before: b".resource/",
            after: b"",
        },
    ];
    look_at_places(alloc, files, path, &places)
}

/// Returns the companion of a file that is in a folder `__MACOSX` above. Each of these mirrors the folders beside it.
fn look_above<'a, F: Files>(
    alloc: Global,
    files: &mut F,
    path: SplitPath<'_>,
) -> Option<Companion<'a>>
    ensures { (own : List ℕ) → Looks (record { state = F.state; reason = F.reason; was_read = F.was_read; was_written = F.was_written }) own files.old files.new (mirrors_before path.entry.folder.now path.entry.name.now (length path.entry.folder.now)) (option_map (companion_seen own) result) }
{
    let mut end = path.folder.len();
    while end > 0 {
        let Some(at) = name_before(path.folder, end) else {
            return None;
        };
        match look_at_mirror(alloc, files, path, at) {
            Some(companion) => return Some(companion),
            None => end = at,
        }
    }
    None
}

/// Returns the offset at which the last folder's name before an offset begins, if it is a name.
fn name_before(folder: &[u8], end: usize) -> Option<usize>
    requires { end ≤ length folder.now }
    ensures before { IfSome result (λ at. at < end) }
    ensures places { (name : List ℕ) → mirrors_before folder.now name end ≡ mirrors_from folder.now name result }
{
    let mut at = end;
    while at > 0 {
        at -= 1;
        if is_start(folder, at) {
            let (_, rest) = folder.split_at(at);
            return if is_unnamed(rest) { None } else { Some(at) };
        }
    }
    None
}

/// Returns whether the name of a folder may begin at an offset of a path.
fn is_start(folder: &[u8], at: usize) -> bool
    requires { at < length folder.now }
    ensures { result ≡ is_start folder.now at }
{
    at == 0 || folder[at - 1] == b'/'
}

/// Returns whether the rest of a path begins with no name of a folder.
fn is_unnamed(rest: &[u8]) -> bool
    ensures { result ≡ is_unnamed rest.now }
{
    rest.starts_with(b"/") || rest.starts_with(b"./") || rest.starts_with(b"../")
}

/// Returns the companion in the folder `__MACOSX` at an offset of the path, if there is one.
fn look_at_mirror<'a, F: Files>(
    alloc: Global,
    files: &mut F,
    path: SplitPath<'_>,
    at: usize,
) -> Option<Companion<'a>>
    requires { at ≤ length path.folder.now }
    ensures { (own : List ℕ) → LooksAt (record { state = F.state; reason = F.reason; was_read = F.was_read; was_written = F.was_written }) own files.old files.new (mirror_of path.entry.folder.now path.entry.name.now at) (option_map (companion_seen own) result) }
{
    match mirror_path(alloc, path, at) {
        Ok(path) => read_companion(alloc, files, path),
        Err(AllocError) => Some(Companion::Lacking),
    }
}

/// Returns the path of the companion in the folder `__MACOSX` at an offset of the path.
fn mirror_path(alloc: Global, path: SplitPath<'_>, at: usize) -> Result<Vec<u8>, AllocError>
    requires { at ≤ length path.folder.now }
    ensures { IfOk result (λ p. p.items ≡ mirror_of path.entry.folder.now path.entry.name.now at) }
{
    let (above, below) = path.folder.split_at(at);
    let mut bytes = Vec::from_slice(alloc, above)?;
    bytes.extend_from_slice(b"__MACOSX/")?;
    bytes.extend_from_slice(below)?;
    bytes.extend_from_slice(b"._")?;
    bytes.extend_from_slice(path.name)?;
    Ok(bytes)
}

/// Returns the companion at the first of some places that has one.
fn look_at_places<'a, F: Files>(
    alloc: Global,
    files: &mut F,
    path: SplitPath<'_>,
    places: &[CompanionPlace],
) -> Option<Companion<'a>>
    ensures { (own : List ℕ) → Looks (record { state = F.state; reason = F.reason; was_read = F.was_read; was_written = F.was_written }) own files.old files.new (map (place_seen path.entry.folder.now path.entry.name.now) places.now) (option_map (companion_seen own) result) }
{
    for place in places {
        match look_at(alloc, files, path, *place) {
            Some(companion) => return Some(companion),
            None => {}
        }
    }
    None
}

/// Returns the companion at a place, if there is one.
fn look_at<'a, F: Files>(
    alloc: Global,
    files: &mut F,
    path: SplitPath<'_>,
    place: CompanionPlace,
) -> Option<Companion<'a>>
    ensures { (own : List ℕ) → LooksAt (record { state = F.state; reason = F.reason; was_read = F.was_read; was_written = F.was_written }) own files.old files.new (place_seen path.entry.folder.now path.entry.name.now place) (option_map (companion_seen own) result) }
{
    match place_path(alloc, path, place) {
        Ok(path) => read_companion(alloc, files, path),
        Err(AllocError) => Some(Companion::Lacking),
    }
}

/// Returns the path of a place.
fn place_path(
    alloc: Global,
    path: SplitPath<'_>,
    place: CompanionPlace,
) -> Result<Vec<u8>, AllocError>
    ensures { IfOk result (λ p. p.items ≡ place_of path.entry.folder.now path.entry.name.now place.before.now place.after.now) }
{
    let mut bytes = Vec::from_slice(alloc, path.folder)?;
    bytes.extend_from_slice(place.before)?;
    bytes.extend_from_slice(path.name)?;
    bytes.extend_from_slice(place.after)?;
    Ok(bytes)
}

/// Returns the companion at a path, if there is one.
fn read_companion<'a, F: Files>(
    alloc: Global,
    files: &mut F,
    path: Vec<u8>,
) -> Option<Companion<'a>>
    ensures { (own : List ℕ) → LooksAt (record { state = F.state; reason = F.reason; was_read = F.was_read; was_written = F.was_written }) own files.old files.new path.items (option_map (companion_seen own) result) }
{
    match files.read(alloc, path.as_slice()) {
        Ok(bytes) => {
            if is_resource_file(bytes.as_slice()) {
                Some(Companion::Found { path, bytes })
            } else {
                None
            }
        }
        Err(FileFault::Failed) => None,
        Err(FileFault::OutOfMemory) => Some(Companion::Lacking),
    }
}
