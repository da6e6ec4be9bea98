ghost use Rattle.std.specs.Prelude.{◌≡◌, ℕ, List, IfErr, OnOk, Result};
ghost use Rattle.std.specs.IoError.{error_kind};
ghost use Rattle.std.specs.declared.io.ErrorKind.{ErrorKind};
ghost use Rattle.pef_ports.specs.System.Disk.{IsReason, accepted, answer_of, fault_of, most_read, reason_of, room_for, seen};
ghost use Rattle.pef_ports.specs.Ports.{counted};
ghost use Rattle.pef_ports.specs.declared.ports.FileFault.TheVariants.{Failed};
ghost use Rattle.pef_ports.specs.declared.ports.FileReason.TheVariants.{NotUtf8};

use crate::{FileFault, FileReason, Files};
use std::alloc::Global;
use std::fs::{self, File};
use std::io::{self, Error, ErrorKind, Read};
use std::{rt, str};

/// The most bytes that are read of a device or a pipe, as of the standard input.
const MOST_BYTES: u64 = 536_870_912;

/// A system's whole files, by their paths.
pub trait Disk {
    /// Whether a call of `read_file` by a path may have this result. Clauses use it to say which calls a port made. A disk need
    /// not define it.
    ghost did_read: { Self → List ℕ → Result (List ℕ) ErrorKind → Type 0 } = { λ _ _ _. Unit {0} };

    /// Whether a call of `write_file` by a path with some bytes may have this result.
    ghost did_write: { Self → List ℕ → List ℕ → Result (Unit {0}) ErrorKind → Type 0 } = { λ _ _ _ _. Unit {0} };

    /// Returns all bytes of the file at `path`.
    fn read_file(&self, path: &str) -> io::Result<Vec<u8>>
        ensures { did_read self.now path.now (seen (λ bytes. bytes.items) result) };

    /// Replaces the contents of the file at `path` by `bytes`.
    fn write_file(&self, path: &str, bytes: &[u8]) -> io::Result<()>
        ensures { did_write self.now path.now bytes.now (seen (λ done. done) result) };
}

/// No clause can say what a real file gives, so a call of the system may do anything. What can be decided by values has functions
/// of its own, with clauses; what is left calls the system.
impl<R: rt::Files + AllocGlobal> Disk for R {
    fn read_file(&self, path: &str) -> io::Result<Vec<u8>> {
        let metadata = fs::metadata(self, path)?;
        let file = File::open(self, path)?;
        let room = room_for(metadata.is_file(), metadata.len());
        let bytes = Vec::with_capacity(self.alloc(), room)?;
        let bytes = match most_read(metadata.is_file()) {
            Some(most) => read_all(file.take(most), bytes)?,
            None => read_all(file, bytes)?,
        };
        accepted(metadata.is_file(), bytes)
    }

    fn write_file(&self, path: &str, bytes: &[u8]) -> io::Result<()> {
        fs::write(self, path, bytes)
    }
}

/// Returns some bytes with all that a reader gives after them.
fn read_all<R: Read + Drop>(mut reader: R, mut bytes: Vec<u8>) -> io::Result<Vec<u8>> {
    reader.read_to_end(&mut bytes)?;
    Ok(bytes)
}

/// Returns for how many bytes memory is taken before a file of this size is read: one more than it has, since the read that
/// finds the end needs room, too. The size of a device or a pipe says nothing.
fn room_for(is_file: bool, size: u64) -> usize
    ensures { result ≡ room_for is_file size }
{
    if is_file {
        (size as usize).saturating_add(1)
    } else {
        0
    }
}

/// Returns how many bytes are read at most, if not all are. A device or a pipe need not have an end.
fn most_read(is_file: bool) -> Option<u64>
    ensures { result ≡ most_read is_file }
{
    if is_file { None } else { Some(MOST_BYTES + 1) }
}

/// Returns what was read, unless it is of a device or a pipe with too many bytes.
fn accepted(is_file: bool, bytes: Vec<u8>) -> io::Result<Vec<u8>>
    ensures { seen (λ bytes. bytes.items) result ≡ accepted is_file bytes.items }
{
    if !is_file && bytes.len() as u64 > MOST_BYTES {
        return Err(Error::from(ErrorKind::FileTooLarge));
    }
    Ok(bytes)
}

/// The files of a disk.
#[derive(Drop)]
pub struct DiskFiles<'a, D> {
    disk: &'a D,
    failures: u64,
    /// Why the last call that failed did.
    reason: FileReason,
}

impl<'a, D: Disk> DiskFiles<'a, D> {
    pub fn new(disk: &'a D) -> DiskFiles<'a, D> {
        DiskFiles {
            disk,
            failures: 0,
            reason: FileReason::Other,
        }
    }

    /// Returns the result for what the disk did. A failure is counted, and its reason is kept.
    fn answer<T: Drop>(&mut self, did: io::Result<T>) -> Result<T, FileFault>
        ensures answer { result ≡ answer_of (seen (λ value. value) did) }
        ensures done { OnOk result (self.new.failures ≡ self.old.failures) }
        ensures fails { IfErr result (λ fault. self.new.failures ≡ counted fault self.old.failures) }
        ensures reason { IsReason (seen (λ value. value) did) self.new.reason }
    {
        match did {
            Ok(value) => Ok(value),
            Err(error) => Err(self.fault(error.kind())),
        }
    }

    fn fault(&mut self, kind: ErrorKind) -> FileFault
        ensures fault { result ≡ fault_of kind }
        ensures count { self.new.failures ≡ counted result self.old.failures }
        ensures reason { self.new.reason ≡ reason_of kind }
    {
        self.reason = reason_of(kind);
        match kind {
            ErrorKind::OutOfMemory => FileFault::OutOfMemory,
            _ => self.failed(),
        }
    }

    fn failed(&mut self) -> FileFault
        ensures fault { result ≡ Failed }
        ensures count { self.new.failures ≡ counted result self.old.failures }
        ensures reason { self.new.reason ≡ self.old.reason }
    {
        self.failures = self.failures.saturating_add(1);
        FileFault::Failed
    }

    /// Returns the fault of a path that isn't UTF-8.
    fn misnamed(&mut self) -> FileFault
        ensures fault { result ≡ Failed }
        ensures count { self.new.failures ≡ counted result self.old.failures }
        ensures reason { self.new.reason ≡ NotUtf8 }
    {
        self.reason = FileReason::NotUtf8;
        self.failed()
    }
}

/// Returns why the system refused, by the kind of its error.
fn reason_of(kind: ErrorKind) -> FileReason
    ensures { result ≡ reason_of kind }
{
    match kind {
        ErrorKind::NotFound | ErrorKind::NotADirectory => FileReason::Missing,
        ErrorKind::IsADirectory => FileReason::Folder,
        ErrorKind::PermissionDenied | ErrorKind::ReadOnlyFilesystem => FileReason::Forbidden,
        ErrorKind::StorageFull | ErrorKind::QuotaExceeded => FileReason::Full,
        ErrorKind::FileTooLarge => FileReason::TooLong,
        _ => FileReason::Other,
    }
}

impl<'a, D: Disk> Files for DiskFiles<'a, D> {
    ghost use Rattle.std.specs.Prelude.{None};
    ghost use Rattle.pef_ports.specs.System.Disk.{IsAnswered};

    ghost state = { λ files. record { contents = None; failures = files.failures } };

    ghost was_read = { λ before path answer after. IsAnswered (D.did_read before.disk.now path) path answer after.reason };

    ghost was_written = { λ before path bytes answer after. IsAnswered (D.did_write before.disk.now path bytes) path answer after.reason };

    ghost reason = { λ files. files.reason };

    fn reason(&self) -> FileReason {
        self.reason
    }

    fn read(&mut self, _alloc: Global, path: &[u8]) -> Result<Vec<u8>, FileFault> {
        match str::from_utf8(path) {
            Ok(path) => self.answer(self.disk.read_file(path)),
            Err(_) => Err(self.misnamed()),
        }
    }

    fn write(&mut self, path: &[u8], bytes: &[u8]) -> Result<(), FileFault> {
        match str::from_utf8(path) {
            Ok(path) => self.answer(self.disk.write_file(path, bytes)),
            Err(_) => Err(self.misnamed()),
        }
    }
}
