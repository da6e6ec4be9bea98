//! Files that are written.
ghost use Rattle.std.specs.Prelude.{◌≡◌, IfErr, Ok, OnOk, map};
ghost use Rattle.cfm_files.specs.Writing.{FileIs, StopsWriting, Unwritten, WereWritten};
ghost use Rattle.pef_ports.specs.Ports.{Writes};

use pef_faults::Fault;
use pef_ports::{FileFault, Files};

/// A file that is written.
pub trait FileToWrite {
    /// Its path, and what it gets.
    ghost file: { Self → FileIs };

    /// Returns its path.
    fn path(&self) -> &[u8]
        ensures { result.now ≡ (file self.now).path };

    /// Returns the bytes that it gets.
    fn bytes(&self) -> &[u8]
        ensures { result.now ≡ (file self.now).bytes };
}

/// Writes files, one after the other, or returns the reason why one of them isn't written. Those before it are.
pub fn write_files<'r, F: Files, T: FileToWrite>(
    files: &mut F,
    written: &'r [T],
) -> Result<(), Fault<'r>>
    ensures written { OnOk result (WereWritten (record { state = F.state; reason = F.reason; was_read = F.was_read; was_written = F.was_written }) files.old files.new (map T.file written.now)) }
    ensures refused { IfErr result (λ fault. StopsWriting (record { state = F.state; reason = F.reason; was_read = F.was_read; was_written = F.was_written }) files.old files.new (map T.file written.now) fault) }
{
    for file in written {
        match write_file(files, file) {
            Ok(()) => {}
            Err(fault) => return Err(fault),
        }
    }
    Ok(())
}

/// Writes a file.
fn write_file<'r, F: Files, T: FileToWrite>(files: &mut F, file: &'r T) -> Result<(), Fault<'r>>
    ensures written { OnOk result (Writes (record { state = F.state; reason = F.reason; was_read = F.was_read; was_written = F.was_written }) files.old files.new (T.file file.now).path (T.file file.now).bytes (Ok tt)) }
    ensures refused { IfErr result (λ fault. Unwritten (record { state = F.state; reason = F.reason; was_read = F.was_read; was_written = F.was_written }) files.old files.new (T.file file.now) fault) }
{
    let path = file.path();
    match files.write(path, file.bytes()) {
        Ok(()) => Ok(()),
        Err(FileFault::Failed) => {
            let reason = files.reason();
            Err(Fault::Unwritable { path, reason })
        }
        Err(FileFault::OutOfMemory) => Err(Fault::OutOfMemory),
    }
}
