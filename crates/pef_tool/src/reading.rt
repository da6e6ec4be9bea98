ghost use Rattle.std.specs.Prelude.{IfErr, IfOk, Ok};
ghost use Rattle.pef_ports.specs.Ports.{Reads};
ghost use Rattle.pef_tool.specs.Reading.{StopsFile};

use pef_faults::Fault;
use pef_ports::{FileFault, Files};
use std::alloc::Global;

/// Returns the bytes of the file at a path.
pub fn read_file<'a, F: Files>(
    alloc: Global,
    files: &mut F,
    path: &'a [u8],
) -> Result<Vec<u8>, Fault<'a>>
    ensures read { IfOk result (λ bytes. Reads (record { state = F.state; reason = F.reason; was_read = F.was_read; was_written = F.was_written }) files.old files.new path.now (Ok bytes.items)) }
    ensures refused { IfErr result (λ fault. StopsFile (record { state = F.state; reason = F.reason; was_read = F.was_read; was_written = F.was_written }) files.old files.new path.now fault) }
{
    match files.read(alloc, path) {
        Ok(bytes) => Ok(bytes),
        Err(FileFault::Failed) => Err(Fault::Unreadable {
            path,
            reason: files.reason(),
        }),
        Err(FileFault::OutOfMemory) => Err(Fault::OutOfMemory),
    }
}
