ghost use Rattle.std.specs.Prelude.{◌≡◌, ℕ, List, Result};
ghost use Rattle.pef_words.specs.Refusals.{result_map};
ghost use Rattle.pef_ports.specs.Ports.{FilesState, ReadsFile, ReadsSome, Stream, WritesFile, WritesSome};
ghost use Rattle.pef_ports.specs.declared.ports.FileFault.{FileFault};
ghost use Rattle.pef_ports.specs.declared.ports.FileReason.{FileReason};

use std::alloc::Global;
use thiserror::Error;

/// A stream failed, and counted the failure.
#[derive(Clone, Copy, Debug, PartialEq, Eq, Error)]
#[error("the stream failed")]
pub struct StreamFault;

/// A file could not be read or written.
#[derive(Clone, Copy, Debug, PartialEq, Eq, Error)]
pub enum FileFault {
    /// The file failed, and the failure was counted.
    #[error("the file failed")]
    Failed,
    /// An allocation failed.
    #[error("out of memory")]
    OutOfMemory,
}

/// Why a file could not be read or written, for the user: nothing else depends on it.
#[derive(Clone, Copy, Debug, PartialEq, Eq)]
pub enum FileReason {
    /// There is no such file, or a link leads to none.
    Missing,
    /// It is a folder.
    Folder,
    /// The user may not read or write it.
    Forbidden,
    /// No room is left for its bytes.
    Full,
    /// Its path isn't valid UTF-8.
    NotUtf8,
    /// It is a device or a pipe, and has no end or more than 536,870,912 bytes.
    TooLong,
    /// Another reason, or none is known.
    Other,
}

/// The output of a command.
pub trait Sink {
    /// The state of the output. Its bytes are those written so far.
    ghost stream: { Self → Stream };

    /// Writes a prefix of `bytes`, at least one byte unless `bytes` is empty, and returns its length.
    fn write(&mut self, bytes: &[u8]) -> Result<usize, StreamFault>
        ensures { WritesSome result (stream self.old) (stream self.new) bytes.now };
}

/// The input of a command.
pub trait Source {
    /// The state of the input. Its bytes are those still to be read.
    ghost stream: { Self → Stream };

    /// Reads the next bytes into the front of `buffer`, and returns how many. Into a buffer that isn't
    /// empty it reads none only at the end.
    fn read(&mut self, buffer: &mut [u8]) -> Result<usize, StreamFault>
        ensures { ReadsSome result (stream self.old) (stream self.new) buffer.new };
}

/// The files that a command reads and writes, by their paths.
pub trait Files {
    /// The state of the files.
    ghost state: { Self → FilesState };

    /// Whether a call of `read` by a path leads from the first files to the second ones, with this result.
    /// Clauses use it to say which calls a run made. A port need not define it.
    ghost was_read: { Self → List ℕ → Result (List ℕ) FileFault → Self → Type 0 } = { λ _ _ _ _. Unit {0} };

    /// Whether a call of `write` by a path with some bytes leads from the first files to the second ones,
    /// with this result.
    ghost was_written: { Self → List ℕ → List ℕ → Result (Unit {0}) FileFault → Self → Type 0 } = { λ _ _ _ _ _. Unit {0} };

    /// Why the last call that failed did.
    ghost reason: { Self → FileReason };

    /// Returns why the last call that failed did.
    fn reason(&self) -> FileReason
        ensures { result ≡ reason self.now };

    /// Returns all bytes of the file at `path`. No file is changed.
    fn read(&mut self, alloc: Global, path: &[u8]) -> Result<Vec<u8>, FileFault>
        ensures call { was_read self.old path.now (result_map (λ bytes. bytes.items) result) self.new }
        ensures told { ReadsFile (result_map (λ bytes. bytes.items) result) (state self.old) (state self.new) path.now };

    /// Replaces the contents of the file at `path` by `bytes`. If it fails, the file may have any bytes
    /// or none. No other file is changed.
    fn write(&mut self, path: &[u8], bytes: &[u8]) -> Result<(), FileFault>
        ensures call { was_written self.old path.now bytes.now result self.new }
        ensures told { WritesFile result (state self.old) (state self.new) path.now bytes.now };
}
