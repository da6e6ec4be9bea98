ghost use Rattle.std.specs.Prelude.{◌≡◌, true};
ghost use Rattle.pef_ports.specs.Ports.{one_more};

use crate::{Sink, Source, StreamFault};
use std::io::{ErrorKind, Read, Write};

/// An input.
#[derive(Drop)]
pub struct Input<R: Read + Drop> {
    reader: R,
    failures: u64,
    failed: bool,
}

impl<R: Read + Drop> Input<R> {
    pub fn new(reader: R) -> Input<R> {
        Input {
            reader,
            failures: 0,
            failed: false,
        }
    }
}

impl<R: Read + Drop> Source for Input<R> {
    ghost stream = { λ input. record {
      bytes = R.remaining input.reader;
      failures = input.failures;
      failed = input.failed;
    } };

    fn read(&mut self, buffer: &mut [u8]) -> Result<usize, StreamFault> {
        match self.reader.read(buffer) {
            Ok(count) => {
                self.failed = false;
                Ok(count)
            }
            Err(_) => {
                self.failures = self.failures.saturating_add(1);
                self.failed = true;
                Err(StreamFault)
            }
        }
    }
}

/// An output.
#[derive(Drop)]
pub struct Output<W: Write + Drop> {
    writer: W,
    failures: u64,
    failed: bool,
    /// Whether the last write failed because nothing reads the output any more.
    unread: bool,
}

impl<W: Write + Drop> Output<W> {
    pub fn new(writer: W) -> Output<W> {
        Output {
            writer,
            failures: 0,
            failed: false,
            unread: false,
        }
    }

    /// Returns whether the last write failed because nothing reads the output any more, as after `| head`. It is for the user:
    /// nothing else depends on it.
    pub fn is_unread(&self) -> bool
        ensures { result ≡ self.now.unread }
    {
        self.unread
    }
}

impl<W: Write + Drop> Output<W> {
    fn fault(&mut self, unread: bool) -> StreamFault
        ensures count { self.new.failures ≡ one_more self.old.failures }
        ensures failed { self.new.failed ≡ true }
        ensures written { self.new.writer ≡ self.old.writer }
        ensures unread { self.new.unread ≡ unread }
    {
        self.failures = self.failures.saturating_add(1);
        self.failed = true;
        self.unread = unread;
        StreamFault
    }
}

impl<W: Write + Drop> Sink for Output<W> {
    ghost stream = { λ out. record {
      bytes = W.contents out.writer;
      failures = out.failures;
      failed = out.failed;
    } };

    fn write(&mut self, bytes: &[u8]) -> Result<usize, StreamFault> {
        match self.writer.write(bytes) {
            // A write that takes no byte of some would be repeated without end.
            Ok(taken) if taken > 0 || bytes.is_empty() => {
                self.failed = false;
                Ok(taken)
            }
            Ok(_) => Err(self.fault(false)),
            Err(error) => Err(self.fault(error.kind() == ErrorKind::BrokenPipe)),
        }
    }
}
