ghost use Rattle.std.specs.Prelude.{◌≡◌, ◌<◌};
ghost use Rattle.pef_ports.specs.Faults.{fault_name, fault_number};
ghost use Rattle.pef_ports.specs.Input.{ReadsInput};
ghost use Rattle.pef_ports.specs.Kept.Chunks.{ReadsChunk};

use crate::ports::{Source, StreamFault};
use std::alloc::{AllocError, Global};
use std::fmt;
use thiserror::Error;

/// How many bytes are read at a time.
const CHUNK: usize = 65536;

/// Why an input could not be read whole. The text is the refusal's name.
#[derive(Clone, Copy, Debug, PartialEq, Eq, Error)]
pub enum InputFault {
    /// The input failed.
    Unreadable,
    /// The input has more bytes than the limit.
    TooLong,
    /// An allocation failed.
    OutOfMemory,
}

impl InputFault {
    /// Returns the refusal's number: 73 or 74, which no refusal of another crate has, or 99.
    pub fn number(&self) -> u32
        ensures { result ≡ fault_number self.now }
    {
        match self {
            InputFault::Unreadable => 73,
            InputFault::TooLong => 74,
            InputFault::OutOfMemory => 99,
        }
    }

    /// Returns the refusal's name, which is its text.
    pub fn name(&self) -> &'static str
        ensures { result.now ≡ fault_name self.now }
    {
        match self {
            InputFault::Unreadable => "InputUnreadable",
            InputFault::TooLong => "InputTooLong",
            InputFault::OutOfMemory => "OutOfMemory",
        }
    }
}

impl fmt::Display for InputFault {
    ghost use Rattle.std.specs.Prelude.{Some};
    ghost use Rattle.pef_ports.specs.Faults.{fault_name};

    ghost output = { λ fault. Some (fault_name fault) };

    fn fmt<W: fmt::Write>(&self, f: &mut fmt::Formatter<W>) -> fmt::Result {
        f.write_str(self.name())
    }
}

impl From<AllocError> for InputFault {
    ghost use Rattle.std.specs.Prelude.{◌≡◌};
    ghost use Rattle.pef_ports.specs.declared.input.InputFault.TheVariants.{OutOfMemory};

    ghost from_gives = { λ _ e. e ≡ OutOfMemory };

    fn from(_error: AllocError) -> InputFault {
        InputFault::OutOfMemory
    }
}

/// Reads an input to its end, if it has no more than `limit` bytes.
pub fn read_input<R: Source>(
    alloc: Global,
    input: &mut R,
    limit: usize,
) -> Result<Vec<u8>, InputFault>
    ensures { ReadsInput result (R.stream input.old) (R.stream input.new) limit }
{
    let mut bytes = Vec::new(alloc);
    let mut chunk = [0; CHUNK];
    loop {
        let count = read_chunk(input, &mut chunk, limit - bytes.len())?;
        if count == 0 {
            return Ok(bytes);
        }
        let (next, _) = chunk.split_at(count);
        bytes.extend_from_slice(next)?;
    }
}

/// Reads the next bytes of an input. More than `room` bytes are refused. It allocates nothing, so its
/// two faults are reported unchanged.
fn read_chunk<R: Source>(input: &mut R, chunk: &mut [u8], room: usize) -> Result<usize, InputFault>
    ensures { ReadsChunk result (R.stream input.old) (R.stream input.new) chunk.new room }
{
    match input.read(chunk) {
        Ok(count) if count <= room => Ok(count),
        Ok(_) => Err(InputFault::TooLong),
        Err(StreamFault) => Err(InputFault::Unreadable),
    }
}
