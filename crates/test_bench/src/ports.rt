//! An input, an output and files in memory, which expose their bytes.

ghost use Rattle.std.specs.Prelude.{◌<◌};

use arrayvec::ArrayVec;
use pef_ports::{FileFault, FileReason, Files, Sink, Source, StreamFault};
use std::alloc::{AllocError, Global};

/// An input that gives this many bytes a call, and fails at one call: the first if `fails_at` is 1, none if it is 0.
#[derive(Drop)]
pub struct Text<'a> {
    rest: &'a [u8],
    step: usize,
    fails_at: u32,
    failures: u64,
    failed: bool,
    ghost gives_some: { 0 < step },
}

impl<'a> Text<'a> {
    pub fn new(bytes: &'a [u8], step: usize, fails_at: u32) -> Text<'a>
        requires { 0 < step }
    {
        Text {
            rest: bytes,
            step,
            fails_at,
            failures: 0,
            failed: false,
        }
    }

    /// Returns the bytes that weren't read yet.
    pub fn rest(&self) -> &'a [u8] {
        self.rest
    }
}

impl<'a> Source for Text<'a> {
    ghost use Rattle.std.specs.Prelude.{Some};

    ghost stream = { λ text. record { bytes = Some text.rest.now; failures = text.failures; failed = text.failed } };

    fn read(&mut self, buffer: &mut [u8]) -> Result<usize, StreamFault> {
        if self.fails_at == 1 {
            self.fails_at = 0;
            self.failures = self.failures.saturating_add(1);
            self.failed = true;
            return Err(StreamFault);
        }
        self.fails_at = self.fails_at.saturating_sub(1);
        self.failed = false;
        let count = self.step.min(self.rest.len()).min(buffer.len());
        let (next, rest) = self.rest.split_at(count);
        buffer[..count].copy_from_slice(next);
        self.rest = rest;
        Ok(count)
    }
}

/// An input without end, which gives as many bytes a call as are taken.
#[derive(Drop)]
pub struct Endless;

impl Source for Endless {
    ghost use Rattle.std.specs.Prelude.{None, false};

    ghost stream = { λ _. record { bytes = None; failures = 0; failed = false } };

    fn read(&mut self, buffer: &mut [u8]) -> Result<usize, StreamFault> {
        Ok(buffer.len())
    }
}

/// The initial capacity of an output in bytes.
const ROOM: usize = 4096;

/// An output that takes this many bytes a call, and fails at one call.
#[derive(Drop)]
pub struct Sheet {
    bytes: Vec<u8>,
    step: usize,
    fails_at: usize,
    failures: u64,
    failed: bool,
    ghost takes_some: { 0 < step },
}

impl Sheet {
    pub fn new(alloc: Global, step: usize, fails_at: usize) -> Result<Sheet, AllocError>
        requires { 0 < step }
    {
        Ok(Sheet {
            bytes: Vec::with_capacity(alloc, ROOM)?,
            step,
            fails_at,
            failures: 0,
            failed: false,
        })
    }

    /// Returns the bytes that were written.
    pub fn into_bytes(self) -> Vec<u8> {
        let Sheet { bytes, .. } = self;
        bytes
    }
}

impl Sink for Sheet {
    ghost use Rattle.std.specs.Prelude.{Some};

    ghost stream = { λ sheet. record { bytes = Some sheet.bytes.items; failures = sheet.failures; failed = sheet.failed } };

    fn write(&mut self, bytes: &[u8]) -> Result<usize, StreamFault> {
        let count = self.step.min(bytes.len());
        let (taken, _) = bytes.split_at(count);
        if self.fails_at == 1 || self.bytes.extend_from_slice(taken).is_err() {
            self.fails_at = 0;
            self.failures = self.failures.saturating_add(1);
            self.failed = true;
            return Err(StreamFault);
        }
        self.fails_at = self.fails_at.saturating_sub(1);
        self.failed = false;
        Ok(count)
    }
}

/// An output in an array, so it allocates nothing. It fails if there is no room.
#[derive(Drop)]
pub struct Slip {
    bytes: ArrayVec<u8, ROOM>,
    failures: u64,
    failed: bool,
}

impl Slip {
    pub fn new() -> Slip {
        Slip {
            bytes: ArrayVec::new(),
            failures: 0,
            failed: false,
        }
    }

    /// Returns the bytes that were written.
    pub fn bytes(&self) -> &[u8] {
        self.bytes.as_slice()
    }
}

impl Sink for Slip {
    ghost use Rattle.std.specs.Prelude.{Some};

    ghost stream = { λ slip. record { bytes = Some slip.bytes.items; failures = slip.failures; failed = slip.failed } };

    fn write(&mut self, bytes: &[u8]) -> Result<usize, StreamFault> {
        if self.bytes.try_extend_from_slice(bytes).is_err() {
            self.failures = self.failures.saturating_add(1);
            self.failed = true;
            return Err(StreamFault);
        }
        self.failed = false;
        Ok(bytes.len())
    }
}

/// A file in memory.
#[derive(Drop)]
struct Paper {
    path: Vec<u8>,
    bytes: Vec<u8>,
}

/// Files in memory. If several have the same path, the newest is used. They count their calls, and fail at one call in
/// the given way.
#[derive(Drop)]
pub struct Papers {
    papers: Vec<Paper>,
    fails_at: u32,
    fault: FileFault,
    failures: u64,
    /// Why the last call that failed did.
    reason: FileReason,
    reads: u64,
    writes: u64,
}

impl Papers {
    ghost use Rattle.std.specs.Prelude.{◌≡◌, ◌∷◌, IfErr, OnOk, option_map};
    ghost use Rattle.test_bench.specs.Papers.{found_at, seen};
    ghost use Rattle.pef_ports.specs.Ports.{counted};
    ghost use Rattle.pef_ports.specs.declared.ports.FileFault.TheVariants.{OutOfMemory};

    pub fn new(alloc: Global, fails_at: u32, fault: FileFault) -> Papers {
        Papers {
            papers: Vec::new(alloc),
            fails_at,
            fault,
            failures: 0,
            reason: FileReason::Other,
            reads: 0,
            writes: 0,
        }
    }

    /// Returns the bytes of the newest file at a path.
    pub fn bytes(&self, path: &[u8]) -> Option<&[u8]>
        ensures { option_map (λ b. b.now) result ≡ found_at (seen self.now.papers.items) path.now }
    {
        for paper in &self.papers {
            if paper.path.as_slice() == path {
                return Some(paper.bytes.as_slice());
            }
        }
        None
    }

    /// Returns the numbers of `read` and `write` calls.
    pub fn calls(&self) -> (u64, u64) {
        (self.reads, self.writes)
    }

    /// Returns the number of calls that failed.
    pub fn failures(&self) -> u64 {
        self.failures
    }

    /// Returns the fault of this call, if it is the one that fails.
    fn trouble(&mut self) -> Option<FileFault>
        ensures { self.new ≡ record self.old { fails_at = self.new.fails_at } }
    {
        if self.fails_at == 1 {
            self.fails_at = 0;
            return Some(self.fault);
        }
        self.fails_at = self.fails_at.saturating_sub(1);
        None
    }

    /// Returns a fault, and counts it if it is `Failed`. The reason is kept.
    fn failed(&mut self, fault: FileFault, reason: FileReason) -> FileFault
        ensures same { result ≡ fault }
        ensures count { self.new ≡ record self.old { failures = counted fault self.old.failures; reason = reason } }
    {
        self.reason = reason;
        if fault == FileFault::Failed {
            self.failures = self.failures.saturating_add(1);
        }
        fault
    }

    /// Puts a file at a path.
    pub fn put(&mut self, path: &[u8], bytes: &[u8]) -> Result<(), FileFault>
        ensures ok { OnOk result (seen self.new.papers.items ≡ (path.now, bytes.now) ∷ seen self.old.papers.items) }
        ensures err { IfErr result (λ fault. (fault ≡ OutOfMemory) × (self.new.papers.items ≡ self.old.papers.items)) }
        ensures counts { (self.new.failures ≡ self.old.failures) × (self.new.reads ≡ self.old.reads) × (self.new.writes ≡ self.old.writes) }
    {
        let alloc = *self.papers.allocator();
        let Ok(path) = Vec::from_slice(alloc, path) else {
            return Err(FileFault::OutOfMemory);
        };
        let Ok(bytes) = Vec::from_slice(alloc, bytes) else {
            return Err(FileFault::OutOfMemory);
        };
        match self.papers.insert(0, Paper { path, bytes }) {
            Ok(()) => Ok(()),
            Err(_) => Err(FileFault::OutOfMemory),
        }
    }
}

impl Files for Papers {
    ghost use Rattle.std.specs.Prelude.{◌≡◌, Some};
    ghost use Rattle.test_bench.specs.Papers.{found_at, seen};
    ghost use Rattle.pef_ports.specs.Ports.{one_more};

    ghost state = { λ files. record {
      contents = Some (found_at (seen files.papers.items));
      failures = files.failures;
    } };

    ghost was_read = { λ before path answer after. (after.reads ≡ one_more before.reads) × (after.writes ≡ before.writes) };

    ghost was_written = { λ before path bytes answer after. (after.reads ≡ before.reads) × (after.writes ≡ one_more before.writes) };

    ghost reason = { λ files. files.reason };

    fn reason(&self) -> FileReason {
        self.reason
    }

    fn read(&mut self, alloc: Global, path: &[u8]) -> Result<Vec<u8>, FileFault> {
        self.reads = self.reads.saturating_add(1);
        if let Some(fault) = self.trouble() {
            return Err(self.failed(fault, FileReason::Other));
        }
        let Some(bytes) = self.bytes(path) else {
            return Err(self.failed(FileFault::Failed, FileReason::Missing));
        };
        match Vec::from_slice(alloc, bytes) {
            Ok(bytes) => Ok(bytes),
            Err(_) => Err(FileFault::OutOfMemory),
        }
    }

    fn write(&mut self, path: &[u8], bytes: &[u8]) -> Result<(), FileFault> {
        self.writes = self.writes.saturating_add(1);
        if let Some(fault) = self.trouble() {
            return Err(self.failed(fault, FileReason::Other));
        }
        self.put(path, bytes)
    }
}
