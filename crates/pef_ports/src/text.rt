ghost use Rattle.std.specs.Prelude.{◌≡◌, length};

use crate::ports::{Sink, StreamFault};
use std::alloc::Allocator;

/// An output that keeps its bytes in memory. It fails only if an allocation fails.
#[derive(Drop)]
pub struct Text<A: Allocator> {
    bytes: Vec<u8, A>,
    failures: u64,
    failed: bool,
}

impl<A: Allocator> Sink for Text<A> {
    ghost use Rattle.std.specs.Prelude.{Some};

    ghost stream = { λ text. record { bytes = Some text.bytes.items; failures = text.failures; failed = text.failed } };

    fn write(&mut self, bytes: &[u8]) -> Result<usize, StreamFault> {
        if self.bytes.extend_from_slice(bytes).is_err() {
            self.failures = self.failures.saturating_add(1);
            self.failed = true;
            return Err(StreamFault);
        }
        self.failed = false;
        Ok(bytes.len())
    }
}

impl<A: Allocator> Text<A> {
    /// Returns an output that has these bytes already.
    pub fn new(bytes: Vec<u8, A>) -> Text<A>
        ensures { result.bytes.items ≡ bytes.items }
    {
        Text {
            bytes,
            failures: 0,
            failed: false,
        }
    }

    /// Returns how many bytes there are.
    pub fn len(&self) -> usize
        ensures { result ≡ length self.now.bytes.items }
    {
        self.bytes.len()
    }

    /// Returns the bytes.
    pub fn into_bytes(self) -> Vec<u8, A>
        ensures { result.items ≡ self.bytes.items }
    {
        let Text { bytes, .. } = self;
        bytes
    }
}
