ghost use Rattle.std.specs.Prelude.{◌≡◌};
ghost use Rattle.pef_inspect.specs.Limits.{container_limits};

/// How many bytes the relocation programs that are read may have together.
pub const MAX_PROGRAM_BYTES: u64 = 0x0400_0000;

/// How many instructions the programs that are verified may execute together.
pub const MAX_STEPS: u64 = 0x0400_0000;

/// How many bytes of packed data are verified together.
pub const MAX_PACKED_BYTES: u64 = 0x1000_0000;

/// How many words may be compared, of all programs together, to find those that are relocated twice.
pub const MAX_WORDS: u64 = 0x0010_0000;

/// What may be spent to verify containers. Parts of a container can share bytes, and containers can, so that without limits a
/// small file could ask for any time.
#[derive(Clone, Copy, Debug, PartialEq, Eq)]
pub struct Limits {
    /// Bytes of the relocation programs that are read.
    pub program_bytes: u64,
    /// Instructions that the programs execute.
    pub steps: u64,
    /// Bytes of packed data.
    pub packed_bytes: u64,
    /// Words that are compared to find those that are relocated twice.
    pub words: u64,
}

impl Limits {
    /// Returns the limits for one container.
    pub fn for_container() -> Limits
        ensures { result ≡ container_limits }
    {
        Limits {
            program_bytes: MAX_PROGRAM_BYTES,
            steps: MAX_STEPS,
            packed_bytes: MAX_PACKED_BYTES,
            words: MAX_WORDS,
        }
    }
}
