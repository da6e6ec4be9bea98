ghost use Rattle.std.specs.Prelude.{◌≡◌, ◌≤◌, true};
ghost use Rattle.pef_reloc.specs.Instrs.{instr_fits, instr_length, repeat_of};
ghost use Rattle.pef_reloc.specs.Kept.Counts.{addition_count};

/// The greatest number of additions of a run.
const MAX_RUN: u32 = 512;

/// The most words that a skip passes, and the most that it adds to.
const MAX_SKIP: u32 = 255;

const MAX_SKIP_COUNT: u32 = 63;

/// The most bytes that an increment moves by.
const MAX_INCREMENT: u32 = 4096;

/// The most halfwords that a repeat reaches back, and the most passes of a short one.
pub(crate) const MAX_BLOCKS: u32 = 16;

const MAX_SHORT_PASSES: u32 = 256;

/// The bounds of the numbers in nine, twenty-two and twenty-six bits.
const SMALL_INDEX_LIMIT: u32 = 512;

const LARGE_INDEX_LIMIT: u32 = 0x0040_0000;

const POSITION_LIMIT: u32 = 0x0400_0000;

/// A relocation instruction, with its numbers by their meanings.
///
/// A run's number is the number of its additions, an increment's is in bytes, and `blocks` counts
/// halfwords. Source: `PEFBinaryFormat.h`, the relocation opcodes.
#[derive(Clone, Copy, Debug, PartialEq, Eq)]
pub enum Instr {
    /// Passes `skip` words, then adds section D to `count` words.
    BySectDWithSkip { skip: u32, count: u32 },
    /// Adds section C to this many words.
    BySectC(u32),
    /// Adds section D to this many words.
    BySectD(u32),
    /// This many times: adds section C, adds section D, passes a word.
    TVector12(u32),
    /// This many times: adds section C, adds section D.
    TVector8(u32),
    /// This many times: adds section D, passes a word.
    VTable8(u32),
    /// Adds this many imports, one after the other.
    ImportRun(u32),
    /// Adds an import, and makes the one after it the next.
    SmByImport(u32),
    /// Makes a section the new section C.
    SmSetSectC(u32),
    /// Makes a section the new section D.
    SmSetSectD(u32),
    /// Adds a section.
    SmBySection(u32),
    /// Moves on by this many bytes.
    IncrPosition(u32),
    /// Runs the preceding `blocks` halfwords `count` further times.
    SmRepeat { blocks: u32, count: u32 },
    /// Moves to an offset of the section.
    SetPosition(u32),
    /// `SmByImport` with a larger number.
    LgByImport(u32),
    /// `SmRepeat` with a larger number.
    LgRepeat { blocks: u32, count: u32 },
    /// `SmBySection` with a larger number.
    LgBySection(u32),
    /// `SmSetSectC` with a larger number.
    LgSetSectC(u32),
    /// `SmSetSectD` with a larger number.
    LgSetSectD(u32),
}

impl Instr {
    /// Returns whether its numbers fit their bits.
    pub fn fits(self) -> bool
        ensures { result ≡ instr_fits self }
    {
        match self {
            Instr::BySectDWithSkip { skip, count } => skip <= MAX_SKIP && count <= MAX_SKIP_COUNT,
            Instr::BySectC(count)
            | Instr::BySectD(count)
            | Instr::TVector12(count)
            | Instr::TVector8(count)
            | Instr::VTable8(count)
            | Instr::ImportRun(count) => 1 <= count && count <= MAX_RUN,
            Instr::SmByImport(index)
            | Instr::SmSetSectC(index)
            | Instr::SmSetSectD(index)
            | Instr::SmBySection(index) => index < SMALL_INDEX_LIMIT,
            Instr::IncrPosition(bytes) => 1 <= bytes && bytes <= MAX_INCREMENT,
            Instr::SmRepeat { blocks, count } => {
                1 <= blocks && blocks <= MAX_BLOCKS && 1 <= count && count <= MAX_SHORT_PASSES
            }
            Instr::SetPosition(number) | Instr::LgByImport(number) => number < POSITION_LIMIT,
            Instr::LgRepeat { blocks, count } => {
                1 <= blocks && blocks <= MAX_BLOCKS && count < LARGE_INDEX_LIMIT
            }
            Instr::LgBySection(index) | Instr::LgSetSectC(index) | Instr::LgSetSectD(index) => {
                index < LARGE_INDEX_LIMIT
            }
        }
    }

    /// Returns its length in halfwords.
    pub fn length(self) -> usize
        ensures { result ≡ instr_length self }
    {
        match self {
            Instr::SetPosition(_)
            | Instr::LgByImport(_)
            | Instr::LgRepeat { .. }
            | Instr::LgBySection(_)
            | Instr::LgSetSectC(_)
            | Instr::LgSetSectD(_) => 2,
            _ => 1,
        }
    }

    /// Returns how many additions it makes in any state, a repeat by itself none.
    pub(crate) fn additions(self) -> u64
        ensures value { result ≡ addition_count self }
        ensures small { instr_fits self ≡ true → result ≤ 1024 }
    {
        match self {
            Instr::BySectDWithSkip { count, .. } => u64::from(count),
            Instr::BySectC(count)
            | Instr::BySectD(count)
            | Instr::VTable8(count)
            | Instr::ImportRun(count) => u64::from(count),
            Instr::TVector12(count) | Instr::TVector8(count) => 2 * u64::from(count),
            Instr::SmByImport(_)
            | Instr::SmBySection(_)
            | Instr::LgByImport(_)
            | Instr::LgBySection(_) => 1,
            Instr::SmSetSectC(_)
            | Instr::SmSetSectD(_)
            | Instr::IncrPosition(_)
            | Instr::SmRepeat { .. }
            | Instr::SetPosition(_)
            | Instr::LgRepeat { .. }
            | Instr::LgSetSectC(_)
            | Instr::LgSetSectD(_) => 0,
        }
    }

    /// Returns the repeat, if the instruction is one.
    pub fn repeat(self) -> Option<Repeat>
        ensures { result ≡ repeat_of self }
    {
        match self {
            Instr::SmRepeat { blocks, count } | Instr::LgRepeat { blocks, count } => Some(Repeat {
                blocks,
                passes: count,
            }),
            _ => None,
        }
    }
}

/// How many halfwords run again, and how many more times.
#[derive(Clone, Copy, Debug, PartialEq, Eq)]
pub struct Repeat {
    /// The preceding halfwords.
    pub blocks: u32,
    /// The additional passes. The pass before the repeat isn't counted.
    pub passes: u32,
}
