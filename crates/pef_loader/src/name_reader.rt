ghost use Rattle.std.specs.Prelude.{◌≡◌, ◌+◌, ◌*◌, ◌/◌, ◌^◌, ◌<◌, ◌≤◌, length};
ghost use Rattle.std.specs.Option.{option_copied};
ghost use Rattle.pef_words.specs.Bytes.{name_at};
ghost use Rattle.pef_loader.specs.Kept.Marks.{AreMarks, AreNonzero, FindsZero, IsMarked};

use crate::cut_name::Names;
use crate::marks::{NO_MARK, known_end, mark_of, step_of, step_power, zero_between};

/// How many places a reader marks. They are on the stack, and no call may take more than 64 KB of that.
const FAR_MARKS: usize = 256;

/// Reads many zero-ended names of some bytes, and allocates nothing. A place is marked when a name that passes it was searched.
#[derive(Drop)]
pub(crate) struct NameReader<'a> {
    pub names: Names<'a>,
    /// How far places are apart, as a power of two.
    power: u32,
    marks: [u32; FAR_MARKS],
    ghost small: { power ≤ 58 },
    ghost marked: { AreMarks names.cut.bytes.now (2 ^ power) marks },
}

impl<'a> NameReader<'a> {
    /// Returns a reader of some names. No place is marked.
    #[inline(always)]
    pub fn new(names: Names<'a>) -> NameReader<'a>
        ensures { result.names ≡ names.entry }
    {
        NameReader {
            names,
            power: step_power(names.len(), FAR_MARKS),
            marks: [NO_MARK; FAR_MARKS],
        }
    }

    /// Returns the zero-ended name at `from`, as [`Names::whole`] does.
    pub fn name(&mut self, from: usize) -> Option<&'a [u8]>
        ensures value { option_copied result ≡ name_at self.old.names.cut.bytes.now from }
        ensures same { self.new.names ≡ self.old.names }
    {
        let names = self.names;
        if from >= names.end {
            return None;
        }
        let end = match known_end(names.cut, self.power, &self.marks, from) {
            Some(end) => end,
            None => self.search(from)?,
        };
        Some(&names.cut.bytes()[from..end])
    }

    /// Returns the first zero byte from `from` on, and marks the next place with it. There is none before that place.
    fn search(&mut self, from: usize) -> Option<usize>
        requires inside { from < length self.old.names.cut.bytes.now }
        requires far { AreNonzero self.old.names.cut.bytes.now from ((from / 2 ^ self.old.power + 1) * 2 ^ self.old.power) }
        ensures end { FindsZero self.old.names.cut.bytes.now from (length self.old.names.cut.bytes.now) result }
        ensures mark { IsMarked self.new.marks (from / 2 ^ self.old.power + 1) result }
        ensures same { self.new.names ≡ self.old.names }
    {
        let cut = self.names.cut;
        let end = zero_between(cut, from, cut.len());
        let k = from / step_of(self.power) + 1;
        if k < FAR_MARKS {
            self.marks[k] = mark_of(end);
        }
        end
    }
}
