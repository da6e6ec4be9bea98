ghost use Rattle.std.specs.Prelude.{◌≡◌, ◌+◌, ◌^◌, ◌≤◌, length, min, option_map};
ghost use Rattle.std.specs.Option.{option_copied};
ghost use Rattle.pef_words.specs.Bytes.{name_at};
ghost use Rattle.pef_loader.specs.CutNames.{cut_name};
ghost use Rattle.pef_loader.specs.Kept.Marks.{AreMarks};
ghost use Rattle.pef_loader.specs.Kept.Names.{NamesEndAt, front_name};

use crate::marks::{MARKS, NO_MARK, known_end, mark_places, step_of, step_power, zero_between};
use crate::names::names_end;
use pef_words::Cut;

/// A name, or its first bytes if it is longer than was asked for.
#[derive(Clone, Copy, Debug)]
pub struct CutName<'a> {
    pub bytes: &'a [u8],
    /// Whether these are all of its bytes.
    pub whole: bool,
}

/// The zero-ended names in some bytes. The place of the last zero byte is known, so a name that passes a limit is known to end
/// without a search for its end. Places are marked, so that a whole name is found by a short search, however long it is.
#[derive(Clone, Copy, Debug)]
pub struct Names<'a> {
    pub(crate) cut: Cut<'a>,
    pub(crate) end: usize,
    /// How far places are apart, as a power of two.
    power: u32,
    marks: [u32; MARKS],
    ghost ended: { NamesEndAt cut.bytes.now end },
    ghost small: { power ≤ 58 },
    ghost marked: { AreMarks cut.bytes.now (2 ^ power) marks },
}

impl<'a> Names<'a> {
    ghost use Rattle.pef_loader.specs.PartialViews.{cut_seen, names_bytes};

    /// Returns the names in some bytes. No place is marked: [`Names::name`] needs none.
    pub fn new(bytes: &'a [u8]) -> Names<'a>
        ensures { names_bytes result ≡ bytes.entry.now }
    {
        let cut = Cut::new(bytes);
        Names {
            cut,
            end: names_end(cut),
            power: step_power(cut.len(), MARKS),
            marks: [NO_MARK; MARKS],
        }
    }

    /// Returns the names in some bytes, whose last zero byte is right before `end`.
    pub(crate) fn ending(cut: Cut<'a>, end: usize) -> Names<'a>
        requires { NamesEndAt cut.bytes.now end }
        ensures { names_bytes result ≡ cut.entry.bytes.now }
    {
        let power = step_power(cut.len(), MARKS);
        Names {
            cut,
            end,
            power,
            marks: mark_places(cut, step_of(power)),
        }
    }

    /// Returns how many bytes there are.
    pub(crate) fn len(&self) -> usize
        ensures { result ≡ length (names_bytes self.now) }
    {
        self.cut.len()
    }

    /// Returns the zero-ended name at `from`. `None` if no zero byte follows.
    pub(crate) fn whole(&self, from: usize) -> Option<&'a [u8]>
        ensures { option_copied result ≡ name_at (names_bytes self.now) from }
    {
        if from >= self.end {
            return None;
        }
        let end = match known_end(self.cut, self.power, &self.marks, from) {
            Some(end) => end,
            None => zero_between(self.cut, from, self.cut.len())?,
        };
        Some(&self.cut.bytes()[from..end])
    }

    /// Returns the zero-ended name at `from`, and only its first `most` bytes if it is longer. `None` if no zero byte follows.
    /// It looks at no more than `most + 1` bytes.
    pub fn name(&self, from: usize, most: usize) -> Option<CutName<'a>>
        ensures { option_map cut_seen result ≡ option_map (cut_name most) (name_at (names_bytes self.now) from) }
    {
        if from >= self.end {
            return None;
        }
        let rest = self.cut.len().saturating_sub(from);
        let front = self.cut.part(from, looked_at(rest, most))?;
        Some(CutName::front(front, most))
    }
}

impl<'a> CutName<'a> {
    ghost use Rattle.pef_loader.specs.PartialViews.{cut_seen};

    /// Returns the name that begins with `front`: it ends before the first zero byte there, or is longer
    /// than `most` bytes.
    fn front(front: Cut<'a>, most: usize) -> CutName<'a>
        ensures { cut_seen result ≡ front_name most front.entry.bytes.now }
    {
        match front.name_at(0) {
            Some(name) => CutName {
                bytes: name,
                whole: true,
            },
            None => {
                let (first, _) = front.bytes().split_at(most.min(front.len()));
                CutName {
                    bytes: first,
                    whole: false,
                }
            }
        }
    }
}

/// Returns how many of the bytes that are left are looked at for the end of a name.
fn looked_at(left: usize, most: usize) -> usize
    ensures { result ≡ min left (most + 1) }
{
    left.min(most.saturating_add(1))
}
