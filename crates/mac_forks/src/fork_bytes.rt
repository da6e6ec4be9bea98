ghost use Rattle.std.specs.Prelude.{◌≡◌, option_map};
ghost use Rattle.mac_forks.specs.Parts.{part_in, part_within};
ghost use Rattle.mac_forks.specs.Views.{part_seen};

use pef_words::Cut;

/// Some bytes of a file, and where they begin in it.
#[derive(Clone, Copy, Debug)]
pub struct ForkBytes<'a> {
    pub offset: usize,
    pub bytes: &'a [u8],
}

/// Returns the `len` bytes from `offset`, or `None` if they pass the end. No bytes are anywhere.
#[tactic(auto, unfolding(crate::specs::Parts::part_in))]
pub(crate) fn part_in<'a>(cut: Cut<'a>, offset: usize, len: usize) -> Option<ForkBytes<'a>>
    ensures { option_map part_seen result ≡ part_in cut.entry.bytes.now offset len }
{
    let start = if len == 0 { 0 } else { offset };
    let bytes = cut.part(start, len)?.bytes();
    Some(ForkBytes { offset, bytes })
}

/// Returns the `len` bytes from `offset` as far as they are there.
#[tactic(auto, unfolding(crate::specs::Parts::part_within))]
pub(crate) fn part_within<'a>(bytes: &'a [u8], offset: usize, len: usize) -> ForkBytes<'a>
    ensures { part_seen result ≡ part_within bytes.entry.now offset len }
{
    let (_, rest) = bytes.split_at(offset.min(bytes.len()));
    let (part, _) = rest.split_at(len.min(rest.len()));
    ForkBytes {
        offset,
        bytes: part,
    }
}
