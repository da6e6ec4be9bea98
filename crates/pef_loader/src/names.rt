ghost use Rattle.pef_loader.specs.Kept.Names.{NamesEndAt};

use memchr::memrchr;
use pef_words::Cut;

/// Returns the offset after the last zero byte: there is a zero-ended name at each offset before it, and at no
/// other.
pub(crate) fn names_end(cut: Cut<'_>) -> usize
    ensures { NamesEndAt cut.entry.bytes.now result }
{
    match memrchr(0, cut.bytes()) {
        Some(last) => last + 1,
        None => 0,
    }
}
