ghost use Rattle.std.specs.Prelude.{◌≡◌, ◌+◌, ◌<◌, Some, drop, length};
ghost use Rattle.pef_cert.specs.Extension.{skips_at};
ghost use Rattle.pef_cert.specs.Kept.Claims.{Skips, labels_claimed};
ghost use Rattle.pef_cert.specs.Labels.{class_of};
ghost use Rattle.pef_reloc.specs.declared.fixup.Base.TheVariants.{Section};

use crate::claim::{CheckedSuffix, MAX_CLASSES};
use crate::classes::class_of;
use crate::fixups::WORD;
use pef_reloc::{Base, Fixup};

/// The most words that a skip adds to after the first.
const MORE_WORDS: u32 = 62;

impl<'a> CheckedSuffix<'a> {
    /// Returns the least value of a skip of no words at index `at`, whose fixup has a section, with
    /// register C in a class: 1 plus the extension after some of the words of the section there.
    pub(crate) fn least_skip(self, at: usize, fixup: Fixup, section: u32, c: usize) -> u64
        requires skips { Skips self at fixup section }
        requires c { c < length self.claim.registers.now + 1 }
        ensures is { skips_at (labels_claimed self.entry.claim) fixup (drop (at + 1) self.entry.claim.fixups.now) c (class_of self.entry.claim.registers.now section) ≡ Some result }
    {
        let class = class_of(self.claim.registers, section);
        let mut end = at + 1;
        let mut position = u64::from(fixup.offset) + WORD;
        let mut least = 1 + self.value(end, position, c, class);
        'words: for _ in 0..MORE_WORDS {
            if !self.claim.adds(end, position, Base::Section(section)) {
                return least;
            }
            end += 1;
            position += WORD;
            least = least.min(1 + self.value(end, position, c, class));
        }
        least
    }
}
