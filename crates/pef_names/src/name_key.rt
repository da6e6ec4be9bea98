ghost use Rattle.std.proofs.Common.{ap};
ghost use Rattle.std.proofs.lemmas.Slice.Eq.{bytes_eq-Decides};
ghost use Rattle.pef_names.specs.Kept.NameKeys.{hashed};

use std::hash::{Hash, Hasher};

/// The most bytes of a name that is hashed whole. No name of an export has more.
const MOST_HASHED: usize = 65_535;

/// How many bytes of a longer name are hashed, after its length.
const FRONT: usize = 4_096;

/// A name as a key of a hash table. Its bytes are hashed together, several times faster than a slice's, which are hashed
/// one after the other.
#[derive(Clone, Copy, Debug, PartialEq, Eq)]
pub struct NameKey<'a> {
    pub bytes: &'a [u8],
}

impl<'a> Hash for NameKey<'a> {
    ghost hash_input = { λ s. hashed s.bytes.now };

    ghost respects_eq = { λ x y same. ap hashed ((bytes_eq-Decides x.bytes.now y.bytes.now).0 same) };

    fn hash<H: Hasher>(&self, state: &mut H) {
        if self.bytes.len() <= MOST_HASHED {
            state.write(self.bytes);
            return;
        }
        let (front, _) = self.bytes.split_at(FRONT);
        state.write_usize(self.bytes.len());
        state.write(front);
    }
}
