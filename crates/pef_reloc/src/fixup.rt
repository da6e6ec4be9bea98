ghost use Rattle.std.specs.Prelude.{◌≡◌, ◌+◌, ◌&&◌, nat_le};
ghost use Rattle.pef_reloc.specs.Fixups.{base_fits, fixup_fits, fixups_fit, fixups_from};

/// How many sections a base can name: their numbers are below this.
pub const MAX_SECTIONS: u32 = 16;

/// How many imports a base can name.
pub const MAX_IMPORTS: u32 = 65_536;

/// How many fixups a section can have.
pub const MAX_FIXUPS: usize = 65_536;

/// How far a section's last word can reach, in bytes.
pub const OFFSET_LIMIT: u32 = 0x0100_0000;

/// The bytes of a word that is relocated.
pub const WORD: u32 = 4;

/// The address that is added to a word.
#[derive(Clone, Copy, Debug, PartialEq, Eq)]
pub enum Base {
    /// The address of an instantiated section, by its number.
    Section(u32),
    /// The address of an import's target, by the import's number.
    Import(u32),
}

impl Base {
    /// Returns whether its number is within the limits.
    pub fn fits(self) -> bool
        ensures { result ≡ base_fits self }
    {
        match self {
            Base::Section(section) => section < MAX_SECTIONS,
            Base::Import(import) => import < MAX_IMPORTS,
        }
    }
}

/// A word of a section to which an address is added.
#[derive(Clone, Copy, Debug, PartialEq, Eq)]
pub struct Fixup {
    /// The offset of the word in its section, in bytes.
    pub offset: u32,
    /// The address that is added.
    pub base: Base,
}

impl Fixup {
    /// Returns whether its word is at or after `end`, and both its word and its base are within the
    /// limits.
    fn follows(self, end: u32) -> bool
        ensures { result ≡ (nat_le end self.offset && fixup_fits self) }
    {
        end <= self.offset && self.offset <= OFFSET_LIMIT - WORD && self.base.fits()
    }
}

/// Returns whether these fixups of one section are apart in address order, within the limits.
#[tactic(auto, unfolding(crate::specs::Fixups::fixups_fit))]
pub fn fixups_fit(fixups: &[Fixup]) -> bool
    ensures { result ≡ fixups_fit fixups.now }
{
    fixups.len() <= MAX_FIXUPS && stand_apart(fixups)
}

/// Returns whether each fixup follows the one before it, within the limits.
fn stand_apart(fixups: &[Fixup]) -> bool
    ensures { result ≡ fixups_from 0 fixups.now }
{
    let mut end = 0;
    for fixup in fixups {
        if !fixup.follows(end) {
            return false;
        }
        end = fixup.offset + WORD;
    }
    true
}
