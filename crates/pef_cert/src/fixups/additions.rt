ghost use Rattle.std.specs.Prelude.{◌≡◌};
ghost use Rattle.std.specs.Option.{option_map};
ghost use Rattle.pef_cert.specs.Fixups.Additions.{after_first, is_added};
ghost use Rattle.pef_reloc.specs.declared.fixup.Base.TheVariants.{Import};

use pef_reloc::{Base, Fixup};

/// The bytes of a word.
pub const WORD: u64 = pef_reloc::WORD as u64;

/// Returns whether a fixup adds `base` at `offset`, in bytes.
pub fn adds_at(fixup: Fixup, offset: u64, base: Base) -> bool
    ensures { result ≡ is_added offset base fixup }
{
    u64::from(fixup.offset) == offset && fixup.base == base
}

/// Returns the fixups left after the first, if it adds `base` at `offset`. `None` if it doesn't, or there
/// is none.
pub fn after_first(fixups: &[Fixup], offset: u64, base: Base) -> Option<&[Fixup]>
    ensures { option_map (λ l. l.now) result ≡ after_first offset base fixups.now }
{
    let (first, rest) = fixups.split_first()?;
    adds_at(*first, offset, base).then_some(rest)
}

/// Returns the fixups left after the first, if it adds the import with a number at `offset`. `None` if it
/// doesn't, or there is none.
pub fn after_import(fixups: &[Fixup], offset: u64, import: u64) -> Option<&[Fixup]>
    ensures { option_map (λ l. l.now) result ≡ after_first offset (Import import) fixups.now }
{
    let (first, rest) = fixups.split_first()?;
    adds_import_at(*first, offset, import).then_some(rest)
}

/// Returns whether a fixup adds the import with a number at `offset`.
fn adds_import_at(fixup: Fixup, offset: u64, import: u64) -> bool
    ensures { result ≡ is_added offset (Import import) fixup }
{
    match fixup.base {
        Base::Import(number) => u64::from(fixup.offset) == offset && u64::from(number) == import,
        Base::Section(_) => false,
    }
}
