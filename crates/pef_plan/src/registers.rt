ghost use Rattle.std.specs.Prelude.{◌≡◌, ◌<◌, ◌||◌, ℕ, IfOk, false, length, slice_index_or, true};
ghost use Rattle.pef_cert.specs.Valid.{RegistersOf};
ghost use Rattle.pef_reloc.specs.Deliveries.{is_section, uses_section};
ghost use Rattle.pef_reloc.specs.Fixups.{base_fits, fixups_fit};
ghost use Rattle.pef_reloc.specs.Limits.{most_sections};

use pef_reloc::{Base, Fixup, MAX_SECTIONS};
use std::alloc::{AllocError, Global};

/// Returns the sections that fixups use, in rising order.
pub(crate) fn registers_of(alloc: Global, fixups: &[Fixup]) -> Result<Vec<u32>, AllocError>
    requires { fixups_fit fixups.now ≡ true }
    ensures { IfOk result (λ registers. RegistersOf fixups.now registers.items) }
{
    let mut used = [false; MAX_SECTIONS as usize];
    mark_used(fixups, &mut used);
    let mut registers = Vec::new(alloc);
    for section in 0..MAX_SECTIONS {
        if used[section as usize] {
            registers.push(section)?;
        }
    }
    Ok(registers)
}

/// Marks the sections that fixups use.
fn mark_used(fixups: &[Fixup], used: &mut [bool])
    requires fit { fixups_fit fixups.now ≡ true }
    requires len { length used.old ≡ most_sections }
    requires none { (k : ℕ) → slice_index_or used.old k false ≡ false }
    ensures len { length used.new ≡ length used.old }
    ensures used { (k : ℕ) → slice_index_or used.new k false ≡ uses_section fixups.now k }
{
    for fixup in fixups {
        mark(fixup.base, used);
    }
}

/// Marks the section of a base, if it is one.
fn mark(base: Base, used: &mut [bool])
    requires fits { base_fits base ≡ true }
    requires len { length used.old ≡ most_sections }
    ensures len { length used.new ≡ length used.old }
    ensures used { (k : ℕ) → slice_index_or used.new k false ≡ (slice_index_or used.old k false || is_section k base) }
{
    match base {
        Base::Section(section) => used[section as usize] = true,
        Base::Import(_) => {}
    }
}
