ghost use Rattle.std.specs.Prelude.{◌≡◌};
ghost use Rattle.pef_cert.specs.Kept.Registers.{all_registered, is_registered};
ghost use Rattle.pef_cert.specs.Fixups.Answers.{Says};
ghost use Rattle.pef_labels.specs.Rising.{above_all};
ghost use Rattle.pef_cert.specs.Valid.{RegistersOf, rises};
ghost use Rattle.pef_reloc.specs.Deliveries.{all_meet, is_section, uses_section};

use crate::classes::class_of;
use pef_reloc::{Base, Fixup};

/// Returns whether registers are the sections that the fixups use, rising.
pub(crate) fn registers_hold(fixups: &[Fixup], registers: &[u32]) -> bool
    ensures { Says result (RegistersOf fixups.now registers.now) }
{
    if !are_rising(registers) {
        return false;
    }
    if !all_used(fixups, registers) {
        return false;
    }
    all_registered(fixups, registers)
}

/// Returns whether numbers rise.
pub fn are_rising(numbers: &[u32]) -> bool
    ensures { result ≡ rises numbers.now }
{
    match numbers.split_first() {
        Some((first, rest)) => rise_above(*first, rest),
        None => true,
    }
}

/// Returns whether numbers rise, from above a first one.
fn rise_above(first: u32, numbers: &[u32]) -> bool
    ensures { result ≡ above_all first numbers.now }
{
    let mut low = first;
    for number in numbers {
        if *number <= low {
            return false;
        }
        low = *number;
    }
    true
}

/// Returns whether the fixups use each of some sections. The test ends at the first that they don't
/// use.
fn all_used(fixups: &[Fixup], sections: &[u32]) -> bool
    ensures { result ≡ all_meet (uses_section fixups.now) sections.now }
{
    for section in sections {
        if !uses_section(fixups, *section) {
            return false;
        }
    }
    true
}

/// Returns whether fixups use a section.
pub fn uses_section(fixups: &[Fixup], section: u32) -> bool
    ensures { result ≡ uses_section fixups.now section }
{
    for fixup in fixups {
        if is_section(fixup.base, section) {
            return true;
        }
    }
    false
}

/// Returns whether a base is a section.
fn is_section(base: Base, section: u32) -> bool
    ensures { result ≡ is_section section base }
{
    match base {
        Base::Section(number) => number == section,
        Base::Import(_) => false,
    }
}

/// Returns whether each section of the fixups is one of the registers.
fn all_registered(fixups: &[Fixup], registers: &[u32]) -> bool
    ensures { result ≡ all_registered registers.now fixups.now }
{
    for fixup in fixups {
        if !is_registered(registers, fixup.base) {
            return false;
        }
    }
    true
}

/// Returns whether a base is an import or one of the registers.
fn is_registered(registers: &[u32], base: Base) -> bool
    ensures { result ≡ is_registered registers.now base }
{
    match base {
        Base::Section(section) => class_of(registers, section) < registers.len(),
        Base::Import(_) => true,
    }
}
