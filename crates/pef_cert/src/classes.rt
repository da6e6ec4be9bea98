ghost use Rattle.std.specs.Prelude.{◌≡◌, ◌==◌};
ghost use Rattle.pef_cert.specs.Extension.{change};
ghost use Rattle.pef_cert.specs.Labels.{class_of};

/// Returns the class of a section: its place among the registers, or their number for every other
/// section.
pub fn class_of(registers: &[u32], section: u32) -> usize
    ensures { result ≡ class_of registers.now section }
{
    let mut class = 0;
    for register in registers {
        if *register == section {
            return class;
        }
        class += 1;
    }
    class
}

/// Returns whether a section has a class. If another section is the register with that class, this takes one test.
#[inline(always)]
pub fn has_class(registers: &[u32], section: u32, class: usize) -> bool
    ensures { result ≡ (class_of registers.now section == class) }
{
    match registers.get(class) {
        Some(register) if *register != section => false,
        _ => class_of(registers, section) == class,
    }
}

/// Returns 1 if a register's class must change, otherwise 0.
pub fn change(class: usize, other: usize) -> u64
    ensures { result ≡ change class other }
{
    if class == other { 0 } else { 1 }
}
