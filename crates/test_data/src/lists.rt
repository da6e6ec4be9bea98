//! Fixups in tables.
use pef_reloc::{Base, Fixup};
use std::alloc::{AllocError, Global};

pub const S0: Base = Base::Section(0);

pub const S1: Base = Base::Section(1);

pub const S2: Base = Base::Section(2);

/// Fixups by offset and base.
pub type Listed = &'static [(u32, Base)];

/// Returns the fixups of a table.
pub fn fixups(alloc: Global, listed: &[(u32, Base)]) -> Result<Vec<Fixup>, AllocError> {
    let mut fixups = Vec::new(alloc);
    for fixup in listed {
        let (offset, base) = *fixup;
        fixups.push(Fixup { offset, base })?;
    }
    Ok(fixups)
}
