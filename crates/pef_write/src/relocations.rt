ghost use Rattle.std.specs.Prelude.{◌≡◌, ◌++◌, ◌<◌, ◌≤◌, ◌^◌, IfOk, OnOk, length, map};
ghost use Rattle.pef_write.specs.Fields.{spelled};
ghost use Rattle.pef_write.specs.Loaders.{program_bytes, program_fields, relocation_entry};
ghost use Rattle.pef_write.specs.Kept.Encoded.{nonempty_from};
ghost use Rattle.pef_write.specs.Kept.Views.{program_entry};

use crate::field::{Field, put_fields};
use pef_format::layout::HALFWORD_SIZE;
use std::alloc::{AllocError, Global};

/// The relocation program of a section.
#[derive(Clone, Copy)]
pub(crate) struct SectionProgram<'a> {
    /// The section's number.
    pub section: u16,
    /// The program's halfwords, each with the high byte first.
    pub bytes: &'a [u8],
}

/// Returns those of `programs` that have bytes, each with the number of its section.
pub(crate) fn section_programs<'p>(
    alloc: Global,
    programs: &'p [Vec<u8>],
) -> Result<Vec<SectionProgram<'p>>, AllocError>
    requires { length programs.now ≤ 2 ^ 16 }
    ensures { IfOk result (λ own. map program_entry own.items ≡ nonempty_from 0 (map (λ p. p.items) programs.entry.now)) }
{
    let mut own = Vec::with_capacity(alloc, programs.len())?;
    for (section, program) in programs.iter().enumerate() {
        if !program.is_empty() {
            own.push(SectionProgram {
                section: section as u16,
                bytes: program.as_slice(),
            })?;
        }
    }
    Ok(own)
}

/// Returns how many bytes `programs` have in all.
pub(crate) fn programs_len(programs: &[SectionProgram<'_>]) -> usize
    requires { length (program_bytes (map program_entry programs.now)) < 2 ^ 32 }
    ensures { result ≡ length (program_bytes (map program_entry programs.now)) }
{
    let mut len = 0;
    for program in programs {
        len += program.bytes.len();
    }
    len
}

/// Appends a relocation header for each of `programs`.
pub(crate) fn put_relocations(
    out: &mut Vec<u8>,
    programs: &[SectionProgram<'_>],
) -> Result<(), AllocError>
    requires { length (program_bytes (map program_entry programs.now)) < 2 ^ 32 }
    ensures { OnOk result (out.new.items ≡ out.old.items ++ spelled (program_fields 0 (map program_entry programs.now))) }
{
    let mut at = 0;
    for program in programs {
        put_fields(out, &relocation_entry(*program, at as u32))?;
        at += program.bytes.len();
    }
    Ok(())
}

/// Appends `programs`, one after the other.
pub(crate) fn put_programs(
    out: &mut Vec<u8>,
    programs: &[SectionProgram<'_>],
) -> Result<(), AllocError>
    ensures { OnOk result (out.new.items ≡ out.old.items ++ program_bytes (map program_entry programs.now)) }
{
    for program in programs {
        out.extend_from_slice(program.bytes)?;
    }
    Ok(())
}

/// Returns the fields of the header of a program that is at `at` among the programs
/// (PEFLoaderRelocationHeader).
fn relocation_entry(program: SectionProgram<'_>, at: u32) -> [Field; 4]
    requires { length program.bytes.now < 2 ^ 32 }
    ensures { result ≡ relocation_entry at (program_entry program.entry) }
{
    [
        Field::Half(program.section),
        Field::Half(0),
        Field::Word((program.bytes.len() / HALFWORD_SIZE) as u32),
        Field::Word(at),
    ]
}
