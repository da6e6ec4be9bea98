//! The relocation programs of a script's sections, and the certificates that none is shorter.
ghost use Rattle.std.specs.Prelude.{◌≡◌, ◌<◌, ◌^◌, ◌++◌, ◌∷◌, [], IfOk, List, OnOk, map, true};
ghost use Rattle.pef_cert.specs.Certified.{Certified};
ghost use Rattle.pef_reloc.specs.Instrs.{instrs_fit, program_length, spelled};
ghost use Rattle.pef_write.specs.Kept.Encoded.{AreEncoded};

use crate::fault::LinkFault;
use pef_cert::{Certificate, program_length};
use pef_plan::{least_program, plan};
use pef_reloc::{Instr, encode};
use pef_script::Script;
use std::alloc::{AllocError, Global};

/// The bytes of the program of each section, and its number of halfwords. A section without fixups has
/// none.
#[derive(Drop)]
pub(crate) struct EncodedPrograms {
    pub(crate) programs: Vec<Vec<u8>>,
    pub(crate) lengths: Vec<u32>,
}

impl EncodedPrograms {
    /// Returns no programs, with room for those of this many sections.
    fn with_capacity(alloc: Global, sections: usize) -> Result<EncodedPrograms, AllocError>
        ensures programs { IfOk result (λ encoded. encoded.programs.items ≡ []) }
        ensures lengths { IfOk result (λ encoded. encoded.lengths.items ≡ []) }
    {
        let programs = Vec::with_capacity(alloc, sections)?;
        let lengths = Vec::with_capacity(alloc, sections)?;
        Ok(EncodedPrograms { programs, lengths })
    }

    /// Appends the program of the next section.
    fn push(&mut self, alloc: Global, program: &[Instr]) -> Result<(), AllocError>
        requires fit { instrs_fit program.now ≡ true }
        requires short { program_length program.now < 2 ^ 32 }
        ensures programs { OnOk result (map (λ p. p.items) self.new.programs.items ≡ map (λ p. p.items) self.old.programs.items ++ spelled program.now ∷ []) }
        ensures lengths { OnOk result (self.new.lengths.items ≡ self.old.lengths.items ++ program_length program.now ∷ []) }
    {
        self.programs.push(program_bytes(alloc, program)?)?;
        self.lengths.push(program_length(program) as u32)?;
        Ok(())
    }
}

/// Returns the certificate of each section of a script, and its program.
pub(crate) fn certified_programs(
    alloc: Global,
    script: &Script<'_>,
) -> Result<(Vec<Certificate>, EncodedPrograms), LinkFault>
    ensures { IfOk result (λ certified. AreEncoded script.now certified.0.items (map (λ p. p.items) certified.1.programs.items) certified.1.lengths.items) }
{
    let sections = &script.parts().sections;
    let mut certificates = Vec::with_capacity(alloc, sections.len())?;
    let mut encoded = EncodedPrograms::with_capacity(alloc, sections.len())?;
    for (k, section) in sections.iter().enumerate() {
        let certificate = plan(alloc, k as u32, &section.fixups)?;
        encoded.push(alloc, &certificate.program)?;
        certificates.push(certificate)?;
    }
    Ok((certificates, encoded))
}

/// Returns the program of each section of a script, without its certificate, which takes far more memory.
pub(crate) fn programs(alloc: Global, script: &Script<'_>) -> Result<EncodedPrograms, LinkFault>
    ensures { IfOk result (λ encoded. (certificates : List Certified) × AreEncoded script.now certificates (map (λ p. p.items) encoded.programs.items) encoded.lengths.items) }
{
    let sections = &script.parts().sections;
    let mut encoded = EncodedPrograms::with_capacity(alloc, sections.len())?;
    for section in sections {
        let program = least_program(alloc, &section.fixups)?;
        encoded.push(alloc, &program)?;
    }
    Ok(encoded)
}

/// Returns the bytes of a program.
fn program_bytes(alloc: Global, program: &[Instr]) -> Result<Vec<u8>, AllocError>
    requires { instrs_fit program.now ≡ true }
    ensures { IfOk result (λ bytes. bytes.items ≡ spelled program.now) }
{
    let Ok(bytes) = encode(alloc, program) else {
        return Err(AllocError);
    };
    Ok(bytes)
}
