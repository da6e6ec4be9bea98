ghost use Rattle.std.specs.Prelude.{◌≡◌, IfOk, length, map, option_copied, slice_get};
ghost use Rattle.pef_write.specs.Linked.{AreLinkCertificates, IsCertifiedLink, IsLinkedContainer};
ghost use Rattle.pef_write.specs.Kept.Encoded.{HasRoom, container_with};

use crate::container::write_container;
use crate::fault::LinkFault;
use crate::loader::write_loader;
use crate::program::{EncodedPrograms, certified_programs, programs};
use crate::relocations::section_programs;
use crate::sections::raw_sections;
use pef_cert::{Certificate, PackedCertificate};
use pef_plan::plan;
use pef_script::Script;
use std::alloc::Global;
use std::marker::Model;

/// A container that was linked from a script, with the lengths of its relocation programs.
#[derive(Debug, Drop)]
pub struct LinkedContainer {
    bytes: Vec<u8>,
    /// The number of halfwords of each section's program, in order.
    lengths: Vec<u32>,
}

impl Model for LinkedContainer {
    ghost use Rattle.pef_write.specs.Linked as linked;

    ghost Value = { linked.LinkedContainer };

    ghost view = { λ l. record { bytes = l.bytes.items; lengths = l.lengths.items } };
}

impl LinkedContainer {
    /// Returns the container.
    pub fn bytes(&self) -> &[u8]
        ensures { result.now ≡ self.now.bytes }
    {
        &self.bytes
    }

    /// Returns the number of sections.
    pub fn sections(&self) -> usize
        ensures { result ≡ length self.now.lengths }
    {
        self.lengths.len()
    }

    /// Returns the number of halfwords of section `k`'s relocation program, or `None` past the last section.
    /// It is 0 for a section without fixups.
    pub fn length(&self, k: usize) -> Option<u32>
        ensures { result ≡ slice_get self.now.lengths k }
    {
        self.lengths.get(k).copied()
    }
}

/// A container that was linked from a script, with the certificates of its relocation programs.
#[derive(Debug, Drop)]
pub struct Linked {
    container: LinkedContainer,
    /// The certificate of each section, in order.
    certificates: Vec<Certificate>,
}

impl Model for Linked {
    ghost use Rattle.pef_write.specs.Linked.{CertifiedContainer};

    ghost Value = { CertifiedContainer };

    ghost view = { λ l. record { container = l.container; certificates = l.certificates.items } };
}

impl Linked {
    /// Returns the container.
    pub fn bytes(&self) -> &[u8]
        ensures { result.now ≡ self.now.container.bytes }
    {
        self.container.bytes()
    }

    /// Returns the number of sections.
    pub fn sections(&self) -> usize
        ensures { result ≡ length self.now.container.lengths }
    {
        self.container.sections()
    }

    /// Returns the number of halfwords of section `k`'s relocation program, or `None` past the last section.
    /// It is 0 for a section without fixups.
    pub fn length(&self, k: usize) -> Option<u32>
        ensures { result ≡ slice_get self.now.container.lengths k }
    {
        self.container.length(k)
    }

    /// Returns the certificate of section `k`, with the program that the container has for the section, or
    /// `None` past the last section.
    pub fn certificate(&self, k: usize) -> Option<&Certificate>
        ensures { option_copied result ≡ slice_get self.now.certificates k }
    {
        self.certificates.get(k)
    }

    /// Returns the certificates of all sections, in order.
    pub fn certificates(&self) -> &[Certificate]
        ensures { result.now ≡ self.now.certificates }
    {
        &self.certificates
    }
}

/// Links a script: returns its container, with a shortest relocation program for each section that has
/// fixups, and for each section a certificate that no program without repeats is shorter.
///
/// The certificates of all sections can take far more memory than the container. [`link_container`]
/// returns the container alone, and [`link_certificates`] returns the certificates in little memory.
///
/// # Errors
///
/// Only `OutOfMemory`.
pub fn link(alloc: Global, script: &Script<'_>) -> Result<Linked, LinkFault>
    ensures { IfOk result (λ l. IsCertifiedLink script.now l) }
{
    let (certificates, encoded) = certified_programs(alloc, script)?;
    let container = encoded_container(alloc, script, encoded)?;
    Ok(Linked {
        container,
        certificates,
    })
}

/// Links a script: returns the container that [`link`] returns, without the certificates.
///
/// # Errors
///
/// Only `OutOfMemory`.
pub fn link_container(alloc: Global, script: &Script<'_>) -> Result<LinkedContainer, LinkFault>
    ensures { IfOk result (λ l. IsLinkedContainer script.now l) }
{
    let encoded = programs(alloc, script)?;
    encoded_container(alloc, script, encoded)
}

/// Links a script: returns certificates that [`link`] may return, in little memory, without the container. They have the
/// programs of the container.
///
/// # Errors
///
/// Only `OutOfMemory`.
pub fn link_certificates(
    alloc: Global,
    script: &Script<'_>,
) -> Result<Vec<PackedCertificate>, LinkFault>
    ensures { IfOk result (λ certificates. AreLinkCertificates script.now certificates.items) }
{
    let sections = &script.parts().sections;
    let mut certificates = Vec::with_capacity(alloc, sections.len())?;
    for (k, section) in sections.iter().enumerate() {
        let certificate = plan(alloc, k as u32, &section.fixups)?;
        certificates.push(certificate.packed(alloc)?)?;
    }
    Ok(certificates)
}

/// Returns the container of a script with the programs of its sections, and their lengths.
fn encoded_container(
    alloc: Global,
    script: &Script<'_>,
    encoded: EncodedPrograms,
) -> Result<LinkedContainer, LinkFault>
    requires { HasRoom script.now (map (λ p. p.items) encoded.programs.items) }
    ensures bytes { IfOk result (λ l. l.bytes ≡ container_with script.now (map (λ p. p.items) encoded.programs.items)) }
    ensures lengths { IfOk result (λ l. l.lengths ≡ encoded.lengths.items) }
{
    let EncodedPrograms { programs, lengths } = encoded;
    let bytes = container(alloc, script, &programs)?;
    Ok(LinkedContainer { bytes, lengths })
}

/// Returns the container of a script, with the programs of its sections.
fn container(alloc: Global, script: &Script<'_>, programs: &[Vec<u8>]) -> Result<Vec<u8>, LinkFault>
    requires { HasRoom script.now (map (λ p. p.items) programs.now) }
    ensures { IfOk result (λ bytes. bytes.items ≡ container_with script.now (map (λ p. p.items) programs.now)) }
{
    let loader = {
        let own = section_programs(alloc, programs)?;
        write_loader(alloc, script, &own)?
    };
    let sections = raw_sections(alloc, script)?;
    let versions = script.versions();
    Ok(write_container(alloc, versions, &sections, &loader)?)
}
