//! Laws of linked containers, for the proofs of crates that read them. The functions do nothing.
ghost use Rattle.std.specs.Prelude.{◌≡◌, ℕ, List, Some, slice_get};
ghost use Rattle.pef_cert.specs.Certified.{Certified};
ghost use Rattle.pef_script.specs.Script.{DescribedScript, DescribedSection};
ghost use Rattle.pef_format.specs.Exports.{Export};
ghost use Rattle.pef_script.specs.WellFormed.{ScriptHolds, VersionsHold};
ghost use Rattle.pef_script.specs.declared.parts.Versions.{Versions};
ghost use Rattle.pef_write.specs.ExportContainers.{HasExports, NumbersFit, exports_container};
ghost use Rattle.pef_write.specs.LeastPrograms.{HasLeastProgram};
ghost use Rattle.pef_write.specs.Linked.{AreLinkCertificates, IsCertifiedLink, IsLinked, IsLinkedContainer, LinkedContainer, programs_from};
ghost use Rattle.pef_write.specs.Loaders.{ProgramEntry};
ghost use Rattle.pef_write.specs.ReadBack.{IsReadBack, IsSectionProgram};

/// A linked container is read back: its bytes are a container with a loader section, which has the
/// sections and the tables of the script.
pub fn linked_containers()
    ensures { (s : DescribedScript) (l : LinkedContainer) (linked : IsLinked s l) → IsReadBack s l linked }
{}

/// Each relocation program of a linked container relocates its section as the fixups say. It isn't
/// refused if sections and imports have addresses.
pub fn linked_programs()
    ensures { (s : DescribedScript) (l : LinkedContainer) (linked : IsLinked s l) (i : ℕ) (p : ProgramEntry) → slice_get (programs_from 0 s.sections linked.programs) i ≡ Some p → IsSectionProgram s p }
{}

/// The relocation program of each section of a linked container is a least one for the section's
/// fixups, by a certificate that holds for them. It is the program that the container has for the
/// section.
pub fn linked_programs_are_least()
    ensures { (s : DescribedScript) (l : LinkedContainer) (linked : IsLinked s l) (k : ℕ) (section : DescribedSection) → slice_get s.sections k ≡ Some section → HasLeastProgram s l linked k section }
{}

/// For a script there is one container that `link` and `link_container` may give. The certificates that `link_certificates`
/// gives have the programs of this container.
pub fn scripts_have_one_link()
    ensures container { (s : DescribedScript) (a b : LinkedContainer) → IsLinkedContainer s a → IsLinkedContainer s b → a ≡ b }
    ensures certificates { (s : DescribedScript) (l : LinkedContainer) (certificates : List Certified) → IsLinkedContainer s l → AreLinkCertificates s certificates → IsCertifiedLink s (record { container = l; certificates = certificates }) }
{}

/// For every script that keeps the limits there is a linked container with least programs.
pub fn every_script_links()
    ensures { (s : DescribedScript) → ScriptHolds s → (l : LinkedContainer) × IsLinked s l }
{}

/// A container of absolute exports is read back: it has the versions and the exports, and nothing else. The first export with a name
/// is found by it.
pub fn exports_are_read_back()
    ensures { (v : Versions) (exports : List Export) (bytes : List ℕ) → VersionsHold v → NumbersFit exports → bytes ≡ exports_container v exports → HasExports v exports bytes }
{}
