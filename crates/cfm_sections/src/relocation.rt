ghost use Rattle.std.specs.Prelude.{◌≡◌, ◌≢◌, ◌<◌, ℕ, List, IsTrue, OnOk, Some, length};
ghost use Rattle.std.specs.Result.{result_err};
ghost use Rattle.cfm_memory.specs.Extents.{AreApart, AreHeld, Stand, given_back, place_at};
ghost use Rattle.cfm_memory.specs.Instances.{bytes_at, holds_place};
ghost use Rattle.pef_loader.specs.Loader.{reloc_of};
ghost use Rattle.pef_loader.specs.Views.{loaded};
ghost use Rattle.pef_reloc.specs.Headers.{program_done, relocated_by};
ghost use Rattle.cfm_sections.specs.Prepared.{first_header_refusal};

use cfm_memory::{Memory, Place};
use pef_loader::Loader;
use pef_reloc::{Program, RelocFault, apply};

/// Why a relocation header is refused.
#[derive(Clone, Copy)]
pub struct HeaderFault {
    pub header: u32,
    /// The number of the section that its program relocates.
    pub section: u32,
    pub fault: RelocFault,
}

/// Relocates the sections at some places by the relocation headers, in their order, up to the first that
/// is refused.
///
/// `places` and `sections` are the places and the addresses of the fragment's instantiated sections, and
/// `imports` the addresses of its imports' targets. Each header is read and applied, from fresh
/// registers, before the next is read.
///
/// # Errors
///
/// The first refusal, of a header's program or of its execution. The sections then have unspecified
/// bytes. None is released.
pub fn relocate_sections(
    memory: &mut Memory,
    places: &[Place],
    loader: &Loader<'_>,
    sections: &[u32],
    imports: &[u32],
) -> Result<(), HeaderFault>
    requires count { (loaded loader.now).sections ≡ length places.now }
    requires apart { AreApart places.now }
    requires held { AreHeld memory.old places.now }
    ensures refused { (bytes : ℕ → List ℕ) → Stand memory.old places.now bytes
        → result_err result ≡ first_header_refusal (record { sections = sections.now; imports = imports.now }) bytes (reloc_of (loaded loader.now)) (loaded loader.now).header.reloc_count }
    ensures relocated { OnOk result ((bytes : ℕ → List ℕ) → Stand memory.old places.now bytes
        → Stand memory.new places.now (λ k. (relocated_by (record { sections = sections.now; imports = imports.now }) k (reloc_of (loaded loader.now)) 0 (loaded loader.now).header.reloc_count (bytes k)).memory)) }
    ensures others { given_back memory.new places.now ≡ given_back memory.old places.now }
    ensures held { AreHeld memory.new places.now }
{
    for i in 0..loader.relocs() {
        let Some((section, program)) = loader.reloc(i) else {
            unreachable!()
        };
        let place = places[section as usize];
        match relocate_section(memory, place, program, sections, imports) {
            Ok(()) => {}
            Err(fault) => {
                return Err(HeaderFault {
                    header: i as u32,
                    section,
                    fault,
                });
            }
        }
    }
    Ok(())
}

/// Relocates the section at a place by a program.
fn relocate_section(
    memory: &mut Memory,
    place: Place,
    program: &[u8],
    sections: &[u32],
    imports: &[u32],
) -> Result<(), RelocFault>
    requires { IsTrue (holds_place memory.old place) }
    ensures here { (bytes : List ℕ) → bytes_at memory.old.instances place.address ≡ Some bytes
        → bytes_at memory.new.instances place.address ≡ Some (program_done (record { sections = sections.now; imports = imports.now }) program.now bytes).memory }
    ensures fault { (bytes : List ℕ) → bytes_at memory.old.instances place.address ≡ Some bytes
        → result_err result ≡ (program_done (record { sections = sections.now; imports = imports.now }) program.now bytes).fault }
    ensures elsewhere { (address : ℕ) → address ≢ place.address → bytes_at memory.new.instances address ≡ bytes_at memory.old.instances address }
    ensures others { (places : List Place) (k : ℕ) → k < length places → (place_at places k).address ≡ place.address → given_back memory.new places ≡ given_back memory.old places }
    ensures held { (other : Place) → IsTrue (holds_place memory.old other) → IsTrue (holds_place memory.new other) }
{
    let part = memory.part_mut(place);
    relocate_whole(part, program, sections, imports)
}

/// Relocates memory by the program that the bytes spell.
fn relocate_whole(
    memory: &mut [u8],
    bytes: &[u8],
    sections: &[u32],
    imports: &[u32],
) -> Result<(), RelocFault>
    ensures { program_done (record { sections = sections.now; imports = imports.now }) bytes.now memory.old
        ≡ record { memory = memory.new; fault = result_err result } }
{
    let program = Program::read(bytes)?;
    apply(&program, memory, sections, imports)
}
