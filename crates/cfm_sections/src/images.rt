ghost use Rattle.std.specs.Prelude.{◌≡◌, ◌≢◌, ◌++◌, ◌<◌, ◌≤◌, ℕ, List, [], IsTrue, OnOk, Some, drop, length, true};
ghost use Rattle.std.specs.Result.{result_err, result_unwrap_or};
ghost use Rattle.cfm_memory.specs.Extents.{AreApart, AreHeld, Stand, given_back, place_at};
ghost use Rattle.cfm_memory.specs.Instances.{bytes_at, holds_place};
ghost use Rattle.pef_views.specs.Container.{IsInstantiable};
ghost use Rattle.pef_views.specs.Views.{contained, seen};
ghost use Rattle.pef_words.specs.Refusals.{result_map};
ghost use Rattle.pef_format.specs.Sections.{is_packed, kind_of};
ghost use Rattle.cfm_sections.specs.Begun.{placed_at, placed_in};
ghost use Rattle.cfm_sections.specs.Images.{extent_at, filled_at, filled_in, first_image_refusal, image_of};

use crate::image_fault::ImageFault;
use cfm_memory::{Memory, Place};
use pef_pidata::{PackFault, expand};
use pef_views::{Container, SectionView};

/// Fills the sections at some places with their images, in order, up to the first that is refused. `places` are
/// those of a container's first instantiated sections.
///
/// The image of pattern-initialized data is expanded, directly into the section's memory. The other sections were placed with theirs.
///
/// # Errors
///
/// The refusal of the first section of pattern-initialized data that has one. The sections up to that one
/// then have unspecified bytes. None is released.
pub fn fill_sections(
    memory: &mut Memory,
    places: &[Place],
    container: &Container<'_>,
) -> Result<(), ImageFault>
    requires there { length places.now ≤ (contained container.now).header.instantiated_section_count }
    requires sizes { (k : ℕ) → k < length places.now → (place_at places.now k).size ≡ (extent_at (contained container.now) k).size }
    requires apart { AreApart places.now }
    requires first { Stand memory.old places.now (placed_at (contained container.now)) }
    ensures refused { result_err result ≡ first_image_refusal (contained container.now) (length places.now) }
    ensures filled { OnOk result (Stand memory.new places.now (filled_at (contained container.now))) }
    ensures others { given_back memory.new places.now ≡ given_back memory.old places.now }
    ensures held { AreHeld memory.old places.now → AreHeld memory.new places.now }
{
    for (k, place) in places.iter().enumerate() {
        let Some(section) = container.section(k) else {
            unreachable!()
        };
        match fill_section(memory, *place, &section) {
            Ok(()) => {}
            Err(fault) => {
                prove!(k < usize::from(container.header().instantiated_section_count));
                return Err(ImageFault::new(container, k as u32, fault));
            }
        }
    }
    Ok(())
}

/// Fills the section at a place with its image, unless it was placed with it.
#[tactic(auto, unfolding(crate::specs::Images::image_of))]
fn fill_section(
    memory: &mut Memory,
    place: Place,
    section: &SectionView<'_>,
) -> Result<(), PackFault>
    requires section { IsInstantiable (seen section.now) }
    requires size { place.size ≡ section.now.header.total_size }
    requires first { bytes_at memory.old.instances place.address ≡ Some (placed_in (seen section.now)) }
    ensures refused { result_err result ≡ result_err (image_of (seen section.now)) }
    ensures here { OnOk result (bytes_at memory.new.instances place.address ≡ Some (result_unwrap_or (filled_in (seen section.now)) [])) }
    ensures elsewhere { (address : ℕ) → address ≢ place.address → bytes_at memory.new.instances address ≡ bytes_at memory.old.instances address }
    ensures others { (places : List Place) (k : ℕ) → k < length places → (place_at places k).address ≡ place.address → given_back memory.new places ≡ given_back memory.old places }
    ensures held { (other : Place) → IsTrue (holds_place memory.old other) → IsTrue (holds_place memory.new other) }
{
    if !section.header.kind().is_packed() {
        return Ok(());
    }
    let part = memory.part_mut(place);
    expand_image(part, section)
}

/// Writes a section's packed image to the front of some memory.
#[tactic(auto, unfolding(crate::specs::Images::image_of))]
fn expand_image(memory: &mut [u8], section: &SectionView<'_>) -> Result<(), PackFault>
    requires section { IsInstantiable (seen section.now) }
    requires packed { is_packed (kind_of section.now.header.section_kind) ≡ true }
    requires size { length memory.old ≡ section.now.header.total_size }
    ensures { result_map (λ _. memory.new) result ≡ result_map (λ image. image ++ drop (length image) memory.old) (image_of (seen section.now)) }
{
    let len = section.header.unpacked_size as usize;
    expand(section.raw, &mut memory[..len])
}
