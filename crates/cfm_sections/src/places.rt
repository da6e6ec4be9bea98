ghost use Rattle.std.specs.Prelude.{◌≡◌, ◌≤◌, ◌++◌, ℕ, [], ◌∷◌, Err, IfErr, IfOk, IsTrue, OnErr, OnOk, length};
ghost use Rattle.cfm_memory.specs.Extents.{AreApart, AreHeld, ArePlacedWith, IsPlaceBy, given_back, rule_after, with_one};
ghost use Rattle.cfm_memory.specs.Instances.{holds_place, with_instances, without};
ghost use Rattle.cfm_sections.specs.declared.places.Unplaced.TheVariants as Unplaced;
ghost use Rattle.cfm_sections.specs.Rules.{rule_of};
ghost use Rattle.cfm_sections.specs.Kept.Unplaced.{MayRefuseBy, MayRefuseFor};
ghost use Rattle.cfm_sections.specs.Unplaced.{MayNotPlaceAll};
ghost use Rattle.cfm_sections.specs.Begun.{first_image, placed_at, placed_in};
ghost use Rattle.pef_views.specs.Container.{IsInstantiable};
ghost use Rattle.pef_views.specs.Views.{contained, seen};
ghost use Rattle.cfm_sections.specs.Images.{extent_in, extents_from, extents_of};

use cfm_memory::{Memory, MemoryFault, Place};
use pef_views::{Container, SectionView};
use std::alloc::Global;

/// Why the sections of a container aren't placed.
#[derive(Clone, Copy)]
pub enum Unplaced {
    /// This section finds no room.
    NoRoom { section: u32 },

    /// An allocation failed.
    OutOfMemory,
}

/// Where new sections lie.
#[derive(Clone, Copy)]
pub enum PlaceRule<'p> {
    /// Each in turn at the lowest address with room.
    Lowest,
    /// Each in turn at the next of these addresses.
    Given(&'p [u32]),
}

impl<'p> PlaceRule<'p> {
    /// Returns the rule for the sections after `count` others.
    pub fn after(self, count: usize) -> PlaceRule<'p>
        ensures { rule_of result ≡ rule_after (rule_of self.entry) count }
    {
        match self {
            PlaceRule::Lowest => PlaceRule::Lowest,
            PlaceRule::Given(addresses) => {
                let (_, rest) = addresses.split_at(count.min(addresses.len()));
                PlaceRule::Given(rest)
            }
        }
    }
}

/// Places the instantiated sections of a container, each in turn by a rule. Each has its image, and zeros after it; one whose image
/// is packed is all zeros.
///
/// # Errors
///
/// `NoRoom` if a section has no place by the rule after those before it, and `OutOfMemory` if an allocation fails.
/// The memory is then unchanged: the sections that were placed are released.
pub fn place_sections(
    alloc: Global,
    memory: &mut Memory,
    container: &Container<'_>,
    rule: PlaceRule<'_>,
) -> Result<Vec<Place>, Unplaced>
    ensures placed { IfOk result (λ places. ArePlacedWith (rule_of rule.entry) memory.old (extents_of (contained container.now)) (placed_at (contained container.now)) places.items memory.new) }
    ensures refused { IfErr result (λ fault. MayNotPlaceAll fault (rule_of rule.entry) memory.old (extents_of (contained container.now))) }
    ensures unchanged { OnErr result (memory.new ≡ memory.old) }
{
    let mut places = Vec::new(alloc);
    match place_each(memory, container, rule, &mut places) {
        Ok(()) => Ok(places),
        Err(fault) => {
            give_back(memory, places.as_slice());
            Err(fault)
        }
    }
}

/// Places the instantiated sections of a container in turn, up to the first that is refused.
fn place_each(
    memory: &mut Memory,
    container: &Container<'_>,
    rule: PlaceRule<'_>,
    places: &mut Vec<Place>,
) -> Result<(), Unplaced>
    requires { places.old.items ≡ [] }
    ensures placed { OnOk result (ArePlacedWith (rule_of rule.entry) memory.old (extents_of (contained container.now)) (placed_at (contained container.now)) places.new.items memory.new) }
    ensures refused { IfErr result (λ fault. MayNotPlaceAll fault (rule_of rule.entry) memory.old (extents_of (contained container.now))) }
    ensures so_far { (n : ℕ) × ArePlacedWith (rule_of rule.entry) memory.old (extents_from (contained container.now) 0 n) (placed_at (contained container.now)) places.new.items memory.new }
{
    let count = usize::from(container.header().instantiated_section_count);
    for i in 0..count {
        let Some(section) = container.section(i) else {
            unreachable!()
        };
        let rest = rule.after(i);
        let place = place_section(memory, &section, rest, i as u32)?;
        keep(memory, places, place)?;
    }
    Ok(())
}

/// Places a section by a rule.
fn place_section(
    memory: &mut Memory,
    section: &SectionView<'_>,
    rule: PlaceRule<'_>,
    number: u32,
) -> Result<Place, Unplaced>
    requires { IsInstantiable (seen section.now) }
    ensures place { IfOk result (λ place. IsPlaceBy (rule_of rule.entry) memory.old (extent_in (seen section.now)) place) }
    ensures size { IfOk result (λ place. length (placed_in (seen section.now)) ≡ place.size) }
    ensures placed { IfOk result (λ place. memory.new ≡ with_one memory.old place (placed_in (seen section.now))) }
    ensures refused { IfErr result (λ fault. MayRefuseFor (rule_of rule.entry) memory.old (extent_in (seen section.now)) number fault) }
    ensures unchanged { OnErr result (memory.new ≡ memory.old) }
{
    match place_by(memory, section, rule) {
        Ok(place) => Ok(place),
        Err(MemoryFault::NoRoom) => Err(Unplaced::NoRoom { section: number }),
        Err(MemoryFault::OutOfMemory) => Err(Unplaced::OutOfMemory),
    }
}

/// Places an instance for a section by a rule.
fn place_by(
    memory: &mut Memory,
    section: &SectionView<'_>,
    rule: PlaceRule<'_>,
) -> Result<Place, MemoryFault>
    requires { IsInstantiable (seen section.now) }
    ensures place { IfOk result (λ place. IsPlaceBy (rule_of rule.entry) memory.old (extent_in (seen section.now)) place) }
    ensures size { IfOk result (λ place. length (placed_in (seen section.now)) ≡ place.size) }
    ensures placed { IfOk result (λ place. memory.new ≡ with_one memory.old place (placed_in (seen section.now))) }
    ensures refused { IfErr result (λ fault. MayRefuseBy (rule_of rule.entry) memory.old (extent_in (seen section.now)) fault) }
    ensures unchanged { OnErr result (memory.new ≡ memory.old) }
{
    let size = section.header.total_size;
    let alignment = section.header.alignment;
    let image = first_image(section);
    match rule {
        PlaceRule::Lowest => memory.place_image(size, alignment, image),
        PlaceRule::Given(addresses) => match addresses.split_first() {
            Some((address, _)) => memory.place_image_at(size, alignment, *address, image),
            None => Err(MemoryFault::NoRoom),
        },
    }
}

/// Returns the image that a section is placed with. It is empty if the image is packed.
fn first_image<'a>(section: &SectionView<'a>) -> &'a [u8]
    requires { IsInstantiable (seen section.now) }
    ensures image { result.now ≡ first_image (seen section.now) }
    ensures fits { length result.now ≤ section.now.header.total_size }
{
    if section.header.kind().is_packed() {
        return &[];
    }
    let (image, _) = section.raw.split_at(section.header.unpacked_size as usize);
    image
}

/// Appends the place of an instance. If an allocation fails, the instance is released.
fn keep(memory: &mut Memory, places: &mut Vec<Place>, place: Place) -> Result<(), Unplaced>
    requires { IsTrue (holds_place memory.old place) }
    ensures kept { OnOk result ((memory.new ≡ memory.old) × (places.new.items ≡ places.old.items ++ place ∷ [])) }
    ensures refused { OnErr result ((memory.new ≡ with_instances memory.old (without memory.old.instances place.address)) × (places.new.items ≡ places.old.items)) }
    ensures why { OnErr result (result ≡ Err Unplaced.OutOfMemory) }
{
    match places.push(place) {
        Ok(()) => Ok(()),
        Err(_) => {
            memory.give_back(place);
            Err(Unplaced::OutOfMemory)
        }
    }
}

/// Releases the instances at some places, whatever was written to them.
pub fn give_back(memory: &mut Memory, places: &[Place])
    requires held { AreHeld memory.old places.now }
    requires apart { AreApart places.now }
    ensures { memory.new ≡ given_back memory.old places.now }
{
    for place in places {
        memory.give_back(*place);
    }
}
