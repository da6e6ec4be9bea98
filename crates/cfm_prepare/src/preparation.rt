ghost use Rattle.std.specs.Prelude.{◌≡◌, ◌++◌, ℕ, List, [], ◌∷◌, All, Contains, IfErr, IfOk, OnErr, OnOk, false, length, take};
ghost use Rattle.cfm_memory.specs.Extents.{AreHeld, ArePlacedWith, Stand, rule_after};
ghost use Rattle.cfm_memory.specs.declared.place.Place.{Place};
ghost use Rattle.cfm_prepare.specs.Addresses.{addresses_of, first_bad_program, section_of};
ghost use Rattle.cfm_prepare.specs.Fragments.{IsGivenBack, Present, StandAll, all_given_back, extents_in, first_bad_image, image_refusal_in, is_present, named, places_of, present_of, reloc_refusal_in, section_filled};
ghost use Rattle.cfm_prepare.specs.Placing.{ArePreparedBy};
ghost use Rattle.cfm_prepare.specs.Refusals.{MayNotPrepareNewBy};
ghost use Rattle.cfm_sections.specs.Rules.{rule_of};
ghost use Rattle.cfm_prepare.specs.Kept.Begun.{HavePlacedWith, section_placed};
ghost use Rattle.cfm_prepare.specs.Kept.Ready.{AllHeld, AreAbsent, AreLaidOut, AreReady, ChangesAt, ChangesIn, FillsUpTo, HaveBegun, IsLaidOut, IsNotPlaced, RelocatesUpTo, found_in, others_of, these_of};

use crate::addresses::import_addresses;
use crate::fragment_fault::FragmentFault;
use crate::slots::Slots;
use cfm_closure::Closure;
use cfm_memory::{Memory, Place};
use cfm_sections::{
    HeaderFault, PlaceRule, Unplaced, fill_sections, give_back, place_sections, relocate_sections,
    section_addresses,
};
use pef_format::Part;
use pef_format::layout::TOTAL_SIZE_AT;
use pef_loader::{ProgramFault, place_in};
use std::alloc::Global;

/// The preparation of new fragments of a closure. All are placed by a rule, then filled with their images, then
/// relocated, each time in their order. An image that isn't packed is written when its section is placed, so that its memory isn't
/// cleared first.
///
/// Each step is passed the memory, and the fragments that are present in it.
#[derive(Clone, Copy)]
pub(crate) struct Preparation<'p, 'a> {
    pub alloc: Global,
    pub closure: &'p Closure<'a>,
    /// The new fragments, by their places in the store.
    pub new: &'p [usize],
    /// Where their sections lie.
    pub rule: PlaceRule<'p>,
}

impl<'a> Preparation<'_, 'a> {
    /// Takes all steps, and adds the new fragments after those that are present. If one is refused, those that
    /// were placed are released.
    pub fn run(&self, memory: &mut Memory, present: &mut Slots) -> Result<(), FragmentFault<'a>>
        requires members { All (λ p. Contains self.now.closure.now.order p) self.now.new.now }
        requires new { AreAbsent present.old.items self.now.new.now }
        requires ready { AreReady memory.old present.old.items }
        ensures prepared { OnOk result ((fresh : List Present) × (present.new.items ≡ present.old.items ++ fresh) × ArePreparedBy (rule_of self.now.rule) self.now.closure.now.pairs present.old.items memory.old self.now.new.now fresh memory.new) }
        ensures refused { IfErr result (λ fault. MayNotPrepareNewBy (rule_of self.now.rule) self.now.closure.now.pairs present.old.items memory.old self.now.new.now fault) }
        ensures unchanged { OnErr result ((memory.new ≡ memory.old) × (present.new.items ≡ present.old.items)) }
        ensures ready { AreReady memory.new present.new.items }
    {
        match self.take_steps(memory, present) {
            Ok(()) => Ok(()),
            Err(fault) => {
                self.undo(memory, present);
                Err(fault)
            }
        }
    }

    /// Takes the steps, up to the first refusal.
    fn take_steps(&self, memory: &mut Memory, present: &mut Slots) -> Result<(), FragmentFault<'a>>
        requires members { All (λ p. Contains self.now.closure.now.order p) self.now.new.now }
        requires new { AreAbsent present.old.items self.now.new.now }
        requires ready { AreReady memory.old present.old.items }
        ensures prepared { OnOk result ((fresh : List Present) × (present.new.items ≡ present.old.items ++ fresh) × ArePreparedBy (rule_of self.now.rule) self.now.closure.now.pairs present.old.items memory.old self.now.new.now fresh memory.new) }
        ensures refused { IfErr result (λ fault. MayNotPrepareNewBy (rule_of self.now.rule) self.now.closure.now.pairs present.old.items memory.old self.now.new.now fault) }
        ensures begun { HaveBegun memory.old present.old.items self.now.new.now present.new.items memory.new }
    {
        self.place(memory, present)?;
        self.fill(memory, present)?;
        self.relocate(memory, present)
    }

    /// Releases the new fragments that are present.
    fn undo(&self, memory: &mut Memory, present: &mut Slots)
        requires ready { AreReady memory.old present.old.items }
        ensures present { present.new.items ≡ others_of self.now.new.now present.old.items }
        ensures memory { memory.new ≡ all_given_back memory.old (these_of self.now.new.now present.old.items) }
    {
        for position in self.new {
            give_back_fragment(memory, present, *position);
        }
    }

    /// Places the new fragments, and adds them after those that are present, up to the first that is refused.
    fn place(&self, memory: &mut Memory, present: &mut Slots) -> Result<(), FragmentFault<'a>>
        requires members { All (λ p. Contains self.now.closure.now.order p) self.now.new.now }
        requires new { AreAbsent present.old.items self.now.new.now }
        ensures placed { OnOk result (HavePlacedWith (rule_of self.now.rule) self.now.closure.now.pairs memory.old present.old.items self.now.new.now present.new.items memory.new) }
        ensures refused { IfErr result (λ fault. MayNotPrepareNewBy (rule_of self.now.rule) self.now.closure.now.pairs present.old.items memory.old self.now.new.now fault) }
        ensures so_far { (n : ℕ) × HavePlacedWith (rule_of self.now.rule) self.now.closure.now.pairs memory.old present.old.items (take n self.now.new.now) present.new.items memory.new }
    {
        let mut rule = self.rule;
        for position in self.new {
            let count = self.place_fragment(*position, rule, memory, present)?;
            rule = rule.after(count);
        }
        Ok(())
    }

    /// Places a fragment by a rule, and adds it after those that are present. Returns how many sections it has.
    fn place_fragment(
        &self,
        position: usize,
        rule: PlaceRule<'_>,
        memory: &mut Memory,
        present: &mut Slots,
    ) -> Result<usize, FragmentFault<'a>>
        requires member { Contains self.now.closure.now.order position }
        requires absent { is_present present.old.items position ≡ false }
        ensures placed { IfOk result (λ count. (places : List Place) × ArePlacedWith (rule_of rule.entry) memory.old (extents_in self.now.closure.now.pairs position) (section_placed self.now.closure.now.pairs position) places memory.new × (present.new.items ≡ present.old.items ++ (record { position = position; places = places }) ∷ []) × (count ≡ length places)) }
        ensures refused { IfErr result (λ fault. IsNotPlaced (rule_of rule.entry) self.now.closure.now.pairs position memory.old fault) }
        ensures unchanged { OnErr result ((memory.new ≡ memory.old) × (present.new.items ≡ present.old.items)) }
    {
        present.make_room(position)?;
        let container = self.closure.container(position);
        match place_sections(self.alloc, memory, &container, rule) {
            Ok(places) => {
                let count = places.len();
                present.put(position, places);
                Ok(count)
            }
            Err(Unplaced::NoRoom { section }) => Err(FragmentFault::NoRoom {
                fragment: self.closure.name(position),
                place: place_in(&container, Part::Section, section, TOTAL_SIZE_AT),
            }),
            Err(Unplaced::OutOfMemory) => Err(FragmentFault::OutOfMemory),
        }
    }

    /// Fills the sections of the new fragments, as they were placed, with their images, up to the first that is refused.
    fn fill(&self, memory: &mut Memory, present: &Slots) -> Result<(), FragmentFault<'a>>
        requires members { All (λ p. Contains self.now.closure.now.order p) self.now.new.now }
        requires laid { AreLaidOut self.now.closure.now.pairs (found_in present.now.items self.now.new.now) }
        requires first { StandAll memory.old (found_in present.now.items self.now.new.now) (λ f. section_placed self.now.closure.now.pairs f.position) }
        ensures refused { FillsUpTo result (first_bad_image self.now.closure.now.pairs (found_in present.now.items self.now.new.now)) }
        ensures filled { OnOk result (StandAll memory.new (found_in present.now.items self.now.new.now) (λ f. section_filled self.now.closure.now.pairs f.position)) }
        ensures changes { ChangesIn memory.old (found_in present.now.items self.now.new.now) memory.new }
    {
        for position in self.new {
            self.fill_fragment(*position, memory, present.places(*position))?;
        }
        Ok(())
    }

    /// Fills the sections of a fragment, which lie in these places.
    fn fill_fragment(
        &self,
        position: usize,
        memory: &mut Memory,
        places: &[Place],
    ) -> Result<(), FragmentFault<'a>>
        requires member { Contains self.now.closure.now.order position }
        requires laid { IsLaidOut self.now.closure.now.pairs (record { position = position; places = places.now }) }
        requires first { Stand memory.old places.now (section_placed self.now.closure.now.pairs position) }
        ensures refused { FillsUpTo result (named self.now.closure.now.pairs position (image_refusal_in self.now.closure.now.pairs position)) }
        ensures filled { OnOk result (Stand memory.new places.now (section_filled self.now.closure.now.pairs position)) }
        ensures changes { ChangesAt memory.old places.now memory.new }
    {
        let container = self.closure.container(position);
        match fill_sections(memory, places, &container) {
            Ok(()) => Ok(()),
            Err(image) => Err(FragmentFault::Pack {
                fragment: self.closure.name(position),
                fault: image.fault,
                place: image.place,
            }),
        }
    }

    /// Relocates the new fragments, which were filled, up to the first that is refused.
    fn relocate(&self, memory: &mut Memory, present: &Slots) -> Result<(), FragmentFault<'a>>
        requires members { All (λ p. Contains self.now.closure.now.order p) self.now.new.now }
        requires laid { AreLaidOut self.now.closure.now.pairs (found_in present.now.items self.now.new.now) }
        requires held { AllHeld memory.old (found_in present.now.items self.now.new.now) }
        requires filled { StandAll memory.old (found_in present.now.items self.now.new.now) (λ f. section_filled self.now.closure.now.pairs f.position) }
        ensures refused { RelocatesUpTo result (first_bad_program self.now.closure.now.pairs present.now.items (found_in present.now.items self.now.new.now)) }
        ensures relocated { OnOk result (StandAll memory.new (found_in present.now.items self.now.new.now) (section_of self.now.closure.now.pairs present.now.items)) }
        ensures changes { ChangesIn memory.old (found_in present.now.items self.now.new.now) memory.new }
    {
        for position in self.new {
            self.relocate_fragment(*position, memory, present)?;
        }
        Ok(())
    }

    /// Relocates a fragment, which was filled.
    fn relocate_fragment(
        &self,
        position: usize,
        memory: &mut Memory,
        present: &Slots,
    ) -> Result<(), FragmentFault<'a>>
        requires member { Contains self.now.closure.now.order position }
        requires laid { IsLaidOut self.now.closure.now.pairs (present_of present.now.items position) }
        requires held { AreHeld memory.old (places_of present.now.items position) }
        requires filled { Stand memory.old (places_of present.now.items position) (section_filled self.now.closure.now.pairs position) }
        ensures refused { RelocatesUpTo result (named self.now.closure.now.pairs position (reloc_refusal_in self.now.closure.now.pairs (addresses_of self.now.closure.now.pairs present.now.items (present_of present.now.items position)) position)) }
        ensures relocated { OnOk result (Stand memory.new (places_of present.now.items position) (section_of self.now.closure.now.pairs present.now.items (present_of present.now.items position))) }
        ensures changes { ChangesAt memory.old (places_of present.now.items position) memory.new }
    {
        let places = present.places(position);
        let sections = section_addresses(self.alloc, places)?;
        let imports = import_addresses(self.alloc, self.closure, present, position)?;
        let loader = self.closure.loader(position);
        match relocate_sections(memory, places, &loader, &sections, &imports) {
            Ok(()) => Ok(()),
            Err(refused) => {
                let container = self.closure.container(position);
                let HeaderFault {
                    header,
                    section,
                    fault,
                } = refused;
                let program = ProgramFault::new(&container, header, section, fault);
                Err(FragmentFault::Reloc {
                    fragment: self.closure.name(position),
                    fault: program.fault,
                    section: program.section,
                    place: program.place,
                })
            }
        }
    }
}

/// Releases the fragment in a place of the store, if it is present.
pub(crate) fn give_back_fragment(memory: &mut Memory, present: &mut Slots, position: usize)
    requires ready { AreReady memory.old present.old.items }
    ensures back { IsGivenBack memory.old present.old.items position memory.new present.new.items }
    ensures ready { AreReady memory.new present.new.items }
{
    if let Some(places) = present.take(position) {
        give_back(memory, &places);
    }
}
