ghost use Rattle.std.specs.Prelude.{◌≡◌, ◌≤◌, ◌+◌, ◌++◌, [], ℕ, List, IfErr, IfOk, IfSome, MatchOption, OnErr, OnOk, false, length, option_map, true};
ghost use Rattle.cfm_memory.specs.Placement.{IsClear};
ghost use Rattle.cfm_memory.specs.Reservation.{IsNoRange, MayNotReserve, Reserves, Unreserves};
ghost use Rattle.cfm_prepare.specs.Addresses.{target_address};
ghost use Rattle.cfm_prepare.specs.Fragments.{IsGivenBack, Present, is_present, new_among, none_present, places_of};
ghost use Rattle.cfm_prepare.specs.Bounds.{AreWithin, bytes_in, steps_in};
ghost use Rattle.cfm_prepare.specs.Kept.Bounds.{IsPastBounds};
ghost use Rattle.cfm_sections.specs.Rules.{rule_of};
ghost use Rattle.cfm_prepare.specs.Lists.{IsOnce};
ghost use Rattle.cfm_prepare.specs.Made.{choices_of};
ghost use Rattle.cfm_prepare.specs.NewSections.{new_sections_of};
ghost use Rattle.cfm_prepare.specs.Placing.{ArePreparedBy};
ghost use Rattle.cfm_prepare.specs.Refusals.{MayNotPrepareNewBy};
ghost use Rattle.cfm_prepare.specs.Sections.{section_present, section_seen, sections_at, sections_left};

use crate::addresses::target_address;
use crate::bounds::test_bounds;
use crate::fault::PrepareFault;
use crate::fragment_fault::FragmentFault;
use crate::new_sections::{NewSection, new_sections};
use crate::options::Options;
use crate::preparation::{Preparation, give_back_fragment};
use crate::sections::Sections;
use crate::slots::{Slots, new_among};
use cfm_closure::{Closure, Target};
use cfm_memory::{Granule, Memory, MemoryFault, Place};
use cfm_sections::PlaceRule;
use std::alloc::{AllocError, Global};
use std::marker::Model;

/// Fragments that are present in one memory, by their places in a store.
#[derive(Drop)]
pub(crate) struct Fragments {
    alloc: Global,
    memory: Memory,
    present: Slots,
}

impl Model for Fragments {
    ghost use Rattle.cfm_prepare.specs.Fragments.{Presence};

    ghost Value = { Presence };

    ghost use Rattle.cfm_prepare.specs.Kept.Ready.{AreReady};

    ghost view = { λ f. record { memory = f.memory; present = f.present.items } };

    ghost invariant = { λ f. AreReady f.memory f.present.items };
}

impl Fragments {
    /// Returns no fragments. No section of one may exceed the address `limit`, and each takes a multiple of the granule,
    /// at a multiple of it. Nothing is allocated yet.
    pub fn new(alloc: Global, limit: u32, granule: Granule) -> Fragments
        ensures { result ≡ none_present granule.bytes limit }
    {
        Fragments {
            alloc,
            memory: Memory::with_granule(alloc, limit, granule),
            present: Slots::new(alloc),
        }
    }

    /// Tests that the fragments of a closure that aren't present take no more than the options of a context allow.
    ///
    /// # Errors
    ///
    /// `TooManyBytes` or else `TooManyStepsInAll`, with the first fragment with which they take more.
    pub fn test_bounds<'a>(
        &self,
        closure: &Closure<'a>,
        options: &Options,
    ) -> Result<(), PrepareFault<'a>>
        ensures bytes { OnOk result (AreWithin options.now.bytes (bytes_in closure.now.pairs self.now.memory.granule) (new_among self.now.present closure.now.order)) }
        ensures steps { OnOk result (AreWithin options.now.steps (steps_in closure.now.pairs) (new_among self.now.present closure.now.order)) }
        ensures refused { IfErr result (λ fault. IsPastBounds closure.now.pairs self.now.memory.granule (choices_of options.now).bounds (new_among self.now.present closure.now.order) fault) }
    {
        test_bounds(closure, &self.present, self.memory.granule(), options)
    }

    /// Prepares the fragments of a closure that aren't present: all are placed by a rule, then filled, then relocated,
    /// each time in the order of the closure.
    ///
    /// # Errors
    ///
    /// The first refusal of placement, of the images, or of the relocation headers, in this order; or
    /// `OutOfMemory`. The fragments that were present are then unchanged.
    pub fn prepare<'a>(
        &mut self,
        closure: &Closure<'a>,
        rule: PlaceRule<'_>,
    ) -> Result<(), FragmentFault<'a>>
        requires { IsOnce closure.now.order }
        ensures prepared { OnOk result ((fresh : List Present) × (self.new.present ≡ self.old.present ++ fresh) × ArePreparedBy (rule_of rule.entry) closure.now.pairs self.old.present self.old.memory (new_among self.old.present closure.now.order) fresh self.new.memory) }
        ensures refused { IfErr result (λ fault. MayNotPrepareNewBy (rule_of rule.entry) closure.now.pairs self.old.present self.old.memory (new_among self.old.present closure.now.order) fault) }
        ensures unchanged { OnErr result (self.new ≡ self.old) }
    {
        let new = new_among(self.alloc, &self.present, closure.order())?;
        let preparation = Preparation {
            alloc: self.alloc,
            closure,
            new: &new,
            rule,
        };
        preparation.run(&mut self.memory, &mut self.present)
    }

    /// Returns those of some fragments, by their places in the store, that aren't present, in their order.
    pub fn new_among(&self, positions: &[usize]) -> Result<Vec<usize>, AllocError>
        ensures { IfOk result (λ new. new.items ≡ new_among self.now.present positions.now) }
    {
        new_among(self.alloc, &self.present, positions)
    }

    /// Returns the sections of the fragments of a closure that aren't present.
    pub fn new_sections(&self, closure: &Closure<'_>) -> Result<Vec<NewSection>, AllocError>
        ensures { IfOk result (λ sections. sections.items ≡ new_sections_of closure.now.pairs self.now.memory.granule (new_among self.now.present closure.now.order)) }
    {
        let new = new_among(self.alloc, &self.present, closure.order())?;
        new_sections(self.alloc, closure, &new, self.memory.granule())
    }

    /// Takes `size` addresses from `address` on out of use.
    ///
    /// # Errors
    ///
    /// `NoRoom` if one of them is taken or passes the last address. Otherwise `OutOfMemory` if an allocation fails. The
    /// memory is then unchanged.
    pub fn reserve(&mut self, address: u32, size: u32) -> Result<(), MemoryFault>
        ensures reserved { OnOk result (Reserves self.old.memory address size self.new.memory × (self.new.present ≡ self.old.present)) }
        ensures refused { IfErr result (λ fault. MayNotReserve self.old.memory address size fault) }
        ensures unchanged { OnErr result (self.new ≡ self.old) }
    {
        self.memory.reserve(address, size)?;
        Ok(())
    }

    /// Gives a reserved range back. Returns whether there was one. Otherwise the memory is unchanged.
    pub fn unreserve(&mut self, address: u32, size: u32) -> bool
        ensures freed { result ≡ true → Unreserves self.old.memory address size self.new.memory × (self.new.present ≡ self.old.present) }
        ensures refused { result ≡ false → IsNoRange self.old.memory address size × (self.new ≡ self.old) }
    {
        self.memory.unreserve(address, size)
    }

    /// Releases the fragment in a place of the store, if it is present.
    pub fn give_back(&mut self, position: usize)
        ensures { IsGivenBack self.old.memory self.old.present position self.new.memory self.new.present }
    {
        give_back_fragment(&mut self.memory, &mut self.present, position);
    }

    /// Returns whether the fragment in a place of the store is present.
    pub fn has(&self, position: usize) -> bool
        ensures { result ≡ is_present self.now.present position }
    {
        self.present.has(position)
    }

    /// Returns a place of the store from which on no fragment is present.
    pub fn end(&self) -> usize
        ensures { (p : ℕ) → result ≤ p → places_of self.now.present p ≡ [] }
    {
        self.present.end()
    }

    /// Returns where the instantiated sections of the fragment in a place of the store lie, in their order;
    /// none if it isn't present.
    pub fn places(&self, position: usize) -> &[Place]
        ensures { result.now ≡ places_of self.now.present position }
    {
        self.present.places(position)
    }

    /// Returns the address and the bytes of section `i` of the fragment in a place of the store. `None` if the
    /// fragment isn't present, or has no such section.
    pub fn section(&self, position: usize, i: usize) -> Option<(u32, &[u8])>
        ensures section { option_map section_seen result ≡ section_present self.now.memory self.now.present position i }
        ensures within { MatchOption result (length (places_of self.now.present position) ≤ i) (λ s. s.0 + length s.1.now ≤ self.now.memory.limit) }
        ensures clear { IfSome result (λ s. IsClear s.0 (s.0 + length s.1.now) self.now.memory.reserved) }
    {
        let place = *self.present.places(position).get(i)?;
        Some((place.address, self.memory.part(place)))
    }

    /// Returns an iterator over the sections of the fragment in a place of the store. There are none if the
    /// fragment isn't present.
    pub fn sections(&self, position: usize) -> Sections<'_>
        ensures { sections_left result ≡ sections_at self.now.memory (places_of self.now.present position) }
    {
        Sections {
            memory: &self.memory,
            places: self.present.places(position),
        }
    }

    /// Returns the address of a target, or 0 if there is none.
    pub fn target_address(&self, target: Option<Target>) -> u32
        ensures { result ≡ target_address self.now.present target }
    {
        target_address(&self.present, target)
    }
}
