ghost use Rattle.std.specs.Prelude.{◌≡◌, ◌<◌, ◌≤◌, ◌++◌, ℕ, length, [], ◌∷◌, false, true, IfOk, IfSome, None, OnOk, slice_index_or};
ghost use Rattle.std.specs.Option.{IfNone, option_copied};
ghost use Rattle.cfm_prepare.specs.Fragments.{IsTaken, is_present, new_among, places_of};
ghost use Rattle.cfm_prepare.specs.Lists.{has};
ghost use Rattle.cfm_prepare.specs.Kept.Slots.{HasRoom, IsRemoved, slot_at};

use cfm_memory::Place;
use std::alloc::{AllocError, Global};
use std::marker::Model;

/// A fragment that has a place in memory.
#[derive(Drop)]
pub(crate) struct Placed {
    /// Where its instantiated sections lie, in order.
    places: Vec<Place>,
}

/// The fragments that are present, by their places in the store.
#[derive(Drop)]
pub(crate) struct Slots {
    slots: Vec<Option<Placed>>,
    /// The places of those that are present, in the order in which they were placed. Contracts have the fragments in
    /// this order.
    order: Vec<usize>,
}

impl Model for Slots {
    ghost use Rattle.std.specs.Prelude.{◌-◌, length, vec_capacity, vec_len};
    ghost use Rattle.cfm_prepare.specs.Kept.Slots.{AreSlots, Table, in_slots};

    ghost Value = { Table };

    ghost view = { λ f. record { items = in_slots f.slots.items f.order.items; room = length f.slots.items; left = vec_capacity f.order - vec_len f.order } };

    ghost invariant = { λ f. AreSlots f.slots.items f.order.items };
}

impl Slots {
    /// Returns no fragments. Nothing is allocated yet.
    pub fn new(alloc: Global) -> Slots
        ensures { result.items ≡ [] }
    {
        Slots {
            slots: Vec::new(alloc),
            order: Vec::new(alloc),
        }
    }

    /// Returns where the sections of the fragment in a place of the store lie; none if it isn't present.
    pub fn places(&self, position: usize) -> &[Place]
        ensures { result.now ≡ places_of self.now.items position }
    {
        match slot(&self.slots, position) {
            Some(fragment) => &fragment.places,
            None => &[],
        }
    }

    /// Returns a place of the store from which on no fragment is present.
    pub fn end(&self) -> usize
        ensures { (p : ℕ) → result ≤ p → places_of self.now.items p ≡ [] }
    {
        self.slots.len()
    }

    /// Returns whether the fragment in a place of the store is present.
    pub fn has(&self, position: usize) -> bool
        ensures { result ≡ is_present self.now.items position }
    {
        slot(&self.slots, position).is_some()
    }

    /// Makes room for the fragment in a place of the store.
    ///
    /// # Errors
    ///
    /// `AllocError` if an allocation fails.
    pub fn make_room(&mut self, position: usize) -> Result<(), AllocError>
        ensures room { OnOk result (HasRoom self.new position) }
        ensures same { self.new.items ≡ self.old.items }
    {
        self.order.reserve(1)?;
        grow(&mut self.slots, position)
    }

    /// Puts a fragment after the others.
    pub fn put(&mut self, position: usize, places: Vec<Place>)
        requires room { HasRoom self.old position }
        requires absent { is_present self.old.items position ≡ false }
        ensures { self.new.items ≡ self.old.items ++ (record { position = position; places = places.items }) ∷ [] }
    {
        self.slots[position] = Some(Placed { places });
        if self.order.push(position).is_err() {
            unreachable!();
        }
    }

    /// Removes a fragment, and returns where its sections lie. `None` if it isn't present.
    pub fn take(&mut self, position: usize) -> Option<Vec<Place>>
        ensures taken { IfSome result (λ places. IsTaken self.old.items self.new.items position places.items) }
        ensures absent { IfNone result ((is_present self.old.items position ≡ false) × (self.new.items ≡ self.old.items)) }
    {
        if position >= self.slots.len() {
            return None;
        }
        let Some(fragment) = self.slots[position].take() else {
            return None;
        };
        take_out(&mut self.order, position);
        Some(fragment.places)
    }
}

/// Adds slots up to that of a place of the store.
fn grow(slots: &mut Vec<Option<Placed>>, position: usize) -> Result<(), AllocError>
    ensures room { OnOk result (position < length slots.new.items) }
    ensures same { (p : ℕ) → slot_at slots.new.items p ≡ slot_at slots.old.items p }
{
    while slots.len() <= position {
        slots.push(None)?;
    }
    Ok(())
}

/// Removes a place of the store from some that have it.
fn take_out(order: &mut Vec<usize>, position: usize)
    requires { has order.old.items position ≡ true }
    ensures { IsRemoved order.old.items order.new.items position }
{
    for i in 0..order.len() {
        if order[i] == position {
            order.remove(i);
            return;
        }
    }
}

/// Returns what a slot holds.
pub(crate) fn slot<T>(slots: &[Option<T>], number: usize) -> Option<&T>
    ensures { option_copied result ≡ slice_index_or slots.now number None }
{
    slots.get(number)?.as_ref()
}

/// Returns the fragments of a closure that aren't present, in its order.
pub(crate) fn new_among(
    alloc: Global,
    present: &Slots,
    order: &[usize],
) -> Result<Vec<usize>, AllocError>
    ensures { IfOk result (λ new. new.items ≡ new_among present.now.items order.now) }
{
    let mut new = Vec::new(alloc);
    for position in order {
        if !present.has(*position) {
            new.push(*position)?;
        }
    }
    Ok(new)
}
