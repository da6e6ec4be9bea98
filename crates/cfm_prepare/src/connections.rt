ghost use Rattle.std.specs.Prelude.{◌≡◌, ◌+◌, ◌++◌, ◌<◌, [], ◌∷◌, ℕ, Contains, IfSome, None, OnOk, false, nat_lt, true};
ghost use Rattle.cfm_prepare.specs.Steps.{AnyNames};
ghost use Rattle.std.specs.Option.{IfNone, is_some, option_copied};
ghost use Rattle.cfm_prepare.specs.Contexts.{open_of, open_without};
ghost use Rattle.cfm_prepare.specs.Kept.Connections.{AreNumbered, IsSlotOf, having_in, open_in};
ghost use Rattle.cfm_prepare.specs.Locations.{first_having};

use crate::open_connection::{OpenConnection, has};
use std::alloc::{AllocError, Global};
use std::marker::Model;

/// The slot of a connection, empty if it was closed.
#[derive(Drop)]
struct Slot<'a> {
    number: u32,
    connected: Option<OpenConnection<'a>>,
}

/// The open connections of a context.
#[derive(Drop)]
pub(crate) struct Connections<'a> {
    /// A slot for each open connection, in the order of their numbers. Slots of closed ones stay until room is
    /// needed, so there are at most about twice as many as connections were ever open at once.
    slots: Vec<Slot<'a>>,
    given: usize,
}

impl<'a> Model for Connections<'a> {
    ghost use Rattle.std.specs.Prelude.{◌-◌, vec_capacity, vec_len};
    ghost use Rattle.cfm_prepare.specs.Kept.Connections.{AreNumbered, Numbered, open_in};

    ghost Value = { Numbered };

    ghost view = { λ c. record { items = open_in c.slots.items; given = c.given; left = vec_capacity c.slots - vec_len c.slots } };

    ghost invariant = { λ c. AreNumbered 0 c.given c.slots.items };
}

impl<'a> Connections<'a> {
    /// Returns no connections. Nothing is allocated yet.
    pub fn new(alloc: Global) -> Connections<'a>
        ensures none { result.items ≡ [] }
        ensures given { result.given ≡ 0 }
    {
        Connections {
            slots: Vec::new(alloc),
            given: 0,
        }
    }

    /// Returns how many numbers were given. That is the next number.
    pub fn given(&self) -> usize
        ensures { result ≡ self.now.given }
    {
        self.given
    }

    /// Returns the connection with a number.
    pub fn get(&self, number: u32) -> Option<&OpenConnection<'a>>
        ensures { option_copied result ≡ open_of self.now.items number }
    {
        let rank = rank_of(&self.slots, number)?;
        self.slots[rank].connected.as_ref()
    }

    /// Returns the first open connection whose closure has a fragment.
    pub fn having(&self, position: usize) -> Option<&OpenConnection<'a>>
        ensures first { option_copied result ≡ first_having self.now.items position }
        ensures has { IfSome result (λ o. Contains o.now.closed.order position) }
    {
        for slot in &self.slots {
            if let Some(connected) = slot_having(slot, position) {
                return Some(connected);
            }
        }
        None
    }

    /// Returns whether an open connection's closure has a fragment with a library entry of this name.
    pub fn names_library(&self, name: &[u8]) -> bool
        ensures yes { result ≡ true → AnyNames self.now.items name.now }
        ensures no { result ≡ false → AnyNames self.now.items name.now → ⊥ }
    {
        for slot in &self.slots {
            if let Some(connected) = &slot.connected {
                if connected.closure().names_library(name) {
                    return true;
                }
            }
        }
        false
    }

    /// Makes room for one more connection.
    pub fn reserve(&mut self) -> Result<(), AllocError>
        ensures room { OnOk result (0 < self.new.left) }
        ensures items { self.new.items ≡ self.old.items }
        ensures given { self.new.given ≡ self.old.given }
    {
        if self.slots.len() < self.slots.capacity() {
            return Ok(());
        }
        self.drop_closed();
        let room = self.slots.len() + 1;
        self.slots.reserve(room)?;
        Ok(())
    }

    /// Drops the slots of closed connections.
    fn drop_closed(&mut self)
        ensures items { self.new.items ≡ self.old.items }
        ensures given { self.new.given ≡ self.old.given }
    {
        self.slots.retain(
            |slot: &Slot| -> bool
                ensures { result ≡ is_some slot.now.connected }
            { slot.connected.is_some() },
        );
    }

    /// Puts a connection after the others.
    pub fn push(&mut self, connected: OpenConnection<'a>)
        requires room { 0 < self.old.left }
        requires number { connected.number ≡ self.old.given }
        ensures items { self.new.items ≡ self.old.items ++ connected.entry ∷ [] }
        ensures given { self.new.given ≡ self.old.given + 1 }
    {
        let number = connected.number();
        let slot = Slot {
            number,
            connected: Some(connected),
        };
        if self.slots.push(slot).is_err() {
            unreachable!();
        }
        self.given = number as usize + 1;
    }

    /// Removes the connection with a number, and returns it.
    pub fn remove(&mut self, number: u32) -> Option<OpenConnection<'a>>
        ensures taken { result ≡ open_of self.old.items number }
        ensures items { self.new.items ≡ open_without self.old.items number }
        ensures given { self.new.given ≡ self.old.given }
        ensures unchanged { IfNone result (self.new.items ≡ self.old.items) }
    {
        let rank = rank_of(&self.slots, number)?;
        self.slots[rank].connected.take()
    }
}

/// Returns the connection of a slot, if it is open and its closure has a fragment.
fn slot_having<'a, 'b>(slot: &'b Slot<'a>, position: usize) -> Option<&'b OpenConnection<'a>>
    ensures value { option_copied result ≡ having_in slot.now.connected position }
    ensures has { IfSome result (λ o. Contains o.now.closed.order position) }
{
    let connected = slot.connected.as_ref()?;
    if !has(connected.closure().order(), position) {
        return None;
    }
    Some(connected)
}

/// Returns where the slot of a number is.
fn rank_of(slots: &[Slot<'_>], number: u32) -> Option<usize>
    requires { (given : ℕ) × AreNumbered 0 given slots.now }
    ensures found { IfSome result (λ rank. IsSlotOf slots.now number rank) }
    ensures none { IfNone result (open_of (open_in slots.now) number ≡ None) }
    ensures left { IfNone result (open_without (open_in slots.now) number ≡ open_in slots.now) }
{
    let rank = slots.partition_point(
        |slot: &Slot| -> bool
            ensures { result ≡ nat_lt slot.now.number number }
        { slot.number < number },
    );
    let slot = slots.get(rank)?;
    if slot.number != number {
        return None;
    }
    Some(rank)
}
