ghost use Rattle.std.specs.Prelude.{◌≡◌, ◌<◌, ◌≤◌, ◌+◌, ℕ, List, IfErr, IfOk, IfSome, MatchOption, None, Ok, OnErr, OnOk, Some, length, map, option_map, false, true};
ghost use Rattle.std.specs.Option.{option_and_then, option_copied};
ghost use Rattle.cfm_closure.specs.Closures.{Closed, closed_of};
ghost use Rattle.cfm_store.specs.Stores.{name_at, place_of};
ghost use Rattle.cfm_closure.specs.Views.{missing_seen};
ghost use Rattle.cfm_memory.specs.Placement.{IsClear};
ghost use Rattle.cfm_memory.specs.Reservation.{IsNoRange, MayNotReserve};
ghost use Rattle.cfm_prepare.specs.Fragments.{places_of};
ghost use Rattle.cfm_prepare.specs.Lacking.{Lacks, MayNotTell};
ghost use Rattle.cfm_sections.specs.Rules.{rule_of};
ghost use Rattle.cfm_prepare.specs.Made.{choices_of};
ghost use Rattle.cfm_prepare.specs.NewSections.{AreNewSections, MayNotTellSections};
ghost use Rattle.cfm_prepare.specs.Placing.{IsRuleFor};
ghost use Rattle.cfm_prepare.specs.Sections.{section_present, section_seen, sections_at, sections_left};
ghost use Rattle.pef_loader.specs.Views.{loaded};
ghost use Rattle.cfm_prepare.specs.FragmentExports.{fragment_export, fragment_export_named, fragment_loader, placed_seen};
ghost use Rattle.cfm_prepare.specs.Locations.{IsLocated, location_seen};
ghost use Rattle.cfm_prepare.specs.Contexts.{fresh_state, made_state, open_of};
ghost use Rattle.cfm_prepare.specs.Readers.{entries_of, has_present, import_target_of, main_address, numbered_export, released_by, root_section, section_header_of, symbol_address, symbol_of};
ghost use Rattle.cfm_prepare.specs.Removals.{MayNotRemove, Removes};
ghost use Rattle.cfm_prepare.specs.Steps.{Adds, Closes, MayNotAdd, MayNotPrepare, MayNotPrepareAt, MayNotPrepareBy, Prepares, PreparesAt, PreparesBy, PutsBack, TakesOut, new_of};

use crate::add_fault::AddFault;
use crate::connections::Connections;
use crate::exports::{FragmentExport, fragment_export, fragment_export_named, fragment_loader};
use crate::fault::{CloseFault, PrepareFault};
use crate::fragments::Fragments;
use crate::imports::ImportTarget;
use crate::locations::{Location, nearest_export, section_with};
use crate::new_sections::NewSection;
use crate::open_connection::OpenConnection;
use crate::options::Options;
use crate::place_fault::PlaceFault;
use crate::remove_fault::RemoveFault;
use crate::sections::Sections;
use crate::users::{enter, leave, make_room, release, unshared_among};
use cfm_closure::{CachedStore, Closure, MissingLibrary, Store, StoreFault};
use cfm_memory::MemoryFault;
use cfm_sections::{Entries, PlaceRule};
use pef_loader::Loader;
use pef_views::SectionHeader;
use std::alloc::{AllocError, Global};
use std::fmt;
use std::marker::Model;

/// A connection to a fragment that was prepared, by its number. A context gives each number once.
#[derive(Clone, Copy, Debug, PartialEq, Eq)]
pub struct Connection(pub u32);

/// Fragments in one memory, which are prepared and shared as connections need them.
///
/// A fragment is present exactly if the closure of an open connection has it. While it is present its
/// addresses don't change.
#[derive(Drop)]
pub struct Context<'a> {
    alloc: Global,
    options: Options,
    store: CachedStore<'a>,
    connections: Connections<'a>,
    /// How many open connections have a fragment in their closures, by its place in the store.
    users: Vec<usize>,
    fragments: Fragments,
}

impl<'a> Model for Context<'a> {
    ghost use Rattle.cfm_prepare.specs.Contexts.{ContextState};

    ghost Value = { ContextState };

    ghost use Rattle.cfm_prepare.specs.Kept.Contexts.{IsKept};
    ghost use Rattle.cfm_prepare.specs.Made.{choices_of};

    ghost view = { λ c. record { bounds = (choices_of c.options).bounds; pairs = c.store; memory = c.fragments.memory; given = c.connections.given; connections = c.connections.items; present = c.fragments.present } };

    ghost invariant = { λ c. IsKept c.options.connections c.connections.given c.users.items c.connections.items c.fragments.present };
}

/// Prints how many fragments the store has, and how many connections were given.
impl fmt::Debug for Context<'_> {
    fn fmt<W: fmt::Write>(&self, f: &mut fmt::Formatter<W>) -> fmt::Result {
        f.debug_struct("Context")
            .field("fragments", &self.store.len())
            .field("connections", &self.connections.given())
            .finish()
    }
}

impl<'a> Context<'a> {
    /// Returns a context over the fragments of a store, in which nothing is prepared. No section may exceed
    /// the address `limit`. Nothing is allocated yet.
    pub fn new(alloc: Global, store: Store<'a>, limit: u32) -> Context<'a>
        ensures { result ≡ fresh_state store.entry limit }
    {
        Context::with_options(alloc, store, Options::with_limit(limit))
    }

    /// Returns a context over the fragments of a store, in which nothing is prepared. Nothing is allocated yet.
    pub fn with_options(alloc: Global, store: Store<'a>, options: Options) -> Context<'a>
        ensures { result ≡ made_state store.entry (choices_of options) }
    {
        Context {
            alloc,
            options,
            store: CachedStore::new(alloc, store),
            connections: Connections::new(alloc),
            users: Vec::new(alloc),
            fragments: Fragments::new(alloc, options.limit, options.granule),
        }
    }

    /// Adds a fragment to the store. If several fragments have the same name, the first is used.
    ///
    /// If no fragment has the name, it gets the first place that a removed one left free. Otherwise, and if no place is free,
    /// it comes after the others.
    ///
    /// # Errors
    ///
    /// `AddedTooLate` if the store has no fragment with this name, and a fragment of an open connection's closure
    /// has a library entry with it: it was prepared without. Otherwise `StoreFull` if the store has no place for it.
    /// `OutOfMemory` if an allocation fails. After an error the context is unchanged.
    pub fn add(&mut self, name: &'a [u8], bytes: &'a [u8]) -> Result<(), AddFault>
        ensures added { OnOk result (Adds self.old name.now bytes.now self.new) }
        ensures refused { IfErr result (λ fault. MayNotAdd self.old name.now fault) }
        ensures unchanged { OnErr result (self.new ≡ self.old) }
    {
        if self.store.find(name).is_none() && self.connections.names_library(name) {
            return Err(AddFault::AddedTooLate);
        }
        if !self.store.has_room(name) {
            return Err(AddFault::StoreFull);
        }
        match self.store.put(name, bytes) {
            Ok(()) => Ok(()),
            Err(StoreFault::OutOfMemory) => Err(AddFault::OutOfMemory),
        }
    }

    /// Returns the place of the first fragment with a name in the store.
    pub fn find(&self, name: &[u8]) -> Option<usize>
        ensures { result ≡ place_of self.now.pairs name.now }
    {
        self.store.find(name)
    }

    /// Removes the first fragment with a name from the store. The next one with this name, if there is one, is the first
    /// then. The others keep their places, and no closure of an open connection changes.
    ///
    /// # Errors
    ///
    /// `RootMissing` if the store has no fragment with this name. Otherwise `StillPresent` if it is present. Otherwise
    /// `StillNamed` if a fragment of an open connection's closure has a library entry with the name: it is weak, and the
    /// fragment's version doesn't fit. `OutOfMemory` if an allocation fails. After an error the context is unchanged.
    pub fn remove(&mut self, name: &[u8]) -> Result<(), RemoveFault>
        ensures removed { OnOk result (Removes self.old name.now self.new) }
        ensures refused { IfErr result (λ fault. MayNotRemove self.old name.now fault) }
        ensures unchanged { OnErr result (self.new ≡ self.old) }
    {
        let Some(place) = self.store.find(name) else {
            return Err(RemoveFault::RootMissing);
        };
        if self.fragments.has(place) {
            return Err(RemoveFault::StillPresent);
        }
        if self.connections.names_library(name) {
            return Err(RemoveFault::StillNamed);
        }
        match self.store.remove(self.alloc, place) {
            Ok(()) => Ok(()),
            Err(StoreFault::OutOfMemory) => Err(RemoveFault::OutOfMemory),
        }
    }

    /// Takes `size` addresses from `address` on out of use, until they are given back by [`unreserve`](Self::unreserve). No
    /// section is placed there.
    ///
    /// The range begins at the multiple of 16 at or below `address`, and ends at the one at or above its end. If `size` is
    /// 0, nothing is taken.
    ///
    /// # Errors
    ///
    /// `NoRoom` if the range meets a section or another range, or passes the last address of 32 bits. Otherwise
    /// `OutOfMemory` if an allocation fails. After an error the context is unchanged.
    pub fn reserve(&mut self, address: u32, size: u32) -> Result<(), MemoryFault>
        ensures reserved { OnOk result (TakesOut self.old address size self.new) }
        ensures refused { IfErr result (λ fault. MayNotReserve self.old.memory address size fault) }
        ensures unchanged { OnErr result (self.new ≡ self.old) }
    {
        self.fragments.reserve(address, size)?;
        Ok(())
    }

    /// Gives a reserved range back: sections can be placed there again. Returns whether there was one.
    ///
    /// It is exactly the range that [`reserve`](Self::reserve) takes out of use for the same numbers. If the addresses aren't
    /// such a range, also if they are a part of one or several, nothing changes. If `size` is 0, nothing changes, and the
    /// answer is `true`.
    pub fn unreserve(&mut self, address: u32, size: u32) -> bool
        ensures freed { result ≡ true → PutsBack self.old address size self.new }
        ensures refused { result ≡ false → IsNoRange self.old.memory address size × (self.new ≡ self.old) }
    {
        self.fragments.unreserve(address, size)
    }

    /// Returns the libraries that the fragment with a name and those that it needs name, and that no fragment serves: there
    /// is none with the library's name, or its versions don't fit. Weak libraries are among them.
    ///
    /// Each name is there once, in the order in which a preparation looks for libraries. Asked before
    /// [`prepare`](Self::prepare), it says which fragments to [`add`](Self::add). These may name others, so ask again.
    ///
    /// # Errors
    ///
    /// `RootMissing` if the store has no fragment with this name. Otherwise the first refusal of a fragment that can't be
    /// read. `OutOfMemory` if an allocation fails. The context is unchanged in any case.
    pub fn missing(&mut self, name: &[u8]) -> Result<Vec<MissingLibrary<'a>>, PrepareFault<'a>>
        ensures lacks { IfOk result (λ libraries. Lacks self.old name.now (map missing_seen libraries.items)) }
        ensures refused { IfErr result (λ fault. MayNotTell self.old name.now fault) }
        ensures unchanged { self.new ≡ self.old }
    {
        let Some(root) = self.store.find(name) else {
            return Err(PrepareFault::RootMissing);
        };
        let libraries = self.store.missing(self.alloc, root)?;
        Ok(libraries)
    }

    /// Opens a connection to the fragment with a name: the fragments of its closure that aren't present are
    /// placed, filled and relocated.
    ///
    /// # Errors
    ///
    /// `TooManyConnections` if all numbers were given. Otherwise `RootMissing` if the store has no fragment
    /// with this name. Otherwise the first refusal of the closure. Otherwise `TooManyBytes` or
    /// `TooManyStepsInAll` if its new fragments take more than the options allow. Otherwise the first refusal of
    /// placement, of the images, or of the relocation headers, in this order. `OutOfMemory` if an allocation
    /// fails. After an error the context is unchanged.
    pub fn prepare(&mut self, name: &[u8]) -> Result<Connection, PrepareFault<'a>>
        ensures prepared { IfOk result (λ connection. Prepares self.old name.now connection.0 self.new) }
        ensures refused { IfErr result (λ fault. MayNotPrepare self.old name.now fault) }
        ensures unchanged { OnErr result (self.new ≡ self.old) }
    {
        if self.connections.given() >= self.options.connections as usize {
            return Err(PrepareFault::TooManyConnections);
        }
        let Some(root) = self.store.find(name) else {
            return Err(PrepareFault::RootMissing);
        };
        self.open_root(root, PlaceRule::Lowest)
    }

    /// Returns the sections that [`prepare`](Self::prepare) would place for a name, in the order in which it places them, with
    /// the memory that each needs. [`prepare_at`](Self::prepare_at) takes an address for each.
    ///
    /// # Errors
    ///
    /// Those of `prepare` up to `TooManyStepsInAll`: nothing is placed. `OutOfMemory` if an allocation fails. The context is
    /// unchanged in any case.
    pub fn new_sections(&mut self, name: &[u8]) -> Result<Vec<NewSection>, PrepareFault<'a>>
        ensures sections { IfOk result (λ sections. AreNewSections self.old name.now sections.items) }
        ensures refused { IfErr result (λ fault. MayNotTellSections self.old name.now fault) }
        ensures unchanged { self.new ≡ self.old }
    {
        if self.connections.given() >= self.options.connections as usize {
            return Err(PrepareFault::TooManyConnections);
        }
        let Some(root) = self.store.find(name) else {
            return Err(PrepareFault::RootMissing);
        };
        self.sections_of_root(root)
    }

    /// Opens a connection as [`prepare`](Self::prepare) does, but places the k-th new section at the k-th of some addresses. They are in the
    /// order of [`new_sections`](Self::new_sections).
    ///
    /// # Errors
    ///
    /// Those of `prepare` up to `TooManyStepsInAll`. Otherwise `WrongAddressCount` if there are more or fewer addresses than
    /// new sections. Otherwise the others of `prepare`. `NoRoom` here is for the first section whose address is below
    /// 00010000 (hex) or isn't a multiple of its alignment, or that would pass the limit, or meet a section or a reserved
    /// range. After an error the context is unchanged.
    pub fn prepare_at(
        &mut self,
        name: &[u8],
        addresses: &[u32],
    ) -> Result<Connection, PlaceFault<'a>>
        ensures prepared { IfOk result (λ connection. PreparesAt self.old name.now addresses.now connection.0 self.new) }
        ensures refused { IfErr result (λ fault. MayNotPrepareAt self.old name.now addresses.now fault) }
        ensures unchanged { OnErr result (self.new ≡ self.old) }
    {
        let count = self.new_sections(name)?.len();
        if count != addresses.len() {
            return Err(PlaceFault::WrongAddressCount);
        }
        let Some(root) = self.store.find(name) else {
            unreachable!()
        };
        let connection = self.open_root(root, PlaceRule::Given(addresses))?;
        Ok(connection)
    }

    /// Returns the sections that a preparation of the fragment in a place of the store would place.
    fn sections_of_root(&mut self, root: usize) -> Result<Vec<NewSection>, PrepareFault<'a>>
        requires root { root < length self.old.pairs }
        requires left { self.old.given < self.old.bounds.connections }
        ensures sections { (name : List ℕ) → place_of self.old.pairs name ≡ Some root → IfOk result (λ sections. AreNewSections self.old name sections.items) }
        ensures refused { (name : List ℕ) → place_of self.old.pairs name ≡ Some root → IfErr result (λ fault. MayNotTellSections self.old name fault) }
        ensures unchanged { self.new ≡ self.old }
    {
        let closure = self.store.closure(self.alloc, root)?;
        self.fragments.test_bounds(&closure, &self.options)?;
        let sections = self.fragments.new_sections(&closure)?;
        Ok(sections)
    }

    /// Opens a connection to the fragment in a place of the store. Its new sections are placed by a rule.
    #[tactic(auto, using(crate::proofs::UsersLemmas::same_users))]
    fn open_root(
        &mut self,
        root: usize,
        rule: PlaceRule<'_>,
    ) -> Result<Connection, PrepareFault<'a>>
        requires root { root < length self.old.pairs }
        requires left { self.old.given < self.old.bounds.connections }
        requires counted { (closed : Closed) → closed_of self.old.pairs root ≡ Ok closed → IsRuleFor (rule_of rule) self.old.pairs (new_of self.old closed) }
        ensures prepared { (name : List ℕ) → place_of self.old.pairs name ≡ Some root → IfOk result (λ connection. PreparesBy (rule_of rule.entry) self.old name connection.0 self.new) }
        ensures refused { (name : List ℕ) → place_of self.old.pairs name ≡ Some root → IfErr result (λ fault. MayNotPrepareBy (rule_of rule.entry) self.old name fault) }
        ensures unchanged { OnErr result (self.new ≡ self.old) }
    {
        make_room(&mut self.users, self.store.len())?;
        self.connections.reserve()?;
        let closure = self.store.closure(self.alloc, root)?;
        let placed = self.fragments.new_among(closure.init_order())?;
        self.fragments.test_bounds(&closure, &self.options)?;
        self.fragments.prepare(&closure, rule)?;
        enter(&mut self.users, closure.order());
        let number = self.connections.given() as u32;
        self.connections
            .push(OpenConnection::new(number, root, closure, placed));
        Ok(Connection(number))
    }

    /// Closes a connection, and releases the fragments that no other open connection needs.
    ///
    /// # Errors
    ///
    /// `BadConnection` if no open connection has this number. The context is then unchanged.
    pub fn close(&mut self, connection: Connection) -> Result<(), CloseFault>
        ensures closed { OnOk result (Closes self.old connection.0 self.new) }
        ensures refused { OnErr result (open_of self.old.connections connection.0 ≡ None) }
        ensures unchanged { OnErr result (self.new ≡ self.old) }
    {
        let Some(closed) = self.connections.remove(connection.0) else {
            return Err(CloseFault::BadConnection);
        };
        let order = closed.closure().order();
        leave(&mut self.users, order);
        release(&mut self.fragments, &self.users, order);
        Ok(())
    }

    /// Returns the address of the first export with a name, of the fragment that a connection was opened to.
    /// `None` if there is none, or the connection isn't open.
    pub fn symbol(&self, connection: Connection, name: &[u8]) -> Option<u32>
        ensures { result ≡ option_and_then (λ o. symbol_address self.now.present o name.now) (open_of self.now.connections connection.0) }
    {
        let connected = self.connections.get(connection.0)?;
        connected.root_symbol(&self.fragments, name)
    }

    /// Returns the address and the bytes of section `i` of the fragment that a connection was opened to.
    pub fn section(&self, connection: Connection, i: usize) -> Option<(u32, &[u8])>
        ensures { option_map section_seen result ≡ root_section self.now connection.0 i }
    {
        let connected = self.connections.get(connection.0)?;
        self.fragment_section(connected.root(), i)
    }

    /// Returns the address of the main entry of the fragment that a connection was opened to.
    pub fn main(&self, connection: Connection) -> Option<u32>
        ensures { result ≡ option_and_then (λ o. main_address self.now.present o) (open_of self.now.connections connection.0) }
    {
        let connected = self.connections.get(connection.0)?;
        connected.main(&self.fragments)
    }

    /// Returns the fragments of a connection's closure in the order of their initialization, by their places
    /// in the store.
    pub fn init_order(&self, connection: Connection) -> Option<&[usize]>
        ensures { option_copied result ≡ option_map (λ o. o.closed.init_order) (open_of self.now.connections connection.0) }
    {
        let connected = self.connections.get(connection.0)?;
        Some(connected.closure().init_order())
    }

    /// Returns the fragments of a connection's closure in closure order, by their places in the store.
    pub fn fragments(&self, connection: Connection) -> Option<&[usize]>
        ensures { option_copied result ≡ option_map (λ o. o.closed.order) (open_of self.now.connections connection.0) }
    {
        let connected = self.connections.get(connection.0)?;
        Some(connected.closure().order())
    }

    /// Returns the fragments that the preparation of a connection placed, in the order of their initialization, by
    /// their places in the store. Exactly these have to be initialized: the others were present already. `None` if the
    /// connection isn't open.
    pub fn new_fragments(&self, connection: Connection) -> Option<&[usize]>
        ensures { option_copied result ≡ option_map (λ o. o.placed) (open_of self.now.connections connection.0) }
    {
        let connected = self.connections.get(connection.0)?;
        Some(connected.placed())
    }

    /// Returns the fragments that closing a connection releases, by their places in the store: the last to be
    /// initialized comes first, as their termination routines are called. `None` if the connection isn't open.
    ///
    /// # Errors
    ///
    /// `AllocError` if an allocation fails.
    pub fn released_by(&self, connection: Connection) -> Result<Option<Vec<usize>>, AllocError>
        ensures { IfOk result (λ released. option_map (λ v. v.items) released ≡ released_by self.now connection.0) }
    {
        let Some(connected) = self.connections.get(connection.0) else {
            return Ok(None);
        };
        let order = connected.closure().init_order();
        let mut released = unshared_among(self.alloc, &self.users, order)?;
        released.reverse();
        Ok(Some(released))
    }

    /// Returns what import `number` of a fragment of a connection's closure means, with the address that was added
    /// for it. The fragment is given by its place in the store. `None` past the last import, if the closure lacks the
    /// fragment, or the connection isn't open.
    pub fn import_target(
        &self,
        connection: Connection,
        position: usize,
        number: usize,
    ) -> Option<ImportTarget>
        ensures { result ≡ option_and_then (λ o. import_target_of self.now.present o position number) (open_of self.now.connections connection.0) }
    {
        let connected = self.connections.get(connection.0)?;
        connected.import_target(&self.fragments, position, number)
    }

    /// Returns the address of export `number` of a fragment of a connection's closure, given by its place in the
    /// store. `None` past the last export, if the closure lacks the fragment, or the connection isn't open.
    pub fn export_address(
        &self,
        connection: Connection,
        position: usize,
        number: usize,
    ) -> Option<u32>
        ensures { result ≡ option_and_then (λ o. numbered_export self.now.present o position number) (open_of self.now.connections connection.0) }
    {
        let connected = self.connections.get(connection.0)?;
        connected.numbered_export(&self.fragments, position, number)
    }

    /// Returns a connection's closure: the containers and the loader sections of its fragments, and the targets of
    /// their imports. `None` if the connection isn't open.
    pub fn closure(&self, connection: Connection) -> Option<&Closure<'a>>
        ensures { option_copied result ≡ option_map (λ o. o.closed) (open_of self.now.connections connection.0) }
    {
        let connected = self.connections.get(connection.0)?;
        Some(connected.closure())
    }

    /// Returns the store: the names of all fragments, and the bytes of their containers.
    pub fn store(&self) -> &Store<'a>
        ensures { result.now ≡ self.now.pairs }
    {
        self.store.store()
    }

    /// Returns whether the fragment with a name is present: the closure of an open connection has it. If several
    /// fragments have the same name, the first is used. `false` if there is none.
    pub fn is_present(&self, name: &[u8]) -> bool
        ensures { result ≡ has_present self.now name.now }
    {
        match self.store.find(name) {
            Some(position) => self.fragments.has(position),
            None => false,
        }
    }

    /// Returns the address and the bytes of section `i` of the fragment in a place of the store. `None` if the
    /// fragment isn't present, or has no such section. None lies in a reserved range.
    pub fn fragment_section(&self, position: usize, i: usize) -> Option<(u32, &[u8])>
        ensures section { option_map section_seen result ≡ section_present self.now.memory self.now.present position i }
        ensures within { MatchOption result (length (places_of self.now.present position) ≤ i) (λ s. s.0 + length s.1.now ≤ self.now.memory.limit) }
        ensures clear { IfSome result (λ s. IsClear s.0 (s.0 + length s.1.now) self.now.memory.reserved) }
    {
        self.fragments.section(position, i)
    }

    /// Returns an iterator over the sections of the fragment in a place of the store: the address and the bytes of
    /// each, in order. There are none if the fragment isn't present.
    pub fn sections(&self, position: usize) -> Sections<'_>
        ensures { sections_left result ≡ sections_at self.now.memory (places_of self.now.present position) }
    {
        self.fragments.sections(position)
    }

    /// Returns how many instantiated sections the fragment in a place of the store has, or 0 if it isn't
    /// present.
    pub fn section_count(&self, position: usize) -> usize
        ensures { result ≡ length (places_of self.now.present position) }
    {
        self.fragments.places(position).len()
    }

    /// Returns the addresses of the entry points of a fragment of a connection's closure, given by its place
    /// in the store. `None` if the closure lacks the fragment, or the connection isn't open.
    pub fn fragment_entries(&self, connection: Connection, position: usize) -> Option<Entries>
        ensures { result ≡ option_and_then (λ o. entries_of self.now.present o position) (open_of self.now.connections connection.0) }
    {
        let connected = self.connections.get(connection.0)?;
        connected.entries(&self.fragments, position)
    }

    /// Returns the address of the first export with a name, of a fragment of a connection's closure, given by
    /// its place in the store. `None` if there is none, the closure lacks the fragment, or the connection
    /// isn't open.
    pub fn fragment_symbol(
        &self,
        connection: Connection,
        position: usize,
        name: &[u8],
    ) -> Option<u32>
        ensures { result ≡ option_and_then (λ o. symbol_of self.now.present o position name.now) (open_of self.now.connections connection.0) }
    {
        let connected = self.connections.get(connection.0)?;
        connected.symbol(&self.fragments, position, name)
    }

    /// Returns the loader section of a fragment of a connection's closure, given by its place in the store: it has the
    /// number of its exports, and its imports by their names. `None` if the closure lacks the fragment, or the connection
    /// isn't open.
    pub fn fragment_loader(&self, connection: Connection, position: usize) -> Option<Loader<'a>>
        ensures { option_map loaded result ≡ option_and_then (λ o. fragment_loader o position) (open_of self.now.connections connection.0) }
    {
        let connected = self.connections.get(connection.0)?;
        fragment_loader(connected, position)
    }

    /// Returns export `number` of a fragment of a connection's closure, given by its place in the store, with where it
    /// ends and its address. `None` past the last export, if the closure lacks the fragment, or the connection isn't open.
    pub fn fragment_export(
        &self,
        connection: Connection,
        position: usize,
        number: usize,
    ) -> Option<FragmentExport<'a>>
        ensures { option_map placed_seen result ≡ option_and_then (λ o. fragment_export self.now.present o position number) (open_of self.now.connections connection.0) }
    {
        let connected = self.connections.get(connection.0)?;
        fragment_export(connected, &self.fragments, position, number)
    }

    /// Returns the first export with a name of a fragment of a connection's closure, given by its place in the store, with
    /// where it ends and its address. `None` if there is none, the closure lacks the fragment, or the connection isn't open.
    pub fn fragment_export_named(
        &self,
        connection: Connection,
        position: usize,
        name: &[u8],
    ) -> Option<FragmentExport<'a>>
        ensures { option_map placed_seen result ≡ option_and_then (λ o. fragment_export_named self.now.present o position name.now) (open_of self.now.connections connection.0) }
    {
        let connected = self.connections.get(connection.0)?;
        fragment_export_named(connected, &self.fragments, position, name)
    }

    /// Returns where an address is: in which section of which fragment, and the nearest export there at it or before it.
    /// `None` if it is in no section of a fragment that is present.
    pub fn at(&self, address: u32) -> Option<Location<'a>>
        ensures { IsLocated self.now address (option_map location_seen result) }
    {
        let (fragment, section, offset) = section_with(&self.fragments, address)?;
        let Some(connected) = self.connections.having(fragment) else {
            unreachable!()
        };
        let closure = connected.closure();
        Some(Location {
            connection: Connection(connected.number()),
            fragment,
            section,
            offset,
            nearest: nearest_export(closure, &self.fragments, fragment, section, offset),
        })
    }

    /// Returns the header of section `i` in the container of a fragment of a connection's closure, given by
    /// its place in the store. `None` past the last section, if the closure lacks the fragment, or the
    /// connection isn't open.
    pub fn fragment_section_header(
        &self,
        connection: Connection,
        position: usize,
        i: usize,
    ) -> Option<SectionHeader>
        ensures { result ≡ option_and_then (λ o. section_header_of o position i) (open_of self.now.connections connection.0) }
    {
        let connected = self.connections.get(connection.0)?;
        connected.section_header(position, i)
    }

    /// Returns the name of the fragment in a place of the store. `None` past the last place, and if the place is free.
    pub fn name(&self, position: usize) -> Option<&'a [u8]>
        ensures { option_map (λ n. n.now) result ≡ name_at self.now.pairs position }
    {
        let (name, _) = self.store.pair(position)?;
        Some(name)
    }
}
