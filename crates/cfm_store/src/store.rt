ghost use Rattle.std.specs.Prelude.{◌≡◌, ◌==◌, ◌<◌, ◌≤◌, ◌++◌, List, None, Some, true, false, [], ◌∷◌, length, map, slice_get, slice_index_or, slice_set, option_map, nat_le, IfSome, OnOk, OnErr};
ghost use Rattle.std.specs.Option.{option_and_then};
ghost use Rattle.indexmap.specs.IndexMap.{spare};
ghost use Rattle.cfm_store.specs.Additions.{free_for, free_from, has_room, with_put, without_pair};
ghost use Rattle.cfm_store.specs.Places.{NotesPlace, NotesSlice};
ghost use Rattle.cfm_store.specs.Kept.Places.{SetsPlace, SetsSlice, slice_of};
ghost use Rattle.cfm_store.specs.Seen.{pair_seen, place_seen};
ghost use Rattle.cfm_store.specs.Stores.{no_pair, pair_of, place_of, taken};
ghost use Rattle.cfm_store.specs.Limits.{most_pairs};

use crate::store_fault::StoreFault;
use indexmap::IndexMap;
use pef_names::NameKey;
use std::alloc::{AllocFailed, Global};
use std::fmt;
use std::marker::Model;

/// The most pairs of a store.
pub const MAX_PAIRS: usize = 256;

/// A longer name is compared with those of the pairs. Most have another length, while a hash takes all its bytes.
const LONGEST_HASHED: usize = 255;

/// Fragments by name: pairs of a name and the bytes of a container, borrowed, in the order in which they
/// were added. If several pairs have the same name, the first is used.
///
/// A pair that is removed leaves a free place, and the others stay in theirs. The next pair whose name isn't there gets the
/// first free place. A pair whose name is there goes to the end, so that the first stays the first.
#[derive(Drop)]
pub struct Store<'a> {
    pairs: Vec<Option<(&'a [u8], &'a [u8])>>,
    /// The place of the first pair of each name. Each key is that pair's own slice of the name.
    places: IndexMap<NameKey<'a>, usize>,
}

impl<'a> Model for Store<'a> {
    ghost use Rattle.std.specs.Prelude.{List};
    ghost use Rattle.cfm_store.specs.Stores.{Pair};

    ghost Value = { List Pair };

    ghost use Rattle.std.specs.Prelude.{map};
    ghost use Rattle.cfm_store.specs.Seen.{place_seen};
    ghost use Rattle.cfm_store.specs.Kept.Places.{IsStore};

    ghost view = { λ s. map place_seen s.pairs.items };

    ghost invariant = { λ s. IsStore s.pairs.items s.places.entries };
}

impl fmt::Debug for Store<'_> {
    fn fmt<W: fmt::Write>(&self, f: &mut fmt::Formatter<W>) -> fmt::Result {
        f.debug_struct("Store")
            .field("pairs", &self.pairs.len())
            .finish()
    }
}

impl<'a> Store<'a> {
    /// Returns the empty store. Nothing is allocated yet.
    pub fn new(alloc: Global) -> Store<'a>
        ensures { result ≡ [] }
    {
        Store {
            pairs: Vec::new(alloc),
            places: IndexMap::new(alloc),
        }
    }

    /// Appends a pair, if the store isn't full ([`Store::is_full`]): it has at most [`MAX_PAIRS`].
    ///
    /// # Errors
    ///
    /// `OutOfMemory` if an allocation fails. The store is then unchanged.
    pub fn add(&mut self, name: &'a [u8], bytes: &'a [u8]) -> Result<(), StoreFault>
        requires { length self.old < most_pairs }
        ensures ok { OnOk result (self.new ≡ self.old ++ (record { name = name.now; bytes = bytes.now; free = false }) ∷ []) }
        ensures err { OnErr result (self.new ≡ self.old) }
    {
        self.pairs.reserve(1)?;
        let place = self.pairs.len();
        note_place(&mut self.places, name, place)?;
        self.pairs.push(Some((name, bytes)))?;
        Ok(())
    }

    /// Puts a pair into the place for it, if there is one ([`Store::has_room`]): the first free place if no pair has its
    /// name, and otherwise the end.
    ///
    /// # Errors
    ///
    /// `OutOfMemory` if an allocation fails. The store is then unchanged.
    #[tactic(auto, unfolding(crate::specs::Additions::with_put))]
    pub fn put(&mut self, name: &'a [u8], bytes: &'a [u8]) -> Result<(), StoreFault>
        requires { has_room self.old name.now ≡ true }
        ensures ok { OnOk result (self.new ≡ with_put self.old (record { name = name.now; bytes = bytes.now; free = false })) }
        ensures err { OnErr result (self.new ≡ self.old) }
    {
        match self.free_place(name) {
            Some(place) => self.fill(place, name, bytes),
            None => self.add(name, bytes),
        }
    }

    /// Puts a pair into a free place. No pair may have its name.
    fn fill(&mut self, place: usize, name: &'a [u8], bytes: &'a [u8]) -> Result<(), StoreFault>
        requires place { place < length self.old }
        requires free { (slice_index_or self.old place no_pair).free ≡ true }
        requires name { place_of self.old name.now ≡ None }
        ensures ok { OnOk result (self.new ≡ slice_set self.old place (record { name = name.now; bytes = bytes.now; free = false })) }
        ensures err { OnErr result (self.new ≡ self.old) }
    {
        self.places.insert(NameKey { bytes: name }, place)?;
        self.pairs[place] = Some((name, bytes));
        Ok(())
    }

    /// Removes the pair in a place, which is free then. The others stay in their places.
    ///
    /// # Errors
    ///
    /// `OutOfMemory` if an allocation fails. The store is then unchanged.
    pub fn remove(&mut self, place: usize) -> Result<(), StoreFault>
        requires { place < length self.old }
        ensures ok { OnOk result (self.new ≡ without_pair self.old place) }
        ensures err { OnErr result (self.new ≡ self.old) }
    {
        self.places.reserve(1)?;
        if let Some((name, _)) = self.pairs[place].take() {
            note_removed(&mut self.places, &self.pairs, name);
        }
        Ok(())
    }

    /// Returns the free place for a new pair with a name: the first one, or `None` if a pair has the name.
    #[tactic(auto, unfolding(crate::specs::Additions::free_for))]
    fn free_place(&self, name: &[u8]) -> Option<usize>
        ensures { result ≡ free_for self.now name.now }
    {
        if self.find(name).is_some() {
            return None;
        }
        first_free(&self.pairs)
    }

    /// Returns whether there is a place for a new pair with a name.
    pub fn has_room(&self, name: &[u8]) -> bool
        ensures { result ≡ has_room self.now name.now }
    {
        !self.is_full() || self.free_place(name).is_some()
    }

    /// Returns how many places there are, free ones among them: at most [`MAX_PAIRS`].
    pub fn len(&self) -> usize
        ensures len { result ≡ length self.now }
        ensures few { result ≤ most_pairs }
    {
        self.pairs.len()
    }

    /// Returns whether there are no places.
    pub fn is_empty(&self) -> bool
        ensures { result ≡ (length self.now == 0) }
    {
        self.pairs.is_empty()
    }

    /// Returns whether there are as many places as a store may have, so that no pair may be added at the end.
    pub fn is_full(&self) -> bool
        ensures { result ≡ nat_le most_pairs (length self.now) }
    {
        self.len() >= MAX_PAIRS
    }

    /// Returns the pair in place `p`, name first, or `None` past the last place and if it is free.
    pub fn pair(&self, p: usize) -> Option<(&'a [u8], &'a [u8])>
        ensures { option_map pair_seen result ≡ option_and_then taken (slice_get self.now p) }
    {
        let pair = self.pairs.get(p)?;
        *pair
    }

    /// Returns all places.
    pub fn pairs(&self) -> &[Option<(&'a [u8], &'a [u8])>]
        ensures pairs { map place_seen result.now ≡ self.now }
        ensures few { length self.now ≤ most_pairs }
    {
        &self.pairs
    }

    /// Returns the pair in place `p`, which must exist. If it is free, the name and the bytes are empty.
    pub fn at(&self, p: usize) -> (&'a [u8], &'a [u8])
        requires { p < length self.now }
        ensures { pair_seen result ≡ pair_of self.now p }
    {
        match self.pairs[p] {
            Some(pair) => pair,
            None => (b"", b""),
        }
    }

    /// Returns the place of the first pair with a name.
    pub fn find(&self, name: &[u8]) -> Option<usize>
        ensures place { result ≡ place_of self.now name.now }
        ensures below { IfSome result (λ p. p < length self.now) }
    {
        if name.len() > LONGEST_HASHED {
            let (_, place) = first_named(&self.pairs, name)?;
            return Some(place);
        }
        self.places.get(&NameKey { bytes: name }).copied()
    }
}

/// Returns the first free place.
fn first_free(pairs: &[Option<(&[u8], &[u8])>]) -> Option<usize>
    ensures { result ≡ free_from 0 (map place_seen pairs.now) }
{
    for place in 0..pairs.len() {
        if pairs[place].is_none() {
            return Some(place);
        }
    }
    None
}

/// Notes the place of a name in a table of names, unless it has one. So in a table of the places of some names, each
/// noted with its place in their order, a name has the place of the first one.
///
/// # Errors
///
/// `AllocFailed` if an allocation fails. The table is then unchanged.
pub fn note_place<'a>(
    places: &mut IndexMap<NameKey<'a>, usize>,
    name: &'a [u8],
    place: usize,
) -> Result<(), AllocFailed<(NameKey<'a>, usize)>>
    ensures ok { OnOk result (NotesPlace places.old.entries name.now place places.new.entries) }
    ensures slice { OnOk result (NotesSlice places.old.entries name.entry places.new.entries) }
    ensures err { OnErr result (places.new.entries ≡ places.old.entries) }
{
    let key = NameKey { bytes: name };
    if places.contains_key(&key) {
        return Ok(());
    }
    places.insert(key, place)?;
    Ok(())
}

/// Notes the place that a name has after a pair with it was removed. The removed pair's slice of the name isn't kept.
fn note_removed<'a>(
    places: &mut IndexMap<NameKey<'a>, usize>,
    pairs: &[Option<(&'a [u8], &'a [u8])>],
    name: &'a [u8],
)
    requires { 0 < spare places.old }
    ensures place { SetsPlace places.old.entries name.now (place_of (map place_seen pairs.now) name.now) places.new.entries }
    ensures slice { SetsSlice places.old.entries name.now (slice_of pairs.now name.now) places.new.entries }
{
    places.shift_remove(&NameKey { bytes: name });
    let Some((name, place)) = first_named(pairs, name) else {
        return;
    };
    match places.insert(NameKey { bytes: name }, place) {
        Ok(_) => {}
        Err(_) => unreachable!(),
    }
}

/// Returns the first pair with a name: its slice of the name, and its place.
#[tactic(auto, unfolding(crate::specs::Stores::place_of))]
fn first_named<'a>(pairs: &[Option<(&'a [u8], &'a [u8])>], name: &[u8]) -> Option<(&'a [u8], usize)>
    ensures place { option_map (λ r. r.1) result ≡ place_of (map place_seen pairs.now) name.now }
    ensures slice { option_map (λ r. r.0) result ≡ slice_of pairs.now name.now }
    ensures name { IfSome result (λ r. r.0.now ≡ name.now) }
{
    for place in 0..pairs.len() {
        match pairs[place] {
            Some((other, _)) if name == other => return Some((other, place)),
            _ => {}
        }
    }
    None
}
