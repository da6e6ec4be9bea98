ghost use Rattle.std.specs.Prelude.{◌≡◌, ◌<◌, ◌≤◌, ◌++◌, [], ◌∷◌, false, true, length, map, slice_get, option_map, nat_le, IfSome, OnOk, OnErr};
ghost use Rattle.std.specs.Option.{option_and_then};
ghost use Rattle.cfm_store.specs.Additions.{has_room, with_put, without_pair};
ghost use Rattle.cfm_closure.specs.Closures.{closed_of};
ghost use Rattle.cfm_closure.specs.Faults.{Answers};
ghost use Rattle.cfm_store.specs.Limits.{most_pairs};
ghost use Rattle.cfm_closure.specs.Missing.{missing_of};
ghost use Rattle.cfm_store.specs.Seen.{pair_seen};
ghost use Rattle.cfm_store.specs.Stores.{place_of, taken};
ghost use Rattle.cfm_closure.specs.Views.{missing_seen};

use crate::build::closure_with;
use crate::cache::Cache;
use crate::closures::Closure;
use crate::fault::BindFault;
use crate::missing::MissingLibrary;
use crate::search::missing_with;
use cfm_store::{Store, StoreFault};
use std::alloc::Global;
use std::fmt;
use std::marker::Model;

/// A store that keeps what its closures read and resolved. A fragment of several closures is read once, and its imports
/// are resolved once.
///
/// Its closures are those of the [`Store`]. Only their cost differs.
#[derive(Drop)]
pub struct CachedStore<'a> {
    store: Store<'a>,
    cache: Cache<'a>,
}

impl<'a> Model for CachedStore<'a> {
    ghost use Rattle.std.specs.Prelude.{List};
    ghost use Rattle.cfm_store.specs.Stores.{Pair};

    ghost Value = { List Pair };

    ghost use Rattle.cfm_closure.specs.Kept.Caches.{IsCache};

    ghost view = { λ s. s.store };

    ghost invariant = { λ s. IsCache s.store s.cache };
}

impl fmt::Debug for CachedStore<'_> {
    fn fmt<W: fmt::Write>(&self, f: &mut fmt::Formatter<W>) -> fmt::Result {
        f.debug_struct("CachedStore")
            .field("pairs", &self.store.len())
            .finish()
    }
}

impl<'a> CachedStore<'a> {
    /// Returns a cached store with the pairs of a store. Nothing was read of it, and nothing is allocated
    /// yet.
    pub fn new(alloc: Global, store: Store<'a>) -> CachedStore<'a>
        ensures { result ≡ store.entry }
    {
        CachedStore {
            store,
            cache: Cache::empty(alloc),
        }
    }

    /// Returns the store.
    pub fn store(&self) -> &Store<'a>
        ensures { result.now ≡ self.now }
    {
        &self.store
    }

    /// Appends a pair, as [`Store::add`] does. What was read stays. So do the targets that were found, unless the pair may
    /// change them: if a fragment of a closure has a library entry with its name, which the store lacked.
    ///
    /// # Errors
    ///
    /// `OutOfMemory` if an allocation fails. The pairs are then unchanged.
    pub fn add(&mut self, name: &'a [u8], bytes: &'a [u8]) -> Result<(), StoreFault>
        requires { length self.old < most_pairs }
        ensures ok { OnOk result (self.new ≡ self.old ++ (record { name = name.now; bytes = bytes.now; free = false }) ∷ []) }
        ensures err { OnErr result (self.new ≡ self.old) }
    {
        self.cache.forget_changed(&self.store, name);
        self.store.add(name, bytes)
    }

    /// Puts a pair into the place for it, as [`Store::put`] does. What was read and the targets that were found stay as
    /// [`CachedStore::add`] leaves them.
    ///
    /// # Errors
    ///
    /// `OutOfMemory` if an allocation fails. The pairs are then unchanged.
    pub fn put(&mut self, name: &'a [u8], bytes: &'a [u8]) -> Result<(), StoreFault>
        requires { has_room self.old name.now ≡ true }
        ensures ok { OnOk result (self.new ≡ with_put self.old (record { name = name.now; bytes = bytes.now; free = false })) }
        ensures err { OnErr result (self.new ≡ self.old) }
    {
        self.cache.forget_changed(&self.store, name);
        self.store.put(name, bytes)
    }

    /// Removes the pair in a place, as [`Store::remove`] does. If it is the first of its name, what was read of the others stays, and
    /// so do the targets of those that don't need it. Nothing that stays has slices of the pair's bytes.
    ///
    /// # Errors
    ///
    /// `OutOfMemory` if an allocation fails. The pairs are then unchanged.
    pub fn remove(&mut self, alloc: Global, place: usize) -> Result<(), StoreFault>
        requires { place < length self.old }
        ensures ok { OnOk result (self.new ≡ without_pair self.old place) }
        ensures err { OnErr result (self.new ≡ self.old) }
    {
        self.cache.forget_removed(alloc, &self.store, place);
        self.store.remove(place)
    }

    /// Returns whether there is a place for a new pair with a name.
    pub fn has_room(&self, name: &[u8]) -> bool
        ensures { result ≡ has_room self.now name.now }
    {
        self.store.has_room(name)
    }

    /// Returns how many places there are, free ones among them.
    pub fn len(&self) -> usize
        ensures len { result ≡ length self.now }
        ensures few { result ≤ most_pairs }
    {
        self.store.len()
    }

    /// Returns whether there are as many places as a store may have, so that no pair may be added at the end.
    pub fn is_full(&self) -> bool
        ensures { result ≡ nat_le most_pairs (length self.now) }
    {
        self.store.is_full()
    }

    /// Returns the pair in place `p`, name first, or `None` past the last place and if it is free.
    pub fn pair(&self, p: usize) -> Option<(&'a [u8], &'a [u8])>
        ensures { option_map pair_seen result ≡ option_and_then taken (slice_get self.now p) }
    {
        self.store.pair(p)
    }

    /// Returns the place of the first pair with a name.
    pub fn find(&self, name: &[u8]) -> Option<usize>
        ensures place { result ≡ place_of self.now name.now }
        ensures below { IfSome result (λ p. p < length self.now) }
    {
        self.store.find(name)
    }

    /// Returns the closure of the fragment in a place, as [`closure`](crate::closure) does. What an earlier call read
    /// isn't read again.
    ///
    /// # Errors
    ///
    /// Those of [`closure`](crate::closure). The pairs are unchanged in any case.
    pub fn closure(&mut self, alloc: Global, root: usize) -> Result<Closure<'a>, BindFault<'a>>
        requires { root < length self.old }
        ensures answer { Answers (λ c. c) result (closed_of self.old root) }
        ensures same { self.new ≡ self.old }
    {
        closure_with(alloc, &self.store, &mut self.cache, root)
    }

    /// Returns the libraries that the closure of the fragment in a place lacks: each library that a fragment of the walk
    /// names and no fragment of the store serves, since the store has none with this name, or its versions don't fit. The
    /// walk passes them by, so it continues after a library without which [`closure`](Self::closure) is refused. Weak ones
    /// are among them.
    ///
    /// Each name is there once, in the order of the walk, with the first entry that isn't weak, if there is one.
    ///
    /// # Errors
    ///
    /// The first refusal of a fragment on the walk that can't be read, or `OutOfMemory` if an allocation fails. The pairs
    /// are unchanged in any case.
    pub fn missing(
        &mut self,
        alloc: Global,
        root: usize,
    ) -> Result<Vec<MissingLibrary<'a>>, BindFault<'a>>
        requires { root < length self.old }
        ensures answer { Answers (λ ms. map missing_seen ms.items) result (missing_of self.old root) }
        ensures same { self.new ≡ self.old }
    {
        missing_with(alloc, &self.store, &mut self.cache, root)
    }
}
