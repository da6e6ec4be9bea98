ghost use Rattle.std.specs.Prelude.{◌≡◌, ◌≢◌, ◌<◌, ◌≤◌, ℕ, List, [], false, length, IfOk, OnOk, Option, Some};
ghost use Rattle.std.specs.Option.{option_and_then};
ghost use Rattle.pef_loader.specs.Library.{Library};
ghost use Rattle.pef_loader.specs.Loader.{library_of};
ghost use Rattle.cfm_store.specs.Additions.{placed_at, without_pair};
ghost use Rattle.cfm_closure.specs.Fragments.{loader_at};
ghost use Rattle.cfm_closure.specs.Kept.Caches.{AreKeptRows, IsCache, IsOrderOfClosure, KeepsFirst, MayTake, NoneNames};
ghost use Rattle.cfm_closure.specs.Kept.Targets.{AreResolved};
ghost use Rattle.cfm_closure.specs.Kept.Views.{AreRead, AreViews};
ghost use Rattle.cfm_store.specs.Stores.{Pair, place_of};

use crate::bindings::Bindings;
use crate::fragment::FragmentView;
use crate::removal::{is_first, rows_left, views_without};
use crate::targets::SharedTargets;
use cfm_store::{MAX_PAIRS, PlaceTable, Store};
use std::alloc::{AllocError, Global};
use std::mem;

/// What the closures of a store found of its fragments, by their places.
#[derive(Drop)]
pub(crate) struct Cache<'a> {
    alloc: Global,
    /// The fragments that were read.
    pub views: PlaceTable<FragmentView<'a>>,
    /// The targets of the imports of fragments of closures.
    pub rows: PlaceTable<SharedTargets>,
}

impl<'a> Cache<'a> {
    /// Returns an empty cache. Nothing is allocated yet.
    pub fn empty(alloc: Global) -> Cache<'a>
        ensures views { result.views ≡ [] }
        ensures rows { result.rows ≡ [] }
    {
        Cache {
            alloc,
            views: PlaceTable::empty(alloc),
            rows: PlaceTable::empty(alloc),
        }
    }

    /// Takes out the fragments that were read, in a table with a place for each fragment of the store.
    pub fn take_views(
        &mut self,
        store: &Store<'a>,
    ) -> Result<PlaceTable<FragmentView<'a>>, AllocError>
        requires { IsCache store.now self.old }
        ensures views { IfOk result (λ views. AreViews store.now views) }
        ensures cache { IsCache store.now self.new }
    {
        self.views.grow(store.len())?;
        let none = PlaceTable::empty(self.alloc);
        Ok(mem::replace(&mut self.views, none))
    }

    /// Puts fragments that were read into their places.
    pub fn put_views(&mut self, views: PlaceTable<FragmentView<'a>>)
        ensures views { self.new.views ≡ views.entry }
        ensures rows { self.new.rows ≡ self.old.rows }
        ensures cache { (pairs : List Pair) → AreViews pairs views.entry → IsCache pairs self.old → IsCache pairs self.new }
    {
        drop(mem::replace(&mut self.views, views));
    }

    /// Keeps the targets of a closure's fragments, which are all known.
    ///
    /// # Errors
    ///
    /// `AllocError` if an allocation fails. No targets are kept then.
    pub fn keep_targets(&mut self, bindings: &mut Bindings<'a>) -> Result<(), AllocError>
        requires resolved { AreResolved bindings.old }
        requires closure { IsOrderOfClosure bindings.old.pairs bindings.old.order }
        requires cache { IsCache bindings.old.pairs self.old }
        ensures same { bindings.new ≡ bindings.old }
        ensures cache { IsCache bindings.old.pairs self.new }
    {
        match self.keep_rows(bindings) {
            Ok(()) => Ok(()),
            Err(error) => {
                self.forget_targets();
                Err(error)
            }
        }
    }

    /// Keeps the targets of a closure's fragments. If an allocation fails, those of some.
    fn keep_rows(&mut self, bindings: &mut Bindings<'a>) -> Result<(), AllocError>
        requires resolved { AreResolved bindings.old }
        requires few { length self.old.rows ≤ length bindings.old.pairs }
        requires right { AreKeptRows bindings.old.pairs self.old.rows }
        ensures same { bindings.new ≡ bindings.old }
        ensures views { self.new.views ≡ self.old.views }
        ensures rows { OnOk result (KeepsFirst bindings.old.pairs bindings.old.order (length bindings.old.order) self.old.rows self.new.rows) }
    {
        self.rows.grow(bindings.places())?;
        for i in 0..bindings.order().len() {
            let p = bindings.order()[i];
            let row = bindings.share(self.alloc, p)?;
            self.rows.put(p, row)?;
        }
        Ok(())
    }

    /// Drops the targets that a new pair with a name may change.
    pub fn forget_changed(&mut self, store: &Store<'a>, name: &[u8])
        requires { IsCache store.now self.old }
        ensures without { IsCache store.now self.new }
        ensures with { (bytes : List ℕ) (o : Option ℕ) → MayTake store.now name.now o → IsCache (placed_at store.now (record { name = name.now; bytes = bytes; free = false }) o) self.new }
    {
        if store.find(name).is_none() && self.names_library(name) {
            self.forget_targets();
        }
    }

    /// Drops what the removal of the fragment in a place makes wrong: what was read of it, its targets, and those of the fragments
    /// that need it. If an allocation fails, or the fragment isn't the first of its name, all is dropped.
    pub fn forget_removed(&mut self, alloc: Global, store: &Store<'a>, place: usize)
        requires cache { IsCache store.now self.old }
        requires inside { place < length store.now }
        ensures without { IsCache store.now self.new }
        ensures with { IsCache (without_pair store.now place) self.new }
    {
        match self.without(alloc, store, place) {
            Ok(left) => *self = left,
            Err(_) => *self = Cache::empty(alloc),
        }
    }

    /// Returns what is left of the cache if the fragment in a place is removed.
    fn without(
        &self,
        alloc: Global,
        store: &Store<'a>,
        place: usize,
    ) -> Result<Cache<'a>, AllocError>
        requires cache { IsCache store.now self.now }
        requires inside { place < length store.now }
        ensures without { IfOk result (λ left. IsCache store.now left) }
        ensures with { IfOk result (λ left. IsCache (without_pair store.now place) left) }
    {
        if !is_first(store, place) {
            return Ok(Cache::empty(alloc));
        }
        prove!(store.len() <= MAX_PAIRS);
        let views = views_without(alloc, &self.views, place)?;
        let rows = rows_left(alloc, store, &self.views, &self.rows, place)?;
        Ok(Cache { alloc, views, rows })
    }

    /// Returns whether a fragment whose targets are kept has a library entry with a name. If what was read of it isn't
    /// kept, the answer is yes.
    fn names_library(&self, name: &[u8]) -> bool
        ensures { result ≡ false → (pairs : List Pair) → AreRead pairs self.now.views → NoneNames pairs self.now.rows name.now }
    {
        for p in 0..self.rows.len() {
            if self.rows.get(p).is_some() && self.may_name(p, name) {
                return true;
            }
        }
        false
    }

    /// Returns whether the fragment in a place has a library entry with a name, or what was read of it isn't kept.
    fn may_name(&self, p: usize, name: &[u8]) -> bool
        ensures { result ≡ false → (pairs : List Pair) → AreRead pairs self.now.views → (l : ℕ) (library : Library) → option_and_then (λ x. library_of x l) (loader_at pairs p) ≡ Some library → library.name ≢ name.now }
    {
        match self.views.get(p) {
            Some(view) => view.names_library(name),
            None => true,
        }
    }

    /// Drops all targets.
    fn forget_targets(&mut self)
        ensures views { self.new.views ≡ self.old.views }
        ensures rows { self.new.rows ≡ [] }
    {
        self.rows = PlaceTable::empty(self.alloc);
    }
}
