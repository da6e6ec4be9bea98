ghost use Rattle.std.specs.Prelude.{◌≡◌, ◌+◌, ◌<◌, ◌≤◌, ℕ, [], false, map, length, Ok, Some, IfOk, OnOk};
ghost use Rattle.pef_loader.specs.Views.{library_seen};
ghost use Rattle.cfm_closure.specs.Faults.{Answers};
ghost use Rattle.cfm_closure.specs.Kept.Caches.{IsCache};
ghost use Rattle.cfm_closure.specs.Kept.Searches.{AreSought, IsNext, IsSearch, Leads, next_and_rest, rest_of_visit, rest_of_visits, search_and_rest, search_next, searches_left, sought_of, unvisited, visit_and_rest};
ghost use Rattle.cfm_closure.specs.Kept.Views.{AreViews};
ghost use Rattle.cfm_closure.specs.Missing.{missing_of, search, search_entry, unsought, was_visited};
ghost use Rattle.cfm_closure.specs.Views.{missing_seen};

use crate::binding::definition_of;
use crate::cache::Cache;
use crate::fault::BindFault;
use crate::fragment::{FragmentView, read_at};
use crate::missing::{MissingLibrary, Served, look_up};
use crate::notes::Notes;
use cfm_store::{PlaceTable, Store};
use pef_loader::{LibraryView, Loader};
use std::alloc::{AllocError, Global};

/// A fragment that was visited and isn't done, and its next library entry.
#[derive(Drop)]
pub(crate) struct Visit<'a> {
    p: usize,
    loader: Loader<'a>,
    next: usize,
}

/// The walk from a fragment to all that it needs, which passes missing libraries by. Its tables are indexed by the places
/// of the store.
#[derive(Drop)]
pub(crate) struct Search<'a> {
    /// The fragments that were read.
    pub fragments: PlaceTable<FragmentView<'a>>,
    marked: Vec<bool>,
    /// The fragments from the root to the one that the walk is in.
    path: Vec<Visit<'a>>,
    pub missing: Notes<'a>,
}

impl<'a> Search<'a> {
    /// Returns a walk that visited no fragment yet, with the fragments that were read before.
    fn new(
        alloc: Global,
        store: &Store<'a>,
        fragments: PlaceTable<FragmentView<'a>>,
    ) -> Result<Search<'a>, AllocError>
        requires { AreViews store.now fragments }
        ensures search { IfOk result (λ s. IsSearch store.now s) }
        ensures sought { IfOk result (λ s. sought_of s ≡ unsought store.now) }
        ensures path { IfOk result (λ s. s.path.items ≡ []) }
    {
        let marked = vec![in alloc; false; store.len()]?;
        Ok(Search {
            fragments,
            marked,
            path: Vec::new(alloc),
            missing: Notes::new(alloc),
        })
    }

    /// Visits a fragment and all that it needs. Fragments that were read before aren't read again.
    fn visit_all(&mut self, store: &Store<'a>, root: usize) -> Result<(), BindFault<'a>>
        requires root { root < length store.now }
        requires search { IsSearch store.now self.old }
        requires sought { sought_of self.old ≡ unsought store.now }
        requires path { self.old.path.items ≡ [] }
        ensures views { AreViews store.now self.new.fragments }
        ensures answer { Answers (λ done. self.new.missing) result (missing_of store.now root) }
    {
        self.enter(store, root)?;
        self.run(store)
    }

    /// Visits a new fragment: it is read, and put onto the path.
    fn enter(&mut self, store: &Store<'a>, p: usize) -> Result<(), BindFault<'a>>
        requires place { p < length store.now }
        requires unmet { was_visited (sought_of self.old) p ≡ false }
        requires search { IsSearch store.now self.old }
        ensures search { OnOk result (IsSearch store.now self.new) }
        ensures views { AreViews store.now self.new.fragments }
        ensures leads { Leads result (λ done. rest_of_visits (length store.now) store.now self.new.path.items (sought_of self.new)) (search_and_rest (length store.now) store.now p self.old.path.items (sought_of self.old)) }
        ensures fewer { OnOk result (searches_left self.new < searches_left self.old) }
    {
        let fragment = read_at(store, &mut self.fragments, p)?;
        self.marked[p] = true;
        self.path.push(Visit {
            p,
            loader: fragment.loader,
            next: 0,
        })?;
        Ok(())
    }

    /// Continues until no fragment is left on the path.
    fn run(&mut self, store: &Store<'a>) -> Result<(), BindFault<'a>>
        requires search { IsSearch store.now self.old }
        ensures views { AreViews store.now self.new.fragments }
        ensures leads { Leads result (λ done. Ok (sought_of self.new)) (rest_of_visits (length store.now) store.now self.old.path.items (sought_of self.old)) }
    {
        while let Some(visit) = self.path.pop() {
            self.step(store, visit)?;
        }
        Ok(())
    }

    /// Continues in the last fragment of the path, which was taken off it.
    fn step(&mut self, store: &Store<'a>, visit: Visit<'a>) -> Result<(), BindFault<'a>>
        requires search { IsSearch store.now self.old }
        requires room { length self.old.path.items + unvisited self.old.marked.items + 1 ≤ length store.now }
        ensures search { OnOk result (IsSearch store.now self.new) }
        ensures views { AreViews store.now self.new.fragments }
        ensures leads { Leads result (λ done. rest_of_visits (length store.now) store.now self.new.path.items (sought_of self.new)) (visit_and_rest (length store.now) store.now visit.entry self.old.path.items (sought_of self.old)) }
        ensures fewer { OnOk result (searches_left self.new < searches_left self.old + 1) }
    {
        let mut visit = visit;
        match self.search_on(store, &mut visit)? {
            Some(q) => {
                self.path.push(visit)?;
                self.enter(store, q)
            }
            None => Ok(()),
        }
    }

    /// Looks up library entries of a fragment until one leads to a fragment that wasn't visited yet.
    fn search_on(
        &mut self,
        store: &Store<'a>,
        visit: &mut Visit<'a>,
    ) -> Result<Option<usize>, BindFault<'a>>
        requires tables { AreSought store.now self.old.fragments self.old.marked.items }
        ensures leads { (n : ℕ) → Leads result (λ next. next_and_rest n store.now visit.new next (sought_of self.new)) (rest_of_visit n store.now visit.old (sought_of self.old)) }
        ensures next { IfOk result (IsNext (length store.now) (sought_of self.new)) }
        ensures tables { AreSought store.now self.new.fragments self.new.marked.items }
        ensures marked { self.new.marked ≡ self.old.marked }
        ensures path { self.new.path ≡ self.old.path }
    {
        while let Some(library) = visit.loader.library(visit.next) {
            prove!(visit.next < visit.loader.libraries());
            visit.next += 1;
            if let Some(q) = self.follow(store, visit.p, library)? {
                return Ok(Some(q));
            }
        }
        Ok(None)
    }

    /// Returns the fragment that serves a library entry of fragment `p`, if it wasn't visited yet. If none serves it, the
    /// entry is noted.
    fn follow(
        &mut self,
        store: &Store<'a>,
        p: usize,
        library: LibraryView<'a>,
    ) -> Result<Option<usize>, BindFault<'a>>
        requires tables { AreSought store.now self.old.fragments self.old.marked.items }
        ensures leads { (n : ℕ) → Leads result (λ next. search_next n store.now next (sought_of self.new)) (search_entry (search n store.now) store.now p (Some (library_seen library.entry)) (sought_of self.old)) }
        ensures next { IfOk result (IsNext (length store.now) (sought_of self.new)) }
        ensures tables { AreSought store.now self.new.fragments self.new.marked.items }
        ensures marked { self.new.marked ≡ self.old.marked }
        ensures path { self.new.path ≡ self.old.path }
    {
        match look_up(store, &mut self.fragments, library)? {
            Served::By(q) => {
                if self.marked[q] {
                    return Ok(None);
                }
                Ok(Some(q))
            }
            Served::ByNone(found) => {
                self.missing.note(MissingLibrary {
                    name: library.name,
                    needed: definition_of(library),
                    found,
                    weak: library.fields.options().weak,
                    fragment: p,
                })?;
                Ok(None)
            }
        }
    }
}

/// Returns the libraries that no fragment serves, in the order of the walk from a fragment. What is in a cache of the
/// store isn't read again.
pub(crate) fn missing_with<'a>(
    alloc: Global,
    store: &Store<'a>,
    cache: &mut Cache<'a>,
    root: usize,
) -> Result<Vec<MissingLibrary<'a>>, BindFault<'a>>
    requires root { root < length store.now }
    requires cache { IsCache store.now cache.old }
    ensures answer { Answers (λ ms. map missing_seen ms.items) result (missing_of store.now root) }
    ensures cache { IsCache store.now cache.new }
{
    let views = cache.take_views(store)?;
    let mut search = Search::new(alloc, store, views)?;
    let searched = search.visit_all(store, root);
    let Search {
        fragments,
        missing,
        ..
    } = search;
    cache.put_views(fragments);
    searched?;
    Ok(missing.into_libraries())
}
