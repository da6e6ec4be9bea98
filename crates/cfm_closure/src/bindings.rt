ghost use Rattle.std.specs.Prelude.{◌≡◌, ◌<◌, ◌≤◌, true, [], length, replicate, slice_index_or, option_map, Contains, None, Some, Ok, IfOk, IfSome};
ghost use Rattle.cfm_store.specs.Limits.{most_pairs};
ghost use Rattle.cfm_closure.specs.Faults.{Answers};
ghost use Rattle.cfm_closure.specs.Fragments.{fragment_of, import_count, library_count};
ghost use Rattle.cfm_closure.specs.Libraries.{bound_to};
ghost use Rattle.cfm_closure.specs.Closures.{imports_refusal};
ghost use Rattle.cfm_closure.specs.Kept.Caches.{IsCache, IsKeptRow};
ghost use Rattle.cfm_closure.specs.Kept.Resolutions.{meant};
ghost use Rattle.cfm_closure.specs.Kept.Paths.{IsClosed};
ghost use Rattle.cfm_closure.specs.Kept.Targets.{IsKnown, IsResolved, Keeps, known_at, led_to};
ghost use Rattle.cfm_closure.specs.Orders.{IsComplete};
ghost use Rattle.cfm_closure.specs.Walk.{order_of};
ghost use Rattle.cfm_closure.specs.Views.{fragment_seen};

use crate::cache::Cache;
use crate::fault::BindFault;
use crate::fragment::{ClosedFragment, FragmentView};
use crate::targets::{Resolution, SharedTargets};
use crate::walk::Walk;
use cfm_store::{PlaceTable, Store};
use std::alloc::{AllocError, Global};
use std::marker::Model;

/// The closure order of a fragment: the fragment with its libraries, theirs, and so on, with these fragments,
/// the fragments of their library entries, and the targets of their imports, as far as they are known. Only
/// [`Bindings::of`] and [`Bindings::table`] allocate.
#[derive(Drop)]
pub(crate) struct Bindings<'a> {
    /// The pairs of the store. All other tables are indexed by their places.
    pairs: Vec<Option<(&'a [u8], &'a [u8])>>,
    fragments: PlaceTable<ClosedFragment<'a>>,
    order: Vec<usize>,
}

impl<'a> Model for Bindings<'a> {
    ghost use Rattle.cfm_closure.specs.Kept.Targets.{Ordered};

    ghost Value = { Ordered };

    ghost use Rattle.std.specs.Prelude.{map};
    ghost use Rattle.cfm_store.specs.Seen.{place_seen};
    ghost use Rattle.cfm_closure.specs.Kept.Bindings.{AreBindings};
    ghost use Rattle.cfm_closure.specs.Kept.Rows.{rows_of};

    ghost view = { λ b. record { pairs = map place_seen b.pairs.items; order = b.order.items; rows = rows_of b.fragments } };

    ghost invariant = { λ b. AreBindings (map place_seen b.pairs.items) b.fragments b.order.items };
}

impl<'a> Bindings<'a> {
    /// Returns the closure order of the fragment in a place of a store. What a cache has of the store's fragments is taken
    /// from there, and what is read goes there, also if the order is refused.
    ///
    /// # Errors
    ///
    /// The first refusal of a fragment or of a library entry, in the order in which they are visited.
    /// `OutOfMemory` may come instead of any later result.
    pub fn of(
        alloc: Global,
        store: &Store<'a>,
        cache: &mut Cache<'a>,
        root: usize,
    ) -> Result<Bindings<'a>, BindFault<'a>>
        requires root { root < length store.now }
        requires cache { IsCache store.now cache.old }
        ensures answer { Answers (λ b. b.order) result (order_of store.now root) }
        ensures pairs { IfOk result (λ b. b.pairs ≡ store.now) }
        ensures cache { IsCache store.now cache.new }
    {
        let views = cache.take_views(store)?;
        let mut walk = Walk::new(alloc, store, views)?;
        let walked = walk.visit_all(store, &cache.rows, root);
        let Walk {
            fragments,
            closed,
            order,
            ..
        } = walk;
        cache.put_views(fragments);
        walked?;
        let pairs = Vec::from_slice(alloc, store.pairs())?;
        Ok(Bindings {
            pairs,
            fragments: closed,
            order,
        })
    }

    /// Returns how many places the store has.
    pub fn places(&self) -> usize
        ensures len { result ≡ length self.now.pairs }
        ensures few { result ≤ most_pairs }
        ensures complete { IsComplete self.now.pairs self.now.order }
    {
        self.pairs.len()
    }

    /// Returns a table for fragments of the store, without values.
    pub fn table<T: Drop>(&self, alloc: Global) -> Result<PlaceTable<T>, AllocError>
        ensures none { IfOk result (λ table. table ≡ replicate (length self.now.pairs) None) }
        ensures complete { IsComplete self.now.pairs self.now.order }
    {
        PlaceTable::new(alloc, self.pairs.len())
    }

    /// Returns the fragments by their places, each once: libraries before the fragments that need them,
    /// except in cycles, and the fragment that needs all of them last.
    pub fn order(&self) -> &[usize]
        ensures order { result.now ≡ self.now.order }
        ensures complete { IsComplete self.now.pairs self.now.order }
        ensures few { length self.now.order ≤ most_pairs }
    {
        &self.order
    }

    /// Returns how many imports a fragment of the order has.
    pub fn imports(&self, p: usize) -> usize
        requires { Contains self.now.order p }
        ensures { result ≡ import_count self.now.pairs p }
    {
        self.fragment(p).loader.imports()
    }

    /// Returns a fragment of the order.
    pub fn fragment(&self, p: usize) -> &FragmentView<'a>
        requires { Contains self.now.order p }
        ensures { fragment_of self.now.pairs p ≡ Ok (fragment_seen result.now) }
    {
        &self.closed(p).view
    }

    /// Returns how many library entries a fragment of the order has.
    pub fn libraries(&self, p: usize) -> usize
        requires { Contains self.now.order p }
        ensures { result ≡ library_count self.now.pairs p }
    {
        self.fragment(p).loader.libraries()
    }

    /// Returns the fragment of a library entry of a fragment of the order, or `None` if it is absent.
    pub fn library(&self, p: usize, l: usize) -> Option<usize>
        requires there { Contains self.now.order p }
        requires below { l < library_count self.now.pairs p }
        ensures bound { bound_to self.now.pairs p l ≡ Ok result }
        ensures inside { IfSome result (λ q. Contains self.now.order q) }
        ensures below { IfSome result (λ q. q < most_pairs) }
    {
        match self.closed(p).libraries.get(l) {
            Some(bound) => bound,
            None => unreachable!(),
        }
    }

    /// Returns the target of import `j` of a fragment of the order, if it is known.
    pub fn target(&self, p: usize, j: usize) -> Option<Resolution>
        requires { Contains self.now.order p }
        ensures known { option_map meant result ≡ known_at self.now.rows p j }
        ensures right { IfSome result (λ resolution. led_to self.now.pairs (p, j) ≡ Some (Ok (meant resolution))) }
        ensures complete { IsComplete self.now.pairs self.now.order }
    {
        self.closed(p).targets.get(j)
    }

    /// Returns whether a fragment of the order shares its targets with other closures. Then all are known.
    pub fn is_shared(&self, p: usize) -> bool
        requires { Contains self.now.order p }
        ensures resolved { result ≡ true → IsResolved self.now.pairs self.now.rows p }
        ensures passes { result ≡ true → imports_refusal self.now.pairs p ≡ None }
    {
        self.closed(p).targets.is_shared()
    }

    /// Returns the targets of a fragment of the order, to be shared with other closures. All must be known.
    pub fn share(&mut self, alloc: Global, p: usize) -> Result<SharedTargets, AllocError>
        requires place { Contains self.old.order p }
        requires resolved { IsResolved self.old.pairs self.old.rows p }
        ensures same { self.new ≡ self.old }
        ensures row { IfOk result (λ row. IsKeptRow self.old.pairs p row) }
    {
        let fragment = self.fragments.value_mut(p);
        fragment.targets.share(alloc)
    }

    /// Notes the target of import `j` of a fragment of the order. It may be known.
    pub fn note(&mut self, p: usize, j: usize, resolution: Resolution)
        requires place { Contains self.old.order p }
        requires import { j < import_count self.old.pairs p }
        requires right { led_to self.old.pairs (p, j) ≡ Some (Ok (meant resolution)) }
        ensures keeps { Keeps self.old self.new }
        ensures known { IsKnown self.new.rows p j }
    {
        let fragment = self.fragments.value_mut(p);
        fragment.targets.note(j, resolution);
    }

    /// Returns the tables of a fragment of the order.
    fn closed(&self, p: usize) -> &ClosedFragment<'a>
        requires { Contains self.now.order p }
        ensures closed { IsClosed self.now.pairs p result.now }
        ensures targets { result.now.targets ≡ slice_index_or self.now.rows p [] }
        ensures complete { IsComplete self.now.pairs self.now.order }
        ensures few { length self.now.pairs ≤ most_pairs }
    {
        match self.fragments.get(p) {
            Some(fragment) => fragment,
            None => unreachable!(),
        }
    }
}
