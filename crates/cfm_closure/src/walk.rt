ghost use Rattle.std.specs.Prelude.{◌≡◌, ◌+◌, ◌<◌, [], List, ℕ, false, length, IfOk, OnOk};
ghost use Rattle.std.specs.Option.{ForSome};
ghost use Rattle.cfm_closure.specs.Faults.{Answers};
ghost use Rattle.cfm_closure.specs.Walk.{is_marked, joining, order_of, unwalked};
ghost use Rattle.cfm_store.specs.Stores.{Pair};
ghost use Rattle.cfm_closure.specs.Fragments.{import_count};
ghost use Rattle.cfm_closure.specs.Kept.Caches.{AreKeptRows};
ghost use Rattle.cfm_closure.specs.Kept.Targets.{AreAllKnown, AreRight};
ghost use Rattle.cfm_closure.specs.Kept.Paths.{Continues, IsFrame, IsSameFrame, IsWalk, Next, count_of, frame_and_rest, rest_of_path, state_of, steps_left, visit_and_rest};
ghost use Rattle.cfm_closure.specs.Kept.Views.{AreKept, AreRead, AreViews};
ghost use Rattle.cfm_closure.specs.Kept.Walks.{unmet_of};

use crate::binding::bind;
use crate::fault::BindFault;
use crate::fragment::{ClosedFragment, FragmentView, read_at};
use crate::libraries::Libraries;
use crate::targets::{SharedTargets, Targets};
use cfm_store::{PlaceTable, Store};
use std::alloc::{AllocError, Global};

/// A fragment that was visited and isn't done: the walk is in one of its libraries.
#[derive(Drop)]
pub(crate) struct Frame<'a> {
    p: usize,
    fragment: FragmentView<'a>,
    /// The fragments of its library entries, up to the one that the walk is in.
    libraries: Libraries,
}

/// The walk from a fragment to all that it needs. Its tables are indexed by the places of the
/// store.
#[derive(Drop)]
pub(crate) struct Walk<'a> {
    alloc: Global,
    /// The fragments that were read.
    pub fragments: PlaceTable<FragmentView<'a>>,
    /// The fragments that are done.
    pub closed: PlaceTable<ClosedFragment<'a>>,
    marked: Vec<bool>,
    /// The fragments from the root to the one that the walk is in.
    path: Vec<Frame<'a>>,
    /// The fragments that are done, in the order in which they were done.
    pub order: Vec<usize>,
}

/// Returns the fragment of a library entry, if it exists and wasn't visited yet.
fn unmet(marked: &[bool], bound: Option<usize>) -> Option<usize>
    requires { ForSome bound (λ q. q < length marked.now) }
    ensures { result ≡ unmet_of marked.now bound }
{
    let q = bound?;
    if marked[q] { None } else { Some(q) }
}

/// Binds library entries of a fragment until one has a fragment that wasn't visited yet.
fn bind_next<'a>(
    store: &Store<'a>,
    fragments: &mut PlaceTable<FragmentView<'a>>,
    marked: &[bool],
    frame: &mut Frame<'a>,
) -> Result<Option<usize>, BindFault<'a>>
    requires size { length fragments.old ≡ length store.now }
    requires marks { length marked.now ≡ length store.now }
    requires read { AreRead store.now fragments.old }
    requires frame { IsFrame store.now fragments.old frame.old }
    ensures next { (order : List ℕ) → Next store.now (record { marked = marked.now; order = order }) frame.old frame.new result }
    ensures size { length fragments.new ≡ length store.now }
    ensures read { AreRead store.now fragments.new }
    ensures kept { AreKept fragments.old fragments.new }
    ensures frame { OnOk result (IsFrame store.now fragments.new frame.new) }
    ensures same { IsSameFrame frame.old frame.new }
{
    while let Some(library) = frame.fragment.loader.library(frame.libraries.len()) {
        let l = frame.libraries.len();
        let bound = bind(store, fragments, &frame.fragment, l, library)?;
        frame.libraries.push(bound)?;
        match unmet(marked, bound) {
            Some(q) => return Ok(Some(q)),
            None => {}
        }
    }
    Ok(None)
}

/// Returns the kept targets of the `len` imports of the fragment in a place, or, if there are none, that no target is
/// known.
fn kept_or_unknown(
    alloc: Global,
    rows: &PlaceTable<SharedTargets>,
    p: usize,
    len: usize,
) -> Result<Targets, AllocError>
    requires { AreAllKnown rows.now }
    ensures count { (pairs : List Pair) → AreKeptRows pairs rows.now → import_count pairs p ≡ len → IfOk result (λ targets. length targets ≡ len) }
    ensures right { (pairs : List Pair) → AreKeptRows pairs rows.now → IfOk result (λ targets. AreRight pairs p targets) }
{
    match rows.get(p) {
        Some(row) => Ok(Targets::shared(row.another()?)),
        None => Targets::unknown(alloc, len),
    }
}

impl<'a> Walk<'a> {
    /// Returns a walk that visited no fragment yet, with the fragments that were read before.
    pub fn new(
        alloc: Global,
        store: &Store<'a>,
        fragments: PlaceTable<FragmentView<'a>>,
    ) -> Result<Walk<'a>, AllocError>
        requires { AreViews store.now fragments }
        ensures walk { IfOk result (λ w. IsWalk store.now w) }
        ensures state { IfOk result (λ w. state_of w ≡ unwalked store.now) }
        ensures path { IfOk result (λ w. w.path.items ≡ []) }
    {
        let len = store.len();
        let closed = PlaceTable::new(alloc, len)?;
        let marked = vec![in alloc; false; len]?;
        Ok(Walk {
            alloc,
            fragments,
            closed,
            marked,
            path: Vec::new(alloc),
            order: Vec::new(alloc),
        })
    }

    /// Visits a fragment and all that it needs. Fragments that were read before aren't read again, and those with kept
    /// targets have them.
    pub fn visit_all(
        &mut self,
        store: &Store<'a>,
        rows: &PlaceTable<SharedTargets>,
        root: usize,
    ) -> Result<(), BindFault<'a>>
        requires root { root < length store.now }
        requires rows { AreKeptRows store.now rows.now }
        requires walk { IsWalk store.now self.old }
        requires state { state_of self.old ≡ unwalked store.now }
        requires path { self.old.path.items ≡ [] }
        ensures walk { OnOk result (IsWalk store.now self.new) }
        ensures views { AreViews store.now self.new.fragments }
        ensures answer { Answers (λ done. self.new.order.items) result (order_of store.now root) }
    {
        self.enter(store, root)?;
        self.run(store, rows)?;
        Ok(())
    }

    /// Visits a new fragment: it is read, and put onto the path.
    fn enter(&mut self, store: &Store<'a>, p: usize) -> Result<(), BindFault<'a>>
        requires place { p < length store.now }
        requires unmet { is_marked (state_of self.old) p ≡ false }
        requires walk { IsWalk store.now self.old }
        ensures walk { OnOk result (IsWalk store.now self.new) }
        ensures views { AreViews store.now self.new.fragments }
        ensures continues { Continues result (rest_of_path store.now self.new.path.items (state_of self.new)) (visit_and_rest store.now p self.old.path.items (state_of self.old)) }
        ensures fewer { OnOk result (steps_left self.new < steps_left self.old) }
    {
        let fragment = read_at(store, &mut self.fragments, p)?;
        self.marked[p] = true;
        self.path.push(Frame {
            p,
            fragment,
            libraries: Libraries::new(self.alloc),
        })?;
        Ok(())
    }

    /// Ends the visit of a fragment: it joins the order.
    fn finish(
        &mut self,
        store: &Store<'a>,
        rows: &PlaceTable<SharedTargets>,
        frame: Frame<'a>,
    ) -> Result<(), BindFault<'a>>
        requires rows { AreKeptRows store.now rows.now }
        requires walk { IsWalk store.now self.old }
        requires frame { IsFrame store.now self.old.fragments frame }
        requires all { length frame.libraries ≡ count_of frame }
        ensures walk { OnOk result (IsWalk store.now self.new) }
        ensures views { AreViews store.now self.new.fragments }
        ensures continues { Continues result (rest_of_path store.now self.new.path.items (state_of self.new)) (rest_of_path store.now self.old.path.items (joining frame.entry.p (state_of self.old))) }
        ensures fewer { OnOk result (steps_left self.new < steps_left self.old + 1) }
    {
        let p = frame.p;
        let imports = frame.fragment.loader.imports();
        let targets = kept_or_unknown(self.alloc, rows, p, imports)?;
        let fragment = ClosedFragment {
            view: frame.fragment,
            libraries: frame.libraries,
            targets,
        };
        self.closed.put(p, fragment)?;
        self.order.push(p)?;
        Ok(())
    }

    /// Continues in the last fragment of the path, which was taken off it.
    fn step(
        &mut self,
        store: &Store<'a>,
        rows: &PlaceTable<SharedTargets>,
        frame: Frame<'a>,
    ) -> Result<(), BindFault<'a>>
        requires rows { AreKeptRows store.now rows.now }
        requires walk { IsWalk store.now self.old }
        requires frame { IsFrame store.now self.old.fragments frame }
        ensures walk { OnOk result (IsWalk store.now self.new) }
        ensures views { AreViews store.now self.new.fragments }
        ensures continues { Continues result (rest_of_path store.now self.new.path.items (state_of self.new)) (frame_and_rest store.now frame.entry self.old.path.items (state_of self.old)) }
        ensures fewer { OnOk result (steps_left self.new < steps_left self.old + 1) }
    {
        let mut frame = frame;
        match bind_next(store, &mut self.fragments, &self.marked, &mut frame)? {
            Some(q) => {
                self.path.push(frame)?;
                self.enter(store, q)
            }
            None => self.finish(store, rows, frame),
        }
    }

    /// Continues until no fragment is left on the path.
    fn run(
        &mut self,
        store: &Store<'a>,
        rows: &PlaceTable<SharedTargets>,
    ) -> Result<(), BindFault<'a>>
        requires rows { AreKeptRows store.now rows.now }
        requires walk { IsWalk store.now self.old }
        ensures walk { OnOk result (IsWalk store.now self.new) }
        ensures views { AreViews store.now self.new.fragments }
        ensures answer { Answers (λ done. state_of self.new) result (rest_of_path store.now self.old.path.items (state_of self.old)) }
    {
        while let Some(frame) = self.path.pop() {
            self.step(store, rows, frame)?;
        }
        Ok(())
    }
}
