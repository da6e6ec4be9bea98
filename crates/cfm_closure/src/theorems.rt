//! Laws of the definitions, for the proofs of other crates. The functions do nothing.
ghost use Rattle.std.specs.Prelude.{◌≡◌, ◌≢◌, ◌<◌, ◌↔◌, ℕ, List, None, Some, Ok, Err, Contains, length, true};
ghost use Rattle.std.specs.List.{AllByRecursion};
ghost use Rattle.pef_format.specs.declared.place.Place.{Place};
ghost use Rattle.pef_loader.specs.declared.fault.LoaderFault.{LoaderFault};
ghost use Rattle.pef_views.specs.declared.fault.ViewFault.{ViewFault};
ghost use Rattle.cfm_store.specs.Additions.{free_from, with_put, with_pair, without_pair};
ghost use Rattle.cfm_closure.specs.Additions.{MayBeAdded, MayBeRemoved};
ghost use Rattle.cfm_store.specs.Stores.{Pair, place_of};
ghost use Rattle.cfm_closure.specs.Faults.{BindRefusal, no_container, no_loader, reexport_loop};
ghost use Rattle.cfm_closure.specs.Fragments.{Fragment, fragment_of, import_count, loader_at};
ghost use Rattle.cfm_closure.specs.Libraries.{bound_to};
ghost use Rattle.pef_format.specs.Symbols.{options_of};
ghost use Rattle.pef_loader.specs.Library.{Library};
ghost use Rattle.pef_loader.specs.Loader.{Loaded, library_of};
ghost use Rattle.cfm_closure.specs.Orders.{EndsWith, IsComplete, IsInitOrder};
ghost use Rattle.cfm_closure.specs.Walk.{order_of};
ghost use Rattle.cfm_closure.specs.Closures.{Closed, closed_of};
ghost use Rattle.cfm_closure.specs.Missing.{Missing, missing_of};
ghost use Rattle.cfm_closure.specs.Promises.{AllRead, AreApart, AreWeak, HasTarget, IsEndless, IsLacking, IsSought, LacksOnly, IsOfBinding, IsOfUnread, target_within};
ghost use Rattle.cfm_closure.specs.Reexports.{MeetsAgain};
ghost use Rattle.cfm_closure.specs.Targets.{exports_among, follow, target_of};

/// A closure order has each fragment once, with each of its fragments all its libraries, and its root last. It
/// is the order that the walk from a root gives, also if an import is refused later, and so the order of a
/// closure.
pub fn closure_orders()
    ensures walked { (pairs : List Pair) (root : ℕ) (order : List ℕ) → order_of pairs root ≡ Ok order → IsComplete pairs order }
    ensures ends { (pairs : List Pair) (root : ℕ) (order : List ℕ) → root < length pairs → order_of pairs root ≡ Ok order → EndsWith order root }
    ensures order { (pairs : List Pair) (root : ℕ) (c : Closed) → closed_of pairs root ≡ Ok c → order_of pairs root ≡ Ok c.order }
    ensures store { (pairs : List Pair) (root : ℕ) (c : Closed) → closed_of pairs root ≡ Ok c → c.pairs ≡ pairs }
    ensures complete { (pairs : List Pair) (root : ℕ) (c : Closed) → closed_of pairs root ≡ Ok c → IsComplete pairs c.order }
    ensures root { (pairs : List Pair) (root : ℕ) (c : Closed) → root < length pairs → closed_of pairs root ≡ Ok c → EndsWith c.order root }
{}

/// The initialization order of a closure has each of its fragments once. If a library entry of a fragment has the
/// option to initialize the library first, and the library isn't absent, the library comes before the fragment. Of
/// the fragments that wait for no such library, the first in closure order always comes next.
pub fn init_orders()
    ensures { (pairs : List Pair) (root : ℕ) (c : Closed) → closed_of pairs root ≡ Ok c → IsInitOrder pairs c.order c.init_order }
{}

/// Every import of a closure's fragments has a target, or none. None is refused.
pub fn closure_targets()
    ensures { (pairs : List Pair) (root : ℕ) (c : Closed) (p j : ℕ) → closed_of pairs root ≡ Ok c → Contains c.order p → j < import_count pairs p → HasTarget pairs p j }
{}

/// If the closures of two roots of one store both have a fragment, its imports have the same targets in both,
/// or none in both, though each closure counts only its own exports.
pub fn closures_agree()
    ensures own { (pairs : List Pair) (root : ℕ) (c : Closed) (p j : ℕ) → closed_of pairs root ≡ Ok c → Contains c.order p → target_within pairs c.order p j ≡ target_of pairs p j }
    ensures agree { (pairs : List Pair) (root root' : ℕ) (c c' : Closed) (p j : ℕ) → closed_of pairs root ≡ Ok c → closed_of pairs root' ≡ Ok c' → Contains c.order p → Contains c'.order p → target_within pairs c.order p j ≡ target_within pairs c'.order p j }
{}

/// An import needs more hops than its closure has exports exactly if an export is visited a second time. So a
/// closure is refused as a loop of re-exports exactly if an import of its order, with the names and the place in the
/// refusal, visits an export a second time, and no import before that one is refused.
pub fn endless_imports()
    ensures bound { (pairs : List Pair) (order : List ℕ) (p j : ℕ) → IsComplete pairs order → Contains order p → (follow (exports_among pairs order) pairs p j ≡ None) ↔ MeetsAgain pairs (p, j) }
    ensures refused { (pairs : List Pair) (root : ℕ) (fragment symbol : List ℕ) (place : Place) → root < length pairs → (closed_of pairs root ≡ Err (reexport_loop fragment symbol place)) ↔ IsEndless pairs root fragment symbol place }
{}

/// If a closure is refused for the bytes of a fragment, the name that is reported is that of a fragment of the
/// store that isn't read: of the root, or of the first with the name. So a fragment whose bytes are read is
/// never reported.
pub fn unread_fragments()
    ensures container { (pairs : List Pair) (root : ℕ) (name : List ℕ) (fault : ViewFault) → root < length pairs → closed_of pairs root ≡ Err (no_container name fault) → IsOfUnread pairs root name (no_container name fault) }
    ensures loader { (pairs : List Pair) (root : ℕ) (name : List ℕ) (fault : LoaderFault) (place : Place) → root < length pairs → closed_of pairs root ≡ Err (no_loader name fault place) → IsOfUnread pairs root name (no_loader name fault place) }
{}

/// If all fragments of a store are read, none of its closures is refused for the bytes of a fragment.
pub fn readable_stores()
    ensures { (pairs : List Pair) (root : ℕ) (r : BindRefusal) → AllRead pairs → root < length pairs → closed_of pairs root ≡ Err r → IsOfBinding r }
{}

/// A closure stays what it is when a pair is added to its store, unless one of its fragments has a library entry with
/// the pair's name and the store had no pair of that name: its orders are the same, and so are the targets of all
/// imports of its fragments. Such an entry is weak, and was bound to nothing. In any case each fragment and each name of
/// the store stays in its place.
pub fn added_pairs()
    ensures fragment { (pairs : List Pair) (n : Pair) (p : ℕ) → p < length pairs → fragment_of (with_pair pairs n) p ≡ fragment_of pairs p }
    ensures place { (pairs : List Pair) (n : Pair) (name : List ℕ) (p : ℕ) → place_of pairs name ≡ Some p → place_of (with_pair pairs n) name ≡ Some p }
    ensures closure { (pairs : List Pair) (n : Pair) (root : ℕ) (c : Closed) → root < length pairs → closed_of pairs root ≡ Ok c → MayBeAdded pairs c.order n.name → closed_of (with_pair pairs n) root ≡ Ok (record c { pairs = with_pair pairs n }) }
    ensures target { (pairs : List Pair) (n : Pair) (root : ℕ) (c : Closed) → root < length pairs → closed_of pairs root ≡ Ok c → MayBeAdded pairs c.order n.name → (p j : ℕ) → Contains c.order p → target_of (with_pair pairs n) p j ≡ target_of pairs p j }
    ensures missing { (pairs : List Pair) (root : ℕ) (c : Closed) (p l : ℕ) (loader : Loaded) (library : Library) → closed_of pairs root ≡ Ok c → Contains c.order p → loader_at pairs p ≡ Some loader → library_of loader l ≡ Some library → place_of pairs library.name ≡ None
        → ((options_of library.fields.options).weak ≡ true) × (bound_to pairs p l ≡ Ok None) }
{}

/// A closure stays what it is also when a pair is put into the place for it, on the conditions of `added_pairs`. This is
/// the first free place, and the end if there is none or the store has the pair's name. So the fragments that are read and the
/// names stay in their places, and the first pair with a name stays the first.
pub fn stored_pairs()
    ensures fragment { (pairs : List Pair) (n : Pair) (p : ℕ) (f : Fragment) → fragment_of pairs p ≡ Ok f → fragment_of (with_put pairs n) p ≡ Ok f }
    ensures place { (pairs : List Pair) (n : Pair) (name : List ℕ) (p : ℕ) → place_of pairs name ≡ Some p → place_of (with_put pairs n) name ≡ Some p }
    ensures end { (pairs : List Pair) (n : Pair) → free_from 0 pairs ≡ None → with_put pairs n ≡ with_pair pairs n }
    ensures closure { (pairs : List Pair) (n : Pair) (root : ℕ) (c : Closed) → root < length pairs → closed_of pairs root ≡ Ok c → MayBeAdded pairs c.order n.name → closed_of (with_put pairs n) root ≡ Ok (record c { pairs = with_put pairs n }) }
    ensures target { (pairs : List Pair) (n : Pair) (root : ℕ) (c : Closed) → root < length pairs → closed_of pairs root ≡ Ok c → MayBeAdded pairs c.order n.name → (p j : ℕ) → Contains c.order p → target_of (with_put pairs n) p j ≡ target_of pairs p j }
{}

/// A closure stays what it is when the first pair with a name is removed from its store, if it doesn't have that pair and
/// none of its fragments has a library entry with the name. In any case each other fragment and each other name of the store
/// stays in its place.
pub fn removed_pairs()
    ensures fragment { (pairs : List Pair) (p q : ℕ) → q ≢ p → fragment_of (without_pair pairs p) q ≡ fragment_of pairs q }
    ensures place { (pairs : List Pair) (name other : List ℕ) (p : ℕ) → place_of pairs name ≡ Some p → other ≢ name → place_of (without_pair pairs p) other ≡ place_of pairs other }
    ensures closure { (pairs : List Pair) (name : List ℕ) (p root : ℕ) (c : Closed) → root < length pairs → closed_of pairs root ≡ Ok c → MayBeRemoved pairs c.order name p → closed_of (without_pair pairs p) root ≡ Ok (record c { pairs = without_pair pairs p }) }
    ensures target { (pairs : List Pair) (name : List ℕ) (p root : ℕ) (c : Closed) → root < length pairs → closed_of pairs root ≡ Ok c → MayBeRemoved pairs c.order name p → (q j : ℕ) → Contains c.order q → target_of (without_pair pairs p) q j ≡ target_of pairs q j }
{}

/// What is missing are the library entries that no fragment of the store serves, of the root and of all fragments to which served
/// entries lead: there is no fragment with the name, or its versions don't fit. Each of their names is there once. It is weak only if
/// all entries with this name are. If only weak libraries are missing, the walk of the closure isn't refused: all other entries of
/// its fragments are served.
pub fn missing_libraries()
    ensures lacking { (pairs : List Pair) (root : ℕ) (missing : List Missing) → missing_of pairs root ≡ Ok missing → AllByRecursion (IsLacking pairs root) missing }
    ensures complete { (pairs : List Pair) (root : ℕ) (missing : List Missing) → root < length pairs → missing_of pairs root ≡ Ok missing → (p : ℕ) → IsSought pairs root p → LacksOnly pairs missing p }
    ensures once { (pairs : List Pair) (root : ℕ) (missing : List Missing) → missing_of pairs root ≡ Ok missing → AreApart missing }
    ensures weak { (pairs : List Pair) (root : ℕ) (missing : List Missing) → missing_of pairs root ≡ Ok missing → AreWeak missing → (order : List ℕ) × (order_of pairs root ≡ Ok order) }
{}
