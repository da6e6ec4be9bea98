//! Laws of stubs, for the proofs of other crates. The functions do nothing.
ghost use Rattle.std.specs.Prelude.{◌≡◌, ◌+◌, ◌*◌, ◌<◌, ◌≤◌, ℕ, Bool, List, length, option_map, slice_get, Some, Ok, Err, true};
ghost use Rattle.std.specs.List.{AllByRecursion, flat_map, list_any};
ghost use Rattle.std.specs.Str.{bytes_eq};
ghost use Rattle.pef_format.specs.Symbols.{Import};
ghost use Rattle.pef_loader.specs.Library.{Library};
ghost use Rattle.pef_loader.specs.Loader.{Loaded, import_of};
ghost use Rattle.cfm_store.specs.Stores.{Pair, pair_of};
ghost use Rattle.cfm_closure.specs.Closures.{closed_of};
ghost use Rattle.cfm_closure.specs.Faults.{BindRefusal};
ghost use Rattle.cfm_closure.specs.Fragments.{Fragment, fragment_of};
ghost use Rattle.cfm_closure.specs.Libraries.{definition_of};
ghost use Rattle.cfm_closure.specs.Promises.{AllRead};
ghost use Rattle.cfm_closure.specs.Targets.{target_of};
ghost use Rattle.cfm_closure.specs.Versions.{fit_of};
ghost use Rattle.cfm_closure.specs.declared.targets.Target.TheVariants.{Absolute};
ghost use Rattle.cfm_closure.specs.declared.versions.Fit.TheVariants.{Fits};
ghost use Rattle.cfm_memory.specs.Extents.{Rule};
ghost use Rattle.cfm_prepare.specs.Contexts.{ContextState};
ghost use Rattle.cfm_prepare.specs.Steps.{MayNotPrepareBy};
ghost use Rattle.cfm_prepare.specs.declared.fault.PrepareFault.{PrepareFault};
ghost use Rattle.cfm_stubs.specs.Added.{AreNumberStubs, added_number, is_added, with_stubs};
ghost use Rattle.cfm_stubs.specs.Fits.{implementation};
ghost use Rattle.cfm_stubs.specs.Made.{HasMade, IsLinkedStub, IsMade, number_in};
ghost use Rattle.cfm_stubs.specs.NumberStubs.{MadeStub, number_stubs};
ghost use Rattle.cfm_stubs.specs.Preparations.{PreparationEnds};
ghost use Rattle.cfm_stubs.specs.Stubbed.{IsStubbed, MayEnd, Names};
ghost use Rattle.cfm_stubs.specs.Stubs.{exports_from, numbered};
ghost use Rattle.cfm_stubs.specs.Symbols.{HaveOwnNames, Symbol, are_named, library_symbols, symbols_of};
ghost use Rattle.cfm_stubs.specs.Versions.{versions_for};

/// The symbols of some imports have exactly their names, each once.
pub fn symbols_are_exact()
    ensures named { (imports : List Import) (name : List ℕ) → are_named (symbols_of imports) name ≡ list_any (λ i. bytes_eq name i.name) imports }
    ensures once { (imports : List Import) → HaveOwnNames (symbols_of imports) }
{}

/// The export of symbol `k` has the number that is `k` steps after the first. If steps aren't 0, different symbols have different
/// numbers.
pub fn numbers_are_exact()
    ensures numbers { (first step : ℕ) (symbols : List Symbol) (k : ℕ) → slice_get (exports_from first step symbols) k ≡ option_map (numbered (first + step * k)) (slice_get symbols k) }
    ensures apart { (first step j k : ℕ) → 1 ≤ step → first + step * j ≡ first + step * k → j ≡ k }
{}

/// The versions of a stub fit each entry that they are made of, whatever versions the entries have. So no two fragments contradict
/// each other.
pub fn versions_fit_each()
    ensures { (entries : List Library) → AllByRecursion (λ l. fit_of (definition_of l) (implementation (versions_for entries)) ≡ Fits) entries }
{}

/// In a store whose fragments are all read, and that has a fragment or a stub for each library entry that isn't weak, a closure ends in no
/// error but those of loops, and those of symbols and versions of libraries that aren't stubs. Each import from a stub has its number as its
/// target.
pub fn stubbed_stores()
    ensures ends { (pairs : List Pair) (stub : ℕ → Bool) (number : ℕ → List ℕ → ℕ) (root : ℕ) (r : BindRefusal) → IsStubbed pairs stub number → root < length pairs → closed_of pairs root ≡ Err r → MayEnd pairs stub r }
    ensures numbers { (pairs : List Pair) (stub : ℕ → Bool) (number : ℕ → List ℕ → ℕ) (p j q : ℕ) (f : Fragment) (i : Import) → IsStubbed pairs stub number → fragment_of pairs p ≡ Ok f → import_of f.loader j ≡ Some i → Names pairs p i.library q → stub q ≡ true → target_of pairs p j ≡ Ok (Some (Absolute (number q i.name))) }
{}

/// Stubs that were made for the fragments of a store are stubs of it: with the versions for their names, and with exports from a
/// first number on that are found by their names.
pub fn made_stubs()
    ensures { (pairs : List Pair) (loaders : List Loaded) (stub : ℕ → Bool) (first : ℕ → ℕ) (step : ℕ) → HasMade pairs loaders stub first step → IsStubbed pairs stub (λ q name. number_in (first q) step (library_symbols loaders (pair_of pairs q).name) name) }
{}

/// A container that was linked from a script with the versions of a library and with these exports is such a stub.
pub fn linked_stubs()
    ensures { (pairs : List Pair) (loaders : List Loaded) (first step q : ℕ) → IsLinkedStub pairs loaders first step q → IsMade pairs loaders first step q }
{}

/// The stubs that `stubs` returns for a store whose fragments are all read are stubs of it, with the numbers of their exports, if their
/// pairs are added after its own.
pub fn added_stubs()
    ensures { (pairs : List Pair) (first step : ℕ) (weak : Bool) (made : List MadeStub) → AllRead pairs → AreNumberStubs pairs first step weak made → IsStubbed (with_stubs pairs made) (is_added pairs made) (added_number pairs made) }
{}

/// Numbers go on from one stub to the next: the exports of all stubs, one after the other, are those of all symbols. So each number
/// belongs to one symbol, if steps aren't 0.
pub fn numbers_go_on()
    ensures { (loaders : List Loaded) (first step : ℕ) (names : List (List ℕ)) → flat_map (λ s. s.exports) (number_stubs loaders first step names) ≡ exports_from first step (flat_map (library_symbols loaders) names) }
{}

/// A preparation in such a store, by whichever rule its sections are placed, ends with no error of binding but those of loops, and
/// those of symbols and versions of libraries that aren't stubs. The errors of images and programs, from 21 to 39, are those of
/// containers that aren't sound: this is the law `sound_containers_are_never_named` of `cfm_sound`. So if all containers are sound, only
/// room, memory and the context's bounds are left.
pub fn stubbed_preparations()
    ensures { (rule : Rule) (s : ContextState) (asked : List ℕ) (f : PrepareFault) (stub : ℕ → Bool) (number : ℕ → List ℕ → ℕ) → IsStubbed s.pairs stub number → MayNotPrepareBy rule s asked f → PreparationEnds s.pairs stub asked f }
{}
