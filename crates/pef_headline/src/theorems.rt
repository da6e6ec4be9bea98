//! The headline, and the laws of its conditions, of refusals, of imports, and from a text to memory. They are laws of the
//! definitions in which the crates below state their contracts. The functions do nothing.
ghost use Rattle.std.specs.Prelude.{◌≡◌, ℕ, List, None, Some, Err, Contains, Result, slice_get, true};
ghost use Rattle.cfm_store.specs.Stores.{Pair, place_of};
ghost use Rattle.cfm_closure.specs.Faults.{no_container, no_loader};
ghost use Rattle.cfm_closure.specs.Closures.{closed_of};
ghost use Rattle.cfm_closure.specs.Fragments.{import_at};
ghost use Rattle.cfm_memory.specs.Extents.{ArePlacedBy, Rule, at_given};
ghost use Rattle.cfm_memory.specs.Instances.{Layout};
ghost use Rattle.cfm_memory.specs.declared.place.Place.{Place as MemoryPlace};
ghost use Rattle.cfm_prepare.specs.Addresses.{addresses_of};
ghost use Rattle.cfm_prepare.specs.Fragments.{Present, extents_in, image_refusal_in, is_present, reloc_refusal_in};
ghost use Rattle.cfm_prepare.specs.Refusals.{HasBadImageBy, HasBadProgramBy};
ghost use Rattle.cfm_prepare.specs.Contexts.{ContextState, Open, made_state};
ghost use Rattle.cfm_prepare.specs.Options.{Choices};
ghost use Rattle.cfm_prepare.specs.Readers.{import_target_of, symbol_address, symbol_of};
ghost use Rattle.cfm_prepare.specs.Runs.{Runs, Step, Takes};
ghost use Rattle.cfm_prepare.specs.Steps.{HasRoot, PreparesBy};
ghost use Rattle.cfm_prepare.specs.declared.fault.PrepareFault.{PrepareFault};
ghost use Rattle.cfm_prepare.specs.declared.place_fault.PlaceFault.{PlaceFault};
ghost use Rattle.cfm_prepare.specs.declared.imports.ImportTarget.{ImportTarget};
ghost use Rattle.pef_format.specs.Symbols.{Import};
ghost use Rattle.pef_format.specs.declared.place.Place.{Place};
ghost use Rattle.pef_loader.specs.declared.fault.LoaderFault.{LoaderFault};
ghost use Rattle.cfm_sections.specs.declared.image_fault.ImageFault.{ImageFault};
ghost use Rattle.pef_loader.specs.declared.program_fault.ProgramFault.{ProgramFault};
ghost use Rattle.pef_script.specs.Script.{DescribedScript};
ghost use Rattle.pef_headline.specs.Headline.{AddressesHaveRoom, HasLeastPrograms, HasLinked, IsReached, LibrariesResolve, MayAnswer, MayAnswerAt, OthersAreSound, OthersAreSoundBy, PreparesAsDescribed, PreparesAtAsDescribed, SectionsFindPlaces, SectionsFindRoom, StaysAsDescribed};
ghost use Rattle.pef_headline.specs.Imports.{HasImports};
ghost use Rattle.pef_headline.specs.Memory.{HasLinkedText, ReadsDescribed, fragment_reader, root_reader};
ghost use Rattle.pef_headline.specs.Others.{HasForeign, NamesForeign};
ghost use Rattle.pef_headline.specs.Placed.{ComesThrough, IsPresentAt, StaysAt};
ghost use Rattle.pef_headline.specs.Served.{IsOpen, MeansSymbol};
ghost use Rattle.pef_views.specs.declared.fault.ViewFault.{ViewFault};

use cfm_prepare::theorems::present_fragments;

/// The headline. Every container that the linker writes prepares, wherever its libraries resolve and its sections find
/// room, to exactly the memory that its script describes; and for each section its relocation program has no more
/// halfwords than any repeat-free program that makes the script's fixups, each once and in address order.
///
/// `prepares`, the first half: a store has the linked bytes in place `p`. After any list of additions, removals,
/// reservations, preparations and closings a root is prepared by its name, and its closure has `p`: it is the root itself, or the
/// root needs it. The call gives the next connection, and the fragment in `p` is present with the described memory. Its
/// imports are those of the script, by their names and those of their libraries. If it wasn't present, its sections
/// were placed after those of the new fragments that come before it in the closure. If it was, they keep their places.
/// The only refusal is 99, for a failed allocation, and then the context is unchanged. The conditions: the root is in
/// the store, and its closure isn't refused. The context has a connection left: usually fewer than 65,536 were given. The
/// fragments of the closure that aren't present yet find room, and take no more bytes and steps than the context allows:
/// usually it bounds neither. None of these that wasn't linked has an image or a relocation header that is
/// refused.
///
/// `prepares_at`: so it is if the root is prepared at addresses for its sections. The condition that they find room is then
/// that there is an address for each, and that each has room after the sections before it.
///
/// `present`: whenever the fragment in `p` is present, it has the described memory, under the addresses that its
/// sections and its imports' targets have now. Its sections are where the last preparation before which it wasn't
/// present placed them: each at the lowest address with room, or at the one that was given for it. So what `prepares` gives is kept as long as the fragment is present.
///
/// `least`, the second half: the linked bytes are read as a container with a loader section, which has a least
/// relocation program for each section of the script.
pub fn headline()
    ensures prepares { (script : DescribedScript) (s t : ContextState) (name : List ℕ) (p : ℕ) (answer : Result ℕ PrepareFault) → IsReached s → HasLinked s.pairs p script → (resolve : LibrariesResolve s name) → Contains resolve.closed.order p
        → SectionsFindRoom s resolve.closed → OthersAreSound s resolve.closed → MayAnswer s name answer t → PreparesAsDescribed s answer t p script }
    ensures prepares_at { (script : DescribedScript) (s t : ContextState) (name addresses : List ℕ) (p : ℕ) (answer : Result ℕ PlaceFault) → IsReached s → HasLinked s.pairs p script → (resolve : LibrariesResolve s name) → Contains resolve.closed.order p
        → AddressesHaveRoom s resolve.closed addresses → OthersAreSoundBy (at_given addresses) s resolve.closed → MayAnswerAt s name addresses answer t → PreparesAtAsDescribed s addresses answer t p script }
    ensures present { (script : DescribedScript) (s : ContextState) (p : ℕ) (reached : IsReached s) → HasLinked s.pairs p script → is_present s.present p ≡ true → StaysAsDescribed s reached p script }
    ensures least { (script : DescribedScript) (pairs : List Pair) (p : ℕ) (linked : HasLinked pairs p script) → HasLeastPrograms pairs p script linked }
{}

/// Each preparation that gives a connection, by whichever rule its sections are placed, meets the conditions of `prepares` or
/// of `prepares_at`, so the conditions require no more than
/// it needs.
pub fn conditions_are_met()
    ensures { (rule : Rule) (s t : ContextState) (name : List ℕ) (number : ℕ) → PreparesBy rule s name number t → (resolve : LibrariesResolve s name) × SectionsFindPlaces rule s resolve.closed × OthersAreSoundBy rule s resolve.closed }
{}

/// The conditions are enough: if they are met, there is a state that the preparation gives, with the next connection.
/// So, with `conditions_are_met`, a preparation can succeed exactly if they are met.
pub fn enough_to_prepare()
    ensures { (rule : Rule) (s : ContextState) (name : List ℕ) (resolve : LibrariesResolve s name) → SectionsFindPlaces rule s resolve.closed → OthersAreSoundBy rule s resolve.closed → (t : ContextState) × PreparesBy rule s name s.given t }
{}

/// No image of a linked container is refused. Nor is a relocation header, if its sections have places, whichever
/// fragments are present.
pub fn linked_is_sound()
    ensures filled { (script : DescribedScript) (pairs : List Pair) (p : ℕ) → HasLinked pairs p script → image_refusal_in pairs p ≡ None }
    ensures relocated { (script : DescribedScript) (pairs : List Pair) (all : List Present) (f : Present) (rule : Rule) (before after : Layout) → HasLinked pairs f.position script → ArePlacedBy rule before (extents_in pairs f.position) f.places after
        → reloc_refusal_in pairs (addresses_of pairs all f) f.position ≡ None }
{}

/// So if new fragments of a closure are refused for an image or a relocation header, the refusal names one of them that
/// wasn't linked from any script. If the bytes of a fragment aren't read, the refusal names a fragment of the store
/// that wasn't linked from any script.
pub fn refusals_are_of_others()
    ensures image { (rule : Rule) (pairs : List Pair) (m : Layout) (new : List ℕ) (name : List ℕ) (k : ImageFault) → HasBadImageBy rule pairs m new name k → HasForeign pairs new name }
    ensures program { (rule : Rule) (pairs : List Pair) (there : List Present) (m : Layout) (new : List ℕ) (name : List ℕ) (k : ProgramFault) → HasBadProgramBy rule pairs there m new name k → HasForeign pairs new name }
    ensures container { (s : ContextState) (asked name : List ℕ) (k : ViewFault) (has : HasRoot s asked) → closed_of s.pairs has.root ≡ Err (no_container name k) → NamesForeign s.pairs name }
    ensures loader { (s : ContextState) (asked name : List ℕ) (k : LoaderFault) (place : Place) (has : HasRoot s asked) → closed_of s.pairs has.root ≡ Err (no_loader name k place) → NamesForeign s.pairs name }
{}

/// From a text to memory. A text is a script, and a store has in place `p` the bytes that `link` gives for it. After
/// any list of additions, removals, reservations, preparations and closings a root is prepared by its name, and that succeeds.
///
/// `fragment`: if the root's closure has `p`, `fragment_section` then returns for `p` the memory that the script
/// describes, section by section. The addresses in it are those that the same call returns.
///
/// `root`: if the root itself is in `p`, `section` returns the same for the connection.
pub fn script_to_memory()
    ensures fragment { (text : List ℕ) (s t : ContextState) (rule : Rule) (name : List ℕ) (number p : ℕ) → IsReached s → (has : HasLinkedText s.pairs p text) → (step : PreparesBy rule s name number t) → Contains step.closure.closed.order p
        → ReadsDescribed t p (fragment_reader t p) has.script }
    ensures root { (text : List ℕ) (s t : ContextState) (rule : Rule) (name : List ℕ) (number p : ℕ) → IsReached s → (has : HasLinkedText s.pairs p text) → PreparesBy rule s name number t → place_of s.pairs name ≡ Some p
        → ReadsDescribed t p (root_reader t number) has.script }
{}

/// The headline is about all contexts: one that was made is reached, and so is each to which a step leads.
pub fn contexts_are_reached()
    ensures made { (pairs : List Pair) (choices : Choices) → IsReached (made_state pairs choices) }
    ensures step { (s t : ContextState) (step : Step) → IsReached s → Takes s step t → IsReached t }
{}

/// A fragment that stays from a state of a run on is present, with its places, in each state that the run comes through from there.
pub fn fragments_stay()
    ensures { (steps : List Step) (s t m : ContextState) (run : Runs s steps t) (p : ℕ) (places : List MemoryPlace) → StaysAt steps s t run p places → ComesThrough steps s t run m → IsPresentAt m p places }
{}

/// If one fragment has the imports of two scripts, both describe the same imports, from libraries with the same names, versions and
/// options.
pub fn imports_are_known()
    ensures { (pairs : List Pair) (p : ℕ) (script other : DescribedScript) → HasImports pairs p script → HasImports pairs p other → (j : ℕ) (symbol : Import) → slice_get script.imports j ≡ Some symbol
        → (slice_get other.imports j ≡ Some symbol) × (slice_get other.libraries symbol.library ≡ slice_get script.libraries symbol.library) }
{}

/// An import of a fragment of an open connection's closure means, in every state that is reached, the symbol that its
/// library exports under its name.
///
/// `means`: `import_target` gives no target if the library is absent. Otherwise a fragment of the same closure serves the
/// import. The import's target is where the first export of that fragment with the import's name leads: its section and offset,
/// its number, or the target of the import that it passes on. The import's address is that of this target, and it is what
/// `fragment_symbol` of the connection gives for that fragment and name. If there is no such export, the import is weak and has
/// no target.
///
/// `agree`: of two open connections whose closures have a fragment, `fragment_symbol` gives the same for it.
///
/// `root`: so if a connection is open to that fragment itself, its `symbol` gives the same.
pub fn imports_mean_symbols()
    ensures means { (s : ContextState) (o : Open) (p j : ℕ) (import : Import) (meant : ImportTarget) → IsOpen s o → import_at s.pairs p j ≡ Some import → import_target_of s.present o p j ≡ Some meant
        → MeansSymbol s o p import meant }
    ensures agree { (s : ContextState) (o x : Open) (q : ℕ) (name : List ℕ) → IsOpen s o → IsOpen s x → Contains o.closed.order q → Contains x.closed.order q → symbol_of s.present x q name ≡ symbol_of s.present o q name }
    ensures root { (s : ContextState) (o x : Open) (name : List ℕ) → IsOpen s o → IsOpen s x → Contains o.closed.order x.root → symbol_address s.present x name ≡ symbol_of s.present o x.root name }
{
    present_fragments();
}
