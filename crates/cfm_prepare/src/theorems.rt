//! Laws of the definitions, for the proofs of other crates. The functions do nothing.
ghost use Rattle.std.specs.Prelude.{◌≡◌, ◌↔◌, ◌++◌, ℕ, List, [], ◌∷◌, Contains, Some, false, option_map, true};
ghost use Rattle.cfm_memory.specs.Extents.{Rule};
ghost use Rattle.cfm_store.specs.Additions.{with_put, without_pair};
ghost use Rattle.cfm_store.specs.Stores.{Pair};
ghost use Rattle.cfm_prepare.specs.Fragments.{is_present, places_of};
ghost use Rattle.cfm_prepare.specs.Contexts.{ContextState, added, made_state, is_needed, open_of, removed, unused_state};
ghost use Rattle.cfm_prepare.specs.Now.{IsPreparedNow};
ghost use Rattle.cfm_prepare.specs.Options.{Choices};
ghost use Rattle.cfm_prepare.specs.Placing.{IsRuleFor, LacksPlaceBy};
ghost use Rattle.cfm_prepare.specs.Readers.{released_by};
ghost use Rattle.cfm_prepare.specs.Refusals.{HasBadImageBy, HasBadProgramBy};
ghost use Rattle.cfm_prepare.specs.Runs.{AreClosed, Keeps, Runs, Step, Takes};
ghost use Rattle.cfm_prepare.specs.Steps.{Closes, HasClosure, IsWithin, PreparesBy, new_of};
ghost use Rattle.cfm_sections.specs.declared.image_fault.ImageFault.{ImageFault};
ghost use Rattle.pef_loader.specs.declared.program_fault.ProgramFault.{ProgramFault};

/// After any list of additions, removals, reservations, preparations and closings, a fragment is present exactly if the closure of
/// an open connection has it. These closures are those of the connections' roots.
pub fn present_fragments()
    ensures present { (pairs : List Pair) (choices : Choices) (steps : List Step) (t : ContextState) (p : ℕ) → Runs (made_state pairs choices) steps t → is_present t.present p ≡ is_needed t.connections p }
    ensures closed { (pairs : List Pair) (choices : Choices) (steps : List Step) (t : ContextState) → Runs (made_state pairs choices) steps t → AreClosed t.pairs t.connections }
{}

/// A fragment that is present before and after a step, after any list of steps, keeps the places of its sections and
/// their bytes.
pub fn kept_fragments()
    ensures { (pairs : List Pair) (choices : Choices) (steps : List Step) (s t : ContextState) (step : Step) (p : ℕ) → Runs (made_state pairs choices) steps s → Takes s step t → is_present s.present p ≡ true → is_present t.present p ≡ true
        → (places_of t.present p ≡ places_of s.present p) × Keeps s.memory t.memory (places_of s.present p) }
{}

/// After any list of steps a fragment that is present is prepared as its container says, with the present addresses.
/// A preparation leaves each fragment of its closure present and prepared in this way.
pub fn prepared_fragments()
    ensures now { (pairs : List Pair) (choices : Choices) (steps : List Step) (s : ContextState) (p : ℕ) → Runs (made_state pairs choices) steps s → is_present s.present p ≡ true → IsPreparedNow s.pairs s p }
    ensures closure { (pairs : List Pair) (choices : Choices) (steps : List Step) (s t : ContextState) (rule : Rule) (name : List ℕ) (number p : ℕ) → Runs (made_state pairs choices) steps s → (step : PreparesBy rule s name number t) → Contains step.closure.closed.order p
        → (is_present t.present p ≡ true) × IsPreparedNow t.pairs t p }
{}

/// A context that never gave a connection is equal to a new one over its store, but for its reserved ranges. If a
/// fragment is added to a new one, or one is removed, it is equal to a new one over the store with it or without it.
pub fn added_fragments()
    ensures unused { (pairs : List Pair) (choices : Choices) (steps : List Step) (t : ContextState) → Runs (made_state pairs choices) steps t → t.given ≡ 0 → t ≡ unused_state t.pairs choices t.memory.reserved }
    ensures added { (pairs : List Pair) (choices : Choices) (name bytes : List ℕ) → added (made_state pairs choices) name bytes ≡ made_state (with_put pairs (record { name = name; bytes = bytes; free = false })) choices }
    ensures removed { (pairs : List Pair) (choices : Choices) (p : ℕ) → removed (made_state pairs choices) p ≡ made_state (without_pair pairs p) choices }
{}

/// If a name has a closure, its fragments that aren't present take no more than the context allows, none of them lacks
/// a place by the rule of placement, which is for as many sections as they have, and none is refused for an image or a
/// relocation header, there is a state that the preparation gives.
pub fn possible_preparations()
    ensures { (rule : Rule) (s : ContextState) (name : List ℕ) (closure : HasClosure s name) → IsWithin s (new_of s closure.closed) → IsRuleFor rule s.pairs (new_of s closure.closed)
        → ((other : List ℕ) → LacksPlaceBy rule s.pairs s.memory (new_of s closure.closed) other → ⊥)
        → ((other : List ℕ) (k : ImageFault) → HasBadImageBy rule s.pairs s.memory (new_of s closure.closed) other k → ⊥)
        → ((other : List ℕ) (k : ProgramFault) → HasBadProgramBy rule s.pairs s.present s.memory (new_of s closure.closed) other k → ⊥) → (t : ContextState) × PreparesBy rule s name s.given t }
{}

/// Only reservations and what gives them back change which ranges of addresses are out of use: a preparation and a closing
/// leave them as they are, and so does an addition by its definition.
pub fn reserved_ranges()
    ensures prepared { (s t : ContextState) (rule : Rule) (name : List ℕ) (number : ℕ) → PreparesBy rule s name number t → t.memory.reserved ≡ s.memory.reserved }
    ensures closed { (s t : ContextState) (number : ℕ) → Closes s number t → t.memory.reserved ≡ s.memory.reserved }
{}

/// After any list of steps, closing a connection takes away exactly what `released_by` gives before it, and a preparation
/// places exactly what `new_fragments` gives after it.
pub fn new_and_released_fragments()
    ensures released { (pairs : List Pair) (choices : Choices) (steps : List Step) (s t : ContextState) (number : ℕ) (released : List ℕ) (p : ℕ) → Runs (made_state pairs choices) steps s → Closes s number t → released_by s number ≡ Some released
        → Contains released p ↔ ((is_present s.present p ≡ true) × (is_present t.present p ≡ false)) }
    ensures placed { (pairs : List Pair) (choices : Choices) (steps : List Step) (s t : ContextState) (rule : Rule) (name : List ℕ) (number : ℕ) (placed : List ℕ) (p : ℕ) → Runs (made_state pairs choices) steps s → PreparesBy rule s name number t
        → option_map (λ o. o.placed) (open_of t.connections number) ≡ Some placed → Contains placed p ↔ ((is_present s.present p ≡ false) × (is_present t.present p ≡ true)) }
{}
