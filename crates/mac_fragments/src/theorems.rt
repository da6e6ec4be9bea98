//! Laws of the fragments of files, and of the choice among them. The functions do nothing.
ghost use Rattle.std.specs.Prelude.{◌≡◌, ◌<◌, ℕ, List, [], ◌∷◌, Option, None, Some, Ok, true, false, length};
ghost use Rattle.std.specs.List.{slice_get};
ghost use Rattle.cfm_members.specs.Fragments.{container_in_pair, container_named};
ghost use Rattle.cfm_members.specs.Search.{begins_container};
ghost use Rattle.mac_fragments.specs.Candidates.{CandidateIs};
ghost use Rattle.mac_fragments.specs.Choices.{IsServed, chosen, chosen_at};
ghost use Rattle.mac_fragments.specs.Extracted.{IsFirst, first_by, numbered};
ghost use Rattle.mac_fragments.specs.Fragments.{FragmentIs, file_fragments};

/// What is found by a name in the table of a file is the first of its fragments with the name. A file whose fragments are listed has no
/// name with another error than 80. It is that of a name that no member has, or whose first member isn't in the file.
pub fn names_are_as_extracted()
    ensures paired { (bytes resources name : List ℕ) (fs : List FragmentIs) → file_fragments bytes (Some resources) ≡ Ok fs → IsFirst (container_in_pair bytes resources name) (first_by name fs) }
    ensures own { (bytes name : List ℕ) (fs : List FragmentIs) → begins_container bytes ≡ false → file_fragments bytes None ≡ Ok fs → IsFirst (container_named bytes name) (first_by name fs) }
{}

/// A fragment without a name is a container that a search finds, without the bytes after it. In a file that begins with one it is the
/// first.
pub fn places_are_as_extracted()
    ensures unnamed { (bytes : List ℕ) (resources : Option (List ℕ)) (fs : List FragmentIs) (k : ℕ) (f : FragmentIs) → file_fragments bytes resources ≡ Ok fs → slice_get fs k ≡ Some f → f.name ≡ None → (n : ℕ) × (numbered bytes n ≡ Some f.bytes) }
    ensures alone { (bytes : List ℕ) → begins_container bytes ≡ true → (f : FragmentIs) × (file_fragments bytes None ≡ Ok (f ∷ [])) × (f.name ≡ None) × (numbered bytes 0 ≡ Some f.bytes) }
{}

/// The root is the first chosen fragment, and no two chosen fragments have the same name. For each library among the candidates there
/// is a chosen one with its name: the root, or a library that isn't worse.
pub fn chosen_fragments()
    ensures root { (candidates : List CandidateIs) (root : ℕ) → slice_get (chosen candidates root) 0 ≡ Some root }
    ensures apart { (candidates : List CandidateIs) (root j k : ℕ) (a b : CandidateIs) → root < length candidates → chosen_at candidates root j ≡ Some a → chosen_at candidates root k ≡ Some b → a.name ≡ b.name → j ≡ k }
    ensures served { (candidates : List CandidateIs) (root k : ℕ) (c : CandidateIs) → root < length candidates → slice_get candidates k ≡ Some c → c.usage ≡ 0 → IsServed candidates root c }
{}
