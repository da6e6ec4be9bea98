//! Laws of expansion. The functions do nothing.
ghost use Rattle.std.specs.Prelude.{◌≡◌, ◌≢◌, ◌∷◌, ℕ, List, None, codes};
ghost use Rattle.std.specs.List.{AllByRecursion};
ghost use Rattle.pef_folders.specs.Expansions.{Expands, after_flag, items_from};
ghost use Rattle.pef_folders.specs.declared.expansion.Reading.TheVariants.{Program};

use crate::folders::Folders;

/// Words of which none begins with `-L` are unchanged, and so are those of other commands than `prepare`.
pub fn other_words_are_unchanged<D: Folders>(folders: &D)
    ensures unflagged { (words out : List (List ℕ)) → AllByRecursion (λ w. after_flag w ≡ None) words → Expands (D.did_list folders.now) (items_from Program words) out → out ≡ words }
    ensures others { (program command : List ℕ) (words out : List (List ℕ)) → command ≢ codes "prepare" → Expands (D.did_list folders.now) (items_from Program (program ∷ command ∷ words)) out → out ≡ program ∷ command ∷ words }
{}
