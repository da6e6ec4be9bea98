ghost use Rattle.std.specs.Prelude.{◌≡◌, ◌++◌, [], ◌∷◌, length, slice_get, OnOk};

use std::alloc::{AllocFailed, Global};
use std::marker::Model;

/// The fragments of a fragment's library entries, by their places, or `None` for an absent one.
#[derive(Drop)]
pub(crate) struct Libraries {
    places: Vec<Option<usize>>,
}

impl Model for Libraries {
    ghost use Rattle.std.specs.Prelude.{List, Option, ℕ};

    ghost Value = { List (Option ℕ) };

    ghost view = { λ s. s.places.items };
}

impl Libraries {
    pub fn new(alloc: Global) -> Libraries
        ensures { result ≡ [] }
    {
        Libraries {
            places: Vec::new(alloc),
        }
    }

    pub fn push(&mut self, place: Option<usize>) -> Result<(), AllocFailed<Option<usize>>>
        ensures { OnOk result (self.new ≡ self.old ++ place ∷ []) }
    {
        self.places.push(place)
    }

    pub fn len(&self) -> usize
        ensures { result ≡ length self.now }
    {
        self.places.len()
    }

    /// Returns the place of entry `l`, or `None` past the last one.
    pub fn get(&self, l: usize) -> Option<Option<usize>>
        ensures { result ≡ slice_get self.now l }
    {
        self.places.get(l).copied()
    }
}
