ghost use Rattle.std.specs.Prelude.{◌≡◌, ℕ, ◌+◌, ◌<◌, ◌≤◌, IsTrue, Some, length};
ghost use Rattle.pef_hash.specs.Exports.{name_of, slot_count, slot_first};
ghost use Rattle.pef_hash.specs.Limits.{most_power};
ghost use Rattle.pef_hash.specs.Regular.{IsRegular, IsSearchable, names_length};
ghost use Rattle.pef_hash.specs.Kept.Searches.{AreSlotsInTurn, IsHashed, LeadsToAll};

use crate::exports::Exports;
use crate::word::{hash_word, slot};
use pef_format::layout::SLOT_COUNT_SHIFT;
use std::ops::Range;

/// Returns the exports that a slot word counts.
pub(crate) fn places_in(word: u32) -> Range<usize>
    ensures start { result.start ≡ slot_first word }
    ensures end { result.end ≡ slot_first word + slot_count word }
{
    let first = (word % (1 << SLOT_COUNT_SHIFT)) as usize;
    let count = (word >> SLOT_COUNT_SHIFT) as usize;
    first..first + count
}

impl<'a> Exports<'a> {
    ghost use Rattle.pef_hash.specs.Views.{table_of};

    /// Returns whether the keys are in order of slot, each slot delimits exactly its keys, and each key
    /// is the hash word of its name. It returns false if the names are together longer than all strings,
    /// so that the test takes no longer than reading the bytes.
    pub(crate) fn is_regular(&self) -> bool
        ensures regular { IsTrue result → IsRegular (table_of self.now) }
        ensures found { IsSearchable (table_of self.now) → IsTrue result }
        ensures small { IsTrue result → self.now.power ≤ most_power }
        ensures leads { IsTrue result → LeadsToAll (table_of self.now) }
        ensures searchable { IsTrue result → IsSearchable (table_of self.now) }
    {
        self.count > 0 && self.has_slots_in_turn() && self.has_hashed_keys()
    }

    /// Returns whether the slots delimit exports one after the other, and none after the last.
    fn has_slots_in_turn(&self) -> bool
        requires { self.now.power ≤ most_power }
        ensures turn { IsTrue result → AreSlotsInTurn (table_of self.now) }
        ensures found { IsSearchable (table_of self.now) → IsTrue result }
    {
        let mut end = 0;
        for s in 0..1 << self.power {
            let Some(word) = self.slot_word(s) else {
                return false;
            };
            let places = places_in(word);
            if places.start < places.end {
                if places.start < end || places.end > self.count as usize {
                    return false;
                }
                end = places.end;
            }
        }
        true
    }

    /// Returns whether each key is the hash word of its name, and its slot counts it.
    fn has_hashed_keys(&self) -> bool
        requires { self.now.power ≤ most_power }
        ensures hashed { IsTrue result → ((i : ℕ) → i < self.now.count → IsHashed (table_of self.now) i) }
        ensures found { IsSearchable (table_of self.now) → IsTrue result }
        ensures within { IsTrue result → names_length (table_of self.now) self.now.count ≤ length self.now.strings.now }
    {
        let mut left = self.strings.len();
        for i in 0..self.count as usize {
            let Some(name) = self.name(i) else {
                return false;
            };
            if name.len() > left || !self.is_hashed(i, name) {
                return false;
            }
            left -= name.len();
        }
        true
    }

    /// Returns whether the key of export `i` is the hash word of its name, and its slot counts it.
    fn is_hashed(&self, i: usize, name: &[u8]) -> bool
        requires power { self.now.power ≤ most_power }
        requires name { name_of (table_of self.now) i ≡ Some name.now }
        ensures hashed { IsTrue result → IsHashed (table_of self.now) i }
        ensures found { IsSearchable (table_of self.now) → IsTrue result }
    {
        let Some(key) = self.key(i) else {
            return false;
        };
        let word = hash_word(name);
        if key != word {
            return false;
        }
        match self.slot_word(slot(word, self.power) as usize) {
            Some(counted) => places_in(counted).contains(&i),
            None => false,
        }
    }
}
