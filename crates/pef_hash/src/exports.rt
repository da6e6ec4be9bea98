ghost use Rattle.std.specs.Prelude.{◌≡◌, ◌-◌, ◌^◌, ◌<◌, ◌≤◌, length, IsTrue, Some};
ghost use Rattle.std.specs.Option.{option_copied};
ghost use Rattle.std.specs.Str.{bytes_eq};
ghost use Rattle.pef_words.specs.Refusals.{first_among};
ghost use Rattle.pef_hash.specs.Exports.{entry_at, entry_of, export_place, export_named, has_table, is_named, key_place, key_of, name_of, named_at, slot_word_of};
ghost use Rattle.pef_hash.specs.Limits.{most_power};
ghost use Rattle.pef_hash.specs.Regular.{IsRegular, IsSearchable};
ghost use Rattle.pef_hash.specs.Word.{hash_word};
ghost use Rattle.pef_hash.specs.Kept.Ends.{end_of};
ghost use Rattle.pef_hash.specs.Kept.Searches.{LeadsToAll};

use crate::chain::places_in;
use crate::word::{hash_word, slot};
use byteorder::{BigEndian, ByteOrder};
use pef_format::layout::{
    CLASS_COUNT, CLASS_SHIFT, EXPORT_CLASS_AND_NAME_AT, EXPORT_SECTION_AT, EXPORT_SIZE,
    EXPORT_VALUE_AT, KEY_LENGTH_SHIFT, KEY_SIZE, MAX_HASH_TABLE_POWER, MAX_NAME_LENGTH, SLOT_SIZE,
};
use pef_format::{ExportFields, Named};
use pef_words::Cut;
use std::ops::Range;

/// How many bytes at the ends of two names are compared first.
const END_LENGTH: usize = 8;

/// An export, and where its name begins in the string table.
pub type Entry = Named<ExportFields, u32>;

/// A view of an export hash table, which it borrows.
#[derive(Clone, Copy, Debug)]
pub struct Exports<'a> {
    pub(crate) power: u32,
    pub(crate) count: u32,
    table: &'a [u8],
    pub(crate) strings: &'a [u8],
    regular: bool,
    ghost complete: { IsTrue (has_table power count table.now) },
    ghost small: { IsTrue regular → power ≤ most_power },
    ghost leads: { IsTrue regular → LeadsToAll (record {
      power = power;
      count = count;
      bytes = table.now;
      strings = strings.now;
    }) },
}

impl<'a> Exports<'a> {
    ghost use Rattle.pef_hash.specs.Views.{table_of};

    /// Returns whether there are no exports, or `table` begins with `2^power` slots, `count` keys and
    /// `count` exports, as [`Exports::new`] requires. A table has at most 2^30 slots.
    #[tactic(auto, using(crate::proofs::Tables::words_small))]
    pub fn has_table(power: u32, count: u32, table: &[u8]) -> bool
        ensures { result ≡ has_table power count table.now }
    {
        if count == 0 {
            return true;
        }
        if power > MAX_HASH_TABLE_POWER {
            return false;
        }
        let size = (SLOT_SIZE << power) + (KEY_SIZE + EXPORT_SIZE) * count as usize;
        size <= table.len()
    }

    /// Returns the view of `count` exports in a table of `2^power` slots, whose bytes begin at `table`,
    /// with names in `strings`.
    ///
    /// It reads each slot and each key once, to find out whether the table is regular. If the names are
    /// together longer than `strings`, it doesn't read all of them, and treats the table as not regular.
    pub fn new(power: u32, count: u32, table: &'a [u8], strings: &'a [u8]) -> Exports<'a>
        requires { IsTrue (has_table power count table.now) }
        ensures table { table_of result ≡ record { power = power; count = count; bytes = table.entry.now; strings = strings.entry.now } }
        ensures found { IsSearchable (table_of result) → IsTrue result.regular }
    {
        let unsearched = Exports::unsearched(power, count, table, strings);
        let regular = unsearched.is_regular();
        Exports {
            power,
            count,
            table,
            strings,
            regular,
        }
    }

    /// Returns the same view without testing whether the table is regular: a search compares the names one after the other. It is
    /// for callers that read the exports by their numbers.
    pub fn unsearched(power: u32, count: u32, table: &'a [u8], strings: &'a [u8]) -> Exports<'a>
        requires { IsTrue (has_table power count table.now) }
        ensures { table_of result ≡ record { power = power; count = count; bytes = table.entry.now; strings = strings.entry.now } }
    {
        Exports {
            power,
            count,
            table,
            strings,
            regular: false,
        }
    }

    /// Returns whether the table is searched by its hash words and slots: it is regular, and its names are together no
    /// longer than its strings.
    pub fn is_searched(&self) -> bool
        ensures regular { IsTrue result → IsRegular (table_of self.now) }
        ensures found { IsSearchable (table_of self.now) → IsTrue result }
        ensures searchable { IsTrue result → IsSearchable (table_of self.now) }
    {
        self.is_regular()
    }

    /// Returns the hash word that the table has for export `i`, or `None` if there is no such export.
    #[tactic(auto, unfolding(crate::specs::Exports::key_of))]
    pub(crate) fn key(&self, i: usize) -> Option<u32>
        ensures { result ≡ key_of (table_of self.now) i }
    {
        if i >= self.count as usize {
            return None;
        }
        Cut::new(self.table).u32_at(key_place(self.power, i))
    }

    /// Returns the hash word that the table has for export `i`, which must exist.
    fn present_key(&self, i: usize) -> u32
        requires { i < self.now.count }
        ensures { key_of (table_of self.now) i ≡ Some result }
    {
        match self.key(i) {
            Some(key) => key,
            None => unreachable!(),
        }
    }

    /// Returns slot word `s`, or `None` if there is no such slot or it passes the end.
    #[tactic(auto, unfolding(crate::specs::Exports::slot_word_of))]
    pub(crate) fn slot_word(&self, s: usize) -> Option<u32>
        requires { self.now.power ≤ most_power }
        ensures { result ≡ slot_word_of (table_of self.now) s }
    {
        if s >= 1 << self.power {
            return None;
        }
        Cut::new(self.table).u32_at(SLOT_SIZE * s)
    }

    /// Returns export `i` without its name, or `None` if there is no such export.
    #[tactic(auto, unfolding(crate::specs::Exports::entry_of))]
    pub fn entry(&self, i: usize) -> Option<Entry>
        ensures { result ≡ entry_of (table_of self.now) i }
    {
        if i >= self.count as usize {
            return None;
        }
        read_entry(
            Cut::new(self.table),
            export_place(self.power, self.count, i),
        )
    }

    /// Returns the name of export `i`, or `None` if there is no such export or its name passes the end of
    /// the strings.
    #[tactic(auto, unfolding(crate::specs::Exports::name_of))]
    pub fn name(&self, i: usize) -> Option<&'a [u8]>
        ensures { option_copied result ≡ name_of (table_of self.now) i }
    {
        let length = self.key(i)? >> KEY_LENGTH_SHIFT;
        let entry = self.entry(i)?;
        let name = Cut::new(self.strings).part(entry.name as usize, length as usize)?;
        Some(name.bytes())
    }

    /// Returns the first export with this name, in every table: hash words and slots don't change the
    /// result. In a regular table they lead to each export, so it is searched by them, unless its names
    /// are together longer than its strings.
    #[tactic(auto, unfolding(crate::specs::Exports::export_named))]
    pub fn find(&self, name: &[u8]) -> Option<usize>
        ensures { result ≡ export_named (table_of self.now) name.now }
    {
        if self.regular {
            return self.find_in_chain(name);
        }
        self.first_named(0..self.count as usize, name)
    }

    /// Returns the first export with this name, if the slot of each name's hash word counts its export.
    #[tactic(auto, unfolding(crate::specs::Exports::export_named))]
    fn find_in_chain(&self, name: &[u8]) -> Option<usize>
        requires small { self.now.power ≤ most_power }
        requires leads { LeadsToAll (table_of self.now) }
        ensures { result ≡ export_named (table_of self.now) name.now }
    {
        if name.len() > MAX_NAME_LENGTH {
            return None;
        }
        let word = hash_word(name);
        match self.slot_word(slot(word, self.power) as usize) {
            Some(counted) => self.first_keyed(places_in(counted), word, name),
            None => None,
        }
    }

    /// Returns the first of some exports with this name, if each key is the hash word of its name.
    fn first_keyed(&self, places: Range<usize>, word: u32, name: &[u8]) -> Option<usize>
        requires range { places.start ≤ places.end }
        requires leads { LeadsToAll (table_of self.now) }
        requires word { word ≡ hash_word name.now }
        ensures { result ≡ first_among (named_at (table_of self.now) name.now) places.start (places.end - places.start) }
    {
        let end = places.end.min(self.count as usize);
        for i in places.start..end {
            if self.is_keyed(i, word, name) {
                return Some(i);
            }
        }
        None
    }

    /// Returns whether export `i`, which must exist, has this name. Its key is compared first, since that rules out
    /// most others.
    fn is_keyed(&self, i: usize, word: u32, name: &[u8]) -> bool
        requires there { i < self.now.count }
        requires leads { LeadsToAll (table_of self.now) }
        requires word { word ≡ hash_word name.now }
        ensures { result ≡ is_named (table_of self.now) name.now i }
    {
        self.present_key(i) == word && self.is_named(i, name)
    }

    /// Returns the first of some exports with this name.
    fn first_named(&self, places: Range<usize>, name: &[u8]) -> Option<usize>
        requires { places.start ≤ places.end }
        ensures { result ≡ first_among (named_at (table_of self.now) name.now) places.start (places.end - places.start) }
    {
        for i in places.start..places.end {
            if self.is_named(i, name) {
                return Some(i);
            }
        }
        None
    }

    /// Returns whether export `i` has this name.
    fn is_named(&self, i: usize, name: &[u8]) -> bool
        ensures { result ≡ is_named (table_of self.now) name.now i }
    {
        match self.name(i) {
            Some(found) => are_equal(found, name),
            None => false,
        }
    }
}

/// Returns whether two names are equal. The names of a library often share their first bytes, so their last
/// ones are compared first.
#[tactic(auto, using(crate::proofs::NameLemmas::by_ends))]
fn are_equal(some: &[u8], other: &[u8]) -> bool
    ensures { result ≡ bytes_eq some.now other.now }
{
    end_of(some) == end_of(other) && some == other
}

/// Returns the last bytes of a name as a number, or 0 for a shorter name.
#[tactic(auto, unfolding(crate::specs::Kept::Ends::end_of))]
fn end_of(name: &[u8]) -> u64
    ensures { result ≡ end_of name.now }
{
    match name.len().checked_sub(END_LENGTH) {
        Some(at) => BigEndian::read_u64(&name[at..]),
        None => 0,
    }
}

/// Returns where key `i` is: the keys follow the slots.
#[tactic(auto, using(crate::proofs::Tables::words_small))]
fn key_place(power: u32, i: usize) -> usize
    requires power { power ≤ most_power }
    requires place { i < 2 ^ 32 }
    ensures value { result ≡ key_place power i }
    ensures small { result < 2 ^ 36 }
{
    (SLOT_SIZE << power) + KEY_SIZE * i
}

/// Returns where export `i` is in a table of `2^power` slots and `count` exports: the exports follow the keys.
pub fn export_place(power: u32, count: u32, i: usize) -> usize
    requires power { power ≤ most_power }
    requires place { i < 2 ^ 32 }
    ensures value { result ≡ export_place power count i }
    ensures small { result < 2 ^ 37 }
{
    key_place(power, count as usize) + EXPORT_SIZE * i
}

/// Returns the export in the 10 bytes from `at`, or `None` if they pass the end.
#[tactic(auto, unfolding(crate::specs::Exports::entry_at))]
fn read_entry(table: Cut, at: usize) -> Option<Entry>
    requires { at < 2 ^ 40 }
    ensures { result ≡ entry_at table.entry.bytes.now at }
{
    let word = table.u32_at(at + EXPORT_CLASS_AND_NAME_AT)?;
    let value = table.u32_at(at + EXPORT_VALUE_AT)?;
    let section = table.i16_at(at + EXPORT_SECTION_AT)?;
    Some(Named {
        fields: ExportFields {
            class: (word >> CLASS_SHIFT) as u8 % CLASS_COUNT,
            section: i32::from(section),
            value,
        },
        name: word % (1 << CLASS_SHIFT),
    })
}
