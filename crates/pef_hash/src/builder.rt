ghost use Rattle.std.specs.Prelude.{◌≡◌, ◌+◌, ◌^◌, ◌<◌, ◌≤◌, ◌++◌, length, map, sum, IfOk, OnOk};
ghost use Rattle.pef_hash.specs.Word.{hash_word};
ghost use Rattle.pef_hash.specs.Kept.Chains.{IsChained};
ghost use Rattle.pef_hash.specs.Build.{BuiltTable, built, in_slot, keys_at, names_in, of_words};
ghost use Rattle.pef_hash.specs.Limits.{most_written_power, names_limit};

use crate::fault::HashFault;
use crate::word::{hash_word, power_for, slot};
use pef_format::layout::SLOT_COUNT_SHIFT;
use std::alloc::{AllocError, Global};
use std::marker::Model;

/// The hash table of some names.
#[derive(Debug, Drop)]
pub struct Table {
    /// The table has `2^power` slots.
    pub power: u32,
    /// The slot words, each with the number of its keys in the high 14 bits and the index of the
    /// first of them in the low 18.
    pub slots: Vec<u32>,
    /// The hash words in order of slot, and within a slot in the order of the names.
    pub keys: Vec<u32>,
    /// For each key, the index of its name.
    pub order: Vec<u32>,
}

impl Model for Table {
    ghost Value = { BuiltTable };

    ghost view = { λ t. record { power = t.power; slots = t.slots.items; keys = t.keys.items; order = t.order.items } };
}

/// Returns the table of the names that follow one another in `names`, with these lengths. A length
/// may be 0.
pub fn build(alloc: Global, names: &[u8], lengths: &[u8]) -> Result<Table, HashFault>
    requires whole { sum lengths.now ≡ length names.now }
    requires few { length lengths.now < names_limit }
    ensures { IfOk result (λ t. t ≡ built (names_in names.now lengths.now)) }
{
    let words = hash_words(alloc, names, lengths)?;
    let power = power_for(lengths.len() as u32);
    Ok(lay_out(alloc, &words, power)?)
}

/// Returns the hash words of the names.
fn hash_words(alloc: Global, names: &[u8], lengths: &[u8]) -> Result<Vec<u32>, AllocError>
    requires { sum lengths.now ≡ length names.now }
    ensures { IfOk result (λ words. words.items ≡ map hash_word (names_in names.now lengths.now)) }
{
    let mut words = Vec::with_capacity(alloc, lengths.len())?;
    let mut rest = names;
    for length in lengths {
        let (name, others) = rest.split_at(*length as usize);
        words.push(hash_word(name))?;
        rest = others;
    }
    Ok(words)
}

/// Returns the table of these hash words.
fn lay_out(alloc: Global, words: &[u32], power: u32) -> Result<Table, AllocError>
    requires few { length words.now < names_limit }
    requires small { power ≤ most_written_power }
    ensures { IfOk result (λ t. t ≡ of_words power words.now) }
{
    let chains = Chains::new(alloc, words, power)?;
    let mut slots = Vec::with_capacity(alloc, 1 << power)?;
    let mut keys = Vec::with_capacity(alloc, words.len())?;
    let mut order = Vec::with_capacity(alloc, words.len())?;
    for slot in 0..1 << power {
        let first = order.len() as u32;
        chains.follow(slot, &mut keys, &mut order)?;
        let count = order.len() as u32 - first;
        slots.push(count * (1 << SLOT_COUNT_SHIFT) + first)?;
    }
    Ok(Table {
        power,
        slots,
        keys,
        order,
    })
}

/// The words slot by slot: the first word of each slot, and for each word the next one of its slot.
/// The number of words means that there is none.
#[derive(Drop)]
struct Chains<'a> {
    words: &'a [u32],
    heads: Vec<u32>,
    next: Vec<u32>,
    power: u32,
    ghost chained: { IsChained power words.now heads.items next.items },
}

impl<'a> Chains<'a> {
    fn new(alloc: Global, words: &'a [u32], power: u32) -> Result<Chains<'a>, AllocError>
        requires few { length words.now < names_limit }
        requires small { power ≤ most_written_power }
        ensures words { IfOk result (λ c. c.words.now ≡ words.entry.now) }
        ensures power { IfOk result (λ c. c.power ≡ power) }
    {
        let end = words.len() as u32;
        let mut heads = vec![in alloc; end; 1 << power]?;
        let mut next = vec![in alloc; end; words.len()]?;
        for i in (0..words.len()).rev() {
            let slot = slot(words[i], power) as usize;
            next[i] = heads[slot];
            heads[slot] = i as u32;
        }
        Ok(Chains {
            words,
            heads,
            next,
            power,
        })
    }

    /// Appends the words of a slot, and their places, in their order.
    fn follow(&self, slot: u32, keys: &mut Vec<u32>, order: &mut Vec<u32>) -> Result<(), AllocError>
        requires within { slot < 2 ^ self.now.power }
        requires keyed { keys.old.items ≡ keys_at self.now.words.now order.old.items }
        ensures order { OnOk result (order.new.items ≡ order.old.items ++ in_slot self.now.power slot 0 self.now.words.now) }
        ensures keys { OnOk result (keys.new.items ≡ keys_at self.now.words.now order.new.items) }
    {
        let mut at = self.heads[slot as usize];
        while (at as usize) < self.next.len() {
            keys.push(self.words[at as usize])?;
            order.push(at)?;
            at = self.next[at as usize];
        }
        Ok(())
    }
}
