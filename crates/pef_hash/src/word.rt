ghost use Rattle.std.specs.Prelude.{◌≡◌, ◌^◌, ◌<◌, length};
ghost use Rattle.pef_hash.specs.Word.{hash_step, hash_value, hash_word, power_of, slot};

use pef_format::layout::KEY_LENGTH_SHIFT;

/// How far the running value is shifted right, so that its high bits count too.
const HASH_SHIFT: u32 = 16;

/// The most slots of a table that is written, as an exponent of two.
const MOST_WRITTEN_POWER: u32 = 16;

/// A table that is written has fewer than this many exports for each slot, rounded down, unless it has the
/// most slots.
const EXPORTS_A_SLOT: u32 = 10;

/// Returns the hash word of a name of at most 65,535 bytes: its length in the high 16 bits, and 16
/// bits of hash in the low ones.
#[tactic(auto, unfolding(crate::specs::Word::hash_word))]
pub fn hash_word(name: &[u8]) -> u32
    requires { length name.now < 2 ^ 16 }
    ensures { result ≡ hash_word name.now }
{
    let hash = hash_value(name);
    let folded = (hash ^ (hash >> HASH_SHIFT)).cast_unsigned();
    let low = folded % (1 << KEY_LENGTH_SHIFT);
    name.len() as u32 * (1 << KEY_LENGTH_SHIFT) + low
}

/// Returns the running value after the bytes of a name.
fn hash_value(name: &[u8]) -> i32
    ensures { result ≡ hash_value name.now }
{
    let mut hash = 0;
    for byte in name {
        hash = hash_step(hash, *byte);
    }
    hash
}

/// Returns the running value after one more byte. It is signed, so its right shift keeps the sign.
#[tactic(auto, unfolding(crate::specs::Word::hash_step))]
fn hash_step(hash: i32, byte: u8) -> i32
    ensures { result ≡ hash_step hash byte }
{
    (hash << 1).wrapping_sub(hash >> HASH_SHIFT) ^ i32::from(byte)
}

/// Returns the slot of a hash word in a table of `2^power` slots. Every power has one.
#[tactic(auto, using(crate::proofs::Slots::slot_wide, crate::proofs::Slots::slot_below, crate::proofs::Slots::word_below, crate::proofs::Slots::power_below), unfolding(crate::specs::Word::slot))]
pub fn slot(word: u32, power: u32) -> u32
    ensures value { result ≡ slot word power }
    ensures below { result < 2 ^ power }
{
    if power >= u32::BITS {
        return word;
    }
    (word ^ (word >> power)) & ((1 << power) - 1)
}

/// Returns the power of the table that is written for `count` exports: the least that leaves fewer
/// than 10 exports for each slot, and 16 if none does.
pub fn power_for(count: u32) -> u32
    ensures { result ≡ power_of count }
{
    for power in 0..MOST_WRITTEN_POWER {
        if count >> power < EXPORTS_A_SLOT {
            return power;
        }
    }
    MOST_WRITTEN_POWER
}
