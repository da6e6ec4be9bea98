ghost use Rattle.std.specs.Prelude.{◌≡◌, ◌≤◌, ◌<◌, ◌^◌, ℕ, length, IfOk, IfSome, Ok, Err, nat_lt, if◌then◌else◌};
ghost use Rattle.pef_words.specs.Refusals.{result_map};
ghost use Rattle.pef_pidata.specs.Instructions.{argument, counted};
ghost use Rattle.pef_pidata.specs.Kept.Views.{argument_seen};

use crate::fault::PackFault;

/// The bit that is set in all bytes of an argument but the last, and the number of values below it.
const MORE: u8 = 0x80;

/// The place of the last byte that an argument may have: it has five at most.
const LAST: usize = 4;

/// An argument, and the bytes after it.
#[derive(Clone, Copy)]
pub(crate) struct Argument<'a> {
    pub value: u32,
    pub rest: &'a [u8],
}

/// Reads an argument of the instruction at `at`: seven bits a byte, the highest first.
#[tactic(auto, unfolding(crate::specs::Instructions::argument))]
pub(crate) fn read_argument(at: usize, packed: &[u8]) -> Result<Argument<'_>, PackFault>
    ensures read { result_map argument_seen result ≡ argument at packed.now }
    ensures shorter { IfOk result (λ a. length a.rest.now < length packed.now) }
{
    let mut value: u64 = 0;
    for (i, byte) in packed.iter().enumerate() {
        value = value * u64::from(MORE) + u64::from(byte % MORE);
        if *byte < MORE {
            return ended(at, value, &packed[i + 1..]);
        }
        if i == LAST {
            return Err(PackFault::CountTooLarge { at });
        }
    }
    Err(PackFault::Truncated { at })
}

/// Returns an argument whose last byte was read, if its value fits 32 bits.
fn ended(at: usize, value: u64, rest: &[u8]) -> Result<Argument<'_>, PackFault>
    ensures read { result_map argument_seen result ≡ (if nat_lt value (2 ^ 32) then Ok (value, rest.now) else Err (PackFault.CountTooLarge at)) }
    ensures rest { IfOk result (λ a. a.rest.now ≡ rest.now) }
{
    if value > u64::from(u32::MAX) {
        return Err(PackFault::CountTooLarge { at });
    }
    Ok(Argument {
        value: value as u32,
        rest,
    })
}

/// Reads the count of the instruction at `at`: that in its first byte, or an argument if that is 0.
#[inline(always)]
#[tactic(auto, unfolding(crate::specs::Instructions::counted))]
pub(crate) fn read_count(at: usize, low: u8, packed: &[u8]) -> Result<Argument<'_>, PackFault>
    ensures read { result_map argument_seen result ≡ counted at low packed.now }
    ensures shorter { IfOk result (λ a. length a.rest.now ≤ length packed.now) }
{
    if low == 0 {
        return read_argument(at, packed);
    }
    Ok(Argument {
        value: u32::from(low),
        rest: packed,
    })
}

/// Reads a count that is in the first byte of an instruction, or in an argument of one or two bytes. Returns `None` for all others.
#[inline(always)]
#[tactic(auto, unfolding(crate::specs::Instructions::counted, crate::specs::Instructions::argument))]
pub(crate) fn read_short_count(low: u8, packed: &[u8]) -> Option<Argument<'_>>
    ensures read { IfSome result (λ c. (at : ℕ) → Ok (argument_seen c) ≡ counted at low packed.now) }
    ensures shorter { IfSome result (λ c. length c.rest.now ≤ length packed.now) }
{
    if low > 0 {
        return Some(Argument {
            value: u32::from(low),
            rest: packed,
        });
    }
    let (first, rest) = packed.split_first()?;
    if *first < MORE {
        return Some(Argument {
            value: u32::from(*first),
            rest,
        });
    }
    let (second, rest) = rest.split_first()?;
    if *second < MORE {
        return Some(Argument {
            value: u32::from(*first % MORE) * u32::from(MORE) + u32::from(*second),
            rest,
        });
    }
    None
}
