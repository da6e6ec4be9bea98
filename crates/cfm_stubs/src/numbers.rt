ghost use Rattle.std.specs.Prelude.{◌≡◌, ◌<◌, ◌^◌, None, MatchResult, length, map, nat_le};
ghost use Rattle.std.specs.List.{list_any, sum_by};
ghost use Rattle.pef_format.specs.Exports.{export_seen};
ghost use Rattle.pef_words.specs.Refusals.{first_met};
ghost use Rattle.cfm_stubs.specs.Kept.Tables.{symbol_seen};
ghost use Rattle.cfm_stubs.specs.Stubs.{FailsAs, exports_from, is_long, numbered, stub_refusal, symbol_tests};

use crate::fault::StubFault;
use crate::symbols::Symbols;
use pef_format::{ExportFields, ExportView, Named};
use std::alloc::Global;

/// The section of an absolute export.
const ABSOLUTE: i32 = -2;

/// A container has fewer exports: a slot of its table counts them in 14 bits.
const SYMBOLS_LIMIT: usize = 1 << 14;

/// The name of an export is shorter: its key has the length in 16 bits.
const NAME_LIMIT: usize = 1 << 16;

/// The most bytes of all names of a container together: an export has the place of its name in 24 bits.
const MOST_NAME_BYTES: usize = (1 << 24) - 1;

/// Returns the exports of a stub with some symbols, in their order. Each has a number, as an absolute value: the first symbol has
/// `first`, and each later one has `step` more than the one before it. So a number says which symbol it is.
///
/// # Errors
///
/// `TooManySymbols`, `LongName`, `TooManyNameBytes` and `PastLastNumber`, in this order, if no container can have them, and
/// `OutOfMemory`.
pub fn number<'a>(
    alloc: Global,
    symbols: &Symbols<'a>,
    first: u32,
    step: u32,
) -> Result<Vec<ExportView<'a>>, StubFault>
    ensures { MatchResult result (λ exports. (map export_seen exports.items ≡ exports_from first step symbols.entry.now) × (stub_refusal first step symbols.entry.now ≡ None)) (λ fault. FailsAs fault (stub_refusal first step symbols.entry.now)) }
{
    number_from(alloc, symbols, u64::from(first), step)
}

/// Returns the exports of a stub, with numbers from one on that may have more than 32 bits if there are no symbols.
pub(crate) fn number_from<'a>(
    alloc: Global,
    symbols: &Symbols<'a>,
    first: u64,
    step: u32,
) -> Result<Vec<ExportView<'a>>, StubFault>
    requires { first < 2 ^ 63 }
    ensures { MatchResult result (λ exports. (map export_seen exports.items ≡ exports_from first step symbols.entry.now) × (stub_refusal first step symbols.entry.now ≡ None)) (λ fault. FailsAs fault (stub_refusal first step symbols.entry.now)) }
{
    match fault_of(symbols) {
        Some(fault) => return Err(fault),
        None => {}
    }
    let mut exports = Vec::with_capacity(alloc, symbols.len())?;
    let mut next = first;
    for k in 0..symbols.len() {
        let (name, class) = symbols.at(k);
        if next > u64::from(u32::MAX) {
            return Err(StubFault::PastLastNumber);
        }
        let export = numbered(name, class, next as u32);
        exports.push(export)?;
        next += u64::from(step);
    }
    Ok(exports)
}

/// Returns a symbol with a number.
fn numbered(name: &[u8], class: u8, value: u32) -> ExportView<'_>
    ensures { export_seen result ≡ numbered value (symbol_seen (name.entry, class)) }
{
    let fields = ExportFields {
        class,
        section: ABSOLUTE,
        value,
    };
    Named { fields, name }
}

/// Returns why no container can have these symbols, or `None` if one can.
#[tactic(auto, unfolding(crate::specs::Stubs::symbol_tests))]
fn fault_of(symbols: &Symbols<'_>) -> Option<StubFault>
    ensures { result ≡ first_met (symbol_tests symbols.now) }
{
    if symbols.len() >= SYMBOLS_LIMIT {
        return Some(StubFault::TooManySymbols);
    }
    if has_long_name(symbols) {
        return Some(StubFault::LongName);
    }
    if has_many_bytes(symbols) {
        return Some(StubFault::TooManyNameBytes);
    }
    None
}

/// Returns whether a name is too long for an export.
fn has_long_name(symbols: &Symbols<'_>) -> bool
    ensures { result ≡ list_any is_long symbols.now }
{
    for k in 0..symbols.len() {
        let (name, _) = symbols.at(k);
        if name.len() >= NAME_LIMIT {
            return true;
        }
    }
    false
}

/// Returns whether the names are too long together.
fn has_many_bytes(symbols: &Symbols<'_>) -> bool
    ensures { result ≡ nat_le (2 ^ 24) (sum_by (λ s. length s.name) symbols.now) }
{
    let mut left = MOST_NAME_BYTES;
    for k in 0..symbols.len() {
        let (name, _) = symbols.at(k);
        if name.len() > left {
            return true;
        }
        left -= name.len();
    }
    false
}
