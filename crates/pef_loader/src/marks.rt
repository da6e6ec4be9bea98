//! Marks in some bytes, for names that end with a zero byte. Many rows can share one long name or its end, and a search for each
//! of them would take very long. So places a step apart are marked with the first zero byte from there on, and no search goes past
//! the next marked place.
ghost use Rattle.std.specs.Prelude.{◌≡◌, ◌≢◌, ◌+◌, ◌-◌, ◌*◌, ◌^◌, ◌<◌, ◌≤◌, IfSome, None, length, slice_index};
ghost use Rattle.std.specs.Option.{IfNone};
ghost use Rattle.pef_loader.specs.Kept.Marks.{AreAllMarked, AreMarks, AreNonzero, FindsZero, IsFirstZero, TellsEnd};

use memchr::memchr;
use pef_words::Cut;

/// How many places a view marks when it is made. A view is copied often.
pub(crate) const MARKS: usize = 64;

/// The mark of a place from which on the first zero byte isn't known.
pub(crate) const NO_MARK: u32 = u32::MAX;

/// The greatest power of a step. So none of `MARKS` places wraps.
const MAX_POWER: u32 = 58;

/// Returns how far places are apart, as a power of two, if `marks` of them reach to the end of `len` bytes. Each search divides by
/// the step, and by another number that takes longer than all else of a short search.
pub(crate) fn step_power(len: usize, marks: usize) -> u32
    requires { 0 < marks }
    ensures { result ≤ 58 }
{
    let least = len / marks;
    (usize::BITS - least.leading_zeros()).min(MAX_POWER)
}

/// Returns two to a power.
#[inline(always)]
pub(crate) fn step_of(power: u32) -> usize
    requires { power ≤ 58 }
    ensures step { result ≡ 2 ^ power }
    ensures some { 0 < result }
    ensures few { result ≤ 2 ^ 58 }
{
    1 << power
}

/// Returns the first zero byte from `from` on and before `to`.
pub(crate) fn zero_between(cut: Cut<'_>, from: usize, to: usize) -> Option<usize>
    requires order { from ≤ to }
    requires inside { to ≤ length cut.bytes.now }
    ensures { FindsZero cut.entry.bytes.now from to result }
{
    match memchr(0, &cut.bytes()[from..to]) {
        Some(at) => Some(from + at),
        None => None,
    }
}

/// Returns the marks of places a step apart, of which the first is the first byte. It searches each byte at most once.
pub(crate) fn mark_places(cut: Cut<'_>, step: usize) -> [u32; MARKS]
    requires { step ≤ 2 ^ 58 }
    ensures marks { AreMarks cut.entry.bytes.now step result }
    ensures all { AreAllMarked cut.entry.bytes.now step (64 * step) result }
{
    let mut marks = [NO_MARK; MARKS];
    let mut next = None;
    for k in (0..MARKS).rev() {
        next = zero_from(cut, k * step, step, next);
        marks[k] = mark_of(next);
    }
    marks
}

/// Returns the first zero byte from a place on, if it is before the place a step later, or that of this later place is known.
fn zero_from(cut: Cut<'_>, place: usize, step: usize, next: Option<usize>) -> Option<usize>
    requires { IfSome next (IsFirstZero cut.bytes.now (place + step)) }
    ensures first { IfSome result (IsFirstZero cut.entry.bytes.now place) }
    ensures none { IfNone result ((next ≡ None) × AreNonzero cut.entry.bytes.now place (place + step)) }
{
    let from = place.min(cut.len());
    let to = from + step.min(cut.len() - from);
    match zero_between(cut, from, to) {
        Some(end) => Some(end),
        None => next,
    }
}

/// Returns the mark for the first zero byte from a place on. Past 4 GB there is none.
pub(crate) fn mark_of(end: Option<usize>) -> u32
    ensures known { result ≢ 2 ^ 32 - 1 → end ≡ Some result }
    ensures kept { IfSome end (λ at. at < 2 ^ 32 - 1 → result ≡ at) }
{
    match end {
        Some(end) => u32::try_from(end).unwrap_or(NO_MARK),
        None => NO_MARK,
    }
}

/// Returns the first zero byte from `from` on, if it is before the next place or that place is marked.
pub(crate) fn known_end(cut: Cut<'_>, power: u32, marks: &[u32], from: usize) -> Option<usize>
    requires power { power ≤ 58 }
    requires marks { AreMarks cut.bytes.now (2 ^ power) marks.now }
    requires inside { from < length cut.bytes.now }
    ensures { TellsEnd cut.entry.bytes.now (2 ^ power) from result }
{
    let step = step_of(power);
    let near = (step - from % step).min(cut.len() - from);
    match zero_between(cut, from, from + near) {
        Some(end) => Some(end),
        None => known_mark(marks, from / step + 1),
    }
}

/// Returns the mark of place `k`, if it is known.
fn known_mark(marks: &[u32], k: usize) -> Option<usize>
    ensures { IfSome result (λ end. (k < length marks.now) × (slice_index marks.now k ≡ end) × (end ≢ 2 ^ 32 - 1)) }
{
    match marks.get(k) {
        Some(mark) if *mark != NO_MARK => Some(*mark as usize),
        _ => None,
    }
}
