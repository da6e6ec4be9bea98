ghost use Rattle.std.specs.Prelude.{◌≡◌, ◌++◌, ◌≤◌, ℕ, List, OnOk, Option};
ghost use Rattle.std.specs.Option.{option_to_list};
ghost use Rattle.pef_words.specs.Findings.{all_among};
ghost use Rattle.pef_inspect.specs.Limits.{checked_within, left_within, less, within};
ghost use Rattle.pef_inspect.specs.declared.finding.Finding.{Finding};

use crate::finding::Finding;
use crate::sink::{Findings, take_some};

/// Parts that are looked at up to a limit of what that costs together.
pub(crate) trait Costed {
    /// What each part costs.
    ghost cost: { Self → ℕ → ℕ };

    /// Returns what is left of a limit after part `i`, unless the part costs more.
    fn rest(&self, i: u32, limit: u64) -> Option<u64>
        ensures { result ≡ less limit (cost self.now i) };
}

/// Parts that are checked.
pub(crate) trait Checked: Costed {
    /// The error of each part.
    ghost error: { Self → ℕ → Option Finding };

    /// The note that the parts from one on weren't checked.
    ghost unchecked: { Self → ℕ → Finding };

    /// Returns the error of part `i`.
    fn error(&self, i: u32) -> Option<Finding>
        ensures { result ≡ error self.now i };

    /// Returns the note that the parts from `i` on weren't checked.
    fn unchecked(&self, i: u32) -> Finding
        ensures { result ≡ unchecked self.now i };
}

/// How many parts are within a limit, and what is left of it after them.
#[derive(Clone, Copy, Debug)]
pub(crate) struct Reach {
    pub count: u32,
    pub left: u64,
}

/// Returns how many of the first `count` parts cost no more than `most` together.
pub(crate) fn within<C: Costed>(parts: &C, most: u64, count: u32) -> Reach
    ensures value { result.count ≡ within (C.cost parts.now) most 0 count }
    ensures left { result.left ≡ left_within (C.cost parts.now) most 0 count }
    ensures below { result.count ≤ count }
{
    let mut left = most;
    for i in 0..count {
        match parts.rest(i, left) {
            Some(rest) => left = rest,
            None => return Reach { count: i, left },
        }
    }
    Reach { count, left }
}

/// Returns what is left of a limit after a cost, unless the cost is more.
pub(crate) fn less(limit: u64, cost: u64) -> Option<u64>
    ensures { result ≡ less limit cost }
{
    if cost > limit {
        None
    } else {
        Some(limit - cost)
    }
}

/// Hands the errors of the first `count` parts to a sink, up to a limit of what they cost, and the note if the limit is passed.
pub(crate) fn check_within<C: Checked, S: Findings>(
    parts: &C,
    most: u64,
    count: u32,
    sink: &mut S,
) -> Result<(), S::Error>
    ensures { OnOk result (S.taken sink.new ≡ S.taken sink.old ++ checked_within (C.cost parts.now) (C.error parts.now) (C.unchecked parts.now) most count) }
{
    let reached = within(parts, most, count).count;
    check_each(parts, reached, sink)?;
    if reached < count {
        sink.take(parts.unchecked(reached))?;
        return Ok(());
    }
    Ok(())
}

/// Hands the errors of the first `count` parts to a sink.
fn check_each<C: Checked, S: Findings>(parts: &C, count: u32, sink: &mut S) -> Result<(), S::Error>
    ensures { OnOk result (S.taken sink.new ≡ S.taken sink.old ++ all_among (λ i. option_to_list (C.error parts.now i)) 0 count) }
{
    for i in 0..count {
        take_some(parts.error(i), sink)?;
    }
    Ok(())
}
