ghost use Rattle.std.specs.Prelude.{◌≡◌, drop};
ghost use Rattle.pef_script.specs.Text.Near.{are_exchanged, is_near, is_one_step, past_common};

/// Returns whether names are nearly the same: equal but for upper and lower case, or with one byte changed, left out or
/// added, or two neighbours exchanged.
#[tactic(auto, unfolding(crate::specs::Text::Near::is_near))]
pub fn is_near(one: &[u8], other: &[u8]) -> bool
    ensures { result ≡ is_near one.now other.now }
{
    if one.eq_ignore_ascii_case(other) {
        return true;
    }
    let (one_left, other_left) = past_common(one, other);
    is_one_step(one_left, other_left)
}

/// Returns what is left of two names after their longest common front.
fn past_common<'l>(one: &'l [u8], other: &'l [u8]) -> (&'l [u8], &'l [u8])
    ensures { (result.0.now, result.1.now) ≡ past_common one.entry.now other.entry.now }
{
    for at in 0..one.len() {
        if at >= other.len() || one[at] != other[at] {
            return (one.split_at(at).1, other.split_at(at).1);
        }
    }
    (one.split_at(one.len()).1, other.split_at(one.len()).1)
}

/// Returns whether the byte here is changed, left out of one of the names, or exchanged with the next one.
fn is_one_step(one: &[u8], other: &[u8]) -> bool
    ensures { result ≡ is_one_step (one.now, other.now) }
{
    let one_next = past_first(one);
    let other_next = past_first(other);
    one_next == other_next || one_next == other || one == other_next || are_exchanged(one, other)
}

/// Returns all but the first byte.
fn past_first(bytes: &[u8]) -> &[u8]
    ensures { result.now ≡ drop 1 bytes.now }
{
    match bytes.split_first() {
        Some((_, rest)) => rest,
        None => bytes,
    }
}

/// Returns whether the first two bytes are exchanged, and all others are the same.
fn are_exchanged(one: &[u8], other: &[u8]) -> bool
    ensures { result ≡ are_exchanged one.now other.now }
{
    let [x, y, one_rest @ ..] = one else {
        return false;
    };
    let [u, v, other_rest @ ..] = other else {
        return false;
    };
    *x == *v && *y == *u && one_rest == other_rest
}
