ghost use Rattle.std.specs.Prelude.{◌≡◌, ◌≤◌, ◌<◌, ◌^◌, ℕ, true, IfOk, OnOk, length, nat_lt};
ghost use Rattle.cfm_prepare.specs.Lists.{IsOnce, has};
ghost use Rattle.cfm_prepare.specs.Fragments.{all_given_back};
ghost use Rattle.cfm_prepare.specs.Kept.Users.{AreUsedBut, CountsMore, count_at, unshared_among, unused_of, used_of};

use crate::fragments::Fragments;
use std::alloc::{AllocError, Global};

/// Makes room for the counts of this many fragments.
pub(crate) fn make_room(users: &mut Vec<usize>, fragments: usize) -> Result<(), AllocError>
    ensures room { OnOk result (fragments ≤ length users.new.items) }
    ensures same { (p : ℕ) → count_at users.new.items p ≡ count_at users.old.items p }
{
    if users.len() < fragments {
        users.resize(fragments, 0)?;
    }
    Ok(())
}

/// Returns whether a fragment is in use.
fn has_users(users: &[usize], position: usize) -> bool
    ensures { result ≡ nat_lt 0 (count_at users.now position) }
{
    match users.get(position) {
        Some(count) => *count > 0,
        None => false,
    }
}

/// Returns whether a fragment has more than one user.
fn is_shared(users: &[usize], position: usize) -> bool
    ensures { result ≡ nat_lt 1 (count_at users.now position) }
{
    match users.get(position) {
        Some(count) => *count > 1,
        None => false,
    }
}

/// Returns the fragments of an order that have one user at most, in this order.
pub(crate) fn unshared_among(
    alloc: Global,
    users: &[usize],
    order: &[usize],
) -> Result<Vec<usize>, AllocError>
    ensures { IfOk result (λ unshared. unshared.items ≡ unshared_among users.now order.now) }
{
    let mut unshared = Vec::new(alloc);
    for position in order {
        if !is_shared(users, *position) {
            unshared.push(*position)?;
        }
    }
    Ok(unshared)
}

/// Counts one more user for each fragment of an order.
pub(crate) fn enter(users: &mut Vec<usize>, order: &[usize])
    requires once { IsOnce order.now }
    requires inside { (p : ℕ) → has order.now p ≡ true → p < length users.old.items }
    requires few { (p : ℕ) → count_at users.old.items p < 2 ^ 63 }
    ensures { CountsMore order.now users.old.items users.new.items }
{
    for position in order {
        users[*position] += 1;
    }
}

/// Counts one user less for each fragment of an order.
pub(crate) fn leave(users: &mut Vec<usize>, order: &[usize])
    requires once { IsOnce order.now }
    requires used { (p : ℕ) → has order.now p ≡ true → 0 < count_at users.old.items p }
    ensures { CountsMore order.now users.new.items users.old.items }
{
    for position in order {
        users[*position] -= 1;
    }
}

/// Releases the fragments of an order that have no users. All other fragments have some.
pub(crate) fn release(fragments: &mut Fragments, users: &[usize], order: &[usize])
    requires { AreUsedBut users.now fragments.old.present order.now }
    ensures present { fragments.new.present ≡ used_of users.now fragments.old.present }
    ensures memory { fragments.new.memory ≡ all_given_back fragments.old.memory (unused_of users.now fragments.old.present) }
{
    for position in order {
        if !has_users(users, *position) {
            fragments.give_back(*position);
        }
    }
}
