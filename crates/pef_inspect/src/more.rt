ghost use Rattle.std.specs.Prelude.{IfOk};
ghost use Rattle.pef_inspect.specs.More.{AreMore, AreMoreWithin};

use crate::extents::add_extents;
use crate::finding::Finding;
use crate::limits::Limits;
use crate::loader_parts::add_gaps;
use crate::twice::add_twice;
use pef_views::PartialContainer;
use std::alloc::{AllocError, Allocator};

/// Returns the notes that need memory: bytes that two parts have, bytes between parts that belong to none, bytes after the
/// last part, bytes of the loader section that belong to none of its parts, and the first word of each program to which it or an earlier one has already added. Programs with too many words
/// together aren't searched for such words, and the note on programs that weren't verified says from which one on.
///
/// # Errors
///
/// Only want of memory.
#[tactic(auto, unfolding(crate::specs::More::AreMore))]
pub fn find_more_notes<A: Allocator + Copy>(
    alloc: A,
    bytes: &[u8],
) -> Result<Vec<Finding, A>, AllocError>
    ensures { IfOk result (λ found. AreMore bytes.now found.items) }
{
    find_more_notes_within(alloc, bytes, Limits::for_container())
}

/// Returns the notes that need memory as [`find_more_notes`] does, within any limits.
///
/// # Errors
///
/// Only want of memory.
#[tactic(auto, unfolding(crate::specs::More::AreMoreWithin))]
pub fn find_more_notes_within<A: Allocator + Copy>(
    alloc: A,
    bytes: &[u8],
    limits: Limits,
) -> Result<Vec<Finding, A>, AllocError>
    ensures { IfOk result (λ found. AreMoreWithin limits bytes.now found.items) }
{
    let mut found = Vec::new(alloc);
    match PartialContainer::read(bytes) {
        Ok(container) => {
            add_extents(alloc, &container, &mut found)?;
            add_gaps(alloc, &container, &mut found)?;
            add_twice(alloc, &container, limits, &mut found)?;
            Ok(found)
        }
        Err(_) => Ok(found),
    }
}
