//! Helpers of tests over linked scripts: they link scripts, and make fragments of them.
#![tactic(auto)]

pub mod fragments;

use pef_script::Script;
use pef_write::{LinkedContainer, link_container};
use std::alloc::Global;

/// Links a script. `None` if it is refused, or an allocation fails.
pub fn link_text(alloc: Global, text: &[u8]) -> Option<LinkedContainer> {
    let script = Script::read(alloc, text).ok()?;
    link_container(alloc, &script).ok()
}
