ghost use Rattle.std.specs.Prelude.{◌≡◌, Contains, IfOk};
ghost use Rattle.cfm_closure.specs.Fragments.{import_count};
ghost use Rattle.cfm_prepare.specs.Addresses.{addresses_from, target_address};

use crate::slots::Slots;
use cfm_closure::{Closure, Target};
use cfm_sections::section_address;
use std::alloc::{AllocError, Global};

/// Returns the addresses of the targets of a fragment's imports.
pub(crate) fn import_addresses(
    alloc: Global,
    closure: &Closure<'_>,
    present: &Slots,
    position: usize,
) -> Result<Vec<u32>, AllocError>
    requires { Contains closure.now.order position }
    ensures { IfOk result (λ addresses. addresses.items ≡ addresses_from closure.now.pairs present.now.items position 0 (import_count closure.now.pairs position)) }
{
    let count = closure.loader(position).imports();
    let mut addresses = Vec::with_capacity(alloc, count)?;
    for import in 0..count {
        let target = closure.target(position, import);
        addresses.push(target_address(present, target))?;
    }
    Ok(addresses)
}

/// Returns the address of a target.
pub(crate) fn target_address(present: &Slots, target: Option<Target>) -> u32
    ensures { result ≡ target_address present.now.items target }
{
    match target {
        None => 0,
        Some(Target::Absolute(number)) => number,
        Some(
            Target::At {
                fragment,
                section,
                offset,
            },
        ) => section_address(present.places(fragment), section).wrapping_add(offset),
    }
}
