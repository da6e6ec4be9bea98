ghost use Rattle.std.specs.Prelude.{◌≡◌, IfOk, map};
ghost use Rattle.cfm_memory.specs.Extents.{place_at};

use cfm_memory::Place;
use std::alloc::{AllocError, Global};

/// Returns the addresses of some places, in order.
pub fn section_addresses(alloc: Global, places: &[Place]) -> Result<Vec<u32>, AllocError>
    ensures { IfOk result (λ addresses. addresses.items ≡ map (λ p. p.address) places.now) }
{
    let mut addresses = Vec::with_capacity(alloc, places.len())?;
    for place in places {
        addresses.push(place.address)?;
    }
    Ok(addresses)
}

/// Returns the address of a section of a fragment whose sections have these places, or 0 if there is no
/// such section.
pub fn section_address(places: &[Place], section: u32) -> u32
    ensures { result ≡ (place_at places.now section).address }
{
    match places.get(section as usize) {
        Some(place) => place.address,
        None => 0,
    }
}
