//! The rows of a resource fork. Nothing is allocated.
ghost use Rattle.std.specs.Prelude.{map};
ghost use Rattle.pef_c.specs.Files.Rows.{MapAnswers, ResourceAnswers, ResourcesAnswers};
ghost use Rattle.pef_records.specs.Files.Rows.{resource_shown};

use mac_resources::ResourceFork;
use pef_records::{
    NOT_THERE, PefResource, PefResourceMap, fill_resources, map_given, resource_given,
    resource_number,
};

/// Reads the header and the map of a resource fork.
///
/// Returns 0, or the number of the fork's error.
#[unsafe(no_mangle)]
pub extern "C" fn pef_resource_map(fork: &[u8], map: &mut PefResourceMap) -> u32
    ensures { MapAnswers fork.now map.old map.new result }
{
    match ResourceFork::read(fork) {
        Ok(fork) => {
            *map = map_given(fork);
            0
        }
        Err(fault) => resource_number(fault),
    }
}

/// Reads the resources from number `from` on into the first places, and counts them.
///
/// Returns 0, or the number of the fork's error.
#[unsafe(no_mangle)]
pub extern "C" fn pef_resources<'a>(
    fork: &'a [u8],
    from: usize,
    places: &mut [PefResource<'a>],
    count: &mut usize,
) -> u32
    ensures { ResourcesAnswers fork.entry.now from (map resource_shown places.old) (map resource_shown places.new) count.old count.new result }
{
    match ResourceFork::read(fork) {
        Ok(fork) => {
            *count = fill_resources(fork.resources(), from, places);
            0
        }
        Err(fault) => resource_number(fault),
    }
}

/// Reads the resource with a type and an id.
///
/// Returns 0, or the number of the fork's error, or 201 if there is no such resource.
#[unsafe(no_mangle)]
pub extern "C" fn pef_find_resource<'a>(
    fork: &'a [u8],
    type_code: u32,
    id: i16,
    resource: &mut PefResource<'a>,
) -> u32
    ensures { ResourceAnswers fork.entry.now type_code id (resource_shown resource.old) (resource_shown resource.new) result }
{
    let fork = match ResourceFork::read(fork) {
        Ok(fork) => fork,
        Err(fault) => return resource_number(fault),
    };
    match fork.find(type_code, id) {
        Some(found) => {
            *resource = resource_given(&found);
            0
        }
        None => NOT_THERE,
    }
}
