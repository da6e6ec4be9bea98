//! The rows of a table of fragments, and a search for containers. Nothing is allocated.
ghost use Rattle.std.specs.Prelude.{map};
ghost use Rattle.pef_c.specs.Files.Rows.{FindsContainers, MembersAnswers};
ghost use Rattle.pef_records.specs.Files.Rows.{member_shown};

use cfm_members::{Containers, FragmentTable};
use pef_records::{PefMember, fill_members, fill_places, member_number};

/// Reads the members of a table of fragments from number `from` on into the first places, each with its container in a
/// data fork, and counts them.
///
/// Returns 0, or the number of the table's error.
#[unsafe(no_mangle)]
pub extern "C" fn pef_members<'a>(
    table: &'a [u8],
    data_fork: &'a [u8],
    from: usize,
    places: &mut [PefMember<'a>],
    count: &mut usize,
) -> u32
    ensures { MembersAnswers table.entry.now data_fork.entry.now from (map member_shown places.old) (map member_shown places.new) count.old count.new result }
{
    match FragmentTable::read(table) {
        Ok(table) => {
            *count = fill_members(table.members(), data_fork, from, places);
            0
        }
        Err(fault) => member_number(fault),
    }
}

/// Finds the places in some bytes where a container begins, from number `from` on, and counts them.
///
/// Returns 0.
#[unsafe(no_mangle)]
pub extern "C" fn pef_find_containers(
    bytes: &[u8],
    from: usize,
    places: &mut [usize],
    count: &mut usize,
) -> u32
    ensures { FindsContainers bytes.now from places.old places.new count.new result }
{
    *count = fill_places(Containers::new(bytes), from, places);
    0
}
