ghost use Rattle.std.specs.Prelude.{◌≡◌};
ghost use Rattle.pef_format.specs.Entries.{entry_point, is_entry_section};

use crate::layout::NO_SECTION;

/// Where a fragment is entered: its main symbol, its initialization routine or its termination routine.
#[derive(Clone, Copy, Debug, PartialEq, Eq)]
pub struct EntryPoint {
    /// The number of the section.
    pub section: u32,
    /// The offset in the section, in bytes.
    pub offset: u32,
}

impl EntryPoint {
    /// Returns what two fields of a loader header mean (such as mainSection and mainOffset of
    /// PEFLoaderInfoHeader), or `None` for a negative section: -1, for no entry point.
    pub fn from_fields(section: i32, offset: u32) -> Option<EntryPoint>
        ensures { result ≡ entry_point section offset }
    {
        if section < 0 {
            return None;
        }
        Some(EntryPoint {
            section: section.cast_unsigned(),
            offset,
        })
    }
}

/// Returns whether the format gives a section number to entry points: that of a section, or -1 for
/// none.
pub fn is_entry_section(section: i32) -> bool
    ensures { result ≡ is_entry_section section }
{
    section >= 0 || section == NO_SECTION
}
