//! How many bytes a container needs.
ghost use Rattle.std.specs.Prelude.{◌≡◌};
ghost use Rattle.pef_views.specs.Partial.{partial_of};
ghost use Rattle.pef_views.specs.PartialViews.{partly};
ghost use Rattle.pef_inspect.specs.Needs.{needed_by, needed_of, own_bytes, section_end};

use pef_format::layout::CONTAINER_HEADER_SIZE;
use pef_views::{PartialContainer, SectionHeader};

/// How many bytes of a container are searched for signs of text. Its headers can say that it needs any number of bytes.
const SEARCHED: u64 = 65_536;

/// Returns how many bytes the headers and the sections of the container that begins some bytes need.
pub fn needed(bytes: &[u8]) -> u64
    ensures { result ≡ needed_of (partial_of bytes.now) }
{
    match PartialContainer::read(bytes) {
        Ok(container) => needed_by(&container),
        Err(_) => CONTAINER_HEADER_SIZE as u64,
    }
}

/// Returns how many bytes the headers and the raw bytes of the first sections need.
pub fn needed_by(container: &PartialContainer<'_>) -> u64
    ensures { result ≡ needed_by (partly container.now) }
{
    let mut end = container.names_start() as u64;
    for i in 0..container.header().section_count {
        end = end.max(section_end(container.section(usize::from(i))));
    }
    end
}

/// Returns where the raw bytes of a section end, or 0 if it has none.
fn section_end(section: Option<SectionHeader>) -> u64
    ensures { result ≡ section_end section }
{
    match section {
        Some(section) => {
            if section.packed_size == 0 {
                0
            } else {
                u64::from(section.container_offset) + u64::from(section.packed_size)
            }
        }
        None => 0,
    }
}

/// Returns the first bytes that a container needs and has.
pub(crate) fn own_bytes<'a>(container: &PartialContainer<'a>) -> &'a [u8]
    ensures { result.now ≡ own_bytes (partly container.now) }
{
    let bytes = container.bytes();
    let most = needed_by(container).min(SEARCHED) as usize;
    let (own, _) = bytes.split_at(most.min(bytes.len()));
    own
}
