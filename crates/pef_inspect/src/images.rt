ghost use Rattle.std.specs.Prelude.{◌≡◌, ◌++◌, OnOk};
ghost use Rattle.pef_views.specs.PartialViews.{partly};
ghost use Rattle.pef_inspect.specs.Errors.{image_errors, packed_at};
ghost use Rattle.pef_inspect.specs.Findings.{image_finding};
ghost use Rattle.pef_inspect.specs.Left.{left_packed};

use crate::checked::{Checked, Costed, Reach, check_within, less, within};
use crate::finding::{Cause, Finding};
use crate::limits::Limits;
use crate::note::Note;
use crate::sink::Findings;
use pef_format::Part;
use pef_format::layout::PACKED_SIZE_AT;
use pef_loader::partial_place;
use pef_pidata::{PackFault, verify};
use pef_views::{PartialContainer, SectionHeader};

/// The pattern-initialized sections of a container.
#[derive(Clone, Copy)]
struct Images<'c, 'a> {
    container: &'c PartialContainer<'a>,
}

impl<'c, 'a> Costed for Images<'c, 'a> {
    ghost use Rattle.pef_views.specs.PartialViews.{partly};
    ghost use Rattle.pef_inspect.specs.Errors.{image_cost};

    ghost cost = { λ parts i. image_cost (partly parts.container.now) i };

    fn rest(&self, i: u32, limit: u64) -> Option<u64> {
        match packed_section(self.container, i) {
            Some(section) => less(limit, u64::from(section.packed_size)),
            None => Some(limit),
        }
    }
}

impl<'c, 'a> Checked for Images<'c, 'a> {
    ghost use Rattle.pef_views.specs.PartialViews.{partly};
    ghost use Rattle.pef_inspect.specs.Errors.{image_error, images_unverified};

    ghost error = { λ parts i. image_error (partly parts.container.now) i };

    ghost unchecked = { λ parts i. images_unverified (partly parts.container.now) i };

    fn error(&self, i: u32) -> Option<Finding> {
        let section = packed_section(self.container, i)?;
        let packed = self.container.raw(i as usize)?;
        match verify(packed, section.unpacked_size as usize) {
            Ok(()) => None,
            Err(fault) => Some(image_finding(self.container, i, fault)),
        }
    }

    fn unchecked(&self, i: u32) -> Finding {
        Finding::of_note(
            Note::ImagesUnverified,
            partial_place(self.container, Part::Section, i, PACKED_SIZE_AT),
        )
    }
}

/// Hands the error of each section whose packed data doesn't spell its image to a sink. Sections that extend past the end of
/// the container have no packed data to test.
pub(crate) fn find_in_images<S: Findings>(
    container: &PartialContainer<'_>,
    limits: Limits,
    sink: &mut S,
) -> Result<(), S::Error>
    ensures { OnOk result (S.taken sink.new ≡ S.taken sink.old ++ image_errors limits (partly container.now)) }
{
    let count = u32::from(container.header().instantiated_section_count);
    check_within(&Images { container }, limits.packed_bytes, count, sink)
}

/// Returns how many sections have their packed data verified, if it is packed, and what is left of the limit.
pub(crate) fn images_within(limits: Limits, container: &PartialContainer<'_>) -> Reach
    ensures { result.left ≡ left_packed limits (partly container.now) }
{
    let count = u32::from(container.header().instantiated_section_count);
    within(&Images { container }, limits.packed_bytes, count)
}

/// Returns the header of section `i`, if it is pattern-initialized and all its raw bytes are there.
fn packed_section(container: &PartialContainer<'_>, i: u32) -> Option<SectionHeader>
    ensures { result ≡ packed_at (partly container.now) i }
{
    let section = container.section(i as usize)?;
    let packed = container.raw(i as usize)?;
    if section.kind().is_packed() && packed.len() >= section.packed_size as usize {
        Some(section)
    } else {
        None
    }
}

/// Returns the error of the packed data of section `i`.
fn image_finding(container: &PartialContainer<'_>, i: u32, fault: PackFault) -> Finding
    ensures { result ≡ image_finding (partly container.now) i fault }
{
    let at = fault.offset().unwrap_or(0);
    Finding {
        cause: Cause::Pack(fault),
        place: partial_place(container, Part::PackedData, i, at),
    }
}
