//! Containers. Each call reads them anew from their bytes, and allocates nothing.
ghost use Rattle.pef_c.specs.Containers.Container.{HeaderAnswers, SectionAnswers, SectionNameAnswers};

use pef_records::{NOT_THERE, PefHeader, PefSection, header_given, section_given, view_number};
use pef_views::Container;

/// Reads a container's header.
///
/// Returns 0, or the number of the first refusal.
#[unsafe(no_mangle)]
pub extern "C" fn pef_header(container: &[u8], header: &mut PefHeader) -> u32
    ensures { HeaderAnswers container.now header.old header.new result }
{
    let found = match Container::read(container) {
        Ok(container) => container.header(),
        Err(fault) => return view_number(fault),
    };
    *header = header_given(found);
    0
}

/// Reads a section, with its raw bytes: a part of the container.
///
/// Returns 0, or the number of the container's first refusal, or 201 past the last section.
#[unsafe(no_mangle)]
pub extern "C" fn pef_section<'a>(
    container: &'a [u8],
    index: usize,
    section: &mut PefSection,
    raw: &mut &'a [u8],
) -> u32
    ensures { SectionAnswers container.entry.now index section.old section.new raw.old.now raw.new.now result }
{
    let container = match Container::read(container) {
        Ok(container) => container,
        Err(fault) => return view_number(fault),
    };
    let Some(found) = container.section(index) else {
        return NOT_THERE;
    };
    *section = section_given(found.header);
    *raw = found.raw;
    0
}

/// Gives a section's name: a part of the container.
///
/// Returns 0, or the number of the container's first refusal, or 201 if there is no name.
#[unsafe(no_mangle)]
pub extern "C" fn pef_section_name<'a>(
    container: &'a [u8],
    index: usize,
    name: &mut &'a [u8],
) -> u32
    ensures { SectionNameAnswers container.entry.now index name.old.now name.new.now result }
{
    let container = match Container::read(container) {
        Ok(container) => container,
        Err(fault) => return view_number(fault),
    };
    match container.section_name(index) {
        Some(found) => {
            *name = found;
            0
        }
        None => NOT_THERE,
    }
}
