//! Containers that may be damaged, as far as they can be read: the header and the sections, and the header of the loader
//! section. Nothing is allocated.
ghost use Rattle.std.specs.Prelude.{◌≡◌, ◌==◌, false, IfErr};
ghost use Rattle.pef_words.specs.Refusals.{result_map};
ghost use Rattle.pef_loader.specs.PartialViews.{partly_loaded};
ghost use Rattle.pef_c.specs.Containers.Partial.{PartHeaderAnswers, PartLoaderAnswers, PartNameAnswers, PartSectionAnswers, ReadsPart};

use pef_loader::PartialLoader;
use pef_records::{
    NOT_THERE, PefHeader, PefLoader, PefSection, header_given, loader_given, loader_number,
    section_given, view_number,
};
use pef_views::PartialContainer;

/// Reads the header of a container that may be damaged.
///
/// Returns 0, or 1 or 2 if the bytes have no such header.
#[unsafe(no_mangle)]
pub extern "C" fn pef_partial_header(container: &[u8], header: &mut PefHeader) -> u32
    ensures { PartHeaderAnswers container.now header.old header.new result }
{
    match PartialContainer::read(container) {
        Ok(container) => {
            *header = header_given(container.header());
            0
        }
        Err(fault) => view_number(fault),
    }
}

/// Reads a section of a container that may be damaged, with its raw bytes as far as they are there: a part of the container.
///
/// Returns 0, or 1 or 2 as [`pef_partial_header`], or 201 past the last section and if its header isn't in the bytes.
#[unsafe(no_mangle)]
pub extern "C" fn pef_partial_section<'a>(
    container: &'a [u8],
    index: usize,
    section: &mut PefSection,
    raw: &mut &'a [u8],
) -> u32
    ensures { PartSectionAnswers container.entry.now index section.old section.new raw.old.now raw.new.now result }
{
    let container = match PartialContainer::read(container) {
        Ok(container) => container,
        Err(fault) => return view_number(fault),
    };
    let Some(header) = container.section(index) else {
        return NOT_THERE;
    };
    let Some(bytes) = container.raw(index) else {
        unreachable!()
    };
    *section = section_given(header);
    *raw = bytes;
    0
}

/// Gives the name of a section of a container that may be damaged: a part of the container.
///
/// Returns 0, or 1 or 2 as [`pef_partial_header`], or 201 if there is no name.
#[unsafe(no_mangle)]
pub extern "C" fn pef_partial_section_name<'a>(
    container: &'a [u8],
    index: usize,
    name: &mut &'a [u8],
) -> u32
    ensures { PartNameAnswers container.entry.now index name.old.now name.new.now result }
{
    let container = match PartialContainer::read(container) {
        Ok(container) => container,
        Err(fault) => return view_number(fault),
    };
    match container.section_name(index) {
        Some(found) => {
            *name = found;
            0
        }
        None => NOT_THERE,
    }
}

/// Reads the header of a loader section that may be damaged.
///
/// Returns 0, or 1 or 2 as [`pef_partial_header`], or 11 if there is no such header.
#[unsafe(no_mangle)]
pub extern "C" fn pef_partial_loader(container: &[u8], loader: &mut PefLoader) -> u32
    ensures { PartLoaderAnswers container.now loader.old loader.new result }
{
    let header = match read_part(container) {
        Ok(loader) => loader.header(),
        Err(number) => return number,
    };
    *loader = loader_given(header);
    0
}

/// Reads what can be read of the loader section of a container, or returns the number of the reason why nothing can.
pub(crate) fn read_part<'a>(container: &'a [u8]) -> Result<PartialLoader<'a>, u32>
    ensures reads { ReadsPart container.entry.now (result_map partly_loaded result) }
    ensures refused { IfErr result (λ number. (number == 0) ≡ false) }
{
    let container = match PartialContainer::read(container) {
        Ok(container) => container,
        Err(fault) => return Err(view_number(fault)),
    };
    match PartialLoader::read(&container) {
        Ok(loader) => Ok(loader),
        Err(fault) => Err(loader_number(fault)),
    }
}
