//! The sections of a script with their raw bytes.
ghost use Rattle.std.specs.Prelude.{◌≡◌, ◌*◌, ◌≤◌, ◌^◌, IfOk, length};
ghost use Rattle.pef_script.specs.Views.{header_in};
ghost use Rattle.pef_write.specs.Containers.{raw_of};

use crate::fault::LinkFault;
use pef_pidata::pack;
use pef_script::{Script, Section, SectionHeader};
use std::alloc::Global;
use std::marker::Model;

/// A section of a script with its raw bytes in a container.
#[derive(Drop)]
pub(crate) struct RawSection<'s> {
    section: &'s Section<'s>,
    /// The packed image, if the section's kind is packed.
    packed: Option<Vec<u8>>,
}

impl<'s> Model for RawSection<'s> {
    ghost use Rattle.std.specs.Prelude.{◌≡◌, ◌≤◌, ◌^◌, length};
    ghost use Rattle.std.specs.Option.{option_map_or};
    ghost use Rattle.pef_script.specs.Script.{DescribedSection};
    ghost use Rattle.pef_write.specs.Containers.{raw_of};

    ghost Value = { DescribedSection };

    ghost view = { λ r. r.section.now };

    ghost invariant = { λ r. (length r.section.now.image ≤ 2 ^ 24) × (option_map_or (λ v. v.items) r.packed r.section.now.image ≡ raw_of r.section.now) };
}

impl<'s> RawSection<'s> {
    /// Packs a section's image if its kind is packed.
    fn new(alloc: Global, section: &'s Section<'s>) -> Result<RawSection<'s>, LinkFault>
        requires { length section.now.image ≤ 2 ^ 24 }
        ensures { IfOk result (λ raw. raw ≡ section.entry.now) }
    {
        let packed = if section.header.kind.is_packed() {
            Some(pack(alloc, &section.image)?)
        } else {
            None
        };
        Ok(RawSection { section, packed })
    }

    /// Returns the section without its image and its fixups.
    pub(crate) fn header(&self) -> SectionHeader<'s>
        ensures { header_in result ≡ self.now.header }
    {
        let section = self.section;
        section.header
    }

    /// Returns how many bytes the image has.
    pub(crate) fn image_len(&self) -> usize
        ensures len { result ≡ length self.now.image }
        ensures few { result ≤ 2 ^ 24 }
    {
        let section = self.section;
        section.image.len()
    }

    /// Returns the raw bytes: the image, packed if the section's kind is packed.
    pub(crate) fn bytes(&self) -> &[u8]
        ensures bytes { result.now ≡ raw_of self.now }
        ensures few { length result.now ≤ 2 * 2 ^ 24 }
    {
        let section = self.section;
        match &self.packed {
            Some(packed) => packed,
            None => &section.image,
        }
    }
}

/// Returns the sections of `script` with their raw bytes.
pub(crate) fn raw_sections<'s>(
    alloc: Global,
    script: &'s Script<'_>,
) -> Result<Vec<RawSection<'s>>, LinkFault>
    ensures { IfOk result (λ raws. raws.items ≡ script.entry.now.sections) }
{
    let sections = &script.parts().sections;
    let mut raws = Vec::with_capacity(alloc, sections.len())?;
    for section in sections {
        raws.push(RawSection::new(alloc, section)?)?;
    }
    Ok(raws)
}
