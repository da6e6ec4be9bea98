//! How far a container reaches.
ghost use Rattle.std.specs.Prelude.{◌≡◌, ◌≤◌, length, option_map};
ghost use Rattle.pef_views.specs.Container.{section_of};
ghost use Rattle.pef_views.specs.Views.{seen};
ghost use Rattle.pef_views.specs.Extents.{last_name, name_start, names_end, own_bytes, parts_end, raw_end};

use crate::container::Container;
use crate::header::names_at;
use crate::section::SectionView;

impl<'a> Container<'a> {
    ghost use Rattle.pef_views.specs.Views.{contained, seen};

    /// Returns the bytes of the container without those after it: up to the last byte of its headers, of its sections' raw bytes
    /// and of their names.
    ///
    /// The format has no length of a container. If no zero byte follows the last name, all bytes are the container's.
    #[tactic(auto, unfolding(crate::specs::Extents::own_bytes, crate::specs::Extents::extent))]
    pub fn own_bytes(&self) -> &'a [u8]
        ensures { result.now ≡ own_bytes (contained self.now) }
    {
        let bytes = self.cut.bytes();
        let extent = self.parts_end().max(self.names_end());
        let (own, _) = bytes.split_at(extent.min(bytes.len()));
        own
    }

    /// Returns where the headers and the raw bytes of the sections end.
    fn parts_end(&self) -> usize
        ensures { result ≡ parts_end (contained self.now) }
    {
        let count = usize::from(self.header.section_count);
        let mut end = names_at(self.header);
        for i in 0..count {
            end = end.max(raw_end(self.section(i)));
        }
        end
    }

    /// Returns where the names of the sections end, or 0 if there are none.
    ///
    /// A name ends no later than one that begins after it.
    fn names_end(&self) -> usize
        ensures { result ≡ names_end (contained self.now) (last_name (contained self.now)) }
    {
        let last = self.last_name();
        if last == 0 {
            return 0;
        }
        let len = self.cut.len();
        match self.cut.name_at(last) {
            Some(name) => last + name.len() + 1,
            None => len,
        }
    }

    /// Returns where the last name begins, or 0 if there are none.
    fn last_name(&self) -> usize
        ensures value { result ≡ last_name (contained self.now) }
        ensures bound { result ≤ length (contained self.now).bytes }
    {
        let count = usize::from(self.header.section_count);
        let mut last: usize = 0;
        for i in 0..count {
            last = last.max(self.name_start(i));
        }
        last
    }

    /// Returns where the name of section `i` begins, or 0 if there is none or if it would begin past the end.
    fn name_start(&self, i: usize) -> usize
        ensures value { result ≡ name_start (contained self.now) (section_of (contained self.now) i) }
        ensures bound { result ≤ length (contained self.now).bytes }
    {
        let Some(section) = self.section(i) else {
            return 0;
        };
        match usize::try_from(section.header.name_offset) {
            Ok(offset) => {
                let start = names_at(self.header) + offset;
                if start < self.cut.len() { start } else { 0 }
            }
            Err(_) => 0,
        }
    }
}

/// Returns where the raw bytes of a section end, or 0 if it has none.
fn raw_end(section: Option<SectionView<'_>>) -> usize
    ensures { result ≡ raw_end (option_map seen section.entry) }
{
    match section {
        Some(section) => {
            let header = section.header;
            if header.packed_size == 0 {
                0
            } else {
                header.container_offset as usize + header.packed_size as usize
            }
        }
        None => 0,
    }
}
