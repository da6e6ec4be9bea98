ghost use Rattle.cfm_memory.specs.Extents.{AreHeld};

use cfm_memory::{Memory, Place};

/// An iterator over the sections of a fragment, in order: the address and the bytes of each.
#[derive(Clone, Copy, Debug)]
pub struct Sections<'c> {
    pub(crate) memory: &'c Memory,
    pub(crate) places: &'c [Place],
    ghost held: { AreHeld memory.now places.now },
}

impl<'c> Iterator for Sections<'c> {
    ghost use Rattle.std.specs.Iterator.{YieldsFirstBy, item_count};
    ghost use Rattle.cfm_prepare.specs.Sections.{section_seen, sections_left};

    type Item = (u32, &'c [u8]);

    ghost next_gives = { YieldsFirstBy section_seen sections_left };

    ghost remaining = { item_count sections_left };

    fn next(&mut self) -> Option<(u32, &'c [u8])> {
        let (place, others) = self.places.split_first()?;
        self.places = others;
        Some((place.address, self.memory.part(*place)))
    }
}
