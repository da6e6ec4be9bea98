ghost use Rattle.std.specs.Prelude.{◌≡◌, ◌+◌, ◌*◌, ◌^◌, ◌<◌, ◌≤◌, [], ◌∷◌, ◌++◌, false, length, map, slice_get, IfOk, IfSome, OnErr, OnOk};
ghost use Rattle.std.specs.List.{fold};
ghost use Rattle.std.specs.Option.{option_map_or};
ghost use Rattle.std.specs.Str.{bytes_eq};
ghost use Rattle.pef_script.specs.Views.{header_in};
ghost use Rattle.pef_script.specs.Text.Contents.{overlaps, placed, with_fixups, with_image};
ghost use Rattle.pef_script.specs.Text.Kept.Sections.{AreApart, HaveMarks, fixups_in};
ghost use Rattle.pef_script.specs.Text.SoFar.{number_of_name};

use crate::text::marks::Marks;
use crate::{Section, SectionHeader};
use pef_lines::Pairs;
use pef_reloc::{Base, Fixup, WORD};
use std::alloc::{AllocError, Global};
use std::collections::BTreeMap;
use std::marker::Model;

/// A section while lines are read.
#[derive(Drop)]
pub struct SectionSoFar<'a> {
    pub header: SectionHeader<'a>,
    pub image: Vec<u8>,
    pub fixups: FixupsSoFar,
}

impl<'a> Model for SectionSoFar<'a> {
    ghost use Rattle.pef_script.specs.Script.{DescribedSection};
    ghost use Rattle.pef_script.specs.Views.{header_in};

    ghost Value = { DescribedSection };

    ghost view = { λ s. record {
      header = header_in s.header;
      image = s.image.items;
      fixups = s.fixups;
    } };
}

impl<'a> SectionSoFar<'a> {
    /// Returns a section without bytes or fixups.
    pub fn new(alloc: Global, header: SectionHeader<'a>) -> SectionSoFar<'a>
        ensures { result ≡ record { header = header_in header.entry; image = []; fixups = [] } }
    {
        SectionSoFar {
            header,
            image: Vec::new(alloc),
            fixups: FixupsSoFar::new(alloc, header.total),
        }
    }

    /// Appends the bytes that pairs of hex digits spell to the image.
    pub fn append(&mut self, pairs: Pairs) -> Result<(), AllocError>
        ensures appended { OnOk result (self.new ≡ with_image self.old pairs.entry) }
        ensures header { self.new.header ≡ self.old.header }
    {
        pairs.append_to(&mut self.image)
    }

    /// Adds fixups that don't overlap others.
    #[inline(always)]
    pub fn add_fixups(&mut self, fixups: &[Fixup]) -> Result<(), AllocError>
        requires { AreApart self.old.fixups fixups.now }
        ensures added { OnOk result (self.new ≡ with_fixups self.old fixups.now) }
        ensures header { self.new.header ≡ self.old.header }
    {
        self.fixups.add_all(fixups)
    }

    /// Returns the section, with its fixups in address order.
    pub fn into_section(self, alloc: Global) -> Result<Section<'a>, AllocError>
        ensures { IfOk result (λ section. section ≡ self.entry) }
    {
        let fixups = self.fixups.into_list(alloc)?;
        Ok(Section {
            header: self.header,
            image: self.image,
            fixups,
        })
    }
}

/// The greatest total of a section that has marks, which take a quarter of it.
const MAX_MARKED: u32 = 0x0040_0000;

/// The fixups of a section while lines are read. They may come in any order, but nearly always their offsets
/// rise.
#[derive(Drop)]
pub struct FixupsSoFar {
    /// How many bytes the section has.
    total: u32,
    /// The fixups in the order of their lines, unless a map has them.
    fixups: Vec<Fixup>,
    order: Order,
}

/// How the fixups of a section come, with what finds the overlaps.
#[derive(Drop)]
pub enum Order {
    /// Each begins after those before it. This is the end of the last one.
    Rising(u64),
    /// They come in any order.
    Marked(Marks),
    /// They come in any order, and the section is so large that marks would take too much memory. These are
    /// their bases by their offsets.
    Mapped(BTreeMap<u32, Base>),
}

impl Model for FixupsSoFar {
    ghost use Rattle.std.specs.Prelude.{List};
    ghost use Rattle.pef_reloc.specs.declared.fixup.Fixup.{Fixup};
    ghost use Rattle.pef_script.specs.Text.Kept.Sections.{IsKept, fixups_kept};

    ghost Value = { List Fixup };

    ghost view = { λ s. fixups_kept s.fixups.items s.order };

    ghost invariant = { λ s. IsKept s.fixups.items s.order };
}

impl FixupsSoFar {
    /// Returns no fixups, of a section with this many bytes.
    pub fn new(alloc: Global, total: u32) -> FixupsSoFar
        ensures { result ≡ [] }
    {
        FixupsSoFar {
            total,
            fixups: Vec::new(alloc),
            order: Order::Rising(0),
        }
    }

    /// Returns how many there are.
    pub fn len(&self) -> usize
        ensures is { result ≡ length self.now }
        ensures small { result < 2 ^ 63 }
    {
        match &self.order {
            Order::Rising(_) | Order::Marked(_) => self.fixups.len(),
            Order::Mapped(bases) => bases.len(),
        }
    }

    /// Returns whether a fixup's word overlaps one of `count` words from an offset.
    pub fn overlaps(&self, offset: u32, count: u8) -> bool
        requires { offset + 4 * count < 2 ^ 32 }
        ensures { result ≡ overlaps self.now offset count }
    {
        match &self.order {
            // This search happens at most once: its fixup is refused, or it ends the rising order.
            Order::Rising(end) => {
                u64::from(offset) < *end && overlaps_any(&self.fixups, offset, count)
            }
            Order::Marked(marks) => marks.overlaps(offset, count),
            Order::Mapped(bases) => overlaps_placed(bases, offset, count),
        }
    }

    /// Adds fixups that don't overlap others.
    #[inline(always)]
    fn add_all(&mut self, fixups: &[Fixup]) -> Result<(), AllocError>
        requires { AreApart self.old fixups.now }
        ensures { OnOk result (self.new ≡ fold placed self.old fixups.now) }
    {
        for fixup in fixups {
            self.add(*fixup)?;
        }
        Ok(())
    }

    /// Adds a fixup that doesn't overlap another.
    #[inline(always)]
    fn add(&mut self, fixup: Fixup) -> Result<(), AllocError>
        requires { overlaps self.old fixup.offset 1 ≡ false }
        ensures { OnOk result (self.new ≡ placed self.old fixup) }
    {
        match &mut self.order {
            Order::Rising(end) if u64::from(fixup.offset) >= *end => {
                self.fixups.push(fixup)?;
                *end = u64::from(fixup.offset) + u64::from(WORD);
                Ok(())
            }
            _ => self.add_in_any_order(fixup),
        }
    }

    /// Adds a fixup that may begin before others.
    #[inline(never)]
    fn add_in_any_order(&mut self, fixup: Fixup) -> Result<(), AllocError>
        requires { overlaps self.old fixup.offset 1 ≡ false }
        ensures { OnOk result (self.new ≡ placed self.old fixup) }
    {
        match &mut self.order {
            Order::Marked(marks) => add_marked(&mut self.fixups, marks, fixup),
            Order::Mapped(bases) => {
                bases.insert(fixup.offset, fixup.base)?;
                Ok(())
            }
            Order::Rising(_) => {
                if self.total <= MAX_MARKED {
                    self.order = Order::Marked(marked(&mut self.fixups, fixup)?);
                } else {
                    self.order = Order::Mapped(mapped(&self.fixups, fixup)?);
                    self.fixups.clear();
                }
                Ok(())
            }
        }
    }

    /// Returns the fixups in address order.
    fn into_list(self, alloc: Global) -> Result<Vec<Fixup>, AllocError>
        ensures { IfOk result (λ fixups. fixups.items ≡ self) }
    {
        let FixupsSoFar { fixups, order, .. } = self;
        match order {
            Order::Rising(_) => Ok(fixups),
            Order::Marked(_) => Ok(sorted(fixups)),
            Order::Mapped(bases) => listed(alloc, bases),
        }
    }
}

/// Adds a fixup that doesn't overlap another, with its mark.
fn add_marked(fixups: &mut Vec<Fixup>, marks: &mut Marks, fixup: Fixup) -> Result<(), AllocError>
    requires marked { HaveMarks fixups.old.items marks.old.leads.items }
    requires free { overlaps fixups.old.items fixup.offset 1 ≡ false }
    ensures kept { HaveMarks fixups.new.items marks.new.leads.items }
    ensures added { OnOk result (fixups.new.items ≡ fixups.old.items ++ fixup ∷ []) }
    ensures same { OnErr result (fixups.new.items ≡ fixups.old.items) }
{
    marks.make_room(fixup.offset)?;
    fixups.push(fixup)?;
    marks.put(fixup.offset);
    Ok(())
}

/// Adds a fixup that doesn't overlap another to some that have no marks, and returns the marks of all.
fn marked(fixups: &mut Vec<Fixup>, fixup: Fixup) -> Result<Marks, AllocError>
    requires apart { AreApart [] fixups.old.items }
    requires free { overlaps fixups.old.items fixup.offset 1 ≡ false }
    ensures kept { IfOk result (λ marks. HaveMarks fixups.new.items marks.leads.items) }
    ensures added { OnOk result (fixups.new.items ≡ fixups.old.items ++ fixup ∷ []) }
    ensures same { OnErr result (fixups.new.items ≡ fixups.old.items) }
{
    let mut marks = Marks::of(*fixups.allocator(), fixups)?;
    add_marked(fixups, &mut marks, fixup)?;
    Ok(marks)
}

/// Returns the bases of fixups by their offsets, with one more fixup that doesn't overlap another.
fn mapped(fixups: &Vec<Fixup>, fixup: Fixup) -> Result<BTreeMap<u32, Base>, AllocError>
    requires apart { AreApart [] fixups.now.items }
    requires free { overlaps (fold placed [] fixups.now.items) fixup.offset 1 ≡ false }
    ensures { IfOk result (λ bases. fixups_in bases.entries ≡ placed (fold placed [] fixups.now.items) fixup) }
{
    let mut bases = BTreeMap::new(*fixups.allocator());
    insert_all(&mut bases, fixups)?;
    bases.insert(fixup.offset, fixup.base)?;
    Ok(bases)
}

/// Returns fixups that don't overlap others, in address order.
fn sorted(mut fixups: Vec<Fixup>) -> Vec<Fixup>
    requires { AreApart [] fixups.items }
    ensures { result.items ≡ fold placed [] fixups.items }
{
    fixups.sort_unstable_by_key(|fixup| fixup.offset);
    fixups
}

/// Returns whether the word of one of some fixups overlaps one of `count` words from an offset.
fn overlaps_any(fixups: &[Fixup], offset: u32, count: u8) -> bool
    requires { offset + 4 * count < 2 ^ 32 }
    ensures { result ≡ overlaps fixups.now offset count }
{
    let end = offset + WORD * u32::from(count);
    for fixup in fixups {
        if u64::from(fixup.offset) + u64::from(WORD) > u64::from(offset) && fixup.offset < end {
            return true;
        }
    }
    false
}

/// Returns whether the word of one of these fixups overlaps one of `count` words from an offset. The bases
/// are by their offsets.
fn overlaps_placed(bases: &BTreeMap<u32, Base>, offset: u32, count: u8) -> bool
    requires { offset + 4 * count < 2 ^ 32 }
    ensures { result ≡ overlaps (fixups_in bases.now.entries) offset count }
{
    let end = offset + WORD * u32::from(count);
    // Of the fixups before `end`, the last one reaches furthest.
    match bases.range(..end).next_back() {
        Some((last, _)) => u64::from(*last) + u64::from(WORD) > u64::from(offset),
        None => false,
    }
}

/// Inserts the bases of fixups that don't overlap others.
fn insert_all(bases: &mut BTreeMap<u32, Base>, fixups: &[Fixup]) -> Result<(), AllocError>
    requires { AreApart (fixups_in bases.old.entries) fixups.now }
    ensures { OnOk result (fixups_in bases.new.entries ≡ fold placed (fixups_in bases.old.entries) fixups.now) }
{
    for fixup in fixups {
        bases.insert(fixup.offset, fixup.base)?;
    }
    Ok(())
}

/// Returns the fixups of bases by their offsets, in address order.
fn listed(alloc: Global, bases: BTreeMap<u32, Base>) -> Result<Vec<Fixup>, AllocError>
    ensures { IfOk result (λ fixups. fixups.items ≡ fixups_in bases.entries) }
{
    bases
        .into_iter()
        .map(|(offset, base)| Fixup { offset, base })
        .collect(alloc)
}

/// Returns the sections with their fixups in address order.
pub fn to_sections<'a>(
    alloc: Global,
    sections: Vec<SectionSoFar<'a>>,
) -> Result<Vec<Section<'a>>, AllocError>
    ensures { IfOk result (λ made. made.items ≡ sections.entry.items) }
{
    let mut made = Vec::with_capacity(alloc, sections.len())?;
    for section in sections {
        made.push(section.into_section(alloc)?)?;
    }
    Ok(made)
}

/// Returns whether section `k` is there and has a name.
#[inline(always)]
pub fn is_named(sections: &[SectionSoFar], k: usize, name: &[u8]) -> bool
    ensures { result ≡ option_map_or (λ section. bytes_eq name.now section.header.name) (slice_get sections.now k) false }
{
    match sections.get(k) {
        Some(section) => name == section.header.name,
        None => false,
    }
}

/// Returns the number of the section with a name.
#[inline(never)]
pub fn section_number(sections: &[SectionSoFar], name: &[u8]) -> Option<usize>
    ensures found { result ≡ number_of_name (map (λ section. section.header.name) sections.now) name.now }
    ensures below { IfSome result (λ k. k < length sections.now) }
{
    for (k, section) in sections.iter().enumerate() {
        if are_same(name, section.header.name) {
            return Some(k);
        }
    }
    None
}

/// Returns whether two names are equal. Those of sections often differ in the last byte alone.
fn are_same(one: &[u8], other: &[u8]) -> bool
    ensures { result ≡ bytes_eq one.now other.now }
{
    if one.len() != other.len() {
        return false;
    }
    if !one.is_empty() && one[one.len() - 1] != other[one.len() - 1] {
        return false;
    }
    one == other
}
