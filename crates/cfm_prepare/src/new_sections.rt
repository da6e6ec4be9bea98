ghost use Rattle.std.specs.Prelude.{◌≡◌, ◌++◌, All, Contains, IfOk, OnOk};
ghost use Rattle.cfm_prepare.specs.NewSections.{container_sections, new_sections_of};
ghost use Rattle.pef_format.specs.Sections.{kind_of, share_of};
ghost use Rattle.pef_views.specs.Views.{contained};

use cfm_closure::Closure;
use cfm_memory::Granule;
use pef_format::{SectionKind, Share};
use pef_views::Container;
use std::alloc::{AllocError, Global};

/// A section that a preparation would place, and the memory that it needs.
#[derive(Clone, Copy, Debug, PartialEq, Eq)]
pub struct NewSection {
    /// Its fragment, by its place in the store.
    pub fragment: usize,
    /// Its number in the fragment's container.
    pub section: u32,
    /// How many bytes it takes: at least one, rounded up to a multiple of the context's granule.
    pub size: u64,
    /// Its address has to be a multiple of this, a power of two.
    pub alignment: u64,
    /// The code of its [`kind`](Self::kind).
    pub section_kind: u8,
    /// The code of its [`share`](Self::share).
    pub share_kind: u8,
}

impl NewSection {
    /// Returns what the section is for.
    pub fn kind(self) -> SectionKind
        ensures { result ≡ kind_of self.section_kind }
    {
        SectionKind::from_code(self.section_kind)
    }

    /// Returns how instances of the section are shared.
    pub fn share(self) -> Share
        ensures { result ≡ share_of self.share_kind }
    {
        Share::from_code(self.share_kind)
    }
}

/// Returns the sections of some fragments of a closure, one fragment after another.
///
/// # Errors
///
/// `AllocError` if an allocation fails.
pub(crate) fn new_sections(
    alloc: Global,
    closure: &Closure<'_>,
    new: &[usize],
    granule: Granule,
) -> Result<Vec<NewSection>, AllocError>
    requires { All (λ p. Contains closure.now.order p) new.now }
    ensures { IfOk result (λ sections. sections.items ≡ new_sections_of closure.now.pairs granule.bytes new.now) }
{
    let mut sections = Vec::new(alloc);
    for position in new {
        append(
            &mut sections,
            &closure.container(*position),
            *position,
            granule,
        )?;
    }
    Ok(sections)
}

/// Appends the instantiated sections of a fragment with this container.
fn append(
    sections: &mut Vec<NewSection>,
    container: &Container<'_>,
    fragment: usize,
    granule: Granule,
) -> Result<(), AllocError>
    ensures { OnOk result (sections.new.items ≡ sections.old.items ++ container_sections granule.bytes fragment (contained container.now)) }
{
    let count = usize::from(container.header().instantiated_section_count);
    for i in 0..count {
        let Some(section) = container.section(i) else {
            unreachable!()
        };
        let header = section.header;
        sections.push(NewSection {
            fragment,
            section: i as u32,
            size: granule.taken(header.total_size),
            alignment: granule.step(header.alignment),
            section_kind: header.section_kind,
            share_kind: header.share_kind,
        })?;
    }
    Ok(())
}
