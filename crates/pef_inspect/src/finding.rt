ghost use Rattle.std.specs.Prelude.{◌≡◌};
ghost use Rattle.pef_views.specs.PartialViews.{partly};
ghost use Rattle.pef_inspect.specs.Findings.{finding_name, finding_number, is_error, loader_finding, named_section, note_finding, outside_row, view_finding, whole_place};

use crate::note::Note;
use pef_format::layout::CONTAINER_OFFSET_AT;
use pef_format::{Part, Place};
use pef_loader::{LoaderFault, partial_place};
use pef_pidata::PackFault;
use pef_reloc::RelocFault;
use pef_views::{PartialContainer, ViewFault};

/// What a finding is: an error of the crate that defines it, or a note.
#[derive(Clone, Copy, Debug, PartialEq, Eq)]
pub enum Cause {
    /// An error of the container, from 1 to 10.
    View(ViewFault),
    /// An error of the loader section, from 11 to 20.
    Loader(LoaderFault),
    /// An error of packed data, from 21 to 25.
    Pack(PackFault),
    /// An error of a relocation program, from 31 to 39.
    Reloc(RelocFault),
    /// A note, from 101.
    Note(Note),
}

/// An error or a note, with its place in the container.
#[derive(Clone, Copy, Debug, PartialEq, Eq)]
pub struct Finding {
    pub cause: Cause,
    pub place: Place,
}

impl Finding {
    /// Returns the number of the error or the note.
    pub fn number(&self) -> u32
        ensures { result ≡ finding_number self.now }
    {
        match &self.cause {
            Cause::View(fault) => fault.number(),
            Cause::Loader(fault) => fault.number(),
            Cause::Pack(fault) => fault.number(),
            Cause::Reloc(fault) => fault.number(),
            Cause::Note(note) => note.number(),
        }
    }

    /// Returns the name of the error or the note.
    pub fn name(&self) -> &'static str
        ensures { result.now ≡ finding_name self.now }
    {
        match &self.cause {
            Cause::View(fault) => fault.name(),
            Cause::Loader(fault) => fault.name(),
            Cause::Pack(fault) => fault.name(),
            Cause::Reloc(fault) => fault.name(),
            Cause::Note(note) => note.name(),
        }
    }

    /// Returns whether it is an error.
    pub fn is_error(&self) -> bool
        ensures { result ≡ is_error self.now }
    {
        match &self.cause {
            Cause::View(_) | Cause::Loader(_) | Cause::Pack(_) | Cause::Reloc(_) => true,
            Cause::Note(_) => false,
        }
    }

    /// Returns an error of a container. One that is about no field is about the container as a whole, and has its beginning
    /// as its place.
    pub fn of_view(fault: ViewFault) -> Finding
        ensures { result ≡ view_finding fault }
    {
        Finding {
            cause: Cause::View(fault),
            place: fault.place().unwrap_or(whole_place(0)),
        }
    }

    /// Returns an error of the loader section of a container. If there is no loader header because the section begins
    /// outside the container, its place is that of the section's containerOffset.
    pub fn of_loader(container: &PartialContainer<'_>, fault: LoaderFault) -> Finding
        ensures { result ≡ loader_finding (partly container.now) fault }
    {
        Finding {
            cause: Cause::Loader(fault),
            place: match named_section(container, fault) {
                Some(row) => partial_place(
                    container,
                    Part::Section,
                    u32::from(row),
                    CONTAINER_OFFSET_AT,
                ),
                None => fault.partial_place(container),
            },
        }
    }

    /// Returns a note at a place.
    pub fn of_note(note: Note, place: Place) -> Finding
        ensures { result ≡ note_finding note place }
    {
        Finding {
            cause: Cause::Note(note),
            place,
        }
    }
}

/// Returns the section whose containerOffset an error of the loader section is about.
fn named_section(container: &PartialContainer<'_>, fault: LoaderFault) -> Option<u16>
    ensures { result ≡ named_section (partly container.now) fault }
{
    match fault {
        LoaderFault::LoaderShort => outside_row(container),
        _ => None,
    }
}

/// Returns the number of the loader section, if it begins at no byte of the container.
fn outside_row(container: &PartialContainer<'_>) -> Option<u16>
    ensures { result ≡ outside_row (partly container.now) }
{
    match container.loader_offset() {
        Some(from) if from < container.bytes().len() => None,
        Some(_) | None => container.loader_row(),
    }
}

/// Returns the place of the byte at an offset of a container.
pub(crate) fn whole_place(offset: usize) -> Place
    ensures { result ≡ whole_place offset }
{
    Place {
        part: Part::Header,
        row: 0,
        field: offset,
        offset: Some(offset),
    }
}
