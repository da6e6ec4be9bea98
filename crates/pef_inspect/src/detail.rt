ghost use Rattle.std.specs.Prelude.{◌≡◌};
ghost use Rattle.pef_inspect.specs.Details.{detail_of, detail_value, note_detail, word_detail};

use crate::finding::{Cause, Finding};
use crate::note::Note;

/// A number beyond the place of a finding.
#[derive(Clone, Copy, Debug, PartialEq, Eq)]
pub enum Detail {
    /// The offset in a section of a word.
    Word(u64),
    /// A number of bytes.
    Length(u64),
    /// A number of sections.
    Sections(u64),
    None,
}

impl Detail {
    /// Returns the number, or 0 if there is none.
    pub fn value(self) -> u64
        ensures { result ≡ detail_value self }
    {
        match self {
            Detail::Word(number) | Detail::Length(number) | Detail::Sections(number) => number,
            Detail::None => 0,
        }
    }
}

impl Finding {
    /// Returns the number that the finding has beside its place.
    pub fn detail(&self) -> Detail
        ensures { result ≡ detail_of self.now.cause }
    {
        match self.cause {
            Cause::Note(note) => note_detail(note),
            Cause::Reloc(fault) => word_detail(fault.word()),
            Cause::View(_) | Cause::Loader(_) | Cause::Pack(_) => Detail::None,
        }
    }
}

/// Returns the offset of a word, if there is one.
fn word_detail(word: Option<u64>) -> Detail
    ensures { result ≡ word_detail word }
{
    match word {
        Some(word) => Detail::Word(word),
        None => Detail::None,
    }
}

/// Returns the number that a note has beside its place.
fn note_detail(note: Note) -> Detail
    ensures { result ≡ note_detail note }
{
    match note {
        Note::WordOutsideImage { word } | Note::WordRelocatedTwice { word } => Detail::Word(word),
        Note::TrailingBytes { length }
        | Note::Overlap { length }
        | Note::UnownedBytes { length }
        | Note::TextDamage { count: length }
        | Note::ZeroRows { length } => Detail::Length(length as u64),
        Note::SectionsOutOfOrder { sections } => Detail::Sections(u64::from(sections)),
        Note::ReservedNotZero
        | Note::UnknownKind
        | Note::UnknownShare
        | Note::VersionBelowOldest
        | Note::EntryOutside
        | Note::ExportOutside
        | Note::IrregularExports
        | Note::ProgramsUnverified
        | Note::ImagesUnverified
        | Note::NameOutside => Detail::None,
    }
}
