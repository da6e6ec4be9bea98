ghost use Rattle.std.specs.Prelude.{◌≡◌};
ghost use Rattle.pef_inspect.specs.Notes.{note_name, note_number};

/// Something odd that breaks no rule.
#[derive(Clone, Copy, Debug, PartialEq, Eq)]
pub enum Note {
    /// A reserved field isn't 0.
    ReservedNotZero,
    /// The format doesn't name the kind of a section.
    UnknownKind,
    /// The format doesn't name how an instantiated section is shared.
    UnknownShare,
    /// A current version is below an oldest one.
    VersionBelowOldest,
    /// An entry point is past the end of its section.
    EntryOutside,
    /// An export is past the end of its section.
    ExportOutside,
    /// A relocated word is inside its section, and extends past the section's image. `word` is its offset in the section.
    WordOutsideImage { word: u64 },
    /// The hash table doesn't lead to each export, or the names of the exports are together longer than all strings.
    IrregularExports,
    /// `length` bytes follow the last part of the container.
    TrailingBytes { length: usize },
    /// The programs from this one on ask for too many steps together, and weren't verified; or they relocate too many words
    /// together, and weren't searched for words that are relocated twice.
    ProgramsUnverified,
    /// The packed data from this section on is too long together, and wasn't verified.
    ImagesUnverified,
    /// A part has bytes that an earlier part has, too. `length` bytes of the part are shared.
    Overlap { length: usize },
    /// `length` bytes belong to no part: of the container, or of its loader section if the place is there.
    UnownedBytes { length: usize },
    /// An address is added to a word to which one was added already, by the same program or by an earlier one of the section.
    /// `word` is its offset in the section. The note is at the beginning of the program, once for its first such word.
    WordRelocatedTwice { word: u64 },
    /// The instantiated sections aren't the first ones: each loader section counts as instantiated. `sections` sections have a
    /// kind that may be instantiated.
    SectionsOutOfOrder { sections: u32 },
    /// The nameOffset of a section is neither -1 nor the offset of a byte of the container.
    NameOutside,
    /// The ends of lines or the characters in the container were changed as those of text are. `count` of them say so.
    TextDamage { count: usize },
    /// Rows of a table of the loader section that follow each other are zero bytes, `length` bytes together. The place is that of the
    /// first one.
    ZeroRows { length: usize },
}

impl Note {
    /// Returns the note's number, from 101. No error has it, and 115 and 117 to 120 are about a file.
    pub fn number(&self) -> u32
        ensures { result ≡ note_number self.now }
    {
        match self {
            Note::ReservedNotZero => 101,
            Note::UnknownKind => 102,
            Note::UnknownShare => 103,
            Note::VersionBelowOldest => 104,
            Note::EntryOutside => 105,
            Note::ExportOutside => 106,
            Note::WordOutsideImage { .. } => 107,
            Note::IrregularExports => 108,
            Note::TrailingBytes { .. } => 109,
            Note::ProgramsUnverified => 110,
            Note::ImagesUnverified => 111,
            Note::Overlap { .. } => 112,
            Note::UnownedBytes { .. } => 113,
            Note::WordRelocatedTwice { .. } => 114,
            Note::SectionsOutOfOrder { .. } => 116,
            Note::NameOutside => 121,
            Note::TextDamage { .. } => 124,
            Note::ZeroRows { .. } => 125,
        }
    }

    /// Returns the note's name.
    pub fn name(&self) -> &'static str
        ensures { result.now ≡ note_name self.now }
    {
        match self {
            Note::ReservedNotZero => "ReservedNotZero",
            Note::UnknownKind => "UnknownKind",
            Note::UnknownShare => "UnknownShare",
            Note::VersionBelowOldest => "VersionBelowOldest",
            Note::EntryOutside => "EntryOutside",
            Note::ExportOutside => "ExportOutside",
            Note::WordOutsideImage { .. } => "WordOutsideImage",
            Note::IrregularExports => "IrregularExports",
            Note::TrailingBytes { .. } => "TrailingBytes",
            Note::ProgramsUnverified => "ProgramsUnverified",
            Note::ImagesUnverified => "ImagesUnverified",
            Note::Overlap { .. } => "Overlap",
            Note::UnownedBytes { .. } => "UnownedBytes",
            Note::WordRelocatedTwice { .. } => "WordRelocatedTwice",
            Note::SectionsOutOfOrder { .. } => "SectionsOutOfOrder",
            Note::NameOutside => "NameOutside",
            Note::TextDamage { .. } => "TextDamage",
            Note::ZeroRows { .. } => "ZeroRows",
        }
    }
}
