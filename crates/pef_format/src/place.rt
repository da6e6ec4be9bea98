ghost use Rattle.std.specs.Prelude.{◌≡◌};
ghost use Rattle.pef_format.specs.Places.{part_code, part_name};

/// A kind of part that an error is about: of a container, or a line of a text.
#[derive(Clone, Copy, Debug, PartialEq, Eq)]
pub enum Part {
    /// The container header.
    Header,
    /// A section's header.
    Section,
    /// The header of the loader section.
    LoaderHeader,
    /// An imported library.
    Library,
    /// An imported symbol.
    Import,
    /// The main entry point.
    Main,
    /// The initialization routine.
    Init,
    /// The termination routine.
    Term,
    /// A relocation header.
    Relocation,
    /// An exported symbol.
    Export,
    /// The packed data of a section.
    PackedData,
    /// The relocation program of a relocation header.
    Program,
    /// A line of a script or of certificates.
    Line,
}

impl Part {
    /// Returns the number of a part's kind, from 1. 0 means no part.
    pub fn code(self) -> u32
        ensures { result ≡ part_code self }
    {
        match self {
            Part::Header => 1,
            Part::Section => 2,
            Part::LoaderHeader => 3,
            Part::Library => 4,
            Part::Import => 5,
            Part::Main => 6,
            Part::Init => 7,
            Part::Term => 8,
            Part::Relocation => 9,
            Part::Export => 10,
            Part::PackedData => 11,
            Part::Program => 12,
            Part::Line => 13,
        }
    }

    /// Returns the name of a part's kind.
    pub fn name(self) -> &'static str
        ensures { result.now ≡ part_name self }
    {
        match self {
            Part::Header => "container header",
            Part::Section => "section",
            Part::LoaderHeader => "loader header",
            Part::Library => "library",
            Part::Import => "import",
            Part::Main => "main entry point",
            Part::Init => "initialization routine",
            Part::Term => "termination routine",
            Part::Relocation => "relocation header",
            Part::Export => "export",
            Part::PackedData => "packed data of section",
            Part::Program => "program of relocation header",
            Part::Line => "line",
        }
    }
}

/// Where an error is.
#[derive(Clone, Copy, Debug, PartialEq, Eq)]
pub struct Place {
    pub part: Part,
    /// The number of the part among those of its kind, from 0. That of a line is from 1. Packed data has the number of
    /// its section, a program that of its relocation header.
    pub row: usize,
    /// The offset of the field in the part, as `PEFBinaryFormat.h` has the part. In packed data and programs it is the
    /// offset of the instruction, in a line the number of the word, from 0.
    pub field: usize,
    /// The offset of the field in the container or the text, if there is one.
    pub offset: Option<usize>,
}
