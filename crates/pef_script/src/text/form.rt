ghost use Rattle.std.specs.Prelude.{◌≡◌, map};
ghost use Rattle.pef_script.specs.Text.Forms.{choices_of, form_of, kind_name, row_of, row_seen};

use crate::text::kinds::{
    BASE_WORDS, CLASS_WORDS, KIND_WORDS, OPTION_WORDS, SHARE_WORDS, STRENGTH_WORDS, spells,
};
use crate::text::limits::{
    CONTENT_GROUP, EXPORT_GROUP, INIT_GROUP, LIBRARY_GROUP, MAIN_GROUP, SECTION_GROUP, TERM_GROUP,
    VERSIONS_GROUP,
};

/// A form of lines, by its first word.
#[derive(Clone, Copy, Debug, PartialEq, Eq)]
pub enum Form {
    Versions,
    Library,
    Import,
    Section,
    Bytes,
    Fix,
    Tvector,
    Export,
    Reexport,
    Absolute,
    Main,
    Init,
    Term,
}

/// What a word of a line is, after the first.
#[derive(Clone, Copy, Debug, PartialEq, Eq)]
pub enum WordKind {
    /// The name of what the line declares.
    NewName,
    Current,
    OldDef,
    OldImp,
    Options,
    Class,
    Strength,
    Kind,
    Share,
    Align,
    Total,
    /// The name of a section.
    SectionName,
    /// Pairs of hex digits.
    HexDigits,
    Offset,
    /// Whether the base of a fixup is a section or an import.
    Base,
    /// The name of that section or import.
    BaseName,
    /// The name of the section of a transition vector's first word.
    CodeName,
    /// The name of the section of a transition vector's second word.
    DataName,
    /// The name of an import.
    ImportName,
    Value,
}

/// What has names of its own. Two of one kind may not have the same name.
#[derive(Clone, Copy, Debug, PartialEq, Eq)]
pub enum Names {
    Libraries,
    Imports,
    Sections,
    Exports,
}

/// What the table of lines has for a form.
#[derive(Clone, Copy)]
pub struct Row {
    pub first_word: &'static str,
    /// No line comes after one of a later group.
    pub group: u8,
    /// Whether a script has at most one such line.
    pub is_once: bool,
    /// What the line declares the name of, which is its word 1.
    pub declares: Option<Names>,
    /// The words after the first.
    pub words: &'static [WordKind],
}

/// The forms of lines.
const FORMS: &[Form] = &[
    Form::Versions,
    Form::Library,
    Form::Import,
    Form::Section,
    Form::Bytes,
    Form::Fix,
    Form::Tvector,
    Form::Export,
    Form::Reexport,
    Form::Absolute,
    Form::Main,
    Form::Init,
    Form::Term,
];

const VERSIONS: Row = Row {
    first_word: "versions",
    group: VERSIONS_GROUP,
    is_once: true,
    declares: None,
    words: &[WordKind::Current, WordKind::OldDef, WordKind::OldImp],
};

const LIBRARY: Row = Row {
    first_word: "library",
    group: LIBRARY_GROUP,
    is_once: false,
    declares: Some(Names::Libraries),
    words: &[
        WordKind::NewName,
        WordKind::Current,
        WordKind::OldImp,
        WordKind::Options,
    ],
};

const IMPORT: Row = Row {
    first_word: "import",
    group: LIBRARY_GROUP,
    is_once: false,
    declares: Some(Names::Imports),
    words: &[WordKind::NewName, WordKind::Class, WordKind::Strength],
};

const SECTION: Row = Row {
    first_word: "section",
    group: SECTION_GROUP,
    is_once: false,
    declares: Some(Names::Sections),
    words: &[
        WordKind::NewName,
        WordKind::Kind,
        WordKind::Share,
        WordKind::Align,
        WordKind::Total,
    ],
};

const BYTES: Row = Row {
    first_word: "bytes",
    group: CONTENT_GROUP,
    is_once: false,
    declares: None,
    words: &[WordKind::SectionName, WordKind::HexDigits],
};

const FIX: Row = Row {
    first_word: "fix",
    group: CONTENT_GROUP,
    is_once: false,
    declares: None,
    words: &[
        WordKind::SectionName,
        WordKind::Offset,
        WordKind::Base,
        WordKind::BaseName,
    ],
};

const TVECTOR: Row = Row {
    first_word: "tvector",
    group: CONTENT_GROUP,
    is_once: false,
    declares: None,
    words: &[
        WordKind::SectionName,
        WordKind::Offset,
        WordKind::CodeName,
        WordKind::DataName,
    ],
};

const EXPORT: Row = Row {
    first_word: "export",
    group: EXPORT_GROUP,
    is_once: false,
    declares: Some(Names::Exports),
    words: &[
        WordKind::NewName,
        WordKind::Class,
        WordKind::SectionName,
        WordKind::Offset,
    ],
};

const REEXPORT: Row = Row {
    first_word: "reexport",
    group: EXPORT_GROUP,
    is_once: false,
    declares: Some(Names::Exports),
    words: &[WordKind::NewName, WordKind::Class, WordKind::ImportName],
};

const ABSOLUTE: Row = Row {
    first_word: "absolute",
    group: EXPORT_GROUP,
    is_once: false,
    declares: Some(Names::Exports),
    words: &[WordKind::NewName, WordKind::Class, WordKind::Value],
};

const MAIN: Row = Row {
    first_word: "main",
    group: MAIN_GROUP,
    is_once: true,
    declares: None,
    words: &[WordKind::SectionName, WordKind::Offset],
};

const INIT: Row = Row {
    first_word: "init",
    group: INIT_GROUP,
    is_once: true,
    declares: None,
    words: &[WordKind::SectionName, WordKind::Offset],
};

const TERM: Row = Row {
    first_word: "term",
    group: TERM_GROUP,
    is_once: true,
    declares: None,
    words: &[WordKind::SectionName, WordKind::Offset],
};

impl Form {
    /// Returns the form of the lines with a first word, or `None` if there is none.
    #[tactic(auto, unfolding(crate::specs::Text::Forms::form_of))]
    pub fn of(first_word: &[u8]) -> Option<Form>
        ensures { result ≡ form_of first_word.now }
    {
        for form in FORMS {
            if spells(first_word, form.row().first_word) {
                return Some(*form);
            }
        }
        None
    }

    /// Returns the first word.
    pub fn first_word(self) -> &'static str
        ensures { result.now ≡ (row_of self).first_word }
    {
        self.row().first_word
    }

    /// Returns the group. No line comes after one of a later group.
    pub fn group(self) -> u8
        ensures { result ≡ (row_of self).group }
    {
        self.row().group
    }

    /// Returns whether a script has at most one such line.
    pub fn is_once(self) -> bool
        ensures { result ≡ (row_of self).is_once }
    {
        self.row().is_once
    }

    /// Returns what the line declares the name of. The name is its word 1.
    pub fn declares(self) -> Option<Names>
        ensures { result ≡ (row_of self).declares }
    {
        self.row().declares
    }

    /// Returns what the words after the first are, in their order.
    pub fn words(self) -> &'static [WordKind]
        ensures { result.now ≡ (row_of self).words }
    {
        self.row().words
    }

    /// Returns what the table of lines has for the form.
    #[inline(always)]
    fn row(self) -> Row
        ensures { row_seen result ≡ row_of self }
    {
        match self {
            Form::Versions => VERSIONS,
            Form::Library => LIBRARY,
            Form::Import => IMPORT,
            Form::Section => SECTION,
            Form::Bytes => BYTES,
            Form::Fix => FIX,
            Form::Tvector => TVECTOR,
            Form::Export => EXPORT,
            Form::Reexport => REEXPORT,
            Form::Absolute => ABSOLUTE,
            Form::Main => MAIN,
            Form::Init => INIT,
            Form::Term => TERM,
        }
    }
}

impl WordKind {
    /// Returns the word's name, as the documents have it.
    pub fn name(self) -> &'static str
        ensures { result.now ≡ kind_name self }
    {
        match self {
            WordKind::NewName | WordKind::BaseName => "NAME",
            WordKind::Current => "CURRENT",
            WordKind::OldDef => "OLDDEF",
            WordKind::OldImp => "OLDIMP",
            WordKind::Options => "OPTION",
            WordKind::Class => "CLASS",
            WordKind::Strength => "STRENGTH",
            WordKind::Kind => "KIND",
            WordKind::Share => "SHARE",
            WordKind::Align => "ALIGN",
            WordKind::Total => "TOTAL",
            WordKind::SectionName => "SECTION",
            WordKind::HexDigits => "HEX",
            WordKind::Offset => "OFFSET",
            WordKind::Base => "section or import",
            WordKind::CodeName => "CODE",
            WordKind::DataName => "DATA",
            WordKind::ImportName => "IMPORT",
            WordKind::Value => "VALUE",
        }
    }

    /// Returns the words that can be there, if these are a few fixed ones, and none otherwise.
    pub fn choices(self) -> &'static [&'static str]
        ensures { map (λ word. word.now) result.now ≡ choices_of self }
    {
        match self {
            WordKind::Options => OPTION_WORDS,
            WordKind::Class => CLASS_WORDS,
            WordKind::Strength => STRENGTH_WORDS,
            WordKind::Kind => KIND_WORDS,
            WordKind::Share => SHARE_WORDS,
            WordKind::Base => BASE_WORDS,
            WordKind::NewName
            | WordKind::Current
            | WordKind::OldDef
            | WordKind::OldImp
            | WordKind::Align
            | WordKind::Total
            | WordKind::SectionName
            | WordKind::HexDigits
            | WordKind::Offset
            | WordKind::BaseName
            | WordKind::CodeName
            | WordKind::DataName
            | WordKind::ImportName
            | WordKind::Value => &[],
        }
    }
}
