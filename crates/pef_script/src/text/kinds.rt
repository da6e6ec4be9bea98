ghost use Rattle.std.specs.Prelude.{◌≡◌, length, map};
ghost use Rattle.std.specs.Str.{bytes_eq};
ghost use Rattle.pef_script.specs.Text.Contents.{is_section_word};
ghost use Rattle.pef_script.specs.Text.Declarations.{is_weak_word, kind_of, options_of, share_of, symbol_class_of};
ghost use Rattle.pef_script.specs.Text.Kept.Kinds.{paired};
ghost use Rattle.pef_script.specs.Text.SoFar.{word_of};

use crate::text::LineFault;
use pef_format::{LibraryOptions, SectionKind, Share, SymbolClass};

/// Returns whether a word is this text.
pub fn spells(word: &[u8], text: &str) -> bool
    ensures { result ≡ bytes_eq word.now text.now }
{
    word == text.as_bytes()
}

/// Returns the value of a word among some words, each with a value. The word has the number `at` in its line.
fn word_of<T: Copy>(words: &[&str], values: &[T], at: u8, word: &[u8]) -> Result<T, LineFault>
    requires { length words.now ≡ length values.now }
    ensures { result ≡ word_of (paired (map (λ text. text.now) words.now) values.now) at word.now }
{
    for (place, text) in words.iter().enumerate() {
        if spells(word, text) {
            return Ok(values[place]);
        }
    }
    Err(LineFault::BadKind { word: at })
}

// Each kind of word is a row of words and a row of what they mean, in the same order.

pub const OPTION_WORDS: &[&str] = &["-", "weak", "before", "weak,before"];

const OPTIONS: &[LibraryOptions] = &[
    LibraryOptions {
        init_before: false,
        weak: false,
    },
    LibraryOptions {
        init_before: false,
        weak: true,
    },
    LibraryOptions {
        init_before: true,
        weak: false,
    },
    LibraryOptions {
        init_before: true,
        weak: true,
    },
];

/// Returns a library's options.
pub fn options_of(at: u8, word: &[u8]) -> Result<LibraryOptions, LineFault>
    ensures { result ≡ options_of at word.now }
{
    word_of(OPTION_WORDS, OPTIONS, at, word)
}

pub const CLASS_WORDS: &[&str] = &["code", "data", "tvector", "toc", "glue"];

const CLASSES: &[SymbolClass] = &[
    SymbolClass::Code,
    SymbolClass::Data,
    SymbolClass::TransitionVector,
    SymbolClass::Toc,
    SymbolClass::Glue,
];

/// Returns the class of a symbol.
pub fn class_of(at: u8, word: &[u8]) -> Result<SymbolClass, LineFault>
    ensures { result ≡ symbol_class_of at word.now }
{
    word_of(CLASS_WORDS, CLASSES, at, word)
}

pub const STRENGTH_WORDS: &[&str] = &["strong", "weak"];

/// Returns whether an import is weak. Otherwise it is strong.
pub fn is_weak_word(at: u8, word: &[u8]) -> Result<bool, LineFault>
    ensures { result ≡ is_weak_word at word.now }
{
    word_of(STRENGTH_WORDS, &[false, true], at, word)
}

pub const KIND_WORDS: &[&str] = &["code", "data", "pattern", "const", "exec"];

const KINDS: &[SectionKind] = &[
    SectionKind::Code,
    SectionKind::UnpackedData,
    SectionKind::PatternData,
    SectionKind::Constant,
    SectionKind::ExecutableData,
];

/// Returns the kind of a section.
pub fn kind_of(at: u8, word: &[u8]) -> Result<SectionKind, LineFault>
    ensures { result ≡ kind_of at word.now }
{
    word_of(KIND_WORDS, KINDS, at, word)
}

pub const SHARE_WORDS: &[&str] = &["process", "global", "protected"];

const SHARES: &[Share] = &[Share::Process, Share::Global, Share::Protected];

/// Returns how a section is shared.
pub fn share_of(at: u8, word: &[u8]) -> Result<Share, LineFault>
    ensures { result ≡ share_of at word.now }
{
    word_of(SHARE_WORDS, SHARES, at, word)
}

pub const BASE_WORDS: &[&str] = &["section", "import"];

/// Returns whether the base of a fixup is a section. Otherwise it is an import.
pub fn is_section_word(at: u8, word: &[u8]) -> Result<bool, LineFault>
    ensures { result ≡ is_section_word at word.now }
{
    word_of(BASE_WORDS, &[true, false], at, word)
}
