ghost use Rattle.std.specs.Prelude.{◌≡◌};
ghost use Rattle.pef_format.specs.Symbols.{class_code, class_of, options_code, options_of};

use crate::layout::{
    CODE_SYMBOL, DATA_SYMBOL, GLUE_SYMBOL, INIT_BEFORE, TOC_SYMBOL, TRANSITION_VECTOR_SYMBOL,
    WEAK_LIBRARY,
};

/// What a symbol is an address of (the low four bits of a class byte).
#[derive(Clone, Copy, Debug, PartialEq, Eq)]
pub enum SymbolClass {
    Code,
    Data,
    /// The addresses of a routine and of its table of contents.
    TransitionVector,
    /// A place in the table of contents.
    Toc,
    /// Glue that a linker inserted.
    Glue,
    /// A code that the format doesn't name.
    Other(u8),
}

impl SymbolClass {
    /// Returns the class with a code.
    #[tactic(auto, unfolding(crate::specs::Symbols::class_of))]
    pub fn from_code(code: u8) -> SymbolClass
        ensures { result ≡ class_of code }
    {
        match code {
            CODE_SYMBOL => SymbolClass::Code,
            DATA_SYMBOL => SymbolClass::Data,
            TRANSITION_VECTOR_SYMBOL => SymbolClass::TransitionVector,
            TOC_SYMBOL => SymbolClass::Toc,
            GLUE_SYMBOL => SymbolClass::Glue,
            _ => SymbolClass::Other(code),
        }
    }

    /// Returns the code of a class.
    pub fn code(self) -> u8
        ensures { result ≡ class_code self }
    {
        match self {
            SymbolClass::Code => CODE_SYMBOL,
            SymbolClass::Data => DATA_SYMBOL,
            SymbolClass::TransitionVector => TRANSITION_VECTOR_SYMBOL,
            SymbolClass::Toc => TOC_SYMBOL,
            SymbolClass::Glue => GLUE_SYMBOL,
            SymbolClass::Other(code) => code,
        }
    }
}

/// How a fragment uses an imported library (options of PEFImportedLibrary).
#[derive(Clone, Copy, Debug, PartialEq, Eq)]
pub struct LibraryOptions {
    /// The library is initialized before the fragment.
    pub init_before: bool,
    /// The library may be missing.
    pub weak: bool,
}

impl LibraryOptions {
    /// Returns the options in a byte. Its other bits mean nothing.
    #[tactic(auto, unfolding(crate::specs::Symbols::options_of))]
    pub fn from_code(code: u8) -> LibraryOptions
        ensures { result ≡ options_of code }
    {
        LibraryOptions {
            init_before: code & INIT_BEFORE != 0,
            weak: code & WEAK_LIBRARY != 0,
        }
    }

    /// Returns the byte of some options.
    pub fn code(self) -> u8
        ensures { result ≡ options_code self }
    {
        let before = if self.init_before { INIT_BEFORE } else { 0 };
        let weak = if self.weak { WEAK_LIBRARY } else { 0 };
        before + weak
    }
}
