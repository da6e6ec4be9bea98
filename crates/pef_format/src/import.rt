ghost use Rattle.std.specs.Prelude.{◌≡◌};
ghost use Rattle.pef_format.specs.Symbols.{class_of};

use crate::symbol::SymbolClass;

/// The fields of an imported symbol (PEFImportedSymbol), without its name.
#[derive(Clone, Copy, Debug, PartialEq, Eq)]
pub struct ImportFields {
    /// The low four bits of the class byte.
    pub class: u8,
    /// Whether the symbol may be missing.
    pub weak: bool,
}

impl ImportFields {
    /// Returns what the symbol is an address of.
    pub fn class(self) -> SymbolClass
        ensures { result ≡ class_of self.class }
    {
        SymbolClass::from_code(self.class)
    }
}

/// An imported symbol with its name, and the number of its library. Some libraries lack an import of a damaged container, and some
/// names aren't there, so both are generic.
#[derive(Clone, Copy, Debug, PartialEq, Eq)]
pub struct Imported<Name, Library> {
    pub fields: ImportFields,
    pub name: Name,
    pub library: Library,
}

/// An imported symbol with its name and its library.
pub type ImportView<'a> = Imported<&'a [u8], usize>;
