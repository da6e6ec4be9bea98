ghost use Rattle.std.specs.Prelude.{◌≡◌};
ghost use Rattle.pef_format.specs.Symbols.{options_of};

use crate::symbol::LibraryOptions;

/// The fields of an imported library (PEFImportedLibrary), without its name.
#[derive(Clone, Copy, Debug, PartialEq, Eq)]
pub struct LibraryFields {
    /// The version of the library's definition that the fragment was linked with.
    pub current: u32,
    /// The oldest version of an implementation that the fragment accepts.
    pub old_imp: u32,
    /// How many imports the library has.
    pub count: u32,
    /// The first of them.
    pub first: u32,
    /// The options byte, which [`options`](Self::options) decodes.
    pub options: u8,
}

impl LibraryFields {
    /// Returns how the fragment uses the library.
    pub fn options(self) -> LibraryOptions
        ensures { result ≡ options_of self.options }
    {
        LibraryOptions::from_code(self.options)
    }
}
