use pef_format::LibraryOptions;

/// A library, as a script describes it.
#[derive(Clone, Copy, Debug, PartialEq, Eq)]
pub struct LibraryView<'a> {
    pub name: &'a [u8],
    pub current: u32,
    pub old_imp: u32,
    pub options: LibraryOptions,
}
