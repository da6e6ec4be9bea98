/// A library that some fragments of a store name, and that no fragment of the store serves by name.
#[derive(Clone, Copy, Debug, PartialEq, Eq)]
pub struct Lacking<'a> {
    pub name: &'a [u8],
    /// Whether each entry for it is weak, so that each fragment can do without it.
    pub is_weak: bool,
}
