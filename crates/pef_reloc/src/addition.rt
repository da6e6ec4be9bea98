/// The address that a program adds to a word. A run of imports can go on past every number that a [`Base`](crate::Base)
/// can have, so imports have more bits here.
#[derive(Clone, Copy, Debug, PartialEq, Eq)]
pub enum Source {
    /// The address of an instantiated section, by its number.
    Section(u32),
    /// The address of an import's target, by the import's number.
    Import(u64),
}

/// An addition that a program makes: a word of the section, and the address that is added to it. Neither has to exist.
#[derive(Clone, Copy, Debug, PartialEq, Eq)]
pub struct Addition {
    /// The offset of the word in its section, in bytes.
    pub offset: u64,
    /// The address that is added.
    pub source: Source,
}
