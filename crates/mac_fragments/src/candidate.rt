/// A fragment with the name that it has in a preparation.
#[derive(Clone, Copy, Debug)]
pub struct Candidate<'a> {
    pub name: &'a [u8],
    /// What it is for, as the code of a member's usage: 0 is an import library.
    pub usage: u8,
    /// The bytes of its container.
    pub bytes: &'a [u8],
}
