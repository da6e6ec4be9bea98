/// A fragment of a file.
#[derive(Clone, Copy, Debug)]
pub struct FileFragment<'a> {
    /// The name of its member in the table of fragments, or `None` for a container that no member names.
    pub name: Option<&'a [u8]>,
    /// What it is for, as the code of its member's usage: 0 is an import library, 1 an application. It is 0 without a member.
    pub usage: u8,
    /// The bytes of its container.
    pub bytes: &'a [u8],
}
