use mac_fragments::Candidate;

/// A file that was read.
#[derive(Clone, Copy, Debug)]
pub struct GivenFile<'a> {
    /// The name that its first fragment is given.
    pub name: Option<&'a [u8]>,
    /// Its own name: the path after its last `/`.
    pub file_name: &'a [u8],
    pub path: &'a [u8],
    pub bytes: &'a [u8],
    /// The bytes of the file that has its resource fork, if that is another one.
    pub resources: Option<&'a [u8]>,
    /// Its fragments are libraries only: none of them is the root, and it may have none.
    pub is_library: bool,
}

/// A fragment that a file has, with the name that it goes by.
#[derive(Clone, Copy, Debug)]
pub struct Found<'a> {
    pub candidate: Candidate<'a>,
    /// The path of the file.
    pub path: &'a [u8],
    /// Its file has libraries only.
    pub is_library: bool,
}
