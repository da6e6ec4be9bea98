//! Scripts that several tests run, with their results.

/// One section with two fixups by its own address.
pub const EXAMPLE: &[u8] =
    b"section d data process 4 16\nbytes d 11223344000000080102\nfix d 4 section d\nfix d 12 section d\n";

/// What `show` prints of it.
pub const EXAMPLE_SHOWN: &[u8] =
    b"fragment it\nsection 0 at 00010000 size 16\n00010000 11223344 00010008 01020000 00010000\n";

/// Code, and data with two transition vectors.
pub const VECTORS: &[u8] =
    b"versions 1 0 0\nsection code code global 4 8\nsection data data process 4 16\nbytes code 0011223344556677\nbytes data 00000000000000000000000400000000\ntvector data 0 code data\ntvector data 8 code data\nexport go tvector data 0\nmain data 0\n";

/// What `link` prints of it. Its container is the one with the shortest program, of which there is one.
pub const VECTORS_LINKED: &[u8] = b"linked 250 bytes\nsection 0 length 0\nsection 1 length 1\n";

/// Certificates for its sections.
pub const VECTORS_CERTIFIED: &[u8] = b"\
      pefcert 2\nsection 0\nfixups 0\nlength 0\nprogram -\nregisters *\nat 0 0 0\n\
      section 1\nfixups 4\nlength 1\nprogram 4601\nregisters 0 1 *\n\
      at 0 0 2 1 2 3 2 3 3 2 3\nat 1 1 3 2 3 2 3 3 3 3 3\nat 2 2 2 1 2 2 2 2 2 2 2\n\
      at 3 3 1 1 1 1 1 1 1 1 1\nat 4 4 0 0 0 0 0 0 0 0 0\nend\n";

/// A library with one export.
pub const LIBRARY: &str =
    "versions 1 0 0\nsection l data process 4 4\nbytes l 0000002A\nexport v data l 0\n";

/// A fragment that needs that library by the name `L`: its word becomes the address of the export.
pub const USER: &str =
    "library L 1 0 -\nimport v data strong\nsection a data process 4 4\nfix a 0 import v\n";
