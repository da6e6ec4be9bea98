//! The paths of files.
ghost use Rattle.std.specs.Prelude.{◌≡◌, ◌==◌, ◌&&◌, ◌++◌, IfOk, OnOk, not};
ghost use Rattle.cfm_files.specs.Paths.{file_byte, file_name, section_path, stub_path};
ghost use Rattle.pef_ports.specs.Names.{is_plain_byte};

use pef_ports::{Line, push_hex};
use std::alloc::{AllocError, Global};

/// Returns the path of a library's stub in a folder.
pub fn stub_path(alloc: Global, folder: &[u8], library: &[u8]) -> Result<Vec<u8>, AllocError>
    ensures { IfOk result (λ path. path.items ≡ stub_path folder.now library.now) }
{
    let mut path = Vec::from_slice(alloc, folder)?;
    path.extend_from_slice(b"/")?;
    push_name(&mut path, library)?;
    path.extend_from_slice(b".pef")?;
    Ok(path)
}

/// Returns the path of section `i` of a fragment in a folder.
pub fn section_path(
    alloc: Global,
    folder: &[u8],
    fragment: &[u8],
    i: usize,
) -> Result<Vec<u8>, AllocError>
    ensures { IfOk result (λ path. path.items ≡ section_path folder.now fragment.now i) }
{
    let mut digits = itoa::Buffer::new();
    let mut path = Vec::from_slice(alloc, folder)?;
    path.extend_from_slice(b"/")?;
    push_name(&mut path, fragment)?;
    path.extend_from_slice(b".")?;
    path.extend_from_slice(digits.format(i as u64).as_bytes())?;
    path.extend_from_slice(b".bin")?;
    Ok(path)
}

/// Appends the name of a fragment or a library to a path.
fn push_name(path: &mut Vec<u8>, name: &[u8]) -> Result<(), AllocError>
    ensures { OnOk result (path.new.items ≡ path.old.items ++ file_name name.now) }
{
    for b in name {
        path.extend_from_slice(file_byte(*b).as_slice())?;
    }
    Ok(())
}

/// Returns a byte of the name of a fragment or a library in the name of its file: unchanged, or as `%` and two digits.
#[tactic(auto, unfolding(crate::specs::Paths::file_byte))]
pub fn file_byte(b: u8) -> Line
    ensures { result.items ≡ file_byte b }
{
    let mut text = Line::new();
    if is_file_byte(b) {
        text.push(b);
        return text;
    }
    text.push(b'%');
    push_hex(&mut text, &[b]);
    text
}

/// Returns whether a byte of a name is the same in the name of a file.
fn is_file_byte(b: u8) -> bool
    ensures { result ≡ (is_plain_byte b && not (b == 0x2F)) }
{
    b.is_ascii_graphic() && b != b'%' && b != b'/'
}
