//! The folders of a system.
use crate::folders::{FolderFault, Folders};
use std::alloc::Global;
use std::fs::{self, DirEntry};
use std::io::{self, ErrorKind};
use std::rt;

/// No clause can say what a real folder has, so a call of the system may do anything.
impl<R: rt::Files + AllocGlobal + Clone + Drop> Folders for R {
    fn file_names(&self, alloc: Global, path: &str) -> Result<Vec<String>, FolderFault> {
        match listed(self, alloc, path) {
            Ok(names) => Ok(names),
            Err(error) => Err(fault_of(error.kind())),
        }
    }
}

/// Returns the names of the files in a folder, in the order of their bytes.
fn listed<R: rt::Files + AllocGlobal + Clone + Drop>(
    system: &R,
    alloc: Global,
    path: &str,
) -> io::Result<Vec<String>> {
    let mut names = Vec::new(alloc);
    for entry in fs::read_dir(system, path)? {
        let entry = entry?;
        if fs::metadata(system, entry.path())?.is_file() {
            names.push(String::from_str(alloc, entry.file_name())?)?;
        }
    }
    names.sort()?;
    Ok(names)
}

/// Returns why a folder can't be listed, by the kind of the system's error.
fn fault_of(kind: ErrorKind) -> FolderFault {
    match kind {
        ErrorKind::OutOfMemory => FolderFault::OutOfMemory,
        _ => FolderFault::Failed,
    }
}
