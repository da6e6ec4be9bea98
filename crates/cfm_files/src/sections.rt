//! The files of the sections of prepared fragments.
ghost use Rattle.std.specs.Prelude.{◌≡◌, ◌++◌, IfOk, OnOk, map};
ghost use Rattle.cfm_files.specs.Sections.{file_seen, fragment_files, fragment_name, section_files};

use crate::paths::section_path;
use crate::writing::FileToWrite;
use cfm_prepare::Context;
use std::alloc::{AllocError, Global};

/// The file of a section: its path, and the section's bytes of memory.
#[derive(Drop)]
pub struct SectionFile<'r> {
    path: Vec<u8>,
    bytes: &'r [u8],
}

impl<'r> FileToWrite for SectionFile<'r> {
    ghost file = { file_seen };

    fn path(&self) -> &[u8] {
        self.path.as_slice()
    }

    fn bytes(&self) -> &[u8] {
        self.bytes
    }
}

/// Returns the files in a folder of all sections of some fragments, which are given by their places in the store.
pub fn section_files<'r>(
    alloc: Global,
    context: &'r Context<'_>,
    folder: &[u8],
    order: &[usize],
) -> Result<Vec<SectionFile<'r>>, AllocError>
    ensures { IfOk result (λ files. map file_seen files.items ≡ section_files context.now folder.now order.now) }
{
    let mut files = Vec::new(alloc);
    for position in order {
        add_files(alloc, &mut files, context, folder, *position)?;
    }
    Ok(files)
}

/// Adds the files of the sections of the fragment in a place of the store.
fn add_files<'r>(
    alloc: Global,
    files: &mut Vec<SectionFile<'r>>,
    context: &'r Context<'_>,
    folder: &[u8],
    position: usize,
) -> Result<(), AllocError>
    ensures { OnOk result (map file_seen files.new.items ≡ map file_seen files.old.items ++ fragment_files context.now folder.now position) }
{
    let name = name_of(context, position);
    for i in 0..context.section_count(position) {
        let Some((_, bytes)) = context.fragment_section(position, i) else {
            unreachable!()
        };
        let path = section_path(alloc, folder, name, i)?;
        files.push(SectionFile { path, bytes })?;
    }
    Ok(())
}

/// Returns the name of the fragment in a place of the store.
pub fn name_of<'a>(context: &Context<'a>, position: usize) -> &'a [u8]
    ensures { result.now ≡ fragment_name context.now position }
{
    match context.name(position) {
        Some(name) => name,
        None => b"",
    }
}
