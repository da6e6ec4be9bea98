ghost use Rattle.std.specs.Prelude.{ℕ, List, Result};
ghost use Rattle.pef_folders.specs.Views.{names_seen};
ghost use Rattle.pef_folders.specs.declared.folders.FolderFault.{FolderFault};

use std::alloc::{AllocError, Global};
use thiserror::Error;

/// A folder could not be listed.
#[derive(Clone, Copy, Debug, PartialEq, Eq, Error)]
pub enum FolderFault {
    /// There is no such folder, it can't be read, or a name in it isn't valid UTF-8.
    #[error("the folder failed")]
    Failed,
    /// An allocation failed.
    #[error("out of memory")]
    OutOfMemory,
}

/// The folders of a system, by their paths.
pub trait Folders {
    /// Whether a call of `file_names` by a path may have this result. Clauses use it to say which calls were made. A port need not
    /// define it.
    ghost did_list: { Self → List ℕ → Result (List (List ℕ)) FolderFault → Type 0 } = { λ _ _ _. Unit {0} };

    /// Returns the names of the files in the folder at `path`, in the order of their bytes. Folders in it are left out.
    fn file_names(&self, alloc: Global, path: &str) -> Result<Vec<String>, FolderFault>
        ensures { did_list self.now path.now (names_seen result) };
}
