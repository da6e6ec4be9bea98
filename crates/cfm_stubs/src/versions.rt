ghost use Rattle.std.specs.Prelude.{◌≡◌, fold, map, option_map};
ghost use Rattle.pef_loader.specs.Views.{library_seen, loaded};
ghost use Rattle.cfm_stubs.specs.Versions.{entries_in, library_versions, noted, own_entry};

use pef_loader::{LibraryView, Loader};
use pef_script::Versions;

/// Returns the versions of a stub of a library. They fit each entry that these fragments have for the library: the current version
/// is the newest that an entry names, and the oldest definition that is served is the oldest.
#[tactic(auto, unfolding(crate::specs::Versions::library_versions))]
pub fn library_versions(loaders: &[Loader<'_>], library: &[u8]) -> Versions
    ensures { result ≡ library_versions (map loaded loaders.now) library.now }
{
    let mut found = None;
    for loader in loaders {
        found = with_entries(found, loader, library);
    }
    match found {
        Some(versions) => versions,
        None => Versions {
            current: 0,
            old_def: 0,
            old_imp: 0,
        },
    }
}

/// Returns versions that also serve the entries of a fragment for a library.
fn with_entries(found: Option<Versions>, loader: &Loader<'_>, library: &[u8]) -> Option<Versions>
    ensures { result ≡ fold noted found (entries_in library.now (loaded loader.now)) }
{
    let mut served = found;
    for k in 0..loader.libraries() {
        served = with_entry(served, loader.library(k), library);
    }
    served
}

/// Returns versions that also serve an entry, if it is there and is one for the library.
fn with_entry(
    found: Option<Versions>,
    entry: Option<LibraryView<'_>>,
    library: &[u8],
) -> Option<Versions>
    ensures { result ≡ fold noted found (own_entry library.now (option_map library_seen entry.entry)) }
{
    let Some(entry) = entry else {
        return found;
    };
    if entry.name != library {
        return found;
    }
    let fields = entry.fields;
    Some(match found {
        Some(versions) => Versions {
            current: versions.current.max(fields.current),
            old_def: versions.old_def.min(fields.current),
            old_imp: versions.old_imp.max(fields.old_imp),
        },
        None => Versions {
            current: fields.current,
            old_def: fields.current,
            old_imp: fields.old_imp,
        },
    })
}
