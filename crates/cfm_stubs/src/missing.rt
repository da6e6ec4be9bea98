ghost use Rattle.std.specs.Prelude.{◌≡◌, ◌++◌, ◌<◌, IfOk, OnOk, fold, length, map, option_map};
ghost use Rattle.pef_loader.specs.Views.{library_seen, loaded};
ghost use Rattle.cfm_closure.specs.Fragments.{loader_at};
ghost use Rattle.cfm_stubs.specs.Kept.Tables.{lacking_named, weak_with};
ghost use Rattle.cfm_stubs.specs.Lacking.{all_entries, lacking_in, lacking_of, listed, loaders_in, with_entry, with_lacking};
ghost use Rattle.cfm_stubs.specs.Views.{lacking_seen};

use crate::library::Lacking;
use cfm_store::Store;
use indexmap::IndexMap;
use pef_loader::{LibraryView, Loader};
use pef_names::NameKey;
use pef_views::Container;
use std::alloc::{AllocError, Global};

/// Returns the loader sections of the fragments of a store that can be read, in their order.
///
/// # Errors
///
/// `AllocError` if an allocation fails.
#[tactic(auto, unfolding(crate::specs::Lacking::loaders_in))]
pub fn loaders_of<'a>(alloc: Global, store: &Store<'a>) -> Result<Vec<Loader<'a>>, AllocError>
    ensures { IfOk result (λ loaders. map loaded loaders.items ≡ loaders_in store.now) }
{
    let mut loaders = Vec::with_capacity(alloc, store.len())?;
    for p in 0..store.len() {
        add_loader(&mut loaders, read_at(store, p))?;
    }
    Ok(loaders)
}

/// Adds a loader section, if it is there.
fn add_loader<'a>(
    loaders: &mut Vec<Loader<'a>>,
    loader: Option<Loader<'a>>,
) -> Result<(), AllocError>
    ensures { OnOk result (map loaded loaders.new.items ≡ map loaded loaders.old.items ++ listed (option_map loaded loader.entry)) }
{
    let Some(loader) = loader else {
        return Ok(());
    };
    loaders.push(loader)?;
    Ok(())
}

/// Returns the loader section of the fragment in a place, or `None` if it can't be read.
#[tactic(auto, unfolding(cfm_closure::specs::Fragments::fragment_of))]
fn read_at<'a>(store: &Store<'a>, p: usize) -> Option<Loader<'a>>
    requires { p < length store.now }
    ensures { option_map loaded result ≡ loader_at store.now p }
{
    let (_, bytes) = store.at(p);
    let container = match Container::read(bytes) {
        Ok(container) => container,
        Err(_) => return None,
    };
    match Loader::read(&container) {
        Ok(loader) => Some(loader),
        Err(_) => None,
    }
}

/// Returns the libraries that fragments of a store lack, each name once, in the order of the fragments and of their entries.
/// Fragments that can't be read are passed by.
///
/// # Errors
///
/// `AllocError` if an allocation fails.
#[tactic(auto, unfolding(crate::specs::Lacking::lacking_in))]
pub fn lacking<'a>(alloc: Global, store: &Store<'a>) -> Result<Vec<Lacking<'a>>, AllocError>
    ensures { IfOk result (λ found. map lacking_seen found.items ≡ lacking_in store.now) }
{
    let loaders = loaders_of(alloc, store)?;
    lacking_from(alloc, store, &loaders)
}

/// Returns the libraries that some loader sections name and a store lacks.
pub(crate) fn lacking_from<'a>(
    alloc: Global,
    store: &Store<'a>,
    loaders: &[Loader<'a>],
) -> Result<Vec<Lacking<'a>>, AllocError>
    ensures { IfOk result (λ found. map lacking_seen found.items ≡ lacking_of store.now (map loaded loaders.now)) }
{
    let mut weak = IndexMap::new(alloc);
    for loader in loaders {
        add_entries(&mut weak, store, loader)?;
    }
    rows(alloc, &weak)
}

/// Adds the entries of a loader section whose libraries a store lacks.
fn add_entries<'a>(
    weak: &mut IndexMap<NameKey<'a>, bool>,
    store: &Store<'a>,
    loader: &Loader<'a>,
) -> Result<(), AllocError>
    ensures { OnOk result (lacking_named weak.new.entries ≡ fold (with_entry store.now) (lacking_named weak.old.entries) (all_entries (loaded loader.entry.now))) }
{
    for k in 0..loader.libraries() {
        add_entry(weak, store, loader.library(k))?;
    }
    Ok(())
}

/// Adds an entry, if it is there and the store lacks its library.
fn add_entry<'a>(
    weak: &mut IndexMap<NameKey<'a>, bool>,
    store: &Store<'a>,
    entry: Option<LibraryView<'a>>,
) -> Result<(), AllocError>
    ensures { OnOk result (lacking_named weak.new.entries ≡ fold (with_entry store.now) (lacking_named weak.old.entries) (listed (option_map library_seen entry.entry))) }
{
    let Some(entry) = entry else {
        return Ok(());
    };
    match store.find(entry.name) {
        Some(_) => Ok(()),
        None => add_lacking(weak, entry),
    }
}

/// Adds an entry for a library that is lacking.
fn add_lacking<'a>(
    weak: &mut IndexMap<NameKey<'a>, bool>,
    entry: LibraryView<'a>,
) -> Result<(), AllocError>
    ensures { OnOk result (lacking_named weak.new.entries ≡ with_lacking (lacking_named weak.old.entries) (library_seen entry.entry)) }
{
    let each = are_weak(weak, entry);
    weak.insert(NameKey { bytes: entry.name }, each)?;
    Ok(())
}

/// Returns whether all entries for a library are weak, with one more.
fn are_weak(weak: &IndexMap<NameKey<'_>, bool>, entry: LibraryView<'_>) -> bool
    ensures { result ≡ weak_with (library_seen entry.entry) weak.now.entries }
{
    let own = entry.fields.options().weak;
    match weak.get(&NameKey { bytes: entry.name }) {
        Some(others) => *others && own,
        None => own,
    }
}

/// Returns the rows of a table of names.
fn rows<'a>(
    alloc: Global,
    weak: &IndexMap<NameKey<'a>, bool>,
) -> Result<Vec<Lacking<'a>>, AllocError>
    ensures { IfOk result (λ rows. map lacking_seen rows.items ≡ lacking_named weak.now.entries) }
{
    let mut rows = Vec::with_capacity(alloc, weak.len())?;
    for k in 0..weak.len() {
        let Some((name, is_weak)) = weak.get_index(k) else {
            unreachable!()
        };
        rows.push(Lacking {
            name: name.bytes,
            is_weak: *is_weak,
        })?;
    }
    Ok(rows)
}
