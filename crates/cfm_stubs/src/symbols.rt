ghost use Rattle.std.specs.Prelude.{◌≡◌, ◌==◌, ◌<◌, Some, IfOk, OnOk, fold, length, map, option_map, slice_get};
ghost use Rattle.pef_format.specs.Symbols.{import_seen};
ghost use Rattle.pef_loader.specs.Views.{loaded};
ghost use Rattle.cfm_stubs.specs.Kept.Tables.{symbol_seen, symbols_in};
ghost use Rattle.cfm_stubs.specs.Symbols.{imports_from, is_from, library_symbols, own_import, with_symbol};

use indexmap::IndexMap;
use pef_format::ImportView;
use pef_loader::Loader;
use pef_names::NameKey;
use std::alloc::{AllocError, Global};
use std::marker::Model;

/// The symbols that some fragments import from a library, each name once, in the order in which the names are met. A symbol has
/// the class of the first import with its name.
#[derive(Drop)]
pub struct Symbols<'a> {
    /// The codes of their classes.
    classes: IndexMap<NameKey<'a>, u8>,
}

impl<'a> Model for Symbols<'a> {
    ghost use Rattle.std.specs.Prelude.{List};
    ghost use Rattle.cfm_stubs.specs.Symbols.{Symbol};
    ghost use Rattle.cfm_stubs.specs.Kept.Tables.{symbols_in};

    ghost Value = { List Symbol };

    ghost view = { λ s. symbols_in s.classes.entries };
}

/// Returns the symbols that some fragments import from a library, which is given by its name.
///
/// # Errors
///
/// `AllocError` if an allocation fails.
#[tactic(auto, unfolding(crate::specs::Symbols::library_symbols))]
pub fn library_symbols<'a>(
    alloc: Global,
    loaders: &[Loader<'a>],
    library: &[u8],
) -> Result<Symbols<'a>, AllocError>
    ensures { IfOk result (λ symbols. symbols ≡ library_symbols (map loaded loaders.entry.now) library.now) }
{
    let mut classes = IndexMap::new(alloc);
    for loader in loaders {
        add_imports(&mut classes, loader, library)?;
    }
    Ok(Symbols { classes })
}

/// Adds the symbols that a fragment imports from a library.
fn add_imports<'a>(
    classes: &mut IndexMap<NameKey<'a>, u8>,
    loader: &Loader<'a>,
    library: &[u8],
) -> Result<(), AllocError>
    ensures { OnOk result (symbols_in classes.new.entries ≡ fold with_symbol (symbols_in classes.old.entries) (imports_from library.now (loaded loader.entry.now))) }
{
    for j in 0..loader.imports() {
        add_import(classes, loader, library, loader.import(j))?;
    }
    Ok(())
}

/// Adds the symbol of an import, if it is there and is one from a library.
fn add_import<'a>(
    classes: &mut IndexMap<NameKey<'a>, u8>,
    loader: &Loader<'a>,
    library: &[u8],
    import: Option<ImportView<'a>>,
) -> Result<(), AllocError>
    ensures { OnOk result (symbols_in classes.new.entries ≡ fold with_symbol (symbols_in classes.old.entries) (own_import (loaded loader.entry.now) library.now (option_map import_seen import.entry))) }
{
    let Some(import) = import else {
        return Ok(());
    };
    if !is_from(loader, library, import) {
        return Ok(());
    }
    add_symbol(classes, import)
}

/// Returns whether an import is one from a library with this name.
fn is_from(loader: &Loader<'_>, library: &[u8], import: ImportView<'_>) -> bool
    ensures { result ≡ is_from (loaded loader.now) library.now (import_seen import.entry) }
{
    match loader.library(import.library) {
        Some(entry) => entry.name == library,
        None => false,
    }
}

/// Adds the symbol of an import, unless its name is there.
fn add_symbol<'a>(
    classes: &mut IndexMap<NameKey<'a>, u8>,
    import: ImportView<'a>,
) -> Result<(), AllocError>
    ensures { OnOk result (symbols_in classes.new.entries ≡ with_symbol (symbols_in classes.old.entries) (import_seen import.entry)) }
{
    let key = NameKey { bytes: import.name };
    if classes.contains_key(&key) {
        return Ok(());
    }
    classes.insert(key, import.fields.class)?;
    Ok(())
}

impl<'a> Symbols<'a> {
    /// Returns how many symbols there are.
    pub fn len(&self) -> usize
        ensures { result ≡ length self.now }
    {
        self.classes.len()
    }

    /// Returns whether there are none.
    pub fn is_empty(&self) -> bool
        ensures { result ≡ (length self.now == 0) }
    {
        self.len() == 0
    }

    /// Returns the name and the class of symbol `k`, which must exist.
    pub fn at(&self, k: usize) -> (&'a [u8], u8)
        requires { k < length self.now }
        ensures { slice_get self.now k ≡ Some (symbol_seen result) }
    {
        match self.get(k) {
            Some(symbol) => symbol,
            None => unreachable!(),
        }
    }

    /// Returns the name and the class of symbol `k`, or `None` past the last one.
    pub fn get(&self, k: usize) -> Option<(&'a [u8], u8)>
        ensures { option_map symbol_seen result ≡ slice_get self.now k }
    {
        let (name, class) = self.classes.get_index(k)?;
        Some((name.bytes, *class))
    }
}
