ghost use Rattle.std.specs.Prelude.{◌≡◌, IfOk, OnErr, OnOk, false, true};
ghost use Rattle.pef_loader.specs.Views.{loaded};
ghost use Rattle.cfm_store.specs.Exported.{MeansFirst};

use crate::name_index::NameIndex;
use pef_format::ExportValue;
use pef_loader::Loader;
use std::alloc::{AllocError, Global};
use std::marker::Model;

/// After searches of this many exports and bytes of names an index of all exports is made. It takes longer than a few searches.
const MOST_SEARCHED: usize = 1 << 20;

/// The exports of a loader section by their names. A search of the export table may look at each export and takes all bytes of
/// the name, so if many names are asked for, they are looked up in an index.
#[derive(Drop)]
pub struct NamedExports<'a> {
    loader: Loader<'a>,
    /// How many exports and bytes of names the searches of the export table may have looked at.
    searched: usize,
    index: Option<NameIndex<'a>>,
}

impl<'a> Model for NamedExports<'a> {
    ghost use Rattle.std.specs.Prelude.{◌&&◌, IfSome, is_none, nat_le};
    ghost use Rattle.pef_loader.specs.Views.{loaded};
    ghost use Rattle.cfm_store.specs.Exported.{NamedTable};
    ghost use Rattle.cfm_store.specs.Kept.NameIndexes.{IsIndex};

    ghost Value = { NamedTable };

    ghost view = { λ s. record { loader = loaded s.loader; is_due = is_none s.index && nat_le 1048576 s.searched } };

    ghost invariant = { λ s. IfSome s.index (IsIndex (loaded s.loader)) };
}

impl<'a> NamedExports<'a> {
    /// Returns the exports of a loader section.
    pub fn new(loader: Loader<'a>) -> NamedExports<'a>
        ensures { result ≡ record { loader = loaded loader.entry; is_due = false } }
    {
        NamedExports {
            loader,
            searched: 0,
            index: None,
        }
    }

    /// Returns what the first export with a name means, or `None` if there is none.
    ///
    /// # Errors
    ///
    /// `AllocError` if the index is due and an allocation fails.
    pub fn find(&mut self, alloc: Global, name: &[u8]) -> Result<Option<ExportValue>, AllocError>
        ensures value { IfOk result (MeansFirst self.old.loader name.now) }
        ensures same { self.new.loader ≡ self.old.loader }
        ensures lacks { OnErr result (self.old.is_due ≡ true) }
    {
        if self.is_due() {
            self.make_index(alloc)?;
        }
        Ok(self.look_up(name))
    }

    /// Returns whether so much was searched that the index is due.
    fn is_due(&self) -> bool
        ensures { result ≡ self.now.is_due }
    {
        self.index.is_none() && self.searched >= MOST_SEARCHED
    }

    /// Makes the index.
    fn make_index(&mut self, alloc: Global) -> Result<(), AllocError>
        ensures same { self.new.loader ≡ self.old.loader }
    {
        self.index = Some(NameIndex::new(alloc, &self.loader)?);
        Ok(())
    }

    /// Looks a name up in the index if it is made, and otherwise searches the export table.
    fn look_up(&mut self, name: &[u8]) -> Option<ExportValue>
        ensures value { MeansFirst self.old.loader name.now result }
        ensures same { self.new.loader ≡ self.old.loader }
    {
        if let Some(index) = &self.index {
            return index.find(name);
        }
        let search = self.loader.exports().saturating_add(name.len());
        self.searched = self.searched.saturating_add(search);
        self.search(name)
    }

    /// Searches the export table for the first export with a name, and returns what it means.
    fn search(&self, name: &[u8]) -> Option<ExportValue>
        ensures { MeansFirst self.now.loader name.now result }
    {
        let export = self.loader.export_named(name)?;
        let export = self.loader.export(export)?;
        Some(export.fields.value())
    }
}
