ghost use Rattle.std.specs.Prelude.{◌≡◌, IfOk};
ghost use Rattle.pef_loader.specs.Loader.{IsLoader, Loaded};
ghost use Rattle.pef_loader.specs.Views.{loaded};
ghost use Rattle.cfm_store.specs.Exported.{MeansFirst};
ghost use Rattle.cfm_store.specs.Kept.NameIndexes.{IsIndex};

use indexmap::IndexMap;
use pef_format::ExportValue;
use pef_loader::Loader;
use pef_names::NameKey;
use std::alloc::{AllocError, Global};

/// What the first export with each name means.
#[derive(Drop)]
pub(crate) struct NameIndex<'a> {
    values: IndexMap<NameKey<'a>, ExportValue>,
    /// The length of the longest name.
    longest: usize,
}

impl<'a> NameIndex<'a> {
    /// Returns the index of the exports of a loader section.
    pub fn new(alloc: Global, loader: &Loader<'a>) -> Result<NameIndex<'a>, AllocError>
        ensures { IfOk result (IsIndex (loaded loader.now)) }
    {
        let mut values = IndexMap::new(alloc);
        let mut longest = 0;
        for i in (0..loader.exports()).rev() {
            let Some(export) = loader.export(i) else {
                unreachable!()
            };
            let key = NameKey { bytes: export.name };
            values.insert(key, export.fields.value())?;
            longest = longest.max(export.name.len());
        }
        Ok(NameIndex { values, longest })
    }

    /// Returns what the first export with a name means.
    pub fn find(&self, name: &[u8]) -> Option<ExportValue>
        ensures { (l : Loaded) → IsLoader l → IsIndex l self.now → MeansFirst l name.now result }
    {
        // a name of a file may be long, and most that no export has are known without reading them
        if name.len() > self.longest {
            return None;
        }
        self.values.get(&NameKey { bytes: name }).copied()
    }
}
