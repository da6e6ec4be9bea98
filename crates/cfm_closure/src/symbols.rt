ghost use Rattle.std.specs.Prelude.{◌≡◌, ◌<◌, None, Contains, IfOk, IfSome, option_map};
ghost use Rattle.pef_format.specs.Symbols.{import_seen};
ghost use Rattle.cfm_closure.specs.Fragments.{import_at, library_count};
ghost use Rattle.cfm_closure.specs.Kept.Symbols.{AreSymbolsOf, table_at};

use crate::bindings::Bindings;
use crate::import_table::ImportTable;
use cfm_store::PlaceTable;
use pef_format::ImportView;
use std::alloc::{AllocError, Global};

/// The imports of the fragments of a closure. The imports of a fragment are read once, all together, when
/// one of them is needed: in its turn, or earlier if the exports of another fragment pass it on.
#[derive(Drop)]
pub(crate) struct Symbols<'a> {
    alloc: Global,
    /// The imports of the fragments that were read. `None` for those that were released.
    tables: PlaceTable<Option<ImportTable<'a>>>,
}

impl<'a> Symbols<'a> {
    /// Returns the imports of a closure's fragments, none of which was read yet.
    pub fn new(alloc: Global, bindings: &Bindings<'a>) -> Result<Symbols<'a>, AllocError>
        ensures { IfOk result (λ symbols. AreSymbolsOf bindings.now.pairs bindings.now.order symbols) }
    {
        let tables = bindings.table(alloc)?;
        Ok(Symbols { alloc, tables })
    }

    /// Returns import `j` of a fragment of the closure order, or `None` past the last one.
    pub fn import(
        &mut self,
        bindings: &Bindings<'a>,
        p: usize,
        j: usize,
    ) -> Result<Option<ImportView<'a>>, AllocError>
        requires place { Contains bindings.now.order p }
        requires symbols { AreSymbolsOf bindings.now.pairs bindings.now.order self.old }
        ensures symbols { AreSymbolsOf bindings.now.pairs bindings.now.order self.new }
        ensures value { IfOk result (λ symbol. option_map import_seen symbol ≡ import_at bindings.now.pairs p j) }
        ensures library { IfOk result (λ symbol. IfSome symbol (λ v. v.library < library_count bindings.now.pairs p)) }
    {
        if let Some(Some(table)) = self.tables.get(p) {
            return Ok(table.get(j));
        }
        let fragment = bindings.fragment(p);
        let table = ImportTable::read(self.alloc, fragment.loader)?;
        let import = table.get(j);
        self.tables.put(p, Some(table))?;
        Ok(import)
    }

    /// Releases the imports of a fragment, whose targets are all known.
    pub fn release(&mut self, bindings: &Bindings<'a>, p: usize)
        requires place { Contains bindings.now.order p }
        requires symbols { AreSymbolsOf bindings.now.pairs bindings.now.order self.old }
        ensures gone { table_at self.new.tables p ≡ None }
        ensures symbols { AreSymbolsOf bindings.now.pairs bindings.now.order self.new }
    {
        if self.tables.get(p).is_some() {
            let table = self.tables.value_mut(p);
            *table = None;
        }
    }
}
