ghost use Rattle.std.specs.Prelude.{◌≡◌, IfOk, IsSome, OnOk, Contains, None, Some, slice_index_or};
ghost use Rattle.pef_loader.specs.Loader.{Loaded};
ghost use Rattle.cfm_closure.specs.Fragments.{loader_at};
ghost use Rattle.cfm_store.specs.Exported.{MeansFirst};
ghost use Rattle.cfm_closure.specs.Kept.Names.{AreNamesOf};

use crate::bindings::Bindings;
use cfm_store::{NamedExports, PlaceTable};
use pef_format::ExportValue;
use std::alloc::{AllocError, Global};

/// The exports of a closure's fragments by their names.
#[derive(Drop)]
pub(crate) struct ExportNames<'a> {
    alloc: Global,
    /// The exports of the fragments of which one was asked for.
    tables: PlaceTable<NamedExports<'a>>,
}

impl<'a> ExportNames<'a> {
    /// Returns the exports of the fragments of a closure order, none of which was asked for.
    pub fn new(alloc: Global, bindings: &Bindings<'a>) -> Result<ExportNames<'a>, AllocError>
        ensures { IfOk result (λ names. AreNamesOf bindings.now.pairs bindings.now.order names) }
    {
        let tables = bindings.table(alloc)?;
        Ok(ExportNames { alloc, tables })
    }

    /// Returns what the first export with a name of a fragment of the closure order means.
    pub fn find(
        &mut self,
        bindings: &Bindings<'a>,
        q: usize,
        name: &[u8],
    ) -> Result<Option<ExportValue>, AllocError>
        requires place { Contains bindings.now.order q }
        requires names { AreNamesOf bindings.now.pairs bindings.now.order self.old }
        ensures names { AreNamesOf bindings.now.pairs bindings.now.order self.new }
        ensures value { IfOk result (λ v. (l : Loaded) → loader_at bindings.now.pairs q ≡ Some l → MeansFirst l name.now v) }
    {
        if self.tables.get(q).is_none() {
            self.begin(bindings, q)?;
        }
        self.find_in(bindings, q, name)
    }

    /// Begins to find exports of a fragment.
    fn begin(&mut self, bindings: &Bindings<'a>, q: usize) -> Result<(), AllocError>
        requires place { Contains bindings.now.order q }
        requires names { AreNamesOf bindings.now.pairs bindings.now.order self.old }
        ensures names { AreNamesOf bindings.now.pairs bindings.now.order self.new }
        ensures begun { OnOk result (IsSome (slice_index_or self.new.tables q None)) }
    {
        let fragment = bindings.fragment(q);
        let names = NamedExports::new(fragment.loader);
        self.tables.put(q, names)?;
        Ok(())
    }

    /// Returns what the first export with a name means, of a fragment that was begun.
    fn find_in(
        &mut self,
        bindings: &Bindings<'a>,
        q: usize,
        name: &[u8],
    ) -> Result<Option<ExportValue>, AllocError>
        requires place { Contains bindings.now.order q }
        requires names { AreNamesOf bindings.now.pairs bindings.now.order self.old }
        requires begun { IsSome (slice_index_or self.old.tables q None) }
        ensures names { AreNamesOf bindings.now.pairs bindings.now.order self.new }
        ensures value { IfOk result (λ v. (l : Loaded) → loader_at bindings.now.pairs q ≡ Some l → MeansFirst l name.now v) }
    {
        let names = self.tables.value_mut(q);
        names.find(self.alloc, name)
    }
}
