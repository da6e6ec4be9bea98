ghost use Rattle.std.specs.Prelude.{◌≡◌, ◌<◌, ◌≤◌, ◌^◌, [], Ok, Err, Some, Option, Contains, IfOk, OnOk, length};
ghost use Rattle.std.specs.List.{AllByRecursion};
ghost use Rattle.cfm_store.specs.Stores.{pair_of};
ghost use Rattle.cfm_closure.specs.Faults.{Answers, FailsAs, reexport_loop};
ghost use Rattle.cfm_closure.specs.Fragments.{import_count, import_place};
ghost use Rattle.cfm_closure.specs.Closures.{first_refused, imports_refusal};
ghost use Rattle.cfm_closure.specs.Targets.{exports_among, symbol_of, target_of};
ghost use Rattle.cfm_closure.specs.declared.targets.Target.{Target};
ghost use Rattle.cfm_closure.specs.Kept.Resolutions.{meant};
ghost use Rattle.cfm_closure.specs.Kept.Resolvers.{IsResolver};
ghost use Rattle.cfm_closure.specs.Kept.Targets.{AreKnown, AreResolved, IsKnown, IsOnWay, IsResolved, Keeps, Passes, led_to};

use crate::bindings::Bindings;
use crate::export_names::ExportNames;
use crate::fault::BindFault;
use crate::hops::{Hop, import_hop};
use crate::symbols::Symbols;
use crate::targets::Resolution;
use std::alloc::{AllocError, Global};

/// The search for the targets of a closure's imports.
#[derive(Drop)]
pub(crate) struct Resolver<'a> {
    alloc: Global,
    /// How many exports the fragments have. An import that takes more hops is endless.
    exports: usize,
    symbols: Symbols<'a>,
    names: ExportNames<'a>,
}

/// Returns how many exports the fragments of the closure have.
fn exports<'a>(bindings: &Bindings<'a>) -> usize
    ensures count { result ≡ exports_among bindings.now.pairs bindings.now.order }
    ensures few { result ≤ 2 ^ 40 }
{
    let mut exports = 0;
    for p in bindings.order() {
        exports += bindings.fragment(*p).loader.exports();
    }
    exports
}

/// Notes the target of all imports on a way.
fn note_way<'a>(bindings: &mut Bindings<'a>, way: &[(usize, usize)], resolution: Resolution)
    requires { AllByRecursion (IsOnWay bindings.old.pairs bindings.old.order (Some (Ok (meant resolution)))) way.now }
    ensures keeps { Keeps bindings.old bindings.new }
    ensures known { AreKnown bindings.new.rows way.now (length way.now) }
{
    for import in way {
        bindings.note(import.0, import.1, resolution);
    }
}

/// Returns the refusal of an import that leads through exports without end.
fn endless<'a>(bindings: &Bindings<'a>, p: usize, j: usize) -> BindFault<'a>
    requires place { Contains bindings.now.order p }
    requires import { j < import_count bindings.now.pairs p }
    ensures { FailsAs {A = Option Target} result (Err (reexport_loop (pair_of bindings.now.pairs p).name (symbol_of bindings.now.pairs p j) (import_place bindings.now.pairs p j))) }
{
    let fragment = bindings.fragment(p);
    match fragment.loader.import(j) {
        Some(symbol) => BindFault::ReexportLoop {
            fragment: fragment.name,
            symbol: symbol.name,
            place: fragment.import_place(j),
        },
        None => unreachable!(),
    }
}

impl<'a> Resolver<'a> {
    /// Returns a search in which no imports were read.
    fn new(alloc: Global, bindings: &Bindings<'a>) -> Result<Resolver<'a>, AllocError>
        ensures { IfOk result (λ resolver. IsResolver bindings.now.pairs bindings.now.order resolver) }
    {
        let symbols = Symbols::new(alloc, bindings)?;
        let names = ExportNames::new(alloc, bindings)?;
        Ok(Resolver {
            alloc,
            exports: exports(bindings),
            symbols,
            names,
        })
    }

    /// Follows an import through the exports that pass it on, up to one whose target is known or that ends there,
    /// and returns the imports on the way.
    fn follow(
        &mut self,
        bindings: &Bindings<'a>,
        way: &mut Vec<(usize, usize)>,
        p: usize,
        j: usize,
    ) -> Result<Resolution, BindFault<'a>>
        requires place { Contains bindings.now.order p }
        requires import { j < import_count bindings.now.pairs p }
        requires resolver { IsResolver bindings.now.pairs bindings.now.order self.old }
        requires way { way.old.items ≡ [] }
        ensures resolver { IsResolver bindings.now.pairs bindings.now.order self.new }
        ensures answer { Answers meant result (target_of bindings.now.pairs p j) }
        ensures way { OnOk result (AllByRecursion (IsOnWay bindings.now.pairs bindings.now.order (led_to bindings.now.pairs (p, j))) way.new.items) }
    {
        let mut at = (p, j);
        for _hop in 0..self.exports + 1 {
            if let Some(resolution) = bindings.target(at.0, at.1) {
                return Ok(resolution);
            }
            match import_hop(bindings, &mut self.symbols, &mut self.names, at.0, at.1)? {
                Hop::Ends(resolution) => return Ok(resolution),
                Hop::Through { fragment, import } => at = (fragment, import),
            }
            way.push(at)?;
        }
        Err(endless(bindings, p, j))
    }

    /// Finds the target of an import, and notes it for all imports on the way.
    fn resolve(
        &mut self,
        bindings: &mut Bindings<'a>,
        p: usize,
        j: usize,
    ) -> Result<Resolution, BindFault<'a>>
        requires place { Contains bindings.old.order p }
        requires import { j < import_count bindings.old.pairs p }
        requires resolver { IsResolver bindings.old.pairs bindings.old.order self.old }
        ensures resolver { IsResolver bindings.old.pairs bindings.old.order self.new }
        ensures answer { Answers meant result (target_of bindings.old.pairs p j) }
        ensures keeps { OnOk result (Keeps bindings.old bindings.new) }
        ensures known { OnOk result (IsKnown bindings.new.rows p j) }
    {
        let mut way = Vec::new(self.alloc);
        let resolution = self.follow(bindings, &mut way, p, j)?;
        note_way(bindings, &way, resolution);
        bindings.note(p, j, resolution);
        Ok(resolution)
    }

    /// Resolves the imports of a fragment, import by import. Those whose targets are shared are resolved already.
    fn resolve_imports(
        &mut self,
        bindings: &mut Bindings<'a>,
        p: usize,
    ) -> Result<(), BindFault<'a>>
        requires place { Contains bindings.old.order p }
        requires resolver { IsResolver bindings.old.pairs bindings.old.order self.old }
        ensures resolver { IsResolver bindings.old.pairs bindings.old.order self.new }
        ensures answer { Passes result (imports_refusal bindings.old.pairs p) }
        ensures keeps { OnOk result (Keeps bindings.old bindings.new) }
        ensures known { OnOk result (IsResolved bindings.old.pairs bindings.new.rows p) }
    {
        if bindings.is_shared(p) {
            return Ok(());
        }
        self.find_targets(bindings, p)
    }

    /// Finds the targets of a fragment's imports, import by import.
    fn find_targets(&mut self, bindings: &mut Bindings<'a>, p: usize) -> Result<(), BindFault<'a>>
        requires place { Contains bindings.old.order p }
        requires resolver { IsResolver bindings.old.pairs bindings.old.order self.old }
        ensures resolver { IsResolver bindings.old.pairs bindings.old.order self.new }
        ensures answer { Passes result (imports_refusal bindings.old.pairs p) }
        ensures keeps { OnOk result (Keeps bindings.old bindings.new) }
        ensures known { OnOk result (IsResolved bindings.old.pairs bindings.new.rows p) }
    {
        for j in 0..bindings.imports(p) {
            self.resolve(bindings, p, j)?;
        }
        self.symbols.release(bindings, p);
        Ok(())
    }
}

/// Finds the targets of all imports of a closure's fragments, which are resolved fragment by fragment in
/// closure order.
pub(crate) fn resolve_targets<'a>(
    alloc: Global,
    bindings: &mut Bindings<'a>,
) -> Result<(), BindFault<'a>>
    ensures answer { Passes result (first_refused bindings.old.pairs bindings.old.order) }
    ensures keeps { OnOk result (Keeps bindings.old bindings.new) }
    ensures resolved { OnOk result (AreResolved bindings.new) }
{
    let mut resolver = Resolver::new(alloc, bindings)?;
    for i in 0..bindings.order().len() {
        let p = bindings.order()[i];
        resolver.resolve_imports(bindings, p)?;
    }
    Ok(())
}
