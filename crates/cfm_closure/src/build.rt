ghost use Rattle.std.specs.Prelude.{◌<◌, length};
ghost use Rattle.cfm_closure.specs.Faults.{Answers};
ghost use Rattle.cfm_closure.specs.Closures.{closed_of};
ghost use Rattle.cfm_closure.specs.Kept.Caches.{IsCache};

use crate::bindings::Bindings;
use crate::cache::Cache;
use crate::closures::Closure;
use crate::fault::BindFault;
use crate::init_order::initialized;
use crate::resolve::resolve_targets;
use cfm_store::Store;
use std::alloc::Global;

/// Returns the closure of the fragment in a place of a store, as [`Store::find`] gives it for a name.
///
/// # Errors
///
/// The first refusal. Fragments and library entries come first, in the order in which the walk visits
/// them. Imports come next, fragment by fragment in closure order, import by import. The order of
/// initialization comes last. `OutOfMemory` may come instead of any later result.
pub fn closure<'a>(
    alloc: Global,
    store: &Store<'a>,
    root: usize,
) -> Result<Closure<'a>, BindFault<'a>>
    requires { root < length store.now }
    ensures { Answers (λ c. c) result (closed_of store.now root) }
{
    let mut cache = Cache::empty(alloc);
    closure_with(alloc, store, &mut cache, root)
}

/// Returns the closure as [`closure`] does. What is in a cache of the store isn't read again.
#[tactic(auto, unfolding(crate::specs::Closures::closed_of))]
pub(crate) fn closure_with<'a>(
    alloc: Global,
    store: &Store<'a>,
    cache: &mut Cache<'a>,
    root: usize,
) -> Result<Closure<'a>, BindFault<'a>>
    requires root { root < length store.now }
    requires cache { IsCache store.now cache.old }
    ensures answer { Answers (λ c. c) result (closed_of store.now root) }
    ensures cache { IsCache store.now cache.new }
{
    let mut bindings = Bindings::of(alloc, store, cache, root)?;
    resolve_targets(alloc, &mut bindings)?;
    let init_order = initialized(alloc, &bindings)?;
    cache.keep_targets(&mut bindings)?;
    Ok(Closure {
        bindings,
        init_order,
    })
}
