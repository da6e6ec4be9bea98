ghost use Rattle.std.specs.Prelude.{◌≡◌, ◌+◌, ◌*◌, ◌<◌, ◌^◌, IfOk, MatchResult, None, length, map};
ghost use Rattle.std.specs.List.{AllByRecursion};
ghost use Rattle.pef_loader.specs.Views.{loaded};
ghost use Rattle.cfm_stubs.specs.Lacking.{lacking_in, loaders_in, wanted};
ghost use Rattle.cfm_stubs.specs.MemoryStubs.{AreMemoryStubs, memory_refusals};
ghost use Rattle.cfm_stubs.specs.NumberStubs.{IsReadStub, number_refusals, number_stubs};
ghost use Rattle.cfm_stubs.specs.Stubs.{FailsAs};
ghost use Rattle.cfm_stubs.specs.Values.{AreStubs, refusals};
ghost use Rattle.cfm_stubs.specs.Views.{lacking_seen};

use crate::fault::StubFault;
use crate::library::Lacking;
use crate::made::Stub;
use crate::making::number_stub;
use crate::memory::memory_stub;
use crate::missing::{lacking_from, loaders_of};
use crate::values::StubValues;
use cfm_store::Store;
use pef_loader::Loader;
use std::alloc::{AllocError, Global};

/// Returns the stubs of the libraries that a store lacks ([`lacking`](crate::lacking)), in their order. Numbers go on from one stub to
/// the next, so each number belongs to one symbol. With `weak` false, libraries whose entries are all weak get none.
///
/// # Errors
///
/// The first that [`stub`](crate::stub) has for one of them.
pub fn stubs<'a>(
    alloc: Global,
    store: &Store<'a>,
    values: StubValues,
    weak: bool,
) -> Result<Vec<Stub<'a>>, StubFault>
    ensures { MatchResult result (λ made. AreStubs values (loaders_in store.now) (wanted weak (lacking_in store.now)) made.items × (refusals values (loaders_in store.now) (wanted weak (lacking_in store.now)) ≡ None)) (λ fault. FailsAs fault (refusals values (loaders_in store.now) (wanted weak (lacking_in store.now)))) }
{
    let loaders = loaders_of(alloc, store)?;
    let lacking = lacking_from(alloc, store, &loaders)?;
    let names = wanted(alloc, &lacking, weak)?;
    match values {
        StubValues::Numbers { first, step } => number_stubs(alloc, &loaders, &names, first, step),
        StubValues::Memory { word, size } => memory_stubs(alloc, &loaders, &names, word, size),
    }
}

/// Returns the names of the libraries that get stubs.
fn wanted<'a>(
    alloc: Global,
    lacking: &[Lacking<'a>],
    weak: bool,
) -> Result<Vec<&'a [u8]>, AllocError>
    ensures { IfOk result (λ names. map (λ name. name.now) names.items ≡ wanted weak (map lacking_seen lacking.now)) }
{
    let mut names = Vec::new(alloc);
    for library in lacking {
        if weak || !library.is_weak {
            names.push(library.name)?;
        }
    }
    Ok(names)
}

/// Returns the stubs of some libraries, with numbers that go on from one to the next.
fn number_stubs<'a>(
    alloc: Global,
    loaders: &[Loader<'a>],
    names: &[&'a [u8]],
    first: u32,
    step: u32,
) -> Result<Vec<Stub<'a>>, StubFault>
    ensures { MatchResult result (λ made. ((made.items ≡ number_stubs (map loaded loaders.entry.now) first step (map (λ name. name.now) names.entry.now)) × AllByRecursion (IsReadStub (map loaded loaders.entry.now)) made.items) × (number_refusals (map loaded loaders.entry.now) first step (map (λ name. name.now) names.entry.now) ≡ None)) (λ fault. FailsAs fault (number_refusals (map loaded loaders.entry.now) first step (map (λ name. name.now) names.entry.now))) }
{
    let mut made = Vec::with_capacity(alloc, names.len())?;
    let mut next = u64::from(first);
    for name in names {
        let stub = match number_stub(alloc, loaders, *name, next, step) {
            Ok(stub) => stub,
            Err(fault) => return Err(fault),
        };
        next = number_after(next, step, &stub);
        made.push(stub)?;
    }
    Ok(made)
}

/// Returns the stubs of some libraries, whose symbols are memory.
fn memory_stubs<'a>(
    alloc: Global,
    loaders: &[Loader<'a>],
    names: &[&'a [u8]],
    word: u32,
    size: u32,
) -> Result<Vec<Stub<'a>>, StubFault>
    ensures { MatchResult result (λ made. AreMemoryStubs (map loaded loaders.entry.now) word size (map (λ name. name.now) names.entry.now) made.items × (memory_refusals (map loaded loaders.entry.now) size (map (λ name. name.now) names.entry.now) ≡ None)) (λ fault. FailsAs fault (memory_refusals (map loaded loaders.entry.now) size (map (λ name. name.now) names.entry.now))) }
{
    let mut made = Vec::with_capacity(alloc, names.len())?;
    for name in names {
        let stub = match memory_stub(alloc, loaders, *name, word, size) {
            Ok(stub) => stub,
            Err(fault) => return Err(fault),
        };
        made.push(stub)?;
    }
    Ok(made)
}

/// Returns the first number after those of a stub, whose first number is `first`.
fn number_after(first: u64, step: u32, stub: &Stub<'_>) -> u64
    requires { first + step * length stub.now.exports < 2 ^ 64 }
    ensures { result ≡ first + step * length stub.now.exports }
{
    first + u64::from(step) * stub.len() as u64
}
