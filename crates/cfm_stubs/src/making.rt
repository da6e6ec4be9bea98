ghost use Rattle.std.specs.Prelude.{◌≡◌, ◌<◌, ◌^◌, MatchResult, None, map};
ghost use Rattle.pef_loader.specs.Views.{loaded};
ghost use Rattle.cfm_stubs.specs.NumberStubs.{IsReadStub, number_refusal, number_stub};
ghost use Rattle.cfm_stubs.specs.Stubs.{FailsAs};
ghost use Rattle.cfm_stubs.specs.Values.{IsStub, refusal};

use crate::fault::StubFault;
use crate::made::Stub;
use crate::memory::memory_stub;
use crate::numbers::number_from;
use crate::symbols::library_symbols;
use crate::values::StubValues;
use crate::versions::library_versions;
use pef_loader::Loader;
use pef_write::link_exports;
use std::alloc::Global;

/// Returns the stub of a library for some fragments that import from it. It exports what they import, and its versions fit each of
/// their entries for the library. It borrows the library's name, which may be there for a shorter time than the fragments are.
///
/// # Errors
///
/// With numbers `TooManySymbols`, `LongName`, `TooManyNameBytes` and `PastLastNumber`, in this order, if no container can have the
/// symbols. With memory `TooManySymbols`, `UnspellableName`, `TooManyNameBytes` and `TooManyBytes`, in this order, if no script can.
/// And `OutOfMemory`.
pub fn stub<'n, 'a: 'n>(
    alloc: Global,
    loaders: &[Loader<'a>],
    library: &'n [u8],
    values: StubValues,
) -> Result<Stub<'n>, StubFault>
    ensures { MatchResult result (λ made. IsStub values (map loaded loaders.entry.now) library.entry.now made × (refusal values (map loaded loaders.entry.now) library.entry.now ≡ None)) (λ fault. FailsAs fault (refusal values (map loaded loaders.entry.now) library.entry.now)) }
{
    match values {
        StubValues::Numbers { first, step } => {
            number_stub(alloc, loaders, library, u64::from(first), step)
        }
        StubValues::Memory { word, size } => memory_stub(alloc, loaders, library, word, size),
    }
}

/// Returns the stub whose symbols have numbers from a first one on, a step apart.
#[tactic(auto, unfolding(crate::specs::NumberStubs::number_stub))]
pub(crate) fn number_stub<'a>(
    alloc: Global,
    loaders: &[Loader<'a>],
    library: &'a [u8],
    first: u64,
    step: u32,
) -> Result<Stub<'a>, StubFault>
    requires { first < 2 ^ 63 }
    ensures { MatchResult result (λ made. ((made ≡ number_stub (map loaded loaders.entry.now) first step library.entry.now) × IsReadStub (map loaded loaders.entry.now) made) × (number_refusal (map loaded loaders.entry.now) first step library.entry.now ≡ None)) (λ fault. FailsAs fault (number_refusal (map loaded loaders.entry.now) first step library.entry.now)) }
{
    let symbols = library_symbols(alloc, loaders, library)?;
    let exports = number_from(alloc, &symbols, first, step)?;
    let versions = library_versions(loaders, library);
    let bytes = link_exports(alloc, versions, &exports)?;
    Ok(Stub {
        name: library,
        exports,
        bytes,
    })
}
