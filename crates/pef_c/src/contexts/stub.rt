//! Stubs of the libraries that a context lacks.
ghost use Rattle.std.specs.Prelude.{◌≡◌, ◌==◌, IfErr, MatchResult, false};
ghost use Rattle.cfm_stubs.specs.Lacking.{loaders_in};
ghost use Rattle.cfm_stubs.specs.Stubs.{FailsAs};
ghost use Rattle.cfm_stubs.specs.Values.{IsStub, refusal};
ghost use Rattle.pef_c.specs.Contexts.Context.{held};
ghost use Rattle.pef_c.specs.Contexts.Stub.{Makes, StubAnswers, stub_number, values_of};

use crate::contexts::handle::{PefContext, put, take};
use cfm_prepare::Context;
use cfm_stubs::{Stub, StubFault, StubValues, loaders_of, stub};
use pef_records::{BAD_OPTIONS, NOT_OPEN, OUT_OF_MEMORY, ROOM_TOO_SMALL, copy_out, given};
use std::alloc::Global;

/// The size of `PefStubOptions`.
const OPTIONS_SIZE: u32 = 24;

/// What the symbols of a stub are (`PEF_STUB_NUMBERS` and the other).
const NUMBERS: u32 = 1;

const MEMORY: u32 = 2;

/// What a stub is made with.
#[repr(C)]
#[derive(Clone, Copy, Debug, PartialEq, Eq)]
pub struct PefStubOptions {
    /// The size of this struct.
    pub size: u32,
    /// 1 for numbers, 2 for memory.
    pub values: u32,
    pub first: u32,
    pub step: u32,
    pub word: u32,
    pub zeros: u32,
}

/// Makes the stub of a library for the fragments of a context, and copies its container to the front of `buffer`. Counts its symbols.
///
/// Returns 0; or 200 if the buffer is too small, and writes the container's length to `written`; or 202 if the context isn't open,
/// 206 if the options aren't this library's, or the number of the reason why there is no stub.
#[unsafe(no_mangle)]
pub extern "C" fn pef_stub(
    alloc: Global,
    context: &mut PefContext,
    library: &[u8],
    options: &PefStubOptions,
    buffer: &mut [u8],
    written: &mut usize,
    symbol_count: &mut usize,
) -> u32
    ensures same { held context.new ≡ held context.old }
    ensures made { StubAnswers (held context.old) library.now (values_of options.now) buffer.old buffer.new written.old written.new symbol_count.old symbol_count.new result }
{
    let Some(boxed) = take(alloc, context) else {
        return NOT_OPEN;
    };
    let made = stub_in(alloc, &boxed, given(library), options);
    put(context, boxed);
    match made {
        Ok(made) => {
            *symbol_count = made.len();
            match copy_out(made.bytes(), buffer, written) {
                Some(()) => 0,
                None => ROOM_TOO_SMALL,
            }
        }
        Err(number) => number,
    }
}

/// Makes the stub of a library for the fragments of an open context, or returns the number of the reason why there is none.
fn stub_in<'n>(
    alloc: Global,
    context: &Context<'static>,
    library: &'n [u8],
    options: &PefStubOptions,
) -> Result<Stub<'n>, u32>
    ensures made { Makes (values_of options.now) (loaders_in context.now.pairs) library.entry.now result }
    ensures foreign { IfErr result (λ number. ((number == 0) ≡ false) × ((number == 200) ≡ false)) }
{
    let Some(values) = values_of(options) else {
        return Err(BAD_OPTIONS);
    };
    match stub_with(alloc, context, library, values) {
        Ok(made) => Ok(made),
        Err(fault) => Err(stub_number(fault)),
    }
}

/// Makes the stub of a library for the fragments of an open context.
fn stub_with<'n>(
    alloc: Global,
    context: &Context<'static>,
    library: &'n [u8],
    values: StubValues,
) -> Result<Stub<'n>, StubFault>
    ensures { MatchResult result (λ made. IsStub values (loaders_in context.now.pairs) library.entry.now made) (λ fault. FailsAs fault (refusal values (loaders_in context.now.pairs) library.entry.now)) }
{
    let Ok(loaders) = loaders_of(alloc, context.store()) else {
        return Err(StubFault::OutOfMemory);
    };
    stub(alloc, &loaders, library, values)
}

/// Returns what the options say, or `None` if they aren't this library's.
fn values_of(options: &PefStubOptions) -> Option<StubValues>
    ensures { result ≡ values_of options.now }
{
    if options.size != OPTIONS_SIZE {
        return None;
    }
    match options.values {
        NUMBERS => Some(StubValues::Numbers {
            first: options.first,
            step: options.step,
        }),
        MEMORY => Some(StubValues::Memory {
            word: options.word,
            size: options.zeros,
        }),
        _ => None,
    }
}

/// Returns the number of the reason why there is no stub. It is neither 0 nor 200.
fn stub_number(fault: StubFault) -> u32
    ensures number { result ≡ stub_number fault }
    ensures refused { (result == 0) ≡ false }
    ensures foreign { (result == 200) ≡ false }
{
    match fault {
        StubFault::TooManySymbols => 211,
        StubFault::LongName => 212,
        StubFault::TooManyNameBytes => 213,
        StubFault::PastLastNumber => 214,
        StubFault::UnspellableName => 215,
        StubFault::TooManyBytes => 216,
        StubFault::OutOfMemory => OUT_OF_MEMORY,
    }
}
