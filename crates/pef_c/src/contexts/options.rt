//! Opening a context with options, and the version of the library.
ghost use Rattle.std.specs.Prelude.{◌≡◌};
ghost use Rattle.cfm_prepare.specs.Made.{choices_of};
ghost use Rattle.pef_c.specs.Contexts.Context.{held};
ghost use Rattle.pef_c.specs.Contexts.Options.{OpenAnswersWith, OpenWithAnswers, bound_of, or_usual, read_options, version};
ghost use Rattle.pef_words.specs.Refusals.{result_map};

use crate::contexts::handle::{PefContext, put, take};
use cfm_closure::Store;
use cfm_prepare::{Context, Granule, Options};
use pef_records::{BAD_OPTIONS, OUT_OF_MEMORY};
use std::alloc::Global;

/// The version of the library, as `PEF_VERSION_NUMBER` of `include/pef.h` has it: a byte for each part.
const VERSION: u32 = 0x0000_0100;

/// The size of `PefOptions`.
const OPTIONS_SIZE: u32 = 32;

/// What a context is opened with. A field of 0 has its usual value.
#[repr(C)]
#[derive(Clone, Copy, Debug, PartialEq, Eq)]
pub struct PefOptions {
    /// The size of this struct.
    pub size: u32,
    pub limit: u32,
    pub granule: u32,
    pub connections: u32,
    pub steps: u64,
    pub bytes: u64,
}

/// Opens a context without fragments, with options. A context that was open is freed, unless the options are refused.
///
/// Returns 0; or 206 or 205, and then nothing is changed; or 99, and then the context isn't open.
#[unsafe(no_mangle)]
pub extern "C" fn pef_open_with(
    alloc: Global,
    context: &mut PefContext,
    options: &PefOptions,
) -> u32
    ensures { OpenWithAnswers (read_options options.now) (held context.old) (held context.new) result }
{
    match read_options(options) {
        Ok(options) => open(alloc, context, options),
        Err(number) => number,
    }
}

/// Opens a context. Returns 0 or 99.
fn open(alloc: Global, context: &mut PefContext, options: Options) -> u32
    ensures { OpenAnswersWith (choices_of options) (held context.new) result }
{
    let _closed = take(alloc, context);
    match Box::new(
        alloc,
        Context::with_options(alloc, Store::new(alloc), options),
    ) {
        Ok(boxed) => {
            put(context, boxed);
            0
        }
        Err(_) => OUT_OF_MEMORY,
    }
}

/// Returns the options that the fields mean, or the number of the error.
fn read_options(options: &PefOptions) -> Result<Options, u32>
    ensures { result_map choices_of result ≡ read_options options.now }
{
    if options.size != OPTIONS_SIZE {
        return Err(BAD_OPTIONS);
    }
    let usual = Options::new();
    match Granule::new(or_usual(options.granule, usual.granule.bytes())) {
        Ok(granule) => Ok(Options {
            limit: or_usual(options.limit, usual.limit),
            granule,
            connections: or_usual(options.connections, usual.connections),
            steps: bound_of(options.steps),
            bytes: bound_of(options.bytes),
        }),
        Err(fault) => Err(fault.number()),
    }
}

/// Returns a number, or the usual one in place of 0.
fn or_usual(number: u32, usual: u32) -> u32
    ensures { result ≡ or_usual number usual }
{
    if number == 0 { usual } else { number }
}

/// Returns a bound, or none for 0.
fn bound_of(number: u64) -> Option<u64>
    ensures { result ≡ bound_of number }
{
    if number == 0 { None } else { Some(number) }
}

/// Returns the version of the library: the major, the minor and the patch number, a byte each.
#[unsafe(no_mangle)]
pub extern "C" fn pef_version() -> u32
    ensures { result ≡ version }
{
    VERSION
}
