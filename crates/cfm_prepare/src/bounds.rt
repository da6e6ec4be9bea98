ghost use Rattle.std.specs.Prelude.{◌≡◌, Contains, IfErr, IfSome, OnOk, Some};
ghost use Rattle.std.specs.Option.{IfNone};
ghost use Rattle.cfm_prepare.specs.Bounds.{AreWithin, PassesAt, bytes_in, bytes_of, steps_in};
ghost use Rattle.cfm_prepare.specs.Fragments.{new_among};
ghost use Rattle.cfm_sections.specs.Images.{extents_of};
ghost use Rattle.cfm_prepare.specs.Kept.Bounds.{IsPastBounds, first_past, left_of, weight_of};
ghost use Rattle.cfm_prepare.specs.Made.{choices_of};
ghost use Rattle.pef_loader.specs.Loader.{reloc_of};
ghost use Rattle.pef_loader.specs.Views.{loaded};
ghost use Rattle.pef_reloc.specs.Headers.{steps_by};
ghost use Rattle.pef_views.specs.Views.{contained};

use crate::fault::PrepareFault;
use crate::options::Options;
use crate::slots::Slots;
use cfm_closure::Closure;
use cfm_memory::Granule;
use pef_loader::Loader;
use pef_reloc::Program;
use pef_views::Container;

/// What is counted of new fragments.
#[derive(Clone, Copy)]
pub(crate) enum Measure {
    /// The bytes that their sections take, in memory with this granule.
    Bytes(Granule),
    /// The steps that their relocation programs take.
    Steps,
}

/// Tests that the fragments of a closure that aren't present take no more than the options of a context allow.
///
/// # Errors
///
/// `TooManyBytes` or else `TooManyStepsInAll`, with the first fragment with which they take more.
pub(crate) fn test_bounds<'a>(
    closure: &Closure<'a>,
    present: &Slots,
    granule: Granule,
    options: &Options,
) -> Result<(), PrepareFault<'a>>
    ensures bytes { OnOk result (AreWithin options.now.bytes (bytes_in closure.now.pairs granule.bytes) (new_among present.now.items closure.now.order)) }
    ensures steps { OnOk result (AreWithin options.now.steps (steps_in closure.now.pairs) (new_among present.now.items closure.now.order)) }
    ensures refused { IfErr result (λ fault. IsPastBounds closure.now.pairs granule.bytes (choices_of options.now).bounds (new_among present.now.items closure.now.order) fault) }
{
    if let Some(position) = first_past(closure, present, Measure::Bytes(granule), options.bytes) {
        return Err(PrepareFault::TooManyBytes {
            fragment: closure.name(position),
        });
    }
    if let Some(position) = first_past(closure, present, Measure::Steps, options.steps) {
        return Err(PrepareFault::TooManyStepsInAll {
            fragment: closure.name(position),
        });
    }
    Ok(())
}

/// Returns the first new fragment with which the new fragments take more than a bound.
fn first_past(
    closure: &Closure<'_>,
    present: &Slots,
    measure: Measure,
    most: Option<u64>,
) -> Option<usize>
    ensures member { IfSome result (λ p. Contains closure.now.order p) }
    ensures past { IfSome result (λ p. PassesAt most (weight_of measure closure.now.pairs) (new_among present.now.items closure.now.order) p) }
    ensures within { IfNone result (AreWithin most (weight_of measure closure.now.pairs) (new_among present.now.items closure.now.order)) }
{
    match most {
        Some(most) => first_past_of(closure, present, measure, most),
        None => None,
    }
}

/// Returns the first new fragment with which the new fragments take more than `most`.
fn first_past_of(
    closure: &Closure<'_>,
    present: &Slots,
    measure: Measure,
    most: u64,
) -> Option<usize>
    ensures member { IfSome result (λ p. Contains closure.now.order p) }
    ensures first { result ≡ first_past (weight_of measure closure.now.pairs) most (new_among present.now.items closure.now.order) }
{
    let mut left = most;
    for position in closure.order() {
        if !present.has(*position) {
            match left_after(closure, *position, measure, left) {
                Some(less) => left = less,
                None => return Some(*position),
            }
        }
    }
    None
}

/// Returns what is left after a fragment of a closure, or `None` if it takes more.
fn left_after(closure: &Closure<'_>, position: usize, measure: Measure, left: u64) -> Option<u64>
    requires { Contains closure.now.order position }
    ensures { result ≡ left_of left (weight_of measure closure.now.pairs position) }
{
    match measure {
        Measure::Bytes(granule) => {
            left_after_sections(&closure.container(position), granule, left)
        }
        Measure::Steps => left_after_programs(&closure.loader(position), left),
    }
}

/// Returns how many bytes are left after the sections of a container, or `None` if they take more.
fn left_after_sections(container: &Container<'_>, granule: Granule, bytes: u64) -> Option<u64>
    ensures { result ≡ left_of bytes (bytes_of granule.bytes (extents_of (contained container.now))) }
{
    let mut left = bytes;
    let count = usize::from(container.header().instantiated_section_count);
    for i in 0..count {
        let Some(section) = container.section(i) else {
            unreachable!()
        };
        let taken = granule.taken(section.header.total_size);
        if taken > left {
            return None;
        }
        left -= taken;
    }
    Some(left)
}

/// Returns how many steps are left after the relocation programs of a fragment, or `None` if they take more. The
/// programs after one that can't be read aren't reached.
fn left_after_programs(loader: &Loader<'_>, steps: u64) -> Option<u64>
    ensures { result ≡ left_of steps (steps_by (reloc_of (loaded loader.now)) 0 (loaded loader.now).header.reloc_count) }
{
    let mut left = steps;
    for i in 0..loader.relocs() {
        let Some((_, bytes)) = loader.reloc(i) else {
            unreachable!()
        };
        let Ok(program) = Program::read(bytes) else {
            return Some(left);
        };
        let taken = u64::from(program.steps());
        if taken > left {
            return None;
        }
        left -= taken;
    }
    Some(left)
}
