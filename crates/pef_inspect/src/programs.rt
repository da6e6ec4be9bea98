ghost use Rattle.std.specs.Prelude.{◌≡◌, ◌++◌, OnOk};
ghost use Rattle.std.specs.Option.{option_copied};
ghost use Rattle.pef_views.specs.PartialViews.{partly};
ghost use Rattle.pef_loader.specs.PartialViews.{partly_loaded};
ghost use Rattle.pef_inspect.specs.Errors.{headers_of, program_at, program_cost, program_errors, programs_reached, programs_unverified};
ghost use Rattle.pef_inspect.specs.Findings.{program_finding};
ghost use Rattle.pef_inspect.specs.Limits.{left_within};
ghost use Rattle.pef_inspect.specs.Shown.{programs_shown, shown_in_container, shown_in_loader};

use crate::checked::{Checked, Costed, Reach, check_within, less, within};
use crate::finding::{Cause, Finding};
use crate::limits::{Limits, MAX_PROGRAM_BYTES};
use crate::note::Note;
use crate::sink::Findings;
use pef_format::Part;
use pef_loader::{PartialLoader, partial_place};
use pef_reloc::{Program, RelocFault};
use pef_views::PartialContainer;

/// The relocation programs of a loader section, as they are read.
#[derive(Clone, Copy)]
struct Programs<'c, 'a> {
    container: &'c PartialContainer<'a>,
    loader: &'c PartialLoader<'a>,
}

impl<'c, 'a> Costed for Programs<'c, 'a> {
    ghost use Rattle.pef_loader.specs.PartialViews.{partly_loaded};
    ghost use Rattle.pef_inspect.specs.Errors.{program_cost};

    ghost cost = { λ parts k. program_cost (partly_loaded parts.loader.now) k };

    fn rest(&self, i: u32, limit: u64) -> Option<u64> {
        match program(self.loader, i) {
            Some(bytes) => less(limit, bytes.len() as u64),
            None => Some(limit),
        }
    }
}

impl<'c, 'a> Checked for Programs<'c, 'a> {
    ghost use Rattle.pef_views.specs.PartialViews.{partly};
    ghost use Rattle.pef_loader.specs.PartialViews.{partly_loaded};
    ghost use Rattle.pef_inspect.specs.Errors.{program_error, programs_unverified};

    ghost error = { λ parts k. program_error (partly parts.container.now) (partly_loaded parts.loader.now) k };

    ghost unchecked = { λ parts k. programs_unverified (partly parts.container.now) k };

    fn error(&self, i: u32) -> Option<Finding> {
        let bytes = program(self.loader, i)?;
        match Program::read(bytes) {
            Ok(_) => None,
            Err(fault) => Some(program_finding(self.container, i, fault)),
        }
    }

    fn unchecked(&self, i: u32) -> Finding {
        programs_unverified(self.container, i)
    }
}

/// Hands the error of each relocation program that isn't readable to a sink.
pub(crate) fn find_in_programs<S: Findings>(
    container: &PartialContainer<'_>,
    loader: &PartialLoader<'_>,
    limits: Limits,
    sink: &mut S,
) -> Result<(), S::Error>
    ensures { OnOk result (S.taken sink.new ≡ S.taken sink.old ++ program_errors limits (partly container.now) (partly_loaded loader.now)) }
{
    let parts = Programs { container, loader };
    check_within(&parts, limits.program_bytes, headers(loader), sink)
}

/// Returns how many programs are read, and what is left of the limit.
pub(crate) fn programs_within(
    limits: Limits,
    container: &PartialContainer<'_>,
    loader: &PartialLoader<'_>,
) -> Reach
    ensures value { result.count ≡ programs_reached limits (partly_loaded loader.now) }
    ensures left { result.left ≡ left_within (program_cost (partly_loaded loader.now)) limits.program_bytes 0 (headers_of (partly_loaded loader.now)) }
{
    let parts = Programs { container, loader };
    within(&parts, limits.program_bytes, headers(loader))
}

/// Returns how many relocation programs of some bytes as a container are printed instruction by instruction: those of the first
/// headers that together have no more bytes than the loader section, nor than [`MAX_PROGRAM_BYTES`].
#[tactic(auto, unfolding(crate::specs::Shown::programs_shown))]
pub fn programs_shown(bytes: &[u8]) -> u32
    ensures { result ≡ programs_shown bytes.now }
{
    match PartialContainer::read(bytes) {
        Ok(container) => shown_in_container(&container),
        Err(_) => 0,
    }
}

/// Returns how many programs of a container are printed.
fn shown_in_container(container: &PartialContainer<'_>) -> u32
    ensures { result ≡ shown_in_container (partly container.now) }
{
    match PartialLoader::read(container) {
        Ok(loader) => shown_in_loader(container, &loader),
        Err(_) => 0,
    }
}

/// Returns how many programs of a loader section are printed.
fn shown_in_loader(container: &PartialContainer<'_>, loader: &PartialLoader<'_>) -> u32
    ensures { result ≡ shown_in_loader (partly_loaded loader.now) }
{
    let most = (loader.bytes().len() as u64).min(MAX_PROGRAM_BYTES);
    within(&Programs { container, loader }, most, headers(loader)).count
}

/// Returns how many relocation headers there are, or 0 if one isn't in the loader section.
pub(crate) fn headers(loader: &PartialLoader<'_>) -> u32
    ensures { result ≡ headers_of (partly_loaded loader.now) }
{
    if loader.has_relocations() {
        loader.header().reloc_count
    } else {
        0
    }
}

/// Returns the bytes of the program of relocation header `k`.
fn program<'a>(loader: &PartialLoader<'a>, k: u32) -> Option<&'a [u8]>
    ensures { option_copied result ≡ program_at (partly_loaded loader.now) k }
{
    loader.relocation(k as usize)?.program
}

/// Returns the error of the program of relocation header `k`.
pub(crate) fn program_finding(
    container: &PartialContainer<'_>,
    k: u32,
    fault: RelocFault,
) -> Finding
    ensures { result ≡ program_finding (partly container.now) k fault }
{
    Finding {
        cause: Cause::Reloc(fault),
        place: partial_place(container, Part::Program, k, fault.offset().unwrap_or(0)),
    }
}

/// Returns the note that the programs from that of relocation header `k` on weren't verified.
pub(crate) fn programs_unverified(container: &PartialContainer<'_>, k: u32) -> Finding
    ensures { result ≡ programs_unverified (partly container.now) k }
{
    Finding::of_note(
        Note::ProgramsUnverified,
        partial_place(container, Part::Relocation, k, 0),
    )
}
