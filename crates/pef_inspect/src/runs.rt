ghost use Rattle.std.specs.Prelude.{◌≡◌, ◌++◌, IfSome, OnOk, option_map};
ghost use Rattle.pef_views.specs.PartialViews.{partly};
ghost use Rattle.pef_loader.specs.PartialViews.{partly_loaded};
ghost use Rattle.pef_inspect.specs.Errors.{programs_reached, run_at, run_cost, run_errors, sizes_at};
ghost use Rattle.pef_inspect.specs.Limits.{left_within};
ghost use Rattle.pef_inspect.specs.Oddities.{runs_reached};

use crate::checked::{Checked, Costed, Reach, check_within, less, within};
use crate::finding::Finding;
use crate::limits::Limits;
use crate::programs::{program_finding, programs_unverified, programs_within};
use crate::sink::Findings;
use pef_loader::PartialLoader;
use pef_reloc::{Program, Sizes, verify};
use pef_views::PartialContainer;

/// The readable relocation programs of a loader section, as they are verified.
#[derive(Clone, Copy)]
struct Runs<'c, 'a> {
    container: &'c PartialContainer<'a>,
    loader: &'c PartialLoader<'a>,
}

impl<'c, 'a> Costed for Runs<'c, 'a> {
    ghost use Rattle.pef_views.specs.PartialViews.{partly};
    ghost use Rattle.pef_loader.specs.PartialViews.{partly_loaded};
    ghost use Rattle.pef_inspect.specs.Errors.{run_cost};

    ghost cost = { λ parts k. run_cost (partly parts.container.now) (partly_loaded parts.loader.now) k };

    fn rest(&self, i: u32, limit: u64) -> Option<u64> {
        match Run::at(self.container, self.loader, i) {
            Some(run) => less(limit, u64::from(run.program.steps())),
            None => Some(limit),
        }
    }
}

impl<'c, 'a> Checked for Runs<'c, 'a> {
    ghost use Rattle.pef_views.specs.PartialViews.{partly};
    ghost use Rattle.pef_loader.specs.PartialViews.{partly_loaded};
    ghost use Rattle.pef_inspect.specs.Errors.{programs_unverified, run_error};

    ghost error = { λ parts k. run_error (partly parts.container.now) (partly_loaded parts.loader.now) k };

    ghost unchecked = { λ parts k. programs_unverified (partly parts.container.now) k };

    fn error(&self, i: u32) -> Option<Finding> {
        let run = Run::at(self.container, self.loader, i)?;
        match verify(&run.program, run.sizes) {
            Ok(()) => None,
            Err(fault) => Some(program_finding(self.container, i, fault)),
        }
    }

    fn unchecked(&self, i: u32) -> Finding {
        programs_unverified(self.container, i)
    }
}

/// Hands the error of each readable program that would be refused in its section to a sink.
pub(crate) fn find_in_runs<S: Findings>(
    container: &PartialContainer<'_>,
    loader: &PartialLoader<'_>,
    limits: Limits,
    sink: &mut S,
) -> Result<(), S::Error>
    ensures { OnOk result (S.taken sink.new ≡ S.taken sink.old ++ run_errors limits (partly container.now) (partly_loaded loader.now)) }
{
    let programs = programs_within(limits, container, loader).count;
    check_within(&Runs { container, loader }, limits.steps, programs, sink)
}

/// Returns how many programs are verified, and what is left of the limit.
pub(crate) fn runs_within(
    limits: Limits,
    container: &PartialContainer<'_>,
    loader: &PartialLoader<'_>,
) -> Reach
    ensures value { result.count ≡ runs_reached limits (partly container.now) (partly_loaded loader.now) }
    ensures left { result.left ≡ left_within (run_cost (partly container.now) (partly_loaded loader.now)) limits.steps 0 (programs_reached limits (partly_loaded loader.now)) }
{
    let programs = programs_within(limits, container, loader).count;
    within(&Runs { container, loader }, limits.steps, programs)
}

/// A readable program, with its section and the sizes that the relocation is tested against.
#[derive(Clone, Copy)]
pub(crate) struct Run<'a> {
    pub section: u16,
    pub sizes: Sizes,
    pub program: Program<'a>,
}

impl<'a> Run<'a> {
    ghost use Rattle.pef_inspect.specs.Runs.{run_seen};
    ghost use Rattle.pef_inspect.specs.Twice.{section_at};

    /// Returns the program of relocation header `k`, if it is readable and for an instantiated section.
    pub(crate) fn at(
        container: &PartialContainer<'a>,
        loader: &PartialLoader<'a>,
        k: u32,
    ) -> Option<Run<'a>>
        ensures seen { option_map run_seen result ≡ run_at (partly container.now) (partly_loaded loader.now) k }
        ensures section { IfSome result (λ run. run.section ≡ section_at (partly_loaded loader.now) k) }
    {
        let relocation = loader.relocation(k as usize)?;
        let bytes = relocation.program?;
        match Program::read(bytes) {
            Ok(program) => {
                let section = relocation.section;
                let sizes = sizes(container, loader, section)?;
                Some(Run {
                    section,
                    sizes,
                    program,
                })
            }
            Err(_) => None,
        }
    }
}

/// Returns what the relocation of a section is tested against, if the section is instantiated.
fn sizes(
    container: &PartialContainer<'_>,
    loader: &PartialLoader<'_>,
    section: u16,
) -> Option<Sizes>
    ensures { result ≡ sizes_at (partly container.now) (partly_loaded loader.now) section }
{
    let sections = container.header().instantiated_section_count;
    if section >= sections {
        return None;
    }
    let header = container.section(usize::from(section))?;
    Some(Sizes {
        sections: u32::from(sections),
        imports: loader.header().import_count,
        memory: header.total_size,
    })
}
