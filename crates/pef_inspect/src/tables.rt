ghost use Rattle.std.specs.Prelude.{◌≡◌, ◌++◌, OnOk, map};
ghost use Rattle.pef_words.specs.Findings.{all_met};
ghost use Rattle.pef_views.specs.PartialViews.{partly};
ghost use Rattle.pef_inspect.specs.Findings.{loader_finding, view_finding};

use crate::finding::Finding;
use crate::sink::Findings;
use pef_loader::LoaderFault;
use pef_views::{PartialContainer, ViewFault};

/// Hands the faults of a container's tests that hold to a sink, in order.
pub(crate) fn take_views<S: Findings>(
    tests: &[(bool, ViewFault)],
    sink: &mut S,
) -> Result<(), S::Error>
    ensures { OnOk result (S.taken sink.new ≡ S.taken sink.old ++ map view_finding (all_met tests.now)) }
{
    for (met, fault) in tests {
        if *met {
            sink.take(Finding::of_view(*fault))?;
        }
    }
    Ok(())
}

/// Hands the faults of a loader section's tests that hold to a sink, in order. Each row of a table has tests, and most hold for none.
#[inline(always)]
pub(crate) fn take_faults<S: Findings>(
    container: &PartialContainer<'_>,
    tests: &[(bool, LoaderFault)],
    sink: &mut S,
) -> Result<(), S::Error>
    ensures { OnOk result (S.taken sink.new ≡ S.taken sink.old ++ map (loader_finding (partly container.now)) (all_met tests.now)) }
{
    for (met, fault) in tests {
        if *met {
            sink.take(Finding::of_loader(container, *fault))?;
        }
    }
    Ok(())
}
