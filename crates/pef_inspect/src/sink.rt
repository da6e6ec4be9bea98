ghost use Rattle.std.specs.Prelude.{◌≡◌, ◌++◌, ◌∷◌, ℕ, [], List, OnOk};
ghost use Rattle.std.specs.Option.{option_to_list};
ghost use Rattle.pef_words.specs.Findings.{all_among, all_met};
ghost use Rattle.pef_inspect.specs.declared.finding.Finding.{Finding};

use crate::finding::Finding;
use std::alloc::{AllocFailed, Allocator};

/// Takes findings, one after the other.
pub trait Findings {
    /// The findings taken so far.
    ghost taken: { Self → List Finding };

    /// Why a finding isn't taken.
    type Error;

    /// Takes a finding.
    fn take(&mut self, finding: Finding) -> Result<(), Self::Error>
        ensures { OnOk result (taken self.new ≡ taken self.old ++ finding ∷ []) };
}

/// Rows with findings, by their numbers.
pub(crate) trait Rows {
    /// The findings of each row.
    ghost found: { Self → ℕ → List Finding };

    /// Hands the findings of row `i` to a sink, in order.
    fn take_row<S: Findings>(&mut self, i: u32, sink: &mut S) -> Result<(), S::Error>
        ensures taken { OnOk result (S.taken sink.new ≡ S.taken sink.old ++ found self.old i) }
        ensures same { found self.new ≡ found self.old };
}

/// Hands the findings of the first `count` rows to a sink, in order.
pub(crate) fn take_rows<R: Rows, S: Findings>(
    rows: &mut R,
    count: u32,
    sink: &mut S,
) -> Result<(), S::Error>
    ensures { OnOk result (S.taken sink.new ≡ S.taken sink.old ++ all_among (R.found rows.old) 0 count) }
{
    for i in 0..count {
        rows.take_row(i, sink)?;
    }
    Ok(())
}

/// Hands the findings of a table whose tests hold to a sink, in order.
pub(crate) fn take_met<S: Findings>(tests: &[(bool, Finding)], sink: &mut S) -> Result<(), S::Error>
    ensures { OnOk result (S.taken sink.new ≡ S.taken sink.old ++ all_met tests.now) }
{
    for (met, finding) in tests {
        if *met {
            sink.take(*finding)?;
        }
    }
    Ok(())
}

/// Hands a finding to a sink, if there is one.
pub(crate) fn take_some<S: Findings>(found: Option<Finding>, sink: &mut S) -> Result<(), S::Error>
    ensures { OnOk result (S.taken sink.new ≡ S.taken sink.old ++ option_to_list found) }
{
    match found {
        Some(finding) => sink.take(finding),
        None => Ok(()),
    }
}

/// Keeps all findings.
impl<A: Allocator> Findings for Vec<Finding, A> {
    ghost taken = { λ kept. kept.items };

    type Error = AllocFailed<Finding>;

    fn take(&mut self, finding: Finding) -> Result<(), AllocFailed<Finding>> {
        self.push(finding)
    }
}
