ghost use Rattle.std.specs.Prelude.{◌≡◌};
ghost use Rattle.pef_words.specs.Refusals.{first_met};

/// Returns the fault of the first test of a table that holds.
pub fn first_met<F: Copy, const N: usize>(tests: [(bool, F); N]) -> Option<F>
    ensures { result ≡ first_met tests }
{
    for (met, fault) in tests {
        if met {
            return Some(fault);
        }
    }
    None
}
