//! A law of the names and the help. The function does nothing.
ghost use Rattle.std.specs.Prelude.{◌≡◌};
ghost use Rattle.std.specs.Option.{is_some};
ghost use Rattle.pef_refusals.specs.Help.{help_of};
ghost use Rattle.pef_refusals.specs.Names.{name_of};

/// A refusal has help exactly if it has a name.
#[tactic(auto, using(crate::proofs::Explained::explained))]
pub fn named_are_explained(number: u32)
    ensures { is_some (name_of number) ≡ is_some (help_of number) }
{}
