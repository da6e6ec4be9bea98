//! The law of the numbers and names of errors. The function does nothing.
ghost use Rattle.pef_faults.specs.Numbers.{AreNumbered};

/// The number of each error has its name: of certificates, scripts, listings, inputs, files, closures and contexts. So errors
/// with different names have different numbers.
#[tactic(auto, using(crate::proofs::NumberLemmas::are_numbered))]
pub fn errors_have_their_numbers()
    ensures { AreNumbered }
{}
