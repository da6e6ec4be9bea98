//! Laws of packed data. The functions do nothing.
ghost use Rattle.pef_pidata.specs.Packing.{PackedExpands};
ghost use Rattle.pef_pidata.specs.Refused.{RefusalsHavePlaces};

/// The packed bytes of an image of less than 2^32 bytes expand to it.
pub fn packed_images_expand()
    ensures { PackedExpands }
{}

/// The offset of an error of packed data is that of the first instruction that is refused. The instructions before it are whole, and
/// their output has room.
#[tactic(auto, using(crate::proofs::Refusals::refusals_have_places))]
pub fn refusals_have_places()
    ensures { RefusalsHavePlaces }
{}
