ghost use Rattle.std.specs.Prelude.{◌≡◌};
ghost use Rattle.pef_views.specs.Views.{contained};
ghost use Rattle.cfm_sections.specs.Images.{fault_in_image};

use pef_format::{Part, Place};
use pef_loader::place_in;
use pef_pidata::PackFault;
use pef_views::Container;

/// An error of the packed data of a section, with its place in the container.
#[derive(Clone, Copy, Debug, PartialEq, Eq)]
pub struct ImageFault {
    pub fault: PackFault,
    /// The place of the instruction, or of the packed data if the error is about none.
    pub place: Place,
}

impl ImageFault {
    /// Returns an error of the packed data of a section.
    #[tactic(auto, unfolding(crate::specs::Images::fault_in_image))]
    pub(crate) fn new(container: &Container<'_>, section: u32, fault: PackFault) -> ImageFault
        ensures { result ≡ fault_in_image (contained container.now) section fault }
    {
        let at = fault.offset().unwrap_or(0);
        ImageFault {
            fault,
            place: place_in(container, Part::PackedData, section, at),
        }
    }
}
