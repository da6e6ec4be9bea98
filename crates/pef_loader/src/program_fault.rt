ghost use Rattle.std.specs.Prelude.{◌≡◌};
ghost use Rattle.pef_views.specs.Views.{contained};
ghost use Rattle.pef_loader.specs.Programs.{fault_in_program};

use crate::place::place_in;
use pef_format::{Part, Place};
use pef_reloc::RelocFault;
use pef_views::Container;

/// An error of the relocation program of a header, with its place in the container.
#[derive(Clone, Copy, Debug, PartialEq, Eq)]
pub struct ProgramFault {
    pub fault: RelocFault,
    /// The number of the section that the program relocates.
    pub section: u32,
    /// The place of the instruction, or of the program if the error is about none.
    pub place: Place,
}

impl ProgramFault {
    /// Returns an error of the program of relocation header `header`, which relocates a section.
    #[tactic(auto, unfolding(crate::specs::Programs::fault_in_program))]
    pub fn new(
        container: &Container<'_>,
        header: u32,
        section: u32,
        fault: RelocFault,
    ) -> ProgramFault
        ensures { result ≡ fault_in_program (contained container.now) header section fault }
    {
        let at = fault.offset().unwrap_or(0);
        ProgramFault {
            fault,
            section,
            place: place_in(container, Part::Program, header, at),
        }
    }
}
