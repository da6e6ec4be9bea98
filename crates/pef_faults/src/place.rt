ghost use Rattle.std.specs.Prelude.{◌≡◌};
ghost use Rattle.pef_faults.specs.Places.{certificate_place, fault_place, script_place};

use crate::fault::Fault;
use pef_cert::CertFault;
use pef_format::{Part, Place};
use pef_script::ScriptFault;

impl<'a> Fault<'a> {
    /// Returns where the error is: in the container of the fragment that it names, or of the file, or in a line of a text.
    #[tactic(auto, unfolding(crate::specs::Places::fault_place))]
    pub fn place(&self) -> Option<Place>
        ensures { result ≡ fault_place self.now }
    {
        match self {
            Fault::Script { fault, .. } => script_place(*fault),
            Fault::Certificate(fault) => certificate_place(*fault),
            Fault::Listing(fault) => fault.place(),
            Fault::Prepare(fault) => fault.place(),
            Fault::SectionsDiffer
            | Fault::Input(_)
            | Fault::Fragment(_)
            | Fault::Untold { .. }
            | Fault::StoreFull
            | Fault::Stub(_)
            | Fault::Unreadable { .. }
            | Fault::Unwritable { .. }
            | Fault::OutOfMemory => None,
        }
    }
}

/// Returns the place of the word of a script that is at fault.
fn script_place(fault: ScriptFault) -> Option<Place>
    ensures { result ≡ script_place fault }
{
    match fault {
        ScriptFault::Refused { line, word, .. } => Some(Place {
            part: Part::Line,
            row: line,
            field: usize::from(word.number),
            offset: Some(word.from),
        }),
        ScriptFault::OutOfMemory => None,
    }
}

/// Returns the place of the line of certificates that is at fault.
fn certificate_place(fault: CertFault) -> Option<Place>
    ensures { result ≡ certificate_place fault }
{
    match fault {
        CertFault::BadCertificate { line } => Some(Place {
            part: Part::Line,
            row: line,
            field: 0,
            offset: None,
        }),
        CertFault::OutOfMemory => None,
    }
}
