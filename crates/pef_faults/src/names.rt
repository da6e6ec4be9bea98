ghost use Rattle.std.specs.Prelude.{◌≡◌, Some};
ghost use Rattle.pef_faults.specs.Kept.Shown.{names_shown};
ghost use Rattle.pef_faults.specs.Names.{bind_names, fault_names, fragment_names, no_names, prepare_names};

use crate::fault::Fault;
use cfm_closure::BindFault;
use cfm_prepare::{FragmentFault, PrepareFault};

/// The names that an error gives: of the fragment that is refused, of its library, and of a symbol.
#[derive(Clone, Copy, Debug, PartialEq, Eq)]
pub struct Names<'a> {
    pub fragment: Option<&'a [u8]>,
    pub library: Option<&'a [u8]>,
    pub symbol: Option<&'a [u8]>,
}

impl<'a> Fault<'a> {
    /// Returns the names that the error gives.
    #[tactic(auto, unfolding(crate::specs::Names::fault_names))]
    pub fn names(&self) -> Names<'a>
        ensures { names_shown result ≡ fault_names self.now }
    {
        match self {
            Fault::Prepare(fault) => prepare_names(fault),
            Fault::Script { .. }
            | Fault::Listing(_)
            | Fault::Certificate(_)
            | Fault::SectionsDiffer
            | Fault::Input(_)
            | Fault::Fragment(_)
            | Fault::Untold { .. }
            | Fault::StoreFull
            | Fault::Stub(_)
            | Fault::Unreadable { .. }
            | Fault::Unwritable { .. }
            | Fault::OutOfMemory => no_names(),
        }
    }
}

/// Returns no names.
fn no_names<'a>() -> Names<'a>
    ensures { names_shown result ≡ no_names }
{
    Names {
        fragment: None,
        library: None,
        symbol: None,
    }
}

/// Returns the name of a fragment alone.
fn fragment_alone(fragment: &[u8]) -> Names<'_>
    ensures { names_shown result ≡ record no_names { fragment = Some fragment.entry.now } }
{
    Names {
        fragment: Some(fragment),
        library: None,
        symbol: None,
    }
}

/// Returns the names of a fragment and its library.
fn fragment_and_library<'a>(fragment: &'a [u8], library: &'a [u8]) -> Names<'a>
    ensures { names_shown result ≡ record no_names { fragment = Some fragment.entry.now; library = Some library.entry.now } }
{
    Names {
        fragment: Some(fragment),
        library: Some(library),
        symbol: None,
    }
}

/// Returns the names of a fragment that isn't prepared.
#[tactic(auto, unfolding(crate::specs::Names::prepare_names))]
fn prepare_names<'a>(fault: &PrepareFault<'a>) -> Names<'a>
    ensures { names_shown result ≡ prepare_names fault.now }
{
    match fault {
        PrepareFault::Bind(fault) => bind_names(fault),
        PrepareFault::Fragment(fault) => fragment_names(fault),
        PrepareFault::TooManyBytes { fragment } | PrepareFault::TooManyStepsInAll { fragment } => {
            fragment_alone(fragment)
        }
        PrepareFault::TooManyConnections | PrepareFault::RootMissing | PrepareFault::OutOfMemory =>
            no_names(),
    }
}

/// Returns the names of a fragment that has no closure.
#[tactic(auto, unfolding(crate::specs::Names::bind_names))]
fn bind_names<'a>(fault: &BindFault<'a>) -> Names<'a>
    ensures { names_shown result ≡ bind_names fault.now }
{
    match fault {
        BindFault::Container { fragment, .. }
        | BindFault::Loader { fragment, .. }
        | BindFault::InitLoop { fragment, .. } => fragment_alone(fragment),
        BindFault::LibraryMissing {
            fragment,
            library,
            ..
        }
        | BindFault::ImplementationTooOld {
            fragment,
            library,
            ..
        }
        | BindFault::ImplementationTooNew {
            fragment,
            library,
            ..
        } => fragment_and_library(fragment, library),
        BindFault::SymbolMissing {
            fragment,
            library,
            symbol,
            ..
        } => Names {
            fragment: Some(fragment),
            library: Some(library),
            symbol: Some(symbol),
        },
        BindFault::ReexportLoop {
            fragment,
            symbol,
            ..
        } => Names {
            fragment: Some(fragment),
            library: None,
            symbol: Some(symbol),
        },
        BindFault::OutOfMemory => no_names(),
    }
}

/// Returns the name of a new fragment of a closure that isn't prepared.
#[tactic(auto, unfolding(crate::specs::Names::fragment_names))]
fn fragment_names<'a>(fault: &FragmentFault<'a>) -> Names<'a>
    ensures { names_shown result ≡ fragment_names fault.now }
{
    match fault {
        FragmentFault::NoRoom { fragment, .. }
        | FragmentFault::Pack { fragment, .. }
        | FragmentFault::Reloc { fragment, .. } => fragment_alone(fragment),
        FragmentFault::OutOfMemory => no_names(),
    }
}
