ghost use Rattle.std.specs.Prelude.{◌≡◌, option_map};
ghost use Rattle.pef_faults.specs.Faults.{fault_line, fault_name, fault_number, fault_path, fault_reason, stub_number};

use cfm_members::MemberLookupFault;
use cfm_prepare::PrepareFault;
use cfm_stubs::StubFault;
use pef_cert::CertFault;
use pef_listing::ListFault;
use pef_ports::{FileReason, InputFault};
use pef_script::ScriptFault;
use std::alloc::{AllocError, AllocFailed};

/// Why a command is refused, or a call of the library.
#[derive(Clone, Copy, Debug, PartialEq, Eq)]
pub enum Fault<'a> {
    /// A line of a script with this text is refused.
    Script {
        fault: ScriptFault,
        text: &'a [u8],
    },
    /// A container can't be listed.
    Listing(ListFault),
    /// A line of certificates is refused.
    Certificate(CertFault),
    /// The certificates are for other sections than the script's.
    SectionsDiffer,
    /// The input wasn't read whole.
    Input(InputFault),
    /// A fragment isn't prepared.
    Prepare(PrepareFault<'a>),
    /// The container of a fragment isn't found in a file.
    Fragment(MemberLookupFault),
    /// The fragments of the file at this path can't be told.
    Untold {
        path: &'a [u8],
        fault: MemberLookupFault,
    },
    /// The fragments and their stubs are more than a store can have.
    StoreFull,
    /// There is no stub of a library that is missing.
    Stub(StubFault),
    /// The file at this path couldn't be read, for this reason.
    Unreadable {
        path: &'a [u8],
        reason: FileReason,
    },
    /// The file at this path couldn't be written, for this reason.
    Unwritable {
        path: &'a [u8],
        reason: FileReason,
    },
    /// An allocation failed.
    OutOfMemory,
}

impl<'a> Fault<'a> {
    /// Returns the number of the error.
    #[tactic(auto, unfolding(crate::specs::Faults::fault_number))]
    pub fn number(&self) -> u32
        ensures { result ≡ fault_number self.now }
    {
        match self {
            Fault::Script { fault, .. } => fault.number(),
            Fault::Listing(fault) => fault.number(),
            Fault::Certificate(fault) => fault.number(),
            Fault::SectionsDiffer => 52,
            Fault::Input(fault) => fault.number(),
            Fault::Prepare(fault) => fault.number(),
            Fault::Fragment(fault) | Fault::Untold { fault, .. } => fault.number(),
            Fault::StoreFull => 204,
            Fault::Stub(fault) => stub_number(*fault),
            Fault::Unreadable { .. } => 71,
            Fault::Unwritable { .. } => 72,
            Fault::OutOfMemory => 99,
        }
    }

    /// Returns the name of the error.
    #[tactic(auto, unfolding(crate::specs::Faults::fault_name))]
    pub fn name(&self) -> &'static str
        ensures { result.now ≡ fault_name self.now }
    {
        match self {
            Fault::Script { fault, .. } => fault.name(),
            Fault::Listing(fault) => fault.name(),
            Fault::Certificate(fault) => fault.name(),
            Fault::SectionsDiffer => "SectionsDiffer",
            Fault::Input(fault) => fault.name(),
            Fault::Prepare(fault) => fault.name(),
            Fault::Fragment(fault) | Fault::Untold { fault, .. } => fault.name(),
            Fault::StoreFull => "StoreFull",
            Fault::Stub(fault) => fault.name(),
            Fault::Unreadable { .. } => "FileUnreadable",
            Fault::Unwritable { .. } => "FileUnwritable",
            Fault::OutOfMemory => "OutOfMemory",
        }
    }

    /// Returns the number of the line of a text that is refused, from 1.
    #[tactic(auto, unfolding(crate::specs::Faults::fault_line))]
    pub fn line(&self) -> Option<usize>
        ensures { result ≡ fault_line self.now }
    {
        match self {
            Fault::Script { fault, .. } => fault.line(),
            Fault::Certificate(fault) => fault.line(),
            Fault::Listing(_)
            | Fault::SectionsDiffer
            | Fault::Input(_)
            | Fault::Prepare(_)
            | Fault::Fragment(_)
            | Fault::Untold { .. }
            | Fault::StoreFull
            | Fault::Stub(_)
            | Fault::Unreadable { .. }
            | Fault::Unwritable { .. }
            | Fault::OutOfMemory => None,
        }
    }

    /// Returns the path of the file that couldn't be read or written, or whose fragments can't be told.
    #[tactic(auto, unfolding(crate::specs::Faults::fault_path))]
    pub fn path(&self) -> Option<&'a [u8]>
        ensures { option_map (λ path. path.now) result ≡ fault_path self.now }
    {
        match self {
            Fault::Untold { path, .. }
            | Fault::Unreadable { path, .. }
            | Fault::Unwritable { path, .. } => Some(path),
            Fault::Script { .. }
            | Fault::Listing(_)
            | Fault::Certificate(_)
            | Fault::SectionsDiffer
            | Fault::Input(_)
            | Fault::Prepare(_)
            | Fault::Fragment(_)
            | Fault::StoreFull
            | Fault::Stub(_)
            | Fault::OutOfMemory => None,
        }
    }

    /// Returns why the file couldn't be read or written. Other errors have no reason of this kind.
    #[tactic(auto, unfolding(crate::specs::Faults::fault_reason))]
    pub fn reason(&self) -> FileReason
        ensures { result ≡ fault_reason self.now }
    {
        match self {
            Fault::Unreadable { reason, .. } | Fault::Unwritable { reason, .. } => *reason,
            Fault::Script { .. }
            | Fault::Listing(_)
            | Fault::Certificate(_)
            | Fault::SectionsDiffer
            | Fault::Input(_)
            | Fault::Prepare(_)
            | Fault::Fragment(_)
            | Fault::Untold { .. }
            | Fault::StoreFull
            | Fault::Stub(_)
            | Fault::OutOfMemory => FileReason::Other,
        }
    }
}

/// Returns the number of the error of a stub.
fn stub_number(fault: StubFault) -> u32
    ensures { result ≡ stub_number fault }
{
    match fault {
        StubFault::TooManySymbols => 211,
        StubFault::LongName => 212,
        StubFault::TooManyNameBytes => 213,
        StubFault::PastLastNumber => 214,
        StubFault::UnspellableName => 215,
        StubFault::TooManyBytes => 216,
        StubFault::OutOfMemory => 99,
    }
}

impl<'a> From<ListFault> for Fault<'a> {
    ghost use Rattle.std.specs.Prelude.{◌≡◌};
    ghost use Rattle.pef_faults.specs.declared.fault.Fault.TheVariants.{Listing};

    ghost from_gives = { λ fault e. e ≡ Listing fault };

    fn from(fault: ListFault) -> Fault<'a> {
        Fault::Listing(fault)
    }
}

impl<'a> From<CertFault> for Fault<'a> {
    ghost use Rattle.std.specs.Prelude.{◌≡◌};
    ghost use Rattle.pef_faults.specs.declared.fault.Fault.TheVariants.{Certificate};

    ghost from_gives = { λ fault e. e ≡ Certificate fault };

    fn from(fault: CertFault) -> Fault<'a> {
        Fault::Certificate(fault)
    }
}

impl<'a> From<InputFault> for Fault<'a> {
    ghost use Rattle.std.specs.Prelude.{◌≡◌};
    ghost use Rattle.pef_faults.specs.declared.fault.Fault.TheVariants.{Input};

    ghost from_gives = { λ fault e. e ≡ Input fault };

    fn from(fault: InputFault) -> Fault<'a> {
        Fault::Input(fault)
    }
}

impl<'a> From<PrepareFault<'a>> for Fault<'a> {
    ghost use Rattle.std.specs.Prelude.{◌≡◌};
    ghost use Rattle.pef_faults.specs.declared.fault.Fault.TheVariants.{Prepare};

    ghost from_gives = { λ fault e. e ≡ Prepare fault };

    fn from(fault: PrepareFault<'a>) -> Fault<'a> {
        Fault::Prepare(fault)
    }
}

impl<'a> From<MemberLookupFault> for Fault<'a> {
    ghost use Rattle.std.specs.Prelude.{◌≡◌};
    ghost use Rattle.pef_faults.specs.declared.fault.Fault.TheVariants.{Fragment};

    ghost from_gives = { λ fault e. e ≡ Fragment fault };

    fn from(fault: MemberLookupFault) -> Fault<'a> {
        Fault::Fragment(fault)
    }
}

impl<'a> From<AllocError> for Fault<'a> {
    ghost use Rattle.std.specs.Prelude.{◌≡◌};
    ghost use Rattle.pef_faults.specs.declared.fault.Fault.TheVariants.{OutOfMemory};

    ghost from_gives = { λ _ e. e ≡ OutOfMemory };

    fn from(_error: AllocError) -> Fault<'a> {
        Fault::OutOfMemory
    }
}

impl<'a, T: Drop> From<AllocFailed<T>> for Fault<'a> {
    ghost use Rattle.std.specs.Prelude.{◌≡◌};
    ghost use Rattle.pef_faults.specs.declared.fault.Fault.TheVariants.{OutOfMemory};

    ghost from_gives = { λ _ e. e ≡ OutOfMemory };

    fn from(_error: AllocFailed<T>) -> Fault<'a> {
        Fault::OutOfMemory
    }
}
