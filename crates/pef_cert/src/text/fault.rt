ghost use Rattle.std.specs.Prelude.{◌≡◌};
ghost use Rattle.pef_cert.specs.Text.Faults.{fault_line, fault_name, fault_number};

use std::alloc::{AllocError, AllocFailed};
use std::fmt;
use thiserror::Error;

/// Why a text isn't one of certificates, or why none were printed.
#[derive(Clone, Copy, Debug, PartialEq, Eq, Error)]
pub enum CertFault {
    /// The first line that breaks a rule, or the one after the last if a line is missing. Lines count
    /// from 1.
    BadCertificate { line: usize },
    /// An allocation failed.
    OutOfMemory,
}

impl CertFault {
    /// Returns the number of the refusal.
    pub fn number(&self) -> u32
        ensures { result ≡ fault_number self.now }
    {
        match self {
            CertFault::BadCertificate { .. } => 51,
            CertFault::OutOfMemory => 99,
        }
    }

    /// Returns the refusal's name.
    pub fn name(&self) -> &'static str
        ensures { result.now ≡ fault_name self.now }
    {
        match self {
            CertFault::BadCertificate { .. } => "BadCertificate",
            CertFault::OutOfMemory => "OutOfMemory",
        }
    }

    /// Returns the number of the line that was refused, from 1.
    pub fn line(&self) -> Option<usize>
        ensures { result ≡ fault_line self.now }
    {
        match self {
            CertFault::BadCertificate { line } => Some(*line),
            CertFault::OutOfMemory => None,
        }
    }
}

impl fmt::Display for CertFault {
    ghost use Rattle.std.specs.Prelude.{Some};
    ghost use Rattle.pef_cert.specs.Text.Faults.{fault_text};

    ghost output = { λ fault. Some (fault_text fault) };

    fn fmt<W: fmt::Write>(&self, f: &mut fmt::Formatter<W>) -> fmt::Result {
        match self {
            CertFault::BadCertificate { line } => write!(f, "{} line {line}", self.name()),
            CertFault::OutOfMemory => f.write_str(self.name()),
        }
    }
}

impl From<AllocError> for CertFault {
    ghost use Rattle.std.specs.Prelude.{◌≡◌};
    ghost use Rattle.pef_cert.specs.declared.text.fault.CertFault.TheVariants.{OutOfMemory};

    ghost from_gives = { λ _ e. e ≡ OutOfMemory };

    fn from(_error: AllocError) -> CertFault {
        CertFault::OutOfMemory
    }
}

impl<T: Drop> From<AllocFailed<T>> for CertFault {
    ghost use Rattle.std.specs.Prelude.{◌≡◌};
    ghost use Rattle.pef_cert.specs.declared.text.fault.CertFault.TheVariants.{OutOfMemory};

    ghost from_gives = { λ _ e. e ≡ OutOfMemory };

    fn from(_error: AllocFailed<T>) -> CertFault {
        CertFault::OutOfMemory
    }
}
