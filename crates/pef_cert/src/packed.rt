//! Certificates whose labels take little memory, and are read in order.
ghost use Rattle.std.specs.Prelude.{◌≡◌, IfOk};

use crate::Certificate;
use pef_labels::PackedRows;
use pef_reloc::Instr;
use std::alloc::{AllocError, Global};
use std::marker::Model;

/// A certificate that takes little memory: mostly a byte for each label. It can be printed.
#[derive(Drop)]
pub struct PackedCertificate {
    pub(crate) section: u32,
    pub(crate) program: Vec<Instr>,
    pub(crate) registers: Vec<u32>,
    pub(crate) labels: PackedRows,
}

impl Model for PackedCertificate {
    ghost use Rattle.pef_cert.specs.Certified.{Certified};

    ghost Value = { Certified };

    ghost view = { λ c. record { section = c.section; program = c.program.items; registers = c.registers.items; labels = c.labels.rows } };
}

impl Certificate {
    /// Packs the certificate, so that it takes little memory.
    ///
    /// # Errors
    ///
    /// If an allocation fails.
    pub fn packed(self, alloc: Global) -> Result<PackedCertificate, AllocError>
        ensures { IfOk result (λ packed. packed ≡ self) }
    {
        let Certificate {
            section,
            program,
            registers,
            labels,
        } = self;
        let labels = PackedRows::pack(alloc, labels)?;
        Ok(PackedCertificate {
            section,
            program,
            registers,
            labels,
        })
    }
}
