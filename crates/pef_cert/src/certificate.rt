ghost use Rattle.std.specs.Prelude.{◌≡◌};
ghost use Rattle.pef_reloc.specs.Instrs.{program_length};

use crate::fixups::program_length;
use pef_labels::LabelRows;
use pef_reloc::Instr;
use std::marker::Model;

/// A certificate that the program of a section has no more halfwords than any other that makes its fixups.
#[derive(Debug, Drop)]
pub struct Certificate {
    /// The section that it is for.
    pub section: u32,
    /// The program of the section.
    pub program: Vec<Instr>,
    /// The sections that count as values of a register.
    pub registers: Vec<u32>,
    /// The labels: a row for each fixup and one for the end, each with the classes of C outside and those of D
    /// inside.
    pub labels: LabelRows,
}

impl Model for Certificate {
    ghost use Rattle.pef_cert.specs.Certified.{Certified};

    ghost Value = { Certified };

    ghost view = { λ c. record { section = c.section; program = c.program.items; registers = c.registers.items; labels = c.labels.rows } };
}

impl Certificate {
    /// Returns the length of its program in halfwords.
    pub fn program_length(&self) -> u64
        ensures { result ≡ program_length self.now.program }
    {
        program_length(&self.program)
    }
}
