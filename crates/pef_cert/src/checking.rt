ghost use Rattle.std.specs.Prelude.{◌≡◌, ◌↔◌, ◌*◌, ◌+◌, IsTrue, MatchOption, length, true};
ghost use Rattle.pef_cert.specs.Kept.Claims.{Holds, IsClaim, RowsFit, Shaped};
ghost use Rattle.pef_cert.specs.Fixups.Answers.{Says};
ghost use Rattle.pef_cert.specs.Valid.{RegistersOf, Valid};
ghost use Rattle.pef_reloc.specs.Fixups.{fixups_fit};
ghost use Rattle.pef_reloc.specs.Steps.{Least};

use crate::Certificate;
use crate::claim::Claim;
use crate::classes::class_of;
use crate::fixups::{makes, program_length};
use crate::registers::registers_hold;
use pef_labels::LabelRows;
use pef_reloc::{Fixup, Instr};

/// Returns whether a certificate is valid for the fixups of its section, which have to fit. If it is, its
/// program makes the fixups, and no other program without repeats that does has fewer halfwords, regardless
/// of who made the certificate.
///
/// It allocates nothing, and goes once from the last fixup to the first. Registers, shape and program
/// are tested before that.
pub fn check(fixups: &[Fixup], certificate: &Certificate) -> bool
    requires { fixups_fit fixups.now ≡ true }
    ensures valid { IsTrue result ↔ Valid fixups.now certificate.now }
    ensures least { IsTrue result → Least fixups.now certificate.now.program }
{
    let registers = certificate.registers.as_slice();
    if !registers_hold(fixups, registers) {
        return false;
    }
    match claim_of(fixups, registers, &certificate.labels) {
        Some(claim) => claim.holds(&certificate.program),
        None => false,
    }
}

/// Returns labels in the shape of a claim: a row for each fixup and one more, each with one label for
/// each two classes.
fn claim_of<'a>(
    fixups: &'a [Fixup],
    registers: &'a [u32],
    labels: &'a LabelRows,
) -> Option<Claim<'a>>
    requires fit { fixups_fit fixups.now ≡ true }
    requires registers { RegistersOf fixups.now registers.now }
    ensures { MatchOption result (RowsFit (length fixups.entry.now) (length registers.entry.now + 1) labels.entry.now.rows → ⊥) (λ claim. Shaped claim × IsClaim fixups.entry.now registers.entry.now labels.entry.now.rows claim) }
{
    let classes = registers.len() + 1;
    let rows = labels.rows();
    let kept = labels.kept();
    if kept.width == classes * classes && rows == fixups.len() + 1 {
        Some(Claim {
            fixups,
            registers,
            kept,
        })
    } else {
        None
    }
}

impl<'a> Claim<'a> {
    /// Returns whether a program makes the fixups and is as long as feasible labels say. A program that
    /// the label at the first fixup rules out isn't tested.
    fn holds(self, program: &[Instr]) -> bool
        requires { Shaped self }
        ensures { Says result (Holds self.entry program.now) }
    {
        let (c, d) = (class_of(self.registers, 0), class_of(self.registers, 1));
        let length = program_length(program);
        if length > 2 + u64::from(self.label(0, c, d)) {
            return false;
        }
        if !makes(self.fixups, program) {
            return false;
        }
        match self.start_value() {
            Some(value) => value == length,
            None => false,
        }
    }
}
