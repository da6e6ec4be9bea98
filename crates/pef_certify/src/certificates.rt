ghost use Rattle.std.specs.Prelude.{◌≡◌, IfOk};
ghost use Rattle.pef_cert.specs.Text.Printed.{certificates_text};
ghost use Rattle.pef_ports.specs.Sent.{Sends};
ghost use Rattle.pef_write.specs.Linked.{AreLinkCertificates};

use pef_cert::PackedCertificate;
use pef_ports::{Page, Sink, StreamFault, Text, flush};
use pef_script::Script;
use pef_write::{LinkFault, link_certificates};
use std::alloc::Global;
use std::marker::Model;

/// The certificates of a script's sections, in order. They can be printed.
#[derive(Drop)]
pub struct ScriptCertificates {
    certificates: Vec<PackedCertificate>,
}

impl Model for ScriptCertificates {
    ghost use Rattle.std.specs.List.{AllByRecursion};
    ghost use Rattle.std.specs.Prelude.{List};
    ghost use Rattle.pef_cert.specs.Certified.{Certified};
    ghost use Rattle.pef_cert.specs.Text.Printed.{Printable};

    ghost Value = { List Certified };

    ghost view = { λ c. c.certificates.items };

    ghost invariant = { λ c. AllByRecursion Printable c.certificates.items };
}

impl ScriptCertificates {
    /// Makes the certificates of a script. Each has a program for its section, and proves that no program without
    /// repeats is shorter.
    ///
    /// # Errors
    ///
    /// Only `OutOfMemory`.
    #[tactic(auto, using(crate::proofs::PrintLemmas::certificates_print))]
    pub fn of(alloc: Global, script: &Script<'_>) -> Result<ScriptCertificates, LinkFault>
        ensures { IfOk result (λ certificates. AreLinkCertificates script.now certificates) }
    {
        let certificates = link_certificates(alloc, script)?;
        Ok(ScriptCertificates { certificates })
    }

    /// Prints the certificates through the page. It allocates nothing.
    pub fn print_to<W: Sink>(&self, out: &mut W, page: &mut Page) -> Result<(), StreamFault>
        ensures { Sends result (W.stream out.old) (W.stream out.new) page.old.items page.new.items (certificates_text self.now) }
    {
        PackedCertificate::print_to(out, page, &self.certificates)
    }

    /// Returns the text of the certificates.
    ///
    /// # Errors
    ///
    /// If an allocation fails.
    pub fn to_bytes(&self, alloc: Global) -> Result<Vec<u8>, StreamFault>
        ensures { IfOk result (λ text. text.items ≡ certificates_text self.now) }
    {
        let mut text = Text::new(Vec::new(alloc));
        let mut page = Page::new();
        self.print_to(&mut text, &mut page)?;
        flush(&mut text, &mut page)?;
        Ok(text.into_bytes())
    }
}
