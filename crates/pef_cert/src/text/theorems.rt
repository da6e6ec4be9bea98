//! Laws of the definitions. The functions do nothing.
ghost use Rattle.std.specs.Prelude.{◌≡◌, ◌⊎◌, ◌^◌, ◌<◌, ℕ, List, Ok, true};
ghost use Rattle.std.specs.List.{AllByRecursion};
ghost use Rattle.pef_cert.specs.Certified.{Certified};
ghost use Rattle.pef_cert.specs.Valid.{Valid};
ghost use Rattle.pef_cert.specs.declared.text.fields.Version.{Version};
ghost use Rattle.pef_cert.specs.declared.text.fields.Version.TheVariants.{One};
ghost use Rattle.pef_cert.specs.Text.Grammar.{certificates_of};
ghost use Rattle.pef_cert.specs.Text.Printed.{Printable, certificates_text, versioned_text};
ghost use Rattle.pef_reloc.specs.Fixups.{fixups_fit};
ghost use Rattle.pef_reloc.specs.declared.fixup.Fixup.{Fixup};

/// The printed text of certificates is read as these certificates, and so is their text in any version.
#[tactic(auto, using(crate::proofs::TextProofs::ReadsBack::reads_back, crate::proofs::TextProofs::ReadsBack::version_reads_back))]
pub fn printed_texts()
    ensures versions { (version : Version) (certificates : List Certified) → AllByRecursion Printable certificates → certificates_of (versioned_text version certificates) ≡ Ok certificates }
    ensures printed { (certificates : List Certified) → AllByRecursion Printable certificates → certificates_of (certificates_text certificates) ≡ Ok certificates }
{}

/// Certificates that are read from a text can be printed, and the text is their printed text, or their text in
/// version 1. So a list of certificates has one text in each version, and a text at most one list.
#[tactic(auto, using(crate::proofs::TextProofs::TextsRead::read_can_be_printed, crate::proofs::TextProofs::TextsRead::read_text_is))]
pub fn read_texts()
    ensures printable { (text : List ℕ) (certificates : List Certified) → certificates_of text ≡ Ok certificates → AllByRecursion Printable certificates }
    ensures text { (text : List ℕ) (certificates : List Certified) → certificates_of text ≡ Ok certificates → (text ≡ certificates_text certificates) ⊎ (text ≡ versioned_text One certificates) }
{}

/// A certificate that is valid for fixups that fit can be printed, if its section is a number of 32 bits.
#[tactic(auto, using(crate::proofs::TextProofs::ValidPrints::valid_prints))]
pub fn valid_certificates_print()
    ensures { (fixups : List Fixup) (c : Certified) → fixups_fit fixups ≡ true → Valid fixups c → c.section < 2 ^ 32 → Printable c }
{}
