ghost use Rattle.std.specs.Prelude.{◌≡◌, [], IfSome, OnOk, true};
ghost use Rattle.std.specs.Option.{option_copied};
ghost use Rattle.pef_ports.specs.Sent.{Sends};
ghost use Rattle.pef_reloc.specs.Fixups.{fixups_fit};
ghost use Rattle.pef_script.specs.Script.{DescribedScript};
ghost use Rattle.pef_tool.specs.Answers.Answers.{Answer, IsDelivered};
ghost use Rattle.pef_tool.specs.Check.{CheckAnswers, IsVerdict, Judges, judged_answer, verdict_text, verdicts_outcome, verdicts_text};
ghost use Rattle.pef_tool.specs.Kept.Judged.{HasJudged, JudgesAll, JudgesNext, JudgesScript, next_fixups};
ghost use Rattle.pef_words.specs.Refusals.{result_map};

use crate::answers::{Outcome, Reply, deliver};
use crate::linking::read_script;
use crate::reading::read_file;
use pef_cert::{Certificate, CertificateReader, check};
use pef_faults::Fault;
use pef_ports::{Files, Page, Piece, Sink, StreamFault, print_pieces};
use pef_reloc::Fixup;
use pef_script::Script;
use std::alloc::{AllocFailed, Global};

/// The verdict on a section's certificate.
#[derive(Clone, Copy, Debug, PartialEq, Eq)]
pub enum Verdict {
    /// It is valid for the section's fixups. Its program has this many halfwords.
    Yes { halfwords: u64 },
    /// It isn't valid for them.
    No,
}

/// The verdicts on the certificates of the sections, in order.
#[derive(Drop)]
struct Verdicts {
    verdicts: Vec<Verdict>,
}

/// Checks the certificates at the path `cert` for the sections of the script at the path `script`.
///
/// Both files are read before either is parsed.
pub fn check_files<F: Files, W: Sink>(
    alloc: Global,
    files: &mut F,
    script: &[u8],
    cert: &[u8],
    out: &mut W,
) -> Outcome
    ensures { (answer : Answer)
        × CheckAnswers (record { state = F.state; reason = F.reason; was_read = F.was_read; was_written = F.was_written }) files.old files.new script.now cert.now answer
        × IsDelivered (W.stream out.old) (W.stream out.new) answer result }
{
    let text = match read_file(alloc, files, script) {
        Ok(text) => text,
        Err(fault) => return deliver(out, &fault),
    };
    let certificates = match read_file(alloc, files, cert) {
        Ok(certificates) => certificates,
        Err(fault) => return deliver(out, &fault),
    };
    match check_texts(alloc, text.as_slice(), certificates.as_slice()) {
        Ok(verdicts) => deliver(out, &verdicts),
        Err(fault) => deliver(out, &fault),
    }
}

/// Checks the certificates of a text for the sections of a script's text.
fn check_texts<'a>(
    alloc: Global,
    script: &'a [u8],
    certificates: &[u8],
) -> Result<Verdicts, Fault<'a>>
    ensures { Judges (record { script = script.now; certificates = certificates.now }) (result_map (λ v. v.verdicts.items) result) }
{
    match read_script(alloc, script) {
        Ok(script) => check_certificates(alloc, &script, certificates),
        Err(fault) => Err(fault),
    }
}

/// Checks the certificates of a text for the sections of a script. One certificate at a time is in memory.
fn check_certificates<'a>(
    alloc: Global,
    script: &Script<'_>,
    certificates: &[u8],
) -> Result<Verdicts, Fault<'a>>
    ensures { JudgesScript script.now certificates.now (result_map (λ v. v.verdicts.items) result) }
{
    let mut reader = CertificateReader::new(certificates)?;
    let mut judging = Judging::new(alloc);
    'certificates: loop {
        match reader.next_certificate(alloc)? {
            Some(certificate) => judging.judge(script, &certificate)?,
            None => break,
        }
    }
    judging.end(script)
}

/// What is known after some certificates of a text.
#[derive(Drop)]
struct Judging {
    /// The verdicts on them, until one differs.
    verdicts: Vec<Verdict>,
    /// Whether one of them isn't for the section at its place.
    differ: bool,
}

impl Judging {
    /// Returns what is known before the first certificate.
    fn new(alloc: Global) -> Judging
        ensures { (script : DescribedScript) → HasJudged script [] result }
    {
        Judging {
            verdicts: Vec::new(alloc),
            differ: false,
        }
    }

    /// Judges the next certificate.
    fn judge(
        &mut self,
        script: &Script<'_>,
        certificate: &Certificate,
    ) -> Result<(), AllocFailed<Verdict>>
        ensures { OnOk result (JudgesNext script.now certificate.now self.old self.new) }
    {
        if self.differ {
            return Ok(());
        }
        match section_fixups(script, self.verdicts.len(), certificate) {
            Some(fixups) => self.verdicts.push(verdict_on(fixups, certificate))?,
            None => self.differ = true,
        }
        Ok(())
    }

    /// Returns the verdicts after the last certificate, if there is one for each section.
    fn end<'a>(self, script: &Script<'_>) -> Result<Verdicts, Fault<'a>>
        ensures { JudgesAll script.now self (result_map (λ v. v.verdicts.items) result) }
    {
        if self.differ || self.verdicts.len() != script.sections() {
            return Err(Fault::SectionsDiffer);
        }
        Ok(Verdicts {
            verdicts: self.verdicts,
        })
    }
}

/// Returns the fixups of section k, or `None` if there is none or a certificate isn't for it.
fn section_fixups<'s>(
    script: &'s Script<'_>,
    k: usize,
    certificate: &Certificate,
) -> Option<&'s [Fixup]>
    ensures value { option_copied result ≡ next_fixups script.now.sections k certificate.now }
    ensures fit { IfSome result (λ fixups. fixups_fit fixups.now ≡ true) }
{
    if certificate.section as usize != k {
        return None;
    }
    script.fixups(k)
}

/// Returns the verdict on a certificate for some fixups.
fn verdict_on(fixups: &[Fixup], certificate: &Certificate) -> Verdict
    requires { fixups_fit fixups.now ≡ true }
    ensures { IsVerdict fixups.now certificate.now result }
{
    if check(fixups, certificate) {
        Verdict::Yes {
            halfwords: certificate.program_length(),
        }
    } else {
        Verdict::No
    }
}

impl Reply for Verdicts {
    ghost use Rattle.std.specs.Prelude.{Ok};

    ghost answer = { λ v. judged_answer (Ok v.verdicts.items) };

    fn outcome(&self) -> Outcome {
        verdicts_outcome(self.verdicts.as_slice())
    }

    fn print<W: Sink>(&self, out: &mut W, page: &mut Page) -> Result<(), StreamFault> {
        print_verdicts(out, page, self.verdicts.as_slice())
    }
}

/// Returns the outcome of a run with some verdicts.
fn verdicts_outcome(verdicts: &[Verdict]) -> Outcome
    ensures { result ≡ verdicts_outcome verdicts.now }
{
    for verdict in verdicts {
        if *verdict == Verdict::No {
            return Outcome::SaidNo;
        }
    }
    Outcome::Done
}

/// Prints verdicts on sections, numbered from 0.
fn print_verdicts<W: Sink>(
    out: &mut W,
    page: &mut Page,
    verdicts: &[Verdict],
) -> Result<(), StreamFault>
    ensures { Sends result (W.stream out.old) (W.stream out.new) page.old.items page.new.items (verdicts_text 0 verdicts.now) }
{
    for (k, verdict) in verdicts.iter().enumerate() {
        print_verdict(out, page, k, *verdict)?;
    }
    Ok(())
}

/// Prints the line of the verdict on section k's certificate.
#[tactic(auto, unfolding(crate::specs::Check::verdict_text))]
fn print_verdict<W: Sink>(
    out: &mut W,
    page: &mut Page,
    k: usize,
    verdict: Verdict,
) -> Result<(), StreamFault>
    ensures { Sends result (W.stream out.old) (W.stream out.new) page.old.items page.new.items (verdict_text k verdict) }
{
    let (section, number) = (Piece::Text(b"section "), Piece::Number(k as u64));
    match verdict {
        Verdict::Yes { halfwords } => print_pieces(
            out,
            page,
            &[
                section,
                number,
                Piece::Text(b" yes "),
                Piece::Number(halfwords),
                Piece::Text(b"\n"),
            ],
        ),
        Verdict::No => print_pieces(out, page, &[section, number, Piece::Text(b" no\n")]),
    }
}
