ghost use Rattle.std.specs.Prelude.{◌≡◌, ◌+◌, ◌*◌, ◌<◌, ◌≤◌, [], length, vec_len, IfOk, IfSome, OnOk};
ghost use Rattle.std.specs.List.{AllByRecursion};
ghost use Rattle.pef_words.specs.Refusals.{result_map};
ghost use Rattle.pef_cert.specs.Text.Grammar.{certificate_read, certificates_of, labels_read, line_read, ranges_read, rows_read};
ghost use Rattle.pef_cert.specs.Text.Kept.Reading.{Takes, left};
ghost use Rattle.pef_cert.specs.Text.Lines.{fixups_line, head_line, length_line, program_line, range_line, registers_line, row_line, version_line};
ghost use Rattle.pef_cert.specs.Text.Printed.{Printable};
ghost use Rattle.pef_cert.specs.Text.Unread.{BeginsAs, TakesNext, certificates_left, unread};
ghost use Rattle.pef_cert.specs.Text.Views.{ReadsAs};

use crate::Certificate;
use crate::text::CertFault;
use crate::text::fields::{Head, Version, fixups_line, head_line, length_line, version_line};
use crate::text::lines::Lines;
use crate::text::numbers::{WantedRange, range_line, registers_line, row_line};
use crate::text::program::program_line;
use pef_labels::LabelRows;
use pef_reloc::Instr;
use std::alloc::Global;
use std::mem;

/// The certificates that are left of a text in version 1 or 2. They are read one after the other, so that one at a time
/// is in memory.
#[derive(Clone, Copy)]
pub struct CertificateReader<'a> {
    version: Version,
    lines: Lines<'a>,
}

impl<'a> CertificateReader<'a> {
    /// Returns the certificates of a text. It reads the first line, which has the version.
    ///
    /// # Errors
    ///
    /// `BadCertificate` if there is no such line.
    pub fn new(text: &'a [u8]) -> Result<CertificateReader<'a>, CertFault>
        ensures { BeginsAs result (certificates_of text.entry.now) }
    {
        let mut lines = Lines::new(text);
        let version = read_version(&mut lines)?;
        Ok(CertificateReader { version, lines })
    }

    /// Reads the next certificate, or returns `None` if the text ends after the last one.
    ///
    /// After `None` or an error the reader is as it was.
    ///
    /// # Errors
    ///
    /// `BadCertificate` with the number of the first line that breaks a rule by itself or with the lines before it, or,
    /// if a line is missing, of the one after the last; or `OutOfMemory`.
    pub fn next_certificate(&mut self, alloc: Global) -> Result<Option<Certificate>, CertFault>
        ensures next { TakesNext result (certificates_left self.old) (certificates_left self.new) }
        ensures printable { IfOk result (λ next. IfSome next Printable) }
        ensures less { IfOk result (λ next. IfSome next (λ _. length (unread self.new).text < length (unread self.old).text)) }
    {
        let mut lines = self.lines;
        match read_head(&mut lines)? {
            Head::End => {
                if !lines.is_empty() {
                    return Err(lines.fault());
                }
                Ok(None)
            }
            Head::Section(section) => {
                let certificate = read_certificate(alloc, &mut lines, self.version, section)?;
                self.lines = lines;
                Ok(Some(certificate))
            }
        }
    }
}

impl Certificate {
    /// Reads the certificates of a text in version 1 or 2, in time linear in its length.
    ///
    /// # Errors
    ///
    /// `BadCertificate` with the number of the first line that breaks a rule by itself or with the lines
    /// before it, or, if a line is missing, of the one after the last; or `OutOfMemory`.
    pub fn read(alloc: Global, text: &[u8]) -> Result<Vec<Certificate>, CertFault>
        ensures certificates { ReadsAs (result_map (λ v. v.items) result) (certificates_of text.now) }
        ensures printable { IfOk result (λ v. AllByRecursion Printable v.items) }
    {
        let mut reader = CertificateReader::new(text)?;
        let mut certificates = Vec::new(alloc);
        'certificates: loop {
            match reader.next_certificate(alloc)? {
                Some(certificate) => certificates.push(certificate)?,
                None => break,
            }
        }
        Ok(certificates)
    }
}

/// Reads the line of the version.
#[tactic(auto, using(crate::proofs::TextProofs::ReadLemmas::line_missing, crate::proofs::TextProofs::ReadLemmas::line_taken))]
fn read_version(lines: &mut Lines<'_>) -> Result<Version, CertFault>
    ensures takes { Takes result (left lines.new) (line_read version_line (left lines.old)) }
    ensures less { OnOk result (length (left lines.new).text + 1 ≤ length (left lines.old).text) }
{
    let Some(line) = lines.next_line() else {
        return Err(lines.fault());
    };
    line.says(version_line(line.bytes))
}

/// Reads a line that begins a certificate or ends the text.
#[tactic(auto, using(crate::proofs::TextProofs::ReadLemmas::line_missing, crate::proofs::TextProofs::ReadLemmas::line_taken))]
fn read_head(lines: &mut Lines<'_>) -> Result<Head, CertFault>
    ensures takes { Takes result (left lines.new) (line_read head_line (left lines.old)) }
    ensures less { OnOk result (length (left lines.new).text + 1 ≤ length (left lines.old).text) }
{
    let Some(line) = lines.next_line() else {
        return Err(lines.fault());
    };
    line.says(head_line(line.bytes))
}

/// Reads the certificate of a section, after the line that begins it.
#[tactic(auto, unfolding(crate::specs::Text::Grammar::certificate_read))]
fn read_certificate(
    alloc: Global,
    lines: &mut Lines<'_>,
    version: Version,
    section: u32,
) -> Result<Certificate, CertFault>
    ensures takes { Takes result (left lines.new) (certificate_read version section (left lines.old)) }
    ensures no_more { length (left lines.new).text ≤ length (left lines.old).text }
{
    let fixups = read_fixups(lines)?;
    let halfwords = read_length(lines)?;
    let program = read_program(alloc, lines, halfwords)?;
    let registers = read_registers(alloc, lines)?;
    let classes = registers.len() + 1;
    let labels = match version {
        Version::One => read_rows(alloc, lines, classes, fixups + 1)?,
        Version::Two => read_ranges(alloc, lines, classes, fixups + 1)?,
    };
    Ok(Certificate {
        section,
        program,
        registers,
        labels,
    })
}

/// Reads the line of the number of fixups.
#[tactic(auto, using(crate::proofs::TextProofs::ReadLemmas::line_missing, crate::proofs::TextProofs::ReadLemmas::line_taken))]
fn read_fixups(lines: &mut Lines<'_>) -> Result<u32, CertFault>
    ensures takes { Takes result (left lines.new) (line_read fixups_line (left lines.old)) }
    ensures most { IfOk result (λ count. count ≤ 65536) }
    ensures no_more { length (left lines.new).text ≤ length (left lines.old).text }
{
    let Some(line) = lines.next_line() else {
        return Err(lines.fault());
    };
    line.says(fixups_line(line.bytes))
}

/// Reads the line of the number of halfwords.
#[tactic(auto, using(crate::proofs::TextProofs::ReadLemmas::line_missing, crate::proofs::TextProofs::ReadLemmas::line_taken))]
fn read_length(lines: &mut Lines<'_>) -> Result<u32, CertFault>
    ensures takes { Takes result (left lines.new) (line_read length_line (left lines.old)) }
    ensures no_more { length (left lines.new).text ≤ length (left lines.old).text }
{
    let Some(line) = lines.next_line() else {
        return Err(lines.fault());
    };
    line.says(length_line(line.bytes))
}

/// Reads the line of a program with this many halfwords.
#[tactic(auto, using(crate::proofs::TextProofs::ReadLemmas::line_missing, crate::proofs::TextProofs::ReadLemmas::line_taken))]
fn read_program(
    alloc: Global,
    lines: &mut Lines<'_>,
    halfwords: u32,
) -> Result<Vec<Instr>, CertFault>
    ensures takes { Takes (result_map (λ v. v.items) result) (left lines.new) (line_read (program_line halfwords) (left lines.old)) }
    ensures no_more { length (left lines.new).text ≤ length (left lines.old).text }
{
    let Some(line) = lines.next_line() else {
        return Err(lines.fault());
    };
    program_line(alloc, line, halfwords)
}

/// Reads the line of the registers.
#[tactic(auto, using(crate::proofs::TextProofs::ReadLemmas::line_missing, crate::proofs::TextProofs::ReadLemmas::line_taken))]
fn read_registers(alloc: Global, lines: &mut Lines<'_>) -> Result<Vec<u32>, CertFault>
    ensures takes { Takes (result_map (λ v. v.items) result) (left lines.new) (line_read registers_line (left lines.old)) }
    ensures most { IfOk result (λ v. vec_len v ≤ 16) }
    ensures no_more { length (left lines.new).text ≤ length (left lines.old).text }
{
    let Some(line) = lines.next_line() else {
        return Err(lines.fault());
    };
    registers_line(alloc, line)
}

/// Reads this many lines of labels of version 1, for this many classes.
fn read_rows(
    alloc: Global,
    lines: &mut Lines<'_>,
    classes: usize,
    count: u32,
) -> Result<LabelRows, CertFault>
    requires { classes ≤ 17 }
    ensures takes { Takes (result_map (λ labels. labels.rows) result) (left lines.new) (rows_read (classes * classes) 0 count [] (left lines.old)) }
    ensures no_more { length (left lines.new).text ≤ length (left lines.old).text }
{
    let mut labels = LabelRows::new(alloc, classes * classes);
    let mut row = Vec::new(alloc);
    for at in 0..count {
        read_row(lines, classes * classes, at, &mut row)?;
        labels.push(&row)?;
    }
    Ok(labels)
}

/// Reads ranges of labels up to this many rows, for this many classes.
fn read_ranges(
    alloc: Global,
    lines: &mut Lines<'_>,
    classes: usize,
    count: u32,
) -> Result<LabelRows, CertFault>
    requires few { classes ≤ 17 }
    ensures takes { Takes (result_map (λ labels. labels.rows) result) (left lines.new) (ranges_read (classes * classes) count (count + 1) [] (left lines.old)) }
    ensures no_more { length (left lines.new).text ≤ length (left lines.old).text }
{
    let width = classes * classes;
    let mut labels = LabelRows::new(alloc, width);
    let mut before = Vec::new(alloc);
    let mut row = Vec::new(alloc);
    let mut first = 0;
    'rows: while first < count {
        let wanted = WantedRange {
            first,
            count,
            width,
            before: &before,
        };
        let last = read_range(lines, wanted, &mut row)?;
        labels.push_many(&row, (last - first + 1) as usize)?;
        mem::swap(&mut before, &mut row);
        first = last + 1;
    }
    Ok(labels)
}

/// Writes the next line of labels, which has this index and this many labels, to a row.
#[tactic(auto, using(crate::proofs::TextProofs::ReadLemmas::line_missing, crate::proofs::TextProofs::ReadLemmas::line_taken))]
fn read_row(
    lines: &mut Lines<'_>,
    width: usize,
    at: u32,
    row: &mut Vec<u32>,
) -> Result<(), CertFault>
    ensures takes { Takes (result_map (λ _. row.new.items) result) (left lines.new) (line_read (row_line width at) (left lines.old)) }
    ensures wide { OnOk result (vec_len row.new ≡ width) }
    ensures no_more { length (left lines.new).text ≤ length (left lines.old).text }
{
    let Some(line) = lines.next_line() else {
        return Err(lines.fault());
    };
    row_line(line, width, at, row)
}

/// Writes the labels of the next line, which is a range, to a row, and returns the index of its last row.
#[tactic(auto, using(crate::proofs::TextProofs::ReadLemmas::line_missing, crate::proofs::TextProofs::ReadLemmas::line_taken))]
fn read_range(
    lines: &mut Lines<'_>,
    wanted: WantedRange<'_>,
    row: &mut Vec<u32>,
) -> Result<u32, CertFault>
    ensures takes { Takes (result_map (λ last. record { first = wanted.entry.first; last = last; labels = row.new.items }) result) (left lines.new) (line_read (range_line wanted.entry.width wanted.entry.count wanted.entry.first wanted.entry.before.now) (left lines.old)) }
    ensures wide { OnOk result (vec_len row.new ≡ wanted.entry.width) }
    ensures forward { IfOk result (λ last. wanted.entry.first ≤ last) }
    ensures inside { IfOk result (λ last. last < wanted.entry.count) }
    ensures no_more { length (left lines.new).text ≤ length (left lines.old).text }
{
    let Some(line) = lines.next_line() else {
        return Err(lines.fault());
    };
    range_line(line, wanted, row)
}
