ghost use Rattle.std.specs.Prelude.{◌≡◌, ◌+◌, ◌-◌, ◌*◌, ◌^◌, ◌<◌, ◌≤◌, ◌∷◌, ◌++◌, [], codes, decimal, drop, length, take, true, IfOk, OnOk};
ghost use Rattle.std.specs.List.{AllByRecursion};
ghost use Rattle.std.specs.Option.{option_to_list};
ghost use Rattle.std.specs.Result.{IfErr};
ghost use Rattle.byteorder.specs.Endian.{big_bytes};
ghost use Rattle.pef_ports.specs.Sent.{Sends};
ghost use Rattle.pef_reloc.specs.Instrs.{halfword_bytes, instrs_fit, spelled};
ghost use Rattle.pef_cert.specs.declared.text.fault.CertFault.TheVariants.{OutOfMemory};
ghost use Rattle.pef_cert.specs.declared.text.fields.Version.TheVariants.{Two};
ghost use Rattle.pef_cert.specs.Text.Kept.Heads.{head_text, indices_text};
ghost use Rattle.pef_cert.specs.Text.Printed.{Printable, certificate_text, certificates_text, each_text, halfword_words, labels_text, line_text, number_words, program_words, range_text, words_text};

use crate::fixups::program_length;
use crate::text::CertFault;
use crate::{Certificate, PackedCertificate};
use itoa::write_digits;
use pef_labels::{LabelRows, LabelRun, NumbersLeft, PackedKept, PackedRows};
use pef_ports::{
    Decimal, Joined, Line, Page, Printed, Sink, StreamFault, Text, Verbatim, flush, push_hex, send,
};
use pef_reloc::{Instr, Spelling};
use std::alloc::Global;

/// How many numbers are sent at once, at most.
const MAX_PART: usize = 64;

/// The most bytes of a number of 32 bits and the space before it.
const MAX_WORD: usize = 11;

/// Prints numbers after the first word of their line.
fn print_numbers<W: Sink>(out: &mut W, page: &mut Page, numbers: &[u32]) -> Result<(), StreamFault>
    ensures { Sends result (W.stream out.old) (W.stream out.new) page.old.items page.new.items (words_text (number_words numbers.now)) }
{
    let mut left = numbers;
    'parts: while !left.is_empty() {
        let (part, others) = left.split_at(left.len().min(MAX_PART));
        print_part(out, page, part)?;
        left = others;
    }
    Ok(())
}

/// Prints a few of the numbers.
fn print_part<W: Sink>(out: &mut W, page: &mut Page, numbers: &[u32]) -> Result<(), StreamFault>
    requires { length numbers.now ≤ 64 }
    ensures { Sends result (W.stream out.old) (W.stream out.new) page.old.items page.new.items (words_text (number_words numbers.now)) }
{
    let mut words = [0; MAX_PART * MAX_WORD];
    let at = write_numbers(numbers, &mut words);
    let (_, written) = words.split_at(at);
    send(out, page, written)
}

/// Writes numbers, each after a space, so that they end where `words` does. The last one is written first, because
/// its digits are, too. Returns where the first one starts.
fn write_numbers(numbers: &[u32], words: &mut [u8]) -> usize
    requires { 11 * length numbers.now ≤ length words.old }
    ensures inside { result ≤ length words.new }
    ensures written { drop result words.new ≡ words_text (number_words numbers.now) }
{
    let mut at = words.len();
    let mut left = numbers.len();
    'numbers: while left > 0 {
        left -= 1;
        at = write_digits(u64::from(numbers[left]), words, at) - 1;
        words[at] = b' ';
    }
    at
}

/// Prints a line of a name and a number.
fn print_field<W: Sink>(
    out: &mut W,
    page: &mut Page,
    name: &[u8],
    number: u64,
) -> Result<(), StreamFault>
    ensures { Sends result (W.stream out.old) (W.stream out.new) page.old.items page.new.items (line_text name.now (decimal number ∷ [])) }
{
    let word = Joined(Joined(Verbatim(name), Verbatim(b" ")), Decimal(number));
    Joined(word, Verbatim(b"\n")).print(out, page)
}

/// Prints a halfword after the first word of its line.
fn print_halfword<W: Sink>(out: &mut W, page: &mut Page, halfword: u16) -> Result<(), StreamFault>
    ensures { Sends result (W.stream out.old) (W.stream out.new) page.old.items page.new.items (words_text (halfword_words (big_bytes 2 halfword))) }
{
    let mut word = Line::new();
    word.push(b' ');
    push_hex(&mut word, &halfword.to_be_bytes());
    send(out, page, word.as_slice())
}

/// Prints the halfwords of an instruction.
fn print_spelling<W: Sink>(
    out: &mut W,
    page: &mut Page,
    spelling: Spelling,
) -> Result<(), StreamFault>
    ensures { Sends result (W.stream out.old) (W.stream out.new) page.old.items page.new.items (words_text (halfword_words (halfword_bytes (spelling.first ∷ option_to_list spelling.second)))) }
{
    print_halfword(out, page, spelling.first)?;
    match spelling.second {
        Some(second) => print_halfword(out, page, second),
        None => Ok(()),
    }
}

/// Prints the halfwords of instructions.
fn print_instrs<W: Sink>(out: &mut W, page: &mut Page, instrs: &[Instr]) -> Result<(), StreamFault>
    requires { instrs_fit instrs.now ≡ true }
    ensures { Sends result (W.stream out.old) (W.stream out.new) page.old.items page.new.items (words_text (halfword_words (spelled instrs.now))) }
{
    for instr in instrs {
        print_spelling(out, page, instr.spelling())?;
    }
    Ok(())
}

/// Prints the line of a program.
fn print_program<W: Sink>(out: &mut W, page: &mut Page, instrs: &[Instr]) -> Result<(), StreamFault>
    requires { instrs_fit instrs.now ≡ true }
    ensures { Sends result (W.stream out.old) (W.stream out.new) page.old.items page.new.items (line_text (codes "program") (program_words instrs.now)) }
{
    if instrs.is_empty() {
        return send(out, page, b"program -\n");
    }
    send(out, page, b"program")?;
    print_instrs(out, page, instrs)?;
    send(out, page, b"\n")
}

/// Prints the line of the registers.
fn print_registers<W: Sink>(
    out: &mut W,
    page: &mut Page,
    registers: &[u32],
) -> Result<(), StreamFault>
    ensures { Sends result (W.stream out.old) (W.stream out.new) page.old.items page.new.items (line_text (codes "registers") (number_words registers.now ++ codes "*" ∷ [])) }
{
    send(out, page, b"registers")?;
    print_numbers(out, page, registers)?;
    send(out, page, b" *\n")
}

/// The indices of equal rows, one after another.
#[derive(Clone, Copy)]
struct Indices {
    first: usize,
    last: usize,
}

/// Prints the indices at the front of the line of equal rows.
fn print_indices<W: Sink>(out: &mut W, page: &mut Page, at: Indices) -> Result<(), StreamFault>
    ensures { Sends result (W.stream out.old) (W.stream out.new) page.old.items page.new.items (indices_text at.first at.last) }
{
    let first = Joined(Verbatim(b"at "), Decimal(at.first as u64));
    Joined(Joined(first, Verbatim(b" ")), Decimal(at.last as u64)).print(out, page)
}

/// Prints the line of equal rows, from an index on.
fn print_run<W: Sink>(
    out: &mut W,
    page: &mut Page,
    at: usize,
    run: LabelRun<'_>,
) -> Result<(), StreamFault>
    requires some { 0 < run.rows }
    requires room { at + run.rows < 2 ^ 64 }
    ensures { Sends result (W.stream out.old) (W.stream out.new) page.old.items page.new.items (range_text (record { first = at; last = at + run.entry.rows - 1; labels = run.entry.labels.now })) }
{
    let last = at + run.rows - 1;
    print_indices(out, page, Indices { first: at, last })?;
    print_numbers(out, page, run.labels)?;
    send(out, page, b"\n")
}

/// Prints the lines of labels, one for equal neighbours.
fn print_labels<W: Sink>(
    out: &mut W,
    page: &mut Page,
    labels: &LabelRows,
) -> Result<(), StreamFault>
    requires { length labels.now.rows < 2 ^ 32 }
    ensures { Sends result (W.stream out.old) (W.stream out.new) page.old.items page.new.items (labels_text Two labels.now.rows) }
{
    let mut runs = labels.runs();
    let mut at = 0;
    while let Some(run) = runs.next_run() {
        print_run(out, page, at, run)?;
        at += run.rows;
    }
    Ok(())
}

/// Reads numbers, and prints them after the first words of their line.
fn print_next<W: Sink>(
    out: &mut W,
    page: &mut Page,
    numbers: &mut NumbersLeft<'_>,
    count: usize,
) -> Result<(), StreamFault>
    requires { count ≤ length numbers.old }
    ensures sent { Sends result (W.stream out.old) (W.stream out.new) page.old.items page.new.items (words_text (number_words (take count numbers.old))) }
    ensures left { OnOk result (numbers.new ≡ drop count numbers.old) }
{
    let mut room = [0; MAX_PART];
    let mut left = count;
    'parts: while left > 0 {
        let (part, _) = room.split_at_mut(left.min(MAX_PART));
        numbers.read(part);
        print_part(out, page, part)?;
        left -= part.len();
    }
    Ok(())
}

/// Reads the labels of equal rows, and prints their line.
fn print_next_run<W: Sink>(
    out: &mut W,
    page: &mut Page,
    at: Indices,
    numbers: &mut NumbersLeft<'_>,
    width: usize,
) -> Result<(), StreamFault>
    requires { width ≤ length numbers.old }
    ensures sent { Sends result (W.stream out.old) (W.stream out.new) page.old.items page.new.items (range_text (record { first = at.first; last = at.last; labels = take width numbers.old })) }
    ensures left { OnOk result (numbers.new ≡ drop width numbers.old) }
{
    print_indices(out, page, at)?;
    print_next(out, page, numbers, width)?;
    send(out, page, b"\n")
}

/// Prints the lines of packed labels.
fn print_packed<W: Sink>(
    out: &mut W,
    page: &mut Page,
    labels: &PackedRows,
) -> Result<(), StreamFault>
    ensures { Sends result (W.stream out.old) (W.stream out.new) page.old.items page.new.items (labels_text Two labels.now.rows) }
{
    let PackedKept {
        width,
        ends,
        mut numbers,
    } = labels.kept();
    let mut first = 0;
    for end in ends {
        let at = Indices {
            first,
            last: *end - 1,
        };
        print_next_run(out, page, at, &mut numbers, width)?;
        first = *end;
    }
    Ok(())
}

/// What the lines before the labels are about.
#[derive(Clone, Copy)]
struct Head<'a> {
    section: u32,
    /// How many rows of labels there are.
    rows: usize,
    program: &'a [Instr],
    registers: &'a [u32],
}

/// Prints the lines of a certificate that are before the labels.
fn print_head<W: Sink>(out: &mut W, page: &mut Page, head: Head<'_>) -> Result<(), StreamFault>
    requires some { 0 < head.rows }
    requires fit { instrs_fit head.program.now ≡ true }
    ensures { Sends result (W.stream out.old) (W.stream out.new) page.old.items page.new.items (head_text head.entry.section head.entry.rows head.entry.program.now head.entry.registers.now) }
{
    print_field(out, page, b"section", u64::from(head.section))?;
    print_field(out, page, b"fixups", head.rows as u64 - 1)?;
    print_field(out, page, b"length", program_length(head.program))?;
    print_program(out, page, head.program)?;
    print_registers(out, page, head.registers)
}

/// Prints the lines of a certificate.
fn print_certificate<W: Sink>(
    out: &mut W,
    page: &mut Page,
    certificate: &Certificate,
) -> Result<(), StreamFault>
    requires { Printable certificate.now }
    ensures { Sends result (W.stream out.old) (W.stream out.new) page.old.items page.new.items (certificate_text Two certificate.now) }
{
    let head = Head {
        section: certificate.section,
        rows: certificate.labels.rows(),
        program: &certificate.program,
        registers: &certificate.registers,
    };
    print_head(out, page, head)?;
    print_labels(out, page, &certificate.labels)
}

/// Prints the lines of a packed certificate.
fn print_packed_certificate<W: Sink>(
    out: &mut W,
    page: &mut Page,
    certificate: &PackedCertificate,
) -> Result<(), StreamFault>
    requires { Printable certificate.now }
    ensures { Sends result (W.stream out.old) (W.stream out.new) page.old.items page.new.items (certificate_text Two certificate.now) }
{
    let head = Head {
        section: certificate.section,
        rows: certificate.labels.rows(),
        program: &certificate.program,
        registers: &certificate.registers,
    };
    print_head(out, page, head)?;
    print_packed(out, page, &certificate.labels)
}

/// Prints the lines of certificates.
fn print_certificates<W: Sink>(
    out: &mut W,
    page: &mut Page,
    certificates: &[Certificate],
) -> Result<(), StreamFault>
    requires { AllByRecursion Printable certificates.now }
    ensures { Sends result (W.stream out.old) (W.stream out.new) page.old.items page.new.items (each_text Two certificates.now) }
{
    for certificate in certificates {
        print_certificate(out, page, certificate)?;
    }
    Ok(())
}

/// Prints the lines of packed certificates.
fn print_packed_certificates<W: Sink>(
    out: &mut W,
    page: &mut Page,
    certificates: &[PackedCertificate],
) -> Result<(), StreamFault>
    requires { AllByRecursion Printable certificates.now }
    ensures { Sends result (W.stream out.old) (W.stream out.new) page.old.items page.new.items (each_text Two certificates.now) }
{
    for certificate in certificates {
        print_packed_certificate(out, page, certificate)?;
    }
    Ok(())
}

/// Prints the text of certificates, and empties the page.
fn print_whole<W: Sink>(out: &mut W, certificates: &[Certificate]) -> Result<(), StreamFault>
    requires { AllByRecursion Printable certificates.now }
    ensures { Sends result (W.stream out.old) (W.stream out.new) [] [] (certificates_text certificates.now) }
{
    let mut page = Page::new();
    Certificate::print_to(out, &mut page, certificates)?;
    flush(out, &mut page)
}

impl Certificate {
    /// Prints certificates in version 2, so that they can be read again. Returns their text.
    ///
    /// # Errors
    ///
    /// Only `OutOfMemory`.
    pub fn print(alloc: Global, certificates: &[Certificate]) -> Result<Vec<u8>, CertFault>
        requires { AllByRecursion Printable certificates.now }
        ensures text { IfOk result (λ text. text.items ≡ certificates_text certificates.now) }
        ensures memory { IfErr result (λ fault. fault ≡ OutOfMemory) }
    {
        let mut text = Text::new(Vec::new(alloc));
        match print_whole(&mut text, certificates) {
            Ok(()) => Ok(text.into_bytes()),
            Err(StreamFault) => Err(CertFault::OutOfMemory),
        }
    }

    /// Prints certificates in version 2 through the page, so that they can be read again. It allocates nothing.
    pub fn print_to<W: Sink>(
        out: &mut W,
        page: &mut Page,
        certificates: &[Certificate],
    ) -> Result<(), StreamFault>
        requires { AllByRecursion Printable certificates.now }
        ensures { Sends result (W.stream out.old) (W.stream out.new) page.old.items page.new.items (certificates_text certificates.now) }
    {
        send(out, page, b"pefcert 2\n")?;
        print_certificates(out, page, certificates)?;
        send(out, page, b"end\n")
    }
}

impl PackedCertificate {
    /// Prints certificates as `Certificate::print_to` does.
    pub fn print_to<W: Sink>(
        out: &mut W,
        page: &mut Page,
        certificates: &[PackedCertificate],
    ) -> Result<(), StreamFault>
        requires { AllByRecursion Printable certificates.now }
        ensures { Sends result (W.stream out.old) (W.stream out.new) page.old.items page.new.items (certificates_text certificates.now) }
    {
        send(out, page, b"pefcert 2\n")?;
        print_packed_certificates(out, page, certificates)?;
        send(out, page, b"end\n")
    }
}
