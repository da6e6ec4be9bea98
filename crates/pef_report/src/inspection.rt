ghost use Rattle.std.specs.Prelude.{◌≡◌, IfOk, OnOk, true, false};
ghost use Rattle.pef_ports.specs.Sent.{Sends};
ghost use Rattle.pef_report.specs.Inspection.{AreAll, Inspects, InspectsWithin, count_chosen, excerpt_object, inspection_object, inspection_text};
ghost use Rattle.pef_report.specs.Order.{IsInOrder};
ghost use Rattle.pef_report.specs.Verdict.{verdict_of};

use crate::found::{count_chosen, print_findings};
use crate::object::{Shown, print_object};
use crate::order::finding_rank;
use crate::reading::Reading;
use crate::verdict::Verdict;
use crate::walk::Walk;
use pef_format::Part;
use pef_inspect::{
    Finding, Limits, find_errors_within, find_more_notes_within, find_notes_within, programs_shown,
};
use pef_ports::{Page, Sink, StreamFault};
use std::alloc::{AllocError, Allocator};

/// The kinds of rows, in the order in which they are printed.
const ROW_PARTS: [Part; 10] = [
    Part::Header,
    Part::Section,
    Part::LoaderHeader,
    Part::Library,
    Part::Import,
    Part::Main,
    Part::Init,
    Part::Term,
    Part::Relocation,
    Part::Export,
];

/// A container with everything that is known of it: what can be read, and all errors and notes.
#[derive(Drop)]
pub struct Inspection<'a, A: Allocator> {
    base: u64,
    bytes: &'a [u8],
    /// How many relocation programs are printed.
    programs: u32,
    findings: Vec<Finding, A>,
}

impl<'a, A: Allocator + Copy> Inspection<'a, A> {
    ghost use Rattle.pef_report.specs.Views.{inspected, shown_seen};

    /// Inspects the container `bytes`, which begins at the offset `base` of its file, within the limits for one container.
    ///
    /// # Errors
    ///
    /// An allocation failed.
    pub fn read(alloc: A, base: u64, bytes: &'a [u8]) -> Result<Inspection<'a, A>, AllocError>
        ensures { IfOk result (λ i. Inspects base bytes.entry.now (inspected i)) }
    {
        Inspection::read_within(alloc, base, bytes, Limits::for_container())
    }

    /// Inspects the container `bytes` within any limits. [`left_after`](pef_inspect::left_after) says what is left of them for the
    /// next container of the file.
    ///
    /// # Errors
    ///
    /// An allocation failed.
    pub fn read_within(
        alloc: A,
        base: u64,
        bytes: &'a [u8],
        limits: Limits,
    ) -> Result<Inspection<'a, A>, AllocError>
        ensures { IfOk result (λ i. InspectsWithin limits base bytes.entry.now (inspected i)) }
    {
        let mut findings = find_all(alloc, bytes, limits)?;
        put_in_order(&mut findings)?;
        Ok(Inspection {
            base,
            bytes,
            programs: programs_shown(bytes),
            findings,
        })
    }

    /// Returns how many errors there are.
    pub fn error_count(&self) -> u64
        ensures { result ≡ count_chosen true (inspected self.now).findings }
    {
        count_chosen(&self.findings, true)
    }

    /// Returns how many notes there are.
    pub fn note_count(&self) -> u64
        ensures { result ≡ count_chosen false (inspected self.now).findings }
    {
        count_chosen(&self.findings, false)
    }

    /// Prints a line for each row that can be read, and for each instruction of a relocation program. Below a row or an
    /// instruction are the errors and notes about it. The last line is the verdict.
    pub fn print<W: Sink>(&self, out: &mut W, page: &mut Page) -> Result<(), StreamFault>
        ensures { Sends result (W.stream out.old) (W.stream out.new) page.old.items page.new.items (inspection_text (inspected self.now)) }
    {
        let mut walk = Walk {
            base: self.base,
            reading: Reading::new(self.base, self.bytes, self.programs),
            left: &self.findings,
        };
        walk.print_parts(out, page, &ROW_PARTS)?;
        print_findings(out, page, self.base, walk.left)?;
        self.verdict().print(out, page)
    }

    /// Prints an object of JSON, on one line without its end.
    pub fn print_object<W: Sink>(&self, out: &mut W, page: &mut Page) -> Result<(), StreamFault>
        ensures { Sends result (W.stream out.old) (W.stream out.new) page.old.items page.new.items (inspection_object (inspected self.now)) }
    {
        print_object(out, page, self.shown(), None)
    }

    /// Prints the beginning of this object, as an object of the same form: at most so many rows of each kind, no instructions, and
    /// of the errors and notes in their order the first so many.
    pub fn print_excerpt<W: Sink>(
        &self,
        out: &mut W,
        page: &mut Page,
        most: u32,
    ) -> Result<(), StreamFault>
        ensures { Sends result (W.stream out.old) (W.stream out.new) page.old.items page.new.items (excerpt_object most (inspected self.now)) }
    {
        let whole = self.shown();
        let (findings, _) = whole
            .findings
            .split_at(whole.findings.len().min(most as usize));
        let first = Shown {
            programs: 0,
            findings,
            ..whole
        };
        print_object(out, page, first, Some(most))
    }

    /// Returns all that is shown.
    fn shown(&self) -> Shown<'_, 'a>
        ensures shown { shown_seen result ≡ inspected self.now }
        ensures verdict { result.verdict ≡ verdict_of (inspected self.now).bytes (inspected self.now).findings }
    {
        Shown {
            base: self.base,
            bytes: self.bytes,
            programs: self.programs,
            findings: self.findings.as_slice(),
            verdict: self.verdict(),
        }
    }

    /// Returns the verdict.
    fn verdict(&self) -> Verdict
        ensures { result ≡ verdict_of (inspected self.now).bytes (inspected self.now).findings }
    {
        Verdict::of(self.bytes, self.findings.as_slice())
    }
}

/// Returns all errors and notes of a container: errors, notes, and then the notes that need memory.
fn find_all<A: Allocator + Copy>(
    alloc: A,
    bytes: &[u8],
    limits: Limits,
) -> Result<Vec<Finding, A>, AllocError>
    ensures { IfOk result (λ found. AreAll limits bytes.now found.items) }
{
    let mut findings = Vec::new(alloc);
    find_errors_within(bytes, limits, &mut findings)?;
    find_notes_within(bytes, limits, &mut findings)?;
    let mut more = find_more_notes_within(alloc, bytes, limits)?;
    findings.append(&mut more)?;
    Ok(findings)
}

/// Puts errors and notes into the order of their rows, and of the instructions below a row.
fn put_in_order<A: Allocator>(findings: &mut Vec<Finding, A>) -> Result<(), AllocError>
    ensures { OnOk result (IsInOrder findings.old.items findings.new.items) }
{
    findings.sort_by_key(|finding| finding_rank(finding))?;
    Ok(())
}
