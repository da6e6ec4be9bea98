ghost use Rattle.std.specs.Prelude.{◌≡◌, ◌++◌, IfOk, List, ℕ, codes, length, option_map};
ghost use Rattle.pef_ports.specs.Sent.{Sends};
ghost use Rattle.pef_rows.specs.declared.frames.Counts.{Counts as CountsAre};
ghost use Rattle.pef_rows.specs.Objects.{separator};
ghost use Rattle.mac_rows.specs.Faults.{faults_of};
ghost use Rattle.mac_rows.specs.FileNotes.{notes_of};
ghost use Rattle.mac_rows.specs.Unread.{unread_counts, unread_text};
ghost use Rattle.mac_rows.specs.Views.{data_file_seen};
ghost use Rattle.mac_report.specs.Containers.{total};
ghost use Rattle.mac_report.specs.Reports.{IsReport, IsWhole, beginning, end_text, first_line, head_text, json_end, json_head, kind_word, skipped_note, skipped_object, skipped_text, text_end, text_head};
ghost use Rattle.mac_report.specs.Views.{shown_seen};

use crate::containers::print_containers;
use crate::tally::Tally;
use cfm_members::FileKind;
use mac_rows::{
    DataFile, FileFinding, OutputFormat, PairedHead, UNREAD_COUNTS, UnreadFile, find_faults,
    find_notes, none_of, print_findings, print_fork_lines, print_fork_objects, print_members,
    print_paired_line, print_paired_object, print_record_line, print_record_member,
    print_resources,
};
use pef_ports::{FileReason, Page, Sink, StreamFault, send};
use pef_rows::{
    Counts, Token, print_counts, print_file_line, print_file_object, print_separator, print_tokens,
};
use std::alloc::{AllocError, Allocator};

/// The beginning of the object of the note that some containers weren't inspected.
const SKIPPED_START: &[u8] =
    b"{\"number\":115,\"name\":\"ContainersUnverified\",\"part\":null,\"row\":null,\"field\":null,\"offset\":null,\"containers\":";

/// What was found in a file besides its containers.
#[derive(Drop)]
pub(crate) struct FoundIn<A: Allocator> {
    errors: Vec<FileFinding, A>,
    notes: Vec<FileFinding, A>,
}

/// The errors and notes of a file besides those of its containers, as they are printed.
#[derive(Clone, Copy)]
pub(crate) struct Shown<'f> {
    pub errors: &'f [FileFinding],
    pub notes: &'f [FileFinding],
}

impl<A: Allocator + Copy> FoundIn<A> {
    /// Returns all errors and notes of a file that aren't those of its containers.
    pub(crate) fn read(
        alloc: A,
        bytes: &[u8],
        data_file: Option<DataFile<'_>>,
    ) -> Result<FoundIn<A>, AllocError>
        ensures { IfOk result (λ found. (found.errors.items ≡ faults_of (option_map data_file_seen data_file.entry) bytes.now) × (found.notes.items ≡ notes_of (option_map data_file_seen data_file.entry) bytes.now)) }
    {
        Ok(FoundIn {
            errors: find_faults(alloc, bytes, data_file)?,
            notes: find_notes(alloc, bytes, data_file)?,
        })
    }

    /// Returns the errors and notes as they are printed.
    pub(crate) fn shown(&self) -> Shown<'_>
        ensures { shown_seen result ≡ record { errors = self.now.errors.items; notes = self.now.notes.items } }
    {
        Shown {
            errors: self.errors.as_slice(),
            notes: self.notes.as_slice(),
        }
    }
}

impl<'f> Shown<'f> {
    /// Returns the counts of a file with these errors and notes.
    fn total(self, tally: Tally) -> Counts
        ensures { result ≡ total tally (length self.entry.errors.now) (length self.entry.notes.now) }
    {
        tally.total(self.errors.len() as u64, self.notes.len() as u64)
    }
}

/// The report on a file that was read.
#[derive(Clone, Copy, Debug)]
pub struct FileReport<'a> {
    pub form: OutputFormat,
    pub path: &'a [u8],
    pub bytes: &'a [u8],
    /// The file that has the data fork, if this one has the resource fork alone. The offsets of containers in the data fork
    /// are offsets in that file.
    pub data_file: Option<DataFile<'a>>,
}

impl<'a> FileReport<'a> {
    /// Prints the report, and returns what it counts.
    ///
    /// A container whose inspection lacks memory is reported by error 99, and the next ones follow. So is a file with too
    /// many errors of its forks and fragments.
    ///
    /// # Errors
    ///
    /// Only those of the output.
    pub fn print<A: Allocator + Copy, W: Sink>(
        self,
        alloc: A,
        out: &mut W,
        page: &mut Page,
    ) -> Result<Counts, StreamFault>
        ensures { (text : List ℕ) × (counts : CountsAre)
            × IsReport self.entry.form self.entry.path.now self.entry.bytes.now (option_map data_file_seen self.entry.data_file) text counts
            × Sends result (W.stream out.old) (W.stream out.new) page.old.items page.new.items text
            × IfOk result (λ r. r ≡ counts) }
    {
        match FoundIn::read(alloc, self.bytes, self.data_file) {
            Ok(found) => self.print_whole(alloc, out, page, found.shown()),
            Err(AllocError) => self.print_lacking(out, page),
        }
    }

    /// Prints the report with these errors and notes of its forks and fragments.
    fn print_whole<A: Allocator + Copy, W: Sink>(
        self,
        alloc: A,
        out: &mut W,
        page: &mut Page,
        found: Shown<'_>,
    ) -> Result<Counts, StreamFault>
        ensures { (text : List ℕ) × (counts : CountsAre)
            × IsWhole self.entry.form self.entry.path.now self.entry.bytes.now (option_map data_file_seen self.entry.data_file) (shown_seen found.entry) text counts
            × Sends result (W.stream out.old) (W.stream out.new) page.old.items page.new.items text
            × IfOk result (λ r. r ≡ counts) }
    {
        self.print_head(out, page, found)?;
        let tally = print_containers(alloc, out, page, self)?;
        print_end(out, page, self.form, found, tally)?;
        Ok(found.total(tally))
    }

    /// Prints that an allocation failed.
    fn print_lacking<W: Sink>(self, out: &mut W, page: &mut Page) -> Result<Counts, StreamFault>
        ensures sent { Sends result (W.stream out.old) (W.stream out.new) page.old.items page.new.items (unread_text self.entry.form self.entry.path.now 99 (codes "OutOfMemory")) }
        ensures counts { IfOk result (λ r. r ≡ unread_counts) }
    {
        let report = UnreadFile {
            form: self.form,
            path: self.path,
            number: 99,
            name: b"OutOfMemory",
            reason: FileReason::Other,
        };
        report.print(out, page)?;
        Ok(UNREAD_COUNTS)
    }

    /// Prints what comes before the containers.
    fn print_head<W: Sink>(
        self,
        out: &mut W,
        page: &mut Page,
        found: Shown<'_>,
    ) -> Result<(), StreamFault>
        ensures { Sends result (W.stream out.old) (W.stream out.new) page.old.items page.new.items (head_text self.entry.form self.entry.path.now self.entry.bytes.now (option_map data_file_seen self.entry.data_file) (shown_seen found.entry)) }
    {
        match self.form {
            OutputFormat::Text => self.print_text_head(out, page, found),
            OutputFormat::Json => self.print_json_head(out, page),
        }
    }

    /// Prints the lines before the containers.
    fn print_text_head<W: Sink>(
        self,
        out: &mut W,
        page: &mut Page,
        found: Shown<'_>,
    ) -> Result<(), StreamFault>
        ensures { Sends result (W.stream out.old) (W.stream out.new) page.old.items page.new.items (text_head self.entry.path.now self.entry.bytes.now (option_map data_file_seen self.entry.data_file) (shown_seen found.entry)) }
    {
        self.print_first_line(out, page)?;
        print_fork_lines(out, page, self.bytes)?;
        print_record_line(out, page, self.bytes)?;
        print_resources(out, page, OutputFormat::Text, self.bytes)?;
        print_members(out, page, OutputFormat::Text, self.bytes, self.data_file)?;
        print_findings(out, page, OutputFormat::Text, found.errors)?;
        print_findings(out, page, OutputFormat::Text, found.notes)
    }

    /// Prints the first line.
    fn print_first_line<W: Sink>(self, out: &mut W, page: &mut Page) -> Result<(), StreamFault>
        ensures { Sends result (W.stream out.old) (W.stream out.new) page.old.items page.new.items (first_line self.entry.path.now self.entry.bytes.now (option_map data_file_seen self.entry.data_file)) }
    {
        let format = kind_word(FileKind::of(self.bytes));
        let size = self.bytes.len() as u64;
        match self.data_file {
            Some(file) => {
                let head = PairedHead {
                    path: self.path,
                    size,
                    format,
                    other: file.path,
                };
                print_paired_line(out, page, head)
            }
            None => print_file_line(out, page, self.path, size, format),
        }
    }

    /// Prints the object up to its containers.
    pub(crate) fn print_json_head<W: Sink>(
        self,
        out: &mut W,
        page: &mut Page,
    ) -> Result<(), StreamFault>
        ensures { Sends result (W.stream out.old) (W.stream out.new) page.old.items page.new.items (json_head self.entry.path.now self.entry.bytes.now (option_map data_file_seen self.entry.data_file)) }
    {
        self.print_beginning(out, page)?;
        print_fork_objects(out, page, self.bytes)?;
        print_record_member(out, page, self.bytes)?;
        send(out, page, b",\"resources\":[")?;
        print_resources(out, page, OutputFormat::Json, self.bytes)?;
        send(out, page, b"],\"fragments\":[")?;
        print_members(out, page, OutputFormat::Json, self.bytes, self.data_file)?;
        send(out, page, b"],\"containers\":[")
    }

    /// Prints the beginning of the object.
    fn print_beginning<W: Sink>(self, out: &mut W, page: &mut Page) -> Result<(), StreamFault>
        ensures { Sends result (W.stream out.old) (W.stream out.new) page.old.items page.new.items (beginning self.entry.path.now self.entry.bytes.now (option_map data_file_seen self.entry.data_file)) }
    {
        let format = kind_word(FileKind::of(self.bytes));
        let size = self.bytes.len() as u64;
        match self.data_file {
            Some(file) => {
                let head = PairedHead {
                    path: self.path,
                    size,
                    format,
                    other: file.path,
                };
                print_paired_object(out, page, head)
            }
            None => print_file_object(out, page, self.path, size, format),
        }
    }
}

/// Prints what comes after the containers.
fn print_end<W: Sink>(
    out: &mut W,
    page: &mut Page,
    form: OutputFormat,
    found: Shown<'_>,
    tally: Tally,
) -> Result<(), StreamFault>
    ensures { Sends result (W.stream out.old) (W.stream out.new) page.old.items page.new.items (end_text form (shown_seen found.entry) tally) }
{
    match form {
        OutputFormat::Text => print_text_end(out, page, tally.turn.skipped, found.total(tally)),
        OutputFormat::Json => print_json_end(out, page, found, tally.turn.skipped),
    }
}

/// Prints the lines after the containers.
fn print_text_end<W: Sink>(
    out: &mut W,
    page: &mut Page,
    skipped: u64,
    counts: Counts,
) -> Result<(), StreamFault>
    ensures { Sends result (W.stream out.old) (W.stream out.new) page.old.items page.new.items (text_end skipped counts) }
{
    print_skipped(out, page, skipped)?;
    print_counts(out, page, counts)
}

/// Prints the end of the object.
pub(crate) fn print_json_end<W: Sink>(
    out: &mut W,
    page: &mut Page,
    found: Shown<'_>,
    skipped: u64,
) -> Result<(), StreamFault>
    ensures { Sends result (W.stream out.old) (W.stream out.new) page.old.items page.new.items (json_end (shown_seen found.entry) skipped) }
{
    send(out, page, b"],\"errors\":[")?;
    print_findings(out, page, OutputFormat::Json, found.errors)?;
    send(out, page, b"],\"notes\":[")?;
    print_findings(out, page, OutputFormat::Json, found.notes)?;
    print_skipped_note(out, page, none_of(found.notes), skipped)?;
    send(out, page, b"]}\n")
}

/// Prints the line of the note that some containers weren't inspected, if there are such.
#[tactic(auto, unfolding(crate::specs::Reports::skipped_text))]
fn print_skipped<W: Sink>(out: &mut W, page: &mut Page, skipped: u64) -> Result<(), StreamFault>
    ensures { Sends result (W.stream out.old) (W.stream out.new) page.old.items page.new.items (skipped_text skipped) }
{
    if skipped == 0 {
        return print_tokens(out, page, &[]);
    }
    print_tokens(
        out,
        page,
        &[
            Token::Text(b"note 115 ContainersUnverified containers "),
            Token::Number(skipped),
            Token::Text(b"\n"),
        ],
    )
}

/// Prints the note that some containers weren't inspected as an object of JSON, if there are such. A comma comes before it,
/// unless it is the first note.
#[tactic(auto, unfolding(crate::specs::Reports::skipped_note))]
fn print_skipped_note<W: Sink>(
    out: &mut W,
    page: &mut Page,
    is_first: bool,
    skipped: u64,
) -> Result<(), StreamFault>
    ensures { Sends result (W.stream out.old) (W.stream out.new) page.old.items page.new.items (skipped_note is_first skipped) }
{
    if skipped == 0 {
        return print_tokens(out, page, &[]);
    }
    print_skipped_element(out, page, is_first, skipped)
}

/// Prints the object of the note that some containers weren't inspected, after a comma unless it is the
/// first note.
fn print_skipped_element<W: Sink>(
    out: &mut W,
    page: &mut Page,
    is_first: bool,
    skipped: u64,
) -> Result<(), StreamFault>
    ensures { Sends result (W.stream out.old) (W.stream out.new) page.old.items page.new.items (separator is_first ++ skipped_object skipped) }
{
    print_separator(out, page, is_first)?;
    print_skipped_object(out, page, skipped)
}

/// Prints the object of the note that some containers weren't inspected.
#[tactic(auto, unfolding(crate::specs::Reports::skipped_object))]
fn print_skipped_object<W: Sink>(
    out: &mut W,
    page: &mut Page,
    skipped: u64,
) -> Result<(), StreamFault>
    ensures { Sends result (W.stream out.old) (W.stream out.new) page.old.items page.new.items (skipped_object skipped) }
{
    print_tokens(
        out,
        page,
        &[
            Token::Text(SKIPPED_START),
            Token::Number(skipped),
            Token::Text(b"}"),
        ],
    )
}

/// Returns the word for what a file is.
fn kind_word(kind: FileKind) -> &'static [u8]
    ensures { result.now ≡ kind_word kind }
{
    match kind {
        FileKind::Container => b"container",
        FileKind::MacBinary => b"macbinary",
        FileKind::AppleSingle => b"applesingle",
        FileKind::AppleDouble => b"appledouble",
        FileKind::DamagedApple => b"damaged",
        FileKind::ResourceFork => b"resources",
        FileKind::Other => b"other",
    }
}
