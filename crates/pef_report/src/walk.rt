//! The text of an inspection: rows and instructions, with the errors and notes about each below it.
ghost use Rattle.std.specs.Prelude.{◌≡◌, ◌++◌, [], ◌∷◌, OnOk, map, true};
ghost use Rattle.std.specs.Option.{unwrap_or};
ghost use Rattle.pef_ports.specs.Sent.{Sends};
ghost use Rattle.pef_reloc.specs.Instrs.{instr_fits};
ghost use Rattle.pef_report.specs.Inspection.{findings_text, instr_row, merged_text, program_rows, row_at, rows_among, rows_below, rows_of};
ghost use Rattle.pef_report.specs.Order.{before, rank};
ghost use Rattle.pef_rows.specs.Programs.{instr_line, steps_in};
ghost use Rattle.pef_report.specs.Readable.{export_row_line, import_row_line, library_row_line, line_at, program_of, row_count};
ghost use Rattle.pef_rows.specs.RowViews.{line_of, program_seen};
ghost use Rattle.pef_report.specs.Views.{readable};

use crate::found::print_findings;
use crate::order::{rank, split_before};
use crate::reading::Reading;
use pef_format::Part;
use pef_inspect::Finding;
use pef_ports::{Page, Sink, StreamFault};
use pef_reloc::Instrs;
use pef_rows::{
    InstrRow, ProgramRow, file_offset, print_export, print_import, print_instr_line, print_library,
    print_row,
};

/// Rows that are printed in order with their instructions, and the errors and notes that are left to be printed among them.
#[derive(Drop)]
pub(crate) struct Walk<'f, 'a> {
    pub base: u64,
    pub reading: Reading<'a>,
    pub left: &'f [Finding],
}

impl<'f, 'a> Walk<'f, 'a> {
    ghost use Rattle.pef_report.specs.Walks.{Passes, PassesBefore};

    /// Prints all rows of some kinds, and the errors and notes about rows before each.
    pub(crate) fn print_parts<W: Sink>(
        &mut self,
        out: &mut W,
        page: &mut Page,
        parts: &[Part],
    ) -> Result<(), StreamFault>
        ensures sends { Sends result (W.stream out.old) (W.stream out.new) page.old.items page.new.items (merged_text self.old.base (rows_of (readable self.old.reading) parts.now) self.old.left.now) }
        ensures passes { OnOk result (Passes self.old self.new (rows_of (readable self.old.reading) parts.now)) }
    {
        for part in parts {
            self.print_part(out, page, *part)?;
        }
        Ok(())
    }

    /// Prints all rows of a kind.
    fn print_part<W: Sink>(
        &mut self,
        out: &mut W,
        page: &mut Page,
        part: Part,
    ) -> Result<(), StreamFault>
        ensures sends { Sends result (W.stream out.old) (W.stream out.new) page.old.items page.new.items (merged_text self.old.base (rows_among (readable self.old.reading) part 0 (row_count (readable self.old.reading) part)) self.old.left.now) }
        ensures passes { OnOk result (Passes self.old self.new (rows_among (readable self.old.reading) part 0 (row_count (readable self.old.reading) part))) }
    {
        for i in 0..self.reading.count(part) {
            self.print_next(out, page, part, i)?;
        }
        Ok(())
    }

    /// Prints row `i` of a kind and what belongs to it.
    fn print_next<W: Sink>(
        &mut self,
        out: &mut W,
        page: &mut Page,
        part: Part,
        i: u32,
    ) -> Result<(), StreamFault>
        ensures sends { Sends result (W.stream out.old) (W.stream out.new) page.old.items page.new.items (merged_text self.old.base (row_at (readable self.old.reading) part i ∷ rows_below (readable self.old.reading) part i) self.old.left.now) }
        ensures passes { OnOk result (Passes self.old self.new (row_at (readable self.old.reading) part i ∷ rows_below (readable self.old.reading) part i)) }
    {
        self.print_alone(out, page, part, i)?;
        self.print_below(out, page, part, i)?;
        Ok(())
    }

    /// Prints row `i` of a kind, after the errors and notes that are left about what comes before it.
    fn print_alone<W: Sink>(
        &mut self,
        out: &mut W,
        page: &mut Page,
        part: Part,
        i: u32,
    ) -> Result<(), StreamFault>
        ensures sends { Sends result (W.stream out.old) (W.stream out.new) page.old.items page.new.items (findings_text self.old.base (before (rank part i 0) self.old.left.now) ++ (row_at (readable self.old.reading) part i).text) }
        ensures passes { OnOk result (Passes self.old self.new (row_at (readable self.old.reading) part i ∷ [])) }
    {
        self.print_before(out, page, rank(part, i as usize, 0))?;
        print_row_at(out, page, &mut self.reading, part, i)?;
        Ok(())
    }

    /// Prints the errors and notes that are left about what comes before a rank.
    fn print_before<W: Sink>(
        &mut self,
        out: &mut W,
        page: &mut Page,
        rank: u128,
    ) -> Result<(), StreamFault>
        ensures sends { Sends result (W.stream out.old) (W.stream out.new) page.old.items page.new.items (findings_text self.old.base (before rank self.old.left.now)) }
        ensures passes { OnOk result (PassesBefore self.old self.new rank) }
    {
        if self.left.is_empty() {
            return Ok(());
        }
        let (before, after) = split_before(self.left, rank);
        print_findings(out, page, self.base, before)?;
        self.left = after;
        Ok(())
    }

    /// Prints what belongs to row `i` of a kind: the instructions of a relocation header.
    fn print_below<W: Sink>(
        &mut self,
        out: &mut W,
        page: &mut Page,
        part: Part,
        i: u32,
    ) -> Result<(), StreamFault>
        ensures sends { Sends result (W.stream out.old) (W.stream out.new) page.old.items page.new.items (merged_text self.old.base (rows_below (readable self.old.reading) part i) self.old.left.now) }
        ensures passes { OnOk result (Passes self.old self.new (rows_below (readable self.old.reading) part i)) }
    {
        match part {
            Part::Relocation => self.print_program(out, page, i),
            Part::Header
            | Part::Section
            | Part::LoaderHeader
            | Part::Library
            | Part::Import
            | Part::Main
            | Part::Init
            | Part::Term
            | Part::Export
            | Part::PackedData
            | Part::Program
            | Part::Line => Ok(()),
        }
    }

    /// Prints the instructions of relocation header `k`.
    fn print_program<W: Sink>(
        &mut self,
        out: &mut W,
        page: &mut Page,
        k: u32,
    ) -> Result<(), StreamFault>
        ensures sends { Sends result (W.stream out.old) (W.stream out.new) page.old.items page.new.items (merged_text self.old.base (program_rows k (program_of (readable self.old.reading) k)) self.old.left.now) }
        ensures passes { OnOk result (Passes self.old self.new (program_rows k (program_of (readable self.old.reading) k))) }
    {
        match self.reading.program(k) {
            Some(program) => self.print_instrs(out, page, k, program),
            None => Ok(()),
        }
    }

    /// Prints the instructions of a program, which is that of relocation header `k`.
    fn print_instrs<W: Sink>(
        &mut self,
        out: &mut W,
        page: &mut Page,
        k: u32,
        program: ProgramRow<'_>,
    ) -> Result<(), StreamFault>
        ensures sends { Sends result (W.stream out.old) (W.stream out.new) page.old.items page.new.items (merged_text self.old.base (map (instr_row k program.entry.at) (steps_in (program_seen program.entry))) self.old.left.now) }
        ensures passes { OnOk result (Passes self.old self.new (map (instr_row k program.entry.at) (steps_in (program_seen program.entry)))) }
    {
        let mut instrs = Instrs::new(program.bytes);
        while let Some(step) = instrs.next_placed() {
            let row = InstrRow {
                at: file_offset(program.at, Some(step.0)),
                instr: step.1,
            };
            self.print_instr(out, page, rank(Part::Program, k as usize, step.0), row)?;
        }
        Ok(())
    }

    /// Prints the instruction with a rank, after the errors and notes that are left about what comes before it.
    fn print_instr<W: Sink>(
        &mut self,
        out: &mut W,
        page: &mut Page,
        rank: u128,
        row: InstrRow,
    ) -> Result<(), StreamFault>
        requires { instr_fits row.instr ≡ true }
        ensures sends { Sends result (W.stream out.old) (W.stream out.new) page.old.items page.new.items (findings_text self.old.base (before rank self.old.left.now) ++ instr_line row.at row.instr) }
        ensures passes { OnOk result (PassesBefore self.old self.new rank) }
    {
        self.print_before(out, page, rank)?;
        print_instr_line(out, page, row)?;
        Ok(())
    }
}

/// Prints the line of row `i` of a kind, or nothing if it can't be read.
#[tactic(auto, unfolding(crate::specs::Readable::line_at))]
fn print_row_at<W: Sink>(
    out: &mut W,
    page: &mut Page,
    reading: &mut Reading<'_>,
    part: Part,
    i: u32,
) -> Result<(), StreamFault>
    ensures sends { Sends result (W.stream out.old) (W.stream out.new) page.old.items page.new.items (unwrap_or (line_at (readable reading.old) part i) []) }
    ensures same { readable reading.new ≡ readable reading.old }
{
    match part {
        Part::Library => print_library_at(out, page, reading, i),
        Part::Import => print_import_at(out, page, reading, i),
        Part::Export => print_export_at(out, page, reading, i),
        Part::Header
        | Part::Section
        | Part::LoaderHeader
        | Part::Main
        | Part::Init
        | Part::Term
        | Part::Relocation
        | Part::PackedData
        | Part::Program
        | Part::Line => match reading.row(part, i) {
            Some(row) => print_row(out, page, row),
            None => Ok(()),
        },
    }
}

/// Prints the line of library `i`, or nothing if it can't be read. A container can have thousands of libraries, imports and exports,
/// so that each is read as what it is, and not as one of all kinds of rows.
fn print_library_at<W: Sink>(
    out: &mut W,
    page: &mut Page,
    reading: &Reading<'_>,
    i: u32,
) -> Result<(), StreamFault>
    ensures { Sends result (W.stream out.old) (W.stream out.new) page.old.items page.new.items (unwrap_or (library_row_line (readable reading.now) i) []) }
{
    match reading.library_row(i) {
        Some(row) => print_library(out, page, row),
        None => Ok(()),
    }
}

/// Prints the line of import `j`, or nothing if it can't be read.
fn print_import_at<W: Sink>(
    out: &mut W,
    page: &mut Page,
    reading: &mut Reading<'_>,
    j: u32,
) -> Result<(), StreamFault>
    ensures sends { Sends result (W.stream out.old) (W.stream out.new) page.old.items page.new.items (unwrap_or (import_row_line (readable reading.old) j) []) }
    ensures same { readable reading.new ≡ readable reading.old }
{
    match reading.import_row(j) {
        Some(row) => print_import(out, page, row),
        None => Ok(()),
    }
}

/// Prints the line of export `i`, or nothing if it can't be read.
fn print_export_at<W: Sink>(
    out: &mut W,
    page: &mut Page,
    reading: &Reading<'_>,
    i: u32,
) -> Result<(), StreamFault>
    ensures { Sends result (W.stream out.old) (W.stream out.new) page.old.items page.new.items (unwrap_or (export_row_line (readable reading.now) i) []) }
{
    match reading.export_row(i) {
        Some(row) => print_export(out, page, row),
        None => Ok(()),
    }
}
