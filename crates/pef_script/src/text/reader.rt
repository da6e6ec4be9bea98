ghost use Rattle.std.specs.Prelude.{◌≡◌, ◌+◌, ◌≤◌, ◌<◌, None, Some, nat_le, vec_len, length, map, IfOk, IfErr, OnOk};
ghost use Rattle.std.proofs.Props.{props};
ghost use Rattle.std.specs.List.{IsDistinct};
ghost use Rattle.std.specs.Result.{result_err};
ghost use Rattle.std.specs.Str.{bytes_eq};
ghost use Rattle.indexmap.specs.IndexMap.{index_map_len};
ghost use Rattle.pef_words.specs.Refusals.{first_met};
ghost use Rattle.std.specs.Bool.{if◌then◌else◌};
ghost use Rattle.std.specs.Option.{is_some};
ghost use Rattle.pef_script.specs.declared.text.fault.LineFault.TheVariants.{BadLine, RepeatedName};
ghost use Rattle.pef_script.specs.Text.Forms.{form_of};
ghost use Rattle.pef_script.specs.Text.Grammar.{is_skipped, line_by_word, line_of, no_lines};
ghost use Rattle.pef_script.specs.Parts.{script_in};
ghost use Rattle.pef_script.specs.Script.{name_bytes};
ghost use Rattle.pef_script.specs.Text.Kept.Steps.{NumberedSteps, Steps};
ghost use Rattle.pef_reloc.specs.Limits.{most_sections};
ghost use Rattle.pef_script.specs.Limits.{most_name_bytes};
ghost use Rattle.pef_script.specs.Text.SoFar.{counted_name_tests, entered, entered_once, is_repeated, number_of_name, section_named};

use crate::text::LineFault;
use crate::text::fault::{Stop, Stopped};
use crate::text::form::Form;
use crate::text::limits::MAX_NAME_BYTES;
use crate::text::sections::{SectionSoFar, is_named, section_number, to_sections};
use crate::text::tables::number_of_name;
use crate::text::words::rest_after;
use crate::{Parts, Versions};
use indexmap::IndexMap;
use pef_names::NameKey;
use std::alloc::{AllocError, Global};

/// A script that is read line by line.
#[derive(Drop)]
pub struct Reader<'a> {
    pub alloc: Global,
    /// The parts read so far, without the sections.
    pub parts: Parts<'a>,
    pub sections: Vec<SectionSoFar<'a>>,
    /// The group of the last line, 0 before the first.
    pub reached: u8,
    /// How many bytes the names of libraries, imports and exports have, counting one more for each.
    pub names: usize,
    /// The section that the last line `fix` changed. The next one nearly always changes it too.
    pub place: usize,
    /// The last section that a line `fix` had as its base.
    pub target: usize,
    ghost few: { vec_len sections ≤ most_sections },
    ghost counted: { names ≡ name_bytes (script_in parts) },
    ghost distinct: { IsDistinct bytes_eq (map (λ section. section.header.name) sections.items) } by { Prim.hlevel props },
}

/// Returns whether a line is ignored: it is empty or starts with `#`.
fn is_skipped(line: &[u8]) -> bool
    ensures { result ≡ is_skipped line.now }
{
    matches!(line, [] | [b'#', ..])
}

/// Returns the fault of a line whose first word has no space after it.
fn without_words(line: &[u8]) -> LineFault
    ensures { result ≡ BadLine (if is_some (form_of line.now) then 1 else 0) }
{
    if Form::of(line).is_some() {
        LineFault::BadLine { word: 1 }
    } else {
        LineFault::BadLine { word: 0 }
    }
}

impl<'a> Reader<'a> {
    ghost use Rattle.pef_script.specs.Text.Kept.Reader.{names_in, so_far};

    /// Returns a reader before the first line.
    pub fn new(alloc: Global) -> Reader<'a>
        ensures { so_far result ≡ no_lines }
    {
        Reader {
            alloc,
            parts: Parts {
                versions: Versions {
                    current: 0,
                    old_def: 0,
                    old_imp: 0,
                },
                libraries: IndexMap::new(alloc),
                imports: IndexMap::new(alloc),
                sections: Vec::new(alloc),
                exports: IndexMap::new(alloc),
                main: None,
                init: None,
                term: None,
            },
            sections: Vec::new(alloc),
            reached: 0,
            names: 0,
            place: 0,
            target: 0,
        }
    }

    /// Returns the parts that were read.
    pub fn into_parts(self) -> Result<Parts<'a>, AllocError>
        ensures { IfOk result (λ parts. script_in parts ≡ (so_far self.entry).script) }
    {
        let mut parts = self.parts;
        parts.sections = to_sections(self.alloc, self.sections)?;
        Ok(parts)
    }

    /// Reads the line with this number.
    pub fn read_numbered(&mut self, line: &'a [u8], number: usize) -> Result<(), Stopped>
        ensures { NumberedSteps result (so_far self.new) number (line_of (so_far self.old) line.entry.now) }
    {
        match self.read_line(line) {
            Ok(()) => Ok(()),
            Err(stop) => Err(stop.at(number)),
        }
    }

    /// Reads a line.
    #[tactic(auto, using(crate::proofs::TextProofs::KindLemmas::fix_begins), unfolding(crate::specs::Text::Grammar::line_of))]
    fn read_line(&mut self, line: &'a [u8]) -> Result<(), Stop>
        ensures { Steps result (so_far self.new) (line_of (so_far self.old) line.entry.now) }
    {
        if is_skipped(line) {
            return Ok(());
        }
        // Most lines of a large script begin so.
        if let Some(rest) = rest_after("fix ", line) {
            return self.read_fix(rest);
        }
        match pef_lines::next_word(line) {
            Some((word, rest)) => self.read_by_word(word, rest),
            None => Err(Stop::Refused(without_words(line))),
        }
    }

    /// Reads a line by its first word and the rest after it.
    #[tactic(auto, unfolding(crate::specs::Text::Grammar::line_by_word))]
    fn read_by_word(&mut self, word: &[u8], rest: &'a [u8]) -> Result<(), Stop>
        ensures { Steps result (so_far self.new) (line_by_word (so_far self.old) (word.now, rest.entry.now)) }
    {
        match Form::of(word) {
            Some(Form::Versions) => self.read_versions(rest),
            Some(Form::Library) => self.read_library(rest),
            Some(Form::Import) => self.read_import(rest),
            Some(Form::Section) => self.read_section(rest),
            Some(Form::Bytes) => self.read_bytes(rest),
            Some(Form::Fix) => self.read_fix(rest),
            Some(Form::Tvector) => self.read_tvector(rest),
            Some(Form::Export) => self.read_export(rest),
            Some(Form::Reexport) => self.read_reexport(rest),
            Some(Form::Absolute) => self.read_absolute(rest),
            Some(Form::Main) => self.read_main(rest),
            Some(Form::Init) => self.read_init(rest),
            Some(Form::Term) => self.read_term(rest),
            None => Err(Stop::Refused(LineFault::BadLine { word: 0 })),
        }
    }

    /// Refuses a line of a group after one of a later group.
    pub fn enter(&self, group: u8) -> Result<(), LineFault>
        ensures { result ≡ entered (so_far self.now) group }
    {
        if group < self.reached {
            return Err(LineFault::OutOfOrder { word: 0 });
        }
        Ok(())
    }

    /// Refuses a line that is allowed once after one of its own group or of a later one.
    pub fn enter_once(&self, group: u8) -> Result<(), LineFault>
        ensures { result ≡ entered_once (so_far self.now) group }
    {
        if group <= self.reached {
            return Err(LineFault::OutOfOrder { word: 0 });
        }
        Ok(())
    }

    /// Returns the number of the section with a name, which is a line's word `at`. A section that likely has it is tested
    /// first.
    #[inline(always)]
    pub fn section_named(&self, likely: usize, at: u8, name: &[u8]) -> Result<usize, LineFault>
        ensures found { result ≡ section_named (so_far self.now) at name.now }
        ensures below { IfOk result (λ k. k < vec_len self.now.sections) }
    {
        if is_named(&self.sections, likely, name) {
            return Ok(likely);
        }
        section_number(&self.sections, name).ok_or(LineFault::UnknownName { word: at })
    }

    /// Returns whether there is room for the bytes of one more name.
    fn has_room(&self, name: &[u8]) -> bool
        ensures { result ≡ nat_le (self.now.names + (length name.now + 1)) most_name_bytes }
    {
        self.names <= MAX_NAME_BYTES && name.len() + 1 <= MAX_NAME_BYTES - self.names
    }

    /// Refuses a name that exceeds the limits. That another entry has it is an earlier fault, so the table is searched for
    /// it then. If there is room, the search is left to `declare`, so that a new name is hashed once.
    pub fn test_room<T>(
        &self,
        table: &IndexMap<NameKey<'_>, T>,
        limit: usize,
        name: &[u8],
    ) -> Result<(), LineFault>
        ensures ok { OnOk result (first_met (counted_name_tests (so_far self.now) (names_in table.now.entries) limit name.now) ≡ (if is_repeated (names_in table.now.entries) name.now then Some (RepeatedName 1) else None)) }
        ensures fault { IfErr result (λ fault. first_met (counted_name_tests (so_far self.now) (names_in table.now.entries) limit name.now) ≡ Some fault) }
        ensures room { OnOk result (index_map_len table.now < limit) }
        ensures bytes { OnOk result (self.now.names + (length name.now + 1) ≤ most_name_bytes) }
    {
        if table.len() < limit && self.has_room(name) {
            return Ok(());
        }
        self.test_name(table, limit, name)
    }

    /// Refuses a name that another entry of a table has, or that exceeds the limits.
    pub fn test_name<T>(
        &self,
        table: &IndexMap<NameKey<'_>, T>,
        limit: usize,
        name: &[u8],
    ) -> Result<(), LineFault>
        ensures tests { result_err result ≡ first_met (counted_name_tests (so_far self.now) (names_in table.now.entries) limit name.now) }
        ensures new { OnOk result (number_of_name (names_in table.now.entries) name.now ≡ None) }
        ensures room { OnOk result (index_map_len table.now < limit) }
        ensures bytes { OnOk result (self.now.names + (length name.now + 1) ≤ most_name_bytes) }
    {
        if number_of_name(table, name).is_some() {
            return Err(LineFault::RepeatedName { word: 1 });
        }
        if table.len() >= limit {
            return Err(LineFault::TooMany { word: 1 });
        }
        if !self.has_room(name) {
            return Err(LineFault::TooMany { word: 1 });
        }
        Ok(())
    }
}
