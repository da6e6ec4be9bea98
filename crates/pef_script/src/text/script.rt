ghost use Rattle.pef_lines.specs.Lines.{lines_of};
ghost use Rattle.pef_script.specs.Parts.{script_in};
ghost use Rattle.pef_script.specs.Text.Grammar.{read_lines, script_of};
ghost use Rattle.pef_script.specs.Text.Kept.Reader.{so_far};
ghost use Rattle.pef_script.specs.Text.Kept.Steps.{ReadsLines};
ghost use Rattle.pef_script.specs.Text.Reads.{ReadsAs};
ghost use Rattle.pef_words.specs.Refusals.{result_map};

use crate::text::ScriptFault;
use crate::text::fault::Stopped;
use crate::text::reader::Reader;
use crate::{Parts, Script};
use pef_lines::{LINE_FEED, cut_at};
use std::alloc::Global;

impl<'a> Script<'a> {
    /// Reads a script. Its names are borrowed from the text.
    ///
    /// # Errors
    /// The first fault of the first line that has one, with its place, or that an allocation failed.
    pub fn read(alloc: Global, text: &'a [u8]) -> Result<Script<'a>, ScriptFault>
        ensures { ReadsAs result (script_of text.entry.now) }
    {
        let parts = read_parts(alloc, text)?;
        Ok(Script::new(parts))
    }
}

/// Reads the lines of a script.
fn read_parts<'a>(alloc: Global, text: &'a [u8]) -> Result<Parts<'a>, ScriptFault>
    ensures { ReadsAs (result_map script_in result) (script_of text.entry.now) }
{
    let mut reader = Reader::new(alloc);
    match read_lines(&mut reader, text) {
        Ok(()) => Ok(reader.into_parts()?),
        Err(stopped) => Err(stopped.in_text(text)),
    }
}

/// Reads the lines of a script, numbered from 1.
fn read_lines<'a>(reader: &mut Reader<'a>, text: &'a [u8]) -> Result<(), Stopped>
    ensures { ReadsLines result (so_far reader.new) (read_lines (so_far reader.old) 1 (lines_of text.entry.now)) }
{
    let mut rest = text;
    let mut number: usize = 1;
    'lines: while let Some((line, behind)) = cut_at(LINE_FEED, rest) {
        reader.read_numbered(line, number)?;
        rest = behind;
        number += 1;
    }
    reader.read_numbered(rest, number)
}
