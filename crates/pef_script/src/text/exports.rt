ghost use Rattle.std.specs.Prelude.{◌≡◌, ◌<◌, [], vec_len, IfOk};
ghost use Rattle.std.specs.Result.{result_err};
ghost use Rattle.pef_words.specs.Refusals.{first_met, result_map};
ghost use Rattle.pef_script.specs.Text.Exports.{absolute_in, absolute_line, entry_in, export_in, export_line, init_line, main_line, place_tests, reexport_in, reexport_line, term_line, with_export};
ghost use Rattle.pef_script.specs.Text.Kept.Reader.{so_far};
ghost use Rattle.pef_script.specs.Text.Kept.Steps.{Steps};
ghost use Rattle.pef_script.specs.Parts.{export_of};

use crate::ExportData;
use crate::text::LineFault;
use crate::text::fault::Stop;
use crate::text::kinds::class_of;
use crate::text::limits::{
    EXPORT_GROUP, INIT_GROUP, MAIN_GROUP, MAX_EXPORTS, MAX_NUMBER, TERM_GROUP,
};
use crate::text::numbers::read_number;
use crate::text::reader::Reader;
use crate::text::tables::declare;
use crate::text::words::{last_name, last_name_and_word, last_word, next_name_and_word};
use pef_format::layout::{ABSOLUTE_EXPORT, REEXPORTED_IMPORT};

impl<'a> Reader<'a> {
    /// Reads a line `export NAME CLASS SECTION OFFSET`, from after its first word.
    pub fn read_export(&mut self, line: &'a [u8]) -> Result<(), Stop>
        ensures { Steps result (so_far self.new) (export_line (so_far self.old) line.entry.now) }
    {
        let (name, k, export) = self.export_in(line)?;
        self.add_placed_export(name, k, export)
    }

    /// Returns the name of the export that a line declares, the number of its section, and its other data.
    #[tactic(auto, unfolding(crate::specs::Text::Exports::export_in))]
    fn export_in(&self, line: &'a [u8]) -> Result<(&'a [u8], usize, ExportData), LineFault>
        ensures export { result_map (λ e. (e.1, export_of (e.0, e.2))) result ≡ export_in (so_far self.now) line.entry.now }
        ensures below { IfOk result (λ e. e.1 < vec_len self.now.sections) }
    {
        let (name, class, rest) = next_name_and_word(1, line)?;
        let (section, offset) = last_name_and_word(3, rest)?;
        self.enter(EXPORT_GROUP)?;
        let class = class_of(2, class)?;
        let value = read_number(MAX_NUMBER, 4, offset)?;
        let k = self.section_named(self.place, 3, section)?;
        let export = ExportData {
            class,
            section: k as i32,
            value,
        };
        Ok((name, k, export))
    }

    /// Reads a line `reexport NAME CLASS IMPORT`, from after its first word.
    pub fn read_reexport(&mut self, line: &'a [u8]) -> Result<(), Stop>
        ensures { Steps result (so_far self.new) (reexport_line (so_far self.old) line.entry.now) }
    {
        let (name, export) = self.reexport_in(line)?;
        self.add_export(name, export)
    }

    /// Returns the export of an import that a line declares, if it is allowed.
    #[tactic(auto, unfolding(crate::specs::Text::Exports::reexport_in))]
    fn reexport_in(&self, line: &'a [u8]) -> Result<(&'a [u8], ExportData), LineFault>
        ensures { result_map export_of result ≡ reexport_in (so_far self.now) line.entry.now }
    {
        let (name, class, rest) = next_name_and_word(1, line)?;
        let import = last_name(3, rest)?;
        self.enter(EXPORT_GROUP)?;
        let class = class_of(2, class)?;
        let j = self.import_named(3, import)?;
        let export = ExportData {
            class,
            section: REEXPORTED_IMPORT,
            value: j as u32,
        };
        Ok((name, export))
    }

    /// Reads a line `absolute NAME CLASS VALUE`, from after its first word.
    pub fn read_absolute(&mut self, line: &'a [u8]) -> Result<(), Stop>
        ensures { Steps result (so_far self.new) (absolute_line (so_far self.old) line.entry.now) }
    {
        let (name, export) = self.absolute_in(line)?;
        self.add_export(name, export)
    }

    /// Returns the export of a number that a line declares, if it is allowed.
    #[tactic(auto, unfolding(crate::specs::Text::Exports::absolute_in))]
    fn absolute_in(&self, line: &'a [u8]) -> Result<(&'a [u8], ExportData), LineFault>
        ensures { result_map export_of result ≡ absolute_in (so_far self.now) line.entry.now }
    {
        let (name, class, rest) = next_name_and_word(1, line)?;
        let value = last_word(3, rest)?;
        self.enter(EXPORT_GROUP)?;
        let class = class_of(2, class)?;
        let value = read_number(MAX_NUMBER, 3, value)?;
        let export = ExportData {
            class,
            section: ABSOLUTE_EXPORT,
            value,
        };
        Ok((name, export))
    }

    /// Reads a line `main SECTION OFFSET`, from after its first word.
    pub fn read_main(&mut self, line: &[u8]) -> Result<(), Stop>
        ensures { Steps result (so_far self.new) (main_line (so_far self.old) line.now) }
    {
        let entry = self.read_entry(MAIN_GROUP, line)?;
        self.parts.main = Some(entry);
        self.reached = MAIN_GROUP;
        Ok(())
    }

    /// Reads a line `init SECTION OFFSET`, from after its first word.
    pub fn read_init(&mut self, line: &[u8]) -> Result<(), Stop>
        ensures { Steps result (so_far self.new) (init_line (so_far self.old) line.now) }
    {
        let entry = self.read_entry(INIT_GROUP, line)?;
        self.parts.init = Some(entry);
        self.reached = INIT_GROUP;
        Ok(())
    }

    /// Reads a line `term SECTION OFFSET`, from after its first word.
    pub fn read_term(&mut self, line: &[u8]) -> Result<(), Stop>
        ensures { Steps result (so_far self.new) (term_line (so_far self.old) line.now) }
    {
        let entry = self.read_entry(TERM_GROUP, line)?;
        self.parts.term = Some(entry);
        self.reached = TERM_GROUP;
        Ok(())
    }

    /// Returns the number of a section and an offset in it, from a line of a group that is allowed once.
    #[tactic(auto, unfolding(crate::specs::Text::Exports::entry_in))]
    fn read_entry(&self, group: u8, line: &[u8]) -> Result<(u32, u32), LineFault>
        ensures { result ≡ entry_in (so_far self.now) group line.now }
    {
        let (section, offset) = last_name_and_word(1, line)?;
        self.enter_once(group)?;
        let offset = read_number(MAX_NUMBER, 2, offset)?;
        let k = self.section_named(self.place, 1, section)?;
        self.test_place(k, 2, offset)?;
        Ok((k as u32, offset))
    }

    /// Adds an export of section `k`, unless its name is taken or exceeds the limits, or it passes the
    /// section's end.
    #[tactic(auto, using(crate::proofs::TextProofs::TableLemmas::exports_seen))]
    fn add_placed_export(
        &mut self,
        name: &'a [u8],
        k: usize,
        export: ExportData,
    ) -> Result<(), Stop>
        requires { k < vec_len self.old.sections }
        ensures { Steps result (so_far self.new) (with_export (so_far self.old) (place_tests (so_far self.old) k 4 export.value) (export_of (name.entry, export))) }
    {
        if let Err(fault) = self.test_place(k, 4, export.value) {
            // The faults of the name are reported first.
            self.test_name(&self.parts.exports, MAX_EXPORTS, name)?;
            return Err(Stop::Refused(fault));
        }
        self.add_export(name, export)
    }

    /// Adds an export, unless its name is taken or exceeds the limits.
    #[tactic(auto, using(crate::proofs::TextProofs::TableLemmas::exports_seen))]
    fn add_export(&mut self, name: &'a [u8], export: ExportData) -> Result<(), Stop>
        ensures { Steps result (so_far self.new) (with_export (so_far self.old) [] (export_of (name.entry, export))) }
    {
        self.test_room(&self.parts.exports, MAX_EXPORTS, name)?;
        let parts = &mut self.parts;
        if !declare(&mut parts.exports, name, export)? {
            return Err(Stop::Refused(LineFault::RepeatedName { word: 1 }));
        }
        self.names += name.len() + 1;
        self.reached = EXPORT_GROUP;
        Ok(())
    }

    /// Refuses an offset, a line's word `at`, past the end of section `k`.
    fn test_place(&self, k: usize, at: u8, offset: u32) -> Result<(), LineFault>
        requires { k < vec_len self.now.sections }
        ensures { result_err result ≡ first_met (place_tests (so_far self.now) k at offset) }
    {
        let section = &self.sections[k];
        if offset > section.header.total {
            return Err(LineFault::OutsideSection { word: at });
        }
        Ok(())
    }
}
