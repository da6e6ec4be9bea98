ghost use Rattle.std.specs.Prelude.{◌≡◌};
ghost use Rattle.pef_script.specs.Text.Declarations.{entered_import, import_in, import_line, library_in, library_line, section_in, section_line, versions_in, versions_line, with_import, with_library, with_section};
ghost use Rattle.pef_words.specs.Refusals.{result_map};
ghost use Rattle.pef_script.specs.Text.Kept.Reader.{so_far};
ghost use Rattle.pef_script.specs.Text.Kept.Steps.{Steps};
ghost use Rattle.pef_script.specs.Parts.{import_of, library_of};
ghost use Rattle.pef_script.specs.Views.{header_in};

use crate::text::LineFault;
use crate::text::fault::Stop;
use crate::text::kinds::{class_of, is_weak_word, kind_of, options_of, share_of};
use crate::text::limits::{
    LIBRARY_GROUP, MAX_ALIGN, MAX_IMPORTS, MAX_LIBRARIES, MAX_NUMBER, MAX_SECTIONS, MAX_TOTAL,
    SECTION_GROUP, VERSIONS_GROUP,
};
use crate::text::numbers::read_number;
use crate::text::reader::Reader;
use crate::text::sections::{SectionSoFar, section_number};
use crate::text::tables::declare;
use crate::text::words::{last_two_words, last_word, next_name_and_word, next_word};
use crate::{ImportData, LibraryData, SectionHeader, Versions};

impl<'a> Reader<'a> {
    /// Reads a line `versions CURRENT OLDDEF OLDIMP`, from after its first word.
    pub fn read_versions(&mut self, line: &[u8]) -> Result<(), Stop>
        ensures { Steps result (so_far self.new) (versions_line (so_far self.old) line.now) }
    {
        let versions = self.versions_in(line)?;
        self.parts.versions = versions;
        self.reached = VERSIONS_GROUP;
        Ok(())
    }

    /// Reads a line `library NAME CURRENT OLDIMP OPTION`, from after its first word.
    pub fn read_library(&mut self, line: &'a [u8]) -> Result<(), Stop>
        ensures { Steps result (so_far self.new) (library_line (so_far self.old) line.entry.now) }
    {
        let (name, library) = self.library_in(line)?;
        self.add_library(name, library)
    }

    /// Reads a line `import NAME CLASS STRENGTH`, from after its first word.
    pub fn read_import(&mut self, line: &'a [u8]) -> Result<(), Stop>
        ensures { Steps result (so_far self.new) (import_line (so_far self.old) line.entry.now) }
    {
        let (name, import) = self.import_in(line)?;
        self.add_import(name, import)
    }

    /// Reads a line `section NAME KIND SHARE ALIGN TOTAL`, from after its first word.
    pub fn read_section(&mut self, line: &'a [u8]) -> Result<(), Stop>
        ensures { Steps result (so_far self.new) (section_line (so_far self.old) line.entry.now) }
    {
        let header = self.section_in(line)?;
        self.add_section(header)
    }

    /// Returns the versions that a line gives, if it is allowed.
    #[tactic(auto, unfolding(crate::specs::Text::Declarations::versions_in))]
    fn versions_in(&self, line: &[u8]) -> Result<Versions, LineFault>
        ensures { result ≡ versions_in (so_far self.now) line.now }
    {
        let (current, rest) = next_word(1, line)?;
        let (old_def, old_imp) = last_two_words(2, rest)?;
        self.enter_once(VERSIONS_GROUP)?;
        let current = read_number(MAX_NUMBER, 1, current)?;
        let old_def = read_number(MAX_NUMBER, 2, old_def)?;
        let old_imp = read_number(MAX_NUMBER, 3, old_imp)?;
        Ok(Versions {
            current,
            old_def,
            old_imp,
        })
    }

    /// Returns the library that a line declares, if it is allowed.
    #[tactic(auto, unfolding(crate::specs::Text::Declarations::library_in))]
    fn library_in(&self, line: &'a [u8]) -> Result<(&'a [u8], LibraryData), LineFault>
        ensures { result_map library_of result ≡ library_in (so_far self.now) line.entry.now }
    {
        let (name, current, rest) = next_name_and_word(1, line)?;
        let (old_imp, option) = last_two_words(3, rest)?;
        self.enter(LIBRARY_GROUP)?;
        let options = options_of(4, option)?;
        let current = read_number(MAX_NUMBER, 2, current)?;
        let old_imp = read_number(MAX_NUMBER, 3, old_imp)?;
        let library = LibraryData {
            current,
            old_imp,
            options,
        };
        Ok((name, library))
    }

    /// Returns the import that a line declares, if it is allowed.
    #[tactic(auto, unfolding(crate::specs::Text::Declarations::import_in))]
    fn import_in(&self, line: &'a [u8]) -> Result<(&'a [u8], ImportData), LineFault>
        ensures { result_map import_of result ≡ import_in (so_far self.now) line.entry.now }
    {
        let (name, class, rest) = next_name_and_word(1, line)?;
        let strength = last_word(3, rest)?;
        let library = self.enter_import()?;
        let class = class_of(2, class)?;
        let weak = is_weak_word(3, strength)?;
        let import = ImportData {
            class,
            weak,
            library,
        };
        Ok((name, import))
    }

    /// Returns the header of the section that a line declares, if it is allowed.
    #[tactic(auto, unfolding(crate::specs::Text::Declarations::section_in))]
    fn section_in(&self, line: &'a [u8]) -> Result<SectionHeader<'a>, LineFault>
        ensures { result_map header_in result ≡ section_in (so_far self.now) line.entry.now }
    {
        let (name, kind, rest) = next_name_and_word(1, line)?;
        let (share, rest) = next_word(3, rest)?;
        let (align, total) = last_two_words(4, rest)?;
        self.enter(SECTION_GROUP)?;
        let kind = kind_of(2, kind)?;
        let share = share_of(3, share)?;
        let align = read_number(MAX_ALIGN, 4, align)? as u8;
        let total = read_number(MAX_TOTAL, 5, total)?;
        Ok(SectionHeader {
            name,
            kind,
            share,
            align,
            total,
        })
    }

    /// Adds a library, unless its name is taken or exceeds the limits.
    #[tactic(auto, using(crate::proofs::TextProofs::TableLemmas::libraries_seen))]
    fn add_library(&mut self, name: &'a [u8], library: LibraryData) -> Result<(), Stop>
        ensures { Steps result (so_far self.new) (with_library (so_far self.old) (library_of (name.entry, library))) }
    {
        self.test_room(&self.parts.libraries, MAX_LIBRARIES, name)?;
        let parts = &mut self.parts;
        if !declare(&mut parts.libraries, name, library)? {
            return Err(Stop::Refused(LineFault::RepeatedName { word: 1 }));
        }
        self.names += name.len() + 1;
        self.reached = LIBRARY_GROUP;
        Ok(())
    }

    /// Adds an import, unless its name is taken or exceeds the limits.
    #[tactic(auto, using(crate::proofs::TextProofs::TableLemmas::imports_seen))]
    fn add_import(&mut self, name: &'a [u8], import: ImportData) -> Result<(), Stop>
        ensures { Steps result (so_far self.new) (with_import (so_far self.old) (import_of (name.entry, import))) }
    {
        self.test_room(&self.parts.imports, MAX_IMPORTS, name)?;
        let parts = &mut self.parts;
        if !declare(&mut parts.imports, name, import)? {
            return Err(Stop::Refused(LineFault::RepeatedName { word: 1 }));
        }
        self.names += name.len() + 1;
        self.reached = LIBRARY_GROUP;
        Ok(())
    }

    /// Adds a section without bytes or fixups, unless its name is taken or exceeds the limit.
    fn add_section(&mut self, header: SectionHeader<'a>) -> Result<(), Stop>
        ensures { Steps result (so_far self.new) (with_section (so_far self.old) (header_in header.entry)) }
    {
        if section_number(&self.sections, header.name).is_some() {
            return Err(Stop::Refused(LineFault::RepeatedName { word: 1 }));
        }
        if self.sections.len() >= MAX_SECTIONS {
            return Err(Stop::Refused(LineFault::TooMany { word: 1 }));
        }
        let section = SectionSoFar::new(self.alloc, header);
        self.sections.push(section)?;
        self.reached = SECTION_GROUP;
        Ok(())
    }

    /// Returns the number of the last library, which an import belongs to.
    #[tactic(auto, using(crate::proofs::TextProofs::TableLemmas::libraries_seen))]
    fn enter_import(&self) -> Result<u32, LineFault>
        ensures { result ≡ entered_import (so_far self.now) }
    {
        self.enter(LIBRARY_GROUP)?;
        match self.parts.libraries.len().checked_sub(1) {
            Some(library) => Ok(library as u32),
            None => Err(LineFault::OutOfOrder { word: 0 }),
        }
    }
}
