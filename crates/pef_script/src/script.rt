ghost use Rattle.std.specs.Prelude.{◌≡◌, ◌≤◌, IfSome, length, option_copied, option_map, slice_get, true};
ghost use Rattle.pef_reloc.specs.Fixups.{fixups_fit};
ghost use Rattle.pef_reloc.specs.Limits.{most_imports, most_sections};
ghost use Rattle.pef_script.specs.Limits.{most_exports, most_libraries};
ghost use Rattle.pef_script.specs.Parts.{export_of, script_in};
ghost use Rattle.pef_format.specs.Exports.{export_seen};
ghost use Rattle.pef_format.specs.Symbols.{import_seen};
ghost use Rattle.pef_script.specs.Views.{header_in, library_in};
ghost use Rattle.pef_script.specs.WellFormed.{ScriptHolds};

use crate::{ExportData, LibraryView, Parts, SectionHeader, Versions};
use pef_format::{ExportFields, ExportView, ImportFields, ImportView, Imported, Named};
use pef_reloc::Fixup;
use std::marker::Model;

/// A link script: the parts of a container. Names are borrowed.
#[derive(Drop)]
pub struct Script<'a> {
    parts: Parts<'a>,
}

impl<'a> Model for Script<'a> {
    ghost use Rattle.pef_script.specs.Parts.{script_in};
    ghost use Rattle.pef_script.specs.Script.{DescribedScript};
    ghost use Rattle.pef_script.specs.WellFormed.{ScriptHolds};

    ghost Value = { DescribedScript };

    ghost view = { λ s. script_in s.parts };

    ghost invariant = { λ s. ScriptHolds (script_in s.parts) };
}

impl<'a> Script<'a> {
    /// Returns the script of some parts. They must keep the limits, have distinct names, and refer only
    /// to sections, libraries, imports and offsets that exist.
    pub fn new(parts: Parts<'a>) -> Script<'a>
        requires { ScriptHolds (script_in parts) }
        ensures { result ≡ script_in parts.entry }
    {
        Script { parts }
    }

    /// Returns the parts, which keep the rules of a script.
    pub fn parts(&self) -> &Parts<'a>
        ensures parts { script_in result.now ≡ self.now }
        ensures holds { ScriptHolds self.now }
    {
        &self.parts
    }

    /// Returns the versions of the container.
    pub fn versions(&self) -> Versions
        ensures { result ≡ self.now.versions }
    {
        self.parts.versions
    }

    /// Returns the number of sections.
    pub fn sections(&self) -> usize
        ensures count { result ≡ length self.now.sections }
        ensures few { result ≤ most_sections }
    {
        self.parts.sections.len()
    }

    /// Returns the number of libraries.
    pub fn libraries(&self) -> usize
        ensures count { result ≡ length self.now.libraries }
        ensures few { result ≤ most_libraries }
    {
        self.parts.libraries.len()
    }

    /// Returns the number of imports.
    pub fn imports(&self) -> usize
        ensures count { result ≡ length self.now.imports }
        ensures few { result ≤ most_imports }
    {
        self.parts.imports.len()
    }

    /// Returns the number of exports.
    pub fn exports(&self) -> usize
        ensures count { result ≡ length self.now.exports }
        ensures few { result ≤ most_exports }
    {
        self.parts.exports.len()
    }

    /// Returns section `k` without its image and its fixups, or `None` past the last one.
    pub fn section(&self, k: usize) -> Option<SectionHeader<'a>>
        ensures { option_map header_in result ≡ option_map (λ s. s.header) (slice_get self.now.sections k) }
    {
        Some(self.parts.sections.get(k)?.header)
    }

    /// Returns the bytes that section `k` begins with, or `None` past the last one.
    pub fn image(&self, k: usize) -> Option<&[u8]>
        ensures { option_copied result ≡ option_map (λ s. s.image) (slice_get self.now.sections k) }
    {
        Some(&self.parts.sections.get(k)?.image)
    }

    /// Returns the fixups of section `k` in address order, or `None` past the last one.
    pub fn fixups(&self, k: usize) -> Option<&[Fixup]>
        ensures value { option_copied result ≡ option_map (λ s. s.fixups) (slice_get self.now.sections k) }
        ensures fit { IfSome result (λ fixups. fixups_fit fixups.now ≡ true) }
    {
        Some(&self.parts.sections.get(k)?.fixups)
    }

    /// Returns library `l`, or `None` past the last one.
    pub fn library(&self, l: usize) -> Option<LibraryView<'a>>
        ensures { option_map library_in result ≡ slice_get self.now.libraries l }
    {
        let (name, library) = self.parts.libraries.get_index(l)?;
        Some(LibraryView {
            name: name.bytes,
            current: library.current,
            old_imp: library.old_imp,
            options: library.options,
        })
    }

    /// Returns import `j`, or `None` past the last one.
    pub fn import(&self, j: usize) -> Option<ImportView<'a>>
        ensures { option_map import_seen result ≡ slice_get self.now.imports j }
    {
        let (name, import) = self.parts.imports.get_index(j)?;
        let fields = ImportFields {
            class: import.class.code(),
            weak: import.weak,
        };
        Some(Imported {
            fields,
            name: name.bytes,
            library: import.library as usize,
        })
    }

    /// Returns export `e`, or `None` past the last one.
    pub fn export(&self, e: usize) -> Option<ExportView<'a>>
        ensures { option_map export_seen result ≡ slice_get self.now.exports e }
    {
        let (name, export) = self.parts.exports.get_index(e)?;
        Some(export_view(name.bytes, *export))
    }

    /// Returns the section and offset of the main entry, if there is one.
    pub fn main(&self) -> Option<(u32, u32)>
        ensures { result ≡ self.now.main }
    {
        self.parts.main
    }

    /// Returns the section and offset of the initialization routine, if there is one.
    pub fn init(&self) -> Option<(u32, u32)>
        ensures { result ≡ self.now.init }
    {
        self.parts.init
    }

    /// Returns the section and offset of the termination routine, if there is one.
    pub fn term(&self) -> Option<(u32, u32)>
        ensures { result ≡ self.now.term }
    {
        self.parts.term
    }
}

/// Returns an export with its name.
fn export_view(name: &[u8], export: ExportData) -> ExportView<'_>
    ensures { export_seen result ≡ export_of (name.entry, export) }
{
    let fields = ExportFields {
        class: export.class.code(),
        section: export.section,
        value: export.value,
    };
    Named { fields, name }
}
