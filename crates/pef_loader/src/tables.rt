ghost use Rattle.std.specs.Prelude.{◌≡◌, ℕ, ◌+◌, ◌<◌, ◌≤◌, ◌^◌, ◌↔◌, Ok, Some, IfOk, IfSome, IsSome, IsTrue, option_map};
ghost use Rattle.std.specs.Result.{result_err};
ghost use Rattle.pef_words.specs.Refusals.{first_among, first_met, result_map};
ghost use Rattle.pef_hash.specs.Views.{table_of};
ghost use Rattle.pef_loader.specs.Export.{export_refusal, export_table, has_exports, has_section};
ghost use Rattle.pef_loader.specs.Header.{entry_of, is_entry};
ghost use Rattle.pef_loader.specs.Import.{import_refusal, owner_of};
ghost use Rattle.pef_loader.specs.Library.{library_refusal};
ghost use Rattle.pef_loader.specs.Loader.{entry_tests, export_of, import_of, init_of, library_of, loaded_of, main_of, named_of, reloc_of, term_of};
ghost use Rattle.pef_loader.specs.Kept.Names.{NamesEndAt};
ghost use Rattle.pef_loader.specs.Kept.Tests.{TestsEach};
ghost use Rattle.pef_loader.specs.Kept.Ranges.{AreInOrder};
ghost use Rattle.pef_loader.specs.Reloc.{reloc_refusal};

use crate::block::OwnerBlock;
use crate::cursor::OwnerCursor;
use crate::cut_name::Names;
use crate::export::{exports, has_exports, test_export};
use crate::fault::{LoaderFault, refused_by};
use crate::header::{EntryKind, LoaderHeader, LoaderTables, is_entry, read_header};
use crate::import::{read_import, test_import};
use crate::library::{LibraryView, read_library, test_library};
use crate::names::names_end;
use crate::ranges::are_in_order;
use crate::reloc::{instructions, read_reloc, test_reloc};
use pef_format::{EntryPoint, ExportView, ImportView, Imported, Named};
use pef_hash::Exports;
use pef_views::Container;
use pef_words::{Cut, first_met};

/// A loader section, read in place.
///
/// The bytes of such a value break no rule of the format. The slices that it returns are slices of the bytes that it
/// was read from, and live as long as those.
#[derive(Clone, Copy, Debug)]
pub struct Loader<'a> {
    pub(crate) tables: LoaderTables<'a>,
    sections: u16,
    pub(crate) in_order: bool,
    exports: Exports<'a>,
    pub(crate) names: Names<'a>,
    ghost ordered: { IsTrue in_order → AreInOrder tables.cut.bytes.now tables.header.library_count },
    ghost tabled: { table_of exports ≡ export_table tables.cut.bytes.now tables.header },
    ghost named: { names.cut.bytes.now ≡ tables.cut.bytes.now },
    pub ghost accepted: { loaded_of sections tables.cut.bytes.now ≡ Ok (record {
      sections = sections;
      bytes = tables.cut.bytes.now;
      header = tables.header;
    }) },
}

impl<'a> Loader<'a> {
    ghost use Rattle.pef_views.specs.Views.{contained};
    ghost use Rattle.pef_format.specs.Exports.{export_seen};
    ghost use Rattle.pef_format.specs.Symbols.{import_seen};
    ghost use Rattle.pef_loader.specs.Views.{library_seen, loaded, reloc_seen};

    /// Reads the loader section of a container.
    ///
    /// # Errors
    ///
    /// Returns the first rule that it breaks. The rules are checked in this order: the header, the length of the
    /// tables, each library, each import, the entry points, each relocation header, the length of the export table,
    /// each export.
    pub fn read(container: &Container<'a>) -> Result<Loader<'a>, LoaderFault>
        ensures { result_map loaded result
            ≡ loaded_of (contained container.now).header.instantiated_section_count (contained container.now).loader }
    {
        let sections = container.header().instantiated_section_count;
        Loader::read_cut(Cut::new(container.loader()), sections)
    }

    /// Reads the loader section of a container with this number of instantiated sections.
    #[tactic(auto, unfolding(crate::specs::Loader::loaded_of))]
    fn read_cut(cut: Cut<'a>, sections: u16) -> Result<Loader<'a>, LoaderFault>
        ensures value { result_map loaded result ≡ loaded_of sections cut.entry.bytes.now }
        ensures order { IfOk result (λ l. AreInOrder cut.entry.bytes.now l.tables.header.library_count → IsTrue l.in_order) }
    {
        let header = read_header(cut).ok_or(LoaderFault::LoaderShort)?;
        if cut.len() < header.end() {
            return Err(LoaderFault::BadTableOffset);
        }
        let tables = LoaderTables { cut, header };
        let names_end = names_end(cut);
        test_libraries(tables, names_end)?;
        let in_order = are_in_order(tables);
        test_imports(tables, names_end, in_order)?;
        test_entries(header, sections)?;
        test_relocs(tables, sections)?;
        if !has_exports(tables) {
            return Err(LoaderFault::BadExportTable);
        }
        let exports = exports(tables);
        test_exports(exports, tables, sections)?;
        Ok(Loader {
            tables,
            sections,
            in_order,
            exports,
            names: Names::ending(cut, names_end),
        })
    }

    /// Returns the loader header.
    pub fn header(&self) -> LoaderHeader
        ensures { result ≡ (loaded self.now).header }
    {
        self.tables.header
    }

    /// Returns the number of libraries.
    pub fn libraries(&self) -> usize
        ensures count { result ≡ (loaded self.now).header.library_count }
        ensures small { result < 2 ^ 32 }
    {
        self.tables.header.library_count as usize
    }

    /// Returns the number of imports.
    pub fn imports(&self) -> usize
        ensures count { result ≡ (loaded self.now).header.import_count }
        ensures small { result < 2 ^ 32 }
    {
        self.tables.header.import_count as usize
    }

    /// Returns the number of relocation headers.
    pub fn relocs(&self) -> usize
        ensures count { result ≡ (loaded self.now).header.reloc_count }
        ensures small { result < 2 ^ 32 }
    {
        self.tables.header.reloc_count as usize
    }

    /// Returns the number of exports.
    pub fn exports(&self) -> usize
        ensures count { result ≡ (loaded self.now).header.export_count }
        ensures small { result < 2 ^ 32 }
    {
        self.tables.header.export_count as usize
    }

    /// Returns library `i`, or `None` past the last one.
    #[tactic(auto, unfolding(crate::specs::Loader::library_of, crate::specs::Library::library_in))]
    pub fn library(&self, i: usize) -> Option<LibraryView<'a>>
        ensures value { option_map library_seen result ≡ library_of (loaded self.now) i }
        ensures there { IsSome result ↔ (i < (loaded self.now).header.library_count) }
        ensures range { IfSome result (λ v. v.fields.first + v.fields.count ≤ (loaded self.now).header.import_count) }
    {
        if i >= self.tables.header.library_count as usize {
            return None;
        }
        let library = read_library(self.tables.cut, i)?;
        Some(Named {
            fields: library.fields,
            name: self.names.whole(self.tables.header.name(library.name))?,
        })
    }

    /// Returns import `j`, or `None` past the last one.
    ///
    /// Each call searches the libraries from the first one on. An [`ImportReader`](crate::ImportReader) is faster
    /// for many imports.
    #[tactic(auto, unfolding(crate::specs::Loader::import_of, crate::specs::Import::import_in))]
    pub fn import(&self, j: usize) -> Option<ImportView<'a>>
        ensures value { option_map import_seen result ≡ import_of (loaded self.now) j }
        ensures there { IsSome result ↔ (j < (loaded self.now).header.import_count) }
        ensures library { IfSome result (λ v. v.library < (loaded self.now).header.library_count) }
    {
        if j >= self.tables.header.import_count as usize {
            return None;
        }
        let library = OwnerCursor::new(self.tables.cut).owner(self.tables, j)?;
        self.import_of(library, j)
    }

    /// Returns import `j`, whose first library is known.
    #[tactic(auto, unfolding(crate::specs::Loader::import_of, crate::specs::Import::import_in))]
    fn import_of(&self, library: usize, j: usize) -> Option<ImportView<'a>>
        requires small { j < 2 ^ 32 }
        requires place { j < (loaded self.now).header.import_count }
        requires library { owner_of (loaded self.now).bytes (loaded self.now).header j ≡ Some library }
        ensures value { option_map import_seen result ≡ import_of (loaded self.now) j }
        ensures there { IsSome result }
        ensures library { IfSome result (λ v. v.library < (loaded self.now).header.library_count) }
    {
        let import = read_import(self.tables, j)?;
        Some(Imported {
            fields: import.fields,
            name: self.names.whole(self.tables.header.name(import.name))?,
            library,
        })
    }

    /// Returns the section of relocation header `k` and the bytes of its instructions, or `None` past the last one.
    #[tactic(auto, unfolding(crate::specs::Loader::reloc_of, crate::specs::Reloc::reloc_in))]
    pub fn reloc(&self, k: usize) -> Option<(u32, &'a [u8])>
        ensures value { option_map reloc_seen result ≡ reloc_of (loaded self.now) k }
        ensures there { IsSome result ↔ (k < (loaded self.now).header.reloc_count) }
        ensures section { IfSome result (λ r. r.0 < (loaded self.now).sections) }
    {
        if k >= self.tables.header.reloc_count as usize {
            return None;
        }
        let reloc = read_reloc(self.tables, k)?;
        let instructions = instructions(self.tables, reloc)?;
        Some((u32::from(reloc.section), instructions))
    }

    /// Returns export `i`, or `None` past the last one.
    #[tactic(auto, unfolding(crate::specs::Loader::export_of, crate::specs::Export::export_in))]
    pub fn export(&self, i: usize) -> Option<ExportView<'a>>
        ensures value { option_map export_seen result ≡ export_of (loaded self.now) i }
        ensures there { IsSome result ↔ (i < (loaded self.now).header.export_count) }
        ensures section { IfSome result (λ v. IsTrue (has_section (loaded self.now).header (loaded self.now).sections v.fields.value v.fields.section)) }
    {
        if i >= self.tables.header.export_count as usize {
            return None;
        }
        let export = self.exports.entry(i)?;
        let name = self.exports.name(i)?;
        Some(Named {
            fields: export.fields,
            name,
        })
    }

    /// Returns the first export with this name. Hash words and slots are ignored.
    #[tactic(auto, unfolding(crate::specs::Loader::named_of))]
    pub fn export_named(&self, name: &[u8]) -> Option<usize>
        ensures value { result ≡ named_of (loaded self.now) name.now }
        ensures below { IfSome result (λ i. i < (loaded self.now).header.export_count) }
    {
        self.exports.find(name)
    }

    /// Returns the section and offset of the main entry point, if there is one.
    pub fn main(&self) -> Option<(u32, u32)>
        ensures value { result ≡ main_of (loaded self.now) }
        ensures section { IfSome result (λ e. e.0 < (loaded self.now).sections) }
    {
        let header = self.tables.header;
        self.entry(header.main_section, header.main_offset)
    }

    /// Returns the section and offset of the initialization routine, if there is one.
    pub fn init(&self) -> Option<(u32, u32)>
        ensures value { result ≡ init_of (loaded self.now) }
        ensures section { IfSome result (λ e. e.0 < (loaded self.now).sections) }
    {
        let header = self.tables.header;
        self.entry(header.init_section, header.init_offset)
    }

    /// Returns the section and offset of the termination routine, if there is one.
    pub fn term(&self) -> Option<(u32, u32)>
        ensures value { result ≡ term_of (loaded self.now) }
        ensures section { IfSome result (λ e. e.0 < (loaded self.now).sections) }
    {
        let header = self.tables.header;
        self.entry(header.term_section, header.term_offset)
    }

    /// Returns the section and offset of an entry point, or `None` if it is missing.
    fn entry(&self, section: i32, offset: u32) -> Option<(u32, u32)>
        requires { IsTrue (is_entry (loaded self.now).sections section) }
        ensures value { result ≡ entry_of section offset }
        ensures section { IfSome result (λ e. e.0 < (loaded self.now).sections) }
    {
        let entry = EntryPoint::from_fields(section, offset)?;
        Some((entry.section, entry.offset))
    }
}

/// Reports the first rule that a library breaks, library by library.
fn test_libraries(tables: LoaderTables<'_>, names_end: usize) -> Result<(), LoaderFault>
    requires { NamesEndAt tables.cut.bytes.now names_end }
    ensures { result_err result
        ≡ first_among (library_refusal tables.entry.cut.bytes.now tables.entry.header) 0 tables.entry.header.library_count }
{
    test_each(
        tables.header.library_count,
        |i| test_library(tables, names_end, i),
    )
}

/// Reports the first rule that an import breaks, import by import.
fn test_imports(
    tables: LoaderTables<'_>,
    names_end: usize,
    in_order: bool,
) -> Result<(), LoaderFault>
    requires names { NamesEndAt tables.cut.bytes.now names_end }
    requires order { IsTrue in_order → AreInOrder tables.cut.bytes.now tables.header.library_count }
    ensures { result_err result
        ≡ first_among (import_refusal tables.entry.cut.bytes.now tables.entry.header) 0 tables.entry.header.import_count }
{
    if in_order {
        test_imports_in_order(tables, names_end)
    } else {
        test_imports_by_blocks(tables, names_end)
    }
}

/// Tests the imports of libraries that are in the order of their imports.
fn test_imports_in_order(tables: LoaderTables<'_>, names_end: usize) -> Result<(), LoaderFault>
    requires names { NamesEndAt tables.cut.bytes.now names_end }
    requires order { AreInOrder tables.cut.bytes.now tables.header.library_count }
    ensures { result_err result
        ≡ first_among (import_refusal tables.entry.cut.bytes.now tables.entry.header) 0 tables.entry.header.import_count }
{
    let mut owners = OwnerCursor::new(tables.cut);
    for j in 0..tables.header.import_count {
        let owner = owners.owner(tables, j as usize);
        test_import(tables, names_end, owner, j)?;
    }
    Ok(())
}

/// Tests the imports of libraries in any order. Kept out of `test_imports`: such libraries are rare.
#[inline(never)]
fn test_imports_by_blocks(tables: LoaderTables<'_>, names_end: usize) -> Result<(), LoaderFault>
    requires { NamesEndAt tables.cut.bytes.now names_end }
    ensures { result_err result
        ≡ first_among (import_refusal tables.entry.cut.bytes.now tables.entry.header) 0 tables.entry.header.import_count }
{
    let mut owners = OwnerBlock::new();
    for j in 0..tables.header.import_count {
        let owner = owners.owner(tables, j as usize);
        test_import(tables, names_end, owner, j)?;
    }
    Ok(())
}

/// Reports the first entry point that is neither missing nor in an instantiated section.
fn test_entries(header: LoaderHeader, sections: u16) -> Result<(), LoaderFault>
    ensures { result_err result ≡ first_met (entry_tests sections header) }
{
    refused_by(first_met(entry_table(header, sections)))
}

/// Returns the tests of the entry points, in order.
#[tactic(auto, unfolding(crate::specs::Loader::entry_tests))]
pub(crate) fn entry_table(header: LoaderHeader, sections: u16) -> [(bool, LoaderFault); 3]
    ensures { result ≡ entry_tests sections header }
{
    [
        (
            !is_entry(header.main_section, sections),
            LoaderFault::BadEntry {
                entry: EntryKind::Main,
            },
        ),
        (
            !is_entry(header.init_section, sections),
            LoaderFault::BadEntry {
                entry: EntryKind::Init,
            },
        ),
        (
            !is_entry(header.term_section, sections),
            LoaderFault::BadEntry {
                entry: EntryKind::Term,
            },
        ),
    ]
}

/// Reports the first rule that a relocation header breaks, header by header.
fn test_relocs(tables: LoaderTables<'_>, sections: u16) -> Result<(), LoaderFault>
    ensures { result_err result
        ≡ first_among (reloc_refusal tables.entry.cut.bytes.now tables.entry.header sections) 0 tables.entry.header.reloc_count }
{
    test_each(
        tables.header.reloc_count,
        |k| test_reloc(tables, sections, k),
    )
}

/// Reports the first rule that an export breaks, export by export.
fn test_exports(
    exports: Exports<'_>,
    tables: LoaderTables<'_>,
    sections: u16,
) -> Result<(), LoaderFault>
    requires { table_of exports ≡ export_table tables.cut.bytes.now tables.header }
    ensures { result_err result
        ≡ first_among (export_refusal tables.entry.cut.bytes.now tables.entry.header sections) 0 tables.entry.header.export_count }
{
    test_each(
        tables.header.export_count,
        |i| test_export(exports, tables, sections, i),
    )
}

/// Reports the first rule that a row of a table breaks, row by row.
fn test_each<F: Fn(u32) -> Result<(), LoaderFault>>(count: u32, test: F) -> Result<(), LoaderFault>
    requires { (i : ℕ) → i < count → F.pre test i }
    ensures { TestsEach (F.post test) count result }
{
    for i in 0..count {
        test(i)?;
    }
    Ok(())
}
