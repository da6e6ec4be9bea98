ghost use Rattle.std.specs.Prelude.{◌≡◌, ◌<◌, ◌^◌, Some, IfOk, IsTrue, nat_le, option_map, length};
ghost use Rattle.std.specs.Option.{ForSome, is_some};
ghost use Rattle.pef_words.specs.Refusals.{result_map};
ghost use Rattle.pef_hash.specs.Views.{table_of};
ghost use Rattle.pef_views.specs.Partial.{sections_allowed};
ghost use Rattle.pef_views.specs.PartialViews.{partly};
ghost use Rattle.pef_loader.specs.Export.{HasIrregular, export_table, has_exports};
ghost use Rattle.pef_loader.specs.Faults.{fault_place};
ghost use Rattle.pef_loader.specs.Header.{header_of, imports_from, library_place, relocs_from, tables_end};
ghost use Rattle.pef_loader.specs.Import.{owner_of};
ghost use Rattle.pef_loader.specs.Kept.Names.{NamesEndAt};
ghost use Rattle.pef_loader.specs.Kept.Ranges.{AreInOrder};
ghost use Rattle.pef_loader.specs.Loader.{entry_tests};
ghost use Rattle.pef_loader.specs.Partial.{export_row, export_row_of, export_name_at, export_table_tests, exports_in, import_name_at, import_row, library_name_at, library_fields, library_row, partial_of, relocation_reserved, relocation_row, rows_in, table_tests, tests_of_export, tests_of_import, tests_of_library, tests_of_relocation};
ghost use Rattle.pef_loader.specs.Places.{place_of};

use crate::cut_name::Names;
use crate::export::{has_exports, tests_of_export, unsearched_exports};
use crate::fault::LoaderFault;
use crate::header::{LoaderHeader, LoaderTables, library_place, read_header};
use crate::import::{import_table, read_import};
use crate::library::{library_table, read_library};
use crate::name_reader::NameReader;
use crate::names::names_end;
use crate::owners::Owners;
use crate::place::{field_from, start_with};
use crate::ranges::are_whole_and_in_order;
use crate::reloc::{instructions, read_reloc, reloc_table};
use crate::tables::entry_table;
use pef_format::layout::{
    IMPORT_SIZE, LIBRARY_RESERVED_AT, LIBRARY_SIZE, RELOCATION_HEADER_SIZE, RELOCATION_RESERVED_AT,
};
use pef_format::{ExportFields, Imported, LibraryFields, Named, Part, Place};
use pef_hash::Exports;
use pef_views::PartialContainer;
use pef_words::Cut;

/// A loader section that may be damaged, seen in place: whatever can be read of it.
///
/// Only its header is there for certain. A row is there if its bytes are, whatever is wrong with it or with another one.
#[derive(Clone, Copy, Debug)]
pub struct PartialLoader<'a> {
    pub(crate) container: PartialContainer<'a>,
    pub(crate) tables: LoaderTables<'a>,
    pub(crate) names: Names<'a>,
    in_order: bool,
    exports: Option<Exports<'a>>,
    ghost section: { tables.cut.bytes.now ≡ (partly container).loader },
    ghost headed: { header_of tables.cut.bytes.now ≡ Some tables.header },
    ghost named: { names.cut.bytes.now ≡ tables.cut.bytes.now },
    ghost ordered: { IsTrue in_order → AreInOrder tables.cut.bytes.now tables.header.library_count },
    ghost exported: { is_some exports ≡ has_exports tables.cut.bytes.now tables.header },
    ghost tabled: { ForSome exports (λ e. table_of e ≡ export_table tables.cut.bytes.now tables.header) },
}

/// An imported library of a loader section that may be damaged. Its name is `None` if no zero byte follows in the loader section.
pub type PartialLibrary<'a> = Named<LibraryFields, Option<&'a [u8]>>;

/// An imported symbol of a loader section that may be damaged. Its name is `None` if no zero byte follows in the loader section. Its
/// library is the first whose range has it, if there is one.
pub type PartialImport<'a> = Imported<Option<&'a [u8]>, Option<usize>>;

/// A relocation header of a loader section that may be damaged.
#[derive(Clone, Copy, Debug)]
pub struct PartialRelocation<'a> {
    /// The section to be relocated.
    pub section: u16,
    /// The number of halfwords of the program.
    pub count: u32,
    /// The offset of the first of them among all programs.
    pub first: u32,
    /// The bytes of the program. `None` if they extend past the end of the loader section.
    pub program: Option<&'a [u8]>,
}

/// An exported symbol of a loader section that may be damaged. Its name is `None` if it extends past the end of the loader section.
pub type PartialExport<'a> = Named<ExportFields, Option<&'a [u8]>>;

impl<'a> PartialLoader<'a> {
    ghost use Rattle.pef_loader.specs.PartialViews.{export_seen, import_seen, library_seen, partly_loaded, relocation_seen};

    /// Reads what can be read of the loader section of a container.
    ///
    /// # Errors
    ///
    /// `LoaderShort` if it has fewer than 56 bytes. A container without a loader section is read as if it were empty.
    #[tactic(auto, unfolding(crate::specs::Partial::partial_of))]
    pub fn read(container: &PartialContainer<'a>) -> Result<PartialLoader<'a>, LoaderFault>
        ensures value { result_map partly_loaded result
            ≡ partial_of (sections_allowed (partly container.now)) (partly container.now).loader }
        ensures container { IfOk result (λ l. l.container ≡ container.now) }
    {
        let cut = Cut::new(container.loader_bytes());
        let header = read_header(cut).ok_or(LoaderFault::LoaderShort)?;
        let tables = LoaderTables { cut, header };
        Ok(PartialLoader {
            container: *container,
            tables,
            names: Names::ending(cut, names_end(cut)),
            in_order: are_whole_and_in_order(tables),
            exports: exports_in(tables),
        })
    }

    /// Returns the loader header.
    pub fn header(&self) -> LoaderHeader
        ensures { result ≡ (partly_loaded self.now).header }
    {
        self.tables.header
    }

    /// Returns the bytes of the loader section, as far as they are in the container.
    pub fn bytes(&self) -> &'a [u8]
        ensures { result.now ≡ (partly_loaded self.now).bytes }
    {
        self.tables.cut.bytes()
    }

    /// Returns how many sections a row may name: the instantiated ones of the container, or all that there are, if its
    /// instantiated sections aren't the first ones.
    pub fn sections(&self) -> u16
        ensures { result ≡ (partly_loaded self.now).sections }
    {
        self.container.sections_allowed()
    }

    /// Returns how many of the libraries are in the loader section.
    pub fn libraries(&self) -> usize
        ensures value { result ≡ rows_in (partly_loaded self.now) (library_place 0) 24 (partly_loaded self.now).header.library_count }
        ensures small { result < 2 ^ 32 }
    {
        self.rows(
            library_place(0),
            LIBRARY_SIZE,
            self.tables.header.library_count,
        )
    }

    /// Returns how many of the imports are in the loader section.
    pub fn imports(&self) -> usize
        ensures value { result ≡ rows_in (partly_loaded self.now) (imports_from (partly_loaded self.now).header) 4 (partly_loaded self.now).header.import_count }
        ensures small { result < 2 ^ 32 }
    {
        let header = self.tables.header;
        self.rows(header.import(0), IMPORT_SIZE, header.import_count)
    }

    /// Returns how many of the relocation headers are in the loader section.
    pub fn relocations(&self) -> usize
        ensures value { result ≡ rows_in (partly_loaded self.now) (relocs_from (partly_loaded self.now).header) 12 (partly_loaded self.now).header.reloc_count }
        ensures small { result < 2 ^ 32 }
    {
        let header = self.tables.header;
        self.rows(header.reloc(0), RELOCATION_HEADER_SIZE, header.reloc_count)
    }

    /// Returns how many exports there are: none if the export table isn't in the loader section as a whole.
    pub fn exports(&self) -> usize
        ensures value { result ≡ exports_in (partly_loaded self.now) }
        ensures small { result < 2 ^ 32 }
    {
        match self.exports {
            Some(_) => self.tables.header.export_count as usize,
            None => 0,
        }
    }

    /// Returns how many rows of a table are in the loader section: where the first one begins, the size of each, and how many
    /// there are to be.
    fn rows(&self, from: usize, size: usize, count: u32) -> usize
        requires { 0 < size }
        ensures value { result ≡ rows_in (partly_loaded self.now) from size count }
        ensures small { result < 2 ^ 32 }
    {
        let room = self.tables.cut.len().saturating_sub(from);
        (room / size).min(count as usize)
    }

    /// Returns where the tables after the header end, if they are whole.
    pub fn tables_end(&self) -> usize
        ensures { result ≡ tables_end (partly_loaded self.now).header }
    {
        self.tables.header.end()
    }

    /// Returns whether all libraries are in the loader section.
    pub fn has_libraries(&self) -> bool
        ensures { result ≡ nat_le (imports_from (partly_loaded self.now).header) (length (partly_loaded self.now).bytes) }
    {
        self.tables.header.import(0) <= self.tables.cut.len()
    }

    /// Returns whether all imports are in the loader section.
    pub fn has_imports(&self) -> bool
        ensures { result ≡ nat_le (relocs_from (partly_loaded self.now).header) (length (partly_loaded self.now).bytes) }
    {
        self.tables.header.reloc(0) <= self.tables.cut.len()
    }

    /// Returns whether all relocation headers are in the loader section.
    pub fn has_relocations(&self) -> bool
        ensures { result ≡ nat_le (tables_end (partly_loaded self.now).header) (length (partly_loaded self.now).bytes) }
    {
        self.tables.header.end() <= self.tables.cut.len()
    }

    /// Returns whether the slots, the keys and the exports of the export table are in the loader section, or there are no
    /// exports.
    pub fn has_exports(&self) -> bool
        ensures { result ≡ has_exports (partly_loaded self.now).bytes (partly_loaded self.now).header }
    {
        self.exports.is_some()
    }

    /// Returns library `i`, or `None` past the last one that is in the loader section.
    pub fn library(&self, i: usize) -> Option<PartialLibrary<'a>>
        ensures { option_map library_seen result ≡ library_row (partly_loaded self.now) i }
    {
        if i >= self.tables.header.library_count as usize {
            return None;
        }
        let library = read_library(self.tables.cut, i)?;
        Some(Named {
            fields: library.fields,
            name: self.names.whole(self.tables.header.name(library.name)),
        })
    }

    /// Returns where the name of library `i` begins in the loader section, or `None` past the last library that is in it.
    pub fn library_name_at(&self, i: usize) -> Option<usize>
        ensures { result ≡ library_name_at (partly_loaded self.now) i }
    {
        if i >= self.tables.header.library_count as usize {
            return None;
        }
        let library = read_library(self.tables.cut, i)?;
        Some(self.tables.header.name(library.name))
    }

    /// Returns the fields of library `i` and its reserved bytes as a number, or `None` past the last one that is in the loader
    /// section. No name is looked for.
    pub fn library_fields(&self, i: usize) -> Option<(LibraryFields, u32)>
        ensures { result ≡ library_fields (partly_loaded self.now) i }
    {
        if i >= self.tables.header.library_count as usize {
            return None;
        }
        let library = read_library(self.tables.cut, i)?;
        let at = library_place(i) + LIBRARY_RESERVED_AT;
        let high = u32::from(self.tables.cut.u8_at(at)?);
        let low = u32::from(self.tables.cut.u16_at(at + 1)?);
        Some((library.fields, high * 0x10000 + low))
    }

    /// Returns import `j`, whose library was looked for, or `None` past the last one that is in the loader section.
    fn import(
        &self,
        names: &mut NameReader<'a>,
        library: Option<usize>,
        j: usize,
    ) -> Option<PartialImport<'a>>
        requires names { names.old.names.cut.bytes.now ≡ (partly_loaded self.now).bytes }
        requires library { library ≡ owner_of (partly_loaded self.now).bytes (partly_loaded self.now).header j }
        ensures value { option_map import_seen result ≡ import_row (partly_loaded self.now) j }
        ensures same { names.new.names ≡ names.old.names }
    {
        if j >= self.tables.header.import_count as usize {
            return None;
        }
        let import = read_import(self.tables, j)?;
        Some(Imported {
            fields: import.fields,
            name: names.name(self.tables.header.name(import.name)),
            library,
        })
    }

    /// Returns where the name of import `j` begins in the loader section, or `None` past the last import that is in it.
    pub fn import_name_at(&self, j: usize) -> Option<usize>
        ensures { result ≡ import_name_at (partly_loaded self.now) j }
    {
        if j >= self.tables.header.import_count as usize {
            return None;
        }
        let import = read_import(self.tables, j)?;
        Some(self.tables.header.name(import.name))
    }

    /// Returns relocation header `k`, or `None` past the last one that is in the loader section.
    pub fn relocation(&self, k: usize) -> Option<PartialRelocation<'a>>
        ensures { option_map relocation_seen result ≡ relocation_row (partly_loaded self.now) k }
    {
        if k >= self.tables.header.reloc_count as usize {
            return None;
        }
        let reloc = read_reloc(self.tables, k)?;
        Some(PartialRelocation {
            section: reloc.section,
            count: reloc.count,
            first: reloc.first,
            program: instructions(self.tables, reloc),
        })
    }

    /// Returns the reserved field of relocation header `k`.
    pub fn relocation_reserved(&self, k: usize) -> Option<u16>
        ensures { result ≡ relocation_reserved (partly_loaded self.now) k }
    {
        if k >= self.tables.header.reloc_count as usize {
            return None;
        }
        let at = self.tables.header.reloc(k) + RELOCATION_RESERVED_AT;
        self.tables.cut.u16_at(at)
    }

    /// Returns export `i`, or `None` past the last one and if the export table isn't in the loader section as a whole.
    pub fn export(&self, i: usize) -> Option<PartialExport<'a>>
        ensures { option_map export_seen result ≡ export_row (partly_loaded self.now) i }
    {
        match self.exports {
            Some(exports) => PartialLoader::export_at(exports, i),
            None => None,
        }
    }

    /// Returns export `i`, or `None` past the last one.
    fn export_at(exports: Exports<'a>, i: usize) -> Option<PartialExport<'a>>
        ensures { option_map export_seen result ≡ export_row_of (table_of exports.entry) i }
    {
        let export = exports.entry(i)?;
        Some(Named {
            fields: export.fields,
            name: exports.name(i),
        })
    }

    /// Returns where the name of export `i` begins in the loader section, or `None` past the last one and if the export table
    /// isn't in the loader section as a whole.
    pub fn export_name_at(&self, i: usize) -> Option<usize>
        ensures { result ≡ export_name_at (partly_loaded self.now) i }
    {
        match self.exports {
            Some(exports) => {
                let entry = exports.entry(i)?;
                Some(self.tables.header.name(entry.name))
            }
            None => None,
        }
    }

    /// Returns whether there are exports, and the hash table isn't searched for their names: it doesn't lead to each of them, or
    /// their names are together longer than all strings.
    ///
    /// It reads the whole export table.
    pub fn is_irregular(&self) -> bool
        ensures irregular { IsTrue result → HasIrregular (partly_loaded self.now).bytes (partly_loaded self.now).header }
        ensures found { HasIrregular (partly_loaded self.now).bytes (partly_loaded self.now).header → IsTrue result }
    {
        match self.exports {
            Some(exports) => self.tables.header.export_count > 0 && !exports.is_searched(),
            None => false,
        }
    }

    /// Returns the place in the container of a field of a part.
    pub fn place(&self, part: Part, row: u32, field: usize) -> Place
        ensures { result ≡ place_of (partly self.now.container) part row field }
    {
        let start = start_with(&self.container, self.tables, part, row);
        Place {
            part,
            row: row as usize,
            field,
            offset: field_from(start, field),
        }
    }

    /// Returns the place of a fault.
    pub fn place_of(&self, fault: LoaderFault) -> Place
        ensures { result ≡ fault_place (partly self.now.container) fault }
    {
        fault.partial_place(&self.container)
    }

    /// Returns the test of the tables after the header: whether the rule is broken, and which it is.
    pub fn table_tests(&self) -> [(bool, LoaderFault); 1]
        ensures { result ≡ table_tests (partly_loaded self.now) }
    {
        let short = self.tables.cut.len() < self.tables.header.end();
        [(short, LoaderFault::BadTableOffset)]
    }

    /// Returns the tests of library `i`, in order, or `None` if it isn't in the loader section.
    pub fn library_tests(&self, i: u32) -> Option<[(bool, LoaderFault); 2]>
        ensures { result ≡ tests_of_library (partly_loaded self.now) i }
    {
        library_table(self.tables, self.names.end, i)
    }

    /// Returns the tests of the entry points, in order.
    pub fn entry_tests(&self) -> [(bool, LoaderFault); 3]
        ensures { result ≡ entry_tests (partly_loaded self.now).sections (partly_loaded self.now).header }
    {
        entry_table(self.tables.header, self.sections())
    }

    /// Returns the tests of relocation header `k`, in order, or `None` if it isn't in the loader section.
    pub fn relocation_tests(&self, k: u32) -> Option<[(bool, LoaderFault); 2]>
        ensures { result ≡ tests_of_relocation (partly_loaded self.now) k }
    {
        reloc_table(self.tables, self.sections(), k)
    }

    /// Returns the test of the export table.
    pub fn export_table_tests(&self) -> [(bool, LoaderFault); 1]
        ensures { result ≡ export_table_tests (partly_loaded self.now) }
    {
        [(!self.has_exports(), LoaderFault::BadExportTable)]
    }

    /// Returns the tests of export `i`, in order, or `None` past the last one.
    pub fn export_tests(&self, i: u32) -> Option<[(bool, LoaderFault); 2]>
        requires { IsTrue (has_exports (partly_loaded self.now).bytes (partly_loaded self.now).header) }
        ensures { result ≡ tests_of_export (partly_loaded self.now) i }
    {
        match self.exports {
            Some(exports) => tests_of_export(exports, self.tables, self.sections(), i),
            None => None,
        }
    }
}

/// Returns the view of the exports, if their whole table is in the loader section or there are none.
fn exports_in<'a>(tables: LoaderTables<'a>) -> Option<Exports<'a>>
    ensures some { is_some result ≡ has_exports tables.entry.cut.bytes.now tables.entry.header }
    ensures table { ForSome result (λ e. table_of e ≡ export_table tables.entry.cut.bytes.now tables.entry.header) }
{
    if !has_exports(tables) {
        return None;
    }
    Some(unsearched_exports(tables))
}

/// Reads many imports of a loader section that may be damaged, each with its library, and allocates nothing. It is fastest
/// for imports in rising order, as [`ImportReader`](crate::ImportReader) is.
#[derive(Drop)]
pub struct PartialImports<'a> {
    pub(crate) loader: PartialLoader<'a>,
    pub(crate) owners: Owners<'a>,
    names: NameReader<'a>,
    ghost same: { owners.tables ≡ loader.tables },
    ghost named: { names.names.cut.bytes.now ≡ loader.tables.cut.bytes.now },
}

impl<'a> PartialImports<'a> {
    ghost use Rattle.pef_loader.specs.PartialViews.{import_seen, partly_loaded};

    /// Returns a reader of the imports of a loader section.
    pub fn new(loader: PartialLoader<'a>) -> PartialImports<'a>
        ensures { result.loader ≡ loader.entry }
    {
        PartialImports {
            loader,
            owners: Owners::new(loader.tables, loader.in_order),
            names: NameReader::new(loader.names),
        }
    }

    /// Returns import `j`, or `None` past the last one that is in the loader section.
    pub fn import(&mut self, j: usize) -> Option<PartialImport<'a>>
        ensures value { option_map import_seen result ≡ import_row (partly_loaded self.old.loader) j }
        ensures same { self.new.loader ≡ self.old.loader }
    {
        let library = self.owners.owner(j);
        self.loader.import(&mut self.names, library, j)
    }

    /// Returns the tests of import `j`, in order, or `None` if it isn't in the loader section.
    pub fn tests(&mut self, j: u32) -> Option<[(bool, LoaderFault); 2]>
        ensures value { result ≡ tests_of_import (partly_loaded self.old.loader) j }
        ensures same { self.new.loader ≡ self.old.loader }
    {
        let owner = self.owners.owner(j as usize);
        import_table(self.loader.tables, self.loader.names.end, owner, j)
    }
}
