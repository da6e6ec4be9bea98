ghost use Rattle.std.specs.Prelude.{◌≡◌, ◌+◌, ◌++◌, ◌<◌, ◌^◌, List, [], OnOk, IfOk, length, map};
ghost use Rattle.std.specs.Int.{next_multiple_of};
ghost use Rattle.pef_hash.specs.Build.{built};
ghost use Rattle.pef_script.specs.Script.{export_names};
ghost use Rattle.pef_script.specs.WellFormed.{ScriptHolds};
ghost use Rattle.pef_write.specs.Fields.{spelled};
ghost use Rattle.pef_write.specs.Loaders.{ProgramEntry, entry_fields, entry_offset, entry_section, exports_from, header_fields, program_bytes, strings_of, table_fields, written_loader};
ghost use Rattle.pef_write.specs.declared.field.Field.TheVariants.{Word};
ghost use Rattle.pef_write.specs.Linked.{script_tables};
ghost use Rattle.pef_write.specs.Kept.Pieces.{ArePieces, ArePlaces, names_before, names_in_order};
ghost use Rattle.pef_write.specs.Kept.Views.{program_entry};

use crate::entries::{put_exports, put_imports, put_libraries};
use crate::export_table::export_table;
use crate::fault::LinkFault;
use crate::field::{Field, put_fields};
use crate::relocations::{SectionProgram, programs_len, put_programs, put_relocations};
use pef_format::layout::{LOADER_HEADER_SIZE, NO_SECTION};
use pef_hash::Table;
use pef_script::Script;
use std::alloc::{AllocError, Global};

/// The export table begins at a multiple of this.
pub(crate) const EXPORT_TABLE_ALIGNMENT: usize = 4;

/// The parts of a loader section after its header.
#[derive(Clone, Copy)]
struct Pieces<'a> {
    /// The libraries, the imports and the relocation headers.
    entries: &'a [u8],
    /// The relocation programs, in the order of their sections.
    programs: &'a [SectionProgram<'a>],
    /// The names of libraries, imports and exports.
    strings: &'a [u8],
    /// How many slots the export table has, as an exponent of two.
    power: u32,
    /// The slots, the keys and the exports.
    table: &'a [u8],
}

/// Returns the loader section of a script, with the relocation programs of some of its sections.
pub(crate) fn write_loader(
    alloc: Global,
    script: &Script<'_>,
    programs: &[SectionProgram<'_>],
) -> Result<Vec<u8>, LinkFault>
    requires holds { ScriptHolds script.now }
    requires fits { length (written_loader (script_tables script.now (map program_entry programs.now))) < 2 ^ 32 }
    requires strings { length (strings_of (script_tables script.now (map program_entry programs.now))) < 2 ^ 24 }
    ensures { IfOk result (λ loader. loader.items ≡ written_loader (script_tables script.now (map program_entry programs.now))) }
{
    let hash = export_table(alloc, script)?;
    let mut entries = Vec::new(alloc);
    let mut strings = Vec::new(alloc);
    put_entries(&mut entries, &mut strings, script, programs)?;
    let mut table = Vec::new(alloc);
    put_table(&mut table, &mut strings, script, &hash)?;
    let pieces = Pieces {
        entries: &entries,
        programs,
        strings: &strings,
        power: hash.power,
        table: &table,
    };
    join(alloc, script, pieces)
}

/// Writes the libraries, the imports and the relocation headers of a script, and the names of the first two to
/// the strings.
fn put_entries(
    entries: &mut Vec<u8>,
    strings: &mut Vec<u8>,
    script: &Script<'_>,
    programs: &[SectionProgram<'_>],
) -> Result<(), LinkFault>
    requires holds { ScriptHolds script.now }
    requires first { (entries.old.items ≡ []) × (strings.old.items ≡ []) }
    requires fits { length (program_bytes (map program_entry programs.now)) < 2 ^ 32 }
    requires names { length (names_before script.now) < 2 ^ 24 }
    ensures entries { OnOk result (entries.new.items ≡ spelled (entry_fields (script_tables script.now (map program_entry programs.now)))) }
    ensures names { OnOk result (strings.new.items ≡ names_before script.now) }
{
    put_libraries(entries, strings, script)?;
    put_imports(entries, strings, script)?;
    put_relocations(entries, programs)?;
    Ok(())
}

/// Writes the export table of a script, and the names of the exports to the strings, after those of libraries
/// and imports.
fn put_table(
    table: &mut Vec<u8>,
    strings: &mut Vec<u8>,
    script: &Script<'_>,
    hash: &Table,
) -> Result<(), LinkFault>
    requires holds { ScriptHolds script.now }
    requires hash { hash.now ≡ built (export_names script.now) }
    requires first { table.old.items ≡ [] }
    requires names { strings.old.items ≡ names_before script.now }
    requires room { length strings.old.items + length (names_in_order script.now) < 2 ^ 24 }
    ensures table { OnOk result ((programs : List ProgramEntry) → table.new.items ≡ spelled (table_fields (script_tables script.now programs))) }
    ensures names { OnOk result (strings.new.items ≡ strings.old.items ++ names_in_order script.now) }
{
    put_words(table, &hash.slots)?;
    put_words(table, &hash.keys)?;
    put_exports(table, strings, script, &hash.order)?;
    Ok(())
}

/// Returns the loader section of `script` with these pieces.
fn join(alloc: Global, script: &Script<'_>, pieces: Pieces<'_>) -> Result<Vec<u8>, LinkFault>
    requires pieces { ArePieces (script_tables script.now (map program_entry pieces.programs.now)) pieces }
    requires fits { length (written_loader (script_tables script.now (map program_entry pieces.programs.now))) < 2 ^ 32 }
    ensures { IfOk result (λ loader. loader.items ≡ written_loader (script_tables script.now (map program_entry pieces.entry.programs.now))) }
{
    let places = find_places(pieces);
    let mut out = Vec::with_capacity(alloc, places.exports + pieces.table.len())?;
    put_fields(&mut out, &header_fields(script, pieces, places))?;
    out.extend_from_slice(pieces.entries)?;
    put_programs(&mut out, pieces.programs)?;
    out.extend_from_slice(pieces.strings)?;
    out.resize(places.exports, 0)?;
    out.extend_from_slice(pieces.table)?;
    Ok(out)
}

/// Where the pieces of a loader section begin, counted from its first byte.
#[derive(Clone, Copy)]
struct Places {
    programs: usize,
    strings: usize,
    exports: usize,
}

/// Returns where the pieces of a loader section begin.
fn find_places(pieces: Pieces<'_>) -> Places
    requires { 56 + length pieces.entries.now + length (program_bytes (map program_entry pieces.programs.now)) + length pieces.strings.now < 2 ^ 32 }
    ensures programs { result.programs ≡ 56 + length pieces.entry.entries.now }
    ensures strings { result.strings ≡ result.programs + length (program_bytes (map program_entry pieces.entry.programs.now)) }
    ensures exports { result.exports ≡ next_multiple_of (result.strings + length pieces.entry.strings.now) 4 }
{
    let programs = LOADER_HEADER_SIZE + pieces.entries.len();
    let strings = programs + programs_len(pieces.programs);
    let end = strings + pieces.strings.len();
    Places {
        programs,
        strings,
        exports: end.next_multiple_of(EXPORT_TABLE_ALIGNMENT),
    }
}

/// Returns the fields of the loader header, in order (PEFLoaderInfoHeader).
#[tactic(auto, unfolding(crate::specs::Loaders::header_fields, crate::specs::Linked::script_tables))]
fn header_fields(script: &Script<'_>, pieces: Pieces<'_>, places: Places) -> [Field; 14]
    requires pieces { ArePieces (script_tables script.now (map program_entry pieces.programs.now)) pieces }
    requires fits { exports_from (script_tables script.now (map program_entry pieces.programs.now)) < 2 ^ 32 }
    requires places { ArePlaces (script_tables script.now (map program_entry pieces.programs.now)) places }
    ensures { result ≡ header_fields (script_tables script.now (map program_entry pieces.entry.programs.now)) }
{
    let (main, main_offset) = entry_numbers(script.main());
    let (init, init_offset) = entry_numbers(script.init());
    let (term, term_offset) = entry_numbers(script.term());
    [
        Field::Word(main),
        Field::Word(main_offset),
        Field::Word(init),
        Field::Word(init_offset),
        Field::Word(term),
        Field::Word(term_offset),
        Field::Word(script.libraries() as u32),
        Field::Word(script.imports() as u32),
        Field::Word(pieces.programs.len() as u32),
        Field::Word(places.programs as u32),
        Field::Word(places.strings as u32),
        Field::Word(places.exports as u32),
        Field::Word(pieces.power),
        Field::Word(script.exports() as u32),
    ]
}

/// Returns the section and the offset of an entry, or -1 and 0 if it is absent.
fn entry_numbers(entry: Option<(u32, u32)>) -> (u32, u32)
    ensures { result ≡ (entry_section entry, entry_offset entry) }
{
    match entry {
        Some(entry) => entry,
        None => (NO_SECTION.cast_unsigned(), 0),
    }
}

/// Appends `words`, each with the high byte first.
#[tactic(auto, unfolding(crate::specs::Fields::spelled))]
fn put_words(out: &mut Vec<u8>, words: &[u32]) -> Result<(), AllocError>
    ensures { OnOk result (out.new.items ≡ out.old.items ++ spelled (map Word words.now)) }
{
    for word in words {
        put_fields(out, &[Field::Word(*word)])?;
    }
    Ok(())
}
