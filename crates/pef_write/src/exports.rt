//! Containers that have nothing but absolute exports.
ghost use Rattle.std.specs.Prelude.{◌≡◌, ◌+◌, ◌++◌, ◌<◌, ◌≤◌, ◌^◌, [], OnOk, IfOk, length, map};
ghost use Rattle.std.specs.List.{flat_map, sum_by};
ghost use Rattle.pef_format.specs.Exports.{export_seen};
ghost use Rattle.std.specs.Int.{next_multiple_of};
ghost use Rattle.pef_hash.specs.Exports.{slot_word};
ghost use Rattle.pef_hash.specs.Word.{hash_word};
ghost use Rattle.pef_write.specs.declared.field.Field.TheVariants.{Word};
ghost use Rattle.pef_write.specs.ExportContainers.{HasExports, NumberFits, NumbersFit, export_tables, exports_container, exports_loader};
ghost use Rattle.pef_write.specs.Fields.{spelled};
ghost use Rattle.pef_write.specs.Loaders.{export_entry, export_fields, exports_from, header_fields, table_fields};

use crate::container::write_container;
use crate::entries::export_entry;
use crate::fault::LinkFault;
use crate::field::{Field, put_fields};
use crate::loader::EXPORT_TABLE_ALIGNMENT;
use pef_format::ExportView;
use pef_format::layout::{LOADER_HEADER_SIZE, NO_SECTION, SLOT_COUNT_SHIFT};
use pef_hash::hash_word;
use pef_script::Versions;
use std::alloc::{AllocError, Global};

/// Returns the container that has these versions and these absolute exports, in their order, and nothing else. Unlike those of a
/// script, their names may be any bytes.
///
/// # Errors
///
/// Only `OutOfMemory`.
#[tactic(auto, using(crate::proofs::NumberedLemmas::container_small), unfolding(crate::specs::ExportContainers::exports_container))]
pub fn link_exports(
    alloc: Global,
    versions: Versions,
    exports: &[ExportView<'_>],
) -> Result<Vec<u8>, LinkFault>
    requires { NumbersFit (map export_seen exports.now) }
    ensures bytes { IfOk result (λ bytes. bytes.items ≡ exports_container versions (map export_seen exports.entry.now)) }
    ensures read { IfOk result (λ bytes. HasExports versions (map export_seen exports.entry.now) bytes.items) }
{
    let loader = exports_loader(alloc, exports)?;
    Ok(write_container(alloc, versions, &[], &loader)?)
}

/// Returns the loader section of some absolute exports.
fn exports_loader(alloc: Global, exports: &[ExportView<'_>]) -> Result<Vec<u8>, AllocError>
    requires { NumbersFit (map export_seen exports.now) }
    ensures { IfOk result (λ loader. loader.items ≡ exports_loader (map export_seen exports.now)) }
{
    let mut table = Vec::new(alloc);
    let mut strings = Vec::new(alloc);
    put_table(&mut table, &mut strings, exports)?;
    join_exports(alloc, exports, &strings, &table)
}

/// Writes the export table of some exports, and their names to the strings.
fn put_table(
    table: &mut Vec<u8>,
    strings: &mut Vec<u8>,
    exports: &[ExportView<'_>],
) -> Result<(), AllocError>
    requires fit { NumbersFit (map export_seen exports.now) }
    requires first { table.old.items ≡ [] }
    requires none { strings.old.items ≡ [] }
    ensures table { OnOk result (table.new.items ≡ spelled (table_fields (export_tables (map export_seen exports.now)))) }
    ensures names { OnOk result (strings.new.items ≡ flat_map (λ e. e.name) (map export_seen exports.now)) }
{
    put_fields(table, &[Field::Word(slot_of(exports))])?;
    put_keys(table, exports)?;
    put_exports(table, strings, exports)?;
    Ok(())
}

/// Returns the word of the one slot of some exports.
fn slot_of(exports: &[ExportView<'_>]) -> u32
    requires { length exports.now < 2 ^ 14 }
    ensures { result ≡ slot_word (length exports.now) 0 }
{
    exports.len() as u32 * (1 << SLOT_COUNT_SHIFT)
}

/// Returns the loader section of some exports with their names and their table.
fn join_exports(
    alloc: Global,
    exports: &[ExportView<'_>],
    strings: &[u8],
    table: &[u8],
) -> Result<Vec<u8>, AllocError>
    requires fit { NumbersFit (map export_seen exports.now) }
    requires names { strings.now ≡ flat_map (λ e. e.name) (map export_seen exports.now) }
    requires table { table.now ≡ spelled (table_fields (export_tables (map export_seen exports.now))) }
    ensures { IfOk result (λ loader. loader.items ≡ exports_loader (map export_seen exports.now)) }
{
    let from = table_place(exports, strings);
    let mut out = Vec::with_capacity(alloc, from + table.len())?;
    put_fields(&mut out, &header_fields(exports, from as u32))?;
    out.extend_from_slice(strings)?;
    out.resize(from, 0)?;
    out.extend_from_slice(table)?;
    Ok(out)
}

/// Returns where the table of some exports begins, after their names.
#[tactic(auto, using(crate::proofs::NumberedLemmas::names_length), unfolding(crate::specs::ExportContainers::export_tables))]
fn table_place(exports: &[ExportView<'_>], strings: &[u8]) -> usize
    requires fit { NumbersFit (map export_seen exports.now) }
    requires names { strings.now ≡ flat_map (λ e. e.name) (map export_seen exports.now) }
    ensures place { result ≡ exports_from (export_tables (map export_seen exports.now)) }
    ensures after { result ≡ next_multiple_of (56 + length strings.now) 4 }
    ensures small { result ≤ 2 ^ 24 + 64 }
{
    (LOADER_HEADER_SIZE + strings.len()).next_multiple_of(EXPORT_TABLE_ALIGNMENT)
}

/// Appends the keys of some exports.
fn put_keys(out: &mut Vec<u8>, exports: &[ExportView<'_>]) -> Result<(), AllocError>
    requires { NumbersFit (map export_seen exports.now) }
    ensures { OnOk result (out.new.items ≡ out.old.items ++ spelled (map Word (map (λ e. hash_word e.name) (map export_seen exports.now)))) }
{
    for export in exports {
        put_fields(out, &[Field::Word(hash_word(export.name))])?;
    }
    Ok(())
}

/// Appends some absolute exports, and their names to the strings.
fn put_exports(
    out: &mut Vec<u8>,
    strings: &mut Vec<u8>,
    exports: &[ExportView<'_>],
) -> Result<(), AllocError>
    requires fit { NumbersFit (map export_seen exports.now) }
    requires room { length strings.old.items + sum_by (λ e. length e.name) (map export_seen exports.now) < 2 ^ 24 }
    ensures entries { OnOk result (out.new.items ≡ out.old.items ++ spelled (export_fields (length strings.old.items) (map export_seen exports.now))) }
    ensures names { OnOk result (strings.new.items ≡ strings.old.items ++ flat_map (λ e. e.name) (map export_seen exports.now)) }
{
    for export in exports {
        put_export(out, strings, *export)?;
    }
    Ok(())
}

/// Appends an absolute export, and its name to the strings.
fn put_export(
    out: &mut Vec<u8>,
    strings: &mut Vec<u8>,
    export: ExportView<'_>,
) -> Result<(), AllocError>
    requires fit { NumberFits (export_seen export) }
    requires room { length strings.old.items < 2 ^ 24 }
    ensures entry { OnOk result (out.new.items ≡ out.old.items ++ spelled (export_entry (length strings.old.items) (export_seen export.entry))) }
    ensures name { OnOk result (strings.new.items ≡ strings.old.items ++ export.entry.name.now) }
{
    put_fields(out, &export_entry(export, strings.len() as u32))?;
    strings.extend_from_slice(export.name)?;
    Ok(())
}

/// Returns the fields of the loader header of some exports, whose table begins at `table_from`.
#[tactic(auto, unfolding(crate::specs::Loaders::header_fields, crate::specs::ExportContainers::export_tables))]
fn header_fields(exports: &[ExportView<'_>], table_from: u32) -> [Field; 14]
    requires count { length exports.now < 2 ^ 14 }
    requires table { table_from ≡ exports_from (export_tables (map export_seen exports.now)) }
    ensures { result ≡ header_fields (export_tables (map export_seen exports.now)) }
{
    let none = Field::Word(NO_SECTION.cast_unsigned());
    let zero = Field::Word(0);
    let strings_from = Field::Word(LOADER_HEADER_SIZE as u32);
    [
        none,
        zero,
        none,
        zero,
        none,
        zero,
        zero,
        zero,
        zero,
        strings_from,
        strings_from,
        Field::Word(table_from),
        zero,
        Field::Word(exports.len() as u32),
    ]
}
