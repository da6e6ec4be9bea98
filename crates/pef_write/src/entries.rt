ghost use Rattle.std.specs.Prelude.{◌≡◌, ◌+◌, ◌++◌, ◌<◌, ◌≤◌, ◌^◌, [], ◌∷◌, FitsSigned, OnOk, length, nat_lt};
ghost use Rattle.std.specs.Int.{w16};
ghost use Rattle.std.specs.List.{All, count_by, flat_map};
ghost use Rattle.pef_format.specs.Exports.{export_seen};
ghost use Rattle.pef_format.specs.Symbols.{import_seen};
ghost use Rattle.pef_script.specs.Script.{import_names, library_names};
ghost use Rattle.pef_script.specs.Views.{library_in};
ghost use Rattle.pef_script.specs.WellFormed.{ScriptHolds};
ghost use Rattle.pef_write.specs.Fields.{spelled};
ghost use Rattle.pef_write.specs.Linked.{exports_at, libraries_from, library_with};
ghost use Rattle.pef_write.specs.Loaders.{class_byte, export_entry, export_fields, import_entry, import_fields, library_entry, library_fields, zero_ended};

use crate::fault::LinkFault;
use crate::field::{Field, put_fields};
use pef_format::layout::{CLASS_SHIFT, WEAK_IMPORT};
use pef_format::{ExportView, ImportView};
use pef_script::{LibraryView, Script};

/// The byte after the name of a library or an import.
const NAME_END: u8 = 0;

/// The factor of a class byte in a word of class and name offset.
const CLASS_UNIT: u32 = 1 << CLASS_SHIFT;

/// Appends the entries of the libraries of `script`, and their names to the strings.
pub(crate) fn put_libraries(
    out: &mut Vec<u8>,
    strings: &mut Vec<u8>,
    script: &Script<'_>,
) -> Result<(), LinkFault>
    requires holds { ScriptHolds script.now }
    requires strings { length strings.old.items + length (zero_ended (library_names script.now)) < 2 ^ 32 }
    ensures entries { OnOk result (out.new.items ≡ out.old.items ++ spelled (library_fields (length strings.old.items) (libraries_from script.now.imports 0 script.now.libraries))) }
    ensures names { OnOk result (strings.new.items ≡ strings.old.items ++ zero_ended (library_names script.now)) }
{
    let mut k = 0;
    let mut first = 0;
    'libraries: while let Some(library) = script.library(k) {
        let end = imports_end(script, k, first);
        let at = strings.len() as u32;
        let entry = library_entry(library, at, first as u32, (end - first) as u32);
        put_entry(out, strings, &entry, library.name)?;
        k += 1;
        first = end;
    }
    Ok(())
}

/// Returns the end of the imports of library `l`, where those of later libraries begin. Those of
/// earlier ones end at `from`.
fn imports_end(script: &Script<'_>, l: usize, from: usize) -> usize
    requires holds { ScriptHolds script.now }
    requires from { from ≤ count_by (λ i. nat_lt i.library (l + 1)) script.now.imports }
    ensures { result ≡ count_by (λ i. nat_lt i.library (l + 1)) script.now.imports }
{
    let mut end = from;
    'imports: while let Some(import) = script.import(end) {
        if import.library > l {
            break;
        }
        end += 1;
    }
    end
}

/// Appends the entries of the imports of `script`, and their names to the strings.
pub(crate) fn put_imports(
    out: &mut Vec<u8>,
    strings: &mut Vec<u8>,
    script: &Script<'_>,
) -> Result<(), LinkFault>
    requires holds { ScriptHolds script.now }
    requires strings { length strings.old.items + length (zero_ended (import_names script.now)) < 2 ^ 24 }
    ensures entries { OnOk result (out.new.items ≡ out.old.items ++ spelled (import_fields (length strings.old.items) script.now.imports)) }
    ensures names { OnOk result (strings.new.items ≡ strings.old.items ++ zero_ended (import_names script.now)) }
{
    let mut j = 0;
    'imports: while let Some(import) = script.import(j) {
        let entry = import_entry(import, strings.len() as u32);
        put_entry(out, strings, &entry, import.name)?;
        j += 1;
    }
    Ok(())
}

/// Appends an entry, and its name and the byte that ends it to the strings.
fn put_entry(
    out: &mut Vec<u8>,
    strings: &mut Vec<u8>,
    fields: &[Field],
    name: &[u8],
) -> Result<(), LinkFault>
    ensures entry { OnOk result (out.new.items ≡ out.old.items ++ spelled fields.now) }
    ensures name { OnOk result (strings.new.items ≡ strings.old.items ++ (name.now ++ 0 ∷ [])) }
{
    put_fields(out, fields)?;
    strings.extend_from_slice(name)?;
    strings.push(NAME_END)?;
    Ok(())
}

/// Appends the entries of the exports of `script` at some places, in the order of the places, and their
/// names to the strings.
pub(crate) fn put_exports(
    out: &mut Vec<u8>,
    strings: &mut Vec<u8>,
    script: &Script<'_>,
    order: &[u32],
) -> Result<(), LinkFault>
    requires holds { ScriptHolds script.now }
    requires order { All (λ e. e < length script.now.exports) order.now }
    requires strings { length strings.old.items + length (flat_map (λ e. e.name) (exports_at script.now.exports order.now)) < 2 ^ 24 }
    ensures entries { OnOk result (out.new.items ≡ out.old.items ++ spelled (export_fields (length strings.old.items) (exports_at script.now.exports order.now))) }
    ensures names { OnOk result (strings.new.items ≡ strings.old.items ++ flat_map (λ e. e.name) (exports_at script.now.exports order.now)) }
{
    for place in order {
        let Some(export) = script.export(*place as usize) else {
            unreachable!()
        };
        put_fields(out, &export_entry(export, strings.len() as u32))?;
        strings.extend_from_slice(export.name)?;
    }
    Ok(())
}

/// Returns the fields of a library whose name is at `at`, with `count` imports from number `first` on
/// (PEFImportedLibrary).
fn library_entry(library: LibraryView<'_>, at: u32, first: u32, count: u32) -> [Field; 8]
    ensures { result ≡ library_entry at (library_with count first (library_in library.entry)) }
{
    [
        Field::Word(at),
        Field::Word(library.old_imp),
        Field::Word(library.current),
        Field::Word(count),
        Field::Word(first),
        Field::Byte(library.options.code()),
        Field::Byte(0),
        Field::Half(0),
    ]
}

/// Returns the fields of an import whose name is at `at` (PEFImportedSymbol).
fn import_entry(import: ImportView<'_>, at: u32) -> [Field; 1]
    requires class { import.fields.class < 16 }
    requires at { at < 2 ^ 24 }
    ensures { result ≡ import_entry at (import_seen import.entry) }
{
    let class = class_byte(import.fields.weak, import.fields.class);
    [Field::Word(u32::from(class) * CLASS_UNIT + at)]
}

/// Returns the class byte of an import.
fn class_byte(weak: bool, class: u8) -> u8
    requires { class < 16 }
    ensures { result ≡ class_byte weak class }
{
    if weak { class + WEAK_IMPORT } else { class }
}

/// Returns the fields of an export whose name is at `at` (PEFExportedSymbol).
pub(crate) fn export_entry(export: ExportView<'_>, at: u32) -> [Field; 3]
    requires class { export.fields.class < 16 }
    requires section { FitsSigned w16 export.fields.section }
    requires at { at < 2 ^ 24 }
    ensures { result ≡ export_entry at (export_seen export.entry) }
{
    [
        Field::Word(u32::from(export.fields.class) * CLASS_UNIT + at),
        Field::Word(export.fields.value),
        Field::Half((export.fields.section as i16).cast_unsigned()),
    ]
}
