ghost use Rattle.std.specs.Prelude.{◌≡◌, ◌+◌, ◌*◌, ◌++◌, ◌<◌, ◌≤◌, ◌^◌, ◌==◌, ◌||◌, IfOk, MatchResult, None, OnOk, false, length, map, nat_lt, not};
ghost use Rattle.std.specs.List.{list_any, sum_by};
ghost use Rattle.byteorder.specs.Endian.{big_bytes};
ghost use Rattle.pef_format.specs.Exports.{export_seen};
ghost use Rattle.pef_format.specs.Symbols.{class_code};
ghost use Rattle.pef_lines.specs.Words.{is_word};
ghost use Rattle.pef_loader.specs.Views.{loaded};
ghost use Rattle.pef_reloc.specs.declared.fixup.Base.TheVariants.{Section as SectionBase};
ghost use Rattle.pef_words.specs.Refusals.{first_met};
ghost use Rattle.cfm_stubs.specs.Kept.Places.{IsExportAt, exports_in, next_places};
ghost use Rattle.cfm_stubs.specs.MemoryStubs.{IsMemoryStub, code_image, code_section, data_section, data_total, is_unspellable, memory_exports, memory_refusal, memory_script, memory_tests, others, script_class, vector_fixups, vector_image, vectors, zeros_from};
ghost use Rattle.cfm_stubs.specs.Stubs.{FailsAs};
ghost use Rattle.cfm_stubs.specs.Symbols.{HaveOwnNames};

use crate::fault::StubFault;
use crate::made::Stub;
use crate::symbols::{Symbols, library_symbols};
use crate::versions::library_versions;
use byteorder::{BigEndian, ByteOrder};
use indexmap::IndexMap;
use pef_format::layout::{CODE_SYMBOL, GLUE_SYMBOL, TOC_SYMBOL, TRANSITION_VECTOR_SYMBOL};
use pef_format::{ExportView, SectionKind, Share, SymbolClass};
use pef_lines::last_word;
use pef_loader::Loader;
use pef_names::NameKey;
use pef_reloc::{Base, Fixup};
use pef_script::{ExportData, Parts, Script, Section, SectionHeader, Versions};
use pef_write::link_container;
use std::alloc::{AllocError, Global};

/// The return of a routine: `blr`.
const BLR: u32 = 0x4E80_0020;

/// How many bytes the code of a routine has, and a vector.
const ROUTINE_SIZE: u64 = 8;

/// The zeros begin at a multiple of this.
const ZEROS_ALIGNMENT: u64 = 16;

/// The alignment of the sections, as an exponent of two.
const ALIGNMENT: u8 = 4;

/// The sections of a stub.
const CODE: u32 = 0;

const DATA: u32 = 1;

/// A container has fewer exports.
const SYMBOLS_LIMIT: usize = 1 << 14;

/// The most bytes of a name in a script.
const LONGEST_NAME: usize = 255;

/// The most bytes of all names of a script, counting one more for each.
const MOST_NAME_BYTES: usize = 1 << 23;

/// The most bytes of a section of a script.
const MOST_BYTES: u64 = 1 << 24;

/// Returns the stub whose symbols are memory.
pub(crate) fn memory_stub<'a>(
    alloc: Global,
    loaders: &[Loader<'a>],
    library: &'a [u8],
    word: u32,
    size: u32,
) -> Result<Stub<'a>, StubFault>
    ensures { MatchResult result (λ made. IsMemoryStub (map loaded loaders.entry.now) word size library.entry.now made × (memory_refusal (map loaded loaders.entry.now) size library.entry.now ≡ None)) (λ fault. FailsAs fault (memory_refusal (map loaded loaders.entry.now) size library.entry.now)) }
{
    let symbols = library_symbols(alloc, loaders, library)?;
    match fault_of(&symbols, size) {
        Some(fault) => return Err(fault),
        None => {}
    }
    let versions = library_versions(loaders, library);
    let script = memory_script(alloc, &symbols, versions, word, size)?;
    let container = link_container(alloc, &script)?;
    Ok(Stub {
        name: library,
        exports: exports_of(alloc, &script)?,
        bytes: Vec::from_slice(alloc, container.bytes())?,
    })
}

/// Returns why no script can have these symbols, or `None` if one can.
#[tactic(auto, unfolding(crate::specs::MemoryStubs::memory_tests))]
fn fault_of(symbols: &Symbols<'_>, size: u32) -> Option<StubFault>
    ensures { result ≡ first_met (memory_tests size symbols.now) }
{
    if symbols.len() >= SYMBOLS_LIMIT {
        return Some(StubFault::TooManySymbols);
    }
    if has_unspellable_name(symbols) {
        return Some(StubFault::UnspellableName);
    }
    if has_many_bytes(symbols) {
        return Some(StubFault::TooManyNameBytes);
    }
    if data_total(symbols, size) > MOST_BYTES {
        return Some(StubFault::TooManyBytes);
    }
    None
}

/// Returns whether a name is none that a script can have.
fn has_unspellable_name(symbols: &Symbols<'_>) -> bool
    ensures { result ≡ list_any is_unspellable symbols.now }
{
    for k in 0..symbols.len() {
        let (name, _) = symbols.at(k);
        if is_unspellable(name) {
            return true;
        }
    }
    false
}

/// Returns whether no script can have a name.
fn is_unspellable(name: &[u8]) -> bool
    ensures { result ≡ (not (is_word name.now) || nat_lt 255 (length name.now)) }
{
    last_word(name).is_none() || name.len() > LONGEST_NAME
}

/// Returns whether the names are too long together for a script.
fn has_many_bytes(symbols: &Symbols<'_>) -> bool
    ensures { result ≡ nat_lt (2 ^ 23) (sum_by (λ s. length s.name + 1) symbols.now) }
{
    let mut left = MOST_NAME_BYTES;
    for k in 0..symbols.len() {
        let (name, _) = symbols.at(k);
        if name.len() >= left {
            return true;
        }
        left -= name.len() + 1;
    }
    false
}

/// Returns how many of the symbols are vectors.
fn count_vectors(symbols: &Symbols<'_>) -> u64
    requires { length symbols.now < 2 ^ 14 }
    ensures { result ≡ vectors symbols.now }
{
    let mut count = 0;
    for k in 0..symbols.len() {
        let (_, class) = symbols.at(k);
        if is_vector(class) {
            count += 1;
        }
    }
    count
}

/// Returns how many of the symbols have zeros.
fn count_others(symbols: &Symbols<'_>) -> u64
    requires { length symbols.now < 2 ^ 14 }
    ensures { result ≡ others symbols.now }
{
    let mut count = 0;
    for k in 0..symbols.len() {
        let (_, class) = symbols.at(k);
        if !is_routine(class) {
            count += 1;
        }
    }
    count
}

/// Returns where the zeros begin.
fn zeros_from(symbols: &Symbols<'_>) -> u64
    requires { length symbols.now < 2 ^ 14 }
    ensures { result ≡ zeros_from symbols.now }
{
    (ROUTINE_SIZE * count_vectors(symbols)).next_multiple_of(ZEROS_ALIGNMENT)
}

/// Returns how many bytes the vectors and the zeros have.
fn data_total(symbols: &Symbols<'_>, size: u32) -> u64
    requires { length symbols.now < 2 ^ 14 }
    ensures { result ≡ data_total size symbols.now }
{
    zeros_from(symbols) + u64::from(size) * count_others(symbols)
}

/// Returns whether a class is that of a transition vector.
fn is_vector(class: u8) -> bool
    ensures { result ≡ (class == 2) }
{
    class == TRANSITION_VECTOR_SYMBOL
}

/// Returns whether symbols of a class have code.
fn is_routine(class: u8) -> bool
    ensures { result ≡ (class == 0 || class == 2 || class == 4) }
{
    matches!(class, CODE_SYMBOL | TRANSITION_VECTOR_SYMBOL | GLUE_SYMBOL)
}

/// Returns the script of a stub with some symbols, which have names of their own.
#[tactic(auto, unfolding(crate::specs::MemoryStubs::memory_script))]
fn memory_script<'a>(
    alloc: Global,
    symbols: &Symbols<'a>,
    versions: Versions,
    word: u32,
    size: u32,
) -> Result<Script<'a>, AllocError>
    requires fit { first_met (memory_tests size symbols.now) ≡ None }
    requires own { HaveOwnNames symbols.now }
    ensures { IfOk result (λ script. script ≡ memory_script versions word size symbols.entry.now) }
{
    let mut sections = Vec::with_capacity(alloc, 2)?;
    sections.push(code_section(alloc, symbols, word)?)?;
    sections.push(data_section(alloc, symbols, size)?)?;
    Ok(Script::new(Parts {
        versions,
        libraries: IndexMap::new(alloc),
        imports: IndexMap::new(alloc),
        sections,
        exports: exports(alloc, symbols, size)?,
        main: None,
        init: None,
        term: None,
    }))
}

/// Returns the section of the code of routines.
fn code_section<'a>(
    alloc: Global,
    symbols: &Symbols<'_>,
    word: u32,
) -> Result<Section<'a>, AllocError>
    requires { length symbols.now < 2 ^ 14 }
    ensures { IfOk result (λ section. section ≡ code_section word symbols.now) }
{
    let image = code_image(alloc, symbols, word)?;
    let header = SectionHeader {
        name: b"c",
        kind: SectionKind::Code,
        share: Share::Global,
        align: ALIGNMENT,
        total: image.len() as u32,
    };
    Ok(Section {
        header,
        image,
        fixups: Vec::new(alloc),
    })
}

/// Returns the section of vectors and zeros.
fn data_section<'a>(
    alloc: Global,
    symbols: &Symbols<'_>,
    size: u32,
) -> Result<Section<'a>, AllocError>
    requires few { length symbols.now < 2 ^ 14 }
    requires fit { data_total size symbols.now ≤ 2 ^ 24 }
    ensures { IfOk result (λ section. section ≡ data_section size symbols.now) }
{
    let header = SectionHeader {
        name: b"d",
        kind: SectionKind::UnpackedData,
        share: Share::Process,
        align: ALIGNMENT,
        total: data_total(symbols, size) as u32,
    };
    Ok(Section {
        header,
        image: vector_image(alloc, symbols)?,
        fixups: vector_fixups(alloc, symbols)?,
    })
}

/// Returns the code of routines.
fn code_image(alloc: Global, symbols: &Symbols<'_>, word: u32) -> Result<Vec<u8>, AllocError>
    ensures { IfOk result (λ image. image.items ≡ code_image word symbols.now) }
{
    let mut image = Vec::new(alloc);
    for k in 0..symbols.len() {
        let (_, class) = symbols.at(k);
        if is_routine(class) {
            put_words(&mut image, word, BLR)?;
        }
    }
    Ok(image)
}

/// Returns the vectors.
fn vector_image(alloc: Global, symbols: &Symbols<'_>) -> Result<Vec<u8>, AllocError>
    requires { length symbols.now < 2 ^ 14 }
    ensures { IfOk result (λ image. image.items ≡ vector_image 0 symbols.now) }
{
    let mut image = Vec::new(alloc);
    let mut code = 0;
    for k in 0..symbols.len() {
        let (_, class) = symbols.at(k);
        if is_vector(class) {
            put_words(&mut image, code, 0)?;
        }
        if is_routine(class) {
            code += ROUTINE_SIZE as u32;
        }
    }
    Ok(image)
}

/// Appends two words, each with the highest byte first.
fn put_words(out: &mut Vec<u8>, first: u32, second: u32) -> Result<(), AllocError>
    ensures { OnOk result (out.new.items ≡ out.old.items ++ (big_bytes 4 first ++ big_bytes 4 second)) }
{
    let mut bytes = [0; 8];
    BigEndian::write_u32(&mut bytes[..4], first);
    BigEndian::write_u32(&mut bytes[4..], second);
    out.extend_from_slice(&bytes)
}

/// Returns the fixups of vectors.
fn vector_fixups(alloc: Global, symbols: &Symbols<'_>) -> Result<Vec<Fixup>, AllocError>
    requires { length symbols.now < 2 ^ 14 }
    ensures { IfOk result (λ fixups. fixups.items ≡ vector_fixups 0 symbols.now) }
{
    let mut fixups = Vec::new(alloc);
    let mut at = 0;
    for k in 0..symbols.len() {
        let (_, class) = symbols.at(k);
        if is_vector(class) {
            fixups.push(fixup(at, CODE))?;
            fixups.push(fixup(at + 4, DATA))?;
            at += ROUTINE_SIZE as u32;
        }
    }
    Ok(fixups)
}

/// Returns the fixup that adds the address of a section to the word at an offset.
fn fixup(offset: u32, section: u32) -> Fixup
    ensures { result ≡ record { offset = offset; base = SectionBase section } }
{
    Fixup {
        offset,
        base: Base::Section(section),
    }
}

/// Where the next routine, the next vector and the next zeros are.
#[derive(Clone, Copy)]
struct Places {
    code: u32,
    vector: u32,
    zeros: u32,
}

/// Returns the exports of symbols.
fn exports<'a>(
    alloc: Global,
    symbols: &Symbols<'a>,
    size: u32,
) -> Result<IndexMap<NameKey<'a>, ExportData>, AllocError>
    requires few { length symbols.now < 2 ^ 14 }
    requires fit { data_total size symbols.now ≤ 2 ^ 24 }
    requires own { HaveOwnNames symbols.now }
    ensures { IfOk result (λ exports. exports_in exports.entries ≡ memory_exports size 0 0 (zeros_from symbols.now) symbols.now) }
{
    let mut exports = IndexMap::new(alloc);
    let mut places = Places {
        code: 0,
        vector: 0,
        zeros: zeros_from(symbols) as u32,
    };
    for k in 0..symbols.len() {
        let (name, class) = symbols.at(k);
        let export = export_at(class, places);
        exports.insert(NameKey { bytes: name }, export)?;
        places = places_after(class, places, size);
    }
    Ok(exports)
}

/// Returns the export of a symbol of a class at the next place for it.
fn export_at(class: u8, places: Places) -> ExportData
    ensures { IsExportAt class places result }
{
    let class_named = script_class(class);
    if is_vector(class) {
        return ExportData {
            class: class_named,
            section: DATA.cast_signed(),
            value: places.vector,
        };
    }
    if is_routine(class) {
        return ExportData {
            class: class_named,
            section: CODE.cast_signed(),
            value: places.code,
        };
    }
    ExportData {
        class: class_named,
        section: DATA.cast_signed(),
        value: places.zeros,
    }
}

/// Returns where the next symbols are, after one of a class.
fn places_after(class: u8, places: Places, size: u32) -> Places
    requires code { places.code < 2 ^ 31 }
    requires vector { places.vector < 2 ^ 31 }
    requires zeros { (class == 0 || class == 2 || class == 4) ≡ false → places.zeros + size < 2 ^ 32 }
    ensures { result ≡ next_places size class places }
{
    let Places {
        code,
        vector,
        zeros,
    } = places;
    if is_vector(class) {
        return Places {
            code: code + ROUTINE_SIZE as u32,
            vector: vector + ROUTINE_SIZE as u32,
            zeros,
        };
    }
    if is_routine(class) {
        return Places {
            code: code + ROUTINE_SIZE as u32,
            vector,
            zeros,
        };
    }
    Places {
        code,
        vector,
        zeros: zeros + size,
    }
}

/// Returns the class that a script has for a code: of a code without a name, that of data.
fn script_class(class: u8) -> SymbolClass
    ensures { class_code result ≡ script_class class }
{
    match class {
        CODE_SYMBOL => SymbolClass::Code,
        TRANSITION_VECTOR_SYMBOL => SymbolClass::TransitionVector,
        TOC_SYMBOL => SymbolClass::Toc,
        GLUE_SYMBOL => SymbolClass::Glue,
        _ => SymbolClass::Data,
    }
}

/// Returns the exports of a script.
fn exports_of<'a>(alloc: Global, script: &Script<'a>) -> Result<Vec<ExportView<'a>>, AllocError>
    ensures { IfOk result (λ exports. map export_seen exports.items ≡ script.now.exports) }
{
    let mut exports = Vec::with_capacity(alloc, script.exports())?;
    for e in 0..script.exports() {
        let Some(export) = script.export(e) else {
            unreachable!()
        };
        exports.push(export)?;
    }
    Ok(exports)
}
