ghost use Rattle.std.specs.Prelude.{◌≡◌, ◌≤◌, ◌++◌, OnOk, Some};
ghost use Rattle.std.specs.Option.{option_to_list};
ghost use Rattle.pef_words.specs.Findings.{all_met};
ghost use Rattle.pef_views.specs.Partial.{sections_allowed};
ghost use Rattle.pef_views.specs.PartialViews.{partly};
ghost use Rattle.pef_loader.specs.PartialViews.{export_seen, partly_loaded};
ghost use Rattle.pef_inspect.specs.Oddities.{Adds, HasIrregularExports, IrregularContainer, behind_notes, entry_notes, export_notes, header_notes, image_size, instantiable_at, instantiable_sections, irregular_note, library_notes, is_past, is_past_entry, is_name_outside, is_past_value, is_unknown_kind, is_unknown_share, loader_notes, name_begins, note_at, notes_in, notes_of, notes_within, rows_notes, section_notes, word_inside, word_note, word_outside};
ghost use Rattle.pef_inspect.specs.Runs.{run_seen};
ghost use Rattle.pef_loader.specs.Partial.{partial_of};

use crate::finding::Finding;
use crate::limits::Limits;
use crate::needs::own_bytes;
use crate::note::Note;
use crate::runs::{Run, runs_within};
use crate::sink::{Findings, Rows, take_met, take_rows, take_some};
use crate::text::text_signs;
use crate::zeros::find_zero_rows;
use pef_format::layout::{
    CONTAINER_RESERVED_AT, EXPORT_HASH_OFFSET_AT, EXPORT_VALUE_AT, INSTANTIATED_SECTION_COUNT_AT,
    LIBRARY_OLD_IMP_VERSION_AT, LIBRARY_RESERVED_AT, MAIN_OFFSET_AT, NAME_OFFSET_AT,
    OLD_DEF_VERSION_AT, OLD_IMP_VERSION_AT, RELOCATION_RESERVED_AT, SECTION_KIND_AT,
    SECTION_RESERVED_AT, SHARE_KIND_AT,
};
use pef_format::{ExportValue, LibraryFields, Part, SectionKind, Share};
use pef_loader::{PartialExport, PartialLoader, partial_place};
use pef_reloc::{RelocFault, Sizes, verify};
use pef_views::{PartialContainer, SectionHeader};

/// Hands the notes on some bytes as a container to a sink, except those that need memory: of the header, of each section, and
/// of the loader section.
///
/// # Errors
///
/// Only those of the sink.
#[tactic(auto, unfolding(crate::specs::Oddities::notes_of))]
pub fn find_notes<S: Findings>(bytes: &[u8], sink: &mut S) -> Result<(), S::Error>
    ensures { OnOk result (Adds (S.taken sink.old) (S.taken sink.new) (notes_of bytes.now) (HasIrregularExports bytes.now)) }
{
    find_notes_within(bytes, Limits::for_container(), sink)
}

/// Hands the notes on some bytes to a sink as [`find_notes`] does, within any limits.
///
/// # Errors
///
/// Only those of the sink.
#[tactic(auto, unfolding(crate::specs::Oddities::notes_within, crate::specs::Oddities::HasIrregularExports))]
pub fn find_notes_within<S: Findings>(
    bytes: &[u8],
    limits: Limits,
    sink: &mut S,
) -> Result<(), S::Error>
    ensures { OnOk result (Adds (S.taken sink.old) (S.taken sink.new) (notes_within limits bytes.now) (HasIrregularExports bytes.now)) }
{
    match PartialContainer::read(bytes) {
        Ok(container) => find_in_container(&container, limits, sink),
        Err(_) => Ok(()),
    }
}

/// Hands the notes on a container to a sink.
fn find_in_container<S: Findings>(
    container: &PartialContainer<'_>,
    limits: Limits,
    sink: &mut S,
) -> Result<(), S::Error>
    ensures { OnOk result (Adds (S.taken sink.old) (S.taken sink.new) (notes_in limits (partly container.now)) (IrregularContainer (partly container.now))) }
{
    take_met(&header_notes(container), sink)?;
    let count = u32::from(container.header().section_count);
    take_rows(&mut Sections { container }, count, sink)?;
    find_behind(container, limits, sink)?;
    Ok(())
}

/// Hands the notes on the loader section to a sink.
fn find_behind<S: Findings>(
    container: &PartialContainer<'_>,
    limits: Limits,
    sink: &mut S,
) -> Result<(), S::Error>
    ensures { OnOk result (Adds (S.taken sink.old) (S.taken sink.new) (behind_notes limits (partly container.now) (partial_of (sections_allowed (partly container.now)) (partly container.now).loader)) (IrregularContainer (partly container.now))) }
{
    match PartialLoader::read(container) {
        Ok(loader) => {
            find_in_rows(container, &loader, limits, sink)?;
            let irregular = loader.is_irregular();
            take_some(irregular_note(container, irregular), sink)?;
            Ok(())
        }
        Err(_) => Ok(()),
    }
}

/// Hands the notes on a loader section with a header to a sink, and those on zero rows, without that on irregular exports.
fn find_in_rows<S: Findings>(
    container: &PartialContainer<'_>,
    loader: &PartialLoader<'_>,
    limits: Limits,
    sink: &mut S,
) -> Result<(), S::Error>
    requires { partly loader.now.container ≡ partly container.now }
    ensures { OnOk result (S.taken sink.new ≡ S.taken sink.old ++ rows_notes limits (partly container.now) (partly_loaded loader.now)) }
{
    find_in_loader(container, loader, limits, sink)?;
    find_zero_rows(container, loader, sink)?;
    Ok(())
}

/// Hands the notes on the rows of a loader section with a header, and on its programs, to a sink.
fn find_in_loader<S: Findings>(
    container: &PartialContainer<'_>,
    loader: &PartialLoader<'_>,
    limits: Limits,
    sink: &mut S,
) -> Result<(), S::Error>
    ensures { OnOk result (S.taken sink.new ≡ S.taken sink.old ++ loader_notes limits (partly container.now) (partly_loaded loader.now)) }
{
    let libraries = loader.libraries() as u32;
    take_rows(&mut Libraries { container, loader }, libraries, sink)?;
    take_met(&entry_notes(container, loader), sink)?;
    let relocations = loader.relocations() as u32;
    take_rows(&mut Relocations { container, loader }, relocations, sink)?;
    let exports = loader.exports() as u32;
    take_rows(&mut Exported { container, loader }, exports, sink)?;
    let programs = runs_within(limits, container, loader).count;
    take_rows(&mut Words { container, loader }, programs, sink)?;
    Ok(())
}

/// Returns a note at a field of a part.
pub(crate) fn note_at(
    container: &PartialContainer<'_>,
    note: Note,
    part: Part,
    row: u32,
    field: usize,
) -> Finding
    ensures { result ≡ note_at (partly container.now) note part row field }
{
    Finding::of_note(note, partial_place(container, part, row, field))
}

/// Returns the note on exports that are irregular, if they are.
fn irregular_note(container: &PartialContainer<'_>, irregular: bool) -> Option<Finding>
    ensures { option_to_list result ≡ irregular_note (partly container.now) irregular }
{
    if irregular {
        Some(note_at(
            container,
            Note::IrregularExports,
            Part::LoaderHeader,
            0,
            EXPORT_HASH_OFFSET_AT,
        ))
    } else {
        None
    }
}

/// Returns the tests of a container header.
fn header_notes(container: &PartialContainer<'_>) -> [(bool, Finding); 5]
    ensures { result ≡ header_notes (partly container.now) }
{
    let header = container.header();
    let count = text_signs(own_bytes(container));
    [
        (
            count > 0,
            note_at(container, Note::TextDamage { count }, Part::Header, 0, 0),
        ),
        (
            header.old_def_version > header.current_version,
            note_at(
                container,
                Note::VersionBelowOldest,
                Part::Header,
                0,
                OLD_DEF_VERSION_AT,
            ),
        ),
        (
            header.old_imp_version > header.current_version,
            note_at(
                container,
                Note::VersionBelowOldest,
                Part::Header,
                0,
                OLD_IMP_VERSION_AT,
            ),
        ),
        (
            container.is_out_of_order(),
            note_at(
                container,
                Note::SectionsOutOfOrder {
                    sections: instantiable_sections(container),
                },
                Part::Header,
                0,
                INSTANTIATED_SECTION_COUNT_AT,
            ),
        ),
        (
            header.reserved != 0,
            note_at(
                container,
                Note::ReservedNotZero,
                Part::Header,
                0,
                CONTAINER_RESERVED_AT,
            ),
        ),
    ]
}

/// Returns how many sections have a kind that may be instantiated.
fn instantiable_sections(container: &PartialContainer<'_>) -> u32
    ensures { result ≡ instantiable_sections (partly container.now) }
{
    let mut count = 0;
    for i in 0..container.header().section_count {
        count += instantiable_at(container, i);
    }
    count
}

/// Returns 1 if section `i` has a kind that may be instantiated, else 0.
fn instantiable_at(container: &PartialContainer<'_>, i: u16) -> u32
    ensures value { result ≡ instantiable_at (partly container.now) i }
    ensures below { result ≤ 1 }
{
    match container.section(usize::from(i)) {
        Some(section) => {
            if section.kind().is_instantiable() {
                1
            } else {
                0
            }
        }
        None => 0,
    }
}

/// The sections of a container.
#[derive(Clone, Copy)]
struct Sections<'c, 'a> {
    container: &'c PartialContainer<'a>,
}

impl<'c, 'a> Rows for Sections<'c, 'a> {
    ghost use Rattle.pef_views.specs.PartialViews.{partly};
    ghost use Rattle.pef_inspect.specs.Oddities.{section_row};

    ghost found = { λ rows i. section_row (partly rows.container.now) i };

    fn take_row<S: Findings>(&mut self, i: u32, sink: &mut S) -> Result<(), S::Error> {
        match self.container.section(i as usize) {
            Some(section) => take_met(&section_notes(self.container, i, section), sink),
            None => Ok(()),
        }
    }
}

/// Returns the tests of section `i`.
fn section_notes(
    container: &PartialContainer<'_>,
    i: u32,
    section: SectionHeader,
) -> [(bool, Finding); 4]
    ensures { result ≡ section_notes (partly container.now) i section }
{
    let instantiated = i < u32::from(container.header().instantiated_section_count);
    [
        (
            is_name_outside(container, section.name_offset),
            note_at(
                container,
                Note::NameOutside,
                Part::Section,
                i,
                NAME_OFFSET_AT,
            ),
        ),
        (
            is_unknown_kind(section.kind()),
            note_at(
                container,
                Note::UnknownKind,
                Part::Section,
                i,
                SECTION_KIND_AT,
            ),
        ),
        (
            instantiated && is_unknown_share(section.share()),
            note_at(
                container,
                Note::UnknownShare,
                Part::Section,
                i,
                SHARE_KIND_AT,
            ),
        ),
        (
            section.reserved != 0,
            note_at(
                container,
                Note::ReservedNotZero,
                Part::Section,
                i,
                SECTION_RESERVED_AT,
            ),
        ),
    ]
}

/// Returns whether a name's offset is neither that of a byte of the container nor -1.
fn is_name_outside(container: &PartialContainer<'_>, offset: i32) -> bool
    ensures { result ≡ is_name_outside (partly container.now) offset }
{
    if offset >= 0 {
        name_begins(container, offset).is_none()
    } else {
        offset != -1
    }
}

/// Returns an offset in the section name table, if it is one in the container.
pub(crate) fn name_begins(container: &PartialContainer<'_>, offset: i32) -> Option<usize>
    ensures { result ≡ name_begins (partly container.now) offset }
{
    let room = container
        .bytes()
        .len()
        .saturating_sub(container.names_start());
    if offset >= 0 && (offset.cast_unsigned() as usize) < room {
        Some(offset.cast_unsigned() as usize)
    } else {
        None
    }
}

/// Returns whether the format names no kind with this code.
fn is_unknown_kind(kind: SectionKind) -> bool
    ensures { result ≡ is_unknown_kind kind }
{
    match kind {
        SectionKind::Other(_) => true,
        SectionKind::Code
        | SectionKind::UnpackedData
        | SectionKind::PatternData
        | SectionKind::Constant
        | SectionKind::Loader
        | SectionKind::Debug
        | SectionKind::ExecutableData
        | SectionKind::Exception
        | SectionKind::Traceback => false,
    }
}

/// Returns whether the format names no share with this code.
fn is_unknown_share(share: Share) -> bool
    ensures { result ≡ is_unknown_share share }
{
    match share {
        Share::Other(_) => true,
        Share::Process | Share::Global | Share::Protected => false,
    }
}

/// The libraries of a loader section.
#[derive(Clone, Copy)]
struct Libraries<'c, 'a> {
    container: &'c PartialContainer<'a>,
    loader: &'c PartialLoader<'a>,
}

impl<'c, 'a> Rows for Libraries<'c, 'a> {
    ghost use Rattle.pef_views.specs.PartialViews.{partly};
    ghost use Rattle.pef_loader.specs.PartialViews.{partly_loaded};
    ghost use Rattle.pef_inspect.specs.Oddities.{library_row};

    ghost found = { λ rows i. library_row (partly rows.container.now) (partly_loaded rows.loader.now) i };

    fn take_row<S: Findings>(&mut self, i: u32, sink: &mut S) -> Result<(), S::Error> {
        match self.loader.library_fields(i as usize) {
            Some((library, reserved)) => {
                // Most libraries have no note, and the places of those that they might have aren't looked for.
                if library.old_imp <= library.current && reserved == 0 {
                    return Ok(());
                }
                take_met(&library_notes(self.container, i, library, reserved), sink)
            }
            None => Ok(()),
        }
    }
}

/// Returns the tests of library `i`: its fields and its reserved bytes.
fn library_notes(
    container: &PartialContainer<'_>,
    i: u32,
    library: LibraryFields,
    reserved: u32,
) -> [(bool, Finding); 2]
    ensures { result ≡ library_notes (partly container.now) i (library, reserved) }
{
    [
        (
            library.old_imp > library.current,
            note_at(
                container,
                Note::VersionBelowOldest,
                Part::Library,
                i,
                LIBRARY_OLD_IMP_VERSION_AT,
            ),
        ),
        (
            reserved != 0,
            note_at(
                container,
                Note::ReservedNotZero,
                Part::Library,
                i,
                LIBRARY_RESERVED_AT,
            ),
        ),
    ]
}

/// Returns the tests of the entry points.
fn entry_notes(container: &PartialContainer<'_>, loader: &PartialLoader<'_>) -> [(bool, Finding); 3]
    ensures { result ≡ entry_notes (partly container.now) (partly_loaded loader.now) }
{
    let header = loader.header();
    [
        (
            is_past_entry(container, header.main_section, header.main_offset),
            note_at(container, Note::EntryOutside, Part::Main, 0, MAIN_OFFSET_AT),
        ),
        (
            is_past_entry(container, header.init_section, header.init_offset),
            note_at(container, Note::EntryOutside, Part::Init, 0, MAIN_OFFSET_AT),
        ),
        (
            is_past_entry(container, header.term_section, header.term_offset),
            note_at(container, Note::EntryOutside, Part::Term, 0, MAIN_OFFSET_AT),
        ),
    ]
}

/// Returns whether an entry point is past the end of its section.
fn is_past_entry(container: &PartialContainer<'_>, section: i32, offset: u32) -> bool
    ensures { result ≡ is_past_entry (partly container.now) section offset }
{
    section >= 0 && is_past(container, section.cast_unsigned(), offset)
}

/// Returns whether an offset is past the end of an instantiated section. The end itself isn't.
fn is_past(container: &PartialContainer<'_>, section: u32, offset: u32) -> bool
    ensures { result ≡ is_past (partly container.now) section offset }
{
    section < u32::from(container.header().instantiated_section_count)
        && match container.section(section as usize) {
            Some(header) => offset > header.total_size,
            None => false,
        }
}

/// The relocation headers of a loader section.
#[derive(Clone, Copy)]
struct Relocations<'c, 'a> {
    container: &'c PartialContainer<'a>,
    loader: &'c PartialLoader<'a>,
}

impl<'c, 'a> Rows for Relocations<'c, 'a> {
    ghost use Rattle.pef_views.specs.PartialViews.{partly};
    ghost use Rattle.pef_loader.specs.PartialViews.{partly_loaded};
    ghost use Rattle.pef_inspect.specs.Oddities.{relocation_row};

    ghost found = { λ rows k. relocation_row (partly rows.container.now) (partly_loaded rows.loader.now) k };

    fn take_row<S: Findings>(&mut self, i: u32, sink: &mut S) -> Result<(), S::Error> {
        match self.loader.relocation_reserved(i as usize) {
            Some(reserved) => {
                let note = note_at(
                    self.container,
                    Note::ReservedNotZero,
                    Part::Relocation,
                    i,
                    RELOCATION_RESERVED_AT,
                );
                take_met(&[(reserved != 0, note)], sink)
            }
            None => Ok(()),
        }
    }
}

/// The exports of a loader section.
#[derive(Clone, Copy)]
struct Exported<'c, 'a> {
    container: &'c PartialContainer<'a>,
    loader: &'c PartialLoader<'a>,
}

impl<'c, 'a> Rows for Exported<'c, 'a> {
    ghost use Rattle.pef_views.specs.PartialViews.{partly};
    ghost use Rattle.pef_loader.specs.PartialViews.{partly_loaded};
    ghost use Rattle.pef_inspect.specs.Oddities.{export_row};

    ghost found = { λ rows i. export_row (partly rows.container.now) (partly_loaded rows.loader.now) i };

    fn take_row<S: Findings>(&mut self, i: u32, sink: &mut S) -> Result<(), S::Error> {
        match self.loader.export(i as usize) {
            Some(export) => take_some(export_note(self.container, i, export), sink),
            None => Ok(()),
        }
    }
}

/// Returns the note on export `i`, if its value is past the end of its section. Its place is looked for only then.
fn export_note(
    container: &PartialContainer<'_>,
    i: u32,
    export: PartialExport<'_>,
) -> Option<Finding>
    ensures { option_to_list result ≡ all_met (export_notes (partly container.now) i (export_seen export.entry)) }
{
    let value = export.fields.value();
    if !is_past_value(container, value) {
        return None;
    }
    Some(note_at(
        container,
        Note::ExportOutside,
        Part::Export,
        i,
        EXPORT_VALUE_AT,
    ))
}

/// Returns whether a value is an offset past the end of its section.
fn is_past_value(container: &PartialContainer<'_>, value: ExportValue) -> bool
    ensures { result ≡ is_past_value (partly container.now) value }
{
    match value {
        ExportValue::InSection { section, offset } => is_past(container, section, offset),
        ExportValue::Absolute(_) | ExportValue::Reexport { .. } => false,
    }
}

/// The programs of a loader section, with the words that they relocate outside an image.
#[derive(Clone, Copy)]
struct Words<'c, 'a> {
    container: &'c PartialContainer<'a>,
    loader: &'c PartialLoader<'a>,
}

impl<'c, 'a> Rows for Words<'c, 'a> {
    ghost use Rattle.std.specs.Option.{option_to_list};
    ghost use Rattle.pef_views.specs.PartialViews.{partly};
    ghost use Rattle.pef_loader.specs.PartialViews.{partly_loaded};
    ghost use Rattle.pef_inspect.specs.Oddities.{word_note};

    ghost found = { λ rows k. option_to_list (word_note (partly rows.container.now) (partly_loaded rows.loader.now) k) };

    fn take_row<S: Findings>(&mut self, i: u32, sink: &mut S) -> Result<(), S::Error> {
        take_some(word_note(self.container, self.loader, i), sink)
    }
}

/// Returns the note on the first word that the program of relocation header `k` relocates outside an image.
fn word_note(
    container: &PartialContainer<'_>,
    loader: &PartialLoader<'_>,
    k: u32,
) -> Option<Finding>
    ensures { result ≡ word_note (partly container.now) (partly_loaded loader.now) k }
{
    let image = image_size(container, loader, k)?;
    let run = Run::at(container, loader, k)?;
    let (at, word) = word_outside(image, run)?;
    Some(note_at(
        container,
        Note::WordOutsideImage { word },
        Part::Program,
        k,
        at,
    ))
}

/// Returns the size of the image that the program of relocation header `k` is for.
fn image_size(container: &PartialContainer<'_>, loader: &PartialLoader<'_>, k: u32) -> Option<u32>
    ensures { result ≡ image_size (partly container.now) (partly_loaded loader.now) k }
{
    let relocation = loader.relocation(k as usize)?;
    let section = container.section(usize::from(relocation.section))?;
    Some(section.unpacked_size)
}

/// Returns the first word that a program relocates outside an image of this size and inside its section: the offset of the
/// instruction in the program, and that of the word in the section.
fn word_outside(image: u32, run: Run<'_>) -> Option<(usize, u64)>
    ensures { result ≡ word_outside image (run_seen run.entry) }
{
    let inner = Sizes {
        memory: image.min(run.sizes.memory),
        ..run.sizes
    };
    match verify(&run.program, inner) {
        Err(fault) => word_inside(run.sizes.memory, fault),
        Ok(()) => None,
    }
}

/// Returns where a word is that is refused, if it ends inside the section's memory.
fn word_inside(memory: u32, fault: RelocFault) -> Option<(usize, u64)>
    ensures { result ≡ word_inside memory (Some fault) }
{
    match fault {
        RelocFault::WordOutside { at, word } => {
            if word <= u64::from(memory) && u64::from(memory) - word >= 4 {
                Some((at, word))
            } else {
                None
            }
        }
        _ => None,
    }
}
