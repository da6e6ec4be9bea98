ghost use Rattle.std.specs.Prelude.{◌≡◌, ◌+◌, ◌*◌, ◌<◌, ◌^◌, option_map};
ghost use Rattle.std.specs.Result.{result_err};
ghost use Rattle.std.specs.Option.{option_copied};
ghost use Rattle.pef_loader.specs.Reloc.{instructions_of, reloc_at, reloc_refusal, reloc_tests};

use crate::fault::{LoaderFault, refused_by};
use crate::header::LoaderTables;
use pef_format::layout::{FIRST_RELOC_OFFSET_AT, HALFWORD_SIZE, RELOC_COUNT_AT, SECTION_INDEX_AT};
use pef_words::{Cut, first_met};

/// A relocation header, field by field (PEFLoaderRelocationHeader).
#[derive(Clone, Copy)]
pub(crate) struct RelocEntry {
    pub section: u16,
    /// The number of halfwords of instructions.
    pub count: u32,
    /// Where they begin, in bytes from the first of all instructions.
    pub first: u32,
}

/// Reads relocation header `k`, or returns `None` if it passes the end.
#[tactic(auto, unfolding(crate::specs::Reloc::reloc_at))]
pub(crate) fn read_reloc(tables: LoaderTables<'_>, k: usize) -> Option<RelocEntry>
    requires { k < 2 ^ 32 }
    ensures { result ≡ reloc_at tables.entry.cut.bytes.now tables.entry.header k }
{
    let at = tables.header.reloc(k);
    Some(RelocEntry {
        section: tables.cut.u16_at(at + SECTION_INDEX_AT)?,
        count: tables.cut.u32_at(at + RELOC_COUNT_AT)?,
        first: tables.cut.u32_at(at + FIRST_RELOC_OFFSET_AT)?,
    })
}

/// Reports the first rule that relocation header `k` breaks.
pub(crate) fn test_reloc(tables: LoaderTables<'_>, sections: u16, k: u32) -> Result<(), LoaderFault>
    ensures { result_err result ≡ reloc_refusal tables.entry.cut.bytes.now tables.entry.header sections k }
{
    match reloc_table(tables, sections, k) {
        Some(table) => refused_by(first_met(table)),
        None => Err(LoaderFault::BadTableOffset),
    }
}

/// Returns the tests of relocation header `k`, in order, or `None` if it passes the end.
#[tactic(auto, unfolding(crate::specs::Reloc::reloc_tests, crate::specs::Reloc::instructions_of, pef_words::specs::Bytes::part_of))]
pub(crate) fn reloc_table(
    tables: LoaderTables<'_>,
    sections: u16,
    k: u32,
) -> Option<[(bool, LoaderFault); 2]>
    ensures { result ≡ option_map (reloc_tests tables.entry.cut.bytes.now tables.entry.header sections k) (reloc_at tables.entry.cut.bytes.now tables.entry.header k) }
{
    let reloc = read_reloc(tables, k as usize)?;
    Some([
        (
            reloc.section >= sections,
            LoaderFault::BadRelocSection { header: k },
        ),
        (
            instructions(tables, reloc).is_none(),
            LoaderFault::RelocOutside { header: k },
        ),
    ])
}

/// Returns the instructions of a relocation header, or `None` if they pass the end.
#[tactic(auto, unfolding(crate::specs::Reloc::instructions_of))]
pub(crate) fn instructions<'a>(tables: LoaderTables<'a>, reloc: RelocEntry) -> Option<&'a [u8]>
    ensures { option_copied result ≡ instructions_of tables.entry.cut.bytes.now tables.entry.header reloc }
{
    let from = tables.header.reloc_instr_offset as usize + reloc.first as usize;
    let instructions = tables.cut.part(from, HALFWORD_SIZE * reloc.count as usize)?;
    Some(instructions.bytes())
}
