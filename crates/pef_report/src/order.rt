//! The order in which rows are printed, and errors and notes among them.
ghost use Rattle.std.specs.Prelude.{◌≡◌, ◌≤◌, ◌^◌, length};
ghost use Rattle.pef_report.specs.Order.{after, before, count_before, finding_rank, place_after, rank, row_part};

use pef_format::Part;
use pef_inspect::Finding;

/// The distance of the ranks of two kinds, in rows. No kind has more rows.
const ROWS: u128 = 0x1_0000_0000;

/// The greatest number of a row.
const MAX_ROW: usize = 0xFFFF_FFFF;

/// The distance of the ranks of two rows. It is more than any offset in a program.
const PLACES: u128 = 0x2_0000_0000_0000_0000;

/// Returns the rank of a row, which is its place in the order, or that of the instruction at the offset `field` of a program.
#[tactic(auto, unfolding(crate::specs::Order::rank))]
pub(crate) fn rank(part: Part, row: usize, field: usize) -> u128
    ensures { result ≡ rank part row field }
{
    let row = u128::from(row_part(part).code()) * ROWS + row.min(MAX_ROW) as u128;
    row * PLACES + place_after(part, field)
}

/// Returns how far the rank of an instruction is from that of its relocation header, or 0 for a row.
fn place_after(part: Part, field: usize) -> u128
    ensures value { result ≡ place_after part field }
    ensures small { result ≤ 2 ^ 64 }
{
    match part {
        Part::Program => field as u128 + 1,
        Part::Header
        | Part::Section
        | Part::LoaderHeader
        | Part::Library
        | Part::Import
        | Part::Main
        | Part::Init
        | Part::Term
        | Part::Relocation
        | Part::Export
        | Part::PackedData
        | Part::Line => 0,
    }
}

/// Returns the kind of the row that a part is printed with.
fn row_part(part: Part) -> Part
    ensures { result ≡ row_part part }
{
    match part {
        Part::PackedData => Part::Section,
        Part::Program => Part::Relocation,
        Part::Header
        | Part::Section
        | Part::LoaderHeader
        | Part::Library
        | Part::Import
        | Part::Main
        | Part::Init
        | Part::Term
        | Part::Relocation
        | Part::Export
        | Part::Line => part,
    }
}

/// Returns the rank of the row or of the instruction that an error or a note is about.
pub(crate) fn finding_rank(finding: &Finding) -> u128
    ensures { result ≡ finding_rank finding.now }
{
    rank(finding.place.part, finding.place.row, finding.place.field)
}

/// Splits findings that are in order: those about what comes before a rank, and the others.
pub(crate) fn split_before<'f>(
    findings: &'f [Finding],
    rank: u128,
) -> (&'f [Finding], &'f [Finding])
    ensures first { result.0.now ≡ before rank findings.entry.now }
    ensures second { result.1.now ≡ after rank findings.entry.now }
{
    findings.split_at(count_before(findings, rank))
}

/// Returns how many of the first findings are about what comes before a rank.
fn count_before(findings: &[Finding], rank: u128) -> usize
    ensures value { result ≡ count_before rank findings.now }
    ensures below { result ≤ length findings.now }
{
    let mut count = 0;
    for finding in findings {
        if finding_rank(finding) >= rank {
            return count;
        }
        count += 1;
    }
    count
}
