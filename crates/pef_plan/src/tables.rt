ghost use Rattle.std.specs.Prelude.{◌≡◌, ◌+◌, ◌<◌, ◌⊎◌, ◌∷◌, IfOk, drop, length, take, true};
ghost use Rattle.pef_cert.specs.Valid.{RegistersOf};
ghost use Rattle.pef_plan.specs.Kept.Tables.{IndicesOf, TablesOf};
ghost use Rattle.pef_reloc.specs.Deliveries.{index_after, index_past};
ghost use Rattle.pef_reloc.specs.Fixups.{fixups_fit};

use crate::rows::fill_labels;
use crate::runs::{FixupState, RunEnds, SolvedSuffix};
use crate::skips::fill_skips;
use crate::windows::{CloseRows, Looks, Table, zeros};
use pef_reloc::{Base, Fixup};
use std::alloc::{AllocError, Global};

/// Labels and least skips, in one row for each number of fixups left.
#[derive(Drop)]
pub(crate) struct Tables {
    /// Rows are ordered by the class of register C, then by that of D.
    pub(crate) labels: CloseRows,
    /// Rows are ordered by the class of register C.
    pub(crate) skips: Table,
}

/// Returns the tables of all fixups. They are filled from the last fixup to the first.
///
/// The loops over classes are unrolled for up to 8 registers.
pub(crate) fn fill(
    alloc: Global,
    fixups: &[Fixup],
    registers: &[u32],
    looks: Looks<'_>,
) -> Result<Tables, AllocError>
    requires fit { fixups_fit fixups.now ≡ true }
    requires registers { RegistersOf fixups.now registers.now }
    ensures { IfOk result (λ t. TablesOf registers.now t.labels t.skips 0 fixups.now) }
{
    match registers.len() {
        1 => fill_counted::<1>(alloc, fixups, registers, looks),
        2 => fill_counted::<2>(alloc, fixups, registers, looks),
        3 => fill_counted::<3>(alloc, fixups, registers, looks),
        4 => fill_counted::<4>(alloc, fixups, registers, looks),
        5 => fill_counted::<5>(alloc, fixups, registers, looks),
        6 => fill_counted::<6>(alloc, fixups, registers, looks),
        7 => fill_counted::<7>(alloc, fixups, registers, looks),
        8 => fill_counted::<8>(alloc, fixups, registers, looks),
        _ => fill_counted::<0>(alloc, fixups, registers, looks),
    }
}

/// Returns the tables, as [`fill`] does. There are `N` registers, or any number of them if `N` is 0.
fn fill_counted<const N: usize>(
    alloc: Global,
    fixups: &[Fixup],
    registers: &[u32],
    looks: Looks<'_>,
) -> Result<Tables, AllocError>
    requires fit { fixups_fit fixups.now ≡ true }
    requires registers { RegistersOf fixups.now registers.now }
    requires count { (N ≡ 0) ⊎ (length registers.now ≡ N) }
    ensures { IfOk result (λ t. TablesOf registers.now t.labels t.skips 0 fixups.now) }
{
    let registers = counted::<N>(registers);
    let classes = registers.len() + 1;
    let indices = import_indices(alloc, fixups)?;
    let mut labels = CloseRows::with_capacity(alloc, classes * classes, fixups.len() + 1)?;
    let mut skips = Table::new(alloc, classes);
    let mut row = zeros(alloc, classes * classes)?;
    let mut line = zeros(alloc, classes)?;
    labels.push(&row)?;
    skips.push(&line)?;
    let mut ends = RunEnds::new(alloc, classes)?;
    let mut at = fixups.len();
    'fixups: while at > 0 {
        at -= 1;
        let state = state_at(fixups, at, indices[at]);
        let known = SolvedSuffix {
            registers,
            labels: &labels,
            skips: &skips,
            looks,
        };
        ends.pass(known, state)?;
        fill_labels(known, state, &ends, &mut row);
        fill_skips(known, state, &ends, &mut line);
        labels.push(&row)?;
        skips.push(&line)?;
    }
    Ok(Tables { labels, skips })
}

/// Returns the same registers. The compiler knows then that there are `N`, unless `N` is 0.
#[inline(always)]
fn counted<const N: usize>(registers: &[u32]) -> &[u32]
    requires { (N ≡ 0) ⊎ (length registers.now ≡ N) }
    ensures { result.now ≡ registers.now }
{
    if N == 0 {
        return registers;
    }
    match registers.first_chunk::<N>() {
        Some(all) => all,
        None => unreachable!(),
    }
}

/// Returns the state at the fixup with index `at`. The next import has the index `import_index`.
fn state_at(fixups: &[Fixup], at: usize, import_index: u64) -> FixupState<'_>
    requires at { at < length fixups.now }
    requires import_index { import_index ≡ index_after (take at fixups.now) 0 }
    ensures left { result.left.now ≡ drop at fixups.now }
    ensures parts { drop at fixups.now ≡ result.first ∷ result.others.now }
    ensures others { result.others.now ≡ drop (at + 1) fixups.now }
    ensures import_index { result.import_index ≡ index_after (take at fixups.now) 0 }
{
    let (_, left) = fixups.split_at(at);
    let (_, others) = fixups.split_at(at + 1);
    FixupState {
        left,
        first: fixups[at],
        others,
        import_index,
    }
}

/// Returns the index of the next import at each fixup. It is one more than the index of the last import before
/// the fixup.
fn import_indices(alloc: Global, fixups: &[Fixup]) -> Result<Vec<u64>, AllocError>
    ensures { IfOk result (λ indices. IndicesOf fixups.now indices.items) }
{
    let mut indices = Vec::new(alloc);
    let mut index = 0;
    for at in 0..fixups.len() {
        indices.push(index)?;
        index = index_later(fixups[at].base, index);
    }
    Ok(indices)
}

/// Returns the index of the next import after a base.
fn index_later(base: Base, index: u64) -> u64
    ensures { result ≡ index_past base index }
{
    match base {
        Base::Import(import) => u64::from(import) + 1,
        Base::Section(_) => index,
    }
}
