//! Certificates of as many fixups as a section can have, with a label of one range changed.
ghost use Rattle.std.specs.Prelude.{◌≡◌, true};
ghost use Rattle.pef_reloc.specs.Fixups.{fixups_fit};

use pef_cert::{LabelRows, check};
use pef_plan::plan;
use pef_reloc::{Base, Fixup, fixups_fit};
use std::alloc::{AllocError, Global};
use std::process::Abort;
use std::test::Fail;

/// How many fixups a section can have.
const FIXUPS: u32 = 65_536;

/// Pairs of sections. The two of a pair can be the same.
const PAIRS: [(u32, u32); 2] = [(15, 15), (15, 0)];

/// Returns words one after another, by two sections in turn.
fn in_turn(alloc: Global, first: u32, second: u32) -> Result<Vec<Fixup>, AllocError> {
    let mut fixups = Vec::new(alloc);
    for word in 0..FIXUPS {
        let section = if word % 2 == 0 { first } else { second };
        fixups.push(Fixup {
            offset: 4 * word,
            base: Base::Section(section),
        })?;
    }
    Ok(fixups)
}

/// Adds equal rows.
fn push_rows(
    rt: &impl Abort,
    rows: &mut LabelRows,
    row: &[u32],
    count: usize,
) -> Result<(), AllocError> {
    assert!(rt; row.len() == rows.width());
    assert!(rt; rows.rows() < 1 << 20 && count < 1 << 20);
    rows.push_many(row, count)
}

/// Returns the same labels, except that one is greater by 1, in the range of a place among them.
fn raised(
    rt: &impl Abort,
    alloc: Global,
    labels: &LabelRows,
    place: usize,
) -> Result<LabelRows, Fail> {
    let mut rows = LabelRows::new(alloc, labels.width());
    let mut runs = labels.runs();
    for at in 0..labels.rows() {
        let run = match runs.next_run() {
            Some(run) => run,
            None => return Ok(rows),
        };
        let mut row = Vec::new(alloc);
        row.extend_from_slice(run.labels)?;
        if at == place {
            let label = row.first_mut().ok_or("a row has a label")?;
            *label = label.wrapping_add(1);
        }
        push_rows(rt, &mut rows, &row, run.rows)?;
    }
    Ok(rows)
}

/// Returns how many ranges labels have.
fn ranges(labels: &LabelRows) -> usize {
    labels.kept().ends.len()
}

#[test]
fn raised_labels_are_refused(rt: HostRuntime) -> Result<(), Fail> {
    let alloc = rt.alloc();
    for pair in PAIRS {
        let (first, second) = pair;
        let fixups = in_turn(alloc, first, second)?;
        assert!(rt; fixups_fit(&fixups));
        let mut certificate = plan(alloc, 15, &fixups)?;
        let last = ranges(&certificate.labels).saturating_sub(1);
        assert!(rt; last > 2);
        for place in [0, last / 2, last] {
            let labels = raised(&rt, alloc, &certificate.labels, place)?;
            let kept = std::mem::replace(&mut certificate.labels, labels);
            assert!(rt; !check(&fixups, &certificate), "range {place}");
            certificate.labels = kept;
        }
        assert!(rt; check(&fixups, &certificate));
    }
    Ok(())
}
