//! How often plans look at the value at an end of a run.
ghost use Rattle.std.specs.Prelude.{◌≡◌, true};
ghost use Rattle.pef_reloc.specs.Fixups.{fixups_fit};

use crate::plans::in_a_row;
use pef_plan::{Looks, counted_plan};
use pef_reloc::{Fixup, fixups_fit};
use std::alloc::Global;
use std::cell::Cell;
use std::process::Abort;
use test_data::lists::S1;

/// Returns how many looks the plan of some fixups takes, and how many labels it has.
fn looks_and_labels(rt: &impl Abort, alloc: Global, fixups: &[Fixup]) -> (u64, usize)
    requires { fixups_fit fixups.now ≡ true }
{
    let looks = Cell::new(0);
    let certificate = counted_plan(alloc, 1, fixups, Looks::new(&looks)).expect(rt, "a plan");
    let labels = &certificate.labels;
    (looks.get(), labels.rows().wrapping_mul(labels.width()))
}

#[test]
fn plan_looks_seldom(rt: HostRuntime) {
    let fixups = in_a_row(&rt, rt.alloc(), (16_384, 0, 4, S1));
    assert!(rt; fixups_fit(&fixups));
    let (looks, labels) = looks_and_labels(&rt, rt.alloc(), &fixups);
    assert!(rt; labels == 65_540);
    assert!(rt; 65_540 < looks && looks <= 16 * 65_540, "{looks}");
}
