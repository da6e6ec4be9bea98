ghost use Rattle.std.specs.Prelude.{◌≡◌, ◌+◌, ◌*◌, ◌<◌, ℕ, length};
ghost use Rattle.pef_cert.specs.Kept.Sets.{LineHolds, LinesHold, RowHolds};
ghost use Rattle.pef_cert.specs.Fixups.Answers.{Says};

/// Returns whether the change of one register changes the labels of a row by at most 1, with this
/// many classes.
pub(crate) fn sets_hold(row: &[u32], classes: usize) -> bool
    requires { length row.now ≡ classes * classes }
    ensures { Says result (RowHolds row.now classes) }
{
    for k in 0..classes {
        if !lines_hold(row, classes, k) {
            return false;
        }
    }
    true
}

/// Returns whether the labels with register C in class `k` differ by at most 1, and so do those with
/// register D in it.
fn lines_hold(row: &[u32], classes: usize, k: usize) -> bool
    requires square { length row.now ≡ classes * classes }
    requires under { k < classes }
    ensures { Says result (LinesHold row.now classes k) }
{
    line_holds(row, k * classes, 1, classes) && line_holds(row, k, classes, classes)
}

/// Returns whether `count` labels, `stride` places apart, differ by at most 1.
fn line_holds(row: &[u32], from: usize, stride: usize, count: usize) -> bool
    requires some { 0 < count }
    requires inside { (x : ℕ) → x < count → from + x * stride < length row.now }
    ensures { Says result (LineHolds row.now from stride count) }
{
    let mut lowest = row[from];
    let mut highest = lowest;
    for x in 1..count {
        let label = row[from + x * stride];
        lowest = lowest.min(label);
        highest = highest.max(label);
    }
    highest - lowest <= 1
}
