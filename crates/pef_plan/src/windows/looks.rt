use std::cell::Cell;

/// A count of looks. A look reads the value at a possible end of a run, also to compute a kept minimum. No
/// result depends on the count.
#[derive(Clone, Copy, Debug)]
pub struct Looks<'a> {
    count: &'a Cell<u64>,
}

impl<'a> Looks<'a> {
    /// Returns looks that are counted in a cell.
    pub fn new(count: &'a Cell<u64>) -> Looks<'a> {
        Looks { count }
    }

    /// Adds `looks` to the count.
    pub fn add(self, looks: u64) {
        self.count.set(self.count.get().saturating_add(looks));
    }
}
