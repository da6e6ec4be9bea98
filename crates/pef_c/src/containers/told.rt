//! Lists that only proofs read.
ghost use Rattle.std.specs.Prelude.{◌≡◌, ◌++◌, ◌∷◌, []};
ghost use Rattle.pef_c.specs.Containers.Told.{told_items};

use std::snapshot::Snapshot;

/// A list by its last item. No item is kept at run time.
#[derive(Drop)]
pub(crate) enum Told<T> {
    Nothing,
    Another {
        before: Snapshot<Told<T>>,
        item: Snapshot<T>,
    },
}

impl<T> Told<T> {
    /// Returns the list with one item more.
    pub(crate) fn and(&self, item: &T) -> Told<T>
        ensures { told_items result ≡ told_items self.now ++ item.now ∷ [] }
    {
        Told::Another {
            before: Snapshot::of(self),
            item: Snapshot::of(item),
        }
    }
}
