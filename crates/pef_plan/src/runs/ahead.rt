ghost use Rattle.std.specs.Prelude.{◌≡◌, ◌+◌, ◌<◌, ◌≤◌, length};
ghost use Rattle.pef_plan.specs.Runs.Kept.Ahead.{value_ahead};

use pef_cert::{change, moved_value};

/// The next fixup, seen from a position that isn't its own.
#[derive(Clone, Copy)]
pub(crate) struct NextFixup<'a> {
    /// How many bytes ahead it is, or 0 if the position is past it.
    pub(crate) bytes: u64,
    /// The least skips at the next fixup, by the class of register C.
    pub(crate) skips: &'a [u32],
    /// The class of its section. An import has none.
    pub(crate) class: Option<usize>,
}

impl NextFixup<'_> {
    /// Returns the extension with the registers in the classes `c` and `d`. The label there at the next fixup is
    /// `label`.
    #[inline(always)]
    pub(crate) fn value(self, label: u32, c: usize, d: usize) -> u64
        requires c { c < length self.skips.now }
        ensures is { result ≡ value_ahead self.entry label c d }
        ensures small { result ≤ 2 + label }
    {
        let offer = match self.class {
            Some(class) => Some(change(d, class) + u64::from(self.skips[c])),
            None => None,
        };
        moved_value(self.bytes, label, offer)
    }
}
