ghost use Rattle.std.specs.Prelude.{◌≡◌, ◌+◌, ◌-◌, ◌*◌, ◌^◌, ◌≤◌, ◌∷◌, [], MatchOption};
ghost use Rattle.pef_reloc.specs.Kept.Added.{import_in, run_added};
ghost use Rattle.pef_reloc.specs.Traces.{addition_seen};

use crate::addition::{Addition, Source};
use crate::words::{NEXT, Row};

/// What is added to the words of a row.
#[derive(Clone, Copy, Debug)]
pub(crate) enum Added {
    /// A section to each word.
    Section(u32),
    /// Sections C and D to each word and the one after it.
    Pairs { c: u32, d: u32 },
    /// As `Pairs`, but section C was already added to the first word of the row.
    Seconds { c: u32, d: u32 },
    /// Imports, this one first.
    Imports(u64),
}

/// The additions of an instruction that are left.
#[derive(Clone, Copy)]
pub(crate) struct Run {
    row: Row,
    added: Added,
    ghost wide: { 4 ≤ row.stride },
    ghost near: { row.from + row.stride * row.count + 8 ≤ 2 ^ 62 },
    ghost numbered: { import_in added + row.count ≤ 2 ^ 62 },
}

impl Run {
    ghost use Rattle.pef_reloc.specs.Kept.Additions.{run_left};

    /// Returns the additions to a row of words.
    pub(crate) fn new(row: Row, added: Added) -> Run
        requires wide { 4 ≤ row.stride }
        requires near { row.from + row.stride * row.count + 8 ≤ 2 ^ 62 }
        requires numbered { import_in added + row.count ≤ 2 ^ 62 }
        ensures { run_left result ≡ run_added row added }
    {
        Run { row, added }
    }

    /// Returns no additions.
    #[tactic(auto, unfolding(crate::specs::Steps::row))]
    pub(crate) fn none() -> Run
        ensures { run_left result ≡ [] }
    {
        Run {
            row: Row::new(0, NEXT, 0),
            added: Added::Section(0),
        }
    }

    /// Returns the next addition, and moves past it.
    pub(crate) fn next_addition(&mut self) -> Option<Addition>
        ensures { MatchOption result ((run_left self.old ≡ []) × (run_left self.new ≡ [])) (λ a. run_left self.old ≡ addition_seen a ∷ run_left self.new) }
    {
        if self.row.count == 0 {
            return None;
        }
        let offset = self.row.from;
        match self.added {
            Added::Section(section) => {
                self.pass(self.row.stride, Added::Section(section));
                Some(Addition {
                    offset,
                    source: Source::Section(section),
                })
            }
            Added::Pairs { c, d } => {
                self.added = Added::Seconds { c, d };
                Some(Addition {
                    offset,
                    source: Source::Section(c),
                })
            }
            Added::Seconds { c, d } => {
                self.pass(self.row.stride, Added::Pairs { c, d });
                Some(Addition {
                    offset: offset + NEXT,
                    source: Source::Section(d),
                })
            }
            Added::Imports(import) => {
                self.pass(NEXT, Added::Imports(import + 1));
                Some(Addition {
                    offset,
                    source: Source::Import(import),
                })
            }
        }
    }

    /// Moves past the first word of the row, to one `by` bytes after it.
    fn pass(&mut self, by: u64, added: Added)
        requires some { 1 ≤ self.old.row.count }
        requires within { by ≤ self.old.row.stride }
        requires numbered { import_in added + self.old.row.count ≤ 2 ^ 62 + 1 }
        ensures added { self.new.added ≡ added }
        ensures row { self.new.row ≡ record { from = self.old.row.from + by; stride = self.old.row.stride; count = self.old.row.count - 1 } }
    {
        let row = self.row;
        *self = Run {
            row: Row::new(row.from + by, row.stride, row.count - 1),
            added,
        };
    }
}
