ghost use Rattle.std.specs.Prelude.{◌≡◌, ℕ, ◌<◌, length, replicate, slice_set, true};
ghost use Rattle.cfm_memory.specs.Kept.Searches.{AreLowered, IsSlotFor, IsStart, Serves, lowered, no_hint};

/// The lowest address of an instance.
pub(crate) const FIRST_ADDRESS: u64 = 0x0001_0000;

/// How many hints are kept.
const KEPT: usize = 64;

/// What a search for room has found: no multiple of `step` below `from` has `taken` free bytes.
#[derive(Clone, Copy)]
pub(crate) struct Hint {
    pub from: u64,
    pub taken: u64,
    pub step: u64,
}

impl Hint {
    /// Returns whether a search for so many bytes at multiples of `step` may begin at this hint: it needs no less, and no
    /// finer multiples.
    pub fn serves(&self, taken: u64, step: u64) -> bool
        ensures { result ≡ true → Serves self.now taken step }
    {
        self.taken <= taken && self.step > 0 && step % self.step == 0
    }

    /// Returns what is still known after the memory from `address` on is given back.
    fn lowered(self, address: u64) -> Hint
        ensures { result ≡ lowered address self }
    {
        Hint {
            from: self.from.min(address.saturating_sub(self.taken)),
            taken: self.taken,
            step: self.step,
        }
    }
}

/// What the last searches have found, so that a search doesn't pass the same instances again.
#[derive(Clone, Copy)]
pub(crate) struct Hints {
    rows: [Hint; KEPT],
    /// The row that is replaced next.
    next: usize,
}

impl Hints {
    /// Returns hints that serve no search.
    pub fn new() -> Hints
        ensures { result.rows ≡ replicate 64 no_hint }
    {
        let none = Hint {
            from: FIRST_ADDRESS,
            taken: 1 << 33,
            step: 1 << 32,
        };
        Hints {
            rows: [none; KEPT],
            next: 0,
        }
    }

    /// Returns the address at which a search for `taken` bytes at multiples of `step` may begin.
    pub fn start(&self, taken: u64, step: u64) -> u64
        ensures { IsStart self.now.rows taken step result }
    {
        let mut from = FIRST_ADDRESS;
        for hint in &self.rows {
            if hint.from > from && hint.serves(taken, step) {
                from = hint.from;
            }
        }
        from
    }

    /// Keeps a hint in place of one that tells no more, or of the oldest.
    pub fn keep(&mut self, hint: Hint)
        ensures { (slot : ℕ) × IsSlotFor hint self.old.rows self.old.next self.new.next slot × (self.new.rows ≡ slice_set self.old.rows slot hint) }
    {
        let slot = self.slot_for(hint);
        self.rows[slot] = hint;
    }

    /// Returns the row that a hint replaces.
    fn slot_for(&mut self, hint: Hint) -> usize
        ensures inside { result < 64 }
        ensures slot { IsSlotFor hint self.old.rows self.old.next self.new.next result }
        ensures same { self.new.rows ≡ self.old.rows }
    {
        for (i, row) in self.rows.iter().enumerate() {
            if row.from <= hint.from && hint.serves(row.taken, row.step) {
                return i;
            }
        }
        let slot = self.next % KEPT;
        self.next = slot + 1;
        slot
    }

    /// Forgets what isn't known any more after the memory from `address` on is given back.
    pub fn lower(&mut self, address: u64)
        ensures rows { AreLowered address self.old.rows self.new.rows }
        ensures len { length self.new.rows ≡ length self.old.rows }
    {
        for i in 0..KEPT {
            self.rows[i] = self.rows[i].lowered(address);
        }
    }
}
