ghost use Rattle.std.specs.Prelude.{◌≡◌, ◌+◌, ◌-◌, ◌*◌, ◌/◌, ◌%◌, ◌^◌, ◌<◌, ℕ, [], slice_set, vec_len, IfOk, OnOk};
ghost use Rattle.pef_script.specs.Text.Kept.Marks.{AreMarked, any_lead, lead_at, leads_overlap, next_four};
ghost use Rattle.pef_script.specs.Text.Kept.Sections.{AreApart};

use pef_reloc::{Fixup, WORD};
use std::alloc::{AllocError, Global};

/// Where the words of fixups begin, if the fixups come in any order.
///
/// A word's next four is the first multiple of four after its offset. Words with the same next four overlap, so
/// each multiple has one mark at most.
#[derive(Drop)]
pub struct Marks {
    /// For each multiple of four, how many bytes before it the word begins whose next four it is, or 0 if there
    /// is no such word.
    leads: Vec<u8>,
}

impl Marks {
    /// Returns the marks of fixups that don't overlap others.
    pub fn of(alloc: Global, fixups: &[Fixup]) -> Result<Marks, AllocError>
        requires { AreApart [] fixups.now }
        ensures { IfOk result (λ marks. AreMarked marks.leads.items fixups.now) }
    {
        let mut marks = Marks {
            leads: Vec::new(alloc),
        };
        for fixup in fixups {
            marks.make_room(fixup.offset)?;
            marks.put(fixup.offset);
        }
        Ok(marks)
    }

    /// Returns whether a marked word overlaps one of `count` words from an offset.
    ///
    /// It begins before them, among them or in the last of them.
    pub fn overlaps(&self, offset: u32, count: u8) -> bool
        requires { offset + 4 * count < 2 ^ 32 }
        ensures { result ≡ leads_overlap self.now.leads.items offset count }
    {
        let next = next_four(offset);
        let after = next + usize::from(count);
        let lead = lead_of(offset);
        let before = self.lead(next - 1);
        before > 0 && before < lead || self.any(next, after) || self.lead(after) > lead
    }

    /// Makes room for the mark of an offset. The marks stay as they are.
    pub fn make_room(&mut self, offset: u32) -> Result<(), AllocError>
        ensures room { OnOk result (next_four offset < vec_len self.new.leads) }
        ensures same { (i : ℕ) → lead_at self.new.leads.items i ≡ lead_at self.old.leads.items i }
    {
        let needed = next_four(offset) + 1;
        if self.leads.len() < needed {
            self.leads.resize(needed, 0)?;
        }
        Ok(())
    }

    /// Marks a word that overlaps no other.
    pub fn put(&mut self, offset: u32)
        requires { next_four offset < vec_len self.old.leads }
        ensures { self.new.leads.items ≡ slice_set self.old.leads.items (next_four offset) (4 - offset % 4) }
    {
        self.leads[next_four(offset)] = lead_of(offset);
    }

    /// Returns the mark of a multiple of four, by its number.
    fn lead(&self, i: usize) -> u8
        ensures { result ≡ lead_at self.now.leads.items i }
    {
        match self.leads.get(i) {
            Some(lead) => *lead,
            None => 0,
        }
    }

    /// Returns whether one of some multiples of four has a mark.
    #[tactic(auto, using(crate::proofs::TextProofs::Marking::any_lead_next))]
    fn any(&self, from: usize, to: usize) -> bool
        ensures { result ≡ any_lead self.now.leads.items from (to - from) }
    {
        for i in from..to {
            if self.lead(i) > 0 {
                return true;
            }
        }
        false
    }
}

/// Returns the number of the first multiple of four after an offset.
fn next_four(offset: u32) -> usize
    ensures { result ≡ next_four offset }
{
    (offset / WORD) as usize + 1
}

/// Returns how many bytes after an offset its next four is.
fn lead_of(offset: u32) -> u8
    ensures { result ≡ 4 - offset % 4 }
{
    (WORD - offset % WORD) as u8
}
