ghost use Rattle.std.specs.Prelude.{◌≡◌, ◌+◌, ◌^◌, ◌<◌, ◌≤◌, drop, length, take};
ghost use Rattle.pef_cert.specs.Kept.Claims.{UnderTest, labels_claimed};
ghost use Rattle.pef_cert.specs.Kept.Tests.{AllTests, ImportRuns, LineImports};
ghost use Rattle.pef_cert.specs.LabelTests.{import_cost};
ghost use Rattle.pef_cert.specs.Fixups.Answers.{Says};
ghost use Rattle.pef_reloc.specs.Deliveries.{index_after};
ghost use Rattle.pef_reloc.specs.declared.fixup.Base.TheVariants.{Import};

use crate::claim::{CheckedSuffix, Claim};
use crate::feasible::TestedFixup;
use pef_reloc::Base;

/// How many imports have a number of nine bits.
const SMALL_IMPORTS: u32 = 512;

/// Returns how many halfwords the addition of an import takes.
fn import_cost(import: u32) -> u32
    ensures { result ≡ import_cost import }
{
    if import < SMALL_IMPORTS { 1 } else { 2 }
}

impl<'a> Claim<'a> {
    /// Returns the index of the next import at index `at`: one more than that of the last import
    /// before it.
    fn import_index(self, at: usize) -> u64
        requires { at ≤ length self.fixups.now }
        ensures { result ≡ index_after (take at self.entry.fixups.now) 0 }
    {
        let mut i = at;
        while i > 0 {
            i -= 1;
            match self.fixups[i].base {
                Base::Import(import) => return u64::from(import) + 1,
                Base::Section(_) => {}
            }
        }
        0
    }
}

impl<'a> CheckedSuffix<'a> {
    /// Tests the labels of an import's fixup against the instructions that begin by adding it.
    pub(crate) fn import_holds(self, under: TestedFixup, import: u32) -> bool
        requires under { UnderTest self under }
        requires base { under.fixup.base ≡ Import import }
        ensures { Says result (AllTests (labels_claimed self.entry.claim) (index_after (take under.at self.entry.claim.fixups.now) 0) under.fixup (drop (under.at + 1) self.entry.claim.fixups.now)) }
    {
        if self.goes_on(under, Base::Import(import + 1)) {
            return true;
        }
        if !self.singles_hold(under, import_cost(import)) {
            return false;
        }
        if u64::from(import) != self.claim.import_index(under.at) {
            return true;
        }
        self.import_runs_hold(under, import)
    }

    /// Tests the labels of the next import's fixup against runs of imports.
    fn import_runs_hold(self, under: TestedFixup, import: u32) -> bool
        requires under { UnderTest self under }
        requires import { import < 2 ^ 31 }
        requires index { import ≡ index_after (take under.at self.claim.fixups.now) 0 }
        ensures { Says result (ImportRuns (labels_claimed self.entry.claim) import under.fixup (drop (under.at + 1) self.entry.claim.fixups.now)) }
    {
        for c in 0..self.claim.classes() {
            if !self.line_imports_hold(under, import, c) {
                return false;
            }
        }
        true
    }

    /// Tests the labels of the states with register C in a class against runs of imports.
    fn line_imports_hold(self, under: TestedFixup, import: u32, c: usize) -> bool
        requires under { UnderTest self under }
        requires import { import < 2 ^ 31 }
        requires index { import ≡ index_after (take under.at self.claim.fixups.now) 0 }
        requires c { c < length self.claim.registers.now + 1 }
        ensures { Says result (LineImports (labels_claimed self.entry.claim) import under.fixup (drop (under.at + 1) self.entry.claim.fixups.now) c) }
    {
        let position = u64::from(under.fixup.offset);
        for d in 0..self.claim.classes() {
            let tested = self.state(under, c, d);
            if !self.imports_hold(tested, position, import) {
                return false;
            }
        }
        true
    }
}
