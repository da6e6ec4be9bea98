//! Laws of the definitions, for crates that use scripts. The functions do nothing.
ghost use Rattle.std.specs.Prelude.{◌≡◌, ◌≤◌, ◌<◌, ℕ, List, Ok, Some, length};
ghost use Rattle.pef_script.specs.declared.text.fault.LineFault.{LineFault};
ghost use Rattle.pef_script.specs.Text.Earlier.{earlier_of};
ghost use Rattle.pef_script.specs.Text.Places.{word_at};
ghost use Rattle.pef_script.specs.Script.{DescribedScript};
ghost use Rattle.pef_script.specs.WellFormed.{ScriptHolds};
ghost use Rattle.pef_script.specs.Text.Grammar.{script_of};

/// Every script of the grammar keeps the limits, has distinct names, and refers only to sections,
/// libraries, imports and offsets that exist.
pub fn scripts_hold()
    ensures { (text : List ℕ) (s : DescribedScript) → script_of text ≡ Ok s → ScriptHolds s }
{}

/// The places of a fault are inside the text: the bytes of a word, and an earlier line.
pub fn places_are_inside()
    ensures word { (text : List ℕ) (line k : ℕ) → ((word_at text line k).from ≤ (word_at text line k).to) × ((word_at text line k).to ≤ length text) }
    ensures earlier { (text : List ℕ) (line : ℕ) (fault : LineFault) (k : ℕ) → earlier_of text line fault ≡ Some k → (1 ≤ k) × (k < line) }
{}
