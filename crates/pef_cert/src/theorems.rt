//! Laws of the definitions, for the proofs of other crates. The functions do nothing.
ghost use Rattle.std.specs.Prelude.{◌≡◌, ◌≤◌, ◌<◌, ◌+◌, ◌-◌, ◌==◌, ◌∷◌, ℕ, List, Some, length, true};
ghost use Rattle.pef_cert.specs.Extension.{at_offset, extension, extension_at, moved_value, offer_at};
ghost use Rattle.pef_cert.specs.Labels.{Labels, classes};
ghost use Rattle.pef_cert.specs.Certified.{Certified};
ghost use Rattle.pef_cert.specs.Valid.{Trusted, Valid};
ghost use Rattle.pef_reloc.specs.Deliveries.{Delivers, StandsAfter, is_flat_instr};
ghost use Rattle.pef_reloc.specs.Fixups.{fixups_fit};
ghost use Rattle.pef_reloc.specs.Instrs.{instr_length};
ghost use Rattle.pef_reloc.specs.Steps.{Least, State, next_state};
ghost use Rattle.pef_reloc.specs.declared.fixup.Fixup.{Fixup};
ghost use Rattle.pef_reloc.specs.declared.instr.Instr.{Instr};

/// The extension of labels in one line: the label at the offset of the next fixup, and away from it the
/// least value of its table, with skips of up to 63 words.
pub fn extension_of_labels()
    ensures { (l : Labels) (f : Fixup) (rest : List Fixup) (p c d : ℕ) → extension l (f ∷ rest) p c d ≡ at_offset (p == f.offset) (l.label (length (f ∷ rest)) c d) (moved_value (f.offset - p) (l.label (length (f ∷ rest)) c d) (offer_at l f rest c d)) }
{}

/// If labels are feasible, the extension falls by at most an instruction's length along every
/// instruction that fits, isn't a repeat and adds exactly the next fixups, one or more or none. This
/// holds at every position and at every register value.
pub fn extensions_fall()
    ensures { (l : Labels) (fixups made rest left : List Fixup) (s : State) (instr : Instr) → Trusted l fixups made rest → StandsAfter made s → is_flat_instr instr ≡ true → Delivers instr s rest left → extension_at l rest s ≤ instr_length instr + extension_at l left (next_state instr s) }
{}

/// The facts that this needs: a label is at most every offer, and so at most the extension from every
/// position, which is at most 2 more; and the change of one register changes the extension by at most 1.
pub fn labels_are_near()
    ensures offer { (l : Labels) (fixups made rest : List Fixup) (f : Fixup) (c d x : ℕ) → Trusted l fixups made (f ∷ rest) → c < classes l → d < classes l → offer_at l f rest c d ≡ Some x → l.label (length (f ∷ rest)) c d ≤ x }
    ensures below { (l : Labels) (fixups made rest : List Fixup) (f : Fixup) (p c d : ℕ) → Trusted l fixups made (f ∷ rest) → c < classes l → d < classes l → l.label (length (f ∷ rest)) c d ≤ extension l (f ∷ rest) p c d }
    ensures near { (l : Labels) (fixups made rest : List Fixup) (f : Fixup) (p c d : ℕ) → Trusted l fixups made (f ∷ rest) → extension l (f ∷ rest) p c d ≤ 2 + l.label (length (f ∷ rest)) c d }
    ensures set_c { (l : Labels) (fixups made rest : List Fixup) (f : Fixup) (p c c' d : ℕ) → Trusted l fixups made (f ∷ rest) → c < classes l → c' < classes l → d < classes l → extension l (f ∷ rest) p c d ≤ 1 + extension l (f ∷ rest) p c' d }
    ensures set_d { (l : Labels) (fixups made rest : List Fixup) (f : Fixup) (p c d d' : ℕ) → Trusted l fixups made (f ∷ rest) → c < classes l → d < classes l → d' < classes l → extension l (f ∷ rest) p c d ≤ 1 + extension l (f ∷ rest) p c d' }
{}

/// If fixups fit, the program of a valid certificate for them is least, regardless of who made the certificate.
pub fn valid_programs_are_least()
    ensures { (fixups : List Fixup) (c : Certified) → fixups_fit fixups ≡ true → Valid fixups c → Least fixups c.program }
{}
