//! Laws of the definitions, for the proofs of other crates. The functions have no effect.
ghost use Rattle.std.specs.Prelude.{◌≡◌, ◌≤◌, ◌*◌, ◌++◌, ℕ, List, length, true};
ghost use Rattle.pef_cert.specs.Certified.{Certified};
ghost use Rattle.pef_cert.specs.Extension.{extension_at};
ghost use Rattle.pef_cert.specs.Feasible.{Feasible};
ghost use Rattle.pef_cert.specs.Labels.{Labels};
ghost use Rattle.pef_cert.specs.Valid.{RegistersOf, Valid, labels_of};
ghost use Rattle.pef_plan.specs.Exact.{Exact, LeastFrom};
ghost use Rattle.pef_plan.specs.Planned.{Planned};
ghost use Rattle.pef_plan.specs.Reached.{ReachedFrom};
ghost use Rattle.pef_reloc.specs.Deliveries.{StandsAfter, names_used};
ghost use Rattle.pef_reloc.specs.Fixups.{fixups_fit};
ghost use Rattle.pef_reloc.specs.Instrs.{program_length};
ghost use Rattle.pef_reloc.specs.Steps.{Least, State};
ghost use Rattle.pef_reloc.specs.declared.fixup.Fixup.{Fixup};
ghost use Rattle.pef_reloc.specs.declared.instr.Instr.{Instr};

/// Proves that labels are least lengths if they are feasible and reached. Each label is the least length of a
/// flat list that makes the remaining fixups from its state. The extension is the least length in every state.
pub fn reached_labels_are_least()
    ensures labels { (l : Labels) (fixups : List Fixup) → fixups_fit fixups ≡ true → RegistersOf fixups l.registers → Feasible l fixups → ReachedFrom l 0 fixups → Exact l fixups }
    ensures states { (l : Labels) (fixups made rest : List Fixup) (s : State) → fixups_fit fixups ≡ true → RegistersOf fixups l.registers → Feasible l fixups → ReachedFrom l 0 fixups → fixups ≡ made ++ rest → StandsAfter made s → LeastFrom s rest (extension_at l rest s) }
{}

/// Proves that there is at most one planned program for some fixups, and that it is a least one.
pub fn planned_programs_are_one()
    ensures one { (fixups : List Fixup) (program others : List Instr) → Planned fixups program → Planned fixups others → program ≡ others }
    ensures least { (fixups : List Fixup) (program : List Instr) → Planned fixups program → Least fixups program }
{}

/// Proves that a least program has at most four halfwords for each fixup.
pub fn least_programs_are_short()
    ensures { (fixups : List Fixup) (instrs : List Instr) → fixups_fit fixups ≡ true → Least fixups instrs → program_length instrs ≤ 4 * length fixups }
{}

/// Proves that a least program names only sections and imports of its fixups.
pub fn least_programs_name_what_is_used()
    ensures { (fixups : List Fixup) (instrs : List Instr) → Least fixups instrs → names_used fixups instrs ≡ true }
{}

/// Proves that there is a certificate for each list of fixups that fits, and for each section number. It is valid,
/// and each of its labels is a least length.
pub fn certificates_exist()
    ensures { (fixups : List Fixup) (section : ℕ) → fixups_fit fixups ≡ true → (c : Certified) × (c.section ≡ section) × Valid fixups c × Exact (labels_of c (length fixups)) fixups }
{}
