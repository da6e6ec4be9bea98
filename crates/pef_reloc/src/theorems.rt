//! Laws of the definitions, for the proofs of crates that write programs. The functions do nothing.
ghost use Rattle.std.specs.Prelude.{◌≡◌, ◌≤◌, ◌<◌, ◌++◌, ℕ, List, None, length, map, slice_index, true};
ghost use Rattle.pef_reloc.specs.Additions.{AreInside, all_added, with_bases};
ghost use Rattle.pef_reloc.specs.Applied.{Addresses, IsPlaced, address_of, applied, relocated, relocation, then_done};
ghost use Rattle.pef_reloc.specs.Fixups.{fixups_fit};
ghost use Rattle.pef_reloc.specs.Instrs.{instrs_fit, spelled};
ghost use Rattle.pef_reloc.specs.Steps.{Act, State, acts_from, add, is_flat, names_below, start, trace};
ghost use Rattle.pef_reloc.specs.Limits.{step_limit};
ghost use Rattle.pef_reloc.specs.Unrolled.{instrs_of, program_fault};
ghost use Rattle.pef_reloc.specs.declared.fixup.Fixup.{Fixup};
ghost use Rattle.pef_reloc.specs.declared.instr.Instr.{Instr};

/// The bytes that spell instructions are read as these instructions. If none is a repeat they are a
/// readable program with the effect of the list.
pub fn spelled_programs()
    ensures reads { (instrs : List Instr) → instrs_fit instrs ≡ true → instrs_of (spelled instrs) ≡ instrs }
    ensures readable { (instrs : List Instr) → is_flat instrs ≡ true → length instrs ≤ step_limit → program_fault (spelled instrs) ≡ None }
    ensures does { (instrs : List Instr) (a : Addresses) (memory : List ℕ) → is_flat instrs ≡ true → relocated (spelled instrs) a memory ≡ applied a (acts_from instrs start) memory }
{}

/// Acts after acts are done if the first ones aren't refused. Instructions that name only sections that
/// exist do exactly their additions.
pub fn acts_in_turn()
    ensures behind { (a : Addresses) (acts others : List Act) (memory : List ℕ) → applied a (acts ++ others) memory ≡ then_done (applied a acts memory) (applied a others) }
    ensures additions { (a : Addresses) (instrs : List Instr) (s : State) (memory : List ℕ) → names_below (length a.sections) instrs ≡ true → applied a (acts_from instrs s) memory ≡ applied a (map add (trace instrs s)) memory }
{}

/// A program has the effect of its acts. If an act is refused, so is the program, at the instruction of that act.
pub fn refusals_have_places()
    ensures { (bytes : List ℕ) (a : Addresses) (memory : List ℕ) → IsPlaced (relocation bytes a memory) (relocated bytes a memory) }
{}

/// The bytes of a readable program are those that spell its instructions, and these fit.
pub fn readable_programs()
    ensures spelled { (bytes : List ℕ) → ((k : ℕ) → slice_index bytes k < 256) → program_fault bytes ≡ None → spelled (instrs_of bytes) ≡ bytes }
    ensures fit { (bytes : List ℕ) → ((k : ℕ) → slice_index bytes k < 256) → program_fault bytes ≡ None → instrs_fit (instrs_of bytes) ≡ true }
{}

/// Additions whose words lie inside memory and whose bases exist are all done, and none is refused.
/// Those of fixups in address order turn memory into exactly what the fixups describe.
pub fn additions_inside()
    ensures done { (a : Addresses) (fixups : List Fixup) (memory : List ℕ) → AreInside a (length memory) fixups → applied a (map add fixups) memory ≡ record { memory = all_added a fixups memory; fault = None } }
    ensures described { (a : Addresses) (fixups : List Fixup) (memory : List ℕ) → fixups_fit fixups ≡ true → AreInside a (length memory) fixups → all_added a fixups memory ≡ with_bases (address_of a) 0 fixups memory }
{}
