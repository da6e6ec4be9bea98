use pef_reloc::{Fixup, Instr};

/// A state, and the fixups that are left to make from there.
#[derive(Clone, Copy)]
pub struct PlanState<'a> {
    pub left: &'a [Fixup],
    /// The position in bytes.
    pub position: u64,
    /// The number of the next import.
    pub import_index: u64,
    /// The class of register C.
    pub c: usize,
    /// The class of register D.
    pub d: usize,
}

/// A state with at least one fixup left: the first one, and the others after it.
#[derive(Clone, Copy)]
pub struct OpenState<'a> {
    pub place: PlanState<'a>,
    pub first: Fixup,
    pub others: &'a [Fixup],
}

/// A state at a fixup without the registers.
#[derive(Clone, Copy)]
pub struct FixupState<'a> {
    pub left: &'a [Fixup],
    pub first: Fixup,
    /// The fixups after the first.
    pub others: &'a [Fixup],
    pub import_index: u64,
}

/// An instruction, and the place after it.
#[derive(Clone, Copy)]
pub struct Step<'a> {
    pub instr: Instr,
    pub next: PlanState<'a>,
}

/// A step, and the number of halfwords from its start to the end of the program.
#[derive(Clone, Copy)]
pub struct Choice<'a> {
    pub step: Step<'a>,
    pub value: u64,
}

/// The best choice so far, and the label that it has to reach. No choice is below the label, so one that reaches it
/// is the best.
#[derive(Clone, Copy)]
pub struct Sought<'a> {
    pub choice: Choice<'a>,
    pub label: u64,
}
