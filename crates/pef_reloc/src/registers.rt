ghost use Rattle.std.specs.Prelude.{◌≡◌, ◌+◌, ◌^◌, ◌≤◌, true};
ghost use Rattle.pef_reloc.specs.Instrs.{instr_fits};
ghost use Rattle.pef_reloc.specs.Kept.Additions.{Advances, IsNear, registers_seen, run_left};
ghost use Rattle.pef_reloc.specs.Steps.{additions, next_state, start};

use crate::instr::Instr;
use crate::run::{Added, Run};
use crate::words::{NEXT, Row};

/// The registers of a relocation program, with the numbers of its sections.
#[derive(Clone, Copy)]
pub(crate) struct Registers {
    position: u64,
    import_index: u64,
    section_c: u32,
    section_d: u32,
}

impl Registers {
    /// Returns the registers that a program starts with.
    pub(crate) fn new() -> Registers
        ensures { registers_seen result ≡ start }
    {
        Registers {
            position: 0,
            import_index: 0,
            section_c: 0,
            section_d: 1,
        }
    }

    /// Returns the additions of an instruction.
    #[tactic(auto, using(crate::proofs::Rows::numbered_one), unfolding(crate::specs::Steps::row))]
    pub(crate) fn run(self, instr: Instr) -> Run
        requires near { IsNear self (2 ^ 61) }
        requires fits { instr_fits instr ≡ true }
        ensures { run_left result ≡ additions instr (registers_seen self) }
    {
        let Registers {
            position: from,
            import_index,
            section_c: c,
            section_d: d,
        } = self;
        match instr {
            Instr::BySectDWithSkip { skip, count } => {
                let from = from + NEXT * u64::from(skip);
                Run::new(Row::new(from, NEXT, count), Added::Section(d))
            }
            Instr::BySectC(count) => Run::new(Row::new(from, NEXT, count), Added::Section(c)),
            Instr::BySectD(count) => Run::new(Row::new(from, NEXT, count), Added::Section(d)),
            Instr::VTable8(count) => Run::new(Row::new(from, 2 * NEXT, count), Added::Section(d)),
            Instr::TVector12(count) => {
                Run::new(Row::new(from, 3 * NEXT, count), Added::Pairs { c, d })
            }
            Instr::TVector8(count) => {
                Run::new(Row::new(from, 2 * NEXT, count), Added::Pairs { c, d })
            }
            Instr::ImportRun(count) => {
                Run::new(Row::new(from, NEXT, count), Added::Imports(import_index))
            }
            Instr::SmByImport(import) | Instr::LgByImport(import) => {
                Run::new(Row::new(from, NEXT, 1), Added::Imports(u64::from(import)))
            }
            Instr::SmBySection(section) | Instr::LgBySection(section) => {
                Run::new(Row::new(from, NEXT, 1), Added::Section(section))
            }
            _ => Run::none(),
        }
    }

    /// Returns the registers after an instruction.
    pub(crate) fn after(self, instr: Instr) -> Registers
        requires near { IsNear self (2 ^ 61) }
        requires fits { instr_fits instr ≡ true }
        ensures state { registers_seen result ≡ next_state instr (registers_seen self) }
        ensures advances { Advances self result }
    {
        let mut after = self;
        match instr {
            Instr::BySectDWithSkip { skip, count } => {
                after.position += NEXT * u64::from(skip) + NEXT * u64::from(count);
            }
            Instr::BySectC(count) | Instr::BySectD(count) => {
                after.position += NEXT * u64::from(count);
            }
            Instr::TVector8(count) | Instr::VTable8(count) => {
                after.position += 2 * NEXT * u64::from(count);
            }
            Instr::TVector12(count) => after.position += 3 * NEXT * u64::from(count),
            Instr::ImportRun(count) => {
                after.position += NEXT * u64::from(count);
                after.import_index += u64::from(count);
            }
            Instr::SmByImport(import) | Instr::LgByImport(import) => {
                after.position += NEXT;
                after.import_index = u64::from(import) + 1;
            }
            Instr::SmBySection(_) | Instr::LgBySection(_) => after.position += NEXT,
            Instr::SmSetSectC(section) | Instr::LgSetSectC(section) => after.section_c = section,
            Instr::SmSetSectD(section) | Instr::LgSetSectD(section) => after.section_d = section,
            Instr::IncrPosition(bytes) => after.position += u64::from(bytes),
            Instr::SetPosition(offset) => after.position = u64::from(offset),
            Instr::SmRepeat { .. } | Instr::LgRepeat { .. } => {}
        }
        after
    }
}
