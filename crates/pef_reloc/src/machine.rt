ghost use Rattle.std.specs.Prelude.{◌≡◌, ◌+◌, ◌*◌, ◌^◌, ◌≤◌, ◌<◌, ◌∷◌, [], IfSome, List, length, true};
ghost use Rattle.std.specs.Result.{result_err};
ghost use Rattle.pef_reloc.specs.Applied.{address_of};
ghost use Rattle.pef_reloc.specs.Instrs.{instr_fits, repeat_of};
ghost use Rattle.pef_reloc.specs.Unrolled.{executed, repeat_fault, repeated, steps_from};
ghost use Rattle.pef_reloc.specs.declared.instr.Instr.{Instr};
ghost use Rattle.pef_reloc.specs.Kept.Machines.{Holds, Moves, Near, Runs, SetsC, SetsD, Stepped, known, machine_after};
ghost use Rattle.pef_reloc.specs.Kept.Places.{Before, Spans};
ghost use Rattle.pef_reloc.specs.Kept.Rows.{Does, DoesNumbered, DoesPairs, DoesRow, FindsImport, FindsSection};
ghost use Rattle.pef_reloc.specs.Steps.{add, added, need, start};
ghost use Rattle.pef_reloc.specs.declared.fixup.Base.TheVariants.{Section, Import};

use crate::decode::instr_from;
use crate::fault::RelocFault;
use crate::instr::Instr;
use crate::stop::Stop;
use crate::words::{NEXT, Row, add_pairs, add_row, add_word};

/// A part of a program: its bytes from one place to another.
#[derive(Clone, Copy)]
pub(crate) struct Block<'a> {
    pub bytes: &'a [u8],
    pub from: usize,
    pub to: usize,
}

/// The addresses that a program adds: those of the fragment's sections, and of its imports'
/// targets.
#[derive(Clone, Copy)]
pub(crate) struct Targets<'a> {
    sections: &'a [u32],
    imports: &'a [u32],
}

impl<'a> Targets<'a> {
    pub(crate) fn new(sections: &'a [u32], imports: &'a [u32]) -> Targets<'a>
        ensures sections { result.sections.now ≡ sections.entry.now }
        ensures imports { result.imports.now ≡ imports.entry.now }
    {
        Targets { sections, imports }
    }

    /// Returns the address of a section that an instruction names for the word at an offset.
    fn section(self, section: u32, word: u64) -> Result<u32, Stop>
        ensures { FindsSection (known self.entry) section word result }
    {
        match self.sections.get(section as usize) {
            Some(address) => Ok(*address),
            None => Err(Stop::NoSection(word)),
        }
    }

    /// Returns the address of an import that is to be added to the word at an offset.
    fn import(self, import: u64, word: u64) -> Result<u32, Stop>
        ensures { FindsImport (known self.entry) import word result }
    {
        match self.imports.get(import as usize) {
            Some(address) => Ok(*address),
            None => Err(Stop::NoImport(word)),
        }
    }

    /// Returns the address of a section that a register starts with, and 0 if there is no such
    /// section.
    fn start_section(self, section: usize) -> u32
        ensures { result ≡ address_of (known self.entry) (Section section) }
    {
        match self.sections.get(section) {
            Some(address) => *address,
            None => 0,
        }
    }
}

/// The registers of a relocation program, with addresses in place of section numbers.
///
/// The position is in bytes. Neither number can wrap: a program executes at most `MAX_STEPS`
/// instructions, each of which moves on by less than 2^39, including its passes.
#[derive(Clone, Copy)]
pub(crate) struct Machine {
    position: u64,
    import_index: u64,
    section_c: u32,
    section_d: u32,
}

impl Machine {
    /// Returns the registers that a program starts with.
    pub(crate) fn new(targets: Targets) -> Machine
        ensures holds { Holds (known targets.entry) result start }
        ensures at_start { (result.position ≡ 0) × (result.import_index ≡ 0) }
    {
        Machine {
            position: 0,
            import_index: 0,
            section_c: targets.start_section(0),
            section_d: targets.start_section(1),
        }
    }

    /// Executes an instruction. A repeat does nothing by itself.
    ///
    /// Inlined after the decoding, so that the one jump there leads to the execution.
    #[inline(always)]
    #[tactic(auto, using(crate::proofs::Rows::nothing_done))]
    pub(crate) fn step(
        &mut self,
        instr: Instr,
        memory: &mut [u8],
        targets: Targets,
    ) -> Result<(), Stop>
        requires near { Near self.old (2 ^ 40) }
        requires fits { instr_fits instr ≡ true }
        ensures steps { Stepped (known targets.entry) self.old self.new memory.old memory.new instr (result_err result) }
        ensures moves { Moves self.old self.new 6144 }
    {
        let (from, c, d) = (self.position, self.section_c, self.section_d);
        match instr {
            Instr::BySectDWithSkip { skip, count } => {
                let from = from + NEXT * u64::from(skip);
                self.row(memory, Row::new(from, NEXT, count), d)
            }
            Instr::BySectC(count) => self.row(memory, Row::new(from, NEXT, count), c),
            Instr::BySectD(count) => self.row(memory, Row::new(from, NEXT, count), d),
            Instr::VTable8(count) => self.row(memory, Row::new(from, 2 * NEXT, count), d),
            Instr::TVector12(count) => self.pairs(memory, 3 * NEXT, count),
            Instr::TVector8(count) => self.pairs(memory, 2 * NEXT, count),
            Instr::ImportRun(count) => self.import_run(memory, count, targets),
            Instr::SmByImport(index) | Instr::LgByImport(index) => {
                self.import_word(memory, index, targets)
            }
            Instr::SmBySection(section) | Instr::LgBySection(section) => {
                self.section_word(memory, section, targets)
            }
            Instr::SmSetSectC(section) | Instr::LgSetSectC(section) => self.set_c(section, targets),
            Instr::SmSetSectD(section) | Instr::LgSetSectD(section) => self.set_d(section, targets),
            Instr::IncrPosition(bytes) => {
                self.position = from + u64::from(bytes);
                Ok(())
            }
            Instr::SetPosition(offset) => {
                self.position = u64::from(offset);
                Ok(())
            }
            Instr::SmRepeat { .. } | Instr::LgRepeat { .. } => Ok(()),
        }
    }

    /// Executes the instruction at a place of a program. A repeat does nothing by itself.
    #[inline(always)]
    fn step_at(
        &mut self,
        at: usize,
        instr: Instr,
        memory: &mut [u8],
        targets: Targets,
    ) -> Result<(), RelocFault>
        requires near { Near self.old (2 ^ 40) }
        requires fits { instr_fits instr ≡ true }
        ensures runs { Runs (known targets.entry) self.old self.new memory.old memory.new ((at, instr) ∷ []) (result_err result) }
        ensures moves { Moves self.old self.new 6144 }
    {
        match self.step(instr, memory, targets) {
            Ok(()) => Ok(()),
            Err(stop) => Err(stop.fault(at)),
        }
    }

    /// Executes the instruction that comes after the earlier part of a program. A repeat is executed by
    /// its passes.
    #[inline(always)]
    pub(crate) fn execute(
        &mut self,
        instr: Instr,
        earlier: Block,
        memory: &mut [u8],
        targets: Targets,
    ) -> Result<(), RelocFault>
        requires near { Near self.old (2 ^ 26) }
        requires fits { instr_fits instr ≡ true }
        requires inside { earlier.to ≤ length earlier.bytes.now }
        requires room { IfSome (repeat_of instr) (λ r. 2 * r.blocks ≤ earlier.to) }
        ensures runs { (before : List Instr) → Before earlier.entry.bytes.now before earlier.entry.to → repeat_fault before (repeat_of instr) ≡ None → Runs (known targets.entry) self.old self.new memory.old memory.new (executed before instr) (result_err result) }
        ensures moves { Moves self.old self.new (2 ^ 39) }
    {
        match instr.repeat() {
            Some(repeat) => {
                let from = earlier.to - 2 * repeat.blocks as usize;
                self.repeat(Block { from, ..earlier }, repeat.passes, memory, targets)
            }
            None => self.step_at(earlier.to, instr, memory, targets),
        }
    }

    /// Executes the instructions of a block this many times.
    ///
    /// Kept apart, so that the loop over a program is a single one.
    #[inline(never)]
    fn repeat(
        &mut self,
        block: Block,
        passes: u32,
        memory: &mut [u8],
        targets: Targets,
    ) -> Result<(), RelocFault>
        requires near { Near self.old (2 ^ 26) }
        requires passes { passes < 2 ^ 22 }
        requires inside { block.to ≤ length block.bytes.now }
        requires order { block.from ≤ block.to }
        requires short { block.to ≤ block.from + 32 }
        ensures runs { (instrs : List Instr) → Spans block.entry.bytes.now block.entry.from instrs block.entry.to → Runs (known targets.entry) self.old self.new memory.old memory.new (repeated passes (steps_from block.entry.from instrs)) (result_err result) }
        ensures moves { Moves self.old self.new (2 ^ 39) }
    {
        'passes: for _ in 0..passes {
            self.run_block(block, memory, targets)?;
        }
        Ok(())
    }

    /// Executes the instructions of a block.
    fn run_block(
        &mut self,
        block: Block,
        memory: &mut [u8],
        targets: Targets,
    ) -> Result<(), RelocFault>
        requires near { Near self.old (2 ^ 39 + 2 ^ 26) }
        requires inside { block.to ≤ length block.bytes.now }
        requires order { block.from ≤ block.to }
        requires short { block.to ≤ block.from + 32 }
        ensures runs { (instrs : List Instr) → Spans block.entry.bytes.now block.entry.from instrs block.entry.to → Runs (known targets.entry) self.old self.new memory.old memory.new (steps_from block.entry.from instrs) (result_err result) }
        ensures moves { Moves self.old self.new (2 ^ 17) }
    {
        let mut at = block.from;
        while at < block.to {
            let instr = instr_from(block.bytes, at)?;
            self.step_at(at, instr, memory, targets)?;
            at += 2 * instr.length();
        }
        Ok(())
    }

    /// Adds an address to the words of a row, and moves past them.
    fn row(&mut self, memory: &mut [u8], row: Row, address: u32) -> Result<(), Stop>
        requires { row.from + row.stride * row.count + 4 < 2 ^ 64 }
        ensures does { DoesRow memory.old memory.new row address (result_err result) }
        ensures after { self.new ≡ machine_after (result_err result) self.old (record self.old { position = row.from + row.stride * row.count }) }
    {
        add_row(memory, row, address)?;
        self.position = row.from + row.stride * u64::from(row.count);
        Ok(())
    }

    /// Adds sections C and D to some pairs of words, `stride` bytes apart, and moves past them.
    fn pairs(&mut self, memory: &mut [u8], stride: u64, count: u32) -> Result<(), Stop>
        requires { self.old.position + stride * count + 8 < 2 ^ 64 }
        ensures does { DoesPairs memory.old memory.new (record { from = self.old.position; stride = stride; count = count }) self.old.section_c self.old.section_d (result_err result) }
        ensures after { self.new ≡ machine_after (result_err result) self.old (record self.old { position = self.old.position + stride * count }) }
    {
        let from = self.position;
        let row = Row::new(from, stride, count);
        add_pairs(memory, row, self.section_c, self.section_d)?;
        self.position = from + stride * u64::from(count);
        Ok(())
    }

    /// Adds some imports, one after the other.
    fn import_run(&mut self, memory: &mut [u8], count: u32, targets: Targets) -> Result<(), Stop>
        requires near { Near self.old (2 ^ 40) }
        requires short { count ≤ 512 }
        ensures does { DoesNumbered (known targets.entry) memory.old memory.new count self.old.position self.old.import_index (result_err result) }
        ensures after { self.new ≡ machine_after (result_err result) self.old (record self.old { position = self.old.position + 4 * count; import_index = self.old.import_index + count }) }
    {
        add_imports(memory, self.position, count, self.import_index, targets)?;
        self.position += NEXT * u64::from(count);
        self.import_index += u64::from(count);
        Ok(())
    }

    /// Adds an import, and makes the one after it the next.
    #[tactic(auto, using(crate::proofs::Rows::numbered_one))]
    fn import_word(&mut self, memory: &mut [u8], import: u32, targets: Targets) -> Result<(), Stop>
        requires near { Near self.old (2 ^ 40) }
        ensures does { Does (known targets.entry) memory.old memory.new (add (added self.old.position (Import import)) ∷ []) (result_err result) }
        ensures after { self.new ≡ machine_after (result_err result) self.old (record self.old { position = self.old.position + 4; import_index = import + 1 }) }
    {
        let import = u64::from(import);
        add_imports(memory, self.position, 1, import, targets)?;
        self.position += NEXT;
        self.import_index = import + 1;
        Ok(())
    }

    /// Adds a section.
    fn section_word(
        &mut self,
        memory: &mut [u8],
        section: u32,
        targets: Targets,
    ) -> Result<(), Stop>
        requires near { Near self.old (2 ^ 40) }
        ensures does { Does (known targets.entry) memory.old memory.new (need self.old.position section ∷ add (added self.old.position (Section section)) ∷ []) (result_err result) }
        ensures after { self.new ≡ machine_after (result_err result) self.old (record self.old { position = self.old.position + 4 }) }
    {
        let address = targets.section(section, self.position)?;
        add_word(memory, self.position, address)?;
        self.position += NEXT;
        Ok(())
    }

    /// Makes a section the new section C.
    fn set_c(&mut self, section: u32, targets: Targets) -> Result<(), Stop>
        ensures { SetsC (known targets.entry) self.old self.new section (result_err result) }
    {
        self.section_c = targets.section(section, self.position)?;
        Ok(())
    }

    /// Makes a section the new section D.
    fn set_d(&mut self, section: u32, targets: Targets) -> Result<(), Stop>
        ensures { SetsD (known targets.entry) self.old self.new section (result_err result) }
    {
        self.section_d = targets.section(section, self.position)?;
        Ok(())
    }
}

/// Adds `count` imports from `first` on to the words from `position` on, up to the first that is
/// refused.
fn add_imports(
    memory: &mut [u8],
    position: u64,
    count: u32,
    first: u64,
    targets: Targets,
) -> Result<(), Stop>
    requires word { position + 4 * count + 4 < 2 ^ 64 }
    requires index { first + count < 2 ^ 64 }
    ensures { DoesNumbered (known targets.entry) memory.old memory.new count position first (result_err result) }
{
    let mut at = position;
    let mut import = first;
    'words: for _ in 0..count {
        let address = targets.import(import, at)?;
        add_word(memory, at, address)?;
        at += NEXT;
        import += 1;
    }
    Ok(())
}
