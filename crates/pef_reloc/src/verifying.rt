ghost use Rattle.std.specs.Prelude.{◌≡◌, ◌+◌, ◌*◌, ◌^◌, ◌≤◌, ◌<◌, ◌∷◌, [], ℕ, IfSome, List, None, Ok, OnErr, OnOk, length, map, true};
ghost use Rattle.std.specs.Result.{result_err};
ghost use Rattle.pef_reloc.specs.Instrs.{instr_fits, repeat_of};
ghost use Rattle.pef_reloc.specs.Steps.{State, acts_of, add, added, need, next_state, numbered, pairs, row, start, state_after};
ghost use Rattle.pef_reloc.specs.Unrolled.{executed, program_fault, repeat_fault, repeated, steps_from};
ghost use Rattle.pef_reloc.specs.Verified.{act_stop, first_stop, verified};
ghost use Rattle.pef_reloc.specs.Views.{program_bytes};
ghost use Rattle.pef_reloc.specs.Kept.Places.{Before, Spans};
ghost use Rattle.pef_reloc.specs.Kept.Walks.{IsNear, MovesOn, WalksTo, walked};
ghost use Rattle.pef_reloc.specs.declared.instr.Instr.{Instr};
ghost use Rattle.pef_reloc.specs.declared.fixup.Base.TheVariants.{Import, Section};

use crate::decode::instr_from;
use crate::fault::RelocFault;
use crate::instr::Instr;
use crate::machine::Block;
use crate::program::Program;
use crate::stop::Stop;
use crate::words::{NEXT, Row};

/// By how much one pass of a block moves a register on at most.
const MOST_MOVED: u64 = 0x2_0000;

/// What a relocation is tested against: how many instantiated sections and imports a fragment has, and how many bytes the
/// memory of the section to be relocated.
#[derive(Clone, Copy, Debug, PartialEq, Eq)]
pub struct Sizes {
    pub sections: u32,
    pub imports: u32,
    pub memory: u32,
}

/// Tests what a program would do to a section, without the section's memory.
///
/// # Errors
///
/// Those that [`apply`](crate::apply) reports, whatever the addresses and the contents of the memory are.
pub fn verify(program: &Program, sizes: Sizes) -> Result<(), RelocFault>
    ensures { result_err result ≡ verified sizes (program_bytes program.now) }
{
    verify_bytes(program.bytes(), sizes)
}

/// Tests the bytes of a readable program.
fn verify_bytes(bytes: &[u8], sizes: Sizes) -> Result<(), RelocFault>
    requires { program_fault bytes.now ≡ None }
    ensures { verified sizes bytes.now ≡ result_err result }
{
    let mut walk = Walk::start();
    let mut at = 0;
    while at < bytes.len() {
        let instr = instr_from(bytes, at)?;
        let earlier = Block {
            bytes,
            from: 0,
            to: at,
        };
        walk.execute(instr, earlier, sizes)?;
        at += 2 * instr.length();
    }
    Ok(())
}

/// The registers of a relocation program, with the numbers of sections.
#[derive(Clone, Copy)]
struct Walk {
    position: u64,
    import_index: u64,
    section_c: u32,
    section_d: u32,
}

impl Walk {
    /// Returns the registers that a program starts with.
    fn start() -> Walk
        ensures { walked result ≡ start }
    {
        Walk {
            position: 0,
            import_index: 0,
            section_c: 0,
            section_d: 1,
        }
    }

    /// Passes the instruction that comes after the earlier part of a program. A repeat is executed by its passes.
    fn execute(&mut self, instr: Instr, earlier: Block, sizes: Sizes) -> Result<(), RelocFault>
        requires near { IsNear self.old (2 ^ 26) }
        requires fits { instr_fits instr ≡ true }
        requires inside { earlier.to ≤ length earlier.bytes.now }
        requires room { IfSome (repeat_of instr) (λ r. 2 * r.blocks ≤ earlier.to) }
        ensures walks { (before : List Instr) → Before earlier.entry.bytes.now before earlier.entry.to → repeat_fault before (repeat_of instr) ≡ None → WalksTo sizes (walked self.old) (walked self.new) (executed before instr) (result_err result) }
        ensures moves { MovesOn self.old self.new (2 ^ 39) }
    {
        match instr.repeat() {
            Some(repeat) => {
                let from = earlier.to - 2 * repeat.blocks as usize;
                self.repeat(Block { from, ..earlier }, repeat.passes, sizes)
            }
            None => self.step_at(earlier.to, instr, sizes),
        }
    }

    /// Passes the instructions of a block this many times.
    fn repeat(&mut self, block: Block, passes: u32, sizes: Sizes) -> Result<(), RelocFault>
        requires near { IsNear self.old (2 ^ 26) }
        requires passes { passes < 2 ^ 22 }
        requires inside { block.to ≤ length block.bytes.now }
        requires order { block.from ≤ block.to }
        requires short { block.to ≤ block.from + 32 }
        ensures walks { (instrs : List Instr) → Spans block.entry.bytes.now block.entry.from instrs block.entry.to → WalksTo sizes (walked self.old) (walked self.new) (repeated passes (steps_from block.entry.from instrs)) (result_err result) }
        ensures moves { MovesOn self.old self.new (2 ^ 39) }
    {
        if passes < 3 {
            return self.pass_each(block, passes, sizes);
        }
        self.run_block(block, sizes)?;
        match self.after_passes(block, passes - 1, sizes) {
            Some(after) => {
                *self = after;
                Ok(())
            }
            None => self.pass_each(block, passes - 1, sizes),
        }
    }

    /// Returns the registers after a block was passed this many times more, if no pass is refused. After the first pass of a block all
    /// passes move the registers alike, so that only the last one is tested. Returns `None`, too, if a pass moves them far.
    fn after_passes(self, block: Block, passes: u32, sizes: Sizes) -> Option<Walk>
        requires near { IsNear self (2 ^ 26 + 2 ^ 17) }
        requires some { 0 < passes }
        requires passes { passes < 2 ^ 22 }
        requires inside { block.to ≤ length block.bytes.now }
        requires order { block.from ≤ block.to }
        requires short { block.to ≤ block.from + 32 }
        ensures walks { (instrs : List Instr) → Spans block.entry.bytes.now block.entry.from instrs block.entry.to → (before : State) → walked self ≡ state_after instrs before → IfSome result (λ after. WalksTo sizes (walked self) (walked after) (repeated passes (steps_from block.entry.from instrs)) None) }
        ensures moves { IfSome result (λ after. MovesOn self after (2 ^ 17 * passes)) }
    {
        let next = self.after_pass(block, sizes)?;
        let position = moved(self.position, next.position)?;
        let imports = moved(self.import_index, next.import_index)?;
        let more = u64::from(passes - 1);
        let last = Walk {
            position: self.position + position * more,
            import_index: self.import_index + imports * more,
            ..next
        };
        last.after_pass(block, sizes)
    }

    /// Returns the registers after a block was passed once more, if that isn't refused.
    fn after_pass(self, block: Block, sizes: Sizes) -> Option<Walk>
        requires near { IsNear self (2 ^ 39 + 2 ^ 26) }
        requires inside { block.to ≤ length block.bytes.now }
        requires order { block.from ≤ block.to }
        requires short { block.to ≤ block.from + 32 }
        ensures walks { (instrs : List Instr) → Spans block.entry.bytes.now block.entry.from instrs block.entry.to → IfSome result (λ after. WalksTo sizes (walked self) (walked after) (steps_from block.entry.from instrs) None) }
        ensures moves { IfSome result (λ after. MovesOn self after (2 ^ 17)) }
    {
        let mut after = self;
        match after.run_block(block, sizes) {
            Ok(()) => Some(after),
            Err(_) => None,
        }
    }

    /// Passes the instructions of a block this many times, one after the other.
    fn pass_each(&mut self, block: Block, passes: u32, sizes: Sizes) -> Result<(), RelocFault>
        requires near { IsNear self.old (2 ^ 26 + 2 ^ 17) }
        requires passes { passes < 2 ^ 22 }
        requires inside { block.to ≤ length block.bytes.now }
        requires order { block.from ≤ block.to }
        requires short { block.to ≤ block.from + 32 }
        ensures walks { (instrs : List Instr) → Spans block.entry.bytes.now block.entry.from instrs block.entry.to → WalksTo sizes (walked self.old) (walked self.new) (repeated passes (steps_from block.entry.from instrs)) (result_err result) }
        ensures moves { MovesOn self.old self.new (2 ^ 17 * passes) }
    {
        'passes: for _ in 0..passes {
            self.run_block(block, sizes)?;
        }
        Ok(())
    }

    /// Passes the instructions of a block.
    fn run_block(&mut self, block: Block, sizes: Sizes) -> Result<(), RelocFault>
        requires near { IsNear self.old (2 ^ 39 + 2 ^ 26) }
        requires inside { block.to ≤ length block.bytes.now }
        requires order { block.from ≤ block.to }
        requires short { block.to ≤ block.from + 32 }
        ensures walks { (instrs : List Instr) → Spans block.entry.bytes.now block.entry.from instrs block.entry.to → WalksTo sizes (walked self.old) (walked self.new) (steps_from block.entry.from instrs) (result_err result) }
        ensures moves { MovesOn self.old self.new (2 ^ 17) }
    {
        let mut at = block.from;
        while at < block.to {
            let instr = instr_from(block.bytes, at)?;
            self.step_at(at, instr, sizes)?;
            at += 2 * instr.length();
        }
        Ok(())
    }

    /// Passes the instruction at a place of a program. A repeat does nothing by itself.
    fn step_at(&mut self, at: usize, instr: Instr, sizes: Sizes) -> Result<(), RelocFault>
        requires near { IsNear self.old (2 ^ 40) }
        requires fits { instr_fits instr ≡ true }
        ensures walks { WalksTo sizes (walked self.old) (walked self.new) ((at, instr) ∷ []) (result_err result) }
        ensures moves { MovesOn self.old self.new 6144 }
    {
        match self.step(instr, sizes) {
            Ok(()) => Ok(()),
            Err(stop) => Err(stop.fault(at)),
        }
    }

    /// Passes an instruction. A repeat does nothing by itself.
    #[tactic(auto, unfolding(crate::specs::Verified::first_stop))]
    fn step(&mut self, instr: Instr, sizes: Sizes) -> Result<(), Stop>
        requires near { IsNear self.old (2 ^ 40) }
        requires fits { instr_fits instr ≡ true }
        ensures fault { first_stop sizes (acts_of instr (walked self.old)) ≡ result_err result }
        ensures after { OnOk result (walked self.new ≡ next_state instr (walked self.old)) }
        ensures moves { MovesOn self.old self.new 6144 }
    {
        let from = self.position;
        match instr {
            Instr::BySectDWithSkip { skip, count } => {
                self.row(Row::new(from + NEXT * u64::from(skip), NEXT, count), sizes)
            }
            Instr::BySectC(count) => self.row(Row::new(from, NEXT, count), sizes),
            Instr::BySectD(count) => self.row(Row::new(from, NEXT, count), sizes),
            Instr::VTable8(count) => self.row(Row::new(from, 2 * NEXT, count), sizes),
            Instr::TVector12(count) => self.pairs(Row::new(from, 3 * NEXT, count), sizes),
            Instr::TVector8(count) => self.pairs(Row::new(from, 2 * NEXT, count), sizes),
            Instr::ImportRun(count) => self.imports(count, self.import_index, sizes),
            Instr::SmByImport(index) | Instr::LgByImport(index) => {
                self.import_word(index, sizes)
            }
            Instr::SmBySection(section) | Instr::LgBySection(section) => {
                self.section_word(section, sizes)
            }
            Instr::SmSetSectC(section) | Instr::LgSetSectC(section) => self.set_c(section, sizes),
            Instr::SmSetSectD(section) | Instr::LgSetSectD(section) => self.set_d(section, sizes),
            Instr::IncrPosition(bytes) => {
                self.position = from + u64::from(bytes);
                Ok(())
            }
            Instr::SetPosition(offset) => {
                self.position = u64::from(offset);
                Ok(())
            }
            Instr::SmRepeat { .. } | Instr::LgRepeat { .. } => Ok(()),
        }
    }

    /// Passes the words of a row.
    fn row(&mut self, places: Row, sizes: Sizes) -> Result<(), Stop>
        requires stride { places.stride ≤ 12 }
        requires near { places.from + places.stride * places.count + 8 < 2 ^ 64 }
        ensures fault { (k : ℕ) → first_stop sizes (map add (row places.count places.from places.stride (Section k))) ≡ result_err result }
        ensures after { OnOk result (self.new ≡ record self.old { position = places.from + places.stride * places.count }) }
        ensures same { OnErr result (self.new ≡ self.old) }
    {
        sizes.row(places)?;
        self.position = places.from + places.stride * u64::from(places.count);
        Ok(())
    }

    /// Passes the words of a row and the word after each.
    fn pairs(&mut self, places: Row, sizes: Sizes) -> Result<(), Stop>
        requires stride { places.stride ≤ 12 }
        requires near { places.from + places.stride * places.count + 12 < 2 ^ 64 }
        ensures fault { (k l : ℕ) → first_stop sizes (map add (pairs places.count places.from places.stride (Section k) (Section l))) ≡ result_err result }
        ensures after { OnOk result (self.new ≡ record self.old { position = places.from + places.stride * places.count }) }
        ensures same { OnErr result (self.new ≡ self.old) }
    {
        sizes.pairs(places)?;
        self.position = places.from + places.stride * u64::from(places.count);
        Ok(())
    }

    /// Passes the words of some imports, from `first` on.
    fn imports(&mut self, count: u32, first: u64, sizes: Sizes) -> Result<(), Stop>
        requires word { self.old.position + 4 * count + 8 < 2 ^ 64 }
        requires index { first + count < 2 ^ 64 }
        ensures fault { first_stop sizes (map add (numbered count self.old.position first)) ≡ result_err result }
        ensures after { OnOk result (self.new ≡ record self.old { position = self.old.position + 4 * count; import_index = first + count }) }
        ensures same { OnErr result (self.new ≡ self.old) }
    {
        sizes.imports(self.position, count, first)?;
        self.position += NEXT * u64::from(count);
        self.import_index = first + u64::from(count);
        Ok(())
    }

    /// Passes the word of an import.
    #[tactic(auto, using(crate::proofs::Rows::numbered_one))]
    fn import_word(&mut self, index: u32, sizes: Sizes) -> Result<(), Stop>
        requires { self.old.position + 16 < 2 ^ 64 }
        ensures fault { first_stop sizes (add (added self.old.position (Import index)) ∷ []) ≡ result_err result }
        ensures after { OnOk result (self.new ≡ record self.old { position = self.old.position + 4; import_index = index + 1 }) }
        ensures same { OnErr result (self.new ≡ self.old) }
    {
        self.imports(1, u64::from(index), sizes)
    }

    /// Passes the word of a section that an instruction names.
    fn section_word(&mut self, section: u32, sizes: Sizes) -> Result<(), Stop>
        requires { self.old.position + 16 < 2 ^ 64 }
        ensures fault { first_stop sizes (need self.old.position section ∷ add (added self.old.position (Section section)) ∷ []) ≡ result_err result }
        ensures after { OnOk result (self.new ≡ record self.old { position = self.old.position + 4 }) }
        ensures same { OnErr result (self.new ≡ self.old) }
    {
        sizes.section(section, self.position)?;
        sizes.word(self.position)?;
        self.position += NEXT;
        Ok(())
    }

    /// Makes a section the new section C.
    fn set_c(&mut self, section: u32, sizes: Sizes) -> Result<(), Stop>
        ensures fault { first_stop sizes (need self.old.position section ∷ []) ≡ result_err result }
        ensures after { OnOk result (self.new ≡ record self.old { section_c = section }) }
        ensures same { OnErr result (self.new ≡ self.old) }
    {
        sizes.section(section, self.position)?;
        self.section_c = section;
        Ok(())
    }

    /// Makes a section the new section D.
    fn set_d(&mut self, section: u32, sizes: Sizes) -> Result<(), Stop>
        ensures fault { first_stop sizes (need self.old.position section ∷ []) ≡ result_err result }
        ensures after { OnOk result (self.new ≡ record self.old { section_d = section }) }
        ensures same { OnErr result (self.new ≡ self.old) }
    {
        sizes.section(section, self.position)?;
        self.section_d = section;
        Ok(())
    }
}

/// Returns by how much a register was moved on, unless it was moved back or far.
fn moved(from: u64, to: u64) -> Option<u64>
    ensures { IfSome result (λ by. (to ≡ from + by) × (by ≤ 2 ^ 17)) }
{
    let by = to.checked_sub(from)?;
    if by <= MOST_MOVED { Some(by) } else { None }
}

impl Sizes {
    /// Tests a section that an instruction names for the word at an offset.
    fn section(self, section: u32, word: u64) -> Result<(), Stop>
        ensures { act_stop self (need word section) ≡ result_err result }
    {
        if section < self.sections {
            Ok(())
        } else {
            Err(Stop::NoSection(word))
        }
    }

    /// Tests the word at an offset.
    fn word(self, at: u64) -> Result<(), Stop>
        requires { at + 8 < 2 ^ 64 }
        ensures { (k : ℕ) → act_stop self (add (added at (Section k))) ≡ result_err result }
    {
        if at + NEXT <= u64::from(self.memory) {
            Ok(())
        } else {
            Err(Stop::PastEnd(at))
        }
    }

    /// Tests an import that is to be added to the word at an offset.
    fn import(self, import: u64, at: u64) -> Result<(), Stop>
        requires { at + 8 < 2 ^ 64 }
        ensures { act_stop self (add (added at (Import import))) ≡ result_err result }
    {
        if import >= u64::from(self.imports) {
            return Err(Stop::NoImport(at));
        }
        if at + NEXT <= u64::from(self.memory) {
            Ok(())
        } else {
            Err(Stop::PastEnd(at))
        }
    }

    /// Tests the words of a row. If the last one ends inside, all do.
    fn row(self, places: Row) -> Result<(), Stop>
        requires stride { places.stride ≤ 12 }
        requires near { places.from + places.stride * places.count + 8 < 2 ^ 64 }
        ensures { (k : ℕ) → first_stop self (map add (row places.count places.from places.stride (Section k))) ≡ result_err result }
    {
        let next = places.from + places.stride * u64::from(places.count);
        if next + NEXT <= u64::from(self.memory) + places.stride {
            return Ok(());
        }
        self.each_word(places)
    }

    /// Tests the words of a row, one by one.
    fn each_word(self, places: Row) -> Result<(), Stop>
        requires { places.from + places.stride * places.count + 8 < 2 ^ 64 }
        ensures { (k : ℕ) → first_stop self (map add (row places.count places.from places.stride (Section k))) ≡ result_err result }
    {
        let mut at = places.from;
        'words: for _ in 0..places.count {
            self.word(at)?;
            at += places.stride;
        }
        Ok(())
    }

    /// Tests the words of a row and the word after each. If the last one ends inside, all do.
    fn pairs(self, places: Row) -> Result<(), Stop>
        requires stride { places.stride ≤ 12 }
        requires near { places.from + places.stride * places.count + 12 < 2 ^ 64 }
        ensures { (k l : ℕ) → first_stop self (map add (pairs places.count places.from places.stride (Section k) (Section l))) ≡ result_err result }
    {
        let next = places.from + places.stride * u64::from(places.count);
        if next + 2 * NEXT <= u64::from(self.memory) + places.stride {
            return Ok(());
        }
        self.each_pair(places)
    }

    /// Tests the words of a row and the word after each, one by one.
    fn each_pair(self, places: Row) -> Result<(), Stop>
        requires { places.from + places.stride * places.count + 12 < 2 ^ 64 }
        ensures { (k l : ℕ) → first_stop self (map add (pairs places.count places.from places.stride (Section k) (Section l))) ≡ result_err result }
    {
        let mut at = places.from;
        'words: for _ in 0..places.count {
            self.word(at)?;
            self.word(at + NEXT)?;
            at += places.stride;
        }
        Ok(())
    }

    /// Tests `count` imports from `first` on and the words from `position` on. If both end inside, all do.
    fn imports(self, position: u64, count: u32, first: u64) -> Result<(), Stop>
        requires word { position + 4 * count + 8 < 2 ^ 64 }
        requires index { first + count < 2 ^ 64 }
        ensures { first_stop self (map add (numbered count position first)) ≡ result_err result }
    {
        let end = position + NEXT * u64::from(count);
        let past = first + u64::from(count);
        if past <= u64::from(self.imports) && end <= u64::from(self.memory) {
            return Ok(());
        }
        self.each_import(position, count, first)
    }

    /// Tests imports and the words from `position` on, one by one.
    fn each_import(self, position: u64, count: u32, first: u64) -> Result<(), Stop>
        requires word { position + 4 * count + 8 < 2 ^ 64 }
        requires index { first + count < 2 ^ 64 }
        ensures { first_stop self (map add (numbered count position first)) ≡ result_err result }
    {
        let mut at = position;
        let mut import = first;
        'words: for _ in 0..count {
            self.import(import, at)?;
            at += NEXT;
            import += 1;
        }
        Ok(())
    }
}
