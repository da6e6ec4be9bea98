ghost use Rattle.std.specs.Prelude.{◌≡◌, ◌+◌, ◌*◌, ◌^◌, ◌<◌, ◌≤◌, true, IfSome, length};
ghost use Rattle.std.specs.Option.{option_map};
ghost use Rattle.pef_cert.specs.Fixups.Additions.{behind, after_first};
ghost use Rattle.pef_cert.specs.Fixups.Answers.{Says};
ghost use Rattle.pef_cert.specs.Fixups.Kept.Walks.{passed, place_of, placed, start_place, state_of, stepped, walked};
ghost use Rattle.pef_reloc.specs.Instrs.{instr_fits, program_length};
ghost use Rattle.pef_reloc.specs.Steps.{Makes, is_flat, moved, numbered, pairs, past_import, row};
ghost use Rattle.pef_reloc.specs.declared.fixup.Base.TheVariants.{Import, Section};

use crate::fixups::additions::{WORD, after_first, after_import};
use pef_reloc::{Base, Fixup, Instr};

/// The state of a walk of a program along fixups: the registers, and the fixups that are left to make.
#[derive(Clone, Copy)]
struct Walk<'a> {
    left: &'a [Fixup],
    position: u64,
    import_index: u64,
    c: u32,
    d: u32,
}

/// Returns whether a program is flat, that is without repeats and with numbers that fit, and makes
/// exactly these fixups in their order. It reads each fixup at most once.
pub fn makes(fixups: &[Fixup], program: &[Instr]) -> bool
    requires { length program.now ≤ 2 ^ 33 }
    ensures { Says result ((is_flat program.now ≡ true) × Makes fixups.now program.now) }
{
    match walk_along(fixups, program) {
        Some(walk) => walk.left.is_empty(),
        None => false,
    }
}

/// Returns the length of a program in halfwords.
pub fn program_length(program: &[Instr]) -> u64
    ensures { result ≡ program_length program.now }
{
    let mut length = 0;
    for instr in program {
        length += instr.length() as u64;
    }
    length
}

/// Walks along the fixups with a whole program.
fn walk_along<'a>(fixups: &'a [Fixup], program: &[Instr]) -> Option<Walk<'a>>
    requires { length program.now ≤ 2 ^ 33 }
    ensures { option_map place_of result ≡ walked program.now (start_place fixups.entry.now) }
{
    let mut walk = Walk {
        left: fixups,
        position: 0,
        import_index: 0,
        c: 0,
        d: 1,
    };
    for instr in program {
        walk = walk.pass(*instr)?;
    }
    Some(walk)
}

impl<'a> Walk<'a> {
    /// Continues with an instruction, if it fits, isn't a repeat and makes exactly the next fixups.
    fn pass(self, instr: Instr) -> Option<Walk<'a>>
        requires position { self.position < 2 ^ 60 }
        requires import_index { self.import_index < 2 ^ 60 }
        ensures is { option_map place_of result ≡ passed instr (place_of self.entry) }
        ensures near { IfSome result (λ w. (w.position ≤ self.entry.position + 2 ^ 26) × (w.import_index ≤ self.entry.import_index + 2 ^ 26)) }
    {
        if instr.repeat().is_none() && instr.fits() {
            self.step(instr)
        } else {
            None
        }
    }

    /// Continues with an instruction that fits.
    fn step(self, instr: Instr) -> Option<Walk<'a>>
        requires fits { instr_fits instr ≡ true }
        requires position { self.position < 2 ^ 60 }
        requires import_index { self.import_index < 2 ^ 60 }
        ensures is { option_map place_of result ≡ stepped instr (place_of self.entry) }
        ensures near { IfSome result (λ w. (w.position ≤ self.entry.position + 2 ^ 26) × (w.import_index ≤ self.entry.import_index + 2 ^ 26)) }
    {
        match instr {
            Instr::BySectDWithSkip { skip, count } => {
                self.add_words(WORD * u64::from(skip), count, WORD, self.d)
            }
            Instr::BySectC(count) => self.add_words(0, count, WORD, self.c),
            Instr::BySectD(count) => self.add_words(0, count, WORD, self.d),
            Instr::VTable8(count) => self.add_words(0, count, 2 * WORD, self.d),
            Instr::SmBySection(section) | Instr::LgBySection(section) => {
                self.add_section(section)
            }
            Instr::TVector8(count) => self.add_pairs(count, 2 * WORD),
            Instr::TVector12(count) => self.add_pairs(count, 3 * WORD),
            Instr::ImportRun(count) => self.add_imports(count),
            Instr::SmByImport(import) | Instr::LgByImport(import) => self.add_import(import),
            Instr::IncrPosition(bytes) => Some(self.moved_to(self.position + u64::from(bytes))),
            Instr::SetPosition(position) => Some(self.moved_to(u64::from(position))),
            Instr::SmSetSectC(c) | Instr::LgSetSectC(c) => Some(Walk { c, ..self }),
            Instr::SmSetSectD(d) | Instr::LgSetSectD(d) => Some(Walk { d, ..self }),
            Instr::SmRepeat { .. } | Instr::LgRepeat { .. } => Some(self),
        }
    }

    /// Moves to a position.
    fn moved_to(self, position: u64) -> Walk<'a>
        ensures left { result.left.now ≡ self.entry.left.now }
        ensures state { state_of result ≡ record (state_of self.entry) { position = position } }
    {
        Walk { position, ..self }
    }

    /// Passes some bytes, then adds a section to words, `stride` bytes apart.
    fn add_words(self, bytes: u64, count: u32, stride: u64, section: u32) -> Option<Walk<'a>>
        requires position { self.position < 2 ^ 60 }
        requires bytes { bytes < 2 ^ 10 }
        requires count { count ≤ 512 }
        requires stride { stride ≤ 12 }
        ensures is { option_map place_of result ≡ placed (moved (bytes + stride * count) (state_of self.entry)) (behind (row count (self.entry.position + bytes) stride (Section section)) self.entry.left.now) }
        ensures near { IfSome result (λ w. (w.position ≤ self.entry.position + 2 ^ 26) × (w.import_index ≡ self.entry.import_index)) }
    {
        let from = self.position + bytes;
        let left = after_words(self.left, count, from, stride, Base::Section(section))?;
        let position = from + stride * u64::from(count);
        Some(Walk {
            left,
            position,
            ..self
        })
    }

    /// Adds sections C and D side by side, `stride` bytes apart.
    fn add_pairs(self, count: u32, stride: u64) -> Option<Walk<'a>>
        requires position { self.position < 2 ^ 60 }
        requires count { count ≤ 512 }
        requires stride { stride ≤ 12 }
        ensures is { option_map place_of result ≡ placed (moved (stride * count) (state_of self.entry)) (behind (pairs count self.entry.position stride (Section self.entry.c) (Section self.entry.d)) self.entry.left.now) }
        ensures near { IfSome result (λ w. (w.position ≤ self.entry.position + 2 ^ 26) × (w.import_index ≡ self.entry.import_index)) }
    {
        let left = self.after_pairs(count, stride)?;
        let position = self.position + stride * u64::from(count);
        Some(Walk {
            left,
            position,
            ..self
        })
    }

    /// Adds this many imports from the next one on.
    fn add_imports(self, count: u32) -> Option<Walk<'a>>
        requires position { self.position < 2 ^ 60 }
        requires import_index { self.import_index < 2 ^ 60 }
        requires count { count ≤ 512 }
        ensures is { option_map place_of result ≡ placed (record (state_of self.entry) { position = self.entry.position + 4 * count; import_index = self.entry.import_index + count }) (behind (numbered count self.entry.position self.entry.import_index) self.entry.left.now) }
        ensures near { IfSome result (λ w. (w.position ≤ self.entry.position + 2 ^ 26) × (w.import_index ≤ self.entry.import_index + 2 ^ 26)) }
    {
        let left = self.after_imports(count)?;
        let position = self.position + WORD * u64::from(count);
        let import_index = self.import_index + u64::from(count);
        Some(Walk {
            left,
            position,
            import_index,
            ..self
        })
    }

    /// Adds a section to a word.
    fn add_section(self, section: u32) -> Option<Walk<'a>>
        requires position { self.position < 2 ^ 60 }
        ensures is { option_map place_of result ≡ placed (moved 4 (state_of self.entry)) (after_first self.entry.position (Section section) self.entry.left.now) }
        ensures near { IfSome result (λ w. (w.position ≤ self.entry.position + 2 ^ 26) × (w.import_index ≡ self.entry.import_index)) }
    {
        let left = after_first(self.left, self.position, Base::Section(section))?;
        let position = self.position + WORD;
        Some(Walk {
            left,
            position,
            ..self
        })
    }

    /// Adds an import.
    fn add_import(self, import: u32) -> Option<Walk<'a>>
        requires position { self.position < 2 ^ 60 }
        requires import { import < 2 ^ 26 }
        ensures is { option_map place_of result ≡ placed (past_import import (state_of self.entry)) (after_first self.entry.position (Import import) self.entry.left.now) }
        ensures near { IfSome result (λ w. (w.position ≤ self.entry.position + 2 ^ 26) × (w.import_index ≤ self.entry.import_index + 2 ^ 26)) }
    {
        let left = after_first(self.left, self.position, Base::Import(import))?;
        let position = self.position + WORD;
        let import_index = u64::from(import) + 1;
        Some(Walk {
            left,
            position,
            import_index,
            ..self
        })
    }

    /// Returns the fixups left after this many pairs of sections C and D.
    fn after_pairs(self, count: u32, stride: u64) -> Option<&'a [Fixup]>
        requires position { self.position < 2 ^ 60 }
        requires stride { stride ≤ 12 }
        ensures { option_map (λ l. l.now) result ≡ behind (pairs count self.entry.position stride (Section self.entry.c) (Section self.entry.d)) self.entry.left.now }
    {
        let mut left = self.left;
        let mut position = self.position;
        'pairs: for _ in 0..count {
            left = after_first(left, position, Base::Section(self.c))?;
            left = after_first(left, position + WORD, Base::Section(self.d))?;
            position += stride;
        }
        Some(left)
    }

    /// Returns the fixups left after this many imports from the next one on.
    fn after_imports(self, count: u32) -> Option<&'a [Fixup]>
        requires position { self.position < 2 ^ 60 }
        requires import_index { self.import_index < 2 ^ 60 }
        ensures { option_map (λ l. l.now) result ≡ behind (numbered count self.entry.position self.entry.import_index) self.entry.left.now }
    {
        let mut left = self.left;
        let mut position = self.position;
        let mut import = self.import_index;
        'imports: for _ in 0..count {
            left = after_import(left, position, import)?;
            position += WORD;
            import += 1;
        }
        Some(left)
    }
}

/// Returns the fixups left after this many words of a base, `stride` bytes apart.
fn after_words<'a>(
    fixups: &'a [Fixup],
    count: u32,
    from: u64,
    stride: u64,
    base: Base,
) -> Option<&'a [Fixup]>
    requires from { from < 2 ^ 61 }
    requires stride { stride ≤ 12 }
    ensures { option_map (λ l. l.now) result ≡ behind (row count from stride base) fixups.entry.now }
{
    let mut left = fixups;
    let mut position = from;
    'words: for _ in 0..count {
        left = after_first(left, position, base)?;
        position += stride;
    }
    Some(left)
}
