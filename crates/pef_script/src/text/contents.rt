ghost use Rattle.std.specs.Prelude.{◌≡◌, true, ◌+◌, ◌*◌, ◌^◌, ◌<◌, [], ◌∷◌, Ok, false, vec_len, IfOk, OnOk};
ghost use Rattle.std.specs.Result.{result_err};
ghost use Rattle.pef_words.specs.Refusals.{first_met, result_map};
ghost use Rattle.pef_script.specs.Text.Contents.{base_named, bytes_in, bytes_line, bytes_tests, fix_line, fixup_of, fixup_tests, import_named, overlaps, tvector_line, vector_in, with_contents, with_fixups};
ghost use Rattle.pef_script.specs.Text.SoFar.{section_so_far};
ghost use Rattle.pef_script.specs.Text.Kept.Kinds.{fixup_by_kind, next_kind};
ghost use Rattle.pef_script.specs.Text.Kept.Reader.{so_far};
ghost use Rattle.pef_script.specs.Text.Kept.Sections.{AreApart};
ghost use Rattle.pef_script.specs.Text.Kept.Steps.{Steps};

use crate::text::LineFault;
use crate::text::fault::Stop;
use crate::text::kinds::is_section_word;
use crate::text::limits::{CONTENT_GROUP, MAX_NUMBER};
use crate::text::numbers::read_number;
use crate::text::reader::Reader;
use crate::text::tables::number_of_name;
use crate::text::words::{
    last_name, last_name_and_word, next_name, next_name_and_word, next_word, read_pairs, rest_after,
};
use pef_lines::Pairs;
use pef_reloc::{Base, Fixup, MAX_FIXUPS, WORD};

impl<'a> Reader<'a> {
    /// Reads a line `bytes SECTION HEX`, from after its first word.
    #[tactic(auto, using(crate::proofs::TextProofs::ListLemmas::distinct_set))]
    pub fn read_bytes(&mut self, line: &[u8]) -> Result<(), Stop>
        ensures { Steps result (so_far self.new) (bytes_line (so_far self.old) line.now) }
    {
        let (k, pairs) = self.bytes_in(line)?;
        self.sections[k].append(pairs)?;
        self.reached = CONTENT_GROUP;
        Ok(())
    }

    /// Reads a line `fix SECTION OFFSET section NAME` or `fix SECTION OFFSET import NAME`, from after its
    /// first word.
    #[tactic(auto, using(crate::proofs::TextProofs::KindLemmas::fixup_in_is))]
    pub fn read_fix(&mut self, line: &[u8]) -> Result<(), Stop>
        ensures { Steps result (so_far self.new) (fix_line (so_far self.old) line.now) }
    {
        let (k, fixup) = self.fixup_in(line)?;
        self.put_fixups(k, &[fixup])?;
        self.place = k;
        if let Base::Section(target) = fixup.base {
            self.target = target as usize;
        }
        Ok(())
    }

    /// Reads a line `tvector SECTION OFFSET CODE DATA`, from after its first word.
    pub fn read_tvector(&mut self, line: &[u8]) -> Result<(), Stop>
        ensures { Steps result (so_far self.new) (tvector_line (so_far self.old) line.now) }
    {
        let (k, fixups) = self.vector_in(line)?;
        self.put_fixups(k, &fixups)
    }

    /// Returns the bytes that a line has for a section, by its number, if they are allowed.
    #[tactic(auto, unfolding(crate::specs::Text::Contents::bytes_in))]
    fn bytes_in<'l>(&self, line: &'l [u8]) -> Result<(usize, Pairs<'l>), LineFault>
        ensures bytes { result ≡ bytes_in (so_far self.now) line.now }
        ensures below { IfOk result (λ b. b.0 < vec_len self.now.sections) }
    {
        let (name, digits) = last_name_and_word(1, line)?;
        let pairs = read_pairs(2, digits)?;
        self.enter(CONTENT_GROUP)?;
        let k = self.section_named(self.place, 1, name)?;
        self.test_bytes(k, pairs.count())?;
        Ok((k, pairs))
    }

    /// Returns the fixup that a line has for a section, by its number, if it is allowed.
    #[tactic(auto, unfolding(crate::specs::Text::Kept::Kinds::fixup_by_kind))]
    fn fixup_in(&self, line: &[u8]) -> Result<(usize, Fixup), LineFault>
        ensures fixup { result ≡ fixup_by_kind (so_far self.now) line.now }
        ensures below { IfOk result (λ f. f.0 < vec_len self.now.sections) }
        ensures apart { IfOk result (λ f. AreApart (section_so_far (so_far self.now) f.0).fixups (f.1 ∷ [])) }
    {
        let (name, offset, rest) = next_name_and_word(1, line)?;
        let (kind, rest) = next_kind(rest)?;
        let target = last_name(4, rest)?;
        self.enter(CONTENT_GROUP)?;
        let is_section = kind?;
        let offset = read_number(MAX_NUMBER, 2, offset)?;
        let k = self.section_named(self.place, 1, name)?;
        let base = self.base_named(is_section, 4, target)?;
        self.test_fixups(k, offset, 1)?;
        Ok((k, Fixup { offset, base }))
    }

    /// Returns the fixups of the transition vector that a line has for a section, by its number, if they are
    /// allowed.
    #[tactic(auto, using(crate::proofs::TextProofs::Placing::apart_two), unfolding(crate::specs::Text::Contents::vector_in))]
    fn vector_in(&self, line: &[u8]) -> Result<(usize, [Fixup; 2]), LineFault>
        ensures fixups { result ≡ vector_in (so_far self.now) line.now }
        ensures below { IfOk result (λ v. v.0 < vec_len self.now.sections) }
        ensures apart { IfOk result (λ v. AreApart (section_so_far (so_far self.now) v.0).fixups v.1) }
    {
        let (name, offset, rest) = next_name_and_word(1, line)?;
        let (code, rest) = next_name(3, rest)?;
        let data = last_name(4, rest)?;
        self.enter(CONTENT_GROUP)?;
        let offset = read_number(MAX_NUMBER, 2, offset)?;
        let k = self.section_named(self.place, 1, name)?;
        let code = self.section_base(3, code)?;
        let data = self.section_base(4, data)?;
        self.test_fixups(k, offset, 2)?;
        Ok((k, vector_fixups(offset, code, data)))
    }

    /// Adds fixups to those of section `k`, which the line names.
    ///
    /// Inlined where their count is known.
    #[inline(always)]
    #[tactic(auto, using(crate::proofs::TextProofs::ListLemmas::distinct_set))]
    fn put_fixups(&mut self, k: usize, fixups: &[Fixup]) -> Result<(), Stop>
        requires below { k < vec_len self.old.sections }
        requires apart { AreApart (section_so_far (so_far self.old) k).fixups fixups.now }
        ensures { Steps result (so_far self.new) (Ok (with_contents (so_far self.old) k (with_fixups (section_so_far (so_far self.old) k) fixups.now))) }
    {
        self.sections[k].add_fixups(fixups)?;
        self.reached = CONTENT_GROUP;
        Ok(())
    }

    /// Returns the section with a name, a line's word `at`, as a base.
    #[inline(always)]
    fn section_base(&self, at: u8, name: &[u8]) -> Result<Base, LineFault>
        ensures { result ≡ base_named (so_far self.now) true at name.now }
    {
        let k = self.section_named(self.target, at, name)?;
        Ok(Base::Section(k as u32))
    }

    /// Returns the number of the import with a name, a line's word `at`.
    #[tactic(auto, using(crate::proofs::TextProofs::TableLemmas::imports_seen))]
    pub fn import_named(&self, at: u8, name: &[u8]) -> Result<usize, LineFault>
        ensures found { result ≡ import_named (so_far self.now) at name.now }
        ensures below { IfOk result (λ j. j < 2 ^ 32) }
    {
        number_of_name(&self.parts.imports, name).ok_or(LineFault::UnknownName { word: at })
    }

    /// Returns the section or the import with a name, a line's word `at`, as a base.
    #[inline(always)]
    fn base_named(&self, is_section: bool, at: u8, name: &[u8]) -> Result<Base, LineFault>
        ensures { result ≡ base_named (so_far self.now) is_section at name.now }
    {
        if is_section {
            return self.section_base(at, name);
        }
        let j = self.import_named(at, name)?;
        Ok(Base::Import(j as u32))
    }

    /// Refuses bytes past the end of section `k`.
    fn test_bytes(&self, k: usize, count: usize) -> Result<(), LineFault>
        requires { k < vec_len self.now.sections }
        ensures { result_err result ≡ first_met (bytes_tests (so_far self.now) k count) }
    {
        let section = &self.sections[k];
        let total = section.header.total as usize;
        let filled = section.image.len();
        if filled > total || count > total - filled {
            return Err(LineFault::OutsideSection { word: 2 });
        }
        Ok(())
    }

    /// Refuses this many fixups, one after the other, from an offset in section `k`.
    fn test_fixups(&self, k: usize, offset: u32, count: u8) -> Result<(), LineFault>
        requires { k < vec_len self.now.sections }
        ensures tests { result_err result ≡ first_met (fixup_tests (so_far self.now) k offset count) }
        ensures inside { OnOk result (offset + 4 * count < 2 ^ 32) }
        ensures apart { OnOk result (overlaps (section_so_far (so_far self.now) k).fixups offset count ≡ false) }
    {
        let section = &self.sections[k];
        if section.fixups.len() + usize::from(count) > MAX_FIXUPS {
            return Err(LineFault::TooMany { word: 1 });
        }
        let total = section.header.total;
        if u64::from(offset) + u64::from(WORD) * u64::from(count) > u64::from(total) {
            return Err(LineFault::OutsideSection { word: 2 });
        }
        if section.fixups.overlaps(offset, count) {
            return Err(LineFault::Overlap { word: 2 });
        }
        Ok(())
    }
}

/// Returns whether the next word of a line says that a base is a section, and the rest after its space.
#[inline(always)]
fn next_kind(line: &[u8]) -> Result<(Result<bool, LineFault>, &[u8]), LineFault>
    ensures { result_map (λ p. (p.0, p.1.now)) result ≡ next_kind line.now }
{
    if let Some(rest) = rest_after("section ", line) {
        return Ok((Ok(true), rest));
    }
    if let Some(rest) = rest_after("import ", line) {
        return Ok((Ok(false), rest));
    }
    kind_by_word(line)
}

/// Returns what `next_kind` returns, for any word: the usual ones are compared as texts.
#[tactic(auto, unfolding(crate::specs::Text::Kept::Kinds::next_kind))]
fn kind_by_word(line: &[u8]) -> Result<(Result<bool, LineFault>, &[u8]), LineFault>
    ensures { result_map (λ p. (p.0, p.1.now)) result ≡ next_kind line.now }
{
    let (word, rest) = next_word(3, line)?;
    Ok((is_section_word(3, word), rest))
}

/// Returns the fixups of a transition vector at an offset: its data word follows its code word.
fn vector_fixups(offset: u32, code_base: Base, data_base: Base) -> [Fixup; 2]
    requires { offset + 4 < 2 ^ 32 }
    ensures { result ≡ fixup_of offset code_base ∷ fixup_of (offset + 4) data_base ∷ [] }
{
    let code = Fixup {
        offset,
        base: code_base,
    };
    let data = Fixup {
        offset: offset + WORD,
        base: data_base,
    };
    [code, data]
}
