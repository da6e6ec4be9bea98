//! Laws of the definitions, for crates that use scripts. The functions do nothing.
ghost use Rattle.std.specs.Prelude.{◌≡◌, ◌<◌, ◌+◌, ◌%◌, ◌^◌, ℕ, Some, length, take, drop, slice_get, unwrap_or};
ghost use Rattle.byteorder.specs.Endian.{big_bytes, big_number};
ghost use Rattle.pef_words.specs.Bytes.{filled};
ghost use Rattle.pef_reloc.specs.declared.fixup.Base.{Base};
ghost use Rattle.pef_reloc.specs.declared.fixup.Fixup.{Fixup};
ghost use Rattle.pef_script.specs.Described.{IsOutside, described_memory};
ghost use Rattle.pef_script.specs.Script.{DescribedSection};
ghost use Rattle.pef_script.specs.WellFormed.{SectionHolds};

/// The memory that a script describes, byte by byte. A section has all its bytes. Outside fixups they
/// are the image's, and 0 past the image. At a fixup they spell the word that would be there plus the
/// address of the base, modulo 2^32.
pub fn described_bytes()
    ensures size { (address : Base → ℕ) (m n : ℕ) (s : DescribedSection) → SectionHolds m n s → length (described_memory address s) ≡ s.header.total }
    ensures outside { (address : Base → ℕ) (m n : ℕ) (s : DescribedSection) (x : ℕ) → SectionHolds m n s → x < s.header.total → IsOutside x s.fixups → slice_get (described_memory address s) x ≡ Some (unwrap_or (slice_get s.image x) 0) }
    ensures fixups { (address : Base → ℕ) (m n : ℕ) (s : DescribedSection) (i : ℕ) (f : Fixup) → SectionHolds m n s → slice_get s.fixups i ≡ Some f
        → take 4 (drop f.offset (described_memory address s)) ≡ big_bytes 4 ((big_number 4 (drop f.offset (filled s.image s.header.total)) + address f.base) % 2 ^ 32) }
{}
