//! The words that the lines of rows have in a listing and in an inspection. In an inspection an offset comes before them, and more
//! words may come after them.
ghost use Rattle.std.specs.Prelude.{◌≡◌};
ghost use Rattle.pef_listing.specs.Listing.{magnitude, sign_text, strength_text};

use pef_format::{ExportFields, ImportFields, LibraryFields};
use pef_ports::{Decimal, Hex, HexByte, Joined, Page, Printed, Sink, StreamFault, Verbatim};

/// The words of a library's line.
#[derive(Clone, Copy)]
pub struct LibraryWords<Name> {
    pub name: Name,
    pub fields: LibraryFields,
}

impl<Name: Printed + Copy> Printed for LibraryWords<Name> {
    ghost use Rattle.pef_listing.specs.Listing.{library_words};

    ghost text = { λ words. library_words (Name.text words.name) words.fields };

    #[inline(always)]
    fn print<W: Sink>(&self, out: &mut W, page: &mut Page) -> Result<(), StreamFault> {
        let fields = self.fields;
        let name = Joined(
            Joined(Verbatim(b"library "), self.name),
            Verbatim(b" current "),
        );
        let current = Joined(
            Joined(name, Decimal(u64::from(fields.current))),
            Verbatim(b" oldimp "),
        );
        let old_imp = Joined(
            Joined(current, Decimal(u64::from(fields.old_imp))),
            Verbatim(b" options "),
        );
        Joined(old_imp, HexByte(fields.options)).print(out, page)
    }
}

/// The words of an import's line.
#[derive(Clone, Copy)]
pub struct ImportWords<Name> {
    pub number: u64,
    pub name: Name,
    /// The name of the import's library.
    pub library: Name,
    pub fields: ImportFields,
}

impl<Name: Printed + Copy> Printed for ImportWords<Name> {
    ghost use Rattle.pef_listing.specs.Listing.{import_words};

    ghost text = { λ words. import_words words.number (Name.text words.name) (Name.text words.library) words.fields };

    #[inline(always)]
    fn print<W: Sink>(&self, out: &mut W, page: &mut Page) -> Result<(), StreamFault> {
        let class = u64::from(self.fields.class);
        let number = Joined(Verbatim(b"import "), Decimal(self.number));
        let name = Joined(Joined(number, Verbatim(b" ")), self.name);
        let owner = Joined(Joined(name, Verbatim(b" of ")), self.library);
        let kind = Joined(Joined(owner, Verbatim(b" class ")), Decimal(class));
        Joined(kind, Verbatim(strength(self.fields.weak))).print(out, page)
    }
}

/// The words of an export's line.
#[derive(Clone, Copy)]
pub struct ExportWords<Name> {
    pub name: Name,
    pub fields: ExportFields,
}

impl<Name: Printed + Copy> Printed for ExportWords<Name> {
    ghost use Rattle.pef_listing.specs.Listing.{export_words};

    ghost text = { λ words. export_words (Name.text words.name) words.fields };

    #[inline(always)]
    fn print<W: Sink>(&self, out: &mut W, page: &mut Page) -> Result<(), StreamFault> {
        let fields = self.fields;
        let class = u64::from(fields.class);
        let name = Joined(Verbatim(b"export "), self.name);
        let kind = Joined(Joined(name, Verbatim(b" class ")), Decimal(class));
        let section = Joined(Joined(kind, Verbatim(b" section ")), SectionNumber(fields));
        Joined(Joined(section, Verbatim(b" value ")), Hex(fields.value)).print(out, page)
    }
}

/// The number of the section of an export. It holds the fields whole: the prover sees at once that a struct is passed on unchanged, and
/// of a signed number only by a lemma.
#[derive(Clone, Copy)]
struct SectionNumber(ExportFields);

impl Printed for SectionNumber {
    ghost use Rattle.pef_listing.specs.Listing.{section_number_text};

    ghost text = { λ part. section_number_text part.0.section };

    #[inline(always)]
    fn print<W: Sink>(&self, out: &mut W, page: &mut Page) -> Result<(), StreamFault> {
        let section = self.0.section;
        Joined(Verbatim(sign(section)), Decimal(magnitude(section))).print(out, page)
    }
}

/// Returns the sign of a section's number.
pub fn sign(section: i32) -> &'static [u8]
    ensures { result.now ≡ sign_text section }
{
    if section < 0 { b"-" } else { b"" }
}

/// Returns a section's number without its sign.
pub fn magnitude(section: i32) -> u64
    ensures { result ≡ magnitude section }
{
    u64::from(section.unsigned_abs())
}

/// Returns the last word of an import's line: whether the import may be missing.
fn strength(weak: bool) -> &'static [u8]
    ensures { result.now ≡ strength_text weak }
{
    if weak { b" weak" } else { b" strong" }
}
