//! The words of the format's codes as values of JSON: those that scripts and the bindings have for them. A code that the format
//! doesn't name is `null`.
ghost use Rattle.std.specs.Prelude.{◌≡◌};
ghost use Rattle.pef_rows.specs.Codes.{class_member, kind_text, share_text};

use pef_format::{SectionKind, Share, SymbolClass};

/// Returns the word for a kind of section.
pub fn kind_text(kind: SectionKind) -> &'static [u8]
    ensures { result.now ≡ kind_text kind }
{
    match kind {
        SectionKind::Code => b"\"code\"",
        SectionKind::UnpackedData => b"\"data\"",
        SectionKind::PatternData => b"\"pattern\"",
        SectionKind::Constant => b"\"const\"",
        SectionKind::Loader => b"\"loader\"",
        SectionKind::Debug => b"\"debug\"",
        SectionKind::ExecutableData => b"\"exec\"",
        SectionKind::Exception => b"\"exception\"",
        SectionKind::Traceback => b"\"traceback\"",
        SectionKind::Other(_) => b"null",
    }
}

/// Returns the word for how a section is shared.
pub fn share_text(share: Share) -> &'static [u8]
    ensures { result.now ≡ share_text share }
{
    match share {
        Share::Process => b"\"process\"",
        Share::Global => b"\"global\"",
        Share::Protected => b"\"protected\"",
        Share::Other(_) => b"null",
    }
}

/// Returns the member of a symbol's object for the word of its class.
#[tactic(auto, unfolding(crate::specs::Codes::class_member))]
pub fn class_member(class: SymbolClass) -> &'static [u8]
    ensures { result.now ≡ class_member class }
{
    match class {
        SymbolClass::Code => b",\"class_text\":\"code\"",
        SymbolClass::Data => b",\"class_text\":\"data\"",
        SymbolClass::TransitionVector => b",\"class_text\":\"tvector\"",
        SymbolClass::Toc => b",\"class_text\":\"toc\"",
        SymbolClass::Glue => b",\"class_text\":\"glue\"",
        SymbolClass::Other(_) => b",\"class_text\":null",
    }
}
