//! Laws of the codes. The function does nothing.
ghost use Rattle.std.specs.Prelude.{◌≡◌, ℕ};
ghost use Rattle.pef_format.specs.declared.symbol.LibraryOptions.{LibraryOptions};
ghost use Rattle.pef_format.specs.Sections.{kind_code, kind_of, share_code, share_of};
ghost use Rattle.pef_format.specs.Symbols.{class_code, class_of, options_code, options_of};

/// Each code of a kind, a share or a class means one value, whose code it is, and each way to use a
/// library has a code.
#[tactic(auto, unfolding(crate::specs::Sections::kind_of, crate::specs::Sections::share_of, crate::specs::Symbols::class_of, crate::specs::Symbols::options_of))]
pub fn codes_agree()
    ensures kinds { (code : ℕ) → kind_code (kind_of code) ≡ code }
    ensures shares { (code : ℕ) → share_code (share_of code) ≡ code }
    ensures classes { (code : ℕ) → class_code (class_of code) ≡ code }
    ensures options { (options : LibraryOptions) → options_of (options_code options) ≡ options }
{}
