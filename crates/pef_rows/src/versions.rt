ghost use Rattle.std.specs.Prelude.{◌≡◌, decimal, option_map};
ghost use Rattle.pef_ports.specs.Pieces.{piece_text};
ghost use Rattle.pef_ports.specs.Sent.{Sends};
ghost use Rattle.pef_rows.specs.Versions.{has_digits, is_plain, left_out, lettered, letter_if, letter_of, version_text};

use cfm_members::{NumVersion, Stage};
use pef_ports::{Page, Piece, Sink, StreamFault, print_pieces};

/// Prints a version as people write it, such as 1.2b3, or `-` if its stage is unknown or one of its digits is above 9.
#[tactic(auto, unfolding(crate::specs::Versions::version_text))]
pub fn print_version<W: Sink>(out: &mut W, page: &mut Page, number: u32) -> Result<(), StreamFault>
    ensures { Sends result (W.stream out.old) (W.stream out.new) page.old.items page.new.items (version_text number) }
{
    let version = NumVersion::from_number(number);
    let letter = letter_if(has_digits(number), version.stage);
    print_lettered(out, page, version, letter)
}

/// Prints a version with the letter of its stage.
fn print_lettered<W: Sink>(
    out: &mut W,
    page: &mut Page,
    version: NumVersion,
    letter: Option<&[u8]>,
) -> Result<(), StreamFault>
    ensures { Sends result (W.stream out.old) (W.stream out.new) page.old.items page.new.items (lettered version (option_map (λ letter. letter.now) letter.entry)) }
{
    let Some(letter) = letter else {
        return print_pieces(out, page, &[Piece::Text(b"-")]);
    };
    let no_bug = version.bug == 0;
    let plain = is_plain(version.stage, version.release);
    print_pieces(
        out,
        page,
        &[
            Piece::Number(u64::from(version.major)),
            Piece::Text(b"."),
            Piece::Number(u64::from(version.minor)),
            text_piece(no_bug, b"."),
            number_piece(no_bug, version.bug),
            text_piece(plain, letter),
            number_piece(plain, version.release),
        ],
    )
}

/// Returns whether the first four places of a version number, of four bits each, are decimal digits.
fn has_digits(number: u32) -> bool
    ensures { result ≡ has_digits number }
{
    number / 0x1000_0000 <= 9
        && number / 0x0100_0000 % 16 <= 9
        && number / 0x0010_0000 % 16 <= 9
        && number / 0x0001_0000 % 16 <= 9
}

/// Returns the letter of a stage, or `None` for an unknown code and without digits.
fn letter_if(digits: bool, stage: Stage) -> Option<&'static [u8]>
    ensures { option_map (λ letter. letter.now) result ≡ letter_if digits stage }
{
    if digits { letter_of(stage) } else { None }
}

/// Returns the letter of a stage, or `None` for an unknown code.
fn letter_of(stage: Stage) -> Option<&'static [u8]>
    ensures { option_map (λ letter. letter.now) result ≡ letter_of stage }
{
    match stage {
        Stage::Development => Some(b"d"),
        Stage::Alpha => Some(b"a"),
        Stage::Beta => Some(b"b"),
        Stage::Final => Some(b"f"),
        Stage::Other(_) => None,
    }
}

/// Returns whether a version is written without its stage.
fn is_plain(stage: Stage, release: u8) -> bool
    ensures { result ≡ is_plain stage release }
{
    matches!(stage, Stage::Final) && release == 0
}

/// Returns a text, or nothing.
fn text_piece<'a>(omitted: bool, text: &'a [u8]) -> Piece<'a>
    ensures { piece_text result ≡ left_out omitted text.entry.now }
{
    Piece::Text(if omitted { b"" } else { text })
}

/// Returns a number, or nothing.
fn number_piece(omitted: bool, n: u8) -> Piece<'static>
    ensures { piece_text result ≡ left_out omitted (decimal n) }
{
    if omitted {
        Piece::Text(b"")
    } else {
        Piece::Number(u64::from(n))
    }
}
