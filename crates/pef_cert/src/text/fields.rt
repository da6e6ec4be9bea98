ghost use Rattle.std.specs.Prelude.{◌≡◌, ◌≤◌, IfSome};
ghost use Rattle.pef_cert.specs.Text.Lines.{fixups_line, head_line, length_line, number_line, version_line};

use pef_lines::{Words, decimal_number};

/// The most fixups of a certificate in a text.
const MAX_FIXUPS: u32 = 65_536;

/// The line that begins a certificate, or ends a text.
#[derive(Clone, Copy)]
pub enum Head {
    /// The certificate of a section begins.
    Section(u32),
    /// The text ends.
    End,
}

/// A version of texts.
#[derive(Clone, Copy)]
pub enum Version {
    /// Each row of labels has a line.
    One,
    /// Equal neighbouring rows have one line.
    Two,
}

/// Returns the version of the line `pefcert N`.
#[tactic(auto, unfolding(crate::specs::Text::Lines::version_line))]
pub fn version_line(line: &[u8]) -> Option<Version>
    ensures { result ≡ version_line line.now }
{
    if line == b"pefcert 1".as_slice() {
        return Some(Version::One);
    }
    if line == b"pefcert 2".as_slice() {
        return Some(Version::Two);
    }
    None
}

/// Returns the number of a line `NAME NUMBER`.
#[tactic(auto, unfolding(crate::specs::Text::Lines::number_line))]
fn number_line(name: &[u8], line: &[u8]) -> Option<u32>
    ensures { result ≡ number_line name.now line.now }
{
    let mut words = Words::new(line);
    words.expect(name)?;
    let number = decimal_number(words.next_word()?)?;
    if !words.is_empty() {
        return None;
    }
    Some(number)
}

/// Returns the meaning of a line that begins a certificate or ends a text.
#[tactic(auto, unfolding(crate::specs::Text::Lines::head_line))]
pub fn head_line(line: &[u8]) -> Option<Head>
    ensures { result ≡ head_line line.now }
{
    if line == b"end".as_slice() {
        return Some(Head::End);
    }
    let section = number_line(b"section", line)?;
    Some(Head::Section(section))
}

/// Returns the number of fixups in the line `fixups N`.
#[tactic(auto, unfolding(crate::specs::Text::Lines::fixups_line))]
pub fn fixups_line(line: &[u8]) -> Option<u32>
    ensures count { result ≡ fixups_line line.now }
    ensures most { IfSome result (λ count. count ≤ 65536) }
{
    let count = number_line(b"fixups", line)?;
    if count > MAX_FIXUPS {
        return None;
    }
    Some(count)
}

/// Returns the number of halfwords in the line `length N`.
#[tactic(auto, unfolding(crate::specs::Text::Lines::length_line))]
pub fn length_line(line: &[u8]) -> Option<u32>
    ensures { result ≡ length_line line.now }
{
    number_line(b"length", line)
}
