ghost use Rattle.std.specs.Prelude.{◌≡◌, ◌<◌, ◌≤◌, IfSome, drop, length, option_map, take};
ghost use Rattle.std.specs.List.{list_all};
ghost use Rattle.std.specs.Option.{option_copied};
ghost use Rattle.pef_lines.specs.Kept.Words.{printing_len, word_parted};
ghost use Rattle.pef_lines.specs.Lines.{cut_at};
ghost use Rattle.pef_lines.specs.Words.{is_printing, is_word, last_word, next_word};

use memchr::memchr;

/// The byte that ends a line.
pub const LINE_FEED: u8 = b'\n';

/// Returns what is before the first `byte` and what is after it, or `None` if no such byte is there.
pub fn cut_at(byte: u8, bytes: &[u8]) -> Option<(&[u8], &[u8])>
    ensures { option_map (λ p. (p.0.now, p.1.now)) result ≡ cut_at byte bytes.now }
{
    let at = memchr(byte, bytes)?;
    let (before, rest) = bytes.split_at(at);
    let (_, behind) = rest.split_at(1);
    Some((before, behind))
}

/// Returns the same as [`cut_at`]. It takes fewer steps if the byte is near, and more if it is far.
pub fn cut_near(byte: u8, bytes: &[u8]) -> Option<(&[u8], &[u8])>
    ensures { option_map (λ p. (p.0.now, p.1.now)) result ≡ cut_at byte bytes.now }
{
    let at = place_near(byte, bytes)?;
    let (front, rest) = bytes.split_at(at);
    let (_, back) = rest.split_at(1);
    Some((front, back))
}

/// Returns the index of the first `byte`.
fn place_near(byte: u8, bytes: &[u8]) -> Option<usize>
    ensures cut { option_map (λ k. (take k bytes.now, drop 1 (drop k bytes.now))) result ≡ cut_at byte bytes.now }
    ensures inside { IfSome result (λ k. k < length bytes.now) }
{
    for (at, other) in bytes.iter().enumerate() {
        if *other == byte {
            return Some(at);
        }
    }
    None
}

/// Returns whether these bytes are a word: one or more printing bytes, none of them a space.
fn is_word(bytes: &[u8]) -> bool
    ensures { result ≡ is_word bytes.now }
{
    !bytes.is_empty() && all_printing(bytes)
}

/// Returns whether all bytes are printing ones other than a space. Every byte is tested, so that the compiler tests many at a
/// time.
fn all_printing(bytes: &[u8]) -> bool
    ensures { result ≡ list_all is_printing bytes.now }
{
    let mut all = true;
    for byte in bytes {
        all &= matches!(*byte, 0x21..=0x7E);
    }
    all
}

/// Returns the one word that is left of a line.
#[tactic(auto, unfolding(crate::specs::Words::last_word))]
pub fn last_word(line: &[u8]) -> Option<&[u8]>
    ensures { option_copied result ≡ last_word line.now }
{
    if !is_word(line) {
        return None;
    }
    Some(line)
}

/// Returns the next word of a line, and what follows the space after it. It looks at each byte once.
#[tactic(auto, using(crate::proofs::WordLemmas::front_word))]
pub fn next_word(line: &[u8]) -> Option<(&[u8], &[u8])>
    ensures { option_map (λ p. (p.0.now, p.1.now)) result ≡ next_word line.now }
{
    let (word, rest) = line.split_at(printing_len(line));
    word_parted(word, rest)
}

/// Returns a word that isn't empty, and what follows the space after it.
fn word_parted<'l>(word: &'l [u8], rest: &'l [u8]) -> Option<(&'l [u8], &'l [u8])>
    ensures { option_map (λ p. (p.0.now, p.1.now)) result ≡ word_parted word.entry.now rest.entry.now }
{
    let (end, behind) = rest.split_first()?;
    if *end != b' ' || word.is_empty() {
        return None;
    }
    Some((word, behind))
}

/// Returns how many printing bytes, no spaces, there are at the front.
fn printing_len(bytes: &[u8]) -> usize
    ensures is { result ≡ printing_len bytes.now }
    ensures inside { result ≤ length bytes.now }
{
    for (at, byte) in bytes.iter().enumerate() {
        if !matches!(*byte, 0x21..=0x7E) {
            return at;
        }
    }
    bytes.len()
}
