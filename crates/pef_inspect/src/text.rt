//! What shows that a container was changed as text is: its line ends, or its characters.
ghost use Rattle.std.specs.Prelude.{◌≡◌, ◌&&◌};
ghost use Rattle.pef_inspect.specs.Text.{are_many, are_paired, begins_one, begins_three, begins_two, changed_by, characters_after, characters_changed, counted, ends_after, ends_changed, following, goes_on, is_binary, no_signs, signs_after, signs_in, text_signs};

/// So many ends of lines, or characters of UTF-8, are enough to see a change.
const MANY: u32 = 32;

/// So many bytes are enough to see that none is above 7F.
const MANY_BYTES: usize = 1024;

/// The ends of lines in some bytes.
#[derive(Clone, Copy)]
struct LineEnds {
    last: u8,
    /// Whether the byte before the last one is no text.
    after_binary: bool,
    feeds: u32,
    returns: u32,
    pairs: u32,
    /// Those that follow a byte that is no text.
    odd_feeds: u32,
    odd_returns: u32,
    odd_pairs: u32,
}

/// Whether some bytes are characters of UTF-8.
#[derive(Clone, Copy)]
struct Characters {
    /// How many bytes of the last character are still to follow.
    left: u8,
    characters: u32,
    are_whole: bool,
    are_ascii: bool,
}

/// What was seen in some bytes.
#[derive(Clone, Copy)]
struct Signs {
    ends: LineEnds,
    characters: Characters,
}

/// Returns how many bytes or characters say that some bytes were changed as text is, or 0.
#[tactic(auto, unfolding(crate::specs::Text::text_signs))]
pub(crate) fn text_signs(bytes: &[u8]) -> usize
    ensures { result ≡ text_signs bytes.now }
{
    changed_by(signs_in(bytes), bytes.len())
}

/// Returns what is seen in some bytes.
fn signs_in(bytes: &[u8]) -> Signs
    ensures { result ≡ signs_in no_signs bytes.now }
{
    let mut signs = no_signs();
    for byte in bytes {
        signs = signs_after(signs, *byte);
    }
    signs
}

/// Returns what is seen in no bytes.
fn no_signs() -> Signs
    ensures { result ≡ no_signs }
{
    Signs {
        ends: LineEnds {
            last: b' ',
            after_binary: false,
            feeds: 0,
            returns: 0,
            pairs: 0,
            odd_feeds: 0,
            odd_returns: 0,
            odd_pairs: 0,
        },
        characters: Characters {
            left: 0,
            characters: 0,
            are_whole: true,
            are_ascii: true,
        },
    }
}

/// Returns what is seen after one more byte.
fn signs_after(signs: Signs, byte: u8) -> Signs
    ensures { result ≡ signs_after signs byte }
{
    Signs {
        ends: ends_after(signs.ends, byte),
        characters: characters_after(signs.characters, byte),
    }
}

/// Returns the ends of lines after one more byte.
#[tactic(auto, unfolding(crate::specs::Text::ends_after))]
fn ends_after(ends: LineEnds, byte: u8) -> LineEnds
    ensures { result ≡ ends_after ends byte }
{
    let is_feed = byte == b'\n';
    let is_return = byte == b'\r';
    let is_pair = both(is_feed, ends.last == b'\r');
    let is_odd = is_binary(ends.last);
    LineEnds {
        last: byte,
        after_binary: is_odd,
        feeds: counted(ends.feeds, is_feed),
        returns: counted(ends.returns, is_return),
        pairs: counted(ends.pairs, is_pair),
        odd_feeds: counted(ends.odd_feeds, both(is_feed, is_odd)),
        odd_returns: counted(ends.odd_returns, both(is_return, is_odd)),
        odd_pairs: counted(ends.odd_pairs, both(is_pair, ends.after_binary)),
    }
}

/// Returns a count, after one more if something holds.
fn counted(count: u32, holds: bool) -> u32
    ensures { result ≡ counted count holds }
{
    if holds {
        count.saturating_add(1)
    } else {
        count
    }
}

/// Returns whether both hold.
fn both(one: bool, other: bool) -> bool
    ensures { result ≡ (one && other) }
{
    one && other
}

/// Returns whether a byte is no text.
fn is_binary(byte: u8) -> bool
    ensures { result ≡ is_binary byte }
{
    byte < b' ' && !(byte == b'\t' || byte == b'\n' || byte == b'\r')
}

/// Returns the characters after one more byte.
#[tactic(auto, unfolding(crate::specs::Text::characters_after))]
fn characters_after(seen: Characters, byte: u8) -> Characters
    ensures { result ≡ characters_after seen byte }
{
    if seen.left > 0 {
        Characters {
            left: seen.left - 1,
            characters: counted(seen.characters, seen.left == 1),
            are_whole: both(seen.are_whole, goes_on(byte)),
            are_ascii: both(seen.are_ascii, byte < 0x80),
        }
    } else {
        Characters {
            left: following(byte),
            characters: seen.characters,
            are_whole: both(seen.are_whole, begins_one(byte)),
            are_ascii: both(seen.are_ascii, byte < 0x80),
        }
    }
}

/// Returns how many bytes of a character are to follow its first one.
fn following(byte: u8) -> u8
    ensures { result ≡ following byte }
{
    if begins_two(byte) {
        1
    } else if begins_three(byte) {
        2
    } else {
        0
    }
}

/// Returns whether a byte is a character, or begins one.
fn begins_one(byte: u8) -> bool
    ensures { result ≡ begins_one byte }
{
    byte < 0x80 || begins_two(byte) || begins_three(byte)
}

/// Returns whether a byte begins a character of two bytes.
fn begins_two(byte: u8) -> bool
    ensures { result ≡ begins_two byte }
{
    byte >= 0xC2 && byte < 0xE0
}

/// Returns whether a byte begins a character of three bytes.
fn begins_three(byte: u8) -> bool
    ensures { result ≡ begins_three byte }
{
    byte >= 0xE0 && byte < 0xF0
}

/// Returns whether a byte goes on with a character.
fn goes_on(byte: u8) -> bool
    ensures { result ≡ goes_on byte }
{
    byte >= 0x80 && byte < 0xC0
}

/// Returns how many ends of lines or characters say that so many bytes were changed, or 0.
fn changed_by(signs: Signs, length: usize) -> usize
    ensures { result ≡ changed_by signs length }
{
    let ends = ends_changed(signs.ends);
    if ends == 0 {
        characters_changed(signs.characters, length)
    } else {
        ends as usize
    }
}

/// Returns how many ends of lines say that bytes were changed, or 0.
fn ends_changed(ends: LineEnds) -> u32
    ensures { result ≡ ends_changed ends }
{
    if are_many(ends.feeds, ends.odd_returns) {
        ends.returns
    } else if are_many(ends.returns, ends.odd_feeds) {
        ends.feeds
    } else if are_paired(ends) {
        ends.pairs
    } else {
        0
    }
}

/// Returns whether there is no byte of one kind, and many of the other don't follow text.
fn are_many(others: u32, odd: u32) -> bool
    ensures { result ≡ are_many others odd }
{
    others == 0 && odd >= MANY
}

/// Returns whether many pairs don't follow text, and each byte of a kind is in a pair.
fn are_paired(ends: LineEnds) -> bool
    ensures { result ≡ are_paired ends }
{
    ends.odd_pairs >= MANY && (ends.pairs == ends.feeds || ends.pairs == ends.returns)
}

/// Returns how many characters say that so many bytes were changed, or 0.
fn characters_changed(seen: Characters, length: usize) -> usize
    ensures { result ≡ characters_changed seen length }
{
    if both(seen.are_ascii, length >= MANY_BYTES) {
        length
    } else if both(seen.are_whole, seen.characters >= MANY) {
        seen.characters as usize
    } else {
        0
    }
}
