ghost use Rattle.std.specs.Prelude.{◌≡◌, ◌≤◌, ◌<◌, ◌+◌, ◌*◌, ◌/◌, ◌%◌, ◌∷◌, ◌++◌, [], length};
ghost use Rattle.arrayvec.specs.ArrayVec.{array_vec_len};
ghost use Rattle.pef_ports.specs.Text.{hex_digit, hex_text, word_text};

use arrayvec::ArrayVec;

/// The most bytes of a line that is put together before it is sent.
const LINE: usize = 96;

/// How many bytes a word has.
const WORD: usize = 4;

/// The two upper-case digits of each byte, one byte after the other.
static DIGITS: [u8; 512] =
    *b"000102030405060708090A0B0C0D0E0F101112131415161718191A1B1C1D1E1F202122232425262728292A2B2C2D2E2F303132333435363738393A3B3C3D3E3F404142434445464748494A4B4C4D4E4F505152535455565758595A5B5C5D5E5F606162636465666768696A6B6C6D6E6F707172737475767778797A7B7C7D7E7F808182838485868788898A8B8C8D8E8F909192939495969798999A9B9C9D9E9FA0A1A2A3A4A5A6A7A8A9AAABACADAEAFB0B1B2B3B4B5B6B7B8B9BABBBCBDBEBFC0C1C2C3C4C5C6C7C8C9CACBCCCDCECFD0D1D2D3D4D5D6D7D8D9DADBDCDDDEDFE0E1E2E3E4E5E6E7E8E9EAEBECEDEEEFF0F1F2F3F4F5F6F7F8F9FAFBFCFDFEFF";

/// A line that is put together before it is sent.
pub type Line = ArrayVec<u8, LINE>;

/// Appends some text.
fn push_text(line: &mut Line, text: &[u8])
    requires { array_vec_len line.old + length text.now ≤ 96 }
    ensures text { line.new.items ≡ line.old.items ++ text.now }
    ensures len { array_vec_len line.new ≡ array_vec_len line.old + length text.now }
{
    let _ = line.try_extend_from_slice(text);
}

/// Appends a number of 32 bits in eight digits.
pub fn push_word(line: &mut Line, n: u32)
    requires { array_vec_len line.old + 8 ≤ 96 }
    ensures text { line.new.items ≡ line.old.items ++ word_text n }
    ensures len { array_vec_len line.new ≡ array_vec_len line.old + 8 }
{
    push_hex(line, &n.to_be_bytes());
}

/// Appends the two digits of each byte.
pub fn push_hex(line: &mut Line, bytes: &[u8])
    requires { array_vec_len line.old + 2 * length bytes.now ≤ 96 }
    ensures text { line.new.items ≡ line.old.items ++ hex_text bytes.now }
    ensures len { array_vec_len line.new ≡ array_vec_len line.old + 2 * length bytes.now }
{
    if bytes.len() == WORD {
        push_four(line, bytes);
    } else {
        push_each(line, bytes);
    }
}

/// Appends the two digits of each byte, one byte after the other.
fn push_each(line: &mut Line, bytes: &[u8])
    requires { array_vec_len line.old + 2 * length bytes.now ≤ 96 }
    ensures text { line.new.items ≡ line.old.items ++ hex_text bytes.now }
    ensures len { array_vec_len line.new ≡ array_vec_len line.old + 2 * length bytes.now }
{
    for b in bytes {
        push_text(line, &[high(*b), low(*b)]);
    }
}

/// Appends the digits of four bytes at once, which takes half the time.
fn push_four(line: &mut Line, bytes: &[u8])
    requires four { length bytes.now ≡ 4 }
    requires room { array_vec_len line.old + 8 ≤ 96 }
    ensures text { line.new.items ≡ line.old.items ++ hex_text bytes.now }
    ensures len { array_vec_len line.new ≡ array_vec_len line.old + 8 }
{
    push_text(line, &word_digits(bytes));
}

/// Returns the digits of four bytes.
#[inline(always)]
pub(crate) fn word_digits(bytes: &[u8]) -> [u8; 8]
    requires { length bytes.now ≡ 4 }
    ensures { result ≡ hex_text bytes.now }
{
    let (a, b, c, d) = (bytes[0], bytes[1], bytes[2], bytes[3]);
    [
        high(a),
        low(a),
        high(b),
        low(b),
        high(c),
        low(c),
        high(d),
        low(d),
    ]
}

/// Returns the digits of a byte.
#[inline(always)]
pub(crate) fn byte_digits(byte: u8) -> [u8; 2]
    ensures { result ≡ hex_text (byte ∷ []) }
{
    [high(byte), low(byte)]
}

/// Returns the first digit of a byte.
#[inline(always)]
fn high(byte: u8) -> u8
    ensures { result ≡ hex_digit (byte / 16) }
{
    DIGITS[usize::from(byte) * 2]
}

/// Returns the second digit of a byte.
#[inline(always)]
fn low(byte: u8) -> u8
    ensures { result ≡ hex_digit (byte % 16) }
{
    DIGITS[usize::from(byte) * 2 + 1]
}
