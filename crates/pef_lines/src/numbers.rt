ghost use Rattle.std.specs.Prelude.{◌≡◌, ◌≤◌, IfSome, option_map};
ghost use Rattle.std.specs.Option.{option_and_then, option_copied};
ghost use Rattle.pef_lines.specs.Cursor.{first_number, words_of};
ghost use Rattle.pef_lines.specs.Kept.Numbers.{digits_parted, limited, separated};
ghost use Rattle.pef_lines.specs.Numbers.{below, decimal_number, digits_number, hex_number, hex_value};
ghost use Rattle.pef_lines.specs.Views.{words_in};

/// The most hex digits of a number.
const MAX_HEX_DIGITS: usize = 8;

/// Returns the value of a hex digit, of either case.
#[inline(always)]
pub fn hex_digit(digit: u8) -> Option<u8>
    ensures { result ≡ hex_value digit }
{
    match digit {
        b'0'..=b'9' => Some(digit - b'0'),
        b'A'..=b'F' => Some(digit - b'A' + 10),
        b'a'..=b'f' => Some(digit - b'a' + 10),
        _ => None,
    }
}

/// Returns the value of a digit to a base.
#[inline(always)]
fn digit_to(base: u8, digit: u8) -> Option<u8>
    ensures { result ≡ below base (hex_value digit) }
{
    match hex_digit(digit) {
        Some(value) if value < base => Some(value),
        _ => None,
    }
}

/// Returns the number that digits to a base from 1 to 16 spell, if it has 32 bits.
///
/// Inlined where the base is known, so that only the tests of its digits are left.
#[inline(always)]
fn digits_number(base: u8, digits: &[u8]) -> Option<u32>
    requires least { 1 ≤ base }
    requires most { base ≤ 16 }
    ensures { result ≡ digits_number base digits.now }
{
    let mut value: u64 = 0;
    for digit in digits {
        value = value * u64::from(base) + u64::from(digit_to(base, *digit)?);
        if value > u64::from(u32::MAX) {
            return None;
        }
    }
    Some(value as u32)
}

/// Returns the value of a decimal digit.
#[inline(always)]
fn decimal_digit(digit: u8) -> Option<u8>
    ensures value { result ≡ below 10 (hex_value digit) }
    ensures most { IfSome result (λ value. value ≤ 9) }
{
    match digit {
        b'0'..=b'9' => Some(digit - b'0'),
        _ => None,
    }
}

/// Returns the number that decimal digits spell, if it has 32 bits. It is faster than the loop for any base.
#[inline(always)]
fn decimal_digits(digits: &[u8]) -> Option<u32>
    ensures { result ≡ digits_number 10 digits.now }
{
    let mut value: u64 = 0;
    for digit in digits {
        value = value * 10 + u64::from(decimal_digit(*digit)?);
        if value > u64::from(u32::MAX) {
            return None;
        }
    }
    Some(value as u32)
}

/// Returns the number that one to eight hex digits spell, of either case.
pub fn hex_number(digits: &[u8]) -> Option<u32>
    ensures { result ≡ hex_number digits.now }
{
    if digits.is_empty() || digits.len() > MAX_HEX_DIGITS {
        return None;
    }
    digits_number(16, digits)
}

/// Returns the number that decimal digits without a leading zero spell, if it has 32 bits.
pub fn decimal_number(digits: &[u8]) -> Option<u32>
    ensures { result ≡ decimal_number digits.now }
{
    match digits {
        [] => None,
        [b'0'] => Some(0),
        [b'0', ..] => None,
        _ => decimal_digits(digits),
    }
}

/// Returns the number that the first word of a line spells in decimal, and what follows the space after it, if there
/// is one. It looks at each byte once.
#[inline(always)]
pub fn first_number(line: &[u8]) -> Option<(u32, Option<&[u8]>)>
    ensures { option_map (λ p. (p.0, words_in (option_copied p.1))) result ≡ first_number (words_of line.now) }
{
    let (first, rest) = line.split_first()?;
    if *first == b'0' {
        return separated(0, rest);
    }
    let digit = decimal_digit(*first)?;
    let (number, behind) = digits_before(digit, rest)?;
    separated(number, behind)
}

/// Returns a number and what follows the space after it, if the line doesn't end there.
#[inline(always)]
fn separated(number: u32, behind: &[u8]) -> Option<(u32, Option<&[u8]>)>
    ensures { option_map (λ p. (p.0, words_in (option_copied p.1))) result ≡ separated (number, behind.now) }
{
    match behind.split_first() {
        None => Some((number, None)),
        Some((end, rest)) if *end == b' ' => Some((number, Some(rest))),
        Some(_) => None,
    }
}

/// Returns the number that a digit and those after it spell, if it has 32 bits, and what follows them.
#[inline(always)]
fn digits_before(first: u8, bytes: &[u8]) -> Option<(u32, &[u8])>
    requires { first ≤ 9 }
    ensures { option_and_then separated (option_map (λ p. (p.0, p.1.now)) result) ≡ limited (digits_parted first bytes.now) }
{
    let mut value = u64::from(first);
    let mut len = 0;
    for byte in bytes {
        let Some(digit) = decimal_digit(*byte) else {
            break;
        };
        value = value * 10 + u64::from(digit);
        if value > u64::from(u32::MAX) {
            return None;
        }
        len += 1;
    }
    let (_, behind) = bytes.split_at(len);
    Some((value as u32, behind))
}
