//! Integer constants (N1570 6.4.4.1).

ghost use Rattle.std.specs.Prelude.{◌≡◌, ◌+◌, ◌*◌, ◌≤◌, ◌<◌, ◌^◌, length, nat_eq, MatchOption};
ghost use Rattle.std.specs.List.{list_any, prefix_len};
ghost use Rattle.std.specs.Cmp.Lexicographic.{pointwise};
ghost use Rattle.cl_const.specs.Integers.{base_of, digit, digits_value, front_len, integer, is_digit, radix, suffix_unsigned, typed};

use crate::number::Number;

/// What the digits of a number count.
#[derive(Clone, Copy)]
pub enum Base {
    Octal,
    Decimal,
    Hexadecimal,
}

/// The suffixes of signed constants, and of none.
const SIGNED: [&[u8]; 5] = [b"", b"l", b"L", b"ll", b"LL"];

/// The suffixes of unsigned constants.
const UNSIGNED: [&[u8]; 18] = [
    b"u", b"U", b"ul", b"uL", b"Ul", b"UL", b"lu", b"lU", b"Lu", b"LU", b"ull", b"uLL", b"Ull",
    b"ULL", b"llu", b"llU", b"LLu", b"LLU",
];

/// The value of an integer constant, which is all of a preprocessing number. `None` comes exactly where the number is no
/// integer constant, or has no type: one without `u` is signed if it fits 64 bits so; else a decimal one has no type, and
/// another one is unsigned.
pub fn integer(text: &[u8]) -> Option<Number>
    ensures { result ≡ integer text.now }
{
    let base = base_of(text);
    let (_, rest) = text.split_at(front_len(text, base));
    let count = digit_count(rest, base);
    let (digits, suffix) = rest.split_at(count);
    if count == 0 {
        return None;
    }
    match (suffix_unsigned(suffix), digits_value(digits, base)) {
        (Some(unsigned), Some(value)) => typed(base, unsigned, value),
        _ => None,
    }
}

/// The base that the text's front tells.
pub fn base_of(text: &[u8]) -> Base
    ensures { result ≡ base_of text.now }
{
    match text {
        [b'0', b'x' | b'X', ..] => Base::Hexadecimal,
        [b'0', ..] => Base::Octal,
        _ => Base::Decimal,
    }
}

/// How many bytes stand before the digits.
pub fn front_len(text: &[u8], base: Base) -> usize
    requires { base ≡ base_of text.now }
    ensures value { result ≡ front_len base }
    ensures within { result ≤ length text.now }
{
    match base {
        Base::Hexadecimal => 2,
        _ => 0,
    }
}

/// How many digits the text begins with.
pub fn digit_count(text: &[u8], base: Base) -> usize
    ensures value { result ≡ prefix_len (is_digit base) text.now }
    ensures within { result ≤ length text.now }
{
    let mut count = 0;
    while count < text.len() && is_digit(base, text[count]) {
        count += 1;
    }
    count
}

/// Whether the byte is a digit of the base.
pub fn is_digit(base: Base, byte: u8) -> bool
    ensures { result ≡ is_digit base byte }
{
    match base {
        Base::Octal => matches!(byte, b'0'..=b'7'),
        Base::Decimal => matches!(byte, b'0'..=b'9'),
        Base::Hexadecimal => matches!(byte, b'0'..=b'9' | b'A'..=b'F' | b'a'..=b'f'),
    }
}

/// What a digit counts. A byte that is no digit counts 0.
fn digit(byte: u8) -> u64
    ensures value { result ≡ digit byte }
    ensures small { result < 16 }
{
    match byte {
        b'0'..=b'9' => u64::from(byte - b'0'),
        b'A'..=b'F' => u64::from(byte - b'A' + 10),
        b'a'..=b'f' => u64::from(byte - b'a' + 10),
        _ => 0,
    }
}

fn radix(base: Base) -> u64
    ensures { result ≡ radix base }
{
    match base {
        Base::Octal => 8,
        Base::Decimal => 10,
        Base::Hexadecimal => 16,
    }
}

/// What the digits count. `None` comes exactly where that doesn't fit 64 bits.
pub fn digits_value(digits: &[u8], base: Base) -> Option<u64>
    ensures { MatchOption result (2 ^ 64 ≤ digits_value base digits.now) (λ value. value ≡ digits_value base digits.now) }
{
    let mut value: u64 = 0;
    for byte in digits {
        match with_digit(value, base, *byte) {
            Some(more) => value = more,
            None => return None,
        }
    }
    Some(value)
}

fn with_digit(value: u64, base: Base, byte: u8) -> Option<u64>
    ensures { MatchOption result (2 ^ 64 ≤ value * radix base + digit byte) (λ more. more ≡ value * radix base + digit byte) }
{
    match value.checked_mul(radix(base)) {
        Some(value) => value.checked_add(digit(byte)),
        None => None,
    }
}

/// Whether the suffix is one of unsigned constants. `None` comes exactly where it is no suffix.
fn suffix_unsigned(suffix: &[u8]) -> Option<bool>
    ensures { result ≡ suffix_unsigned suffix.now }
{
    if is_among(&SIGNED, suffix) {
        Some(false)
    } else if is_among(&UNSIGNED, suffix) {
        Some(true)
    } else {
        None
    }
}

/// Whether the text is one of the words.
fn is_among(words: &[&[u8]], text: &[u8]) -> bool
    ensures { result ≡ list_any (λ word. pointwise nat_eq word.now text.now) words.now }
{
    words.iter().any(|word| *word == text)
}

/// The constant of this value.
fn typed(base: Base, unsigned: bool, value: u64) -> Option<Number>
    ensures { result ≡ typed base unsigned value }
{
    if unsigned {
        return Some(Number::Unsigned(value));
    }
    match (i64::try_from(value), base) {
        (Ok(value), _) => Some(Number::Signed(value)),
        (Err(_), Base::Decimal) => None,
        (Err(_), _) => Some(Number::Unsigned(value)),
    }
}
