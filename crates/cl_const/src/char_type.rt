//! The types of character constants (N1570 6.4.4.4p9 to p11), and what they hold.

ghost use Rattle.std.specs.Prelude.{◌≡◌, ◌≤◌, ◌<◌, ◌^◌, true};
ghost use Rattle.cl_const.specs.Characters.{char_type_of, fits, front_of, in_type, is_single, is_unsigned_char, last_single, limit, number_of, signed_from};

use crate::escape::Code;
use crate::number::Number;

/// The type of a character constant, by its prefix: none: `char`, of 8 bits and signed, whose constants are `int`s;
/// `L`: `wchar_t`, of 32 bits and signed; `u`: `char16_t`; `U`: `char32_t`.
#[derive(Clone, Copy)]
pub enum CharType {
    Plain,
    Wide,
    Char16,
    Char32,
}

/// The type of the constant that is spelled so, by its first byte.
pub fn char_type_of(text: &[u8]) -> CharType
    ensures { result ≡ char_type_of text.now }
{
    match text.first() {
        Some(b'L') => CharType::Wide,
        Some(b'u') => CharType::Char16,
        Some(b'U') => CharType::Char32,
        _ => CharType::Plain,
    }
}

/// How many bytes stand before the first quote.
pub fn front_of(char_type: CharType) -> usize
    ensures value { result ≡ front_of char_type }
    ensures small { result ≤ 1 }
{
    match char_type {
        CharType::Plain => 0,
        _ => 1,
    }
}

/// Whether constants of the type are unsigned.
pub fn is_unsigned_char(char_type: CharType) -> bool
    ensures { result ≡ is_unsigned_char char_type }
{
    match char_type {
        CharType::Plain | CharType::Wide => false,
        CharType::Char16 | CharType::Char32 => true,
    }
}

/// Whether it is one element.
pub fn is_single(char_type: CharType, code: Code) -> bool
    ensures value { result ≡ is_single char_type code }
    ensures small { result ≡ true → number_of code < 2 ^ 32 }
{
    match code {
        Code::Element(value) => value <= limit(char_type),
        Code::Character(code) => code <= last_single(char_type),
    }
}

/// The last character that is one element, in UTF-8, UTF-16 or UTF-32.
fn last_single(char_type: CharType) -> u64
    ensures { result ≡ last_single char_type }
{
    match char_type {
        CharType::Plain => 0x7f,
        CharType::Char16 => 0xffff,
        _ => 0x10_ffff,
    }
}

/// Whether the type holds it: the value of an octal or hexadecimal escape is one of the unsigned type (6.4.4.4p9).
pub fn fits(char_type: CharType, code: Code) -> bool
    ensures { result ≡ fits char_type code }
{
    match code {
        Code::Element(value) => value <= limit(char_type),
        Code::Character(_) => true,
    }
}

/// The greatest code of the unsigned type that goes with it.
fn limit(char_type: CharType) -> u64
    ensures { result ≡ limit char_type }
{
    match char_type {
        CharType::Plain => 0xff,
        CharType::Char16 => 0xffff,
        _ => 0xffff_ffff,
    }
}

/// The value or the code.
pub fn number_of(code: Code) -> u64
    ensures { result ≡ number_of code }
{
    match code {
        Code::Element(value) => value,
        Code::Character(code) => code,
    }
}

/// The value of this code in its type.
pub fn in_type(char_type: CharType, code: u64) -> Number
    requires { code < 2 ^ 32 }
    ensures { result ≡ in_type char_type code }
{
    match char_type {
        CharType::Plain => Number::Signed(signed_from(code, 128)),
        CharType::Wide => Number::Signed(signed_from(code, 0x8000_0000)),
        _ => Number::Unsigned(code),
    }
}

/// The code in a signed type of this many values of each sign.
fn signed_from(code: u64, half: u64) -> i64
    requires small { code < 2 ^ 32 }
    requires half { half ≤ 2 ^ 31 }
    ensures { result ≡ signed_from code half }
{
    if code < half {
        code as i64
    } else {
        code as i64 - half as i64 - half as i64
    }
}
