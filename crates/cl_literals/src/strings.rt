//! Character constants and string literals (N1570 6.4.4.4, 6.4.5).

ghost use Rattle.std.specs.Prelude.{◌≡◌, ◌≢◌, ◌<◌, ◌≤◌, ◌^◌, ◌∷◌, [], length};
ghost use Rattle.cl_const.specs.Characters.{stands};
ghost use Rattle.cl_literals.specs.Strings.{body, char_value, characters, constant_type, count, element_type, has_bad_escape, is_bad_escape, prefix_len, prefix_of, one_letter, unit, units, units_in, units_of, utf16_len, utf8_len};

use cl_const::{CharType, Code, Constant, Number, c_char_len, character, code_of, fits};
use cl_types::Basic;

/// The prefix of a character constant or a string literal.
#[derive(Clone, Copy)]
pub enum Prefix {
    Plain,
    /// `u8`
    Utf8,
    /// `L`
    Wide,
    /// `u`
    Char16,
    /// `U`
    Char32,
}

/// The prefix of a literal, by its spelling.
pub fn prefix_of(text: &[u8]) -> Prefix
    ensures { result ≡ prefix_of text.now }
{
    match text {
        [b'u', b'8', ..] => Prefix::Utf8,
        [first, ..] => one_letter(*first),
        [] => Prefix::Plain,
    }
}

fn one_letter(byte: u8) -> Prefix
    ensures { result ≡ one_letter byte }
{
    match byte {
        b'L' => Prefix::Wide,
        b'u' => Prefix::Char16,
        b'U' => Prefix::Char32,
        _ => Prefix::Plain,
    }
}

impl Prefix {
    /// How many bytes it has.
    fn len(self) -> usize
        ensures value { result ≡ prefix_len self }
        ensures small { result ≤ 2 }
    {
        match self {
            Prefix::Plain => 0,
            Prefix::Utf8 => 2,
            _ => 1,
        }
    }

    /// The type whose values a literal's elements are.
    pub fn unit(self) -> CharType
        ensures { result ≡ unit self }
    {
        match self {
            Prefix::Wide => CharType::Wide,
            Prefix::Char16 => CharType::Char16,
            Prefix::Char32 => CharType::Char32,
            _ => CharType::Plain,
        }
    }

    /// The type of a string literal's elements (6.4.5p6): `char`, `wchar_t`, which is `int`, `char16_t`, which is
    /// `unsigned short`, or `char32_t`, which is `unsigned int`.
    pub fn element_type(self) -> Basic
        ensures { result ≡ element_type self }
    {
        match self {
            Prefix::Wide => Basic::Int,
            Prefix::Char16 => Basic::UShort,
            Prefix::Char32 => Basic::UInt,
            _ => Basic::Char,
        }
    }

    /// The type of a character constant (6.4.4.4p10, p11): `int` without a prefix, else as the elements.
    pub fn char_type(self) -> Basic
        ensures { result ≡ constant_type self }
    {
        match self {
            Prefix::Char16 => Basic::UShort,
            Prefix::Char32 => Basic::UInt,
            _ => Basic::Int,
        }
    }
}

/// The value of a character constant, in its type. None comes exactly where it has several elements, an escape sequence that is
/// none or that its type doesn't hold, or bytes of no character.
pub fn char_value(text: &[u8]) -> Option<i128>
    ensures { result ≡ char_value text.now }
{
    match character(text) {
        Some(Constant::Known(Number::Signed(value))) => Some(i128::from(value)),
        Some(Constant::Known(Number::Unsigned(value))) => Some(i128::from(value)),
        _ => None,
    }
}

/// What stands between the quotes.
fn body(text: &[u8]) -> &[u8]
    ensures { result.now ≡ body text.now }
{
    let front = prefix_of(text).len();
    if front + 2 <= text.len() {
        &text[front + 1..text.len() - 1]
    } else {
        &[]
    }
}

/// The first character or escape sequence, and what stands behind it.
fn first_character(text: &[u8]) -> (&[u8], &[u8])
    requires { text.now ≢ [] }
    ensures value { characters 0 text.now ≡ result.0.now ∷ characters 0 result.1.now }
    ensures shorter { length result.1.now < length text.now }
{
    text.split_at(c_char_len(text).min(text.len()))
}

fn is_bad_escape(unit: CharType, spelled: &[u8]) -> bool
    ensures { result ≡ is_bad_escape unit spelled.now }
{
    match spelled {
        [b'\\', ..] => !stands(unit, code_of(spelled)),
        _ => false,
    }
}

fn stands(unit: CharType, code: Option<Code>) -> bool
    ensures { result ≡ stands unit code }
{
    match code {
        Some(code) => fits(unit, code),
        None => false,
    }
}

/// Whether an escape sequence of a literal is none of 6.4.4.4, or is an octal or hexadecimal one that the type of the elements
/// doesn't hold.
pub fn has_bad_escape(unit: CharType, text: &[u8]) -> bool
    ensures { result ≡ has_bad_escape unit text.now }
{
    let mut rest = body(text);
    while !rest.is_empty() {
        let (spelled, left) = first_character(rest);
        if is_bad_escape(unit, spelled) {
            return true;
        }
        rest = left;
    }
    false
}

fn utf8_len(code: u64) -> u128
    ensures value { result ≡ utf8_len code }
    ensures small { result ≤ 4 }
{
    if code < 128 {
        1
    } else if code < 2048 {
        2
    } else if code < 65536 {
        3
    } else {
        4
    }
}

fn utf16_len(code: u64) -> u128
    ensures value { result ≡ utf16_len code }
    ensures small { result ≤ 4 }
{
    if code < 65536 { 1 } else { 2 }
}

fn units(unit: CharType, code: u64) -> u128
    ensures value { result ≡ units unit code }
    ensures small { result ≤ 4 }
{
    match unit {
        CharType::Plain => utf8_len(code),
        CharType::Char16 => utf16_len(code),
        _ => 1,
    }
}

/// How many elements one character or escape sequence makes.
fn units_in(unit: CharType, spelled: &[u8]) -> u128
    ensures value { result ≡ units_in unit spelled.now }
    ensures small { result ≤ 4 }
{
    match code_of(spelled) {
        Some(Code::Character(code)) => units(unit, code),
        _ => 1,
    }
}

/// How many elements the text of a string literal makes, without the closing zero.
pub fn count(unit: CharType, text: &[u8]) -> u128
    ensures value { result ≡ count unit text.now }
    ensures small { result ≤ 2 ^ 100 }
{
    let mut total: u128 = 0;
    let mut rest = body(text);
    while !rest.is_empty() {
        let (spelled, left) = first_character(rest);
        total += units_in(unit, spelled);
        rest = left;
    }
    total
}
