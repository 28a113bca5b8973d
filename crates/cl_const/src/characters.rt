//! Character constants (N1570 6.4.4.4).

ghost use Rattle.std.specs.Prelude.{◌≡◌, ◌+◌, ◌<◌, ◌≤◌, length, true};
ghost use Rattle.cl_const.specs.Characters.{alone, are_chars, c_char_len, character, constant_of, escape_len, is_quoted, stands};

use crate::char_type::{
    CharType, char_type_of, fits, front_of, in_type, is_single, is_unsigned_char, number_of,
};
use crate::escape::{Code, code_of};
use crate::integers::{Base, digit_count};
use crate::number::Number;
use cl_base::char_len;

/// What a constant is worth.
#[derive(Clone, Copy)]
pub enum Constant {
    /// Its value.
    Known(Number),
    /// A character constant of several elements, whose value isn't known (N1570 6.4.4.4p10); its type is.
    Unknown { unsigned: bool },
}

/// The character constant that is spelled so. In a plain one a character is as many elements as its UTF-8 has bytes, and
/// in one with `u` as many as its UTF-16 has units. `None` comes exactly where this is none: nothing stands between its
/// quotes, or it has an escape sequence that is none, a universal character name that names none (6.4.3p2), an octal or
/// hexadecimal escape that its type doesn't hold, or bytes of no character.
pub fn character(text: &[u8]) -> Option<Constant>
    ensures { result ≡ character text.now }
{
    let char_type = char_type_of(text);
    let front = front_of(char_type);
    if is_quoted(text, front) {
        constant_of(char_type, &text[front + 1..text.len() - 1])
    } else {
        None
    }
}

/// Whether a quote stands there, and another one at the end.
fn is_quoted(text: &[u8], front: usize) -> bool
    requires { front ≤ 1 }
    ensures value { result ≡ is_quoted text.now front }
    ensures within { result ≡ true → front + 2 ≤ length text.now }
{
    front + 2 <= text.len() && text[front] == b'\'' && text[text.len() - 1] == b'\''
}

/// The constant of what stands between the quotes.
fn constant_of(char_type: CharType, body: &[u8]) -> Option<Constant>
    ensures { result ≡ constant_of char_type body.now }
{
    if body.is_empty() || !are_chars(char_type, body) {
        return None;
    }
    if body.len() <= c_char_len(body) {
        let code = code_of(body)?;
        Some(alone(char_type, code))
    } else {
        Some(Constant::Unknown {
            unsigned: is_unsigned_char(char_type),
        })
    }
}

/// The constant of one character or escape sequence.
fn alone(char_type: CharType, code: Code) -> Constant
    ensures { result ≡ alone char_type code }
{
    if is_single(char_type, code) {
        Constant::Known(in_type(char_type, number_of(code)))
    } else {
        Constant::Unknown {
            unsigned: is_unsigned_char(char_type),
        }
    }
}

/// Whether one character or escape sequence that the type holds follows the other up to the end.
fn are_chars(char_type: CharType, body: &[u8]) -> bool
    ensures { result ≡ are_chars char_type 0 body.now }
{
    let mut rest = body;
    while !rest.is_empty() {
        let (spelling, left) = rest.split_at(c_char_len(rest).min(rest.len()));
        if !stands(char_type, code_of(spelling)) {
            return false;
        }
        rest = left;
    }
    true
}

/// Whether it is one that the type holds.
fn stands(char_type: CharType, code: Option<Code>) -> bool
    ensures { result ≡ stands char_type code }
{
    match code {
        Some(code) => fits(char_type, code),
        None => false,
    }
}

/// How long the character or the escape sequence is, if one begins there. A byte at which no character begins stands
/// alone, and is none.
pub fn c_char_len(text: &[u8]) -> usize
    requires { 0 < length text.now }
    ensures value { result ≡ c_char_len text.now }
    ensures some { 0 < result }
{
    if text[0] == b'\\' {
        1 + escape_len(&text[1..])
    } else {
        char_len(text, 0).max(1)
    }
}

/// How long the escape sequence is, without its backslash: the longest that can be.
fn escape_len(text: &[u8]) -> usize
    ensures value { result ≡ escape_len text.now }
    ensures small { result ≤ length text.now + 9 }
{
    let Some((first, more)) = text.split_first() else {
        return 0;
    };
    match *first {
        b'x' => 1 + digit_count(more, Base::Hexadecimal),
        b'u' => 5,
        b'U' => 9,
        b'0'..=b'7' => digit_count(text, Base::Octal).min(3),
        _ => 1,
    }
}
