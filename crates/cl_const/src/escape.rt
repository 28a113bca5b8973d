//! One character of a constant, or one escape sequence (N1570 6.4.4.4).

ghost use Rattle.std.specs.Prelude.{◌≡◌, length};
ghost use Rattle.cl_const.specs.Characters.{are_digits, as_character, as_element, code_of, digits_within, escape, may_be_named, named, octal, one_byte, simple, simple_escape, universal};

use crate::integers::{Base, digits_value, is_digit};
use crate::scalars::code_point;

/// What one character or one escape sequence of a constant is.
#[derive(Clone, Copy)]
pub enum Code {
    /// The value of one element, by an octal or a hexadecimal escape.
    Element(u64),
    /// A character by its code, of which a constant's encoding makes one element or more.
    Character(u64),
}

/// What is spelled so. `None` comes exactly where this is not one character, no escape sequence, or a universal
/// character name that names none (6.4.3p2).
pub fn code_of(spelling: &[u8]) -> Option<Code>
    ensures { result ≡ code_of spelling.now }
{
    let (first, more) = spelling.split_first()?;
    if *first == b'\\' {
        escape(more)
    } else if more.is_empty() {
        as_character(one_byte(*first))
    } else {
        as_character(code_point(spelling))
    }
}

/// A character of ASCII that may stand by itself.
fn one_byte(byte: u8) -> Option<u64>
    ensures { result ≡ one_byte byte }
{
    if byte < 128 && byte != b'\'' && byte != b'\n' {
        Some(u64::from(byte))
    } else {
        None
    }
}

/// An escape sequence, without its backslash.
fn escape(sequence: &[u8]) -> Option<Code>
    ensures { result ≡ escape sequence.now }
{
    let (first, more) = sequence.split_first()?;
    match *first {
        b'x' => as_element(digits_within(more, Base::Hexadecimal)),
        b'u' => universal(more, 4),
        b'U' => universal(more, 8),
        b'0'..=b'7' => octal(sequence),
        _ => simple(*first, more),
    }
}

/// An octal escape: one digit to three.
fn octal(digits: &[u8]) -> Option<Code>
    ensures { result ≡ octal digits.now }
{
    if digits.len() <= 3 {
        as_element(digits_within(digits, Base::Octal))
    } else {
        None
    }
}

/// A universal character name of so many digits, without what stands before them (N1570 6.4.3).
fn universal(digits: &[u8], count: usize) -> Option<Code>
    ensures { result ≡ universal count digits.now }
{
    if digits.len() == count {
        named(digits_within(digits, Base::Hexadecimal))
    } else {
        None
    }
}

/// The character of this code, if a universal character name may name it.
fn named(code: Option<u64>) -> Option<Code>
    ensures { result ≡ named code }
{
    match code {
        Some(code) => {
            if may_be_named(code) {
                Some(Code::Character(code))
            } else {
                None
            }
        }
        None => None,
    }
}

/// Whether a universal character name may name the character of this code (N1570 6.4.3p2).
fn may_be_named(code: u64) -> bool
    ensures { result ≡ may_be_named code }
{
    code == 36
        || code == 64
        || code == 96
        || (160 <= code && code <= 0x10_ffff && !(0xd800 <= code && code <= 0xdfff))
}

fn simple(first: u8, more: &[u8]) -> Option<Code>
    ensures { result ≡ simple first more.now }
{
    if more.is_empty() {
        as_character(simple_escape(first))
    } else {
        None
    }
}

fn simple_escape(byte: u8) -> Option<u64>
    ensures { result ≡ simple_escape byte }
{
    match byte {
        b'\'' | b'"' | b'?' | b'\\' => Some(u64::from(byte)),
        b'a' => Some(7),
        b'b' => Some(8),
        b't' => Some(9),
        b'n' => Some(10),
        b'v' => Some(11),
        b'f' => Some(12),
        b'r' => Some(13),
        _ => None,
    }
}

fn as_element(value: Option<u64>) -> Option<Code>
    ensures { result ≡ as_element value }
{
    match value {
        Some(value) => Some(Code::Element(value)),
        None => None,
    }
}

fn as_character(code: Option<u64>) -> Option<Code>
    ensures { result ≡ as_character code }
{
    match code {
        Some(code) => Some(Code::Character(code)),
        None => None,
    }
}

/// What one digit or more count, if they are all digits and it is below 2^64.
fn digits_within(digits: &[u8], base: Base) -> Option<u64>
    ensures { result ≡ digits_within base digits.now }
{
    if digits.is_empty() || !are_digits(digits, base) {
        None
    } else {
        digits_value(digits, base)
    }
}

fn are_digits(digits: &[u8], base: Base) -> bool
    ensures { result ≡ are_digits base digits.now }
{
    digits.iter().all(|byte| is_digit(base, *byte))
}
