//! Numbers as constants (N1570 6.4.4.1, 6.4.4.2).

ghost use Rattle.std.specs.Prelude.{◌≡◌, ◌&&◌, ◌∷◌, [], nat_lt};
ghost use Rattle.cl_const.specs.Integers.{digits_value, is_decimal};
ghost use Rattle.cl_literals.specs.Numbers.{bound, ends, first_type, is_l, is_ll, is_u, is_unsigned, longs_of, may_have, number, otherwise, suffix_of, with_type};

use crate::floats::floating;
use cl_const::{Base, base_of, digit_count, digits_value, front_len};
use cl_types::Basic;

/// What the letters behind an integer constant say: whether `u` is among them, and how many `l`s there are.
#[derive(Clone, Copy)]
pub struct Suffix {
    pub unsigned: bool,
    pub longs: u8,
}

/// What a preprocessing number is as a constant.
#[derive(Clone, Copy)]
pub enum NumberConstant {
    /// An integer constant: its value and its type, one of `int`, `unsigned int`, `long`, `unsigned long`, `long long` and
    /// `unsigned long long`.
    Integer { value: u64, ty: Basic },
    /// A floating constant, by its type. Its value is its spelling.
    Floating(Basic),
    /// An integer constant whose value no type of its list holds (6.4.4.1p5).
    TooLarge,
    /// No constant.
    NoConstant,
}

/// The constant that a preprocessing number is: an integer constant with the first type of its list that holds its value
/// (6.4.4.1p5), or a floating constant with the type of its suffix (6.4.4.2p4).
pub fn number(text: &[u8]) -> NumberConstant
    ensures { result ≡ number text.now }
{
    let base = base_of(text);
    let (_, rest) = text.split_at(front_len(text, base));
    let count = digit_count(rest, base);
    let (digits, suffix) = rest.split_at(count);
    if count == 0 {
        return otherwise(floating(text));
    }
    match suffix_of(suffix) {
        Some(suffix) => with_digits(base, suffix, digits),
        None => otherwise(floating(text)),
    }
}

fn otherwise(floating: Option<Basic>) -> NumberConstant
    ensures { result ≡ otherwise floating }
{
    match floating {
        Some(ty) => NumberConstant::Floating(ty),
        None => NumberConstant::NoConstant,
    }
}

fn is_u(byte: u8) -> bool
    ensures { result ≡ is_u byte }
{
    byte == b'u' || byte == b'U'
}

fn is_l(byte: u8) -> bool
    ensures { result ≡ is_l byte }
{
    byte == b'l' || byte == b'L'
}

fn is_ll(first: u8, second: u8) -> bool
    ensures { result ≡ is_ll first second }
{
    (first == b'l' && second == b'l') || (first == b'L' && second == b'L')
}

fn ends(unsigned: bool, longs: u8) -> Option<Suffix>
    ensures { result ≡ ends unsigned longs }
{
    Some(Suffix { unsigned, longs })
}

/// What an integer constant ends with. None comes exactly of what is no suffix.
fn suffix_of(text: &[u8]) -> Option<Suffix>
    ensures { result ≡ suffix_of text.now }
{
    match text {
        [] => ends(false, 0),
        [a] => one_letter(*a),
        [a, b] => two_letters(*a, *b),
        [a, b, c] => three_letters(*a, *b, *c),
        _ => None,
    }
}

fn one_letter(a: u8) -> Option<Suffix>
    ensures { result ≡ suffix_of (a ∷ []) }
{
    if is_u(a) {
        ends(true, 0)
    } else if is_l(a) {
        ends(false, 1)
    } else {
        None
    }
}

fn two_letters(a: u8, b: u8) -> Option<Suffix>
    ensures { result ≡ suffix_of (a ∷ b ∷ []) }
{
    let forward = is_u(a) && is_l(b);
    let backward = is_l(a) && is_u(b);
    if is_ll(a, b) {
        ends(false, 2)
    } else if forward || backward {
        ends(true, 1)
    } else {
        None
    }
}

fn three_letters(a: u8, b: u8, c: u8) -> Option<Suffix>
    ensures { result ≡ suffix_of (a ∷ b ∷ c ∷ []) }
{
    let forward = is_u(a) && is_ll(b, c);
    let backward = is_ll(a, b) && is_u(c);
    if forward || backward {
        ends(true, 2)
    } else {
        None
    }
}

fn is_unsigned(ty: Basic) -> bool
    ensures { result ≡ is_unsigned ty }
{
    match ty {
        Basic::UInt => true,
        Basic::ULong => true,
        Basic::ULLong => true,
        _ => false,
    }
}

fn longs_of(ty: Basic) -> u8
    ensures { result ≡ longs_of ty }
{
    match ty {
        Basic::Int => 0,
        Basic::UInt => 0,
        Basic::Long => 1,
        Basic::ULong => 1,
        _ => 2,
    }
}

/// Whether a type stands in the list of a constant (6.4.4.1p5).
fn may_have(base: Base, suffix: Suffix, ty: Basic) -> bool
    ensures { result ≡ may_have base suffix ty }
{
    let signs = if is_unsigned(ty) {
        suffix.unsigned || !is_decimal(base)
    } else {
        !suffix.unsigned
    };
    suffix.longs <= longs_of(ty) && signs
}

fn is_decimal(base: Base) -> bool
    ensures { result ≡ is_decimal base }
{
    match base {
        Base::Decimal => true,
        _ => false,
    }
}

/// Whether a type holds a value.
fn holds(ty: Basic, value: u64) -> bool
    ensures { result ≡ nat_lt value (bound ty) }
{
    match ty {
        Basic::Int => value <= 0x7fff_ffff,
        Basic::UInt => value <= 0xffff_ffff,
        Basic::Long => value <= 0x7fff_ffff_ffff_ffff,
        Basic::LLong => value <= 0x7fff_ffff_ffff_ffff,
        _ => true,
    }
}

fn is_type(base: Base, suffix: Suffix, value: u64, ty: Basic) -> bool
    ensures { result ≡ (may_have base suffix ty && nat_lt value (bound ty)) }
{
    may_have(base, suffix, ty) && holds(ty, value)
}

/// The first type of a constant's list that holds its value.
fn first_type(base: Base, suffix: Suffix, value: u64) -> Option<Basic>
    ensures { result ≡ first_type base suffix value }
{
    if is_type(base, suffix, value, Basic::Int) {
        return Some(Basic::Int);
    }
    if is_type(base, suffix, value, Basic::UInt) {
        return Some(Basic::UInt);
    }
    if is_type(base, suffix, value, Basic::Long) {
        return Some(Basic::Long);
    }
    if is_type(base, suffix, value, Basic::ULong) {
        return Some(Basic::ULong);
    }
    if is_type(base, suffix, value, Basic::LLong) {
        return Some(Basic::LLong);
    }
    if is_type(base, suffix, value, Basic::ULLong) {
        return Some(Basic::ULLong);
    }
    None
}

fn with_digits(base: Base, suffix: Suffix, digits: &[u8]) -> NumberConstant
    ensures { result ≡ with_type (digits_value base digits.now) (first_type base suffix (digits_value base digits.now)) }
{
    match digits_value(digits, base) {
        Some(value) => with_type(value, first_type(base, suffix, value)),
        None => NumberConstant::TooLarge,
    }
}

fn with_type(value: u64, ty: Option<Basic>) -> NumberConstant
    ensures { result ≡ with_type value ty }
{
    match ty {
        Some(ty) => NumberConstant::Integer { value, ty },
        None => NumberConstant::TooLarge,
    }
}
