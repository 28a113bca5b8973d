//! The operators of `#if`, and what they give.

ghost use Rattle.std.specs.Prelude.{◌≡◌, ◌<◌, ◌^◌, ◌*ℤ◌, pos, option_map, SomeIff};
ghost use Rattle.std.specs.Int.{w64};
ghost use Rattle.std.specs.Int.RustNames.{FitsSigned};
ghost use Rattle.cl_const.specs.declared.number.Number.TheVariants.{Signed, Unsigned};
ghost use Rattle.cl_const.specs.Operators.{IsCount, add, apply, apply_prefix, compare, compare_signed, compare_unsigned, complement, count_of, divide, infix_level, infix_unsigned, is_prefix, left_shift, mask, mask_bits, multiply, negate, prefix_unsigned, remainder, right_shift, subtract};

use crate::number::{Number, Pair};

/// An operator of one operand or of two. `Plus` and `Minus` are both.
#[derive(Clone, Copy)]
pub enum Operator {
    Or,
    And,
    BitOr,
    BitXor,
    BitAnd,
    Equal,
    NotEqual,
    Less,
    Greater,
    LessEqual,
    GreaterEqual,
    ShiftLeft,
    ShiftRight,
    Plus,
    Minus,
    Times,
    Divide,
    Remainder,
    Complement,
    Not,
}

/// How tight it binds between two operands, from 2 on. It is 0 where it never stands between two.
pub fn infix_level(operator: Operator) -> u8
    ensures { result ≡ infix_level operator }
{
    match operator {
        Operator::Or => 2,
        Operator::And => 3,
        Operator::BitOr => 4,
        Operator::BitXor => 5,
        Operator::BitAnd => 6,
        Operator::Equal | Operator::NotEqual => 7,
        Operator::Less | Operator::Greater | Operator::LessEqual | Operator::GreaterEqual => 8,
        Operator::ShiftLeft | Operator::ShiftRight => 9,
        Operator::Plus | Operator::Minus => 10,
        Operator::Times | Operator::Divide | Operator::Remainder => 11,
        Operator::Complement | Operator::Not => 0,
    }
}

/// Whether it may stand before its one operand.
pub fn is_prefix(operator: Operator) -> bool
    ensures { result ≡ is_prefix operator }
{
    matches!(
        operator,
        Operator::Plus | Operator::Minus | Operator::Complement | Operator::Not
    )
}

/// Whether the result for one operand is unsigned, where that is so or not.
pub fn prefix_unsigned(operator: Operator, unsigned: bool) -> bool
    ensures { result ≡ prefix_unsigned operator unsigned }
{
    match operator {
        Operator::Not => false,
        _ => unsigned,
    }
}

/// Whether the result for two operands is unsigned, where they are so or not.
pub fn infix_unsigned(operator: Operator, left: bool, right: bool) -> bool
    ensures { result ≡ infix_unsigned operator left right }
{
    match operator {
        Operator::Plus
        | Operator::Minus
        | Operator::Times
        | Operator::Divide
        | Operator::Remainder
        | Operator::BitOr
        | Operator::BitXor
        | Operator::BitAnd => left || right,
        Operator::ShiftLeft | Operator::ShiftRight => left,
        _ => false,
    }
}

/// What it gives of its one operand. `None` comes exactly where the value isn't one of `intmax_t`.
pub fn apply_prefix(operator: Operator, value: Number) -> Option<Number>
    ensures { result ≡ apply_prefix operator value }
{
    match operator {
        Operator::Minus => negate(value),
        Operator::Complement => Some(complement(value)),
        Operator::Not => Some(Number::truth(!value.is_true())),
        _ => Some(value),
    }
}

fn negate(value: Number) -> Option<Number>
    ensures { result ≡ negate value }
{
    match value {
        Number::Signed(value) => signed(0i64.checked_sub(value)),
        Number::Unsigned(value) => Some(Number::Unsigned(0u64.wrapping_sub(value))),
    }
}

fn complement(value: Number) -> Number
    ensures { result ≡ complement value }
{
    match value {
        Number::Signed(value) => Number::Signed(-1 - value),
        Number::Unsigned(value) => Number::Unsigned(u64::MAX - value),
    }
}

/// What it gives of its two operands, both of which are worked. `None` comes exactly where the operation fails: the
/// value isn't one of `intmax_t`, a divisor is 0, or a count isn't from 0 to 63.
pub fn apply(operator: Operator, left: Number, right: Number) -> Option<Number>
    ensures { result ≡ apply operator left right }
{
    match operator {
        Operator::Plus => add(left.common(right)),
        Operator::Minus => subtract(left.common(right)),
        Operator::Times => multiply(left.common(right)),
        Operator::Divide => divide(left.common(right)),
        Operator::Remainder => remainder(left.common(right)),
        Operator::ShiftLeft => left_shift(left, count_of(right)),
        Operator::ShiftRight => right_shift(left, count_of(right)),
        Operator::BitOr | Operator::BitXor | Operator::BitAnd => {
            Some(mask(operator, left, right))
        }
        _ => Some(Number::truth(compare(operator, left.common(right)))),
    }
}

/// A signed result.
fn signed(value: Option<i64>) -> Option<Number>
    ensures { result ≡ option_map Signed value }
{
    match value {
        Some(value) => Some(Number::Signed(value)),
        None => None,
    }
}

fn unsigned(value: Option<u64>) -> Option<Number>
    ensures { result ≡ option_map Unsigned value }
{
    match value {
        Some(value) => Some(Number::Unsigned(value)),
        None => None,
    }
}

fn add(operands: Pair) -> Option<Number>
    ensures { result ≡ add operands }
{
    match operands {
        Pair::Signed(left, right) => signed(left.checked_add(right)),
        Pair::Unsigned(left, right) => Some(Number::Unsigned(left.wrapping_add(right))),
    }
}

fn subtract(operands: Pair) -> Option<Number>
    ensures { result ≡ subtract operands }
{
    match operands {
        Pair::Signed(left, right) => signed(left.checked_sub(right)),
        Pair::Unsigned(left, right) => Some(Number::Unsigned(left.wrapping_sub(right))),
    }
}

fn multiply(operands: Pair) -> Option<Number>
    ensures { result ≡ multiply operands }
{
    match operands {
        Pair::Signed(left, right) => signed(left.checked_mul(right)),
        Pair::Unsigned(left, right) => Some(Number::Unsigned(left.wrapping_mul(right))),
    }
}

fn divide(operands: Pair) -> Option<Number>
    ensures { result ≡ divide operands }
{
    match operands {
        Pair::Signed(left, right) => signed(left.checked_div(right)),
        Pair::Unsigned(left, right) => unsigned(left.checked_div(right)),
    }
}

fn remainder(operands: Pair) -> Option<Number>
    ensures { result ≡ remainder operands }
{
    match operands {
        Pair::Signed(left, right) => signed(left.checked_rem(right)),
        Pair::Unsigned(left, right) => unsigned(left.checked_rem(right)),
    }
}

/// The bits of both (6.5.10 to 6.5.12). Where both are signed the result is too.
fn mask(operator: Operator, left: Number, right: Number) -> Number
    ensures { result ≡ mask operator left right }
{
    let bits = mask_bits(operator, left.as_unsigned(), right.as_unsigned());
    if left.is_unsigned() || right.is_unsigned() {
        Number::Unsigned(bits)
    } else {
        Number::Signed(bits.cast_signed())
    }
}

fn mask_bits(operator: Operator, left: u64, right: u64) -> u64
    ensures { result ≡ mask_bits operator left right }
{
    match operator {
        Operator::BitOr => left | right,
        Operator::BitXor => left ^ right,
        _ => left & right,
    }
}

/// Whether the comparison holds.
fn compare(operator: Operator, operands: Pair) -> bool
    ensures { result ≡ compare operator operands }
{
    match operands {
        Pair::Signed(left, right) => compare_signed(operator, left, right),
        Pair::Unsigned(left, right) => compare_unsigned(operator, left, right),
    }
}

fn compare_signed(operator: Operator, left: i64, right: i64) -> bool
    ensures { result ≡ compare_signed operator left right }
{
    match operator {
        Operator::Less => left < right,
        Operator::Greater => right < left,
        Operator::LessEqual => left <= right,
        Operator::GreaterEqual => right <= left,
        Operator::NotEqual => left != right,
        _ => left == right,
    }
}

fn compare_unsigned(operator: Operator, left: u64, right: u64) -> bool
    ensures { result ≡ compare_unsigned operator left right }
{
    match operator {
        Operator::Less => left < right,
        Operator::Greater => right < left,
        Operator::LessEqual => left <= right,
        Operator::GreaterEqual => right <= left,
        Operator::NotEqual => left != right,
        _ => left == right,
    }
}

/// How far a shift goes: from 0 to 63.
fn count_of(value: Number) -> Option<u32>
    ensures { result ≡ count_of value }
{
    match value {
        Number::Signed(value) => {
            if 0 <= value && value < 64 {
                Some(value as u32)
            } else {
                None
            }
        }
        Number::Unsigned(value) => { if value < 64 { Some(value as u32) } else { None } }
    }
}

fn left_shift(left: Number, count: Option<u32>) -> Option<Number>
    requires { IsCount count }
    ensures { result ≡ left_shift left count }
{
    match (left, count) {
        (_, None) => None,
        (Number::Signed(left), Some(count)) => signed(shifted_left(left, count)),
        (Number::Unsigned(left), Some(count)) => Some(Number::Unsigned(left << count)),
    }
}

/// The value times 2 to this power.
fn shifted_left(value: i64, count: u32) -> Option<i64>
    requires { count < 64 }
    ensures { SomeIff result (FitsSigned w64 (value *ℤ pos (2 ^ count))) (value *ℤ pos (2 ^ count)) }
{
    if count < 63 {
        value.checked_mul((1u64 << count) as i64)
    } else if value == 0 {
        Some(0)
    } else if value == -1 {
        Some(i64::MIN)
    } else {
        None
    }
}

fn right_shift(left: Number, count: Option<u32>) -> Option<Number>
    requires { IsCount count }
    ensures { result ≡ right_shift left count }
{
    match (left, count) {
        (_, None) => None,
        (Number::Signed(left), Some(count)) => Some(Number::Signed(left >> count)),
        (Number::Unsigned(left), Some(count)) => Some(Number::Unsigned(left >> count)),
    }
}
