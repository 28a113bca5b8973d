//! What the operations of constant expressions give (N1570 6.5, 6.6).

ghost use Rattle.std.specs.Prelude.{◌≡◌, Some};
ghost use Rattle.cl_const.specs.declared.number.Number.TheVariants.{Unsigned};
ghost use Rattle.cl_types.specs.declared.types.Basic.TheVariants as basic;
ghost use Rattle.cl_layout.specs.Worths.{after_known, after_unknown, binary_worth, chosen, common_kind, converted, infixed, infix_at, infix_operator, integer_kind, is_comparison, is_division, is_not, is_remainder, is_shift, is_unsigned, logical_and, logical_or, narrowed, operand_kind, prefixed, prefix_known, prefix_operator, remaining, right_operand, select, spoils, truth_of, worked, worth_as};

use crate::layout::bytes;
use cl_const::{Number, Operator, apply, apply_prefix};
use cl_types::{Basic, BinaryOp, CType, UnaryOp, arithmetic, usual_basic};

/// What an evaluated expression is worth: nothing, since an operation has no value, a value that isn't known, or a value in the
/// expression's type.
#[derive(Clone, Copy)]
pub enum Worth {
    Fails,
    Unknown,
    Known(Number),
}

/// The integer type of an operand's value, if it has one.
pub fn integer_kind(t: &CType) -> Option<Basic>
    ensures { result ≡ integer_kind t.now }
{
    match arithmetic(t) {
        Some(kind) => { if kind.place() <= 11 { Some(kind) } else { None } }
        None => None,
    }
}

fn is_unsigned(kind: Basic) -> bool
    ensures { result ≡ is_unsigned kind }
{
    match kind {
        Basic::Bool => true,
        Basic::UChar => true,
        Basic::UShort => true,
        Basic::UInt => true,
        Basic::ULong => true,
        Basic::ULLong => true,
        _ => false,
    }
}

/// A value in another type (6.3.1.2, 6.3.1.3): in `_Bool` 0 or 1, else the value of that type that is equal modulo 2 to the power of
/// its width.
#[tactic(auto, using(crate::proofs::Numbers::whole_bits))]
pub fn converted(kind: Basic, number: Number) -> Number
    ensures { result ≡ converted kind number }
{
    let bits = number.as_unsigned();
    match kind {
        Basic::Bool => {
            if number.is_true() {
                Number::Unsigned(1)
            } else {
                Number::Unsigned(0)
            }
        }
        Basic::Char => signed_byte(bits),
        Basic::SChar => signed_byte(bits),
        Basic::Short => signed_short(bits),
        Basic::Int => signed_int(bits),
        Basic::UChar => Number::Unsigned(bits % 0x100),
        Basic::UShort => Number::Unsigned(bits % 0x1_0000),
        Basic::UInt => Number::Unsigned(bits % 0x1_0000_0000),
        Basic::Long => Number::Signed(bits.cast_signed()),
        Basic::LLong => Number::Signed(bits.cast_signed()),
        _ => Number::Unsigned(bits),
    }
}

fn signed_byte(bits: u64) -> Number
    ensures { result ≡ converted basic.SChar (Unsigned bits) }
{
    let byte = (bits % 0x100) as u8;
    Number::Signed(i64::from(byte.cast_signed()))
}

fn signed_short(bits: u64) -> Number
    ensures { result ≡ converted basic.Short (Unsigned bits) }
{
    let short = (bits % 0x1_0000) as u16;
    Number::Signed(i64::from(short.cast_signed()))
}

fn signed_int(bits: u64) -> Number
    ensures { result ≡ converted basic.Int (Unsigned bits) }
{
    let int = (bits % 0x1_0000_0000) as u32;
    Number::Signed(i64::from(int.cast_signed()))
}

/// A result in its type: an unsigned one modulo, and a signed one where its type has it (6.2.5p9, 6.5p5).
fn narrowed(kind: Basic, found: Option<Number>) -> Worth
    ensures { result ≡ narrowed kind found }
{
    match found {
        Some(number) => in_type(kind, number),
        None => Worth::Fails,
    }
}

fn in_type(kind: Basic, number: Number) -> Worth
    ensures { result ≡ narrowed kind (Some number) }
{
    let made = converted(kind, number);
    if is_unsigned(kind) || made.as_unsigned() == number.as_unsigned() {
        Worth::Known(made)
    } else {
        Worth::Fails
    }
}

/// What is known in another type.
pub fn worth_as(kind: Basic, worth: Worth) -> Worth
    ensures { result ≡ worth_as kind worth }
{
    match worth {
        Worth::Known(number) => Worth::Known(converted(kind, number)),
        other => other,
    }
}

/// The operators over one operand that a constant expression may have.
pub fn prefix_operator(op: UnaryOp) -> Option<Operator>
    ensures { result ≡ prefix_operator op }
{
    match op {
        UnaryOp::Plus => Some(Operator::Plus),
        UnaryOp::Minus => Some(Operator::Minus),
        UnaryOp::Complement => Some(Operator::Complement),
        UnaryOp::Not => Some(Operator::Not),
        _ => None,
    }
}

fn is_not(op: Operator) -> bool
    ensures { result ≡ is_not op }
{
    match op {
        Operator::Not => true,
        _ => false,
    }
}

fn prefix_known(op: Operator, kind: Basic, number: Number) -> Worth
    ensures { result ≡ prefix_known op kind number }
{
    if is_not(op) {
        narrowed(kind, apply_prefix(op, number))
    } else {
        narrowed(kind, apply_prefix(op, converted(kind, number)))
    }
}

/// An operator over one operand (6.5.3.3), whose result has this type.
pub fn prefixed(op: Operator, kind: Basic, worth: Worth) -> Worth
    ensures { result ≡ prefixed op kind worth }
{
    match worth {
        Worth::Known(number) => prefix_known(op, kind, number),
        other => other,
    }
}

/// The operators between two operands that a constant expression may have.
pub fn infix_operator(op: BinaryOp) -> Option<Operator>
    ensures { result ≡ infix_operator op }
{
    match op {
        BinaryOp::Multiply => Some(Operator::Times),
        BinaryOp::Divide => Some(Operator::Divide),
        BinaryOp::Remainder => Some(Operator::Remainder),
        BinaryOp::Add => Some(Operator::Plus),
        BinaryOp::Subtract => Some(Operator::Minus),
        BinaryOp::ShiftLeft => Some(Operator::ShiftLeft),
        BinaryOp::ShiftRight => Some(Operator::ShiftRight),
        BinaryOp::Less => Some(Operator::Less),
        BinaryOp::Greater => Some(Operator::Greater),
        BinaryOp::LessEqual => Some(Operator::LessEqual),
        BinaryOp::GreaterEqual => Some(Operator::GreaterEqual),
        BinaryOp::Equal => Some(Operator::Equal),
        BinaryOp::NotEqual => Some(Operator::NotEqual),
        BinaryOp::BitAnd => Some(Operator::BitAnd),
        BinaryOp::BitXor => Some(Operator::BitXor),
        BinaryOp::BitOr => Some(Operator::BitOr),
        BinaryOp::LogicalAnd => Some(Operator::And),
        BinaryOp::LogicalOr => Some(Operator::Or),
        _ => None,
    }
}

fn is_comparison(op: Operator) -> bool
    ensures { result ≡ is_comparison op }
{
    match op {
        Operator::Less => true,
        Operator::Greater => true,
        Operator::LessEqual => true,
        Operator::GreaterEqual => true,
        Operator::Equal => true,
        Operator::NotEqual => true,
        _ => false,
    }
}

fn is_shift(op: Operator) -> bool
    ensures { result ≡ is_shift op }
{
    match op {
        Operator::ShiftLeft => true,
        Operator::ShiftRight => true,
        _ => false,
    }
}

fn is_remainder(op: Operator) -> bool
    ensures { result ≡ is_remainder op }
{
    match op {
        Operator::Remainder => true,
        _ => false,
    }
}

fn is_division(op: Operator) -> bool
    ensures { result ≡ is_division op }
{
    match op {
        Operator::Divide => true,
        Operator::Remainder => true,
        _ => false,
    }
}

fn common_kind(left: Option<Basic>, right: Option<Basic>) -> Option<Basic>
    ensures { result ≡ common_kind left right }
{
    match (left, right) {
        (Some(left), Some(right)) => Some(usual_basic(left, right)),
        _ => None,
    }
}

/// The type in which an operation is worked: the common one of what is compared, else that of the result.
fn operand_kind(
    op: Operator,
    left: Option<Basic>,
    right: Option<Basic>,
    own: Basic,
) -> Option<Basic>
    ensures { result ≡ operand_kind op left right own }
{
    if is_comparison(op) {
        common_kind(left, right)
    } else {
        Some(own)
    }
}

/// Whether an operation has no value, whatever its left operand is: it divides by zero, or shifts by a negative count or by the width or
/// more.
fn spoils(op: Operator, kind: Basic, right: Number) -> bool
    ensures { result ≡ spoils op kind right }
{
    let zero = is_division(op) && !converted(kind, right).is_true();
    let far = is_shift(op) && !(right.as_unsigned() < 8 * bytes(kind));
    zero || far
}

fn right_operand(op: Operator, kind: Basic, right: Number) -> Number
    ensures { result ≡ right_operand op kind right }
{
    if is_shift(op) {
        right
    } else {
        converted(kind, right)
    }
}

fn remaining(quotient: Worth, remainder: Worth) -> Worth
    ensures { result ≡ remaining quotient remainder }
{
    match quotient {
        Worth::Fails => Worth::Fails,
        _ => remainder,
    }
}

fn worked(op: Operator, kind: Basic, own: Basic, left: Number, right: Number) -> Worth
    ensures { result ≡ worked op kind own left right }
{
    let x = converted(kind, left);
    if is_remainder(op) {
        let y = converted(kind, right);
        let quotient = narrowed(kind, apply(Operator::Divide, x, y));
        let remainder = narrowed(own, apply(Operator::Remainder, x, y));
        remaining(quotient, remainder)
    } else {
        narrowed(own, apply(op, x, right_operand(op, kind, right)))
    }
}

fn after_known(op: Operator, kind: Basic, own: Basic, left: Number, right: Worth) -> Worth
    ensures { result ≡ after_known op kind own left right }
{
    match right {
        Worth::Known(number) => {
            if spoils(op, kind, number) {
                Worth::Fails
            } else {
                worked(op, kind, own, left, number)
            }
        }
        other => other,
    }
}

fn after_unknown(op: Operator, kind: Basic, right: Worth) -> Worth
    ensures { result ≡ after_unknown op kind right }
{
    match right {
        Worth::Known(number) => {
            if spoils(op, kind, number) {
                Worth::Fails
            } else {
                Worth::Unknown
            }
        }
        other => other,
    }
}

fn infixed(op: Operator, kind: Basic, own: Basic, left: Worth, right: Worth) -> Worth
    ensures { result ≡ infixed op kind own left right }
{
    match left {
        Worth::Fails => Worth::Fails,
        Worth::Unknown => after_unknown(op, kind, right),
        Worth::Known(number) => after_known(op, kind, own, number, right),
    }
}

fn infix_at(op: Operator, kind: Option<Basic>, own: Basic, left: Worth, right: Worth) -> Worth
    ensures { result ≡ infix_at op kind own left right }
{
    match kind {
        Some(kind) => infixed(op, kind, own, left, right),
        None => Worth::Unknown,
    }
}

fn truth_of(worth: Worth) -> Worth
    ensures { result ≡ truth_of worth }
{
    match worth {
        Worth::Known(number) => Worth::Known(Number::truth(number.is_true())),
        other => other,
    }
}

fn logical_and(left: Worth, right: Worth) -> Worth
    ensures { result ≡ logical_and left right }
{
    match left {
        Worth::Known(number) => {
            if number.is_true() {
                truth_of(right)
            } else {
                Worth::Known(Number::truth(false))
            }
        }
        other => other,
    }
}

fn logical_or(left: Worth, right: Worth) -> Worth
    ensures { result ≡ logical_or left right }
{
    match left {
        Worth::Known(number) => {
            if number.is_true() {
                Worth::Known(Number::truth(true))
            } else {
                truth_of(right)
            }
        }
        other => other,
    }
}

/// `?:` (6.5.15), whose result has this type.
pub fn select(kind: Basic, condition: Worth, first: Worth, second: Worth) -> Worth
    ensures { result ≡ select kind condition first second }
{
    match condition {
        Worth::Known(number) => {
            if number.is_true() {
                worth_as(kind, first)
            } else {
                worth_as(kind, second)
            }
        }
        other => other,
    }
}

/// An operator between two operands of these types (6.5.5 to 6.5.14), whose result has the type `own`.
pub fn binary_worth(
    op: Operator,
    kinds: (Option<Basic>, Option<Basic>),
    own: Basic,
    left: Worth,
    right: Worth,
) -> Worth
    ensures { result ≡ binary_worth op kinds.0 kinds.1 own left right }
{
    match op {
        Operator::And => logical_and(left, right),
        Operator::Or => logical_or(left, right),
        _ => infix_at(
            op,
            operand_kind(op, kinds.0, kinds.1, own),
            own,
            left,
            right,
        ),
    }
}
