//! What is told of an expression by its parts (N1570 6.6).

ghost use Rattle.std.specs.Prelude.{◌≡◌};
ghost use Rattle.cl_layout.specs.Constants.{align_worth, any_refused, any_uncastable, binary_at, cast_worth, has_other, is_floating_constant, is_none, is_refused, is_variable, is_variable_length, leaf_worth, no_kind, number_in, number_worth, over_one, over_parts, over_three, over_two, prefix_at, read, refused_at, size_worth, worth_at, worth_by, worth_in};

use crate::layout::Layout;
use crate::worth::{
    Worth, binary_worth, converted, infix_operator, integer_kind, prefix_operator, prefixed,
    select, worth_as,
};
use cl_const::{Number, Operator};
use cl_types::{Basic, CType, Length, Operand, Typed, is_error};

/// The greatest value of 64 bits.
const GREATEST: i128 = 0xffff_ffff_ffff_ffff;

/// The least value of 64 bits.
const LEAST: i128 = -0x8000_0000_0000_0000;

/// What is told of an expression: whether 6.6p6 refuses it, whether it is a floating constant, its integer type, and what it is worth
/// where it is evaluated.
#[derive(Clone, Copy)]
pub struct Reading {
    pub refused: bool,
    pub floating: bool,
    pub kind: Option<Basic>,
    pub worth: Worth,
}

fn is_variable_length(length: Length) -> bool
    ensures { result ≡ is_variable_length length }
{
    match length {
        Length::Variable => true,
        _ => false,
    }
}

/// Whether a type is an array of a length that is known when the program runs, or of such arrays (6.7.6.2p4).
fn is_variable(t: &CType) -> bool
    ensures { result ≡ is_variable t.now }
{
    match t {
        CType::Array(within, length) => is_variable_length(*length) || is_variable(within.get()),
        CType::Qualified(_, within) => is_variable(within.get()),
        CType::Atomic(within) => is_variable(within.get()),
        _ => false,
    }
}

fn any_refused(parts: &[Reading]) -> bool
    ensures { result ≡ any_refused parts.now }
{
    parts.iter().any(|part| part.refused)
}

fn any_uncastable(parts: &[Reading]) -> bool
    ensures { result ≡ any_uncastable parts.now }
{
    parts.iter().any(|part| part.refused && !part.floating)
}

fn is_none(op: Option<Operator>) -> bool
    ensures { result ≡ is_none op }
{
    match op {
        Some(_) => false,
        None => true,
    }
}

fn refused_at(part: Option<Reading>) -> bool
    ensures { result ≡ refused_at part }
{
    match part {
        Some(part) => part.refused,
        None => true,
    }
}

/// Whether an expression of integer type has what a constant one may not have.
fn has_other(op: &Typed, lvalue: bool, parts: &[Reading]) -> bool
    ensures { result ≡ has_other op.now lvalue parts.now }
{
    match op {
        Typed::Int(_) => false,
        Typed::Chars(_) => false,
        Typed::Named(_, value) => match value {
            Some(_) => false,
            None => lvalue,
        },
        Typed::Unary(op) => is_none(prefix_operator(*op)) || any_refused(parts),
        Typed::Binary(op) => is_none(infix_operator(*op)) || any_refused(parts),
        Typed::Cast => any_uncastable(parts),
        Typed::Select => any_refused(parts),
        Typed::SizeOf(t) => is_variable(t),
        Typed::AlignOf(_) => false,
        Typed::Generic(number) => refused_at(parts.get(*number as usize).copied()),
        _ => true,
    }
}

fn is_floating_constant(op: &Typed) -> bool
    ensures { result ≡ is_floating_constant op.now }
{
    match op {
        Typed::Floating(_) => true,
        _ => false,
    }
}

fn no_kind(kind: Option<Basic>) -> bool
    ensures { result ≡ no_kind kind }
{
    match kind {
        Some(_) => false,
        None => true,
    }
}

fn is_refused(op: &Typed, operand: &Operand, parts: &[Reading]) -> bool
    ensures { result ≡ is_refused op.now operand.now parts.now }
{
    if is_error(&operand.ty) {
        return false;
    }
    no_kind(integer_kind(&operand.ty)) || has_other(op, operand.lvalue, parts)
}

/// A value, where it is one of 64 bits.
fn number_in(value: i128) -> Option<Number>
    ensures { result ≡ number_in value }
{
    if 0 <= value && value <= GREATEST {
        Some(Number::Unsigned(value as u64))
    } else if LEAST <= value && value < 0 {
        Some(Number::Signed(value as i64))
    } else {
        None
    }
}

fn number_worth(kind: Basic, number: Option<Number>) -> Worth
    ensures { result ≡ number_worth kind number }
{
    match number {
        Some(number) => Worth::Known(converted(kind, number)),
        None => Worth::Unknown,
    }
}

fn leaf_worth(kind: Basic, value: Option<i128>) -> Worth
    ensures { result ≡ leaf_worth kind value }
{
    match value {
        Some(value) => number_worth(kind, number_in(value)),
        None => Worth::Unknown,
    }
}

fn size_worth(kind: Basic, layout: Layout) -> Worth
    ensures { result ≡ size_worth kind layout }
{
    match layout {
        Layout::Known { size, .. } => Worth::Known(converted(kind, Number::Unsigned(size))),
        _ => Worth::Unknown,
    }
}

fn align_worth(kind: Basic, layout: Layout) -> Worth
    ensures { result ≡ align_worth kind layout }
{
    match layout {
        Layout::Known { align, .. } => Worth::Known(converted(kind, Number::Unsigned(align))),
        _ => Worth::Unknown,
    }
}

fn worth_at(part: Option<Reading>) -> Worth
    ensures { result ≡ worth_at part }
{
    match part {
        Some(part) => part.worth,
        None => Worth::Unknown,
    }
}

fn prefix_at(op: Option<Operator>, kind: Basic, worth: Worth) -> Worth
    ensures { result ≡ prefix_at op kind worth }
{
    match op {
        Some(op) => prefixed(op, kind, worth),
        None => Worth::Unknown,
    }
}

fn binary_at(op: Option<Operator>, kind: Basic, left: Reading, right: Reading) -> Worth
    ensures { result ≡ binary_at op kind left right }
{
    match op {
        Some(op) => binary_worth(op, (left.kind, right.kind), kind, left.worth, right.worth),
        None => Worth::Unknown,
    }
}

fn cast_worth(kind: Basic, part: Reading) -> Worth
    ensures { result ≡ cast_worth kind part }
{
    if part.floating {
        Worth::Unknown
    } else {
        worth_as(kind, part.worth)
    }
}

fn over_one(op: &Typed, kind: Basic, part: Reading) -> Worth
    ensures { result ≡ over_one op.now kind part }
{
    match op {
        Typed::Unary(op) => prefix_at(prefix_operator(*op), kind, part.worth),
        Typed::Cast => cast_worth(kind, part),
        _ => Worth::Unknown,
    }
}

fn over_two(op: &Typed, kind: Basic, left: Reading, right: Reading) -> Worth
    ensures { result ≡ over_two op.now kind left right }
{
    match op {
        Typed::Binary(op) => binary_at(infix_operator(*op), kind, left, right),
        _ => Worth::Unknown,
    }
}

fn over_three(op: &Typed, kind: Basic, condition: Reading, first: Reading, second: Reading) -> Worth
    ensures { result ≡ over_three op.now kind condition first second }
{
    match op {
        Typed::Select => select(kind, condition.worth, first.worth, second.worth),
        _ => Worth::Unknown,
    }
}

/// What an operation over its parts is worth.
fn over_parts(op: &Typed, kind: Basic, parts: &[Reading]) -> Worth
    ensures { result ≡ over_parts op.now kind parts.now }
{
    match parts {
        [a] => over_one(op, kind, *a),
        [a, b] => over_two(op, kind, *a, *b),
        [a, b, c] => over_three(op, kind, *a, *b, *c),
        _ => Worth::Unknown,
    }
}

fn worth_by(op: &Typed, kind: Basic, layout: Layout, parts: &[Reading]) -> Worth
    ensures { result ≡ worth_by op.now kind layout parts.now }
{
    match op {
        Typed::Int(value) => Worth::Known(converted(kind, Number::Unsigned(*value))),
        Typed::Chars(value) => leaf_worth(kind, *value),
        Typed::Named(_, value) => leaf_worth(kind, *value),
        Typed::SizeOf(_) => size_worth(kind, layout),
        Typed::AlignOf(_) => align_worth(kind, layout),
        Typed::Generic(number) => worth_as(kind, worth_at(parts.get(*number as usize).copied())),
        other => over_parts(other, kind, parts),
    }
}

fn worth_in(kind: Option<Basic>, op: &Typed, layout: Layout, parts: &[Reading]) -> Worth
    ensures { result ≡ worth_in kind op.now layout parts.now }
{
    match kind {
        Some(kind) => worth_by(op, kind, layout, parts),
        None => Worth::Unknown,
    }
}

/// What is told of an expression, where it is told of its parts, and the layout of what `sizeof` or `_Alignof` asks is given.
pub fn read(op: &Typed, operand: &Operand, layout: Layout, parts: &[Reading]) -> Reading
    ensures { result ≡ read op.now operand.now layout parts.now }
{
    let kind = integer_kind(&operand.ty);
    Reading {
        refused: is_refused(op, operand, parts),
        floating: is_floating_constant(op),
        kind,
        worth: worth_in(kind, op, layout, parts),
    }
}
