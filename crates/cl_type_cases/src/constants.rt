//! Constant expressions, written with each operator behind its operands.

use crate::chains::chain;
use crate::conversions::{binary_op, unary_op};
use crate::layouts::Tags;
use cl_base::{List, Mem, Name};
use cl_conv::{binary, call, cast, conditional, of_basic, unary, value};
use cl_layout::{Value, eval_const};
use cl_literals::{NumberConstant, char_value, number, prefix_of};
use cl_types::{CType, DeclNo, Operand, Typed, TypedExpr};
use std::alloc::Global;

/// An expression of these parts. Where the operands fit no row its type is in error.
fn made(op: Typed, operand: Option<Operand>, parts: List<TypedExpr>) -> TypedExpr {
    TypedExpr {
        op,
        operand: operand.unwrap_or(value(CType::Error)),
        parts,
    }
}

fn leaf(alloc: Global, op: Typed, ty: CType) -> TypedExpr {
    made(op, Some(value(ty)), List::new(alloc))
}

fn wrong(alloc: Global) -> TypedExpr {
    leaf(alloc, Typed::Wrong, CType::Error)
}

fn number_leaf(alloc: Global, word: &str) -> Mem<TypedExpr> {
    match number(word.as_bytes()) {
        NumberConstant::Integer { value, ty } => Ok(leaf(alloc, Typed::Int(value), of_basic(ty))),
        NumberConstant::Floating(ty) => {
            let name = Name::new(alloc, word.as_bytes())?;
            Ok(leaf(alloc, Typed::Floating(name), of_basic(ty)))
        }
        _ => Ok(wrong(alloc)),
    }
}

/// A character constant.
fn character_leaf(alloc: Global, word: &str) -> TypedExpr {
    let bytes = word.as_bytes();
    let ty = of_basic(prefix_of(bytes).char_type());
    leaf(alloc, Typed::Chars(char_value(bytes)), ty)
}

/// The type of a chain.
fn type_of(alloc: Global, text: &str) -> Mem<CType> {
    Ok(chain(alloc, text)?.unwrap_or(CType::Error))
}

/// An object.
fn object(alloc: Global, text: &str) -> Mem<TypedExpr> {
    let mut operand = value(type_of(alloc, text)?);
    operand.lvalue = true;
    Ok(made(
        Typed::Named(DeclNo(1), None),
        Some(operand),
        List::new(alloc),
    ))
}

/// A leaf: `x:` with a type an object, `f:` a function, `E:` an enumerator with its value or with `?`, `sizeof:` and `alignof:` with a
/// type, `error`, or a constant.
fn leaf_of(alloc: Global, word: &str) -> Mem<TypedExpr> {
    let (kind, text) = word.split_once(":").unwrap_or((word, ""));
    match kind {
        "x" => object(alloc, text),
        "f" => Ok(leaf(alloc, Typed::Named(DeclNo(1), None), type_of(alloc, text)?)),
        "E" => {
            let number = text.parse::<i128>().ok();
            Ok(leaf(alloc, Typed::Named(DeclNo(2), number), CType::Int))
        }
        "sizeof" => Ok(leaf(alloc, Typed::SizeOf(type_of(alloc, text)?), CType::ULong)),
        "alignof" => Ok(leaf(alloc, Typed::AlignOf(type_of(alloc, text)?), CType::ULong)),
        "error" => Ok(wrong(alloc)),
        "string" => Ok(leaf(alloc, Typed::Text, type_of(alloc, "c3")?)),
        _ => match word.as_bytes() {
            [b'0'..=b'9' | b'.', ..] => number_leaf(alloc, word),
            _ => Ok(character_leaf(alloc, word)),
        },
    }
}

/// The parts on top of those so far, in order.
fn taken(alloc: Global, stack: &mut List<TypedExpr>, count: u8) -> Mem<List<TypedExpr>> {
    let mut reversed = List::new(alloc);
    for _ in 0..count {
        if let Some(part) = stack.pop() {
            reversed.push(part)?;
        }
    }
    let mut parts = List::new(alloc);
    for _ in 0..count {
        if let Some(part) = reversed.pop() {
            parts.push(part)?;
        }
    }
    Ok(parts)
}

/// How many operands an operator has, and 0 of what is none.
fn operand_count(word: &str) -> u8 {
    match word.as_bytes() {
        [b'?', ..] | [b'g', b'e', ..] => 3,
        [_, b'_'] | [b'+', b'+', b'_'] | [b'c', b'a', ..] | [b'(', ..] => 1,
        [b'\'', ..] | [b'.', ..] => 0,
        [b'!'..=b'/' | b'<'..=b'>' | b'[' | b'^' | b'|', ..] => 2,
        _ => 0,
    }
}

/// What an operator is: a word in parentheses a cast, `generic` a generic selection of three parts that selects the last.
fn op_of(word: &str) -> Typed {
    match word.as_bytes() {
        [b'?', ..] => Typed::Select,
        [b'g', ..] => Typed::Generic(2),
        [b'c', ..] => Typed::Call,
        [b'(', ..] => Typed::Cast,
        _ => {
            if operand_count(word) == 1 {
                Typed::Unary(unary_op(word))
            } else {
                Typed::Binary(binary_op(word))
            }
        }
    }
}

/// A cast to the type of a chain in parentheses.
fn cast_to(alloc: Global, word: &str, a: &Operand) -> Mem<Option<Operand>> {
    let text = word.strip_prefix("(").unwrap_or(word);
    let to = type_of(alloc, text.strip_suffix(")").unwrap_or(text))?;
    cast(alloc, &to, a)
}

fn over_one(alloc: Global, word: &str, a: &Operand) -> Mem<Option<Operand>> {
    match word.as_bytes() {
        [b'(', ..] => cast_to(alloc, word, a),
        [b'c', ..] => call(alloc, a),
        _ => unary(alloc, unary_op(word), a),
    }
}

/// What an operation is as an operand; a generic selection has type `int`.
fn operand_of(alloc: Global, word: &str, parts: &[TypedExpr]) -> Mem<Option<Operand>> {
    match parts {
        [a] => over_one(alloc, word, &a.operand),
        [a, b] => binary(alloc, binary_op(word), &a.operand, &b.operand),
        [a, b, c] => match word {
            "?:" => conditional(alloc, &a.operand, &b.operand, &c.operand),
            _ => Ok(Some(value(CType::Int))),
        },
        _ => Ok(None),
    }
}

/// An operation over the parts on top of those so far.
fn operation(alloc: Global, stack: &mut List<TypedExpr>, word: &str) -> Mem<TypedExpr> {
    let parts = taken(alloc, stack, operand_count(word))?;
    let operand = operand_of(alloc, word, parts.as_slice())?;
    Ok(made(op_of(word), operand, parts))
}

/// The expression that a word ends.
fn next(alloc: Global, stack: &mut List<TypedExpr>, word: &str) -> Mem<TypedExpr> {
    if operand_count(word) == 0 {
        leaf_of(alloc, word)
    } else {
        operation(alloc, stack, word)
    }
}

/// The expressions that are not yet parts of others.
fn stack_of(alloc: Global, text: &str) -> Mem<List<TypedExpr>> {
    let mut stack = List::new(alloc);
    for word in text.split(' ') {
        let made = next(alloc, &mut stack, word)?;
        stack.push(made)?;
    }
    Ok(stack)
}

/// A value: a number, `?` where it isn't known, or `none`.
fn said(alloc: Global, value: Value) -> Mem<String> {
    match value {
        Value::Known(number) => {
            let shown = format!(in alloc; "{number}")?;
            Ok(shown)
        }
        Value::Unknown => Ok(String::from_str(alloc, "?")?),
        Value::NotConst => Ok(String::from_str(alloc, "none")?),
    }
}

/// The value of an expression as a constant one.
pub(crate) fn value_of(alloc: Global, text: &str) -> Mem<String> {
    let stack = stack_of(alloc, text)?;
    match stack.as_slice() {
        [whole] => said(alloc, eval_const(alloc, &Tags::none(alloc), whole)?),
        _ => Ok(String::from_str(alloc, "-")?),
    }
}
