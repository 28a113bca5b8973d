//! Conversions, and the types of operations.

use crate::chains::{base, operand, said, yes_or_no};
use cl_base::Mem;
use cl_conv::{
    Access, assignable, binary, call, cast, conditional, member_of, promote, size_of, takes_count,
    unary, usual,
};
use cl_print::print;
use cl_types::{BinaryOp, CType, DeclNo, Member, Operand, UnaryOp, basic_of};
use std::alloc::Global;

/// The letters of the arithmetic types, in the order of their list in N1570 6.2.5.
const LETTERS: &str = "BcaCsSiIlLqQfdD";

pub(crate) fn binary_op(word: &str) -> BinaryOp {
    match word {
        "*" => BinaryOp::Multiply,
        "/" => BinaryOp::Divide,
        "%" => BinaryOp::Remainder,
        "+" => BinaryOp::Add,
        "-" => BinaryOp::Subtract,
        "<<" => BinaryOp::ShiftLeft,
        ">>" => BinaryOp::ShiftRight,
        "<" => BinaryOp::Less,
        ">" => BinaryOp::Greater,
        "<=" => BinaryOp::LessEqual,
        ">=" => BinaryOp::GreaterEqual,
        "==" => BinaryOp::Equal,
        "!=" => BinaryOp::NotEqual,
        "&" => BinaryOp::BitAnd,
        "^" => BinaryOp::BitXor,
        "|" => BinaryOp::BitOr,
        "&&" => BinaryOp::LogicalAnd,
        "||" => BinaryOp::LogicalOr,
        "*=" => BinaryOp::AssignMultiply,
        "+=" => BinaryOp::AssignAdd,
        "-=" => BinaryOp::AssignSubtract,
        "%=" => BinaryOp::AssignRemainder,
        "<<=" => BinaryOp::AssignShiftLeft,
        "|=" => BinaryOp::AssignBitOr,
        "=" => BinaryOp::Assign,
        "[]" => BinaryOp::Index,
        _ => BinaryOp::Comma,
    }
}

pub(crate) fn unary_op(word: &str) -> UnaryOp {
    match word {
        "_++" => UnaryOp::PostIncrement,
        "--" => UnaryOp::PreDecrement,
        "++_" => UnaryOp::PreIncrement,
        "&" | "&_" => UnaryOp::AddressOf,
        "*" | "*_" => UnaryOp::Dereference,
        "+" | "+_" => UnaryOp::Plus,
        "-" | "-_" => UnaryOp::Minus,
        "~" | "~_" => UnaryOp::Complement,
        _ => UnaryOp::Not,
    }
}

fn type_of(alloc: Global, found: Option<Operand>) -> Mem<String> {
    match found {
        Some(operand) => said(alloc, Some(operand.ty)),
        None => said(alloc, None),
    }
}

/// The letter of an arithmetic type.
fn letter_of(t: &CType) -> char {
    let place = match basic_of(t) {
        Some(basic) => usize::from(basic.place()),
        None => return '?',
    };
    match LETTERS.as_bytes().get(place) {
        Some(letter) => *letter as char,
        None => '?',
    }
}

/// The letters of the types of a type's sums with each arithmetic type.
pub(crate) fn sums(alloc: Global, left: &str) -> Mem<String> {
    let a = operand(alloc, left)?.ty;
    let mut letters = String::new(alloc);
    for right in LETTERS.as_bytes() {
        let b = base(alloc, *right)?;
        letters.push(letter_of(&usual(&a, &b)))?;
    }
    Ok(letters)
}

pub(crate) fn promoted(alloc: Global, text: &str) -> Mem<String> {
    let a = operand(alloc, text)?.ty;
    print(alloc, &promote(alloc, &a)?, "")
}

pub(crate) fn binary_of(alloc: Global, op: &str, operands: &str) -> Mem<String> {
    let (left, right) = operands.split_once(" ").unwrap_or((operands, ""));
    let a = operand(alloc, left)?;
    let b = operand(alloc, right)?;
    type_of(alloc, binary(alloc, binary_op(op), &a, &b)?)
}

pub(crate) fn unary_of(alloc: Global, op: &str, text: &str) -> Mem<String> {
    let a = operand(alloc, text)?;
    type_of(alloc, unary(alloc, unary_op(op), &a)?)
}

pub(crate) fn choice(alloc: Global, left: &str, right: &str) -> Mem<String> {
    let c = operand(alloc, "i")?;
    let a = operand(alloc, left)?;
    let b = operand(alloc, right)?;
    type_of(alloc, conditional(alloc, &c, &a, &b)?)
}

pub(crate) fn is_assigned(alloc: Global, left: &str, right: &str) -> Mem<String> {
    let to = operand(alloc, left)?;
    let from = operand(alloc, right)?;
    yes_or_no(alloc, assignable(&to.ty, &from))
}

pub(crate) fn cast_of(alloc: Global, to: &str, from: &str) -> Mem<String> {
    let t = operand(alloc, to)?;
    let a = operand(alloc, from)?;
    type_of(alloc, cast(alloc, &t.ty, &a)?)
}

/// The type of a call, and whether the callee is a function that takes two arguments.
pub(crate) fn call_of(alloc: Global, text: &str) -> Mem<String> {
    let callee = operand(alloc, text)?;
    let result = type_of(alloc, call(alloc, &callee)?)?;
    let takes = yes_or_no(alloc, takes_count(&callee.ty, 2))?;
    let shown = format!(in alloc; "{result}, {takes}")?;
    Ok(shown)
}

pub(crate) fn size(alloc: Global, text: &str) -> Mem<String> {
    let a = operand(alloc, text)?;
    type_of(alloc, size_of(&a))
}

/// A member of the type of a chain, a bit-field where a `:` ends it.
fn member(alloc: Global, text: &str) -> Mem<Member> {
    let (chain, width) = match text.split_once(":") {
        Some((chain, _)) => (chain, Some(3)),
        None => (text, None),
    };
    let ty = operand(alloc, chain)?.ty;
    Ok(Member {
        decl: DeclNo(9),
        ty,
        width,
    })
}

/// What an operand is beside its type.
fn kind_of(found: &Operand) -> &'static str {
    match (found.lvalue, found.bit_field) {
        (true, false) => "lvalue",
        (true, true) => "lvalue, bit-field",
        (false, false) => "value",
        (false, true) => "value, bit-field",
    }
}

fn access_of(op: &str) -> Access {
    match op {
        "->" => Access::Arrow,
        _ => Access::Dot,
    }
}

/// The operand of a chain, which is no lvalue behind `v.`.
fn left_of(alloc: Global, op: &str, chain: &str) -> Mem<Operand> {
    let mut a = operand(alloc, chain)?;
    a.lvalue = op != "v.";
    Ok(a)
}

/// The type of an operand and what else it is, or `-` for none.
fn described(alloc: Global, found: Option<Operand>) -> Mem<String> {
    match found {
        Some(found) => {
            let name = print(alloc, &found.ty, "")?;
            let shown = format!(in alloc; "{name}, {}", kind_of(&found))?;
            Ok(shown)
        }
        None => said(alloc, None),
    }
}

/// Access to a member: `.` and `->` of an object, `v.` of a value.
pub(crate) fn part_of(alloc: Global, op: &str, operands: &str) -> Mem<String> {
    let (left, right) = operands.split_once(" ").unwrap_or((operands, ""));
    let a = left_of(alloc, op, left)?;
    let member = member(alloc, right)?;
    let found = member_of(alloc, access_of(op), &a, &member)?;
    described(alloc, found)
}
