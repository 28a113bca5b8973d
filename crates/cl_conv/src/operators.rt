//! Operators between two operands (N1570 6.5.2.1, 6.5.5 to 6.5.14, 6.5.16, 6.5.17).

ghost use Rattle.std.specs.Prelude.{◌≡◌, ◌&&◌, not, if◌then◌else◌, Some, None, IfOk};
ghost use Rattle.std.specs.Option.{option_copied};
ghost use Rattle.cl_types.specs.declared.expressions.BinaryOp.TheVariants as op;
ghost use Rattle.cl_conv.specs.declared.operators.Outcome.TheVariants as give;
ghost use Rattle.cl_types.specs.declared.types.CType.TheVariants as make;
ghost use Rattle.cl_conv.specs.Operands.{target, value_type};
ghost use Rattle.cl_conv.specs.Operators.{Operands, BothArithmetic, BothInteger, BothScalar, ObjectAndInteger, IntegerAndObject, assigns, binary, designated, first_row, fit, is_place, made, made_by, object, pointer_and_null, promote, row_of, rows, same_objects, value};

use crate::conversions::{promote, usual};
use crate::operands::{
    is_arithmetic, is_array, is_const, is_function, is_integer, is_object_pointer, is_pointer,
    is_scalar, object_and_void, same_pointers, target, value_type,
};
use cl_base::{Duplicate, Mem};
use cl_types::{BinaryOp, CType, Operand, is_error};
use std::alloc::Global;

/// What a row of the table gives: by the usual arithmetic conversions, the promoted left type, the left or the right type,
/// `int`, `long`, or what the left or the right operand points to.
#[derive(Clone, Copy)]
pub enum Outcome {
    ByUsual,
    PromotedLeft,
    LeftType,
    RightType,
    IsInt,
    IsLong,
    LeftTarget,
    RightTarget,
}

/// Whether an operator assigns to its left operand.
pub fn assigns(op: BinaryOp) -> bool
    ensures { result ≡ assigns op }
{
    match op {
        BinaryOp::Assign => true,
        BinaryOp::AssignMultiply => true,
        BinaryOp::AssignDivide => true,
        BinaryOp::AssignRemainder => true,
        BinaryOp::AssignAdd => true,
        BinaryOp::AssignSubtract => true,
        BinaryOp::AssignShiftLeft => true,
        BinaryOp::AssignShiftRight => true,
        BinaryOp::AssignBitAnd => true,
        BinaryOp::AssignBitXor => true,
        BinaryOp::AssignBitOr => true,
        _ => false,
    }
}

/// Whether an operand may be assigned to: an lvalue that is no array and not `const` (6.5.16p2, 6.3.2.1p1).
pub fn is_place(a: &Operand) -> bool
    ensures { result ≡ is_place a.now }
{
    a.lvalue && (!is_array(&a.ty) && !is_const(&a.ty))
}

fn pointer_and_null(a: &Operand, b: &Operand) -> bool
    ensures { result ≡ pointer_and_null a.now b.now }
{
    let forward = is_pointer(&a.ty) && b.null;
    let backward = a.null && is_pointer(&b.ty);
    forward || backward
}

fn same_objects(a: &CType, b: &CType) -> bool
    ensures { result ≡ same_objects a.now b.now }
{
    is_object_pointer(a) && same_pointers(a, b)
}

fn both_arithmetic(a: &Operand, b: &Operand) -> bool
    ensures { result ≡ fit BothArithmetic a.now b.now }
{
    is_arithmetic(&a.ty) && is_arithmetic(&b.ty)
}

fn both_integer(a: &Operand, b: &Operand) -> bool
    ensures { result ≡ fit BothInteger a.now b.now }
{
    is_integer(&a.ty) && is_integer(&b.ty)
}

fn both_scalar(a: &Operand, b: &Operand) -> bool
    ensures { result ≡ fit BothScalar a.now b.now }
{
    is_scalar(&a.ty) && is_scalar(&b.ty)
}

fn object_and_integer(a: &Operand, b: &Operand) -> bool
    ensures { result ≡ fit ObjectAndInteger a.now b.now }
{
    is_object_pointer(&a.ty) && is_integer(&b.ty)
}

fn integer_and_object(a: &Operand, b: &Operand) -> bool
    ensures { result ≡ fit IntegerAndObject a.now b.now }
{
    is_integer(&a.ty) && is_object_pointer(&b.ty)
}

/// An outcome, where its row fits.
fn on(fits: bool, outcome: Outcome) -> Option<Outcome>
    ensures { result ≡ (if fits then Some outcome else None) }
{
    if fits { Some(outcome) } else { None }
}

fn index(a: &Operand, b: &Operand) -> Option<Outcome>
    ensures { result ≡ first_row (rows op.Index) a.now b.now }
{
    if object_and_integer(a, b) {
        return Some(Outcome::LeftTarget);
    }
    on(integer_and_object(a, b), Outcome::RightTarget)
}

fn add(a: &Operand, b: &Operand) -> Option<Outcome>
    ensures { result ≡ first_row (rows op.Add) a.now b.now }
{
    if both_arithmetic(a, b) {
        return Some(Outcome::ByUsual);
    }
    if object_and_integer(a, b) {
        return Some(Outcome::LeftType);
    }
    on(integer_and_object(a, b), Outcome::RightType)
}

fn subtract(a: &Operand, b: &Operand) -> Option<Outcome>
    ensures { result ≡ first_row (rows op.Subtract) a.now b.now }
{
    if both_arithmetic(a, b) {
        return Some(Outcome::ByUsual);
    }
    if object_and_integer(a, b) {
        return Some(Outcome::LeftType);
    }
    on(same_objects(&a.ty, &b.ty), Outcome::IsLong)
}

fn compare(a: &Operand, b: &Operand) -> Option<Outcome>
    ensures { result ≡ first_row (rows op.Less) a.now b.now }
{
    if both_arithmetic(a, b) {
        return Some(Outcome::IsInt);
    }
    on(same_objects(&a.ty, &b.ty), Outcome::IsInt)
}

fn equate(a: &Operand, b: &Operand) -> Option<Outcome>
    ensures { result ≡ first_row (rows op.Equal) a.now b.now }
{
    if both_arithmetic(a, b) {
        return Some(Outcome::IsInt);
    }
    if same_pointers(&a.ty, &b.ty) {
        return Some(Outcome::IsInt);
    }
    if pointer_and_null(a, b) {
        return Some(Outcome::IsInt);
    }
    on(object_and_void(&a.ty, &b.ty), Outcome::IsInt)
}

fn step(a: &Operand, b: &Operand) -> Option<Outcome>
    ensures { result ≡ first_row (rows op.AssignAdd) a.now b.now }
{
    if both_arithmetic(a, b) {
        return Some(Outcome::LeftType);
    }
    on(object_and_integer(a, b), Outcome::LeftType)
}

/// The first row of an operator that fits its operands.
fn first_row(op: BinaryOp, a: &Operand, b: &Operand) -> Option<Outcome>
    ensures { result ≡ first_row (rows op) a.now b.now }
{
    match op {
        BinaryOp::Index => index(a, b),
        BinaryOp::Multiply => on(both_arithmetic(a, b), Outcome::ByUsual),
        BinaryOp::Divide => on(both_arithmetic(a, b), Outcome::ByUsual),
        BinaryOp::Remainder => on(both_integer(a, b), Outcome::ByUsual),
        BinaryOp::Add => add(a, b),
        BinaryOp::Subtract => subtract(a, b),
        BinaryOp::ShiftLeft => on(both_integer(a, b), Outcome::PromotedLeft),
        BinaryOp::ShiftRight => on(both_integer(a, b), Outcome::PromotedLeft),
        BinaryOp::Less => compare(a, b),
        BinaryOp::Greater => compare(a, b),
        BinaryOp::LessEqual => compare(a, b),
        BinaryOp::GreaterEqual => compare(a, b),
        BinaryOp::Equal => equate(a, b),
        BinaryOp::NotEqual => equate(a, b),
        BinaryOp::BitAnd => on(both_integer(a, b), Outcome::ByUsual),
        BinaryOp::BitXor => on(both_integer(a, b), Outcome::ByUsual),
        BinaryOp::BitOr => on(both_integer(a, b), Outcome::ByUsual),
        BinaryOp::LogicalAnd => on(both_scalar(a, b), Outcome::IsInt),
        BinaryOp::LogicalOr => on(both_scalar(a, b), Outcome::IsInt),
        BinaryOp::Assign => Some(Outcome::LeftType),
        BinaryOp::AssignMultiply => on(both_arithmetic(a, b), Outcome::LeftType),
        BinaryOp::AssignDivide => on(both_arithmetic(a, b), Outcome::LeftType),
        BinaryOp::AssignRemainder => on(both_integer(a, b), Outcome::LeftType),
        BinaryOp::AssignAdd => step(a, b),
        BinaryOp::AssignSubtract => step(a, b),
        BinaryOp::AssignShiftLeft => on(both_integer(a, b), Outcome::LeftType),
        BinaryOp::AssignShiftRight => on(both_integer(a, b), Outcome::LeftType),
        BinaryOp::AssignBitAnd => on(both_integer(a, b), Outcome::LeftType),
        BinaryOp::AssignBitXor => on(both_integer(a, b), Outcome::LeftType),
        BinaryOp::AssignBitOr => on(both_integer(a, b), Outcome::LeftType),
        BinaryOp::Comma => Some(Outcome::RightType),
    }
}

fn row_of(op: BinaryOp, a: &Operand, b: &Operand) -> Option<Outcome>
    ensures { result ≡ row_of op a.now b.now }
{
    if assigns(op) && !is_place(a) {
        None
    } else {
        first_row(op, a, b)
    }
}

/// A value of this type.
pub fn value(ty: CType) -> Operand
    ensures { result ≡ value ty }
{
    Operand {
        ty,
        lvalue: false,
        bit_field: false,
        register: false,
        null: false,
    }
}

/// What an operand's value points to: an lvalue, unless it is a function (6.5.3.2p4).
pub fn designated(alloc: Global, t: &CType) -> Mem<Operand>
    ensures { IfOk result (λ made. made ≡ designated (target t.now)) }
{
    match target(t) {
        Some(within) => {
            let ty = within.duplicate(alloc)?;
            let lvalue = !is_function(within);
            Ok(Operand {
                ty,
                lvalue,
                bit_field: false,
                register: false,
                null: false,
            })
        }
        None => Ok(value(CType::Error)),
    }
}

fn promoted_value(alloc: Global, t: &CType) -> Mem<Operand>
    ensures { IfOk result (λ made. made ≡ value (promote (value_type t.now))) }
{
    let bare = value_type(alloc, t)?;
    let ty = promote(alloc, &bare)?;
    Ok(value(ty))
}

fn made(alloc: Global, outcome: Outcome, a: &CType, b: &CType) -> Mem<Operand>
    ensures { IfOk result (λ operand. operand ≡ made outcome a.now b.now) }
{
    match outcome {
        Outcome::ByUsual => Ok(value(usual(a, b))),
        Outcome::PromotedLeft => promoted_value(alloc, a),
        Outcome::LeftType => Ok(value(value_type(alloc, a)?)),
        Outcome::RightType => Ok(value(value_type(alloc, b)?)),
        Outcome::IsInt => Ok(value(CType::Int)),
        Outcome::IsLong => Ok(value(CType::Long)),
        Outcome::LeftTarget => designated(alloc, a),
        Outcome::RightTarget => designated(alloc, b),
    }
}

/// What an operator between two operands gives. None comes exactly where the operands fit no row of the table, or the operator
/// assigns to what may not be assigned to. Of an operand in error it is a value in error. An assignment that breaks only the
/// rule of assignment has its value all the same.
pub fn binary(alloc: Global, op: BinaryOp, a: &Operand, b: &Operand) -> Mem<Option<Operand>>
    ensures { IfOk result (λ made. made ≡ binary op a.now b.now) }
{
    if is_error(&a.ty) || is_error(&b.ty) {
        return Ok(Some(value(CType::Error)));
    }
    match row_of(op, a, b) {
        Some(outcome) => {
            let operand = made(alloc, outcome, &a.ty, &b.ty)?;
            Ok(Some(operand))
        }
        None => Ok(None),
    }
}
