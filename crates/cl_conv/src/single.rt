//! Operators over one operand, and casts (N1570 6.5.2.4, 6.5.3, 6.5.4).

ghost use Rattle.std.specs.Prelude.{◌≡◌, IfOk};
ghost use Rattle.std.specs.Option.{option_copied};
ghost use Rattle.cl_conv.specs.Unary.{cast, has_address, is_scalar_type, is_some, may_cast, may_step, pointed, pointer_and_floating, size_of, unary, unary_row, where_fits};
ghost use Rattle.cl_conv.specs.Operators.{designated, promote, value};
ghost use Rattle.cl_types.specs.declared.types.CType.TheVariants as make;
ghost use Rattle.cl_conv.specs.Operands.{is_floating_type, is_pointer, is_scalar, target, value_type};

use crate::conversions::promote;
use crate::operands::{
    is_arithmetic, is_function, is_integer, is_object_pointer, is_pointer, is_scalar, is_void,
    value_type,
};
use crate::operators::{designated, is_place, value};
use cl_base::{Duplicate, Mem};
use cl_types::{CType, Operand, Shared, UnaryOp, is_error, stripped};
use std::alloc::Global;

/// Whether an operand may be stepped by `++` and `--` (6.5.2.4p1, 6.5.3.1p1).
fn may_step(a: &Operand) -> bool
    ensures { result ≡ may_step a.now }
{
    is_place(a) && (is_arithmetic(&a.ty) || is_object_pointer(&a.ty))
}

/// Whether an operand's address may be taken (6.5.3.2p1).
fn has_address(a: &Operand) -> bool
    ensures { result ≡ has_address a.now }
{
    is_function(&a.ty) || (a.lvalue && (!a.bit_field && !a.register))
}

fn stepped(alloc: Global, a: &Operand) -> Mem<Option<Operand>>
    ensures { IfOk result (λ made. made ≡ where_fits (may_step a.now) (value (value_type a.now.ty))) }
{
    if may_step(a) {
        let ty = value_type(alloc, &a.ty)?;
        Ok(Some(value(ty)))
    } else {
        Ok(None)
    }
}

fn address_of(alloc: Global, a: &Operand) -> Mem<Option<Operand>>
    ensures { IfOk result (λ made. made ≡ where_fits (has_address a.now) (value (make.Pointer a.now.ty))) }
{
    if has_address(a) {
        let ty = a.ty.duplicate(alloc)?;
        let ty = CType::Pointer(Shared::new(alloc, ty)?);
        Ok(Some(value(ty)))
    } else {
        Ok(None)
    }
}

fn dereference(alloc: Global, a: &Operand) -> Mem<Option<Operand>>
    ensures { IfOk result (λ made. made ≡ where_fits (is_pointer a.now.ty) (designated (target a.now.ty))) }
{
    if is_pointer(&a.ty) {
        let operand = designated(alloc, &a.ty)?;
        Ok(Some(operand))
    } else {
        Ok(None)
    }
}

fn promoted_where(alloc: Global, fits: bool, a: &Operand) -> Mem<Option<Operand>>
    ensures { IfOk result (λ made. made ≡ where_fits fits (value (promote (value_type a.now.ty)))) }
{
    if fits {
        let ty = value_type(alloc, &a.ty)?;
        let ty = promote(alloc, &ty)?;
        Ok(Some(value(ty)))
    } else {
        Ok(None)
    }
}

fn negation(a: &Operand) -> Option<Operand>
    ensures { result ≡ where_fits (is_scalar a.now.ty) (value make.Int) }
{
    if is_scalar(&a.ty) {
        Some(value(CType::Int))
    } else {
        None
    }
}

fn unary_row(alloc: Global, op: UnaryOp, a: &Operand) -> Mem<Option<Operand>>
    ensures { IfOk result (λ made. made ≡ unary_row op a.now) }
{
    match op {
        UnaryOp::PostIncrement => stepped(alloc, a),
        UnaryOp::PostDecrement => stepped(alloc, a),
        UnaryOp::PreIncrement => stepped(alloc, a),
        UnaryOp::PreDecrement => stepped(alloc, a),
        UnaryOp::AddressOf => address_of(alloc, a),
        UnaryOp::Dereference => dereference(alloc, a),
        UnaryOp::Plus => promoted_where(alloc, is_arithmetic(&a.ty), a),
        UnaryOp::Minus => promoted_where(alloc, is_arithmetic(&a.ty), a),
        UnaryOp::Complement => promoted_where(alloc, is_integer(&a.ty), a),
        UnaryOp::Not => Ok(negation(a)),
    }
}

/// What an operator over one operand gives. None comes exactly where the operand fits no row of the table, may not be stepped,
/// or has no address that may be taken. Of an operand in error it is a value in error.
pub fn unary(alloc: Global, op: UnaryOp, a: &Operand) -> Mem<Option<Operand>>
    ensures { IfOk result (λ made. made ≡ unary op a.now) }
{
    if is_error(&a.ty) {
        return Ok(Some(value(CType::Error)));
    }
    unary_row(alloc, op, a)
}

/// What a type that is a pointer itself points to.
pub fn pointed(t: &CType) -> Option<&CType>
    ensures { option_copied result ≡ pointed t.now }
{
    match stripped(t) {
        CType::Pointer(within) => Some(within.get()),
        _ => None,
    }
}

/// Whether a type is a pointer itself.
pub fn is_pointer_type(t: &CType) -> bool
    ensures { result ≡ is_some (pointed t.now) }
{
    match stripped(t) {
        CType::Pointer(_) => true,
        _ => false,
    }
}

fn is_floating_type(t: &CType) -> bool
    ensures { result ≡ is_floating_type t.now }
{
    is_arithmetic(t) && !is_integer(t)
}

fn is_scalar_type(t: &CType) -> bool
    ensures { result ≡ is_scalar_type t.now }
{
    is_arithmetic(t) || is_pointer_type(t)
}

fn pointer_and_floating(a: &CType, b: &CType) -> bool
    ensures { result ≡ pointer_and_floating a.now b.now }
{
    is_pointer(a) && is_floating_type(b)
}

fn may_cast(to: &CType, a: &Operand) -> bool
    ensures { result ≡ may_cast to.now a.now }
{
    if is_void(to) {
        return true;
    }
    let scalars = is_scalar_type(to) && is_scalar(&a.ty);
    let apart = pointer_and_floating(to, &a.ty) || pointer_and_floating(&a.ty, to);
    scalars && !apart
}

/// What a cast gives (6.5.4): a value of the type without its qualifiers. None comes exactly where neither the type is void nor
/// both are scalar, or between a pointer and a floating type.
pub fn cast(alloc: Global, to: &CType, a: &Operand) -> Mem<Option<Operand>>
    ensures { IfOk result (λ made. made ≡ cast to.now a.now) }
{
    if is_error(stripped(to)) || is_error(&a.ty) {
        return Ok(Some(value(CType::Error)));
    }
    if may_cast(to, a) {
        let ty = stripped(to).duplicate(alloc)?;
        Ok(Some(value(ty)))
    } else {
        Ok(None)
    }
}

/// What `sizeof` an expression gives (6.5.3.4). None comes exactly of a function and of a bit-field.
pub fn size_of(a: &Operand) -> Option<Operand>
    ensures { result ≡ size_of a.now }
{
    if is_error(&a.ty) {
        return Some(value(CType::Error));
    }
    if !is_function(&a.ty) && !a.bit_field {
        Some(value(CType::ULong))
    } else {
        None
    }
}
