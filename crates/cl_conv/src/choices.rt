//! `?:`, assignment and calls (N1570 6.5.2.2, 6.5.15, 6.5.16.1).

ghost use Rattle.std.specs.Prelude.{◌≡◌, ◌==◌, nat_le, if◌then◌else◌, bit_and, IfOk};
ghost use Rattle.cl_conv.specs.Operands.{target};
ghost use Rattle.cl_conv.specs.Operators.{value};
ghost use Rattle.cl_conv.specs.Unary.{assignable, call, choice, given, pointer_choice, takes_pointer, conditional, has_all, joined, joined_void, keeps_qualifiers, pointed, takes_count};

use crate::conversions::usual;
use crate::operands::{
    is_arithmetic, is_bool, is_pointer, is_scalar, is_void, object_and_void, same_pointers,
    same_record, target, value_type,
};
use crate::operators::value;
use crate::single::{is_pointer_type, pointed};
use cl_base::{Duplicate, Mem};
use cl_types::{
    CType, Operand, Params, Shared, composite, is_error, qualified, qualifiers_of, stripped,
    unqualified,
};
use std::alloc::Global;

/// A pointer to the composite of what two pointers point to, with the qualifiers of both.
fn joined(alloc: Global, a: &CType, b: &CType) -> Mem<CType>
    ensures { IfOk result (λ made. made ≡ joined (target a.now) (target b.now)) }
{
    match target(a) {
        Some(t) => match target(b) {
            Some(u) => {
                let within = composite(alloc, unqualified(t), unqualified(u))?;
                let within = qualified(alloc, &within, qualifiers_of(t) | qualifiers_of(u))?;
                Ok(CType::Pointer(Shared::new(alloc, within)?))
            }
            None => Ok(CType::Error),
        },
        None => Ok(CType::Error),
    }
}

/// A pointer to void with the qualifiers of what two pointers point to.
fn joined_void(alloc: Global, a: &CType, b: &CType) -> Mem<CType>
    ensures { IfOk result (λ made. made ≡ joined_void (target a.now) (target b.now)) }
{
    match target(a) {
        Some(t) => match target(b) {
            Some(u) => {
                let within = qualified(alloc, &CType::Void, qualifiers_of(t) | qualifiers_of(u))?;
                Ok(CType::Pointer(Shared::new(alloc, within)?))
            }
            None => Ok(CType::Error),
        },
        None => Ok(CType::Error),
    }
}

/// The second and third operand of `?:`.
fn choice(alloc: Global, a: &Operand, b: &Operand) -> Mem<Option<Operand>>
    ensures { IfOk result (λ made. made ≡ choice a.now b.now) }
{
    if is_arithmetic(&a.ty) && is_arithmetic(&b.ty) {
        return Ok(Some(value(usual(&a.ty, &b.ty))));
    }
    if same_record(&a.ty, &b.ty) {
        let ty = stripped(&a.ty).duplicate(alloc)?;
        return Ok(Some(value(ty)));
    }
    if is_void(&a.ty) && is_void(&b.ty) {
        return Ok(Some(value(CType::Void)));
    }
    pointers(alloc, a, b)
}

/// The rows of `?:` that are of pointers.
fn pointers(alloc: Global, a: &Operand, b: &Operand) -> Mem<Option<Operand>>
    ensures { IfOk result (λ made. made ≡ pointer_choice a.now b.now) }
{
    if is_pointer(&a.ty) && b.null {
        let ty = value_type(alloc, &a.ty)?;
        return Ok(Some(value(ty)));
    }
    if a.null && is_pointer(&b.ty) {
        let ty = value_type(alloc, &b.ty)?;
        return Ok(Some(value(ty)));
    }
    if same_pointers(&a.ty, &b.ty) {
        let ty = joined(alloc, &a.ty, &b.ty)?;
        return Ok(Some(value(ty)));
    }
    if object_and_void(&a.ty, &b.ty) {
        let ty = joined_void(alloc, &a.ty, &b.ty)?;
        return Ok(Some(value(ty)));
    }
    Ok(None)
}

/// What `?:` gives (6.5.15). None comes exactly where the first operand is no scalar or the others fit no row.
pub fn conditional(alloc: Global, c: &Operand, a: &Operand, b: &Operand) -> Mem<Option<Operand>>
    ensures { IfOk result (λ made. made ≡ conditional c.now a.now b.now) }
{
    if is_error(&c.ty) || (is_error(&a.ty) || is_error(&b.ty)) {
        return Ok(Some(value(CType::Error)));
    }
    if is_scalar(&c.ty) {
        choice(alloc, a, b)
    } else {
        Ok(None)
    }
}

/// Whether these qualifiers have all of those.
fn has_all(qualifiers: u8, those: u8) -> bool
    ensures { result ≡ has_all qualifiers those }
{
    qualifiers & those == those
}

fn keeps_qualifiers(to: &CType, from: &CType) -> bool
    ensures { result ≡ keeps_qualifiers (pointed to.now) (target from.now) }
{
    match pointed(to) {
        Some(t) => match target(from) {
            Some(u) => has_all(qualifiers_of(t), qualifiers_of(u)),
            None => false,
        },
        None => false,
    }
}

/// Whether a type takes an operand's value by the rule of assignment (6.5.16.1p1), its own qualifiers aside.
pub fn assignable(to: &CType, from: &Operand) -> bool
    ensures { result ≡ assignable to.now from.now }
{
    if is_error(stripped(to)) || is_error(&from.ty) {
        return true;
    }
    if is_arithmetic(to) && is_arithmetic(&from.ty) {
        return true;
    }
    if same_record(to, &from.ty) {
        return true;
    }
    takes_pointer(to, from)
}

/// The cases of the rule of assignment that are of pointers.
fn takes_pointer(to: &CType, from: &Operand) -> bool
    ensures { result ≡ takes_pointer to.now from.now }
{
    let is_like = same_pointers(to, &from.ty) || object_and_void(to, &from.ty);
    if is_pointer_type(to) && is_like && keeps_qualifiers(to, &from.ty) {
        return true;
    }
    if is_pointer_type(to) && from.null {
        return true;
    }
    is_bool(to) && is_pointer(&from.ty)
}

/// What a call gives (6.5.2.2). None comes exactly where the callee is no function and no pointer to one.
pub fn call(alloc: Global, callee: &Operand) -> Mem<Option<Operand>>
    ensures { IfOk result (λ made. made ≡ call callee.now) }
{
    if is_error(&callee.ty) {
        return Ok(Some(value(CType::Error)));
    }
    match target(&callee.ty) {
        Some(t) => given(alloc, t),
        None => Ok(None),
    }
}

fn given(alloc: Global, t: &CType) -> Mem<Option<Operand>>
    ensures { IfOk result (λ made. made ≡ given t.now) }
{
    match t {
        CType::Function(within, _) => {
            let ty = stripped(within.get()).duplicate(alloc)?;
            Ok(Some(value(ty)))
        }
        _ => Ok(None),
    }
}

/// Whether a function takes so many arguments (6.5.2.2p2).
pub fn takes_count(t: &CType, count: usize) -> bool
    ensures { result ≡ takes_count t.now count }
{
    match t {
        CType::Function(_, params) => match params {
            Params::Proto(types, variadic) => fits_count(types.get().len(), *variadic, count),
            Params::NoProto => true,
        },
        _ => false,
    }
}

fn fits_count(wanted: usize, variadic: bool, count: usize) -> bool
    ensures { result ≡ (if variadic then nat_le wanted count else wanted == count) }
{
    if variadic {
        wanted <= count
    } else {
        wanted == count
    }
}
