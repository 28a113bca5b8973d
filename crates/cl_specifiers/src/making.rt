//! Types made by a declarator's parts, and by qualifiers (N1570 6.7.2.4, 6.7.3, 6.7.6).

ghost use Rattle.std.specs.Prelude.{◌≡◌, IfOk};
ghost use Rattle.cl_types.specs.declared.types.CType.TheVariants as make;
ghost use Rattle.cl_specifiers.specs.Derived.{adjusted, array_of, atomic_of, function_of, has_restrict, incomplete, is_array, is_function, is_unsized, made_atomic, may_be_atomic, may_take, pointer_to, restricting, small, with_qualifiers};
ghost use Rattle.cl_specifiers.specs.Derived.{atomic_within};
ghost use Rattle.cl_types.specs.Form.{form};
ghost use Rattle.cl_types.specs.declared.types.CType.{out-CType};

use cl_base::{Duplicate, Mem};
use cl_types::{CType, Length, Params, Shared, is_enum, is_error, is_small, qualified};
use std::alloc::Global;

fn small(t: CType) -> Option<CType>
    ensures { result ≡ small t }
{
    if is_small(&t) { Some(t) } else { None }
}

fn is_function(t: &CType) -> bool
    ensures { result ≡ is_function t.now }
{
    match t {
        CType::Function(_, _) => true,
        _ => false,
    }
}

fn is_array(t: &CType) -> bool
    ensures { result ≡ is_array t.now }
{
    match t {
        CType::Array(_, _) => true,
        _ => false,
    }
}

fn is_unsized(length: Length) -> bool
    ensures { result ≡ is_unsized length }
{
    match length {
        Length::Unsized => true,
        _ => false,
    }
}

/// Whether a type is incomplete (6.2.5p19, p22), where it is told whether the structure or union that it is has its content.
pub fn incomplete(t: &CType, complete: bool) -> bool
    ensures { result ≡ incomplete complete t.now }
{
    match t {
        CType::Void => true,
        CType::Array(_, length) => is_unsized(*length),
        CType::Tag(_, word, _) => !complete && !is_enum(*word),
        CType::Qualified(_, within) => incomplete(within.get(), complete),
        CType::Atomic(within) => incomplete(within.get(), complete),
        _ => false,
    }
}

/// An array of elements of this type. None comes exactly of functions and of incomplete elements (6.7.6.2p1), and past 1,024
/// types. `complete` tells whether the structure or union that the element is has its content.
pub fn array_of(alloc: Global, t: &CType, length: Length, complete: bool) -> Mem<Option<CType>>
    ensures { IfOk result (λ made. made ≡ array_of t.now length complete) }
{
    if is_function(t) || incomplete(t, complete) {
        return Ok(None);
    }
    let copy = t.duplicate(alloc)?;
    let within = Shared::new(alloc, copy)?;
    Ok(small(CType::Array(within, length)))
}

/// A function that returns this type. None comes exactly where it would return an array or a function (6.7.6.3p1), and past
/// 1,024 types.
pub fn function_of(alloc: Global, t: &CType, params: Params) -> Mem<Option<CType>>
    ensures { IfOk result (λ made. made ≡ function_of t.now params) }
{
    if is_function(t) || is_array(t) {
        return Ok(None);
    }
    let copy = t.duplicate(alloc)?;
    let within = Shared::new(alloc, copy)?;
    Ok(small(CType::Function(within, params)))
}

/// A pointer to this type. None comes exactly past 1,024 types.
pub fn pointer_to(alloc: Global, t: &CType) -> Mem<Option<CType>>
    ensures { IfOk result (λ made. made ≡ pointer_to t.now) }
{
    let copy = t.duplicate(alloc)?;
    let within = Shared::new(alloc, copy)?;
    Ok(small(CType::Pointer(within)))
}

/// The type of a parameter (6.7.6.3p7, p8): an array becomes a pointer to its element with the qualifiers in its brackets, a
/// function a pointer to it. None comes exactly past 1,024 types.
pub fn adjusted(alloc: Global, t: &CType, qualifiers: u8) -> Mem<Option<CType>>
    ensures { IfOk result (λ made. made ≡ adjusted qualifiers t.now) }
{
    match t {
        CType::Array(within, _) => {
            let pointer = CType::Pointer(within.share()?);
            let made = qualified(alloc, &pointer, qualifiers)?;
            Ok(small(made))
        }
        CType::Function(_, _) => {
            let copy = t.duplicate(alloc)?;
            let within = Shared::new(alloc, copy)?;
            Ok(small(CType::Pointer(within)))
        }
        _ => {
            let copy = t.duplicate(alloc)?;
            Ok(small(copy))
        }
    }
}

fn may_be_atomic(t: &CType) -> bool
    ensures { result ≡ may_be_atomic (form (out-CType t.now)) }
{
    match t {
        CType::Array(_, _) => false,
        CType::Function(_, _) => false,
        CType::Atomic(_) => false,
        CType::Qualified(_, _) => false,
        _ => true,
    }
}

/// `_Atomic(T)`. None comes exactly of an array, a function, an atomic and a qualified type (6.7.2.4p3), and past 1,024 types.
pub fn atomic_of(alloc: Global, t: &CType) -> Mem<Option<CType>>
    ensures { IfOk result (λ made. made ≡ atomic_of t.now) }
{
    if !may_be_atomic(t) {
        return Ok(None);
    }
    let copy = t.duplicate(alloc)?;
    if is_error(t) {
        return Ok(Some(copy));
    }
    let within = Shared::new(alloc, copy)?;
    Ok(small(CType::Atomic(within)))
}

/// Whether a type is a function, its qualifiers aside.
fn restricts_function(t: &CType) -> bool
    ensures { result ≡ (restricting t.now).function }
{
    match t {
        CType::Function(_, _) => true,
        CType::Qualified(_, within) => restricts_function(within.get()),
        CType::Atomic(within) => restricts_function(within.get()),
        _ => false,
    }
}

/// Whether a type is a pointer to an object, or an array of such.
fn takes_restrict(t: &CType) -> bool
    ensures { result ≡ (restricting t.now).takes }
{
    match t {
        CType::Pointer(within) => !restricts_function(within.get()),
        CType::Array(within, _) => takes_restrict(within.get()),
        CType::Qualified(_, within) => takes_restrict(within.get()),
        CType::Atomic(within) => takes_restrict(within.get()),
        CType::Error => true,
        _ => false,
    }
}

fn may_take(t: &CType, qualifiers: u8, atomic: bool) -> bool
    ensures { result ≡ may_take qualifiers atomic t.now }
{
    let restricted = qualifiers < 4 || takes_restrict(t);
    let parts = is_array(t) || is_function(t);
    let is_whole = !atomic || !parts;
    restricted && is_whole
}

fn atomic_within(alloc: Global, t: &CType) -> Mem<CType>
    ensures { IfOk result (λ made. made ≡ atomic_within (form (out-CType t.now)) t.now) }
{
    match t {
        CType::Atomic(_) => t.duplicate(alloc),
        CType::Error => t.duplicate(alloc),
        _ => {
            let copy = t.duplicate(alloc)?;
            Ok(CType::Atomic(Shared::new(alloc, copy)?))
        }
    }
}

fn made_atomic(alloc: Global, t: &CType, atomic: bool) -> Mem<CType>
    ensures { IfOk result (λ made. made ≡ made_atomic atomic t.now) }
{
    if !atomic {
        return t.duplicate(alloc);
    }
    match t {
        CType::Qualified(qualifiers, within) => {
            let within = atomic_within(alloc, within.get())?;
            Ok(CType::Qualified(*qualifiers, Shared::new(alloc, within)?))
        }
        _ => atomic_within(alloc, t),
    }
}

/// A type with qualifiers, `_Atomic` among them. None comes exactly where `restrict` stands on no pointer to an object,
/// `_Atomic` on an array or a function (6.7.3p2, p3), and past 1,024 types.
pub fn with_qualifiers(alloc: Global, t: &CType, qualifiers: u8, atomic: bool) -> Mem<Option<CType>>
    ensures { IfOk result (λ made. made ≡ with_qualifiers qualifiers atomic t.now) }
{
    if !may_take(t, qualifiers, atomic) {
        return Ok(None);
    }
    let made = made_atomic(alloc, t, atomic)?;
    let made = qualified(alloc, &made, qualifiers)?;
    Ok(small(made))
}
