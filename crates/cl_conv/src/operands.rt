//! Operands, and what they are for an operator.

ghost use Rattle.std.specs.Prelude.{◌≡◌, IfOk};
ghost use Rattle.std.specs.Option.{option_copied};
ghost use Rattle.cl_conv.specs.Operands.{alike, is_arithmetic, is_array, is_bool, is_const, is_function, is_integer, is_object_pointer, is_pointer, is_record, is_scalar, is_void, is_void_pointer, object_and_void, same_pointers, same_record, target, value_type};

use cl_base::{Duplicate, Mem};
use cl_types::{
    CType, Shared, arithmetic, compatible, is_enum, qualifiers_of, stripped, unqualified,
};
use std::alloc::Global;

/// The type of an operand's value: an array becomes a pointer to its element, a function a pointer to it, and any other type
/// loses its qualifiers and `_Atomic` (6.3.2.1p2 to p4).
pub fn value_type(alloc: Global, t: &CType) -> Mem<CType>
    ensures { IfOk result (λ made. made ≡ value_type t.now) }
{
    let bare = stripped(t);
    match bare {
        CType::Array(within, _) => {
            let within = within.share()?;
            Ok(CType::Pointer(within))
        }
        CType::Function(_, _) => {
            let copy = bare.duplicate(alloc)?;
            Ok(CType::Pointer(Shared::new(alloc, copy)?))
        }
        _ => bare.duplicate(alloc),
    }
}

/// What an operand's value points to, if it is a pointer.
pub fn target(t: &CType) -> Option<&CType>
    ensures { option_copied result ≡ target t.now }
{
    let bare = stripped(t);
    match bare {
        CType::Pointer(within) => Some(within.get()),
        CType::Array(within, _) => Some(within.get()),
        CType::Function(_, _) => Some(bare),
        _ => None,
    }
}

/// Whether an operand's value is of arithmetic type; enumerated types are.
pub fn is_arithmetic(t: &CType) -> bool
    ensures { result ≡ is_arithmetic t.now }
{
    match arithmetic(t) {
        Some(_) => true,
        None => false,
    }
}

/// Whether an operand's value is of integer type; enumerated types are.
pub fn is_integer(t: &CType) -> bool
    ensures { result ≡ is_integer t.now }
{
    match arithmetic(t) {
        Some(k) => k.place() <= 11,
        None => false,
    }
}

/// Whether an operand's value is a pointer.
pub fn is_pointer(t: &CType) -> bool
    ensures { result ≡ is_pointer t.now }
{
    match target(t) {
        Some(_) => true,
        None => false,
    }
}

/// Whether an operand's value is of arithmetic type or a pointer.
pub fn is_scalar(t: &CType) -> bool
    ensures { result ≡ is_scalar t.now }
{
    is_arithmetic(t) || is_pointer(t)
}

/// Whether a type is a function type, as it stands.
pub fn is_function(t: &CType) -> bool
    ensures { result ≡ is_function t.now }
{
    match t {
        CType::Function(_, _) => true,
        _ => false,
    }
}

/// Whether a type is an array type, as it stands.
pub fn is_array(t: &CType) -> bool
    ensures { result ≡ is_array t.now }
{
    match t {
        CType::Array(_, _) => true,
        _ => false,
    }
}

/// Whether a type is void, its qualifiers aside.
pub fn is_void(t: &CType) -> bool
    ensures { result ≡ is_void t.now }
{
    match stripped(t) {
        CType::Void => true,
        _ => false,
    }
}

/// Whether a type is `_Bool`, its qualifiers and `_Atomic` aside.
pub fn is_bool(t: &CType) -> bool
    ensures { result ≡ is_bool t.now }
{
    match stripped(t) {
        CType::Bool => true,
        _ => false,
    }
}

/// Whether a type is a structure or a union.
pub fn is_record(t: &CType) -> bool
    ensures { result ≡ is_record t.now }
{
    match stripped(t) {
        CType::Tag(_, word, _) => !is_enum(*word),
        _ => false,
    }
}

/// Whether an operand's value is a pointer that points to no function.
pub fn is_object_pointer(t: &CType) -> bool
    ensures { result ≡ is_object_pointer t.now }
{
    match target(t) {
        Some(within) => !is_function(within),
        None => false,
    }
}

/// Whether an operand's value is a pointer to void.
pub fn is_void_pointer(t: &CType) -> bool
    ensures { result ≡ is_void_pointer t.now }
{
    match target(t) {
        Some(within) => is_void(within),
        None => false,
    }
}

/// Whether these are two pointers to compatible types, qualifiers aside.
pub fn same_pointers(a: &CType, b: &CType) -> bool
    ensures { result ≡ same_pointers a.now b.now }
{
    match target(a) {
        Some(t) => match target(b) {
            Some(u) => compatible(unqualified(t), unqualified(u)),
            None => false,
        },
        None => false,
    }
}

/// Whether these are a pointer to an object and a pointer to void.
pub fn object_and_void(a: &CType, b: &CType) -> bool
    ensures { result ≡ object_and_void a.now b.now }
{
    let forward = is_object_pointer(a) && is_void_pointer(b);
    let backward = is_void_pointer(a) && is_object_pointer(b);
    forward || backward
}

/// Whether these are one structure or union type.
pub fn same_record(a: &CType, b: &CType) -> bool
    ensures { result ≡ same_record a.now b.now }
{
    is_record(a) && (is_record(b) && compatible(stripped(a), stripped(b)))
}

/// Whether a type is `const`-qualified.
pub fn is_const(t: &CType) -> bool
    ensures { result ≡ is_const t.now }
{
    let qualifiers = qualifiers_of(t);
    qualifiers == 1 || (qualifiers == 3 || (qualifiers == 5 || qualifiers == 7))
}
