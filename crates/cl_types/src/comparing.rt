//! Compatible types (N1570 6.2.7).

ghost use Rattle.std.specs.Prelude.{◌≡◌, ◌==◌, ◌&&◌, length, map};
ghost use Rattle.cl_types.specs.Form.{unqualified};
ghost use Rattle.cl_types.specs.code.Leaves.{same_leaf, same_arithmetic};
ghost use Rattle.cl_types.specs.Compatible.{agree, promoted, is_int, is_enum, is_error, same_params, same_each, all_promoted, compared, compatible};

use crate::types::{Basic, CType, Length, Params, TagWord, basic_of};

/// A type without its own qualifiers.
pub fn unqualified(t: &CType) -> &CType
    ensures { result.now ≡ unqualified t.now }
{
    match t {
        CType::Qualified(_, within) => within.get(),
        other => other,
    }
}

/// Whether two array lengths agree: where both are constant, they are equal.
fn agree(a: Length, b: Length) -> bool
    ensures { result ≡ agree a b }
{
    match (a, b) {
        (Length::Fixed(n), Length::Fixed(m)) => n == m,
        _ => true,
    }
}

/// Whether this is the type of what is in error.
pub fn is_error(t: &CType) -> bool
    ensures { result ≡ is_error t.now }
{
    match t {
        CType::Error => true,
        _ => false,
    }
}

/// Whether the default argument promotions leave a type as it is, qualifiers aside (6.5.2.2p6).
pub fn promoted(t: &CType) -> bool
    ensures { result ≡ promoted t.now }
{
    match t {
        CType::Bool
        | CType::Char
        | CType::SChar
        | CType::UChar
        | CType::Short
        | CType::UShort
        | CType::Float => false,
        CType::Qualified(_, within) => promoted(within.get()),
        _ => true,
    }
}

/// Whether two types without parts are compatible.
fn same_leaf(a: &CType, b: &CType) -> bool
    ensures { result ≡ same_leaf a.now b.now }
{
    match a {
        CType::Void => match b {
            CType::Void => true,
            other => is_error(other),
        },
        CType::Tag(n, word, _) => match b {
            CType::Tag(m, _, _) => n.0 == m.0,
            CType::Int => is_enum(*word),
            other => is_error(other),
        },
        CType::Error => true,
        other => match basic_of(other) {
            Some(k) => same_arithmetic(k, b),
            None => is_error(b),
        },
    }
}

/// Whether this is the word `enum`.
pub fn is_enum(word: TagWord) -> bool
    ensures { result ≡ is_enum word }
{
    match word {
        TagWord::Enum => true,
        _ => false,
    }
}

fn is_int(k: Basic) -> bool
    ensures { result ≡ is_int k }
{
    match k {
        Basic::Int => true,
        _ => false,
    }
}

fn same_arithmetic(k: Basic, b: &CType) -> bool
    ensures { result ≡ same_arithmetic k b.now }
{
    match b {
        CType::Error => true,
        CType::Tag(_, word, _) => if is_int(k) { is_enum(*word) } else { false },
        other => match basic_of(other) {
            Some(j) => k.place() == j.place(),
            None => false,
        },
    }
}

/// Whether two types are compatible (6.2.7). A type in error is compatible with every type.
#[cycle(compare)]
pub fn compatible(a: &CType, b: &CType) -> bool
    ensures { result ≡ compatible a.now b.now }
{
    match a {
        CType::Pointer(t) => match b {
            CType::Pointer(u) => compatible(t.get(), u.get()),
            other => is_error(other),
        },
        CType::Array(t, n) => match b {
            CType::Array(u, m) => if agree(*n, *m) {
                compatible(t.get(), u.get())
            } else {
                false
            },
            other => is_error(other),
        },
        CType::Function(t, ps) => match b {
            CType::Function(u, qs) => if compatible(t.get(), u.get()) {
                same_params(ps, qs)
            } else {
                false
            },
            other => is_error(other),
        },
        CType::Qualified(q, t) => match b {
            CType::Qualified(r, u) => if *q == *r {
                compatible(t.get(), u.get())
            } else {
                false
            },
            other => is_error(other),
        },
        CType::Atomic(t) => match b {
            CType::Atomic(u) => compatible(t.get(), u.get()),
            other => is_error(other),
        },
        leaf => same_leaf(leaf, b),
    }
}

/// Whether two types are compatible, their own qualifiers aside.
#[cycle(compare)]
fn compatible_bare(a: &CType, b: &CType) -> bool
    ensures { result ≡ (compared a.now).bare b.now }
{
    match a {
        CType::Qualified(_, t) => compatible(t.get(), unqualified(b)),
        other => compatible(other, unqualified(b)),
    }
}

/// Whether two parameter lists are alike (6.7.6.3p15).
#[cycle(compare)]
fn same_params(a: &Params, b: &Params) -> bool
    ensures { result ≡ same_params a.now b.now }
{
    match a {
        Params::Proto(ps, more) => match b {
            Params::Proto(qs, also) => if *more == *also {
                same_each(ps.get().as_slice(), qs.get().as_slice())
            } else {
                false
            },
            Params::NoProto => if *more {
                false
            } else {
                all_compared(ps.get().as_slice())
            },
        },
        Params::NoProto => match b {
            Params::Proto(qs, more) => if *more {
                false
            } else {
                all_promoted(qs.get().as_slice())
            },
            Params::NoProto => true,
        },
    }
}

/// Whether these are equally many types, each with its like.
#[cycle(compare)]
fn same_each(ps: &[CType], qs: &[CType]) -> bool
    ensures { result ≡ (length ps.now == length qs.now && same_each (map compared ps.now) qs.now) }
{
    if ps.len() != qs.len() {
        return false;
    }
    for (i, p) in ps.iter().enumerate() {
        if !compatible_bare(p, &qs[i]) {
            return false;
        }
    }
    true
}

fn all_promoted(ps: &[CType]) -> bool
    ensures { result ≡ all_promoted (map promoted ps.now) }
{
    for p in ps {
        if !promoted(p) {
            return false;
        }
    }
    true
}

/// The same of the types within another.
fn all_compared(ps: &[CType]) -> bool
    ensures { result ≡ all_promoted (map (λ c. c.promoted) (map compared ps.now)) }
{
    all_promoted(ps)
}
