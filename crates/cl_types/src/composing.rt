//! Composite types (N1570 6.2.7p3).

ghost use Rattle.std.specs.Prelude.{◌≡◌, false, map, IfOk};
ghost use Rattle.cl_types.specs.code.Pairs.{paired};
ghost use Rattle.cl_types.specs.Composite.{longer, own_listed, composed_params, compose_each, composed, composite, composite_params};

use crate::comparing::unqualified;
use crate::shared::Shared;
use crate::types::{CType, Length, Params};
use cl_base::{Duplicate, List, Mem};
use std::alloc::Global;

/// The length of a composite array: a constant one, else one that is known when the program runs, else one in error.
fn longer(a: Length, b: Length) -> Length
    ensures { result ≡ longer a b }
{
    match a {
        Length::Fixed(n) => Length::Fixed(n),
        Length::Variable => match b {
            Length::Fixed(m) => Length::Fixed(m),
            _ => Length::Variable,
        },
        Length::Unknown => match b {
            Length::Fixed(m) => Length::Fixed(m),
            Length::Variable => Length::Variable,
            _ => Length::Unknown,
        },
        Length::Unsized => b,
    }
}

/// The first of two types that have no like parts.
fn first(alloc: Global, a: &CType, b: &CType) -> Mem<CType>
    requires { paired a.now b.now ≡ false }
    ensures { IfOk result (λ t. t ≡ composite a.now b.now) }
{
    let t = a.duplicate(alloc)?;
    Ok(t)
}

/// A parameter list beside none.
fn unpaired(alloc: Global, a: &Params) -> Mem<Params>
    ensures { IfOk result (λ t. t ≡ own_listed (composed_params a.now)) }
{
    let t = a.duplicate(alloc)?;
    Ok(t)
}

/// The composite of two types (6.2.7p3). Of a type in error and another it is the other. Of types that aren't compatible,
/// and of an enumerated type and `int`, it is the first.
#[cycle(compose)]
pub fn composite(alloc: Global, a: &CType, b: &CType) -> Mem<CType>
    ensures { IfOk result (λ t. t ≡ composite a.now b.now) }
{
    match a {
        CType::Error => b.duplicate(alloc),
        CType::Pointer(t) => match b {
            CType::Pointer(u) => {
                let within = composite(alloc, t.get(), u.get())?;
                Ok(CType::Pointer(Shared::new(alloc, within)?))
            }
            _ => first(alloc, a, b),
        },
        CType::Array(t, n) => match b {
            CType::Array(u, m) => {
                let within = composite(alloc, t.get(), u.get())?;
                Ok(CType::Array(Shared::new(alloc, within)?, longer(*n, *m)))
            }
            _ => first(alloc, a, b),
        },
        CType::Function(t, ps) => match b {
            CType::Function(u, qs) => {
                let within = composite(alloc, t.get(), u.get())?;
                let params = composite_params(alloc, ps, qs)?;
                Ok(CType::Function(Shared::new(alloc, within)?, params))
            }
            _ => first(alloc, a, b),
        },
        CType::Qualified(q, t) => match b {
            CType::Qualified(_, u) => {
                let within = composite(alloc, t.get(), u.get())?;
                Ok(CType::Qualified(*q, Shared::new(alloc, within)?))
            }
            _ => first(alloc, a, b),
        },
        CType::Atomic(t) => match b {
            CType::Atomic(u) => {
                let within = composite(alloc, t.get(), u.get())?;
                Ok(CType::Atomic(Shared::new(alloc, within)?))
            }
            _ => first(alloc, a, b),
        },
        _ => first(alloc, a, b),
    }
}

/// The composite of two types, the qualifiers of both left out.
#[cycle(compose)]
fn composite_bare(alloc: Global, a: &CType, b: &CType) -> Mem<CType>
    ensures { IfOk result (λ t. t ≡ (composed a.now).bare b.now) }
{
    match a {
        CType::Qualified(_, t) => {
            let t = composite(alloc, t.get(), unqualified(b))?;
            Ok(t)
        }
        other => {
            let t = composite(alloc, other, unqualified(b))?;
            Ok(t)
        }
    }
}

/// The composite of two parameter lists.
#[cycle(compose)]
fn composite_params(alloc: Global, a: &Params, b: &Params) -> Mem<Params>
    ensures { IfOk result (λ t. t ≡ composite_params a.now b.now) }
{
    match a {
        Params::Proto(ps, variadic) => match b {
            Params::Proto(qs, _) => {
                let types = composite_each(alloc, ps.get().as_slice(), qs.get().as_slice())?;
                Ok(Params::Proto(Shared::new(alloc, types)?, *variadic))
            }
            Params::NoProto => unpaired(alloc, a),
        },
        Params::NoProto => b.duplicate(alloc),
    }
}

#[cycle(compose)]
fn composite_each(alloc: Global, ps: &[CType], qs: &[CType]) -> Mem<List<CType>>
    ensures { IfOk result (λ ts. ts ≡ compose_each (map composed ps.now) qs.now) }
{
    let mut types = List::new(alloc);
    for (i, p) in ps.iter().enumerate() {
        if i >= qs.len() {
            return Ok(types);
        }
        let t = composite_bare(alloc, p, &qs[i])?;
        types.push(t)?;
    }
    Ok(types)
}
