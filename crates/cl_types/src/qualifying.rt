//! Qualified types (N1570 6.2.5p26, 6.7.3).

ghost use Rattle.std.specs.Prelude.{◌≡◌, IfOk};
ghost use Rattle.cl_types.specs.Qualify.{qualified, qualifiers_of, with_qualifiers};

use crate::shared::Shared;
use crate::types::CType;
use cl_base::{Duplicate, Mem};
use std::alloc::Global;

/// A type's own qualifiers: the sum of 1 for `const`, 2 for `volatile` and 4 for `restrict`.
pub fn qualifiers_of(t: &CType) -> u8
    ensures { result ≡ qualifiers_of t.now }
{
    match t {
        CType::Qualified(qualifiers, _) => *qualifiers,
        _ => 0,
    }
}

/// A type with qualifiers added. Those of an array go to its elements (6.7.3p9); a function and a type in error take none.
pub fn qualified(alloc: Global, t: &CType, qualifiers: u8) -> Mem<CType>
    ensures { IfOk result (λ made. made ≡ qualified qualifiers t.now) }
{
    match t {
        CType::Array(within, length) => {
            let within = qualified(alloc, within.get(), qualifiers)?;
            Ok(CType::Array(Shared::new(alloc, within)?, *length))
        }
        CType::Qualified(own, within) => {
            let within = within.share()?;
            Ok(CType::Qualified(*own | qualifiers, within))
        }
        CType::Function(_, _) => t.duplicate(alloc),
        CType::Error => t.duplicate(alloc),
        _ => with_qualifiers(alloc, t, qualifiers),
    }
}

fn with_qualifiers(alloc: Global, t: &CType, qualifiers: u8) -> Mem<CType>
    ensures { IfOk result (λ made. made ≡ with_qualifiers qualifiers t.now) }
{
    let copy = t.duplicate(alloc)?;
    if qualifiers == 0 {
        Ok(copy)
    } else {
        Ok(CType::Qualified(qualifiers, Shared::new(alloc, copy)?))
    }
}
