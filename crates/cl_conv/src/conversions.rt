//! Conversions of arithmetic types (N1570 6.3.1.1, 6.3.1.8).

ghost use Rattle.std.specs.Prelude.{◌≡◌, IfOk};
ghost use Rattle.cl_conv.specs.Operators.{of_basic, promote, usual};

use cl_base::{Duplicate, Mem};
use cl_types::{Basic, CType, arithmetic, promotion, usual_basic};
use std::alloc::Global;

/// The type of this arithmetic type.
pub fn of_basic(k: Basic) -> CType
    ensures { result ≡ of_basic k }
{
    match k {
        Basic::Bool => CType::Bool,
        Basic::Char => CType::Char,
        Basic::SChar => CType::SChar,
        Basic::UChar => CType::UChar,
        Basic::Short => CType::Short,
        Basic::UShort => CType::UShort,
        Basic::Int => CType::Int,
        Basic::UInt => CType::UInt,
        Basic::Long => CType::Long,
        Basic::ULong => CType::ULong,
        Basic::LLong => CType::LLong,
        Basic::ULLong => CType::ULLong,
        Basic::Float => CType::Float,
        Basic::Double => CType::Double,
        Basic::LDouble => CType::LDouble,
    }
}

/// The integer promotions (6.3.1.1p2): `int` of an enumerated type and of a type of lower rank. A type that is not an integer
/// type stays as it is.
pub fn promote(alloc: Global, t: &CType) -> Mem<CType>
    ensures { IfOk result (λ made. made ≡ promote t.now) }
{
    match arithmetic(t) {
        Some(k) => Ok(of_basic(promotion(k))),
        None => t.duplicate(alloc),
    }
}

/// The usual arithmetic conversions (6.3.1.8). Of what isn't arithmetic there is none: the type in error.
pub fn usual(a: &CType, b: &CType) -> CType
    ensures { result ≡ usual a.now b.now }
{
    match arithmetic(a) {
        Some(j) => match arithmetic(b) {
            Some(k) => of_basic(usual_basic(j, k)),
            None => CType::Error,
        },
        None => CType::Error,
    }
}
