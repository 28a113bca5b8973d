//! Arithmetic types and their conversions (N1570 6.3.1.1, 6.3.1.8).

ghost use Rattle.std.specs.Prelude.{◌≡◌, ◌==◌, ◌&&◌, nat_lt, if◌then◌else◌};
ghost use Rattle.cl_types.specs.Kinds.{arithmetic, stripped};
ghost use Rattle.cl_types.specs.Usual.{promoted, usual_basic};
ghost use Rattle.cl_types.specs.code.Levels.{at_level, by_levels, level};

use crate::comparing::{is_enum, unqualified};
use crate::types::{Basic, CType, basic_of};

/// A type without its own qualifiers and `_Atomic`.
pub fn stripped(t: &CType) -> &CType
    ensures { result.now ≡ stripped t.now }
{
    match unqualified(t) {
        CType::Atomic(within) => within.get(),
        other => other,
    }
}

/// The arithmetic type of an operand's value, if it has one. An enumerated type counts as `int` (6.7.2.2p4).
pub fn arithmetic(t: &CType) -> Option<Basic>
    ensures { result ≡ arithmetic t.now }
{
    match stripped(t) {
        CType::Tag(_, word, _) => {
            if is_enum(*word) {
                Some(Basic::Int)
            } else {
                None
            }
        }
        other => basic_of(other),
    }
}

/// The place of a type among those that the conversions give: `int`, `unsigned int`, and so on up to `long double`.
fn level(t: Basic) -> u8
    ensures { result ≡ level t }
{
    match t {
        Basic::UInt => 1,
        Basic::Long => 2,
        Basic::ULong => 3,
        Basic::LLong => 4,
        Basic::ULLong => 5,
        Basic::Float => 6,
        Basic::Double => 7,
        Basic::LDouble => 8,
        _ => 0,
    }
}

fn at_level(level: u8) -> Basic
    ensures { result ≡ at_level level }
{
    match level {
        0 => Basic::Int,
        1 => Basic::UInt,
        2 => Basic::Long,
        3 => Basic::ULong,
        4 => Basic::LLong,
        5 => Basic::ULLong,
        6 => Basic::Float,
        7 => Basic::Double,
        _ => Basic::LDouble,
    }
}

fn by_levels(x: u8, y: u8) -> Basic
    ensures { result ≡ by_levels x y }
{
    let low = smaller(x, y);
    let high = larger(x, y);
    if is_mixed(low, high) {
        Basic::ULLong
    } else {
        at_level(high)
    }
}

fn smaller(x: u8, y: u8) -> u8
    ensures { result ≡ (if nat_lt x y then x else y) }
{
    if x < y { x } else { y }
}

fn larger(x: u8, y: u8) -> u8
    ensures { result ≡ (if nat_lt x y then y else x) }
{
    if x < y { y } else { x }
}

/// Whether these are the places of `unsigned long` and `long long`.
fn is_mixed(low: u8, high: u8) -> bool
    ensures { result ≡ (low == 3 && high == 4) }
{
    low == 3 && high == 4
}

/// The usual arithmetic conversions of arithmetic types that are no enumerations (6.3.1.8).
pub fn usual_basic(a: Basic, b: Basic) -> Basic
    ensures { result ≡ usual_basic a b }
{
    by_levels(level(a), level(b))
}

/// The integer promotions of such a type (6.3.1.1p2).
pub fn promotion(k: Basic) -> Basic
    ensures { result ≡ promoted k }
{
    match k {
        Basic::Bool => Basic::Int,
        Basic::Char => Basic::Int,
        Basic::SChar => Basic::Int,
        Basic::UChar => Basic::Int,
        Basic::Short => Basic::Int,
        Basic::UShort => Basic::Int,
        other => other,
    }
}
