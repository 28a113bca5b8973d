//! Types written as chains: a letter for the base, and one for each derivation from it.

use cl_base::{List, Mem, Name};
use cl_print::print;
use cl_specifiers::{array_of, atomic_of, function_of, pointer_to, with_qualifiers};
use cl_types::{CType, DeclNo, Length, Operand, Params, Shared, TagWord};
use std::alloc::Global;

fn tag(alloc: Global, number: u32, word: TagWord, name: &str) -> Mem<CType> {
    let name = Name::new(alloc, name.as_bytes())?;
    Ok(CType::Tag(DeclNo(number), word, Some(name)))
}

/// The base of a letter: the arithmetic types in `BcaCsSiIlLqQfdD`, `v`, a structure, a union and an enumeration.
pub(crate) fn base(alloc: Global, letter: u8) -> Mem<CType> {
    match letter {
        b'B' => Ok(CType::Bool),
        b'c' => Ok(CType::Char),
        b'a' => Ok(CType::SChar),
        b'C' => Ok(CType::UChar),
        b's' => Ok(CType::Short),
        b'S' => Ok(CType::UShort),
        b'i' => Ok(CType::Int),
        b'I' => Ok(CType::UInt),
        b'l' => Ok(CType::Long),
        b'L' => Ok(CType::ULong),
        b'q' => Ok(CType::LLong),
        b'Q' => Ok(CType::ULLong),
        b'f' => Ok(CType::Float),
        b'd' => Ok(CType::Double),
        b'D' => Ok(CType::LDouble),
        b'v' => Ok(CType::Void),
        b't' => tag(alloc, 1, TagWord::Struct, "T"),
        b'u' => tag(alloc, 2, TagWord::Union, "U"),
        b'e' => tag(alloc, 3, TagWord::Enum, "E"),
        b'T' => Ok(CType::Tag(DeclNo(4), TagWord::Struct, None)),
        b'X' => Ok(CType::Tag(DeclNo(0), TagWord::Struct, None)),
        b'Y' => Ok(CType::Tag(DeclNo(0), TagWord::Union, None)),
        b'Z' => Ok(CType::Tag(DeclNo(1), TagWord::Struct, None)),
        b'W' => Ok(CType::Tag(DeclNo(1), TagWord::Union, None)),
        _ => Ok(CType::Error),
    }
}

/// A prototype of no parameters, or of `int, char *, ...`.
fn prototype(alloc: Global, variadic: bool) -> Mem<Params> {
    let mut types = List::new(alloc);
    if variadic {
        types.push(CType::Int)?;
        let text = Shared::new(alloc, CType::Char)?;
        types.push(CType::Pointer(text))?;
    }
    Ok(Params::Proto(Shared::new(alloc, types)?, variadic))
}

/// A prototype of one parameter of type `float` or of type `double`.
fn prototype_of(alloc: Global, t: CType) -> Mem<Params> {
    let mut types = List::new(alloc);
    types.push(t)?;
    Ok(Params::Proto(Shared::new(alloc, types)?, false))
}

/// One derivation: `*` a pointer, a digit an array of so many, `0` of no length, `n` of variable length, `?` of unknown length,
/// `(` a function of no parameters, `)` one without prototype, `.` one of `int, char *, ...`, `F` of `float`, `G` of `double`,
/// `k` `const`, `w` `volatile`, `r` `restrict`, `A` `_Atomic(T)`.
fn derived(alloc: Global, t: &CType, letter: u8) -> Mem<Option<CType>> {
    match letter {
        b'*' => pointer_to(alloc, t),
        b'0' => array_of(alloc, t, Length::Unsized, true),
        b'2' => array_of(alloc, t, Length::Fixed(2), true),
        b'3' => array_of(alloc, t, Length::Fixed(3), true),
        b'7' => array_of(alloc, t, Length::Fixed(7), true),
        b'n' => array_of(alloc, t, Length::Variable, true),
        b'?' => array_of(alloc, t, Length::Unknown, true),
        b'(' => function_of(alloc, t, prototype(alloc, false)?),
        b')' => function_of(alloc, t, Params::NoProto),
        b'.' => function_of(alloc, t, prototype(alloc, true)?),
        b'F' => function_of(alloc, t, prototype_of(alloc, CType::Float)?),
        b'G' => function_of(alloc, t, prototype_of(alloc, CType::Double)?),
        b'k' => with_qualifiers(alloc, t, 1, false),
        b'w' => with_qualifiers(alloc, t, 2, false),
        b'r' => with_qualifiers(alloc, t, 4, false),
        b'A' => atomic_of(alloc, t),
        _ => Ok(None),
    }
}

/// The type of a chain, or None where a derivation is refused.
pub(crate) fn chain(alloc: Global, text: &str) -> Mem<Option<CType>> {
    let mut t = CType::Error;
    for (i, letter) in text.as_bytes().iter().enumerate() {
        if i == 0 {
            t = base(alloc, *letter)?;
        } else {
            match derived(alloc, &t, *letter)? {
                Some(made) => t = made,
                None => return Ok(None),
            }
        }
    }
    Ok(Some(t))
}

/// An lvalue of the type of a chain; `N` is the constant 0, `V` is `(void *)0`.
pub(crate) fn operand(alloc: Global, text: &str) -> Mem<Operand> {
    match text {
        "N" => Ok(constant(CType::Int)),
        "V" => {
            let void = Shared::new(alloc, CType::Void)?;
            Ok(constant(CType::Pointer(void)))
        }
        _ => {
            let ty = chain(alloc, text)?.unwrap_or(CType::Error);
            Ok(Operand {
                ty,
                lvalue: true,
                bit_field: false,
                register: false,
                null: false,
            })
        }
    }
}

fn constant(ty: CType) -> Operand {
    Operand {
        ty,
        lvalue: false,
        bit_field: false,
        register: false,
        null: true,
    }
}

/// `yes` or `no`.
pub(crate) fn yes_or_no(alloc: Global, holds: bool) -> Mem<String> {
    let word = if holds { "yes" } else { "no" };
    Ok(String::from_str(alloc, word)?)
}

/// The type that is told, or `-` for none.
pub(crate) fn said(alloc: Global, t: Option<CType>) -> Mem<String> {
    match t {
        Some(t) => print(alloc, &t, ""),
        None => Ok(String::from_str(alloc, "-")?),
    }
}
