//! Types as trees.

ghost use Rattle.std.specs.Prelude.{◌≡◌};
ghost use Rattle.cl_types.specs.Form.{basic_of, place};

use crate::shared::Shared;
use cl_base::{List, Name};

/// The number of a declaration of a unit, from 0, in the order of their declarators.
#[derive(Clone, Copy)]
pub struct DeclNo(pub u32);

/// The word of a tag (N1570 6.7.2.1, 6.7.2.2).
#[derive(Clone, Copy)]
pub enum TagWord {
    Struct,
    Union,
    Enum,
}

/// The length of an array (N1570 6.7.6.2): a constant, none, one that is known when the program runs, or one that is in error.
#[derive(Clone, Copy)]
pub enum Length {
    Fixed(u64),
    Unsized,
    Variable,
    Unknown,
}

/// A type (N1570 6.2.5). Its parts are shared: a copy costs a count or two, whatever the type's size.
///
/// `Qualified` has the sum of 1 for `const`, 2 for `volatile` and 4 for `restrict`. `Tag` has the number of the first
/// declaration of the structure, union or enumeration. `Error` is the type of what has none.
#[cycle(types)]
#[derive(Drop)]
pub enum CType {
    Void,
    Bool,
    Char,
    SChar,
    UChar,
    Short,
    UShort,
    Int,
    UInt,
    Long,
    ULong,
    LLong,
    ULLong,
    Float,
    Double,
    LDouble,
    Pointer(Shared<CType>),
    Array(Shared<CType>, Length),
    Function(Shared<CType>, Params),
    Tag(DeclNo, TagWord, Option<Name>),
    Qualified(u8, Shared<CType>),
    Atomic(Shared<CType>),
    Error,
}

/// The parameters of a function type (N1570 6.7.6.3): their types and whether `, ...` follows, or nothing known.
#[cycle(types)]
#[derive(Drop)]
pub enum Params {
    Proto(Shared<List<CType>>, bool),
    NoProto,
}

/// An arithmetic type that is no enumeration (N1570 6.2.5p14, p18).
#[derive(Clone, Copy)]
pub enum Basic {
    Bool,
    Char,
    SChar,
    UChar,
    Short,
    UShort,
    Int,
    UInt,
    Long,
    ULong,
    LLong,
    ULLong,
    Float,
    Double,
    LDouble,
}

impl Basic {
    /// The place of this type in the list of 6.2.5, from 0.
    pub fn place(self) -> u8
        ensures { result ≡ place self }
    {
        self as u8
    }
}

/// The arithmetic type that this is, if it is one and no enumeration.
pub fn basic_of(t: &CType) -> Option<Basic>
    ensures { result ≡ basic_of t.now }
{
    match t {
        CType::Bool => Some(Basic::Bool),
        CType::Char => Some(Basic::Char),
        CType::SChar => Some(Basic::SChar),
        CType::UChar => Some(Basic::UChar),
        CType::Short => Some(Basic::Short),
        CType::UShort => Some(Basic::UShort),
        CType::Int => Some(Basic::Int),
        CType::UInt => Some(Basic::UInt),
        CType::Long => Some(Basic::Long),
        CType::ULong => Some(Basic::ULong),
        CType::LLong => Some(Basic::LLong),
        CType::ULLong => Some(Basic::ULLong),
        CType::Float => Some(Basic::Float),
        CType::Double => Some(Basic::Double),
        CType::LDouble => Some(Basic::LDouble),
        _ => None,
    }
}
