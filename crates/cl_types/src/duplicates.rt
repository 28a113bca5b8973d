//! Copies of types, which share their parts.

ghost use Rattle.std.specs.Prelude.{◌≡◌, IfOk};

use crate::types::{CType, Params};
use cl_base::{Duplicate, Mem, Name};
use std::alloc::Global;

impl Duplicate for CType {
    fn duplicate(&self, alloc: Global) -> Mem<CType> {
        match self {
            CType::Void => Ok(CType::Void),
            CType::Bool => Ok(CType::Bool),
            CType::Char => Ok(CType::Char),
            CType::SChar => Ok(CType::SChar),
            CType::UChar => Ok(CType::UChar),
            CType::Short => Ok(CType::Short),
            CType::UShort => Ok(CType::UShort),
            CType::Int => Ok(CType::Int),
            CType::UInt => Ok(CType::UInt),
            CType::Long => Ok(CType::Long),
            CType::ULong => Ok(CType::ULong),
            CType::LLong => Ok(CType::LLong),
            CType::ULLong => Ok(CType::ULLong),
            CType::Float => Ok(CType::Float),
            CType::Double => Ok(CType::Double),
            CType::LDouble => Ok(CType::LDouble),
            CType::Pointer(within) => Ok(CType::Pointer(within.share()?)),
            CType::Array(within, length) => Ok(CType::Array(within.share()?, *length)),
            CType::Function(within, params) => {
                let params = params.duplicate(alloc)?;
                Ok(CType::Function(within.share()?, params))
            }
            CType::Tag(number, word, name) => {
                let name = duplicate_name(alloc, name)?;
                Ok(CType::Tag(*number, *word, name))
            }
            CType::Qualified(qualifiers, within) => Ok(CType::Qualified(
                *qualifiers,
                within.share()?,
            )),
            CType::Atomic(within) => Ok(CType::Atomic(within.share()?)),
            CType::Error => Ok(CType::Error),
        }
    }
}

impl Duplicate for Params {
    fn duplicate(&self, _alloc: Global) -> Mem<Params> {
        match self {
            Params::Proto(types, variadic) => Ok(Params::Proto(types.share()?, *variadic)),
            Params::NoProto => Ok(Params::NoProto),
        }
    }
}

fn duplicate_name(alloc: Global, name: &Option<Name>) -> Mem<Option<Name>>
    ensures { IfOk result (λ copy. copy ≡ name.now) }
{
    match name {
        Some(name) => {
            let name = name.duplicate(alloc)?;
            Ok(Some(name))
        }
        None => Ok(None),
    }
}
