//! How types are printed, and which are compatible.

use crate::chains::{chain, yes_or_no};
use cl_base::Mem;
use cl_print::print;
use cl_specifiers::pointer_to;
use cl_types::{CType, compatible, composite};
use std::alloc::Global;

/// A name declared with the type of a chain, or `-` where a derivation is refused.
pub(crate) fn printed(alloc: Global, text: &str, name: &str) -> Mem<String> {
    match chain(alloc, text)? {
        Some(t) => print(alloc, &t, name),
        None => Ok(String::from_str(alloc, "-")?),
    }
}

pub(crate) fn are_compatible(alloc: Global, left: &str, right: &str) -> Mem<String> {
    let a = chain(alloc, left)?.unwrap_or(CType::Void);
    let b = chain(alloc, right)?.unwrap_or(CType::Void);
    yes_or_no(alloc, compatible(&a, &b))
}

/// A pointer to the composite of two types, or `-` where they aren't compatible.
pub(crate) fn composite_of(alloc: Global, left: &str, right: &str) -> Mem<String> {
    let a = chain(alloc, left)?.unwrap_or(CType::Void);
    let b = chain(alloc, right)?.unwrap_or(CType::Void);
    if !compatible(&a, &b) {
        return Ok(String::from_str(alloc, "-")?);
    }
    let both = composite(alloc, &a, &b)?;
    match pointer_to(alloc, &both)? {
        Some(pointer) => print(alloc, &pointer, ""),
        None => print(alloc, &both, ""),
    }
}
