//! The values of conditions.

use crate::macros::run_of;
use cl_base::Mem;
use cl_cond::{IfValue, eval_if};
use std::alloc::Global;

/// The value of a condition, with `u` where it is unsigned, or the number of the token at fault.
pub(crate) fn value(alloc: Global, condition: &[u8]) -> Mem<Vec<u8>> {
    let tokens = run_of(alloc, condition)?;
    let text = match eval_if(alloc, tokens.as_slice())? {
        IfValue::Value {
            bits,
            unsigned: true,
        } => format!(in alloc; "{bits}u")?,
        IfValue::Value {
            bits,
            unsigned: false,
        } => {
            let value = bits.cast_signed();
            format!(in alloc; "{value}")?
        }
        IfValue::BadIf { place } => format!(in alloc; "bad {place}")?,
    };
    Ok(text.into_bytes())
}
