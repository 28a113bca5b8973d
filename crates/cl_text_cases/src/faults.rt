//! What is said of a diagnostic.

use cl_base::{Diag, Mem, Name, Span};
use cl_diag::{severity_of, text_of};
use std::alloc::Global;
use std::str;

/// The severity of a number, and what is said of it with this name.
pub(crate) fn said(alloc: Global, number: &[u8], name: &[u8]) -> Mem<Vec<u8>> {
    let number = str::from_utf8(number)
        .unwrap_or("")
        .parse::<u8>()
        .unwrap_or(0);
    let name = if name.is_empty() {
        None
    } else {
        Some(Name::new(alloc, name)?)
    };
    let at = Span {
        file: 0,
        from: 0,
        to: 1,
    };
    let one = Diag { number, at, name };
    let said = text_of(alloc, &one)?;
    let shown = format!(in alloc; "{} {said}", severity_of(number))?;
    Ok(shown.into_bytes())
}
