//! What may be asked about a text.

use crate::duplicate::Duplicate;
use crate::memory::Mem;
use std::alloc::Global;

/// A question about a text.
#[derive(Clone, Copy, PartialEq, Eq)]
pub enum Query {
    /// The symbols of the text (LSP 3.17, textDocument/documentSymbol).
    Symbols,
}

impl Duplicate for Query {
    fn duplicate(&self, _alloc: Global) -> Mem<Query> {
        Ok(*self)
    }
}
