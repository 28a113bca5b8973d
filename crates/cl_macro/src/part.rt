//! The parts of a macro's body.

use crate::word::Word;

/// A part of a body whose parameters stand for their arguments (N1570 6.10.3.3).
#[derive(Drop)]
pub enum Part {
    /// A token.
    Token(Word),
    /// A placemarker, with white space before it or not.
    Marker(bool),
    /// The operator `##`.
    Paste,
}
