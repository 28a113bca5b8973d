//! What a text is made of.

use cl_base::Kind;

/// What a part of a text is (N1570 6.4).
#[derive(Clone, Copy)]
pub enum ItemKind {
    /// A preprocessing token.
    Token(Kind),
    /// A comment.
    Comment,
    /// The start of a comment that has no end, and all that follows.
    OpenComment,
    /// White space within a line.
    Space,
    /// The end of a line.
    NewLine,
}

/// A part of a text: from the character `from` up to, and without, the character `to`, both from 0. The characters are
/// those after translation phases 1 and 2.
#[derive(Clone, Copy)]
pub struct Item {
    pub kind: ItemKind,
    pub from: usize,
    pub to: usize,
}

/// What stands on a line so far.
#[derive(Clone, Copy, PartialEq, Eq)]
pub enum Line {
    /// No token.
    Start,
    /// `#` alone.
    Hash,
    /// `#` and `include`: a header name may follow.
    Include,
    /// Any other tokens.
    Rest,
}
