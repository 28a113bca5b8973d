//! What a file is made of.

use cl_tree::Tree;

/// An item of a file (N1570 6.9), by the numbers of its tokens from 0.
#[derive(Drop)]
pub enum Item {
    /// An external declaration, with its tree, which stands over just the item's tokens.
    Proper(Tree),
    /// What is none: from the first token up to, and without, the second one. It goes past the first `;` outside its brackets
    /// or the first brace group there, whichever ends first, or up to the end of the tokens.
    Bad(u32, u32),
}
