//! The grammar of expressions, declarations, statements and function definitions: N1570 A.2, in the standard's order.

use crate::class::Class;
use crate::nonterminal::Nonterminal;
use crate::rule::Rule;

/// The tokens that a production takes at a place.
#[derive(Clone, Copy)]
pub enum Terminal {
    /// Those of one class.
    Is(Class),
    /// An identifier, a typedef name too.
    Name,
    /// Any `(`.
    Open,
    /// `(` before what may begin a type.
    TypeOpen,
    /// A typedef name.
    Typed,
    /// An identifier directly before `:`.
    Label,
    /// An identifier that is a typedef name, or stands directly before `:`.
    Marked,
}

/// What reading a token does to the names that are declared.
#[derive(Clone, Copy)]
pub enum Act {
    /// Nothing.
    Stay,
    /// What is declared from here on is a typedef name.
    Typedef,
    /// The token is the name that is being declared.
    Name,
    /// The name that is being declared is so from here on.
    Declare,
    /// The same, and what is declared after it is no typedef name.
    Finish,
    /// The name that is being declared is a member and hides nothing.
    Forget,
    /// A list of parameters, members or enumerators begins, or a block.
    Open,
    /// A list of parameters or a block ends, and its names with it.
    Close,
    /// A list of members or enumerators ends; its names stay.
    Shut,
    /// The body of a function begins: its name is declared, and in the body what its list of parameters declared.
    Begin,
}

/// A symbol of a right side.
#[derive(Clone, Copy)]
pub enum Symbol {
    /// A token, and what it does to the names.
    Token(Terminal, Act),
    /// A tree of a nonterminal.
    Node(Nonterminal),
    /// An item of a block, or where none derives what is no item.
    Entry,
}

/// A part of a right side.
#[derive(Clone, Copy)]
pub enum Part {
    /// Stands once.
    One(Symbol),
    /// May be left out.
    Optional(Symbol),
    /// Stands any number of times, also not at all.
    Many(Symbol),
}

/// A separator of a list's members, and what it does to the names.
#[derive(Clone, Copy)]
pub struct Separator {
    pub class: Class,
    pub act: Act,
}

/// How a list goes on after a member: a separator, and the part of the right side with which the next member begins.
#[derive(Clone, Copy)]
pub struct Again {
    pub separator: Separator,
    pub part: u8,
}

/// A part of a list, from one place up to, and without, another.
#[derive(Clone, Copy)]
pub struct Span {
    pub from: u16,
    pub to: u16,
}

/// A production that makes a node: its nonterminal, the node's rule and the number of the alternative, from 0, its right side
/// in `parts()`, how a list goes on in `agains()`, which tokens may not follow, and whether what is declared in it is gone after it.
#[derive(Clone, Copy)]
pub struct Production {
    pub of: Nonterminal,
    pub rule: Rule,
    pub choice: u8,
    pub parts: Span,
    pub again: Span,
    pub bar: Option<Terminal>,
    pub scoped: bool,
}

/// A production whose right side is one nonterminal: its tree stands for the other one.
#[derive(Clone, Copy)]
pub struct Unit {
    pub of: Nonterminal,
    pub by: Nonterminal,
}
