//! Where the parser goes: places in the productions, as numbers of rows.

use cl_tree::{Nonterminal, Rule, Separator, Span, Symbol, Terminal};

/// What may stand at a place, and the place after it.
#[derive(Clone, Copy)]
pub struct Edge {
    pub before: Option<Separator>,
    pub symbol: Symbol,
    pub next: u16,
}

/// The rule and alternative of a node.
#[derive(Clone, Copy)]
pub struct Label {
    pub rule: Rule,
    pub choice: u8,
}

/// A nonterminal that is read before it is known which production it begins, and the place after it.
#[derive(Clone, Copy)]
pub struct Head {
    pub goal: Nonterminal,
    pub next: u16,
}

/// The places after a declarator that names something, and after any other one; or after a statement that ends with an `if`
/// without `else`, and after any other one.
#[derive(Clone, Copy)]
pub struct Ways {
    pub named: u16,
    pub other: u16,
}

/// A place: its edges as a range of all of them, the node that may end there, what may not follow it then and whether it is a
/// block, the nonterminal with which its production begins if that is read before, the places after a part whose kind
/// decides, and whether the node is a declarator that names something or a statement that ends with an `if` without `else`.
#[derive(Clone, Copy)]
pub struct Row {
    pub first: u16,
    pub last: u16,
    pub label: Option<Label>,
    pub bar: Option<Terminal>,
    pub scoped: bool,
    pub corner: Option<Head>,
    pub turning: Option<Ways>,
    pub named: bool,
}

/// A nonterminal: the places where its trees end, those at its left end and those that go on from there, as ranges, and the
/// tokens that may not begin it.
#[derive(Clone, Copy)]
pub struct GoalRow {
    pub kinds: Span,
    pub openers: Span,
    pub suffixes: Span,
    pub shuns: Option<Terminal>,
}
