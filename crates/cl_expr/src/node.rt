//! The parts of nodes.

ghost use Rattle.std.specs.Prelude.{◌≡◌, ◌<◌, ◌-◌, ◌^◌, None, true, [], ◌∷◌, max, IfOk};
ghost use Rattle.cl_tree.specs.Scopes as n;
ghost use Rattle.cl_tree.specs.Derives.{start, end, leaf, bad};
ghost use Rattle.cl_tree.specs.declared.rule.Rule.TheVariants as ru;
ghost use Rattle.cl_tree.specs.declared.tree.Tree.{out-Tree};
ghost use Rattle.cl_tree.specs.declared.grammar.Symbol.TheVariants.{Entry};
ghost use Rattle.cl_expr.specs.code.Table as t;

use crate::places::is_scoped;
use crate::table::Edge;
use cl_base::{List, Mem};
use cl_tree::{Rule, SharedScope, Symbol, Tree};
use std::alloc::Global;

/// The larger of two heights.
pub fn larger(a: u32, b: u32) -> u32
    ensures { result ≡ max a b }
{
    if a < b { b } else { a }
}

/// The node of a token.
pub fn token_leaf(alloc: Global, at: u32) -> Tree
    requires { at < 2 ^ 32 - 1 }
    ensures { result ≡ leaf at }
{
    Tree {
        rule: Rule::Token,
        choice: 0,
        from: at,
        to: at + 1,
        parts: List::new(alloc),
    }
}

/// The node of what is no item.
pub fn bad_tree(alloc: Global, from: u32, to: u32) -> Tree
    ensures { result ≡ bad from to }
{
    Tree {
        rule: Rule::Bad,
        choice: 0,
        from,
        to,
        parts: List::new(alloc),
    }
}

/// A list of one tree.
pub fn one(alloc: Global, a: Tree) -> Mem<List<Tree>>
    ensures { IfOk result (λ parts. parts ≡ a ∷ []) }
{
    let mut parts = List::new(alloc);
    parts.push(a)?;
    Ok(parts)
}

/// What is declared after a node that ends at a place: a block's names are gone.
pub fn leave(place: u16, before: &SharedScope, inside: SharedScope) -> Mem<SharedScope>
    ensures { IfOk result (λ after. after ≡ n.leave (t.scoped place) before.now inside) }
{
    let scoped = is_scoped(place);
    if scoped { before.share() } else { Ok(inside) }
}

/// Whether an item of a block stands at an edge, after nothing else.
pub fn is_entry(edge: Edge) -> bool
    ensures { result ≡ true → (edge.before ≡ None) × (edge.symbol ≡ Entry) }
{
    match edge.before {
        Some(_) => false,
        None => match edge.symbol {
            Symbol::Entry => true,
            Symbol::Token(_, _) | Symbol::Node(_) => false,
        },
    }
}

/// Where what is no item of a block begins; the end of any other tree.
pub fn failed_at(tree: &Tree) -> u32
    ensures { result < end tree.now → ((out-Tree tree.now).rule ≡ ru.Bad) × (result ≡ start tree.now) }
{
    match tree.rule {
        Rule::Bad => tree.from,
        _ => tree.to,
    }
}
