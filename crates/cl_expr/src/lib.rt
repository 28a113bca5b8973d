//! Expressions and external declarations with their one tree, by an engine that reads any nonterminal of the grammar's table.
#![tactic(auto)]

mod edge_rows;
mod expression;
mod goal_rows;
mod look_rows;
mod looks;
mod node;
mod place_rows;
mod places;
mod reader;
mod same;
mod scan;
mod specifiers;
mod table;

pub use expression::{
    ExprTree, Parsed, one_tree, parse, parse_expr, parse_external, parse_from, tree_or_none,
};
pub use specifiers::specifiers_before;
