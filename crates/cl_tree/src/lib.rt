//! Trees of C, its grammar as one table, and what it is for a tree to derive.
#![tactic(auto)]

mod bad;
mod bracket;
mod class;
mod grammar;
mod lexeme;
mod nonterminal;
mod part_rows;
mod production_rows;
mod rule;
mod scope;
mod set;
mod shape;
mod shared;
mod shared_scope;
mod slot;
mod spelling;
mod tree;

pub use bad::{bad_end, closes_at};
pub use bracket::{bad_extent, brackets};
pub use class::Class;
pub use grammar::{Act, Again, Part, Production, Separator, Span, Symbol, Terminal, Unit};
pub use lexeme::{Lexeme, lexemes, lexemes_to};
pub use nonterminal::Nonterminal;
pub use part_rows::{agains, parts};
pub use production_rows::{productions, units};
pub use rule::Rule;
pub use scope::{Change, Frame, Scope, class_at, learned, pass, text_at};
pub use set::NameSet;
pub use shape::Shape;
pub use shared::Shared;
pub use shared_scope::SharedScope;
pub use tree::Tree;
