//! The tokens of a C text, by translation phases 1 to 3 (N1570 5.1.1.2).
#![tactic(auto)]

mod bytes;
mod comment;
mod item;
mod laws;
mod next;
mod pieces;
mod punctuator;
mod quoted;
mod scan;
mod single;
mod source;
mod tokens;
mod universal;

pub use laws::{one_lexing, some_lexing};
pub use single::one_token;
pub use tokens::lex;
