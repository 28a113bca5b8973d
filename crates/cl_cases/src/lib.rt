//! How bytes stand in a line of a table of cases.
#![tactic(auto)]

mod escape;

pub use escape::{escaped, unescaped};
