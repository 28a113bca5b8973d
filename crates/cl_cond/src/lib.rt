//! Conditional inclusion (N1570 6.10, 6.10.1): the if-sections of a file, and the value of an `#if`'s condition.
#![tactic(auto)]

mod eval;
mod group;
mod laws;
mod lines;
mod machine;
mod mark;
mod nesting;
mod outcome;
mod trouble;
mod word;

pub use eval::{IfValue, eval_if};
pub use group::groups;
pub use laws::{marks_are_a_group, one_grouping, one_value, some_grouping, some_value};
pub use mark::{Condition, Groups, Mark, Part};
